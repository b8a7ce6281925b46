//! Swap channels, over which two threads exchange values.

use crate::Paired;
use cml_value::{Base, BaseKind, SwapId, Value};

/// What a thread that waits on a swap channel brings: the value that it gives for another one.
#[derive(Drop)]
pub struct SwapSide {
    /// The swap channel.
    pub on: SwapId,
    /// The value.
    pub value: Value,
}

/// Swap channels, as a kind of object over which two threads meet. Any two swaps on one swap channel meet, and either can
/// be the head. `PairedKind::partner_threads` decides: the head is the swap of the thread with the lower number.
pub struct SwapChannels;

impl Paired for SwapChannels {
    ghost use Rattle.std.specs.Prelude.{true};
    ghost use Rattle.cml_objects.specs.{Swaps.{channel_of, can_stand_first, handed_by, meet, side_in}, SwapLaws.{sides_meet, sides_lead}};

    type Side = SwapSide;

    ghost ONE_LANE = { true };

    ghost key_of = { channel_of };

    ghost is_head = { can_stand_first };

    ghost handed = { handed_by };

    ghost do_meet = { meet };

    ghost side_of = { side_in };

    const ONE_LANE: bool = true;

    fn key(side: &SwapSide) -> u32 {
        side.on.0
    }

    fn meets(first: &SwapSide, second: &SwapSide) -> bool {
        first.on.0 == second.on.0
    }

    fn heads(_side: &SwapSide) -> bool {
        true
    }

    fn hands(first: SwapSide, second: SwapSide) -> (Value, Value) {
        (second.value, first.value)
    }

    fn side(base: Base) -> Option<SwapSide> {
        match base.into_kind() {
            BaseKind::Swap(on, value) => Some(SwapSide { on, value }),
            _ => None,
        }
    }

    fn place(base: &Base) -> Option<(u32, bool)> {
        match base.kind() {
            BaseKind::Swap(on, _) => Some((on.0, true)),
            _ => None,
        }
    }

    ghost meeting = { sides_meet };

    ghost leading = { sides_lead };
}
