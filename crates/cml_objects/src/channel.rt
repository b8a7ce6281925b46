//! Channels, over which a sender and a receiver meet.

ghost use Rattle.std.specs.Prelude.{◌≡◌};
ghost use Rattle.cml_objects.specs.Sides as spec;

use crate::Paired;
use cml_value::{Base, BaseKind, ChanId, Value, ValueKind};

/// What a thread that waits on a channel brings: Reppy's `sendEvt` and `recvEvt`.
#[derive(Drop)]
pub enum ChannelSide {
    /// It sends the value on the channel.
    Send(ChanId, Value),
    /// It receives on the channel.
    Recv(ChanId),
}

/// Channels, as a kind of object over which two threads meet. The sender stands first.
pub struct Channels;

impl Paired for Channels {
    ghost use Rattle.std.specs.Prelude.{false};
    ghost use Rattle.cml_objects.specs.{Sides.{channel_of, is_sender, handed_by, meet, side_in}, SideLaws.{sides_meet, sides_lead}};

    type Side = ChannelSide;

    ghost ONE_LANE = { false };

    ghost key_of = { channel_of };

    ghost is_head = { is_sender };

    ghost handed = { handed_by };

    ghost do_meet = { meet };

    ghost side_of = { side_in };

    const ONE_LANE: bool = false;

    fn key(side: &ChannelSide) -> u32 {
        match side {
            ChannelSide::Send(c, _) => c.0,
            ChannelSide::Recv(c) => c.0,
        }
    }

    fn meets(first: &ChannelSide, second: &ChannelSide) -> bool {
        match (first, second) {
            (ChannelSide::Send(c, _), ChannelSide::Recv(d)) => c.0 == d.0,
            (ChannelSide::Recv(c), ChannelSide::Send(d, _)) => c.0 == d.0,
            _ => false,
        }
    }

    fn heads(side: &ChannelSide) -> bool {
        match side {
            ChannelSide::Send(_, _) => true,
            ChannelSide::Recv(_) => false,
        }
    }

    fn hands(first: ChannelSide, second: ChannelSide) -> (Value, Value) {
        let to_second = handed(first);
        (handed(second), to_second)
    }

    fn side(base: Base) -> Option<ChannelSide> {
        match base.into_kind() {
            BaseKind::Send(c, v) => Some(ChannelSide::Send(c, v)),
            BaseKind::Recv(c) => Some(ChannelSide::Recv(c)),
            _ => None,
        }
    }

    fn place(base: &Base) -> Option<(u32, bool)> {
        match base.kind() {
            BaseKind::Send(c, _) => Some((c.0, true)),
            BaseKind::Recv(c) => Some((c.0, false)),
            _ => None,
        }
    }

    ghost meeting = { sides_meet };

    ghost leading = { sides_lead };
}

// What the side hands to the one that it meets.
fn handed(side: ChannelSide) -> Value
    ensures { result ≡ spec.handed_by side }
{
    match side {
        ChannelSide::Send(_, v) => v,
        ChannelSide::Recv(_) => Value::new(ValueKind::Unit),
    }
}
