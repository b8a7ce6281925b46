//! Groups with leaves on both sides of one channel.

ghost use Rattle.std.specs.{Prelude.{◌≡◌, ◌≤◌, if◌then◌else◌, map}, List.{list_any}};
ghost use Rattle.cml_index.specs.Slots.{slot_in};
ghost use Rattle.cml_index.specs.Crossing as spec;

use crate::slot::{Slot, Wait, count_in};

// How many leaves a group has at most that are compared with one another.
const FEW: usize = 64;

// Whether a leaf stands on this side of an object.
fn is_on(wait: Wait, heads: bool) -> bool
    ensures { result ≡ spec.is_on heads (slot_in wait) }
{
    match wait.slot() {
        Some(Slot::Side { heads: own, .. }) => own == heads,
        _ => false,
    }
}

// Whether one of these leaves stands on this side of an object.
fn has_side(waits: &[Wait], heads: bool) -> bool
    ensures { result ≡ list_any (spec.is_on heads) (map slot_in waits.now) }
{
    for wait in waits {
        if is_on(*wait, heads) {
            return true;
        }
    }
    false
}

// Whether a leaf can stand first on an object on whose other side one of these leaves stands.
fn meets_own(waits: &[Wait], wait: Wait) -> bool
    ensures { result ≡ spec.meets_own (map slot_in waits.now) (slot_in wait) }
{
    match wait.slot() {
        Some(Slot::Side { heads, object }) => {
            let others = Slot::Side {
                heads: false,
                object,
            };
            heads && 0 < count_in(waits, others)
        }
        _ => false,
    }
}

// Whether one of these leaves does.
fn has_both(waits: &[Wait]) -> bool
    ensures { result ≡ list_any (spec.meets_own (map slot_in waits.now)) (map slot_in waits.now) }
{
    for wait in waits {
        if meets_own(waits, *wait) {
            return true;
        }
    }
    false
}

// Whether these leaves, which are those of one group, may stand on both sides of one channel. Those of a large group are not compared: it
// is enough that it has leaves on sides of both kinds.
#[inline(never)]
fn crosses(waits: &[Wait]) -> bool
    ensures { result ≡ spec.crosses (map slot_in waits.now) }
{
    if !has_side(waits, true) {
        return false;
    }
    if !has_side(waits, false) {
        return false;
    }
    FEW < waits.len() || has_both(waits)
}

// How many threads with these leaves may stand on both sides of one channel: this one, or none.
#[inline(always)]
pub(crate) fn crossers(waits: &[Wait]) -> usize
    ensures { result ≡ (if spec.crosses (map slot_in waits.now) then 1 else 0) }
{
    if waits.len() < 2 {
        return 0;
    }
    if crosses(waits) { 1 } else { 0 }
}

// The same, where it is known that they are not more than this: where that is 0, no leaf is gone through.
#[inline(always)]
pub(crate) fn crossers_within(most: usize, waits: &[Wait]) -> usize
    requires { (if spec.crosses (map slot_in waits.now) then 1 else 0) ≤ most }
    ensures { result ≡ (if spec.crosses (map slot_in waits.now) then 1 else 0) }
{
    if most == 0 {
        return 0;
    }
    crossers(waits)
}
