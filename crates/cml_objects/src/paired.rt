//! What every kind of object has to promise over which two threads meet.

ghost use Rattle.std.specs.Prelude.{◌≡◌, ◌≢◌, ◌↔◌, ◌⊎◌, ℕ, Bool, Option, IsTrue, option_map};
ghost use Rattle.cml_value.specs.Value.{PlainValue, PlainBase};

use cml_value::{Base, Value};

/// A kind of object over which two threads meet, each by a side of its own, as the sender and the receiver on a channel.
///
/// Where two meet, one stands first: the head. In a kind with two lanes it is the side that heads. In a kind with one lane all sides
/// of an object are alike and each could stand first; there it is the side of the lower thread.
pub trait Paired {
    /// What a thread that waits brings.
    type Side;

    /// Whether the sides of an object are alike, so that any two of them meet.
    ghost ONE_LANE: { Bool };

    /// The number of the object.
    ghost key_of: { Self.Side → ℕ };

    /// Whether the side can stand first where two meet.
    ghost is_head: { Self.Side → Bool };

    /// What the side hands to the one that it meets.
    ghost handed: { Self.Side → PlainValue };

    /// Whether two sides meet.
    ghost do_meet: { Self.Side → Self.Side → Bool };

    /// The side that a base event is, where it is one of this kind.
    ghost side_of: { PlainBase → Option Self.Side };

    /// Whether the sides of an object are alike, so that any two of them meet.
    const ONE_LANE: bool;

    /// The number of the object.
    fn key(side: &Self::Side) -> u32
        ensures { result ≡ key_of side.now };

    /// Whether the two sides meet. The program does not ask this: it goes by keys and heads (`place` and `partner_threads` of
    /// `cml_objects`); the law `meeting` ties the two.
    fn meets(first: &Self::Side, second: &Self::Side) -> bool
        ensures { result ≡ do_meet first.now second.now };

    /// Whether the side can stand first where two meet.
    fn heads(side: &Self::Side) -> bool
        ensures { result ≡ is_head side.now };

    /// What the first and the second are given when they meet: each gets what the other hands over. The head comes first.
    fn hands(first: Self::Side, second: Self::Side) -> (Value, Value)
        requires { IsTrue (do_meet first second) }
        ensures { result ≡ (handed second, handed first) };

    /// The side that the base event is. `None`: the base event is of another kind.
    fn side(base: Base) -> Option<Self::Side>
        ensures { result ≡ side_of base };

    /// The key of the base event's side, and whether it heads. `None`: the base event is of another kind.
    fn place(base: &Base) -> Option<(u32, bool)>
        ensures { result ≡ option_map (λ side. (key_of side, is_head side)) (side_of base.now) };

    /// Two sides meet exactly where their keys are equal and, except in a kind with one lane, exactly one of them heads.
    ghost meeting: { (a b : Self.Side) →
        IsTrue (do_meet a b) ↔ ((key_of a ≡ key_of b) × (IsTrue ONE_LANE ⊎ (is_head a ≢ is_head b))) };

    /// In a kind with one lane each side heads.
    ghost leading: { (a : Self.Side) → IsTrue ONE_LANE → IsTrue (is_head a) };
}
