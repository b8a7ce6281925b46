//! Laws of rings, each a function that does nothing and whose contract is the law.

ghost use Rattle.std.specs.Prelude.{◌≡◌, ℕ, List, Option, Some};
ghost use Rattle.cml_scan.specs.{World.{PlainWorld}, Enabled.{IsEnabled}, declared.meet.Meet.{Meet}};
ghost use Rattle.cml_facts.specs.Rings.{IsRing, IsLastRing, IsParty, ring_among, told_ring, next_threads, next_of};

/// What is told as a ring is one: threads that are told apart, each of which waits for the next one, and the last for the first. It is told
/// only where nothing is left to do, so that none of them ever goes on.
pub fn what_is_told_as_a_ring_is_one()
    ensures last { (w : PlainWorld) (taker : ℕ → Option ℕ) (ring : List ℕ) → told_ring w taker ≡ Some ring → IsLastRing w taker ring }
    ensures ring { (nexts : List (Option ℕ)) (ring : List ℕ) → ring_among nexts ≡ Some ring → IsRing nexts ring }
{}

/// A thread that waits for another one can't go on before: no row that could be taken is one of it.
pub fn who_waits_for_another_cannot_go_on()
    ensures { (w : PlainWorld) (taker : ℕ → Option ℕ) (t u : ℕ) (row : Meet) →
        next_of (next_threads w taker w.threads) t ≡ Some u → IsEnabled w row → ¬ IsParty t row }
{}
