//! What holds of states that are closed under steps. A function does nothing, and its contract is the law.

ghost use Rattle.std.specs.Prelude.{◌≡◌, List, true};
ghost use Rattle.cml_verify.specs.{Systems.{System, IsLawful, KeepsQuiet}, Laws.{AllAreSeen, EachEndIsSeen, IsView, SeesSchedules}};
ghost use Rattle.cml_verify.specs.Threads.{Machine, Stand, Act, AreLocal, system_of, is_quiet};

/// States that hold the start, and all that their items lead to, hold each state that a schedule leads to.
pub fn a_closed_set_has_each_state<S, I>()
    ensures { (y : System S I) → IsLawful y → AllAreSeen y }
{}

/// Where of some states not all items were followed but one quiet turn alone, each state at which a schedule ends is still there.
pub fn quiet_turns_lose_no_end<S, I>()
    ensures { (y : System S I) → IsLawful y → EachEndIsSeen y }
{}

/// A system that leaves out of a state what makes no difference to any step has the schedules of the whole, and each leads to the same.
pub fn a_view_has_the_same_schedules<S, T, I>()
    ensures { (y : System S I) (z : System T I) (view : S → T) → IsView y z view → SeesSchedules y z view }
{}

/// A turn that changes no more than the term of its thread, and reads no more of the world than the time, keeps what is promised of a quiet turn.
pub fn local_turns_are_quiet<W, T, J>()
    ensures { (m : Machine W T J) (listed : Stand W T → List (Act J)) → AreLocal m →
        (s : Stand W T) (a : Act J) → is_quiet m s a ≡ true → KeepsQuiet (system_of m listed) s a }
{}
