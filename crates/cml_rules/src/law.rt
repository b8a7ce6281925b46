//! Laws of the rules, each a function that does nothing and whose contract is the law.

ghost use Rattle.std.specs.Prelude.{◌≡◌, ℕ, List, Contains, Some, slice_get};
ghost use Rattle.cml_value.specs.{Value.{PlainBase, PlainFunction, PlainEvent}, Group.{PlainGroup, choose, groups}};
ghost use Rattle.cml_scan.specs.World.{running, PlainWorld};
ghost use Rattle.cml_step.specs.Asks.{PlainAsk};
ghost use Rattle.cml_book.specs.Keeping.{NacksLive};
ghost use Rattle.cml_rules.specs.{Rules.{Sequel, Offers}, Laws.{Step, OffersAreLeaves, StepsAreRows, StepsAreCommits}};
ghost use Rattle.cml_rules.specs.Firing.{AreTwoThreads, TakesOne, FiresOutside, NacksSettle};
ghost use Rattle.cml_rules.specs.Runs.{RunsTakeSteps, StepsCanBeTaken, TimeWaits, TheEndIsStill, EndIsNoItem, EndIsForEver};
ghost use Rattle.cml_rules.specs.Turns.{AsksAreActs, ForcesInTurn, TurnsAct, NoTurnSynchronizes};
ghost use Rattle.cml_rules.specs.Waiting.{PendingAreForced};

/// What the rules let a group offer are its leaves, each once, with the functions and the nacks of the leaf.
pub fn offers_are_leaves()
    ensures { (g : PlainGroup) → OffersAreLeaves g }
{}

/// What the rules let threads do in a world are the rows of its scan: each derivation is of one row, and each row has one.
pub fn steps_are_rows()
    ensures { (w : PlainWorld) → StepsAreRows w }
{}

/// What the rules let threads do in a world are its accepted commits, with the world after each, the values, the wraps and the fired nacks.
pub fn steps_are_commits()
    ensures { (w : PlainWorld) → StepsAreCommits w }
{}

/// The groups of one thread never communicate with each other.
pub fn no_thread_meets_itself()
    ensures { (w : PlainWorld) → AreTwoThreads w }
{}

/// One member of a choice is taken, and no other; the nacks of all branches in the others fire.
pub fn a_choice_takes_one_member()
    ensures { (members : List PlainGroup) (b : PlainBase) (s : Sequel) →
        Offers (choose (groups members)) b s → TakesOne members b s }
{}

/// The nack of a branch fires exactly where what is taken of its group lies outside the branch.
pub fn nacks_fire_outside()
    ensures { (g : PlainGroup) → FiresOutside g }
{}

/// In a world where the nacks of pending groups are live, as in each world of a book: a nack fires exactly where a thread of the step has
/// synchronized outside the nack's branch, once, and is held exactly where one has synchronized inside it; what has fired, or is held, stays
/// so; and a nack of no branch of theirs is as it was.
pub fn nacks_fire_once()
    ensures { (w : PlainWorld) → NacksLive w → (s : Step w) → NacksSettle w s }
{}

/// Each commit and each exchange of a schedule that can be followed is a step of the rules, with what its parties go on with; an exchange
/// is one of two threads that swap.
pub fn runs_take_steps()
    ensures { RunsTakeSteps }
{}

/// A run can take each step that the rules allow where it stands, by a commit of the step's row.
pub fn steps_can_be_taken()
    ensures { StepsCanBeTaken }
{}

/// The time moves only where the rules allow no step, and where nothing is left to do they allow none.
pub fn time_waits_for_steps()
    ensures time { TimeWaits }
    ensures end { TheEndIsStill }
{}

/// What a running thread asks and is not refused is what a rule says. What a rule says is done, but where a limit of this project forbids it.
/// An iPut and an mPut that raise Put are refused for that, and nothing else is.
pub fn asks_are_acts()
    ensures { (w : PlainWorld) (t : ℕ) (a : PlainAsk) → slice_get w.threads t ≡ Some running → AsksAreActs w t a }
{}

/// What an event becomes by the rules is what it becomes where its functions are called one after another, the leftmost of the outermost
/// first, and the group enters then.
pub fn events_are_forced_in_turn()
    ensures { (calls : List (PlainFunction × PlainEvent)) (now : ℕ) (e : PlainEvent) (g : PlainGroup) → ForcesInTurn (λ f new. Contains calls (f, new)) now e g }
{}

/// Each turn of a schedule that can be followed does what a rule says of what its slice asks; or that is refused, and the thread ends.
pub fn turns_act()
    ensures { TurnsAct }
{}

/// No turn synchronizes: what the rules allow before it they allow after it, with the same values.
pub fn no_turn_synchronizes()
    ensures { NoTurnSynchronizes }
{}

/// The group that a thread of a run waits on is one that the rules give: the thread has called sync on an event, and this became the group by
/// what the functions returned that were called for it, when the wait began.
pub fn pending_are_forced()
    ensures { PendingAreForced }
{}

/// Nothing is left to do exactly where no item of a schedule is allowed; and then no schedule goes on, so that no thread that waits there
/// ever does.
pub fn an_end_is_for_ever()
    ensures no_item { EndIsNoItem }
    ensures for_ever { EndIsForEver }
{}
