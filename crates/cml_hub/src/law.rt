//! What holds of every hub. A function does nothing, and its contract is the law.

ghost use Rattle.std.specs.Prelude.{ℕ};
ghost use Rattle.cml_step.specs.Terms.{Program};
ghost use Rattle.cml_hub.specs.{Kept.{Kept}, Laws.{OneScheduleOneRun}, Playing.{Played, BeginsRun, PlaysPick}};

use crate::choose::Chooser;

/// Two hubs with the same program, budget, watch and schedule, of which no report is due, have the same output, reports and end. So a
/// replay shows what the run did that made the schedule, by one thread or by many workers.
pub fn one_schedule_one_run()
    ensures { OneScheduleOneRun }
{}

/// A hub that has just begun stands where the run of its program by a chooser begins. So once it has run alone, it has made that run.
pub fn a_hub_begins_the_run<C: Chooser>()
    ensures { (h : Kept) (chooser : C) → BeginsRun h chooser }
{}

/// Each row that is taken in a run that a chooser makes is the one that the chooser picked where it was taken.
pub fn what_is_played_is_picked<C: Chooser>()
    ensures { (p : Program) (budget : ℕ) (from to : Played C) → PlaysPick (record { picks = C.picks; next = C.next }) p budget from to }
{}
