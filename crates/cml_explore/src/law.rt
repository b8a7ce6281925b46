//! What holds of the classes of all runs. A function does nothing, and its contract is the law.

ghost use Rattle.cml_explore.specs.Laws.{KeepsItsOwn, JudgedAlike, CountsEachOnce};

/// The schedule that is kept of a class is that of a run by one of the seeds, which ended as the class says. So it can be followed from the
/// start, and leads there.
pub fn a_class_keeps_a_schedule_of_its_own()
    ensures { KeepsItsOwn }
{}

/// Runs that ended alike are all good, or all bad, whichever threads are servers. So a class is good or bad as its first run is, and as the run is
/// whose schedule is kept.
pub fn runs_that_ended_alike_are_judged_alike()
    ensures { JudgedAlike }
{}

/// Each run counts once: the runs of all classes are as many as were made.
pub fn each_run_counts_once()
    ensures { CountsEachOnce }
{}
