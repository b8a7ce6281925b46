//! What follows of outcomes, and what one command writes and another takes. A function does nothing but name the laws from which its own
//! follows, which is its contract.

ghost use Rattle.cml_host.specs.Laws.{NoOutcomeIsLeftOut};
ghost use Rattle.cml_host.specs.Onward.{WrittenIsTaken, ToldAgain, SavedIsOfItsClass, ShorterEndsAlike};

use cml_explore::law::a_class_keeps_a_schedule_of_its_own;
use cml_schedule::law::{has_one_reading, written_is_read};

/// No outcome is left out: for each schedule that ends, and was examined, an outcome is told with the same output, in which the same threads wait,
/// by a schedule that has no more items.
pub fn no_outcome_is_left_out()
    ensures { NoOutcomeIsLeftOut }
{}

/// The text of a schedule that leads somewhere is taken by each command for what it is, where it lies in a file: `replay`, `explain` and
/// `draw` do not refuse it, and do not tell of an item that it can't happen.
pub fn what_is_written_is_taken()
    ensures { WrittenIsTaken }
{
    has_one_reading();
    written_is_read();
}

/// What `run` tells, `replay` tells again of the schedule that was saved: the output is the same, to the byte.
pub fn what_is_recorded_is_told_again()
    ensures { ToldAgain }
{}

/// The file that `explore` saves of a class has the schedule of a run of that class.
pub fn what_is_saved_is_of_its_class()
    ensures { SavedIsOfItsClass }
{
    a_class_keeps_a_schedule_of_its_own();
}

/// What `shrink` writes leads somewhere, and ends as the given schedule does.
pub fn what_is_shorter_ends_alike()
    ensures { ShorterEndsAlike }
{}
