//! What holds of every schedule. Each function does nothing, and its contract is the law.

ghost use Rattle.cml_schedule.specs.Laws.{HasOneReading, WrittenIsRead};

use cml_text::law::{
    printed_line_is_one_line, printed_line_is_read, spelled_has_no_fault, spelled_or_faulty,
    spells_one_at_most, written_line_is_first,
};

/// Every text is read in one way: as one plan, or up to one first line that does not fit.
pub fn has_one_reading()
    ensures { HasOneReading }
{
    spelled_or_faulty();
    spelled_has_no_fault();
    spells_one_at_most();
}

/// What is written is read back: the budget, the size and the items.
pub fn written_is_read()
    ensures { WrittenIsRead }
{
    printed_line_is_read();
    printed_line_is_one_line();
    written_line_is_first();
}
