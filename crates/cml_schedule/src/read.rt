//! Reading a schedule.

ghost use Rattle.std.specs.Prelude.{◌≡◌, ◌≤◌, length, MatchOption, IfOk, IfErr, Some};
ghost use Rattle.cml_text.specs.Lines.{lines};
ghost use Rattle.cml_schedule.specs.{Lines.{after_line}, Reading.{IsRead, LeadsTo, DoesNotFit, LineFits, schedule_limit}};

use crate::fault::ScheduleFault;
use crate::item::Plan;
use crate::line::{State, after_line};
use cml_text::{Lines, TextFault, read};
use std::alloc::{AllocError, Global};

/// The most bytes of a schedule.
pub const MAX_SCHEDULE: usize = 67_108_864;

/// The schedule that a text spells, in version 1 or 2.
///
/// # Errors
/// `TooLong` where the text has more than 67,108,864 bytes; else the first line that does not fit; or out of memory.
pub fn read_schedule(alloc: Global, text: &[u8]) -> Result<Plan, ScheduleFault>
    ensures { IsRead text.now result }
{
    if text.len() > MAX_SCHEDULE {
        return Err(ScheduleFault::TooLong);
    }
    let mut lines = Lines::new(text);
    let mut state = State::Opening;
    while let Some((number, line)) = lines.next() {
        match after_text(alloc, state, line)? {
            Some(next) => state = next,
            None => return Err(ScheduleFault::Line(number)),
        }
    }
    match state {
        State::Closed(plan) => Ok(plan),
        State::Opening | State::Reading(_) => Err(ScheduleFault::Line(lines.number())),
    }
}

// How far the schedule was read after this line, if the line fits.
fn after_text(alloc: Global, state: State, line: &[u8]) -> Result<Option<State>, AllocError>
    ensures { IfOk result (λ next. MatchOption next (DoesNotFit state line.now) (LineFits state line.now)) }
{
    match read(alloc, line) {
        Ok(forms) => after_line(alloc, state, forms.as_slice()),
        Err(TextFault::At { .. }) => Ok(None),
        Err(TextFault::Memory) => Err(AllocError),
    }
}
