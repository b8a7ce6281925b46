//! Reports written to the errors, before anything else is.

ghost use Rattle.std.specs.Prelude.{◌≡◌};
ghost use Rattle.cml_host.specs.{Between.{between}, Told.{IsSentText, reports_text}};

use cml_schedule::Report;
use cml_stream::Counting;
use cml_stream::input_output::WriteFault;
use std::io::Write;

/// Writes the lines of the reports, one report after another. It takes no memory.
///
/// # Errors
/// A write failed.
pub fn send_reports<E: Write>(
    reports: &[Report],
    err: &mut Counting<'_, E>,
) -> Result<(), WriteFault>
    requires fresh { err.old.failed ≡ 0 }
    ensures sent { let errors = between E.contents err.old err.new in
        IsSentText (reports_text reports.now) result errors }
    ensures same_err { err.new.stream.ghost_name ≡ err.old.stream.ghost_name }
{
    cml_work::send_reports(reports, err)
}
