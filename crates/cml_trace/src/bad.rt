//! Why a line is no command.

ghost use Rattle.std.specs.Prelude.{◌≡◌, IfOk};
ghost use Rattle.cml_trace.specs.Bads as spec;
ghost use Rattle.cml_trace.specs.Keywords as keywords;

use crate::keyword::head_of;
use crate::why::Bad;
use cml_text::{Sexpr, TextFault, read};
use std::alloc::{AllocError, Global};

/// Why the line is no command.
pub fn why_bad(alloc: Global, line: &[u8]) -> Result<Bad, AllocError>
    ensures { IfOk result (spec.IsBadFor line.now) }
{
    match read(alloc, line) {
        Ok(forms) => Ok(bad_forms(forms.as_slice())),
        Err(TextFault::At { kind, .. }) => Ok(Bad::Text(kind)),
        Err(TextFault::Memory) => Err(AllocError),
    }
}

// Why a line of these forms is no command.
fn bad_forms(forms: &[Sexpr]) -> Bad
    ensures { result ≡ spec.bad_forms (keywords.head_of forms.now) }
{
    match head_of(forms) {
        Some((keyword, _)) => Bad::Begins(keyword),
        None => Bad::NoKeyword,
    }
}
