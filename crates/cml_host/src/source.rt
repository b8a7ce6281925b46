//! Texts that are read, and what is told of their faults.

ghost use Rattle.std.specs.Prelude.{IfOk};
ghost use Rattle.cml_host.specs.{Refused.{IsExplained}, Scripts.{script_line, text_line}};

use crate::reason::explained;
use cml_check::{CheckFault, CheckKind};
use cml_explain::{explain_script, explain_text};
use cml_text::{FaultKind, Sexpr, TextFault};
use std::alloc::{AllocError, Global};

/// The most bytes of a text.
pub const TEXT_LIMIT: usize = 1_048_576;

/// A text that is read.
#[derive(Clone, Copy)]
pub struct Source<'a> {
    /// The name under which it lies.
    pub name: &'a str,
    /// Its bytes, or the first of them, one more than a text may have.
    pub text: &'a [u8],
    /// Whether what is wrong with it is explained.
    pub explains: bool,
}

/// What is told of a text with this fault: its line, and then what is wrong in words, where that is explained.
#[inline(never)]
pub fn tell_text(
    alloc: Global,
    source: &Source<'_>,
    kind: FaultKind,
    at: usize,
) -> Result<Vec<u8>, AllocError>
    ensures { IfOk result (λ told. IsExplained source.now.explains (text_line (record { kind = kind; at = at })) told.items) }
{
    let fault = TextFault::At { kind, at };
    let line = format!(in alloc; "{fault}\n")?;
    let words = if source.explains {
        explain_text(alloc, source.name, source.text, kind, at)?
    } else {
        Vec::new(alloc)
    };
    explained(alloc, line.as_bytes(), source.explains, words.as_slice())
}

/// What is told of a script of these forms with this fault.
#[inline(never)]
pub fn tell_script(
    alloc: Global,
    source: &Source<'_>,
    forms: &[Sexpr],
    kind: CheckKind,
    at: usize,
) -> Result<Vec<u8>, AllocError>
    ensures { IfOk result (λ told. IsExplained source.now.explains (script_line (record { kind = kind; at = at })) told.items) }
{
    let fault = CheckFault::At { kind, at };
    let line = format!(in alloc; "{fault}\n")?;
    let words = if source.explains {
        explain_script(alloc, source.name, source.text, forms, kind, at)?
    } else {
        Vec::new(alloc)
    };
    explained(alloc, line.as_bytes(), source.explains, words.as_slice())
}
