//! Printed lines.

ghost use Rattle.std.specs.Prelude.{◌≡◌, IfOk};
ghost use Rattle.cml_properties.specs.Lines as spec;

use cml_text::{Sexpr, TextFault, read};
use std::alloc::{AllocError, Global};
use std::marker::Model;

/// A line that a run printed, without its line feed, and the value that it spells, if it spells one form.
#[derive(Drop)]
pub struct Line<'a> {
    text: &'a [u8],
    value: Option<Sexpr>,
}

impl<'a> Model for Line<'a> {
    ghost use Rattle.cml_properties.specs.Lines.{PlainLine};

    ghost Value = { PlainLine };

    ghost use Rattle.cml_properties.specs.Codes.{line_code};

    ghost coded = { line_code };

    ghost view = { λ line. record { text = line.text.now; value = line.value } };
}

impl<'a> Line<'a> {
    /// The line of these bytes.
    ///
    /// # Errors
    /// Out of memory.
    pub fn new(alloc: Global, text: &'a [u8]) -> Result<Line<'a>, AllocError>
        ensures text { IfOk result (λ line. line.text ≡ text.now) }
        ensures value { IfOk result (λ line. spec.IsValueOf text.now line.value) }
    {
        match read(alloc, text) {
            Ok(forms) => Ok(Line {
                text,
                value: only(forms),
            }),
            Err(TextFault::At { .. }) => Ok(Line { text, value: None }),
            Err(TextFault::Memory) => Err(AllocError),
        }
    }

    /// The bytes of the line.
    pub fn text(&self) -> &'a [u8]
        ensures { result.now ≡ self.now.text }
    {
        self.text
    }

    /// The value that the line spells, if it spells one form.
    pub(crate) fn value(&self) -> Option<&Sexpr>
        ensures { spec.value_seen result ≡ self.now.value }
    {
        self.value.as_ref()
    }
}

// The form, if there is one alone.
fn only(forms: Vec<Sexpr>) -> Option<Sexpr>
    ensures { result ≡ spec.only forms.items }
{
    let mut forms = forms;
    let last = forms.pop()?;
    if forms.is_empty() { Some(last) } else { None }
}
