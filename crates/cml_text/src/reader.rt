//! Reading a text.
ghost use Rattle.std.specs.{Prelude.{◌≡◌, ◌<◌, ◌^◌, List, [], IfOk, IfErr, length}, Prelude.{None, Some}};
ghost use Rattle.cml_text.specs.{Faults.{PlainFault}, Forms.{PlainSexpr}, Lexemes.{lexemes}, Nests.{words_in}, Steps.{IsFault}};
ghost use Rattle.cml_text.specs.{Texts.{Spells, first_fault, fault_of}, Answers.{ReadsAs, FailsWith}};

use crate::fault::{FaultKind, TextFault};
use crate::nest::{OpenList, take_word};
use crate::sexpr::Sexpr;
use crate::word::word_at;
use std::alloc::Global;

// The most bytes of a text.
const TEXT_LIMIT: usize = 1_048_576;

/// The forms that a text spells, one after another.
///
/// A text has at most 1,048,576 bytes, its lists stand at most 256 deep inside one another, and a text literal has at most 4,096
/// bytes after its escapes. Where the text spells no forms, its fault is returned: that it is too long, else that it is not UTF-8,
/// else the first fault from the left. `TextFault::Memory` is returned only where memory ran out.
pub fn read(alloc: Global, text: &[u8]) -> Result<Vec<Sexpr>, TextFault>
    // What is read is spelled by the text.
    ensures found { IfOk result (λ forms. Spells text.now forms.items) }
    // What the text spells is read, unless memory runs out.
    ensures only { (forms : List PlainSexpr) → Spells text.now forms → ReadsAs result forms }
    // A fault is the fault of the text.
    ensures fault { IfErr result (λ fault. IsFault fault (fault_of text.now)) }
    // The fault of the text is returned, unless memory runs out.
    ensures only_fault { (fault : PlainFault) →
        fault_of text.now ≡ Some fault → FailsWith result fault }
{
    if text.len() > TEXT_LIMIT {
        return Err(TextFault::At {
            kind: FaultKind::Long,
            at: TEXT_LIMIT,
        });
    }
    match str::from_utf8(text) {
        Ok(text) => forms_of(alloc, text),
        Err(error) => Err(TextFault::At {
            kind: FaultKind::Utf8,
            at: error.valid_up_to(),
        }),
    }
}

// The forms of a text that is UTF-8 and not too long.
fn forms_of(alloc: Global, text: &str) -> Result<Vec<Sexpr>, TextFault>
    requires fits { length text.now < 2 ^ 62 }
    ensures words { IfOk result (λ forms. lexemes 0 0 text.now ≡ words_in forms.items) }
    ensures ok { IfOk result (λ _. first_fault (lexemes 0 0 text.now) [] ≡ None) }
    ensures err { IfErr result (λ fault. IsFault fault (first_fault (lexemes 0 0 text.now) [])) }
{
    let mut lists: Vec<OpenList> = Vec::new(alloc);
    let mut forms = Vec::new(alloc);
    let mut rest = text;
    while !rest.is_empty() {
        let at = text.len() - rest.len();
        let (found, behind) = word_at(alloc, at, rest)?;
        if let Some(word) = found {
            take_word(alloc, &mut lists, &mut forms, at, word)?;
        }
        rest = behind;
    }
    match lists.pop() {
        Some(list) => Err(TextFault::At {
            kind: FaultKind::Unclosed,
            at: list.start,
        }),
        None => Ok(forms),
    }
}
