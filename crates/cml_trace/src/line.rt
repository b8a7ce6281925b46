//! The lines of a trace, and what each asks for.

ghost use Rattle.std.specs.Prelude.{◌≡◌, ◌∷◌, [], ◌++◌, ◌+◌, ◌-◌, ◌^◌, ◌<◌, ◌≤◌, length, MatchOption, IfOk, IfSome, IfNone};
ghost use Rattle.cml_trace.specs.{Answers.{trace_lines}, Lines.{HasNoFeed, lines_behind, room_of}, Orders.{AsksFor, IsBad}};

use crate::order::{Request, order_of};
use cml_text::{TextFault, read};
use std::alloc::{AllocError, Global};
use std::marker::Model;

/// The lines of a trace that are left, the first of which has this number.
#[derive(Drop)]
pub struct Lines<'a> {
    number: u64,
    rest: Option<&'a [u8]>,
}

impl<'a> Model for Lines<'a> {
    ghost use Rattle.std.specs.Prelude.{◌+◌, ◌^◌, ◌<◌};
    ghost use Rattle.cml_trace.specs.Lines.{TraceLines, lines_behind, room_of};

    ghost Value = { TraceLines };

    ghost view = { λ l. record { number = l.number; left = lines_behind l.rest } };

    ghost invariant = { λ l. l.number + room_of l.rest < 2 ^ 64 };
}

impl<'a> Lines<'a> {
    /// All lines of the text, from this number on.
    pub fn new(number: u64, text: &'a [u8]) -> Lines<'a>
        requires { number + length text.now < 2 ^ 64 - 1 }
        ensures { result ≡ record { number = number; left = trace_lines text.now } }
    {
        Lines {
            number,
            rest: Some(text),
        }
    }

    /// The number of the next line.
    pub fn number(&self) -> u64
        ensures { result ≡ self.now.number }
    {
        self.number
    }

    /// The next line with its number, where one is left.
    pub fn next(&mut self) -> Option<(u64, &'a [u8])>
        ensures number { IfSome result (λ found. found.0 ≡ self.old.number) }
        ensures line { IfSome result (λ found. self.old.left ≡ found.1.now ∷ self.new.left) }
        ensures next { IfSome result (λ found. self.new.number ≡ self.old.number + 1) }
        ensures none { IfNone result (self.old.left ≡ []) }
        ensures same { IfNone result (self.new ≡ self.old) }
    {
        let (line, behind) = cut(self.rest?);
        let number = self.number;
        self.number += 1;
        self.rest = behind;
        Some((number, line))
    }
}

/// What the line asks for; `None` where it is bad.
pub fn order_from(alloc: Global, line: &[u8]) -> Result<Option<Request>, AllocError>
    ensures { IfOk result (λ order. MatchOption order (IsBad line.now) (AsksFor line.now)) }
{
    match read(alloc, line) {
        Ok(forms) => order_of(alloc, forms.as_slice()),
        Err(TextFault::At { .. }) => Ok(None),
        Err(TextFault::Memory) => Err(AllocError),
    }
}

// The first line, and what stands after its line feed, if it has one.
fn cut(input: &[u8]) -> (&[u8], Option<&[u8]>)
    ensures cut { trace_lines input.now ≡ result.0.now ∷ lines_behind result.1 }
    ensures shorter { room_of result.1 ≤ length input.now }
{
    for (end, byte) in input.iter().enumerate() {
        if *byte == b'\n' {
            return (&input[..end], Some(&input[end + 1..]));
        }
    }
    (input, None)
}

/// What stands before the last line feed, and what stands after it; `None` where there is none.
pub fn cut_last(input: &[u8]) -> Option<(&[u8], &[u8])>
    ensures cut { IfSome result (λ parts. input.now ≡ parts.0.now ++ 10 ∷ parts.1.now) }
    ensures last { IfSome result (λ parts. HasNoFeed parts.1.now) }
    ensures none { IfNone result (HasNoFeed input.now) }
{
    let mut last = None;
    for (at, byte) in input.iter().enumerate() {
        if *byte == b'\n' {
            last = Some(at);
        }
    }
    let at = last?;
    Some((&input[..at], &input[at + 1..]))
}
