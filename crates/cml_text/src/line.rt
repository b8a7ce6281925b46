//! The lines of a text.
ghost use Rattle.std.specs.Prelude.{◌≡◌, ◌∷◌, [], ◌+◌, ◌<◌, ◌^◌, length, IfSome, IfNone};
ghost use Rattle.cml_text.specs.Lines.{lines};

use std::marker::Model;

/// Cuts a text at its line feeds, and counts its lines.
///
/// A line feed ends a line and begins none, and nothing else ends a line but the end of the text. What stands after the last line
/// feed is a line where something stands there.
#[derive(Drop)]
pub struct Lines<'a> {
    number: u64,
    rest: &'a [u8],
}

impl<'a> Model for Lines<'a> {
    ghost use Rattle.std.specs.Prelude.{◌+◌, ◌≤◌, ◌^◌, length};
    ghost use Rattle.cml_text.specs.Lines.{PlainLines, lines};

    ghost Value = { PlainLines };

    ghost view = { λ l. record { number = l.number; left = lines l.rest.now } };

    ghost invariant = { λ l. l.number + length l.rest.now ≤ 2 ^ 63 };
}

impl<'a> Lines<'a> {
    /// All lines of the text, from number 1.
    pub fn new(text: &'a [u8]) -> Lines<'a>
        requires { length text.now < 2 ^ 63 }
        ensures { result ≡ record { number = 1; left = lines text.now } }
    {
        Lines {
            number: 1,
            rest: text,
        }
    }

    /// The number of the next line; where none is left, one more than there were.
    pub fn number(&self) -> u64
        ensures number { result ≡ self.now.number }
        ensures bound { result + 1 < 2 ^ 64 }
    {
        self.number
    }

    /// The next line, without its line feed, and its number; or none where no line is left.
    pub fn next(&mut self) -> Option<(u64, &'a [u8])>
        ensures number { IfSome result (λ found. found.0 ≡ self.old.number) }
        ensures line { IfSome result (λ found. self.old.left ≡ found.1.now ∷ self.new.left) }
        ensures next { IfSome result (λ found. self.new.number ≡ self.old.number + 1) }
        ensures bound { IfSome result (λ found. found.0 + 1 < 2 ^ 64) }
        ensures none { IfNone result (self.old.left ≡ []) }
        ensures same { IfNone result (self.new ≡ self.old) }
    {
        if self.rest.is_empty() {
            return None;
        }
        let (line, behind) = first_line(self.rest);
        let number = self.number;
        self.number += 1;
        self.rest = behind;
        Some((number, line))
    }
}

// The first line, and what stands after its line feed.
fn first_line(text: &[u8]) -> (&[u8], &[u8])
    requires { 0 < length text.now }
    ensures first { lines text.now ≡ result.0.now ∷ lines result.1.now }
    ensures shorter { length result.1.now < length text.now }
{
    for (end, byte) in text.iter().enumerate() {
        if *byte == b'\n' {
            return (&text[..end], &text[end + 1..]);
        }
    }
    (text, &text[text.len()..])
}
