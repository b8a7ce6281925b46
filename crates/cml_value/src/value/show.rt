//! The text of a value.

ghost use Rattle.std.specs.{Prelude.{◌≡◌, ◌++◌, IfOk, OnOk, encode_utf8}, String.{string_bytes}};
ghost use Rattle.cml_value.specs.Show.{escaped_text, shown_text, shown, shown_number};

use crate::value::{Value, ValueKind};
use std::alloc::{AllocError, Global};

impl Value {
    /// The value's text: a number in decimal, a text as a literal, a pair with its parts, an object or a thread by its
    /// kind and number, an event as the word `event` alone.
    ///
    /// # Errors
    /// Out of memory.
    pub fn show(&self, alloc: Global) -> Result<String, AllocError>
        ensures { IfOk result (λ s. string_bytes s ≡ shown self.now) }
    {
        let mut out = String::new(alloc);
        self.show_to(&mut out)?;
        Ok(out)
    }

    fn show_to(&self, out: &mut String) -> Result<(), AllocError>
        ensures { OnOk result (string_bytes out.new ≡ string_bytes out.old ++ shown self.now) }
    {
        match &self.kind {
            ValueKind::Unit => out.push_str("()"),
            ValueKind::Int(z) => write!(out, "{z}"),
            ValueKind::Bool(true) => out.push_str("true"),
            ValueKind::Bool(false) => out.push_str("false"),
            ValueKind::Text(s) => push_literal(out, s.as_str()),
            ValueKind::Pair(p) => {
                out.push_str("(pair ")?;
                p.first().show_to(out)?;
                out.push_str(" ")?;
                p.second().show_to(out)?;
                out.push_str(")")
            }
            ValueKind::Thread(t) => push_number(out, "thread", t.0),
            ValueKind::Chan(c) => push_number(out, "chan", c.0),
            ValueKind::Swap(s) => push_number(out, "swapchan", s.0),
            ValueKind::IVar(i) => push_number(out, "ivar", i.0),
            ValueKind::MVar(m) => push_number(out, "mvar", m.0),
            ValueKind::Mailbox(b) => push_number(out, "mailbox", b.0),
            ValueKind::Mchan(x) => push_number(out, "mchan", x.0),
            ValueKind::Port(p) => push_number(out, "port", p.0),
            ValueKind::Event(_) => out.push_str("event"),
        }
    }
}

// A thread or an object.
fn push_number(out: &mut String, kind: &str, number: u32) -> Result<(), AllocError>
    ensures { OnOk result
        (string_bytes out.new ≡ string_bytes out.old ++ shown_number kind.now number) }
{
    write!(out, "({kind} {number})")
}

// A text between quotes.
fn push_literal(out: &mut String, text: &str) -> Result<(), AllocError>
    ensures { OnOk result (string_bytes out.new ≡ string_bytes out.old ++ shown_text text.now) }
{
    out.push_str("\"")?;
    push_characters(out, text)?;
    out.push_str("\"")
}

fn push_characters(out: &mut String, text: &str) -> Result<(), AllocError>
    ensures { OnOk result (string_bytes out.new ≡ string_bytes out.old ++ escaped_text text.now) }
{
    for c in text.chars() {
        push_character(out, c)?;
    }
    Ok(())
}

// A character as it stands in a literal.
fn push_character(out: &mut String, c: char) -> Result<(), AllocError>
    ensures { OnOk result (string_bytes out.new ≡ string_bytes out.old ++ escaped_text (encode_utf8 c)) }
{
    if c == '"' {
        return out.push_str("\\\"");
    }
    if c == '\\' {
        return out.push_str("\\\\");
    }
    if c == '\n' {
        return out.push_str("\\n");
    }
    out.push(c)
}
