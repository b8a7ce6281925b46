//! Writing to the output, and saying what went wrong.

ghost use Rattle.std.specs.Prelude.{◌≡◌, ◌++◌, OnErr, OnOk};
ghost use Rattle.cml_host.specs.{Between.{between}, Narrated.{Writes}, Replies.{IsSaid, EndsWriting, passage}};
ghost use Rattle.cml_stream.specs.{Counts.{counted}, Streams.{Says, stream}};

use cml_stream::Counting;
use cml_stream::input_output::{WriteFault, write_out};
use std::io::Write;

/// Writes a text; where there is none, nothing is called.
///
/// # Errors
/// A write failed.
pub fn write_text<W: Write>(out: &mut Counting<'_, W>, text: &[u8]) -> Result<(), WriteFault>
    ensures sent { EndsWriting text.now result (passage W.contents out.old out.new) }
    ensures same_reference { out.new.stream.ghost_name ≡ out.old.stream.ghost_name }
{
    if text.is_empty() {
        return Ok(());
    }
    write_out(out, text)
}

/// Writes a text and then another.
///
/// # Errors
/// A write failed.
pub fn write_both<W: Write>(
    out: &mut Counting<'_, W>,
    first: &[u8],
    second: &[u8],
) -> Result<(), WriteFault>
    ensures sent { EndsWriting (first.now ++ second.now) result (passage W.contents out.old out.new) }
    ensures same_reference { out.new.stream.ghost_name ≡ out.old.stream.ghost_name }
{
    match write_text(out, first) {
        Ok(()) => write_text(out, second),
        Err(fault) => Err(fault),
    }
}

/// Says a text to the errors, as far as it can be said; where there is none, nothing is called.
pub fn tell<E: Write>(err: &mut Counting<'_, E>, text: &[u8])
    ensures said { IsSaid text.now (passage E.contents err.old err.new) }
    ensures same_reference { err.new.stream.ghost_name ≡ err.old.stream.ghost_name }
{
    let _ = write_text(err, text);
}

/// Writes some words, of which nothing is said here but that they were written.
///
/// # Errors
/// A write failed.
pub fn write_words<O: Write>(out: &mut Counting<'_, O>, words: &[u8]) -> Result<(), WriteFault>
    ensures wrote { Writes (stream (O.contents out.old.stream.now) (O.contents out.new.stream.now)) }
    ensures fine { OnOk result (out.new.failed ≡ out.old.failed) }
    ensures failed { OnErr result (out.new.failed ≡ counted out.old.failed) }
    ensures same_out { out.new.stream.ghost_name ≡ out.old.stream.ghost_name }
{
    write_out(out, words)
}

/// Says what went wrong, as far as it can be said.
pub fn say<E: Write>(err: &mut Counting<'_, E>, line: &[u8])
    requires fresh { err.old.failed ≡ 0 }
    ensures said { let errors = between E.contents err.old err.new in
        Says errors line.now }
    ensures same_reference { err.new.stream.ghost_name ≡ err.old.stream.ghost_name }
{
    let _ = write_out(err, line);
}
