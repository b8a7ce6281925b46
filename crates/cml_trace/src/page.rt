//! Text on its way out.

ghost use Rattle.std.specs.{Prelude.{◌≡◌, [], OnOk, OnErr, ℕ, take}, String.{string_bytes}};
ghost use Rattle.cml_stream.specs.{Counts.{counted}, Streams.{stream, Takes}};
ghost use Rattle.cml_trace.specs.{Faults.{IsWriteFailure}, Pages.{Tells, TellsStart}};

use crate::fault::TraceFault;
use cml_stream::Counting;
use cml_stream::input_output::{WriteFault, write_out};
use std::alloc::Global;
use std::io::Write;
use std::marker::Model;

// A piece that is written has at least this many bytes, except the last one.
const PIECE: usize = 65_536;

/// Text that waits to be written: it is written in pieces, not line by line.
#[derive(Drop)]
pub struct Page {
    text: String,
}

impl Model for Page {
    ghost use Rattle.std.specs.{Prelude.{ℕ, List}, String.{string_bytes}};

    ghost Value = { List ℕ };

    ghost view = { λ p. string_bytes p.text };
}

impl Page {
    /// A page on which nothing waits.
    pub fn new(alloc: Global) -> Page
        ensures { result ≡ [] }
    {
        Page {
            text: String::new(alloc),
        }
    }

    /// Appends the line to what waits, and writes all of it where it is enough for a piece.
    pub fn add<W: Write>(
        &mut self,
        line: &str,
        writer: &mut Counting<'_, W>,
    ) -> Result<(), TraceFault>
        requires { writer.old.failed ≡ 0 }
        ensures ok { let output = stream (W.contents writer.old.stream.now) (W.contents writer.new.stream.now) in
            OnOk result (Tells self.old self.new output line.now) }
        ensures err { let output = stream (W.contents writer.old.stream.now) (W.contents writer.new.stream.now) in
            OnErr result (TellsStart self.old self.new output line.now) }
        ensures same_reference { writer.new.stream.ghost_name ≡ writer.old.stream.ghost_name }
        ensures failed { IsWriteFailure result writer.new.failed }
    {
        self.text.push_str(line)?;
        if self.text.len() >= PIECE {
            self.send(writer)?;
        }
        Ok(())
    }

    /// Writes what waits. Nothing waits after that, also where a write failed.
    pub fn send<W: Write>(&mut self, writer: &mut Counting<'_, W>) -> Result<(), WriteFault>
        ensures ok { let output = stream (W.contents writer.old.stream.now) (W.contents writer.new.stream.now) in
            OnOk result (Takes output self.old) }
        ensures err { let output = stream (W.contents writer.old.stream.now) (W.contents writer.new.stream.now) in
            OnErr result ((n : ℕ) × Takes output (take n self.old)) }
        ensures empty { self.new ≡ [] }
        ensures same_reference { writer.new.stream.ghost_name ≡ writer.old.stream.ghost_name }
        ensures fine { OnOk result (writer.new.failed ≡ writer.old.failed) }
        ensures failed { OnErr result (writer.new.failed ≡ counted writer.old.failed) }
    {
        let result = write_out(writer, self.text.as_bytes());
        self.text.clear();
        result
    }
}
