//! Live traces: each line is answered as soon as it was read.

ghost use Rattle.std.specs.Prelude.{◌≡◌, ◌<◌, ◌≤◌, ◌+◌, ◌++◌, ◌^◌, [], length, IsTrue, IfOk, IfErr, OnErr, OnOk};
ghost use Rattle.cml_book.specs.Step.{empty_world};
ghost use Rattle.cml_stream.specs.{Counts.{Calls, counted}, Streams.{Stream, stream, Supplies}};
ghost use Rattle.cml_trace.specs.{Faults.{IsWriteFailure}, Lines.{HasNoFeed, lines_from}};
ghost use Rattle.cml_trace.specs.Live.{max_turns, IsTurn, IsTurnBroken, TurnIsCut, HasTurnCause, IsHeardOut, LiveIsStopped, HasLiveCause, IsFlushed};
ghost use Rattle.cml_trace.specs.Runs.{AreWritten, AreWrittenTo};

use crate::engine::write_answer;
use crate::fault::{TraceEnd, TraceFault};
use crate::line::{Lines, cut_last};
use cml_book::Book;
use cml_index::OfferIndex;
use cml_scan::Table;
use cml_stream::Counting;
use cml_text::law::spelled_or_faulty;
use std::alloc::{AllocError, Global};
use std::io::{ErrorKind, Read, Write};
use std::marker::Model;
use std::mem;

/// The most turns of a live trace.
pub const MAX_TURNS: u64 = 281_474_976_710_656;

// How many bytes are asked for at a time.
const PIECE: usize = 4096;

/// What a turn came to.
#[derive(Clone, Copy, PartialEq, Eq)]
pub enum Turn {
    /// There may be more lines.
    On,
    /// The trace ended.
    End(TraceEnd),
}

/// The line of a live trace that was begun: its number, and what was read of it.
#[derive(Drop)]
pub struct Begun {
    number: u64,
    bytes: Vec<u8>,
}

impl Model for Begun {
    ghost use Rattle.cml_trace.specs.{Lines.{HasNoFeed}, Live.{PlainBegun}};

    ghost Value = { PlainBegun };

    ghost view = { λ b. record { number = b.number; bytes = b.bytes.items } };

    ghost invariant = { λ b. HasNoFeed b.bytes.items };
}

impl Begun {
    /// The first line, of which nothing was read.
    pub fn new(alloc: Global) -> Begun
        ensures { result ≡ record { number = 1; bytes = [] } }
    {
        Begun {
            number: 1,
            bytes: Vec::new(alloc),
        }
    }

    /// The number of the line.
    pub fn number(&self) -> u64
        ensures { result ≡ self.now.number }
    {
        self.number
    }

    // No line ends in what was read.
    fn is_not_ended(&self)
        ensures { HasNoFeed self.now.bytes }
    {
        // No effect: named here so that the prover knows what holds of it.
        let _ = &self.bytes;
    }

    // More bytes of the line.
    fn add(&mut self, bytes: &[u8]) -> Result<(), AllocError>
        requires { HasNoFeed bytes.now }
        ensures { OnOk result (self.new ≡ record { number = self.old.number; bytes = self.old.bytes ++ bytes.now }) }
    {
        self.bytes.extend_from_slice(bytes)
    }

    // Takes out what was read of the line.
    fn take(&mut self, alloc: Global) -> Vec<u8>
        ensures bytes { result.items ≡ self.old.bytes }
        ensures left { self.new ≡ record { number = self.old.number; bytes = [] } }
    {
        mem::replace(&mut self.bytes, Vec::new(alloc))
    }

    // The line of this number is begun now, and this was read of it.
    fn go_on(&mut self, number: u64, bytes: Vec<u8>)
        requires { HasNoFeed bytes.items }
        ensures { self.new ≡ record { number = number; bytes = bytes.items } }
    {
        self.number = number;
        self.bytes = bytes;
    }
}

/// Answers a live trace. Each line is answered as soon as it was read, and the answer is flushed: so at whichever call of the reader this
/// is stopped, all whole lines that came before are answered.
///
/// # Errors
/// A failed read, no end in this many turns, in each of which the reader is asked once, a failed write, or out of memory.
pub fn run_live<R: Read, W: Write>(
    alloc: Global,
    turns: u64,
    reader: &mut Counting<'_, R>,
    writer: &mut Counting<'_, W>,
) -> Result<TraceEnd, TraceFault>
    requires turns { turns ≤ max_turns }
    requires uncalled { (reader.old.calls ≡ 0) × (reader.old.failed ≡ 0) × (writer.old.failed ≡ 0) }
    ensures ok { let input = stream (R.remaining reader.old.stream.now) (R.remaining reader.new.stream.now) in
        let output = stream (W.contents writer.old.stream.now) (W.contents writer.new.stream.now) in
        IfOk result (IsHeardOut input output) }
    ensures err { let input = stream (R.remaining reader.old.stream.now) (R.remaining reader.new.stream.now) in
        let output = stream (W.contents writer.old.stream.now) (W.contents writer.new.stream.now) in
        IfErr result (LiveIsStopped input output) }
    ensures cause { let reads : Calls = record { calls = reader.new.calls; failed = reader.new.failed } in
        let writes : Calls = record { calls = writer.new.calls; failed = writer.new.failed } in
        HasLiveCause turns result reads writes }
    ensures flushed { IsTrue writer.old.flushed → IsFlushed result writer.new.flushed }
    ensures reads { reader.new.calls ≤ turns }
    ensures same { (reader.new.stream.ghost_name ≡ reader.old.stream.ghost_name) × (writer.new.stream.ghost_name ≡ writer.old.stream.ghost_name) }
{
    let mut book = Book::new(alloc, OfferIndex::new(alloc));
    let mut begun = Begun::new(alloc);
    let result = take_turns(alloc, turns, &mut book, &mut begun, reader, writer);
    drop(book);
    result
}

// Takes at most this many turns.
fn take_turns<T: Table, R: Read, W: Write>(
    alloc: Global,
    turns: u64,
    book: &mut Book<T>,
    begun: &mut Begun,
    reader: &mut Counting<'_, R>,
    writer: &mut Counting<'_, W>,
) -> Result<TraceEnd, TraceFault>
    requires turns { turns ≤ max_turns }
    requires start { (book.old ≡ empty_world) × (begun.old ≡ record { number = 1; bytes = [] }) }
    requires uncalled { (reader.old.calls ≡ 0) × (reader.old.failed ≡ 0) × (writer.old.failed ≡ 0) }
    ensures ok { let input = stream (R.remaining reader.old.stream.now) (R.remaining reader.new.stream.now) in
        let output = stream (W.contents writer.old.stream.now) (W.contents writer.new.stream.now) in
        IfOk result (IsHeardOut input output) }
    ensures err { let input = stream (R.remaining reader.old.stream.now) (R.remaining reader.new.stream.now) in
        let output = stream (W.contents writer.old.stream.now) (W.contents writer.new.stream.now) in
        IfErr result (LiveIsStopped input output) }
    ensures cause { let reads : Calls = record { calls = reader.new.calls; failed = reader.new.failed } in
        let writes : Calls = record { calls = writer.new.calls; failed = writer.new.failed } in
        HasLiveCause turns result reads writes }
    ensures flushed { IsTrue writer.old.flushed → IsFlushed result writer.new.flushed }
    ensures reads { reader.new.calls ≤ turns }
    ensures same { (reader.new.stream.ghost_name ≡ reader.old.stream.ghost_name) × (writer.new.stream.ghost_name ≡ writer.old.stream.ghost_name) }
{
    for _ in 0..turns {
        match take_turn(alloc, book, begun, reader, writer)? {
            Turn::On => {}
            Turn::End(end) => return Ok(end),
        }
    }
    Err(TraceFault::Turns)
}

/// One turn of a live trace, which stands in the world of the book, with this line begun. The reader is asked once; then each line that
/// ends in what it gave is answered, and the answer is flushed. At the end of the input the line that was begun is answered as the last.
///
/// # Errors
/// A failed read, a failed write, or out of memory.
pub fn take_turn<T: Table, R: Read, W: Write>(
    alloc: Global,
    book: &mut Book<T>,
    begun: &mut Begun,
    reader: &mut Counting<'_, R>,
    writer: &mut Counting<'_, W>,
) -> Result<Turn, TraceFault>
    requires room { begun.old.number < 2 ^ 62 }
    requires fresh { (reader.old.failed ≡ 0) × (writer.old.failed ≡ 0) }
    ensures ok { let input = stream (R.remaining reader.old.stream.now) (R.remaining reader.new.stream.now) in
        let output = stream (W.contents writer.old.stream.now) (W.contents writer.new.stream.now) in
        IfOk result (IsTurn begun.old begun.new book.old book.new input output) }
    ensures err { let input = stream (R.remaining reader.old.stream.now) (R.remaining reader.new.stream.now) in
        let output = stream (W.contents writer.old.stream.now) (W.contents writer.new.stream.now) in
        IfErr result (IsTurnBroken begun.old book.old input output) }
    ensures asked { reader.new.calls ≡ counted reader.old.calls }
    ensures room { OnOk result (begun.new.number ≤ begun.old.number + 4096) }
    ensures flushed { IsTrue writer.old.flushed → IsFlushed result writer.new.flushed }
    ensures cause { HasTurnCause result reader.new.failed writer.new.failed }
    ensures same { (reader.new.stream.ghost_name ≡ reader.old.stream.ghost_name) × (writer.new.stream.ghost_name ≡ writer.old.stream.ghost_name) }
{
    begun.is_not_ended();
    let mut piece = [0u8; PIECE];
    match reader.read(&mut piece) {
        Ok(0) => Ok(Turn::End(answer_last(alloc, book, begun, writer)?)),
        Ok(count) => hear(alloc, book, begun, &piece[..count], writer),
        Err(error) => {
            if error.kind() == ErrorKind::Interrupted {
                Ok(Turn::On)
            } else {
                Err(TraceFault::Read)
            }
        }
    }
}

// Answers the lines that end in these bytes, which came after those of the line that was begun.
fn hear<T: Table, W: Write>(
    alloc: Global,
    book: &mut Book<T>,
    begun: &mut Begun,
    given: &[u8],
    writer: &mut Counting<'_, W>,
) -> Result<Turn, TraceFault>
    requires room { begun.old.number < 2 ^ 62 }
    requires fresh { writer.old.failed ≡ 0 }
    ensures ok { let output = stream (W.contents writer.old.stream.now) (W.contents writer.new.stream.now) in
        (input : Stream) → Supplies input given.now → IfOk result (IsTurn begun.old begun.new book.old book.new input output) }
    ensures err { let output = stream (W.contents writer.old.stream.now) (W.contents writer.new.stream.now) in
        (input : Stream) → Supplies input given.now → OnErr result (TurnIsCut begun.old book.old input output) }
    ensures room { OnOk result (begun.new.number ≤ begun.old.number + length given.now) }
    ensures flushed { IsTrue writer.old.flushed → IsFlushed result writer.new.flushed }
    ensures failed { IsWriteFailure result writer.new.failed }
    ensures same_reference { writer.new.stream.ghost_name ≡ writer.old.stream.ghost_name }
{
    spelled_or_faulty();
    begun.is_not_ended();
    match cut_last(given) {
        None => {
            begun.add(given)?;
            Ok(Turn::On)
        }
        Some((front, rest)) => {
            let mut text = begun.take(alloc);
            text.extend_from_slice(front)?;
            let mut lines = Lines::new(begun.number(), text.as_slice());
            match answer_now(alloc, book, &mut lines, writer)? {
                TraceEnd::Done => {
                    let number = lines.number();
                    text.clear();
                    text.extend_from_slice(rest)?;
                    begun.go_on(number, text);
                    Ok(Turn::On)
                }
                TraceEnd::Bad(number) => Ok(Turn::End(TraceEnd::Bad(number))),
                TraceEnd::TooLong => Ok(Turn::End(TraceEnd::TooLong)),
            }
        }
    }
}

// Answers the line that was begun, which is the last.
fn answer_last<T: Table, W: Write>(
    alloc: Global,
    book: &mut Book<T>,
    begun: &Begun,
    writer: &mut Counting<'_, W>,
) -> Result<TraceEnd, TraceFault>
    requires room { begun.now.number < 2 ^ 62 }
    requires fresh { writer.old.failed ≡ 0 }
    ensures ok { let output = stream (W.contents writer.old.stream.now) (W.contents writer.new.stream.now) in
        IfOk result (AreWritten (lines_from begun.now.number begun.now.bytes) book.old book.new output) }
    ensures err { let output = stream (W.contents writer.old.stream.now) (W.contents writer.new.stream.now) in
        OnErr result (AreWrittenTo (lines_from begun.now.number begun.now.bytes) book.old output) }
    ensures flushed { OnOk result (IsTrue writer.new.flushed) }
    ensures failed { IsWriteFailure result writer.new.failed }
    ensures same_reference { writer.new.stream.ghost_name ≡ writer.old.stream.ghost_name }
{
    let mut lines = Lines::new(begun.number, begun.bytes.as_slice());
    answer_now(alloc, book, &mut lines, writer)
}

// Answers these lines, and flushes the answer.
fn answer_now<T: Table, W: Write>(
    alloc: Global,
    book: &mut Book<T>,
    lines: &mut Lines<'_>,
    writer: &mut Counting<'_, W>,
) -> Result<TraceEnd, TraceFault>
    requires { writer.old.failed ≡ 0 }
    ensures ok { let output = stream (W.contents writer.old.stream.now) (W.contents writer.new.stream.now) in
        IfOk result (AreWritten lines.old book.old book.new output) }
    ensures counted { IfOk result (λ end. end ≡ TraceEnd.Done → lines.new.number ≡ lines.old.number + length lines.old.left) }
    ensures err { let output = stream (W.contents writer.old.stream.now) (W.contents writer.new.stream.now) in
        OnErr result (AreWrittenTo lines.old book.old output) }
    ensures flushed { OnOk result (IsTrue writer.new.flushed) }
    ensures failed { IsWriteFailure result writer.new.failed }
    ensures same_reference { writer.new.stream.ghost_name ≡ writer.old.stream.ghost_name }
{
    let end = write_answer(alloc, book, lines, writer)?;
    match writer.flush() {
        Ok(()) => Ok(end),
        Err(_) => Err(TraceFault::Write),
    }
}
