//! Streams whose calls are counted.

ghost use Rattle.std.specs.{Prelude.{◌≡◌, ◌≢◌, ◌<◌, IsTrue, IsFalse, IfOk, OnOk, IfErr, OnErr}, Io.{ReadsAtMost, WritesAtMost}};
ghost use Rattle.std.specs.{Io.KnownBytes.{Keeps, ReadConsumes, WriteAppends}, IoError.{error_kind}};
ghost use Rattle.cml_stream.specs.Counts.{counted};

use std::io::{ErrorKind, Read, Result as IoResult, Write};

/// A reader or a writer that is lent, how often it was called since then, how often that failed, and whether it was flushed after the
/// last write. An interrupted read has not failed; a write that took nothing has. The counts saturate. They are there for contracts to
/// read.
#[derive(Drop)]
pub struct Counting<'a, T> {
    stream: &'a mut T,
    calls: u64,
    failed: u64,
    flushed: bool,
}

impl<'a, T> Counting<'a, T> {
    /// The stream, of which no call was counted yet.
    pub fn new(stream: &'a mut T) -> Counting<'a, T>
        ensures same_reference { result.stream.ghost_name ≡ stream.entry.ghost_name }
        ensures stream { result.stream.now ≡ stream.old }
        ensures calls { result.calls ≡ 0 }
        ensures failed { result.failed ≡ 0 }
        ensures flushed { IsTrue result.flushed }
    {
        Counting {
            stream,
            calls: 0,
            failed: 0,
            flushed: true,
        }
    }
}

impl<'a, R: Read> Read for Counting<'a, R> {
    ghost remaining = { λ c. R.remaining c.stream.now };

    fn read(&mut self, buf: &mut [u8]) -> IoResult<usize>
        ensures bound { ReadsAtMost result buf.new }
        ensures bytes { ReadConsumes (R.remaining self.old.stream.now) (R.remaining self.new.stream.now) result buf.new }
        ensures same_reference { self.new.stream.ghost_name ≡ self.old.stream.ghost_name }
        ensures calls { self.new.calls ≡ counted self.old.calls }
        ensures ok { OnOk result (self.new.failed ≡ self.old.failed) }
        ensures interrupted { IfErr result
            (λ e. error_kind e ≡ ErrorKind.Interrupted → self.new.failed ≡ self.old.failed) }
        ensures failed { IfErr result
            (λ e. error_kind e ≢ ErrorKind.Interrupted → self.new.failed ≡ counted self.old.failed) }
        ensures flushed { self.new.flushed ≡ self.old.flushed }
    {
        let result = self.stream.read(buf);
        self.calls = self.calls.saturating_add(1);
        if let Err(error) = &result {
            if error.kind() != ErrorKind::Interrupted {
                self.failed = self.failed.saturating_add(1);
            }
        }
        result
    }
}

impl<'a, W: Write> Write for Counting<'a, W> {
    ghost contents = { λ c. W.contents c.stream.now };

    fn write(&mut self, buf: &[u8]) -> IoResult<usize>
        ensures bound { WritesAtMost result buf.now }
        ensures bytes { WriteAppends (W.contents self.old.stream.now) (W.contents self.new.stream.now) result buf.now }
        ensures same_reference { self.new.stream.ghost_name ≡ self.old.stream.ghost_name }
        ensures calls { self.new.calls ≡ counted self.old.calls }
        ensures took { IfOk result (λ n. 0 < n → self.new.failed ≡ self.old.failed) }
        ensures nothing { IfOk result (λ n. n ≡ 0 → self.new.failed ≡ counted self.old.failed) }
        ensures failed { OnErr result (self.new.failed ≡ counted self.old.failed) }
        ensures unflushed { IsFalse self.new.flushed }
    {
        let result = self.stream.write(buf);
        self.calls = self.calls.saturating_add(1);
        self.flushed = false;
        match &result {
            Ok(count) if *count > 0 => {}
            _ => self.failed = self.failed.saturating_add(1),
        }
        result
    }

    fn flush(&mut self) -> IoResult<()>
        ensures bytes { Keeps (W.contents self.old.stream.now) (W.contents self.new.stream.now) }
        ensures same_reference { self.new.stream.ghost_name ≡ self.old.stream.ghost_name }
        ensures calls { self.new.calls ≡ counted self.old.calls }
        ensures fine { OnOk result (self.new.failed ≡ self.old.failed) }
        ensures flushed { OnOk result (IsTrue self.new.flushed) }
        ensures failed { OnErr result (self.new.failed ≡ counted self.old.failed) }
    {
        let result = self.stream.flush();
        self.calls = self.calls.saturating_add(1);
        match &result {
            Ok(()) => self.flushed = true,
            Err(_) => self.failed = self.failed.saturating_add(1),
        }
        result
    }
}
