//! Reading the bytes of a file, and saving them, over any reader and writer.

ghost use Rattle.std.specs.Prelude.{◌≡◌, ◌⊎◌, ◌+◌, ◌≤◌, length, Err, IfOk, IfErr, OnOk, OnErr, None};
ghost use Rattle.cml_host.specs.{Stores.{content_of, IsLoaded, IsRefusal}, declared.store.StoreFault.TheVariants.{Refused}};
ghost use Rattle.cml_stream.specs.{Counts.{most_reads}, Streams.{stream, Takes, TakesStart}};

use crate::store::StoreFault;
use cml_stream::Counting;
use cml_stream::input_output::{ReadFault, read_all, write_out};
use std::alloc::Global;
use std::io::{Read, Write};

/// The bytes that the reader has: all of them, or where there are more than the limit, the first of them, one more than the limit. They
/// are read in at most twice as many reads as the limit, and no read after them.
///
/// # Errors
/// A refusal, where a read failed or the bytes do not end in this many reads, and nowhere else; or out of memory.
pub fn load_from<R: Read>(
    alloc: Global,
    reader: &mut Counting<'_, R>,
    limit: usize,
) -> Result<Vec<u8>, StoreFault>
    requires fresh { (reader.old.calls ≡ 0) × (reader.old.failed ≡ 0) }
    ensures bound { IfOk result (λ bs. length bs.items ≤ limit + 1) }
    ensures found { IfOk result (λ bs. IsLoaded (content_of (R.remaining reader.old.stream.now)) limit bs.items) }
    ensures fine { OnOk result (reader.new.failed ≡ 0) }
    ensures refused { IfErr result (λ fault. IsRefusal fault → (reader.new.failed ≡ 1) ⊎ (reader.new.calls ≡ most_reads limit)) }
    ensures calls { reader.new.calls ≤ most_reads limit }
    ensures same_reference { reader.new.stream.ghost_name ≡ reader.old.stream.ghost_name }
{
    match read_all(alloc, reader, limit) {
        Ok(mut all) => {
            if all.len() > limit {
                all.truncate(limit + 1);
            }
            Ok(all)
        }
        Err(ReadFault::Memory) => Err(StoreFault::Memory),
        Err(ReadFault::Read | ReadFault::Turns) => Err(StoreFault::Refused(None)),
    }
}

/// Writes all of the bytes. Where that is refused, what was written is a prefix of them.
///
/// # Errors
/// A refusal exactly where a write failed, an interrupted one included, or took nothing.
pub fn save_to<W: Write>(writer: &mut Counting<'_, W>, bytes: &[u8]) -> Result<(), StoreFault>
    requires fresh { writer.old.failed ≡ 0 }
    ensures ok { let output = stream (W.contents writer.old.stream.now) (W.contents writer.new.stream.now) in
        OnOk result (Takes output bytes.now × (writer.new.failed ≡ 0)) }
    ensures err { let output = stream (W.contents writer.old.stream.now) (W.contents writer.new.stream.now) in
        OnErr result (TakesStart output bytes.now × (writer.new.failed ≡ 1)) }
    ensures refused { OnErr result (result ≡ Err (Refused None)) }
    ensures same_reference { writer.new.stream.ghost_name ≡ writer.old.stream.ghost_name }
{
    match write_out(writer, bytes) {
        Ok(()) => Ok(()),
        Err(_) => Err(StoreFault::Refused(None)),
    }
}
