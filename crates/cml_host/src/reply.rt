//! What a command has to say once it is done, and how that is carried out: what becomes of it where a write or a save fails.

ghost use Rattle.std.specs.Prelude.{◌≡◌, [], IfErr, IfOk, OnOk, Ok, map};
ghost use Rattle.cml_host.specs.Replies.{AreSaved, GivesUp, HasSavedSome, IsCarriedOut, IsKept, IsSaid, TellsUnsaved, file, gives, passage, plain_file, plain_of, plain_refusal, plain_reply};
ghost use Rattle.cml_host.specs.{Stores.{Shelf}, Written.{cannot_write}};

use crate::output::{tell, write_both, write_text};
use crate::reason::{Reason, with_why};
use crate::refusal::Refusal;
use crate::store::Store;
use cml_stream::Counting;
use std::alloc::{AllocError, Global};
use std::io::Write;
use thiserror::Error;

/// A file that a command saves once it is done.
#[derive(Drop)]
pub struct File {
    /// The name under which it is saved.
    pub name: String,
    /// What is saved.
    pub bytes: Vec<u8>,
    /// What is told where it can't be.
    pub refused: String,
    /// Whether it is told then why.
    pub explains: bool,
}

/// What a command gives once it is done.
#[derive(Drop)]
pub struct Reply {
    /// What is written to the output.
    pub output: Vec<u8>,
    /// The files that are saved then.
    pub files: Vec<File>,
    /// What is said to the errors then.
    pub words: Vec<u8>,
    /// The status where all that was done.
    pub status: u8,
}

// The file that was not saved, by how many were before it, and why.
#[derive(Clone, Copy, Debug, Error)]
#[error("a file can't be saved")]
struct Unsaved {
    count: usize,
    why: Option<Reason>,
}

/// What there is to save under this name, and what is told where that can't be, and why, where that is explained.
///
/// # Errors
/// Out of memory.
pub fn new_file(
    alloc: Global,
    explains: bool,
    name: &str,
    bytes: Vec<u8>,
) -> Result<File, AllocError>
    ensures { IfOk result (λ f. plain_file f ≡ file explains name.now bytes.items) }
{
    let refused = format!(in alloc; "cannot write {name}\n")?;
    let name = String::from_str(alloc, name)?;
    Ok(File {
        name,
        bytes,
        refused,
        explains,
    })
}

/// A text for the output, and nothing else.
pub fn text_reply(alloc: Global, output: Vec<u8>) -> Reply
    ensures { plain_of result ≡ gives output.items }
{
    Reply {
        output,
        files: Vec::new(alloc),
        words: Vec::new(alloc),
        status: 0,
    }
}

/// Carries out what a command gives, behind its output so far, or says why it gives nothing; and returns the status. The output is written,
/// then each file is saved, and then it is said what there is to say. After a write of the output that failed nothing is saved, and after a
/// file that can't be saved no other one is; the errors tell that.
pub fn carry_out<O: Write, E: Write, S: Store>(
    alloc: Global,
    so_far: &str,
    made: &Result<Reply, Refusal>,
    out: &mut Counting<'_, O>,
    err: &mut Counting<'_, E>,
    store: &mut S,
) -> u8
    ensures carried { let output = passage O.contents out.old out.new in
        let errors = passage E.contents err.old err.new in
        let shelf : Shelf = record { before = S.holds store.old; after = S.holds store.new } in
        IsCarriedOut (plain_reply so_far.now made.now) output errors shelf result }
    ensures same_out { out.new.stream.ghost_name ≡ out.old.stream.ghost_name }
    ensures same_err { err.new.stream.ghost_name ≡ err.old.stream.ghost_name }
{
    match made {
        Ok(reply) => give(alloc, so_far, reply, out, err, store),
        Err(why) => give_up(so_far, why, out, err),
    }
}

// Writes the output, saves the files and says what there is to say.
fn give<O: Write, E: Write, S: Store>(
    alloc: Global,
    so_far: &str,
    reply: &Reply,
    out: &mut Counting<'_, O>,
    err: &mut Counting<'_, E>,
    store: &mut S,
) -> u8
    ensures carried { let output = passage O.contents out.old out.new in
        let errors = passage E.contents err.old err.new in
        let shelf : Shelf = record { before = S.holds store.old; after = S.holds store.new } in
        IsCarriedOut (plain_reply so_far.now (Ok reply.now)) output errors shelf result }
    ensures same_out { out.new.stream.ghost_name ≡ out.old.stream.ghost_name }
    ensures same_err { err.new.stream.ghost_name ≡ err.old.stream.ghost_name }
{
    match write_both(out, so_far.as_bytes(), reply.output.as_slice()) {
        Ok(()) => keep(alloc, reply, err, store),
        Err(_) => tell_broken(err),
    }
}

// Writes the output so far, and says why there is no more.
fn give_up<O: Write, E: Write>(
    so_far: &str,
    why: &Refusal,
    out: &mut Counting<'_, O>,
    err: &mut Counting<'_, E>,
) -> u8
    ensures carried { let output = passage O.contents out.old out.new in
        let errors = passage E.contents err.old err.new in
        GivesUp (plain_refusal so_far.now why.now) output errors result }
    ensures same_out { out.new.stream.ghost_name ≡ out.old.stream.ghost_name }
    ensures same_err { err.new.stream.ghost_name ≡ err.old.stream.ghost_name }
{
    match write_text(out, so_far.as_bytes()) {
        Ok(()) => tell_refusal(why, err),
        Err(_) => tell_broken(err),
    }
}

/// Says why a command goes no further, and returns the status.
pub fn tell_refusal<E: Write>(why: &Refusal, err: &mut Counting<'_, E>) -> u8
    ensures said { let errors = passage E.contents err.old err.new in
        IsSaid (plain_refusal [] why.now).words errors }
    ensures status { result ≡ (plain_refusal [] why.now).status }
    ensures same_err { err.new.stream.ghost_name ≡ err.old.stream.ghost_name }
{
    match why {
        Refusal::Told(told, status) => {
            tell(err, told.as_slice());
            *status
        }
        Refusal::Line(line, status) => {
            tell(err, line.as_bytes());
            *status
        }
        Refusal::Memory => {
            tell(err, b"memory\n");
            5
        }
    }
}

// Says that a write of the output failed.
fn tell_broken<E: Write>(err: &mut Counting<'_, E>) -> u8
    ensures said { let errors = passage E.contents err.old err.new in
        IsSaid cannot_write errors }
    ensures status { result ≡ 1 }
    ensures same_err { err.new.stream.ghost_name ≡ err.old.stream.ghost_name }
{
    tell(err, b"cannot write output\n");
    1
}

// Saves the files and says what there is to say, behind the output.
fn keep<E: Write, S: Store>(
    alloc: Global,
    reply: &Reply,
    err: &mut Counting<'_, E>,
    store: &mut S,
) -> u8
    ensures kept { let errors = passage E.contents err.old err.new in
        let shelf : Shelf = record { before = S.holds store.old; after = S.holds store.new } in
        IsKept (plain_of reply.now) errors shelf result }
    ensures same_err { err.new.stream.ghost_name ≡ err.old.stream.ghost_name }
{
    let files = reply.files.as_slice();
    match save_all(files, store) {
        Ok(()) => {
            tell(err, reply.words.as_slice());
            reply.status
        }
        Err(unsaved) => {
            tell_unsaved(alloc, &files[unsaved.count], unsaved.why, err);
            1
        }
    }
}

// Saves the files, one after another.
fn save_all<S: Store>(files: &[File], store: &mut S) -> Result<(), Unsaved>
    ensures ok { OnOk result (AreSaved (map plain_file files.now) (S.holds store.old) (S.holds store.new)) }
    ensures err { IfErr result (λ unsaved. HasSavedSome (map plain_file files.now) unsaved.count (S.holds store.old) (S.holds store.new)) }
{
    for count in 0..files.len() {
        let file = &files[count];
        match store.save(file.name.as_str(), file.bytes.as_slice()) {
            Ok(()) => {}
            Err(fault) => return Err(Unsaved {
                count,
                why: fault.reason(),
            }),
        }
    }
    Ok(())
}

// Says that the file can't be saved, and why, where that is explained and there is memory to say it.
fn tell_unsaved<E: Write>(
    alloc: Global,
    file: &File,
    why: Option<Reason>,
    err: &mut Counting<'_, E>,
)
    ensures said { let errors = passage E.contents err.old err.new in
        TellsUnsaved (plain_file file.now) errors }
    ensures same_err { err.new.stream.ghost_name ≡ err.old.stream.ghost_name }
{
    let line = file.refused.as_bytes();
    match with_why(alloc, line, file.name.as_str(), file.explains, why) {
        Ok(told) => tell(err, told.as_slice()),
        Err(AllocError) => tell(err, line),
    }
}
