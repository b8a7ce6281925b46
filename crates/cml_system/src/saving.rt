//! Saving a file: beside the one that is meant, in place of which it comes when it is whole.

ghost use Rattle.std.specs.Prelude.{OnOk};
ghost use Rattle.cml_stream.specs.Streams.{stream, Takes};

use crate::reason::{refused, write_refused};
use arrayvec::ArrayString;
use cml_host::{Reason, StoreFault, save_to};
use cml_stream::Counting;
use itoa::Buffer;
use std::fs;
use std::fs::{File, OpenFile, Permissions};
use std::io::{ErrorKind, Write};
use std::rt::Files;

// The most bytes of a path. The system has no longer ones.
const PATH: usize = 4096;

// How many names are tried for the file beside. A save that was stopped leaves one behind.
const NAMES: u32 = 1000;

/// Saves the bytes in a new file in the same folder, which then gets the name, with the permissions of the file that had it. At a fault
/// what lies under the name stays as it is, and the new file goes.
///
/// # Errors
/// A refusal, where the system refuses one of the calls.
pub fn save_beside<R: Files>(
    rt: &R,
    name: &str,
    old: Option<Permissions>,
    bytes: &[u8],
) -> Result<(), StoreFault> {
    for number in 0..NAMES {
        let Some(beside) = name_beside(name, number) else {
            return Err(StoreFault::Refused(Some(Reason::LongName)));
        };
        match File::create_new(rt, beside.as_str()) {
            Ok(file) => return put_in_place(rt, file, beside.as_str(), name, old, bytes),
            Err(error) if error.kind() == ErrorKind::AlreadyExists => {}
            Err(error) => return Err(refused(error)),
        }
    }
    Err(StoreFault::Refused(None))
}

/// Writes the bytes to what lies under the name.
///
/// # Errors
/// A refusal, where the system refuses one of the calls.
pub fn save_as_it_lies<R: Files>(rt: &R, name: &str, bytes: &[u8]) -> Result<(), StoreFault> {
    let mut file = match fs::create(rt, name) {
        Ok(file) => file,
        Err(error) => return Err(refused(error)),
    };
    save_to(&mut Counting::new(&mut file), bytes)
}

// The name of a file beside the one of this name, in the same folder; none where it is longer than a path.
fn name_beside(name: &str, number: u32) -> Option<ArrayString<PATH>> {
    let mut path = ArrayString::new();
    let mut fits = true;
    if let Some((folder, _)) = name.rsplit_once('/') {
        fits = push(&mut path, folder) && push(&mut path, "/");
    }
    fits = fits && push(&mut path, ".cml-saving-") && push_number(&mut path, number);
    if fits { Some(path) } else { None }
}

// Appends the text, and returns whether there was room.
fn push(path: &mut ArrayString<PATH>, text: &str) -> bool {
    path.try_push_str(text).is_ok()
}

fn push_number(path: &mut ArrayString<PATH>, number: u32) -> bool {
    let mut digits = Buffer::new();
    push(path, digits.format(number))
}

// Fills the new file and gives it the name; or where that is refused takes it away.
fn put_in_place<R: Files>(
    rt: &R,
    mut file: R::File,
    beside: &str,
    name: &str,
    old: Option<Permissions>,
    bytes: &[u8],
) -> Result<(), StoreFault> {
    let filled = fill(&mut file, old, bytes);
    drop(file);
    let placed = match filled {
        Ok(()) => rename(rt, beside, name),
        Err(fault) => Err(fault),
    };
    if placed.is_err() {
        let _ = fs::remove_file(rt, beside);
    }
    placed
}

// Gives the file another name.
fn rename<R: Files>(rt: &R, old: &str, new: &str) -> Result<(), StoreFault> {
    match fs::rename(rt, old, new) {
        Ok(()) => Ok(()),
        Err(error) => Err(refused(error)),
    }
}

// Gives the file its permissions and its bytes, and waits until they have reached the device.
fn fill<F: Write + OpenFile>(
    file: &mut F,
    old: Option<Permissions>,
    bytes: &[u8],
) -> Result<(), StoreFault>
    ensures { let kept = stream (F.contents file.old) (F.contents file.new) in
        OnOk result (Takes kept bytes.now) }
{
    if let Some(permissions) = old
        && let Err(error) = file.set_permissions(permissions)
    {
        return Err(refused(error));
    }
    if save_to(&mut Counting::new(file), bytes).is_err() {
        return Err(write_refused(file, bytes));
    }
    match file.sync_all() {
        Ok(()) => Ok(()),
        Err(error) => Err(refused(error)),
    }
}
