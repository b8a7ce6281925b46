//! The files of the system as a store.

ghost use Rattle.std.specs.Prelude.{◌+◌, ◌≤◌, length, IfOk};
ghost use Rattle.cml_host.specs.Stores.{unknown};

use crate::reason::{read_refused, refused};
use crate::saving::{save_as_it_lies, save_beside};
use cml_host::{Reason, Store, StoreFault, load_from};
use cml_stream::Counting;
use std::alloc::{AllocError, Global};
use std::fs;
use std::fs::OpenOptions;
use std::io::{ErrorKind, Read};
use std::rt::Files;

/// The files of the system. What they hold is not known, since other programs write to them too. The name `-` is that of standard input, where
/// a file is read. A file that holds what was read first, which is a script, is never replaced.
#[derive(Drop)]
pub struct Disk<'a, R: Files> {
    rt: &'a R,
    script: Option<Vec<u8>>,
}

impl<'a, R: Files> Disk<'a, R> {
    /// The files of this system.
    pub fn new(rt: &'a R) -> Disk<'a, R> {
        Disk { rt, script: None }
    }
}

// Where what lies under the name is opened: `-` is standard input.
fn opened_as(name: &str) -> &str {
    if name == "-" { "/dev/stdin" } else { name }
}

// What lies under the name.
fn read_all<R: Files>(
    rt: &R,
    alloc: Global,
    name: &str,
    limit: usize,
) -> Result<Vec<u8>, StoreFault>
    ensures { IfOk result (λ all. length all.items ≤ limit + 1) }
{
    let mut file = match fs::open(rt, name) {
        Ok(file) => file,
        Err(error) => return Err(refused(error)),
    };
    match load_from(alloc, &mut Counting::new(&mut file), limit) {
        Ok(all) => Ok(all),
        Err(StoreFault::Refused(_)) => Err(read_refused(&mut file)),
        Err(StoreFault::Memory) => Err(StoreFault::Memory),
    }
}

// Whether these are all bytes of the file.
fn are_all<F: Read>(file: &mut F, bytes: &[u8]) -> bool {
    let mut rest = bytes;
    let mut room = [0u8; 1024];
    for _ in 0..=bytes.len() {
        let read = match file.read(&mut room) {
            Ok(read) => read,
            Err(_) => return false,
        };
        if read == 0 {
            return rest.is_empty();
        }
        if rest.len() < read || rest[..read] != room[..read] {
            return false;
        }
        rest = &rest[read..];
    }
    false
}

// Whether a file of this name holds these bytes, and no others.
fn holds<R: Files>(rt: &R, name: &str, bytes: &[u8]) -> bool {
    match fs::metadata(rt, name) {
        Ok(found) if found.is_file() => {}
        _ => return false,
    }
    match fs::open(rt, name) {
        Ok(mut file) => are_all(&mut file, bytes),
        Err(_) => false,
    }
}

// Gives the file the bytes: a regular one, or one that is new, gets them at once, and what is no regular file itself where it lies.
fn put<R: Files>(rt: &R, name: &str, bytes: &[u8]) -> Result<(), StoreFault> {
    match fs::symlink_metadata(rt, name) {
        Ok(old) if old.is_file() => {
            if let Err(error) = OpenOptions::new().write(true).open(rt, name) {
                return Err(refused(error));
            }
            save_beside(rt, name, Some(old.permissions()), bytes)
        }
        Ok(_) => save_as_it_lies(rt, name, bytes),
        Err(error) if error.kind() == ErrorKind::NotFound => save_beside(rt, name, None, bytes),
        Err(error) => Err(refused(error)),
    }
}

impl<'a, R: Files> Store for Disk<'a, R> {
    ghost holds = { λ disk name. unknown };

    fn load(&mut self, alloc: Global, name: &str, limit: usize) -> Result<Vec<u8>, StoreFault> {
        let all = read_all(self.rt, alloc, opened_as(name), limit)?;
        if self.script.is_none() {
            match Vec::from_slice(alloc, all.as_slice()) {
                Ok(script) => self.script = Some(script),
                Err(AllocError) => return Err(StoreFault::Memory),
            }
        }
        Ok(all)
    }

    // A regular file, or one that is new, gets its bytes at once: at a fault, and where the process is stopped, what lay under the name
    // lies there whole. A file that may not be written to stays, and so does one that holds the script, whatever name it is called by.
    // What is no regular file itself, as a device or a link, is written to where it lies.
    fn save(&mut self, name: &str, bytes: &[u8]) -> Result<(), StoreFault> {
        if let Some(script) = &self.script
            && holds(self.rt, name, script.as_slice())
        {
            return Err(StoreFault::Refused(Some(Reason::Script)));
        }
        put(self.rt, name, bytes)
    }
}
