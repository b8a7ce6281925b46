//! A store in memory, for tests of the whole program.

ghost use Rattle.std.specs.{Prelude.{◌≡◌, ◌+◌, ℕ, List, take, IfOk, IfSome, IfNone}, String.{string_bytes}};
ghost use Rattle.cml_host.specs.Stores.{nothing, bytes};
ghost use Rattle.cml_system.specs.Files.{content_under};

use cml_host::{Reason, Store, StoreFault};
use std::alloc::{AllocError, Global};

/// What lies under a name.
#[derive(Drop)]
struct File {
    name: String,
    bytes: Vec<u8>,
}

/// A store in memory: what was saved last lies first.
#[derive(Drop)]
pub struct MemoryStore {
    alloc: Global,
    files: Vec<File>,
    // How many files more can be saved.
    room: usize,
}

impl MemoryStore {
    /// A store in which nothing lies.
    pub fn new(alloc: Global) -> MemoryStore
        ensures { (name : List ℕ) → content_under result.files.items name ≡ nothing }
    {
        MemoryStore {
            alloc,
            files: Vec::new(alloc),
            room: usize::MAX,
        }
    }

    /// From now on nothing more is saved.
    pub fn close(&mut self)
        ensures { self.new.files.items ≡ self.old.files.items }
    {
        self.room = 0;
    }

    /// From now on so many files more can be saved.
    pub fn leave_room(&mut self, files: usize)
        ensures { self.new.files.items ≡ self.old.files.items }
    {
        self.room = files;
    }

    /// Whether something lies under each of the names of the second list, and nothing under a name that is none of the first.
    pub fn holds_just(&self, names: &[&str], some: &[&str]) -> bool {
        let files = self.files.as_slice();
        files.iter().all(|file| names.contains(&file.name.as_str()))
            && some.iter().all(|name| find(files, name).is_some())
    }
}

// The file that lies under the name.
fn find<'a>(files: &'a [File], name: &str) -> Option<&'a File>
    ensures some { let content = content_under files.now name.now in
        IfSome result (λ file. content ≡ bytes file.now.bytes.items) }
    ensures none { IfNone result (content_under files.now name.now ≡ nothing) }
{
    for file in files {
        if file.name.as_str() == name {
            return Some(file);
        }
    }
    None
}

// The first of the bytes, one more than the limit at most.
fn first(alloc: Global, bytes: &[u8], limit: usize) -> Result<Vec<u8>, AllocError>
    ensures { IfOk result (λ first. first.items ≡ take (limit + 1) bytes.now) }
{
    if bytes.len() > limit {
        Vec::from_slice(alloc, &bytes[..limit + 1])
    } else {
        Vec::from_slice(alloc, bytes)
    }
}

// A file with this name and these bytes.
fn new_file(alloc: Global, name: &str, bytes: &[u8]) -> Result<File, AllocError>
    ensures name { IfOk result (λ file. string_bytes file.name ≡ name.now) }
    ensures bytes { IfOk result (λ file. file.bytes.items ≡ bytes.now) }
{
    Ok(File {
        name: String::from_str(alloc, name)?,
        bytes: Vec::from_slice(alloc, bytes)?,
    })
}

impl Store for MemoryStore {
    ghost holds = { λ store. content_under store.files.items };

    fn load(&mut self, alloc: Global, name: &str, limit: usize) -> Result<Vec<u8>, StoreFault> {
        let Some(file) = find(self.files.as_slice(), name) else {
            return Err(StoreFault::Refused(Some(Reason::NotFound)));
        };
        match first(alloc, file.bytes.as_slice(), limit) {
            Ok(bytes) => Ok(bytes),
            Err(AllocError) => Err(StoreFault::Memory),
        }
    }

    fn save(&mut self, name: &str, bytes: &[u8]) -> Result<(), StoreFault> {
        if self.room == 0 {
            return Err(StoreFault::Refused(Some(Reason::ReadOnly)));
        }
        let Ok(file) = new_file(self.alloc, name, bytes) else {
            return Err(StoreFault::Memory);
        };
        match self.files.insert(0, file) {
            Ok(()) => {
                self.room -= 1;
                Ok(())
            }
            Err(_) => Err(StoreFault::Memory),
        }
    }
}
