//! The program, over memory, and streams of which one call may fail.

use crate::streams::{reader_of, taking};
use cml_host::{Store, run_command};
use cml_system::memory::MemoryStore;
use std::alloc::{AllocError, Global};
use std::process::Abort;
use std::sync::Wait;
use std::thread::Threads;

/// What a test has: it may end the process, allocate, start threads and wait.
pub trait Runtime: Abort + AllocGlobal + Threads + Wait + Sync {}

impl<R: Abort + AllocGlobal + Threads + Wait + Sync> Runtime for R {}

/// One thread sends to another, through a wrap.
pub const ADDITION: &str = "(fn add (a b) (return (+ a b))) \
     (fn give (c) (sync (send c 41))) \
     (fn main () (let c (chan)) (spawn give c) (let x (sync (wrap (recv c) add 1))) (print x))";

/// A branch that is cancelled, and a thread that waits for its nack.
pub const CANCELLED: &str = "(fn watch (n) (sync n) (print \"cancelled\")) \
     (fn branch (c n) (spawn watch n) (return (recv c))) \
     (fn main () (let c (chan)) (let x (sync (choose (withnack branch c) (always 7)))) (print x))";

/// Two threads that count up in an M-variable.
pub const COUNTER: &str = "(fn add (m) (let x (sync (mtake m))) (mput m (+ x 1))) \
     (fn main () (let m (mvar 0)) (let a (spawn add m)) (let b (spawn add m)) (sync (join a)) (sync (join b)) (let x (sync (mget m))) (print x))";

/// How the addition goes by itself, as it is recorded.
pub const ADDED: &str =
    "schedule 2 1000000 3 6\nturn 0\nturn 0\nturn 1\nturn 0\ncommit 1 0 0 0\nturn 1\nturn 0\nturn 0\nend\n";

/// The arguments of a command line, after the program's name.
pub fn words(alloc: Global, line: &str) -> Result<Vec<String>, AllocError> {
    let mut words = Vec::new(alloc);
    words.push(String::from_str(alloc, "cml")?)?;
    for word in line.split(' ') {
        words.push(String::from_str(alloc, word)?)?;
    }
    Ok(words)
}

/// How many calls of each stream are good before one fails, and whether a write that should fail takes nothing instead.
#[derive(Clone, Copy)]
pub struct Good {
    pub reads: usize,
    pub output: usize,
    pub errors: usize,
    pub takes_nothing: bool,
}

/// All calls are good.
pub const ALL: Good = Good {
    reads: usize::MAX,
    output: usize::MAX,
    errors: usize::MAX,
    takes_nothing: false,
};

/// What a run left.
#[derive(Drop)]
pub struct Left {
    pub output: Vec<u8>,
    pub errors: Vec<u8>,
    pub status: u8,
}

/// What the program leaves that is run on this line of arguments and this input, over these streams and the store.
pub fn left_with(
    rt: &impl Runtime,
    (line, input): (&str, &str),
    good: Good,
    store: &mut MemoryStore,
) -> Result<Left, AllocError> {
    let alloc = rt.alloc();
    let words = words(alloc, line)?;
    let mut reader = reader_of(input.as_bytes(), good.reads);
    let mut output = taking(alloc, good.output, good.takes_nothing);
    let mut errors = taking(alloc, good.errors, good.takes_nothing);
    let status = run_command(
        rt,
        alloc,
        words.as_slice(),
        &mut reader,
        &mut output,
        &mut errors,
        store,
    );
    drop(words);
    Ok(Left {
        output: output.taken,
        errors: errors.taken,
        status,
    })
}

/// The same, over streams that are good.
pub fn left_by(rt: &impl Runtime, line: &str, store: &mut MemoryStore) -> Result<Left, AllocError> {
    left_with(rt, (line, ""), ALL, store)
}

/// A store that holds these files.
pub fn filled(
    rt: &(impl Abort + AllocGlobal),
    files: &[(&'static str, &'static str)],
) -> MemoryStore {
    let mut store = MemoryStore::new(rt.alloc());
    for (name, text) in files {
        assert!(rt; store.save(name, text.as_bytes()).is_ok(), "save {name}");
    }
    store
}
