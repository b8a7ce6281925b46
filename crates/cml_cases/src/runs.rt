//! Runs of the program, each compared with what its case says.

use crate::cases::{Case, File, Words};
use crate::tally::Tally;
use cml_host::{Open, Store, run_command_counted};
use cml_stream::Counting;
use cml_system::memory::MemoryStore;
use std::alloc::{AllocError, Global};
use std::io;
use std::sync::Wait;
use std::thread::Threads;

// The most bytes of what is saved.
const LONGEST: usize = 16_777_216;

// How many bytes of what differs are told.
const TOLD: usize = 400;

// What a run left.
#[derive(Drop)]
struct Left {
    output: Vec<u8>,
    errors: Vec<u8>,
    status: u8,
}

// The arguments of a command line, after the program's name.
fn split(alloc: Global, line: &str) -> Result<Vec<String>, AllocError> {
    let mut words = Vec::new(alloc);
    words.push(String::from_str(alloc, "cml")?)?;
    for word in line.split(' ') {
        words.push(String::from_str(alloc, word)?)?;
    }
    Ok(words)
}

// What the program leaves that is run on these words and this input, over the store.
fn left_by<R>(
    rt: &R,
    words: Words<'_>,
    mut input: &[u8],
    store: &mut MemoryStore,
) -> Result<Left, AllocError>
where
    R: AllocGlobal + Threads + Wait + Sync,
{
    let alloc = rt.alloc();
    let line = split(alloc, words.line)?;
    let (mut output, mut errors) = (Vec::new(alloc), Vec::new(alloc));
    let status = run_command_counted(
        rt,
        alloc,
        &Open,
        line.as_slice(),
        &mut Counting::new(&mut input),
        &mut Counting::new(&mut output),
        &mut Counting::new(&mut errors),
        words.terminal,
        store,
    );
    drop(line);
    Ok(Left {
        output,
        errors,
        status,
    })
}

// How many bytes both begin with.
fn alike(one: &[u8], other: &[u8]) -> usize {
    let differs = one.iter().zip(other).position(|(one, other)| one != other);
    differs.unwrap_or(one.len().min(other.len()))
}

// Some of the bytes, from a few before this number on.
fn part(bytes: &[u8], at: usize) -> &[u8] {
    let rest = bytes.get(at.saturating_sub(40)..).unwrap_or(&[]);
    rest.get(..TOLD).unwrap_or(rest)
}

// Tells where what came differs from what is wanted, if it does.
fn compare<R>(
    rt: &R,
    tally: &mut Tally,
    (case, line, what): (&Case<'_>, &str, &str),
    wanted: &[u8],
    came: &[u8],
) -> io::Result<()>
where
    R: AllocGlobal + Print,
{
    if wanted == came {
        return Ok(());
    }
    tally.differs();
    let at = alike(wanted, came);
    let (name, wanted, came) = (case.name, part(wanted, at), part(came, at));
    println!(rt;
        "{name}: {line}: {what} differs at byte {at}: wanted \"{}\", and \"{}\" came",
        wanted.escape_ascii(),
        came.escape_ascii()
    )
}

// Compares what a run left.
fn compare_left<R>(
    rt: &R,
    tally: &mut Tally,
    case: &Case<'_>,
    line: &str,
    left: &Left,
) -> io::Result<()>
where
    R: AllocGlobal + Print,
{
    compare(
        rt,
        tally,
        (case, line, "output"),
        case.output,
        left.output.as_slice(),
    )?;
    compare(
        rt,
        tally,
        (case, line, "errors"),
        case.errors,
        left.errors.as_slice(),
    )?;
    if left.status != case.status {
        tally.differs();
        let (name, wanted, came) = (case.name, case.status, left.status);
        println!(rt; "{name}: {line}: status {wanted} is wanted, and {came} came")?;
    }
    Ok(())
}

// The program is run on these words, and once more on what is to be run again.
fn run_over<R>(
    rt: &R,
    tally: &mut Tally,
    case: &Case<'_>,
    words: Words<'_>,
    store: &mut MemoryStore,
) -> io::Result<()>
where
    R: AllocGlobal + Print + Threads + Wait + Sync,
{
    let left = left_by(rt, words, case.input, store)?;
    compare_left(rt, tally, case, words.line, &left)?;
    drop(left);
    if let Some(line) = case.again {
        let words = Words { line, ..words };
        let left = left_by(rt, words, case.input, store)?;
        compare_left(rt, tally, case, line, &left)?;
        drop(left);
    }
    Ok(())
}

// A store that holds the files of the case; nothing where there is no memory for it.
fn store_of(alloc: Global, case: &Case<'_>) -> Option<MemoryStore> {
    let mut store = MemoryStore::new(alloc);
    for file in case.files.as_slice() {
        store.save(file.name, file.text).ok()?;
    }
    if let Some(room) = case.room {
        store.leave_room(room);
    }
    Some(store)
}

// Tells where what lies under the name differs from what is wanted.
fn compare_file<R>(
    rt: &R,
    tally: &mut Tally,
    (case, line): (&Case<'_>, &str),
    file: &File<'_>,
    store: &mut MemoryStore,
) -> io::Result<()>
where
    R: AllocGlobal + Print,
{
    match store.load(rt.alloc(), file.name, LONGEST) {
        Ok(bytes) => compare(
            rt,
            tally,
            (case, line, file.name),
            file.text,
            bytes.as_slice(),
        ),
        Err(_) => {
            tally.differs();
            let (name, file) = (case.name, file.name);
            println!(rt; "{name}: {line}: {file} is not saved")
        }
    }
}

// Whether it is said of the file what lies under its name afterwards.
fn is_told(case: &Case<'_>, name: &str) -> bool {
    case.saves.as_slice().contains(&name)
        || case.saved.as_slice().iter().any(|saved| saved.name == name)
}

// The names under which something may lie after a run.
fn names_of<'a>(alloc: Global, case: &Case<'a>) -> Result<Vec<&'a str>, AllocError> {
    let mut names = Vec::new(alloc);
    for file in case.files.as_slice() {
        names.push(file.name)?;
    }
    for file in case.saved.as_slice() {
        names.push(file.name)?;
    }
    names.extend_from_slice(case.saves.as_slice())?;
    Ok(names)
}

// Compares what lies in the store after a run.
fn compare_store<R>(
    rt: &R,
    tally: &mut Tally,
    case: &Case<'_>,
    line: &str,
    store: &mut MemoryStore,
) -> io::Result<()>
where
    R: AllocGlobal + Print,
{
    for file in case.saved.as_slice() {
        compare_file(rt, tally, (case, line), file, store)?;
    }
    for file in case.files.as_slice() {
        if !is_told(case, file.name) {
            compare_file(rt, tally, (case, line), file, store)?;
        }
    }
    let names = names_of(rt.alloc(), case)?;
    if !store.holds_just(names.as_slice(), case.saves.as_slice()) {
        tally.differs();
        let name = case.name;
        println!(rt; "{name}: {line}: other files are saved than should be")?;
    }
    drop(names);
    Ok(())
}

// The program is run on these words over a store of its own.
fn run_words<R>(rt: &R, tally: &mut Tally, case: &Case<'_>, words: Words<'_>) -> io::Result<()>
where
    R: AllocGlobal + Print + Threads + Wait + Sync,
{
    match store_of(rt.alloc(), case) {
        Some(mut store) => {
            run_over(rt, tally, case, words, &mut store)?;
            compare_store(rt, tally, case, words.line, &mut store)
        }
        None => {
            tally.differs();
            println!(rt; "{}: no store holds its files", case.name)
        }
    }
}

/// Runs the program as the case says, and tells what differs.
pub fn run_case<R>(rt: &R, case: &Case<'_>, tally: &mut Tally) -> io::Result<()>
where
    R: AllocGlobal + Print + Threads + Wait + Sync,
{
    tally.comes();
    for words in case.runs.as_slice() {
        run_words(rt, tally, case, *words)?;
    }
    Ok(())
}
