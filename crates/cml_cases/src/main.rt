//! Runs the program over memory, once for each case of the files that the arguments name, and tells each difference.
#![tactic(auto)]

mod blocks;
mod cases;
mod runs;
mod tally;

use crate::blocks::{Block, read_blocks};
use crate::cases::read_cases;
use crate::runs::run_case;
use crate::tally::Tally;
use cml_host::Store;
use cml_system::Disk;
use std::process::ExitCode;
use std::rt::Files;
use std::sync::Wait;
use std::thread::Threads;
use std::{env, io};

// The most bytes of a file of cases.
const LONGEST: usize = 16_777_216;

// The text of the file; nothing where it can't be read.
fn text_of<R: AllocGlobal + Files>(rt: &R, name: &str) -> Option<String> {
    let bytes = Disk::new(rt).load(rt.alloc(), name, LONGEST).ok()?;
    String::from_utf8(bytes).ok()
}

// Runs the cases of these blocks.
fn run_blocks<R>(rt: &R, name: &str, blocks: &[Block], tally: &mut Tally) -> io::Result<()>
where
    R: AllocGlobal + Print + Threads + Wait + Sync,
{
    let read = read_cases(rt.alloc(), blocks)?;
    if let Some(line) = read.fault {
        tally.differs();
        println!(rt; "{name}: the case can't be read, at line {line}")?;
    }
    for case in read.cases.as_slice() {
        run_case(rt, case, tally)?;
    }
    Ok(())
}

// Runs the cases of the file. Its blocks come behind those of the files before it.
fn run_file<R>(rt: &R, name: &str, blocks: &mut Vec<Block>, tally: &mut Tally) -> io::Result<()>
where
    R: AllocGlobal + Print + Files + Threads + Wait + Sync,
{
    let Some(text) = text_of(rt, name) else {
        tally.differs();
        return println!(rt; "{name}: the file can't be read");
    };
    let before = blocks.len();
    if let Some(line) = read_blocks(rt.alloc(), blocks, text.as_str())? {
        tally.differs();
        println!(rt; "{name}: line {line} can't be read")?;
    }
    run_blocks(rt, name, blocks.get(before..).unwrap_or(&[]), tally)
}

fn main(rt: HostRuntime) -> io::Result<ExitCode> {
    let words: Vec<String> = env::args(&rt)?.collect(rt.alloc())?;
    let mut blocks = Vec::new(rt.alloc());
    let mut tally = Tally::new();
    for name in words.as_slice().iter().skip(1) {
        run_file(&rt, name.as_str(), &mut blocks, &mut tally)?;
    }
    println!(rt; "{} cases, {} differ", tally.cases, tally.differ)?;
    Ok(ExitCode::from(u8::from(tally.differ > 0)))
}
