//! The program over the system: its files as a store, and the arguments of its command line.
#![tactic(auto)]

mod disk;
pub mod memory;
mod reason;
mod saving;

ghost use Rattle.std.specs.Prelude.{◌≡◌, ◌≤◌, IfOk, OnOk, OnErr, map, option_map};
ghost use Rattle.std.specs.{Result.{result_ok}, String.{string_bytes}};
ghost use Rattle.cml_host.specs.{Between.{between}, Statuses.{Surroundings}};
ghost use Rattle.cml_system.specs.Systems.{RanOnSystem, NothingCalled, files};
ghost use Rattle.cml_trace.specs.Live.{max_turns};

use cml_host::{Open, run_command_counted, say};
use cml_stream::Counting;
pub use disk::Disk;
use std::io::{ErrorKind, Read, Write};
use std::rt::{Env, Files};
use std::sync::Wait;
use std::thread::Threads;
use std::{env, io};

/// The words of the command line, the program's name first.
///
/// # Errors
/// A word that is not text; or out of memory.
pub fn words(rt: &(impl AllocGlobal + Env)) -> io::Result<Vec<String>> {
    Ok(env::args(rt)?.collect(rt.alloc())?)
}

/// Runs the command that these words name, which were read of the command line, the program's name first, over the files of the system. It
/// returns the status of the process. None of the streams was called yet. Where there was no memory for the words, the status is 5, and
/// `memory` is written to the errors. The caller says whether the errors go to a terminal.
///
/// # Errors
/// Words that are not text. No stream is called then.
pub fn run_on_system<R, I, O, E>(
    rt: &R,
    words: io::Result<Vec<String>>,
    input: &mut Counting<'_, I>,
    out: &mut Counting<'_, O>,
    err: &mut Counting<'_, E>,
    terminal: bool,
) -> io::Result<u8>
where
    R: AllocGlobal + Files + Threads + Wait + Sync,
    I: Read,
    O: Write,
    E: Write + Send,
    requires reads { (input.old.calls ≡ 0) × (input.old.failed ≡ 0) }
    requires writes { (out.old.calls ≡ 0) × (out.old.failed ≡ 0) }
    requires complaints { (err.old.calls ≡ 0) × (err.old.failed ≡ 0) }
    ensures ran { let around : Surroundings = record {
      input = between I.remaining input.old input.new;
      output = between O.contents out.old out.new;
      errors = between E.contents err.old err.new;
      terminal = terminal;
      store = files;
    } in
        IfOk result (RanOnSystem (option_map (λ all. map string_bytes all.items) (result_ok words)) around) }
    ensures left { let around : Surroundings = record {
      input = between I.remaining input.old input.new;
      output = between O.contents out.old out.new;
      errors = between E.contents err.old err.new;
      terminal = terminal;
      store = files;
    } in
        OnErr result (NothingCalled around) }
    ensures read { OnErr result (OnOk words ⊥) }
    ensures most { input.new.calls ≤ max_turns }
{
    let alloc = rt.alloc();
    match words {
        Ok(words) => Ok(run_command_counted(
            rt,
            alloc,
            &Open,
            words.as_slice(),
            input,
            out,
            err,
            terminal,
            &mut Disk::new(rt),
        )),
        Err(error) if error.kind() == ErrorKind::OutOfMemory => {
            say(err, b"memory\n");
            Ok(5)
        }
        Err(error) => Err(error),
    }
}
