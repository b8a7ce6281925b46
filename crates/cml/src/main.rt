//! The program: `cml` with the real input, output, errors and files.
#![tactic(auto)]

use cml_stream::Counting;
use cml_system::{run_on_system, words};
use std::io;
use std::io::IsTerminal;
use std::process::ExitCode;

fn main(rt: HostRuntime) -> io::Result<ExitCode> {
    let (mut input, mut output, mut errors) = (rt.stdin(), rt.stdout(), rt.stderr());
    let terminal = errors.is_terminal();
    let status = run_on_system(
        &rt,
        words(&rt),
        &mut Counting::new(&mut input),
        &mut Counting::new(&mut output),
        &mut Counting::new(&mut errors),
        terminal,
    )?;
    Ok(ExitCode::from(status))
}
