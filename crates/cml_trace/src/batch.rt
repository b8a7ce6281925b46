//! Commands that are done by one call.

ghost use Rattle.std.specs.Prelude.{◌≡◌, ◌∷◌, ◌++◌, ◌+◌, [], ℕ, List, IfSome, IfNone, OnOk, OnErr};
ghost use Rattle.cml_book.specs.declared.command.Command.{Command};
ghost use Rattle.cml_trace.specs.{Batches.{AskFor, Gathers, StopsAt}, Orders.{AsksFor}};

use crate::line::{Lines, order_from};
use crate::order::Request;
use cml_book::Command;
use std::alloc::{AllocError, Global};

/// Why a batch ends where it does.
#[derive(Drop)]
pub enum Stop {
    /// The next line asks for the rows.
    Rows,
    /// The next line, which has this number, is bad.
    Bad(u64),
    /// There are no more lines.
    End,
    /// Out of memory.
    Memory,
}

/// The commands of the lines up to one that asks for something else.
#[derive(Drop)]
pub struct Batch {
    /// The commands, in order.
    pub commands: Vec<Command>,
    /// What comes after them.
    pub stop: Stop,
}

/// The commands of the next lines. The line that asks for the rows after them is taken too.
pub fn gather(alloc: Global, lines: &mut Lines<'_>) -> Batch
    ensures { Gathers lines.old lines.new result.commands.items result.stop }
{
    let mut commands = Vec::new(alloc);
    let stop = gather_into(alloc, lines, &mut commands);
    Batch { commands, stop }
}

// Adds the commands of the next lines, and says why there are no more.
fn gather_into(alloc: Global, lines: &mut Lines<'_>, commands: &mut Vec<Command>) -> Stop
    requires { commands.old.items ≡ [] }
    ensures { Gathers lines.old lines.new commands.new.items result }
{
    while let Some((number, line)) = lines.next() {
        match take_line(alloc, number, line, commands) {
            Some(stop) => return stop,
            None => {}
        }
    }
    Stop::End
}

// Adds the command of the line of this number, or says why none is taken.
fn take_line(alloc: Global, number: u64, line: &[u8], commands: &mut Vec<Command>) -> Option<Stop>
    ensures taken { IfNone result ((more : List Command) × AskFor (line.now ∷ []) more × (commands.new.items ≡ commands.old.items ++ more)) }
    ensures stops { (behind : List (List ℕ)) →
        IfSome result (λ stop. StopsAt stop (record { number = number; left = line.now ∷ behind }) (record { number = number + 1; left = behind })) }
    ensures same { IfSome result (λ _. commands.new.items ≡ commands.old.items) }
{
    match order_from(alloc, line) {
        Ok(Some(order)) => take_order(order, commands),
        Ok(None) => Some(Stop::Bad(number)),
        Err(AllocError) => Some(Stop::Memory),
    }
}

// Adds the command for which a line asks, or says why none is taken.
fn take_order(order: Request, commands: &mut Vec<Command>) -> Option<Stop>
    ensures taken { (line : List ℕ) → AsksFor line order
        → IfNone result ((more : List Command) × AskFor (line ∷ []) more × (commands.new.items ≡ commands.old.items ++ more)) }
    ensures stops { (number : ℕ) (line : List ℕ) (behind : List (List ℕ)) → AsksFor line order
        → IfSome result (λ stop. StopsAt stop (record { number = number; left = line ∷ behind }) (record { number = number + 1; left = behind })) }
    ensures same { IfSome result (λ _. commands.new.items ≡ commands.old.items) }
{
    match order {
        Request::Skip => None,
        Request::Rows => Some(Stop::Rows),
        Request::Do(command) => match add(commands, command) {
            Ok(()) => None,
            Err(AllocError) => Some(Stop::Memory),
        },
    }
}

// Adds a command.
fn add(commands: &mut Vec<Command>, command: Command) -> Result<(), AllocError>
    ensures ok { OnOk result (commands.new.items ≡ commands.old.items ++ command ∷ []) }
    ensures err { OnErr result (commands.new.items ≡ commands.old.items) }
{
    commands.push(command)?;
    Ok(())
}
