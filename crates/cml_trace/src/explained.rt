//! Traces that are explained: what is told of their lines.

ghost use Rattle.std.specs.Prelude.{◌≡◌, ◌≤◌, ◌++◌, length, IfOk, OnOk, List};
ghost use Rattle.cml_book.specs.{declared.command.Command.{Command}, Step.{step, empty_world}};
ghost use Rattle.cml_trace.specs.{Answers.{after_order, trace_lines, max_input}, Bads.{IsBadFor}, Explained.{Explains, line_told, told_of}, Orders.{AsksFor}};
ghost use Rattle.cml_trace.specs.Whys.{why_of};
ghost use Rattle.cml_trace.specs.declared.order.Request.TheVariants as order;
ghost use Rattle.cml_trace.specs.declared.why.Bad.{Bad};
ghost use Rattle.cml_trace.specs.declared.why.Cause.TheVariants as cause;
ghost use Rattle.cml_trace.specs.declared.why.Told.{Told};
ghost use Rattle.cml_trace.specs.Explained as spec;

use crate::bad::why_bad;
use crate::line::{Lines, order_from};
use crate::order::Request;
use crate::refused::why_of;
use crate::why::{Cause, Told};
use cml_book::{Book, Command, Refusal, Reply};
use cml_index::OfferIndex;
use cml_scan::Table;
use cml_text::law::{spelled_has_no_fault, spells_one_at_most};
use std::alloc::{AllocError, Global};

/// What is told of the lines of a trace, in their order: why each refused command was refused, and why a bad line, at which the trace
/// ends, is bad. A trace has at most [`MAX_INPUT`](crate::MAX_INPUT) bytes.
///
/// # Errors
/// Out of memory.
pub fn explain_trace(alloc: Global, trace: &[u8]) -> Result<Vec<Told>, AllocError>
    requires { length trace.now ≤ max_input }
    ensures { IfOk result (λ told. Explains 1 empty_world (trace_lines trace.now) told.items) }
{
    let mut book = Book::new(alloc, OfferIndex::new(alloc));
    let mut told = Vec::new(alloc);
    let result = explain_lines(alloc, &mut book, &mut told, &mut Lines::new(1, trace));
    drop(book);
    match result {
        Ok(()) => Ok(told),
        Err(AllocError) => Err(AllocError),
    }
}

// Does these lines in the world of the book, and adds what is told of them.
fn explain_lines<T: Table>(
    alloc: Global,
    book: &mut Book<T>,
    told: &mut Vec<Told>,
    lines: &mut Lines<'_>,
) -> Result<(), AllocError>
    ensures { OnOk result ((more : List Told) × Explains lines.old.number book.old lines.old.left more × (told.new.items ≡ told.old.items ++ more)) }
{
    while let Some((number, line)) = lines.next() {
        match order_from(alloc, line)? {
            Some(order) => do_order(alloc, book, told, number, line, order)?,
            None => return tell_bad(alloc, told, number, line),
        }
    }
    Ok(())
}

// Does what this line asks for, and adds what is told of it.
fn do_order<T: Table>(
    alloc: Global,
    book: &mut Book<T>,
    told: &mut Vec<Told>,
    number: u64,
    line: &[u8],
    order: Request,
) -> Result<(), AllocError>
    requires { AsksFor line.now order }
    ensures world { OnOk result (book.new ≡ after_order order book.old) }
    ensures told { OnOk result (told.new.items ≡ told.old.items ++ told_of number book.old order) }
{
    match order {
        Request::Do(command) => do_command(alloc, book, told, number, line, command),
        Request::Rows | Request::Skip => Ok(()),
    }
}

// Adds why this line is bad.
fn tell_bad(alloc: Global, told: &mut Vec<Told>, number: u64, line: &[u8]) -> Result<(), AllocError>
    ensures { OnOk result ((why : Bad) × IsBadFor line.now why × (told.new.items ≡ told.old.items ++ line_told number (cause.Bad why))) }
{
    let why = why_bad(alloc, line)?;
    tell(told, number, Cause::Bad(why))
}

// Adds what is told of the line of this number.
fn tell(told: &mut Vec<Told>, line: u64, cause: Cause) -> Result<(), AllocError>
    ensures { OnOk result (told.new.items ≡ told.old.items ++ line_told line cause) }
{
    told.push(Told { line, cause })?;
    Ok(())
}

// Does the command of this line, and adds what is told of it.
fn do_command<T: Table>(
    alloc: Global,
    book: &mut Book<T>,
    told: &mut Vec<Told>,
    number: u64,
    line: &[u8],
    command: Command,
) -> Result<(), AllocError>
    requires { AsksFor line.now (order.Do command) }
    ensures world { OnOk result (book.new ≡ (step book.old command).0) }
    ensures told { OnOk result (told.new.items ≡ told.old.items ++ told_of number book.old (order.Do command)) }
{
    match book.perform(alloc, command) {
        Ok(reply) => {
            let refusal = refusal_in(&reply);
            drop(reply);
            match refusal {
                Some(why) => tell_refused(alloc, book, told, number, line, why),
                None => Ok(()),
            }
        }
        Err(returned) => {
            drop(returned);
            Err(AllocError)
        }
    }
}

// Why the command of this reply was refused, if it was.
fn refusal_in(reply: &Reply) -> Option<Refusal>
    ensures { result ≡ spec.refusal_in reply.now }
{
    match reply {
        Reply::Refused(why) => Some(*why),
        _ => None,
    }
}

// Adds why the command of this line was refused.
fn tell_refused<T: Table>(
    alloc: Global,
    book: &Book<T>,
    told: &mut Vec<Told>,
    number: u64,
    line: &[u8],
    why: Refusal,
) -> Result<(), AllocError>
    requires { (c : Command) × AsksFor line.now (order.Do c) }
    ensures { (c : Command) → AsksFor line.now (order.Do c)
        → OnOk result (told.new.items ≡ told.old.items ++ line_told number (cause.Refused (why_of book.now c why))) }
{
    let command = command_again(alloc, line)?;
    let found = why_of(book, &command, why);
    drop(command);
    tell(told, number, Cause::Refused(found))
}

// The command for which the line asks: the book keeps the one that was read first.
fn command_again(alloc: Global, line: &[u8]) -> Result<Command, AllocError>
    requires { (c : Command) × AsksFor line.now (order.Do c) }
    ensures { (c : Command) → AsksFor line.now (order.Do c) → IfOk result (λ command. command ≡ c) }
{
    spells_one_at_most();
    spelled_has_no_fault();
    match order_from(alloc, line)? {
        Some(Request::Do(command)) => Ok(command),
        _ => unreachable!(),
    }
}
