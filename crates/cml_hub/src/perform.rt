//! What a thread asks is done by a command of the book, once all memory is there that it takes.

ghost use Rattle.std.specs.Prelude.{◌≡◌, ℕ, List, ◌+◌, ◌≤◌, ◌++◌, true, Some, IfOk, OnOk, OnErr, codes, length, slice_get};
ghost use Rattle.std.specs.String.{string_bytes, string_len, string_capacity};
ghost use Rattle.cml_text.specs.Lines.{line as line_of};
ghost use Rattle.cml_scan.specs.{Numbers.{spaced}, World.{running, ended}};
ghost use Rattle.cml_value.specs.Views.{plain_value};
ghost use Rattle.cml_check.specs.{Syntax.{PlainItem}, InOrder.{arities}};
ghost use Rattle.cml_step.specs.{Agrees.{function_agrees}, Answers.{top_await, nack as awaits_nack}, AskViews.{plain_ask}};
ghost use Rattle.cml_step.specs.Machines.{PlainMachine, machine_term, Fits};
ghost use Rattle.cml_step.specs.Asks as asks;
ghost use Rattle.cml_book.specs.Outcomes.{with_thread};
ghost use Rattle.cml_hub.specs.{Performed.{spoken, asked, fails}, Runs.{output_of}, Dones.{plain_done, told_ahead}};
ghost use Rattle.cml_hub.specs.Asking.{HasAsked, Performs, IsDone, IsPrepared};

use crate::done::{Done, Prepared};
use cml_book::{Book, Fault, Returned};
use cml_check::Prog;
use cml_index::OfferIndex;
use cml_step::{Ask, Machine};
use cml_value::{FnRef, IVarId, MVarId, MboxId, McastId, Tid, Value, ValueKind};
use std::alloc::{AllocError, Global};

// The book in which a run's threads and objects are.
pub(crate) type RunBook = Book<OfferIndex>;

fn gets(kind: ValueKind) -> Done
    ensures { result ≡ Done.Gets (plain_value kind) }
{
    Done::Gets(Value::new(kind))
}

// Begins a thread with the function.
#[inline(never)]
fn spawn(
    alloc: Global,
    program: &Prog,
    book: &mut RunBook,
    thread: Tid,
    function: &FnRef,
) -> Result<Done, Fault>
    requires { function_agrees (arities program.now) 0 function.now ≡ true }
    ensures done { let a = asks.spawn function.now in Performs a result (asked book.old thread.0 a) book.old book.new }
    ensures fits { IfOk result (λ d. (end : PlainMachine) → IsDone program.now thread.0 (asks.spawn function.now) end d) }
{
    let copy = function.copy()?;
    let Ok(child) = Machine::start(alloc, program, book.next_thread(), copy) else {
        return Err(Fault::Memory);
    };
    let Ok(child) = Box::new(alloc, child) else {
        return Err(Fault::Memory);
    };
    book.spawn()?;
    Ok(Done::Spawns(child))
}

// Makes a fresh nack. Room for it in the machine is made first.
#[inline(never)]
fn nack(alloc: Global, book: &mut RunBook, thread: Tid, end: &Machine) -> Result<Done, Fault>
    requires { (p : List (PlainItem ℕ)) × Fits p end.now × (top_await (machine_term p end.now) ≡ awaits_nack) }
    ensures done { Performs asks.fresh_nack result (asked book.old thread.0 asks.fresh_nack) book.old book.new }
    ensures fits { IfOk result (λ d. (p : List (PlainItem ℕ)) → IsDone p thread.0 asks.fresh_nack end.now d) }
{
    let room = end.reserve_nack(alloc, book.next_nack())?;
    let Ok(room) = Box::new(alloc, room) else {
        return Err(Fault::Memory);
    };
    book.nack(thread)?;
    Ok(Done::Takes(room))
}

// Puts a copy of the value into the variable.
#[inline(never)]
fn iput(
    alloc: Global,
    book: &mut RunBook,
    thread: Tid,
    ivar: IVarId,
    value: &Value,
) -> Result<Done, Fault>
    ensures done { let a = asks.iput ivar.0 value.now in Performs a result (asked book.old thread.0 a) book.old book.new }
    ensures fits { IfOk result (λ d. (p : List (PlainItem ℕ)) (end : PlainMachine) → IsDone p thread.0 (asks.iput ivar.0 value.now) end d) }
{
    match book.iput(alloc, ivar, value.copy()?) {
        Ok(()) => Ok(gets(ValueKind::Unit)),
        Err(Returned { fault, .. }) => Err(fault),
    }
}

fn mput(
    alloc: Global,
    book: &mut RunBook,
    thread: Tid,
    mvar: MVarId,
    value: &Value,
) -> Result<Done, Fault>
    ensures done { let a = asks.mput mvar.0 value.now in Performs a result (asked book.old thread.0 a) book.old book.new }
    ensures fits { IfOk result (λ d. (p : List (PlainItem ℕ)) (end : PlainMachine) → IsDone p thread.0 (asks.mput mvar.0 value.now) end d) }
{
    match book.mput(alloc, mvar, value.copy()?) {
        Ok(()) => Ok(gets(ValueKind::Unit)),
        Err(Returned { fault, .. }) => Err(fault),
    }
}

// Sends a copy of the value to the mailbox.
fn mail(
    alloc: Global,
    book: &mut RunBook,
    thread: Tid,
    mailbox: MboxId,
    value: &Value,
) -> Result<Done, Fault>
    ensures done { let a = asks.mail mailbox.0 value.now in Performs a result (asked book.old thread.0 a) book.old book.new }
    ensures fits { IfOk result (λ d. (p : List (PlainItem ℕ)) (end : PlainMachine) → IsDone p thread.0 (asks.mail mailbox.0 value.now) end d) }
{
    match book.mail(alloc, mailbox, value.copy()?) {
        Ok(()) => Ok(gets(ValueKind::Unit)),
        Err(Returned { fault, .. }) => Err(fault),
    }
}

#[inline(never)]
fn multicast(
    alloc: Global,
    book: &mut RunBook,
    thread: Tid,
    channel: McastId,
    message: &Value,
) -> Result<Done, Fault>
    ensures done { let a = asks.multicast channel.0 message.now in Performs a result (asked book.old thread.0 a) book.old book.new }
    ensures fits { IfOk result (λ d. (p : List (PlainItem ℕ)) (end : PlainMachine) → IsDone p thread.0 (asks.multicast channel.0 message.now) end d) }
{
    match book.multicast(alloc, channel, message.copy()?) {
        Ok(()) => Ok(gets(ValueKind::Unit)),
        Err(Returned { fault, .. }) => Err(fault),
    }
}

// Makes an M-variable that is empty or holds a copy of the value.
#[inline(never)]
fn make_mvar(
    alloc: Global,
    book: &mut RunBook,
    thread: Tid,
    held: &Option<Value>,
) -> Result<Done, Fault>
    ensures done { let a = asks.make_mvar held.now in Performs a result (asked book.old thread.0 a) book.old book.new }
    ensures fits { IfOk result (λ d. (p : List (PlainItem ℕ)) (end : PlainMachine) → IsDone p thread.0 (asks.make_mvar held.now) end d) }
{
    let copy = match held {
        Some(value) => Some(value.copy()?),
        None => None,
    };
    match book.make_mvar(alloc, copy) {
        Ok(mvar) => Ok(gets(ValueKind::MVar(mvar))),
        Err(Returned { fault, .. }) => Err(fault),
    }
}

// Does what the thread asks, or says why it is refused.
fn perform(
    alloc: Global,
    program: &Prog,
    book: &mut RunBook,
    thread: Tid,
    end: &Machine,
    ask: &Ask,
) -> Result<Done, Fault>
    requires ready { HasAsked program.now end.now (plain_ask ask.now) }
    ensures done { let a = plain_ask ask.now in Performs a result (asked book.old thread.0 a) book.old book.new }
    ensures fits { IfOk result (λ d. IsDone program.now thread.0 (plain_ask ask.now) end.now d) }
{
    match ask {
        Ask::Nothing => Ok(Done::Goes),
        Ask::Yield => Ok(gets(ValueKind::Unit)),
        Ask::Spawn(function) => spawn(alloc, program, book, thread, function),
        Ask::MakeChan => Ok(gets(ValueKind::Chan(book.make_chan()?))),
        Ask::MakeSwap => Ok(gets(ValueKind::Swap(book.make_swap()?))),
        Ask::MakeIVar => Ok(gets(ValueKind::IVar(book.make_ivar()?))),
        Ask::MakeMVar(held) => make_mvar(alloc, book, thread, held),
        Ask::MakeMailbox => Ok(gets(ValueKind::Mailbox(book.make_mailbox(alloc)?))),
        Ask::MakeMchan => Ok(gets(ValueKind::Mchan(book.make_mchan(alloc)?))),
        Ask::MakePort(channel) => Ok(gets(ValueKind::Port(book.make_port(alloc, *channel)?))),
        Ask::CopyPort(port) => Ok(gets(ValueKind::Port(book.copy_port(alloc, *port)?))),
        Ask::IPut(ivar, value) => iput(alloc, book, thread, *ivar, value),
        Ask::MPut(mvar, value) => mput(alloc, book, thread, *mvar, value),
        Ask::Mail(mailbox, value) => mail(alloc, book, thread, *mailbox, value),
        Ask::Multicast(channel, value) => multicast(alloc, book, thread, *channel, value),
        Ask::Print(_) => Ok(Done::Prints),
        Ask::Now => Ok(gets(ValueKind::Int(book.now() as i64))),
        Ask::Nack => nack(alloc, book, thread, end),
        Ask::Sync(group) => {
            book.sync(alloc, thread, group)?;
            Ok(Done::Waits)
        }
        Ask::End => {
            book.end(alloc, thread)?;
            Ok(Done::Ends)
        }
        Ask::Fault(why) => {
            book.end(alloc, thread)?;
            Ok(Done::Fails(why.name()))
        }
    }
}

// The characters of a text, and any other value as it is shown, as a line.
#[inline(never)]
fn spoken_line(alloc: Global, value: &Value) -> Result<String, AllocError>
    ensures { IfOk result (λ text. string_bytes text ≡ line_of (spoken value.now)) }
{
    let mut text = match value.kind() {
        ValueKind::Text(text) => {
            let mut line = String::new(alloc);
            line.push_str(text.as_str())?;
            line
        }
        _ => value.show(alloc)?,
    };
    text.push_str("\n")?;
    Ok(text)
}

// The line of a thread's fault.
#[inline(never)]
fn fault_line(alloc: Global, thread: Tid, name: &str) -> Result<String, AllocError>
    ensures { IfOk result (λ text. string_bytes text ≡ line_of (codes "thread" ++ spaced thread.0 ++ codes " fault " ++ name.now)) }
{
    let mut text = format!(in alloc; "thread {} fault ", thread.0)?;
    text.push_str(name)?;
    text.push_str("\n")?;
    Ok(text)
}

// What the ask adds to the output, where it is not refused.
fn line_ahead(alloc: Global, thread: Tid, ask: &Ask) -> Result<String, AllocError>
    ensures { IfOk result (λ text. string_bytes text ≡ told_ahead thread.0 (plain_ask ask.now)) }
{
    match ask {
        Ask::Print(value) => spoken_line(alloc, value),
        Ask::Fault(why) => fault_line(alloc, thread, why.name()),
        _ => Ok(String::new(alloc)),
    }
}

// Ends the thread at a fault of this name, and returns the line for the output.
#[inline(never)]
fn fail(
    alloc: Global,
    book: &mut RunBook,
    output: &mut String,
    thread: Tid,
    name: &'static str,
) -> Result<Prepared, AllocError>
    requires { slice_get book.old.threads thread.0 ≡ Some running }
    ensures world { OnOk result (book.new ≡ with_thread book.old thread.0 ended) }
    ensures done { IfOk result (λ r. r.done ≡ Done.Fails name.entry) }
    ensures line { IfOk result (λ r. string_bytes r.line ≡ output_of thread.0 (fails name.now)) }
    ensures err { OnErr result (book.new ≡ book.old) }
    ensures bytes { string_bytes output.new ≡ string_bytes output.old }
    ensures room { IfOk result (λ r. string_len output.new + length (string_bytes r.line) ≤ string_capacity output.new) }
{
    let line = fault_line(alloc, thread, name)?;
    output.reserve(line.len())?;
    match book.end(alloc, thread) {
        Ok(()) => Ok(Prepared {
            done: Done::Fails(name),
            line,
        }),
        Err(Fault::Memory) => Err(AllocError),
        Err(Fault::Refused(_)) => unreachable!(),
    }
}

// Makes the line for the output and the room for it, and then does what the slice asked for at its end. Where that is refused the thread
// ends at a fault.
pub(crate) fn prepare(
    alloc: Global,
    program: &Prog,
    book: &mut RunBook,
    output: &mut String,
    thread: Tid,
    end: &Machine,
    ask: &Ask,
) -> Result<Prepared, AllocError>
    requires running { slice_get book.old.threads thread.0 ≡ Some running }
    requires ready { HasAsked program.now end.now (plain_ask ask.now) }
    ensures ok { IfOk result (λ r. IsPrepared program.now thread.0 (plain_ask ask.now) end.now book.old book.new r) }
    ensures err { OnErr result (book.new ≡ book.old) }
    ensures bytes { string_bytes output.new ≡ string_bytes output.old }
    ensures room { IfOk result (λ r. string_len output.new + length (string_bytes r.line) ≤ string_capacity output.new) }
{
    let line = line_ahead(alloc, thread, ask)?;
    output.reserve(line.len())?;
    match perform(alloc, program, book, thread, end, ask) {
        Ok(done) => Ok(Prepared { done, line }),
        Err(Fault::Refused(why)) => fail(alloc, book, output, thread, why.name()),
        Err(Fault::Memory) => Err(AllocError),
    }
}
