//! What a line of a trace asks for.

ghost use Rattle.std.specs.Prelude.{◌≡◌, IfOk};
ghost use Rattle.cml_trace.specs.Orders as spec;

use crate::form::{number_and_value, value_from};
use crate::group::group_from;
use crate::keyword::{Keyword, head_of};
use cml_book::Command;
use cml_scan::Meet;
use cml_text::{Sexpr, number_from, tick_from};
use cml_value::{IVarId, MVarId, MboxId, McastId, PortId, Tid, Value};
use std::alloc::{AllocError, Global};

/// What a line asks for.
#[derive(Drop)]
pub enum Request {
    /// Nothing: it has no forms.
    Skip,
    /// The rows.
    Rows,
    /// That this command is done.
    Do(Command),
}

/// What the forms of a line ask for, if they ask for anything.
pub fn order_of(alloc: Global, forms: &[Sexpr]) -> Result<Option<Request>, AllocError>
    ensures { IfOk result (λ order. order ≡ spec.order_of forms.now) }
{
    if forms.is_empty() {
        return Ok(Some(Request::Skip));
    }
    match head_of(forms) {
        Some((keyword, behind)) => order_by(alloc, keyword, behind),
        None => Ok(None),
    }
}

// What the forms after this keyword ask for.
fn order_by(alloc: Global, keyword: Keyword, forms: &[Sexpr]) -> Result<Option<Request>, AllocError>
    ensures { IfOk result (λ order. order ≡ spec.order_by keyword forms.now) }
{
    if keyword == Keyword::Rows {
        return Ok(if forms.is_empty() {
            Some(Request::Rows)
        } else {
            None
        });
    }
    match command_by(alloc, keyword, forms)? {
        Some(command) => Ok(Some(Request::Do(command))),
        None => Ok(None),
    }
}

// The command that these forms after its keyword are.
fn command_by(
    alloc: Global,
    keyword: Keyword,
    forms: &[Sexpr],
) -> Result<Option<Command>, AllocError>
    ensures { IfOk result (λ command. command ≡ spec.command_by keyword forms.now) }
{
    match keyword {
        Keyword::MVar => mvar_by(alloc, forms),
        Keyword::Sync => sync_by(alloc, forms),
        Keyword::Commit => Ok(commit_by(forms)),
        Keyword::Clock => Ok(clock_by(forms)),
        Keyword::Port | Keyword::Copy | Keyword::Nack | Keyword::End => {
            Ok(naming_by(keyword, forms))
        }
        Keyword::IPut | Keyword::MPut | Keyword::Mail | Keyword::Multicast => {
            giving_by(alloc, keyword, forms)
        }
        _ => Ok(making_by(keyword, forms)),
    }
}

// The command that is a keyword alone.
fn making_by(keyword: Keyword, forms: &[Sexpr]) -> Option<Command>
    ensures { result ≡ spec.making_by keyword forms.now }
{
    if !forms.is_empty() {
        return None;
    }
    match keyword {
        Keyword::Spawn => Some(Command::Spawn),
        Keyword::Chan => Some(Command::MakeChan),
        Keyword::SwapChan => Some(Command::MakeSwap),
        Keyword::IVar => Some(Command::MakeIVar),
        Keyword::Mailbox => Some(Command::MakeMailbox),
        Keyword::Mchan => Some(Command::MakeMChan),
        _ => None,
    }
}

// The command that names a multicast channel, a port or a thread.
fn naming_by(keyword: Keyword, forms: &[Sexpr]) -> Option<Command>
    ensures { result ≡ spec.naming_by keyword forms.now }
{
    let [form] = forms else {
        return None;
    };
    let n = number_from(form)?;
    match keyword {
        Keyword::Port => Some(Command::MakePort(McastId(n))),
        Keyword::Copy => Some(Command::CopyPort(PortId(n))),
        Keyword::Nack => Some(Command::Nack(Tid(n))),
        Keyword::End => Some(Command::End(Tid(n))),
        _ => None,
    }
}

// The command that hands a value over to a variable, a mailbox or a multicast channel.
fn giving_by(
    alloc: Global,
    keyword: Keyword,
    forms: &[Sexpr],
) -> Result<Option<Command>, AllocError>
    ensures { IfOk result (λ command. command ≡ spec.giving_by keyword forms.now) }
{
    match number_and_value(alloc, forms)? {
        Some((number, value)) => Ok(giving(keyword, number, value)),
        None => Ok(None),
    }
}

fn giving(keyword: Keyword, n: u32, value: Value) -> Option<Command>
    ensures { result ≡ spec.giving keyword n value }
{
    match keyword {
        Keyword::IPut => Some(Command::IPut(IVarId(n), value)),
        Keyword::MPut => Some(Command::MPut(MVarId(n), value)),
        Keyword::Mail => Some(Command::Mail(MboxId(n), value)),
        Keyword::Multicast => Some(Command::Multicast(McastId(n), value)),
        _ => None,
    }
}

fn mvar_by(alloc: Global, forms: &[Sexpr]) -> Result<Option<Command>, AllocError>
    ensures { IfOk result (λ command. command ≡ spec.mvar_by forms.now) }
{
    match forms {
        [] => Ok(Some(Command::MakeMVar(None))),
        [form] => match value_from(alloc, form)? {
            Some(value) => Ok(Some(Command::MakeMVar(Some(value)))),
            None => Ok(None),
        },
        _ => Ok(None),
    }
}

fn clock_by(forms: &[Sexpr]) -> Option<Command>
    ensures { result ≡ spec.clock_by forms.now }
{
    match forms {
        [form] => Some(Command::Clock(tick_from(form)?)),
        _ => None,
    }
}

fn sync_by(alloc: Global, forms: &[Sexpr]) -> Result<Option<Command>, AllocError>
    ensures { IfOk result (λ command. command ≡ spec.sync_by forms.now) }
{
    let [thread, group] = forms else {
        return Ok(None);
    };
    let Some(thread) = number_from(thread) else {
        return Ok(None);
    };
    match group_from(alloc, group)? {
        Some(group) => Ok(Some(Command::Sync(Tid(thread), group))),
        None => Ok(None),
    }
}

fn commit_by(forms: &[Sexpr]) -> Option<Command>
    ensures { result ≡ spec.commit_by forms.now }
{
    match forms {
        [thread, leaf] => Some(Command::Commit(Meet::Single {
            tid: Tid(number_from(thread)?),
            leaf: number_from(leaf)?,
        })),
        [head, head_leaf, other, other_leaf] => Some(Command::Commit(Meet::Pair {
            head: Tid(number_from(head)?),
            head_leaf: number_from(head_leaf)?,
            other: Tid(number_from(other)?),
            other_leaf: number_from(other_leaf)?,
        })),
        _ => None,
    }
}
