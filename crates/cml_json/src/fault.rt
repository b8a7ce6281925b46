//! Why a thread ended at a fault.

ghost use Rattle.std.specs.Prelude.{◌≡◌, ◌++◌, OnOk, option_map};
ghost use Rattle.cml_facts.specs.declared.fault.part.Part.TheVariants.{Other};
ghost use Rattle.cml_json.specs.Json.{optional};
ghost use Rattle.cml_json.specs.Named as names;
ghost use Rattle.cml_json.specs.Runs as spec;

use crate::named::push_optional_value;
use crate::text::{push_null, push_optional_number, push_optional_string, push_string};
use cml_check::{ActOnOne, ActOnTwo, Binary, Unary};
use cml_facts::fault::{Part, Reason};
use cml_value::Value;
use std::alloc::{AllocError, Global};

// An operation on one value.
#[tactic(auto, unfolding(crate::specs::Named::unary_name))]
fn unary_name(operator: Unary) -> &'static str
    ensures { result.now ≡ names.unary_name operator }
{
    match operator {
        Unary::Not => "not",
        Unary::Fst => "fst",
        Unary::Snd => "snd",
        Unary::Always => "always",
        Unary::Recv => "recv",
        Unary::IGet => "iget",
        Unary::MTake => "mtake",
        Unary::MGet => "mget",
        Unary::MailRecv => "mailrecv",
        Unary::PortRecv => "portrecv",
        Unary::Join => "join",
        Unary::At => "at",
        Unary::After => "after",
    }
}

// An operation on two values.
#[tactic(auto, unfolding(crate::specs::Named::binary_name))]
fn binary_name(operator: Binary) -> &'static str
    ensures { result.now ≡ names.binary_name operator }
{
    match operator {
        Binary::Plus => "+",
        Binary::Minus => "-",
        Binary::Times => "*",
        Binary::Less => "<",
        Binary::Equal => "=",
        Binary::Pair => "pair",
        Binary::Send => "send",
        Binary::Swap => "swap",
        Binary::MSwap => "mswap",
    }
}

// An effect on one value.
#[tactic(auto, unfolding(crate::specs::Named::one_name))]
fn one_name(act: ActOnOne) -> &'static str
    ensures { result.now ≡ names.one_name act }
{
    match act {
        ActOnOne::Sync => "sync",
        ActOnOne::MVar => "mvar",
        ActOnOne::Port => "port",
        ActOnOne::Copy => "copy",
        ActOnOne::Print => "print",
    }
}

// An effect on two values.
#[tactic(auto, unfolding(crate::specs::Named::two_name))]
fn two_name(act: ActOnTwo) -> &'static str
    ensures { result.now ≡ names.two_name act }
{
    match act {
        ActOnTwo::IPut => "iput",
        ActOnTwo::MPut => "mput",
        ActOnTwo::Mail => "mail",
        ActOnTwo::Multicast => "multicast",
    }
}

// The part that is at fault, by the word with which a script has it.
#[tactic(auto, unfolding(crate::specs::Named::part_name))]
fn part_name(part: &Part) -> Option<&'static str>
    ensures { option_map (λ name. name.now) result ≡ names.part_name part.now }
{
    match part {
        Part::Other => None,
        Part::Unary(operator, _) => Some(unary_name(*operator)),
        Part::Binary(operator, _, _) => Some(binary_name(*operator)),
        Part::Choose(_) => Some("choose"),
        Part::Wrap(_) => Some("wrap"),
        Part::Made => None,
        Part::ActOnOne(act, _) => Some(one_name(*act)),
        Part::ActOnTwo(act, _, _) => Some(two_name(*act)),
        Part::If(_) => Some("if"),
        Part::While(_) => Some("while"),
        Part::Returned(_) => None,
    }
}

// The value that it was given, or that a function returned; the first of two.
#[tactic(auto, unfolding(crate::specs::Named::part_value))]
fn part_value(part: &Part) -> Option<&Value>
    ensures { option_map (λ v. v.now) result ≡ names.part_value part.now }
{
    match part {
        Part::Unary(_, v) => Some(v),
        Part::Binary(_, v, _) => Some(v),
        Part::Choose(v) => v.as_ref(),
        Part::Wrap(v) => Some(v),
        Part::ActOnOne(_, v) => Some(v),
        Part::ActOnTwo(_, v, _) => Some(v),
        Part::If(v) => Some(v),
        Part::While(v) => Some(v),
        Part::Returned(v) => Some(v),
        Part::Other => None,
        Part::Made => None,
    }
}

// The second of two values that it was given.
#[tactic(auto, unfolding(crate::specs::Named::part_other))]
fn part_other(part: &Part) -> Option<&Value>
    ensures { option_map (λ v. v.now) result ≡ names.part_other part.now }
{
    match part {
        Part::Binary(_, _, w) => Some(w),
        Part::ActOnTwo(_, _, w) => Some(w),
        Part::Unary(_, _) => None,
        Part::Choose(_) => None,
        Part::Wrap(_) => None,
        Part::ActOnOne(_, _) => None,
        Part::If(_) => None,
        Part::While(_) => None,
        Part::Returned(_) => None,
        Part::Other => None,
        Part::Made => None,
    }
}

// Why, by a name.
#[tactic(auto, unfolding(crate::specs::Named::reason_name))]
fn reason_name(reason: &Reason) -> &'static str
    ensures { result.now ≡ names.reason_name reason.now }
{
    match reason {
        Reason::Step(why, _) => why.name(),
        Reason::FullIVar(_) => "put",
        Reason::FullMVar(_) => "put",
        Reason::Group => "leaves_or_far",
        Reason::FullMailbox(_) => "full",
        Reason::FullPort(_) => "full",
        Reason::Thread => "full",
        Reason::Nack => "full",
        Reason::Object => "full",
    }
}

// What is full, or of what there is no room.
#[tactic(auto, unfolding(crate::specs::Named::reason_object))]
fn reason_object(reason: &Reason) -> Option<&'static str>
    ensures { option_map (λ name. name.now) result ≡ names.reason_object reason.now }
{
    match reason {
        Reason::FullIVar(_) => Some("ivar"),
        Reason::FullMVar(_) => Some("mvar"),
        Reason::FullMailbox(_) => Some("mailbox"),
        Reason::FullPort(_) => Some("mchan"),
        Reason::Thread => Some("thread"),
        Reason::Nack => Some("nack"),
        Reason::Step(_, _) => None,
        Reason::Group => None,
        Reason::Object => None,
    }
}

// The number of what is full.
#[tactic(auto, unfolding(crate::specs::Named::reason_number))]
fn reason_number(reason: &Reason) -> Option<u64>
    ensures { result ≡ names.reason_number reason.now }
{
    match reason {
        Reason::FullIVar(i) => Some(u64::from(*i)),
        Reason::FullMVar(m) => Some(u64::from(*m)),
        Reason::FullMailbox(b) => Some(u64::from(*b)),
        Reason::FullPort(x) => Some(u64::from(*x)),
        Reason::Step(_, _) => None,
        Reason::Group => None,
        Reason::Thread => None,
        Reason::Nack => None,
        Reason::Object => None,
    }
}

// Appends the part that is at fault, with what it was given.
#[tactic(auto, unfolding(crate::specs::Runs::part_members))]
fn push_part(alloc: Global, text: &mut Vec<u8>, part: &Part) -> Result<(), AllocError>
    ensures { OnOk result (text.new.items ≡ text.old.items ++ spec.part_members part.now) }
{
    push_optional_string(text, b",\"operation\":", part_name(part))?;
    push_optional_value(alloc, text, b",\"value\":", part_value(part))?;
    push_optional_value(alloc, text, b",\"other\":", part_other(part))
}

// Appends that no part is at fault.
#[tactic(auto, unfolding(crate::specs::Runs::part_members, crate::specs::Json::optional, crate::specs::Named::part_name, crate::specs::Named::part_value, crate::specs::Named::part_other))]
fn push_no_part(text: &mut Vec<u8>) -> Result<(), AllocError>
    ensures { OnOk result (text.new.items ≡ text.old.items ++ spec.part_members Other) }
{
    text.extend_from_slice(b",\"operation\":null,\"value\":null,\"other\":null")
}

// The same of the reason.
fn push_part_of(alloc: Global, text: &mut Vec<u8>, reason: &Reason) -> Result<(), AllocError>
    ensures { OnOk result (text.new.items ≡ text.old.items ++ spec.part_members (names.reason_part reason.now)) }
{
    match reason {
        Reason::Step(_, part) => push_part(alloc, text, part),
        Reason::FullIVar(_) => push_no_part(text),
        Reason::FullMVar(_) => push_no_part(text),
        Reason::Group => push_no_part(text),
        Reason::FullMailbox(_) => push_no_part(text),
        Reason::FullPort(_) => push_no_part(text),
        Reason::Thread => push_no_part(text),
        Reason::Nack => push_no_part(text),
        Reason::Object => push_no_part(text),
    }
}

// Appends why a thread ended at a fault.
#[tactic(auto, unfolding(crate::specs::Runs::reason_json, crate::specs::Runs::part_members))]
fn push_own_reason(alloc: Global, text: &mut Vec<u8>, reason: &Reason) -> Result<(), AllocError>
    ensures { OnOk result (text.new.items ≡ text.old.items ++ spec.reason_json reason.now) }
{
    push_string(text, b"{\"name\":", reason_name(reason).as_bytes())?;
    push_part_of(alloc, text, reason)?;
    push_optional_string(text, b",\"object\":", reason_object(reason))?;
    push_optional_number(alloc, text, b",\"number\":", reason_number(reason))?;
    text.extend_from_slice(b"}")?;
    Ok(())
}

/// Appends these bytes, and why a thread ended at a fault, or `null`.
///
/// # Errors
/// Out of memory.
#[tactic(auto, unfolding(crate::specs::Json::optional))]
pub(crate) fn push_reason(
    alloc: Global,
    text: &mut Vec<u8>,
    before: &[u8],
    reason: Option<&Reason>,
) -> Result<(), AllocError>
    ensures { OnOk result (text.new.items ≡ text.old.items ++ (before.now ++ optional spec.reason_json (option_map (λ r. r.now) reason.entry))) }
{
    let Some(reason) = reason else {
        return push_null(text, before);
    };
    text.extend_from_slice(before)?;
    push_own_reason(alloc, text, reason)
}
