//! What is said of the properties that a run breaks, and of those that it keeps.

ghost use Rattle.std.specs.Prelude.{◌≡◌, OnOk, [], false};
ghost use Rattle.cml_hub.specs.Kept.{NoneOut};
ghost use Rattle.cml_host.specs.Closed.{is_asked};

use crate::close::Subject;
use crate::tell::let_go;
use cml_facts::ending::{begin_again, push_many, push_named, push_number, who_is};
use cml_facts::narrative::{Narrator, push_happened};
use cml_hub::{End, Hub, Item};
use cml_judge::{Break, Spot, breaks_of};
use cml_properties::Property;
use cml_text::Sexpr;
use std::alloc::{AllocError, Global};

// Appends the property of this number, as it is read.
fn push_property(
    alloc: Global,
    out: &mut Vec<u8>,
    properties: &[Property],
    number: usize,
) -> Result<(), AllocError> {
    match properties.get(number) {
        Some(property) => {
            let text = format!(in alloc; "{property}")?;
            out.extend_from_slice(text.as_bytes())
        }
        None => Ok(()),
    }
}

// Appends the thread whose turn it was, by its function where the script is kept.
fn push_thread(
    alloc: Global,
    out: &mut Vec<u8>,
    forms: Option<&[Sexpr]>,
    hub: &Hub,
    spot: Spot,
) -> Result<(), AllocError> {
    match forms {
        Some(forms) => {
            let named = who_is(hub, spot.thread.0)?;
            push_named(alloc, out, forms, &named)
        }
        None => {
            out.extend_from_slice(b"thread ")?;
            push_number(alloc, out, u64::from(spot.thread.0))
        }
    }
}

// Appends where a line was printed.
fn push_spot(
    alloc: Global,
    out: &mut Vec<u8>,
    forms: Option<&[Sexpr]>,
    hub: &Hub,
    line: usize,
    spot: Spot,
) -> Result<(), AllocError> {
    out.extend_from_slice(b"line ")?;
    push_number(alloc, out, (line as u64).saturating_add(1))?;
    out.extend_from_slice(b", printed by ")?;
    push_thread(alloc, out, forms, hub, spot)?;
    out.extend_from_slice(b" at item ")?;
    push_number(alloc, out, spot.item as u64)
}

// Appends the line of a property that is broken: `breaks never (pair "violated" _): line 4, printed by thread 2 consumer() at item 31`.
fn push_broken(
    alloc: Global,
    out: &mut Vec<u8>,
    properties: &[Property],
    forms: Option<&[Sexpr]>,
    hub: &Hub,
    one: &Break,
) -> Result<(), AllocError> {
    out.extend_from_slice(b"breaks ")?;
    push_property(alloc, out, properties, one.property)?;
    out.extend_from_slice(b": ")?;
    match one.spot {
        Some(spot) => push_spot(alloc, out, forms, hub, one.line, spot)?,
        None => out.extend_from_slice(b"at its end")?,
    }
    out.extend_from_slice(b"\n")
}

// The items before the one of this number come in the second hub, and then it is told what that one does, as `explain` tells it.
fn push_item(
    alloc: Global,
    out: &mut Vec<u8>,
    subject: &Subject<'_>,
    hub: &Hub,
    second: &mut Hub,
    number: usize,
) -> Result<(), AllocError>
    requires { NoneOut second.old }
{
    let forms = subject.forms.as_slice();
    let mut narrator = Narrator::new(alloc, subject.text.as_slice(), forms)?;
    let items = hub.schedule();
    let before = number.saturating_sub(1).min(items.len());
    follow_all(alloc, &mut narrator, second, &items[..before])?;
    match items.get(before) {
        Some(item) => push_told(alloc, out, forms, &mut narrator, second, *item, items.len()),
        None => Ok(()),
    }
}

// The items come in the hub.
fn follow_all(
    alloc: Global,
    narrator: &mut Narrator,
    second: &mut Hub,
    items: &[Item],
) -> Result<(), AllocError>
    requires { NoneOut second.old }
    ensures { NoneOut second.new }
{
    for item in items {
        narrator.follow(alloc, second, *item)?;
    }
    Ok(())
}

// The item comes in the hub, and it is told what it does, beside so many in all.
fn push_told(
    alloc: Global,
    out: &mut Vec<u8>,
    forms: &[Sexpr],
    narrator: &mut Narrator,
    second: &mut Hub,
    item: Item,
    count: usize,
) -> Result<(), AllocError>
    requires { NoneOut second.old }
{
    match narrator.tell(alloc, second, item)? {
        Some(happened) => push_happened(alloc, out, forms, count, &happened),
        None => Ok(()),
    }
}

// Appends what the item does by which a property was broken, where the script is kept and it was by one.
fn push_deed(
    alloc: Global,
    out: &mut Vec<u8>,
    subject: Option<&Subject<'_>>,
    hub: &Hub,
    one: &Break,
) -> Result<(), AllocError> {
    match (subject, one.spot) {
        (Some(subject), Some(spot)) => {
            let mut second = begin_again(alloc, hub)?;
            let pushed = push_item(alloc, out, subject, hub, &mut second, spot.item);
            let_go(second);
            pushed
        }
        _ => Ok(()),
    }
}

// Appends how many of the properties are broken, or that all are kept.
fn push_verdict(
    alloc: Global,
    out: &mut Vec<u8>,
    end: End,
    count: usize,
    broken: usize,
) -> Result<(), AllocError> {
    if broken != 0 {
        out.extend_from_slice(b"bad: ")?;
        push_number(alloc, out, broken as u64)?;
        out.extend_from_slice(b" of ")?;
        push_many(alloc, out, " property", " properties", count as u64)?;
        return out.extend_from_slice(b" broken\n");
    }
    match end {
        End::Quiet => out.extend_from_slice(b"good: ")?,
        End::Budget | End::Partial => out.extend_from_slice(b"good so far: ")?,
    }
    push_many(alloc, out, " property", " properties", count as u64)?;
    out.extend_from_slice(b" kept\n")
}

/// Appends what is said of the properties, as they were judged in the run of this hub: a line for each that is broken, with what the item does by
/// which it was, where that is explained; and the verdict. Where none is wanted, nothing is said.
///
/// # Errors
/// Out of memory.
#[inline(never)]
pub fn push_judged(
    alloc: Global,
    out: &mut Vec<u8>,
    properties: &[Property],
    subject: Option<&Subject<'_>>,
    explains: bool,
    hub: &Hub,
    judged: &[Option<usize>],
) -> Result<(), AllocError>
    ensures { OnOk result (is_asked properties.now ≡ false → out.new.items ≡ out.old.items) }
{
    if properties.is_empty() {
        return Ok(());
    }
    push_all(alloc, out, properties, subject, explains, hub, judged)
}

// The same where some are wanted.
fn push_all(
    alloc: Global,
    out: &mut Vec<u8>,
    properties: &[Property],
    subject: Option<&Subject<'_>>,
    explains: bool,
    hub: &Hub,
    judged: &[Option<usize>],
) -> Result<(), AllocError> {
    let told = breaks_of(alloc, hub, judged)?;
    let forms = match subject {
        Some(subject) => Some(subject.forms.as_slice()),
        None => None,
    };
    for one in &told {
        push_broken(alloc, out, properties, forms, hub, one)?;
        if explains {
            push_deed(alloc, out, subject, hub, one)?;
        }
    }
    push_verdict(alloc, out, hub.end(), properties.len(), told.len())
}
