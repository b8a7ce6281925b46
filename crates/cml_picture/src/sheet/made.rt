//! What a picture shows of a schedule.

ghost use Rattle.std.specs.Prelude.{◌≡◌, [], IfErr, IfOk, length};
ghost use Rattle.cml_hub.specs.Kept.{NoneOut};
ghost use Rattle.cml_phrase.specs.Spots.{all_places};
ghost use Rattle.cml_picture.specs.{Draws.{IsNotDrawn, IsSheet}, Views.{plain_sheet, plain_stack}};
ghost use Rattle.cml_picture.specs.Lives as spec;

use super::flags::flags_of;
use super::hold::{Held, holds_of};
use super::left::{Left, beginnings_of, is_quiet, lefts_of};
use super::shown::{items_within, show_range};
use super::stack::Stack;
use crate::fault::DrawFault;
use cml_facts::ending::Named;
use cml_facts::narrative::Narrator;
use cml_hub::{Hub, Item};
use cml_text::Sexpr;
use std::alloc::{AllocError, Global};

/// What a picture shows: what the items did, which M-variables threads held, the threads whose lines begin at the top, those that have not
/// ended, whether nothing can happen any more, how many threads there are, and how many items the schedule has.
#[derive(Drop)]
pub struct Sheet {
    pub stack: Stack,
    pub held: Vec<Held>,
    pub beginnings: Vec<Named>,
    pub left: Vec<Left>,
    pub is_quiet: bool,
    pub threads: u32,
    pub items: usize,
}

// What is shown of these items of so many, which have led to where the hub stands; so many threads were there before.
fn with_lines(
    alloc: Global,
    hub: &Hub,
    items: &[Item],
    count: usize,
    before: u32,
    stack: Stack,
) -> Result<Sheet, AllocError>
    ensures { IfOk result (λ sheet. plain_sheet sheet
        ≡ spec.with_lines hub.now.course items.now count before (plain_stack stack)) }
{
    let known = before.max(hub.book().next_thread().0);
    let flags = flags_of(alloc, known, items)?;
    let beginnings = beginnings_of(alloc, hub, flags.as_slice(), before)?;
    let left = lefts_of(alloc, hub, flags.as_slice(), before)?;
    let held = holds_of(alloc, stack.shown.as_slice())?;
    Ok(Sheet {
        stack,
        held,
        beginnings,
        left,
        is_quiet: is_quiet(hub),
        threads: hub.book().next_thread().0,
        items: count,
    })
}

/// What is shown of the items of a schedule from one number on, up to another, counted from 1. The hub stands at the beginning of a run of
/// the program of this text and these forms, and follows the items up to the last one that is shown. There are at most 2,000 rows: one for
/// each thing that is shown (two for a swap); prints and nacks that fire are not counted. A turn that only computes, makes an object or
/// waits shows nothing.
///
/// # Errors
/// An item that can't happen where it stands; more rows; or out of memory.
pub fn sheet_of(
    alloc: Global,
    text: &[u8],
    forms: &[Sexpr],
    hub: &mut Hub,
    items: &[Item],
    from: usize,
    to: usize,
) -> Result<Sheet, DrawFault>
    requires none_out { NoneOut hub.old }
    requires begun { hub.old.course.items ≡ [] }
    ensures shows { let places = all_places text.now forms.now in
        IfOk result (λ sheet. IsSheet places hub.old.course items.now from to hub.new.course (plain_sheet sheet)) }
    ensures refused { IfErr result (λ why. IsNotDrawn hub.old.course items.now from to hub.new.course why) }
    ensures none_out { NoneOut hub.new }
{
    let mut narrator = Narrator::new(alloc, text, forms)?;
    let mut stack = Stack::new(alloc);
    let before = show_range(alloc, &mut narrator, hub, &mut stack, items, from, to)?;
    let shown = items_within(items, from, to);
    let sheet = with_lines(alloc, hub, shown, items.len(), before, stack)?;
    Ok(sheet)
}
