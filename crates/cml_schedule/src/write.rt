//! Writing a schedule.

ghost use Rattle.std.specs.{Prelude.{◌≡◌, ◌++◌, IfOk, OnOk}, List.{flat_map}, String.{string_bytes}};
ghost use Rattle.cml_schedule.specs.Written as spec;

use crate::item::Item;
use cml_check::Size;
use cml_scan::Meet;
use std::alloc::{AllocError, Global};

/// The text of a schedule with this budget and these items, of a program of this size, in version 2.
///
/// # Errors
/// Out of memory.
pub fn schedule_text(
    alloc: Global,
    budget: u64,
    size: Size,
    items: &[Item],
) -> Result<String, AllocError>
    ensures { IfOk result (λ text. string_bytes text ≡ spec.schedule_text budget size items.now) }
{
    let mut text = format!(in alloc;
        "schedule 2 {budget} {} {}\n",
        size.functions, size.statements
    )?;
    push_items(&mut text, items)?;
    text.push_str("end\n")?;
    Ok(text)
}

fn push_items(text: &mut String, items: &[Item]) -> Result<(), AllocError>
    ensures { let lines = flat_map spec.item_line items.now in
        OnOk result (string_bytes text.new ≡ string_bytes text.old ++ lines) }
{
    for item in items {
        push_item(text, item)?;
    }
    Ok(())
}

fn push_item(text: &mut String, item: &Item) -> Result<(), AllocError>
    ensures { let line = spec.item_line item.now in
        OnOk result (string_bytes text.new ≡ string_bytes text.old ++ line) }
{
    match item {
        Item::Turn(thread) => writeln!(text, "turn {}", thread.0),
        Item::Meet(row) => push_row(text, "commit", row),
        Item::Exchange(row) => push_row(text, "swap", row),
        Item::Clock(tick) => writeln!(text, "clock {tick}"),
    }
}

fn push_row(text: &mut String, word: &str, row: &Meet) -> Result<(), AllocError>
    ensures { let line = spec.taken_row_line word.now row.now in
        OnOk result (string_bytes text.new ≡ string_bytes text.old ++ line) }
{
    text.push_str(word)?;
    row.push_numbers(text)?;
    text.push_str("\n")
}
