//! The command `draw`: the picture of the schedule of a script.

ghost use Rattle.std.specs.Prelude.{◌≡◌, ◌≤◌, IfErr, IfOk, None, length, true};
ghost use Rattle.cml_hub.specs.Kept.{IsAtStart, IsBudget};
ghost use Rattle.cml_host.specs.{Plans.{IsItemTold}, Refused.{RefusesAs}, Stores.{IsUnchanged}};
ghost use Rattle.cml_host.specs.Drawn as spec;

use crate::close::Subject;
use crate::item::explain_item;
use crate::opening::{Opened, REFUSED, begin, open_both};
use crate::refusal::Refusal;
use crate::store::Store;
use crate::tell::let_go;
use cml_arguments::PartOptions;
use cml_hub::{Hub, Item};
use cml_picture::{DrawFault, draw};
use std::alloc::{AllocError, Global};

/// What is told where there is too much to draw.
pub const TOO_LONG: &[u8] = b"too many items to draw, use --from and --to\n";

/// The picture of the schedule that lies under its name, as one of the script that lies under its own.
///
/// # Errors
/// What is wrong with either, which is explained; there is too much to draw; or out of memory.
pub fn draw_file<S: Store>(
    alloc: Global,
    options: &PartOptions<'_>,
    store: &mut S,
) -> Result<Vec<u8>, Refusal>
    ensures ok { IfOk result (λ picture. spec.IsDrawing options.now (S.holds store.old) picture.items) }
    ensures err { IfErr result (RefusesAs (spec.IsUndrawn options.now (S.holds store.old))) }
    ensures same { IsUnchanged (S.holds store.old) (S.holds store.new) }
{
    let both = open_both(alloc, options.script, options.schedule, store)?;
    draw_plan(alloc, both, options)
}

// The picture of the schedule that was read.
fn draw_plan(alloc: Global, both: Opened<'_>, options: &PartOptions<'_>) -> Result<Vec<u8>, Refusal>
    requires budget { IsBudget both.plan.budget }
    ensures ok { IfOk result (λ picture. spec.IsPlanDrawn options.now both.entry.program both.entry.plan picture.items) }
    ensures err { IfErr result (RefusesAs (spec.IsPlanUndrawn options.now both.entry.program both.entry.plan)) }
{
    let Opened {
        program,
        subject,
        plan,
        text,
    } = both;
    let mut hub = begin(alloc, program, plan.budget)?;
    let drawn = draw_items(
        alloc,
        &mut hub,
        &subject,
        options,
        text.as_slice(),
        plan.items.as_slice(),
    );
    let_go(hub);
    drawn
}

// The picture of these items, from the beginning of a run on.
fn draw_items(
    alloc: Global,
    hub: &mut Hub,
    subject: &Subject<'_>,
    options: &PartOptions<'_>,
    text: &[u8],
    items: &[Item],
) -> Result<Vec<u8>, Refusal>
    requires start { IsAtStart hub.old.course.program hub.old.budget None hub.old }
    ensures ok { IfOk result (λ picture. spec.AreDrawn options.now hub.old.course items.now picture.items) }
    ensures err { IfErr result (RefusesAs (spec.AreUndrawn options.now hub.old.course items.now)) }
{
    let from = options.from as usize;
    let to = last_drawn(options, items);
    let script = subject.text.as_slice();
    let forms = subject.forms.as_slice();
    match draw(alloc, subject.name, script, forms, hub, items, from, to) {
        Ok(picture) => Ok(picture),
        Err(DrawFault::BadItem(number)) => {
            let told = tell_unfit(alloc, hub, subject, text, items, number)?;
            Err(Refusal::Told(told, REFUSED))
        }
        Err(DrawFault::TooMany) => Err(Refusal::Told(Vec::from_slice(alloc, TOO_LONG)?, 1)),
        Err(DrawFault::Memory) => Err(Refusal::Memory),
    }
}

// What is told of the item of this number, which can't happen where the run stands.
#[inline(never)]
fn tell_unfit(
    alloc: Global,
    hub: &Hub,
    subject: &Subject<'_>,
    text: &[u8],
    items: &[Item],
    number: usize,
) -> Result<Vec<u8>, AllocError>
    requires { (1 ≤ number) × (number ≤ length items.now) }
    ensures { IfOk result (λ told. IsItemTold true number told.items) }
{
    let forms = subject.forms.as_slice();
    explain_item(alloc, forms, text, hub, number, &items[number - 1])
}

// The number of the last item that is drawn.
fn last_drawn(options: &PartOptions<'_>, items: &[Item]) -> usize
    ensures { result ≡ spec.last_drawn options.now.to items.now }
{
    match options.to {
        Some(last) => last as usize,
        None => items.len(),
    }
}
