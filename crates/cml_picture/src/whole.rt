//! The picture of a schedule.

ghost use Rattle.std.specs.Prelude.{◌≡◌, [], IfOk, IfErr};
ghost use Rattle.cml_hub.specs.Kept.{NoneOut};
ghost use Rattle.cml_picture.specs.{Draws.{Draws, IsNotDrawn}, WellFormed.{IsWellFormed}};

use crate::fault::DrawFault;
use crate::sheet::{Sheet, sheet_of};
use crate::svg::chart_of;
use crate::words::{Speaker, links_of};
use cml_hub::{Hub, Item};
use cml_text::Sexpr;
use std::alloc::{AllocError, Global};

/// The picture of what is shown of a schedule of a program of these forms, as an SVG 1.1 file of this name.
///
/// # Errors
/// Out of memory.
pub fn picture_of(
    alloc: Global,
    name: &str,
    forms: &[Sexpr],
    sheet: &Sheet,
) -> Result<Vec<u8>, AllocError>
    ensures { IfOk result (λ picture. ∥ IsWellFormed picture.items ∥₁) }
{
    let speaker = Speaker {
        alloc,
        forms,
        items: sheet.items,
        left: sheet.left.as_slice(),
    };
    let marks = speaker.marks_of(sheet)?;
    let marks = marks.as_slice();
    let links = links_of(alloc, marks, sheet)?;
    chart_of(alloc, name, sheet.threads, marks, links.as_slice())
}

/// The picture of the items of a schedule from one number on, up to another, counted from 1, as an SVG 1.1 file of this name: of what
/// [`sheet_of`] returns for them.
///
/// # Errors
/// An item that can't happen where it stands; more than 2,000 rows; or out of memory.
pub fn draw(
    alloc: Global,
    name: &str,
    text: &[u8],
    forms: &[Sexpr],
    hub: &mut Hub,
    items: &[Item],
    from: usize,
    to: usize,
) -> Result<Vec<u8>, DrawFault>
    requires none_out { NoneOut hub.old }
    requires begun { hub.old.course.items ≡ [] }
    ensures draws { IfOk result (λ picture. Draws hub.old.course items.now from to hub.new.course picture.items) }
    ensures refused { IfErr result (λ why. IsNotDrawn hub.old.course items.now from to hub.new.course why) }
    ensures none_out { NoneOut hub.new }
{
    let sheet = sheet_of(alloc, text, forms, hub, items, from, to)?;
    let picture = picture_of(alloc, name, forms, &sheet)?;
    Ok(picture)
}
