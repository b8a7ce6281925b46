//! The lines between the marks of a picture.

ghost use Rattle.std.specs.{Prelude.{◌≡◌, ◌++◌, IfOk, OnOk}, Option.{option_to_list}};
ghost use Rattle.cml_picture.specs.Views.{plain_sheet};
ghost use Rattle.cml_picture.specs.Links as spec;

use crate::layout::{Link, Mark, fed_link, held_link};
use crate::sheet::{Fed, Held, Sheet};
use std::alloc::{AllocError, Global};

// Adds a line, if it is there.
fn add_link(all: &mut Vec<Link>, link: Option<Link>) -> Result<(), AllocError>
    ensures { OnOk result (all.new.items ≡ all.old.items ++ option_to_list link) }
{
    match link {
        Some(link) => Ok(all.push(link)?),
        None => Ok(()),
    }
}

// The lines from items that were fed to those that took them.
fn fed_links(alloc: Global, marks: &[Mark], all: &[Fed]) -> Result<Vec<Link>, AllocError>
    ensures { IfOk result (λ links. links.items ≡ spec.fed_links marks.now all.now) }
{
    let mut links = Vec::new(alloc);
    for fed in all {
        add_link(&mut links, fed_link(marks, *fed))?;
    }
    Ok(links)
}

// The lines along which threads hold M-variables, down to this bottom.
fn held_links(
    alloc: Global,
    marks: &[Mark],
    bottom: u32,
    all: &[Held],
) -> Result<Vec<Link>, AllocError>
    ensures { IfOk result (λ links. links.items ≡ spec.held_links marks.now bottom all.now) }
{
    let mut links = Vec::new(alloc);
    for held in all {
        add_link(&mut links, held_link(marks, *held, bottom))?;
    }
    Ok(links)
}

/// The lines between these marks of a sheet.
pub(crate) fn links_of(
    alloc: Global,
    marks: &[Mark],
    sheet: &Sheet,
) -> Result<Vec<Link>, AllocError>
    ensures { IfOk result (λ links. links.items ≡ spec.links_of marks.now (plain_sheet sheet.now)) }
{
    let stack = &sheet.stack;
    let mut links = held_links(alloc, marks, stack.bottom, sheet.held.as_slice())?;
    let fed = fed_links(alloc, marks, stack.fed.as_slice())?;
    links.extend_from_slice(fed.as_slice())?;
    Ok(links)
}
