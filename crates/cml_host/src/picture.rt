//! The picture of a run that is over.

ghost use Rattle.std.specs.Prelude.{◌≡◌, ℕ, IfOk, List, Some, is_some, option_map, true};
ghost use Rattle.cml_host.specs.{Drawn.{AllDrawn}, Plans.{Opens}, Replies.{plain_file, plain_of}};
ghost use Rattle.cml_host.specs.Running.{IsPictured, IsRunDrawn, and_saves, but_says, wanted_of};
ghost use Rattle.cml_hub.specs.Runs.{stands};
ghost use Rattle.cml_step.specs.Calls.{text_of};

use crate::close::{Asked, Subject};
use crate::draw::TOO_LONG;
use crate::opening::begin;
use crate::reply::{File, Reply, new_file};
use crate::tell::let_go;
use cml_hub::{Hub, Item};
use cml_picture::{DrawFault, draw};
use std::alloc::{AllocError, Global};

/// A picture that is asked for.
#[derive(Clone, Copy)]
pub struct Wanted<'a> {
    /// The name under which it is saved.
    pub name: &'a str,
    /// The script that is drawn.
    pub subject: &'a Subject<'a>,
}

/// The picture that is asked for under this name, where the script is kept.
pub fn wanted_from<'a>(asked: &'a Asked<'a>, name: Option<&'a str>) -> Option<Wanted<'a>>
    ensures { option_map (λ wanted. wanted.name.now) result ≡ wanted_of (option_map (λ name. name.now) name.entry) (is_some asked.now.subject) }
{
    let name = name?;
    let subject = asked.subject.as_ref()?;
    Some(Wanted { name, subject })
}

/// The reply with the picture of the run of this hub that is asked for: it is saved behind the other files; or where there is too much to draw,
/// that is said in place of how the run ended.
///
/// # Errors
/// Out of memory.
pub fn with_picture(
    alloc: Global,
    hub: &Hub,
    explains: bool,
    wanted: &Option<Wanted<'_>>,
    bare: Reply,
) -> Result<Reply, AllocError>
    ensures { IfOk result (λ reply. IsPictured explains (option_map (λ wanted. wanted.name.now) wanted.now) hub.now.course.program hub.now.budget hub.now.course.items (plain_of bare) (plain_of reply)) }
{
    match wanted {
        Some(wanted) => add_picture(alloc, hub, explains, wanted, bare),
        None => Ok(bare),
    }
}

// The reply with this picture.
#[inline(never)]
fn add_picture(
    alloc: Global,
    hub: &Hub,
    explains: bool,
    wanted: &Wanted<'_>,
    bare: Reply,
) -> Result<Reply, AllocError>
    ensures { IfOk result (λ reply. IsPictured explains (Some wanted.now.name.now) hub.now.course.program hub.now.budget hub.now.course.items (plain_of bare) (plain_of reply)) }
{
    match draw_run(alloc, hub, wanted.subject)? {
        Some(bytes) => and_file(new_file(alloc, explains, wanted.name, bytes)?, bare),
        None => too_long(alloc, bare),
    }
}

// The reply with one file more.
fn and_file(file: File, bare: Reply) -> Result<Reply, AllocError>
    ensures { IfOk result (λ reply. plain_of reply ≡ and_saves (plain_of bare) (plain_file file)) }
{
    let Reply {
        output,
        mut files,
        words,
        status,
    } = bare;
    files.push(file)?;
    Ok(Reply {
        output,
        files,
        words,
        status,
    })
}

// The reply where there is too much to draw.
fn too_long(alloc: Global, bare: Reply) -> Result<Reply, AllocError>
    ensures { IfOk result (λ reply. (told : List ℕ) × (plain_of reply ≡ but_says (plain_of bare) told)) }
{
    let Reply { output, files, .. } = bare;
    let words = Vec::from_slice(alloc, TOO_LONG)?;
    Ok(Reply {
        output,
        files,
        words,
        status: 1,
    })
}

// The picture of the run of this hub, or none where there is too much to draw.
fn draw_run(alloc: Global, hub: &Hub, subject: &Subject<'_>) -> Result<Option<Vec<u8>>, AllocError>
    ensures { IfOk result (λ drawn. IsRunDrawn hub.now (option_map (λ bytes. bytes.items) drawn)) }
{
    let mut again = begin_again(alloc, hub)?;
    let drawn = draw_all(alloc, &mut again, subject, hub.schedule());
    let_go(again);
    drawn
}

// A hub at the beginning of a run of the program of this one, under its budget.
fn begin_again(alloc: Global, hub: &Hub) -> Result<Hub, AllocError>
    ensures { IfOk result (Opens hub.now.course.program hub.now.budget) }
{
    let program = hub.program().copy()?;
    begin(alloc, program, hub.budget())
}

// The picture of these items, which lead somewhere from the beginning of a run on.
fn draw_all(
    alloc: Global,
    hub: &mut Hub,
    subject: &Subject<'_>,
    items: &[Item],
) -> Result<Option<Vec<u8>>, AllocError>
    requires opens { Opens hub.old.course.program hub.old.budget hub.old }
    requires leads { is_some (stands (text_of hub.old.course.program) items.now) ≡ true }
    ensures { IfOk result (λ drawn. AllDrawn hub.old.course items.now (option_map (λ bytes. bytes.items) drawn)) }
{
    let text = subject.text.as_slice();
    let forms = subject.forms.as_slice();
    let last = items.len();
    match draw(alloc, subject.name, text, forms, hub, items, 1, last) {
        Ok(picture) => Ok(Some(picture)),
        Err(DrawFault::TooMany) => Ok(None),
        Err(DrawFault::Memory) => Err(AllocError),
        Err(DrawFault::BadItem(_)) => unreachable!(),
    }
}
