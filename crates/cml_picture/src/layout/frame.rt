//! Where the columns stand, and how wide and high a picture is.

ghost use Rattle.std.specs.Prelude.{◌≡◌, ◌≤◌, ◌<◌, ◌+◌, ◌^◌, IfOk, fold, length, take};
ghost use Rattle.std.specs.List.{All};
ghost use Rattle.cml_picture.specs.Layouts as spec;

use super::mark::{Mark, Shape, row_drop, row_height};
use std::alloc::{AllocError, Global};

// For how many cells there is room at most.
const CELL_LIMIT: u16 = 100;

// Where the first row begins, and how much room there is below the last one.
const TOP_ROW: u64 = 40;

const FOOT: u64 = 12;

/// Where the columns begin and the last one ends, where the lines of threads begin, the margin, and how wide and high the picture is.
#[derive(Drop)]
pub(crate) struct Frame {
    pub(crate) edges: Vec<u64>,
    pub(crate) tops: Vec<u64>,
    pub(crate) margin: u64,
    pub(crate) width: u64,
    pub(crate) height: u64,
}

// How many cells a byte takes: a character of three or four bytes takes two, and any other one.
fn byte_cells(byte: u8) -> u16
    ensures { result ≤ 2 }
{
    match byte {
        0..128 | 192..224 => 1,
        128..192 => 0,
        _ => 2,
    }
}

// How many cells words take.
fn cells(words: &[u8]) -> u16
    ensures { result ≤ 100 }
{
    let mut count = 0u16;
    for byte in words {
        count = (count + byte_cells(*byte)).min(CELL_LIMIT);
    }
    count
}

/// The column in which the words of a mark stand: of an arrow the one to the left.
pub(crate) fn seat_of(mark: &Mark) -> u64 {
    match mark.shape {
        Shape::Spawn => mark.other,
        Shape::Arrow => mark.thread.min(mark.other),
        _ => mark.thread,
    }
}

// The room that words take in a column, with what stands around them; a move of the clock has none there.
fn seat_room(mark: &Mark) -> u16 {
    match mark.shape {
        Shape::Tick => 0,
        _ => 18 + 7 * cells(mark.words.as_slice()),
    }
}

// Makes a column as wide as a mark wants it.
fn widen(columns: &mut [u16], mark: &Mark)
    ensures { length columns.new ≡ length columns.old }
{
    let room = seat_room(mark);
    let seat = seat_of(mark) as usize;
    if seat < columns.len() {
        columns[seat] = columns[seat].max(room);
    }
}

// The widths of the columns.
fn columns_of(alloc: Global, threads: u32, marks: &[Mark]) -> Result<Vec<u16>, AllocError>
    ensures { IfOk result (λ columns. length columns.items ≡ threads) }
{
    let mut columns = vec![in alloc; 0u16; threads as usize]?;
    for mark in marks {
        widen(columns.as_mut_slice(), mark);
    }
    Ok(columns)
}

// How wide the margin is.
fn margin_of(alloc: Global, marks: &[Mark]) -> Result<u16, AllocError>
    ensures { IfOk result (λ margin. margin ≤ 716) }
{
    let mut margin = 16u16;
    for mark in marks {
        let note = mark.note(alloc)?;
        margin = margin.max(16 + 7 * cells(note.as_slice()));
    }
    Ok(margin)
}

// Where columns of these widths begin, and where the last one ends.
fn edges_from(alloc: Global, start: u64, columns: &[u16]) -> Result<Vec<u64>, AllocError>
    requires start { start < 1000 }
    requires count { length columns.now < 2 ^ 32 }
    ensures { IfOk result (λ edges. edges.items ≡ spec.edges_from start columns.now) }
{
    let mut edges = Vec::new(alloc);
    let mut x = start;
    for column in columns {
        edges.push(x)?;
        x += u64::from(*column);
    }
    edges.push(x)?;
    Ok(edges)
}

/// How far below the top of the picture a mark stands.
pub(crate) fn level_of(mark: &Mark) -> u64
    ensures { result ≡ spec.level_of mark.now }
{
    u64::from(mark.at) + u64::from(row_drop(mark.shape))
}

// Sets a place, if it is there.
fn set_place(places: &mut [u64], thread: u64, place: u64) {
    let at = thread as usize;
    if at < places.len() {
        places[at] = place;
    }
}

// Where the lines of threads begin: at the top, or where a thread is spawned.
fn tops_of(alloc: Global, threads: u32, marks: &[Mark]) -> Result<Vec<u64>, AllocError> {
    let mut tops = vec![in alloc; TOP_ROW; threads as usize]?;
    for mark in marks {
        if mark.shape == Shape::Spawn {
            set_place(tops.as_mut_slice(), mark.other, level_of(mark));
        }
    }
    Ok(tops)
}

// How high a picture is in which all these marks stand.
#[tactic(auto, using(crate::proofs::FrameLemmas::all_below))]
fn height_of(marks: &[Mark]) -> u64
    ensures { All (λ m. m.at + spec.row_height m.shape ≤ result) marks.now }
{
    let mut reach = TOP_ROW;
    for mark in marks {
        reach = reach.max(u64::from(mark.at) + u64::from(row_height(mark.shape)));
    }
    reach + FOOT
}

/// Where the line of a thread stands, or begins.
pub(crate) fn line_from_left(places: &[u64], thread: u64) -> u64
    ensures { result ≡ spec.edge_at places.now thread }
{
    places.get(thread as usize).copied().unwrap_or(0)
}

// Where the columns begin beside this margin, and where the last one ends.
fn edges_of(
    alloc: Global,
    threads: u32,
    marks: &[Mark],
    margin: u64,
) -> Result<Vec<u64>, AllocError>
    requires { margin ≤ 716 }
    ensures { IfOk result (λ edges. spec.AreColumns threads margin edges.items) }
{
    let columns = columns_of(alloc, threads, marks)?;
    let edges = edges_from(alloc, margin + 10, columns.as_slice())?;
    Ok(edges)
}

/// The frame of a picture of so many threads, with these marks.
pub(crate) fn frame_of(alloc: Global, threads: u32, marks: &[Mark]) -> Result<Frame, AllocError>
    ensures { IfOk result (λ frame. spec.FitsFrame threads marks.now frame) }
{
    let margin = u64::from(margin_of(alloc, marks)?);
    let edges = edges_of(alloc, threads, marks, margin)?;
    let tops = tops_of(alloc, threads, marks)?;
    let width = line_from_left(edges.as_slice(), u64::from(threads));
    let height = height_of(marks);
    Ok(Frame {
        edges,
        tops,
        margin,
        width,
        height,
    })
}
