//! Threads that wait for one another in a ring.

ghost use Rattle.std.specs.Prelude.{◌≡◌, IfOk, option_map};
ghost use Rattle.cml_facts.specs.Rings as spec;

use std::alloc::{AllocError, Global};

// The thread for which this one waits.
fn next_of(nexts: &[Option<u32>], thread: u32) -> Option<u32>
    ensures { result ≡ spec.next_of nexts.now thread }
{
    match nexts.get(thread as usize) {
        Some(next) => *next,
        None => None,
    }
}

// The ring on which a thread lies, from it on and back to it.
fn ring_from(
    alloc: Global,
    nexts: &[Option<u32>],
    start: u32,
) -> Result<Option<Vec<u32>>, AllocError>
    ensures { IfOk result (λ ring. option_map (λ r. r.items) ring ≡ spec.ring_from nexts.now start) }
{
    let mut way = Vec::new(alloc);
    way.push(start)?;
    let mut next = next_of(nexts, start);
    for _step in 0..nexts.len() {
        let thread = match next {
            Some(thread) => thread,
            None => return Ok(None),
        };
        way.push(thread)?;
        if thread == start {
            return Ok(Some(way));
        }
        next = next_of(nexts, thread);
    }
    Ok(None)
}

// A place in a list as the number of a thread. There is no memory for a list in which the place is too large for one.
fn number(place: usize) -> Result<u32, AllocError>
    ensures { IfOk result (λ n. n ≡ place) }
{
    u32::try_from(place).map_err(|_| AllocError)
}

/// The ring on which the least thread lies that lies on one, where the threads wait for these; if there is one.
///
/// # Errors
/// Out of memory.
pub(crate) fn ring_among(
    alloc: Global,
    nexts: &[Option<u32>],
) -> Result<Option<Vec<u32>>, AllocError>
    ensures { IfOk result (λ ring. option_map (λ r. r.items) ring ≡ spec.ring_among nexts.now) }
{
    for i in 0..nexts.len() {
        match ring_from(alloc, nexts, number(i)?)? {
            Some(ring) => return Ok(Some(ring)),
            None => {}
        }
    }
    Ok(None)
}
