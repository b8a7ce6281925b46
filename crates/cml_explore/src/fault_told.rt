//! What is told of schedules by whose last items threads end at faults.

ghost use Rattle.std.specs.Prelude.{◌≡◌, IfOk, map};
ghost use Rattle.cml_phrase.specs.Spots.{all_places};
ghost use Rattle.cml_explore.specs.FaultsTold.{AreFaultsTold, IsFaultTold};
ghost use Rattle.cml_explore.specs.FaultsTold as spec;

use crate::ends::hub_by;
use crate::tell::run_told;
use crate::told::RunTold;
use cml_check::Prog;
use cml_facts::ending::let_go;
use cml_hub::Item;
use cml_phrase::{Place, statement_places};
use cml_text::Sexpr;
use std::alloc::{AllocError, Global};

/// What is told of a schedule by whose last item a thread ends at a fault.
#[derive(Drop)]
pub struct FaultTold {
    /// How many items it has.
    pub items: usize,
    /// Whose turn the last of them is, if it is one.
    pub thread: Option<u32>,
    /// The run by it.
    pub run: RunTold,
}

// Whose turn the item is, if it is one.
fn turn_by(item: Item) -> Option<u32>
    ensures { result ≡ spec.turn_by item }
{
    match item {
        Item::Turn(thread) => Some(thread.0),
        Item::Meet(_) => None,
        Item::Exchange(_) => None,
        Item::Clock(_) => None,
    }
}

// Whose turn the last of these items is, if it is one.
fn last_turn(items: &[Item]) -> Option<u32>
    ensures { result ≡ spec.last_turn items.now }
{
    if items.is_empty() {
        return None;
    }
    turn_by(items[items.len() - 1])
}

// What is told of this schedule.
fn fault_told(
    alloc: Global,
    places: &[Vec<Place>],
    program: &Prog,
    items: &[Item],
) -> Result<FaultTold, AllocError>
    ensures { IfOk result (IsFaultTold (map (λ own. own.items) places.now) program.now items.now) }
{
    let hub = hub_by(alloc, program, items)?;
    let told = run_told(alloc, places, &hub);
    let_go(hub);
    Ok(FaultTold {
        items: items.len(),
        thread: last_turn(items),
        run: told?,
    })
}

/// What is told of each of these schedules: the thread whose turn the last item is, and the threads that are left in the run by it, or ended at a
/// fault in it. The script has this text and forms, and is this program.
///
/// # Errors
/// Out of memory.
pub fn tell_faults(
    alloc: Global,
    text: &[u8],
    forms: &[Sexpr],
    program: &Prog,
    schedules: &[Vec<Item>],
) -> Result<Vec<FaultTold>, AllocError>
    ensures { IfOk result (λ told. AreFaultsTold (all_places text.now forms.now) program.now (map (λ schedule. schedule.items) schedules.now) told.items) }
{
    let places = statement_places(alloc, text, forms)?;
    let mut told = Vec::new(alloc);
    for schedule in schedules {
        let one = fault_told(alloc, places.as_slice(), program, schedule.as_slice())?;
        told.push(one)?;
    }
    Ok(told)
}
