//! Ends of a program: where schedules lead, in classes of those that ended alike.

ghost use Rattle.std.specs.{Prelude.{◌≡◌, ◌<◌, [], IfOk, length, map}, List.{All}};
ghost use Rattle.cml_phrase.specs.Spots.{all_places};
ghost use Rattle.cml_explore.specs.Explored.{with_ended};
ghost use Rattle.cml_explore.specs.Finishes.{PlainEnded};
ghost use Rattle.cml_explore.specs.Ends.{AreEachTold, AreEndsTold, AreInOrder, AreEndRanks, EndsSoAfter, IsEndTold, IsGathered, HasGoneThrough};
ghost use Rattle.cml_explore.specs.Ends as spec;

use crate::classes::Classes;
use crate::explored::{Asked, Explored, is_well};
use crate::finish::fate_of;
use crate::orders::Orders;
use crate::seed::Order;
use crate::tell::run_told;
use crate::told::RunTold;
use cml_check::Prog;
use cml_facts::ending::let_go;
use cml_hub::{Hub, Item};
use cml_judge::Wanted;
use cml_phrase::{Place, statement_places};
use cml_text::Sexpr;
use std::alloc::{AllocError, Global};

// The budget under which schedules are followed. It stops nothing, and an end is the same under any.
const BUDGET: u64 = 1;

/// What is told of a class of ends.
#[derive(Drop)]
pub struct EndTold {
    /// Whether it is a good one: nothing was left to do, no thread waits but servers, and none ended at a fault.
    pub well: bool,
    /// How many items its shortest schedule has.
    pub items: usize,
    /// The run by that schedule.
    pub run: RunTold,
}

/// What is told of the ends of a program.
#[derive(Drop)]
pub struct EndsTold {
    /// The classes, by number.
    pub classes: Vec<EndTold>,
    /// Their numbers, in the order in which they are told: bad ones come before good ones, and among both those with shorter schedules first.
    pub order: Vec<usize>,
}

/// The hub that has gone through this schedule of the program.
pub(crate) fn hub_by(alloc: Global, program: &Prog, items: &[Item]) -> Result<Hub, AllocError>
    ensures { IfOk result (HasGoneThrough program.now items.now) }
{
    let again = program.copy()?;
    match Hub::replay(alloc, again, BUDGET, None, items) {
        Ok(hub) => Ok(hub),
        Err(_) => Err(AllocError),
    }
}

// What is asked of schedules: nothing but which threads are servers.
fn asked_of(servers: &[u32]) -> Asked<'_>
    ensures servers { result.servers.now ≡ servers.now }
    ensures wanted { result.wanted.properties.now ≡ [] }
{
    Asked {
        budget: BUDGET,
        first: 0,
        runs: 0,
        orders: Orders::Named(Order::Queue),
        servers,
        wanted: Wanted {
            properties: &[],
            first: &[],
        },
        until: &[],
    }
}

impl Explored {
    // One run more, by this schedule, which has this number in place of a seed.
    fn add_end(
        &mut self,
        alloc: Global,
        program: &Prog,
        asked: &Asked<'_>,
        number: u64,
        items: &[Item],
    ) -> Result<(), AllocError>
        requires few { All (λ c. c.summary.runs < u64.MAX) self.old.classes }
        requires runs { self.old.runs < u64.MAX }
        requires none { asked.now.wanted.properties.now ≡ [] }
        ensures { IfOk result (λ _. (e : PlainEnded) × EndsSoAfter program.now asked.now.servers.now items.now e × (self.new ≡ with_ended number e self.old)) }
    {
        let hub = hub_by(alloc, program, items)?;
        let added = self.add_hub(alloc, asked, number, &hub);
        let_go(hub);
        match added {
            Ok(_) => Ok(()),
            Err(AllocError) => Err(AllocError),
        }
    }
}

/// The runs of the program by these schedules, in classes of those that ended alike; the number of a schedule stands for the seed of its run.
/// Where the threads that began with these functions are servers, they may wait. What one run takes of memory is given back before the next.
///
/// # Errors
/// Out of memory; or one of the schedules leads nowhere.
pub fn gather_ends(
    alloc: Global,
    program: &Prog,
    servers: &[u32],
    schedules: &[Vec<Item>],
) -> Result<Explored, AllocError>
    ensures { IfOk result (IsGathered program.now servers.now (map (λ schedule. schedule.items) schedules.now)) }
{
    let asked = asked_of(servers);
    let mut made = Explored::new(alloc);
    for schedule in schedules {
        let number = made.runs();
        made.add_end(alloc, program, &asked, number, schedule.as_slice())?;
    }
    Ok(made)
}

// What is told of the run by this schedule.
fn end_told(
    alloc: Global,
    places: &[Vec<Place>],
    program: &Prog,
    servers: &[u32],
    items: &[Item],
) -> Result<EndTold, AllocError>
    ensures { IfOk result (IsEndTold (map (λ own. own.items) places.now) program.now servers.now items.now) }
{
    let hub = hub_by(alloc, program, items)?;
    let well = is_well(fate_of(servers, &hub, &[]));
    let told = run_told(alloc, places, &hub);
    let_go(hub);
    Ok(EndTold {
        well,
        items: items.len(),
        run: told?,
    })
}

// What is told of each class.
fn each_told(
    alloc: Global,
    places: &[Vec<Place>],
    program: &Prog,
    servers: &[u32],
    classes: &Classes,
) -> Result<Vec<EndTold>, AllocError>
    ensures { IfOk result (λ told. AreEachTold (map (λ own. own.items) places.now) program.now servers.now classes.now told.items) }
{
    let mut told = Vec::new(alloc);
    for number in 0..classes.len() {
        let items = classes.class(number).summary.shortest();
        let end = end_told(alloc, places, program, servers, items)?;
        told.push(end)?;
    }
    Ok(told)
}

// By what the order of two classes is settled: whether it is a good one, how many items its schedule has, and its number.
type EndRank = (bool, usize, usize);

// The ranks of the classes, by number.
fn end_ranks_of(alloc: Global, told: &[EndTold]) -> Result<Vec<EndRank>, AllocError>
    ensures { IfOk result (λ ranks. ranks.items ≡ spec.end_ranks_from 0 told.now) }
{
    let mut ranks = Vec::new(alloc);
    for end in told {
        let number = ranks.len();
        ranks.push((end.well, end.items, number))?;
    }
    Ok(ranks)
}

// The numbers of the classes of these ranks.
fn numbers_of(alloc: Global, ranks: &[EndRank]) -> Result<Vec<usize>, AllocError>
    ensures { IfOk result (λ numbers. numbers.items ≡ map (λ rank. rank.2) ranks.now) }
{
    let mut numbers = Vec::new(alloc);
    for rank in ranks {
        numbers.push(rank.2)?;
    }
    Ok(numbers)
}

// The ranks of the classes, in order.
fn sorted_ranks(alloc: Global, told: &[EndTold]) -> Result<Vec<EndRank>, AllocError>
    ensures { IfOk result (λ ranks. AreEndRanks told.now ranks.items) }
{
    let mut ranks = end_ranks_of(alloc, told)?;
    ranks.sort()?;
    Ok(ranks)
}

// The numbers of the classes, in the order in which they are told.
fn order_of(alloc: Global, told: &[EndTold]) -> Result<Vec<usize>, AllocError>
    ensures ranked { IfOk result (λ order. AreInOrder told.now order.items) }
    ensures below { IfOk result (λ order. All (λ n. n < length told.now) order.items) }
{
    let ranks = sorted_ranks(alloc, told)?;
    numbers_of(alloc, ranks.as_slice())
}

/// What is told of the ends that [`gather_ends`] found: of each class the threads that are left in the run by its shortest schedule, or ended at
/// a fault in it, for which that is followed once more. The script has this text and forms, and is this program.
///
/// # Errors
/// Out of memory.
pub fn tell_ends(
    alloc: Global,
    text: &[u8],
    forms: &[Sexpr],
    program: &Prog,
    servers: &[u32],
    classes: &Classes,
) -> Result<EndsTold, AllocError>
    ensures told { IfOk result (AreEndsTold (all_places text.now forms.now) program.now servers.now classes.now) }
    ensures below { IfOk result (λ told. All (λ n. n < length classes.now) told.order.items) }
{
    let places = statement_places(alloc, text, forms)?;
    let told = each_told(alloc, places.as_slice(), program, servers, classes)?;
    let order = order_of(alloc, told.as_slice())?;
    Ok(EndsTold {
        classes: told,
        order,
    })
}
