//! Runs that are shared among threads.

ghost use Rattle.std.specs.{Prelude.{◌≡◌, ◌≤◌, ◌<◌, ◌+◌, ◌^◌, ℕ, List, None, Some, length, min, max, IfOk, OnOk, OnErr}, List.{All}};
ghost use Rattle.cml_check.specs.Syntax.{PlainItem};
ghost use Rattle.cml_hub.specs.Kept.{IsBudget};
ghost use Rattle.cml_explore.specs.{Explored.{SoFar, HasMade}, declared.explored.Asked.{Asked}, declared.share.Round.{Round}};
ghost use Rattle.cml_explore.specs.Merges.{FitBeside, HasPart, HasJoined, AreInside, ArePartsPlaced, ArePartsTaken, IsAmidRound, IsPartTaken, IsRound, JoinsPart, runs_before};
ghost use Rattle.cml_explore.specs.Merges as spec;

use crate::explored::{Asked, Explored, are_all};
use cml_check::Prog;
use std::alloc::{AllocError, Global};
use std::sync::atomic::{AtomicUsize, Ordering};
use std::thread::{self, Threads};

/// How many runs a round has for each thread at least, where so many are left: one in each part. The first rounds are short, so that not much is
/// made for nothing where a run at which to stop comes early.
const LEAST: u64 = 16;

/// How many it has at most, where no more classes are known than that.
const MOST: u64 = 4096;

/// In how many parts those of one thread are cut. A thread that is slower than another takes fewer of them.
const PARTS: u64 = 16;

/// Some of the runs that are left, in parts of one size, by the seeds from this one on.
#[derive(Clone, Copy)]
struct Round {
    first: u64,
    left: u64,
    size: u64,
}

/// What one thread made of a part, and whether its last run is one at which to stop.
#[derive(Drop)]
struct Part {
    made: Explored,
    stopped: bool,
}

// A part by its number in the round, which a thread has taken and made.
#[derive(Drop)]
struct Taken {
    number: usize,
    part: Part,
}

// The lesser of the two.
fn lesser(one: u64, other: u64) -> u64
    ensures { result ≡ min one other }
{
    if other < one { other } else { one }
}

// The greater of the two.
fn greater(one: u64, other: u64) -> u64
    ensures { result ≡ max one other }
{
    if one < other { other } else { one }
}

// How many runs a round has for each thread, where so many were made that have so many classes. What is known is copied once a round, so a
// round has at least as many runs as there are classes, and grows with the runs that were made.
fn round_share(made: u64, workers: u64, classes: u64) -> u64
    requires { 0 < workers }
    ensures { 0 < result }
{
    let grown = lesser(greater(made / workers, LEAST), MOST);
    greater(grown, classes / workers)
}

// How many runs a part has, where so many are left for so many threads, and a round has so many for each.
fn part_size(left: u64, workers: u64, share: u64) -> u64
    requires { (0 < left) × (0 < workers) × (0 < share) }
    ensures { 0 < result }
{
    lesser(share, left.div_ceil(workers)).div_ceil(PARTS)
}

// The round that goes on behind what was made.
fn next_round(made: &Explored, asked: &Asked<'_>, workers: usize) -> Round
    requires seeds { asked.now.first + asked.now.runs ≤ 2 ^ 64 }
    requires left { made.now.runs < asked.now.runs }
    requires some { 0 < workers }
    ensures { IsRound asked.now made.now result }
{
    let left = asked.runs - made.runs();
    let share = round_share(made.runs(), workers as u64, made.classes().len() as u64);
    Round {
        first: asked.first + made.runs(),
        left,
        size: part_size(left, workers as u64, share),
    }
}

// How many parts the round has, for so many threads.
fn part_count(round: Round, workers: usize) -> usize
    requires { (0 < round.left) × (0 < round.size) × (0 < workers) }
    ensures some { 0 < result }
    ensures inside { AreInside round result }
{
    let most = (workers as u64).saturating_mul(PARTS);
    lesser(round.left.div_ceil(round.size), most) as usize
}

// What is asked of the part of this number.
fn part_asked<'a>(asked: &Asked<'a>, round: Round, part: u64) -> Asked<'a>
    requires seeds { round.first + round.left ≤ 2 ^ 64 }
    requires inside { runs_before round part < round.left }
    ensures { result ≡ spec.part_asked asked.now round part }
{
    let before = part * round.size;
    Asked {
        first: round.first + before,
        runs: lesser(round.size, round.left - before),
        ..*asked
    }
}

// Makes the runs that are asked for, up to the first at which to stop.
fn make_part(alloc: Global, program: &Prog, asked: &Asked<'_>) -> Result<Part, AllocError>
    requires budget { IsBudget asked.now.budget }
    requires seeds { asked.now.first + asked.now.runs ≤ 2 ^ 64 }
    ensures { IfOk result (λ part. HasPart program.now asked.now part.stopped part.made) }
{
    let mut made = Explored::new(alloc);
    'making: while made.runs() < asked.runs {
        let so_many = made.runs();
        let seed = asked.first + so_many;
        let stops = made.add(alloc, program, asked, seed)?;
        if stops {
            return Ok(Part {
                made,
                stopped: true,
            });
        }
    }
    Ok(Part {
        made,
        stopped: false,
    })
}

// The part of this number.
fn make_part_of(
    alloc: Global,
    program: &Prog,
    asked: &Asked<'_>,
    round: Round,
    part: usize,
) -> Result<Part, AllocError>
    requires budget { IsBudget asked.now.budget }
    requires seeds { round.first + round.left ≤ 2 ^ 64 }
    requires inside { runs_before round part < round.left }
    ensures { IfOk result (λ made. HasPart program.now (spec.part_asked asked.now round part) made.stopped made.made) }
{
    let own = part_asked(asked, round, part as u64);
    make_part(alloc, program, &own)
}

// Where this part has a run at which to stop, no thread takes a further one of so many: those before it are taken, and those behind it would be
// let go.
fn stop_taking(next: &AtomicUsize, count: usize, stopped: bool) {
    if stopped {
        next.store(count, Ordering::SeqCst);
    }
}

// Makes one part after another: each time the next one that no thread has taken.
fn take_parts(
    alloc: Global,
    program: &Prog,
    asked: &Asked<'_>,
    round: Round,
    count: usize,
    next: &AtomicUsize,
) -> Result<Vec<Taken>, AllocError>
    requires budget { IsBudget asked.now.budget }
    requires seeds { round.first + round.left ≤ 2 ^ 64 }
    requires inside { AreInside round count }
    ensures { IfOk result (λ taken. ArePartsTaken program.now asked.now round count taken.items) }
{
    let mut taken = Vec::new(alloc);
    'taking: for _ in 0..count {
        let number = next.fetch_add(1, Ordering::SeqCst);
        if number >= count {
            return Ok(taken);
        }
        let part = make_part_of(alloc, program, asked, round, number)?;
        stop_taking(next, count, part.stopped);
        taken.push(Taken { number, part })?;
    }
    Ok(taken)
}

// A place for each part of a round, at which nothing lies.
fn no_parts(alloc: Global, count: usize) -> Result<Vec<Option<Part>>, AllocError>
    ensures long { IfOk result (λ places. length places.items ≡ count) }
    ensures none { IfOk result (λ places. All (λ place. place ≡ None) places.items) }
{
    let mut places = Vec::new(alloc);
    for _ in 0..count {
        places.push(None)?;
    }
    Ok(places)
}

// Lays a part at the place of its number.
fn lay(places: &mut Vec<Option<Part>>, taken: Taken)
    requires { taken.number < length places.old.items }
    ensures long { length places.new.items ≡ length places.old.items }
    ensures placed { (p : List (PlainItem ℕ)) (asked : Asked) (round : Round) → IsPartTaken p asked round (length places.old.items) taken
        → ArePartsPlaced p asked round places.old.items → ArePartsPlaced p asked round places.new.items }
{
    let Taken { number, part } = taken;
    places[number] = Some(part);
}

// Lays the parts that a thread has taken at the places of their numbers.
fn lay_taken(
    program: &Prog,
    asked: &Asked<'_>,
    round: Round,
    places: &mut Vec<Option<Part>>,
    mut taken: Vec<Taken>,
)
    requires taken { ArePartsTaken program.now asked.now round (length places.old.items) taken.items }
    requires placed { ArePartsPlaced program.now asked.now round places.old.items }
    ensures long { length places.new.items ≡ length places.old.items }
    ensures placed { ArePartsPlaced program.now asked.now round places.new.items }
{
    'laying: while let Some(one) = taken.pop() {
        lay(places, one);
    }
}

// Lays the parts that the threads have taken at the places of their numbers.
fn lay_all(
    program: &Prog,
    asked: &Asked<'_>,
    round: Round,
    places: &mut Vec<Option<Part>>,
    mut all: Vec<Result<Vec<Taken>, AllocError>>,
) -> Result<(), AllocError>
    requires taken { All (λ one. IfOk one (λ taken. ArePartsTaken program.now asked.now round (length places.old.items) taken.items)) all.items }
    requires placed { ArePartsPlaced program.now asked.now round places.old.items }
    ensures long { OnOk result (length places.new.items ≡ length places.old.items) }
    ensures placed { OnOk result (ArePartsPlaced program.now asked.now round places.new.items) }
{
    'laying: while let Some(one) = all.pop() {
        let taken = one?;
        lay_taken(program, asked, round, places, taken);
    }
    Ok(())
}

// Takes away what lies at the place of this number.
fn lift(places: &mut Vec<Option<Part>>, number: usize) -> Option<Part>
    requires { number < length places.old.items }
    ensures long { length places.new.items ≡ length places.old.items }
    ensures part { (p : List (PlainItem ℕ)) (asked : Asked) (round : Round) → ArePartsPlaced p asked round places.old.items
        → (part : Part) → result ≡ Some part → HasPart p (spec.part_asked asked round number) part.stopped part.made }
    ensures placed { (p : List (PlainItem ℕ)) (asked : Asked) (round : Round) → ArePartsPlaced p asked round places.old.items → ArePartsPlaced p asked round places.new.items }
{
    places[number].take()
}

// What lay at the place of this number. Where nothing did, no thread has made the part: it is made now.
fn found_part(
    alloc: Global,
    program: &Prog,
    asked: &Asked<'_>,
    round: Round,
    number: usize,
    found: Option<Part>,
) -> Result<Part, AllocError>
    requires budget { IsBudget asked.now.budget }
    requires seeds { round.first + round.left ≤ 2 ^ 64 }
    requires inside { runs_before round number < round.left }
    requires found { (part : Part) → found ≡ Some part → HasPart program.now (spec.part_asked asked.now round number) part.stopped part.made }
    ensures { IfOk result (λ made. HasPart program.now (spec.part_asked asked.now round number) made.stopped made.made) }
{
    match found {
        Some(part) => Ok(part),
        None => make_part_of(alloc, program, asked, round, number),
    }
}

// What each of so many threads makes of the parts of a round.
fn take_all<R: Threads + Sync>(
    rt: &R,
    alloc: Global,
    program: &Prog,
    asked: &Asked<'_>,
    round: Round,
    count: usize,
    workers: usize,
) -> Result<Vec<Result<Vec<Taken>, AllocError>>, AllocError>
    requires budget { IsBudget asked.now.budget }
    requires seeds { round.first + round.left ≤ 2 ^ 64 }
    requires inside { AreInside round count }
    ensures { IfOk result (λ all. All (λ one. IfOk one (λ taken. ArePartsTaken program.now asked.now round count taken.items)) all.items) }
{
    let next = AtomicUsize::new(0);
    let take = |_worker: usize| -> Result<Vec<Taken>, AllocError>
        requires { IsBudget asked.now.budget × (round.first + round.left ≤ 2 ^ 64) × AreInside round count }
        ensures { IfOk result (λ taken. ArePartsTaken program.entry.now asked.entry.now round count taken.items) }
    { take_parts(alloc, program, asked, round, count, &next) };
    thread::map_indices(rt, alloc, workers, &take)
}

// The parts of a round, each at the place of its number, by so many threads, or as many as there are parts. At the place of a part that no thread
// has taken nothing lies.
fn make_parts<R: Threads + Sync>(
    rt: &R,
    alloc: Global,
    program: &Prog,
    asked: &Asked<'_>,
    round: Round,
    count: usize,
    workers: usize,
) -> Result<Vec<Option<Part>>, AllocError>
    requires budget { IsBudget asked.now.budget }
    requires seeds { round.first + round.left ≤ 2 ^ 64 }
    requires inside { AreInside round count }
    ensures many { IfOk result (λ places. length places.items ≡ count) }
    ensures placed { IfOk result (λ places. ArePartsPlaced program.now asked.now round places.items) }
{
    let threads = lesser(count as u64, workers as u64) as usize;
    let all = take_all(rt, alloc, program, asked, round, count, threads)?;
    let mut places = no_parts(alloc, count)?;
    lay_all(program, asked, round, &mut places, all)?;
    Ok(places)
}

// The runs of a part come behind those that were made. Returns whether the last of them is one at which to stop.
//
// On `Err` the caller lets all go.
fn join_part(made: &mut Explored, alloc: Global, part: &Part) -> Result<bool, AllocError>
    requires { FitBeside made.old part.now.made }
    ensures { IfOk result (λ stopped. JoinsPart part.now made.old made.new stopped) }
{
    made.absorb(alloc, &part.made)?;
    Ok(part.stopped)
}

// The part of this number comes behind those before it, which have come behind what was made so far. Returns whether its last run is one at
// which to stop.
//
// On `Err` the caller lets all go.
fn join_next(
    made: &mut Explored,
    so_far: &Explored,
    alloc: Global,
    program: &Prog,
    asked: &Asked<'_>,
    round: Round,
    places: &mut Vec<Option<Part>>,
    number: usize,
) -> Result<bool, AllocError>
    requires budget { IsBudget asked.now.budget }
    requires seeds { round.first + round.left ≤ 2 ^ 64 }
    requires few { asked.now.runs < 2 ^ 64 }
    requires number { number < length places.old.items }
    requires placed { ArePartsPlaced program.now asked.now round places.old.items }
    requires amid { IsAmidRound program.now asked.now so_far.now round (length places.old.items) number made.old }
    ensures long { length places.new.items ≡ length places.old.items }
    ensures placed { ArePartsPlaced program.now asked.now round places.new.items }
    ensures joined { IfOk result (λ stopped. HasJoined program.now asked.now so_far.now round (length places.old.items) (number + 1) stopped made.new) }
{
    let found = lift(places, number);
    let part = found_part(alloc, program, asked, round, number, found)?;
    let joined = join_part(made, alloc, &part);
    drop(part);
    joined
}

// All parts of a round come behind what was made so far, in the order of their numbers, up to the first whose last run is one at which to stop.
// Returns whether there is one.
//
// On `Err` the caller lets all go.
fn join_all(
    made: &mut Explored,
    so_far: &Explored,
    alloc: Global,
    program: &Prog,
    asked: &Asked<'_>,
    round: Round,
    places: &mut Vec<Option<Part>>,
) -> Result<bool, AllocError>
    requires budget { IsBudget asked.now.budget }
    requires seeds { round.first + round.left ≤ 2 ^ 64 }
    requires few { asked.now.runs < 2 ^ 64 }
    requires placed { ArePartsPlaced program.now asked.now round places.old.items }
    requires begins { IsAmidRound program.now asked.now so_far.now round (length places.old.items) 0 made.old }
    ensures { IfOk result (λ stopped. HasJoined program.now asked.now so_far.now round (length places.old.items) (length places.old.items) stopped made.new) }
{
    for number in 0..places.len() {
        let stopped = join_next(made, so_far, alloc, program, asked, round, places, number)?;
        if stopped {
            return Ok(true);
        }
    }
    Ok(false)
}

// What was made so far, once more.
fn copied(
    alloc: Global,
    program: &Prog,
    asked: &Asked<'_>,
    so_far: &Explored,
) -> Result<Explored, AllocError>
    requires so_far { SoFar program.now asked.now so_far.now }
    requires few { so_far.now.runs < 2 ^ 64 }
    ensures { IfOk result (λ copy. SoFar program.now asked.now copy × (copy.runs ≡ so_far.now.runs)) }
{
    let mut copy = Explored::new(alloc);
    copy.absorb(alloc, so_far)?;
    Ok(copy)
}

// A round more, behind what was made. What was made is copied, so it stands as it was where memory runs out.
fn go_round<R: Threads + Sync>(
    so_far: &Explored,
    rt: &R,
    alloc: Global,
    program: &Prog,
    asked: &Asked<'_>,
    workers: usize,
) -> Result<(Explored, bool), AllocError>
    requires budget { IsBudget asked.now.budget }
    requires seeds { asked.now.first + asked.now.runs ≤ 2 ^ 64 }
    requires so_far { SoFar program.now asked.now so_far.now }
    requires left { so_far.now.runs < asked.now.runs }
    requires some { 0 < workers }
    ensures more { IfOk result (λ r. so_far.now.runs < r.0.runs) }
    ensures made { IfOk result (λ r. HasMade program.now asked.now r.1 r.0) }
{
    let wanted = asked.runs;
    let round = next_round(so_far, asked, workers);
    let count = part_count(round, workers);
    let mut places = make_parts(rt, alloc, program, asked, round, count, workers)?;
    let mut made = copied(alloc, program, asked, so_far)?;
    let stopped = join_all(&mut made, so_far, alloc, program, asked, round, &mut places)?;
    drop(places);
    if stopped {
        return Ok((made, true));
    }
    let so_many = made.runs();
    let last = are_all(so_many, wanted);
    Ok((made, last))
}

impl Explored {
    /// Some runs more, by the seeds that follow those of the runs so far, shared among so many threads (0 is as 1). Returns whether these were
    /// the last: the last of them is one at which to stop, or all were made that were asked for. What is kept is what [`go`](Explored::go) would
    /// have kept, by one run after another: where a thread comes to a run at which to stop, what the threads behind it made is let go.
    ///
    /// For each thread there are 16 runs, or more where more were made before or more classes are known, or fewer where fewer are left. They are
    /// cut in parts, and each thread takes the next that no other has taken, so a slow one makes fewer; where a part has a run at which to stop, none
    /// takes a further one. Where no thread can be made, the others make its runs.
    ///
    /// # Errors
    /// Out of memory. Nothing has changed then.
    pub fn go_beside<R: Threads + Sync>(
        &mut self,
        rt: &R,
        alloc: Global,
        program: &Prog,
        asked: &Asked<'_>,
        workers: usize,
    ) -> Result<bool, AllocError>
        requires budget { IsBudget asked.now.budget }
        requires seeds { asked.now.first + asked.now.runs ≤ 2 ^ 64 }
        requires so_far { SoFar program.now asked.now self.old }
        requires left { self.old.runs < asked.now.runs }
        ensures more { OnOk result (self.old.runs < self.new.runs) }
        ensures made { IfOk result (λ last. HasMade program.now asked.now last self.new) }
        ensures err { OnErr result (self.new ≡ self.old) }
    {
        let some = if workers == 0 { 1 } else { workers };
        let (made, last) = go_round(self, rt, alloc, program, asked, some)?;
        *self = made;
        Ok(last)
    }
}
