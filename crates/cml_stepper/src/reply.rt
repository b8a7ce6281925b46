//! What is done at an answer.

ghost use Rattle.std.specs.Prelude.{◌≡◌, ◌+◌, IfOk, OnOk, true, length, drop};
ghost use Rattle.cml_hub.specs.{Courses.{Adds}, Kept.{NoneOut}, Runs.{is_allowed}};
ghost use Rattle.cml_facts.specs.Deeds.{HasHappened};
ghost use Rattle.cml_scan.specs.Scan.{scan};
ghost use Rattle.cml_stepper.specs.Steppers.{places_known, FollowsTo};
ghost use Rattle.cml_stepper.specs.Replies.{AnswersLine, DoneAt, IsGone, IsListed, Lists, Undoes, UndoesLast, TakesNamed};
ghost use Rattle.cml_stepper.specs.Questions.{IsQuestion};
ghost use Rattle.cml_stepper.specs.Replies as spec;
ghost use Rattle.cml_stepper.specs.Picks as picks;

use crate::line::{Typed, typed_from};
use crate::offer::{LISTED, Rows, rows_of};
use crate::pick::item_typed;
use crate::question::{Question, next_number};
use crate::rows::rows_in;
use crate::stepper::Stepper;
use cml_book::Book;
use cml_facts::ending::Ending;
use cml_facts::narrative::{Happened, Why, why_not};
use cml_hub::{Hub, Item};
use cml_index::OfferIndex;
use cml_scan::Meet;
use cml_value::Tid;
use std::alloc::{AllocError, Global};

/// The answer to a line.
#[derive(Drop)]
pub enum Reply {
    /// It is the end.
    Quit,
    /// An item happened: what it did, what it added to the output, and what can happen after it.
    Gone {
        happened: Happened,
        printed: Vec<u8>,
        question: Question,
    },
    /// The item of this number was undone, and this can happen before it.
    Undone {
        number: usize,
        question: Question,
    },
    /// Nothing has changed, and an item of this number comes next.
    Stays {
        stay: Stay,
        number: usize,
    },
}

/// Why nothing changes at a line, or what was asked by it.
#[derive(Drop)]
pub enum Stay {
    /// There is no item to undo.
    NoItem,
    /// How the run has ended, or who waits.
    Waits(Ending),
    /// Some rows.
    Listed(Rows),
    /// There is no row of this number.
    NoRow(u64),
    /// Why the thread has no turn.
    NoTurn(Tid, Why),
    /// Nothing can happen.
    Nothing,
    /// More than one row can be taken.
    ManyRows,
    /// The line says nothing that is known.
    Unknown,
}

impl Reply {
    /// Whether it is the end.
    pub fn ends(&self) -> bool
        ensures { result ≡ spec.is_end self.now }
    {
        match self {
            Reply::Quit => true,
            _ => false,
        }
    }
}

// Nothing has changed.
fn stays(hub: &Hub, stay: Stay) -> Reply
    ensures { result ≡ Reply.Stays stay (length hub.now.course.items + 1) }
{
    Reply::Stays {
        stay,
        number: next_number(hub),
    }
}

// Why an empty line means nothing.
fn no_next(alloc: Global, book: &Book<OfferIndex>) -> Result<Stay, AllocError>
    ensures { IfOk result (λ stay. stay ≡ spec.no_next (scan book.now)) }
{
    let rows = rows_in(alloc, book, 0, 1)?;
    if rows.is_empty() {
        return Ok(Stay::Nothing);
    }
    Ok(Stay::ManyRows)
}

// Why a thread has no turn.
fn no_turn(alloc: Global, hub: &Hub, thread: Tid) -> Result<Stay, AllocError>
    ensures { IfOk result (λ stay. stay ≡ spec.unfit hub.now.course.world (Typed.Turn thread)) }
{
    let why = why_not(alloc, hub, &Item::Turn(thread))?;
    Ok(Stay::NoTurn(thread, why))
}

// Why an answer names no item.
fn unfit(alloc: Global, hub: &Hub, what: Typed) -> Result<Stay, AllocError>
    ensures { IfOk result (λ stay. stay ≡ spec.unfit hub.now.course.world what) }
{
    match what {
        Typed::Row(number) => Ok(Stay::NoRow(number)),
        Typed::Turn(thread) => no_turn(alloc, hub, thread),
        Typed::Next => no_next(alloc, hub.book()),
        Typed::List(_) => Ok(Stay::Unknown),
        Typed::Waits => Ok(Stay::Unknown),
        Typed::Undo => Ok(Stay::Unknown),
        Typed::Quit => Ok(Stay::Unknown),
        Typed::Unknown => Ok(Stay::Unknown),
    }
}

// The rows from this number on, where these are the first of them.
fn list_of(alloc: Global, hub: &Hub, number: u64, rows: &[Meet]) -> Result<Stay, AllocError>
    ensures { IfOk result (IsListed hub.now.course number rows.now) }
{
    if rows.is_empty() {
        return Ok(Stay::NoRow(number));
    }
    let listed = rows_of(alloc, hub, number, rows)?;
    Ok(Stay::Listed(listed))
}

// The rows from this number on.
fn list(alloc: Global, hub: &Hub, number: u64) -> Result<Stay, AllocError>
    ensures { IfOk result (Lists hub.now.course number) }
{
    if number == 0 {
        return Ok(Stay::NoRow(number));
    }
    let rows = rows_in(alloc, hub.book(), number as usize - 1, LISTED + 1)?;
    list_of(alloc, hub, number, rows.as_slice())
}

// What is left behind so many bytes.
fn behind(bytes: &[u8], count: usize) -> &[u8]
    ensures { result.now ≡ drop count bytes.now }
{
    if count < bytes.len() {
        &bytes[count..]
    } else {
        &[]
    }
}

// How much was printed, with the lines of faults.
fn printed_len(hub: &Hub) -> usize
    ensures { result ≡ length hub.now.course.output }
{
    hub.out().len()
}

// What was added to the output behind so many bytes.
fn printed_behind(alloc: Global, hub: &Hub, before: usize) -> Result<Vec<u8>, AllocError>
    ensures { IfOk result (λ printed. printed.items ≡ drop before hub.now.course.output) }
{
    Vec::from_slice(alloc, behind(hub.out().as_bytes(), before))
}

impl Stepper<'_> {
    // The item happens, which may. Returns what it did.
    fn tell(&mut self, alloc: Global, hub: &mut Hub, item: Item) -> Result<Happened, AllocError>
        requires none_out { NoneOut hub.old }
        requires there { FollowsTo hub.old.course self.old }
        requires allowed { is_allowed hub.old.course.world item ≡ true }
        ensures told { IfOk result (HasHappened (places_known self.old) hub.old.course item hub.new.course) }
        ensures adds { OnOk result (Adds hub.old.course item hub.new.course) }
        ensures budget { OnOk result (hub.new.budget ≡ hub.old.budget) }
        ensures none_out { NoneOut hub.new }
        ensures there { OnOk result (FollowsTo hub.new.course self.new) }
        ensures places { places_known self.new ≡ places_known self.old }
    {
        match self.narrator.tell(alloc, hub, item)? {
            Some(happened) => Ok(happened),
            None => unreachable!(),
        }
    }

    // The item happens, which may.
    fn go(&mut self, alloc: Global, hub: &mut Hub, item: Item) -> Result<Reply, AllocError>
        requires none_out { NoneOut hub.old }
        requires there { FollowsTo hub.old.course self.old }
        requires allowed { is_allowed hub.old.course.world item ≡ true }
        ensures goes { IfOk result (IsGone (places_known self.old) hub.old item hub.new) }
        ensures none_out { NoneOut hub.new }
        ensures there { IfOk result (λ reply. FollowsTo hub.new.course self.new) }
        ensures places { places_known self.new ≡ places_known self.old }
    {
        let before = printed_len(hub);
        let happened = self.tell(alloc, hub, item)?;
        match self.ask_behind(alloc, hub, before) {
            Ok((printed, question)) => Ok(Reply::Gone {
                happened,
                printed,
                question,
            }),
            Err(error) => {
                drop(happened);
                Err(error)
            }
        }
    }

    // What was added to the output behind so many bytes, and what is asked now.
    fn ask_behind(
        &self,
        alloc: Global,
        hub: &Hub,
        before: usize,
    ) -> Result<(Vec<u8>, Question), AllocError>
        ensures printed { IfOk result (λ made. made.0.items ≡ drop before hub.now.course.output) }
        ensures question { IfOk result (λ made. IsQuestion (places_known self.now) hub.now made.1) }
    {
        let printed = printed_behind(alloc, hub, before)?;
        match self.ask(alloc, hub) {
            Ok(question) => Ok((printed, question)),
            Err(error) => {
                drop(printed);
                Err(error)
            }
        }
    }

    // The item happens that the answer names, if it names one.
    fn go_on(&mut self, alloc: Global, hub: &mut Hub, what: Typed) -> Result<Reply, AllocError>
        requires none_out { NoneOut hub.old }
        requires there { FollowsTo hub.old.course self.old }
        ensures moves { IfOk result (TakesNamed (places_known self.old) what (picks.item_typed hub.old.course.world hub.old.course.items what) hub.old hub.new) }
        ensures none_out { NoneOut hub.new }
        ensures there { IfOk result (λ reply. FollowsTo hub.new.course self.new) }
        ensures places { places_known self.new ≡ places_known self.old }
    {
        let named = item_typed(alloc, hub, what)?;
        match named {
            Some(item) => {
                let gone = self.go(alloc, hub, item)?;
                Ok(gone)
            }
            None => {
                let stay = unfit(alloc, hub, what)?;
                Ok(stays(hub, stay))
            }
        }
    }

    // The last item is undone, of which there is one.
    fn go_back(&mut self, alloc: Global, hub: &mut Hub) -> Result<Reply, AllocError>
        requires { NoneOut hub.old }
        ensures undoes { IfOk result (Undoes (places_known self.old) hub.old hub.new) }
        ensures none_out { NoneOut hub.new }
        ensures there { IfOk result (λ reply. FollowsTo hub.new.course self.new) }
        ensures places { places_known self.new ≡ places_known self.old }
    {
        let number = hub.schedule().len();
        self.undo(alloc, hub)?;
        let question = self.ask(alloc, hub)?;
        Ok(Reply::Undone { number, question })
    }

    // The last item is undone, if there is one.
    fn undo_last(&mut self, alloc: Global, hub: &mut Hub) -> Result<Reply, AllocError>
        requires none_out { NoneOut hub.old }
        requires there { FollowsTo hub.old.course self.old }
        ensures undoes { IfOk result (UndoesLast hub.old.course.items (places_known self.old) hub.old hub.new) }
        ensures none_out { NoneOut hub.new }
        ensures there { IfOk result (λ reply. FollowsTo hub.new.course self.new) }
        ensures places { places_known self.new ≡ places_known self.old }
    {
        let count = hub.schedule().len();
        if count == 0 {
            return Ok(stays(hub, Stay::NoItem));
        }
        let gone = self.go_back(alloc, hub)?;
        Ok(gone)
    }

    // What is done at an answer.
    fn react(&mut self, alloc: Global, hub: &mut Hub, what: Typed) -> Result<Reply, AllocError>
        requires none_out { NoneOut hub.old }
        requires there { FollowsTo hub.old.course self.old }
        ensures does { IfOk result (DoneAt (places_known self.old) what hub.old hub.new) }
        ensures none_out { NoneOut hub.new }
        ensures there { IfOk result (λ reply. FollowsTo hub.new.course self.new) }
        ensures places { places_known self.new ≡ places_known self.old }
    {
        match what {
            Typed::Quit => Ok(Reply::Quit),
            Typed::Undo => {
                let undone = self.undo_last(alloc, hub)?;
                Ok(undone)
            }
            Typed::Waits => {
                let ending = self.ended(alloc, hub)?;
                Ok(stays(hub, Stay::Waits(ending)))
            }
            Typed::List(number) => {
                let listed = list(alloc, hub, number)?;
                Ok(stays(hub, listed))
            }
            Typed::Row(_) => {
                let taken = self.go_on(alloc, hub, what)?;
                Ok(taken)
            }
            Typed::Turn(_) => {
                let turned = self.go_on(alloc, hub, what)?;
                Ok(turned)
            }
            Typed::Next => {
                let next = self.go_on(alloc, hub, what)?;
                Ok(next)
            }
            Typed::Unknown => {
                let same = self.go_on(alloc, hub, what)?;
                Ok(same)
            }
        }
    }

    /// Does what a line says, without its line feed. Where the line fits nothing, nothing happens.
    ///
    /// # Errors
    /// Out of memory. The item may have happened.
    pub fn answer(&mut self, alloc: Global, hub: &mut Hub, line: &[u8]) -> Result<Reply, AllocError>
        requires none_out { NoneOut hub.old }
        requires there { FollowsTo hub.old.course self.old }
        ensures answers { IfOk result (λ reply. AnswersLine (places_known self.old) hub.old line.now reply hub.new) }
        ensures none_out { NoneOut hub.new }
        ensures there { IfOk result (λ reply. FollowsTo hub.new.course self.new) }
        ensures places { places_known self.new ≡ places_known self.old }
        ensures program { IfOk result (λ _. hub.new.course.program ≡ hub.old.course.program) }
        ensures budget { IfOk result (λ _. hub.new.budget ≡ hub.old.budget) }
    {
        let what = typed_from(alloc, line)?;
        let reply = self.react(alloc, hub, what)?;
        Ok(reply)
    }
}
