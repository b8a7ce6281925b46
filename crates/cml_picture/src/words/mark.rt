//! The marks of a picture.

ghost use Rattle.std.specs.Prelude.{◌≡◌, ◌≤◌, ℕ, IfOk};
ghost use Rattle.cml_picture.specs.{Layouts.{AreStacked, top_row}, Signs.{signs_of}, Stacks.{bottom_below, bottom_with}};

use super::label::Speaker;
use crate::layout::{Mark, Shape, row_height};
use crate::sheet::{Left, Sheet, Sign, Stack, signs_of};
use cml_facts::ending::Named;
use cml_facts::narrative::Happened;
use cml_value::Base;
use std::alloc::AllocError;

// How many base events are said of those for which a thread waits.
const EVENT_LIMIT: usize = 6;

// A mark of one thread that shows no item.
fn own_mark(shape: Shape, thread: u64, at: u32, words: Vec<u8>, title: Vec<u8>) -> Mark {
    Mark {
        shape,
        item: 0,
        thread,
        other: thread,
        words,
        title,
        at,
    }
}

// How a thread that waits looks, and that for which it waits.
fn waiting_shapes(is_quiet: bool) -> (Shape, Shape) {
    if is_quiet {
        (Shape::Stuck, Shape::Lost)
    } else {
        (Shape::Waits, Shape::Event)
    }
}

impl Speaker<'_> {
    // A mark of an item.
    fn sign_mark(&self, happened: &Happened, sign: Sign, at: u32) -> Result<Mark, AllocError>
        ensures { IfOk result (λ m. (m.at ≡ at) × (m.shape ≡ sign.shape)) }
    {
        let words = self.label(&happened.deed, sign)?;
        let title = self.line(happened)?;
        Ok(Mark {
            shape: sign.shape,
            item: happened.number,
            thread: sign.thread,
            other: sign.other,
            words,
            title,
            at,
        })
    }

    // Adds these marks of an item from here on, and returns where they end.
    #[tactic(auto, using(crate::proofs::StackLemmas::row_within, crate::proofs::StackLemmas::bottom_next, crate::proofs::StackLemmas::stacked_more))]
    fn add_signs(
        &self,
        marks: &mut Vec<Mark>,
        happened: &Happened,
        signs: &[Sign],
        top: u32,
    ) -> Result<u32, AllocError>
        requires low { bottom_below top signs.now ≤ 1000000000 }
        ensures bottom { IfOk result (λ at. at ≡ bottom_below top signs.now) }
        ensures stacked { (from : ℕ) → AreStacked from marks.old.items top → IfOk result (λ at. AreStacked from marks.new.items at) }
    {
        let mut at = top;
        for sign in signs {
            let mark = self.sign_mark(happened, *sign, at)?;
            marks.push(mark)?;
            at += row_height(sign.shape);
        }
        Ok(at)
    }

    // Adds the marks of an item from here on, and returns where they end.
    fn add_shown(
        &self,
        marks: &mut Vec<Mark>,
        happened: &Happened,
        top: u32,
    ) -> Result<u32, AllocError>
        requires low { bottom_with top happened.now ≤ 1000000000 }
        ensures bottom { IfOk result (λ at. at ≡ bottom_with top happened.now) }
        ensures stacked { (from : ℕ) → AreStacked from marks.old.items top → IfOk result (λ at. AreStacked from marks.new.items at) }
    {
        let signs = signs_of(self.alloc, &happened.deed)?;
        self.add_signs(marks, happened, signs.as_slice(), top)
    }

    // The marks of the items, one below the other.
    #[tactic(auto, using(crate::proofs::StackLemmas::item_within, crate::proofs::StackLemmas::items_next))]
    fn item_marks(&self, stack: &Stack) -> Result<Vec<Mark>, AllocError>
        ensures { IfOk result (λ marks. AreStacked top_row marks.items stack.now.bottom) }
    {
        let mut marks = Vec::new(self.alloc);
        let mut at = 40;
        for happened in stack.shown.as_slice() {
            at = self.add_shown(&mut marks, happened, at)?;
        }
        Ok(marks)
    }

    // Adds the beginning of a line at the top.
    fn add_beginning(&self, marks: &mut Vec<Mark>, named: &Named) -> Result<(), AllocError> {
        let thread = u64::from(named.thread);
        let words = self.beginning(thread, named.began.as_ref())?;
        let title = self.name(named)?;
        let mark = own_mark(Shape::Beginning, thread, 40, words, title);
        Ok(marks.push(mark)?)
    }

    // Adds words of a thread, which are their own title.
    fn add_bare(
        &self,
        marks: &mut Vec<Mark>,
        shape: Shape,
        thread: u64,
        at: u32,
        words: &[u8],
    ) -> Result<(), AllocError> {
        let title = Vec::from_slice(self.alloc, words)?;
        let words = Vec::from_slice(self.alloc, words)?;
        Ok(marks.push(own_mark(shape, thread, at, words, title))?)
    }

    // Adds a base event for which a thread waits.
    fn add_event(
        &self,
        marks: &mut Vec<Mark>,
        shape: Shape,
        thread: u64,
        at: u32,
        base: &Base,
    ) -> Result<(), AllocError> {
        let title = self.event(base)?;
        let words = self.cut(title.as_slice())?;
        Ok(marks.push(own_mark(shape, thread, at, words, title))?)
    }

    // Adds for what a thread waits, from here on: the first six base events, and how many more there are.
    fn add_awaited(
        &self,
        marks: &mut Vec<Mark>,
        shape: Shape,
        thread: u64,
        top: u32,
        bases: &[Base],
    ) -> Result<(), AllocError> {
        if bases.is_empty() {
            return self.add_bare(marks, shape, thread, top, b"nothing: it never happens");
        }
        let (said, more) = bases.split_at(bases.len().min(EVENT_LIMIT));
        let mut at = top;
        for base in said {
            self.add_event(marks, shape, thread, at, base)?;
            at = at.saturating_add(row_height(shape));
        }
        if more.is_empty() {
            return Ok(());
        }
        let words = format!(in self.alloc; "and {} more", more.len())?;
        self.add_bare(marks, shape, thread, at, words.as_bytes())
    }

    // Adds the circle of a thread that waits, and below it for what it waits.
    fn add_waits(
        &self,
        marks: &mut Vec<Mark>,
        named: &Named,
        bases: &[Base],
        is_quiet: bool,
        bottom: u32,
    ) -> Result<(), AllocError> {
        let (circle, event) = waiting_shapes(is_quiet);
        let thread = u64::from(named.thread);
        let title = self.name(named)?;
        let words = Vec::new(self.alloc);
        marks.push(own_mark(circle, thread, bottom, words, title))?;
        let below = bottom.saturating_add(row_height(circle));
        self.add_awaited(marks, event, thread, below, bases)
    }

    // Adds that a thread runs.
    fn add_runs(
        &self,
        marks: &mut Vec<Mark>,
        named: &Named,
        bottom: u32,
    ) -> Result<(), AllocError> {
        let title = self.name(named)?;
        let words = Vec::from_slice(self.alloc, b"runs")?;
        let mark = own_mark(Shape::Runs, u64::from(named.thread), bottom, words, title);
        Ok(marks.push(mark)?)
    }

    // Adds the end of the line of a thread that has not ended.
    fn add_left(
        &self,
        marks: &mut Vec<Mark>,
        left: &Left,
        is_quiet: bool,
        bottom: u32,
    ) -> Result<(), AllocError> {
        match &left.awaits {
            Some(bases) => {
                self.add_waits(marks, &left.named, bases.as_slice(), is_quiet, bottom)
            }
            None => self.add_runs(marks, &left.named, bottom),
        }
    }

    /// The marks of a picture: those of the items, and then where lines begin at the top and end below the last row.
    pub(crate) fn marks_of(&self, sheet: &Sheet) -> Result<Vec<Mark>, AllocError> {
        let mut marks = self.item_marks(&sheet.stack)?;
        for named in sheet.beginnings.as_slice() {
            self.add_beginning(&mut marks, named)?;
        }
        for left in sheet.left.as_slice() {
            self.add_left(&mut marks, left, sheet.is_quiet, sheet.stack.bottom)?;
        }
        Ok(marks)
    }
}
