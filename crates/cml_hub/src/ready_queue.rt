//! Which threads are ready to run, in their order, and whose slices are out.

ghost use Rattle.std.specs.Prelude.{◌≡◌, ◌≢◌, ℕ, ◌+◌, ◌-◌, ◌<◌, ◌≤◌, ◌^◌, ◌++◌, ◌∷◌, [], List, not, map, length, MatchOption, Some, OnOk, OnErr, slice_get, slice_set};
ghost use Rattle.std.specs.{List.{list_any}, VecDeque.{deque_len, deque_capacity}};
ghost use Rattle.cml_hub.specs.ReadyQueue.{is_at, count_of, ready_at, count_outs, is_here, is_out, home, left_by, those_out};

use cml_value::Tid;
use std::alloc::{AllocError, Global};
use std::collections::VecDeque;
use std::marker::Model;

// Where a thread is.
#[derive(Clone, Copy, PartialEq, Eq)]
pub(crate) enum Mark {
    // It stands in the queue.
    Ready,
    // A slice of it was handed out.
    Out,
    // It does not run.
    NotRunning,
}

// Where each thread is, by its number, with the queue of those that are ready. How many are out is counted, so that it takes no walk to
// see whether any thread runs.
#[derive(Drop)]
pub(crate) struct ReadyQueue {
    queue: VecDeque<Tid>,
    marks: Vec<Mark>,
    outs: usize,
}

impl Model for ReadyQueue {
    ghost use Rattle.std.specs.{Prelude.{◌-◌}, Vec.{vec_len, vec_capacity}, VecDeque.{deque_len, deque_capacity}};
    ghost use Rattle.cml_hub.specs.{MarkCodes.{marks_code}, ReadyQueue.{PlainMarks, AreMarks}};

    ghost Value = { PlainMarks };

    ghost coded = { marks_code };

    ghost view = { λ m. record {
      marks = m.marks.items;
      queue = m.queue.items;
      room = deque_capacity m.queue - deque_len m.queue;
      more = vec_capacity m.marks - vec_len m.marks;
    } };

    ghost invariant = { λ m. AreMarks m.queue.items m.marks.items m.outs };
}

// The same as `unqueue`, where it may stand anywhere: it is looked for from the front.
#[inline(never)]
fn unqueue_later(queue: &mut VecDeque<Tid>, thread: Tid)
    requires { count_of thread.0 queue.old.items ≡ 1 }
    ensures left { queue.new.items ≡ left_by thread.0 queue.old.items }
    ensures others { (t : ℕ) → count_of t queue.new.items + is_at t thread.0 ≡ count_of t queue.old.items }
    ensures capacity { deque_capacity queue.new ≡ deque_capacity queue.old }
    ensures shorter { deque_len queue.new + 1 ≡ deque_len queue.old }
{
    for i in 0..queue.len() {
        if queue[i] == thread {
            let _gone = queue.remove(i);
            return;
        }
    }
    unreachable!();
}

// Takes the thread, which stands in the queue, out of it. In a run alone it is the first.
fn unqueue(queue: &mut VecDeque<Tid>, thread: Tid)
    requires { count_of thread.0 queue.old.items ≡ 1 }
    ensures left { queue.new.items ≡ left_by thread.0 queue.old.items }
    ensures others { (t : ℕ) → count_of t queue.new.items + is_at t thread.0 ≡ count_of t queue.old.items }
    ensures capacity { deque_capacity queue.new ≡ deque_capacity queue.old }
    ensures shorter { deque_len queue.new + 1 ≡ deque_len queue.old }
{
    if queue.is_empty() {
        unreachable!();
    }
    if queue[0] == thread {
        let _gone = queue.pop_front();
        return;
    }
    unqueue_later(queue, thread);
}

// Makes those that are out ready, in the order of their numbers, after the others.
fn queue_outs(queue: &mut VecDeque<Tid>, marks: &mut Vec<Mark>)
    requires few { length marks.old.items ≤ 2 ^ 32 }
    requires queued { (t : ℕ) → count_of t queue.old.items ≡ ready_at marks.old.items t }
    requires room { deque_len queue.old + count_outs marks.old.items ≤ deque_capacity queue.old }
    ensures marks { marks.new.items ≡ map home marks.old.items }
    ensures order { queue.new.items ≡ queue.old.items ++ those_out 0 (map is_out marks.old.items) }
    ensures queued { (t : ℕ) → count_of t queue.new.items ≡ ready_at marks.new.items t }
{
    for i in 0..marks.len() {
        match marks[i] {
            Mark::Out => {
                marks[i] = Mark::Ready;
                queue.push_back_reserved(Tid(i as u32));
            }
            Mark::Ready | Mark::NotRunning => {}
        }
    }
}

impl ReadyQueue {
    // No thread.
    pub(crate) fn new(alloc: Global) -> ReadyQueue
        ensures marks { result.marks ≡ [] }
        ensures queue { result.queue ≡ [] }
    {
        ReadyQueue {
            queue: VecDeque::new(alloc),
            marks: Vec::new(alloc),
            outs: 0,
        }
    }

    // Room for one thread more, and for two more in the queue.
    pub(crate) fn reserve(&mut self) -> Result<(), AllocError>
        ensures marks { self.new.marks ≡ self.old.marks }
        ensures queue { self.new.queue ≡ self.old.queue }
        ensures room { OnOk result (2 ≤ self.new.room) }
        ensures more { OnOk result (1 ≤ self.new.more) }
    {
        self.queue.reserve(2)?;
        self.marks.reserve(1)
    }

    // Whether no thread runs.
    pub(crate) fn is_idle(&self) -> bool
        ensures { result ≡ not (list_any is_here self.now.marks) }
    {
        self.queue.is_empty() && self.outs == 0
    }

    // Whether a slice of a thread is out.
    pub(crate) fn has_out(&self) -> bool
        ensures { result ≡ list_any is_out self.now.marks }
    {
        self.outs > 0
    }

    // The thread that is ready and comes next.
    pub(crate) fn front(&self) -> Option<Tid>
        ensures ready { MatchOption result ((t : ℕ) → slice_get self.now.marks t ≢ Some Mark.Ready) (λ t. slice_get self.now.marks t.0 ≡ Some Mark.Ready) }
        ensures first { result ≡ slice_get self.now.queue 0 }
    {
        if self.queue.is_empty() {
            return None;
        }
        Some(self.queue[0])
    }

    // Adds a new thread, which is ready, after the others.
    pub(crate) fn add(&mut self, thread: Tid)
        requires next { thread.0 ≡ length self.old.marks }
        requires room { 1 ≤ self.old.room }
        requires more { 1 ≤ self.old.more }
        ensures marks { self.new.marks ≡ self.old.marks ++ Mark.Ready ∷ [] }
        ensures queue { self.new.queue ≡ self.old.queue ++ thread ∷ [] }
        ensures room { self.old.room ≡ self.new.room + 1 }
    {
        self.marks.push_reserved(Mark::Ready);
        self.queue.push_back_reserved(thread);
    }

    // Makes the thread ready, after the others; it did not run.
    pub(crate) fn make_ready(&mut self, thread: Tid)
        requires away { slice_get self.old.marks thread.0 ≡ Some Mark.NotRunning }
        requires room { 1 ≤ self.old.room }
        ensures marks { self.new.marks ≡ slice_set self.old.marks thread.0 Mark.Ready }
        ensures queue { self.new.queue ≡ self.old.queue ++ thread ∷ [] }
        ensures room { self.old.room ≡ self.new.room + 1 }
    {
        self.marks[thread.0 as usize] = Mark::Ready;
        self.queue.push_back_reserved(thread);
    }

    // Notes that the thread does not run, wherever it was.
    pub(crate) fn set_not_running(&mut self, thread: Tid)
        requires { thread.0 < length self.old.marks }
        ensures marks { self.new.marks ≡ slice_set self.old.marks thread.0 Mark.NotRunning }
        ensures queue { self.new.queue ≡ left_by thread.0 self.old.queue }
        ensures room { self.old.room ≤ self.new.room }
        ensures more { self.new.more ≡ self.old.more }
    {
        let place = thread.0 as usize;
        match self.marks[place] {
            Mark::Ready => {
                unqueue(&mut self.queue, thread);
                self.marks[place] = Mark::NotRunning;
            }
            Mark::Out => {
                self.outs -= 1;
                self.marks[place] = Mark::NotRunning;
            }
            Mark::NotRunning => {}
        }
    }

    // Notes that the thread, which was ready, is out.
    pub(crate) fn hand_out(&mut self, thread: Tid)
        requires { slice_get self.old.marks thread.0 ≡ Some Mark.Ready }
        ensures marks { self.new.marks ≡ slice_set self.old.marks thread.0 Mark.Out }
        ensures queue { self.new.queue ≡ left_by thread.0 self.old.queue }
    {
        unqueue(&mut self.queue, thread);
        self.marks[thread.0 as usize] = Mark::Out;
        self.outs += 1;
    }

    // Makes the threads that are out ready, in the order of their numbers, after the others.
    pub(crate) fn call_back(&mut self) -> Result<(), AllocError>
        ensures ok { OnOk result (self.new.marks ≡ map home self.old.marks) }
        ensures order { OnOk result (self.new.queue ≡ self.old.queue ++ those_out 0 (map is_out self.old.marks)) }
        ensures err { OnErr result (self.new.marks ≡ self.old.marks) }
        ensures err_queue { OnErr result (self.new.queue ≡ self.old.queue) }
    {
        if self.outs == 0 {
            return Ok(());
        }
        self.queue.reserve(self.outs)?;
        queue_outs(&mut self.queue, &mut self.marks);
        self.outs = 0;
        Ok(())
    }
}
