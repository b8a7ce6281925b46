//! The book.

ghost use Rattle.std.specs.Prelude.{◌≡◌, ◌≢◌, ◌≤◌, ℕ, IfOk, IfSome, IfNone, OnOk, OnErr, IsTrue, Some, None, Err, true, false, map, length, option_map, slice_get};
ghost use Rattle.std.specs.Option.{option_copied, option_and_then};
ghost use Rattle.cml_scan.specs.{World.{pending}, Light.{light_of}, Views.{nack_of}, Scan.{scan, scan_of, has_row}};
ghost use Rattle.cml_book.specs.{Step.{empty_world}, Outcomes.{Does}, Spawn.{spawn as spawned}, MakeChan.{make_chan as made}};
ghost use Rattle.cml_book.specs.{MakeSwap.{make_swap as swap_made}, Commit.{is_reading}, Clock.{IsAlarm}, Threads.{flat_of}, Holding.{item_in, value_at}};
ghost use Rattle.cml_book.specs.{Walks.{is_running}, Entering.{max_tick}};
ghost use Rattle.cml_book.specs.Nack as nack_spec;
ghost use Rattle.cml_book.specs.Sync as sync_spec;
ghost use Rattle.cml_book.specs.End as end_spec;
ghost use Rattle.cml_book.specs.Commit as commit_spec;
ghost use Rattle.cml_book.specs.Swaps as swaps_spec;
ghost use Rattle.cml_book.specs.Clock as clock_spec;

use crate::command::{Committed, Resume};
use crate::fullness::{mailbox_len, nack_state, port_len};
use crate::holding::{NextObjects, mail_item, message, ports_of};
use crate::nacks::make_room;
use crate::refusal::{Fault, Refusal};
use crate::state::State;
use crate::walk::MAX_TICK;
use cml_objects::hands;
use cml_scan::{Light, Lights, Meet, NackState, Table};
use cml_value::{ChanId, Group, MboxId, McastId, NackId, PortId, SwapId, Tid, Value};
use std::alloc::{AllocError, Global};
use std::marker::Model;

/// How many threads there can be.
pub const MAX_THREADS: usize = 4096;

/// How many objects of each kind there can be, and how many nacks.
pub const MAX_OBJECTS: usize = 65_536;

/// The threads and objects of a Concurrent ML program, with the table of the communications that are possible among its pending
/// threads.
pub struct Book<T: Table> {
    pub(crate) state: State,
    pub(crate) table: T,
    // Kept for their room: both are empty between calls. In a call `lit` takes the lights that are turned on or are found lit, `unlit`
    // those that are turned off or are found not lit.
    lit: Vec<Light>,
    unlit: Vec<Light>,
}

// Written out, so that how the parts are dropped is proved once, and whoever drops one calls this.
impl<T: Table + Drop> Drop for Book<T> {
    fn drop(self) {
        let Book {
            state,
            table,
            lit,
            unlit,
        } = self;
        drop(state);
        drop(table);
        drop(lit);
        drop(unlit);
    }
}

impl<T: Table> Model for Book<T> {
    ghost use Rattle.std.specs.{Prelude.{◌≡◌, []}, Vec.{vec_capacity}};
    ghost use Rattle.cml_scan.specs.{World.{PlainWorld}, Codes.{world_code}};
    ghost use Rattle.cml_book.specs.Keeping.{Keeps};

    ghost Value = { PlainWorld };

    ghost coded = { world_code };

    ghost view = { λ b. b.state };

    ghost invariant = { λ b.
        (Keeps b.state (T.entries b.table) (T.is_lit b.table)
        (record { lit = vec_capacity b.lit; unlit = vec_capacity b.unlit }))
        × (b.lit.items ≡ []) × (b.unlit.items ≡ []) };
}

impl<T: Table> Book<T> {
    ghost use Rattle.std.specs.Prelude.{[]};

    /// An empty book, over a table that was told nothing.
    pub fn new(alloc: Global, table: T) -> Book<T>
        requires { T.entries table ≡ [] }
        ensures { result ≡ empty_world }
    {
        Book {
            state: State::new(alloc),
            table,
            lit: Vec::new(alloc),
            unlit: Vec::new(alloc),
        }
    }

    /// Makes a thread, which runs.
    ///
    /// # Errors
    /// Refused where there are 4,096 of them; or memory runs out.
    #[inline(never)]
    pub fn spawn(&mut self) -> Result<Tid, Fault>
        ensures { Does result (spawned self.old) self.old self.new }
    {
        self.state.spawn()
    }

    /// Makes a channel.
    ///
    /// # Errors
    /// Refused where there are 65,536 of them.
    pub fn make_chan(&mut self) -> Result<ChanId, Fault>
        ensures step { Does result (made self.old) self.old self.new }
        ensures sure { result ≢ Err Fault.Memory }
    {
        self.state.make_chan()
    }

    /// Makes a swap channel.
    ///
    /// # Errors
    /// Refused where there are 65,536 of them.
    pub fn make_swap(&mut self) -> Result<SwapId, Fault>
        ensures step { Does result (swap_made self.old) self.old self.new }
        ensures sure { result ≢ Err Fault.Memory }
    {
        self.state.make_swap()
    }

    /// Makes a fresh nack for the thread.
    ///
    /// # Errors
    /// Refused where there is no such thread, where it does not run, or where there are 65,536 nacks; or memory runs out.
    #[inline(never)]
    pub fn nack(&mut self, owner: Tid) -> Result<NackId, Fault>
        ensures { Does result (nack_spec.nack self.old owner.0) self.old self.new }
    {
        self.state.nack(owner)
    }

    /// The thread waits on the group, of which a copy is kept. The ticks of its `after` events count from now on.
    ///
    /// # Errors
    /// Refused where there is no such thread or it does not run, where a base or a scope names what does not exist, where the
    /// group has more than 256 leaves, is too deep or has too many nodes, where a tick lies too far, or where a scope's nack is
    /// not fresh, not the thread's, or named twice; the first of these. Or memory runs out.
    #[inline(never)]
    pub fn sync(&mut self, alloc: Global, thread: Tid, group: &Group) -> Result<(), Fault>
        ensures { Does result (sync_spec.sync self.old thread.0 group.now) self.old self.new }
    {
        let standing = self.state.standing(group);
        if let Some(why) = self.state.sync_refusal(thread, group, standing.scoped) {
            return Err(Fault::Refused(why));
        }
        let flat = self.state.entered(alloc, group, standing)?;
        let Ok(()) = make_room(&mut self.lit, &mut self.unlit, &flat) else {
            drop(flat);
            return Err(Fault::Memory);
        };
        self.state
            .push_awaited(&mut self.lit, &mut self.unlit, &flat);
        let Ok(()) = self.state.wait(thread, flat) else {
            self.lit.clear();
            self.unlit.clear();
            return Err(Fault::Memory);
        };
        let Some(flat) = self.state.waiting(thread) else {
            unreachable!();
        };
        let came = Some((thread, flat.group()));
        let told = self.table.change(alloc, &[], came, &self.lit, &self.unlit);
        self.lit.clear();
        self.unlit.clear();
        let Ok(()) = told else {
            self.state.withdraw(thread);
            return Err(Fault::Memory);
        };
        self.state.enter_nacks(thread);
        Ok(())
    }

    /// The thread ends.
    ///
    /// # Errors
    /// Refused where there is no such thread, or where it does not run; or memory runs out.
    #[inline(never)]
    pub fn end(&mut self, alloc: Global, thread: Tid) -> Result<(), Fault>
        ensures { Does result (end_spec.end self.old thread.0) self.old self.new }
    {
        if let Some(why) = self.state.thread_refusal(thread) {
            return Err(Fault::Refused(why));
        }
        self.table
            .change(alloc, &[], None, &[Light::Joined(thread)], &[])?;
        self.state.end(thread);
        Ok(())
    }

    /// The clock moves to this tick.
    ///
    /// # Errors
    /// Refused where the tick is before now, or above 2^62; or memory runs out.
    #[inline(never)]
    pub fn clock(&mut self, alloc: Global, to: u64) -> Result<(), Fault>
        ensures { Does result (clock_spec.clock self.old to) self.old self.new }
    {
        if to < self.state.now() {
            return Err(Fault::Refused(Refusal::Clock));
        }
        if to > MAX_TICK {
            return Err(Fault::Refused(Refusal::Far));
        }
        let ticks = self.state.ticks_until(alloc, to)?;
        let Ok(()) = self.table.change(alloc, &[], None, &ticks, &[]) else {
            drop(ticks);
            return Err(Fault::Memory);
        };
        self.state.advance(to);
        Ok(())
    }

    /// Takes the row: its parties go on, with what it hands them.
    ///
    /// # Errors
    /// Refused exactly where the row is not in the table; or memory runs out. Over a table whose changes are sure (`Table::SURE`), memory runs out
    /// only where the row reads a variable and leaves its value there, since then a copy is made.
    pub fn commit(&mut self, alloc: Global, row: Meet) -> Result<Committed, Fault>
        ensures step { Does result (commit_spec.commit self.old row) self.old self.new }
        ensures sure { IsTrue T.SURE → is_reading self.old row ≡ false → result ≢ Err Fault.Memory }
    {
        if !self.table.has(&row) {
            return Err(Fault::Refused(Refusal::Row));
        }
        self.commit_known(alloc, row)
    }

    /// Takes the row, which is known to be in the table, as [`commit`](Book::commit) does: it is not looked for again.
    ///
    /// # Errors
    /// Memory runs out. Over a table whose changes are sure (`Table::SURE`), only where the row reads a variable and leaves its value there.
    pub fn commit_known(&mut self, alloc: Global, row: Meet) -> Result<Committed, Fault>
        requires { has_row (scan self.old) row ≡ true }
        ensures step { Does result (commit_spec.commit self.old row) self.old self.new }
        ensures sure { IsTrue T.SURE → is_reading self.old row ≡ false → result ≢ Err Fault.Memory }
    {
        match row {
            Meet::Single { tid, leaf } => self.commit_single(alloc, tid, leaf),
            Meet::Pair {
                head,
                head_leaf,
                other,
                other_leaf,
            } => self.commit_pair(alloc, head, head_leaf, other, other_leaf),
        }
    }

    /// Whether the row is in the table, and both its leaves are swaps. It takes no memory.
    pub fn swaps(&self, row: &Meet) -> bool
        ensures { result ≡ swaps_spec.swaps self.now row.now }
    {
        if !self.state.are_swaps(row) {
            return false;
        }
        self.table.has(row)
    }

    /// The table of the rows that can be taken now.
    pub fn table(&self) -> &T
        ensures told { T.entries result.now ≡ pending self.now }
        ensures rows { scan_of (T.entries result.now) (T.is_lit result.now) ≡ scan self.now }
    {
        &self.table
    }

    /// The time, which is at most 2^62.
    pub fn now(&self) -> u64
        ensures time { result ≡ self.now.tick }
        ensures limit { result ≤ max_tick }
    {
        self.state.now()
    }

    /// The next alarm: the least tick above now for which a leaf of a pending thread waits, if there is one.
    pub fn next_alarm(&self) -> Option<u64>
        ensures alarm { IfSome result (λ t. IsAlarm self.now t) }
        ensures least { IfSome result (λ t. (u : ℕ) → IsAlarm self.now u → t ≤ u) }
        ensures none { IfNone result ((u : ℕ) → IsAlarm self.now u → ⊥) }
    {
        self.state.next_alarm()
    }

    /// The number that the next thread will have, if there is room for one.
    pub fn next_thread(&self) -> Tid
        ensures { result.0 ≡ length self.now.threads }
    {
        self.state.next_thread()
    }

    /// The number that the next nack will have, if there is room for one.
    pub fn next_nack(&self) -> NackId
        ensures { result.0 ≡ length self.now.nacks }
    {
        self.state.next_nack()
    }

    /// The numbers that the next objects of each kind will have, if there is room for one.
    pub fn next_objects(&self) -> NextObjects
        ensures channel { result.channel.0 ≡ self.now.channels }
        ensures swap { result.swap.0 ≡ self.now.swaps }
        ensures ivar { result.ivar.0 ≡ length self.now.ivars }
        ensures mvar { result.mvar.0 ≡ length self.now.mvars }
        ensures mailbox { result.mailbox.0 ≡ length self.now.mailboxes }
        ensures mchan { result.mchan.0 ≡ length self.now.mchans }
        ensures port { result.port.0 ≡ length self.now.ports }
    {
        self.state.next_objects()
    }

    /// Whether there is such a thread, and it runs.
    pub fn is_running(&self, thread: Tid) -> bool
        ensures { result ≡ is_running self.now thread.0 }
    {
        self.state.is_running(thread)
    }

    /// The group that the thread waits on, if there is such a thread and it does.
    pub fn waiting(&self, thread: Tid) -> Option<&Group>
        ensures { option_copied result ≡ option_and_then flat_of (slice_get self.now.threads thread.0) }
    {
        match self.state.waiting(thread) {
            Some(counted) => Some(counted.group()),
            None => None,
        }
    }

    /// Whether the light is lit: the variable is full, the queue has an item, the thread has ended, the tick has come, the nack has fired.
    /// One of an object that is not there is not lit.
    pub fn is_lit(&self, light: Light) -> bool
        ensures { result ≡ light_of self.now light }
    {
        self.state.is_lit(light)
    }

    /// The value that the object of the light gives next: what the variable holds, or the first item of the mailbox or port. A thread, a tick
    /// and a nack hold none.
    pub fn value(&self, light: Light) -> Option<&Value>
        ensures { option_copied result ≡ value_at self.now light }
    {
        self.state.value(light)
    }

    /// How many items the mailbox has, if there is such a one.
    pub fn mailbox_len(&self, mailbox: MboxId) -> Option<usize>
        ensures { result ≡ option_map length (slice_get self.now.mailboxes mailbox.0) }
    {
        mailbox_len(&self.state.mailboxes, mailbox)
    }

    /// How many unread messages the port has, if there is such a one.
    pub fn port_len(&self, port: PortId) -> Option<usize>
        ensures { result ≡ option_map length (slice_get self.now.ports port.0) }
    {
        port_len(&self.state.ports, port)
    }

    /// Item `n` of the mailbox, the first being 0, if there is such a mailbox and it has so many.
    pub fn mailbox_item(&self, mailbox: MboxId, n: usize) -> Option<&Value>
        ensures { option_copied result ≡ item_in n (slice_get self.now.mailboxes mailbox.0) }
    {
        mail_item(&self.state.mailboxes, mailbox, n)
    }

    /// Unread message `n` of the port, the first being 0, if there is such a port and it has so many.
    pub fn port_item(&self, port: PortId, n: usize) -> Option<&Value>
        ensures { option_copied result ≡ item_in n (slice_get self.now.ports port.0) }
    {
        message(&self.state.ports, port, n)
    }

    /// The ports of the multicast channel, ascending, if there is such a channel.
    pub fn ports(&self, channel: McastId) -> Option<&[PortId]>
        ensures some { IfSome result (λ ports. slice_get self.now.mchans channel.0 ≡ Some (map (λ p. p.0) ports.now)) }
        ensures none { IfNone result (slice_get self.now.mchans channel.0 ≡ None) }
    {
        ports_of(&self.state.mchans, channel)
    }

    /// The state of the nack, if there is such a one.
    pub fn nack_state(&self, nack: NackId) -> Option<NackState>
        ensures { option_map nack_of result ≡ slice_get self.now.nacks nack.0 }
    {
        nack_state(&self.state.nacks, nack)
    }

    /// How many threads are pending. It takes no memory, and looks at each thread once.
    pub fn pending_count(&self) -> usize
        ensures { result ≡ length (pending self.now) }
    {
        self.state.pending_count()
    }

    /// The pending threads, ascending.
    ///
    /// # Errors
    /// Out of memory.
    pub fn pending(&self, alloc: Global) -> Result<Vec<Tid>, AllocError>
        ensures { IfOk result (λ threads. map (λ t. t.0) threads.items ≡ map (λ e. e.thread) (pending self.now)) }
    {
        self.state.pending(alloc)
    }

    #[inline(never)]
    fn commit_single(&mut self, alloc: Global, tid: Tid, leaf: u32) -> Result<Committed, Fault>
        requires { has_row (scan self.old) (Meet.Single tid leaf) ≡ true }
        ensures step { Does result (commit_spec.commit self.old (Meet.Single tid leaf)) self.old self.new }
        ensures sure { IsTrue T.SURE → is_reading self.old (Meet.Single tid leaf) ≡ false → result ≢ Err Fault.Memory }
    {
        let Some(flat) = self.state.waiting(tid) else {
            unreachable!();
        };
        let base = flat.leaf(leaf as usize);
        let copy = self.state.spare(base)?;
        flat.push_lights(&mut self.lit, leaf as usize);
        self.state.push_turned_off(&mut self.unlit, base);
        self.state.push_left_ticks(&mut self.unlit, flat, None);
        let changed = self
            .table
            .change(alloc, &[tid], None, &self.lit, &self.unlit);
        self.lit.clear();
        self.unlit.clear();
        let Ok(()) = changed else {
            drop(copy);
            return Err(Fault::Memory);
        };
        let chosen = self.state.go_on(tid, leaf);
        let value = self.state.given(chosen.base, copy);
        Ok(Committed {
            head: Resume {
                tid,
                value,
                wraps: chosen.wraps,
                fired: chosen.lost,
            },
            partner: None,
        })
    }

    #[inline(never)]
    fn commit_pair(
        &mut self,
        alloc: Global,
        head: Tid,
        head_leaf: u32,
        other: Tid,
        other_leaf: u32,
    ) -> Result<Committed, Fault>
        requires { has_row (scan self.old) (Meet.Pair head head_leaf other other_leaf) ≡ true }
        ensures step { Does result (commit_spec.commit self.old (Meet.Pair head head_leaf other other_leaf)) self.old self.new }
        ensures sure { IsTrue T.SURE → result ≢ Err Fault.Memory }
    {
        let Some(first) = self.state.waiting(head) else {
            unreachable!();
        };
        let Some(second) = self.state.waiting(other) else {
            unreachable!();
        };
        first.push_lights(&mut self.lit, head_leaf as usize);
        second.push_lights(&mut self.lit, other_leaf as usize);
        self.state
            .push_left_ticks(&mut self.unlit, first, Some(second));
        self.state
            .push_left_ticks(&mut self.unlit, second, Some(first));
        let gone = [head, other];
        let changed = self
            .table
            .change(alloc, &gone, None, &self.lit, &self.unlit);
        self.lit.clear();
        self.unlit.clear();
        changed?;
        let first = self.state.go_on(head, head_leaf);
        let second = self.state.go_on(other, other_leaf);
        let (to_head, to_other) = hands(first.base, second.base);
        Ok(Committed {
            head: Resume {
                tid: head,
                value: to_head,
                wraps: first.wraps,
                fired: first.lost,
            },
            partner: Some(Resume {
                tid: other,
                value: to_other,
                wraps: second.wraps,
                fired: second.lost,
            }),
        })
    }
}
