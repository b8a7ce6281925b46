//! What a book holds besides its table: threads, objects, nacks and the time.

ghost use Rattle.std.specs.Prelude.{◌≡◌, ◌≢◌, ◌≤◌, Some, Err, IfOk, IfSome, IfNone, ℕ, length, map, slice_get, slice_set};
ghost use Rattle.cml_scan.specs.{World.{running, ended, pending}, Light.{light_of}};
ghost use Rattle.cml_book.specs.{Entering.{max_tick}, Outcomes.{Does, with_thread}, Spawn.{spawn as spawned}, MakeChan.{make_chan as made}};
ghost use Rattle.cml_book.specs.{MakeSwap.{make_swap as swap_made}, Nack.{nack as nack_made}, Clock.{IsAlarm}, Walks.{is_running}};
ghost use Rattle.cml_book.specs.Outcomes as spec;

use crate::book::{MAX_OBJECTS, MAX_THREADS};
use crate::fullness::{has_fired, ivar_is_full, mailbox_has_item, mvar_is_full, port_has_item};
use crate::marks::NackMarks;
use crate::refusal::{Fault, Refusal};
use crate::thread::{Thread, pending_count, pending_threads};
use cml_objects::{Clock, IVar, MVar, Mailbox, Multicast, NackCell, Port, Register};
use cml_scan::{Light, Lights};
use cml_value::{ChanId, McastId, NackId, SwapId, Tid};
use std::alloc::{AllocError, Global};
use std::marker::Model;

/// The world of a book: what its threads do, and what its objects hold.
pub struct State {
    pub(crate) threads: Vec<Thread>,
    pub(crate) channels: u32,
    pub(crate) swaps: u32,
    pub(crate) ivars: Register<IVar>,
    pub(crate) mvars: Register<MVar>,
    pub(crate) mailboxes: Register<Mailbox>,
    pub(crate) mchans: Vec<Multicast>,
    pub(crate) ports: Register<Port>,
    // the channel of each port
    pub(crate) port_channels: Vec<McastId>,
    pub(crate) nacks: Register<NackCell>,
    // a mark for each nack
    pub(crate) marks: NackMarks,
    // the time, and how many leaves of pending threads wait for each tick
    pub(crate) clock: Clock,
}

// Written out, so that how the parts are dropped is proved once, and whoever drops one calls this.
impl Drop for State {
    fn drop(self) {
        let State {
            threads,
            channels: _,
            swaps: _,
            ivars,
            mvars,
            mailboxes,
            mchans,
            ports,
            port_channels,
            nacks,
            marks,
            clock,
        } = self;
        drop(threads);
        drop(ivars);
        drop(mvars);
        drop(mailboxes);
        drop(mchans);
        drop(ports);
        drop(port_channels);
        drop(nacks);
        drop(marks);
        drop(clock);
    }
}

impl Model for State {
    ghost use Rattle.std.specs.Prelude.{◌≡◌, ◌≤◌, length};
    ghost use Rattle.cml_scan.specs.{World.{PlainWorld}, Codes.{world_code}};
    ghost use Rattle.cml_book.specs.{Views.{queues_of, ports_of}, Keeping.{AreFew, Counts, AreUntold}, Entering.{max_tick}, Homes.{ArePorts}};

    ghost Value = { PlainWorld };

    ghost coded = { world_code };

    ghost view = { λ s. record {
      threads = s.threads.items;
      channels = s.channels;
      swaps = s.swaps;
      ivars = s.ivars.objects;
      mvars = s.mvars.objects;
      mailboxes = queues_of s.mailboxes.objects;
      mchans = ports_of s.mchans.items;
      ports = queues_of s.ports.objects;
      nacks = s.nacks.objects;
      tick = s.clock.tick;
    } };

    ghost invariant = { λ s.
        AreFew (length s.threads.items) s.channels s.swaps (length s.ivars.objects) (length s.mvars.objects)
        (length s.mailboxes.objects) (length s.mchans.items) (length s.ports.objects) (length s.nacks.objects)
        × (s.marks ≡ length s.nacks.objects)
        × ArePorts s.mchans.items s.port_channels.items (length s.ports.objects)
        × Counts s.threads.items s.clock.waited
        × AreUntold s.ivars.waits s.mvars.waits s.mailboxes.waits s.ports.waits s.nacks.waits
        × (s.clock.tick ≤ max_tick) };
}

impl State {
    ghost use Rattle.cml_book.specs.Step.{empty_world};

    /// The empty world.
    pub fn new(alloc: Global) -> State
        ensures { result ≡ empty_world }
    {
        State {
            threads: Vec::new(alloc),
            channels: 0,
            swaps: 0,
            ivars: Register::new(alloc),
            mvars: Register::new(alloc),
            mailboxes: Register::new(alloc),
            mchans: Vec::new(alloc),
            ports: Register::new(alloc),
            port_channels: Vec::new(alloc),
            nacks: Register::new(alloc),
            marks: NackMarks::new(alloc),
            clock: Clock::new(alloc),
        }
    }

    /// The time, which is at most 2^62.
    pub fn now(&self) -> u64
        ensures time { result ≡ self.now.tick }
        ensures limit { result ≤ max_tick }
    {
        self.clock.now()
    }

    /// The least tick above now for which a leaf of a pending thread waits, if there is one.
    pub fn next_alarm(&self) -> Option<u64>
        ensures alarm { IfSome result (λ t. IsAlarm self.now t) }
        ensures least { IfSome result (λ t. (u : ℕ) → IsAlarm self.now u → t ≤ u) }
        ensures none { IfNone result ((u : ℕ) → IsAlarm self.now u → ⊥) }
    {
        self.clock.next_alarm()
    }

    /// The number of the next thread.
    pub fn next_thread(&self) -> Tid
        ensures { result.0 ≡ length self.now.threads }
    {
        let next = self.threads.len();
        Tid(next as u32)
    }

    /// The number of the next nack.
    pub fn next_nack(&self) -> NackId
        ensures { result.0 ≡ length self.now.nacks }
    {
        let next = self.nacks.len();
        NackId(next as u32)
    }

    /// Whether there is such a thread, and it runs.
    pub fn is_running(&self, thread: Tid) -> bool
        ensures { result ≡ is_running self.now thread.0 }
    {
        match self.threads.get(thread.0 as usize) {
            Some(found) => found.is_running(),
            None => false,
        }
    }

    /// How many threads are pending.
    pub fn pending_count(&self) -> usize
        ensures { result ≡ length (pending self.now) }
    {
        pending_count(&self.threads)
    }

    /// The pending threads, ascending.
    pub fn pending(&self, alloc: Global) -> Result<Vec<Tid>, AllocError>
        ensures { IfOk result (λ threads. map (λ t. t.0) threads.items ≡ map (λ e. e.thread) (pending self.now)) }
    {
        pending_threads(alloc, &self.threads)
    }

    /// Makes a thread, which runs.
    pub fn spawn(&mut self) -> Result<Tid, Fault>
        ensures { Does result (spawned self.old) self.old self.new }
    {
        if self.threads.len() >= MAX_THREADS {
            return Err(Fault::Refused(Refusal::Full));
        }
        let thread = Tid(self.threads.len() as u32);
        self.threads.reserve(1)?;
        self.threads.push_reserved(Thread::running());
        Ok(thread)
    }

    /// Makes a channel.
    pub fn make_chan(&mut self) -> Result<ChanId, Fault>
        ensures step { Does result (made self.old) self.old self.new }
        ensures sure { result ≢ Err Fault.Memory }
    {
        if self.channels as usize >= MAX_OBJECTS {
            return Err(Fault::Refused(Refusal::Full));
        }
        let channel = ChanId(self.channels);
        self.channels += 1;
        Ok(channel)
    }

    /// Makes a swap channel.
    pub fn make_swap(&mut self) -> Result<SwapId, Fault>
        ensures step { Does result (swap_made self.old) self.old self.new }
        ensures sure { result ≢ Err Fault.Memory }
    {
        if self.swaps as usize >= MAX_OBJECTS {
            return Err(Fault::Refused(Refusal::Full));
        }
        let channel = SwapId(self.swaps);
        self.swaps += 1;
        Ok(channel)
    }

    /// Makes a fresh nack for the thread.
    pub fn nack(&mut self, owner: Tid) -> Result<NackId, Fault>
        ensures { Does result (nack_made self.old owner.0) self.old self.new }
    {
        if let Some(why) = self.thread_refusal(owner) {
            return Err(Fault::Refused(why));
        }
        if self.nacks.len() >= MAX_OBJECTS {
            return Err(Fault::Refused(Refusal::Full));
        }
        self.nacks.room(None)?;
        self.marks.grow()?;
        match self.nacks.make(NackCell::new(owner)) {
            Ok(id) => Ok(NackId(id)),
            Err(_) => unreachable!(),
        }
    }

    /// Why the thread can't do a command, if it can't.
    pub fn thread_refusal(&self, thread: Tid) -> Option<Refusal>
        ensures { result ≡ spec.thread_refusal (slice_get self.now.threads thread.0) }
    {
        match self.threads.get(thread.0 as usize) {
            Some(found) if found.is_running() => None,
            Some(_) => Some(Refusal::State),
            None => Some(Refusal::Thread),
        }
    }

    /// Ends the thread, which runs.
    pub fn end(&mut self, thread: Tid)
        requires { slice_get self.old.threads thread.0 ≡ Some running }
        ensures { self.new ≡ with_thread self.old thread.0 ended }
    {
        put(&mut self.threads, thread, Thread::ended());
    }

    /// Moves the clock to this tick, which is at most 2^62.
    pub fn advance(&mut self, to: u64)
        requires later { self.old.tick ≤ to }
        requires limit { to ≤ max_tick }
        ensures { self.new ≡ record self.old { tick = to } }
    {
        self.clock.advance(to);
    }
}

// Puts the thread into this state, if it is there.
pub(crate) fn put(threads: &mut Vec<Thread>, thread: Tid, so: Thread)
    ensures { threads.new.items ≡ slice_set threads.old.items thread.0 so }
{
    let place = thread.0 as usize;
    if place < threads.len() {
        threads[place].put(so);
    } else {
        so.lose();
    }
}

impl Lights for State {
    ghost is_lit = { light_of };

    fn is_lit(&self, light: Light) -> bool {
        match light {
            Light::IVar(i) => ivar_is_full(&self.ivars, i),
            Light::MVar(m) => mvar_is_full(&self.mvars, m),
            Light::Mbox(b) => mailbox_has_item(&self.mailboxes, b),
            Light::Port(p) => port_has_item(&self.ports, p),
            Light::Joined(t) => match self.threads.get(t.0 as usize) {
                Some(thread) => thread.has_ended(),
                None => false,
            },
            Light::Alarm(t) => t <= self.clock.now(),
            Light::Nack(k) => has_fired(&self.nacks, k),
        }
    }
}
