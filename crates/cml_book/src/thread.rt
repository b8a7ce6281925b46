//! What a thread of a book does.

ghost use Rattle.std.specs.Prelude.{◌≡◌, ◌≤◌, Some, IfOk, length, map};
ghost use Rattle.cml_scan.specs.World.{running, pending_on, ended, pending_from};
ghost use Rattle.cml_book.specs.Outcomes.{max_threads};

use crate::counted::Counted;
use cml_group::Flat;
use cml_value::Tid;
use std::alloc::{AllocError, Global};
use std::marker::Model;
use std::mem;

/// A thread.
pub struct Thread {
    doing: Doing,
}

// Written out, so that how the parts are dropped is proved once, and whoever drops one calls this.
impl Drop for Thread {
    fn drop(self) {
        let Thread { doing } = self;
        drop(doing);
    }
}

#[derive(Drop)]
enum Doing {
    Running,
    // with the group that it waits on
    Pending(Counted),
    Ended,
}

impl Model for Thread {
    ghost use Rattle.cml_scan.specs.{World.{PlainThread}, Codes.{thread_code}};
    ghost use Rattle.cml_book.specs.Views.{plain_doing};

    ghost Value = { PlainThread };

    ghost coded = { thread_code };

    ghost view = { λ t. plain_doing t.doing };
}

impl Thread {
    ghost use Rattle.std.specs.Option.{option_copied};
    ghost use Rattle.cml_scan.specs.Light.{has_ended};
    ghost use Rattle.cml_book.specs.{Threads.{flat_of}, Walks.{runs}};

    pub fn running() -> Thread
        ensures { result ≡ running }
    {
        Thread {
            doing: Doing::Running,
        }
    }

    pub fn pending(flat: Counted) -> Thread
        ensures { result ≡ pending_on flat }
    {
        Thread {
            doing: Doing::Pending(flat),
        }
    }

    pub fn ended() -> Thread
        ensures { result ≡ ended }
    {
        Thread {
            doing: Doing::Ended,
        }
    }

    /// Whether it runs.
    pub fn is_running(&self) -> bool
        ensures { result ≡ runs self.now }
    {
        match &self.doing {
            Doing::Running => true,
            _ => false,
        }
    }

    /// Whether it has ended.
    pub fn has_ended(&self) -> bool
        ensures { result ≡ has_ended (Some self.now) }
    {
        match &self.doing {
            Doing::Ended => true,
            Doing::Running | Doing::Pending(_) => false,
        }
    }

    /// The group that it waits on, if it does.
    pub fn flat(&self) -> Option<&Counted>
        ensures { option_copied result ≡ flat_of self.now }
    {
        match &self.doing {
            Doing::Pending(flat) => Some(flat),
            Doing::Running | Doing::Ended => None,
        }
    }

    /// Puts it into this state. Only where it waits is there a group to be given up, and that is done apart.
    pub fn put(&mut self, so: Thread)
        ensures { self.new ≡ so }
    {
        match &self.doing {
            Doing::Pending(_) => self.give_up(so),
            Doing::Running | Doing::Ended => {
                *self = so;
            }
        }
    }

    // Puts it into this state, and gives up the group that it waited on.
    #[inline(never)]
    fn give_up(&mut self, so: Thread)
        ensures { self.new ≡ so }
    {
        *self = so;
    }

    /// Ends with nothing kept of it. It stands apart, so that who puts a thread into its place need not look at all of it.
    #[inline(never)]
    pub fn lose(self) {
        drop(self);
    }

    /// Has it run from now on. Returns the group that it waited on, if it did.
    pub fn release(&mut self) -> Option<Flat>
        ensures value { result ≡ flat_of self.old }
        ensures runs { self.new ≡ running }
    {
        match mem::replace(&mut self.doing, Doing::Running) {
            Doing::Pending(flat) => Some(flat.into_flat()),
            Doing::Running | Doing::Ended => None,
        }
    }
}

/// The numbers of the threads that are pending, ascending.
pub fn pending_threads(alloc: Global, threads: &[Thread]) -> Result<Vec<Tid>, AllocError>
    requires { length threads.now ≤ max_threads }
    ensures { IfOk result (λ tids. map (λ t. t.0) tids.items ≡ map (λ e. e.thread) (pending_from 0 threads.now)) }
{
    let mut tids: Vec<Tid> = Vec::new(alloc);
    for i in 0..threads.len() {
        if threads[i].flat().is_some() {
            tids.push(Tid(i as u32))?;
        }
    }
    Ok(tids)
}

/// How many threads are pending.
pub fn pending_count(threads: &[Thread]) -> usize
    ensures { result ≡ length (pending_from 0 threads.now) }
{
    let mut count = 0;
    for i in 0..threads.len() {
        if threads[i].flat().is_some() {
            count += 1;
        }
    }
    count
}
