//! The world as lists and maps, for programs that look at all of it.

use cml_value::{Group, PortId, Tid, Value};
use std::alloc::Global;
use std::marker::Model;

/// What a thread does.
#[derive(Drop)]
pub enum ThreadState {
    /// It runs.
    Running,
    /// It waits on this forced event.
    Pending(Group),
    /// It has ended.
    Ended,
}

/// The state of a nack.
#[derive(Clone, Copy, PartialEq, Eq)]
pub enum NackState {
    /// This thread asked for it, and has not synchronized with it yet.
    Fresh(Tid),
    /// A pending group has its branch.
    Live,
    /// Its group chose an event outside the branch.
    Fired,
    /// Its group chose an event inside the branch.
    Held,
}

/// The state of all threads and objects, each by its number.
#[derive(Drop)]
pub struct World {
    /// What each thread does.
    pub threads: Vec<ThreadState>,
    /// How many channels there are.
    pub channels: u32,
    /// How many swap channels there are.
    pub swaps: u32,
    /// The value of each I-variable, if it is full.
    pub ivars: Vec<Option<Value>>,
    /// The value of each M-variable, if it is full.
    pub mvars: Vec<Option<Value>>,
    /// The items of each mailbox, the first to be taken first.
    pub mailboxes: Vec<Vec<Value>>,
    /// The ports of each multicast channel.
    pub mchans: Vec<Vec<PortId>>,
    /// The unread messages of each port, the first to be taken first.
    pub ports: Vec<Vec<Value>>,
    /// The state of each nack.
    pub nacks: Vec<NackState>,
    /// The time now.
    pub tick: u64,
}

impl Model for World {
    ghost use Rattle.std.specs.Prelude.{map};
    ghost use Rattle.cml_scan.specs.{World.{PlainWorld}, Codes.{world_code}};

    ghost Value = { PlainWorld };

    ghost coded = { world_code };

    ghost use Rattle.cml_scan.specs.Views.{thread_of, nack_of, lists_of, port_lists_of};

    ghost view = { λ w. record {
      threads = map thread_of w.threads.items;
      channels = w.channels;
      swaps = w.swaps;
      ivars = w.ivars.items;
      mvars = w.mvars.items;
      mailboxes = lists_of w.mailboxes.items;
      mchans = port_lists_of w.mchans.items;
      ports = lists_of w.ports.items;
      nacks = map nack_of w.nacks.items;
      tick = w.tick;
    } };
}

impl World {
    ghost use Rattle.std.specs.Prelude.{◌≡◌, []};

    /// The world with nothing in it, at time 0.
    pub fn new(alloc: Global) -> World
        ensures { result ≡ record { threads = []; channels = 0; swaps = 0; ivars = []; mvars = []; mailboxes = []; mchans = []; ports = []; nacks = []; tick = 0 } }
    {
        World {
            threads: Vec::new(alloc),
            channels: 0,
            swaps: 0,
            ivars: Vec::new(alloc),
            mvars: Vec::new(alloc),
            mailboxes: Vec::new(alloc),
            mchans: Vec::new(alloc),
            ports: Vec::new(alloc),
            nacks: Vec::new(alloc),
            tick: 0,
        }
    }
}
