//! What undoes a slice.

use crate::journal::Journal;
use crate::machine::Machine;
use cml_value::Tid;
use std::alloc::Global;
use std::mem::swap;

/// What undoes a slice: a copy of the machine as it was, where one was made; else what the slice changed in the call on top. Its lists are
/// used again.
pub struct Undo {
    pub(crate) journal: Journal,
    pub(crate) spare: Machine,
    pub(crate) filled: bool,
}

// Written out, so that how the parts are dropped is proved once, and whoever drops one calls this.
impl Drop for Undo {
    fn drop(self) {
        let Undo {
            journal,
            spare,
            filled: _,
        } = self;
        drop(journal);
        drop(spare);
    }
}

impl Undo {
    ghost use Rattle.std.specs.Prelude.{◌≡◌};
    ghost use Rattle.cml_step.specs.{Machines.{PlainMachine}, Undos.{IsUndone, RestsUndo}};

    /// Of no slice yet. It takes no memory.
    pub fn new(alloc: Global) -> Undo
        ensures { RestsUndo result }
    {
        Undo {
            journal: Journal::new(alloc),
            spare: Machine::ended(alloc, Tid(0)),
            filled: false,
        }
    }

    /// Puts the machine back to what it was before the slice. It takes no memory.
    pub fn put_back(&mut self, machine: &mut Machine)
        ensures { (before : PlainMachine) → IsUndone self.old machine.old before
            → machine.new ≡ before }
    {
        if self.filled {
            swap(machine, &mut self.spare);
        } else {
            machine.undo(&mut self.journal);
        }
    }

    /// Lets go the values that it holds. It takes no memory.
    pub fn rest(&mut self)
        ensures { RestsUndo self.new }
    {
        self.journal.clear();
        self.spare.rest();
    }
}
