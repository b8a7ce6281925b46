//! The schedules of a program, as a system that can be searched.

ghost use Rattle.std.specs.Prelude.{◌≡◌, Bool, IfOk};
ghost use Rattle.cml_hub.specs.Kept.{NoneOut};
ghost use Rattle.cml_verify.specs.Systems.{IsSchedule};
ghost use Rattle.cml_step.specs.Calls.{text_of};
ghost use Rattle.cml_verify.specs.{Cores.{Core, program_system}, Kept.{core_kept, IsAfter, kept_same}, Lawful.{is_lawful}};

use crate::allowed::allowed_here;
use crate::kept::{Kept, keep};
use crate::search::{Gap, System};
use cml_check::Prog;
use cml_hub::{Hub, Item, ReplayFault};
use std::alloc::{AllocError, Global};

/// All schedules of a program.
#[derive(Drop)]
pub struct Schedules {
    pub(crate) program: Prog,
    // Whether the output counts: states with other outputs are other states.
    pub(crate) with_output: bool,
}

// The hub that has gone through a schedule that leads somewhere.
fn hub_after(alloc: Global, program: &Prog, schedule: &[Item]) -> Result<Hub, AllocError>
    requires { (with_output : Bool) × IsSchedule (program_system (text_of program.now) with_output) schedule.now }
    ensures { IfOk result (λ hub. IsAfter program.now schedule.now hub) }
{
    let again = program.copy()?;
    match Hub::replay(alloc, again, 1, None, schedule) {
        Ok(hub) => {
            // No effect: named here so that the prover knows where it leads.
            let _items = hub.schedule();
            Ok(hub)
        }
        Err(ReplayFault::BadItem(_, _)) => unreachable!(),
        Err(ReplayFault::Memory(_)) => Err(AllocError),
    }
}

impl System for Schedules {
    type Kept = Kept;

    type Item = Item;

    ghost State = { Core };

    ghost rules = { λ s. program_system (text_of s.program) s.with_output };

    ghost state_of = { λ s k. core_kept s.program k };

    fn start(&self, alloc: Global) -> Result<Kept, Gap> {
        let hub = hub_after(alloc, &self.program, &[])?;
        let kept = keep(alloc, &hub, self.with_output)?;
        Ok(kept)
    }

    fn allowed(&self, alloc: Global, schedule: &[Item]) -> Result<Vec<Item>, Gap> {
        let hub = hub_after(alloc, &self.program, schedule)?;
        let items = allowed_here(alloc, &hub)?;
        Ok(items)
    }

    fn quiet(&self, _alloc: Global, _schedule: &[Item]) -> Result<Option<Item>, Gap> {
        Ok(None)
    }

    fn step(&self, alloc: Global, schedule: &[Item], item: Item) -> Result<Kept, Gap> {
        let mut hub = hub_after(alloc, &self.program, schedule)?;
        let came = hub.follow(alloc, item)?;
        if !came {
            unreachable!();
        }
        let kept = keep(alloc, &hub, self.with_output)?;
        Ok(kept)
    }

    ghost same = { kept_same };

    ghost lawful = { λ s. is_lawful (text_of s.program) s.with_output };
}
