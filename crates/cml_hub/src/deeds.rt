//! With which functions threads began, and how many of them ended at a fault.

ghost use Rattle.std.specs.{Prelude.{◌≡◌, ◌<◌, ◌+◌, ◌++◌, ◌∷◌, [], count_by}, List.{filter_map}, Vec.{vec_len, vec_capacity}};
ghost use Rattle.cml_step.specs.AskViews.{plain_ask};
ghost use Rattle.cml_hub.specs.{Dones.{plain_done}, Deeds.{begotten, is_fault, WasAsked}};

use crate::done::Done;
use cml_step::Ask;
use cml_value::FnRef;

// The function with which each thread began, by its number, and how many threads ended at a fault.
pub(crate) struct Deeds {
    pub(crate) origins: Vec<FnRef>,
    pub(crate) faults: usize,
}

// Written out, so that how the parts are dropped is proved once, and whoever drops one calls this.
impl Drop for Deeds {
    fn drop(self) {
        let Deeds { origins, faults: _ } = self;
        drop(origins);
    }
}

// Notes what a turn did: the function of a thread that begins comes after the others, and a fault is counted. It takes no memory.
pub(crate) fn note(deeds: &mut Deeds, ask: Ask, done: &Done)
    requires asked { WasAsked done.now (plain_ask ask) }
    requires room { vec_len deeds.old.origins < vec_capacity deeds.old.origins }
    requires few { deeds.old.faults < usize.MAX }
    ensures origins { deeds.new.origins.items ≡ deeds.old.origins.items ++ filter_map begotten (plain_done (plain_ask ask) done.now ∷ []) }
    ensures faults { deeds.new.faults ≡ deeds.old.faults + count_by is_fault (plain_done (plain_ask ask) done.now ∷ []) }
{
    match done {
        Done::Spawns(_) => match ask {
            Ask::Spawn(function) => deeds.origins.push_reserved(function),
            _ => unreachable!(),
        },
        Done::Fails(_) => {
            deeds.faults += 1;
            drop(ask);
        }
        Done::Goes | Done::Gets(_) | Done::Takes(_) | Done::Prints | Done::Waits | Done::Ends =>
            drop(ask),
    }
}
