//! Where and why threads of a run ended at faults.

ghost use Rattle.std.specs.Prelude.{IfOk};
ghost use Rattle.cml_facts.specs.Faulted.{FaultedSo};
ghost use Rattle.cml_stepper.specs.Steppers.{places_known};

use crate::stepper::Stepper;
use cml_facts::fault::{Faults, faults_of};
use cml_hub::Hub;
use std::alloc::{AllocError, Global};

impl Stepper<'_> {
    /// Where and why threads ended at faults in the run of this hub: the first 20, in the order in which they did, and how many more did. Where one
    /// did, the schedule is gone through once more.
    ///
    /// # Errors
    /// Out of memory.
    pub fn faults(&self, alloc: Global, hub: &Hub) -> Result<Faults, AllocError>
        ensures { IfOk result (λ faults. FaultedSo self.now.forms.now (places_known self.now) hub.now.course faults) }
    {
        faults_of(alloc, self.forms, self.narrator.places(), hub)
    }
}
