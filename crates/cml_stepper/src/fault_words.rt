//! The words for where and why threads of a run ended at faults.

use crate::question::{Next, Question};
use crate::stepper::Stepper;
use cml_facts::fault::{Faults, write_faults};
use cml_facts::narrative::{Came, Deed, Happened};
use cml_hub::Hub;
use std::alloc::{AllocError, Global};

/// A run that is gone through by hand: the name of its script's file, what is known of the script, and where the run stands.
#[derive(Clone, Copy)]
pub struct Run<'a> {
    pub name: &'a str,
    pub stepper: &'a Stepper<'a>,
    pub hub: &'a Hub,
}

impl Run<'_> {
    // Appends where and why these threads ended at faults.
    fn push_these(
        &self,
        alloc: Global,
        out: &mut Vec<u8>,
        faults: &Faults,
    ) -> Result<(), AllocError> {
        let stepper = self.stepper;
        write_faults(alloc, out, self.name, stepper.text, stepper.forms, faults)
    }

    /// Appends where and why threads ended at faults.
    pub(crate) fn push_faults(&self, alloc: Global, out: &mut Vec<u8>) -> Result<(), AllocError> {
        let faults = self.stepper.faults(alloc, self.hub)?;
        self.push_these(alloc, out, &faults)
    }

    // Appends where and why the last thread did, if that is known.
    fn push_last(&self, alloc: Global, out: &mut Vec<u8>) -> Result<(), AllocError> {
        let Faults { mut first, others } = self.stepper.faults(alloc, self.hub)?;
        let mut last = Vec::new(alloc);
        if others == 0 {
            if let Some(fault) = first.pop() {
                last.push(fault)?;
            }
        }
        let faults = Faults {
            first: last,
            others: 0,
        };
        self.push_these(alloc, out, &faults)
    }

    /// Appends where and why a thread ended at a fault by what happened, where the question behind that does not say it.
    pub(crate) fn push_fault_of(
        &self,
        alloc: Global,
        out: &mut Vec<u8>,
        happened: &Happened,
        question: &Question,
    ) -> Result<(), AllocError> {
        let says_all = matches!(&question.next, Next::Ended(_));
        if says_all || !is_fault(&happened.deed) {
            return Ok(());
        }
        self.push_last(alloc, out)
    }
}

// Whether a thread ended at a fault by it.
fn is_fault(deed: &Deed) -> bool {
    match deed {
        Deed::Turned(turned) => matches!(&turned.came, Came::Failed(_)),
        _ => false,
    }
}
