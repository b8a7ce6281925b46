//! What happens in a run, one item after another.

use cml_check::Size;
use cml_scan::Meet;
use cml_value::Tid;
use std::marker::Model;

/// What happens next in a run.
#[derive(Clone, Copy, PartialEq, Eq)]
pub enum Item {
    /// This thread runs, up to 1,000 steps.
    Turn(Tid),
    /// This communication is committed.
    Meet(Meet),
    /// This communication is committed, and it is an exchange over a swap channel.
    Exchange(Meet),
    /// The time moves to this tick.
    Clock(u64),
}

/// A schedule as it was read.
#[derive(Drop)]
pub struct Plan {
    /// The budget of the run, from 1 to 1,000,000,000: a turn uses its steps, any other item uses 1.
    pub budget: u64,
    /// The size of the program, where the text says it.
    pub size: Option<Size>,
    /// What happens, in order.
    pub items: Vec<Item>,
}

impl Model for Plan {
    ghost use Rattle.cml_schedule.specs.{Plans.{PlainPlan}, Codes.{plan_code}};

    ghost Value = { PlainPlan };

    ghost coded = { plan_code };

    ghost view = { λ p. record { budget = p.budget; size = p.size; items = p.items.items } };
}
