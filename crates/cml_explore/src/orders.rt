//! What decides in each of many runs what happens next.

ghost use Rattle.std.specs.Prelude.{◌≡◌};
ghost use Rattle.cml_explore.specs.Orders as spec;

use crate::seed::Order;

// How many orders go round.
const ORDERS: u64 = 5;

/// What decides in each of many runs what happens next.
#[derive(Clone, Copy)]
pub enum Orders {
    /// The same in each.
    Named(Order),
    /// They go round with the seeds: picks, turns by lot, and priorities of depth 2, 3 and 5.
    Round,
}

// The order that comes in this place, counted from 0.
fn order_at(place: u64) -> Order
    ensures { result ≡ spec.order_at place }
{
    if place == 0 {
        Order::Queue
    } else if place == 1 {
        Order::Lot
    } else if place == 2 {
        Order::Priority(2)
    } else if place == 3 {
        Order::Priority(3)
    } else {
        Order::Priority(5)
    }
}

impl Orders {
    /// The order of the run by this seed.
    pub fn of(self, seed: u64) -> Order
        ensures { result ≡ spec.seed_order self seed }
    {
        match self {
            Orders::Named(order) => order,
            Orders::Round => order_at(seed % ORDERS),
        }
    }
}
