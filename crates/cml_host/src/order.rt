//! What decides what happens next, as the arguments say it.

ghost use Rattle.std.specs.Prelude.{◌≡◌, IfSome};
ghost use Rattle.cml_arguments.specs.Words.{IsDepth};
ghost use Rattle.cml_host.specs.Orders as spec;

use cml_explore::{Order, Orders};

/// What decides what happens next in a run, where the arguments say it: priorities of this depth, or that turns are drawn too.
pub fn order_said(turns: bool, priority: Option<u64>) -> Option<Order>
    requires depth { IfSome priority IsDepth }
    ensures { result ≡ spec.order_said turns priority }
{
    match priority {
        Some(depth) => Some(Order::Priority(depth as u32)),
        None => { if turns { Some(Order::Lot) } else { None } }
    }
}

/// What decides it in each of many runs: this order; or, where none is said, picks, where they are asked for; and else all orders go round.
pub fn orders_said(picks: bool, order: Option<Order>) -> Orders
    ensures { result ≡ spec.orders_said picks order }
{
    match order {
        Some(order) => Orders::Named(order),
        None => {
            if picks {
                Orders::Named(Order::Queue)
            } else {
                Orders::Round
            }
        }
    }
}
