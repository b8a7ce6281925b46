//! How a run ended: who is left, where, and what each waits for.

mod again;
mod awaited;
mod ending;
mod law;
mod left;
mod next;
mod replay;
mod ring;
mod room;
mod standing;
mod state;
mod stuck;
mod takers;
mod telling;
mod turns;
mod words;

pub use again::{begin_again, come, let_go};
pub use awaited::{Awaited, AwaitedEvent, Named, awaited_event, awaited_of, who_is};
pub use ending::{Ending, ending_of};
pub use law::{what_is_told_as_a_ring_is_one, who_waits_for_another_cannot_go_on};
pub use left::{Left, Stands, stands_of};
pub use room::make_room;
pub use standing::{Spot, as_call, machine_spot, place_of, spots_of, thread_spot, top_call};
pub use stuck::{is_stuck, some_held_up};
pub use takers::{Take, Takers};
pub use telling::{explain_end, write_ending};
pub use words::{push_awaited, push_awaited_event, push_many, push_named, push_number};
