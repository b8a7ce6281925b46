//! Whether runs keep what must hold of them, and where they break it.
#![tactic(auto)]

mod breaks;
mod details;
mod finish;
mod judged;
mod spot;
mod stop;

pub use breaks::{Break, breaks_of};
pub use details::{details_with, goal_details};
pub use finish::finish_of;
pub use judged::{Wanted, are_all_kept, judge_alone, judge_hub};
pub use spot::Spot;
pub use stop::{stop_of, stopped_hub};
