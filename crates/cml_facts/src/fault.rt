//! How the threads of a run ended: where and why those did that ended at faults; and the details by which two runs ended alike.

mod blame;
mod choice;
mod detail;
mod details;
mod fact;
mod failed;
mod fall;
mod faults;
mod frame;
mod part;
mod reason;
mod statement;
mod wanted;
mod why;
mod words;

pub use detail::Detail;
pub use details::{details_of, fallen_details_of};
pub use fact::ThreadFault;
pub use failed::failed_by;
pub use fall::{Fall, Falls, Retold, falls_of, retell};
pub use faults::{Faults, faults_of};
pub use frame::Frame;
pub use part::Part;
pub use reason::{Reason, reason_of};
pub use why::push_reason;
pub use words::write_faults;
