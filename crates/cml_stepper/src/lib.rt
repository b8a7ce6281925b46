//! A run that is gone through by hand: what can happen next, and what is done at an answer to that.
#![tactic(auto)]

mod begin;
mod fault_words;
mod faults;
mod line;
mod offer;
mod pick;
mod question;
mod question_words;
mod ready;
mod reply;
mod reply_words;
mod rows;
mod stepper;
mod undo;

pub use fault_words::Run;
pub use offer::{Offer, Row, Rows};
pub use question::{Next, Offers, Question, Ready};
pub use question_words::push_question;
pub use reply::{Reply, Stay};
pub use reply_words::push_reply;
pub use stepper::Stepper;
