//! What holds and hands over values: channels and swap channels, variables, mailboxes, multicast channels and their ports, the clock, ends of threads and
//! nacks; and the laws of all kinds, in two traits.
#![tactic(auto)]

mod alarm;
mod channel;
mod clock;
mod delivery;
mod ivar;
mod joined;
mod lane;
mod mailbox;
mod multicast;
mod mvar;
mod nack;
mod paired;
mod pairing;
mod port;
mod queue;
mod register;
mod source;
mod swap;
mod tally;

pub use alarm::Alarm;
pub use channel::{ChannelSide, Channels};
pub use clock::Clock;
pub use delivery::{PostFault, deliver, post, prepare};
pub use ivar::IVar;
pub use joined::Joined;
pub use lane::{Lane, PartnerThreads};
pub use mailbox::Mailbox;
pub use multicast::Multicast;
pub use mvar::{MVar, MVarWant};
pub use nack::{NackCell, NackFeed, Spent};
pub use paired::Paired;
pub use pairing::{PairedId, PairedKind, SidePlace, do_meet, hands, place};
pub use port::{Port, copy_port};
pub use queue::MAX_ITEMS;
pub use register::{MAX_OBJECTS, Register};
pub use source::{FeedFault, Source};
pub use swap::{SwapChannels, SwapSide};
pub use tally::Tally;
