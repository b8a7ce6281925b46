//! Properties of runs: what must hold of the lines that a run printed and of its end.
#![tactic(auto)]

mod agreement;
mod breach;
mod fault;
mod judged;
mod kind;
pub mod law;
mod line;
mod pattern;
mod property;
mod read;
mod watch;
mod words;

pub use agreement::agree;
pub use breach::{Breach, Run, breaches};
pub use fault::{PropertyFault, PropertyFaultKind};
pub use judged::judge;
pub use kind::PropertyKind;
pub use line::Line;
pub use pattern::Pattern;
pub use property::{Finish, Property};
pub use read::{properties, property_from};
pub use watch::{Watch, broken};
