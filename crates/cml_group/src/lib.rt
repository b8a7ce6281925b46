//! Forced groups laid flat: the leaves of a group by number, the functions that the result of each goes through, and the
//! nacks that fire where it is chosen.
#![tactic(auto)]

mod bare;
mod fault;
mod flat;
mod force;
mod forced;
pub mod law;
mod lay;
mod limit;

pub use fault::{FlatFault, ForceFault};
pub use flat::{Chosen, Flat, flatten};
pub use force::{Forcing, Next};
pub use forced::Forced;
pub use limit::{MAX_LEAVES, has_few_leaves};
