//! A table of communications by lanes of offers, which keeps no list of rows.
#![tactic(auto)]

mod change;
mod counts;
mod crossing;
mod entries;
mod entry;
mod flags;
mod head_counts;
mod heads;
mod index;
mod lanes;
mod live;
mod nacks;
mod numbers;
mod one_object;
mod partners;
mod rows;
mod slot;
mod stand;
mod state;
mod table;
mod told;

pub use cml_objects::Tally;
pub use index::OfferIndex;
