//! Tests of the libraries' own calls: of those that the program makes nowhere, of what only a caller of a library can ask, and of words that
//! no case prints.
#![tactic(auto)]

#[cfg(test)]
mod books;
pub mod choosing;
#[cfg(test)]
mod desks;
#[cfg(test)]
mod endings;
#[cfg(test)]
mod explorations;
#[cfg(test)]
mod groups;
#[cfg(test)]
mod hubs;
pub mod kept;
#[cfg(test)]
mod kinds;
#[cfg(test)]
mod machines;
#[cfg(test)]
mod making;
#[cfg(test)]
mod phrases;
#[cfg(test)]
mod properties;
#[cfg(test)]
mod reasons;
#[cfg(test)]
mod scans;
#[cfg(test)]
mod schedules;
#[cfg(test)]
mod scripts;
#[cfg(test)]
mod shrinkings;
#[cfg(test)]
mod tables;
#[cfg(test)]
mod values;
#[cfg(test)]
mod workers;
