//! Tests of the whole program, over memory: what is no comparison of one text with another.
#![tactic(auto)]

#[cfg(test)]
mod faults;
#[cfg(test)]
mod gates;
pub mod random;
#[cfg(test)]
mod run;
#[cfg(test)]
mod stores;
#[cfg(test)]
mod streams;
#[cfg(test)]
mod texts;
#[cfg(test)]
mod workers;
