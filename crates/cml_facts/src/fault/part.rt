//! The part of a statement that is at fault.

use cml_check::{ActOnOne, ActOnTwo, Binary, Unary};
use cml_value::Value;

/// The part of a statement that is at fault, with the values that it was given: the first from the left that has no value though all parts in it
/// have values; or the statement itself, where all its expressions have values.
#[derive(Drop)]
pub enum Part {
    /// Another than those below.
    Other,
    /// An operation on this value.
    Unary(Unary, Value),
    /// An operation on these values.
    Binary(Binary, Value, Value),
    /// A choice. If one of its values is no event, the first such one.
    Choose(Option<Value>),
    /// A wrap of this value.
    Wrap(Value),
    /// An event that a function makes.
    Made,
    /// An effect on this value.
    ActOnOne(ActOnOne, Value),
    /// An effect on these values.
    ActOnTwo(ActOnTwo, Value, Value),
    /// An `if` whose test has this value.
    If(Value),
    /// A `while` whose test has this value.
    While(Value),
    /// A function that returned this value.
    Returned(Value),
}
