//! What the items show, from the top.

ghost use Rattle.std.specs.Prelude.{◌≡◌, ◌≤◌};
ghost use Rattle.cml_picture.specs.Stacks.{bottom_of};

use super::feed::Fed;
use cml_facts::narrative::Happened;

/// What the items did so far that show something, which of them took what another one had fed, how far below the top the next row begins,
/// and how many rows were counted.
#[derive(Drop)]
pub struct Stack {
    pub shown: Vec<Happened>,
    pub fed: Vec<Fed>,
    pub bottom: u32,
    pub rows: u32,
    pub ghost low: { bottom ≤ 1000000000 },
    pub ghost few: { rows ≤ 2000 },
    pub ghost stacked: { bottom ≡ bottom_of shown.items },
}
