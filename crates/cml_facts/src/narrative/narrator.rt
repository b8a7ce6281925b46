//! What is needed to tell the items of a run.

use crate::ending::Takers;
use cml_phrase::Place;

/// What is needed to tell the items of a run: where the statements of its program stand, and who took last from each M-variable.
#[derive(Drop)]
pub struct Narrator {
    pub(crate) places: Vec<Vec<Place>>,
    pub(crate) takers: Takers,
}
