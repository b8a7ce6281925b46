//! What is said of a place in a text.

/// A sentence that is added to a diagnosis.
#[derive(Drop)]
pub struct Note {
    pub words: Vec<u8>,
    /// The byte at which that stands of which it speaks, if it speaks of such: its place comes behind the words.
    pub at: Option<usize>,
}

/// What is said of a place in a text.
#[derive(Drop)]
pub struct Diagnosis {
    /// The byte at which it stands.
    pub at: usize,
    /// Where the line is to be shown: up to which byte it is marked, from the place on.
    pub marked_to: Option<usize>,
    pub message: Vec<u8>,
    pub notes: Vec<Note>,
}
