//! The kinds of properties, and their words.

ghost use Rattle.std.specs.Prelude.{◌≡◌};
ghost use Rattle.cml_properties.specs.Kinds as spec;

/// A kind of property.
#[derive(Clone, Copy, Debug, PartialEq, Eq)]
pub enum PropertyKind {
    /// No line is printed that matches.
    Never,
    /// A run that ends prints a line that matches.
    Always,
    /// At most one line is printed that matches.
    Once,
    /// No line that matches the second pattern is printed before the first that matches the first.
    Before,
    /// All runs print the same lines, in any order.
    SameLines,
    /// All runs print the same lines, in the same order.
    SameOrder,
    /// Where a run ends no mailbox and no port holds an item.
    Empty,
}

// All kinds.
const KINDS: [PropertyKind; 7] = [
    PropertyKind::Never,
    PropertyKind::Always,
    PropertyKind::Once,
    PropertyKind::Before,
    PropertyKind::SameLines,
    PropertyKind::SameOrder,
    PropertyKind::Empty,
];

impl PropertyKind {
    /// The word with which a property of this kind begins.
    pub fn word(self) -> &'static str
        ensures { result.now ≡ spec.kind_word self }
    {
        match self {
            PropertyKind::Never => "never",
            PropertyKind::Always => "always",
            PropertyKind::Once => "once",
            PropertyKind::Before => "before",
            PropertyKind::SameLines => "same-lines",
            PropertyKind::SameOrder => "same-order",
            PropertyKind::Empty => "empty",
        }
    }

    /// The kind that has this word, if there is one.
    pub fn of_word(word: &[u8]) -> Option<PropertyKind>
        ensures { result ≡ spec.kind_of word.now }
    {
        KINDS
            .iter()
            .copied()
            .find(|kind| kind.word().as_bytes() == word)
    }
}
