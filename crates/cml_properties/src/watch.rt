//! Whether lines keep a property.

ghost use Rattle.std.specs.Prelude.{◌≡◌, ℕ, ◌↔◌, not, ◌||◌, IsTrue, IsFalse, IsNone, IfSome, Some, List, [], ◌∷◌, ◌++◌};
ghost use Rattle.cml_properties.specs.declared.property.Finish.TheVariants.{GoesOn};
ghost use Rattle.cml_properties.specs.{Lines.{PlainLine}, Properties.{keeps}, Watches.{BreaksAt, HasSeen}};
ghost use Rattle.cml_properties.specs.Watches as spec;

use crate::line::Line;
use crate::property::{Finish, Property};

/// What is known of the lines that a run has printed so far, to tell where it breaks a property.
#[derive(Drop)]
pub struct Watch<'a> {
    property: &'a Property,
    marked: bool,
}

impl<'a> Watch<'a> {
    /// Before the first line.
    pub fn new(property: &'a Property) -> Watch<'a>
        ensures property { result.property.now ≡ property.now }
        ensures seen { HasSeen result [] }
    {
        Watch {
            property,
            marked: false,
        }
    }

    /// Takes the next line, and says whether it breaks the property.
    pub fn breaks(&mut self, line: &Line<'_>) -> bool
        ensures property { self.new.property.now ≡ self.old.property.now }
        ensures broken { (lines : List PlainLine) → HasSeen self.old lines →
            result ≡ not (keeps self.old.property.now (lines ++ line.now ∷ []) GoesOn) }
        ensures seen { (lines : List PlainLine) → HasSeen self.old lines → IsFalse result →
            HasSeen self.new (lines ++ line.now ∷ []) }
    {
        let is_broken = is_broken_by(self.property, self.marked, line);
        self.marked = is_marked_with(self.marked, self.property, line);
        is_broken
    }

    /// Whether the property breaks where the run comes no further.
    pub fn breaks_at_end(&self, finish: Finish) -> bool
        ensures { (lines : List PlainLine) → HasSeen self.now lines →
            result ≡ not (keeps self.now.property.now lines finish) }
    {
        is_broken_at_end(self.property, self.marked, finish)
    }
}

// Whether the property remembers the line, or one before it.
fn is_marked_with(marked: bool, property: &Property, line: &Line<'_>) -> bool
    ensures { result ≡ (marked || spec.marks property.now line.now) }
{
    marked || is_marked(property, line)
}

// Whether the property remembers the line.
fn is_marked(property: &Property, line: &Line<'_>) -> bool
    ensures { result ≡ spec.marks property.now line.now }
{
    match property {
        Property::Always(pattern) => pattern.matches(line),
        Property::Once(pattern) => pattern.matches(line),
        Property::Before { first, .. } => first.matches(line),
        _ => false,
    }
}

// Whether the line breaks the property, where lines before it were remembered or not.
fn is_broken_by(property: &Property, marked: bool, line: &Line<'_>) -> bool
    ensures { result ≡ spec.is_broken_by property.now marked line.now }
{
    match property {
        Property::Never(pattern) => pattern.matches(line),
        Property::Once(pattern) => marked && pattern.matches(line),
        Property::Before { first, later } => {
            !marked && !first.matches(line) && later.matches(line)
        }
        _ => false,
    }
}

// Whether the end of a run breaks the property, where lines were remembered or not.
fn is_broken_at_end(property: &Property, marked: bool, finish: Finish) -> bool
    ensures { result ≡ spec.is_broken_at_end property.now marked finish }
{
    match property {
        Property::Always(_) => !marked && finish != Finish::GoesOn,
        Property::Empty => finish == Finish::HasItems,
        _ => false,
    }
}

/// At which line a run breaks the property, counted from 0; where it breaks at its end, as many as there are lines.
pub fn broken(property: &Property, lines: &[Line<'_>], finish: Finish) -> Option<usize>
    ensures kept { IsNone result ↔ IsTrue (keeps property.now lines.now finish) }
    ensures broken { IfSome result (BreaksAt property.now lines.now finish) }
    ensures only { (at : ℕ) → BreaksAt property.now lines.now finish at → result ≡ Some at }
{
    let mut watch = Watch::new(property);
    for (index, line) in lines.iter().enumerate() {
        if watch.breaks(line) {
            return Some(index);
        }
    }
    if watch.breaks_at_end(finish) {
        return Some(lines.len());
    }
    None
}
