//! Properties of runs: what they mean, by examples, and their words.

mod agreeing;
mod breaking;
mod matching;
mod reading;

use crate::making::MEMORY;
use cml_properties::{Line, Property, properties};
use std::process::Abort;

/// The lines of a text, as they are printed.
pub fn lines_of<'a>(rt: &(impl Abort + AllocGlobal), text: &'a str) -> Vec<Line<'a>> {
    let mut lines = Vec::new(rt.alloc());
    for line in text.lines() {
        let line = Line::new(rt.alloc(), line.as_bytes()).expect(rt, MEMORY);
        lines.push(line).expect(rt, MEMORY);
    }
    lines
}

/// The only property of a text.
pub fn property_of(rt: &(impl Abort + AllocGlobal), text: &str) -> Property {
    let mut found = properties(rt.alloc(), text.as_bytes()).expect(rt, text);
    assert!(rt; found.len() == 1, "{text}");
    found.pop().expect(rt, text)
}
