//! Properties as they are read, and their words.

use crate::making::MEMORY;
use cml_properties::{PropertyFault, PropertyKind, properties, property_from};
use std::process::Abort;
use std::rt::HostRuntime;

// Texts of properties, and what is read: the properties, with a comma between two, or the fault. A bar stands for the end of a line.
const TEXTS: &str = "
| => 
; nothing here => 
never 3 => never 3
  always  ( pair \"a\\\\b\\\"\"  _ ) ; here => always (pair \"a\\\\b\\\"\" _)
once ok|| same-lines|same-order;|empty => once ok, same-lines, same-order, empty
before 1 \"two words\" => before 1 \"two words\"
before(a)(b) => before (a) (b)
never 3|sometimes 3|never => property 1 word at 8
  (never 3) => property 1 word at 2
never 3| never|nothing => property 2 count at 9
never 3 4 => property 2 count at 0
empty 3 => property 2 count at 0
before 1 => property 2 count at 0
same-lines 1 => property 2 count at 0
never 3|  never (pair 1 => text 1 unclosed at 16
never \"a => text 1 unclosed at 6
once ) => text 2 stray at 5
once a+b => text 3 character at 5
";

// What is read of a text, in words.
fn said(rt: &(impl Abort + AllocGlobal), text: &str) -> String {
    let mut words = String::new(rt.alloc());
    match properties(rt.alloc(), text.as_bytes()) {
        Ok(found) => {
            for property in found.iter() {
                if !words.is_empty() {
                    words.push_str(", ").expect(rt, MEMORY);
                }
                let said = format!(in rt.alloc(); "{property}").expect(rt, MEMORY);
                words.push_str(said.as_str()).expect(rt, MEMORY);
            }
        }
        Err(fault) => words = format!(in rt.alloc(); "{fault}").expect(rt, MEMORY),
    }
    words
}

#[test]
fn texts_are_read(rt: HostRuntime) {
    for row in TEXTS.lines() {
        if let Some((text, expected)) = row.split_once(" => ") {
            let mut lines = String::new(rt.alloc());
            for character in text.chars() {
                let shown = if character == '|' { '\n' } else { character };
                lines.push(shown).expect(&rt, MEMORY);
            }
            assert!(rt; said(&rt, lines.as_str()).as_str() == expected, "{row}");
        }
    }
}

// What is read of the patterns of a property, in words.
fn patterns_said(rt: &(impl Abort + AllocGlobal), kind: PropertyKind, text: &str) -> String {
    match property_from(rt.alloc(), kind, text.as_bytes()) {
        Ok(property) => format!(in rt.alloc(); "{property}").expect(rt, MEMORY),
        Err(fault) => format!(in rt.alloc(); "{fault}").expect(rt, MEMORY),
    }
}

// These patterns are read so.
fn are_read(rt: &(impl Abort + AllocGlobal), kind: PropertyKind, text: &str, expected: &str) {
    assert!(rt;
        patterns_said(rt, kind, text).as_str() == expected,
        "{text}"
    );
}

#[test]
fn patterns_are_read(rt: HostRuntime) {
    are_read(&rt, PropertyKind::Never, " (pair 1 _)", "never (pair 1 _)");
    are_read(&rt, PropertyKind::Before, "1 2", "before 1 2");
    are_read(&rt, PropertyKind::Empty, "", "empty");
    are_read(&rt, PropertyKind::Before, "1", "property 2 count at 0");
    are_read(&rt, PropertyKind::Once, "1 )", "text 2 stray at 2");
    let memory = format!(in rt.alloc(); "{}", PropertyFault::Memory).expect(&rt, MEMORY);
    assert!(rt; memory.as_str() == "out of memory", "memory");
}
