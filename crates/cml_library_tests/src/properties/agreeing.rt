//! Runs that print alike, and which of several runs break a property.

use crate::making::MEMORY;
use crate::properties::property_of;
use cml_properties::{Finish, Run, agree, breaches};
use std::process::Abort;
use std::rt::HostRuntime;

// Whether two runs that printed these lines agree.
fn has_agreed(
    rt: &(impl Abort + AllocGlobal),
    text: &str,
    these: &[&[u8]],
    those: &[&[u8]],
) -> bool {
    let property = property_of(rt, text);
    agree(rt.alloc(), &property, these, those).expect(rt, MEMORY)
}

#[test]
fn runs_agree(rt: HostRuntime) {
    let first: [&[u8]; 3] = [b"1", b"2", b"1"];
    let turned: [&[u8]; 3] = [b"2", b"1", b"1"];
    let other: [&[u8]; 3] = [b"1", b"2", b"2"];
    let shorter: [&[u8]; 2] = [b"1", b"2"];
    assert!(rt; has_agreed(&rt, "same-lines", &first, &turned), "turned");
    assert!(rt; !has_agreed(&rt, "same-lines", &first, &other), "other");
    assert!(rt; !has_agreed(&rt, "same-lines", &first, &shorter), "shorter");
    assert!(rt; has_agreed(&rt, "same-order", &first, &first), "the same");
    assert!(rt;
        !has_agreed(&rt, "same-order", &first, &turned),
        "turned, in order"
    );
    assert!(rt;
        has_agreed(&rt, "empty", &first, &shorter),
        "another property"
    );
}

// Of three runs these break the property, at these lines: the second prints what the first does in another order, and the third less.
fn break_it(rt: &(impl Abort + AllocGlobal), text: &str, expected: &[(usize, usize)]) {
    let property = property_of(rt, text);
    let runs = [
        Run {
            output: b"1\n2\n",
            finish: Finish::Emptied,
        },
        Run {
            output: b"2\n1\n",
            finish: Finish::Emptied,
        },
        Run {
            output: b"1\n",
            finish: Finish::HasItems,
        },
    ];
    let found = breaches(rt.alloc(), &property, &runs).expect(rt, MEMORY);
    assert!(rt; found.len() == expected.len(), "{text}");
    for (breach, pair) in found.iter().zip(expected) {
        assert!(rt; (breach.run, breach.line) == *pair, "{text}");
    }
}

#[test]
fn runs_break_properties(rt: HostRuntime) {
    let rt = &rt;
    break_it(rt, "never 3", &[]);
    break_it(rt, "never 2", &[(0, 1), (1, 0)]);
    break_it(rt, "always 2", &[(2, 1)]);
    break_it(rt, "before 1 2", &[(1, 0)]);
    break_it(rt, "empty", &[(2, 1)]);
    break_it(rt, "same-lines", &[(2, 1)]);
    break_it(rt, "same-order", &[(1, 2), (2, 1)]);
}
