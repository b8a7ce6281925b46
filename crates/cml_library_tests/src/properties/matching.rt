//! Which lines match a pattern.

use crate::making::MEMORY;
use crate::properties::property_of;
use cml_properties::{Finish, Line, broken};
use std::process::Abort;
use std::rt::HostRuntime;

// A pattern, a line, and whether the line matches.
const MATCHES: &str = "
_ => anything at all, (as it stands => yes
_ =>  => yes
ok => ok => yes
ok => oka => no
\"ok\" => ok => yes
\"ok\" => \"ok\" => no
\"got it\" => got it => yes
\"got it\" => got  it => no
3 => 3 => yes
3 => 03 => yes
3 => 4 => no
-3 => 3 => no
() => () => yes
() => _ => no
(pair \"violated\" _) => (pair \"violated\" 3) => yes
(pair \"violated\" _) => (pair  \"violated\"  (pair 1 2)) => yes
(pair \"violated\" _) => (pair \"violated\") => no
(pair \"violated\" _) => (pair \"violated\" 3 4) => no
(pair \"violated\" _) => (pair violated 3) => no
(pair \"violated\" _) => (pair \"violated\" 3) 4 => no
(pair (pair _ 2) _) => (pair (pair 1 2) 3) => yes
(pair (pair _ 2) _) => (pair (pair 1 3) 3) => no
(thread _) => (thread 4) => yes
(_ 4) => (chan 4) => yes
event => event => yes
_a => _a => yes
_a => b => no
\"thread 1 fault kind\" => thread 1 fault kind => yes
";

// Whether the line matches, asked by a property.
fn matches(rt: &(impl Abort + AllocGlobal), pattern: &str, line: &str) -> bool {
    let text = format!(in rt.alloc(); "never {pattern}").expect(rt, MEMORY);
    let property = property_of(rt, text.as_str());
    let printed = Line::new(rt.alloc(), line.as_bytes()).expect(rt, MEMORY);
    broken(&property, &[printed], Finish::GoesOn).is_some()
}

#[test]
fn lines_match(rt: HostRuntime) {
    for row in MATCHES.lines() {
        if let Some((pattern, rest)) = row.split_once(" => ") {
            let (line, answer) = rest.split_once(" => ").expect(&rt, row);
            assert!(rt; matches(&rt, pattern, line) == (answer == "yes"), "{row}");
        }
    }
}
