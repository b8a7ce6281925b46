//! Where runs break properties.

use crate::properties::{lines_of, property_of};
use cml_properties::{Finish, Watch, broken};
use std::process::Abort;
use std::rt::HostRuntime;

// The run of these lines breaks the property there.
fn breaks(
    rt: &(impl Abort + AllocGlobal),
    text: &str,
    printed: &str,
    finish: Finish,
    expected: Option<usize>,
) {
    let property = property_of(rt, text);
    let lines = lines_of(rt, printed);
    assert!(rt;
        broken(&property, lines.as_slice(), finish) == expected,
        "{text}: {printed}"
    );
}

#[test]
fn properties_break(rt: HostRuntime) {
    let rt = &rt;
    breaks(rt, "never 3", "1\n2\n4\n", Finish::Emptied, None);
    breaks(rt, "never 3", "1\n3\n3\n", Finish::GoesOn, Some(1));
    breaks(rt, "always 3", "1\n3\n", Finish::Emptied, None);
    breaks(rt, "always 3", "1\n2\n", Finish::Emptied, Some(2));
    breaks(rt, "always 3", "1\n2\n", Finish::HasItems, Some(2));
    breaks(rt, "always 3", "1\n2\n", Finish::GoesOn, None);
    breaks(rt, "once 3", "1\n2\n", Finish::Emptied, None);
    breaks(rt, "once 3", "3\n2\n", Finish::Emptied, None);
    breaks(rt, "once 3", "3\n2\n3\n3\n", Finish::Emptied, Some(2));
    breaks(rt, "before 1 2", "3\n1\n2\n", Finish::Emptied, None);
    breaks(rt, "before 1 2", "3\n2\n1\n", Finish::Emptied, Some(1));
    breaks(rt, "before 1 2", "3\n2\n", Finish::GoesOn, Some(1));
    breaks(rt, "before _ 2", "2\n", Finish::Emptied, None);
    breaks(rt, "empty", "2\n", Finish::Emptied, None);
    breaks(rt, "empty", "2\n", Finish::GoesOn, None);
    breaks(rt, "empty", "2\n", Finish::HasItems, Some(1));
    breaks(rt, "same-lines", "2\n", Finish::HasItems, None);
    breaks(rt, "same-order", "2\n", Finish::HasItems, None);
}

#[test]
fn a_run_is_watched(rt: HostRuntime) {
    let property = property_of(&rt, "once 3");
    let lines = lines_of(&rt, "3\n2\n3\n");
    let mut watch = Watch::new(&property);
    let mut broken_at = None;
    for (index, line) in lines.iter().enumerate() {
        if watch.breaks(line) {
            broken_at = Some(index);
        }
    }
    assert!(rt; broken_at == Some(2), "the third line");
    assert!(rt; !watch.breaks_at_end(Finish::Emptied), "the end");
}
