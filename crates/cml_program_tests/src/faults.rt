//! Streams that fail, and a store that is closed: what was written before it stands, and nothing comes after but what went wrong.

use crate::run::{ADDED, ADDITION, ALL, Good, Left, Runtime, filled, left_with};
use cml_host::Store;
use std::process::Abort;
use std::test::Fail;

// Traces: a value goes over a channel, and messages come to ports.
const TRACES: &[&str] = &[
    "spawn\nspawn\nchan\nsync 0 (send 0 5)\nsync 1 (recv 0)\nrows\ncommit 0 0 1 0\nrows\n",
    "spawn\nmchan\nport 0\nmulticast 0 1\nmulticast 0 2\ncopy 0\nport 0\nsync 0 (portrecv 0)\ncommit 0 0\nsync 0 (portrecv 1)\ncommit 0 0\nsync 0 (portrecv 0)\ncommit 0 0\nsync 0 (portrecv 1)\ncommit 0 0\nsync 0 (portrecv 2)\nrows\n",
];

const FILES: &[(&str, &str)] = &[
    ("A", ADDITION),
    ("F", "(fn main () (print 007))"),
    ("R", ADDED),
];

// Arguments over these files, a line for each run.
const RUNS: &str = "--help
check F
fmt F
run F
run A --watch 4 --record S
run A --watch 4 --record S --steps 6
replay A R --watch 4
explain A R --from 7
";

const CANNOT_WRITE: &str = "cannot write output\n";

// What the program leaves on these arguments and this input, over streams that may fail and a store that may be closed. Whether something
// is saved is known.
fn leaves(
    rt: &impl Runtime,
    asked: (&str, &str),
    good: Good,
    is_closed: bool,
    is_saved: bool,
) -> Result<Left, Fail> {
    let mut store = filled(rt, FILES);
    if is_closed {
        store.close();
    }
    let left = left_with(rt, asked, good, &mut store)?;
    let saved = store.load(rt.alloc(), "S", 1_000_000);
    assert!(rt; saved.is_ok() == is_saved);
    drop(saved);
    drop(store);
    Ok(left)
}

// It left the first bytes of the output, the first bytes of the errors and after them this line, with status 1.
fn is_cut(rt: &impl Abort, left: &Left, output: &[u8], errors: &[u8], line: &str) {
    let length = errors.len();
    assert!(rt; left.output.as_slice() == output);
    assert!(rt; left.errors.len() == length + line.len());
    assert!(rt; &left.errors[..length] == errors && &left.errors[length..] == line.as_bytes());
    assert!(rt; left.status == 1);
}

#[test]
fn each_read_fails(rt: HostRuntime) -> Result<(), Fail> {
    for &input in TRACES {
        for reads in 0..=input.len() {
            let good = Good { reads, ..ALL };
            let left = leaves(&rt, ("trace", input), good, false, false)?;
            is_cut(&rt, &left, b"", b"", "cannot read input\n");
            drop(left);
        }
    }
    Ok(())
}

// Each write of the output fails in turn, or takes nothing.
fn outputs_fail(
    rt: &impl Runtime,
    asked: (&str, &str),
    whole: &Left,
    takes_nothing: bool,
) -> Result<(), Fail> {
    let text = whole.output.as_slice();
    for output in 0..text.len() {
        let good = Good {
            output,
            takes_nothing,
            ..ALL
        };
        let left = leaves(rt, asked, good, false, false)?;
        is_cut(
            rt,
            &left,
            &text[..output],
            whole.errors.as_slice(),
            CANNOT_WRITE,
        );
        drop(left);
    }
    Ok(())
}

// Each write of the errors fails in turn, or takes nothing.
fn errors_fail(
    rt: &impl Runtime,
    asked: (&str, &str),
    whole: &Left,
    takes_nothing: bool,
) -> Result<(), Fail> {
    let text = whole.errors.as_slice();
    for errors in 0..text.len() {
        let good = Good {
            errors,
            takes_nothing,
            ..ALL
        };
        let left = leaves(rt, asked, good, false, false)?;
        is_cut(rt, &left, b"", &text[..errors], CANNOT_WRITE);
        drop(left);
    }
    Ok(())
}

// Each write of the run fails in turn; as many good writes as it has are enough.
fn writes_fail(rt: &impl Runtime, line: &str, input: &str) -> Result<(), Fail> {
    let is_saved = line.contains("--record");
    let whole = leaves(rt, (line, input), ALL, false, is_saved)?;
    for takes_nothing in [false, true] {
        outputs_fail(rt, (line, input), &whole, takes_nothing)?;
        errors_fail(rt, (line, input), &whole, takes_nothing)?;
    }
    let good = Good {
        output: whole.output.len(),
        errors: whole.errors.len(),
        ..ALL
    };
    let left = leaves(rt, (line, input), good, false, is_saved)?;
    assert!(rt; left.output.as_slice() == whole.output.as_slice() && left.status == whole.status);
    assert!(rt; left.errors.as_slice() == whole.errors.as_slice());
    drop(left);
    drop(whole);
    Ok(())
}

#[test]
fn each_write_fails(rt: HostRuntime) -> Result<(), Fail> {
    for &input in TRACES {
        writes_fail(&rt, "trace", input)?;
    }
    for line in RUNS.lines() {
        writes_fail(&rt, line, "")?;
    }
    Ok(())
}

#[test]
fn a_record_is_refused(rt: HostRuntime) -> Result<(), Fail> {
    let asked = ("run A --watch 4 --record S", "");
    let whole = leaves(&rt, asked, ALL, false, true)?;
    let (output, errors) = (whole.output.as_slice(), whole.errors.as_slice());
    let left = leaves(&rt, asked, ALL, true, false)?;
    is_cut(&rt, &left, output, errors, "cannot write S\n");
    drop(left);
    // a write of that line fails too, and the status is the same
    let good = Good {
        errors: errors.len().saturating_add(3),
        ..ALL
    };
    let left = leaves(&rt, asked, good, true, false)?;
    is_cut(&rt, &left, output, errors, "can");
    drop(left);
    drop(whole);
    Ok(())
}

// With workers the reports are on their way before the output is known: which of them come first is open, and what is told of a write that
// fails is not.
#[test]
fn each_write_beside_workers_fails(rt: HostRuntime) -> Result<(), Fail> {
    let asked = ("run A --workers 4 --watch 1 --record S", "");
    for errors in 0..60usize {
        let left = leaves(&rt, asked, Good { errors, ..ALL }, false, false)?;
        assert!(rt; left.output.is_empty() && left.status == 1);
        assert!(rt; left.errors.ends_with(CANNOT_WRITE.as_bytes()));
        assert!(rt; left.errors.len() == errors + CANNOT_WRITE.len());
        drop(left);
    }
    let text = b"42\nend quiet pending 0\n".as_slice();
    for output in 0..text.len() {
        let left = leaves(&rt, asked, Good { output, ..ALL }, false, false)?;
        assert!(rt; left.output.as_slice() == &text[..output] && left.status == 1);
        assert!(rt; left.errors.ends_with(CANNOT_WRITE.as_bytes()));
        drop(left);
    }
    Ok(())
}
