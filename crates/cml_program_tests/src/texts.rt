//! Beginnings of scripts and of a schedule, and random bytes in the place of scripts and schedules.

use crate::random::RandomTexts;
use crate::run::{ADDED, ADDITION, CANCELLED, COUNTER, Left, Runtime, filled, left_by};
use cml_host::Store;
use std::test::Fail;

// Scripts of which only the whole is a program.
const PROGRAMS: &[&str] = &[ADDITION, CANCELLED, COUNTER];

// The program on these arguments, with the script that adds in the file `A`, and these bytes in the file `F`.
fn run_beside(rt: &impl Runtime, line: &str, bytes: &[u8]) -> Result<Left, Fail> {
    let mut store = filled(rt, &[("A", ADDITION)]);
    assert!(rt; store.save("F", bytes).is_ok(), "save");
    let left = left_by(rt, line, &mut store)?;
    drop(store);
    Ok(left)
}

#[test]
fn beginnings_of_scripts(rt: HostRuntime) -> Result<(), Fail> {
    for program in PROGRAMS {
        for length in 0..program.len() {
            let left = run_beside(&rt, "check F", &program.as_bytes()[..length])?;
            assert!(rt; left.status == 2, "{length}");
            drop(left);
        }
        let left = run_beside(&rt, "check F", program.as_bytes())?;
        assert!(rt; left.status == 0);
        drop(left);
    }
    Ok(())
}

#[test]
fn beginnings_of_a_schedule(rt: HostRuntime) -> Result<(), Fail> {
    let whole = ADDED.as_bytes();
    for length in 0..=whole.len() {
        let left = run_beside(&rt, "replay A F", &whole[..length])?;
        // all that may lack is the last line feed
        if length + 1 < whole.len() {
            assert!(rt; left.status == 3 && left.output.is_empty(), "{length}");
            assert!(rt;
                left.errors.as_slice().starts_with(b"schedule line "),
                "{length}"
            );
        } else {
            assert!(rt; left.status == 0 && left.errors.is_empty(), "{length}");
            assert!(rt; left.output.as_slice() == b"42\nend quiet pending 0\n".as_slice());
        }
        drop(left);
    }
    Ok(())
}

#[test]
fn random_texts(rt: HostRuntime) -> Result<(), Fail> {
    let mut texts = RandomTexts::new(1);
    for _ in 0..10_000 {
        let text = texts.next();
        for line in ["check F", "fmt F"] {
            let left = run_beside(&rt, line, text)?;
            assert!(rt; matches!(left.status, 0 | 2), "{line}");
            drop(left);
        }
    }
    Ok(())
}

#[test]
fn random_scripts_and_schedules(rt: HostRuntime) -> Result<(), Fail> {
    let mut texts = RandomTexts::new(2);
    for _ in 0..10_000 {
        let text = texts.next();
        for (line, status) in [("run F", 2), ("replay A F", 3), ("replay F F", 2)] {
            let left = run_beside(&rt, line, text)?;
            assert!(rt; left.status == status && left.output.is_empty(), "{line}");
            drop(left);
        }
    }
    Ok(())
}
