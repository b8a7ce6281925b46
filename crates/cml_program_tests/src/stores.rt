//! The store in memory, and why a store refuses, in words.

use cml_host::{Reason, Store, StoreFault};
use cml_system::memory::MemoryStore;
use std::process::Abort;
use std::test::Fail;

// A name, a limit, and what is handed over.
const LOADS: &[(&str, usize, &str)] = &[
    ("a", 9, "second"),
    ("a", 2, "sec"),
    ("b", 0, "o"),
    ("b", 5, "other"),
];

#[test]
fn what_was_saved_is_loaded(rt: HostRuntime) -> Result<(), Fail> {
    let alloc = rt.alloc();
    let mut store = MemoryStore::new(alloc);
    for (name, text) in [("a", "first"), ("b", "other"), ("a", "second")] {
        assert!(rt; store.save(name, text.as_bytes()).is_ok(), "save {name}");
    }
    for (name, limit, text) in LOADS {
        let loaded = store.load(alloc, name, *limit);
        assert!(rt;
            matches!(&loaded, Ok(bytes) if bytes.as_slice() == text.as_bytes()),
            "{name} {limit}"
        );
        drop(loaded);
    }
    let missing = store.load(alloc, "c", 9);
    assert!(rt; matches!(&missing, Err(StoreFault::Refused(Some(Reason::NotFound)))));
    drop(missing);
    drop(store);
    Ok(())
}

fn says(rt: &impl Abort, reason: Reason, words: &str) {
    assert!(rt; reason.words() == words);
}

// Each reason that no case has, in the words of the system.
#[test]
fn reasons_in_words(rt: HostRuntime) {
    says(&rt, Reason::Denied, "Permission denied");
    says(&rt, Reason::IsFolder, "Is a directory");
    says(&rt, Reason::NoFolder, "Not a directory");
    says(&rt, Reason::LongName, "File name too long");
    says(&rt, Reason::Loop, "Too many levels of symbolic links");
    says(&rt, Reason::Full, "No space left on device");
    says(&rt, Reason::Quota, "Disk quota exceeded");
    says(&rt, Reason::TooLarge, "File too large");
    says(&rt, Reason::Busy, "Text file busy");
}
