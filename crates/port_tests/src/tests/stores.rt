//! Stores in memory, without faults and with listed ones.
use super::Step::{self, Begin, Read, Replace};
use super::{FAILED, NO_MEMORY, follow};
use file_port::{MemoryStore, PortError, SureStore};
use std::alloc::Global;
use std::process::Abort;

/// The files of each store, one of them twice.
const FILES: &[(&str, &[u8])] = &[
    ("a", b"abcdefg"),
    ("b", b"old"),
    ("e", b""),
    ("b", b"new!"),
    ("ab", b"\x00\xff"),
];

fn some_files(rt: &impl Abort, alloc: Global) -> Vec<(String, Vec<u8>)> {
    let mut files = Vec::new(alloc);
    for (name, bytes) in FILES {
        let name = String::from_str(alloc, name).expect(rt, NO_MEMORY);
        let bytes = Vec::from_slice(alloc, bytes).expect(rt, NO_MEMORY);
        files.push((name, bytes)).expect(rt, NO_MEMORY);
    }
    files
}

/// Every way through files without a fault.
const SURE_STEPS: &[Step] = &[
    Read(4, Some(b"")),
    Begin("a", Ok(true)),
    Read(3, Some(b"abc")),
    Read(0, Some(b"")),
    Read(1, Some(b"d")),
    Read(8, Some(b"efg")),
    Read(8, Some(b"")),
    Read(8, Some(b"")),
    Begin("a", Ok(true)),
    Read(2, Some(b"ab")),
    Begin("b", Ok(true)),
    Read(4, Some(b"new!")),
    Read(4, Some(b"")),
    Begin("c", Ok(false)),
    Read(8, Some(b"")),
    Begin("a", Ok(true)),
    Begin("A", Ok(false)),
    Read(8, Some(b"")),
    Begin("e", Ok(true)),
    Read(8, Some(b"")),
    Begin("ab", Ok(true)),
    Read(8, Some(b"\x00\xff")),
    Begin("", Ok(false)),
    Begin("a", Ok(true)),
    Replace("c", b"made", Ok(())),
    Read(4, Some(b"")),
    Begin("c", Ok(true)),
    Read(8, Some(b"made")),
    Replace("a", b"", Ok(())),
    Begin("a", Ok(true)),
    Read(8, Some(b"")),
    Replace("a", b"again", Ok(())),
    Begin("a", Ok(true)),
    Read(8, Some(b"again")),
    Begin("b", Ok(true)),
    Read(8, Some(b"new!")),
];

/// The files after these steps.
const HELD: &[(&str, Option<&[u8]>)] = &[
    ("a", Some(b"again")),
    ("b", Some(b"new!")),
    ("c", Some(b"made")),
    ("e", Some(b"")),
    ("ab", Some(b"\x00\xff")),
    ("", None),
];

#[test]
fn sure_store_answers(rt: HostRuntime) {
    let alloc = rt.alloc();
    let mut store = SureStore::new(some_files(&rt, alloc));
    follow(&rt, alloc, "sure", &mut store, SURE_STEPS);
    for (name, wanted) in HELD {
        assert!(rt; store.file(name) == *wanted, "{name}");
    }
}

/// Lists of failing calls, each with its name and what a store that has it answers.
const FAILING_STEPS: &[(&str, &[u32], &[Step])] = &[
    ("none of the calls", &[0, 99, u32::MAX], SURE_STEPS),
    (
        "the first begin",
        &[1],
        &[
            Begin("a", FAILED),
            Read(8, Some(b"")),
            Begin("a", Ok(true)),
            Read(8, Some(b"abcdefg")),
        ],
    ),
    (
        "the first read",
        &[2],
        &[
            Begin("a", Ok(true)),
            Read(4, None),
            Read(4, Some(b"")),
            Begin("a", Ok(true)),
            Read(4, Some(b"abcd")),
        ],
    ),
    (
        "a later read",
        &[3],
        &[
            Begin("a", Ok(true)),
            Read(4, Some(b"abcd")),
            Read(4, None),
            Read(4, Some(b"")),
        ],
    ),
    (
        "two in a row, one listed twice",
        &[3, 2, 3],
        &[
            Begin("b", Ok(true)),
            Begin("c", FAILED),
            Begin("c", FAILED),
            Begin("c", Ok(false)),
            Read(4, Some(b"")),
        ],
    ),
    (
        "reads of nothing",
        &[1, 2],
        &[Read(4, None), Read(0, None), Read(0, Some(b""))],
    ),
    (
        "a begin in the middle of a read",
        &[2],
        &[Begin("a", Ok(true)), Begin("b", FAILED), Read(4, Some(b""))],
    ),
    (
        "a replace",
        &[2],
        &[
            Begin("b", Ok(true)),
            Replace("b", b"no", Err(PortError::Failed)),
            Read(4, Some(b"")),
            Begin("b", Ok(true)),
            Read(8, Some(b"new!")),
            Replace("b", b"yes", Ok(())),
            Begin("b", Ok(true)),
            Read(8, Some(b"yes")),
        ],
    ),
];

#[test]
fn memory_store_fails_at_listed_calls(rt: HostRuntime) {
    let alloc = rt.alloc();
    for (row, fails, steps) in FAILING_STEPS {
        let fails = Vec::from_slice(alloc, fails).expect(&rt, NO_MEMORY);
        let mut store = MemoryStore::new(some_files(&rt, alloc), fails);
        follow(&rt, alloc, row, &mut store, steps);
        let held = (store.file("b").is_some(), store.file("d").is_some());
        assert!(rt; held == (true, false), "{row}");
    }
}
