//! Trace files.

use super::{Global, LAST, NO_MEMORY, PRIME, bytes_of, zeros};
use casm_word::State;
use std::process::Abort;
use trace_files::{FileFault, TRACE_LIMIT, read_trace, write_trace};

/// ap, fp and pc of each state of a run of four steps.
const FOUR_STEPS: &[u64] = &[12, 12, 1, 12, 12, 3, 14, 14, 7, 15, 14, 9, 15, 12, 5];

/// Its first state in the file.
#[rattlefmt::skip]
const FIRST_STATE: &[u8] = &[
    0x0c, 0, 0, 0, 0, 0, 0, 0, 0x0c, 0, 0, 0, 0, 0, 0, 0, 0x01, 0, 0, 0, 0, 0, 0, 0,
];

/// The rest of a state, whose numbers are p and more.
const HIGH: &[u8] = &[255; 23];

/// Traces that are read: ap, fp and pc of each state.
const TRACES: &[(&str, &[u64])] = &[
    ("a run of four steps", FOUR_STEPS),
    ("two states", &[1, 2, 3, 4, 5, 6]),
    ("p - 1 in each place", &[LAST, LAST, LAST, LAST, LAST, LAST]),
    (
        "numbers of eight bytes",
        &[
            0x0807_0605_0403_0201,
            0xff,
            0xff00,
            0,
            1 << 63,
            0xffff_fffe_ffff_ffff,
        ],
    ),
];

/// Files that are no traces: their numbers, how many bytes of these they have, and the fault.
const FAULTS: &[(&str, &[u64], usize, FileFault)] = &[
    ("no bytes", &[], 0, FileFault::Length),
    ("one state", &[1, 2, 3], 24, FileFault::Length),
    (
        "a byte less than two states",
        &[1, 2, 3, 4, 5, 6],
        47,
        FileFault::Length,
    ),
    ("a byte more", &[1, 2, 3, 4, 5, 6, 7], 49, FileFault::Length),
    (
        "two states and a number",
        &[1, 2, 3, 4, 5, 6, 7],
        56,
        FileFault::Length,
    ),
    (
        "four steps without the last byte",
        FOUR_STEPS,
        119,
        FileFault::Length,
    ),
    ("p in one state", &[PRIME, 2, 3], 24, FileFault::Length),
    (
        "p and a byte too few",
        &[PRIME, 2, 3, 4, 5, 6],
        47,
        FileFault::Length,
    ),
    (
        "p as the first ap",
        &[PRIME, 2, 3, 4, 5, 6],
        48,
        FileFault::NotField(0),
    ),
    (
        "p as the first fp",
        &[1, PRIME, 3, 4, 5, 6],
        48,
        FileFault::NotField(8),
    ),
    (
        "p as the first pc",
        &[1, 2, PRIME, 4, 5, 6],
        48,
        FileFault::NotField(16),
    ),
    (
        "p as the last ap",
        &[1, 2, 3, PRIME, 5, 6],
        48,
        FileFault::NotField(24),
    ),
    (
        "p as the last fp",
        &[1, 2, 3, 4, PRIME, 6],
        48,
        FileFault::NotField(32),
    ),
    (
        "p as the last pc",
        &[1, 2, 3, 4, 5, PRIME],
        48,
        FileFault::NotField(40),
    ),
    (
        "the first of two",
        &[1, 2, 3, 4, u64::MAX, PRIME],
        48,
        FileFault::NotField(32),
    ),
    (
        "p + 1",
        &[LAST, LAST, PRIME + 1, 0, 0, 0],
        48,
        FileFault::NotField(16),
    ),
];

/// ap, fp and pc of each state.
fn numbers_of(rt: &impl Abort, alloc: Global, states: &[State]) -> Vec<u64> {
    let mut numbers = Vec::new(alloc);
    for state in states {
        numbers.push(state.ap.number).expect(rt, NO_MEMORY);
        numbers.push(state.fp.number).expect(rt, NO_MEMORY);
        numbers.push(state.pc.number).expect(rt, NO_MEMORY);
    }
    numbers
}

#[test]
fn states_are_read_and_written(rt: HostRuntime) {
    let alloc = rt.alloc();
    for (name, numbers) in TRACES {
        let bytes = bytes_of(&rt, alloc, numbers, usize::MAX);
        let states = read_trace(alloc, &bytes).expect(&rt, "the trace is read");
        let read = numbers_of(&rt, alloc, &states);
        assert!(rt; read.as_slice() == *numbers, "{name}, read");
        assert!(rt;
            2 <= states.len() && states.len() <= 1048577,
            "{name}, length"
        );
        let written = write_trace(alloc, &states).expect(&rt, NO_MEMORY);
        assert!(rt; written == bytes, "{name}, written");
    }
    let bytes = bytes_of(&rt, alloc, FOUR_STEPS, usize::MAX);
    assert!(rt; bytes.len() == 120);
    assert!(rt; bytes.get(..24) == Some(FIRST_STATE));
}

/// Reads the bytes, and looks at how many states they have or at the fault.
fn check(
    rt: &impl Abort,
    alloc: Global,
    name: &str,
    bytes: &[u8],
    wanted: Result<usize, FileFault>,
) {
    let found = read_trace(alloc, bytes).map(|states| states.len());
    assert!(rt; found == wanted, "{name}");
}

#[test]
fn the_first_fault_of_a_trace_is_told(rt: HostRuntime) {
    let alloc = rt.alloc();
    for (name, numbers, size, fault) in FAULTS {
        let bytes = bytes_of(&rt, alloc, numbers, *size);
        check(&rt, alloc, name, &bytes, Err(*fault));
    }
    let mut bytes = zeros(&rt, alloc, TRACE_LIMIT);
    check(&rt, alloc, "2^20 steps", &bytes, Ok(1048577));
    bytes.push(0).expect(&rt, NO_MEMORY);
    let too_many = Err(FileFault::TooMany);
    check(&rt, alloc, "a byte more than the limit", &bytes, too_many);
    bytes.extend_from_slice(HIGH).expect(&rt, NO_MEMORY);
    let name = "a state more, with p and more";
    check(&rt, alloc, name, &bytes, too_many);
}
