//! Memory files, and the texts of faults.

use super::{Global, LAST, NO_MEMORY, PRIME, bytes_of, zeros};
use std::process::Abort;
use trace_files::{CellList, FileFault, MEMORY_LIMIT, read_memory, write_memory};

/// Address and value of each cell of a run of four steps.
#[rattlefmt::skip]
const FOUR_STEPS: &[u64] = &[
    1, 0x0407_8001_7fff_7fff, 2, 0, 3, 0x1104_8001_8001_8000, 4, 4, 5, 0x0107_8001_7fff_7fff, 6, 0,
    7, 0x4806_8001_7fff_8000, 8, 25, 9, 0x208b_7fff_7fff_7ffe,
    10, 12, 11, 0, 12, 12, 13, 5, 14, 25,
];

/// Memories that are read: address and value of each cell.
const MEMORIES: &[(&str, &[u64])] = &[
    ("no cells", &[]),
    ("one cell", &[7, 9]),
    ("a run of four steps", FOUR_STEPS),
    (
        "addresses with gaps, and equal values",
        &[0, 5, 2, 5, 1 << 40, 5],
    ),
    ("p - 1", &[LAST - 1, LAST, LAST, LAST]),
    (
        "numbers of eight bytes",
        &[0x0807_0605_0403_0201, 0xff, 0xf807_0605_0403_0201, 0xff00],
    ),
];

/// Files that are no memories: their numbers, how many bytes of these they have, and the fault.
const FAULTS: &[(&str, &[u64], usize, FileFault)] = &[
    ("an address", &[1], 8, FileFault::Length),
    ("a byte less than a cell", &[1, 2], 15, FileFault::Length),
    ("a byte more", &[1, 2, 3], 17, FileFault::Length),
    ("a cell and an address", &[1, 2, 3], 24, FileFault::Length),
    (
        "four steps without the last byte",
        FOUR_STEPS,
        223,
        FileFault::Length,
    ),
    ("p and a byte too few", &[PRIME, 2], 15, FileFault::Length),
    (
        "p as the first address",
        &[PRIME, 2, 3, 4],
        32,
        FileFault::NotField(0),
    ),
    (
        "p as the first value",
        &[1, PRIME, 3, 4],
        32,
        FileFault::NotField(8),
    ),
    (
        "p as the second address",
        &[1, 2, PRIME, 4],
        32,
        FileFault::NotField(16),
    ),
    (
        "p as the second value",
        &[1, 2, 3, PRIME],
        32,
        FileFault::NotField(24),
    ),
    (
        "the first of two",
        &[1, 2, u64::MAX, PRIME],
        32,
        FileFault::NotField(16),
    ),
    ("addresses 2 and 1", &[2, 5, 1, 6], 32, FileFault::Order(16)),
    ("equal addresses", &[2, 5, 2, 5], 32, FileFault::Order(16)),
    (
        "equal addresses at the end",
        &[0, 5, 1, 5, 2, 5, 2, 6],
        64,
        FileFault::Order(48),
    ),
    (
        "the third address falls",
        &[1, 0, 3, 0, 2, 0],
        48,
        FileFault::Order(32),
    ),
    (
        "the first of two falls",
        &[3, 0, 2, 0, 1, 0],
        48,
        FileFault::Order(16),
    ),
    ("0 behind p - 1", &[LAST, 0, 0, 0], 32, FileFault::Order(16)),
    (
        "a value before the order of its entry",
        &[2, 5, 1, PRIME],
        32,
        FileFault::NotField(24),
    ),
    (
        "an order before the entry behind it",
        &[2, 5, 1, 6, PRIME, 7],
        48,
        FileFault::Order(16),
    ),
    (
        "a value before the entry behind it",
        &[2, PRIME, 1, 6],
        32,
        FileFault::NotField(8),
    ),
];

/// Sizes of files of zero bytes, and their faults.
const SIZES: &[(&str, usize, FileFault)] = &[
    ("2^21 cells at 0", MEMORY_LIMIT, FileFault::Order(16)),
    ("a byte more than the limit", 33554433, FileFault::TooMany),
    ("a cell more than the limit", 33554448, FileFault::TooMany),
];

/// The texts of faults.
const TEXTS: &[(FileFault, &str)] = &[
    (FileFault::TooMany, "TooMany"),
    (FileFault::Length, "Length"),
    (FileFault::NotField(48), "NotField 48"),
    (
        FileFault::NotField(u64::MAX),
        "NotField 18446744073709551615",
    ),
    (FileFault::Order(16), "Order 16"),
    (FileFault::Memory, "Memory"),
];

/// Address and value of each cell.
fn numbers_of(rt: &impl Abort, alloc: Global, list: &CellList) -> Vec<u64> {
    let mut numbers = Vec::new(alloc);
    for cell in list.cells() {
        numbers.push(cell.addr.number).expect(rt, NO_MEMORY);
        numbers.push(cell.value.number).expect(rt, NO_MEMORY);
    }
    numbers
}

#[test]
fn cells_are_read_and_written(rt: HostRuntime) {
    let alloc = rt.alloc();
    for (name, numbers) in MEMORIES {
        let bytes = bytes_of(&rt, alloc, numbers, usize::MAX);
        let list = read_memory(alloc, &bytes).expect(&rt, "the memory is read");
        let read = numbers_of(&rt, alloc, &list);
        assert!(rt; read.as_slice() == *numbers, "{name}, read");
        let written = write_memory(alloc, &list).expect(&rt, NO_MEMORY);
        assert!(rt; written == bytes, "{name}, written");
    }
}

/// Reads the bytes, and looks at how many cells they have or at the fault.
fn check(
    rt: &impl Abort,
    alloc: Global,
    name: &str,
    bytes: &[u8],
    wanted: Result<usize, FileFault>,
) {
    let found = read_memory(alloc, bytes).map(|list| list.cells().len());
    assert!(rt; found == wanted, "{name}");
}

#[test]
fn the_first_fault_of_a_memory_is_told(rt: HostRuntime) {
    let alloc = rt.alloc();
    for (name, numbers, size, fault) in FAULTS {
        let bytes = bytes_of(&rt, alloc, numbers, *size);
        check(&rt, alloc, name, &bytes, Err(*fault));
    }
    for (name, size, fault) in SIZES {
        let bytes = zeros(&rt, alloc, *size);
        check(&rt, alloc, name, &bytes, Err(*fault));
    }
}

#[test]
fn faults_are_written_with_their_places(rt: HostRuntime) {
    for (fault, text) in TEXTS {
        let written = fault.to_string(rt.alloc()).expect(&rt, NO_MEMORY);
        assert!(rt; written.as_str() == *text, "{text}");
    }
}
