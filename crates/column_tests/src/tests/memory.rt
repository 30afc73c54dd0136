//! The columns of the memory.

use super::{Cells, LAST, NO_MEMORY, cells, felt};
use memory_columns::{FILLER_LIMIT, MemoryColumns, SortFault, memory_fault, sort_columns};
use std::alloc::Global;
use std::process::Abort;

/// A memory with these cells.
pub fn memory(rt: &impl Abort, alloc: Global, numbers: &[(u64, u64)]) -> MemoryColumns {
    MemoryColumns {
        fill: Vec::new(alloc),
        sorted: cells(rt, alloc, numbers),
    }
}

/// A name, the accesses, the sorted pairs, and the number and row of the first failure.
type Fault = (&'static str, Cells, Cells, Option<(u8, u64)>);

const FAULTS: &[Fault] = &[
    (
        "addresses wrap past p - 1",
        &[(LAST, 7), (0, 9)],
        &[(LAST, 7), (0, 9)],
        None,
    ),
    ("nothing", &[], &[], None),
    (
        "accesses in another order",
        &[(2, 6), (1, 5)],
        &[(1, 5), (2, 6)],
        None,
    ),
    (
        "accesses twice",
        &[(1, 5), (2, 6), (1, 5)],
        &[(1, 5), (1, 5), (2, 6)],
        None,
    ),
    (
        "two values",
        &[(1, 5), (1, 6)],
        &[(1, 5), (1, 6)],
        Some((2, 0)),
    ),
    (
        "one access too many",
        &[(1, 5), (1, 5)],
        &[(1, 5)],
        Some((3, 1)),
    ),
    (
        "addresses descend",
        &[(1, 5), (2, 6)],
        &[(2, 6), (1, 5)],
        Some((1, 0)),
    ),
    (
        "a jump by 2",
        &[(1, 5), (3, 6)],
        &[(1, 5), (3, 6)],
        Some((1, 0)),
    ),
    (
        "a jump by 2 past p - 1",
        &[],
        &[(LAST, 7), (1, 9)],
        Some((1, 0)),
    ),
    (
        "another value in the middle",
        &[(1, 5), (2, 6), (2, 7), (3, 8)],
        &[(1, 5), (2, 6), (2, 7), (3, 8)],
        Some((2, 1)),
    ),
    (
        "another value at the end",
        &[],
        &[(1, 5), (2, 6), (2, 7)],
        Some((2, 1)),
    ),
    (
        "an address is left and comes back",
        &[(1, 5), (2, 6), (1, 5)],
        &[(1, 5), (2, 6), (1, 5)],
        Some((1, 1)),
    ),
    (
        "the lower row first",
        &[],
        &[(1, 5), (1, 6), (3, 7)],
        Some((2, 0)),
    ),
    (
        "other values",
        &[(1, 5), (2, 6)],
        &[(1, 5), (2, 7)],
        Some((3, 1)),
    ),
    (
        "other numbers of the same members",
        &[(1, 5), (1, 5), (2, 6)],
        &[(1, 5), (2, 6), (2, 6)],
        Some((3, 1)),
    ),
    ("no accesses", &[], &[(1, 5)], Some((3, 0))),
    ("no pairs", &[(1, 5)], &[], Some((3, 0))),
    (
        "other values after a wrap",
        &[(LAST, 7), (0, 9)],
        &[(LAST, 7), (0, 8)],
        Some((3, 0)),
    ),
];

#[test]
fn the_first_failure_of_the_memory(rt: HostRuntime) {
    for (name, accesses, sorted, fault) in FAULTS {
        let accesses = cells(&rt, rt.alloc(), accesses);
        let sorted = cells(&rt, rt.alloc(), sorted);
        let found = memory_fault(rt.alloc(), accesses, &sorted).expect(&rt, NO_MEMORY);
        assert!(rt; found.map(|f| (f.number, f.row)) == *fault, "{name}");
    }
}

/// What a memory holds from which fillers are taken.
const HELD: Cells = &[(1, 5), (2, 6), (4, 8)];

/// A name, accesses, their fillers, and all of them in order.
const SORTED: &[(&str, Cells, Cells, Cells)] = &[
    (
        "two cells",
        &[(1, 5), (4, 8)],
        &[(2, 6), (3, 0)],
        &[(1, 5), (2, 6), (3, 0), (4, 8)],
    ),
    (
        "a cell twice",
        &[(4, 8), (1, 5), (4, 8)],
        &[(2, 6), (3, 0)],
        &[(1, 5), (2, 6), (3, 0), (4, 8), (4, 8)],
    ),
    ("one cell", &[(7, 1)], &[], &[(7, 1)]),
    ("neighbours", &[(2, 6), (1, 5)], &[], &[(1, 5), (2, 6)]),
    (
        "exactly one filler",
        &[(3, 9), (1, 5)],
        &[(2, 6)],
        &[(1, 5), (2, 6), (3, 9)],
    ),
];

/// The columns of these accesses, with fillers from what is held.
pub fn columns_of(
    rt: &impl Abort,
    alloc: Global,
    accesses: Cells,
    held: &MemoryColumns,
) -> MemoryColumns {
    let accesses = cells(rt, alloc, accesses);
    assert!(rt; !accesses.is_empty());
    sort_columns(alloc, accesses, held).expect(rt, "the columns are made")
}

/// Compares the fillers and the sorted pairs with these cells.
pub fn check_columns(
    rt: &impl Abort,
    alloc: Global,
    name: &str,
    columns: &MemoryColumns,
    fill: Cells,
    sorted: Cells,
) {
    assert!(rt; columns.fill == cells(rt, alloc, fill), "{name}, fillers");
    assert!(rt;
        columns.sorted == cells(rt, alloc, sorted),
        "{name}, sorted"
    );
}

#[test]
fn fillers_and_sorted_pairs(rt: HostRuntime) {
    let alloc = rt.alloc();
    let held = memory(&rt, alloc, HELD);
    for (name, numbers, fill, sorted) in SORTED {
        let columns = columns_of(&rt, alloc, numbers, &held);
        check_columns(&rt, alloc, name, &columns, fill, sorted);
        let mut all = cells(&rt, alloc, numbers);
        all.extend_from_slice(&columns.fill).expect(&rt, NO_MEMORY);
        let fault = memory_fault(alloc, all, &columns.sorted).expect(&rt, NO_MEMORY);
        assert!(rt; fault.is_none(), "{name}");
    }
}

/// Cells with exactly as many addresses between them as there may be fillers.
const WIDEST: Cells = &[(0, 0), (2097153, 0)];

/// Cells with one address more between them.
const TOO_WIDE: Cells = &[(2097154, 0), (0, 0)];

#[test]
fn the_most_fillers(rt: HostRuntime) {
    let held = memory(&rt, rt.alloc(), HELD);
    let columns = columns_of(&rt, rt.alloc(), WIDEST, &held);
    assert!(rt; columns.fill.len() == 2097152);
    assert!(rt; FILLER_LIMIT == 2097152);
    let too_wide = cells(&rt, rt.alloc(), TOO_WIDE);
    assert!(rt; !too_wide.is_empty());
    let fault = sort_columns(rt.alloc(), too_wide, &held).err();
    let (least, greatest) = (felt(0), felt(2097154));
    assert!(rt; fault == Some(SortFault::TooWide { least, greatest }));
}

/// Cells of which two lie at one address.
const TWICE: Cells = &[(LAST, 7), (0, 9), (0, 8)];

/// An address, and the value at its first place.
const READS: &[(u64, Option<u64>)] = &[(LAST, Some(7)), (0, Some(9)), (1, None), (5, None)];

#[test]
fn the_first_place_is_read(rt: HostRuntime) {
    let columns = memory(&rt, rt.alloc(), TWICE);
    for (address, value) in READS {
        let found = columns.read(felt(*address));
        assert!(rt; found.map(|v| v.number) == *value, "{address}");
    }
}
