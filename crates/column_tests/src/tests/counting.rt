//! The calls that count where they can, and sort where they can't: both ways come to the same answer.

use super::memory::{check_columns, columns_of, memory};
use super::{Cells, LAST, NO_MEMORY, cells, felts};
use memory_columns::memory_fault;
use range_columns::range_fault;
use sorted_lists::{order_difference, put_in_order};

/// A name, two lists of cells, and the first place where they differ in order.
type Difference = (&'static str, Cells, Cells, Option<usize>);

const DIFFERENCES: &[Difference] = &[
    ("no cells", &[], &[], None),
    ("one cell", &[(1, 5)], &[(1, 5)], None),
    ("one cell and none", &[(1, 5)], &[], Some(0)),
    ("another value of one cell", &[(1, 5)], &[(1, 6)], Some(0)),
    (
        "any order",
        &[(3, 7), (1, 5), (2, 6), (1, 5)],
        &[(1, 5), (1, 5), (2, 6), (3, 7)],
        None,
    ),
    (
        "one cell more",
        &[(2, 6), (1, 5), (2, 6)],
        &[(1, 5), (2, 6)],
        Some(2),
    ),
    ("one cell less", &[(1, 5)], &[(1, 5), (2, 6)], Some(1)),
    (
        "one count exchanged",
        &[(1, 5), (2, 6), (1, 5)],
        &[(1, 5), (2, 6), (2, 6)],
        Some(1),
    ),
    (
        "two values at an address",
        &[(1, 6), (1, 5)],
        &[(1, 5), (1, 6)],
        None,
    ),
    (
        "two values on the left",
        &[(1, 6), (1, 5)],
        &[(1, 5), (1, 5)],
        Some(1),
    ),
    (
        "addresses wrap",
        &[(0, 9), (LAST, 7)],
        &[(LAST, 7), (0, 9)],
        None,
    ),
    (
        "a count exchanged where they wrap",
        &[(0, 9), (LAST, 7), (0, 9)],
        &[(LAST, 7), (LAST, 7), (0, 9)],
        Some(1),
    ),
    (
        "the widest span",
        &[(3, 7), (1, 5), (1, 5)],
        &[(1, 5), (1, 5), (3, 7)],
        None,
    ),
    (
        "a wider span",
        &[(4, 8), (1, 5), (1, 5)],
        &[(1, 5), (1, 5), (4, 8)],
        None,
    ),
    (
        "another value in a wider span",
        &[(4, 9), (1, 5), (1, 5)],
        &[(1, 5), (1, 5), (4, 8)],
        Some(2),
    ),
    (
        "the right list descends",
        &[(1, 5), (2, 6)],
        &[(2, 6), (1, 5)],
        None,
    ),
];

#[test]
fn cells_are_compared_in_order(rt: HostRuntime) {
    for (name, left, right, place) in DIFFERENCES {
        let left = cells(&rt, rt.alloc(), left);
        let right = cells(&rt, rt.alloc(), right);
        let found = order_difference(rt.alloc(), left, &right).expect(&rt, NO_MEMORY);
        assert!(rt; found == *place, "{name}");
    }
}

/// A name, the accesses, the sorted pairs, and the row at which M3 fails.
type Memory = (&'static str, Cells, Cells, Option<u64>);

const MEMORIES: &[Memory] = &[
    ("one access", &[(1, 5)], &[(1, 5)], None),
    ("another value", &[(1, 6)], &[(1, 5)], Some(0)),
    (
        "any order",
        &[(3, 7), (1, 5), (2, 6), (1, 5)],
        &[(1, 5), (1, 5), (2, 6), (3, 7)],
        None,
    ),
    (
        "one access more",
        &[(2, 6), (1, 5), (2, 6)],
        &[(1, 5), (2, 6)],
        Some(2),
    ),
    (
        "one count exchanged",
        &[(1, 5), (2, 6), (1, 5)],
        &[(1, 5), (2, 6), (2, 6)],
        Some(1),
    ),
    (
        "two values at an address",
        &[(1, 6), (1, 5)],
        &[(1, 5), (1, 5)],
        Some(1),
    ),
    (
        "an address behind the last",
        &[(9, 6), (1, 5)],
        &[(1, 5), (2, 6)],
        Some(1),
    ),
    (
        "addresses wrap",
        &[(1, 8), (0, 9), (LAST, 7), (0, 9)],
        &[(LAST, 7), (0, 9), (0, 9), (1, 8)],
        None,
    ),
    (
        "a count exchanged where they wrap",
        &[(0, 9), (LAST, 7), (0, 9)],
        &[(LAST, 7), (LAST, 7), (0, 9)],
        Some(1),
    ),
];

#[test]
fn accesses_are_compared_in_order(rt: HostRuntime) {
    for (name, accesses, sorted, row) in MEMORIES {
        let accesses = cells(&rt, rt.alloc(), accesses);
        let sorted = cells(&rt, rt.alloc(), sorted);
        let found = memory_fault(rt.alloc(), accesses, &sorted).expect(&rt, NO_MEMORY);
        let fault = row.map(|row| (3, row));
        assert!(rt; found.map(|f| (f.number, f.row)) == fault, "{name}");
    }
}

/// A name, the values, the sorted ones from the least to the greatest, these two, and the row at which Q4 fails.
type Range = (
    &'static str,
    &'static [u64],
    &'static [u64],
    u32,
    u32,
    Option<u64>,
);

const RANGES: &[Range] = &[
    ("no values", &[], &[5], 5, 5, Some(0)),
    ("one value", &[5], &[5], 5, 5, None),
    ("any order", &[7, 5, 6, 5], &[5, 5, 6, 7], 5, 7, None),
    (
        "the greatest value twice",
        &[65535, 65535],
        &[65535, 65535],
        65535,
        65535,
        None,
    ),
    ("one value more", &[6, 5, 6], &[5, 6], 5, 6, Some(2)),
    ("one count exchanged", &[5, 6, 5], &[5, 6, 6], 5, 6, Some(1)),
    ("a value above", &[9, 5], &[5, 6], 5, 6, Some(1)),
    ("a value below", &[4, 5], &[5, 6], 5, 6, Some(0)),
];

#[test]
fn values_are_compared_in_order(rt: HostRuntime) {
    for (name, values, sorted, min, max, row) in RANGES {
        let values = felts(&rt, rt.alloc(), values);
        let sorted = felts(&rt, rt.alloc(), sorted);
        assert!(rt; !sorted.is_empty() && *min <= *max && *max < 65536);
        let found = range_fault(rt.alloc(), values, &sorted, *min, *max).expect(&rt, NO_MEMORY);
        let fault = row.map(|row| (4, row));
        assert!(rt; found.map(|f| (f.number, f.row)) == fault, "{name}");
    }
}

/// A name, the accesses, the fillers between them, and all of them in order.
type Columns = (&'static str, Cells, Cells, Cells);

const COLUMNS: &[Columns] = &[
    ("one access", &[(7, 1)], &[], &[(7, 1)]),
    (
        "any order",
        &[(2, 6), (1, 5), (2, 6)],
        &[],
        &[(1, 5), (2, 6), (2, 6)],
    ),
    (
        "two values at an address",
        &[(1, 6), (2, 7), (1, 5)],
        &[],
        &[(1, 5), (1, 6), (2, 7)],
    ),
    (
        "the widest span",
        &[(3, 7), (1, 5), (1, 5)],
        &[(2, 0)],
        &[(1, 5), (1, 5), (2, 0), (3, 7)],
    ),
    (
        "a wider span",
        &[(4, 8), (1, 5), (1, 5)],
        &[(2, 0), (3, 0)],
        &[(1, 5), (1, 5), (2, 0), (3, 0), (4, 8)],
    ),
    (
        "up to the last address",
        &[(LAST, 7), (LAST - 1, 6)],
        &[],
        &[(LAST - 1, 6), (LAST, 7)],
    ),
    (
        "in order already",
        &[(1, 5), (2, 6), (2, 6), (3, 7)],
        &[],
        &[(1, 5), (2, 6), (2, 6), (3, 7)],
    ),
    (
        "in order already, with a gap",
        &[(1, 5), (3, 7), (5, 9)],
        &[(2, 0), (4, 0)],
        &[(1, 5), (2, 0), (3, 7), (4, 0), (5, 9)],
    ),
    (
        "in order but for the last item",
        &[(2, 6), (3, 7), (4, 8), (1, 5)],
        &[],
        &[(1, 5), (2, 6), (3, 7), (4, 8)],
    ),
    (
        "in order but for the value of the last item",
        &[(1, 5), (2, 7), (2, 6)],
        &[],
        &[(1, 5), (2, 6), (2, 7)],
    ),
    (
        "in order but for the first item",
        &[(4, 8), (1, 5), (2, 6), (3, 7)],
        &[],
        &[(1, 5), (2, 6), (3, 7), (4, 8)],
    ),
    (
        "equal items",
        &[(5, 3), (5, 3), (5, 3)],
        &[],
        &[(5, 3), (5, 3), (5, 3)],
    ),
];

#[test]
fn accesses_are_put_in_order(rt: HostRuntime) {
    let nothing = memory(&rt, rt.alloc(), &[]);
    for (name, accesses, fill, sorted) in COLUMNS {
        let columns = columns_of(&rt, rt.alloc(), accesses, &nothing);
        check_columns(&rt, rt.alloc(), name, &columns, fill, sorted);
    }
}

#[test]
fn no_cells_are_put_in_order(rt: HostRuntime) {
    let none = cells(&rt, rt.alloc(), &[]);
    assert!(rt; put_in_order(rt.alloc(), none).is_empty());
}
