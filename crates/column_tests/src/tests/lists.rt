//! The lists of accesses and of small values.

use super::{Cells, LAST, NO_MEMORY, cells, felt, felts};
use access_lists::{Accesses, SmallValues};
use cpu_rows::Row;
use goldilocks::{Felt, Pair};
use range_columns::RangeRow;
use std::alloc::Global;
use std::process::Abort;

/// The row whose values are `first` and the 32 numbers after it.
fn row(first: u64) -> Row {
    let mut felts = [Felt::ZERO; 33];
    for (place, value) in felts.iter_mut().enumerate() {
        *value = felt(first).add(felt(place as u64));
    }
    Row::of_values(&felts)
}

/// A range row with three different limbs.
fn range_row(value: u64, l0: u64, l1: u64, l2: u64) -> RangeRow {
    RangeRow {
        value: felt(value),
        l0: felt(l0),
        l1: felt(l1),
        l2: felt(l2),
    }
}

/// The four cells of the row from 100 and of the row from 200: columns 0 and 3, 23 and 26, 24 and 27, 25 and 28.
/// Then come two range cells from p - 1 on, three words, two public cells and two fillers.
const ACCESSES: Cells = &[
    (100, 103),
    (123, 126),
    (124, 127),
    (125, 128),
    (200, 203),
    (223, 226),
    (224, 227),
    (225, 228),
    (LAST, 40),
    (0, 50),
    (1, 61),
    (2, 62),
    (3, 63),
    (7, 70),
    (9, 90),
    (4, 44),
    (5, 0),
];

#[test]
fn accesses_part_by_part(rt: HostRuntime) {
    let rows = [row(100), row(200)];
    let range_rows = [range_row(40, 1, 2, 3), range_row(50, 4, 5, 6)];
    let words = felts(&rt, rt.alloc(), &[61, 62, 63]);
    let public_cells = cells(&rt, rt.alloc(), &[(7, 70), (9, 90)]);
    let fillers = cells(&rt, rt.alloc(), &[(4, 44), (5, 0)]);
    let all = Accesses {
        rows: &rows,
        range_begin: felt(LAST),
        range_rows: &range_rows,
        words: &words,
        public_cells: &public_cells,
        fillers: &fillers,
    };
    check_accesses(&rt, rt.alloc(), &all, ACCESSES);
    let none: &[Pair] = &[];
    let words_alone = Accesses {
        rows: &[],
        range_begin: felt(7),
        range_rows: &[],
        words: &words,
        public_cells: none,
        fillers: none,
    };
    check_accesses(&rt, rt.alloc(), &words_alone, WORDS);
}

/// The three words alone.
const WORDS: Cells = &[(1, 61), (2, 62), (3, 63)];

/// Compares the list of accesses with these cells.
fn check_accesses(rt: &impl Abort, alloc: Global, accesses: &Accesses, wanted: Cells) {
    let found = accesses.to_vec(alloc).expect(rt, NO_MEMORY);
    assert!(rt; found == cells(rt, alloc, wanted), "{wanted:?}");
}

/// The offsets of the row from 100 and of the row from 200, which are columns 20 to 22. Then come the limbs of two range
/// cells, and two fillers.
const SMALL_VALUES: &[u64] = &[120, 121, 122, 220, 221, 222, 1, 2, 3, 4, 5, 6, 11, 12];

#[test]
fn small_values_part_by_part(rt: HostRuntime) {
    let rows = [row(100), row(200)];
    let range_rows = [range_row(40, 1, 2, 3), range_row(50, 4, 5, 6)];
    let fillers = felts(&rt, rt.alloc(), &[11, 12]);
    let all = SmallValues {
        rows: &rows,
        range_rows: &range_rows,
        fillers: &fillers,
    };
    let found = all.to_vec(rt.alloc()).expect(&rt, NO_MEMORY);
    assert!(rt; found == felts(&rt, rt.alloc(), SMALL_VALUES));
}
