//! Small changes of a run and of its tables.

use super::runs::Run;
use super::{Files, NO_MEMORY, felt, files_of, pair, state};
use cpu_rows::Row;
use goldilocks::Pair;
use range_columns::RangeRow;
use std::alloc::Global;
use std::process::Abort;
use table_file::Tables;

/// A small change of a run, or of its tables.
#[derive(Clone, Copy)]
pub enum Change {
    /// Other places for the program's start and its end.
    Places(u32, u32),
    Steps(u32),
    ApFirst(u64),
    ApLast(u64),
    RcMin(u32),
    RcMax(u32),
    /// Range cells from an address on, and how many.
    RangeCells(u64, u32),
    /// One more public cell, the last.
    Shown(u64, u64),
    /// One more public cell, the first.
    ShownFirst(u64, u64),
    /// Another state at a place.
    State(usize, (u64, u64, u64)),
    /// A cell of the memory, in the place of the one that is there.
    With(u64, u64),
    /// No cell of the memory at an address.
    Without(u64),
    /// Another number in a row of the tables, at a column.
    Row(usize, usize, u64),
    /// Another pc in the last state of the tables.
    LastPc(u64),
    /// Another fp there.
    LastFp(u64),
    /// Another sorted pair at a place.
    Sorted(usize, u64, u64),
    /// One more filler of the memory, with its sorted pair at a place.
    Filler(usize, u64, u64),
    /// Another sorted range value at a place.
    Value(usize, u64),
    /// One more range row, with its three values at the end of the sorted ones.
    RangeRow(u64, [u64; 3]),
    NoRows,
}

/// The run of these numbers with these changes, one after another.
pub fn changed(rt: &impl Abort, alloc: Global, run: &Run, changes: &[Change]) -> Files {
    let mut files = files_of(rt, alloc, run);
    for change in changes {
        apply(rt, alloc, &mut files, *change);
    }
    files
}

/// The run, changed.
fn apply(rt: &impl Abort, alloc: Global, files: &mut Files, change: Change) {
    match change {
        Change::Places(start, end) => files.places = (start, end),
        Change::Steps(steps) => files.public.steps = steps,
        Change::ApFirst(ap) => files.public.ap_first = felt(ap),
        Change::ApLast(ap) => files.public.ap_last = felt(ap),
        Change::RcMin(least) => files.public.rc_min = least,
        Change::RcMax(greatest) => files.public.rc_max = greatest,
        Change::RangeCells(begin, count) => {
            files.public.range_begin = felt(begin);
            files.public.range_count = count;
        }
        Change::Shown(addr, value) => push_pair(rt, &mut files.public.cells, addr, value),
        Change::ShownFirst(addr, value) => {
            insert_pair(rt, &mut files.public.cells, 0, addr, value);
        }
        Change::State(place, numbers) => {
            if let Some(there) = files.states.get_mut(place) {
                *there = state(numbers);
            }
        }
        Change::With(addr, value) => {
            files.cells = cells_without(rt, alloc, &files.cells, addr);
            push_pair(rt, &mut files.cells, addr, value);
            files.cells.sort_unstable();
        }
        Change::Without(addr) => files.cells = cells_without(rt, alloc, &files.cells, addr),
        _ => apply_to_tables(rt, &mut files.tables, change),
    }
}

/// One more cell, the last.
fn push_pair(rt: &impl Abort, cells: &mut Vec<Pair>, addr: u64, value: u64) {
    cells.push(pair((addr, value))).expect(rt, NO_MEMORY);
}

/// One more cell at a place, or the last where there are fewer.
fn insert_pair(rt: &impl Abort, cells: &mut Vec<Pair>, place: usize, addr: u64, value: u64) {
    let place = place.min(cells.len());
    cells
        .insert(place, pair((addr, value)))
        .expect(rt, NO_MEMORY);
}

/// The tables, changed.
fn apply_to_tables(rt: &impl Abort, tables: &mut Tables, change: Change) {
    match change {
        Change::Row(place, column, number) => {
            if let Some(row) = tables.rows.get_mut(place) {
                *row = with_number(row, column, number);
            }
        }
        Change::LastPc(pc) => tables.last.pc = felt(pc),
        Change::LastFp(fp) => tables.last.fp = felt(fp),
        Change::Sorted(place, addr, value) => {
            if let Some(sorted) = tables.memory.sorted.get_mut(place) {
                *sorted = pair((addr, value));
            }
        }
        Change::Filler(place, addr, value) => {
            push_pair(rt, &mut tables.memory.fill, addr, value);
            insert_pair(rt, &mut tables.memory.sorted, place, addr, value);
        }
        Change::Value(place, number) => {
            if let Some(value) = tables.small.sorted.get_mut(place) {
                *value = felt(number);
            }
        }
        Change::RangeRow(value, limbs) => {
            let row = range_row(value, limbs);
            tables.range.push(row).expect(rt, NO_MEMORY);
            for limb in limbs {
                let sorted = &mut tables.small.sorted;
                sorted.push(felt(limb)).expect(rt, NO_MEMORY);
            }
        }
        Change::NoRows => {
            tables.rows.clear();
            tables.small.sorted.clear();
        }
        _ => {}
    }
}

/// The cells but the one at an address.
fn cells_without(rt: &impl Abort, alloc: Global, cells: &[Pair], addr: u64) -> Vec<Pair> {
    let mut left = Vec::new(alloc);
    for cell in cells {
        if cell.addr.number != addr {
            left.push(*cell).expect(rt, NO_MEMORY);
        }
    }
    left
}

/// The row with another number in a column.
pub fn with_number(row: &Row, column: usize, number: u64) -> Row {
    let mut values = row.values();
    if let Some(value) = values.get_mut(column) {
        *value = felt(number);
    }
    Row::of_values(&values)
}

/// The range row of these numbers.
fn range_row(value: u64, limbs: [u64; 3]) -> RangeRow {
    RangeRow {
        value: felt(value),
        l0: felt(limbs[0]),
        l1: felt(limbs[1]),
        l2: felt(limbs[2]),
    }
}
