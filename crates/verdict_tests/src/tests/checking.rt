//! Expected verdicts: tables from outside, and the first constraint that fails after small changes.

ghost use Rattle.std.specs.Prelude.{◌≡◌, IsTrue};
ghost use Rattle.table_file.specs.Tables.{contents, AreValid};

use super::changes::Change::{
    ApFirst, ApLast, Filler, LastFp, LastPc, NoRows, Places, RangeCells, RangeRow, RcMax, RcMin,
    Row, Shown, ShownFirst, Sorted, Steps, Value,
};
use super::changes::{Change, changed};
use super::runs::{
    BOTH_RES_FLAGS, CALL_WITH_AP_ADD1, FOUR_STEPS, GAPS, JUMP_NOT_TAKEN, JUMP_TAKEN, OUTPUT_CELL,
    PASSES_ITS_LAST_PC, RANGE_CELL, Run, THREE_LIMBS,
};
use super::{Files, NO_MEMORY, keeps_limits, pair, program};
use constraint_checker::{Verdict, check};
use goldilocks::PRIME;
use memory_columns::sort_columns;
use std::alloc::{AllocError, Global};
use std::process::Abort;
use table_file::Tables;

/// Whether the tables are valid.
fn are_valid(tables: &Tables) -> bool
    ensures { IsTrue result → AreValid (contents tables.now) }
{
    if tables.rows.len() > 1_048_576
        || tables.range.len() > 262_144
        || tables.memory.fill.len() > 2_097_152
        || tables.memory.sorted.len() > 7_077_888
        || tables.small.fill.len() > 65536
    {
        return false;
    }
    let values = 3 * tables.rows.len() + 3 * tables.range.len() + tables.small.fill.len();
    tables.small.sorted.len() == values
}

/// What `check` finds, as its command prints it.
fn found(rt: &impl Abort, alloc: Global, files: Files) -> Result<String, AllocError> {
    let program = program(rt, files.words, files.places);
    assert!(rt; keeps_limits(&files.public));
    assert!(rt; are_valid(&files.tables));
    match check(alloc, &program, &files.public, &files.tables)? {
        Verdict::Accepted => String::from_str(alloc, "accepted"),
        Verdict::Refused { constraint, row } => format!(in alloc; "{constraint} row {row}"),
    }
}

/// The columns fp and t1 of a row.
const FP: usize = 2;

const T1: usize = 32;

/// A name, changes of a run, and what is found.
type Case = (&'static str, &'static [Change], &'static str);

/// No change, and nothing is refused.
const ACCEPTED: &[Case] = &[("no change", &[], "accepted")];

/// Changes of the four steps.
const FOUR_STEPS_CASES: &[Case] = &[
    ("no change", &[], "accepted"),
    ("steps", &[Steps(5)], "P1 row 0"),
    ("no rows", &[NoRows], "P1 row 0"),
    ("range_count", &[RangeCells(0, 1)], "P2 row 0"),
    ("start", &[Places(2, 4)], "P3 row 0"),
    ("ap_first", &[ApFirst(13)], "P4 row 0"),
    ("fp of row 0", &[Row(0, FP, 13)], "P5 row 0"),
    ("t1", &[Row(1, T1, 1)], "C24 row 1"),
    ("two rows", &[Row(2, T1, 1), Row(1, T1, 1)], "C24 row 1"),
    ("the last pc", &[Places(0, 5), LastPc(6)], "C26 row 3"),
    ("end", &[Places(0, 5)], "P6 row 4"),
    ("ap_last", &[ApLast(16)], "P7 row 4"),
    ("end, ap_last", &[Places(0, 5), ApLast(16)], "P6 row 4"),
    (
        "limbs",
        &[RangeCells(0, 1), RangeRow(5, [6, 0, 0])],
        "V1 row 0",
    ),
    (
        "end, limbs",
        &[Places(0, 5), RangeCells(0, 1), RangeRow(5, [6, 0, 0])],
        "P6 row 4",
    ),
    (
        "limbs in another order",
        &[RangeCells(0, 1), RangeRow(12885032961, [3, 2, 1])],
        "V1 row 0",
    ),
    ("a gap of two", &[Sorted(26, 16, 25)], "M1 row 25"),
    ("two values", &[Sorted(1, 1, 7)], "M2 row 0"),
    (
        "two values, a gap",
        &[Sorted(2, 4, 0), Sorted(1, 1, 7)],
        "M2 row 0",
    ),
    ("a public cell", &[Shown(12, 13)], "M3 row 22"),
    (
        "a public cell, t1",
        &[Shown(12, 13), Row(1, T1, 1)],
        "C24 row 1",
    ),
    ("a public cell at 0", &[ShownFirst(0, 8)], "M3 row 0"),
    ("rc_min", &[RcMin(32765)], "Q1 row 0"),
    ("a step of two", &[Value(11, 32771)], "Q2 row 10"),
    ("rc_max", &[RcMax(32770)], "Q3 row 11"),
    ("another value", &[Value(1, 32766)], "Q4 row 1"),
    ("another last value", &[Value(11, 32770)], "Q3 row 11"),
    (
        "no range cells from another address",
        &[RangeCells(99, 0)],
        "accepted",
    ),
    (
        "addresses wrap",
        &[Filler(0, PRIME - 1, 7), Filler(1, 0, 9)],
        "accepted",
    ),
];

const JUMP_CASES: &[Case] = &[
    ("no change", &[], "accepted"),
    ("t1", &[Row(1, T1, 2)], "C24 row 1"),
];

const RANGE_CELL_CASES: &[Case] = &[
    ("no change", &[], "accepted"),
    ("another address", &[RangeCells(12, 1)], "M3 row 22"),
];

const BOTH_RES_FLAGS_CASES: &[Case] = &[("no change", &[], "C33 row 0")];

/// The next fp of a call is the ap of its row and 2, whatever the next ap is.
const CALL_CASES: &[Case] = &[
    ("no change", &[], "C39 row 0"),
    ("the next fp is the next ap", &[LastFp(10)], "C28 row 0"),
];

/// What is found of the run with these changes has to be what the case says.
fn check_cases(rt: &impl Abort, alloc: Global, run: &Run, cases: &[Case]) {
    let run_name = run.name;
    for (name, changes, wanted) in cases {
        let files = changed(rt, alloc, run, changes);
        let found = found(rt, alloc, files).expect(rt, NO_MEMORY);
        assert!(rt; found.as_str() == *wanted, "{run_name}: {name}");
    }
}

#[test]
fn the_first_constraint_that_fails_is_told(rt: HostRuntime) {
    check_cases(&rt, rt.alloc(), &FOUR_STEPS, FOUR_STEPS_CASES);
    check_cases(&rt, rt.alloc(), &JUMP_TAKEN, JUMP_CASES);
    check_cases(&rt, rt.alloc(), &JUMP_NOT_TAKEN, ACCEPTED);
    check_cases(&rt, rt.alloc(), &RANGE_CELL, RANGE_CELL_CASES);
    check_cases(&rt, rt.alloc(), &THREE_LIMBS, ACCEPTED);
    check_cases(&rt, rt.alloc(), &OUTPUT_CELL, ACCEPTED);
    check_cases(&rt, rt.alloc(), &PASSES_ITS_LAST_PC, ACCEPTED);
    check_cases(&rt, rt.alloc(), &GAPS, ACCEPTED);
    check_cases(&rt, rt.alloc(), &BOTH_RES_FLAGS, BOTH_RES_FLAGS_CASES);
    check_cases(&rt, rt.alloc(), &CALL_WITH_AP_ADD1, CALL_CASES);
}

/// The changes of row 0: off_dst, off_op0, dst_addr, op0_addr and op0.
const OTHER_OFFSETS: &[Change] = &[
    Row(0, 20, 98303),
    Row(0, 21, 32766),
    Row(0, 23, 65547),
    Row(0, 24, 10),
    Row(0, 27, 12),
    // the accesses of dst and op0 move from address 11
    Sorted(18, 65547, 0),
    Sorted(19, 10, 12),
];

#[test]
fn an_offset_out_of_range(rt: HostRuntime) {
    let alloc = rt.alloc();
    let mut files = changed(&rt, alloc, &FOUR_STEPS, OTHER_OFFSETS);
    let accesses = Vec::from_slice(alloc, &files.tables.memory.sorted).expect(&rt, NO_MEMORY);
    assert!(rt; !accesses.is_empty());
    let sorted = sort_columns(alloc, accesses, &files.tables.memory);
    files.tables.memory = sorted.expect(&rt, "the columns are made");
    assert!(rt; files.tables.memory.fill.len() == 65532);
    let found = found(&rt, alloc, files).expect(&rt, NO_MEMORY);
    assert!(rt; found.as_str() == "Q4 row 1");
}
