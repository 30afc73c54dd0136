//! Expected tables, from outside, and the first fault that is reported after small changes of a run.

ghost use Rattle.std.specs.Prelude.{IfOk};
ghost use Rattle.table_file.specs.Tables.{contents, AreValid};

use super::changes::Change::{
    ApFirst, ApLast, Places, RangeCells, RcMax, RcMin, Shown, ShownFirst, State, Steps, With,
    Without,
};
use super::changes::{Change, changed};
use super::runs::{FOUR_STEPS, RUNS};
use super::{Files, NO_MEMORY, bytes_of, felts, files_of, keeps_limits, pairs, program};
use goldilocks::PRIME;
use std::alloc::{AllocError, Global};
use std::process::Abort;
use table_builder::{BuildFault, build};
use table_file::{Tables, write};
use trace_files::CellList;

/// The tables of the run.
fn built(rt: &impl Abort, alloc: Global, files: Files) -> Result<Tables, BuildFault>
    ensures { IfOk result (λ tables. AreValid (contents tables)) }
{
    let program = program(rt, files.words, files.places);
    let cells = CellList::new(files.cells).expect(rt, "the addresses ascend");
    assert!(rt; keeps_limits(&files.public));
    assert!(rt; files.states.len() >= 2);
    assert!(rt; files.states.len() <= 1_048_577);
    build(alloc, &program, &files.public, &files.states, &cells)
}

#[test]
fn runs_have_their_tables(rt: HostRuntime) {
    let alloc = rt.alloc();
    for run in RUNS {
        let name = run.name;
        let files = files_of(&rt, alloc, run);
        let tables = built(&rt, alloc, files).expect(&rt, "the tables are built");
        let bytes = write(alloc, &tables).expect(&rt, NO_MEMORY);
        assert!(rt; bytes == bytes_of(&rt, alloc, run.tables), "{name}");
    }
}

/// A name, changes of the four steps, and what is reported.
type Case = (&'static str, &'static [Change], &'static str);

/// A public cell with exactly 2^21 + 1 addresses between it and all others.
const FAR: u64 = 2_097_168;

/// The word with the highest bit.
const HIGH_BIT: u64 = 0x8000_0000_0000_0000;

/// The word with both flags of res.
const BOTH_RES: u64 = 0x4866_8001_7fff_8000;

/// One fault.
const FAULTS: &[Case] = &[
    ("no change", &[], "built"),
    ("steps", &[Steps(5)], "Mismatch steps 5 4"),
    ("one step less", &[Steps(3)], "Mismatch steps 3 4"),
    ("pc_first", &[Places(2, 4)], "Mismatch pc_first 3 1"),
    ("ap_first", &[ApFirst(13)], "Mismatch ap_first 13 12"),
    (
        "fp_first",
        &[State(0, (1, 12, 13))],
        "Mismatch fp_first 12 13",
    ),
    ("pc_last", &[Places(0, 5)], "Mismatch pc_last 6 5"),
    ("ap_last", &[ApLast(16)], "Mismatch ap_last 16 15"),
    (
        "another last fp",
        &[State(4, (5, 15, 13))],
        "Step 3: Mismatch",
    ),
    (
        "another state",
        &[State(3, (10, 15, 14))],
        "Step 2: Mismatch",
    ),
    ("dst is missing", &[Without(14)], "Step 2: NoCell 14"),
    ("op0 is missing", &[Without(13)], "Step 1: NoCell 13"),
    (
        "an instruction is missing",
        &[Without(9)],
        "Step 3: NoCell 9",
    ),
    (
        "the highest bit",
        &[With(1, HIGH_BIT)],
        "Step 0: BadWord HighBit",
    ),
    (
        "two flags of res",
        &[With(7, BOTH_RES)],
        "Step 2: BadWord Undefined Res",
    ),
    ("another dst", &[With(14, 26)], "Step 2: NotEqual"),
    ("another pc is pushed", &[With(13, 6)], "Step 1: CallPc"),
    ("another fp is pushed", &[With(12, 13)], "Step 1: CallFp"),
    (
        "a word that no step reads",
        &[With(6, 7)],
        "Mismatch cell 6 0 7",
    ),
    ("such a word is missing", &[Without(6)], "NoCell 6"),
    (
        "another public cell",
        &[Shown(14, 26)],
        "Mismatch cell 14 26 25",
    ),
    (
        "another public cell at p - 1",
        &[Shown(PRIME - 1, 1), With(PRIME - 1, 2)],
        "Mismatch cell 18446744069414584320 1 2",
    ),
    (
        "another public cell at 0",
        &[ShownFirst(0, 8), With(0, 7)],
        "Mismatch cell 0 8 7",
    ),
    (
        "a public cell at 0 is missing",
        &[ShownFirst(0, 8)],
        "NoCell 0",
    ),
    ("a public cell is missing", &[Shown(15, 1)], "NoCell 15"),
    ("a range cell is missing", &[RangeCells(15, 1)], "NoCell 15"),
    (
        "range cells end around 0",
        &[RangeCells(PRIME - 1, 2), With(PRIME - 1, 5)],
        "NoCell 0",
    ),
    (
        "a word as range cell 0",
        &[RangeCells(7, 1)],
        "RangeWidth 0",
    ),
    (
        "a word as range cell 1",
        &[RangeCells(6, 2)],
        "RangeWidth 1",
    ),
    (
        "2^48",
        &[RangeCells(15, 1), With(15, 1 << 48)],
        "RangeWidth 0",
    ),
    (
        "2^48 - 1",
        &[RangeCells(15, 1), With(15, (1 << 48) - 1)],
        "Mismatch rc_max 32769 65535",
    ),
    ("rc_min", &[RcMin(32767)], "Mismatch rc_min 32767 32766"),
    ("limbs of 0", &[RangeCells(6, 1)], "Mismatch rc_min 32766 0"),
    ("rc_max", &[RcMax(32768)], "Mismatch rc_max 32768 32769"),
    (
        "far apart",
        &[Shown(FAR, 7), With(FAR, 7)],
        "TooWide 1 2097168",
    ),
    (
        "range cells around 0",
        &[
            RcMin(0),
            RangeCells(PRIME - 1, 2),
            With(PRIME - 1, 5),
            With(0, 9),
        ],
        "TooWide 0 18446744069414584320",
    ),
];

/// Two faults, of which the first is reported.
const TWO_FAULTS: &[Case] = &[
    (
        "steps, pc_first",
        &[Steps(5), Places(2, 4)],
        "Mismatch steps 5 4",
    ),
    (
        "pc_first, ap_first",
        &[Places(2, 4), ApFirst(13)],
        "Mismatch pc_first 3 1",
    ),
    (
        "ap_first, fp_first",
        &[ApFirst(13), State(0, (1, 12, 14))],
        "Mismatch ap_first 13 12",
    ),
    (
        "fp_first, pc_last",
        &[State(0, (1, 12, 13)), Places(0, 5)],
        "Mismatch fp_first 12 13",
    ),
    (
        "pc_last, ap_last",
        &[Places(0, 5), ApLast(16)],
        "Mismatch pc_last 6 5",
    ),
    (
        "steps, a step",
        &[Steps(5), Without(14)],
        "Mismatch steps 5 4",
    ),
    (
        "ap_last, a step",
        &[ApLast(16), With(1, HIGH_BIT)],
        "Mismatch ap_last 16 15",
    ),
    (
        "ap_last, a word",
        &[ApLast(16), Without(6)],
        "Mismatch ap_last 16 15",
    ),
    ("two steps", &[Without(14), Without(9)], "Step 2: NoCell 14"),
    (
        "a state, a step",
        &[State(1, (3, 13, 12)), Without(9)],
        "Step 0: Mismatch",
    ),
    (
        "a step, a word",
        &[Without(14), Without(6)],
        "Step 2: NoCell 14",
    ),
    (
        "a step, its word",
        &[With(7, BOTH_RES), With(6, 7)],
        "Step 2: BadWord Undefined Res",
    ),
    (
        "two words",
        &[With(5, 7), Without(6)],
        "Mismatch cell 5 74168662805676031 7",
    ),
    (
        "a word, a public cell",
        &[With(6, 7), Shown(14, 26)],
        "Mismatch cell 6 0 7",
    ),
    (
        "no word, no public cell",
        &[Without(6), Without(10)],
        "NoCell 6",
    ),
    (
        "two public cells",
        &[Without(10), Shown(14, 26)],
        "NoCell 10",
    ),
    (
        "a public cell, a range cell",
        &[Shown(14, 26), RangeCells(7, 1)],
        "Mismatch cell 14 26 25",
    ),
    (
        "no public cell, no range cell",
        &[Shown(15, 1), RangeCells(16, 1)],
        "NoCell 15",
    ),
    (
        "two range cells",
        &[RangeCells(15, 2), With(15, 1 << 48)],
        "RangeWidth 0",
    ),
    (
        "no range cell, far apart",
        &[RangeCells(16, 1), Shown(FAR, 7), With(FAR, 7)],
        "NoCell 16",
    ),
    (
        "a range cell, rc_min",
        &[RangeCells(7, 1), RcMin(32767)],
        "RangeWidth 0",
    ),
    (
        "rc_min, rc_max",
        &[RcMin(32767), RcMax(32768)],
        "Mismatch rc_min 32767 32766",
    ),
    (
        "rc_max, far apart",
        &[RcMax(32768), Shown(FAR, 7), With(FAR, 7)],
        "Mismatch rc_max 32768 32769",
    ),
];

const ALL_FAULTS: &[&[Case]] = &[FAULTS, TWO_FAULTS];

/// The fault of the run, as its command prints it.
fn told(rt: &impl Abort, alloc: Global, files: Files) -> Result<String, AllocError> {
    match built(rt, alloc, files) {
        Ok(_) => String::from_str(alloc, "built"),
        Err(fault) => fault.to_string(alloc),
    }
}

#[test]
fn the_first_fault_is_told(rt: HostRuntime) {
    for cases in ALL_FAULTS {
        for (name, changes, wanted) in *cases {
            let files = changed(&rt, rt.alloc(), &FOUR_STEPS, changes);
            let told = told(&rt, rt.alloc(), files).expect(&rt, NO_MEMORY);
            assert!(rt; told.as_str() == *wanted, "{name}");
        }
    }
}

/// A name, changes of the four steps, and the fillers of the memory and of the small values.
type Filled = (
    &'static str,
    &'static [Change],
    &'static [(u64, u64)],
    &'static [u64],
);

const FILLED: &[Filled] = &[
    ("no gap", &[], &[], &[]),
    (
        "a cell that no step reads behind a gap",
        &[Shown(18, 7), With(18, 7), With(16, 99)],
        &[(15, 0), (16, 99), (17, 0)],
        &[],
    ),
    (
        "a gap of one cell",
        &[Shown(16, 7), With(16, 7), With(15, 99), RcMax(32770)],
        &[(15, 99)],
        &[32770],
    ),
    (
        "a cell of the memory behind all accesses",
        &[With(16, 99)],
        &[],
        &[],
    ),
    (
        "a wider range",
        &[RcMin(32764), RcMax(32771)],
        &[],
        &[32764, 32765, 32770, 32771],
    ),
    (
        "no range cells, from an address far away",
        &[RangeCells(99, 0)],
        &[],
        &[],
    ),
];

#[test]
fn fillers_lie_between(rt: HostRuntime) {
    let alloc = rt.alloc();
    for (name, changes, cells, values) in FILLED {
        let files = changed(&rt, alloc, &FOUR_STEPS, changes);
        let tables = built(&rt, alloc, files).expect(&rt, "the tables are built");
        let cells = pairs(&rt, alloc, cells);
        let values = felts(&rt, alloc, values);
        let same = tables.memory.fill == cells && tables.small.fill == values;
        assert!(rt; same, "{name}");
    }
}

#[test]
fn want_of_memory_has_a_text(rt: HostRuntime) {
    let text = BuildFault::Memory
        .to_string(rt.alloc())
        .expect(&rt, NO_MEMORY);
    assert!(rt; text.as_str() == "Memory");
}
