//! `tables`: runs from outside, what stands in the way of tables, and what a failed call leaves.

use super::check::{END_5, P, START_1, U};
use super::contents::Bytes::{
    Absent, But, Long, Member, Memory, Numbers, Parts, Raw, Tables, Text,
};
use super::contents::{Bytes, Cell, Change, Part, said};
use super::vectors::{
    FOUR_STEPS, FOUR_STEPS_PROGRAM, FOUR_STEPS_PUBLIC, JUMP_NOT_TAKEN, JUMP_NOT_TAKEN_MEMORY,
    JUMP_NOT_TAKEN_PROGRAM, JUMP_NOT_TAKEN_PUBLIC, JUMP_NOT_TAKEN_TRACE, JUMP_TAKEN,
    JUMP_TAKEN_MEMORY, JUMP_TAKEN_PROGRAM, JUMP_TAKEN_PUBLIC, JUMP_TAKEN_TRACE, OUTPUT_CELL,
    OUTPUT_CELL_MEMORY, OUTPUT_CELL_PROGRAM, OUTPUT_CELL_PUBLIC, OUTPUT_CELL_TRACE, RANGE_CELL,
    RANGE_CELL_MEMORY, RANGE_CELL_PROGRAM, RANGE_CELL_PUBLIC, RANGE_CELL_TRACE,
};
use super::{MEMORY, Row, TRACE, check_call, check_failing_sink, check_file, store_of};
use cairo_commands::Status::{self, Done, Input, Limit, Missing, Refused, Store as StoreFault};
use file_port::MemoryStore;
use std::alloc::Global;
use std::process::Abort;

const BUILD: &[&str] = &["tables", "P", "U", "T", "M", "O"];

/// Checks the tables that were built.
const CHECK_BUILT: &[&str] = &["check", "P", "U", "O"];

/// A run: its name, the program, the public input, the trace and the memory, then the tables, and the lines of `tables`
/// and `check`.
type Run = (
    &'static str,
    &'static [Bytes],
    Bytes,
    &'static str,
    &'static str,
);

const RUNS: &[Run] = &[
    (
        "four steps",
        &[
            Text(FOUR_STEPS_PROGRAM),
            Text(FOUR_STEPS_PUBLIC),
            Numbers(TRACE),
            Numbers(MEMORY),
        ],
        Tables(FOUR_STEPS, Change::None),
        "tables: 4 steps, 1656 bytes\n",
        "check: accepted, 4 steps\n",
    ),
    (
        "a jump that is taken",
        &[
            Text(JUMP_TAKEN_PROGRAM),
            Text(JUMP_TAKEN_PUBLIC),
            Numbers(JUMP_TAKEN_TRACE),
            Numbers(JUMP_TAKEN_MEMORY),
        ],
        Tables(JUMP_TAKEN, Change::None),
        "tables: 2 steps, 936 bytes\n",
        "check: accepted, 2 steps\n",
    ),
    (
        "a jump that isn't taken",
        &[
            Text(JUMP_NOT_TAKEN_PROGRAM),
            Text(JUMP_NOT_TAKEN_PUBLIC),
            Numbers(JUMP_NOT_TAKEN_TRACE),
            Numbers(JUMP_NOT_TAKEN_MEMORY),
        ],
        Tables(JUMP_NOT_TAKEN, Change::None),
        "tables: 2 steps, 936 bytes\n",
        "check: accepted, 2 steps\n",
    ),
    (
        "a range cell",
        &[
            Text(RANGE_CELL_PROGRAM),
            Text(RANGE_CELL_PUBLIC),
            Numbers(RANGE_CELL_TRACE),
            Numbers(RANGE_CELL_MEMORY),
        ],
        Parts(RANGE_CELL),
        "tables: 3 steps, 525616 bytes\n",
        "check: accepted, 3 steps\n",
    ),
    (
        "an output cell",
        &[
            Text(OUTPUT_CELL_PROGRAM),
            Text(OUTPUT_CELL_PUBLIC),
            Numbers(OUTPUT_CELL_TRACE),
            Numbers(OUTPUT_CELL_MEMORY),
        ],
        Tables(OUTPUT_CELL, Change::None),
        "tables: 4 steps, 1704 bytes\n",
        "check: accepted, 4 steps\n",
    ),
];

/// Looks at the files, which are these.
fn check_stay(rt: &impl Abort, alloc: Global, row: &str, store: &MemoryStore, files: &[Bytes]) {
    for (name, bytes) in BUILD.iter().skip(1).zip(files) {
        check_file(rt, row, store, name, Some(&said(rt, alloc, *bytes)));
    }
}

/// Builds tables of a run's files, which stay. The tables have to be those that are wanted, and are checked.
fn check_built(
    rt: &impl Abort,
    alloc: Global,
    row: &str,
    files: &[Bytes],
    tables: Bytes,
    lines: (&str, &str),
) {
    let mut store = store_of(rt, alloc, BUILD, files, &[]);
    check_call(rt, alloc, row, BUILD, &mut store, (Done, lines.0));
    check_stay(rt, alloc, row, &store, files);
    check_file(rt, row, &store, "O", Some(&said(rt, alloc, tables)));
    check_call(rt, alloc, row, CHECK_BUILT, &mut store, (Done, lines.1));
}

#[test]
fn runs_have_their_tables(rt: HostRuntime) {
    for (row, files, tables, line, accepted) in RUNS {
        check_built(&rt, rt.alloc(), row, files, *tables, (line, accepted));
    }
}

/// A row's name, what is another than in the four steps, and the line. Others are the program, a member of the public
/// input, a number of the trace, and cells.
type Changed = (
    &'static str,
    &'static str,
    &'static str,
    Option<(usize, u64)>,
    &'static [Cell],
    &'static str,
);

/// A member of a public input with a cell that lies behind 2^21 + 1 addresses that nothing accesses.
const FAR_CELL: &str = r#""cells":[["0xa","0xc"],["0xb","0x0"],["0x200010","0x7"]]"#;

/// The same with a greatest small value that an offset is above.
const FAR_AND_LOW: &str =
    r#""rc_max":32768,"cells":[["0xa","0xc"],["0xb","0x0"],["0x200010","0x7"]]"#;

const FAR: Cell = (2097168, Some(7));

/// The pc of state 3 is 10, which step 2 doesn't come to.
const OTHER_STEP: Option<(usize, u64)> = Some((11, 10));

const REFUSED: &[Changed] = &[
    (
        "five steps are stated",
        FOUR_STEPS_PROGRAM,
        r#""steps":5"#,
        None,
        &[],
        "tables: refused: Mismatch steps 5 4\n",
    ),
    (
        "another start",
        START_1,
        "",
        None,
        &[],
        "tables: refused: Mismatch pc_first 2 1\n",
    ),
    (
        "another first ap",
        FOUR_STEPS_PROGRAM,
        r#""ap_first":"0xd""#,
        None,
        &[],
        "tables: refused: Mismatch ap_first 13 12\n",
    ),
    (
        "another first fp",
        FOUR_STEPS_PROGRAM,
        "",
        Some((1, 13)),
        &[],
        "tables: refused: Mismatch fp_first 12 13\n",
    ),
    (
        "another end",
        END_5,
        "",
        None,
        &[],
        "tables: refused: Mismatch pc_last 6 5\n",
    ),
    (
        "another last ap",
        FOUR_STEPS_PROGRAM,
        r#""ap_last":"0x10""#,
        None,
        &[],
        "tables: refused: Mismatch ap_last 16 15\n",
    ),
    (
        "another state",
        FOUR_STEPS_PROGRAM,
        "",
        OTHER_STEP,
        &[],
        "tables: refused: Step 2: Mismatch\n",
    ),
    (
        "another last state",
        FOUR_STEPS_PROGRAM,
        "",
        Some((13, 13)),
        &[],
        "tables: refused: Step 3: Mismatch\n",
    ),
    (
        "a cell that a step reads is missing",
        FOUR_STEPS_PROGRAM,
        "",
        None,
        &[(14, None)],
        "tables: refused: Step 2: NoCell 14\n",
    ),
    (
        "another value is read",
        FOUR_STEPS_PROGRAM,
        "",
        None,
        &[(14, Some(26))],
        "tables: refused: Step 2: NotEqual\n",
    ),
    (
        "no instruction",
        FOUR_STEPS_PROGRAM,
        "",
        None,
        &[(1, Some(0x8000_0000_0000_0000))],
        "tables: refused: Step 0: BadWord HighBit\n",
    ),
    (
        "a word of the program is missing",
        FOUR_STEPS_PROGRAM,
        "",
        None,
        &[(6, None)],
        "tables: refused: NoCell 6\n",
    ),
    (
        "another word of the program",
        FOUR_STEPS_PROGRAM,
        "",
        None,
        &[(6, Some(7))],
        "tables: refused: Mismatch cell 6 0 7\n",
    ),
    (
        "a public cell is missing",
        FOUR_STEPS_PROGRAM,
        "",
        None,
        &[(10, None)],
        "tables: refused: NoCell 10\n",
    ),
    (
        "another public cell",
        FOUR_STEPS_PROGRAM,
        r#""cells":[["0xa","0xd"],["0xb","0x0"]]"#,
        None,
        &[],
        "tables: refused: Mismatch cell 10 13 12\n",
    ),
    (
        "a range cell is missing",
        FOUR_STEPS_PROGRAM,
        r#""range_begin":"0x14","range_count":1"#,
        None,
        &[],
        "tables: refused: NoCell 20\n",
    ),
    (
        "a wide range cell",
        FOUR_STEPS_PROGRAM,
        r#""range_begin":"0xf","range_count":1"#,
        None,
        &[(15, Some(0x1_0000_0000_0000))],
        "tables: refused: RangeWidth 0\n",
    ),
    (
        "a second range cell is wide",
        FOUR_STEPS_PROGRAM,
        r#""range_begin":"0xf","range_count":2"#,
        None,
        &[(15, Some(0xffff_ffff_ffff)), (16, Some(0x1_0000_0000_0000))],
        "tables: refused: RangeWidth 1\n",
    ),
    (
        "an offset below the range",
        FOUR_STEPS_PROGRAM,
        r#""rc_min":32767"#,
        None,
        &[],
        "tables: refused: Mismatch rc_min 32767 32766\n",
    ),
    (
        "an offset above the range",
        FOUR_STEPS_PROGRAM,
        r#""rc_max":32768"#,
        None,
        &[],
        "tables: refused: Mismatch rc_max 32768 32769\n",
    ),
    (
        "a limb below the range",
        FOUR_STEPS_PROGRAM,
        r#""range_begin":"0xf","range_count":1"#,
        None,
        &[(15, Some(5))],
        "tables: refused: Mismatch rc_min 32766 0\n",
    ),
    (
        "a limb above the range",
        FOUR_STEPS_PROGRAM,
        r#""rc_min":0,"range_begin":"0xf","range_count":1"#,
        None,
        &[(15, Some(40000))],
        "tables: refused: Mismatch rc_max 32769 40000\n",
    ),
    (
        "accesses far apart",
        FOUR_STEPS_PROGRAM,
        FAR_CELL,
        None,
        &[FAR],
        "tables: refused: TooWide 1 2097168\n",
    ),
    (
        "steps and start",
        START_1,
        r#""steps":5"#,
        None,
        &[],
        "tables: refused: Mismatch steps 5 4\n",
    ),
    (
        "start and first ap",
        START_1,
        r#""ap_first":"0xd""#,
        None,
        &[],
        "tables: refused: Mismatch pc_first 2 1\n",
    ),
    (
        "first fp and end",
        END_5,
        "",
        Some((1, 13)),
        &[],
        "tables: refused: Mismatch fp_first 12 13\n",
    ),
    (
        "end and last ap",
        END_5,
        r#""ap_last":"0x10""#,
        None,
        &[],
        "tables: refused: Mismatch pc_last 6 5\n",
    ),
    (
        "last ap and a step",
        FOUR_STEPS_PROGRAM,
        r#""ap_last":"0x10""#,
        OTHER_STEP,
        &[],
        "tables: refused: Mismatch ap_last 16 15\n",
    ),
    (
        "a step and a word of the program",
        FOUR_STEPS_PROGRAM,
        "",
        OTHER_STEP,
        &[(6, None)],
        "tables: refused: Step 2: Mismatch\n",
    ),
    (
        "a word of the program and a public cell",
        FOUR_STEPS_PROGRAM,
        "",
        None,
        &[(6, Some(7)), (10, None)],
        "tables: refused: Mismatch cell 6 0 7\n",
    ),
    (
        "a public cell and a range cell",
        FOUR_STEPS_PROGRAM,
        r#""range_begin":"0x14","range_count":1"#,
        None,
        &[(10, None)],
        "tables: refused: NoCell 10\n",
    ),
    (
        "two range cells",
        FOUR_STEPS_PROGRAM,
        r#""range_begin":"0xf","range_count":2"#,
        None,
        &[(15, Some(0x1_0000_0000_0000))],
        "tables: refused: RangeWidth 0\n",
    ),
    (
        "a range cell and the range",
        FOUR_STEPS_PROGRAM,
        r#""range_begin":"0xf","range_count":1,"rc_min":32767"#,
        None,
        &[(15, Some(0x1_0000_0000_0000))],
        "tables: refused: RangeWidth 0\n",
    ),
    (
        "both ends of the range",
        FOUR_STEPS_PROGRAM,
        r#""rc_min":32767,"rc_max":32768"#,
        None,
        &[],
        "tables: refused: Mismatch rc_min 32767 32766\n",
    ),
    (
        "the range and accesses far apart",
        FOUR_STEPS_PROGRAM,
        FAR_AND_LOW,
        None,
        &[FAR],
        "tables: refused: Mismatch rc_max 32768 32769\n",
    ),
];

/// The public input of the four steps, with these members behind its own.
fn public_with(members: &'static str) -> Bytes {
    if members.is_empty() {
        U
    } else {
        Member(members)
    }
}

/// The trace of the four steps with another number at a place, if there is one.
fn trace_with(change: Option<(usize, u64)>) -> Bytes {
    match change {
        Some((place, number)) => But(TRACE, place, number),
        None => Numbers(TRACE),
    }
}

#[test]
fn what_stands_in_the_way_is_told(rt: HostRuntime) {
    for (row, program, members, change, cells, line) in REFUSED {
        let files = [
            Text(program),
            public_with(members),
            trace_with(*change),
            Memory(cells),
            Raw(b"before"),
        ];
        let mut store = store_of(&rt, rt.alloc(), BUILD, &files, &[]);
        check_call(&rt, rt.alloc(), row, BUILD, &mut store, (Refused, line));
        check_stay(&rt, rt.alloc(), row, &store, &files);
    }
}

/// The tables of the four steps with a public cell at 17. The fillers are what the memory has at 15 and 16: nothing, and 9.
const FILLED: &[Part] = &[
    Part::Numbers(&[4, 0, 2, 30, 0]),
    Part::Between(FOUR_STEPS, 5, 140),
    Part::Numbers(&[15, 0, 16, 9]),
    Part::Between(FOUR_STEPS, 140, 194),
    Part::Numbers(&[15, 0, 16, 9, 17, 7]),
    Part::Between(FOUR_STEPS, 194, 206),
];

/// The member of a public input with a cell at 17.
const CELL_17: &str = r#""cells":[["0xa","0xc"],["0xb","0x0"],["0x11","0x7"]]"#;

/// What `tables` and `check` answer.
const FILLED_LINES: (&str, &str) = (
    "tables: 4 steps, 1736 bytes\n",
    "check: accepted, 4 steps\n",
);

#[test]
fn gaps_are_filled_from_the_memory(rt: HostRuntime) {
    let memory = Memory(&[(16, Some(9)), (17, Some(7))]);
    let files = [P, Member(CELL_17), T, memory];
    let tables = Parts(FILLED);
    check_built(&rt, rt.alloc(), "a gap", &files, tables, FILLED_LINES);
}

/// The trace and the memory of the four steps.
const T: Bytes = Numbers(TRACE);

const M: Bytes = Numbers(MEMORY);

/// The inputs of the four steps.
const INPUTS: &[Bytes] = &[P, U, T, M];

/// The calls of the store over the files of the four steps, of which each one fails, and what is answered.
const FAULTS: &[(&str, u32, Status, &str)] = &[
    ("beginning the program", 1, StoreFault, "store fault: P\n"),
    ("reading the program", 2, StoreFault, "store fault: P\n"),
    ("the end of the program", 3, StoreFault, "store fault: P\n"),
    (
        "beginning the public input",
        4,
        StoreFault,
        "store fault: U\n",
    ),
    (
        "reading the public input",
        5,
        StoreFault,
        "store fault: U\n",
    ),
    (
        "the end of the public input",
        6,
        StoreFault,
        "store fault: U\n",
    ),
    ("beginning the trace", 7, StoreFault, "store fault: T\n"),
    ("reading the trace", 8, StoreFault, "store fault: T\n"),
    ("the end of the trace", 9, StoreFault, "store fault: T\n"),
    ("beginning the memory", 10, StoreFault, "store fault: M\n"),
    ("reading the memory", 11, StoreFault, "store fault: M\n"),
    ("the end of the memory", 12, StoreFault, "store fault: M\n"),
    ("writing the tables", 13, StoreFault, "store fault: O\n"),
    (
        "a call that is not made",
        14,
        Done,
        "tables: 4 steps, 1656 bytes\n",
    ),
];

/// The inputs stay, and the tables are there where the call is done.
#[test]
fn failing_calls_are_told(rt: HostRuntime) {
    for (row, call, status, line) in FAULTS {
        let mut store = store_of(&rt, rt.alloc(), BUILD, INPUTS, &[*call]);
        check_call(&rt, rt.alloc(), row, BUILD, &mut store, (*status, line));
        check_stay(&rt, rt.alloc(), row, &store, INPUTS);
        let is_written = store.file("O").is_some();
        assert!(rt; is_written == (*status == Done), "{row}: the tables");
    }
}

#[test]
fn a_failing_sink_comes_after_the_tables(rt: HostRuntime) {
    let mut store = store_of(&rt, rt.alloc(), BUILD, INPUTS, &[]);
    check_failing_sink(&rt, rt.alloc(), "a failing sink", BUILD, &mut store);
    assert!(rt; store.file("O").is_some(), "the tables are written");
}

/// Files of which one is another than in the four steps, or none. Then there are no tables.
const OTHERS: &[Row] = &[
    (
        "no program",
        &[Absent, U, T, M],
        Missing,
        "missing: input 1\n",
    ),
    (
        "no public input",
        &[P, Absent, T, M],
        Missing,
        "missing: input 2\n",
    ),
    (
        "no trace",
        &[P, U, Absent, M],
        Missing,
        "missing: input 3\n",
    ),
    (
        "no memory",
        &[P, U, T, Absent],
        Missing,
        "missing: input 4\n",
    ),
    (
        "another program",
        &[Raw(b"{"), U, T, M],
        Input,
        "input 1: Json\n",
    ),
    (
        "another public input",
        &[P, Raw(b"{"), T, M],
        Input,
        "input 2: Json\n",
    ),
    (
        "too many steps",
        &[P, Raw(br#"{"steps":1048577}"#), T, M],
        Limit,
        "limit: input 2\n",
    ),
    (
        "an empty trace",
        &[P, U, Raw(b""), M],
        Input,
        "input 3: Length\n",
    ),
    (
        "one state",
        &[P, U, Long(0, 24), M],
        Input,
        "input 3: Length\n",
    ),
    (
        "a trace with a byte cut",
        &[P, U, Long(0, 119), M],
        Input,
        "input 3: Length\n",
    ),
    (
        "no number of the field in the trace",
        &[P, U, Long(255, 48), M],
        Input,
        "input 3: NotField 0\n",
    ),
    (
        "a memory with a byte cut",
        &[P, U, T, Long(0, 223)],
        Input,
        "input 4: Length\n",
    ),
    (
        "equal addresses",
        &[P, U, T, Long(0, 32)],
        Input,
        "input 4: Order 16\n",
    ),
    (
        "no number of the field in the memory",
        &[P, U, T, Long(255, 16)],
        Input,
        "input 4: NotField 0\n",
    ),
    (
        "a memory of no cells, which is one",
        &[P, U, T, Raw(b"")],
        Refused,
        "tables: refused: Step 0: NoCell 1\n",
    ),
    (
        "a long program",
        &[Long(b' ', 16777217), U, T, M],
        Limit,
        "limit: input 1\n",
    ),
    (
        "a long public input",
        &[P, Long(b' ', 33554433), T, M],
        Limit,
        "limit: input 2\n",
    ),
    (
        "a long trace",
        &[P, U, Long(b' ', 25165849), M],
        Limit,
        "limit: input 3\n",
    ),
    (
        "a long memory",
        &[P, U, T, Long(b' ', 33554433)],
        Limit,
        "limit: input 4\n",
    ),
];

#[test]
fn other_inputs_are_told(rt: HostRuntime) {
    for (row, files, status, line) in OTHERS {
        let mut store = store_of(&rt, rt.alloc(), BUILD, files, &[]);
        check_call(&rt, rt.alloc(), row, BUILD, &mut store, (*status, line));
        check_file(&rt, row, &store, "O", None);
    }
}
