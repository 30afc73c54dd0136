//! `check`: tables from outside, the constraint that refuses them, and files that spell nothing.

use super::contents::Bytes::{Absent, Member, Parts, Raw, Tables, Text};
use super::contents::Change::{self, Byte, Cut, Longer, Number};
use super::contents::{Bytes, Part};
use super::vectors::{
    ADDRESSES_WRAP, BOTH_RES_FLAGS, BOTH_RES_FLAGS_PROGRAM, BOTH_RES_FLAGS_PUBLIC, FOUR_STEPS,
    FOUR_STEPS_PROGRAM, FOUR_STEPS_PUBLIC, JUMP_NOT_TAKEN, JUMP_NOT_TAKEN_PROGRAM,
    JUMP_NOT_TAKEN_PUBLIC, JUMP_TAKEN, JUMP_TAKEN_PROGRAM, JUMP_TAKEN_PUBLIC, OFFSET_OUT_OF_RANGE,
    OUTPUT_CELL, OUTPUT_CELL_PROGRAM, OUTPUT_CELL_PUBLIC, RANGE_CELL, RANGE_CELL_PROGRAM,
    RANGE_CELL_PUBLIC,
};
use super::{Fault, Row, check_failing_sink, check_faults, check_rows, store_of};
use cairo_commands::Status::{Done, Input, Limit, Missing, Refused, Store as StoreFault};
use goldilocks::PRIME;

pub const CHECK: &[&str] = &["check", "P", "U", "T"];

/// The public input of the four steps with a cell that no step reads so.
const CELL_ADDED: &str =
    r#"{"ap_first":"0xc","ap_last":"0xf","cells":[["0xa","0xc"],["0xb","0x0"],["0xc","0xd"]],"range_begin":"0x0","range_count":0,"rc_max":32769,"rc_min":32766,"steps":4}"#;

/// The program of the four steps with the end 5.
pub const END_5: &str =
    r#"{"builtins":[],"data":["0x40780017fff7fff","0x0","0x1104800180018000","0x4","0x10780017fff7fff","0x0","0x480680017fff8000","0x19","0x208b7fff7fff7ffe"],"end":5,"prime":"0xffffffff00000001","start":0}"#;

/// The public input of the four steps with five of them.
const FIVE_STEPS: &str =
    r#"{"ap_first":"0xc","ap_last":"0xf","cells":[["0xa","0xc"],["0xb","0x0"]],"range_begin":"0x0","range_count":0,"rc_max":32769,"rc_min":32766,"steps":5}"#;

/// The program of the four steps with another start.
pub const START_1: &str =
    r#"{"builtins":[],"data":["0x40780017fff7fff","0x0","0x1104800180018000","0x4","0x10780017fff7fff","0x0","0x480680017fff8000","0x19","0x208b7fff7fff7ffe"],"end":4,"prime":"0xffffffff00000001","start":1}"#;

/// The program of the four steps with an end that is none of its words.
const END_9: &str =
    r#"{"builtins":[],"data":["0x40780017fff7fff","0x0","0x1104800180018000","0x4","0x10780017fff7fff","0x0","0x480680017fff8000","0x19","0x208b7fff7fff7ffe"],"end":9,"prime":"0xffffffff00000001","start":0}"#;

/// The program of the four steps over another field.
const OTHER_PRIME: &str =
    r#"{"builtins":[],"data":["0x40780017fff7fff","0x0","0x1104800180018000","0x4","0x10780017fff7fff","0x0","0x480680017fff8000","0x19","0x208b7fff7fff7ffe"],"end":4,"prime":"0x11","start":0}"#;

/// Public inputs of the four steps with another range count, first ap, last ap, and other bounds of the range values.
const ONE_RANGE_CELL: &str =
    r#"{"ap_first":"0xc","ap_last":"0xf","cells":[],"range_begin":"0x0","range_count":1,"rc_max":32769,"rc_min":32766,"steps":4}"#;

const FIRST_AP_13: &str =
    r#"{"ap_first":"0xd","ap_last":"0xf","cells":[],"range_begin":"0x0","range_count":0,"rc_max":32769,"rc_min":32766,"steps":4}"#;

const LAST_AP_16: &str =
    r#"{"ap_first":"0xc","ap_last":"0x10","cells":[],"range_begin":"0x0","range_count":0,"rc_max":32769,"rc_min":32766,"steps":4}"#;

const LOWER_BOUND: &str =
    r#"{"ap_first":"0xc","ap_last":"0xf","cells":[["0xa","0xc"],["0xb","0x0"]],"range_begin":"0x0","range_count":0,"rc_max":32769,"rc_min":32765,"steps":4}"#;

const UPPER_BOUND: &str =
    r#"{"ap_first":"0xc","ap_last":"0xf","cells":[["0xa","0xc"],["0xb","0x0"]],"range_begin":"0x0","range_count":0,"rc_max":32770,"rc_min":32766,"steps":4}"#;

/// Tables without rows.
const NO_ROWS: &[u64] = &[0, 0, 0, 0, 0, 1, 12, 12];

/// The tables of the four steps with a range row of 1 with limbs of 0 behind the last state, and the limbs sorted last.
const RANGE_ROW: &[Part] = &[
    Part::Numbers(&[4, 1, 0, 27, 0]),
    Part::Between(FOUR_STEPS, 5, 140),
    Part::Numbers(&[1, 0, 0, 0]),
    Part::Between(FOUR_STEPS, 140, 206),
    Part::Numbers(&[0, 0, 0]),
];

const VERDICTS: &[Row] = &[
    (
        "four steps",
        &[
            Text(FOUR_STEPS_PROGRAM),
            Text(FOUR_STEPS_PUBLIC),
            Tables(FOUR_STEPS, Change::None),
        ],
        Done,
        "check: accepted, 4 steps\n",
    ),
    (
        "a jump that is taken",
        &[
            Text(JUMP_TAKEN_PROGRAM),
            Text(JUMP_TAKEN_PUBLIC),
            Tables(JUMP_TAKEN, Change::None),
        ],
        Done,
        "check: accepted, 2 steps\n",
    ),
    (
        "a jump that isn't taken",
        &[
            Text(JUMP_NOT_TAKEN_PROGRAM),
            Text(JUMP_NOT_TAKEN_PUBLIC),
            Tables(JUMP_NOT_TAKEN, Change::None),
        ],
        Done,
        "check: accepted, 2 steps\n",
    ),
    (
        "an output cell",
        &[
            Text(OUTPUT_CELL_PROGRAM),
            Text(OUTPUT_CELL_PUBLIC),
            Tables(OUTPUT_CELL, Change::None),
        ],
        Done,
        "check: accepted, 4 steps\n",
    ),
    (
        "addresses that wrap",
        &[
            Text(FOUR_STEPS_PROGRAM),
            Text(FOUR_STEPS_PUBLIC),
            Tables(ADDRESSES_WRAP, Change::None),
        ],
        Done,
        "check: accepted, 4 steps\n",
    ),
    (
        "t1 in row 1 is 2",
        &[
            Text(JUMP_TAKEN_PROGRAM),
            Text(JUMP_TAKEN_PUBLIC),
            Tables(JUMP_TAKEN, Number(70, 2)),
        ],
        Refused,
        "check: refused: C24 row 1\n",
    ),
    (
        "another public cell",
        &[
            Text(FOUR_STEPS_PROGRAM),
            Text(CELL_ADDED),
            Tables(FOUR_STEPS, Change::None),
        ],
        Refused,
        "check: refused: M3 row 22\n",
    ),
    (
        "t1 in row 1 is 1, and another public cell",
        &[
            Text(FOUR_STEPS_PROGRAM),
            Text(CELL_ADDED),
            Tables(FOUR_STEPS, Number(70, 1)),
        ],
        Refused,
        "check: refused: C24 row 1\n",
    ),
    (
        "both flags of res",
        &[
            Text(BOTH_RES_FLAGS_PROGRAM),
            Text(BOTH_RES_FLAGS_PUBLIC),
            Tables(BOTH_RES_FLAGS, Change::None),
        ],
        Refused,
        "check: refused: C33 row 0\n",
    ),
    (
        "another end, and the last pc is 6",
        &[
            Text(END_5),
            Text(FOUR_STEPS_PUBLIC),
            Tables(FOUR_STEPS, Number(137, 6)),
        ],
        Refused,
        "check: refused: C26 row 3\n",
    ),
    (
        "another end",
        &[
            Text(END_5),
            Text(FOUR_STEPS_PUBLIC),
            Tables(FOUR_STEPS, Change::None),
        ],
        Refused,
        "check: refused: P6 row 4\n",
    ),
    (
        "five steps are stated",
        &[
            Text(FOUR_STEPS_PROGRAM),
            Text(FIVE_STEPS),
            Tables(FOUR_STEPS, Change::None),
        ],
        Refused,
        "check: refused: P1 row 0\n",
    ),
    (
        "tables without rows",
        &[
            Text(FOUR_STEPS_PROGRAM),
            Text(FOUR_STEPS_PUBLIC),
            Tables(NO_ROWS, Change::None),
        ],
        Refused,
        "check: refused: P1 row 0\n",
    ),
    (
        "the last sorted range value is 32768",
        &[
            Text(FOUR_STEPS_PROGRAM),
            Text(FOUR_STEPS_PUBLIC),
            Tables(FOUR_STEPS, Number(205, 32768)),
        ],
        Refused,
        "check: refused: Q2 row 10\n",
    ),
    (
        "a range cell is stated",
        &[
            Text(FOUR_STEPS_PROGRAM),
            Text(ONE_RANGE_CELL),
            Tables(FOUR_STEPS, Change::None),
        ],
        Refused,
        "check: refused: P2 row 0\n",
    ),
    (
        "another start",
        &[
            Text(START_1),
            Text(FOUR_STEPS_PUBLIC),
            Tables(FOUR_STEPS, Change::None),
        ],
        Refused,
        "check: refused: P3 row 0\n",
    ),
    (
        "another first ap",
        &[
            Text(FOUR_STEPS_PROGRAM),
            Text(FIRST_AP_13),
            Tables(FOUR_STEPS, Change::None),
        ],
        Refused,
        "check: refused: P4 row 0\n",
    ),
    (
        "fp in row 0 is 13",
        &[
            Text(FOUR_STEPS_PROGRAM),
            Text(FOUR_STEPS_PUBLIC),
            Tables(FOUR_STEPS, Number(7, 13)),
        ],
        Refused,
        "check: refused: P5 row 0\n",
    ),
    (
        "another last ap",
        &[
            Text(FOUR_STEPS_PROGRAM),
            Text(LAST_AP_16),
            Tables(FOUR_STEPS, Change::None),
        ],
        Refused,
        "check: refused: P7 row 4\n",
    ),
    (
        "a range row of 1 whose limbs are 0",
        &[
            Text(FOUR_STEPS_PROGRAM),
            Text(ONE_RANGE_CELL),
            Parts(RANGE_ROW),
        ],
        Refused,
        "check: refused: V1 row 0\n",
    ),
    (
        "the last sorted address is 20",
        &[
            Text(FOUR_STEPS_PROGRAM),
            Text(FOUR_STEPS_PUBLIC),
            Tables(FOUR_STEPS, Number(192, 20)),
        ],
        Refused,
        "check: refused: M1 row 25\n",
    ),
    (
        "the second sorted value is 0",
        &[
            Text(FOUR_STEPS_PROGRAM),
            Text(FOUR_STEPS_PUBLIC),
            Tables(FOUR_STEPS, Number(143, 0)),
        ],
        Refused,
        "check: refused: M2 row 0\n",
    ),
    (
        "a lower bound of the range values",
        &[
            Text(FOUR_STEPS_PROGRAM),
            Text(LOWER_BOUND),
            Tables(FOUR_STEPS, Change::None),
        ],
        Refused,
        "check: refused: Q1 row 0\n",
    ),
    (
        "a greater bound of the range values",
        &[
            Text(FOUR_STEPS_PROGRAM),
            Text(UPPER_BOUND),
            Tables(FOUR_STEPS, Change::None),
        ],
        Refused,
        "check: refused: Q3 row 11\n",
    ),
    (
        "the first sorted 32768 is 32767",
        &[
            Text(FOUR_STEPS_PROGRAM),
            Text(FOUR_STEPS_PUBLIC),
            Tables(FOUR_STEPS, Number(200, 32767)),
        ],
        Refused,
        "check: refused: Q4 row 6\n",
    ),
];

/// The program and the public input of the four steps.
pub const P: Bytes = Text(FOUR_STEPS_PROGRAM);

pub const U: Bytes = Text(FOUR_STEPS_PUBLIC);

/// Changes of the tables of the four steps by which they are no tables file.
const NO_TABLES: &[Row] = &[
    (
        "a byte cut",
        &[P, U, Tables(FOUR_STEPS, Cut(1655))],
        Input,
        "input 3: Length\n",
    ),
    (
        "no bytes",
        &[P, U, Tables(FOUR_STEPS, Cut(0))],
        Input,
        "input 3: Length\n",
    ),
    (
        "a byte of the counts cut",
        &[P, U, Tables(FOUR_STEPS, Cut(47))],
        Input,
        "input 3: Length\n",
    ),
    (
        "the counts alone",
        &[P, U, Tables(FOUR_STEPS, Cut(48))],
        Input,
        "input 3: Length\n",
    ),
    (
        "a byte more",
        &[P, U, Tables(FOUR_STEPS, Longer)],
        Input,
        "input 3: Length\n",
    ),
    (
        "p as the first pc",
        &[P, U, Tables(FOUR_STEPS, Number(5, PRIME))],
        Input,
        "input 3: NotField 48\n",
    ),
    (
        "p as the last number",
        &[P, U, Tables(FOUR_STEPS, Number(205, PRIME))],
        Input,
        "input 3: NotField 1648\n",
    ),
    (
        "another text",
        &[P, U, Tables(FOUR_STEPS, Byte(0))],
        Input,
        "input 3: Magic\n",
    ),
    (
        "too many rows",
        &[P, U, Tables(FOUR_STEPS, Number(0, 1048577))],
        Limit,
        "limit: input 3\n",
    ),
    (
        "too many range rows",
        &[P, U, Tables(FOUR_STEPS, Number(1, 262145))],
        Limit,
        "limit: input 3\n",
    ),
    (
        "too many fillers",
        &[P, U, Tables(FOUR_STEPS, Number(2, 2097153))],
        Limit,
        "limit: input 3\n",
    ),
    (
        "too many sorted pairs",
        &[P, U, Tables(FOUR_STEPS, Number(3, 7077889))],
        Limit,
        "limit: input 3\n",
    ),
    (
        "too many range fillers",
        &[P, U, Tables(FOUR_STEPS, Number(4, 65537))],
        Limit,
        "limit: input 3\n",
    ),
    (
        "as many rows as there may be",
        &[P, U, Tables(FOUR_STEPS, Number(0, 1048576))],
        Input,
        "input 3: Length\n",
    ),
];

/// Wide tables.
const WIDE: &[Row] = &[
    (
        "a range cell",
        &[
            Text(RANGE_CELL_PROGRAM),
            Text(RANGE_CELL_PUBLIC),
            Parts(RANGE_CELL),
        ],
        Done,
        "check: accepted, 3 steps\n",
    ),
    (
        "an offset out of range",
        &[P, U, Parts(OFFSET_OUT_OF_RANGE)],
        Refused,
        "check: refused: Q4 row 1\n",
    ),
];

/// Programs and public inputs of which one spells nothing. No tables are there, which is not looked at.
const NO_INPUTS: &[Row] = &[
    (
        "another prime alone",
        &[Text(r#"{"prime":"0x11"}"#), U],
        Input,
        "input 1: Prime\n",
    ),
    (
        "another prime",
        &[Text(OTHER_PRIME), U],
        Input,
        "input 1: Prime\n",
    ),
    (
        "no such end",
        &[Text(END_9), U],
        Input,
        "input 1: Label end\n",
    ),
    ("no texts", &[Text(""), Text("")], Input, "input 1: Json\n"),
    ("no public input", &[P, Text("")], Input, "input 2: Json\n"),
    ("a number", &[P, Text("7")], Input, "input 2: Key steps\n"),
    ("a list", &[P, Text("[]")], Input, "input 2: Key steps\n"),
    (
        "no members",
        &[P, Text("{}")],
        Input,
        "input 2: Key steps\n",
    ),
    (
        "no steps",
        &[P, Text(r#"{"steps":0}"#)],
        Input,
        "input 2: Range steps\n",
    ),
    (
        "too many steps",
        &[P, Text(r#"{"steps":1048577}"#)],
        Limit,
        "limit: input 2\n",
    ),
    (
        "only steps",
        &[P, Text(r#"{"steps":1}"#)],
        Input,
        "input 2: Key ap_first\n",
    ),
    (
        "no last ap",
        &[P, Text(r#"{"steps":1,"ap_first":"0x1"}"#)],
        Input,
        "input 2: Key ap_last\n",
    ),
    (
        "no least small value",
        &[P, Text(r#"{"steps":1,"ap_first":"0x1","ap_last":"0x1"}"#)],
        Input,
        "input 2: Key rc_min\n",
    ),
    (
        "no greatest one",
        &[
            P,
            Text(r#"{"steps":1,"ap_first":"0x1","ap_last":"0x1","rc_min":0}"#),
        ],
        Input,
        "input 2: Key rc_max\n",
    ),
    (
        "no range cells",
        &[
            P,
            Text(r#"{"steps":1,"ap_first":"0x1","ap_last":"0x1","rc_min":0,"rc_max":0}"#),
        ],
        Input,
        "input 2: Key range_begin\n",
    ),
    (
        "no count of these",
        &[
            P,
            Text(
                r#"{"steps":1,"ap_first":"0x1","ap_last":"0x1","rc_min":0,"rc_max":0,"range_begin":"0x0"}"#,
            ),
        ],
        Input,
        "input 2: Key range_count\n",
    ),
    (
        "no cells",
        &[
            P,
            Text(
                r#"{"steps":1,"ap_first":"0x1","ap_last":"0x1","rc_min":0,"rc_max":0,"range_begin":"0x0","range_count":0}"#,
            ),
        ],
        Input,
        "input 2: Key cells\n",
    ),
];

/// 128 lists in one another.
const NESTED: &str =
    "[[[[[[[[[[[[[[[[[[[[[[[[[[[[[[[[[[[[[[[[[[[[[[[[[[[[[[[[[[[[[[[[[[[[[[[[[[[[[[[[[[[[[[[[[[[[[[[[[[[[[[[[[[[[[[[[[[[[[[[[[[[[[[[[]]]]]]]]]]]]]]]]]]]]]]]]]]]]]]]]]]]]]]]]]]]]]]]]]]]]]]]]]]]]]]]]]]]]]]]]]]]]]]]]]]]]]]]]]]]]]]]]]]]]]]]]]]]]]]]]]]]]]]]]]]]]]]]]";

/// Members behind those of the public input of the four steps, without tables. Of equal keys the last one counts. Where
/// there is no fault, the tables are missing.
const MEMBERS: &[Row] = &[
    (
        "a key that is none",
        &[P, Member(r#""end":[0]"#)],
        Missing,
        "missing: input 3\n",
    ),
    (
        "no step",
        &[P, Member(r#""steps":0"#)],
        Input,
        "input 2: Range steps\n",
    ),
    (
        "steps twice",
        &[P, Member(r#""steps":0,"steps":4"#)],
        Missing,
        "missing: input 3\n",
    ),
    (
        "steps as a text",
        &[P, Member(r#""steps":"4""#)],
        Input,
        "input 2: Key steps\n",
    ),
    (
        "steps with a point",
        &[P, Member(r#""steps":4.0"#)],
        Input,
        "input 2: Key steps\n",
    ),
    (
        "a step too many",
        &[P, Member(r#""steps":1048577"#)],
        Limit,
        "limit: input 2\n",
    ),
    (
        "ap_first as a number",
        &[P, Member(r#""ap_first":12"#)],
        Input,
        "input 2: Key ap_first\n",
    ),
    (
        "ap_last with a wrong digit",
        &[P, Member(r#""ap_last":"0xg""#)],
        Input,
        "input 2: Key ap_last\n",
    ),
    (
        "rc_min below 0",
        &[P, Member(r#""rc_min":-1"#)],
        Input,
        "input 2: Key rc_min\n",
    ),
    (
        "rc_min above rc_max",
        &[P, Member(r#""rc_min":32770"#)],
        Input,
        "input 2: Range rc_min\n",
    ),
    (
        "rc_max with a point",
        &[P, Member(r#""rc_max":4.0"#)],
        Input,
        "input 2: Key rc_max\n",
    ),
    (
        "rc_max above 16 bits",
        &[P, Member(r#""rc_max":65536"#)],
        Input,
        "input 2: Range rc_max\n",
    ),
    (
        "range_begin that is p",
        &[P, Member(r#""range_begin":"0xffffffff00000001""#)],
        Input,
        "input 2: Key range_begin\n",
    ),
    (
        "no range_count",
        &[P, Member(r#""range_count":null"#)],
        Input,
        "input 2: Key range_count\n",
    ),
    (
        "a range cell too many",
        &[P, Member(r#""range_count":262145"#)],
        Limit,
        "limit: input 2\n",
    ),
    (
        "cells as an object",
        &[P, Member(r#""cells":{}"#)],
        Input,
        "input 2: Key cells\n",
    ),
    (
        "a cell as a number",
        &[P, Member(r#""cells":[7]"#)],
        Input,
        "input 2: Cell 0\n",
    ),
    (
        "a cell of three numbers",
        &[P, Member(r#""cells":[["0xa","0xc","0x1"]]"#)],
        Input,
        "input 2: Cell 0\n",
    ),
    (
        "a cell of one number",
        &[P, Member(r#""cells":[["0xa","0xc"],["0xb"]]"#)],
        Input,
        "input 2: Cell 1\n",
    ),
    (
        "one address twice",
        &[P, Member(r#""cells":[["0xa","0xc"],["0xa","0xd"]]"#)],
        Input,
        "input 2: Order 1\n",
    ),
    (
        "addresses that descend",
        &[
            P,
            Member(r#""cells":[["0xa","0xc"],["0xb","0x0"],["10","0xd"]]"#),
        ],
        Input,
        "input 2: Order 2\n",
    ),
    ("no UTF-8", &[P, Raw(b"\xff")], Input, "input 2: Json\n"),
    (
        "128 lists in one another",
        &[P, Text(NESTED)],
        Input,
        "input 2: Json\n",
    ),
];

#[test]
fn tables_have_their_verdict(rt: HostRuntime) {
    check_rows(&rt, rt.alloc(), CHECK, VERDICTS);
}

#[test]
fn wide_tables_have_their_verdict(rt: HostRuntime) {
    check_rows(&rt, rt.alloc(), CHECK, WIDE);
}

#[test]
fn files_that_are_none_are_told(rt: HostRuntime) {
    check_rows(&rt, rt.alloc(), CHECK, NO_TABLES);
    check_rows(&rt, rt.alloc(), CHECK, NO_INPUTS);
}

#[test]
fn faults_of_a_public_input_are_told(rt: HostRuntime) {
    check_rows(&rt, rt.alloc(), CHECK, MEMBERS);
}

/// The files of the four steps.
const FOUR: &[Bytes] = &[P, U, T];

const T: Bytes = Tables(FOUR_STEPS, Change::None);

const MISSING: &[Row] = &[
    ("no program", &[Absent, U, T], Missing, "missing: input 1\n"),
    (
        "no public input",
        &[P, Absent, T],
        Missing,
        "missing: input 2\n",
    ),
    ("no tables", &[P, U, Absent], Missing, "missing: input 3\n"),
];

/// Calls of the store that fail.
const FAULTS: &[Fault] = &[
    ("reading the program", &[2], StoreFault, "store fault: P\n"),
    (
        "beginning the public input",
        &[4],
        StoreFault,
        "store fault: U\n",
    ),
    (
        "the end of the tables",
        &[9],
        StoreFault,
        "store fault: T\n",
    ),
    (
        "a call that is not made",
        &[10],
        Done,
        "check: accepted, 4 steps\n",
    ),
];

#[test]
fn missing_files_and_failing_calls_are_told(rt: HostRuntime) {
    check_rows(&rt, rt.alloc(), CHECK, MISSING);
    check_faults(&rt, rt.alloc(), CHECK, FOUR, FAULTS);
    let mut store = store_of(&rt, rt.alloc(), CHECK, FOUR, &[]);
    check_failing_sink(&rt, rt.alloc(), "a failing sink", CHECK, &mut store);
}
