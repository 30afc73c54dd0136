//! `run`: a worked run with its four files, what a failed call leaves, other inputs, and the step limit.
//!
//! The runs from outside, done and refused, are calls of the program `outside_calls`.

use super::check::P;
use super::contents::Bytes::{Absent, Long, Numbers, Raw, Repeated, Tables, Text};
use super::contents::{Bytes, Change, said};
use super::vectors::{
    BOTH_RES_FLAGS_PROGRAM, FOUR_STEPS, FOUR_STEPS_PUBLIC, JUMP_NOT_TAKEN, JUMP_NOT_TAKEN_MEMORY,
    JUMP_NOT_TAKEN_PROGRAM, JUMP_NOT_TAKEN_PUBLIC, JUMP_NOT_TAKEN_TRACE, JUMP_TAKEN,
    JUMP_TAKEN_MEMORY, JUMP_TAKEN_PROGRAM, JUMP_TAKEN_PUBLIC, JUMP_TAKEN_TRACE,
};
use super::{
    MEMORY, Row, TRACE, check_call, check_failing_sink, check_file, files_of, put_file, store_in,
    store_of,
};
use cairo_commands::Status::{self, Done, Input, Limit, Missing, Store as StoreFault};
use file_port::MemoryStore;
use std::alloc::Global;
use std::process::Abort;

const RUN: &[&str] = &["run", "P", "H", "T", "M", "U", "O"];

/// The names of the files that are written, in their order.
const WRITTEN: &[&str] = &["T", "M", "U", "O"];

const WALK: &[&str] = &["walk", "T", "M"];

const CHECK: &[&str] = &["check", "P", "U", "O"];

/// Hints that give nothing.
const NO_HINTS: Bytes = Raw(br#"{"cells":[],"extra":0}"#);

/// A run: its name, the program, its trace, its memory, its public input and its tables, and the lines of `run`, `walk`
/// and `check`.
type Run = (
    &'static str,
    Bytes,
    &'static [Bytes],
    &'static str,
    &'static str,
    &'static str,
);

/// The four files of the four steps.
const FOUR_STEPS_FILES: &[Bytes] = &[
    Numbers(TRACE),
    Numbers(MEMORY),
    Text(FOUR_STEPS_PUBLIC),
    Tables(FOUR_STEPS, Change::None),
];

const RUNS: &[Run] = &[
    (
        "four steps",
        P,
        FOUR_STEPS_FILES,
        "run: 4 steps, 14 cells\n",
        "walk: 4 steps\n",
        "check: accepted, 4 steps\n",
    ),
    (
        "a jump that is taken",
        Text(JUMP_TAKEN_PROGRAM),
        &[
            Numbers(JUMP_TAKEN_TRACE),
            Numbers(JUMP_TAKEN_MEMORY),
            Text(JUMP_TAKEN_PUBLIC),
            Tables(JUMP_TAKEN, Change::None),
        ],
        "run: 2 steps, 11 cells\n",
        "walk: 2 steps\n",
        "check: accepted, 2 steps\n",
    ),
    (
        "a jump that is not taken",
        Text(JUMP_NOT_TAKEN_PROGRAM),
        &[
            Numbers(JUMP_NOT_TAKEN_TRACE),
            Numbers(JUMP_NOT_TAKEN_MEMORY),
            Text(JUMP_NOT_TAKEN_PUBLIC),
            Tables(JUMP_NOT_TAKEN, Change::None),
        ],
        "run: 2 steps, 11 cells\n",
        "walk: 2 steps\n",
        "check: accepted, 2 steps\n",
    ),
];

/// What stands in the four files before a call.
const BEFORE: &[Bytes] = &[
    Raw(b"a trace"),
    Raw(b"a memory"),
    Raw(b"a public input"),
    Raw(b"tables"),
];

/// A store of these inputs, and of a file under each name that is written. It fails at the call of this number.
fn store_before(rt: &impl Abort, alloc: Global, inputs: &[Bytes], call: u32) -> MemoryStore {
    let mut files = files_of(rt, alloc, RUN, inputs);
    for (name, bytes) in WRITTEN.iter().zip(BEFORE) {
        put_file(rt, alloc, &mut files, name, said(rt, alloc, *bytes));
    }
    store_in(rt, alloc, files, &[call])
}

/// Looks at the files that are written, which are these; those behind them are as before.
fn check_outputs(rt: &impl Abort, alloc: Global, row: &str, store: &MemoryStore, files: &[Bytes]) {
    for ((place, name), before) in WRITTEN.iter().enumerate().zip(BEFORE) {
        let wanted = said(rt, alloc, *files.get(place).unwrap_or(before));
        check_file(rt, row, store, name, Some(&wanted));
    }
}

#[test]
fn runs_are_written(rt: HostRuntime) {
    for (row, program, files, line, walked, accepted) in RUNS {
        let mut store = store_of(&rt, rt.alloc(), RUN, &[*program, NO_HINTS], &[]);
        check_call(&rt, rt.alloc(), row, RUN, &mut store, (Done, line));
        check_outputs(&rt, rt.alloc(), row, &store, files);
        check_call(&rt, rt.alloc(), row, WALK, &mut store, (Done, walked));
        check_call(&rt, rt.alloc(), row, CHECK, &mut store, (Done, accepted));
    }
}

/// A call of a store that is never made.
const NO_CALL: u32 = 1000000;

/// Programs whose line can't be printed, and the files that are written.
const UNPRINTED: &[(&str, Bytes, &[Bytes])] = &[
    ("a run that is not printed", P, FOUR_STEPS_FILES),
    ("a refusal that is not printed", OUTPUT, &[]),
    ("a fault that is not printed", Raw(b"{"), &[]),
    ("an input that is missing", Absent, &[]),
];

/// The calls of the store, of which each one fails, what is answered, and how many files are written before.
const FAULTS: &[(&str, u32, Status, &str, usize)] = &[
    (
        "beginning the program",
        1,
        StoreFault,
        "store fault: P\n",
        0,
    ),
    ("reading the program", 2, StoreFault, "store fault: P\n", 0),
    ("the program's end", 3, StoreFault, "store fault: P\n", 0),
    ("beginning the hints", 4, StoreFault, "store fault: H\n", 0),
    ("reading the hints", 5, StoreFault, "store fault: H\n", 0),
    ("the hints' end", 6, StoreFault, "store fault: H\n", 0),
    ("writing the trace", 7, StoreFault, "store fault: T\n", 0),
    ("writing the memory", 8, StoreFault, "store fault: M\n", 1),
    ("writing the public", 9, StoreFault, "store fault: U\n", 2),
    ("writing the tables", 10, StoreFault, "store fault: O\n", 3),
    (
        "no call that is made",
        11,
        Done,
        "run: 4 steps, 14 cells\n",
        4,
    ),
];

#[test]
fn failing_calls_leave_the_files_before_them(rt: HostRuntime) {
    for (row, call, status, line, count) in FAULTS {
        let mut store = store_before(&rt, rt.alloc(), &[P, NO_HINTS], *call);
        check_call(&rt, rt.alloc(), row, RUN, &mut store, (*status, line));
        let left = FOUR_STEPS_FILES.get(..*count).unwrap_or(&[]);
        check_outputs(&rt, rt.alloc(), row, &store, left);
    }
    for (row, program, left) in UNPRINTED {
        let mut store = store_before(&rt, rt.alloc(), &[*program, NO_HINTS], NO_CALL);
        check_failing_sink(&rt, rt.alloc(), row, RUN, &mut store);
        check_outputs(&rt, rt.alloc(), row, &store, left);
    }
}

/// A program that names a builtin.
const OUTPUT: Bytes = Raw(
    br#"{"builtins":["output"],"data":["0x208b7fff7fff7ffe"],"end":0,"prime":"0xffffffff00000001","start":0}"#,
);

/// Two jumps to themselves, of which the first is the start and the second the end.
const JUMPS: Bytes = Raw(
    br#"{"builtins":[],"data":["0x10780017fff7fff","0x0","0x10780017fff7fff","0x0"],"end":2,"prime":"0xffffffff00000001","start":0}"#,
);

/// Files of which one is another, or none, and runs that are refused. Then the four files are as before.
const OTHERS: &[Row] = &[
    (
        "no program",
        &[Absent, NO_HINTS],
        Missing,
        "missing: input 1\n",
    ),
    ("no hints", &[P, Absent], Missing, "missing: input 2\n"),
    ("no JSON", &[P, Raw(b"{")], Input, "input 2: Json\n"),
    ("no object", &[P, Raw(b"[]")], Input, "input 2: Key extra\n"),
    (
        "no cells",
        &[P, Raw(br#"{"extra":0}"#)],
        Input,
        "input 2: Key cells\n",
    ),
    (
        "a cell of one entry",
        &[P, Raw(br#"{"cells":[[1]],"extra":0}"#)],
        Input,
        "input 2: Cell 0\n",
    ),
    (
        "too many extra segments",
        &[P, Raw(br#"{"cells":[],"extra":65537}"#)],
        Limit,
        "limit: input 2\n",
    ),
    (
        "too many cells",
        &[
            P,
            Repeated("{\"extra\":0,\"cells\":[", "0,", 1048576, "0]}"),
        ],
        Limit,
        "limit: input 2\n",
    ),
    (
        "a long hint file",
        &[P, Long(b' ', 134217729)],
        Limit,
        "limit: input 2\n",
    ),
    (
        "a builtin, before a hint and the start",
        &[OUTPUT, Raw(br#"{"cells":[[9,0,"0x0"]],"extra":0}"#)],
        Status::Run,
        "run: builtins\n",
    ),
    (
        "the second of three hints",
        &[
            P,
            Raw(br#"{"cells":[[2,0,"0x5"],[2,0,"0x6"],[9,0,"0x0"]],"extra":1}"#),
        ],
        Status::Run,
        "run: hint 1: Conflict 5\n",
    ),
    (
        "a hint over the start stack",
        &[P, Raw(br#"{"cells":[[1,0,[1,2]],[1,1,"0x1"]],"extra":0}"#)],
        Status::Run,
        "run: hint 1: Conflict 0\n",
    ),
    (
        "a start at the end",
        &[
            Raw(
                br#"{"builtins":[],"data":["0x208b7fff7fff7ffe"],"end":0,"prime":"0xffffffff00000001","start":0}"#,
            ),
            NO_HINTS,
        ],
        Status::Run,
        "run: no steps\n",
    ),
    (
        "a step",
        &[
            Raw(
                br#"{"builtins":[],"data":["0x8000000000000000","0x0"],"end":1,"prime":"0xffffffff00000001","start":0}"#,
            ),
            NO_HINTS,
        ],
        Status::Run,
        "run: step 0: BadWord HighBit\n",
    ),
    (
        "both flags of res",
        &[Text(BOTH_RES_FLAGS_PROGRAM), NO_HINTS],
        Status::Run,
        "run: step 0: BadWord Undefined Res\n",
    ),
    (
        "the step limit",
        &[JUMPS, NO_HINTS],
        Status::Run,
        "run: step limit\n",
    ),
];

#[test]
fn other_inputs_leave_the_files(rt: HostRuntime) {
    for (row, files, status, line) in OTHERS {
        let mut store = store_before(&rt, rt.alloc(), files, NO_CALL);
        check_call(&rt, rt.alloc(), row, RUN, &mut store, (*status, line));
        check_outputs(&rt, rt.alloc(), row, &store, &[]);
    }
}
