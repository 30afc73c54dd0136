//! Words that are an unknown command, names that are missing, and the numbers of the statuses.

use super::contents::Bytes::{Absent, Raw};
use super::contents::bytes_of;
use super::{Fault, Files, NO_MEMORY, TRACE, WALK, check_call, check_faults, put_file, store_in};
use cairo_commands::Status;
use cairo_commands::Status::{Done, Input, Limit, Missing, Refused, Words};
use std::alloc::Global;
use std::process::Abort;

/// Words that are an unknown command.
const UNKNOWN_COMMANDS: &[&[&str]] = &[
    &[],
    &[""],
    &["walk"],
    &["walk", "T"],
    &["walk", "T", "M", "X"],
    &["walk", "", "M"],
    &["walk", "T", ""],
    &["walk", "T", "M", "--workers", "2"],
    &["walk", "T", "M", ""],
    &["Walk", "T", "M"],
    &["walk ", "T", "M"],
    &["wal", "T", "M"],
    &["", "T", "M"],
    &["T", "M"],
    &["asm"],
    &["asm", "X"],
    &["asm", "X", "X"],
    &["asm", "", "P"],
    &["asm", "X", ""],
    &["asm", "X", "P", "Q"],
    &["dis", "P", "P"],
    &["dis", "P"],
    &["run"],
    &["run", "P", "H", "T", "M", "U"],
    &["run", "P", "H", "T", "M", "U", "O", "Q"],
    &["run", "P", "H", "T", "M", "U", "T"],
    &["run", "P", "H", "T", "M", "M", "O"],
    &["run", "P", "H", "P", "M", "U", "O"],
    &["run", "P", "H", "T", "M", "U", "H"],
    &["run", "", "H", "T", "M", "U", "O"],
    &["run", "P", "H", "T", "M", "U", ""],
    &["run", "P", "H", "T", "M", "U", "O", "--workers", "2"],
    &["check", "P", "U"],
    &["check", "P", "U", ""],
    &["check", "P", "U", "T", "--workers", "2"],
    &["tables"],
    &["tables", "P", "U", "T", "M"],
    &["tables", "P", "U", "T", "M", "O", "Q"],
    &["tables", "P", "U", "T", "M", "P"],
    &["tables", "P", "U", "T", "M", "U"],
    &["tables", "P", "U", "T", "M", "T"],
    &["tables", "P", "U", "T", "M", "M"],
    &["tables", "P", "U", "T", "M", ""],
    &["tables", "", "U", "T", "M", "O"],
    &["tables", "P", "U", "T", "", "O"],
    &["tables", "P", "U", "T", "M", "O", "--workers", "2"],
    &["table", "P", "U", "T", "M", "O"],
];

/// What is tried: words with names of which some are missing, the files that are there, and what is answered.
type Named = (
    &'static str,
    &'static [&'static str],
    &'static [&'static str],
    Status,
    &'static str,
);

const NAMES: &[Named] = &[
    (
        "one name twice",
        &["walk", "T", "T"],
        &["T"],
        Input,
        "input 2: Length\n",
    ),
    (
        "names with a blank and a letter that is not ASCII",
        &["walk", "a b", "\u{e9}"],
        &[],
        Missing,
        "missing: input 1\n",
    ),
    ("no memory", WALK, &["T"], Missing, "missing: input 2\n"),
    ("no trace", WALK, &["M"], Missing, "missing: input 1\n"),
    (
        "names that are nearly the trace's",
        WALK,
        &["t", "m", "M "],
        Missing,
        "missing: input 1\n",
    ),
    (
        "names that are nearly the memory's",
        WALK,
        &["T", "m", "MM"],
        Missing,
        "missing: input 2\n",
    ),
];

#[test]
fn unknown_words_are_told(rt: HostRuntime) {
    for words in UNKNOWN_COMMANDS {
        // A call on the store would fail.
        let mut store = store_in(&rt, rt.alloc(), Vec::new(rt.alloc()), &[1]);
        let row = format!(in rt.alloc(); "{words:?}").expect(&rt, NO_MEMORY);
        check_call(&rt, rt.alloc(), &row, words, &mut store, (Words, "usage\n"));
    }
}

/// The names that are listed, each with the bytes of the trace.
fn traces(rt: &impl Abort, alloc: Global, names: &[&str]) -> Files {
    let mut files = Vec::new(alloc);
    for name in names {
        put_file(rt, alloc, &mut files, name, bytes_of(rt, alloc, TRACE));
    }
    files
}

#[test]
fn missing_names_are_told(rt: HostRuntime) {
    for (row, words, names, status, line) in NAMES {
        let mut store = store_in(&rt, rt.alloc(), traces(&rt, rt.alloc(), names), &[]);
        check_call(&rt, rt.alloc(), row, words, &mut store, (*status, line));
    }
}

/// The second input is not begun, missing or not: that call would fail.
#[test]
fn the_first_input_decides(rt: HostRuntime) {
    let second: &[Fault] = &[("the first input", &[4], Input, "input 1: Length\n")];
    check_faults(&rt, rt.alloc(), WALK, &[Raw(b"no trace"), Absent], second);
    check_faults(&rt, rt.alloc(), WALK, &[Raw(b"no trace"), Raw(b"")], second);
    let missing: &[Fault] = &[("no first input", &[2], Missing, "missing: input 1\n")];
    check_faults(&rt, rt.alloc(), WALK, &[Absent, Raw(b"")], missing);
}

/// The statuses and their numbers.
const STATUSES: &[(Status, u8)] = &[
    (Done, 0),
    (Refused, 1),
    (Words, 2),
    (Input, 3),
    (Status::Run, 4),
    (Status::Store, 5),
    (Status::Sink, 6),
    (Status::Memory, 7),
    (Limit, 8),
    (Missing, 9),
];

#[test]
fn statuses_have_numbers(rt: HostRuntime) {
    for (status, number) in STATUSES {
        assert_eq!(rt; status.number(), *number, "{status:?}");
    }
}
