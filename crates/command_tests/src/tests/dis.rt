//! `dis`: programs from outside, and their faults.

use super::contents::Bytes::{Long, Repeated};
use super::loop_of_twenty::{PROGRAM as LOOP_OF_TWENTY_PROGRAM, TEXT as LOOP_OF_TWENTY_TEXT};
use super::one_return::RET;
use super::vectors::{
    JUMP_NOT_TAKEN_PROGRAM, JUMP_NOT_TAKEN_TEXT, JUMP_TAKEN_PROGRAM, JUMP_TAKEN_TEXT,
    OUTPUT_CELL_PROGRAM, OUTPUT_CELL_TEXT, RANGE_CELL_PROGRAM, RANGE_CELL_TEXT,
};
use super::{Row, Written, check_rows, check_written};
use cairo_commands::Status::{Done, Input, Limit};

pub const DIS: &[&str] = &["dis", "P", "X"];

/// Program files, what `dis` answers of them, and the text that it writes, if it writes one.
const PROGRAMS: &[Written] = &[
    (RET, Done, "dis: 1 words\n", Some("%start 0\n%end 0\nret\n")),
    (
        r#"{"builtins":[],"data":["0x480680017fff8000"],"end":0,"prime":"0xffffffff00000001","start":0}"#,
        Done,
        "dis: 1 words\n",
        Some("%start 0\n%end 0\ndw 0x480680017fff8000\n"),
    ),
    (
        r#"{"builtins":[],"data":["0x8000000000000000","0x0"],"end":1,"prime":"0xffffffff00000001","start":0}"#,
        Done,
        "dis: 2 words\n",
        Some("%start 0\n%end 1\ndw 0x8000000000000000\ndw 0x0\n"),
    ),
    (
        JUMP_TAKEN_PROGRAM,
        Done,
        "dis: 8 words\n",
        Some(JUMP_TAKEN_TEXT),
    ),
    (
        JUMP_NOT_TAKEN_PROGRAM,
        Done,
        "dis: 8 words\n",
        Some(JUMP_NOT_TAKEN_TEXT),
    ),
    (
        OUTPUT_CELL_PROGRAM,
        Done,
        "dis: 9 words\n",
        Some(OUTPUT_CELL_TEXT),
    ),
    (
        RANGE_CELL_PROGRAM,
        Done,
        "dis: 7 words\n",
        Some(RANGE_CELL_TEXT),
    ),
    (
        LOOP_OF_TWENTY_PROGRAM,
        Done,
        "dis: 25 words\n",
        Some(LOOP_OF_TWENTY_TEXT),
    ),
    ("{", Input, "input 1: Json\n", None),
    ("[]", Input, "input 1: Key prime\n", None),
    (r#"{"prime":"0x11"}"#, Input, "input 1: Prime\n", None),
    (
        r#"{"prime":"0xffffffff00000001"}"#,
        Input,
        "input 1: Key data\n",
        None,
    ),
    (
        r#"{"prime":"0xffffffff00000001","data":["1","x"]}"#,
        Input,
        "input 1: Felt 1\n",
        None,
    ),
    (
        r#"{"builtins":["x"],"data":["0x0"],"end":0,"prime":"0xffffffff00000001","start":0}"#,
        Input,
        "input 1: Builtin\n",
        None,
    ),
    (
        r#"{"builtins":[],"data":["0x0"],"end":9,"prime":"0xffffffff00000001","start":0}"#,
        Input,
        "input 1: Label end\n",
        None,
    ),
];

#[test]
fn programs_are_shown(rt: HostRuntime) {
    check_written(&rt, rt.alloc(), DIS, ("P", "X"), PROGRAMS);
}

/// A program of many words 0, up to the first one.
const FIRST_WORD: &str =
    r#"{"prime":"0xffffffff00000001","start":0,"end":0,"builtins":[],"data":["0x0""#;

/// A word more.
const ONE_MORE: &str = r#","0x0""#;

const LIMITS: &[Row] = &[
    (
        "2^18 words",
        &[Repeated(FIRST_WORD, ONE_MORE, 262143, "]}")],
        Done,
        "dis: 262144 words\n",
    ),
    (
        "one word more",
        &[Repeated(FIRST_WORD, ONE_MORE, 262144, "]}")],
        Limit,
        "limit: input 1\n",
    ),
    (
        "a long program",
        &[Long(b' ', 16777217)],
        Limit,
        "limit: input 1\n",
    ),
];

#[test]
fn limits_of_programs_are_kept(rt: HostRuntime) {
    check_rows(&rt, rt.alloc(), DIS, LIMITS);
}
