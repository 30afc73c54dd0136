//! `asm`: texts from outside, and their faults.

use super::contents::Bytes::{Long, Repeated};
use super::loop_of_twenty::{PROGRAM as LOOP_OF_TWENTY_PROGRAM, TEXT as LOOP_OF_TWENTY_TEXT};
use super::one_return::RET;
use super::vectors::{
    FOUR_STEPS_PROGRAM, JUMP_NOT_TAKEN_PROGRAM, JUMP_NOT_TAKEN_TEXT, JUMP_TAKEN_PROGRAM,
    JUMP_TAKEN_TEXT, OUTPUT_CELL_PROGRAM, OUTPUT_CELL_TEXT, RANGE_CELL_PROGRAM, RANGE_CELL_TEXT,
};
use super::{Row, Written, check_rows, check_written};
use cairo_commands::Status::{Done, Input, Limit};

pub const ASM: &[&str] = &["asm", "X", "P"];

/// Texts, what `asm` answers of them, and the program file that it writes, if it writes one.
const TEXTS: &[Written] = &[
    ("%start 0\n%end 0\nret\n", Done, "asm: 1 words\n", Some(RET)),
    (
        "%start main\n%end stop\nmain: ap += 0;\ncall f\nstop:\njmp stop\nf: [ap] = 25, ap++;\nret\n",
        Done,
        "asm: 9 words\n",
        Some(FOUR_STEPS_PROGRAM),
    ),
    (
        JUMP_TAKEN_TEXT,
        Done,
        "asm: 8 words\n",
        Some(JUMP_TAKEN_PROGRAM),
    ),
    (
        JUMP_NOT_TAKEN_TEXT,
        Done,
        "asm: 8 words\n",
        Some(JUMP_NOT_TAKEN_PROGRAM),
    ),
    (
        OUTPUT_CELL_TEXT,
        Done,
        "asm: 9 words\n",
        Some(OUTPUT_CELL_PROGRAM),
    ),
    (
        RANGE_CELL_TEXT,
        Done,
        "asm: 7 words\n",
        Some(RANGE_CELL_PROGRAM),
    ),
    (
        LOOP_OF_TWENTY_TEXT,
        Done,
        "asm: 25 words\n",
        Some(LOOP_OF_TWENTY_PROGRAM),
    ),
    ("[ap] = [fp + 40000]", Input, "input 1: Range 1:14\n", None),
    ("ret ret", Input, "input 1: Token 1:5\n", None),
    ("ap += 12a", Input, "input 1: Number 1:7\n", None),
    ("ret\n ?", Input, "input 1: Char 2:2\n", None),
    ("", Input, "input 1: NoEnd\n", None),
    ("%end 0\njmp foo", Input, "input 1: Unknown foo 2\n", None),
    (
        "%end 0\na: ret\nret\na: ret",
        Input,
        "input 1: Duplicate 4\n",
        None,
    ),
    (
        "%start 0\n%start 0\n%end 0\nret",
        Input,
        "input 1: Duplicate 2\n",
        None,
    ),
    ("%end 1\nret", Input, "input 1: EndOutside\n", None),
    (
        "%start 1\n%end 0\nret",
        Input,
        "input 1: StartOutside\n",
        None,
    ),
];

#[test]
fn texts_are_assembled(rt: HostRuntime) {
    check_written(&rt, rt.alloc(), ASM, ("X", "P"), TEXTS);
}

const LIMITS: &[Row] = &[
    (
        "2^18 words",
        &[Repeated("%end 0\n", "dw 0\n", 262144, "")],
        Done,
        "asm: 262144 words\n",
    ),
    (
        "one word more",
        &[Repeated("%end 0\n", "dw 0\n", 262145, "")],
        Limit,
        "limit: input 1\n",
    ),
    (
        "a long text",
        &[Long(b' ', 16777217)],
        Limit,
        "limit: input 1\n",
    ),
];

#[test]
fn limits_of_texts_are_kept(rt: HostRuntime) {
    check_rows(&rt, rt.alloc(), ASM, LIMITS);
}
