//! `asm` and `dis` over the text X and the program P of one `ret`: calls of the store and the sink that fail.

use super::asm::ASM;
use super::contents::Bytes;
use super::dis::DIS;
use super::{check_call, check_failing_sink, check_file, store_of};
use cairo_commands::Status::{self, Done, Missing, Store as StoreFault};

/// The program of one `ret`, as a program file.
pub const RET: &str =
    r#"{"builtins":[],"data":["0x208b7fff7fff7ffe"],"end":0,"prime":"0xffffffff00000001","start":0}"#;

/// A text of that program.
const RET_TEXT: &[u8] = b"%end 0\nret";

/// The text and the program.
const RET_FILES: &[Bytes] = &[Bytes::Raw(RET_TEXT), Bytes::Text(RET)];

/// Calls of the store that fail, and what is answered.
const FAULTS: &[(&[&str], &[u32], Status, &str)] = &[
    (ASM, &[1], StoreFault, "store fault: X\n"),
    (ASM, &[2], StoreFault, "store fault: X\n"),
    (ASM, &[3], StoreFault, "store fault: X\n"),
    (ASM, &[4], StoreFault, "store fault: P\n"),
    (ASM, &[5], Done, "asm: 1 words\n"),
    (&["asm", "Z", "P"], &[], Missing, "missing: input 1\n"),
    (DIS, &[1], StoreFault, "store fault: P\n"),
    (DIS, &[2], StoreFault, "store fault: P\n"),
    (DIS, &[3], StoreFault, "store fault: P\n"),
    (DIS, &[4], StoreFault, "store fault: X\n"),
    (&["dis", "Z", "X"], &[2], Missing, "missing: input 1\n"),
];

/// No file changes, but by the call that is done, which writes what was there.
#[test]
fn failing_calls_are_told(rt: HostRuntime) {
    for (words, fails, status, line) in FAULTS {
        let mut store = store_of(&rt, rt.alloc(), ASM, RET_FILES, fails);
        check_call(&rt, rt.alloc(), line, words, &mut store, (*status, line));
        check_file(&rt, line, &store, "X", Some(RET_TEXT));
        check_file(&rt, line, &store, "P", Some(RET.as_bytes()));
    }
}

#[test]
fn a_failing_sink_comes_after_the_text(rt: HostRuntime) {
    let mut store = store_of(&rt, rt.alloc(), ASM, RET_FILES, &[]);
    check_failing_sink(&rt, rt.alloc(), "a failing sink", DIS, &mut store);
    let written = b"%start 0\n%end 0\nret\n";
    check_file(&rt, "a failing sink", &store, "X", Some(written));
}
