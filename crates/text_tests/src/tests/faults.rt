//! The first faults of texts.

use casm_text::parse;
use casm_tokens::{ParseFault, SyntaxKind, TEXT_LIMIT};
use std::alloc::{AllocError, Global};
use std::test::Fail;

/// The fault of a text.
pub(super) fn fault(alloc: Global, text: &[u8]) -> Option<ParseFault> {
    if text.len() > TEXT_LIMIT {
        return None;
    }
    parse(alloc, text).err()
}

/// A text, the line and the column of its first fault, and what is wrong there.
const FAULTS: &[(&[u8], u32, u32, SyntaxKind)] = &[
    (b"[ap] = [fp + 40000]", 1, 14, SyntaxKind::Range),
    (b"ret ret", 1, 5, SyntaxKind::Token),
    (b"jmp rel", 1, 8, SyntaxKind::Token),
    (b"ap += 12a", 1, 7, SyntaxKind::Number),
    // bytes that begin no token
    (b"ret /", 1, 5, SyntaxKind::Char),
    (b"[ap] ! [fp]", 1, 6, SyntaxKind::Char),
    (b"\xc3\xa9: ret", 1, 1, SyntaxKind::Char),
    (b"f\xc3\xa9: ret", 1, 2, SyntaxKind::Char),
    (b"ret\nret @ 12a", 2, 5, SyntaxKind::Char),
    (b"dw 12a\nret @", 1, 4, SyntaxKind::Number),
    (b"ret\x0b", 1, 4, SyntaxKind::Char),
    (b"ret // \xff\xfe\n ! # \xff", 2, 2, SyntaxKind::Char),
    (b"# @\n// @ 12a\n@", 3, 1, SyntaxKind::Char),
    // numbers
    (b"dw 0x", 1, 4, SyntaxKind::Number),
    (b"dw 0x1g", 1, 4, SyntaxKind::Number),
    (b"dw 0X1", 1, 4, SyntaxKind::Number),
    (b"dw 12_3", 1, 4, SyntaxKind::Number),
    (b"dw 18446744073709551616", 1, 4, SyntaxKind::Range),
    (b"dw 18446744069414584321", 1, 4, SyntaxKind::Range),
    (b"dw 0xffffffff00000001", 1, 4, SyntaxKind::Range),
    (
        b"dw 9999999999999999999999999999999999999999999999999",
        1,
        4,
        SyntaxKind::Range,
    ),
    (
        b"dw 9999999999999999999999999999999999999999999999999z",
        1,
        4,
        SyntaxKind::Number,
    ),
    // bounds
    (b"[ap - 32769] = 1", 1, 7, SyntaxKind::Range),
    (b"[ap + 32768] = 1", 1, 7, SyntaxKind::Range),
    (b"[ap] = [[fp + 1] + 32768]", 1, 20, SyntaxKind::Range),
    (b"[ap] = [[fp + 32768] + 1]", 1, 15, SyntaxKind::Range),
    (b"%start 4294967296", 1, 8, SyntaxKind::Range),
    (b"%end 4294967296", 1, 6, SyntaxKind::Range),
    // the first of several
    (b"[ap + 40000] = = 1", 1, 7, SyntaxKind::Range),
    (b"ret ret\n\n\n\n\n\n\n\nret @", 9, 5, SyntaxKind::Char),
    (b"\nret ret\n\n\n\n\n\n\n[ap] @", 9, 6, SyntaxKind::Char),
    (b"ret ret\n[ap + 40000] = 1", 1, 5, SyntaxKind::Token),
    (b"ret\n[ap + 40000] = 1\nret ret", 2, 7, SyntaxKind::Range),
    // conditions
    (b"jmp rel 5 if [ap] != 1", 1, 22, SyntaxKind::Token),
    (b"jmp f if [ap] != 1", 1, 18, SyntaxKind::Token),
    (b"jmp abs 5 if [ap] != 0", 1, 11, SyntaxKind::Token),
    (b"jmp rel [ap] + 1 if [ap] != 0", 1, 18, SyntaxKind::Token),
    (b"jmp rel [[ap]] if [ap] != 0", 1, 16, SyntaxKind::Token),
    // lines that are cut
    (b"[", 1, 2, SyntaxKind::Token),
    (b"[ap", 1, 4, SyntaxKind::Token),
    (b"[ap +", 1, 6, SyntaxKind::Token),
    (b"[ap + 1", 1, 8, SyntaxKind::Token),
    (b"[ap + 1]", 1, 9, SyntaxKind::Token),
    (b"[ap] =  ", 1, 7, SyntaxKind::Token),
    (b"[ap] = -", 1, 9, SyntaxKind::Token),
    (b"[ap] = [", 1, 9, SyntaxKind::Token),
    (b"[ap] = [[", 1, 10, SyntaxKind::Token),
    (b"[ap] = [[fp", 1, 12, SyntaxKind::Token),
    (b"[ap] = [[fp]", 1, 13, SyntaxKind::Token),
    (b"[ap] = [[fp] -", 1, 15, SyntaxKind::Token),
    (b"[ap] = [fp] +", 1, 14, SyntaxKind::Token),
    (b"[ap] = [fp] *", 1, 14, SyntaxKind::Token),
    (b"[ap] = [fp] -", 1, 14, SyntaxKind::Token),
    (b"[ap] = 1; ap", 1, 13, SyntaxKind::Token),
    (b"[ap] = 1,", 1, 10, SyntaxKind::Token),
    (b"[ap] = 1, ap", 1, 13, SyntaxKind::Token),
    (b"jmp", 1, 4, SyntaxKind::Token),
    (b"jmp abs", 1, 8, SyntaxKind::Token),
    (b"jmp rel 5 if", 1, 13, SyntaxKind::Token),
    (b"jmp rel 5 if [ap]", 1, 18, SyntaxKind::Token),
    (b"jmp rel 5 if [ap] !=", 1, 21, SyntaxKind::Token),
    (b"jmp f if", 1, 9, SyntaxKind::Token),
    (b"call", 1, 5, SyntaxKind::Token),
    (b"call rel // to where", 1, 9, SyntaxKind::Token),
    (b"ap", 1, 3, SyntaxKind::Token),
    (b"ap +=", 1, 6, SyntaxKind::Token),
    (b"dw", 1, 3, SyntaxKind::Token),
    (b"f", 1, 2, SyntaxKind::Token),
    (b"%", 1, 2, SyntaxKind::Token),
    (b"%start", 1, 7, SyntaxKind::Token),
    (b"%end", 1, 5, SyntaxKind::Token),
    // wrong tokens
    (b"f: g: ret", 1, 4, SyntaxKind::Token),
    (b"ap: ret", 1, 3, SyntaxKind::Token),
    (b"fp: ret", 1, 1, SyntaxKind::Token),
    (b"if: ret", 1, 1, SyntaxKind::Token),
    (b"dw: ret", 1, 3, SyntaxKind::Token),
    (b"abs: ret", 1, 1, SyntaxKind::Token),
    (b"call ret", 1, 6, SyntaxKind::Token),
    (b"%start rel", 1, 8, SyntaxKind::Token),
    (b"jmp if", 1, 5, SyntaxKind::Token),
    (b"call rel [ap]; ap++", 1, 16, SyntaxKind::Token),
    (b"ap += 1; ap++", 1, 10, SyntaxKind::Token),
    (b"[ap] = [fp] - [ap]", 1, 15, SyntaxKind::Token),
    (b"[ap] = [fp] - -1", 1, 15, SyntaxKind::Token),
    (b"[ap] = 1; ap++; ;", 1, 17, SyntaxKind::Token),
    (b"%builtins range_check output", 1, 23, SyntaxKind::Token),
    (b"%start 1;", 1, 9, SyntaxKind::Token),
    // a form feed, and further semicolons
    (b"ret\x0c", 1, 4, SyntaxKind::Char),
    (b"\x0cret", 1, 1, SyntaxKind::Char),
    (b"ret;;", 1, 5, SyntaxKind::Token),
    (b"ret; ;", 1, 6, SyntaxKind::Token),
    (b"[ap] = 1;;", 1, 10, SyntaxKind::Token),
    (b"jmp f; ; ap++", 1, 8, SyntaxKind::Token),
    (b"dw 1;;", 1, 6, SyntaxKind::Token),
    // directives in capitals
    (b"%BUILTINS", 1, 2, SyntaxKind::Token),
    (b"%builtins OUTPUT", 1, 11, SyntaxKind::Token),
    (b"%Start 0", 1, 2, SyntaxKind::Token),
    (b"%END 0", 1, 2, SyntaxKind::Token),
    // an offset of p - 1
    (b"[ap + 18446744069414584320] = 1", 1, 7, SyntaxKind::Range),
    (b"[ap - 18446744069414584320] = 1", 1, 7, SyntaxKind::Range),
    (
        b"[ap] = [[fp] + 18446744069414584320]",
        1,
        16,
        SyntaxKind::Range,
    ),
];

#[test]
fn faults_and_their_places(rt: HostRuntime) {
    for (text, line, column, kind) in FAULTS {
        let want = ParseFault::Syntax {
            line: *line,
            column: *column,
            kind: *kind,
        };
        assert!(rt; fault(rt.alloc(), text) == Some(want), "{text:?}");
    }
}

/// The end of a text of 65535 empty lines, and the column of its first fault, and what is wrong there.
const FAR_FAULTS: &[(&[u8], u32, SyntaxKind)] = &[
    (b"ret !", 5, SyntaxKind::Char),
    (b"ret ret", 5, SyntaxKind::Token),
    (b"[fp - 32769] = 0", 7, SyntaxKind::Range),
];

/// The text of 65535 empty lines, and then of this.
fn far_text(alloc: Global, end: &[u8]) -> Result<Vec<u8>, AllocError> {
    let mut text = Vec::new(alloc);
    for _ in 0..65535 {
        text.push(b'\n')?;
    }
    text.extend_from_slice(end)?;
    Ok(text)
}

#[test]
fn a_fault_on_line_65536(rt: HostRuntime) -> Result<(), Fail> {
    for (end, column, kind) in FAR_FAULTS {
        let text = far_text(rt.alloc(), end)?;
        let want = ParseFault::Syntax {
            line: 65536,
            column: *column,
            kind: *kind,
        };
        assert!(rt; fault(rt.alloc(), &text) == Some(want), "{end:?}");
    }
    Ok(())
}
