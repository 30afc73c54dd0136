//! Tokens with their spans, and places where none stands.

use casm_tokens::{ParseFault, SyntaxKind, TEXT_LIMIT, Token, TokenKind, tokens};
use goldilocks::Felt;
use std::test::Fail;

const TEXT: &[u8] = b"f_1: [ap+=0x0A]\t// dw\r\n\n ret!=++;# 12a\n";

/// The line of each token of that text, its start and its end, and whether it is a word.
const SPANS: &[(u32, u32, u32, bool)] = &[
    (1, 0, 3, true),
    (1, 3, 4, false),
    (1, 5, 6, false),
    (1, 6, 8, true),
    (1, 8, 10, false),
    (1, 10, 14, false),
    (1, 14, 15, false),
    (3, 25, 28, true),
    (3, 28, 30, false),
    (3, 30, 32, false),
    (3, 32, 33, false),
];

#[test]
fn tokens_and_their_spans(rt: HostRuntime) -> Result<(), Fail> {
    let found = tokens(rt.alloc(), TEXT)?;
    assert!(rt; found.len() == SPANS.len(), "how many");
    let number = TokenKind::Number(Felt { number: 10 });
    for (token, (line, start, end, word)) in found.iter().zip(SPANS.iter()) {
        let kind = if *word {
            TokenKind::Word
        } else if *start == 10 {
            number
        } else {
            TokenKind::Symbol
        };
        let want = Token {
            line: *line,
            start: *start,
            end: *end,
            kind,
        };
        assert!(rt; *token == want, "{start}");
    }
    Ok(())
}

/// Texts, and how many tokens they have: none where there is nothing, and the longest sign that fits.
const COUNTS: &[(&[u8], usize)] = &[(b"", 0), (b"\n\n", 0), (b"+++=+-", 4)];

#[test]
fn tokens_are_counted(rt: HostRuntime) -> Result<(), Fail> {
    for (text, count) in COUNTS {
        assert!(rt; text.len() <= TEXT_LIMIT, "{text:?}");
        let found = tokens(rt.alloc(), text)?;
        assert!(rt; found.len() == *count, "{text:?}");
    }
    Ok(())
}

/// Texts with a place where no token stands.
const STOPS: &[(&[u8], u32, u32, SyntaxKind)] = &[
    (b"a !b", 1, 3, SyntaxKind::Char),
    (b"a\n /b", 2, 2, SyntaxKind::Char),
    (b"\x80", 1, 1, SyntaxKind::Char),
    (b"ap\x0c+= 1", 1, 3, SyntaxKind::Char),
    (b"# \x80\n1_", 2, 1, SyntaxKind::Number),
    (b"0x", 1, 1, SyntaxKind::Number),
    (b"a 18446744069414584321", 1, 3, SyntaxKind::Range),
];

#[test]
fn places_where_no_token_stands(rt: HostRuntime) {
    for (text, line, column, kind) in STOPS {
        assert!(rt; text.len() <= TEXT_LIMIT, "{text:?}");
        let want = ParseFault::Syntax {
            line: *line,
            column: *column,
            kind: *kind,
        };
        assert!(rt; tokens(rt.alloc(), text).err() == Some(want), "{text:?}");
    }
}
