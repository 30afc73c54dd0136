//! The tokens of a text.
#![tactic(auto, unfolding(crate::specs::Marks::placed_of, crate::specs::Lines::token_at))]

ghost use Rattle.std.specs.Prelude.{◌≡◌, ◌≤◌, ◌+◌, ◌++◌, length, map, IfOk, IfErr};
ghost use Rattle.casm_tokens.specs.Marks.{mark_of, placed_of};
ghost use Rattle.std.specs.List.{AllByRecursion};
ghost use Rattle.casm_tokens.specs.Lines.{kind_of, token_at, HasTokens, AreInOrder, IsSliceOf, TellsStop};
ghost use Rattle.casm_tokens.specs.Limits.{text_limit};

use crate::fault::{ParseFault, SyntaxKind};
use crate::lines::split_line;
use crate::marks::{Lexeme, Mark};
use crate::scanner::{NoToken, scan_line};
use crate::spans::{Token, TokenKind};
use std::alloc::{AllocError, Global};

/// The tokens of a text, in their order; the bytes of each are those of the text from its start to its end.
///
/// The text has at most 2^24 bytes. It is refused at the least place where a byte outside comments begins no token
/// ([`SyntaxKind::Char`]). A number with a bad digit or none is such a place, too ([`SyntaxKind::Number`]), and so is
/// one of p or more ([`SyntaxKind::Range`]).
pub fn tokens(alloc: Global, text: &[u8]) -> Result<Vec<Token>, ParseFault>
    requires { length text.now ≤ text_limit }
    ensures tokens { IfOk result (λ found. HasTokens text.now found.items) }
    ensures order { IfOk result (λ found. AreInOrder 0 (length text.now) found.items) }
    ensures slices { IfOk result (λ found. AllByRecursion (IsSliceOf text.now) found.items) }
    ensures fault { IfErr result (λ fault. TellsStop fault text.now) }
{
    let mut found = Vec::new(alloc);
    let mut lexemes = Vec::new(alloc);
    let mut line: u32 = 1;
    let mut start: u32 = 0;
    let mut rest = text;
    'lines: loop {
        let (bytes, next) = split_line(rest);
        if let Some(stop) = scan_line(bytes, &mut lexemes)? {
            return Err(stop_fault(line, stop));
        }
        push_tokens(&mut found, &lexemes, line, start)?;
        let Some(next) = next else {
            return Ok(found);
        };
        start += bytes.len() as u32 + 1;
        line += 1;
        rest = next;
    }
}

/// The refusal of a line at a place where no token stands. `stop.at` is at most 2^24.
pub fn stop_fault(line: u32, stop: NoToken) -> ParseFault
    requires { stop.at ≤ text_limit }
    ensures { result ≡ ParseFault.Syntax line (stop.at + 1) stop.kind }
{
    ParseFault::Syntax {
        line,
        column: stop.at + 1,
        kind: stop.kind,
    }
}

/// Appends the tokens of a line that begins at `start`.
fn push_tokens(
    found: &mut Vec<Token>,
    lexemes: &Vec<Lexeme<'_>>,
    line: u32,
    start: u32,
) -> Result<(), AllocError>
    requires { start ≤ text_limit }
    ensures { IfOk result (λ _. found.new.items ≡ found.old.items ++ map (token_at line start) (map placed_of lexemes.now.items)) }
{
    for lexeme in lexemes {
        found.push(Token {
            line,
            start: start + lexeme.start,
            end: start + lexeme.end,
            kind: kind_of(lexeme.mark),
        })?;
    }
    Ok(())
}

/// The kind of a token.
#[tactic(auto, unfolding(crate::specs::Marks::mark_of, crate::specs::Lines::kind_of))]
fn kind_of(mark: Mark<'_>) -> TokenKind
    ensures { result ≡ kind_of (mark_of mark.entry) }
{
    match mark {
        Mark::Sign(_) => TokenKind::Symbol,
        Mark::Keyword(_) => TokenKind::Word,
        Mark::Label(_) => TokenKind::Word,
        Mark::Number(value) => TokenKind::Number(value),
    }
}
