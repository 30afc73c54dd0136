//! From text to items.
#![tactic(auto, unfolding(casm_tokens::specs::Marks::placed_of))]

ghost use Rattle.std.specs.Prelude.{◌≡◌, ◌≤◌, List, map, length, IfOk, IfErr};
ghost use Rattle.casm_statements.specs.declared.Body.{Body};
ghost use Rattle.casm_tokens.specs.Marks.{placed_of};
ghost use Rattle.casm_tokens.specs.Limits.{text_limit};
ghost use Rattle.casm_text.specs.Meaning.{Reads, MeansBodies, bodies, column_at, TellsText, Excludes};
ghost use Rattle.casm_text.specs.Views.{AddsLine, GoesOn};

use crate::items::push_items;
use casm_grammar::read_line;
use casm_statements::Item;
use casm_tokens::{Lexeme, ParseFault, SyntaxKind, scan_line, split_line, stop_fault};
use std::alloc::{AllocError, Global};

/// Where a line is none of the grammar.
#[derive(Clone, Copy)]
struct Wrong {
    /// The line, from 1.
    line: u32,
    /// The byte in its line, from 1.
    column: u32,
    /// What is wrong there.
    kind: SyntaxKind,
}

/// The items of a text, with their lines from 1.
///
/// The text has at most 2^24 bytes. It is refused first at the least place where no token stands, as by
/// [`tokens`](casm_tokens::tokens). Where there is none, it is refused in its first line that is none of the grammar.
/// The place is the first token with which that line begins none ([`SyntaxKind::Token`]), or that is a number out of
/// its bounds ([`SyntaxKind::Range`]). Where more is missing, it is after the line's last token
/// ([`SyntaxKind::Token`]).
pub fn parse(alloc: Global, text: &[u8]) -> Result<Vec<Item>, ParseFault>
    requires { length text.now ≤ text_limit }
    ensures reads { IfOk result (λ items. Reads text.now items.items) }
    ensures only { IfOk result (λ items. (meant : List Body) → MeansBodies text.now meant → meant ≡ bodies items.items) }
    ensures fault { IfErr result (λ fault. TellsText fault text.now) }
    ensures means_nothing { IfErr result (λ fault. Excludes fault text.now) }
{
    let mut items = Vec::new(alloc);
    let mut lexemes = Vec::new(alloc);
    let mut wrong: Option<Wrong> = None;
    let mut line: u32 = 1;
    let mut rest = text;
    'lines: loop {
        let (bytes, next) = split_line(rest);
        if let Some(stop) = scan_line(bytes, &mut lexemes)? {
            return Err(stop_fault(line, stop));
        }
        wrong = add_line_unless(wrong, alloc, &mut items, &lexemes, line)?;
        let Some(next) = next else {
            break;
        };
        line += 1;
        rest = next;
    }
    match wrong {
        None => Ok(items),
        Some(place) => Err(place.fault()),
    }
}

impl Wrong {
    /// The refusal of a text at this place.
    fn fault(self) -> ParseFault
        ensures { result ≡ ParseFault.Syntax self.line self.column self.kind }
    {
        ParseFault::Syntax {
            line: self.line,
            column: self.column,
            kind: self.kind,
        }
    }
}

/// Appends the items of a line, unless one before it is none of the grammar.
fn add_line_unless(
    wrong: Option<Wrong>,
    alloc: Global,
    items: &mut Vec<Item>,
    lexemes: &Vec<Lexeme<'_>>,
    line: u32,
) -> Result<Option<Wrong>, AllocError>
    ensures { IfOk result (λ next. GoesOn wrong line (map placed_of lexemes.now.items) items.old.items items.new.items next) }
{
    match wrong {
        Some(place) => Ok(Some(place)),
        None => add_line(alloc, items, lexemes, line),
    }
}

/// Appends the items of a line, or answers where it is none of the grammar.
fn add_line(
    alloc: Global,
    items: &mut Vec<Item>,
    lexemes: &Vec<Lexeme<'_>>,
    line: u32,
) -> Result<Option<Wrong>, AllocError>
    ensures { IfOk result (λ wrong. AddsLine line (map placed_of lexemes.now.items) items.old.items items.new.items wrong) }
{
    match read_line(lexemes) {
        Ok(read) => {
            push_items(alloc, items, line, read)?;
            Ok(None)
        }
        Err(fault) => Ok(Some(Wrong {
            line,
            column: column_at(lexemes, fault.at),
            kind: fault.kind,
        })),
    }
}

/// The column of a token, or the one after the last token.
fn column_at(lexemes: &[Lexeme<'_>], at: usize) -> u32
    requires { at ≤ length lexemes.now }
    ensures { result ≡ column_at 0 (map placed_of lexemes.now) at }
{
    if at < lexemes.len() {
        return lexemes[at].start + 1;
    }
    if at > 0 { lexemes[at - 1].end + 1 } else { 1 }
}
