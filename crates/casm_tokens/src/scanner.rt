//! The tokens of a line.
#![tactic(auto, unfolding(crate::specs::Marks::placed_of))]

ghost use Rattle.std.specs.Prelude.{◌≡◌, ◌+◌, ◌≤◌, length, map, IfOk, IfSome, MatchOption};
ghost use Rattle.casm_tokens.specs.Marks.{placed_of};
ghost use Rattle.casm_tokens.specs.Tokens.{CutsInto, StopsAt};
ghost use Rattle.casm_tokens.specs.Limits.{text_limit};

use crate::fault::SyntaxKind;
use crate::marks::Lexeme;
use crate::pieces::{Piece, piece_at};
use std::alloc::AllocError;

/// A place of a line where no token stands.
#[derive(Clone, Copy, Debug, PartialEq, Eq)]
pub struct NoToken {
    /// How many bytes of the line stand before it.
    pub at: u32,
    /// What is wrong there.
    pub kind: SyntaxKind,
}

/// Puts the tokens of a line in the place of the lexemes, or answers the first place where none stands. Then, and where
/// memory runs out, the lexemes may be any. The line has at most 2^24 bytes.
pub fn scan_line<'a>(
    line: &'a [u8],
    lexemes: &mut Vec<Lexeme<'a>>,
) -> Result<Option<NoToken>, AllocError>
    requires { length line.now ≤ text_limit }
    ensures tokens { IfOk result (λ stop.
        MatchOption stop (CutsInto line.now (map placed_of lexemes.new.items)) (λ s. StopsAt line.now s.at s.kind)) }
    ensures within { IfOk result (λ stop. IfSome stop (λ s. s.at ≤ length line.now)) }
{
    lexemes.clear();
    let mut at: u32 = 0;
    let mut rest = line;
    'pieces: loop {
        match piece_at(rest) {
            Piece::Over => return Ok(None),
            Piece::Bad(kind) => return Ok(Some(NoToken { at, kind })),
            Piece::Gap => {
                at += 1;
                (_, rest) = rest.split_at(1);
            }
            Piece::Cut(found) => {
                let start = at;
                at += found.len as u32;
                lexemes.push(Lexeme {
                    start,
                    end: at,
                    mark: found.mark,
                })?;
                (_, rest) = rest.split_at(found.len);
            }
        }
    }
}
