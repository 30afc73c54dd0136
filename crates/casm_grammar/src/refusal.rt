//! Where reading stops, and the tokens that are left.

use casm_tokens::{Lexeme, SyntaxKind};

/// Where reading a line stops.
#[derive(Clone, Copy)]
pub(crate) struct Refusal {
    /// How many tokens are left.
    pub(crate) left: usize,
    /// What is wrong at the first of them, or at the end.
    pub(crate) kind: SyntaxKind,
}

/// A value and the tokens after it.
pub(crate) type Parsed<'a, T> = Result<(T, &'a [Lexeme<'a>]), Refusal>;
