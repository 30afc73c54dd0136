//! The tokens of a text, with their spans.

use goldilocks::Felt;

/// What kind of token it is.
#[derive(Clone, Copy, Debug, PartialEq, Eq)]
pub enum TokenKind {
    /// A word.
    Word,
    /// A number, with its value.
    Number(Felt),
    /// A sign.
    Symbol,
}

/// A token of a text: the bytes of the text from `start` to `end`.
#[derive(Clone, Copy, Debug, PartialEq, Eq)]
pub struct Token {
    /// Its line, from 1.
    pub line: u32,
    /// How many bytes of the text stand before it.
    pub start: u32,
    /// How many bytes of the text there are up to its end.
    pub end: u32,
    /// What it is.
    pub kind: TokenKind,
}
