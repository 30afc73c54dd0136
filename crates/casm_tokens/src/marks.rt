//! Tokens as the grammar sees them.
ghost use Rattle.std.specs.Prelude.{◌≤◌};
ghost use Rattle.casm_tokens.specs.Limits.{text_limit};

use casm_statements::{Label, Reserved};
use goldilocks::Felt;

/// A sign of the language that is no word and no number.
#[derive(Clone, Copy, Debug, PartialEq, Eq)]
pub enum Symbol {
    /// `++`
    Increment,
    /// `+=`
    AddTo,
    /// `!=`
    NotEqual,
    /// `[`
    Open,
    /// `]`
    Close,
    /// `+`
    Plus,
    /// `-`
    Minus,
    /// `*`
    Times,
    /// `=`
    Equal,
    /// `;`
    Semicolon,
    /// `,`
    Comma,
    /// `:`
    Colon,
    /// `%`
    Percent,
}

/// What a token says.
#[derive(Clone, Copy, Debug)]
pub enum Mark<'a> {
    /// A sign.
    Sign(Symbol),
    /// A reserved word.
    Keyword(Reserved),
    /// Another word.
    Label(Label<'a>),
    /// A number.
    Number(Felt),
}

/// A token of a line.
#[derive(Clone, Copy, Debug)]
pub struct Lexeme<'a> {
    /// How many bytes of the line stand before it.
    pub start: u32,
    /// How many bytes of the line there are up to its end.
    pub end: u32,
    /// What it says.
    pub mark: Mark<'a>,
    pub ghost ordered: { start ≤ end },
    pub ghost in_text: { end ≤ text_limit },
}
