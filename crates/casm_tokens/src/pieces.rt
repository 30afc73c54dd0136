//! What a line goes on with.
ghost use Rattle.std.specs.Prelude.{◌≡◌, ◌<◌, ◌≤◌, length, IsTrue, IfSome};
ghost use Rattle.std.specs.List.{prefix_len, list_all};
ghost use Rattle.casm_statements.specs.Label.{is_word, is_word_byte, reserved_word};
ghost use Rattle.casm_tokens.specs.Tokens.{is_blank, begins_comment};
ghost use Rattle.casm_tokens.specs.Pieces.{sign_at, sign_len, sign_piece, number_piece, word_mark, run_piece, piece_at, Cut};
ghost use Rattle.casm_tokens.specs.Views.{piece_of, IsWithin};

use crate::fault::SyntaxKind;
use crate::marks::{Mark, Symbol};
use casm_statements::{Label, is_word_byte, reserved_word};
use goldilocks::{Felt, TextFault};

/// A token at a place of a line.
#[derive(Clone, Copy)]
pub(crate) struct Found<'a> {
    /// How many bytes it has.
    pub(crate) len: usize,
    /// What it says.
    pub(crate) mark: Mark<'a>,
}

/// What stands at a place of a line.
#[derive(Clone, Copy)]
pub(crate) enum Piece<'a> {
    /// Nothing more: the line ends, or a comment begins.
    Over,
    /// A blank.
    Gap,
    /// A token.
    Cut(Found<'a>),
    /// What is no token.
    Bad(SyntaxKind),
}

/// What the bytes begin with.
#[tactic(auto, unfolding(crate::specs::Pieces::piece_at))]
pub(crate) fn piece_at<'a>(bytes: &'a [u8]) -> Piece<'a>
    ensures value { piece_of result ≡ piece_at bytes.now }
    ensures within { IsWithin result (length bytes.now) }
{
    let Some(first) = bytes.first() else {
        return Piece::Over;
    };
    if is_blank(*first) {
        Piece::Gap
    } else if begins_comment(bytes) {
        Piece::Over
    } else if is_word_byte(*first) {
        run_piece(&bytes[..run_len(bytes)])
    } else {
        sign_piece(bytes)
    }
}

/// The sign that the bytes begin with, or that they begin with no token.
#[tactic(auto, unfolding(crate::specs::Marks::mark_of, crate::specs::Pieces::sign_piece))]
fn sign_piece<'a>(bytes: &'a [u8]) -> Piece<'a>
    ensures value { piece_of result ≡ sign_piece (sign_at bytes.now) }
    ensures within { IsWithin result (length bytes.now) }
{
    match sign_at(bytes) {
        Some(sign) => Piece::Cut(Found {
            len: sign_len(sign),
            mark: Mark::Sign(sign),
        }),
        None => Piece::Bad(SyntaxKind::Char),
    }
}

/// Whether the byte separates tokens: a space, a tab or a carriage return.
fn is_blank(byte: u8) -> bool
    ensures { result ≡ is_blank byte }
{
    byte == b' ' || byte == b'\t' || byte == b'\r'
}

/// Whether a comment begins here.
fn begins_comment(bytes: &[u8]) -> bool
    ensures { result ≡ begins_comment bytes.now }
{
    bytes.starts_with(b"//".as_slice()) || bytes.starts_with(b"#".as_slice())
}

/// How many letters, digits and `_` the bytes begin with.
fn run_len(bytes: &[u8]) -> usize
    ensures value { result ≡ prefix_len is_word_byte bytes.now }
    ensures within { result ≤ length bytes.now }
{
    let mut len = 0;
    while len < bytes.len() && is_word_byte(bytes[len]) {
        len += 1;
    }
    len
}

/// The token of a run of letters, digits and `_`.
#[tactic(auto, unfolding(crate::specs::Pieces::run_piece))]
fn run_piece<'a>(text: &'a [u8]) -> Piece<'a>
    requires { IsTrue (list_all is_word_byte text.now) }
    ensures value { piece_of result ≡ run_piece text.now }
    ensures within { IsWithin result (length text.now) }
{
    let Some(first) = text.first() else {
        return Piece::Over;
    };
    if first.is_ascii_digit() {
        number_piece(text)
    } else {
        word_piece(text)
    }
}

/// The token of a run that begins with a digit.
#[tactic(auto, unfolding(crate::specs::Marks::mark_of))]
fn number_piece<'a>(text: &'a [u8]) -> Piece<'a>
    ensures value { piece_of result ≡ number_piece text.now }
    ensures within { IsWithin result (length text.now) }
{
    match Felt::read_text(text) {
        Ok(value) => Piece::Cut(Found {
            len: text.len(),
            mark: Mark::Number(value),
        }),
        Err(TextFault::Empty) => Piece::Bad(SyntaxKind::Number),
        Err(TextFault::BadDigit(_)) => Piece::Bad(SyntaxKind::Number),
        Err(TextFault::TooLarge) => Piece::Bad(SyntaxKind::Range),
    }
}

/// The token of a run that begins with a letter or `_`.
#[tactic(auto, unfolding(crate::specs::Marks::mark_of, crate::specs::Pieces::word_mark))]
fn word_piece<'a>(text: &'a [u8]) -> Piece<'a>
    requires { IsTrue (is_word text.now) }
    ensures value { piece_of result ≡ Cut (length text.now) (word_mark (reserved_word text.now) text.now) }
    ensures within { IsWithin result (length text.now) }
{
    match reserved_word(text) {
        Some(word) => Piece::Cut(Found {
            len: text.len(),
            mark: Mark::Keyword(word),
        }),
        None => Piece::Cut(Found {
            len: text.len(),
            mark: Mark::Label(Label { text }),
        }),
    }
}

/// The sign that the bytes begin with, the longest one.
#[tactic(auto, unfolding(crate::specs::Pieces::sign_at, crate::specs::Pieces::sign_len))]
fn sign_at(bytes: &[u8]) -> Option<Symbol>
    ensures value { result ≡ sign_at bytes.now }
    ensures within { IfSome result (λ sign. sign_len sign ≤ length bytes.now) }
{
    if bytes.starts_with(b"++".as_slice()) {
        Some(Symbol::Increment)
    } else if bytes.starts_with(b"+=".as_slice()) {
        Some(Symbol::AddTo)
    } else if bytes.starts_with(b"!=".as_slice()) {
        Some(Symbol::NotEqual)
    } else if bytes.starts_with(b"[".as_slice()) {
        Some(Symbol::Open)
    } else if bytes.starts_with(b"]".as_slice()) {
        Some(Symbol::Close)
    } else if bytes.starts_with(b"+".as_slice()) {
        Some(Symbol::Plus)
    } else if bytes.starts_with(b"-".as_slice()) {
        Some(Symbol::Minus)
    } else if bytes.starts_with(b"*".as_slice()) {
        Some(Symbol::Times)
    } else if bytes.starts_with(b"=".as_slice()) {
        Some(Symbol::Equal)
    } else if bytes.starts_with(b";".as_slice()) {
        Some(Symbol::Semicolon)
    } else if bytes.starts_with(b",".as_slice()) {
        Some(Symbol::Comma)
    } else if bytes.starts_with(b":".as_slice()) {
        Some(Symbol::Colon)
    } else if bytes.starts_with(b"%".as_slice()) {
        Some(Symbol::Percent)
    } else {
        None
    }
}

/// How many bytes a sign has.
#[tactic(auto, unfolding(crate::specs::Pieces::sign_len))]
fn sign_len(sign: Symbol) -> usize
    ensures value { result ≡ sign_len sign }
    ensures positive { 0 < result }
{
    match sign {
        Symbol::Increment | Symbol::AddTo | Symbol::NotEqual => 2,
        _ => 1,
    }
}
