//! Single tokens.
ghost use Rattle.std.specs.Prelude.{◌≡◌, ◌+◌, ◌≤◌, length, IfOk};
ghost use Rattle.casm_grammar.specs.Readers.{sign_code, word_code, directive_code, after_sign, after_word, after_directive};
ghost use Rattle.casm_grammar.specs.Readers.{expect_sign, expect_word, number_in, number_up_to, zero_in, label_in, nothing_in};
ghost use Rattle.casm_grammar.specs.Seen.{seen};
ghost use Rattle.casm_grammar.specs.Views.{seen_rest, seen_after, seen_all, seen_reading};

use crate::directive::{Directive, directive_word};
use crate::refusal::{Parsed, Refusal};
use casm_statements::{Label, Reserved};
use casm_tokens::{Lexeme, Mark, Symbol, SyntaxKind};
use goldilocks::Felt;

/// The number of a sign.
fn sign_code(sign: Symbol) -> u8
    ensures { result ≡ sign_code sign }
{
    sign as u8
}

/// The number of a reserved word.
fn word_code(word: Reserved) -> u8
    ensures { result ≡ word_code word }
{
    word as u8
}

/// The number of a directive's word.
fn directive_code(word: Directive) -> u8
    ensures { result ≡ directive_code word }
{
    word as u8
}

/// The refusal at the first of these tokens.
pub(crate) fn refused(tokens: &[Lexeme<'_>]) -> Refusal
    ensures { result ≡ record { left = length tokens.now; kind = SyntaxKind.Token } }
{
    Refusal {
        left: tokens.len(),
        kind: SyntaxKind::Token,
    }
}

/// The refusal at the token before these.
pub(crate) fn refused_before(rest: &[Lexeme<'_>], kind: SyntaxKind) -> Refusal
    ensures { result ≡ record { left = length rest.now + 1; kind = kind } }
{
    Refusal {
        left: rest.len() + 1,
        kind,
    }
}

/// The tokens after the sign, where it stands first.
#[tactic(auto, unfolding(casm_tokens::specs::Marks::mark_of, crate::specs::Readers::after_sign))]
pub(crate) fn after_sign<'a>(tokens: &'a [Lexeme<'a>], sign: Symbol) -> Option<&'a [Lexeme<'a>]>
    ensures { seen_rest result ≡ after_sign sign (seen tokens.now) }
{
    let (first, rest) = tokens.split_first()?;
    match first.mark {
        Mark::Sign(found) => {
            if sign_code(found) == sign_code(sign) {
                Some(rest)
            } else {
                None
            }
        }
        _ => None,
    }
}

/// The tokens after the reserved word, where it stands first.
#[tactic(auto, unfolding(casm_tokens::specs::Marks::mark_of, crate::specs::Readers::after_word))]
pub(crate) fn after_word<'a>(tokens: &'a [Lexeme<'a>], word: Reserved) -> Option<&'a [Lexeme<'a>]>
    ensures { seen_rest result ≡ after_word word (seen tokens.now) }
{
    let (first, rest) = tokens.split_first()?;
    match first.mark {
        Mark::Keyword(found) => {
            if word_code(found) == word_code(word) {
                Some(rest)
            } else {
                None
            }
        }
        _ => None,
    }
}

/// The tokens after the directive's word, where it stands first.
#[tactic(auto, unfolding(casm_tokens::specs::Marks::mark_of, crate::specs::Readers::after_directive))]
pub(crate) fn after_directive<'a>(
    tokens: &'a [Lexeme<'a>],
    word: Directive,
) -> Option<&'a [Lexeme<'a>]>
    ensures { seen_rest result ≡ after_directive word (seen tokens.now) }
{
    let (first, rest) = tokens.split_first()?;
    match first.mark {
        Mark::Label(label) => match directive_word(label.text) {
            Some(found) => {
                if directive_code(found) == directive_code(word) {
                    Some(rest)
                } else {
                    None
                }
            }
            None => None,
        },
        _ => None,
    }
}

/// The tokens after the sign, which must stand first.
#[tactic(auto, unfolding(crate::specs::Readers::expect_sign))]
pub(crate) fn expect_sign<'a>(
    tokens: &'a [Lexeme<'a>],
    sign: Symbol,
) -> Result<&'a [Lexeme<'a>], Refusal>
    ensures { seen_after result ≡ expect_sign sign (seen tokens.now) }
{
    match after_sign(tokens, sign) {
        Some(rest) => Ok(rest),
        None => Err(refused(tokens)),
    }
}

/// The tokens after the reserved word, which must stand first.
#[tactic(auto, unfolding(crate::specs::Readers::expect_word))]
pub(crate) fn expect_word<'a>(
    tokens: &'a [Lexeme<'a>],
    word: Reserved,
) -> Result<&'a [Lexeme<'a>], Refusal>
    ensures { seen_after result ≡ expect_word word (seen tokens.now) }
{
    match after_word(tokens, word) {
        Some(rest) => Ok(rest),
        None => Err(refused(tokens)),
    }
}

/// A number.
#[tactic(auto, unfolding(casm_tokens::specs::Marks::mark_of, crate::specs::Readers::number_in))]
pub(crate) fn number<'a>(tokens: &'a [Lexeme<'a>]) -> Parsed<'a, Felt>
    ensures { seen_reading (λ x. x) result ≡ number_in (seen tokens.now) }
{
    let Some((first, rest)) = tokens.split_first() else {
        return Err(refused(tokens));
    };
    match first.mark {
        Mark::Number(value) => Ok((value, rest)),
        _ => Err(refused(tokens)),
    }
}

/// A number of at most `most`.
#[tactic(auto, unfolding(crate::specs::Readers::number_up_to))]
pub(crate) fn number_up_to<'a>(tokens: &'a [Lexeme<'a>], most: u64) -> Parsed<'a, Felt>
    ensures value { seen_reading (λ x. x) result ≡ number_up_to most (seen tokens.now) }
    ensures within { IfOk result (λ p. p.0.number ≤ most) }
{
    let (value, rest) = number(tokens)?;
    if value.number <= most {
        Ok((value, rest))
    } else {
        Err(refused_before(rest, SyntaxKind::Range))
    }
}

/// The number 0.
#[tactic(auto, unfolding(crate::specs::Readers::zero_in))]
pub(crate) fn zero<'a>(tokens: &'a [Lexeme<'a>]) -> Result<&'a [Lexeme<'a>], Refusal>
    ensures { seen_after result ≡ zero_in (seen tokens.now) }
{
    let (value, rest) = number(tokens)?;
    if value.number == 0 {
        Ok(rest)
    } else {
        Err(refused_before(rest, SyntaxKind::Token))
    }
}

/// A label.
#[tactic(auto, unfolding(casm_tokens::specs::Marks::mark_of, crate::specs::Readers::label_in))]
pub(crate) fn label<'a>(tokens: &'a [Lexeme<'a>]) -> Parsed<'a, Label<'a>>
    ensures { seen_reading (λ l. l.text.now) result ≡ label_in (seen tokens.now) }
{
    let Some((first, rest)) = tokens.split_first() else {
        return Err(refused(tokens));
    };
    match first.mark {
        Mark::Label(label) => Ok((label, rest)),
        _ => Err(refused(tokens)),
    }
}

/// No token.
#[tactic(auto, unfolding(crate::specs::Readers::nothing_in))]
pub(crate) fn nothing(tokens: &[Lexeme<'_>]) -> Result<(), Refusal>
    ensures { seen_all (λ x. x) result ≡ nothing_in (seen tokens.now) }
{
    match tokens.first() {
        None => Ok(()),
        Some(_) => Err(refused(tokens)),
    }
}
