//! Whole lines.
ghost use Rattle.std.specs.Prelude.{◌≡◌, ◌≤◌, List, IfOk, IfErr, length};
ghost use Rattle.casm_statements.specs.declared.Target.TheVariants as target_is;
ghost use Rattle.casm_statements.specs.declared.Body.{Body};
ghost use Rattle.casm_statements.specs.declared.Body.TheVariants as body_is;
ghost use Rattle.casm_grammar.specs.Language.{Derives, Kept, HasFault};
ghost use Rattle.casm_grammar.specs.Grammar.{whole_line};
ghost use Rattle.casm_grammar.specs.Readers.{begins_label, target_in, given_in, builtins_in, place_in, setting_in, said_in, named_in, line_in};
ghost use Rattle.casm_grammar.specs.Seen.{seen, target_of, body_of, phrase_of, bodies_of};
ghost use Rattle.casm_grammar.specs.Views.{seen_all, seen_reading};

use crate::directive::Directive;
use crate::marks::{
    after_directive, after_sign, expect_sign, label, nothing, refused, refused_before,
};
use crate::phrase::{Line, Phrase, TargetRef};
use crate::refusal::{Parsed, Refusal};
use crate::statements::statement;
use casm_tokens::{Lexeme, Mark, Symbol, SyntaxKind};

/// The place that a directive gives.
#[tactic(auto, unfolding(casm_tokens::specs::Marks::mark_of, crate::specs::Readers::target_in))]
fn target<'a>(tokens: &'a [Lexeme<'a>]) -> Parsed<'a, TargetRef<'a>>
    ensures { seen_reading target_of result ≡ target_in (seen tokens.now) }
{
    let Some((first, rest)) = tokens.split_first() else {
        return Err(refused(tokens));
    };
    match first.mark {
        Mark::Label(name) => Ok((TargetRef::Name(name), rest)),
        Mark::Number(value) => {
            if value.number <= 4294967295 {
                Ok((TargetRef::Number(value.number as u32), rest))
            } else {
                Err(refused_before(rest, SyntaxKind::Range))
            }
        }
        _ => Err(refused(tokens)),
    }
}

/// Whether the directive's word stands first, and the tokens after it.
#[tactic(auto, unfolding(crate::specs::Readers::given_in))]
fn given<'a>(tokens: &'a [Lexeme<'a>], word: Directive) -> (bool, &'a [Lexeme<'a>])
    ensures word { result.0 ≡ (given_in word (seen tokens.now)).0 }
    ensures rest { seen result.1.now ≡ (given_in word (seen tokens.now)).1 }
{
    match after_directive(tokens, word) {
        Some(rest) => (true, rest),
        None => (false, tokens),
    }
}

/// What follows `builtins`.
#[tactic(auto, unfolding(crate::specs::Readers::builtins_in))]
fn builtins<'a>(tokens: &'a [Lexeme<'a>]) -> Result<Phrase<'a>, Refusal>
    ensures { seen_all body_of result ≡ builtins_in (seen tokens.now) }
{
    let (output, rest) = given(tokens, Directive::Output);
    let (range, rest) = given(rest, Directive::RangeCheck);
    nothing(rest)?;
    Ok(Phrase::Builtins { output, range })
}

/// What follows `start`.
#[tactic(auto, unfolding(crate::specs::Readers::place_in))]
fn start<'a>(tokens: &'a [Lexeme<'a>]) -> Result<Phrase<'a>, Refusal>
    ensures { seen_all body_of result ≡ place_in (λ t. body_is.Start t) (seen tokens.now) }
{
    let (place, rest) = target(tokens)?;
    nothing(rest)?;
    Ok(Phrase::Start(place))
}

/// What follows `end`.
#[tactic(auto, unfolding(crate::specs::Readers::place_in))]
fn end<'a>(tokens: &'a [Lexeme<'a>]) -> Result<Phrase<'a>, Refusal>
    ensures { seen_all body_of result ≡ place_in (λ t. body_is.End t) (seen tokens.now) }
{
    let (place, rest) = target(tokens)?;
    nothing(rest)?;
    Ok(Phrase::End(place))
}

/// What follows `%`.
#[tactic(auto, unfolding(crate::specs::Readers::setting_in))]
fn setting<'a>(tokens: &'a [Lexeme<'a>]) -> Result<Phrase<'a>, Refusal>
    ensures { seen_all body_of result ≡ setting_in (seen tokens.now) }
{
    if let Some(rest) = after_directive(tokens, Directive::Builtins) {
        builtins(rest)
    } else if let Some(rest) = after_directive(tokens, Directive::Start) {
        start(rest)
    } else if let Some(rest) = after_directive(tokens, Directive::End) {
        end(rest)
    } else {
        Err(refused(tokens))
    }
}

/// A statement, or nothing.
#[tactic(auto, unfolding(crate::specs::Readers::said_in))]
fn said<'a>(tokens: &'a [Lexeme<'a>]) -> Result<Option<Phrase<'a>>, Refusal>
    ensures { seen_all phrase_of result ≡ said_in (seen tokens.now) }
{
    if tokens.is_empty() {
        return Ok(None);
    }
    let phrase = statement(tokens)?;
    Ok(Some(phrase))
}

/// A label, and what it stands before.
#[tactic(auto, unfolding(crate::specs::Readers::named_in))]
fn named<'a>(tokens: &'a [Lexeme<'a>]) -> Result<Line<'a>, Refusal>
    ensures { seen_all bodies_of result ≡ named_in (seen tokens.now) }
{
    let (name, rest) = label(tokens)?;
    let rest = expect_sign(rest, Symbol::Colon)?;
    let phrase = said(rest)?;
    Ok(Line {
        label: Some(name),
        phrase,
    })
}

/// Whether a label stands first.
#[tactic(auto, unfolding(casm_tokens::specs::Marks::mark_of))]
fn begins_label(tokens: &[Lexeme<'_>]) -> bool
    ensures { result ≡ begins_label (seen tokens.now) }
{
    match tokens.split_first() {
        Some((first, _)) => matches!(first.mark, Mark::Label(_)),
        None => false,
    }
}

/// The line that the tokens are.
#[tactic(auto, unfolding(crate::specs::Readers::line_in))]
fn line<'a>(tokens: &'a [Lexeme<'a>]) -> Result<Line<'a>, Refusal>
    ensures { seen_all bodies_of result ≡ line_in (seen tokens.now) }
{
    if let Some(rest) = after_sign(tokens, Symbol::Percent) {
        let phrase = setting(rest)?;
        return Ok(Line {
            label: None,
            phrase: Some(phrase),
        });
    }
    if begins_label(tokens) {
        return named(tokens);
    }
    let phrase = said(tokens)?;
    Ok(Line {
        label: None,
        phrase,
    })
}

/// The first fault of tokens that are no line.
#[derive(Clone, Copy, Debug, PartialEq, Eq)]
pub struct LineFault {
    /// How many tokens stand before it: the fault is at the next token, or after the last one.
    pub at: usize,
    /// [`SyntaxKind::Token`] or [`SyntaxKind::Range`].
    pub kind: SyntaxKind,
}

/// The line that the tokens are, or where they stop to begin one.
pub fn read_line<'a>(tokens: &'a [Lexeme<'a>]) -> Result<Line<'a>, LineFault>
    ensures derives { IfOk result (λ line. Derives Kept whole_line (bodies_of line) (seen tokens.now)) }
    ensures only { IfOk result (λ line. (v : List Body) → Derives Kept whole_line v (seen tokens.now) → v ≡ bodies_of line) }
    ensures fault { IfErr result (λ fault. HasFault whole_line (seen tokens.now) fault.at fault.kind) }
    ensures within { IfErr result (λ fault. fault.at ≤ length tokens.now) }
{
    match line(tokens) {
        Ok(line) => Ok(line),
        Err(refusal) => Err(LineFault {
            at: tokens.len() - refusal.left,
            kind: refusal.kind,
        }),
    }
}
