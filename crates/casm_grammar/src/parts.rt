//! The parts of statements: cells, numbers, operands, conditions and the ends of lines.
ghost use Rattle.std.specs.Prelude.{◌≡◌, ◌≤◌, pos, neg_ℤ};
ghost use Rattle.casm_grammar.specs.Grammar.{negative};
ghost use Rattle.casm_grammar.specs.Readers.{reg_in, offset_in, rest_of_cell, cell_in, imm_in, term_in, rest_of_double, after_cell, bracket_in, res_in, end_in, increment_in, inc_in, condition_in};
ghost use Rattle.casm_grammar.specs.Seen.{seen};
ghost use Rattle.casm_grammar.specs.Views.{seen_all, seen_reading};

use crate::marks::{
    after_sign, after_word, expect_sign, expect_word, nothing, number, number_up_to, refused, zero,
};
use crate::refusal::{Parsed, Refusal};
use casm_statements::{Cell, Operand, Reg, Reserved, Term};
use casm_tokens::{Lexeme, Symbol};
use goldilocks::Felt;

/// A register.
#[tactic(auto, unfolding(crate::specs::Readers::reg_in))]
fn register<'a>(tokens: &'a [Lexeme<'a>]) -> Parsed<'a, Reg>
    ensures { seen_reading (λ x. x) result ≡ reg_in (seen tokens.now) }
{
    if let Some(rest) = after_word(tokens, Reserved::Ap) {
        Ok((Reg::Ap, rest))
    } else if let Some(rest) = after_word(tokens, Reserved::Fp) {
        Ok((Reg::Fp, rest))
    } else {
        Err(refused(tokens))
    }
}

/// An offset with its sign, or none.
#[tactic(auto, unfolding(crate::specs::Readers::offset_in))]
fn offset<'a>(tokens: &'a [Lexeme<'a>]) -> Parsed<'a, i16>
    ensures { seen_reading (λ x. x) result ≡ offset_in (seen tokens.now) }
{
    if let Some(rest) = after_sign(tokens, Symbol::Plus) {
        let (size, rest) = number_up_to(rest, 32767)?;
        Ok((size.number as i16, rest))
    } else if let Some(rest) = after_sign(tokens, Symbol::Minus) {
        let (size, rest) = number_up_to(rest, 32768)?;
        Ok((minus(size), rest))
    } else {
        Ok((0, tokens))
    }
}

/// The number below 0 of this size.
fn minus(size: Felt) -> i16
    requires { size.number ≤ 32768 }
    ensures { result ≡ neg_ℤ (pos size.number) }
{
    (-(size.number as i32)) as i16
}

/// A cell after its bracket.
#[tactic(auto, unfolding(crate::specs::Readers::rest_of_cell))]
pub(crate) fn rest_of_cell<'a>(tokens: &'a [Lexeme<'a>]) -> Parsed<'a, Cell>
    ensures { seen_reading (λ x. x) result ≡ rest_of_cell (seen tokens.now) }
{
    let (reg, rest) = register(tokens)?;
    let (off, rest) = offset(rest)?;
    let rest = expect_sign(rest, Symbol::Close)?;
    Ok((Cell { reg, off }, rest))
}

/// A cell.
#[tactic(auto, unfolding(crate::specs::Readers::cell_in))]
fn cell<'a>(tokens: &'a [Lexeme<'a>]) -> Parsed<'a, Cell>
    ensures { seen_reading (λ x. x) result ≡ cell_in (seen tokens.now) }
{
    let rest = expect_sign(tokens, Symbol::Open)?;
    rest_of_cell(rest)
}

/// A number, which may have a minus before it.
#[tactic(auto, unfolding(crate::specs::Readers::imm_in))]
pub(crate) fn immediate<'a>(tokens: &'a [Lexeme<'a>]) -> Parsed<'a, Felt>
    ensures { seen_reading (λ x. x) result ≡ imm_in (seen tokens.now) }
{
    if let Some(rest) = after_sign(tokens, Symbol::Minus) {
        let (value, rest) = number(rest)?;
        Ok((negative(value), rest))
    } else {
        number(tokens)
    }
}

/// The value with a minus before it.
#[tactic(auto, unfolding(crate::specs::Grammar::negative))]
fn negative(value: Felt) -> Felt
    ensures { result ≡ negative value }
{
    value.neg()
}

/// A cell or a number.
#[tactic(auto, unfolding(crate::specs::Readers::term_in))]
pub(crate) fn term<'a>(tokens: &'a [Lexeme<'a>]) -> Parsed<'a, Term>
    ensures { seen_reading (λ x. x) result ≡ term_in (seen tokens.now) }
{
    if let Some(rest) = after_sign(tokens, Symbol::Open) {
        let (cell, rest) = rest_of_cell(rest)?;
        Ok((Term::Cell(cell), rest))
    } else {
        let (value, rest) = immediate(tokens)?;
        Ok((Term::Imm(value), rest))
    }
}

/// A double after its two brackets.
#[tactic(auto, unfolding(crate::specs::Readers::rest_of_double))]
fn rest_of_double<'a>(tokens: &'a [Lexeme<'a>]) -> Parsed<'a, Operand>
    ensures { seen_reading (λ x. x) result ≡ rest_of_double (seen tokens.now) }
{
    let (cell, rest) = rest_of_cell(tokens)?;
    let (off, rest) = offset(rest)?;
    let rest = expect_sign(rest, Symbol::Close)?;
    Ok((Operand::Double(cell, off), rest))
}

/// What follows a cell in an operand.
#[tactic(auto, unfolding(crate::specs::Readers::after_cell))]
fn after_cell<'a>(cell: Cell, tokens: &'a [Lexeme<'a>]) -> Parsed<'a, Operand>
    ensures { seen_reading (λ x. x) result ≡ after_cell cell (seen tokens.now) }
{
    if let Some(rest) = after_sign(tokens, Symbol::Plus) {
        let (term, rest) = term(rest)?;
        Ok((Operand::Sum(cell, term), rest))
    } else if let Some(rest) = after_sign(tokens, Symbol::Times) {
        let (term, rest) = term(rest)?;
        Ok((Operand::Product(cell, term), rest))
    } else if let Some(rest) = after_sign(tokens, Symbol::Minus) {
        let (value, rest) = number(rest)?;
        Ok((Operand::Sum(cell, Term::Imm(negative(value))), rest))
    } else {
        Ok((Operand::Deref(cell), tokens))
    }
}

/// An operand after its first bracket.
#[tactic(auto, unfolding(crate::specs::Readers::bracket_in))]
fn bracket<'a>(tokens: &'a [Lexeme<'a>]) -> Parsed<'a, Operand>
    ensures { seen_reading (λ x. x) result ≡ bracket_in (seen tokens.now) }
{
    if let Some(rest) = after_sign(tokens, Symbol::Open) {
        rest_of_double(rest)
    } else {
        let (cell, rest) = rest_of_cell(tokens)?;
        after_cell(cell, rest)
    }
}

/// What an instruction computes.
#[tactic(auto, unfolding(crate::specs::Readers::res_in))]
pub(crate) fn operand<'a>(tokens: &'a [Lexeme<'a>]) -> Parsed<'a, Operand>
    ensures { seen_reading (λ x. x) result ≡ res_in (seen tokens.now) }
{
    if let Some(rest) = after_sign(tokens, Symbol::Open) {
        bracket(rest)
    } else {
        let (value, rest) = immediate(tokens)?;
        Ok((Operand::Imm(value), rest))
    }
}

/// The end of a line, which a semicolon may stand before.
#[tactic(auto, unfolding(crate::specs::Readers::end_in))]
pub(crate) fn end(tokens: &[Lexeme<'_>]) -> Result<(), Refusal>
    ensures { seen_all (λ x. x) result ≡ end_in (seen tokens.now) }
{
    match after_sign(tokens, Symbol::Semicolon) {
        Some(rest) => nothing(rest),
        None => nothing(tokens),
    }
}

/// `++` and the end of a line.
#[tactic(auto, unfolding(crate::specs::Readers::increment_in))]
fn increment(tokens: &[Lexeme<'_>]) -> Result<bool, Refusal>
    ensures { seen_all (λ x. x) result ≡ increment_in (seen tokens.now) }
{
    let rest = expect_sign(tokens, Symbol::Increment)?;
    end(rest)?;
    Ok(true)
}

/// The end of a line, and whether ap goes up by one.
#[tactic(auto, unfolding(crate::specs::Readers::inc_in))]
pub(crate) fn inc(tokens: &[Lexeme<'_>]) -> Result<bool, Refusal>
    ensures { seen_all (λ x. x) result ≡ inc_in (seen tokens.now) }
{
    if let Some(rest) = after_sign(tokens, Symbol::Semicolon) {
        if let Some(rest) = after_word(rest, Reserved::Ap) {
            return increment(rest);
        }
        nothing(rest)?;
        Ok(false)
    } else if let Some(rest) = after_sign(tokens, Symbol::Comma) {
        let rest = expect_word(rest, Reserved::Ap)?;
        increment(rest)
    } else {
        nothing(tokens)?;
        Ok(false)
    }
}

/// The condition after `if`: a cell that isn't 0.
#[tactic(auto, unfolding(crate::specs::Readers::condition_in))]
pub(crate) fn condition<'a>(tokens: &'a [Lexeme<'a>]) -> Parsed<'a, Cell>
    ensures { seen_reading (λ x. x) result ≡ condition_in (seen tokens.now) }
{
    let (cell, rest) = cell(tokens)?;
    let rest = expect_sign(rest, Symbol::NotEqual)?;
    let rest = zero(rest)?;
    Ok((cell, rest))
}
