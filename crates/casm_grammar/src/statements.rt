//! The statements.
ghost use Rattle.std.specs.Prelude.{◌≡◌};
ghost use Rattle.casm_grammar.specs.Readers.{as_term, assert_in, jump_on, branch_on, jump_rel_by, jump_rel_in, jump_abs_in, jump_to_in, jump_in, call_on, call_in, add_ap_in, dw_in, stmt_in};
ghost use Rattle.casm_grammar.specs.Seen.{seen, body_of};
ghost use Rattle.casm_grammar.specs.Views.{seen_all};

use crate::marks::{after_sign, after_word, expect_sign, label, refused};
use crate::parts::{condition, end, immediate, inc, operand, rest_of_cell, term};
use crate::phrase::Phrase;
use crate::refusal::Refusal;
use casm_statements::{Operand, Reserved, Stmt, Term};
use casm_tokens::{Lexeme, Symbol};

/// An assertion after its first bracket.
#[tactic(auto, unfolding(crate::specs::Readers::assert_in))]
fn assertion<'a>(tokens: &'a [Lexeme<'a>]) -> Result<Phrase<'a>, Refusal>
    ensures { seen_all body_of result ≡ assert_in (seen tokens.now) }
{
    let (dst, rest) = rest_of_cell(tokens)?;
    let rest = expect_sign(rest, Symbol::Equal)?;
    let (res, rest) = operand(rest)?;
    let inc = inc(rest)?;
    Ok(Phrase::Stmt(Stmt::Assert { dst, res, inc }))
}

/// A jump after its operand.
#[tactic(auto, unfolding(crate::specs::Readers::jump_on))]
fn jump_on<'a>(abs: bool, res: Operand, tokens: &'a [Lexeme<'a>]) -> Result<Phrase<'a>, Refusal>
    ensures { seen_all body_of result ≡ jump_on abs res (seen tokens.now) }
{
    let inc = inc(tokens)?;
    Ok(Phrase::Stmt(Stmt::Jump { abs, res, inc }))
}

/// A branch after `if`.
#[tactic(auto, unfolding(crate::specs::Readers::branch_on))]
fn branch_on<'a>(to: Term, tokens: &'a [Lexeme<'a>]) -> Result<Phrase<'a>, Refusal>
    ensures { seen_all body_of result ≡ branch_on to (seen tokens.now) }
{
    let (cond, rest) = condition(tokens)?;
    let inc = inc(rest)?;
    Ok(Phrase::Stmt(Stmt::Branch { cond, to, inc }))
}

/// An operand that is a term.
fn as_term(operand: Operand) -> Option<Term>
    ensures { result ≡ as_term operand }
{
    match operand {
        Operand::Deref(cell) => Some(Term::Cell(cell)),
        Operand::Imm(value) => Some(Term::Imm(value)),
        Operand::Double(_, _) => None,
        Operand::Sum(_, _) => None,
        Operand::Product(_, _) => None,
    }
}

/// A jump or a branch after `rel` and how far.
fn jump_rel_by<'a>(
    to: Option<Term>,
    res: Operand,
    tokens: &'a [Lexeme<'a>],
) -> Result<Phrase<'a>, Refusal>
    ensures { seen_all body_of result ≡ jump_rel_by to res (seen tokens.now) }
{
    let Some(to) = to else {
        return jump_on(false, res, tokens);
    };
    match after_word(tokens, Reserved::If) {
        Some(rest) => branch_on(to, rest),
        None => jump_on(false, res, tokens),
    }
}

/// A jump or a branch after `rel`.
#[tactic(auto, unfolding(crate::specs::Readers::jump_rel_in))]
fn jump_rel<'a>(tokens: &'a [Lexeme<'a>]) -> Result<Phrase<'a>, Refusal>
    ensures { seen_all body_of result ≡ jump_rel_in (seen tokens.now) }
{
    let (res, rest) = operand(tokens)?;
    jump_rel_by(as_term(res), res, rest)
}

/// A jump after `abs`.
#[tactic(auto, unfolding(crate::specs::Readers::jump_abs_in))]
fn jump_abs<'a>(tokens: &'a [Lexeme<'a>]) -> Result<Phrase<'a>, Refusal>
    ensures { seen_all body_of result ≡ jump_abs_in (seen tokens.now) }
{
    let (res, rest) = operand(tokens)?;
    jump_on(true, res, rest)
}

/// A jump or a branch to a label.
#[tactic(auto, unfolding(crate::specs::Readers::jump_to_in))]
fn jump_to<'a>(tokens: &'a [Lexeme<'a>]) -> Result<Phrase<'a>, Refusal>
    ensures { seen_all body_of result ≡ jump_to_in (seen tokens.now) }
{
    let (name, rest) = label(tokens)?;
    match after_word(rest, Reserved::If) {
        Some(rest) => {
            let (cond, rest) = condition(rest)?;
            let inc = inc(rest)?;
            Ok(Phrase::BranchTo { cond, name, inc })
        }
        None => {
            let inc = inc(rest)?;
            Ok(Phrase::JumpTo { name, inc })
        }
    }
}

/// What follows `jmp`.
#[tactic(auto, unfolding(crate::specs::Readers::jump_in))]
fn jump<'a>(tokens: &'a [Lexeme<'a>]) -> Result<Phrase<'a>, Refusal>
    ensures { seen_all body_of result ≡ jump_in (seen tokens.now) }
{
    if let Some(rest) = after_word(tokens, Reserved::Rel) {
        jump_rel(rest)
    } else if let Some(rest) = after_word(tokens, Reserved::Abs) {
        jump_abs(rest)
    } else {
        jump_to(tokens)
    }
}

/// A call after `rel` or `abs`.
#[tactic(auto, unfolding(crate::specs::Readers::call_on))]
fn call_on<'a>(abs: bool, tokens: &'a [Lexeme<'a>]) -> Result<Phrase<'a>, Refusal>
    ensures { seen_all body_of result ≡ call_on abs (seen tokens.now) }
{
    let (to, rest) = term(tokens)?;
    end(rest)?;
    Ok(Phrase::Stmt(Stmt::Call { abs, to }))
}

/// What follows `call`.
#[tactic(auto, unfolding(crate::specs::Readers::call_in))]
fn call<'a>(tokens: &'a [Lexeme<'a>]) -> Result<Phrase<'a>, Refusal>
    ensures { seen_all body_of result ≡ call_in (seen tokens.now) }
{
    if let Some(rest) = after_word(tokens, Reserved::Rel) {
        call_on(false, rest)
    } else if let Some(rest) = after_word(tokens, Reserved::Abs) {
        call_on(true, rest)
    } else {
        let (name, rest) = label(tokens)?;
        end(rest)?;
        Ok(Phrase::CallTo(name))
    }
}

/// What follows `ap`.
#[tactic(auto, unfolding(crate::specs::Readers::add_ap_in))]
fn add_ap<'a>(tokens: &'a [Lexeme<'a>]) -> Result<Phrase<'a>, Refusal>
    ensures { seen_all body_of result ≡ add_ap_in (seen tokens.now) }
{
    let rest = expect_sign(tokens, Symbol::AddTo)?;
    let (res, rest) = operand(rest)?;
    end(rest)?;
    Ok(Phrase::Stmt(Stmt::AddAp { res }))
}

/// What follows `dw`.
#[tactic(auto, unfolding(crate::specs::Readers::dw_in))]
fn word_data<'a>(tokens: &'a [Lexeme<'a>]) -> Result<Phrase<'a>, Refusal>
    ensures { seen_all body_of result ≡ dw_in (seen tokens.now) }
{
    let (value, rest) = immediate(tokens)?;
    end(rest)?;
    Ok(Phrase::Dw(value))
}

/// A statement or a `dw`.
#[tactic(auto, unfolding(crate::specs::Readers::stmt_in))]
pub(crate) fn statement<'a>(tokens: &'a [Lexeme<'a>]) -> Result<Phrase<'a>, Refusal>
    ensures { seen_all body_of result ≡ stmt_in (seen tokens.now) }
{
    if let Some(rest) = after_sign(tokens, Symbol::Open) {
        assertion(rest)
    } else if let Some(rest) = after_word(tokens, Reserved::Jmp) {
        jump(rest)
    } else if let Some(rest) = after_word(tokens, Reserved::Call) {
        call(rest)
    } else if let Some(rest) = after_word(tokens, Reserved::Ret) {
        end(rest)?;
        Ok(Phrase::Stmt(Stmt::Ret))
    } else if let Some(rest) = after_word(tokens, Reserved::Ap) {
        add_ap(rest)
    } else if let Some(rest) = after_word(tokens, Reserved::Dw) {
        word_data(rest)
    } else {
        Err(refused(tokens))
    }
}
