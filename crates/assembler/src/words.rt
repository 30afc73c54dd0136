//! The words of items.
#![tactic(auto)]

ghost use Rattle.std.specs.Prelude.{◌≡◌, ◌≤◌, ◌<◌, ◌++◌, ◌^◌, None, IfOk, IfErr, OnOk, find, is_some, length, option_copied};
ghost use Rattle.std.specs.List.{AllByRecursion};
ghost use Rattle.casm_word.specs.Length.{program_word_limit};
ghost use Rattle.casm_text.specs.Meaning.{bodies};
ghost use Rattle.assembler.specs.StatementWords.{statement_words, HasOffsets};
ghost use Rattle.assembler.specs.Assembly.{body_size, body_words, label_named, target_name, distance, distance_to, word_count, words_from};
ghost use Rattle.assembler.specs.Faults.{unknown_in};
ghost use Rattle.assembler.specs.Views.{KeepsOffsets, TellsUnknown, TellsFirstUnknown};

use crate::AsmFault;
use casm_text::{Body, Item, Name, Operand, Stmt, Target, Term, to_word};
use casm_word::encode;
use goldilocks::Felt;
use indexmap::IndexMap;
use std::alloc::{AllocError, Global};

/// The words of items, one after another; there are `count` of them.
pub(crate) fn words_of(
    alloc: Global,
    items: &[Item],
    labels: &IndexMap<Name, u32>,
    count: u32,
) -> Result<Vec<Felt>, AsmFault>
    requires { word_count (bodies items.now) ≤ program_word_limit }
    ensures words { IfOk result (λ words. words.items ≡ words_from labels.now.entries 0 (bodies items.now)) }
    ensures offsets { OnOk result (AllByRecursion KeepsOffsets (bodies items.now)) }
    ensures known { OnOk result (find (λ i. is_some (unknown_in labels.now.entries i.body)) items.now ≡ None) }
    ensures fault { IfErr result (TellsFirstUnknown labels.now.entries items.now) }
{
    let mut words = Vec::with_capacity(alloc, count as usize)?;
    for item in items {
        push_item(alloc, &mut words, labels, item)?;
    }
    Ok(words)
}

/// Appends the words of an item.
fn push_item(
    alloc: Global,
    words: &mut Vec<Felt>,
    labels: &IndexMap<Name, u32>,
    item: &Item,
) -> Result<(), AsmFault>
    requires { length words.old.items ≤ program_word_limit }
    ensures words { OnOk result (words.new.items
        ≡ words.old.items ++ body_words (distance_to labels.now.entries (length words.old.items) (label_named item.now.body)) item.now.body) }
    ensures offsets { OnOk result (KeepsOffsets item.now.body) }
    ensures known { OnOk result (unknown_in labels.now.entries item.now.body ≡ None) }
    ensures fault { IfErr result (TellsUnknown labels.now.entries item.now) }
{
    let place = words.len() as u32;
    let by = immediate(alloc, labels, item, place)?;
    push_body(words, &item.body, by)?;
    Ok(())
}

/// How far the label that an item names is from a place.
fn immediate(
    alloc: Global,
    labels: &IndexMap<Name, u32>,
    item: &Item,
    place: u32,
) -> Result<Felt, AsmFault>
    ensures value { IfOk result (λ by. by ≡ distance_to labels.now.entries place (label_named item.now.body)) }
    ensures known { OnOk result (unknown_in labels.now.entries item.now.body ≡ None) }
    ensures fault { IfErr result (TellsUnknown labels.now.entries item.now) }
{
    let Some(name) = label_named(&item.body) else {
        return Ok(distance(place, place));
    };
    match labels.get(name) {
        Some(value) => Ok(distance(*value, place)),
        None => {
            let name = copy(alloc, name)?;
            let line = item.line;
            Err(AsmFault::Unknown { name, line })
        }
    }
}

/// The label that a body names.
fn label_named(body: &Body) -> Option<&Name>
    ensures { option_copied result ≡ label_named body.now }
{
    match body {
        Body::Start(Target::Name(name)) => Some(name),
        Body::End(Target::Name(name)) => Some(name),
        Body::JumpTo { name, .. } => Some(name),
        Body::BranchTo { name, .. } => Some(name),
        Body::CallTo(name) => Some(name),
        _ => None,
    }
}

/// How far it is from one place to another.
fn distance(to: u32, from: u32) -> Felt
    ensures { result ≡ distance to from }
{
    let number = u64::from(to);
    let start = Felt {
        number: u64::from(from),
    };
    Felt { number }.sub(start)
}

/// Another name of the same bytes.
pub(crate) fn copy(alloc: Global, name: &Name) -> Result<Name, AllocError>
    ensures { IfOk result (λ copied. copied ≡ name.now) }
{
    match Name::new(alloc, name.text())? {
        Some(copied) => Ok(copied),
        None => unreachable!(),
    }
}

/// Appends the words of a body; what names a label has the immediate `by`.
fn push_body(words: &mut Vec<Felt>, body: &Body, by: Felt) -> Result<(), AllocError>
    ensures words { OnOk result (words.new.items ≡ words.old.items ++ body_words by body.now) }
    ensures offsets { OnOk result (KeepsOffsets body.now) }
{
    match body {
        Body::Stmt(stmt) => push_statement(words, *stmt),
        Body::JumpTo { inc, .. } => {
            let res = Operand::Imm(by);
            let inc = *inc;
            let abs = false;
            push_statement(words, Stmt::Jump { abs, res, inc })
        }
        Body::BranchTo { cond, inc, .. } => {
            let cond = *cond;
            let to = Term::Imm(by);
            let inc = *inc;
            push_statement(words, Stmt::Branch { cond, to, inc })
        }
        Body::CallTo(_) => {
            let to = Term::Imm(by);
            push_statement(words, Stmt::Call { abs: false, to })
        }
        Body::Dw(value) => {
            words.push(*value)?;
            Ok(())
        }
        _ => Ok(()),
    }
}

/// Appends the words of a statement.
fn push_statement(words: &mut Vec<Felt>, stmt: Stmt) -> Result<(), AllocError>
    ensures words { OnOk result (words.new.items ≡ words.old.items ++ statement_words stmt) }
    ensures offsets { HasOffsets stmt }
{
    let (word, immediate) = to_word(&stmt);
    words.push(Felt {
        number: encode(&word),
    })?;
    if let Some(value) = immediate {
        words.push(value)?;
    }
    Ok(())
}

/// How many words a body gives.
pub(crate) fn body_size(body: &Body) -> u32
    ensures { result ≡ body_size body.now }
{
    match body {
        Body::Stmt(stmt) => statement_size(stmt),
        Body::JumpTo { .. } => 2,
        Body::BranchTo { .. } => 2,
        Body::CallTo(_) => 2,
        Body::Dw(_) => 1,
        _ => 0,
    }
}

/// How many words a statement has.
fn statement_size(stmt: &Stmt) -> u32
    ensures { result ≡ length (statement_words stmt.now) }
{
    match to_word(stmt) {
        (_, Some(_)) => 2,
        (_, None) => 1,
    }
}
