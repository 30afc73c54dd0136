//! From items to words.
#![tactic(auto)]

ghost use Rattle.std.specs.Prelude.{◌≡◌, ◌≤◌, ◌<◌, ℕ, List, map, length, None, IfOk, IfErr, OnOk, option_copied};
ghost use Rattle.casm_word.specs.Length.{program_word_limit};
ghost use Rattle.casm_statements.specs.declared.Item.{Item};
ghost use Rattle.casm_statements.specs.declared.Stmt.{Stmt};
ghost use Rattle.casm_text.specs.Meaning.{bodies};
ghost use Rattle.assembler.specs.Shown.{Shown, word_bodies};
ghost use Rattle.assembler.specs.Assembly.{word_count, labels_of, words_of, first_given, start_in, end_in, target_place, start_place, end_place, builtins_of};
ghost use Rattle.assembler.specs.Faults.{RepeatsAt, HasNoFault, TellsFault};
ghost use Rattle.assembler.specs.Views.{TellsPlace};

use crate::survey::Survey;
use crate::words::words_of;
use crate::{AsmFault, Assembled};
use casm_text::{Body, Item, Name, Target};
use casm_word::PROGRAM_WORD_LIMIT;
use indexmap::IndexMap;
use std::alloc::Global;

/// The program of items: the words of each one after another.
///
/// A statement that names a label is the relative one with the distance to it. A program without `%start` starts at word
/// 0, and one without `%builtins` uses none. Where several faults are there, the first is reported in the order of
/// [`AsmFault`].
pub fn assemble(alloc: Global, items: &[Item]) -> Result<Assembled, AsmFault>
    ensures accepted { OnOk result (HasNoFault items.now) }
    ensures words { IfOk result (λ a. a.words.items ≡ words_of (bodies items.now)) }
    ensures labels { IfOk result (λ a. a.labels.entries ≡ labels_of (bodies items.now)) }
    ensures start { IfOk result (λ a. a.start ≡ start_place (bodies items.now)) }
    ensures end { IfOk result (λ a. a.end ≡ end_place (bodies items.now)) }
    ensures builtins { IfOk result (λ a. (a.output, a.range) ≡ builtins_of (bodies items.now)) }

    // It has 1 to 2^18 words, and its places are inside.
    ensures size { IfOk result (λ a. length a.words.items ≤ program_word_limit) }
    ensures inside { IfOk result (λ a. (a.start < length a.words.items) × (a.end < length a.words.items)) }

    // Where all words are those of statements that name no label, they are shown as these statements.
    ensures shown { IfOk result (λ a. (stmts : List Stmt) →
        word_bodies (bodies items.now) ≡ map Body.Stmt stmts → Shown a.words.items (map Body.Stmt stmts)) }

    // A refusal tells the first fault that is there, unless there was no memory.
    ensures fault { IfErr result (TellsFault items.now) }
{
    let (labels, count) = labels_and_count(alloc, items)?;
    let words = words_of(alloc, items, &labels, count)?;
    let (start, end) = places(items, &labels, count)?;
    let (output, range) = builtins_of(items);
    Ok(Assembled {
        words,
        labels,
        start,
        end,
        output,
        range,
    })
}

/// The labels of items, and how many words these give.
fn labels_and_count(alloc: Global, items: &[Item]) -> Result<(IndexMap<Name, u32>, u32), AsmFault>
    ensures new { OnOk result ((k : ℕ) (i : Item) → RepeatsAt items.now k i → ⊥) }
    ensures labels { IfOk result (λ found. found.0.entries ≡ labels_of (bodies items.now)) }
    ensures count { IfOk result (λ found. found.1 ≡ word_count (bodies items.now)) }
    ensures short { OnOk result (word_count (bodies items.now) ≤ program_word_limit) }
    ensures fault { IfErr result (TellsFault items.now) }
{
    let survey = Survey::of(alloc, items)?;
    let count = survey.words;
    if count as usize > PROGRAM_WORD_LIMIT {
        return Err(AsmFault::TooLong);
    }
    Ok((survey.labels, count))
}

/// The places where the program starts and ends, which are below its number of words.
fn places(items: &[Item], labels: &IndexMap<Name, u32>, count: u32) -> Result<(u32, u32), AsmFault>
    ensures start { IfOk result (λ p. p.0 ≡ target_place labels.now.entries (first_given start_in (bodies items.now))) }
    ensures end { IfOk result (λ p. p.1 ≡ target_place labels.now.entries (first_given end_in (bodies items.now))) }
    ensures has_end { OnOk result (first_given end_in (bodies items.now) ≡ None → ⊥) }
    ensures inside { IfOk result (λ p. (p.0 < count) × (p.1 < count)) }
    ensures fault { IfErr result (TellsPlace labels.now.entries items.now count) }
{
    let target = end_target(items).ok_or(AsmFault::NoEnd)?;
    let start = target_place(start_target(items), labels);
    if start >= count {
        return Err(AsmFault::StartOutside);
    }
    let end = target_place(Some(target), labels);
    if end >= count {
        return Err(AsmFault::EndOutside);
    }
    Ok((start, end))
}

/// The target of `%start`.
fn start_target(items: &[Item]) -> Option<&Target>
    ensures { option_copied result ≡ first_given start_in (bodies items.now) }
{
    for item in items {
        if let Body::Start(target) = &item.body {
            return Some(target);
        }
    }
    None
}

/// The target of `%end`.
fn end_target(items: &[Item]) -> Option<&Target>
    ensures { option_copied result ≡ first_given end_in (bodies items.now) }
{
    for item in items {
        if let Body::End(target) = &item.body {
            return Some(target);
        }
    }
    None
}

/// The place of a target, and 0 where there is none.
fn target_place(target: Option<&Target>, labels: &IndexMap<Name, u32>) -> u32
    ensures { result ≡ target_place labels.now.entries (option_copied target.entry) }
{
    match target {
        None => 0,
        Some(Target::Number(place)) => *place,
        Some(Target::Name(name)) => labels.get(name).copied().unwrap_or(0),
    }
}

/// The builtins that items give: output, and range checks.
fn builtins_of(items: &[Item]) -> (bool, bool)
    ensures { result ≡ builtins_of (bodies items.now) }
{
    for item in items {
        if let Body::Builtins { output, range } = &item.body {
            return (*output, *range);
        }
    }
    (false, false)
}
