//! From words to items.
#![tactic(auto)]

ghost use Rattle.std.specs.Prelude.{◌≡◌, ◌≤◌, ◌<◌, ◌+◌, ◌^◌, ◌++◌, [], ◌∷◌, length, IfOk, OnOk};
ghost use Rattle.casm_word.specs.Length.{program_word_limit};
ghost use Rattle.casm_tokens.specs.Limits.{text_limit};
ghost use Rattle.casm_text.specs.Canonical.{printed};
ghost use Rattle.assembler.specs.Disassembly.{builtins_directive, on_lines, Disassembles, AssemblesTo};
ghost use Rattle.assembler.specs.Views.{ShownBehind};

use crate::reading::first_statement;
use casm_text::{Body, Item, Target};
use goldilocks::Felt;
use std::alloc::{AllocError, Global};

/// The items of a program, on lines of their own: its directives, and what its words show.
///
/// A word that has a statement is that statement, with its immediate where it needs one; any other word is a number.
/// There are at most 2^18 words.
pub fn disassemble(
    alloc: Global,
    words: &[Felt],
    start: u32,
    end: u32,
    output: bool,
    range: bool,
) -> Result<Vec<Item>, AllocError>
    requires { length words.now ≤ program_word_limit }
    ensures shown { IfOk result (λ items. Disassembles words.now start end output range items.items) }

    // The items are assembled to what they were made of.
    ensures assembled { start < length words.now → end < length words.now →
        IfOk result (λ items. AssemblesTo words.now start end output range items.items) }

    // Their text isn't too long to be read again.
    ensures text { IfOk result (λ items. length (printed items.items) ≤ text_limit) }
{
    let mut items = Vec::with_capacity(alloc, words.len() + 3)?;
    push_builtins(&mut items, output, range)?;
    push(&mut items, Body::Start(Target::Number(start)))?;
    push(&mut items, Body::End(Target::Number(end)))?;
    push_shown(&mut items, words)?;
    Ok(items)
}

/// Appends the directive `%builtins`, where one is set.
fn push_builtins(items: &mut Vec<Item>, output: bool, range: bool) -> Result<(), AllocError>
    requires { length items.old.items < 4 }
    ensures { OnOk result (items.new.items
        ≡ items.old.items ++ on_lines (length items.old.items + 1) (builtins_directive output range)) }
{
    if output || range {
        return push(items, Body::Builtins { output, range });
    }
    Ok(())
}

/// Appends a body, on the next line.
fn push(items: &mut Vec<Item>, body: Body) -> Result<(), AllocError>
    requires { length items.old.items < 2 ^ 31 }
    ensures { OnOk result (items.new.items ≡ items.old.items ++ on_lines (length items.old.items + 1) (body ∷ [])) }
{
    let line = items.len() as u32 + 1;
    items.push(Item { line, body })?;
    Ok(())
}

/// Appends what the words show.
fn push_shown(items: &mut Vec<Item>, words: &[Felt]) -> Result<(), AllocError>
    requires { length items.old.items + length words.now < 2 ^ 31 }
    ensures { OnOk result (ShownBehind items.old.items words.now items.new.items) }
{
    let mut left = words;
    'words: while let Some((first, others)) = left.split_first() {
        match first_statement(left) {
            Some((stmt, behind)) => {
                push(items, Body::Stmt(stmt))?;
                left = behind;
            }
            None => {
                push(items, Body::Dw(*first))?;
                left = others;
            }
        }
    }
    Ok(())
}
