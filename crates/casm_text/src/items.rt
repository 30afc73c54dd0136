//! Items that own their names.
#![tactic(auto)]

ghost use Rattle.std.specs.Prelude.{◌≡◌, ◌++◌, map, IfOk};
ghost use Rattle.casm_grammar.specs.Seen.{target_of, body_of, bodies_of};
ghost use Rattle.casm_text.specs.Meaning.{item_on};

use casm_grammar::{Line, Phrase, TargetRef};
use casm_statements::{Body, Item, Name, Target};
use std::alloc::{AllocError, Global};

/// Appends the items of a line.
pub(crate) fn push_items(
    alloc: Global,
    items: &mut Vec<Item>,
    number: u32,
    line: Line<'_>,
) -> Result<(), AllocError>
    ensures { IfOk result (λ _. items.new.items ≡ items.old.items ++ map (item_on number) (bodies_of line.entry)) }
{
    if let Some(label) = line.label {
        let name = Name::of_label(alloc, label)?;
        items.push(Item {
            line: number,
            body: Body::Label(name),
        })?;
    }
    if let Some(phrase) = line.phrase {
        let body = body(alloc, phrase)?;
        items.push(Item { line: number, body })?;
    }
    Ok(())
}

/// What a phrase means, with names of its own.
fn body(alloc: Global, phrase: Phrase<'_>) -> Result<Body, AllocError>
    ensures { IfOk result (λ body. body ≡ body_of phrase.entry) }
{
    match phrase {
        Phrase::Builtins { output, range } => Ok(Body::Builtins { output, range }),
        Phrase::Start(place) => {
            let target = target(alloc, place)?;
            Ok(Body::Start(target))
        }
        Phrase::End(place) => {
            let target = target(alloc, place)?;
            Ok(Body::End(target))
        }
        Phrase::Stmt(stmt) => Ok(Body::Stmt(stmt)),
        Phrase::JumpTo { name, inc } => {
            let name = Name::of_label(alloc, name)?;
            Ok(Body::JumpTo { name, inc })
        }
        Phrase::BranchTo { cond, name, inc } => {
            let name = Name::of_label(alloc, name)?;
            Ok(Body::BranchTo { cond, name, inc })
        }
        Phrase::CallTo(name) => {
            let name = Name::of_label(alloc, name)?;
            Ok(Body::CallTo(name))
        }
        Phrase::Dw(value) => Ok(Body::Dw(value)),
    }
}

/// The place that a directive gives, with a name of its own.
fn target(alloc: Global, place: TargetRef<'_>) -> Result<Target, AllocError>
    ensures { IfOk result (λ target. target ≡ target_of place.entry) }
{
    match place {
        TargetRef::Number(number) => Ok(Target::Number(number)),
        TargetRef::Name(label) => {
            let name = Name::of_label(alloc, label)?;
            Ok(Target::Name(name))
        }
    }
}
