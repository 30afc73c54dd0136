//! From items to their canonical text.
#![tactic(auto)]

ghost use Rattle.std.specs.Prelude.{◌≡◌, ◌<◌, ◌^◌, IsTrue, IfOk};
ghost use Rattle.casm_statements.specs.Label.{is_label};
ghost use Rattle.casm_text.specs.Canonical.{printed};
ghost use Rattle.casm_text.specs.Meaning.{MeansBodies, bodies};
ghost use Rattle.casm_text.specs.Bounds.{IsOffset, IsStmt, IsTarget, IsBody};

use casm_statements::{Body, Cell, Item, Name, Stmt, Target};
use std::alloc::{AllocError, Global};

/// The canonical text of items: each on a line of its own, with a line feed after it.
pub fn print(alloc: Global, items: &[Item]) -> Result<Vec<u8>, AllocError>
    ensures text { IfOk result (λ text. text.items ≡ printed items.now) }

    // It means what was printed: of at most 2^24 bytes, `parse` reads the same bodies.
    ensures reads_back { IfOk result (λ text. MeansBodies text.items (bodies items.now)) }
{
    let mut out = String::new(alloc);
    for item in items {
        keeps_bounds(&item.body);
        writeln!(out, "{item}")?;
    }
    Ok(out.into_bytes())
}

/// What the type of a body keeps: its offsets fit, its places have 32 bits, and its names are labels. This and the
/// functions below do nothing: the proof of [`print`] asks for what their contracts say.
fn keeps_bounds(body: &Body)
    ensures { IsBody body.now }
{
    match body {
        Body::Builtins { .. } => {}
        Body::Start(target) => keeps_target(target),
        Body::End(target) => keeps_target(target),
        Body::Label(name) => keeps_label(name),
        Body::Stmt(stmt) => keeps_offsets(*stmt),
        Body::JumpTo { name, .. } => keeps_label(name),
        Body::BranchTo { cond, name, .. } => {
            keeps_offset(*cond);
            keeps_label(name);
        }
        Body::CallTo(name) => keeps_label(name),
        Body::Dw(_) => {}
    }
}

/// What the type of a target keeps.
fn keeps_target(target: &Target)
    ensures { IsTarget target.now }
{
    match target {
        Target::Number(number) => keeps_place(*number),
        Target::Name(name) => keeps_label(name),
    }
}

/// A name is a label.
fn keeps_label(name: &Name)
    ensures { IsTrue (is_label name.now) }
{
    let _ = name.text();
}

/// A place has 32 bits.
fn keeps_place(place: u32)
    ensures { place < 2 ^ 32 }
{
    let _ = place;
}

/// The offset of a cell fits.
fn keeps_offset(cell: Cell)
    ensures { IsOffset cell.off }
{
    let _ = cell;
}

/// The offsets of a statement fit.
fn keeps_offsets(stmt: Stmt)
    ensures { IsStmt stmt }
{
    let _ = stmt;
}
