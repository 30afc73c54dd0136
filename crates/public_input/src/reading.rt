//! Reading a public file.
ghost use Rattle.std.specs.Prelude.{◌≡◌, ◌≢◌, ◌<◌, ◌≤◌, ◌-◌, [], ◌∷◌, ◌++◌, map, length, IfOk, IfErr, OnOk, slice_get};
ghost use Rattle.serde_json.specs.View.{view};
ghost use Rattle.json_fields.specs.Faults.{in_turn};
ghost use Rattle.public_input.specs.declared.fault.PublicFault.{PublicFault};
ghost use Rattle.public_input.specs.Statement.{Statement, statement};
ghost use Rattle.public_input.specs.Limits.{public_cell_limit};
ghost use Rattle.public_input.specs.Valid.{IsValid};
ghost use Rattle.public_input.specs.Spelling.{SpellsPublic};
ghost use Rattle.public_input.specs.Reading as lines;
ghost use Rattle.public_input.specs.Reading.{reading};
ghost use Rattle.public_input.specs.Parts.{Gives};

use crate::{
    PUBLIC_CELL_LIMIT, Public, PublicFault, PublicKey, RANGE_CELL_LIMIT, SMALL_LIMIT, STEP_LIMIT,
};
use goldilocks::{Felt, Pair};
use json_fields::{felt_at, list_at, pair_in, read_json, whole_at};
use serde_json::Value;
use std::alloc::{AllocError, Global};

/// The public input that the bytes of a file spell. It is valid.
///
/// Else it is the first fault: [`PublicFault::Json`], then those of `steps`, `ap_first`, `ap_last`, `rc_min`, `rc_max`,
/// `range_begin` and `range_count`, then those of `cells`, one entry after another. Of equal keys the last one counts,
/// and other keys are passed over.
#[tactic(auto, unfolding(crate::specs::Reading::reading))]
pub fn read(alloc: Global, bytes: &[u8]) -> Result<Public, PublicFault>
    ensures says { IfOk result (λ p. reading bytes.now ≡ Ok (statement p)) }
    ensures fault { IfErr result (λ fault. fault ≢ PublicFault.Memory → reading bytes.now ≡ Err fault) }
    ensures valid { IfOk result IsValid }

    // So the bytes spell that public input, and where there is a fault they spell none.
    ensures spells { IfOk result (λ p. SpellsPublic bytes.now (statement p)) }
    ensures spells_nothing { IfErr result (λ fault. fault ≢ PublicFault.Memory → (s : Statement) → ¬ SpellsPublic bytes.now s) }
{
    let found = read_json(alloc, bytes)?;
    let Some(top) = found else {
        return Err(PublicFault::Json);
    };
    read_statement(alloc, &top)
}

/// What the value of a JSON text says.
#[tactic(auto, unfolding(crate::specs::Reading::statement_in))]
fn read_statement(alloc: Global, top: &Value) -> Result<Public, PublicFault>
    ensures { Gives statement (lines.statement_in (view top.now)) result }
{
    let steps = read_steps(top)?;
    let ap_first = read_felt(top, PublicKey::ApFirst)?;
    let ap_last = read_felt(top, PublicKey::ApLast)?;
    let rc_min = read_whole(top, PublicKey::RcMin)?;
    let rc_max = read_rc_max(top, rc_min)?;
    let range_begin = read_felt(top, PublicKey::RangeBegin)?;
    let range_count = read_range_count(top)?;
    let cells = read_cells(alloc, top)?;
    Ok(Public {
        steps,
        ap_first,
        ap_last,
        rc_min: rc_min as u32,
        rc_max,
        range_begin,
        range_count,
        cells,
    })
}

/// The whole number under a key.
#[tactic(auto, unfolding(crate::specs::Reading::whole_under))]
fn read_whole(top: &Value, key: PublicKey) -> Result<u64, PublicFault>
    ensures { result ≡ lines.whole_under key (view top.now) }
{
    whole_at(top, key.name()).ok_or(PublicFault::Key(key))
}

/// The field value under a key.
#[tactic(auto, unfolding(crate::specs::Reading::felt_under))]
fn read_felt(top: &Value, key: PublicKey) -> Result<Felt, PublicFault>
    ensures { result ≡ lines.felt_under key (view top.now) }
{
    felt_at(top, key.name()).ok_or(PublicFault::Key(key))
}

/// The number of steps.
#[tactic(auto, unfolding(crate::specs::Reading::steps_in))]
fn read_steps(top: &Value) -> Result<u32, PublicFault>
    ensures { result ≡ lines.steps_in (view top.now) }
{
    let steps = read_whole(top, PublicKey::Steps)?;
    if steps == 0 {
        return Err(PublicFault::Range(PublicKey::Steps));
    }
    if steps > u64::from(STEP_LIMIT) {
        return Err(PublicFault::TooMany);
    }
    Ok(steps as u32)
}

/// The greatest small value, beside the least.
#[tactic(auto, unfolding(crate::specs::Reading::rc_max_in))]
fn read_rc_max(top: &Value, rc_min: u64) -> Result<u32, PublicFault>
    ensures line { result ≡ lines.rc_max_in rc_min (view top.now) }
    ensures above { IfOk result (λ rc_max. rc_min ≤ rc_max) }
{
    let rc_max = read_whole(top, PublicKey::RcMax)?;
    if rc_max >= u64::from(SMALL_LIMIT) {
        return Err(PublicFault::Range(PublicKey::RcMax));
    }
    if rc_min > rc_max {
        return Err(PublicFault::Range(PublicKey::RcMin));
    }
    Ok(rc_max as u32)
}

/// The number of range cells.
#[tactic(auto, unfolding(crate::specs::Reading::range_count_in))]
fn read_range_count(top: &Value) -> Result<u32, PublicFault>
    ensures { result ≡ lines.range_count_in (view top.now) }
{
    let range_count = read_whole(top, PublicKey::RangeCount)?;
    if range_count > u64::from(RANGE_CELL_LIMIT) {
        return Err(PublicFault::TooMany);
    }
    Ok(range_count as u32)
}

/// The public cells.
#[tactic(auto, unfolding(crate::specs::Reading::cells_in))]
fn read_cells(alloc: Global, top: &Value) -> Result<Vec<Pair>, PublicFault>
    ensures { Gives (λ cells. cells.items) (lines.cells_in (view top.now)) result }
{
    let Some(entries) = list_at(top, PublicKey::Cells.name()) else {
        return Err(PublicFault::Key(PublicKey::Cells));
    };
    if entries.len() > PUBLIC_CELL_LIMIT as usize {
        return Err(PublicFault::TooMany);
    }
    read_entries(alloc, entries)
}

/// The cells that the entries are.
#[tactic(auto, unfolding(json_fields::specs::Faults::in_turn))]
fn read_entries(alloc: Global, entries: &[Value]) -> Result<Vec<Pair>, PublicFault>
    requires { length entries.now ≤ public_cell_limit }
    ensures { Gives (λ cells. cells.items) (in_turn lines.next_cell [] (map view entries.now)) result }
{
    let mut cells = Vec::with_capacity(alloc, entries.len())?;
    for entry in entries {
        let cell = read_cell(&cells, entry)?;
        push(&mut cells, cell)?;
    }
    Ok(cells)
}

/// Appends a cell.
fn push(cells: &mut Vec<Pair>, cell: Pair) -> Result<(), AllocError>
    ensures { OnOk result (cells.new.items ≡ cells.old.items ++ cell ∷ []) }
{
    cells.push(cell)?;
    Ok(())
}

/// The cell of an entry, after the cells of the entries before.
#[tactic(auto, unfolding(crate::specs::Reading::next_cell))]
fn read_cell(before: &[Pair], entry: &Value) -> Result<Pair, PublicFault>
    requires { length before.now ≤ public_cell_limit }
    ensures { result ≡ lines.next_cell before.now (view entry.now) }
{
    let index = before.len() as u32;
    let cell = pair_in(entry).ok_or(PublicFault::Cell(index))?;
    if !is_above(cell.addr, before) {
        return Err(PublicFault::Order(index));
    }
    Ok(cell)
}

/// Whether an address is above that of the last cell, where there is one.
#[tactic(auto, unfolding(crate::specs::Reading::is_above))]
fn is_above(addr: Felt, before: &[Pair]) -> bool
    ensures { result ≡ lines.is_above addr.number (slice_get before.now (length before.now - 1)) }
{
    match before.last() {
        None => true,
        Some(last) => last.addr < addr,
    }
}
