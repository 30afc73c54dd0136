//! Reading a hint file.
ghost use Rattle.std.specs.Prelude.{◌≡◌, ◌≢◌, ◌≤◌, ◌∷◌, [], Ok, Err, IfOk, IfErr, map, option_map, length};
ghost use Rattle.serde_json.specs.View.{view};
ghost use Rattle.json_fields.specs.Values.{list_in};
ghost use Rattle.json_fields.specs.Faults.{in_turn};
ghost use Rattle.hint_cells.specs.declared.fault.HintFault.{HintFault};
ghost use Rattle.hint_cells.specs.Limits.{extra_limit, hint_cell_limit};
ghost use Rattle.hint_cells.specs.HintList.{HintList, hint_list};
ghost use Rattle.hint_cells.specs.Cells as cells;
ghost use Rattle.hint_cells.specs.Format.{SpellsHints};
ghost use Rattle.hint_cells.specs.Reading.{reading, next_cell};
ghost use Rattle.hint_cells.specs.Reading as lines;

use crate::{EXTRA_LIMIT, HINT_CELL_LIMIT, HintCell, HintFault, HintKey, Hints};
use json_fields::{felt_in, list_at, read_json, whole_at};
use segments::{Place, Value};
use serde_json::Value as Json;
use std::alloc::{AllocError, Global};

/// The hints that the bytes of a file spell.
///
/// Else it is the first fault: [`HintFault::Json`], then those of `extra`, then those of `cells`, one entry after another.
/// Of equal keys the last one counts, and other keys are passed over.
pub fn read(alloc: Global, bytes: &[u8]) -> Result<Hints, HintFault>
    ensures hints { IfOk result (λ h. reading bytes.now ≡ Ok (hint_list h)) }
    ensures fault { IfErr result (λ f. f ≢ HintFault.Memory → reading bytes.now ≡ Err f) }

    // So the bytes spell those hints, and where there is a fault they spell none.
    ensures spells { IfOk result (λ h. SpellsHints bytes.now (hint_list h)) }
    ensures spells_nothing { IfErr result (λ f. f ≢ HintFault.Memory → (h : HintList) → ¬ SpellsHints bytes.now h) }
{
    let Some(top) = read_json(alloc, bytes)? else {
        return Err(HintFault::Json);
    };
    read_value(alloc, &top)
}

/// The hints that a JSON value is, or its first fault.
#[tactic(auto, unfolding(crate::specs::Reading::hints_in))]
fn read_value(alloc: Global, top: &Json) -> Result<Hints, HintFault>
    ensures hints { IfOk result (λ h. lines.hints_in (view top.now) ≡ Ok (hint_list h)) }
    ensures fault { IfErr result (λ f. f ≢ HintFault.Memory → lines.hints_in (view top.now) ≡ Err f) }
{
    let extra = read_extra(top)?;
    let cells = read_cells(alloc, top)?;
    Ok(Hints { extra, cells })
}

/// The number of extra segments, at most [`EXTRA_LIMIT`].
#[tactic(auto, unfolding(crate::specs::Reading::extra_in))]
fn read_extra(top: &Json) -> Result<u32, HintFault>
    ensures line { result ≡ lines.extra_in (view top.now) }
    ensures few { IfOk result (λ extra. extra ≤ extra_limit) }
{
    let Some(extra) = whole_at(top, HintKey::Extra.name()) else {
        return Err(HintFault::Key(HintKey::Extra));
    };
    if extra > u64::from(EXTRA_LIMIT) {
        return Err(HintFault::TooMany);
    }
    Ok(extra as u32)
}

/// The cells, at most [`HINT_CELL_LIMIT`] of them.
#[tactic(auto, unfolding(crate::specs::Reading::cells_under))]
fn read_cells(alloc: Global, top: &Json) -> Result<Vec<HintCell>, HintFault>
    ensures cells { IfOk result (λ found. lines.cells_under (view top.now) ≡ Ok found.items) }
    ensures few { IfOk result (λ found. length found.items ≤ hint_cell_limit) }
    ensures fault { IfErr result (λ f. f ≢ HintFault.Memory → lines.cells_under (view top.now) ≡ Err f) }
{
    let Some(entries) = list_at(top, HintKey::Cells.name()) else {
        return Err(HintFault::Key(HintKey::Cells));
    };
    if entries.len() > HINT_CELL_LIMIT {
        return Err(HintFault::TooMany);
    }
    read_entries(alloc, entries)
}

/// The cells of these entries.
fn read_entries(alloc: Global, entries: &[Json]) -> Result<Vec<HintCell>, HintFault>
    requires { length entries.now ≤ hint_cell_limit }
    ensures cells { IfOk result (λ found. in_turn next_cell [] (map view entries.now) ≡ Ok found.items) }
    ensures count { IfOk result (λ found. length found.items ≡ length entries.now) }
    ensures fault { IfErr result (λ f. f ≢ HintFault.Memory → in_turn next_cell [] (map view entries.now) ≡ Err f) }
{
    let mut found = Vec::with_capacity(alloc, entries.len())?;
    for (index, entry) in entries.iter().enumerate() {
        let Some(cell) = cell_in(entry) else {
            return Err(HintFault::Cell(index as u32));
        };
        found.push(cell).map_err(AllocError::from)?;
    }
    Ok(found)
}

/// The cell that an entry is: a list of a segment, an offset and a value.
#[tactic(auto, unfolding(crate::specs::Cells::cell_in))]
fn cell_in(entry: &Json) -> Option<HintCell>
    ensures { result ≡ cells.cell_in (view entry.now) }
{
    match list_in(entry)? {
        [seg, off, value] => {
            let place = place_of(seg, off)?;
            let value = value_in(value)?;
            Some(HintCell { place, value })
        }
        _ => None,
    }
}

/// The value of a cell: the text of a number, or a list of a segment and an offset.
#[tactic(auto, unfolding(crate::specs::Cells::value_in))]
fn value_in(value: &Json) -> Option<Value>
    ensures { result ≡ cells.value_in (view value.now) }
{
    match felt_in(value) {
        Some(number) => Some(Value::Num(number)),
        None => match pointer_in(value) {
            Some(place) => Some(Value::Ptr(place)),
            None => None,
        },
    }
}

/// The place that the value is, as a list of a segment and an offset.
#[tactic(auto, unfolding(crate::specs::Cells::pointer_in))]
fn pointer_in(value: &Json) -> Option<Place>
    ensures { result ≡ cells.pointer_in (view value.now) }
{
    match list_in(value)? {
        [seg, off] => place_of(seg, off),
        _ => None,
    }
}

/// The place in this segment at this offset.
#[tactic(auto, unfolding(crate::specs::Cells::place_of))]
fn place_of(seg: &Json, off: &Json) -> Option<Place>
    ensures { result ≡ cells.place_of (view seg.now) (view off.now) }
{
    let seg = index_in(seg)?;
    let off = index_in(off)?;
    Some(Place { seg, off })
}

/// The whole number below 2^32 that the value is.
#[tactic(auto, unfolding(crate::specs::Cells::index_in, json_fields::specs::Values::whole_in))]
fn index_in(value: &Json) -> Option<u32>
    ensures { result ≡ cells.index_in (view value.now) }
{
    let whole = value.as_u64()?;
    if whole > u64::from(u32::MAX) {
        return None;
    }
    Some(whole as u32)
}

/// The entries of the value, where it is a list.
#[tactic(auto, unfolding(json_fields::specs::Values::list_in))]
fn list_in(value: &Json) -> Option<&[Json]>
    ensures { option_map (λ entries. map view entries.now) result ≡ list_in (view value.now) }
{
    let entries = value.as_array()?;
    Some(entries.as_slice())
}
