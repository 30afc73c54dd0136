//! Writing a hint file.
ghost use Rattle.std.specs.Prelude.{◌≡◌, Ok, IfOk, OnOk, map, All};
ghost use Rattle.json_fields.specs.Encoding.{WritesValue, list_json};
ghost use Rattle.hint_cells.specs.Fits.{FitsPlace, FitsValue, FitsPlaces};
ghost use Rattle.hint_cells.specs.HintList.{hint_list};
ghost use Rattle.hint_cells.specs.Format.{SpellsHints, written, hints_json, cell_json, value_json, place_json};
ghost use Rattle.hint_cells.specs.Reading.{reading};

use crate::{HintCell, HintKey, Hints};
use json::Writer;
use json_fields::write_felt;
use segments::{Place, Value};
use std::alloc::{AllocError, Global};

/// The bytes of the hints' file: JSON without spaces, with the keys `cells` and `extra` in this order, and no line feed at
/// the end.
///
/// [`crate::read`] gives the hints back.
pub fn write(alloc: Global, hints: &Hints) -> Result<Vec<u8>, AllocError>
    ensures written { IfOk result (λ bytes. bytes.items ≡ written (hint_list hints.now)) }
    ensures spells { IfOk result (λ bytes. SpellsHints bytes.items (hint_list hints.now)) }
    ensures read_back { IfOk result (λ bytes. reading bytes.items ≡ Ok (hint_list hints.now)) }
{
    let mut out = Writer::new(Vec::new(alloc));
    write_hints(alloc, &mut out, hints)?;
    Ok(out.into_inner())
}

/// Writes the hints as a JSON value.
fn write_hints(alloc: Global, out: &mut Writer, hints: &Hints) -> Result<(), AllocError>
    ensures written { OnOk result (WritesValue out.old out.new (hints_json (hint_list hints.now))) }
    ensures fit { OnOk result (All FitsPlaces (hint_list hints.now).cells) }
{
    out.begin_object()?;
    out.key(HintKey::Cells.name())?;
    write_cells(alloc, out, hints.cells())?;
    out.key(HintKey::Extra.name())?;
    out.u64(u64::from(hints.extra()))?;
    out.end_object()
}

/// Writes the list of the cells.
fn write_cells(alloc: Global, out: &mut Writer, cells: &[HintCell]) -> Result<(), AllocError>
    ensures written { OnOk result (WritesValue out.old out.new (list_json (map cell_json cells.now))) }
    ensures fit { OnOk result (All FitsPlaces cells.now) }
{
    out.begin_array()?;
    for cell in cells {
        write_cell(alloc, out, *cell)?;
    }
    out.end_array()
}

/// Writes a cell as a list of its segment, its offset and its value.
fn write_cell(alloc: Global, out: &mut Writer, cell: HintCell) -> Result<(), AllocError>
    ensures written { OnOk result (WritesValue out.old out.new (cell_json cell)) }
    ensures fits { FitsPlaces cell }
{
    out.begin_array()?;
    out.u64(u64::from(cell.place.seg))?;
    out.u64(u64::from(cell.place.off))?;
    write_value(alloc, out, cell.value)?;
    out.end_array()
}

/// Writes what a cell holds: a number as its text, a pointer as its place.
fn write_value(alloc: Global, out: &mut Writer, value: Value) -> Result<(), AllocError>
    ensures written { OnOk result (WritesValue out.old out.new (value_json value)) }
    ensures fits { FitsValue value }
{
    match value {
        Value::Num(number) => write_felt(alloc, out, number),
        Value::Ptr(place) => write_place(out, place),
    }
}

/// Writes a place as a list of its segment and its offset.
fn write_place(out: &mut Writer, place: Place) -> Result<(), AllocError>
    ensures written { OnOk result (WritesValue out.old out.new (place_json place)) }
    ensures fits { FitsPlace place }
{
    out.begin_array()?;
    out.u64(u64::from(place.seg))?;
    out.u64(u64::from(place.off))?;
    out.end_array()
}
