//! Writing the parts of a file.
ghost use Rattle.std.specs.Prelude.{◌≡◌, map, string_bytes, OnOk, IfOk};
ghost use Rattle.json_fields.specs.FieldTexts.{hex_text};
ghost use Rattle.json_fields.specs.Encoding.{WritesValue, felt_json, pair_json, list_json};

use goldilocks::{Felt, Pair};
use json::Writer;
use std::alloc::{AllocError, Global};

/// Writes the text of a number of the field. Where memory runs out, a part of it may be written.
pub fn write_felt(alloc: Global, out: &mut Writer, number: Felt) -> Result<(), AllocError>
    ensures { OnOk result (WritesValue out.old out.new (felt_json number)) }
{
    let text = hex_text(alloc, number)?;
    out.string(text.as_str())
}

/// The text of a number of the field.
fn hex_text(alloc: Global, number: Felt) -> Result<String, AllocError>
    ensures { IfOk result (λ text. string_bytes text ≡ hex_text number) }
{
    format!(in alloc; "0x{:x}", number.number)
}

/// Writes the list of the texts of these numbers. Where memory runs out, a part of it may be written.
pub fn write_felts(alloc: Global, out: &mut Writer, numbers: &[Felt]) -> Result<(), AllocError>
    ensures { OnOk result (WritesValue out.old out.new (list_json (map felt_json numbers.now))) }
{
    out.begin_array()?;
    for number in numbers {
        write_felt(alloc, out, *number)?;
    }
    out.end_array()
}

/// Writes the list of these pairs, each as a list of the two numbers' texts. Where memory runs out, a part of it may be
/// written.
pub fn write_pairs(alloc: Global, out: &mut Writer, pairs: &[Pair]) -> Result<(), AllocError>
    ensures { OnOk result (WritesValue out.old out.new (list_json (map pair_json pairs.now))) }
{
    out.begin_array()?;
    for pair in pairs {
        write_felts(alloc, out, &[pair.addr, pair.value])?;
    }
    out.end_array()
}
