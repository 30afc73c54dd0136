//! Writing a public file.
ghost use Rattle.std.specs.Prelude.{◌≡◌, map, IfOk, OnOk};
ghost use Rattle.json_fields.specs.Encoding.{felt_json, whole_json, list_json, pair_json};
ghost use Rattle.public_input.specs.declared.fault.PublicKey.{PublicKey};
ghost use Rattle.public_input.specs.Statement.{statement};
ghost use Rattle.public_input.specs.Valid.{IsValid};
ghost use Rattle.public_input.specs.Spelling.{SpellsPublic};
ghost use Rattle.public_input.specs.Reading.{reading};
ghost use Rattle.public_input.specs.Written.{written};
ghost use Rattle.public_input.specs.Parts.{WritesMember, WritesTokens, register_tokens, number_tokens};

use crate::{Public, PublicKey};
use goldilocks::{Felt, Pair};
use json::Writer;
use json_fields::{write_felt, write_pairs};
use std::alloc::{AllocError, Global};

/// The bytes of the file that spells the public input: JSON with no space, and the keys in the order of their names.
/// The public input is valid, and the only error is want of memory.
pub fn write(alloc: Global, p: &Public) -> Result<Vec<u8>, AllocError>
    requires valid { IsValid p.now }
    ensures written { IfOk result (λ out. out.items ≡ written (statement p.now)) }
    ensures spells { IfOk result (λ out. SpellsPublic out.items (statement p.now)) }

    // `read` reads back what is written.
    ensures read_back { IfOk result (λ out. reading out.items ≡ Ok (statement p.now)) }
{
    let mut out = Writer::new(Vec::new(alloc));
    out.begin_object()?;
    write_registers_and_cells(alloc, &mut out, p)?;
    write_numbers(alloc, &mut out, p)?;
    out.end_object()?;
    Ok(out.into_inner())
}

/// Writes the members from `ap_first` to `cells`.
fn write_registers_and_cells(alloc: Global, out: &mut Writer, p: &Public) -> Result<(), AllocError>
    ensures { OnOk result (WritesTokens out.old out.new (register_tokens (statement p.now))) }
{
    write_felt_under(alloc, out, PublicKey::ApFirst, p.ap_first)?;
    write_felt_under(alloc, out, PublicKey::ApLast, p.ap_last)?;
    write_cells(alloc, out, &p.cells)
}

/// Writes the members from `range_begin` to `steps`.
fn write_numbers(alloc: Global, out: &mut Writer, p: &Public) -> Result<(), AllocError>
    ensures { OnOk result (WritesTokens out.old out.new (number_tokens (statement p.now))) }
{
    write_felt_under(alloc, out, PublicKey::RangeBegin, p.range_begin)?;
    write_whole_under(out, PublicKey::RangeCount, p.range_count)?;
    write_whole_under(out, PublicKey::RcMax, p.rc_max)?;
    write_whole_under(out, PublicKey::RcMin, p.rc_min)?;
    write_whole_under(out, PublicKey::Steps, p.steps)
}

/// Writes the public cells under their key.
fn write_cells(alloc: Global, out: &mut Writer, cells: &[Pair]) -> Result<(), AllocError>
    ensures { OnOk result (WritesMember out.old out.new PublicKey.Cells (list_json (map pair_json cells.now))) }
{
    out.key(PublicKey::Cells.name())?;
    write_pairs(alloc, out, cells)
}

/// Writes a key with the text of a field value.
fn write_felt_under(
    alloc: Global,
    out: &mut Writer,
    key: PublicKey,
    number: Felt,
) -> Result<(), AllocError>
    ensures { OnOk result (WritesMember out.old out.new key (felt_json number)) }
{
    out.key(key.name())?;
    write_felt(alloc, out, number)
}

/// Writes a key with a whole number.
fn write_whole_under(out: &mut Writer, key: PublicKey, number: u32) -> Result<(), AllocError>
    ensures { OnOk result (WritesMember out.old out.new key (whole_json number)) }
{
    out.key(key.name())?;
    out.u64(u64::from(number))
}
