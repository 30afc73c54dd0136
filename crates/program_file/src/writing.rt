//! Writing a program file.
ghost use Rattle.std.specs.Prelude.{◌≡◌, Ok, IfOk, OnOk, map};
ghost use Rattle.serde_json.specs.Data.{string};
ghost use Rattle.json_fields.specs.Encoding.{WritesValue, list_json};
ghost use Rattle.program_file.specs.Listing.{listing};
ghost use Rattle.program_file.specs.Format.{SpellsProgram, written, program_json, builtin_names};
ghost use Rattle.program_file.specs.Reading.{reading};
ghost use Rattle.program_file.specs.Parts.{WritesName};

use crate::reading::PRIME_TEXT;
use crate::{Builtins, Program};
use json::Writer;
use json_fields::write_felts;
use std::alloc::{AllocError, Global};

/// How many bytes a word takes at most: its mark, 16 digits, two quotes and a comma.
const WORD_SIZE: usize = 21;

/// How many bytes all but the words take at most.
const FRAME_SIZE: usize = 128;

/// The bytes of the program's file: JSON without spaces, with the keys `builtins`, `data`, `end`, `prime` and `start`
/// in this order, and no line feed at the end.
///
/// [`crate::read`] gives the program back.
pub fn write(alloc: Global, program: &Program) -> Result<Vec<u8>, AllocError>
    ensures written { IfOk result (λ bytes. bytes.items ≡ written (listing program.now)) }
    ensures spells { IfOk result (λ bytes. SpellsProgram bytes.items (listing program.now)) }
    ensures read_back { IfOk result (λ bytes. reading bytes.items ≡ Ok (listing program.now)) }
{
    let size = WORD_SIZE * program.words().len() + FRAME_SIZE;
    let mut out = Writer::new(Vec::with_capacity(alloc, size)?);
    write_program(alloc, &mut out, program)?;
    Ok(out.into_inner())
}

/// Writes the program as a JSON value.
fn write_program(alloc: Global, out: &mut Writer, program: &Program) -> Result<(), AllocError>
    ensures { OnOk result (WritesValue out.old out.new (program_json (listing program.now))) }
{
    out.begin_object()?;
    out.key("builtins")?;
    write_builtins(out, program.builtins())?;
    out.key("data")?;
    write_felts(alloc, out, program.words())?;
    out.key("end")?;
    out.u64(u64::from(program.end()))?;
    out.key("prime")?;
    out.string(PRIME_TEXT)?;
    out.key("start")?;
    out.u64(u64::from(program.start()))?;
    out.end_object()
}

/// Writes the list of the builtins' names.
fn write_builtins(out: &mut Writer, builtins: Builtins) -> Result<(), AllocError>
    ensures { OnOk result (WritesValue out.old out.new (list_json (map string (builtin_names builtins)))) }
{
    out.begin_array()?;
    write_name(out, builtins.output, "output")?;
    write_name(out, builtins.range, "range_check")?;
    out.end_array()
}

/// Writes the name of a builtin, where it is used.
fn write_name(out: &mut Writer, is_used: bool, name: &str) -> Result<(), AllocError>
    ensures { OnOk result (WritesName out.old out.new is_used name.now) }
{
    if is_used { out.string(name) } else { Ok(()) }
}
