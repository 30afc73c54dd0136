//! Writing a tables file.

ghost use Rattle.std.specs.Prelude.{◌≡◌, ◌++◌, All, IfOk, OnOk, length};
ghost use Rattle.table_file.specs.Tables.{contents, AreValid};
ghost use Rattle.file_records.specs.Numbers.{numbers_bytes};
ghost use Rattle.table_file.specs.Spelling.{all_values, spelling, SpellsTables};

use crate::Tables;
use crate::head::{Counts, MAGIC};
use casm_word::State;
use cpu_rows::Row;
use file_records::{Record, write_records};
use goldilocks::{Felt, Pair};
use range_columns::RangeRow;
use std::alloc::{AllocError, Global};

/// The bytes of the tables' file, the only ones that spell these tables. The tables are valid. Memory is taken once.
pub fn write(alloc: Global, tables: &Tables) -> Result<Vec<u8>, AllocError>
    requires { AreValid (contents tables.now) }
    ensures bytes { IfOk result (λ bytes. bytes.items ≡ spelling (contents tables.now)) }

    // So `read` gives the tables back.
    ensures spells { IfOk result (λ bytes. SpellsTables bytes.items (contents tables.now)) }
{
    let counts = Counts::of(tables);
    let mut out = Vec::with_capacity(alloc, counts.file_len())?;
    out.extend_from_slice(&MAGIC)?;
    counts.write(&mut out)?;
    write_lists(&mut out, tables)?;
    Ok(out)
}

/// Appends the bytes of all lists, one list after another.
fn write_lists(out: &mut Vec<u8>, tables: &Tables) -> Result<(), AllocError>
    ensures bytes { OnOk result (out.new.items ≡ out.old.items ++ numbers_bytes (all_values (contents tables.now))) }
    ensures sixteen { OnOk result (All (λ r. length r.tilde ≡ 16) (contents tables.now).rows) }
{
    write_records::<Row>(out, &tables.rows)?;
    State::write(&tables.last, out)?;
    write_records::<RangeRow>(out, &tables.range)?;
    write_records::<Pair>(out, &tables.memory.fill)?;
    write_records::<Pair>(out, &tables.memory.sorted)?;
    write_records::<Felt>(out, &tables.small.fill)?;
    write_records::<Felt>(out, &tables.small.sorted)?;
    Ok(())
}
