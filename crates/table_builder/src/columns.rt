//! The sorted columns of a run: those of its small values, and those of its memory.
#![tactic(auto, unfolding(crate::specs::Findings::finding_of))]

ghost use Rattle.std.specs.Prelude.{◌≡◌, ◌<◌, Some, ⊤};
ghost use Rattle.goldilocks.specs.Field.{prime};
ghost use Rattle.goldilocks.specs.Felts.{numbers};
ghost use Rattle.program_file.specs.Listing.{listing};
ghost use Rattle.public_input.specs.Statement.{statement};
ghost use Rattle.public_input.specs.Valid.{IsValid};
ghost use Rattle.table_builder.specs.Columns.{least_of, greatest_of, reads_of, row_small_values};
ghost use Rattle.table_builder.specs.Findings.{Mismatch, finding_of, first_found, limit_findings, width_finding};
ghost use Rattle.table_builder.specs.Parts.{FindsOrGives, AreSmallColumns, AreMemoryColumns};

use crate::ends::felt;
use crate::{BuildFault, Field};
use access_lists::{Accesses, SmallValues};
use casm_word::Reads;
use cpu_rows::Row;
use goldilocks::Felt;
use memory_columns::{MemoryColumns, sort_columns};
use program_file::Program;
use public_input::Public;
use range_columns::{RangeColumns, RangeRow, sort_range};
use std::alloc::Global;

/// The columns of the offsets and limbs, none of which may lie outside the stated range.
pub(crate) fn small_columns(
    alloc: Global,
    public: &Public,
    rows: &[Row],
    range_rows: &[RangeRow],
) -> Result<RangeColumns, BuildFault>
    requires valid_public { IsValid public.now }
    ensures { FindsOrGives (first_found (limit_findings (statement public.now) (numbers (row_small_values rows.now range_rows.now))))
        (λ columns. AreSmallColumns (statement public.now) (row_small_values rows.now range_rows.now) columns.fill.items columns.sorted.items) result }
{
    let small = SmallValues {
        rows,
        range_rows,
        fillers: &[],
    };
    let values = small.to_vec(alloc)?;
    within_limits(public, &values)?;
    Ok(sort_range(alloc, values, public.rc_min, public.rc_max)?)
}

/// An error where a value lies outside the stated range.
fn within_limits(public: &Public, values: &[Felt]) -> Result<(), BuildFault>
    ensures { FindsOrGives (first_found (limit_findings (statement public.now) (numbers values.now))) (λ _. ⊤) result }
{
    let least = least_of(values);
    if least < u64::from(public.rc_min) {
        return Err(outside(Field::RcMin, public.rc_min, least));
    }
    let greatest = greatest_of(values);
    if greatest > u64::from(public.rc_max) {
        return Err(outside(Field::RcMax, public.rc_max, greatest));
    }
    Ok(())
}

/// The fault of an end of the range that isn't as it is stated.
fn outside(field: Field, stated: u32, found: u64) -> BuildFault
    requires { found < prime }
    ensures { finding_of result ≡ Some (Mismatch field stated found) }
{
    BuildFault::Mismatch {
        field,
        stated: felt(stated),
        found: Felt { number: found },
    }
}

/// The least of the values, or 0 where there are none.
#[tactic(auto, unfolding(crate::specs::Columns::least_of))]
fn least_of(values: &[Felt]) -> u64
    ensures { result ≡ least_of (numbers values.now) }
{
    let Some(first) = values.first() else {
        return 0;
    };
    let mut least = first.number;
    for value in values {
        least = least.min(value.number);
    }
    least
}

/// The greatest of the values, or 0 where there are none.
#[tactic(auto, unfolding(crate::specs::Columns::greatest_of))]
fn greatest_of(values: &[Felt]) -> u64
    ensures { result ≡ greatest_of (numbers values.now) }
{
    let Some(first) = values.first() else {
        return 0;
    };
    let mut greatest = first.number;
    for value in values {
        greatest = greatest.max(value.number);
    }
    greatest
}

/// The columns of all accesses to the memory. Between them no more than 2^21 addresses may be free.
pub(crate) fn memory_columns<M: Reads>(
    alloc: Global,
    program: &Program,
    public: &Public,
    rows: &[Row],
    range_rows: &[RangeRow],
    m: &M,
) -> Result<MemoryColumns, BuildFault>
    ensures { FindsOrGives (width_finding (reads_of (listing program.now) (statement public.now) rows.now range_rows.now))
        (λ columns. AreMemoryColumns (M.cells m.now) (reads_of (listing program.now) (statement public.now) rows.now range_rows.now)
        columns.fill.items columns.sorted.items) result }
{
    let reads = Accesses {
        rows,
        range_begin: public.range_begin,
        range_rows,
        words: program.words(),
        public_cells: &public.cells,
        fillers: &[],
    };
    let accesses = reads.to_vec(alloc)?;
    Ok(sort_columns(alloc, accesses, m)?)
}
