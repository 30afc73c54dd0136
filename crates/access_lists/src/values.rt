//! The small values, which are range checked.

ghost use Rattle.std.specs.Prelude.{◌≡◌, ◌++◌, IfOk, OnOk};
ghost use Rattle.std.specs.List.{flat_map};
ghost use Rattle.access_lists.specs.SmallValues.{row_offsets, limbs, small_parts, small_values};

use cpu_rows::Row;
use goldilocks::Felt;
use range_columns::RangeRow;
use std::alloc::{AllocError, Global};

/// The parts of a list of small values, in the order in which they stand there.
#[derive(Clone, Copy, Debug)]
pub struct SmallValues<'a> {
    /// Rows, each with its three offsets.
    pub rows: &'a [Row],
    /// The range rows, each with its three limbs, whatever the number of limbs of a range cell.
    pub range_rows: &'a [RangeRow],
    /// The fillers.
    pub fillers: &'a [Felt],
}

impl SmallValues<'_> {
    /// The list of all these values.
    pub fn to_vec(&self, alloc: Global) -> Result<Vec<Felt>, AllocError>
        ensures { IfOk result (λ all. all.items ≡ small_values (small_parts self.now)) }
    {
        let mut all = Vec::with_capacity(alloc, self.count())?;
        push_offsets(&mut all, self.rows)?;
        push_limbs(&mut all, self.range_rows)?;
        all.extend_from_slice(self.fillers)?;
        Ok(all)
    }

    /// How many values there are.
    fn count(&self) -> usize {
        3 * self.rows.len() + 3 * self.range_rows.len() + self.fillers.len()
    }
}

/// Adds the three biased offsets of each row.
pub fn push_offsets(all: &mut Vec<Felt>, rows: &[Row]) -> Result<(), AllocError>
    ensures { OnOk result (all.new.items ≡ all.old.items ++ flat_map row_offsets rows.now) }
{
    for row in rows {
        all.extend_from_slice(&row_offsets(row))?;
    }
    Ok(())
}

/// The three biased offsets of a row.
pub fn row_offsets(row: &Row) -> [Felt; 3]
    ensures { result ≡ row_offsets row.now }
{
    [row.off_dst, row.off_op0, row.off_op1]
}

/// Adds the three limbs of each range row.
pub fn push_limbs(all: &mut Vec<Felt>, rows: &[RangeRow]) -> Result<(), AllocError>
    ensures { OnOk result (all.new.items ≡ all.old.items ++ flat_map limbs rows.now) }
{
    for row in rows {
        all.extend_from_slice(&limbs(row))?;
    }
    Ok(())
}

/// The three limbs of a range row, also where a range cell has fewer.
pub fn limbs(row: &RangeRow) -> [Felt; 3]
    ensures { result ≡ limbs row.now }
{
    [row.l0, row.l1, row.l2]
}
