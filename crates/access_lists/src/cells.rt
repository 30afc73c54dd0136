//! The accesses to the memory.

ghost use Rattle.std.specs.Prelude.{◌≡◌, ◌++◌, map, IfOk, OnOk};
ghost use Rattle.std.specs.List.{flat_map};
ghost use Rattle.goldilocks.specs.Cells.{cells_from};
ghost use Rattle.access_lists.specs.Accesses.{row_cells, access_parts, accesses};

use cpu_rows::Row;
use goldilocks::{Felt, Pair};
use range_columns::RangeRow;
use std::alloc::{AllocError, Global};

/// The parts of a list of accesses, in the order in which they stand there.
#[derive(Clone, Copy, Debug)]
pub struct Accesses<'a> {
    /// Rows, each with the four cells that it reads.
    pub rows: &'a [Row],
    /// The address of the first range cell.
    pub range_begin: Felt,
    /// The range cells, which lie one after another.
    pub range_rows: &'a [RangeRow],
    /// The words of the program, the first one at address 1.
    pub words: &'a [Felt],
    /// The public cells.
    pub public_cells: &'a [Pair],
    /// The fillers.
    pub fillers: &'a [Pair],
}

impl Accesses<'_> {
    /// The list of all these accesses.
    pub fn to_vec(&self, alloc: Global) -> Result<Vec<Pair>, AllocError>
        ensures { IfOk result (λ all. all.items ≡ accesses (access_parts self.now)) }
    {
        let mut all = Vec::with_capacity(alloc, self.count())?;
        push_row_cells(&mut all, self.rows)?;
        push_range_cells(&mut all, self.range_begin, self.range_rows)?;
        push_cells_from(&mut all, Felt::ONE, self.words)?;
        all.extend_from_slice(self.public_cells)?;
        all.extend_from_slice(self.fillers)?;
        Ok(all)
    }

    /// How many accesses there are.
    fn count(&self) -> usize {
        4 * self.rows.len()
            + self.range_rows.len()
            + self.words.len()
            + self.public_cells.len()
            + self.fillers.len()
    }
}

/// Adds the four cells that each row reads.
pub fn push_row_cells(all: &mut Vec<Pair>, rows: &[Row]) -> Result<(), AllocError>
    ensures { OnOk result (all.new.items ≡ all.old.items ++ flat_map row_cells rows.now) }
{
    for row in rows {
        all.extend_from_slice(&row_cells(row))?;
    }
    Ok(())
}

/// The four cells that a row reads: its instruction, dst, op0 and op1.
pub fn row_cells(row: &Row) -> [Pair; 4]
    ensures { result ≡ row_cells row.now }
{
    [
        cell(row.pc, row.inst),
        cell(row.dst_addr, row.dst),
        cell(row.op0_addr, row.op0),
        cell(row.op1_addr, row.op1),
    ]
}

/// The cell of an address and a value.
fn cell(addr: Felt, value: Felt) -> Pair
    ensures { result ≡ record { addr = addr; value = value } }
{
    Pair { addr, value }
}

/// Adds the range cells, which lie one after another from `begin` on.
pub fn push_range_cells(
    all: &mut Vec<Pair>,
    begin: Felt,
    rows: &[RangeRow],
) -> Result<(), AllocError>
    ensures { OnOk result (all.new.items ≡ all.old.items ++ cells_from begin.number (map (λ r. r.value) rows.now)) }
{
    let mut addr = begin;
    for row in rows {
        all.push(cell(addr, row.value))?;
        addr = addr.add(Felt::ONE);
    }
    Ok(())
}

/// Adds cells with these values, which lie one after another from `begin` on.
pub fn push_cells_from(all: &mut Vec<Pair>, begin: Felt, values: &[Felt]) -> Result<(), AllocError>
    ensures { OnOk result (all.new.items ≡ all.old.items ++ cells_from begin.number values.now) }
{
    let mut addr = begin;
    for value in values {
        all.push(cell(addr, *value))?;
        addr = addr.add(Felt::ONE);
    }
    Ok(())
}
