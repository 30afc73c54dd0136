//! The cells of a memory, in the order of their addresses.

ghost use Rattle.std.specs.Prelude.{◌≡◌, ◌≤◌, ◌↔◌, IsTrue, IfSome, Contains, List, length};
ghost use Rattle.std.specs.List.Sorted.{IsStrictlyIncreasing};
ghost use Rattle.goldilocks.specs.declared.Pair.{Pair};
ghost use Rattle.goldilocks.specs.Cells.{addresses};
ghost use Rattle.trace_files.specs.MemoryFile.{memory_cell_limit};

use casm_word::Reads;
use goldilocks::{Felt, Pair};

/// The most cells of a list.
pub const MEMORY_CELL_LIMIT: usize = 1 << 21;

/// The cells of a memory: their addresses ascend strictly, and there are at most 2^21.
///
/// As a memory that is [read](Reads) it has these cells and no others.
#[derive(Debug, Drop)]
pub struct CellList {
    pub(crate) cells: Vec<Pair>,
    pub ghost ascending: { IsStrictlyIncreasing (addresses cells.items) },
    pub ghost most: { length cells.items ≤ memory_cell_limit },
}

impl Reads for CellList {
    ghost use Rattle.goldilocks.specs.Cells.{memory_of};
    ghost use Rattle.trace_files.specs.CellList.{listed};

    ghost cells = { λ list. memory_of (listed list) };

    fn read(&self, a: Felt) -> Option<Felt> {
        match likely_cell(&self.cells, a) {
            Some(cell) if cell.addr == a => Some(cell.value),
            _ => self.search(a),
        }
    }
}

impl CellList {
    ghost use Rattle.std.specs.Prelude.{IsSome, option_map};
    ghost use Rattle.goldilocks.specs.Cells.{memory_of};
    ghost use Rattle.trace_files.specs.CellList.{listed, CanBeListed};

    /// The list of these cells, or `None` where their addresses don't ascend strictly or they are more than 2^21.
    pub fn new(cells: Vec<Pair>) -> Option<CellList>
        ensures some { IsSome result ↔ CanBeListed cells.items }
        ensures same { IfSome result (λ list. listed list ≡ cells.items) }
    {
        if cells.len() <= MEMORY_CELL_LIMIT && ascend(&cells) {
            Some(CellList { cells })
        } else {
            None
        }
    }

    /// The cells, by ascending addresses.
    pub fn cells(&self) -> &[Pair]
        ensures same { result.now ≡ listed self.now }
        ensures can { CanBeListed result.now }
    {
        &self.cells
    }

    /// The value at an address, found by halves.
    fn search(&self, a: Felt) -> Option<Felt>
        ensures { option_map (λ value. value.number) result ≡ memory_of (listed self.now) a.number }
    {
        match self
            .cells
            .binary_search_by_key(&a.get(), |cell| cell.addr.get())
        {
            Ok(place) => Some(self.cells[place].value),
            Err(_) => None,
        }
    }
}

/// The cell at the place where the address would be if none before it were missing.
fn likely_cell(cells: &[Pair], a: Felt) -> Option<Pair>
    ensures { IfSome result (Contains cells.now) }
{
    let first = cells.first()?.addr.get();
    let place = usize::try_from(a.get().checked_sub(first)?).ok()?;
    cells.get(place).copied()
}

/// Whether each address is above the one before.
fn ascend(cells: &[Pair]) -> bool
    ensures { IsTrue result ↔ IsStrictlyIncreasing (addresses cells.now) }
{
    cells.is_sorted_by(|cell, next| cell.addr.get() < next.addr.get())
}
