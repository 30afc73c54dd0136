//! The memory columns: all accesses to the memory, sorted so that one read-only memory can be seen in them.
#![tactic(auto)]

mod checking;
mod fault;
mod laws;
mod sorting;

use casm_word::Reads;
pub use checking::memory_fault;
pub use fault::SortFault;
use goldilocks::{Felt, Pair};
pub use laws::memory_fault_laws;
pub use sorting::{FILLER_LIMIT, sort_columns};

/// The columns of the memory in the tables.
#[derive(Debug, Drop)]
pub struct MemoryColumns {
    /// The cells between the accessed ones that are never accessed, by ascending address.
    pub fill: Vec<Pair>,
    /// All accesses with the fillers, by address and then by value.
    pub sorted: Vec<Pair>,
}

impl MemoryColumns {
    ghost use Rattle.std.specs.Prelude.{◌≡◌, option_map};
    ghost use Rattle.goldilocks.specs.Cells.{memory_of};

    /// The value at the first place of the address `a` in the sorted pairs, or `None` where it has none.
    #[tactic(auto, unfolding(goldilocks::specs::Cells::memory_of))]
    pub fn read(&self, a: Felt) -> Option<Felt>
        ensures { option_map (λ x. x.number) result ≡ memory_of self.now.sorted.items a.number }
    {
        self.sorted.iter().find(|x| x.addr == a).map(|x| x.value)
    }
}

impl Reads for MemoryColumns {
    ghost use Rattle.goldilocks.specs.Cells.{memory_of};

    ghost cells = { λ columns. memory_of columns.sorted.items };

    fn read(&self, a: Felt) -> Option<Felt> {
        MemoryColumns::read(self, a)
    }
}

/// The first equation of the lists that fails.
#[derive(Clone, Copy, Debug, PartialEq, Eq)]
pub struct ListFault {
    /// 1, 2 or 3, for M1, M2 or M3.
    pub number: u8,
    /// The first of the two neighbours for M1 and M2; for M3 the first place where the two ordered lists differ.
    pub row: u64,
}
