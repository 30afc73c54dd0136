//! Cells of a run, as they are placed.

ghost use Rattle.std.specs.Prelude.{◌≡◌, Ok, Err, OnOk, OnErr};
ghost use Rattle.segments.specs.Memory.{IsMemory, Grows};
ghost use Rattle.builtin_segments.specs.Rules.{Rules, adding};
ghost use Rattle.builtin_segments.specs.declared.cells.CellCause.{CellCause};
ghost use Rattle.builtin_segments.specs.declared.cells.CellFault.{CellFault};

use segments::{Place, PutCause, PutFault, Segments, Value};
use std::alloc::{AllocError, Global};

/// Why a cell may not be placed, in the order in which the causes are looked at.
#[derive(Clone, Copy, Debug, PartialEq, Eq)]
pub enum CellCause {
    /// The memory can't take it.
    Put(PutCause),
}

/// Why [`place_cell`] changed nothing.
#[derive(Clone, Copy, Debug, PartialEq, Eq)]
pub enum CellFault {
    /// The cell may not be placed.
    Refused(CellCause),
    /// There was no memory.
    Memory,
}

impl From<CellCause> for CellFault {
    ghost use Rattle.std.specs.Prelude.{◌≡◌};
    ghost use Rattle.builtin_segments.specs.declared.cells.CellFault.{CellFault};

    ghost from_gives = { λ cause fault. fault ≡ CellFault.Refused cause };

    fn from(cause: CellCause) -> CellFault {
        CellFault::Refused(cause)
    }
}

impl From<AllocError> for CellFault {
    ghost use Rattle.std.specs.Prelude.{◌≡◌};
    ghost use Rattle.builtin_segments.specs.declared.cells.CellFault.{CellFault};

    ghost from_gives = { λ _ fault. fault ≡ CellFault.Memory };

    fn from(_: AllocError) -> CellFault {
        CellFault::Memory
    }
}

/// Places a value at a place of the memory, where nothing is against it. The same value again changes nothing.
///
/// [`CellFault::Refused`] has the first cause against it. [`CellFault::Memory`] may come where the segment grows. After
/// each of them all is as before.
#[tactic(auto, unfolding(crate::specs::Rules::adding, crate::specs::Rules::unless_caused))]
pub fn place_cell(
    alloc: Global,
    memory: &mut Segments,
    place: Place,
    value: Value,
) -> Result<(), CellFault>
    ensures placed { (rules : Rules) → OnOk result (adding rules memory.old place value ≡ Ok memory.new) }
    ensures refused { (rules : Rules) (cause : CellCause) → result ≡ Err (CellFault.Refused cause) →
        adding rules memory.old place value ≡ Err cause }
    ensures kept { IsMemory memory.new }
    ensures grows { Grows memory.old memory.new }
    ensures unchanged { OnErr result (memory.new ≡ memory.old) }
{
    match memory.put(alloc, place, value) {
        Ok(()) => Ok(()),
        Err(PutFault::Refused(cause)) => Err(CellFault::Refused(CellCause::Put(cause))),
        Err(PutFault::Memory) => Err(CellFault::Memory),
    }
}
