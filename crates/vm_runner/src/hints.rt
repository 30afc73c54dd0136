//! The hints of a run, as they are placed in its memory.
ghost use Rattle.std.specs.Prelude.{◌≡◌, ◌≢◌, ◌≤◌, Ok, Err, OnOk, IfErr, length};
ghost use Rattle.segments.specs.Memory.{IsMemory};
ghost use Rattle.hint_cells.specs.Limits.{hint_cell_limit};
ghost use Rattle.builtin_segments.specs.Rules.{Rules, adding};
ghost use Rattle.vm_runner.specs.declared.fault.RunFault.{RunFault};
ghost use Rattle.vm_runner.specs.Run.{as_hint, hinted};

use crate::fault::RunFault;
use builtin_segments::{CellFault, place_cell};
use hint_cells::HintCell;
use segments::Segments;
use std::alloc::Global;

/// Places the hints in their order. There are at most [`hint_cells::HINT_CELL_LIMIT`] of them.
///
/// [`RunFault::Hint`] with the index of the first that may not be placed, and [`RunFault::Memory`].
pub fn place_hints(alloc: Global, memory: &mut Segments, hints: &[HintCell]) -> Result<(), RunFault>
    requires few { length hints.now ≤ hint_cell_limit }
    requires kept { IsMemory memory.old }
    ensures placed { (rules : Rules) → OnOk result (hinted rules 0 hints.now memory.old ≡ Ok memory.new) }
    ensures refused { (rules : Rules) → IfErr result (λ fault. fault ≢ RunFault.Memory →
        hinted rules 0 hints.now memory.old ≡ Err fault) }
    ensures kept { OnOk result (IsMemory memory.new) }
{
    for (index, hint) in hints.iter().enumerate() {
        place_hint(alloc, memory, index as u32, *hint)?;
    }
    Ok(())
}

/// Places the hint with this index.
#[tactic(auto, unfolding(crate::specs::Run::as_hint))]
fn place_hint(
    alloc: Global,
    memory: &mut Segments,
    index: u32,
    hint: HintCell,
) -> Result<(), RunFault>
    ensures placed { (rules : Rules) → OnOk result (adding rules memory.old hint.place hint.value ≡ Ok memory.new) }
    ensures refused { (rules : Rules) → IfErr result (λ fault. fault ≢ RunFault.Memory →
        as_hint index (adding rules memory.old hint.place hint.value) ≡ Err fault) }
    ensures kept { OnOk result (IsMemory memory.new) }
{
    match place_cell(alloc, memory, hint.place, hint.value) {
        Ok(()) => Ok(()),
        Err(CellFault::Refused(cause)) => Err(RunFault::Hint { index, cause }),
        Err(CellFault::Memory) => Err(RunFault::Memory),
    }
}
