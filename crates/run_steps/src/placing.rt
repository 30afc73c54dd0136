//! The cells that a step found out, as they are placed.
ghost use Rattle.std.specs.Prelude.{◌≡◌, Ok, Err, OnOk};
ghost use Rattle.segments.specs.Memory.{IsMemory, Grows, cell};
ghost use Rattle.builtin_segments.specs.Rules.{Rules, adding};
ghost use Rattle.run_steps.specs.declared.cause.StepCause.{StepCause};
ghost use Rattle.run_steps.specs.declared.cause.StepFault.{StepFault};
ghost use Rattle.run_steps.specs.Step.{placed, all_placed};

use crate::cause::{StepCause, StepFault};
use crate::operands::Found;
use builtin_segments::{CellFault, place_cell};
use segments::{Place, Segments, Value};
use std::alloc::Global;

/// Places the operands that the memory doesn't hold, in the order op0, op1, dst.
///
/// [`StepCause::Cell`] with the first place that can't take its value, and [`StepFault::Memory`] where there was no memory.
#[tactic(auto, unfolding(crate::specs::Step::all_placed))]
pub fn place_all(alloc: Global, memory: &mut Segments, found: Found) -> Result<(), StepFault>
    ensures placed { (rules : Rules) → OnOk result (all_placed rules memory.old found ≡ Ok memory.new) }
    ensures refused { (rules : Rules) (cause : StepCause) → result ≡ Err (StepFault.Refused cause) →
        all_placed rules memory.old found ≡ Err cause }
    ensures grows { Grows memory.old memory.new }
{
    let dst = memory.get(found.at.dst);
    let op0 = memory.get(found.at.op0);
    let op1 = memory.get(found.at.op1);
    place_found(alloc, memory, found.at.op0, op0, found.op0)?;
    place_found(alloc, memory, found.at.op1, op1, found.op1)?;
    place_found(alloc, memory, found.at.dst, dst, found.dst)?;
    Ok(())
}

/// Places a value that was found out, at a place of which `held` was known before the step; what was known stays.
///
/// [`StepCause::Cell`] where the place can't take the value, and [`StepFault::Memory`] where there was no memory.
#[tactic(auto, unfolding(crate::specs::Step::placed, crate::specs::Step::unless_refused))]
fn place_found(
    alloc: Global,
    memory: &mut Segments,
    place: Place,
    held: Option<Value>,
    value: Value,
) -> Result<(), StepFault>
    ensures placed { (rules : Rules) → OnOk result (placed rules memory.old place held value ≡ Ok memory.new) }
    ensures refused { (rules : Rules) (cause : StepCause) → result ≡ Err (StepFault.Refused cause) →
        placed rules memory.old place held value ≡ Err cause }
    ensures grows { Grows memory.old memory.new }
{
    if held.is_some() {
        return Ok(());
    }
    match place_cell(alloc, memory, place, value) {
        Ok(()) => Ok(()),
        Err(CellFault::Refused(cause)) => Err(StepFault::Refused(StepCause::Cell { place, cause })),
        Err(CellFault::Memory) => Err(StepFault::Memory),
    }
}
