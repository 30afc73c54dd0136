//! One step of a run.
ghost use Rattle.std.specs.Prelude.{◌≡◌, ◌<◌, Ok, Err, IfOk, OnOk};
ghost use Rattle.segments.specs.Memory.{IsMemory, Grows, total_limit, cell};
ghost use Rattle.builtin_segments.specs.Rules.{Rules};
ghost use Rattle.run_steps.specs.declared.cause.StepCause.{StepCause};
ghost use Rattle.run_steps.specs.declared.cause.StepFault.{StepFault};
ghost use Rattle.run_steps.specs.Step.{greater, step};
ghost use Rattle.run_steps.specs.Cases.{places_by_cases, operands_by_cases, found_by_cases};

use crate::cause::{StepCause, StepFault};
use crate::deduction::{called_op0, found_dst, sought_op0, sought_op1};
use crate::operands::{Found, Places, dst_place, instruction, known, op0_place, op1_place, res_of};
use crate::placing::place_all;
use crate::transition::next_state;
use casm_word::{Flags, Word};
use segments::{RelState, Segments, Value};
use std::alloc::Global;

/// One step of a run from `state`: the cells that it finds out are placed in the memory, and the next state is answered.
///
/// [`StepFault::Refused`] with the first cause in this order, and [`StepFault::Memory`] where there was no memory.
///
/// 1. [`StepCause::NoInstruction`], [`StepCause::BadWord`].
/// 2. [`StepCause::AddressRange`] of dst and of op0.
/// 3. Where op1 lies by op0, [`StepCause::Unknown`] and [`StepCause::NotPointer`]; then [`StepCause::AddressRange`] of op1.
/// 4. [`StepCause::Arith`] of a difference that is sought.
/// 5. [`StepCause::Unknown`] of op0 and of op1, [`StepCause::Arith`] of what is computed, [`StepCause::Unknown`] of dst.
/// 6. [`StepCause::Cell`] of op0, of op1 and of dst.
/// 7. [`StepCause::CallPc`], [`StepCause::CallFp`], [`StepCause::NotEqual`].
/// 8. [`StepCause::PcNotPointer`] or [`StepCause::Arith`] of pc, [`StepCause::Arith`] of ap, [`StepCause::FpNotPointer`].
///
/// After a fault, too, the memory has all that it had, and maybe some of the cells that were found out.
#[tactic(auto, unfolding(crate::specs::Step::step))]
pub fn step(alloc: Global, memory: &mut Segments, state: RelState) -> Result<RelState, StepFault>
    ensures next { (rules : Rules) → IfOk result (λ t. step rules memory.old state ≡ Ok (memory.new, t)) }
    ensures refused { (rules : Rules) (cause : StepCause) → result ≡ Err (StepFault.Refused cause) →
        step rules memory.old state ≡ Err cause }
    ensures kept { OnOk result (IsMemory memory.new) }
    ensures grows { Grows memory.old memory.new }
{
    find_out(alloc, memory, state)?;
    let next = next_state(memory, state)?;
    Ok(next)
}

/// Places the cells that the step finds out.
#[tactic(auto, unfolding(crate::specs::Step::greater))]
fn find_out(alloc: Global, memory: &mut Segments, state: RelState) -> Result<(), StepFault>
    ensures found { (rules : Rules) → OnOk result (greater rules memory.old state ≡ Ok memory.new) }
    ensures refused { (rules : Rules) (cause : StepCause) → result ≡ Err (StepFault.Refused cause) →
        greater rules memory.old state ≡ Err cause }
    ensures grows { Grows memory.old memory.new }
{
    let found = found_operands(memory, state)?;
    place_all(alloc, memory, found)
}

/// The operands of the step, as far as the memory has them or they can be found out.
#[tactic(auto, unfolding(crate::specs::Cases::found_by_cases))]
fn found_operands(memory: &Segments, state: RelState) -> Result<Found, StepCause>
    ensures { result ≡ found_by_cases memory.now state }
{
    let word = instruction(memory, state)?;
    let at = places_of(memory, word, state)?;
    let dst = memory.get(at.dst);
    let op0 = called_op0(word.flags, state, memory.get(at.op0));
    let op1 = memory.get(at.op1);
    operands_of(word.flags, state, at, dst, op0, op1)
}

/// Where the operands lie.
#[tactic(auto, unfolding(crate::specs::Cases::places_by_cases))]
fn places_of(memory: &Segments, word: Word, state: RelState) -> Result<Places, StepCause>
    requires { state.pc.off < total_limit }
    ensures { result ≡ places_by_cases memory.now word state }
{
    let dst = dst_place(word, state)?;
    let op0 = op0_place(word, state)?;
    let op0_known = called_op0(word.flags, state, memory.get(op0));
    let op1 = op1_place(word, state, op0, op0_known)?;
    Ok(Places { dst, op0, op1 })
}

/// All operands, where this is known of dst, op0 and op1: op0 is sought first, then op1, and dst last.
#[tactic(auto, unfolding(crate::specs::Cases::operands_by_cases))]
fn operands_of(
    flags: Flags,
    state: RelState,
    at: Places,
    dst: Option<Value>,
    op0: Option<Value>,
    op1: Option<Value>,
) -> Result<Found, StepCause>
    ensures { result ≡ operands_by_cases flags state at dst op0 op1 }
{
    let op0_sought = sought_op0(flags, dst, op0, op1)?;
    let op1_sought = sought_op1(flags, dst, op0_sought, op1)?;
    let op0 = known(at.op0, op0_sought)?;
    let op1 = known(at.op1, op1_sought)?;
    let res = res_of(flags, op0, op1)?;
    let dst = found_dst(flags, state, at.dst, res, dst)?;
    Ok(Found { at, dst, op0, op1 })
}
