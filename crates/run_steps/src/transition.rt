//! The next state, once all operands of a step are known.
ghost use Rattle.std.specs.Prelude.{◌≡◌, ◌<◌};
ghost use Rattle.segments.specs.Memory.{IsMemory, total_limit};
ghost use Rattle.segments.specs.Values.{number};
ghost use Rattle.run_steps.specs.Causes.{demand};
ghost use Rattle.run_steps.specs.Next.{place_sum, next_pc, next_ap, next_fp, has_return_pc, has_caller_fp, meets_assertion};
ghost use Rattle.run_steps.specs.Next.{next_by, next_in};

use crate::cause::StepCause;
use crate::operands::{
    by_arithmetic, dst_place, instruction, is_zero, known, op0_place, op1_place, place_after,
    pointed, res_of,
};
use casm_word::Flags;
use goldilocks::Felt;
use segments::{Place, RelState, Segments, Value, add_value};

/// The next state, where the memory holds all cells that the step reads. It is refused with the first cause in the order
/// of [`crate::step`].
#[tactic(auto, unfolding(crate::specs::Next::next_in))]
pub fn next_state(memory: &Segments, state: RelState) -> Result<RelState, StepCause>
    ensures kept { IsMemory memory.now }
    ensures next { result ≡ next_in memory.now state }
{
    let word = instruction(memory, state)?;
    let dst_at = dst_place(word, state)?;
    let dst = known(dst_at, memory.get(dst_at))?;
    let op0_at = op0_place(word, state)?;
    let op0 = known(op0_at, memory.get(op0_at))?;
    let op1_at = op1_place(word, state, op0_at, Some(op0))?;
    let op1 = known(op1_at, memory.get(op1_at))?;
    next_by(word.flags, state, dst, op0, op1)
}

/// The next state with these operands.
///
/// The first of these that comes up is answered: [`StepCause::Arith`] of what is computed, [`StepCause::CallPc`],
/// [`StepCause::CallFp`], [`StepCause::NotEqual`], and then what is against the next pc, ap and fp.
#[tactic(auto, unfolding(crate::specs::Next::next_by))]
fn next_by(
    flags: Flags,
    state: RelState,
    dst: Value,
    op0: Value,
    op1: Value,
) -> Result<RelState, StepCause>
    requires { state.pc.off < total_limit }
    ensures { result ≡ next_by flags state dst op0 op1 }
{
    let res = res_of(flags, op0, op1)?;
    demand(StepCause::CallPc, has_return_pc(flags, state, op0))?;
    demand(StepCause::CallFp, has_caller_fp(flags, state, dst))?;
    demand(StepCause::NotEqual, meets_assertion(flags, dst, res))?;
    let pc = next_pc(flags, state, dst, op1, res)?;
    let ap = next_ap(flags, state, res)?;
    let fp = next_fp(flags, state, dst)?;
    Ok(RelState { pc, ap, fp })
}

/// Refuses the step for this cause, unless the test holds.
fn demand(cause: StepCause, holds: bool) -> Result<(), StepCause>
    ensures { result ≡ demand cause holds }
{
    if holds { Ok(()) } else { Err(cause) }
}

/// Whether op0 is the pointer to return to, where this is a call.
#[tactic(auto, unfolding(crate::specs::Next::has_return_pc, segments::specs::Values::same_value))]
fn has_return_pc(flags: Flags, state: RelState, op0: Value) -> bool
    requires { state.pc.off < total_limit }
    ensures { result ≡ has_return_pc flags state op0 }
{
    !flags.op_call || op0 == Value::Ptr(place_after(flags, state))
}

/// Whether dst is the caller's fp, where this is a call.
#[tactic(auto, unfolding(crate::specs::Next::has_caller_fp, segments::specs::Values::same_value))]
fn has_caller_fp(flags: Flags, state: RelState, dst: Value) -> bool
    ensures { result ≡ has_caller_fp flags state dst }
{
    !flags.op_call || dst == Value::Ptr(state.fp)
}

/// Whether dst is what is computed, where this is an assertion.
#[tactic(auto, unfolding(crate::specs::Next::meets_assertion, segments::specs::Values::same_value))]
fn meets_assertion(flags: Flags, dst: Value, res: Value) -> bool
    ensures { result ≡ meets_assertion flags dst res }
{
    !flags.op_assert || dst == res
}

/// The next pc.
///
/// [`StepCause::PcNotPointer`] for an absolute jump to a number, [`StepCause::Arith`] for a relative jump to no place.
#[tactic(auto, unfolding(crate::specs::Next::next_pc))]
fn next_pc(
    flags: Flags,
    state: RelState,
    dst: Value,
    op1: Value,
    res: Value,
) -> Result<Place, StepCause>
    requires { state.pc.off < total_limit }
    ensures { result ≡ next_pc flags state dst op1 res }
{
    if flags.pc_abs {
        pointed(StepCause::PcNotPointer, res)
    } else if flags.pc_rel {
        place_sum(state.pc, res)
    } else if flags.pc_jnz && !is_zero(dst) {
        place_sum(state.pc, op1)
    } else {
        Ok(place_after(flags, state))
    }
}

/// The next ap; [`StepCause::Arith`] where there is no such place.
#[tactic(auto, unfolding(crate::specs::Next::next_ap))]
fn next_ap(flags: Flags, state: RelState, res: Value) -> Result<Place, StepCause>
    ensures { result ≡ next_ap flags state res }
{
    if flags.op_call {
        place_sum(state.ap, small_number(2))
    } else if flags.ap_add {
        place_sum(state.ap, res)
    } else if flags.ap_add1 {
        place_sum(state.ap, small_number(1))
    } else {
        Ok(state.ap)
    }
}

/// The next fp.
///
/// [`StepCause::Arith`] where a call has no place for it, [`StepCause::FpNotPointer`] for a return to a number.
#[tactic(auto, unfolding(crate::specs::Next::next_fp))]
fn next_fp(flags: Flags, state: RelState, dst: Value) -> Result<Place, StepCause>
    ensures { result ≡ next_fp flags state dst }
{
    if flags.op_call {
        place_sum(state.ap, small_number(2))
    } else if flags.op_ret {
        pointed(StepCause::FpNotPointer, dst)
    } else {
        Ok(state.fp)
    }
}

/// The place that is so many cells after a place; [`StepCause::Arith`] where there is none.
#[tactic(auto, unfolding(crate::specs::Next::place_sum))]
fn place_sum(place: Place, cells: Value) -> Result<Place, StepCause>
    ensures { result ≡ place_sum place cells }
{
    let sum = by_arithmetic(add_value(Value::Ptr(place), cells))?;
    // A pointer and a number have a pointer as their sum, so this cause never comes.
    pointed(StepCause::NotPointer, sum)
}

/// A number as a value.
fn small_number(n: u8) -> Value
    ensures { result ≡ number n }
{
    Value::Num(Felt {
        number: u64::from(n),
    })
}
