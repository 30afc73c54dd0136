//! The cells that a step finds out, and their values.
ghost use Rattle.std.specs.Prelude.{◌≡◌, ◌<◌};
ghost use Rattle.segments.specs.Memory.{total_limit};
ghost use Rattle.run_steps.specs.Deduction.{known_difference, known_quotient};
ghost use Rattle.run_steps.specs.Cases.{called_op0, sought_op0, sought_op1, found_dst};

use crate::cause::StepCause;
use crate::operands::{by_arithmetic, place_after};
use casm_word::Flags;
use segments::{Place, RelState, Value, div_value, sub_value};

/// The difference of two values, where both are known; [`StepCause::Arith`] where there is no such difference.
#[tactic(auto, unfolding(crate::specs::Deduction::known_difference))]
fn known_difference(a: Option<Value>, b: Option<Value>) -> Result<Option<Value>, StepCause>
    ensures { result ≡ known_difference a b }
{
    match (a, b) {
        (Some(a), Some(b)) => {
            let difference = by_arithmetic(sub_value(a, b))?;
            Ok(Some(difference))
        }
        _ => Ok(None),
    }
}

/// The quotient of two values, where both are known numbers and the second isn't 0.
#[tactic(auto, unfolding(crate::specs::Deduction::known_quotient))]
fn known_quotient(a: Option<Value>, b: Option<Value>) -> Option<Value>
    ensures { result ≡ known_quotient a b }
{
    match (a, b) {
        (Some(a), Some(b)) => div_value(a, b).ok(),
        _ => None,
    }
}

/// What is known of op0: in a call it is the pointer to the instruction after it, where its cell holds nothing.
#[tactic(auto, unfolding(crate::specs::Cases::called_op0))]
pub fn called_op0(flags: Flags, state: RelState, op0: Option<Value>) -> Option<Value>
    requires { state.pc.off < total_limit }
    ensures { result ≡ called_op0 flags state op0 }
{
    match op0 {
        Some(value) => Some(value),
        None => {
            if flags.op_call {
                Some(Value::Ptr(place_after(flags, state)))
            } else {
                None
            }
        }
    }
}

/// What is known of op0 once it is sought: an assertion gives it from dst and op1.
///
/// [`StepCause::Arith`] where the difference that it would be isn't there.
#[tactic(auto, unfolding(crate::specs::Cases::sought_op0))]
pub fn sought_op0(
    flags: Flags,
    dst: Option<Value>,
    op0: Option<Value>,
    op1: Option<Value>,
) -> Result<Option<Value>, StepCause>
    ensures { result ≡ sought_op0 flags dst op0 op1 }
{
    if let Some(value) = op0 {
        return Ok(Some(value));
    }
    if !flags.op_assert {
        Ok(None)
    } else if flags.res_add {
        known_difference(dst, op1)
    } else if flags.res_mul {
        Ok(known_quotient(dst, op1))
    } else {
        Ok(None)
    }
}

/// What is known of op1 once it is sought: an assertion gives it from dst and op0, or from dst alone.
///
/// [`StepCause::Arith`] where the difference that it would be isn't there.
#[tactic(auto, unfolding(crate::specs::Cases::sought_op1))]
pub fn sought_op1(
    flags: Flags,
    dst: Option<Value>,
    op0: Option<Value>,
    op1: Option<Value>,
) -> Result<Option<Value>, StepCause>
    ensures { result ≡ sought_op1 flags dst op0 op1 }
{
    if let Some(value) = op1 {
        return Ok(Some(value));
    }
    if !flags.op_assert {
        Ok(None)
    } else if flags.res_add {
        known_difference(dst, op0)
    } else if flags.res_mul {
        Ok(known_quotient(dst, op0))
    } else {
        Ok(dst)
    }
}

/// What dst is: where its cell holds nothing, it is `res` in an assertion and the pointer fp in a call.
///
/// [`StepCause::Unknown`] where nothing gives it.
#[tactic(auto, unfolding(crate::specs::Cases::found_dst))]
pub fn found_dst(
    flags: Flags,
    state: RelState,
    dst_at: Place,
    res: Value,
    dst: Option<Value>,
) -> Result<Value, StepCause>
    ensures { result ≡ found_dst flags state dst_at res dst }
{
    if let Some(value) = dst {
        return Ok(value);
    }
    if flags.op_assert {
        Ok(res)
    } else if flags.op_call {
        Ok(Value::Ptr(state.fp))
    } else {
        Err(StepCause::Unknown(dst_at))
    }
}
