//! The instruction of a step, where its operands lie, and what it computes of them.
ghost use Rattle.std.specs.Prelude.{◌≡◌, ◌<◌, Option, IfOk};
ghost use Rattle.casm_word.specs.Word.{decoding};
ghost use Rattle.segments.specs.Memory.{IsMemory, total_limit, cell};
ghost use Rattle.segments.specs.Values.{value_sum, value_product};
ghost use Rattle.run_steps.specs.Causes.{in_range, known, pointed, by_arithmetic};
ghost use Rattle.run_steps.specs.Operands.{word_or_fault, instruction_in, place_after, dst_place, op0_place, op0_pointed};
ghost use Rattle.run_steps.specs.Operands.{op1_origin, op1_place, res_of, is_zero};

use crate::cause::{Spot, StepCause};
use casm_word::{Flags, Word, WordFault, decode};
use segments::{ArithFault, Place, RelState, Segments, Value, add_value, mul_value, shift};

/// Where the operands of a step lie.
#[derive(Clone, Copy)]
pub struct Places {
    /// The place of dst.
    pub dst: Place,
    /// The place of op0.
    pub op0: Place,
    /// The place of op1.
    pub op1: Place,
}

/// The operands of a step, known or found out, and where they lie.
#[derive(Clone, Copy)]
pub struct Found {
    /// Their places.
    pub at: Places,
    /// The value of dst.
    pub dst: Value,
    /// The value of op0.
    pub op0: Value,
    /// The value of op1.
    pub op1: Value,
}

/// The operand's place, which has to be there.
#[tactic(auto, unfolding(crate::specs::Causes::in_range))]
fn in_range(spot: Spot, place: Option<Place>) -> Result<Place, StepCause>
    ensures { result ≡ in_range spot place }
{
    place.ok_or(StepCause::AddressRange(spot))
}

/// The value at a place, which has to be known.
#[tactic(auto, unfolding(crate::specs::Causes::known))]
pub fn known(place: Place, value: Option<Value>) -> Result<Value, StepCause>
    ensures { result ≡ known place value }
{
    value.ok_or(StepCause::Unknown(place))
}

/// The place that a value points to, or the cause where it is a number.
#[tactic(auto, unfolding(crate::specs::Causes::pointed))]
pub fn pointed(cause: StepCause, value: Value) -> Result<Place, StepCause>
    ensures { result ≡ pointed cause value }
{
    match value {
        Value::Ptr(place) => Ok(place),
        Value::Num(_) => Err(cause),
    }
}

/// The answer of arithmetic, with its fault as a cause.
#[tactic(auto, unfolding(crate::specs::Causes::by_arithmetic))]
pub fn by_arithmetic(answer: Result<Value, ArithFault>) -> Result<Value, StepCause>
    ensures { result ≡ by_arithmetic answer }
{
    match answer {
        Ok(value) => Ok(value),
        Err(fault) => Err(StepCause::Arith(fault)),
    }
}

/// The word that a number says, with its fault as a cause.
#[tactic(auto, unfolding(crate::specs::Operands::word_or_fault))]
fn word_or_fault(word: Result<Word, WordFault>) -> Result<Word, StepCause>
    ensures { result ≡ word_or_fault word }
{
    match word {
        Ok(word) => Ok(word),
        Err(fault) => Err(StepCause::BadWord(fault)),
    }
}

/// The instruction at pc.
///
/// [`StepCause::NoInstruction`] where its cell isn't there or holds a pointer, [`StepCause::BadWord`] where its number is
/// no word.
#[tactic(auto, unfolding(crate::specs::Operands::instruction_in))]
pub fn instruction(memory: &Segments, state: RelState) -> Result<Word, StepCause>
    ensures kept { IsMemory memory.now }
    ensures word { result ≡ instruction_in (cell memory.now state.pc) }
    ensures low { IfOk result (λ _. state.pc.off < total_limit) }
{
    match memory.get(state.pc) {
        Some(Value::Num(number)) => word_or_fault(decode(number.get())),
        Some(Value::Ptr(_)) => Err(StepCause::NoInstruction),
        None => Err(StepCause::NoInstruction),
    }
}

/// The place of the instruction after this one.
#[tactic(auto, unfolding(crate::specs::Operands::place_after))]
pub fn place_after(flags: Flags, state: RelState) -> Place
    requires { state.pc.off < total_limit }
    ensures { result ≡ place_after flags state }
{
    let size = if flags.op1_imm { 2 } else { 1 };
    Place {
        seg: state.pc.seg,
        off: state.pc.off + size,
    }
}

/// Where dst lies; [`StepCause::AddressRange`] where there is no such place.
#[tactic(auto, unfolding(crate::specs::Operands::dst_place))]
pub fn dst_place(word: Word, state: RelState) -> Result<Place, StepCause>
    ensures { result ≡ dst_place word state }
{
    let base = if word.flags.dst_fp {
        state.fp
    } else {
        state.ap
    };
    in_range(Spot::Dst, shift(base, word.off_dst))
}

/// Where op0 lies; [`StepCause::AddressRange`] where there is no such place.
#[tactic(auto, unfolding(crate::specs::Operands::op0_place))]
pub fn op0_place(word: Word, state: RelState) -> Result<Place, StepCause>
    ensures { result ≡ op0_place word state }
{
    let base = if word.flags.op0_fp {
        state.fp
    } else {
        state.ap
    };
    in_range(Spot::Op0, shift(base, word.off_op0))
}

/// The place that op0 points to.
///
/// [`StepCause::Unknown`] where op0 isn't known, [`StepCause::NotPointer`] where it is a number.
#[tactic(auto, unfolding(crate::specs::Operands::op0_pointed))]
fn op0_pointed(op0_at: Place, op0: Option<Value>) -> Result<Place, StepCause>
    ensures { result ≡ op0_pointed op0_at op0 }
{
    let value = known(op0_at, op0)?;
    pointed(StepCause::NotPointer, value)
}

/// What the place of op1 is counted from: pc, fp, ap, or the place that op0 points to.
#[tactic(auto, unfolding(crate::specs::Operands::op1_origin))]
fn op1_origin(
    flags: Flags,
    state: RelState,
    op0_at: Place,
    op0: Option<Value>,
) -> Result<Place, StepCause>
    ensures { result ≡ op1_origin flags state op0_at op0 }
{
    if flags.op1_imm {
        Ok(state.pc)
    } else if flags.op1_fp {
        Ok(state.fp)
    } else if flags.op1_ap {
        Ok(state.ap)
    } else {
        op0_pointed(op0_at, op0)
    }
}

/// Where op1 lies.
///
/// [`StepCause::Unknown`] and [`StepCause::NotPointer`] where it lies by an op0 that isn't known or is a number, and
/// [`StepCause::AddressRange`] where there is no such place.
#[tactic(auto, unfolding(crate::specs::Operands::op1_place))]
pub fn op1_place(
    word: Word,
    state: RelState,
    op0_at: Place,
    op0: Option<Value>,
) -> Result<Place, StepCause>
    ensures { result ≡ op1_place word state op0_at op0 }
{
    let origin = op1_origin(word.flags, state, op0_at, op0)?;
    in_range(Spot::Op1, shift(origin, word.off_op1))
}

/// What the instruction computes of its operands: their sum, their product, or op1.
///
/// [`StepCause::Arith`] where there is no such sum or product.
#[tactic(auto, unfolding(crate::specs::Operands::res_of))]
pub fn res_of(flags: Flags, op0: Value, op1: Value) -> Result<Value, StepCause>
    ensures { result ≡ res_of flags op0 op1 }
{
    if flags.res_add {
        by_arithmetic(add_value(op0, op1))
    } else if flags.res_mul {
        by_arithmetic(mul_value(op0, op1))
    } else {
        Ok(op1)
    }
}

/// Whether a value is the number 0; no pointer is.
#[tactic(auto, unfolding(crate::specs::Operands::is_zero))]
pub fn is_zero(value: Value) -> bool
    ensures { result ≡ is_zero value }
{
    match value {
        Value::Num(number) => number.get() == 0,
        Value::Ptr(_) => false,
    }
}
