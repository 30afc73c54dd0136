//! Why a step may be refused.

use builtin_segments::CellCause;
use casm_word::WordFault;
use segments::{ArithFault, Place};

/// An operand of a step.
#[derive(Clone, Copy, Debug, PartialEq, Eq)]
pub enum Spot {
    /// The operand that lies by ap or fp, and that an assertion compares with what is computed.
    Dst,
    /// The first operand of what is computed; it lies by ap or fp.
    Op0,
    /// The second operand of what is computed; it lies by pc, by ap, by fp, or by the place to which op0 points.
    Op1,
}

/// Why a step is refused. The first cause that comes up is told.
#[derive(Clone, Copy, Debug, PartialEq, Eq)]
pub enum StepCause {
    /// The cell at pc isn't there, or holds a pointer.
    NoInstruction,
    /// The number at pc is no word.
    BadWord(WordFault),
    /// The offset of the operand's place would leave 0 to 2^32 - 1.
    AddressRange(Spot),
    /// The cell at this place is needed, is not known, and can't be found out.
    Unknown(Place),
    /// The place of op1 is counted from op0, which is a number.
    NotPointer,
    /// Arithmetic on two values has no answer.
    Arith(ArithFault),
    /// A cell that was found out may not be placed.
    Cell {
        /// The cell's place.
        place: Place,
        /// Why it may not be placed there.
        cause: CellCause,
    },
    /// A call whose op0 isn't the pointer to the instruction after it.
    CallPc,
    /// A call whose dst isn't the pointer fp.
    CallFp,
    /// An assertion whose dst isn't what is computed.
    NotEqual,
    /// An absolute jump to a number.
    PcNotPointer,
    /// A return to an fp that is a number.
    FpNotPointer,
}

/// Why [`crate::step`] made no step.
#[derive(Clone, Copy, Debug, PartialEq, Eq)]
pub enum StepFault {
    /// The step is refused.
    Refused(StepCause),
    /// There was no memory.
    Memory,
}

impl From<StepCause> for StepFault {
    ghost use Rattle.std.specs.Prelude.{◌≡◌};
    ghost use Rattle.run_steps.specs.declared.cause.StepFault.{StepFault};

    ghost from_gives = { λ cause fault. fault ≡ StepFault.Refused cause };

    fn from(cause: StepCause) -> StepFault {
        StepFault::Refused(cause)
    }
}
