//! The causes against a step as they are printed.
use crate::cause::{Spot, StepCause};
use std::error::Error;
use std::fmt;

impl fmt::Display for Spot {
    ghost use Rattle.std.specs.Prelude.{Some};
    ghost use Rattle.run_steps.specs.Shown.{spot_text};

    ghost output = { λ spot. Some (spot_text spot) };

    fn fmt<W: fmt::Write>(&self, f: &mut fmt::Formatter<W>) -> fmt::Result {
        match self {
            Spot::Dst => write!(f, "Dst"),
            Spot::Op0 => write!(f, "Op0"),
            Spot::Op1 => write!(f, "Op1"),
        }
    }
}

impl fmt::Display for StepCause {
    ghost use Rattle.std.specs.Prelude.{Some};
    ghost use Rattle.run_steps.specs.Shown.{step_cause_text};

    ghost output = { λ cause. Some (step_cause_text cause) };

    fn fmt<W: fmt::Write>(&self, f: &mut fmt::Formatter<W>) -> fmt::Result {
        match self {
            StepCause::NoInstruction => write!(f, "NoInstruction"),
            StepCause::BadWord(fault) => write!(f, "BadWord {fault}"),
            StepCause::AddressRange(spot) => write!(f, "AddressRange {spot}"),
            StepCause::Unknown(place) => write!(f, "Unknown {place}"),
            StepCause::NotPointer => write!(f, "NotPointer"),
            StepCause::Arith(fault) => write!(f, "Arith {fault}"),
            StepCause::Cell { place, cause } => write!(f, "cell {place}: {cause}"),
            StepCause::CallPc => write!(f, "CallPc"),
            StepCause::CallFp => write!(f, "CallFp"),
            StepCause::NotEqual => write!(f, "NotEqual"),
            StepCause::PcNotPointer => write!(f, "PcNotPointer"),
            StepCause::FpNotPointer => write!(f, "FpNotPointer"),
        }
    }
}

impl Error for StepCause {}
