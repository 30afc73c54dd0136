//! How the causes of a step are written in printed lines.
#![tactic(auto, unfolding(crate::specs::Transition::outcome_of))]

ghost use Rattle.std.specs.Prelude.{Some};
ghost use Rattle.casm_word.specs.Transition.{outcome_of};
ghost use Rattle.casm_word.specs.Text.{shape_text, word_fault_text, step_text};

use crate::{Shape, StepResult, WordFault};
use std::error::Error;
use std::fmt;

/// The name of the shape.
impl fmt::Display for Shape {
    ghost output = { λ shape. Some (shape_text shape) };

    fn fmt<W: fmt::Write>(&self, f: &mut fmt::Formatter<W>) -> fmt::Result {
        match self {
            Shape::Op1 => write!(f, "Op1"),
            Shape::Res => write!(f, "Res"),
            Shape::Pc => write!(f, "Pc"),
            Shape::Opcode => write!(f, "Opcode"),
            Shape::ApBoth => write!(f, "ApBoth"),
            Shape::JnzOpcode => write!(f, "JnzOpcode"),
            Shape::JnzAp => write!(f, "JnzAp"),
            Shape::CallAp => write!(f, "CallAp"),
        }
    }
}

/// Why the number is no instruction.
impl fmt::Display for WordFault {
    ghost output = { λ fault. Some (word_fault_text fault) };

    fn fmt<W: fmt::Write>(&self, f: &mut fmt::Formatter<W>) -> fmt::Result {
        match self {
            WordFault::HighBit => write!(f, "HighBit"),
            WordFault::Undefined(shape) => write!(f, "Undefined {shape}"),
        }
    }
}

impl Error for WordFault {}

/// Why the step isn't the transition to the state that was to follow: another next state is a mismatch.
impl fmt::Display for StepResult {
    ghost output = { λ result. Some (step_text (outcome_of result)) };

    fn fmt<W: fmt::Write>(&self, f: &mut fmt::Formatter<W>) -> fmt::Result {
        match self {
            StepResult::Next(_) => write!(f, "Mismatch"),
            StepResult::NoCell(address) => {
                let address = address.get();
                write!(f, "NoCell {address}")
            }
            StepResult::BadWord(fault) => write!(f, "BadWord {fault}"),
            StepResult::CallPc => write!(f, "CallPc"),
            StepResult::CallFp => write!(f, "CallFp"),
            StepResult::NotEqual => write!(f, "NotEqual"),
        }
    }
}
