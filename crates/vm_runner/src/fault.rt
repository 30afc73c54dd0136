//! Why a run may be refused.

use builtin_segments::CellCause;
use run_steps::StepCause;
use std::alloc::AllocError;
use std::error::Error;
use std::fmt;

/// Why a run is refused. The first cause that comes up is told.
#[derive(Clone, Copy, Debug, PartialEq, Eq)]
pub enum RunFault {
    /// The program names a builtin, and no run has builtins yet.
    Builtins,
    /// A hint may not be placed.
    Hint {
        /// How many hints stand before it.
        index: u32,
        /// Why it may not be placed.
        cause: CellCause,
    },
    /// The program starts where it ends.
    NoSteps,
    /// A step can't be made.
    Step {
        /// How many steps were made before it.
        step: u32,
        /// Why it can't be made.
        cause: StepCause,
    },
    /// [`crate::STEP_LIMIT`] steps were made, and the program isn't at its end.
    StepLimit,
    /// There was no memory.
    Memory,
}

impl From<AllocError> for RunFault {
    ghost use Rattle.std.specs.Prelude.{◌≡◌};
    ghost use Rattle.vm_runner.specs.declared.fault.RunFault.{RunFault};

    ghost from_gives = { λ _ fault. fault ≡ RunFault.Memory };

    fn from(_: AllocError) -> RunFault {
        RunFault::Memory
    }
}

/// What is refused, and of a hint or a step its index and the cause.
impl fmt::Display for RunFault {
    ghost use Rattle.std.specs.Prelude.{Some};
    ghost use Rattle.vm_runner.specs.Shown.{fault_text};

    ghost output = { λ fault. Some (fault_text fault) };

    fn fmt<W: fmt::Write>(&self, f: &mut fmt::Formatter<W>) -> fmt::Result {
        match self {
            RunFault::Builtins => f.write_str("builtins"),
            RunFault::Hint { index, cause } => write!(f, "hint {index}: {cause}"),
            RunFault::NoSteps => f.write_str("no steps"),
            RunFault::Step { step, cause } => write!(f, "step {step}: {cause}"),
            RunFault::StepLimit => f.write_str("step limit"),
            RunFault::Memory => f.write_str("Memory"),
        }
    }
}

impl Error for RunFault {}
