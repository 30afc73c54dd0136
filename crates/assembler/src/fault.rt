//! Why items can't be assembled.

use casm_text::Name;
use std::alloc::AllocError;
use std::error::Error;
use std::fmt;

/// Why items can't be assembled. The first in this order is reported.
#[derive(Debug, PartialEq, Eq, Drop)]
pub enum AsmFault {
    /// A label or a directive was given before.
    Duplicate {
        /// The line of the first such item.
        line: u32,
    },
    /// There are more than 2^18 words.
    TooLong,
    /// A label is named that isn't there.
    Unknown {
        /// The label.
        name: Name,
        /// The line of the first item that names such a label.
        line: u32,
    },
    /// There is no directive `%end`.
    NoEnd,
    /// The start isn't below the number of words.
    StartOutside,
    /// The end isn't below the number of words.
    EndOutside,
    /// There is no memory.
    Memory,
}

impl From<AllocError> for AsmFault {
    ghost use Rattle.std.specs.Prelude.{◌≡◌};
    ghost use Rattle.assembler.specs.declared.fault.AsmFault.TheVariants.{Memory};

    ghost from_gives = { λ _ fault. fault ≡ Memory };

    fn from(_error: AllocError) -> AsmFault {
        AsmFault::Memory
    }
}

/// The fault as it is printed.
impl fmt::Display for AsmFault {
    ghost use Rattle.std.specs.Prelude.{Some};
    ghost use Rattle.assembler.specs.FaultText.{fault_text};

    ghost output = { λ fault. Some (fault_text fault) };

    fn fmt<W: fmt::Write>(&self, f: &mut fmt::Formatter<W>) -> fmt::Result {
        match self {
            AsmFault::Duplicate { line } => write!(f, "Duplicate {line}"),
            AsmFault::TooLong => write!(f, "TooLong"),
            AsmFault::Unknown { name, line } => write!(f, "Unknown {name} {line}"),
            AsmFault::NoEnd => write!(f, "NoEnd"),
            AsmFault::StartOutside => write!(f, "StartOutside"),
            AsmFault::EndOutside => write!(f, "EndOutside"),
            AsmFault::Memory => write!(f, "Memory"),
        }
    }
}

impl Error for AsmFault {}
