//! Why there are no columns.

use goldilocks::Felt;
use std::alloc::AllocError;
use std::error::Error;
use std::fmt;

/// Why there are no columns.
#[derive(Clone, Copy, Debug, PartialEq, Eq)]
pub enum SortFault {
    /// Between the least and the greatest accessed address more than 2^21 are never accessed.
    TooWide {
        /// The least accessed address.
        least: Felt,
        /// The greatest accessed address.
        greatest: Felt,
    },
    /// Want of memory.
    Memory,
}

/// The name of the fault, with the addresses that it is about.
impl fmt::Display for SortFault {
    ghost use Rattle.std.specs.Prelude.{Some};
    ghost use Rattle.memory_columns.specs.Shown.{fault_text};

    ghost output = { λ fault. Some (fault_text fault) };

    fn fmt<W: fmt::Write>(&self, f: &mut fmt::Formatter<W>) -> fmt::Result {
        match self {
            SortFault::TooWide { least, greatest } => {
                let (least, greatest) = (least.get(), greatest.get());
                write!(f, "TooWide {least} {greatest}")
            }
            SortFault::Memory => write!(f, "Memory"),
        }
    }
}

impl Error for SortFault {}

impl From<AllocError> for SortFault {
    ghost use Rattle.std.specs.Prelude.{◌≡◌};
    ghost use Rattle.memory_columns.specs.declared.fault.SortFault.{SortFault};

    ghost from_gives = { λ _ fault. fault ≡ SortFault.Memory };

    fn from(_: AllocError) -> SortFault {
        SortFault::Memory
    }
}
