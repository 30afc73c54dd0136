//! Why bytes spell no trace and no memory.

ghost use Rattle.std.specs.Prelude.{◌≡◌, Some};
ghost use Rattle.trace_files.specs.declared.fault.FileFault.TheVariants.{Memory};
ghost use Rattle.trace_files.specs.Faults.{file_fault_text};

use std::alloc::{AllocError, AllocFailed};
use std::error::Error;
use std::fmt;

/// The first fault of a file, by the order of the reader that tells it. Places count bytes from 0.
#[derive(Clone, Copy, Debug, PartialEq, Eq)]
pub enum FileFault {
    /// There are more bytes than such a file may have.
    TooMany,
    /// The bytes are no whole number of states or entries, or of a trace there are less than two states.
    Length,
    /// The number whose eight bytes begin at this place is p or more.
    NotField(u64),
    /// The address at this place isn't above that of the entry before it.
    Order(u64),
    /// There was not enough memory. The bytes may spell a value all the same.
    Memory,
}

/// The name of the fault, and its place where it has one.
impl fmt::Display for FileFault {
    ghost output = { λ fault. Some (file_fault_text fault) };

    fn fmt<W: fmt::Write>(&self, f: &mut fmt::Formatter<W>) -> fmt::Result {
        match self {
            FileFault::TooMany => write!(f, "TooMany"),
            FileFault::Length => write!(f, "Length"),
            FileFault::NotField(place) => write!(f, "NotField {place}"),
            FileFault::Order(place) => write!(f, "Order {place}"),
            FileFault::Memory => write!(f, "Memory"),
        }
    }
}

impl Error for FileFault {}

impl From<AllocError> for FileFault {
    ghost from_gives = { λ _ fault. fault ≡ Memory };

    fn from(_: AllocError) -> FileFault {
        FileFault::Memory
    }
}

impl<T: Drop> From<AllocFailed<T>> for FileFault {
    ghost from_gives = { λ _ fault. fault ≡ Memory };

    fn from(_: AllocFailed<T>) -> FileFault {
        FileFault::Memory
    }
}
