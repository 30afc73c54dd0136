//! The two traits, and why a call on one of them can fail.

ghost use Rattle.std.specs.Prelude.{◌≡◌, IsSome, Some};
ghost use Rattle.file_port.specs.Seen.{Seen, BeginsRead, ReadsNext, Replaces, SinkSeen, Puts};
ghost use Rattle.file_port.specs.declared.ports.PortError.TheVariants.{Memory};
ghost use Rattle.file_port.specs.Ports.{error_text};

use std::alloc::{AllocError, Global};
use std::error::Error;
use std::fmt;

/// Why a call on a store or a sink gave no answer.
#[derive(Clone, Copy, Debug, PartialEq, Eq)]
pub enum PortError {
    /// The files or the output failed. The store or the sink has counted it.
    Failed,
    /// There was not enough memory.
    Memory,
}

impl fmt::Display for PortError {
    ghost output = { λ error. Some (error_text error) };

    fn fmt<W: fmt::Write>(&self, f: &mut fmt::Formatter<W>) -> fmt::Result {
        match self {
            PortError::Failed => f.write_str("the files or the output failed"),
            PortError::Memory => f.write_str("out of memory"),
        }
    }
}

impl Error for PortError {}

impl From<AllocError> for PortError {
    ghost from_gives = { λ _ error. error ≡ Memory };

    fn from(_: AllocError) -> PortError {
        PortError::Memory
    }
}

/// Named files, one of which is read at a time from its first byte on, and which are replaced as a whole.
///
/// A store may tell what it holds. No call changes whether it does.
pub trait Store {
    // The files and what is left of the read that was begun, where the store tells them, and all counts.
    ghost seen: { Self → Seen };

    /// Begins to read the file `name`, in place of the read that was begun before.
    ///
    /// `Ok(true)` says that the file is there, and `Ok(false)` that it is missing, which is no
    /// fault. `Failed` says that the files could not answer, and `Memory` that memory ran out.
    /// After both nothing is left to read.
    fn begin_read(&mut self, alloc: Global, name: &str) -> Result<bool, PortError>
        ensures begins { BeginsRead name.now (seen self.old) (seen self.new) result };

    /// Reads the next bytes into the front of `buf`, and answers how many.
    ///
    /// Where `buf` is not empty, it answers 0 exactly at the end of the file or where no read was
    /// begun. After `Failed` and `Memory` nothing is left to read.
    fn read(&mut self, alloc: Global, buf: &mut [u8]) -> Result<usize, PortError>
        ensures reads { ReadsNext buf.new (seen self.old) (seen self.new) result };

    /// Makes the file `name` hold `bytes`, whatever it held before. The read that was begun ends.
    ///
    /// After `Failed` the file may hold anything or be missing, and all others are as before. After
    /// `Memory` all files are as before.
    fn replace(&mut self, alloc: Global, name: &str, bytes: &[u8]) -> Result<(), PortError>
        ensures replaces { Replaces name.now bytes.now (seen self.old) (seen self.new) result };

    // A store that tells its files tells what is left to read, too.
    ghost tells_both: { (store : Self) → IsSome (seen store).files → IsSome (seen store).reading };
}

/// A place to write to, one piece after the other.
///
/// A sink may tell what was written. No call changes whether it does.
pub trait Sink {
    // What was written so far, where the sink tells it, and how many calls failed.
    ghost seen: { Self → SinkSeen };

    /// Writes `bytes` after all that was written before.
    ///
    /// After `Failed` a prefix of them was written, and after `Memory` none.
    fn put(&mut self, alloc: Global, bytes: &[u8]) -> Result<(), PortError>
        ensures puts { Puts bytes.now (seen self.old) (seen self.new) result };
}
