//! Formats of files, and how an input of a format is read.

ghost use Rattle.std.specs.Prelude.{◌≡◌, ◌+◌, ◌<◌, ◌≤◌, ◌^◌, ℕ, Bool, false, List, Result, [], ◌∷◌, length, IfSome, IfOk, IfErr};
ghost use Rattle.command_frame.specs.Formats.{Format, input_at, read_as};
ghost use Rattle.command_frame.specs.Parts.{Gives, ReadsInputs, ReadsAs, IsToldAs, IsTooMuch, refusal_of};

use crate::ending::Refusal;
use crate::pieces::{Input, read_pieces};
use file_port::Store;
use std::alloc::{AllocError, Global};
use std::fmt;

/// Why bytes are read as no value.
#[derive(Drop)]
pub enum Unread {
    /// They spell more than a file of the format may have.
    TooMuch,
    /// They have a fault of the format.
    Faulty {
        /// The text of the fault.
        text: String,
    },
    /// There was not enough memory.
    OutOfMemory,
}

impl Unread {
    /// A fault of a format, by its text.
    pub fn of_fault<F: fmt::Display>(alloc: Global, fault: &F) -> Unread
        ensures { IfSome (F.output fault.now) (λ text. IsToldAs text result) }
    {
        match format!(in alloc; "{fault}") {
            Ok(text) => Unread::Faulty { text },
            Err(_) => Unread::OutOfMemory,
        }
    }
}

impl From<AllocError> for Unread {
    ghost use Rattle.command_frame.specs.declared.formats.Unread.TheVariants.{OutOfMemory};

    ghost from_gives = { λ _ e. e ≡ OutOfMemory };

    fn from(_: AllocError) -> Self {
        Unread::OutOfMemory
    }
}

/// A format of files.
pub trait FileFormat {
    /// What a file is read as.
    type Value: Drop;

    // What a file means in definitions, and the format in their words.
    ghost Meaning: { Type 0 };

    ghost format: { Format Self.Meaning };

    ghost meaning: { Self.Value → Self.Meaning };
    // What holds of each value that is read.
    ghost keeps: { Self.Value → Type 0 };

    /// The most bytes that a file may have.
    const LIMIT: usize;

    ghost LIMIT: { ℕ };
    /// Whether a file may have too many entries within this limit.
    const MAY_HAVE_TOO_MANY: bool;

    ghost MAY_HAVE_TOO_MANY: { Bool };

    /// What bytes are read as that are within the limit.
    fn read(alloc: Global, bytes: &[u8]) -> Result<Self::Value, Unread>
        requires { length bytes.now ≤ Self.format.limit }
        ensures reads { ReadsAs Self.meaning (Self.format.reading bytes.now) result }
        ensures keeps { IfOk result Self.keeps }
        ensures fits { Self.format.may_have_too_many ≡ false → IfErr result (λ why. IsTooMuch why → ⊥) };

    ghost limit_is: { LIMIT ≡ Self.format.limit };

    ghost may_is: { MAY_HAVE_TOO_MANY ≡ Self.format.may_have_too_many };

    ghost low: { Self.format.limit < 2 ^ 32 };
}

/// The value of the file of this format that is named at this position among the words.
pub fn read_input<'w, F: FileFormat, S: Store>(
    alloc: Global,
    store: &mut S,
    position: usize,
    name: &'w str,
) -> Result<F::Value, Refusal<'w>>
    ensures told { IfSome (S.seen store.old).files (λ files.
        Gives F.meaning result (read_as F.format position name.now files)) }
    ensures uses { ReadsInputs (input_at F.format position name.now ∷ []) (S.seen store.old) (S.seen store.new) result }
    ensures keeps { IfOk result F.keeps }
{
    let input = Input {
        position,
        name,
        limit: F::LIMIT,
        may_have_too_many: F::MAY_HAVE_TOO_MANY,
    };
    let bytes = read_pieces(alloc, store, input, Vec::new(alloc))?;
    match F::read(alloc, &bytes) {
        Ok(value) => Ok(value),
        Err(why) => Err(refused(position, why)),
    }
}

/// The refusal of the input at this position, whose bytes are read as no value.
fn refused<'w>(position: usize, why: Unread) -> Refusal<'w>
    ensures { result ≡ refusal_of position why }
{
    match why {
        Unread::TooMuch => Refusal::OverLimit { position },
        Unread::Faulty { text } => Refusal::Unspelled {
            position,
            fault: text,
        },
        Unread::OutOfMemory => Refusal::OutOfMemory,
    }
}
