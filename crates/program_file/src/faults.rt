//! Why bytes are no program file.
ghost use Rattle.std.specs.Prelude.{◌≡◌};
ghost use Rattle.program_file.specs.Shown.{key_name};

use std::alloc::AllocError;
use std::error::Error;
use std::fmt;

/// A key of a program file. It prints as it stands in the file.
#[derive(Clone, Copy, Debug, PartialEq, Eq)]
pub enum ProgramKey {
    /// `prime`, the order of the field.
    Prime,
    /// `data`, the list of the words.
    Words,
    /// `start`, the place of the first instruction.
    Start,
    /// `end`, the place where the run ends.
    End,
    /// `builtins`, the list of the builtins' names.
    Builtins,
}

/// The first fault of a file that is no program.
#[derive(Clone, Copy, Debug, PartialEq, Eq)]
pub enum ProgramFault {
    /// The bytes are no JSON text.
    Json,
    /// The key is missing, or what stands at it is of another kind. [`ProgramKey::Prime`] where the top is no object.
    Key(ProgramKey),
    /// `prime` is another text than the field's order.
    Prime,
    /// `data` has more than [`crate::PROGRAM_WORD_LIMIT`] entries.
    TooLong,
    /// The entry of `data` at this index is the first that is no number of the field as a text.
    Felt(u32),
    /// `builtins` is a list of other names, or of these names in another order.
    Builtin,
    /// `start` or `end` isn't below the number of words.
    Label(ProgramKey),
    /// There was no memory.
    Memory,
}

impl From<AllocError> for ProgramFault {
    ghost use Rattle.std.specs.Prelude.{◌≡◌};
    ghost use Rattle.program_file.specs.declared.faults.ProgramFault.{ProgramFault};

    ghost from_gives = { λ _ fault. fault ≡ ProgramFault.Memory };

    fn from(_: AllocError) -> ProgramFault {
        ProgramFault::Memory
    }
}

impl ProgramKey {
    /// The key as it stands in the file.
    pub fn name(self) -> &'static str
        ensures { result.now ≡ key_name self }
    {
        match self {
            ProgramKey::Prime => "prime",
            ProgramKey::Words => "data",
            ProgramKey::Start => "start",
            ProgramKey::End => "end",
            ProgramKey::Builtins => "builtins",
        }
    }
}

impl fmt::Display for ProgramKey {
    ghost use Rattle.std.specs.Prelude.{Some};
    ghost use Rattle.program_file.specs.Shown.{key_name};

    ghost output = { λ key. Some (key_name key) };

    fn fmt<W: fmt::Write>(&self, f: &mut fmt::Formatter<W>) -> fmt::Result {
        f.write_str(self.name())
    }
}

/// The fault's name, and the key or the entry that it is about.
impl fmt::Display for ProgramFault {
    ghost use Rattle.std.specs.Prelude.{Some};
    ghost use Rattle.program_file.specs.Shown.{fault_text};

    ghost output = { λ fault. Some (fault_text fault) };

    fn fmt<W: fmt::Write>(&self, f: &mut fmt::Formatter<W>) -> fmt::Result {
        match self {
            ProgramFault::Json => f.write_str("Json"),
            ProgramFault::Key(key) => write!(f, "Key {key}"),
            ProgramFault::Prime => f.write_str("Prime"),
            ProgramFault::TooLong => f.write_str("TooLong"),
            ProgramFault::Felt(entry) => write!(f, "Felt {entry}"),
            ProgramFault::Builtin => f.write_str("Builtin"),
            ProgramFault::Label(key) => write!(f, "Label {key}"),
            ProgramFault::Memory => f.write_str("Memory"),
        }
    }
}

impl Error for ProgramFault {}
