//! Why bytes are no hint file.
ghost use Rattle.std.specs.Prelude.{◌≡◌};
ghost use Rattle.hint_cells.specs.Shown.{key_name};

use std::alloc::AllocError;
use std::error::Error;
use std::fmt;

/// A key of a hint file. It prints as it stands in the file.
#[derive(Clone, Copy, Debug, PartialEq, Eq)]
pub enum HintKey {
    /// `extra`, a whole number.
    Extra,
    /// `cells`, a list.
    Cells,
}

/// The first fault of a file that is no hint file.
#[derive(Clone, Copy, Debug, PartialEq, Eq)]
pub enum HintFault {
    /// The bytes are no JSON text, or nest too deep.
    Json,
    /// The key is missing, or what stands at it is of another kind. [`HintKey::Extra`] where the top is no object.
    Key(HintKey),
    /// There are more than [`crate::EXTRA_LIMIT`] extra segments, or more than [`crate::HINT_CELL_LIMIT`] cells.
    TooMany,
    /// The entry of `cells` at this index is the first that is no cell.
    Cell(u32),
    /// There was no memory.
    Memory,
}

impl From<AllocError> for HintFault {
    ghost use Rattle.std.specs.Prelude.{◌≡◌};
    ghost use Rattle.hint_cells.specs.declared.fault.HintFault.{HintFault};

    ghost from_gives = { λ _ fault. fault ≡ HintFault.Memory };

    fn from(_: AllocError) -> HintFault {
        HintFault::Memory
    }
}

impl HintKey {
    /// The key as it stands in the file.
    pub fn name(self) -> &'static str
        ensures { result.now ≡ key_name self }
    {
        match self {
            HintKey::Extra => "extra",
            HintKey::Cells => "cells",
        }
    }
}

impl fmt::Display for HintKey {
    ghost use Rattle.std.specs.Prelude.{Some};
    ghost use Rattle.hint_cells.specs.Shown.{key_name};

    ghost output = { λ key. Some (key_name key) };

    fn fmt<W: fmt::Write>(&self, f: &mut fmt::Formatter<W>) -> fmt::Result {
        f.write_str(self.name())
    }
}

/// The fault's name, and the key or the entry that it is about.
impl fmt::Display for HintFault {
    ghost use Rattle.std.specs.Prelude.{Some};
    ghost use Rattle.hint_cells.specs.Shown.{fault_text};

    ghost output = { λ fault. Some (fault_text fault) };

    fn fmt<W: fmt::Write>(&self, f: &mut fmt::Formatter<W>) -> fmt::Result {
        match self {
            HintFault::Json => f.write_str("Json"),
            HintFault::Key(key) => write!(f, "Key {key}"),
            HintFault::TooMany => f.write_str("TooMany"),
            HintFault::Cell(entry) => write!(f, "Cell {entry}"),
            HintFault::Memory => f.write_str("Memory"),
        }
    }
}

impl Error for HintFault {}
