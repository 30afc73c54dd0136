//! Why bytes are no public file.
ghost use Rattle.std.specs.Prelude.{◌≡◌};
ghost use Rattle.public_input.specs.Shown.{key_name};

use std::alloc::AllocError;
use std::error::Error;
use std::fmt;

/// A key of a public file. It prints as it stands in the file.
#[derive(Clone, Copy, Debug, PartialEq, Eq)]
pub enum PublicKey {
    /// `steps`, a whole number.
    Steps,
    /// `ap_first`, the text of a field value.
    ApFirst,
    /// `ap_last`, the text of a field value.
    ApLast,
    /// `rc_min`, a whole number.
    RcMin,
    /// `rc_max`, a whole number.
    RcMax,
    /// `range_begin`, the text of a field value.
    RangeBegin,
    /// `range_count`, a whole number.
    RangeCount,
    /// `cells`, a list.
    Cells,
}

/// Why bytes are no public file. The first fault counts. First is that of the bytes as a whole, then that of each key
/// in the order of [`PublicKey`]. Last are those of the cells, one cell after another.
#[derive(Clone, Copy, Debug, PartialEq, Eq)]
pub enum PublicFault {
    /// The bytes are no JSON text, or nest too deep.
    Json,
    /// The key is missing or of the wrong kind. A file that is no object has no key, so `steps` is missing.
    Key(PublicKey),
    /// The number of the key is out of its range: `steps` is 0, `rc_max` has more than 16 bits, or `rc_min` is above
    /// `rc_max`.
    Range(PublicKey),
    /// There are too many steps, range cells or public cells.
    TooMany,
    /// The entry of this number, counted from 0, isn't an address and a value.
    Cell(u32),
    /// The address of the entry of this number isn't above that of the entry before.
    Order(u32),
    /// There was no memory.
    Memory,
}

impl From<AllocError> for PublicFault {
    ghost use Rattle.std.specs.Prelude.{◌≡◌};
    ghost use Rattle.public_input.specs.declared.fault.PublicFault.{PublicFault};

    ghost from_gives = { λ _ fault. fault ≡ PublicFault.Memory };

    fn from(_: AllocError) -> PublicFault {
        PublicFault::Memory
    }
}

impl PublicKey {
    /// The key as it stands in the file.
    pub fn name(self) -> &'static str
        ensures { result.now ≡ key_name self }
    {
        match self {
            PublicKey::Steps => "steps",
            PublicKey::ApFirst => "ap_first",
            PublicKey::ApLast => "ap_last",
            PublicKey::RcMin => "rc_min",
            PublicKey::RcMax => "rc_max",
            PublicKey::RangeBegin => "range_begin",
            PublicKey::RangeCount => "range_count",
            PublicKey::Cells => "cells",
        }
    }
}

impl fmt::Display for PublicKey {
    ghost use Rattle.std.specs.Prelude.{Some};
    ghost use Rattle.public_input.specs.Shown.{key_name};

    ghost output = { λ key. Some (key_name key) };

    fn fmt<W: fmt::Write>(&self, f: &mut fmt::Formatter<W>) -> fmt::Result {
        f.write_str(self.name())
    }
}

impl fmt::Display for PublicFault {
    ghost use Rattle.std.specs.Prelude.{Some};
    ghost use Rattle.public_input.specs.Shown.{fault_text};

    ghost output = { λ fault. Some (fault_text fault) };

    fn fmt<W: fmt::Write>(&self, f: &mut fmt::Formatter<W>) -> fmt::Result {
        match self {
            PublicFault::Json => f.write_str("Json"),
            PublicFault::Key(key) => write!(f, "Key {key}"),
            PublicFault::Range(key) => write!(f, "Range {key}"),
            PublicFault::TooMany => f.write_str("TooMany"),
            PublicFault::Cell(i) => write!(f, "Cell {i}"),
            PublicFault::Order(i) => write!(f, "Order {i}"),
            PublicFault::Memory => f.write_str("Memory"),
        }
    }
}

impl Error for PublicFault {}
