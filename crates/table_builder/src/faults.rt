//! What stands in the way of tables.

ghost use Rattle.std.specs.Prelude.{◌≡◌, Some};
ghost use Rattle.table_builder.specs.declared.faults.BuildFault.TheVariants.{Memory};
ghost use Rattle.table_builder.specs.Findings.{build_fault};
ghost use Rattle.table_builder.specs.Shown.{field_name, fault_text};

use casm_word::StepResult;
use goldilocks::Felt;
use memory_columns::SortFault;
use std::alloc::{AllocError, AllocFailed};
use std::error::Error;
use std::fmt;

/// What the program or the public input states of a run, and the states or the memory have otherwise.
#[derive(Clone, Copy, Debug, PartialEq, Eq)]
pub enum Field {
    /// How many steps it has.
    Steps,
    /// The pc of its first state.
    PcFirst,
    /// The ap of its first state.
    ApFirst,
    /// The fp of its first state.
    FpFirst,
    /// The pc of its last state.
    PcLast,
    /// The ap of its last state.
    ApLast,
    /// The cell at this address: a word of the program, or a public cell.
    Cell(Felt),
    /// `rc_min`, where the least offset or limb lies below it.
    RcMin,
    /// `rc_max`, where the greatest offset or limb lies above it.
    RcMax,
}

/// Why there are no tables. Of several faults the first is reported, in this order:
///
/// 1. the number of steps and the two ends of the run, field by field up to [`Field::ApLast`];
/// 2. the steps;
/// 3. the program's words and then the public cells, one after another, each missing or with another value;
/// 4. the range cells, one after another, each missing or too wide;
/// 5. [`Field::RcMin`], then [`Field::RcMax`];
/// 6. accesses that are too far apart.
#[derive(Clone, Copy, Debug, PartialEq, Eq)]
pub enum BuildFault {
    /// The program or the public input states something else than the run or its memory has.
    Mismatch {
        /// What differs.
        field: Field,
        /// What the program or the public input says.
        stated: Felt,
        /// What the states or the memory have.
        found: Felt,
    },
    /// A step is the first that isn't the transition to the state after it.
    Step {
        /// The step, counted from 0.
        step: u32,
        /// What the transition comes to.
        result: StepResult,
    },
    /// The memory has no cell at this address: of the program, of the public cells or of the range cells.
    NoCell(Felt),
    /// The range cell of this number, counted from 0, is 2^48 or more.
    RangeWidth(u32),
    /// Between the least and the greatest accessed address more than 2^21 are never accessed. So no tables are built of
    /// a run whose addresses pass p - 1 and go on at 0.
    TooWide {
        /// The least accessed address.
        least: Felt,
        /// The greatest accessed address.
        greatest: Felt,
    },
    /// Want of memory.
    Memory,
}

/// The name of the field.
impl fmt::Display for Field {
    ghost output = { λ field. Some (field_name field) };

    fn fmt<W: fmt::Write>(&self, f: &mut fmt::Formatter<W>) -> fmt::Result {
        match self {
            Field::Steps => write!(f, "steps"),
            Field::PcFirst => write!(f, "pc_first"),
            Field::ApFirst => write!(f, "ap_first"),
            Field::FpFirst => write!(f, "fp_first"),
            Field::PcLast => write!(f, "pc_last"),
            Field::ApLast => write!(f, "ap_last"),
            Field::Cell(address) => {
                let address = address.get();
                write!(f, "cell {address}")
            }
            Field::RcMin => write!(f, "rc_min"),
            Field::RcMax => write!(f, "rc_max"),
        }
    }
}

/// The name of the fault with what it is about: of a mismatch what is stated and what is found.
#[tactic(auto, unfolding(crate::specs::Findings::finding_of))]
impl fmt::Display for BuildFault {
    ghost output = { λ fault. Some (fault_text fault) };

    fn fmt<W: fmt::Write>(&self, f: &mut fmt::Formatter<W>) -> fmt::Result {
        match self {
            BuildFault::Mismatch {
                field,
                stated,
                found,
            } => {
                let (stated, found) = (stated.get(), found.get());
                write!(f, "Mismatch {field} {stated} {found}")
            }
            BuildFault::Step { step, result } => write!(f, "Step {step}: {result}"),
            BuildFault::NoCell(address) => {
                let address = address.get();
                write!(f, "NoCell {address}")
            }
            BuildFault::RangeWidth(row) => write!(f, "RangeWidth {row}"),
            BuildFault::TooWide { least, greatest } => {
                let (least, greatest) = (least.get(), greatest.get());
                write!(f, "TooWide {least} {greatest}")
            }
            BuildFault::Memory => write!(f, "Memory"),
        }
    }
}

impl Error for BuildFault {}

impl From<AllocError> for BuildFault {
    ghost from_gives = { λ _ fault. fault ≡ Memory };

    fn from(_: AllocError) -> BuildFault {
        BuildFault::Memory
    }
}

impl<T: Drop> From<AllocFailed<T>> for BuildFault {
    ghost from_gives = { λ _ fault. fault ≡ Memory };

    fn from(_: AllocFailed<T>) -> BuildFault {
        BuildFault::Memory
    }
}

/// That the accesses are too far apart, or want of memory.
impl From<SortFault> for BuildFault {
    ghost from_gives = { λ fault built. built ≡ build_fault fault };

    fn from(fault: SortFault) -> BuildFault {
        match fault {
            SortFault::TooWide { least, greatest } => BuildFault::TooWide { least, greatest },
            SortFault::Memory => BuildFault::Memory,
        }
    }
}
