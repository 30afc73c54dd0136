//! Tables files: the trace table, the range rows, and the columns of the memory and of the small values, in one file.
#![tactic(auto)]

mod head;
mod laws;
mod reading;
mod writing;

use casm_word::State;
use cpu_rows::Row;
pub use head::TABLES_LIMIT;
pub use laws::{limit_laws, reading_laws, spelling_laws};
use memory_columns::MemoryColumns;
use range_columns::{RangeColumns, RangeRow};
pub use reading::read;
use std::alloc::AllocError;
use std::error::Error;
use std::fmt;
pub use writing::write;

/// The tables of a run: what a tables file holds.
#[derive(Debug, Drop)]
pub struct Tables {
    /// One row for each step, in order.
    pub rows: Vec<Row>,
    /// The state after the last row.
    pub last: State,
    /// The cells that are range checked, with their limbs.
    pub range: Vec<RangeRow>,
    /// The memory fillers and the sorted pairs.
    pub memory: MemoryColumns,
    /// The range fillers and the sorted range values.
    pub small: RangeColumns,
}

/// Why bytes are no tables file. Of several faults the one at the least place in the file is reported.
#[derive(Clone, Copy, Debug, PartialEq, Eq)]
pub enum TableFault {
    /// One of the first eight bytes is there and is another.
    Magic,
    /// A count is above its limit.
    TooMany,
    /// The value at this byte is p or more.
    NotField(u64),
    /// The file ends before its last part, or a byte follows that part.
    Length,
    /// Want of memory. The bytes spell tables all the same.
    Memory,
}

/// The fault's name, and the place of the value that it is about.
impl fmt::Display for TableFault {
    ghost use Rattle.std.specs.Prelude.{Some};
    ghost use Rattle.table_file.specs.Shown.{fault_text};

    ghost output = { λ fault. Some (fault_text fault) };

    fn fmt<W: fmt::Write>(&self, f: &mut fmt::Formatter<W>) -> fmt::Result {
        match self {
            TableFault::Magic => write!(f, "Magic"),
            TableFault::TooMany => write!(f, "TooMany"),
            TableFault::NotField(place) => write!(f, "NotField {place}"),
            TableFault::Length => write!(f, "Length"),
            TableFault::Memory => write!(f, "Memory"),
        }
    }
}

impl Error for TableFault {}

impl From<AllocError> for TableFault {
    ghost use Rattle.std.specs.Prelude.{◌≡◌};
    ghost use Rattle.table_file.specs.declared.TableFault.TheVariants.{Memory};

    ghost from_gives = { λ _ fault. fault ≡ Memory };

    fn from(_: AllocError) -> TableFault {
        TableFault::Memory
    }
}
