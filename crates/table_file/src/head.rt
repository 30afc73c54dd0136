//! The head of a tables file: its text and the five counts.

ghost use Rattle.std.specs.Prelude.{◌≡◌, ◌≤◌, ◌+◌, ◌++◌, MatchBool, IfOk, IfErr, OnOk};
ghost use Rattle.table_file.specs.Faults.{value_place, IsFirstFault};
ghost use Rattle.table_file.specs.Tables.{contents};
ghost use Rattle.file_records.specs.Numbers.{numbers_bytes};
ghost use Rattle.table_file.specs.Spelling.{counts};
ghost use Rattle.table_file.specs.Parts.{HasText, IsHead, AreLow, values_by, counts_of};
ghost use Rattle.table_file.specs.declared.TableFault.TheVariants.{Magic};

use crate::{TableFault, Tables};
use file_records::{read_number, write_number};
use memory_columns::FILLER_LIMIT;
use std::alloc::AllocError;

/// The text that a tables file begins with.
pub(crate) const MAGIC: [u8; 8] = *b"CAIROGT1";

/// The most rows of a file.
const ROW_LIMIT: usize = 1 << 20;

/// The most range rows of a file.
const RANGE_ROW_LIMIT: usize = 1 << 18;

/// The most sorted pairs of a file.
const PAIR_LIMIT: usize = 7_077_888;

/// The most range fillers of a file.
const RANGE_FILLER_LIMIT: usize = 65_536;

/// The limits of the counts, in their order.
const LIMITS: [u64; 5] = [
    ROW_LIMIT as u64,
    RANGE_ROW_LIMIT as u64,
    FILLER_LIMIT,
    PAIR_LIMIT as u64,
    RANGE_FILLER_LIMIT as u64,
];

/// The bytes before the first value: the text and the counts.
pub(crate) const HEAD: usize = 48;

/// The most values of a file: those of the greatest counts. A row has 33 and 3 sorted ones, the last state 3, and a range
/// row 4 and 3 sorted ones. A cell has 2, and a range filler 1 and a sorted one.
const VALUE_LIMIT: usize = 36 * ROW_LIMIT
    + 3
    + 7 * RANGE_ROW_LIMIT
    + 2 * FILLER_LIMIT as usize
    + 2 * PAIR_LIMIT
    + 2 * RANGE_FILLER_LIMIT;

/// The most bytes that a tables file may have: those of the greatest counts.
pub const TABLES_LIMIT: usize = HEAD + 8 * VALUE_LIMIT;

/// The counts of a tables file, in their order.
#[derive(Clone, Copy)]
pub(crate) struct Counts {
    pub(crate) rows: usize,
    pub(crate) range: usize,
    pub(crate) fillers: usize,
    pub(crate) pairs: usize,
    pub(crate) range_fillers: usize,
}

/// Whether those of the first eight bytes that are there are the file's text.
pub(crate) fn has_text(bytes: &[u8]) -> bool
    ensures { MatchBool result (HasText bytes.now) (IsFirstFault bytes.now Magic) }
{
    for i in 0..bytes.len().min(MAGIC.len()) {
        if bytes[i] != MAGIC[i] {
            return false;
        }
    }
    true
}

/// The counts after the file's text, or the first fault where one is missing or above its limit.
pub(crate) fn read_counts(bytes: &[u8]) -> Result<Counts, TableFault>
    requires { HasText bytes.now }
    ensures head { IfOk result (IsHead bytes.now) }
    ensures fault { IfErr result (IsFirstFault bytes.now) }
{
    let mut counts = [0usize; 5];
    for k in 0..LIMITS.len() {
        let place = MAGIC.len() + 8 * k;
        if bytes.len() < place + 8 {
            return Err(TableFault::Length);
        }
        let count = read_number(bytes, place);
        if count > LIMITS[k] {
            return Err(TableFault::TooMany);
        }
        counts[k] = count as usize;
    }
    let [rows, range, fillers, pairs, range_fillers] = counts;
    Ok(Counts {
        rows,
        range,
        fillers,
        pairs,
        range_fillers,
    })
}

impl Counts {
    /// The counts of these tables.
    pub(crate) fn of(tables: &Tables) -> Counts
        ensures { counts_of result ≡ counts (contents tables.now) }
    {
        Counts {
            rows: tables.rows.len(),
            range: tables.range.len(),
            fillers: tables.memory.fill.len(),
            pairs: tables.memory.sorted.len(),
            range_fillers: tables.small.fill.len(),
        }
    }

    /// Appends the counts' bytes.
    pub(crate) fn write(&self, out: &mut Vec<u8>) -> Result<(), AllocError>
        ensures { OnOk result (out.new.items ≡ out.old.items ++ numbers_bytes (counts_of self.now)) }
    {
        let counts = [
            self.rows,
            self.range,
            self.fillers,
            self.pairs,
            self.range_fillers,
        ];
        for count in counts {
            write_number(out, count as u64)?;
        }
        Ok(())
    }

    /// How many bytes a file of these counts has.
    pub(crate) fn file_len(&self) -> usize
        requires { AreLow self.now }
        ensures { result ≡ value_place (values_by self.now) }
    {
        let cells = self.fillers + self.pairs;
        let small = 3 * self.rows + 3 * self.range + self.range_fillers;
        let values = 33 * self.rows + 3 + 4 * self.range + 2 * cells + self.range_fillers + small;
        HEAD + 8 * values
    }
}
