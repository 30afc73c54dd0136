//! Reading a tables file.

ghost use Rattle.std.specs.Prelude.{◌≡◌, ◌⊎◌, ◌≤◌, ◌*◌, MatchOption, MatchResult, IfOk, IfErr, IsOk, length};
ghost use Rattle.table_file.specs.Tables.{contents, AreValid, Contents};
ghost use Rattle.table_file.specs.Spelling.{SpellsTables};
ghost use Rattle.table_file.specs.Faults.{IsFirstFault};
ghost use Rattle.table_file.specs.Reading.{lists_in, reading};
ghost use Rattle.table_file.specs.Parts.{HasLowValues, IsFirstHighValue, IsWholeFile, values_by};
ghost use Rattle.table_file.specs.declared.TableFault.TheVariants.{Memory};

use crate::head::{Counts, HEAD, has_text, read_counts};
use crate::{TableFault, Tables};
use casm_word::State;
use cpu_rows::Row;
use file_records::{Record, read_number, read_records};
use goldilocks::{Felt, PRIME, Pair};
use memory_columns::MemoryColumns;
use range_columns::{RangeColumns, RangeRow};
use std::alloc::{AllocError, Global};

/// The tables that the bytes of a tables file spell, or the first fault from the front of bytes that spell none.
///
/// Memory is taken only for bytes that spell tables, and once for each list. So want of memory comes only for these.
pub fn read(alloc: Global, bytes: &[u8]) -> Result<Tables, TableFault>
    ensures spells { IfOk result (λ t. SpellsTables bytes.now (contents t)) }
    ensures valid { IfOk result (λ t. AreValid (contents t)) }
    ensures only { IfOk result (λ t. (other : Contents) → SpellsTables bytes.now other → other ≡ contents t) }

    // Of several faults the first from the front is reported, and bytes that spell tables have none.
    ensures fault { IfErr result (λ fault. (fault ≡ Memory) ⊎ IsFirstFault bytes.now fault) }
    ensures reading { MatchResult result (λ t. reading bytes.now ≡ Ok (contents t)) (λ fault. (fault ≡ Memory) ⊎ (reading bytes.now ≡ Err fault)) }
    ensures exact { IfErr result (λ fault. (t : Contents) → SpellsTables bytes.now t → fault ≡ Memory) }

    // Want of memory comes only where the bytes have no fault.
    ensures memory { IfErr result (λ fault. fault ≡ Memory → IsOk (reading bytes.now)) }
{
    let counts = check(bytes)?;
    let (_, values) = bytes.split_at(HEAD);
    let tables = read_lists(alloc, values, &counts)?;
    Ok(tables)
}

/// The counts of bytes that spell tables, or the first fault of bytes that spell none.
fn check(bytes: &[u8]) -> Result<Counts, TableFault>
    ensures whole { IfOk result (IsWholeFile bytes.now) }
    ensures fault { IfErr result (IsFirstFault bytes.now) }
{
    if !has_text(bytes) {
        return Err(TableFault::Magic);
    }
    let counts = read_counts(bytes)?;
    let end = counts.file_len();
    if let Some(place) = high_value(bytes, end.min(bytes.len())) {
        return Err(TableFault::NotField(place as u64));
    }
    if bytes.len() != end {
        return Err(TableFault::Length);
    }
    Ok(counts)
}

/// Where the first value that is p or more begins, of those that are whole before `end`.
fn high_value(bytes: &[u8], end: usize) -> Option<usize>
    requires head { 48 ≤ end }
    requires inside { end ≤ length bytes.now }
    ensures { MatchOption result (HasLowValues bytes.now end) (IsFirstHighValue bytes.now end) }
{
    for k in 0..(end - HEAD) / 8 {
        let place = HEAD + 8 * k;
        if read_number(bytes, place) >= PRIME {
            return Some(place);
        }
    }
    None
}

/// The lists of a file, one after another.
#[tactic(auto, unfolding(crate::specs::Reading::lists_in))]
fn read_lists(alloc: Global, values: &[u8], counts: &Counts) -> Result<Tables, AllocError>
    requires { length values.now ≡ 8 * values_by counts.now }
    ensures { IfOk result (λ t. contents t ≡ lists_in counts.now.rows counts.now.range counts.now.fillers counts.now.pairs counts.now.range_fillers values.now) }
{
    let rows = read_records::<Row>(alloc, values, counts.rows)?;
    let (_, rest) = values.split_at(Row::SIZE * counts.rows);
    let (last, rest) = rest.split_at(State::SIZE);
    let last = State::read(last);
    let range = read_records::<RangeRow>(alloc, rest, counts.range)?;
    let (_, rest) = rest.split_at(RangeRow::SIZE * counts.range);
    let fillers = read_records::<Pair>(alloc, rest, counts.fillers)?;
    let (_, rest) = rest.split_at(Pair::SIZE * counts.fillers);
    let pairs = read_records::<Pair>(alloc, rest, counts.pairs)?;
    let (_, rest) = rest.split_at(Pair::SIZE * counts.pairs);
    let range_fillers = read_records::<Felt>(alloc, rest, counts.range_fillers)?;
    let (_, rest) = rest.split_at(Felt::SIZE * counts.range_fillers);
    let sorted_range = read_records::<Felt>(
        alloc,
        rest,
        3 * counts.rows + 3 * counts.range + counts.range_fillers,
    )?;
    Ok(Tables {
        rows,
        last,
        range,
        memory: MemoryColumns {
            fill: fillers,
            sorted: pairs,
        },
        small: RangeColumns {
            fill: range_fillers,
            sorted: sorted_range,
        },
    })
}
