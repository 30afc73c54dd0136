//! The public input of a run.

ghost use Rattle.std.specs.Prelude.{◌≡◌, IfOk, fold, max, min, unwrap_or};
ghost use Rattle.goldilocks.specs.Felts.{numbers};
ghost use Rattle.public_input.specs.Statement.{statement};
ghost use Rattle.public_input.specs.Valid.{IsValid};
ghost use Rattle.relocation.specs.Relocated.{field_run};
ghost use Rattle.table_builder.specs.Columns.{cells_at};
ghost use Rattle.table_builder.specs.Public.{CanBeStated, public_of};
ghost use Rattle.table_builder.specs.PublicParts.{all_digits, digits, numbers_from, words_at};

use casm_word::{Reads, State};
use goldilocks::{Felt, Pair};
use public_input::{Public, SMALL_LIMIT};
use relocation::FieldRun;
use std::alloc::{AllocError, Global};

/// The public input of a run.
///
/// Its steps are those between the states, and `ap_first` and `ap_last` are the ap of the first and of the last state.
/// `rc_min` and `rc_max` are the least and the greatest of the small values: of the biased offsets of the words of all
/// steps, and of the limbs of all range cells. The range cells are those of the run, and the public cells are its shown
/// cells, in their order. It is valid.
///
/// The states are 2 to 2^20 + 1, and a legal run in the cells. At most 2^18 cells are shown, by strictly ascending
/// addresses, and there are at most 2^18 range cells, each below 2^48. The memory has all of them (`CanBeStated` in
/// `specs/`).
///
/// The answer is an error only where memory runs out.
pub fn public_of(alloc: Global, run: &FieldRun) -> Result<Public, AllocError>
    requires stated { CanBeStated (field_run run.now) }
    ensures statement { IfOk result (λ public. statement public ≡ public_of (field_run run.now)) }
    ensures valid { IfOk result IsValid }
{
    let last = run.states.len() - 1;
    let limits = Limits::none()
        .with_words(&run.states[..last], &run.cells)
        .with_range(run.range_begin, run.range_count, &run.cells);
    let cells = shown_cells(alloc, &run.shown, &run.cells)?;
    Ok(Public {
        steps: last as u32,
        ap_first: run.states[0].ap,
        ap_last: run.states[last].ap,
        rc_min: limits.least,
        rc_max: limits.greatest,
        range_begin: run.range_begin,
        range_count: run.range_count,
        cells,
    })
}

/// The least and the greatest of some small values.
#[derive(Clone, Copy)]
struct Limits {
    /// The least of them, or 2^16 - 1 where there are none.
    least: u32,
    /// The greatest of them, or 0 where there are none.
    greatest: u32,
}

impl Limits {
    /// Those of no values.
    fn none() -> Limits
        ensures least { result.least ≡ 65535 }
        ensures greatest { result.greatest ≡ 0 }
    {
        Limits {
            least: SMALL_LIMIT - 1,
            greatest: 0,
        }
    }

    /// Those with the offsets of the words at the pc of each state, too.
    fn with_words<M: Reads>(self, states: &[State], m: &M) -> Limits
        ensures least { result.least ≡ fold min self.least (all_digits (words_at (M.cells m.now) states.now)) }
        ensures greatest { result.greatest ≡ fold max self.greatest (all_digits (words_at (M.cells m.now) states.now)) }
    {
        let mut limits = self;
        for state in states {
            limits = limits.with_digits(number_at(m, state.pc));
        }
        limits
    }

    /// Those with the limbs of so many cells from an address on, too.
    fn with_range<M: Reads>(self, begin: Felt, count: u32, m: &M) -> Limits
        ensures least { result.least ≡ fold min self.least (all_digits (numbers_from (M.cells m.now) begin.number count)) }
        ensures greatest { result.greatest ≡ fold max self.greatest (all_digits (numbers_from (M.cells m.now) begin.number count)) }
    {
        let mut limits = self;
        let mut addr = begin;
        for _ in 0..count {
            limits = limits.with_digits(number_at(m, addr));
            addr = addr.add(Felt::ONE);
        }
        limits
    }

    /// Those with the three lowest digits of a number to the base 2^16, too.
    #[tactic(auto, unfolding(range_columns::specs::Limbs::limb_at))]
    fn with_digits(self, number: u64) -> Limits
        ensures least { result.least ≡ fold min self.least (digits number) }
        ensures greatest { result.greatest ≡ fold max self.greatest (digits number) }
    {
        let base = u64::from(SMALL_LIMIT);
        let low = (number % base) as u32;
        let middle = (number / base % base) as u32;
        let high = (number / base / base % base) as u32;
        Limits {
            least: self.least.min(low).min(middle).min(high),
            greatest: self.greatest.max(low).max(middle).max(high),
        }
    }
}

/// The number that the memory has at an address, or 0 where it has none.
fn number_at<M: Reads>(m: &M, addr: Felt) -> u64
    ensures { result ≡ unwrap_or (M.cells m.now addr.number) 0 }
{
    value_at(m, addr).get()
}

/// The value that the memory has at an address, or 0 where it has none.
fn value_at<M: Reads>(m: &M, addr: Felt) -> Felt
    ensures { result.number ≡ unwrap_or (M.cells m.now addr.number) 0 }
{
    match m.read(addr) {
        Some(value) => value,
        None => Felt::ZERO,
    }
}

/// The cells at these addresses, each with its value in the memory, or 0 where it has none.
fn shown_cells<M: Reads>(alloc: Global, shown: &[Felt], m: &M) -> Result<Vec<Pair>, AllocError>
    ensures { IfOk result (λ cells. cells.items ≡ cells_at (M.cells m.now) (numbers shown.now)) }
{
    let mut cells = Vec::with_capacity(alloc, shown.len())?;
    for addr in shown {
        cells.push(Pair {
            addr: *addr,
            value: value_at(m, *addr),
        })?;
    }
    Ok(cells)
}
