//! Hint files: how many extra segments a run has, and which cells are given to it, as JSON.
#![tactic(auto)]

ghost use Rattle.std.specs.Prelude.{◌≤◌, length};
ghost use Rattle.hint_cells.specs.Limits.{extra_limit, hint_cell_limit};

mod fault;
mod laws;
mod reading;
mod writing;

pub use fault::{HintFault, HintKey};
pub use laws::{bound_laws, limit_laws, reading_laws, written_laws};
pub use reading::read;
use segments::{Place, Value};
pub use writing::write;

/// The most bytes that a hint file may have, 2^27.
pub const HINTS_LIMIT: usize = 134_217_728;

/// The most extra segments, 2^16.
pub const EXTRA_LIMIT: u32 = 65_536;

/// The most hint cells, 2^20.
pub const HINT_CELL_LIMIT: usize = 1_048_576;

/// A cell that is given to a run: its place, and what it holds.
#[derive(Clone, Copy, Debug, PartialEq, Eq)]
pub struct HintCell {
    /// Where the cell lies.
    pub place: Place,
    /// What it holds.
    pub value: Value,
}

/// The hints of a run: how many extra segments there are, and the cells that are given, in their order.
///
/// There are at most [`EXTRA_LIMIT`] extra segments and at most [`HINT_CELL_LIMIT`] cells; the type keeps these bounds. A
/// place may come more than once, and its segment need not be there: what a run says to that is its own.
#[derive(Debug, Drop)]
pub struct Hints {
    extra: u32,
    cells: Vec<HintCell>,
    pub ghost few_extra: { extra ≤ extra_limit },
    pub ghost few_cells: { length cells.items ≤ hint_cell_limit },
}

impl Hints {
    ghost use Rattle.std.specs.Prelude.{◌≡◌, ◌↔◌, ◌≤◌, length, IsSome, IfSome};
    ghost use Rattle.hint_cells.specs.Limits.{extra_limit, hint_cell_limit};
    ghost use Rattle.hint_cells.specs.HintList.{hint_list};

    /// The hints with so many extra segments and these cells, or `None` exactly where there are too many of either.
    pub fn new(extra: u32, cells: Vec<HintCell>) -> Option<Hints>
        ensures hints { IfSome result (λ h. hint_list h ≡ record { extra = extra; cells = cells.items }) }
        ensures some { IsSome result ↔ ((extra ≤ extra_limit) × (length cells.items ≤ hint_cell_limit)) }
    {
        if extra > EXTRA_LIMIT || cells.len() > HINT_CELL_LIMIT {
            return None;
        }
        Some(Hints { extra, cells })
    }

    /// How many extra segments there are, at most [`EXTRA_LIMIT`].
    pub fn extra(&self) -> u32
        ensures { result ≡ (hint_list self.now).extra }
    {
        self.extra
    }

    /// The cells that are given, in their order, at most [`HINT_CELL_LIMIT`] of them.
    pub fn cells(&self) -> &[HintCell]
        ensures { result.now ≡ (hint_list self.now).cells }
    {
        self.cells.as_slice()
    }
}
