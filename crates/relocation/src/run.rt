//! A run in one memory of numbers.

use casm_word::State;
use goldilocks::Felt;
use trace_files::CellList;

/// A run in one memory of numbers.
#[derive(Debug, Drop)]
pub struct FieldRun {
    /// Its states, the first one first.
    pub states: Vec<State>,
    /// The cells of its memory.
    pub cells: CellList,
    /// The addresses of the cells that are shown, which ascend.
    pub shown: Vec<Felt>,
    /// Where the first range cell lies; the others follow it.
    pub range_begin: Felt,
    /// How many range cells there are.
    pub range_count: u32,
}
