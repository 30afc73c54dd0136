//! The equations of rows one after another.
#![tactic(auto)]

ghost use Rattle.std.specs.Prelude.{◌≡◌, ◌<◌, ◌+◌, ◌↔◌, map, length, All, IsNone, IfSome, slice_index_or};
ghost use Rattle.casm_word.specs.Transition.{Memory, registers};
ghost use Rattle.casm_word.specs.Run.{LegalRun};
ghost use Rattle.cpu_rows.specs.Columns.{columns};
ghost use Rattle.cpu_rows.specs.Equations.{Meets};
ghost use Rattle.cpu_rows.specs.Steps.{HasSmallOffsets, HasCells, row_accesses};
ghost use Rattle.cpu_rows.specs.Table.{states_of, with_next, IsFirstFault};

use crate::Row;
use crate::equations::row_fault;
use casm_word::State;

/// The first row with a fault, and its fault: the least number of C1 to C39 that fails.
///
/// Each row's next state is that of the next row, and `last` for the last row. `None` exactly where every row meets the
/// equations.
pub fn first_fault(rows: &[Row], last: State) -> Option<(usize, u8)>
    ensures none { IsNone result ↔ All (λ p. Meets p.0 p.1) (with_next (map columns rows.now) (registers last)) }
    ensures first { IfSome result (λ fault. IsFirstFault (map columns rows.now) (registers last) fault.0 fault.1) }

    // Rows with no fault are a legal run, in every memory that has their cells.
    ensures run { IsNone result → 0 < length rows.now → All HasSmallOffsets (map columns rows.now) →
        (m : Memory) → All (λ r. HasCells m (row_accesses r)) (map columns rows.now) →
        LegalRun m (states_of (map columns rows.now) (registers last)) }
{
    for (place, row) in rows.iter().enumerate() {
        if let Some(number) = row_fault(row, state_after(rows, place, last)) {
            return Some((place, number));
        }
    }
    None
}

/// The next state of the row at `place`.
fn state_after(rows: &[Row], place: usize, last: State) -> State
    requires { place < length rows.now }
    ensures { registers result ≡ slice_index_or (states_of (map columns rows.now) (registers last)) (place + 1) (registers last) }
{
    if place + 1 < rows.len() {
        rows[place + 1].state()
    } else {
        last
    }
}
