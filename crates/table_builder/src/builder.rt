//! The tables of a run.

ghost use Rattle.std.specs.Prelude.{◌≡◌, ◌≤◌, IfOk, IfErr, IfSome, None, Ok, Err, map, length};
ghost use Rattle.casm_word.specs.Transition.{registers};
ghost use Rattle.trace_files.specs.TraceFile.{state_limit};
ghost use Rattle.goldilocks.specs.Cells.{memory_of};
ghost use Rattle.trace_files.specs.CellList.{listed};
ghost use Rattle.program_file.specs.Listing.{listing};
ghost use Rattle.public_input.specs.Statement.{statement};
ghost use Rattle.public_input.specs.Valid.{IsValid};
ghost use Rattle.table_file.specs.Tables.{contents, AreValid};
ghost use Rattle.constraint_checker.specs.declared.Verdict.TheVariants.{Accepted};
ghost use Rattle.constraint_checker.specs.Verdict.{verdict};
ghost use Rattle.table_builder.specs.declared.faults.BuildFault.TheVariants.{Memory};
ghost use Rattle.table_builder.specs.Findings.{finding_of, first_found, end_findings};
ghost use Rattle.table_builder.specs.Building.{building};

use crate::BuildFault;
use crate::cells::cells_agree;
use crate::columns::{memory_columns, small_columns};
use crate::ends::ends_agree;
use crate::rows::{range_rows, rows_of};
use casm_word::State;
use program_file::Program;
use public_input::Public;
use std::alloc::Global;
use table_file::Tables;
use trace_files::CellList;

/// The tables of a run: of its states, in the memory of the cells, for this program and this public input.
///
/// The answer is an error exactly where something stands in the way, and tells the first such thing, in the order of
/// [`BuildFault`]. The number of steps, the first state, and the last pc and ap have to be those that the program and the
/// public input state. Each step has to be the transition. The memory has to have the program's words, the public cells
/// and the range cells, and each range cell has to lie below 2^48. No offset and no limb may lie outside the stated
/// range. Want of memory may come in the place of each answer but a fault of the number of steps or of an end.
///
/// There are 2 to 2^20 + 1 states, and the public input is valid.
///
/// Tables that are built are accepted by `check`, with the same program and public input.
pub fn build(
    alloc: Global,
    program: &Program,
    public: &Public,
    states: &[State],
    cells: &CellList,
) -> Result<Tables, BuildFault>
    requires valid_public { IsValid public.now }
    requires least { 2 ≤ length states.now }
    requires most { length states.now ≤ state_limit }
    ensures tables { IfOk result (λ tables. building (listing program.now) (statement public.now)
        (memory_of (listed cells.now)) (map registers states.now) ≡ Ok (contents tables)) }
    ensures fault { IfErr result (λ fault. IfSome (finding_of fault) (λ found. building (listing program.now) (statement public.now)
        (memory_of (listed cells.now)) (map registers states.now) ≡ Err found)) }

    // Want of memory comes only where the number of steps and the two ends are as they are stated.
    ensures memory { IfErr result (λ fault. fault ≡ Memory →
        first_found (end_findings (listing program.now) (statement public.now) (map registers states.now)) ≡ None) }

    // What is built is valid, and accepted.
    ensures valid { IfOk result (λ tables. AreValid (contents tables)) }
    ensures accepted { IfOk result (λ tables. verdict (listing program.now) (statement public.now) (contents tables) ≡ Accepted) }
{
    ends_agree(program, public, states)?;
    let rows = rows_of(alloc, states, cells)?;
    cells_agree(program, public, cells)?;
    let range = range_rows(alloc, public, cells)?;
    let last = states[states.len() - 1];
    let small = small_columns(alloc, public, &rows, &range)?;
    let memory = memory_columns(alloc, program, public, &rows, &range, cells)?;
    Ok(Tables {
        rows,
        last,
        range,
        memory,
        small,
    })
}
