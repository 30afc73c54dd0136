//! The rows of a run: those of its steps, and those of its range cells.
#![tactic(auto, unfolding(crate::specs::Findings::finding_of))]

ghost use Rattle.std.specs.Prelude.{◌≡◌, ◌≤◌, IsSome, map, length, unwrap_or};
ghost use Rattle.casm_word.specs.Transition.{registers};
ghost use Rattle.casm_word.specs.Run.{first_refused};
ghost use Rattle.trace_files.specs.TraceFile.{state_limit};
ghost use Rattle.public_input.specs.Statement.{statement};
ghost use Rattle.table_builder.specs.Rows.{limb_row, range_rows_of, rows_of};
ghost use Rattle.table_builder.specs.Findings.{finding_of, first_found, range_finding, range_findings, step_finding};
ghost use Rattle.table_builder.specs.Parts.{FindsOrGives};

use crate::BuildFault;
use casm_word::{Reads, State, first_refused};
use cpu_rows::{Row, build_row};
use goldilocks::Felt;
use public_input::Public;
use range_columns::{LIMB_LIMIT, RangeRow, split};
use std::alloc::Global;

/// The rows of the steps, each of which has to be the transition.
pub(crate) fn rows_of<M: Reads>(
    alloc: Global,
    states: &[State],
    m: &M,
) -> Result<Vec<Row>, BuildFault>
    requires least { 2 ≤ length states.now }
    requires most { length states.now ≤ state_limit }
    ensures { FindsOrGives (step_finding (M.cells m.now) (map registers states.now))
        (λ rows. rows.items ≡ rows_of (M.cells m.now) (map registers states.now)) result }
{
    let mut rows = Vec::with_capacity(alloc, states.len() - 1)?;
    for pair in states.windows(2) {
        match build_row(m, pair[0], pair[1]) {
            Some(row) => rows.push(row)?,
            None => return Err(refused_step(m, states)),
        }
    }
    Ok(rows)
}

/// The fault of the first step that isn't the transition.
fn refused_step<M: Reads>(m: &M, states: &[State]) -> BuildFault
    requires some { IsSome (first_refused (M.cells m.now) (map registers states.now)) }
    requires most { length states.now ≤ state_limit }
    ensures { finding_of result ≡ step_finding (M.cells m.now) (map registers states.now) }
{
    match first_refused(m, states) {
        Some(refused) => BuildFault::Step {
            step: refused.0 as u32,
            result: refused.1,
        },
        None => unreachable!(),
    }
}

/// The rows of the range cells, each of which has to be there and below 2^48.
pub(crate) fn range_rows<M: Reads>(
    alloc: Global,
    public: &Public,
    m: &M,
) -> Result<Vec<RangeRow>, BuildFault>
    ensures { FindsOrGives (first_found (range_findings (statement public.now) (M.cells m.now)))
        (λ rows. rows.items ≡ range_rows_of (statement public.now) (M.cells m.now)) result }
{
    let mut rows = Vec::with_capacity(alloc, public.range_count as usize)?;
    let mut addr = public.range_begin;
    for i in 0..public.range_count {
        rows.push(range_row(i, addr, m)?)?;
        addr = addr.add(Felt::ONE);
    }
    Ok(rows)
}

/// The row of the range cell with the number `i`, which lies at this address.
fn range_row<M: Reads>(i: u32, addr: Felt, m: &M) -> Result<RangeRow, BuildFault>
    ensures { FindsOrGives (range_finding i addr.number (M.cells m.now addr.number))
        (λ row. row ≡ limb_row (unwrap_or (M.cells m.now addr.number) 0)) result }
{
    let Some(value) = m.read(addr) else {
        return Err(BuildFault::NoCell(addr));
    };
    match split(value, LIMB_LIMIT) {
        Some(row) => Ok(row),
        None => Err(BuildFault::RangeWidth(i)),
    }
}
