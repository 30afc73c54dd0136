//! What runs from outside state of themselves.

ghost use Rattle.std.specs.Prelude.{◌<◌, ◌+◌, All, IsTrue, IsSome, get_or, length, map};
ghost use Rattle.std.specs.List.Sorted.{IsStrictlyIncreasing};
ghost use Rattle.goldilocks.specs.Felts.{numbers};
ghost use Rattle.goldilocks.specs.Cells.{memory_of};
ghost use Rattle.casm_word.specs.Transition.{registers};
ghost use Rattle.casm_word.specs.Run.{LegalRun};
ghost use Rattle.trace_files.specs.CellList.{listed};
ghost use Rattle.relocation.specs.Relocated.{field_run};
ghost use Rattle.table_builder.specs.Public.{CanBeStated};

use super::runs::{FOUR_STEPS, JUMP_NOT_TAKEN, JUMP_TAKEN, OUTPUT_CELL, PASSES_ITS_LAST_PC, Run};
use super::{NO_MEMORY, felt, pairs, public_of as stated_outside, states};
use casm_word::{Reads, first_refused};
use goldilocks::Felt;
use relocation::FieldRun;
use std::alloc::Global;
use std::process::Abort;
use table_builder::public_of;
use trace_files::CellList;

/// The run of these numbers.
fn run_of(rt: &impl Abort, alloc: Global, run: &Run) -> FieldRun {
    let mut shown = Vec::new(alloc);
    for cell in run.shown {
        shown.push(felt(cell.0)).expect(rt, NO_MEMORY);
    }
    FieldRun {
        states: states(rt, alloc, run.states),
        cells: CellList::new(pairs(rt, alloc, run.cells)).expect(rt, "the addresses ascend"),
        shown,
        range_begin: felt(run.range.0),
        range_count: run.range.1,
    }
}

/// Whether a run without range cells has a valid public input.
fn can_be_stated(run: &FieldRun) -> bool
    ensures { IsTrue result → CanBeStated (field_run run.now) }
{
    is_legal(run)
        && run.states.len() <= 1_048_577
        && run.shown.len() <= 262_144
        && ascend(&run.shown)
        && are_held(&run.shown, &run.cells)
        && run.range_count == 0
}

/// Whether the states are a legal run in the cells.
fn is_legal(run: &FieldRun) -> bool
    ensures { IsTrue result → LegalRun (memory_of (listed run.now.cells)) (map registers run.now.states.items) }
{
    run.states.len() >= 2 && first_refused(&run.cells, &run.states).is_none()
}

/// Whether the addresses ascend.
fn ascend(shown: &[Felt]) -> bool
    ensures { IsTrue result → IsStrictlyIncreasing (numbers shown.now) }
{
    for next in 1..shown.len() {
        if shown[next - 1].number >= shown[next].number {
            return false;
        }
    }
    true
}

/// Whether the memory has each of the cells.
fn are_held(shown: &[Felt], cells: &CellList) -> bool
    ensures { IsTrue result → All (λ a. IsSome (memory_of (listed cells.now) a)) (numbers shown.now) }
{
    for addr in shown {
        if cells.read(*addr).is_none() {
            return false;
        }
    }
    true
}

/// Runs without range cells, whose limits are the least and the greatest of their offsets.
const STATED: &[Run] = &[
    FOUR_STEPS,
    JUMP_TAKEN,
    JUMP_NOT_TAKEN,
    OUTPUT_CELL,
    PASSES_ITS_LAST_PC,
];

#[test]
fn runs_state_what_is_said_of_them(rt: HostRuntime) {
    let alloc = rt.alloc();
    for run in STATED {
        let name = run.name;
        let made = run_of(&rt, alloc, run);
        assert!(rt; can_be_stated(&made), "{name}");
        let found = public_of(alloc, &made).expect(&rt, NO_MEMORY);
        let wanted = stated_outside(&rt, alloc, run);
        assert!(rt; found.steps == wanted.steps, "{name}: steps");
        assert!(rt; found.ap_first == wanted.ap_first, "{name}: ap_first");
        assert!(rt; found.ap_last == wanted.ap_last, "{name}: ap_last");
        assert!(rt; found.rc_min == wanted.rc_min, "{name}: rc_min");
        assert!(rt; found.rc_max == wanted.rc_max, "{name}: rc_max");
        assert!(rt; found.cells == wanted.cells, "{name}: cells");
    }
}
