//! The run over numbers that a run over values is.

ghost use Rattle.std.specs.Prelude.{◌≡◌, ℕ, ◌+◌, ◌<◌, ◌≤◌, All, List, IfOk, OnOk, length, map};
ghost use Rattle.goldilocks.specs.Felts.{numbers};
ghost use Rattle.casm_word.specs.Transition.{registers};
ghost use Rattle.trace_files.specs.CellList.{listed};
ghost use Rattle.segments.specs.Values.{place};
ghost use Rattle.segments.specs.Memory.{total_limit};
ghost use Rattle.segments.specs.Relocation.{address, segment_bases};
ghost use Rattle.builtin_segments.specs.Layout.{execution, builtin_count, layout_of};
ghost use Rattle.builtin_segments.specs.Used.{AreUsed};
ghost use Rattle.run_steps.specs.ValueRun.{InSegments, registers_at};
ghost use Rattle.relocation.specs.Relocated.{field_run, relocated_run, relocated_cells, shown_places, LeavesCells};
ghost use Rattle.relocation.specs.Walk.{cells_before};

use crate::{FieldRun, bases, relocate_value};
use builtin_segments::{EXECUTION, Stops, start_stack_length};
use casm_word::State;
use goldilocks::{Felt, Pair};
use program_file::Builtins;
use segments::{Place, RelState, Segments, Value};
use std::alloc::{AllocError, Global};
use trace_files::CellList;

/// The run over numbers that these states are in this memory, once its segments have addresses: the states and all cells
/// are relocated. Shown are the cells of the start stack, which the execution segment begins with. There are no range
/// cells.
///
/// The segments that the states name are there, and those of the builtins are. `stops` has a number for exactly the
/// builtins, none of them above the size of its segment. There is a last state, and one cell a builtin lies before its
/// ap. The only error is want of memory.
pub fn relocate(
    alloc: Global,
    memory: &Segments,
    states: &[RelState],
    builtins: Builtins,
    stops: Stops,
) -> Result<FieldRun, AllocError>
    requires inside { All (InSegments (length memory.now.sizes)) states.now }
    requires layout { (layout_of builtins).first_extra ≤ length memory.now.sizes }
    requires used { AreUsed memory.now builtins stops }
    requires last { LeavesCells (builtin_count builtins) states.now }
    ensures run { IfOk result (λ run. field_run run ≡ relocated_run builtins stops memory.now states.now) }
{
    let bases = bases(alloc, memory)?;
    Ok(FieldRun {
        states: relocated_states(alloc, &bases, states)?,
        cells: relocated_cells(alloc, memory, &bases)?,
        shown: shown_addresses(alloc, &bases, builtins)?,
        range_begin: Felt::ZERO,
        range_count: 0,
    })
}

/// The states with the addresses of their places, where the segments lie at these bases.
fn relocated_states(
    alloc: Global,
    bases: &[u64],
    states: &[RelState],
) -> Result<Vec<State>, AllocError>
    requires low { All (λ b. b ≤ total_limit + 1) bases.now }
    requires inside { All (InSegments (length bases.now)) states.now }
    ensures { (sizes : List ℕ) → bases.now ≡ segment_bases sizes →
        IfOk result (λ list. map registers list.items ≡ map (registers_at sizes) states.now) }
{
    let mut list = Vec::with_capacity(alloc, states.len())?;
    for state in states {
        list.push(relocated_state(bases, *state))?;
    }
    Ok(list)
}

/// The state with the addresses of its places.
#[tactic(auto, unfolding(run_steps::specs::ValueRun::registers_at, casm_word::specs::Transition::registers))]
fn relocated_state(bases: &[u64], state: RelState) -> State
    requires low { All (λ b. b ≤ total_limit + 1) bases.now }
    requires inside { InSegments (length bases.now) state }
    ensures { (sizes : List ℕ) → bases.now ≡ segment_bases sizes → registers result ≡ registers_at sizes state }
{
    State {
        pc: address_at(bases, state.pc),
        ap: address_at(bases, state.ap),
        fp: address_at(bases, state.fp),
    }
}

/// The address of a place, whose segment has a base.
#[tactic(auto, unfolding(segments::specs::Relocation::relocated))]
fn address_at(bases: &[u64], place: Place) -> Felt
    requires low { All (λ b. b ≤ total_limit + 1) bases.now }
    requires there { place.seg < length bases.now }
    ensures { (sizes : List ℕ) → bases.now ≡ segment_bases sizes → result.number ≡ address sizes place }
{
    relocate_value(bases, Value::Ptr(place))
}

/// All held cells, relocated, in the order of their places.
fn relocated_cells(alloc: Global, memory: &Segments, bases: &[u64]) -> Result<CellList, AllocError>
    requires low { All (λ b. b ≤ total_limit + 1) bases.now }
    requires bases { bases.now ≡ segment_bases memory.now.sizes }
    ensures { IfOk result (λ list. listed list ≡ relocated_cells memory.now) }
{
    let mut cells = Vec::with_capacity(alloc, memory.total() as usize)?;
    for seg in 0..memory.count() {
        push_segment(&mut cells, memory, bases, seg)?;
    }
    Ok(CellList::new(cells).unwrap())
}

/// Adds the held cells of a segment to those of the segments before it.
fn push_segment(
    cells: &mut Vec<Pair>,
    memory: &Segments,
    bases: &[u64],
    seg: u32,
) -> Result<(), AllocError>
    requires low { All (λ b. b ≤ total_limit + 1) bases.now }
    requires bases { bases.now ≡ segment_bases memory.now.sizes }
    requires there { seg < length memory.now.sizes }
    requires before { cells.old.items ≡ cells_before memory.now (place seg 0) }
    ensures { OnOk result (cells.new.items ≡ cells_before memory.now (place (seg + 1) 0)) }
{
    for off in 0..memory.size(seg) {
        push_cell(cells, memory, bases, Place { seg, off })?;
    }
    Ok(())
}

/// Adds the cell at a place, if it is held, to those before it.
fn push_cell(
    cells: &mut Vec<Pair>,
    memory: &Segments,
    bases: &[u64],
    at: Place,
) -> Result<(), AllocError>
    requires low { All (λ b. b ≤ total_limit + 1) bases.now }
    requires bases { bases.now ≡ segment_bases memory.now.sizes }
    requires there { at.seg < length memory.now.sizes }
    requires before { cells.old.items ≡ cells_before memory.now at }
    ensures { OnOk result (cells.new.items ≡ cells_before memory.now (place at.seg (at.off + 1))) }
{
    if let Some(value) = memory.get(at) {
        cells.push(Pair {
            addr: address_at(bases, at),
            value: relocate_value(bases, value),
        })?;
    }
    Ok(())
}

/// The addresses of the cells that are shown.
fn shown_addresses(
    alloc: Global,
    bases: &[u64],
    builtins: Builtins,
) -> Result<Vec<Felt>, AllocError>
    requires low { All (λ b. b ≤ total_limit + 1) bases.now }
    requires execution { 1 < length bases.now }
    ensures { (sizes : List ℕ) → bases.now ≡ segment_bases sizes →
        IfOk result (λ list. numbers list.items ≡ map (address sizes) (shown_places builtins)) }
{
    let count = start_stack_length(builtins);
    let mut list = Vec::with_capacity(alloc, count as usize)?;
    for off in 0..count {
        list.push(address_at(bases, stack_place(off)))?;
    }
    Ok(list)
}

/// The place in the execution segment at an offset.
fn stack_place(off: u32) -> Place
    ensures { result ≡ place execution off }
{
    Place {
        seg: EXECUTION,
        off,
    }
}
