//! Rows of a run of 2^20 steps, built and checked.
//!
//! The program writes sums, 64 of them in a row, and then jumps back where the last of them isn't 0. The statements are
//! `[ap] = [ap - 1] + [ap - 2]; ap++` and `jmp rel -64 if [ap - 1] != 0`.

ghost use Rattle.std.specs.Prelude.{option_map, slice_get};

use casm_word::{Reads, State, StepResult, step};
use cpu_rows::{Row, build_row, first_fault};
use goldilocks::Felt;
use std::alloc::{AllocError, Global};

/// How many steps the run has.
const STEPS: u32 = 1 << 20;

/// How often all rows are checked.
const CHECKS: u32 = 10;

/// How many sums stand in a row.
const SUMS: i64 = 64;

/// `[ap] = [ap - 1] + [ap - 2]; ap++`
const SUM: u64 = 0x48307ffe7fff8000;

/// `jmp rel imm if [ap - 1] != 0`
const JUMP: u64 = 0x020680017fff7fff;

/// Where the first sum is written: after 66 cells of the program and a 1.
const FIRST_AP: u64 = 68;

/// `states` makes the memory and the states of the run, `build` its rows beside, and `table` keeps them; `check` looks
/// ten times for a row with a fault. Each comes to a number that depends on all of this work.
pub fn work(alloc: Global, task: &str) -> Result<Option<u64>, AllocError> {
    let cells = cells_of_run(alloc)?;
    let states = states_of_run(alloc, &Cells(&cells))?;
    match task {
        "states" => Ok(states.last().map(|state| state.ap.get())),
        "build" => Ok(Some(built(&Cells(&cells), &states))),
        "table" | "check" => {
            let rows = table(alloc, &Cells(&cells), &states)?;
            let last = states.last().copied().unwrap_or(first_state());
            let times = if task == "check" { CHECKS } else { 0 };
            Ok(Some(checked(&rows, last, times)))
        }
        _ => Ok(None),
    }
}

/// A memory by its cells, the one at address 0 first.
#[derive(Clone, Copy)]
struct Cells<'a>(&'a [Felt]);

impl Reads for Cells<'_> {
    ghost cells = { λ m a. option_map (λ x. x.number) (slice_get m.0.now a) };

    fn read(&self, a: Felt) -> Option<Felt> {
        self.0.get(a.number as usize).copied()
    }
}

/// The program, and the sums that it writes.
fn cells_of_run(alloc: Global) -> Result<Vec<Felt>, AllocError> {
    let mut cells = Vec::new(alloc);
    cells.push(Felt::ZERO)?;
    for _ in 0..SUMS {
        cells.push(Felt::of_u128(u128::from(SUM)))?;
    }
    cells.push(Felt::of_u128(u128::from(JUMP)))?;
    cells.push(Felt::of_signed(-SUMS))?;
    cells.push(Felt::ONE)?;
    for _ in 0..STEPS {
        let sum = match cells.as_slice() {
            [.., before, last] => before.add(*last),
            _ => Felt::ONE,
        };
        cells.push(sum)?;
    }
    Ok(cells)
}

fn first_state() -> State {
    let frame = Felt::of_u128(u128::from(FIRST_AP));
    State {
        pc: Felt::ONE,
        ap: frame,
        fp: frame,
    }
}

/// The states of the run.
fn states_of_run(alloc: Global, m: &Cells) -> Result<Vec<State>, AllocError> {
    let mut states = Vec::new(alloc);
    let mut state = first_state();
    for _ in 0..STEPS {
        states.push(state)?;
        let StepResult::Next(next) = step(m, state) else {
            return Ok(states);
        };
        state = next;
    }
    states.push(state)?;
    Ok(states)
}

/// The sum of t1 and res over all rows, modulo 2^64.
fn built(m: &Cells, states: &[State]) -> u64 {
    let mut sum = 0u64;
    for step in states.windows(2) {
        if let [from, to] = step
            && let Some(row) = build_row(m, *from, *to)
        {
            sum = sum.wrapping_add(row.t1.get()).wrapping_add(row.res.get());
        }
    }
    sum
}

/// All rows.
fn table(alloc: Global, m: &Cells, states: &[State]) -> Result<Vec<Row>, AllocError> {
    let mut rows = Vec::new(alloc);
    for step in states.windows(2) {
        if let [from, to] = step
            && let Some(row) = build_row(m, *from, *to)
        {
            rows.push(row)?;
        }
    }
    Ok(rows)
}

/// How many rows stand in front of the first with a fault, each time added.
fn checked(rows: &[Row], last: State, times: u32) -> u64 {
    let mut count = 0u64;
    for _ in 0..times {
        let passed = first_fault(rows, last).map_or(rows.len(), |(place, _)| place);
        count = count.saturating_add(passed as u64);
    }
    count
}
