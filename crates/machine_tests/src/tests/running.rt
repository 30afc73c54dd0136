//! Runs: the first step that isn't the transition.
use super::NO_MEMORY;
use super::stepping::{Answer, Cells, result_of, state};
use Answer::{Next, NoCell, NotEqual};
use casm_word::{State, StepResult, first_refused, step};
use std::alloc::Global;
use std::process::Abort;

/// A program that calls a function and comes back, and the cells that the run has.
const CELLS: &[(u64, u64)] = &[
    (1, 0x40780017fff7fff),
    (2, 0),
    (3, 0x1104800180018000),
    (4, 4),
    (5, 0x10780017fff7fff),
    (6, 0),
    (7, 0x480680017fff8000),
    (8, 25),
    (9, 0x208b7fff7fff7ffe),
    (10, 12),
    (11, 0),
    (12, 12),
    (13, 5),
    (14, 25),
];

/// The states of the run: pc, ap and fp.
const RUN: &[(u64, u64, u64)] = &[
    (1, 12, 12),
    (3, 12, 12),
    (7, 14, 14),
    (9, 15, 14),
    (5, 15, 12),
];

#[test]
fn steps_of_a_run(rt: HostRuntime) {
    for pair in RUN.windows(2) {
        let (pc, ap, fp) = pair[1];
        let found = step(&Cells(CELLS), state(pair[0]));
        assert!(rt; found == result_of(Next(pc, ap, fp)), "{pc}");
    }
}

/// A name, the states of a list, and the first step that is refused with what comes in its place.
type Refusal = (
    &'static str,
    &'static [(u64, u64, u64)],
    Option<(usize, Answer)>,
);

const REFUSALS: &[Refusal] = &[
    (
        "the run",
        &[
            (1, 12, 12),
            (3, 12, 12),
            (7, 14, 14),
            (9, 15, 14),
            (5, 15, 12),
        ],
        None,
    ),
    (
        "another last state",
        &[
            (1, 12, 12),
            (3, 12, 12),
            (7, 14, 14),
            (9, 15, 14),
            (5, 15, 14),
        ],
        Some((3, Next(5, 15, 12))),
    ),
    (
        "another second state",
        &[
            (1, 12, 12),
            (3, 13, 12),
            (7, 14, 14),
            (9, 15, 14),
            (5, 15, 12),
        ],
        Some((0, Next(3, 12, 12))),
    ),
    (
        "two wrong states",
        &[
            (1, 12, 12),
            (3, 12, 12),
            (8, 14, 14),
            (9, 15, 14),
            (5, 15, 14),
        ],
        Some((1, Next(7, 14, 14))),
    ),
    (
        "no cell at the first pc",
        &[
            (20, 12, 12),
            (3, 12, 12),
            (7, 14, 14),
            (9, 15, 14),
            (5, 15, 12),
        ],
        Some((0, NoCell(20))),
    ),
    (
        "an assertion that doesn't hold",
        &[
            (7, 13, 14),
            (9, 14, 14),
            (5, 14, 12),
            (5, 14, 12),
            (5, 14, 12),
        ],
        Some((0, NotEqual)),
    ),
    ("no state", &[], None),
    ("one state", &[(1, 12, 12)], None),
];

/// The states with these registers.
fn states_of(rt: &impl Abort, alloc: Global, registers: &[(u64, u64, u64)]) -> Vec<State> {
    let mut states = Vec::new(alloc);
    for one in registers {
        states.push(state(*one)).expect(rt, NO_MEMORY);
    }
    states
}

#[test]
fn the_first_refused_step(rt: HostRuntime) {
    for (name, registers, wanted) in REFUSALS {
        let states = states_of(&rt, rt.alloc(), registers);
        let found: Option<(usize, StepResult)> = first_refused(&Cells(CELLS), &states);
        let wanted = wanted.map(|refused| (refused.0, result_of(refused.1)));
        assert!(rt; found == wanted, "{name}");
    }
}
