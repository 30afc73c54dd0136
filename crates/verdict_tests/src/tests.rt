//! Runs from outside with small changes: the tables that are built of them, and the verdict on their tables.

ghost use Rattle.std.specs.Prelude.{◌≡◌, ◌%◌, IsTrue};
ghost use Rattle.std.specs.List.Sorted.{IsStrictlyIncreasing};
ghost use Rattle.goldilocks.specs.Field.{prime};
ghost use Rattle.goldilocks.specs.Cells.{addresses};
ghost use Rattle.public_input.specs.Valid.{IsValid};

mod building;
mod changes;
mod checking;
mod runs;
mod stating;

use casm_word::State;
use goldilocks::{Felt, PRIME, Pair};
use program_file::{Builtins, Program};
use public_input::Public;
use runs::{Part, Run};
use std::alloc::Global;
use std::process::Abort;
use table_file::{Tables, read};

/// What a test says that finds no memory.
const NO_MEMORY: &str = "no memory";

/// A run with its tables. The program is made of its words and places where it is taken.
#[derive(Drop)]
struct Files {
    words: Vec<Felt>,
    places: (u32, u32),
    public: Public,
    states: Vec<State>,
    cells: Vec<Pair>,
    tables: Tables,
}

/// A number of the field.
fn felt(number: u64) -> Felt
    ensures { result.number ≡ number % prime }
{
    Felt {
        number: number % PRIME,
    }
}

/// The cell of these numbers.
fn pair(numbers: (u64, u64)) -> Pair {
    Pair {
        addr: felt(numbers.0),
        value: felt(numbers.1),
    }
}

/// The state of these numbers.
fn state(numbers: (u64, u64, u64)) -> State {
    State {
        pc: felt(numbers.0),
        ap: felt(numbers.1),
        fp: felt(numbers.2),
    }
}

fn felts(rt: &impl Abort, alloc: Global, numbers: &[u64]) -> Vec<Felt> {
    let mut felts = Vec::new(alloc);
    for number in numbers {
        felts.push(felt(*number)).expect(rt, NO_MEMORY);
    }
    felts
}

fn pairs(rt: &impl Abort, alloc: Global, numbers: &[(u64, u64)]) -> Vec<Pair> {
    let mut pairs = Vec::new(alloc);
    for cell in numbers {
        pairs.push(pair(*cell)).expect(rt, NO_MEMORY);
    }
    pairs
}

fn states(rt: &impl Abort, alloc: Global, numbers: &[(u64, u64, u64)]) -> Vec<State> {
    let mut states = Vec::new(alloc);
    for registers in numbers {
        states.push(state(*registers)).expect(rt, NO_MEMORY);
    }
    states
}

/// Puts the bytes of a number behind the others.
fn push_number(rt: &impl Abort, bytes: &mut Vec<u8>, number: u64) {
    bytes
        .extend_from_slice(&number.to_le_bytes())
        .expect(rt, NO_MEMORY);
}

/// The bytes of a tables file with these numbers after its text.
fn bytes_of(rt: &impl Abort, alloc: Global, parts: &[Part]) -> Vec<u8> {
    let mut bytes = Vec::from_slice(alloc, b"CAIROGT1").expect(rt, NO_MEMORY);
    for part in parts {
        match part {
            Part::Numbers(numbers) => {
                for number in *numbers {
                    push_number(rt, &mut bytes, *number);
                }
            }
            Part::Climb(first, end) => {
                for number in *first..*end {
                    push_number(rt, &mut bytes, number);
                }
            }
        }
    }
    bytes
}

/// The public input of the run.
fn public_of(rt: &impl Abort, alloc: Global, run: &Run) -> Public {
    Public {
        steps: run.steps,
        ap_first: felt(run.ends.0),
        ap_last: felt(run.ends.1),
        rc_min: run.limits.0,
        rc_max: run.limits.1,
        range_begin: felt(run.range.0),
        range_count: run.range.1,
        cells: pairs(rt, alloc, run.shown),
    }
}

/// The run of these numbers.
fn files_of(rt: &impl Abort, alloc: Global, run: &Run) -> Files {
    let bytes = bytes_of(rt, alloc, run.tables);
    Files {
        words: felts(rt, alloc, run.words),
        places: run.places,
        public: public_of(rt, alloc, run),
        states: states(rt, alloc, run.states),
        cells: pairs(rt, alloc, run.cells),
        tables: read(alloc, &bytes).expect(rt, "the tables are read"),
    }
}

/// The program of these words.
fn program(rt: &impl Abort, words: Vec<Felt>, places: (u32, u32)) -> Program {
    let builtins = Builtins {
        output: false,
        range: false,
    };
    Program::new(words, places.0, places.1, builtins).expect(rt, "the places are inside")
}

/// Whether the public input is valid.
fn keeps_limits(public: &Public) -> bool
    ensures { IsTrue result → IsValid public.now }
{
    public.steps >= 1
        && public.steps <= 1_048_576
        && public.rc_min <= public.rc_max
        && public.rc_max < 65536
        && public.range_count <= 262_144
        && public.cells.len() <= 262_144
        && ascends(&public.cells)
}

/// Whether the addresses of the cells ascend.
fn ascends(cells: &[Pair]) -> bool
    ensures { IsTrue result → IsStrictlyIncreasing (addresses cells.now) }
{
    for next in 1..cells.len() {
        if cells[next - 1].addr.number >= cells[next].addr.number {
            return false;
        }
    }
    true
}
