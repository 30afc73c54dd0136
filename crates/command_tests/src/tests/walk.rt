//! `walk` over traces and memories: legal runs, refused steps, and files that spell nothing or are too long.

use super::contents::Bytes::{First, Long, Numbers};
use super::steps::STEPS;
use super::{MEMORY, Row, TRACE, WALK, check_call, check_rows, store_of};
use cairo_commands::Status;
use cairo_commands::Status::{Done, Input, Limit, Refused};
use goldilocks::PRIME;

/// What is tried, the numbers of both files, the status and the line.
pub type Walked = (
    &'static str,
    &'static [u64],
    &'static [u64],
    Status,
    &'static str,
);

/// Numbers of both files that spell nothing, or just something, and what is answered.
const NUMBERS: &[Walked] = &[
    (
        "p as ap",
        &[PRIME, 12, 1, 12, 12, 3],
        MEMORY,
        Input,
        "input 1: NotField 0\n",
    ),
    (
        "p as fp",
        &[12, PRIME, 1, 12, 12, 3],
        MEMORY,
        Input,
        "input 1: NotField 8\n",
    ),
    (
        "p as the last pc",
        &[12, 12, 1, 12, 12, PRIME],
        MEMORY,
        Input,
        "input 1: NotField 40\n",
    ),
    (
        "2^64 - 1",
        &[u64::MAX, 12, 1, 12, 12, 3],
        MEMORY,
        Input,
        "input 1: NotField 0\n",
    ),
    (
        "p as address",
        TRACE,
        &[PRIME, 1],
        Input,
        "input 2: NotField 0\n",
    ),
    (
        "p as value",
        TRACE,
        &[1, 0x0407_8001_7fff_7fff, 2, PRIME],
        Input,
        "input 2: NotField 24\n",
    ),
    (
        "descending addresses",
        TRACE,
        &[1, 0, 3, 0, 2, 0],
        Input,
        "input 2: Order 32\n",
    ),
    (
        "equal addresses",
        TRACE,
        &[1, 0, 1, 0],
        Input,
        "input 2: Order 16\n",
    ),
    (
        "nothing in both",
        &[PRIME, 12, 1],
        &[2, 0, 1, 0],
        Input,
        "input 1: Length\n",
    ),
    (
        "p - 1 as address and value",
        TRACE,
        &[0, PRIME - 1, PRIME - 1, PRIME - 1],
        Refused,
        "walk: refused at step 0: NoCell 1\n",
    ),
    (
        "p - 1 as a register",
        &[0, PRIME - 1, PRIME - 1, 0, 0, 0],
        MEMORY,
        Refused,
        "walk: refused at step 0: NoCell 18446744069414584320\n",
    ),
];

/// How many bytes of a run's two files are there, and what is answered.
const LENGTHS: &[Row] = &[
    (
        "the whole run",
        &[First(TRACE, 120), First(MEMORY, 224)],
        Done,
        "walk: 4 steps\n",
    ),
    (
        "a byte cut",
        &[First(TRACE, 119), First(MEMORY, 224)],
        Input,
        "input 1: Length\n",
    ),
    (
        "a state cut",
        &[First(TRACE, 96), First(MEMORY, 224)],
        Done,
        "walk: 3 steps\n",
    ),
    (
        "two states",
        &[First(TRACE, 48), First(MEMORY, 224)],
        Done,
        "walk: 1 steps\n",
    ),
    (
        "two states but a byte",
        &[First(TRACE, 47), First(MEMORY, 224)],
        Input,
        "input 1: Length\n",
    ),
    (
        "one state",
        &[First(TRACE, 24), First(MEMORY, 224)],
        Input,
        "input 1: Length\n",
    ),
    (
        "one byte",
        &[First(TRACE, 1), First(MEMORY, 224)],
        Input,
        "input 1: Length\n",
    ),
    (
        "no byte",
        &[First(TRACE, 0), First(MEMORY, 224)],
        Input,
        "input 1: Length\n",
    ),
    (
        "a memory with a byte cut",
        &[First(TRACE, 120), First(MEMORY, 223)],
        Input,
        "input 2: Length\n",
    ),
    (
        "a memory with a cell cut",
        &[First(TRACE, 120), First(MEMORY, 208)],
        Refused,
        "walk: refused at step 2: NoCell 14\n",
    ),
    (
        "half a cell",
        &[First(TRACE, 120), First(MEMORY, 8)],
        Input,
        "input 2: Length\n",
    ),
    (
        "an empty memory",
        &[First(TRACE, 120), First(MEMORY, 0)],
        Refused,
        "walk: refused at step 0: NoCell 1\n",
    ),
    (
        "both cut",
        &[First(TRACE, 0), First(MEMORY, 223)],
        Input,
        "input 1: Length\n",
    ),
];

/// Legal runs and refused steps, and numbers that spell nothing, or just something.
const WALKS: &[&[Walked]] = &[STEPS, NUMBERS];

#[test]
fn runs_are_walked(rt: HostRuntime) {
    for walks in WALKS {
        for (row, trace, memory, status, line) in *walks {
            let files = [Numbers(trace), Numbers(memory)];
            let mut store = store_of(&rt, rt.alloc(), WALK, &files, &[]);
            check_call(&rt, rt.alloc(), row, WALK, &mut store, (*status, line));
        }
    }
}

#[test]
fn lengths_are_told(rt: HostRuntime) {
    check_rows(&rt, rt.alloc(), WALK, LENGTHS);
}

/// `jmp rel 0` at the address 0, which is a step from a state of zeros to itself.
const STAY: &[u64] = &[0, 0x0104_8001_8000_8000, 1, 0];

/// The lengths of a trace of zeros and of a memory of zeros, or of [`STAY`], and what is answered.
const GREAT_LENGTHS: &[Row] = &[
    (
        "the longest trace",
        &[Long(0, 25165848), Numbers(STAY)],
        Done,
        "walk: 1048576 steps\n",
    ),
    (
        "a longer one",
        &[Long(0, 25165849), Numbers(STAY)],
        Limit,
        "limit: input 1\n",
    ),
    (
        "as long as a memory may be",
        &[Long(0, 48), Long(0, 33554432)],
        Input,
        "input 2: Order 16\n",
    ),
    (
        "a longer memory",
        &[Long(0, 48), Long(0, 33554433)],
        Limit,
        "limit: input 2\n",
    ),
];

#[test]
fn limits_are_kept(rt: HostRuntime) {
    check_rows(&rt, rt.alloc(), WALK, GREAT_LENGTHS);
}
