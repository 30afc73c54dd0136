//! Expected values are worked by hand, or were made by another program.

ghost use Rattle.std.specs.Prelude.{◌≡◌, ◌%◌};
ghost use Rattle.goldilocks.specs.Field.{prime};

mod counting;
mod lists;
mod memory;
mod range;
mod rows;
mod sorted;
mod worked_rows;

use goldilocks::{Felt, PRIME, Pair};
use std::alloc::Global;
use std::process::Abort;

/// What a test says that finds no memory.
const NO_MEMORY: &str = "no memory";

/// p - 1.
const LAST: u64 = 18446744069414584320;

/// Addresses with values.
type Cells = &'static [(u64, u64)];

/// The number of the field that a number is modulo p.
fn felt(number: u64) -> Felt
    ensures { result.number ≡ number % prime }
{
    Felt {
        number: number % PRIME,
    }
}

/// The values with these numbers.
fn felts(rt: &impl Abort, alloc: Global, numbers: &[u64]) -> Vec<Felt> {
    let mut felts = Vec::new(alloc);
    for number in numbers {
        felts.push(felt(*number)).expect(rt, NO_MEMORY);
    }
    felts
}

/// The cells with these addresses and values.
fn cells(rt: &impl Abort, alloc: Global, numbers: &[(u64, u64)]) -> Vec<Pair> {
    let mut cells = Vec::new(alloc);
    for (addr, value) in numbers {
        let (addr, value) = (felt(*addr), felt(*value));
        cells.push(Pair { addr, value }).expect(rt, NO_MEMORY);
    }
    cells
}
