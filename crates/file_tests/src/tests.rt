//! Tables of files. What they hold and what is wrong with them was computed outside, from the table of the files.

mod cells;
mod memories;
mod records;
mod tables;
mod traces;

use goldilocks::{Felt, PRIME, Pair};
use std::alloc::Global;
use std::process::Abort;

/// p - 1.
const LAST: u64 = PRIME - 1;

/// What a test says that finds no memory.
const NO_MEMORY: &str = "no memory";

/// Puts the bytes of these numbers behind the others.
fn push_numbers(rt: &impl Abort, bytes: &mut Vec<u8>, numbers: &[u64]) {
    for number in numbers {
        bytes
            .extend_from_slice(&number.to_le_bytes())
            .expect(rt, NO_MEMORY);
    }
}

/// The bytes of these numbers, cut to so many.
fn bytes_of(rt: &impl Abort, alloc: Global, numbers: &[u64], size: usize) -> Vec<u8> {
    let mut bytes = Vec::new(alloc);
    push_numbers(rt, &mut bytes, numbers);
    bytes.truncate(size);
    bytes
}

/// So many zero bytes.
fn zeros(rt: &impl Abort, alloc: Global, size: usize) -> Vec<u8> {
    vec![in alloc; 0u8; size].expect(rt, NO_MEMORY)
}

/// The pairs with these addresses and values.
fn pairs_of(rt: &impl Abort, alloc: Global, numbers: &[(u64, u64)]) -> Vec<Pair> {
    let mut pairs = Vec::new(alloc);
    for (addr, value) in numbers {
        let addr = Felt::new(*addr).expect(rt, "the address is below p");
        let value = Felt::new(*value).expect(rt, "the value is below p");
        pairs.push(Pair { addr, value }).expect(rt, NO_MEMORY);
    }
    pairs
}
