//! Sorted columns of 1,400,000 accesses: the fillers and sorted pairs made, and checked.

ghost use Rattle.std.specs.Prelude.{None};

use casm_word::Reads;
use goldilocks::{Felt, Pair};
use memory_columns::{MemoryColumns, memory_fault, sort_columns};
use std::alloc::{AllocError, Global};

/// How many accesses there are.
const ACCESSES: u64 = 1_400_000;

/// How many addresses are accessed, twice each.
const ADDRESSES: u64 = 700_000;

/// `cells` makes the accesses, in no order; `ordered` makes them in order. `sort` and `sort_ordered` make their columns,
/// and `check` looks for a fault in those of `sort`. Each comes to a number that depends on all of this work.
pub fn work(alloc: Global, task: &str) -> Result<Option<u64>, AllocError> {
    let accesses = match task {
        "ordered" | "sort_ordered" => accesses(alloc, 1)?,
        _ => accesses(alloc, 1_000_003)?,
    };
    match task {
        "cells" | "ordered" => Ok(Some(sum_of(&accesses))),
        "sort" | "sort_ordered" => Ok(columns(alloc, accesses)?.map(|c| sum_of(&c.sorted))),
        "check" => {
            let mut all = Vec::from_slice(alloc, &accesses)?;
            let Some(columns) = columns(alloc, accesses)? else {
                return Ok(None);
            };
            all.extend_from_slice(&columns.fill)?;
            let fault = memory_fault(alloc, all, &columns.sorted)?;
            Ok(Some(fault.map_or(sum_of(&columns.sorted), |f| f.row)))
        }
        _ => Ok(None),
    }
}

/// A memory with no cell.
struct Nothing;

impl Reads for Nothing {
    ghost cells = { λ _ _. None };

    fn read(&self, _a: Felt) -> Option<Felt> {
        None
    }
}

/// Accesses to addresses that go up by the step, with every eleventh address left out.
fn accesses(alloc: Global, step: u64) -> Result<Vec<Pair>, AllocError> {
    let mut accesses = Vec::with_capacity(alloc, ACCESSES as usize)?;
    for i in 0..ACCESSES {
        let place = i.wrapping_mul(step) % ADDRESSES;
        let place = if step == 1 { i / 2 } else { place };
        let addr = Felt::of_u128(u128::from(place.wrapping_add(place / 10)));
        let value = addr.mul(addr);
        accesses.push(Pair { addr, value })?;
    }
    Ok(accesses)
}

/// The columns of the accesses.
fn columns(alloc: Global, accesses: Vec<Pair>) -> Result<Option<MemoryColumns>, AllocError> {
    if accesses.is_empty() {
        return Ok(None);
    }
    Ok(sort_columns(alloc, accesses, &Nothing).ok())
}

/// The sum of all addresses and values with their places, modulo 2^64.
fn sum_of(pairs: &[Pair]) -> u64 {
    let mut sum = 0u64;
    for x in pairs {
        sum = sum
            .wrapping_mul(3)
            .wrapping_add(x.addr.number)
            .wrapping_add(x.value.number);
    }
    sum
}
