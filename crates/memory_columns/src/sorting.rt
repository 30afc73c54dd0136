//! The columns of given accesses: the fillers between them, and all of them in order.

ghost use Rattle.std.specs.Prelude.{◌≡◌, ◌+◌, ◌-◌, ◌<◌, ◌≤◌, ◌++◌, All, IfOk, IfErr, None, length, map};
ghost use Rattle.std.specs.Vec.{vec_len};
ghost use Rattle.std.specs.List.Sorted.{IsNonDecreasingBy};
ghost use Rattle.sorted_lists.specs.Order.{in_order};
ghost use Rattle.memory_columns.specs.Equations.{pair_cmp, first_memory_fault};
ghost use Rattle.memory_columns.specs.OneMemory.{OneValueEach};
ghost use Rattle.memory_columns.specs.Filling.{AreFillers, IsCause, filler_limit, filler_at, numbers_of, unaccessed};

use crate::{MemoryColumns, SortFault};
use casm_word::Reads;
use goldilocks::{Felt, Pair};
use sorted_lists::{gap_count, gaps, put_in_order};
use std::alloc::{AllocError, Global};

/// The most fillers, in columns and in a file of tables.
pub const FILLER_LIMIT: u64 = 2097152;

/// The columns of the accesses, of which there has to be one. The fillers are the cells between the least and the
/// greatest accessed address that are never accessed. They go by ascending address, each with the memory's value or 0.
///
/// [`SortFault::TooWide`] exactly where the fillers would be more than 2^21. Before that is known, memory is taken only
/// to put the accesses in order. Want of it there is no error: then they are sorted where they stand.
pub fn sort_columns<M: Reads>(
    alloc: Global,
    accesses: Vec<Pair>,
    m: &M,
) -> Result<MemoryColumns, SortFault>
    requires { 0 < vec_len accesses }
    ensures fill { IfOk result (λ c. AreFillers (M.cells m.now) accesses.items c.fill.items) }
    ensures sorted { IfOk result (λ c. c.sorted.items ≡ in_order pair_cmp (accesses.items ++ c.fill.items)) }
    ensures room { IfOk result (λ c. length c.fill.items ≤ filler_limit) }
    ensures cause { IfErr result (IsCause accesses.items) }

    // What is made has no fault, where the accesses are to one memory.
    ensures no_fault { IfOk result (λ c. OneValueEach accesses.items →
        first_memory_fault (accesses.items ++ c.fill.items) c.sorted.items ≡ None) }
{
    let sorted = put_in_order(alloc, accesses);
    let least = sorted[0].addr;
    let greatest = sorted[sorted.len() - 1].addr;
    let count = gap_count(&sorted, least, greatest);
    if count > FILLER_LIMIT {
        return Err(SortFault::TooWide { least, greatest });
    }
    if count == 0 {
        let fill = Vec::new(alloc);
        return Ok(MemoryColumns { fill, sorted });
    }
    Ok(filled(alloc, sorted, least, greatest, m)?)
}

/// The columns of ordered accesses from `least` to `greatest`.
fn filled<M: Reads>(
    alloc: Global,
    ordered: Vec<Pair>,
    least: Felt,
    greatest: Felt,
    m: &M,
) -> Result<MemoryColumns, AllocError>
    requires range { least.number ≤ greatest.number }
    requires ascends { IsNonDecreasingBy (λ x. x.addr.number) ordered.items }
    requires within { All (λ x. (least.number ≤ x.addr.number) × (x.addr.number ≤ greatest.number)) ordered.items }
    ensures fill { IfOk result (λ c. map numbers_of c.fill.items
        ≡ map (filler_at (M.cells m.now)) (unaccessed ordered.items least.number greatest.number)) }
    ensures sorted { IfOk result (λ c. c.sorted.items ≡ in_order pair_cmp (ordered.items ++ c.fill.items)) }
{
    let addresses = gaps(alloc, &ordered, least, greatest)?;
    let fill = fillers(alloc, &addresses, m)?;
    let mut sorted = ordered;
    sorted.extend_from_slice(&fill)?;
    sorted.sort()?;
    Ok(MemoryColumns { fill, sorted })
}

/// The cells that fill the addresses, with the memory's values or 0.
fn fillers<M: Reads>(alloc: Global, addresses: &[Felt], m: &M) -> Result<Vec<Pair>, AllocError>
    ensures { IfOk result (λ fill. map numbers_of fill.items ≡ map (λ a. filler_at (M.cells m.now) a.number) addresses.now) }
{
    let mut fill = Vec::with_capacity(alloc, addresses.len())?;
    for addr in addresses {
        fill.push(filler_at(*addr, m))?;
    }
    Ok(fill)
}

/// The cell that fills an address, with the memory's value or 0.
fn filler_at<M: Reads>(addr: Felt, m: &M) -> Pair
    ensures { numbers_of result ≡ filler_at (M.cells m.now) addr.number }
{
    let value = m.read(addr).unwrap_or(Felt::ZERO);
    Pair { addr, value }
}
