//! Which equation of the memory columns fails.

ghost use Rattle.std.specs.Prelude.{◌≡◌, ◌<◌, ◌↔◌, IfOk, IfSome, IsNone, length, option_map};
ghost use Rattle.goldilocks.specs.Field.{prime};
ghost use Rattle.sorted_lists.specs.Climbing.{first_between};
ghost use Rattle.memory_columns.specs.Equations.{pair_fault, fault_at, first_memory_fault, M1, M2, M3, IsFirstFault};
ghost use Rattle.memory_columns.specs.OneMemory.{AreOneMemory};

use crate::ListFault;
use goldilocks::Pair;
use sorted_lists::{climbs, order_difference};
use std::alloc::{AllocError, Global};

/// The first failure of M1 and M2, by row and then by number, or else that of M3; `None` exactly where none fails.
///
/// The accesses contain the fillers. Where none fails and `sorted` is shorter than p, the accesses are to one read-only
/// memory: the one that [`MemoryColumns::read`](crate::MemoryColumns::read) reads off the sorted pairs.
pub fn memory_fault(
    alloc: Global,
    accesses: Vec<Pair>,
    sorted: &[Pair],
) -> Result<Option<ListFault>, AllocError>
    ensures fault { IfOk result (λ fault. fault ≡ first_memory_fault accesses.items sorted.now) }
    ensures none { IfOk result (λ fault. IsNone fault ↔ (M1 sorted.now × M2 sorted.now × M3 accesses.items sorted.now)) }
    ensures first { IfOk result (λ fault. IfSome fault (IsFirstFault accesses.items sorted.now)) }
    ensures one_memory { IfOk result (λ fault. IsNone fault → length sorted.now < prime → AreOneMemory accesses.items sorted.now) }
{
    if let Some(fault) = neighbours_fault(sorted) {
        return Ok(Some(fault));
    }
    let place = order_difference(alloc, accesses, sorted)?;
    Ok(place.map(|row| ListFault {
        number: 3,
        row: row as u64,
    }))
}

/// The first failure of M1 and M2, by row and then by number.
fn neighbours_fault(sorted: &[Pair]) -> Option<ListFault>
    ensures { result ≡ option_map (λ p. fault_at p.1 p.0) (first_between pair_fault sorted.now) }
{
    for (row, pair) in sorted.windows(2).enumerate() {
        if let Some(number) = pair_fault(pair[0], pair[1]) {
            return Some(ListFault {
                number,
                row: row as u64,
            });
        }
    }
    None
}

/// The lower number of M1 and M2 that fails between two neighbours.
fn pair_fault(pair: Pair, next: Pair) -> Option<u8>
    ensures { result ≡ pair_fault pair next }
{
    if !climbs(pair.addr, next.addr) {
        Some(1)
    } else if pair.addr == next.addr && pair.value != next.value {
        Some(2)
    } else {
        None
    }
}
