//! Which equation of the range columns fails.

ghost use Rattle.std.specs.Prelude.{◌≡◌, ◌<◌, ◌≤◌, ◌^◌, ◌↔◌, All, IfOk, IfSome, IsNone, length};
ghost use Rattle.goldilocks.specs.Field.{prime};
ghost use Rattle.range_columns.specs.Equations.{q2_fault, first_range_fault, IsWithin, Q1, Q2, Q3, Q4, IsFirstFault};

use crate::RangeFault;
use goldilocks::Felt;
use sorted_lists::{climbs, order_difference};
use std::alloc::{AllocError, Global};

/// The first failure in the order Q1, Q2 by row, Q3, Q4; `None` exactly where none fails.
///
/// The values contain the fillers, `sorted` isn't empty, and `min` <= `max` < 2^16. Where none fails and `sorted` is
/// shorter than p, each value lies from `min` to `max`.
pub fn range_fault(
    alloc: Global,
    values: Vec<Felt>,
    sorted: &[Felt],
    min: u32,
    max: u32,
) -> Result<Option<RangeFault>, AllocError>
    requires sorted_values { 0 < length sorted.now }
    requires range { min ≤ max }
    requires narrow { max < 2 ^ 16 }
    ensures fault { IfOk result (λ fault. fault ≡ first_range_fault values.items sorted.now min max) }
    ensures none { IfOk result (λ fault. IsNone fault ↔ (Q1 sorted.now min × Q2 sorted.now × Q3 sorted.now max × Q4 values.items sorted.now)) }
    ensures first { IfOk result (λ fault. IfSome fault (IsFirstFault values.items sorted.now min max)) }
    ensures within { IfOk result (λ fault. IsNone fault → length sorted.now < prime → All (IsWithin min max) values.items) }
{
    if sorted[0].number != u64::from(min) {
        return Ok(Some(RangeFault { number: 1, row: 0 }));
    }
    if let Some(fault) = step_fault(sorted) {
        return Ok(Some(fault));
    }
    let last = sorted.len() - 1;
    if sorted[last].number != u64::from(max) {
        return Ok(Some(RangeFault {
            number: 3,
            row: last as u64,
        }));
    }
    let place = order_difference(alloc, values, sorted)?;
    Ok(place.map(|row| RangeFault {
        number: 4,
        row: row as u64,
    }))
}

/// The first failure of Q2.
fn step_fault(sorted: &[Felt]) -> Option<RangeFault>
    ensures { result ≡ q2_fault sorted.now }
{
    for (row, pair) in sorted.windows(2).enumerate() {
        if !climbs(pair[0], pair[1]) {
            return Some(RangeFault {
                number: 2,
                row: row as u64,
            });
        }
    }
    None
}
