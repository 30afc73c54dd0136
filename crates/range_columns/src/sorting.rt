//! The columns of given values: the fillers between them, and all of them in order.

ghost use Rattle.std.specs.Prelude.{◌≡◌, ◌<◌, ◌≤◌, ◌^◌, ◌++◌, All, IfOk, None};
ghost use Rattle.goldilocks.specs.Felts.{numbers};
ghost use Rattle.sorted_lists.specs.Order.{in_order};
ghost use Rattle.range_columns.specs.Equations.{felt_cmp, first_range_fault, IsWithin};
ghost use Rattle.range_columns.specs.Filling.{absent_values};

use crate::RangeColumns;
use goldilocks::Felt;
use sorted_lists::gaps;
use std::alloc::{AllocError, Global};

/// The columns of the values: the fillers are the numbers from `min` to `max` that are absent, ascending.
///
/// `min` <= `max` < 2^16, and all values lie between.
pub fn sort_range(
    alloc: Global,
    values: Vec<Felt>,
    min: u32,
    max: u32,
) -> Result<RangeColumns, AllocError>
    requires range { min ≤ max }
    requires narrow { max < 2 ^ 16 }
    requires within { All (IsWithin min max) values.items }
    ensures fill { IfOk result (λ c. numbers c.fill.items ≡ absent_values values.items min max) }
    ensures sorted { IfOk result (λ c. c.sorted.items ≡ in_order felt_cmp (values.items ++ c.fill.items)) }

    // What is made has no fault.
    ensures no_fault { IfOk result (λ c. first_range_fault (values.items ++ c.fill.items) c.sorted.items min max ≡ None) }
{
    let low = Felt {
        number: u64::from(min),
    };
    let high = Felt {
        number: u64::from(max),
    };
    let mut sorted = values;
    sorted.sort_unstable();
    let fill = gaps(alloc, &sorted, low, high)?;
    sorted.extend_from_slice(&fill)?;
    sorted.sort()?;
    Ok(RangeColumns { fill, sorted })
}
