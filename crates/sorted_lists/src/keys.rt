//! The numbers between ordered items that are the key of none of them.

ghost use Rattle.std.specs.Prelude.{◌≡◌, ◌+◌, ◌-◌, ◌≤◌, ◌++◌, ℕ, All, IfOk, OnOk, length};
ghost use Rattle.std.specs.List.{range_with_len};
ghost use Rattle.std.specs.List.Sorted.{IsNonDecreasingBy};
ghost use Rattle.goldilocks.specs.Field.{prime};
ghost use Rattle.goldilocks.specs.Felts.{numbers};
ghost use Rattle.sorted_lists.specs.Gaps.{gaps_between};

use goldilocks::{Felt, Pair};
use std::alloc::{AllocError, Global};

/// An item with a key, which is a number of the field.
pub trait Keyed {
    ghost use Rattle.std.specs.Prelude.{◌≡◌, ℕ};

    /// The key as a number.
    ghost key: { Self → ℕ };

    /// The key of the item.
    fn key(&self) -> Felt
        ensures { result.number ≡ key self.now };
}

/// The key of a value is the value itself.
impl Keyed for Felt {
    ghost key = { λ x. x.number };

    fn key(&self) -> Felt {
        *self
    }
}

/// The key of a cell is its address.
impl Keyed for Pair {
    ghost key = { λ x. x.addr.number };

    fn key(&self) -> Felt {
        self.addr
    }
}

/// How many numbers from `low` to `high` are no key of the items.
///
/// The keys ascend and lie from `low` to `high`, and `low` is at most `high`.
pub fn gap_count<T: Keyed>(ordered: &[T], low: Felt, high: Felt) -> u64
    requires range { low.number ≤ high.number }
    requires ascends { IsNonDecreasingBy T.key ordered.now }
    requires within { All (λ x. (low.number ≤ T.key x) × (T.key x ≤ high.number)) ordered.now }
    ensures { result ≡ length (gaps_between T.key ordered.now low.number high.number) }
{
    let mut count = 0;
    let mut next = low.number;
    for x in ordered {
        let key = x.key().number;
        count += key.saturating_sub(next);
        next = key + 1;
    }
    count + (high.number + 1 - next)
}

/// The numbers from `low` to `high` that are no key of the items, ascending.
///
/// The keys ascend and lie from `low` to `high`, and `low` is at most `high`.
pub fn gaps<T: Keyed>(
    alloc: Global,
    ordered: &[T],
    low: Felt,
    high: Felt,
) -> Result<Vec<Felt>, AllocError>
    requires range { low.number ≤ high.number }
    requires ascends { IsNonDecreasingBy T.key ordered.now }
    requires within { All (λ x. (low.number ≤ T.key x) × (T.key x ≤ high.number)) ordered.now }
    ensures { IfOk result (λ found. numbers found.items ≡ gaps_between T.key ordered.now low.number high.number) }
{
    let count = gap_count(ordered, low, high);
    let mut found = Vec::with_capacity(alloc, count as usize)?;
    let mut next = low.number;
    for x in ordered {
        let key = x.key().number;
        push_range(&mut found, next, key)?;
        next = key + 1;
    }
    push_range(&mut found, next, high.number + 1)?;
    Ok(found)
}

/// Appends the numbers from `from` on and below `to`.
fn push_range(found: &mut Vec<Felt>, from: u64, to: u64) -> Result<(), AllocError>
    requires { to ≤ prime }
    ensures { OnOk result (numbers found.new.items ≡ numbers found.old.items ++ range_with_len from (to - from)) }
{
    for number in from..to {
        found.push(Felt { number })?;
    }
    Ok(())
}
