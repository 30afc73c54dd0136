//! Sorted lists, which the memory and the range columns share: two lists compared once both are in order, and
//! neighbours that go up by 0 or 1 modulo p.
#![tactic(auto)]

ghost use Rattle.std.specs.Prelude.{◌≡◌, ℕ, ◌↔◌, IfOk, IsTrue, position, not};
ghost use Rattle.std.specs.List.{zip};
ghost use Rattle.std.specs.declared.cmp.Ordering.TheVariants.{Equal};
ghost use Rattle.sorted_lists.specs.Order.{in_order};
ghost use Rattle.sorted_lists.specs.Difference.{list_difference};
ghost use Rattle.sorted_lists.specs.Climbing.{climb};

mod counting;
mod keys;
mod laws;

pub use counting::put_in_order;
use counting::same_items;
use goldilocks::Felt;
pub use keys::{Keyed, gap_count, gaps};
pub use laws::{climb_laws, difference_laws, in_order_laws, neighbour_laws};
use std::alloc::{AllocError, Global};

/// Whether `to` is `from` or the number after it, modulo p.
pub fn climbs(from: Felt, to: Felt) -> bool
    ensures { IsTrue result ↔ (climb from.number to.number ≡ 0) }
{
    to.sub(from).number <= 1
}

/// The first place where two lists differ, or the length of the shorter one where all its items are the other's first
/// ones; `None` exactly where they are equal.
pub fn first_difference<T: PartialEq>(left: &[T], right: &[T]) -> Option<usize>
    ensures { result ≡ list_difference T.eq left.now right.now }
{
    let unequal = first_unequal(left, right);
    if unequal.is_none() && left.len() != right.len() {
        Some(left.len().min(right.len()))
    } else {
        unequal
    }
}

/// The first place where both lists have an item and these differ.
fn first_unequal<T: PartialEq>(left: &[T], right: &[T]) -> Option<usize>
    ensures { result ≡ position (λ p. not (T.eq p.0 p.1)) (zip left.now right.now) }
{
    left.iter().zip(right).position(|(x, y)| x != y)
}

/// The first place where two lists differ once both are in order, or the length of the shorter one where all its items
/// are the other's first ones. It is `None` exactly where the ordered lists are equal.
///
/// Items that compare as equal have to be equal. Lists with the same items are mostly known by one count of them. For it
/// memory is taken for a table with no more slots than `right` has items, and want of that is no error. Else both lists
/// are sorted, and then memory is taken only where `right` isn't in order already, for its copy.
pub fn order_difference<T: Ord + Copy + Keyed>(
    alloc: Global,
    mut left: Vec<T>,
    right: &[T],
) -> Result<Option<usize>, AllocError>
    // What compares equal is equal.
    requires { (x y : T) → T.cmp x y ≡ Equal → x ≡ y }
    ensures { IfOk result (λ place. place ≡ list_difference T.eq (in_order T.cmp left.items) (in_order T.cmp right.now)) }
{
    if same_items(alloc, &left, right) {
        return Ok(None);
    }
    left.sort_unstable();
    if right.is_sorted() {
        return Ok(first_difference(&left, right));
    }
    let mut ordered = Vec::from_slice(alloc, right)?;
    ordered.sort_unstable();
    Ok(first_difference(&left, &ordered))
}
