//! Sorted lists.

ghost use Rattle.std.specs.Prelude.{IsTrue, All, ◌≤◌};
ghost use Rattle.std.specs.List.Sorted.{IsNonDecreasingBy};

use super::{LAST, NO_MEMORY, felt, felts};
use goldilocks::Felt;
use sorted_lists::{climbs, first_difference, gap_count, gaps, order_difference};

/// A number, the next one, and whether that is a climb.
const CLIMBS: &[(u64, u64, bool)] = &[
    (5, 5, true),
    (5, 6, true),
    (5, 7, false),
    (6, 5, false),
    (LAST, LAST, true),
    (LAST, 0, true),
    (LAST, 1, false),
    (0, LAST, false),
    (0, 0, true),
    (1, 0, false),
];

#[test]
fn neighbours_climb_by_zero_or_one(rt: HostRuntime) {
    for (from, to, answer) in CLIMBS {
        assert!(rt; climbs(felt(*from), felt(*to)) == *answer, "{from} {to}");
    }
}

/// Two lists, where they differ as they are, and where they differ in order.
type Difference = (&'static [u64], &'static [u64], Option<usize>, Option<usize>);

const DIFFERENCES: &[Difference] = &[
    (&[], &[], None, None),
    (&[7], &[], Some(0), Some(0)),
    (&[], &[7], Some(0), Some(0)),
    (&[3, 1, 2], &[1, 2, 3], Some(0), None),
    (&[1, 2, 3], &[3, 1, 2], Some(0), None),
    (&[1, 1, 2], &[1, 2, 2], Some(1), Some(1)),
    (&[1, 2], &[1, 2, 3], Some(2), Some(2)),
    (&[4, 4, 1], &[4, 1], Some(1), Some(2)),
    (&[9, 8], &[8, 7], Some(0), Some(0)),
    (&[2, 5, 9], &[2, 9, 6], Some(1), Some(1)),
    // lengths that differ by two
    (&[1], &[1, 2, 3], Some(1), Some(1)),
    (&[1, 2, 3], &[1], Some(1), Some(1)),
    (&[4, 1, 4, 4], &[4, 1], Some(2), Some(2)),
];

#[test]
fn lists_are_compared_in_order(rt: HostRuntime) {
    for (row, (left, right, as_they_are, in_order)) in DIFFERENCES.iter().enumerate() {
        let found = first_difference(left, right);
        assert!(rt; found == *as_they_are, "row {row}, as they are");
        let left = felts(&rt, rt.alloc(), left);
        let right = felts(&rt, rt.alloc(), right);
        let found = order_difference(rt.alloc(), left, &right).expect(&rt, NO_MEMORY);
        assert!(rt; found == *in_order, "row {row}, in order");
    }
}

/// Keys in order, the least and the greatest number, and the numbers between that are no key.
type Gaps = (&'static [u64], u64, u64, &'static [u64]);

const GAPS: &[Gaps] = &[
    (&[], 3, 5, &[3, 4, 5]),
    (&[], 7, 7, &[7]),
    (&[7], 7, 7, &[]),
    (&[5], 4, 6, &[4, 6]),
    (&[3, 3, 7], 2, 9, &[2, 4, 5, 6, 8, 9]),
    (&[0, 1, 3], 0, 3, &[2]),
    (&[LAST - 2, LAST], LAST - 3, LAST, &[LAST - 3, LAST - 1]),
];

#[test]
fn numbers_that_are_no_key(rt: HostRuntime) {
    for (row, (keys, low, high, between)) in GAPS.iter().enumerate() {
        let items = sorted_values(felts(&rt, rt.alloc(), keys));
        let (low, high) = (felt(*low), felt(*high));
        assert!(rt; low.number <= high.number && all_between(&items, low, high));
        let count = gap_count(&items, low, high);
        assert!(rt; count == between.len() as u64, "row {row}, count");
        let found = gaps(rt.alloc(), &items, low, high).expect(&rt, NO_MEMORY);
        assert!(rt; found == felts(&rt, rt.alloc(), between), "row {row}");
    }
}

#[test]
fn a_hundred_numbers_that_are_no_key(rt: HostRuntime) {
    let none: &[Felt] = &[];
    assert!(rt; gap_count(none, felt(0), felt(99)) == 100);
    let found = gaps(rt.alloc(), none, felt(0), felt(99)).expect(&rt, NO_MEMORY);
    for (number, gap) in found.iter().enumerate() {
        assert!(rt; gap.number == number as u64, "{number}");
    }
    assert!(rt; found.len() == 100);
}

/// The values in order.
fn sorted_values(values: Vec<Felt>) -> Vec<Felt>
    ensures { IsNonDecreasingBy (λ x. x.number) result.items }
{
    let mut ordered = values;
    ordered.sort_unstable();
    ordered
}

/// Whether all values lie from `low` to `high`.
fn all_between(values: &[Felt], low: Felt, high: Felt) -> bool
    ensures { IsTrue result → All (λ x. (low.number ≤ x.number) × (x.number ≤ high.number)) values.now }
{
    values
        .iter()
        .all(|x| low.number <= x.number && x.number <= high.number)
}
