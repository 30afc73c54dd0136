//! The columns of the small values.

ghost use Rattle.std.specs.Prelude.{IsTrue, All};
ghost use Rattle.range_columns.specs.Equations.{IsWithin};

use super::{NO_MEMORY, felt, felts};
use goldilocks::Felt;
use range_columns::{
    LIMB_LIMIT, RangeColumns, RangeRow, limb_fault, range_fault, sort_range, split,
};
use std::alloc::Global;
use std::process::Abort;

/// A number of limbs, a number, and its limbs where it has no more.
type Split = (u8, u64, Option<[u64; 3]>);

const SPLITS: &[Split] = &[
    (3, 0, Some([0, 0, 0])),
    (3, 65535, Some([65535, 0, 0])),
    (3, 65536, Some([0, 1, 0])),
    (3, 0xffff_ffff, Some([65535, 65535, 0])),
    (3, 0x1_0000_0000, Some([0, 0, 1])),
    (3, 0x1234_5678_9abc, Some([0x9abc, 0x5678, 0x1234])),
    (3, 281474976710655, Some([65535, 65535, 65535])),
    (3, 281474976710656, None),
    // 2^48 and three different limbs
    (3, 0x1_1234_5678_9abc, None),
    (3, 18446744069414584320, None),
    (2, 0, Some([0, 0, 0])),
    (2, 5, Some([5, 0, 5])),
    (2, 65535, Some([65535, 0, 65535])),
    (2, 65536, Some([0, 1, 0])),
    (2, 0x5678_9abc, Some([0x9abc, 0x5678, 0x9abc])),
    (2, 0xffff_ffff, Some([65535, 65535, 65535])),
    (2, 0x1_0000_0000, None),
    // 2^32 and two different limbs
    (2, 0x1_5678_9abc, None),
    (2, 281474976710655, None),
    (2, 281474976710656, None),
    (2, 18446744069414584320, None),
    (1, 0, Some([0, 0, 0])),
    (1, 5, Some([5, 5, 5])),
    (1, 65535, Some([65535, 65535, 65535])),
    (1, 65536, None),
    // 2^16 and a limb
    (1, 0x1_9abc, None),
    (1, 0xffff_ffff, None),
    (1, 0x1_0000_0000, None),
    (1, 281474976710655, None),
    (1, 281474976710656, None),
    (1, 18446744069414584320, None),
];

/// The row of a value and its limbs.
fn row(of: &[u64; 4]) -> RangeRow {
    RangeRow {
        value: felt(of[0]),
        l0: felt(of[1]),
        l1: felt(of[2]),
        l2: felt(of[3]),
    }
}

#[test]
fn limbs_of_sixteen_bits(rt: HostRuntime) {
    for (width, number, limbs) in SPLITS {
        assert!(rt; 1 <= *width && *width <= LIMB_LIMIT);
        let found = split(felt(*number), *width);
        let expected = limbs.map(|l| row(&[*number, l[0], l[1], l[2]]));
        assert!(rt; found == expected, "{number} in {width}");
    }
}

/// A row with three different limbs.
const WHOLE: [u64; 4] = [0x1234_5678_9abc, 0x9abc, 0x5678, 0x1234];

/// The same with the limbs in another order.
const TURNED: [u64; 4] = [0x1234_5678_9abc, 0x1234, 0x5678, 0x9abc];

/// The same with the first two limbs in each other's place.
const SWAPPED: [u64; 4] = [0x1234_5678_9abc, 0x5678, 0x9abc, 0x1234];

/// A limb that isn't narrow: 2^32 times 2^32 is 2^32 - 1 modulo p.
const WIDE: [u64; 4] = [4294967295, 0, 0, 4294967296];

/// A value of which only the low 48 bits are those of the limbs.
const HIGH: [u64; 4] = [0x1_1234_5678_9abc, 0x9abc, 0x5678, 0x1234];

/// A value in two limbs, with the first again as the third.
const TWO: [u64; 4] = [0x5678_9abc, 0x9abc, 0x5678, 0x9abc];

/// The same with a third limb of its own.
const TWO_AND_OTHER: [u64; 4] = [0x5678_9abc, 0x9abc, 0x5678, 0x1234];

/// The same with a third limb of 0.
const TWO_AND_NONE: [u64; 4] = [0x5678_9abc, 0x9abc, 0x5678, 0];

/// A second limb that isn't narrow: 2^16 times 2^48 is 2^32 - 1 modulo p.
const WIDE_SECOND: [u64; 4] = [4294967295, 0, 281474976710656, 0];

/// A value in one limb, with the same again as the others.
const ONE: [u64; 4] = [0x9abc, 0x9abc, 0x9abc, 0x9abc];

/// The same with other limbs of their own.
const ONE_AND_OTHERS: [u64; 4] = [0x9abc, 0x9abc, 0x5678, 0x1234];

/// The same with other limbs of 0.
const ONE_AND_NONE: [u64; 4] = [0x9abc, 0x9abc, 0, 0];

/// The first limb isn't the value, but the second is.
const ONE_BEHIND: [u64; 4] = [0x9abc, 0, 0x9abc, 0x9abc];

/// A first limb that isn't narrow.
const WIDE_FIRST: [u64; 4] = [0x5678_9abc, 0x5678_9abc, 0, 0];

/// Only zeros.
const ZEROS: [u64; 4] = [0, 0, 0, 0];

/// A name, rows, and with one, two and three limbs the first row whose value isn't that of its limbs.
type Limbs = (&'static str, &'static [[u64; 4]], [Option<usize>; 3]);

const LIMBS: &[Limbs] = &[
    ("no rows", &[], [None, None, None]),
    ("zeros", &[ZEROS], [None, None, None]),
    ("a whole row", &[WHOLE], [Some(0), Some(0), None]),
    (
        "limbs in another order",
        &[WHOLE, TURNED],
        [Some(0), Some(0), Some(1)],
    ),
    (
        "the first two limbs swapped",
        &[WHOLE, SWAPPED],
        [Some(0), Some(0), Some(1)],
    ),
    (
        "a limb that isn't narrow",
        &[WIDE],
        [Some(0), Some(0), None],
    ),
    (
        "the first of two",
        &[TURNED, TURNED],
        [Some(0), Some(0), Some(0)],
    ),
    (
        "a value above its limbs by 2^48",
        &[WHOLE, HIGH],
        [Some(0), Some(0), Some(1)],
    ),
    ("two limbs", &[TWO], [Some(0), None, Some(0)]),
    (
        "two limbs and another",
        &[TWO, TWO_AND_OTHER],
        [Some(0), None, Some(0)],
    ),
    ("two limbs and 0", &[TWO_AND_NONE], [Some(0), None, None]),
    (
        "a second limb that isn't narrow",
        &[WIDE_SECOND],
        [Some(0), None, None],
    ),
    (
        "two limbs, then three",
        &[TWO, WHOLE],
        [Some(0), Some(1), Some(0)],
    ),
    ("one limb", &[ONE], [None, Some(0), Some(0)]),
    (
        "one limb and others",
        &[ONE, ONE_AND_OTHERS],
        [None, Some(0), Some(0)],
    ),
    ("one limb and 0", &[ONE_AND_NONE], [None, None, None]),
    (
        "one limb behind the first",
        &[ONE, ONE_BEHIND],
        [Some(1), Some(0), Some(0)],
    ),
    (
        "a first limb that isn't narrow",
        &[WIDE_FIRST],
        [None, None, None],
    ),
    (
        "one limb, then two",
        &[ONE, TWO],
        [Some(1), Some(0), Some(0)],
    ),
];

#[test]
fn values_are_those_of_their_limbs(rt: HostRuntime) {
    for (name, of, faults) in LIMBS {
        let mut rows = Vec::new(rt.alloc());
        for values in *of {
            rows.push(row(values)).expect(&rt, NO_MEMORY);
        }
        for width in 1..=LIMB_LIMIT {
            let fault = faults[usize::from(width) - 1];
            assert!(rt; limb_fault(&rows, width) == fault, "{name} in {width}");
        }
    }
}

/// A name, values, the least and the greatest, the fillers, and all of them in order.
type Sorted = (
    &'static str,
    &'static [u64],
    u32,
    u32,
    &'static [u64],
    &'static [u64],
);

const SORTED: &[Sorted] = &[
    ("a value twice", &[5, 8, 5], 5, 8, &[6, 7], &[5, 5, 6, 7, 8]),
    ("one value", &[7], 7, 7, &[], &[7]),
    ("fillers outside", &[6, 5], 4, 7, &[4, 7], &[4, 5, 6, 7]),
    ("exactly one filler", &[7, 5], 5, 7, &[6], &[5, 6, 7]),
];

/// The columns of these values.
fn columns_of(rt: &impl Abort, alloc: Global, values: &[u64], min: u32, max: u32) -> RangeColumns {
    let values = felts(rt, alloc, values);
    assert!(rt; min <= max && max < 65536);
    assert!(rt; all_within(&values, min, max));
    sort_range(alloc, values, min, max).expect(rt, NO_MEMORY)
}

/// Looks at the columns of a row: the fillers, all values in order, and that they meet the equations.
fn check_sorted(rt: &impl Abort, alloc: Global, row: &Sorted) {
    let (name, numbers, min, max, fill, sorted) = *row;
    let columns = columns_of(rt, alloc, numbers, min, max);
    assert!(rt; columns.fill == felts(rt, alloc, fill), "{name}, fillers");
    assert!(rt;
        columns.sorted == felts(rt, alloc, sorted),
        "{name}, sorted"
    );
    let mut all = felts(rt, alloc, numbers);
    all.extend_from_slice(&columns.fill).expect(rt, NO_MEMORY);
    assert!(rt; !columns.sorted.is_empty() && min <= max && max < 65536);
    let fault = range_fault(alloc, all, &columns.sorted, min, max).expect(rt, NO_MEMORY);
    assert!(rt; fault.is_none(), "{name}, the first failure");
}

#[test]
fn fillers_and_sorted_values(rt: HostRuntime) {
    let alloc = rt.alloc();
    for row in SORTED {
        check_sorted(&rt, alloc, row);
    }
    let found = columns_of(&rt, alloc, &[], 3, 4);
    assert!(rt; found.fill == felts(&rt, alloc, &[3, 4]));
    let ends = columns_of(&rt, alloc, &[65535, 0], 0, 65535);
    assert!(rt; ends.fill.len() == 65534);
}

/// Whether all values lie in the range.
#[tactic(auto, unfolding(range_columns::specs::Equations::IsWithin))]
fn all_within(values: &[Felt], min: u32, max: u32) -> bool
    ensures { IsTrue result → All (IsWithin min max) values.now }
{
    values.iter().all(|x| u64::from(min) <= x.number && x.number <= u64::from(max))
}

/// A name, the values, the sorted ones, the least and the greatest, and the number and row of the first failure.
type Fault = (
    &'static str,
    &'static [u64],
    &'static [u64],
    u32,
    u32,
    Option<(u8, u64)>,
);

const FAULTS: &[Fault] = &[
    ("another order", &[7, 5, 6], &[5, 6, 7], 5, 7, None),
    ("one value twice", &[5, 5], &[5, 5], 5, 5, None),
    (
        "the last isn't the greatest",
        &[5, 6, 7],
        &[5, 6, 7],
        5,
        8,
        Some((3, 2)),
    ),
    (
        "the last is above the greatest",
        &[5, 6, 7],
        &[5, 6, 7],
        5,
        6,
        Some((3, 2)),
    ),
    ("other values", &[4, 5], &[5, 5], 5, 5, Some((4, 0))),
    ("one value too many", &[5, 5], &[5], 5, 5, Some((4, 1))),
    ("one value too few", &[5], &[5, 5], 5, 5, Some((4, 1))),
    ("two values too few", &[5], &[5, 5, 5], 5, 5, Some((4, 1))),
    (
        "the first is above the least",
        &[6, 7],
        &[6, 7],
        5,
        7,
        Some((1, 0)),
    ),
    (
        "the first is below the least",
        &[4, 5],
        &[4, 5],
        5,
        5,
        Some((1, 0)),
    ),
    (
        "the first is above the least by 2^32",
        &[4294967301],
        &[4294967301],
        5,
        5,
        Some((1, 0)),
    ),
    ("a jump by 2", &[5, 7], &[5, 7], 5, 7, Some((2, 0))),
    ("a step down", &[5, 6, 5], &[5, 6, 5], 5, 5, Some((2, 1))),
    ("a step down to 0", &[1, 0], &[1, 0], 1, 1, Some((2, 0))),
    (
        "the step stands before the last",
        &[5, 7],
        &[5, 7],
        5,
        9,
        Some((2, 0)),
    ),
];

#[test]
fn the_first_failure_of_the_range(rt: HostRuntime) {
    for (name, numbers, sorted, min, max, fault) in FAULTS {
        let given = felts(&rt, rt.alloc(), numbers);
        let sorted = felts(&rt, rt.alloc(), sorted);
        assert!(rt; !sorted.is_empty() && *min <= *max && *max < 65536);
        let found = range_fault(rt.alloc(), given, &sorted, *min, *max).expect(&rt, NO_MEMORY);
        assert!(rt; found.map(|f| (f.number, f.row)) == *fault, "{name}");
    }
}
