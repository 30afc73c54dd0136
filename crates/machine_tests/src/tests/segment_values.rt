//! Relocatable values, and the memory of a run.
use super::{NO_MEMORY, check_text};
use goldilocks::{Felt, PRIME};
use segments::{
    ArithFault, Place, PutCause, PutFault, SEGMENT_LIMIT, Segments, Value, add_value, div_value,
    mul_value, shift, sub_value,
};
use std::alloc::{AllocError, Global};
use std::process::Abort;

/// A value in plain numbers: a number, or a pointer by its segment and offset.
#[derive(Clone, Copy)]
pub(crate) enum Plain {
    Num(u64),
    Ptr(u32, u32),
}

use Plain::{Num, Ptr};

/// The value of these numbers.
pub(crate) fn value_of(plain: Plain) -> Value {
    match plain {
        Num(number) => Value::Num(Felt::of_u128(u128::from(number))),
        Ptr(seg, off) => Value::Ptr(Place { seg, off }),
    }
}

/// The place with this segment and offset.
pub(crate) fn at(seg: u32, off: u32) -> Place {
    Place { seg, off }
}

/// A function on two values.
#[derive(Clone, Copy)]
enum Operation {
    Add,
    Sub,
    Mul,
    Div,
}

use Operation::{Add, Div, Mul, Sub};

/// The operation, its two values, and the answer.
const ARITHMETIC: &[(Operation, Plain, Plain, Result<Plain, ArithFault>)] = &[
    (Add, Num(5), Num(6), Ok(Num(11))),
    (Add, Num(5), Num(PRIME - 2), Ok(Num(3))),
    (Add, Ptr(1, 5), Num(PRIME - 2), Ok(Ptr(1, 3))),
    (Add, Num(PRIME - 2), Ptr(1, 5), Ok(Ptr(1, 3))),
    (Add, Ptr(1, 1), Num(PRIME - 2), Err(ArithFault::OffsetRange)),
    (Add, Num(PRIME - 2), Ptr(1, 1), Err(ArithFault::OffsetRange)),
    (
        Add,
        Ptr(1, 4294967295),
        Num(1),
        Err(ArithFault::OffsetRange),
    ),
    (Add, Ptr(1, 0), Num(4294967295), Ok(Ptr(1, 4294967295))),
    (Add, Ptr(1, 5), Ptr(1, 5), Err(ArithFault::TwoPointers)),
    (Sub, Num(5), Num(6), Ok(Num(PRIME - 1))),
    (Sub, Ptr(2, 3), Ptr(2, 5), Ok(Num(PRIME - 2))),
    (Sub, Ptr(2, 5), Ptr(2, 3), Ok(Num(2))),
    (Sub, Num(5), Ptr(2, 0), Err(ArithFault::NumberMinusPointer)),
    (Sub, Ptr(1, 0), Ptr(2, 0), Err(ArithFault::OtherSegment)),
    (Sub, Ptr(1, 3), Num(4), Err(ArithFault::OffsetRange)),
    (Sub, Ptr(1, 3), Num(PRIME - 1), Ok(Ptr(1, 4))),
    (Mul, Num(PRIME - 1), Num(PRIME - 1), Ok(Num(1))),
    (Mul, Num(5), Ptr(2, 0), Err(ArithFault::PointerProduct)),
    (Mul, Ptr(2, 0), Num(5), Err(ArithFault::PointerProduct)),
    (Div, Num(6), Num(3), Ok(Num(2))),
    (Div, Num(1), Num(2), Ok(Num(9223372034707292161))),
    (Div, Num(0), Num(5), Ok(Num(0))),
    (Div, Num(6), Num(0), Err(ArithFault::DivByZero)),
    (Div, Ptr(2, 0), Num(0), Err(ArithFault::PointerQuotient)),
    (Div, Num(5), Ptr(2, 0), Err(ArithFault::PointerQuotient)),
];

fn computed(operation: Operation, a: Value, b: Value) -> Result<Value, ArithFault> {
    match operation {
        Add => add_value(a, b),
        Sub => sub_value(a, b),
        Mul => mul_value(a, b),
        Div => div_value(a, b),
    }
}

#[test]
fn sums_differences_products_and_quotients(rt: HostRuntime) {
    for (i, (operation, a, b, want)) in ARITHMETIC.iter().enumerate() {
        let found = computed(*operation, value_of(*a), value_of(*b));
        assert!(rt; found == want.map(value_of), "row {i}");
    }
}

/// An offset, by how much it moves, and the new offset.
const SHIFTS: &[(u32, i16, Option<u32>)] = &[
    (0, -1, None),
    (0, 0, Some(0)),
    (32768, -32768, Some(0)),
    (32767, -32768, None),
    (4294967295, 1, None),
    (4294934528, 32767, Some(4294967295)),
    (4294934529, 32767, None),
];

#[test]
fn places_move(rt: HostRuntime) {
    for (off, by, want) in SHIFTS {
        let found = shift(at(7, *off), *by);
        assert!(rt; found == want.map(|off| at(7, off)), "{off}");
    }
}

/// The order of places: by segment, then by offset.
const ASCENDING: &[(u32, u32)] = &[(0, 0), (0, 4294967295), (1, 0), (1, 1), (2, 0)];

#[test]
fn places_are_ordered_by_segment_and_then_offset(rt: HostRuntime) {
    for pair in ASCENDING.windows(2) {
        let (seg, off) = pair[1];
        assert!(rt; at(pair[0].0, pair[0].1) < at(seg, off), "{seg}");
    }
}

/// A value and its text.
const VALUES: &[(Plain, &str)] = &[
    (Num(PRIME - 1), "18446744069414584320"),
    (Num(0), "0"),
    (Ptr(2, 17), "2:17"),
    (Ptr(0, 4294967295), "0:4294967295"),
];

/// Why a value may not go to a place, in plain numbers.
#[derive(Clone, Copy)]
pub(crate) enum Refusal {
    NoSegment,
    Fixed,
    CellLimit,
    Conflict(Plain),
}

use Refusal::{CellLimit, Conflict, Fixed, NoSegment};

pub(crate) fn cause_of(refusal: Refusal) -> PutCause {
    match refusal {
        NoSegment => PutCause::NoSegment,
        Fixed => PutCause::Fixed,
        CellLimit => PutCause::CellLimit,
        Conflict(kept) => PutCause::Conflict(value_of(kept)),
    }
}

/// A cause and its text.
const PUT_CAUSES: &[(Refusal, &str)] = &[
    (NoSegment, "NoSegment"),
    (Fixed, "Fixed"),
    (CellLimit, "CellLimit"),
    (Conflict(Num(5)), "Conflict 5"),
    (Conflict(Ptr(2, 1)), "Conflict 2:1"),
];

/// A fault of arithmetic and its text.
const FAULTS: &[(ArithFault, &str)] = &[
    (ArithFault::TwoPointers, "TwoPointers"),
    (ArithFault::OffsetRange, "OffsetRange"),
    (ArithFault::NumberMinusPointer, "NumberMinusPointer"),
    (ArithFault::OtherSegment, "OtherSegment"),
    (ArithFault::PointerProduct, "PointerProduct"),
    (ArithFault::PointerQuotient, "PointerQuotient"),
    (ArithFault::DivByZero, "DivByZero"),
];

#[test]
fn values_and_faults_print(rt: HostRuntime) {
    let alloc = rt.alloc();
    for (plain, want) in VALUES {
        check_text(&rt, alloc, &value_of(*plain), want);
    }
    check_text(&rt, alloc, &at(3, 0), "3:0");
    for (refusal, want) in PUT_CAUSES {
        let cause = cause_of(*refusal);
        check_text(&rt, alloc, &cause, want);
        check_text(&rt, alloc, &PutFault::from(cause), want);
    }
    for (fault, want) in FAULTS {
        check_text(&rt, alloc, fault, want);
    }
    check_text(&rt, alloc, &PutFault::from(AllocError), "Memory");
}

/// One call on segments, and its answer.
#[derive(Clone, Copy)]
enum Step {
    /// One more segment, with this number.
    New(u32),
    /// A write to a place, by its segment and offset, and why it is refused.
    Put(u32, u32, Plain, Option<Refusal>),
    Get(u32, u32, Option<Plain>),
    /// So many segments, the first ones of these sizes.
    Sizes(u32, [u32; 3]),
}

use Step::{Get, New, Put, Sizes};

/// Calls on segments of which the first has nine cells, with the numbers 10 to 18.
const CALLS: &[Step] = &[
    Sizes(1, [9, 0, 0]),
    Get(0, 0, Some(Num(10))),
    Get(0, 8, Some(Num(18))),
    Get(0, 9, None),
    Get(1, 0, None),
    Put(1, 0, Num(5), Some(NoSegment)),
    New(1),
    New(2),
    Sizes(3, [9, 0, 0]),
    // past the program, its last word again, and another
    Put(0, 9, Num(5), Some(Fixed)),
    Put(0, 8, Num(18), None),
    Put(0, 8, Num(5), Some(Conflict(Num(18)))),
    Put(0, 8, Ptr(1, 0), Some(Conflict(Num(18)))),
    Get(0, 8, Some(Num(18))),
    Sizes(3, [9, 0, 0]),
    // a pointer into a segment that isn't there, also past the program
    Put(1, 0, Ptr(3, 0), Some(NoSegment)),
    Put(0, 9, Ptr(3, 0), Some(NoSegment)),
    Put(3, 0, Num(5), Some(NoSegment)),
    Sizes(3, [9, 0, 0]),
    // one cell more than there may be, and the last that there may be
    Put(1, 2097143, Num(5), Some(CellLimit)),
    Put(1, 4294967295, Num(5), Some(CellLimit)),
    Get(1, 2097143, None),
    Sizes(3, [9, 0, 0]),
    Put(1, 2097142, Num(5), None),
    Sizes(3, [9, 2097143, 0]),
    Get(1, 2097142, Some(Num(5))),
    Get(1, 2097141, None),
    Put(2, 0, Num(5), Some(CellLimit)),
    Put(0, 9, Num(5), Some(Fixed)),
    Put(1, 0, Ptr(2, 4294967295), None),
    Get(1, 0, Some(Ptr(2, 4294967295))),
    Put(1, 0, Ptr(2, 4294967295), None),
    Put(1, 0, Ptr(2, 7), Some(Conflict(Ptr(2, 4294967295)))),
    Put(1, 0, Num(6), Some(Conflict(Ptr(2, 4294967295)))),
    Sizes(3, [9, 2097143, 0]),
];

/// Compares the number of segments, each size and the total.
fn check_sizes(rt: &impl Abort, s: &Segments, count: u32, want: &[u32; 3]) {
    assert!(rt; s.count() == count, "{count} segments");
    for seg in 0..count.min(3) {
        assert!(rt;
            s.size(seg) == want[seg as usize],
            "{count} segments, size of {seg}"
        );
    }
    let total = want[0] as u64 + want[1] as u64 + want[2] as u64;
    assert!(rt; s.total() as u64 == total, "{count} segments, total");
}

/// One more segment, with this number.
pub(crate) fn add_segment(rt: &impl Abort, alloc: Global, s: &mut Segments, want: u32) {
    assert!(rt; s.count() < SEGMENT_LIMIT);
    assert!(rt; s.add_segment(alloc) == Ok(want), "{want}");
}

/// Makes one call, and compares its answer.
fn make(rt: &impl Abort, alloc: Global, s: &mut Segments, step: Step) {
    match step {
        New(want) => add_segment(rt, alloc, s, want),
        Put(seg, off, value, refusal) => {
            let want = match refusal {
                None => Ok(()),
                Some(refusal) => Err(PutFault::Refused(cause_of(refusal))),
            };
            let answer = s.put(alloc, at(seg, off), value_of(value));
            assert!(rt; answer == want, "{seg}:{off}");
        }
        Get(seg, off, want) => {
            assert!(rt; s.get(at(seg, off)) == want.map(value_of), "{seg}:{off}");
        }
        Sizes(count, want) => check_sizes(rt, s, count, &want),
    }
}

/// Segment 0 with the numbers 10 to 18.
fn nine_words(alloc: Global) -> Result<Segments, AllocError> {
    let word = |number: u128| Felt::of_u128(number);
    let words = [
        word(10),
        word(11),
        word(12),
        word(13),
        word(14),
        word(15),
        word(16),
        word(17),
        word(18),
    ];
    Segments::new(alloc, &words)
}

#[test]
fn cells_are_written_once(rt: HostRuntime) {
    let mut s = nine_words(rt.alloc()).expect(&rt, NO_MEMORY);
    for step in CALLS {
        make(&rt, rt.alloc(), &mut s, *step);
    }
}

/// The last value of what was put and read: two million cells, one after another.
fn fill(alloc: Global, s: &mut Segments, seg: u32) -> Result<Option<Value>, PutFault> {
    for off in 0..2_000_000 {
        let value = Value::Num(Felt::of_u128(u128::from(off)));
        s.put(alloc, at(seg, off), value)?;
    }
    let mut last = None;
    for off in 0..2_000_000 {
        last = s.get(at(seg, off));
    }
    Ok(last)
}

#[test]
fn two_million_cells(rt: HostRuntime) {
    let mut s = nine_words(rt.alloc()).expect(&rt, NO_MEMORY);
    for seg in 1..65538 {
        add_segment(&rt, rt.alloc(), &mut s, seg);
    }
    let last = fill(rt.alloc(), &mut s, 65537);
    assert!(rt; last == Ok(Some(value_of(Num(1999999)))));
    assert!(rt; s.total() == 2000009);
}

/// Puts twenty cells into segment 1, one after another, and answers how many found memory. A cell that finds none isn't
/// there.
fn put_twenty(rt: &impl Abort, alloc: Global, s: &mut Segments) -> u32 {
    for off in 0..20 {
        if let Err(fault) = s.put(alloc, at(1, off), value_of(Ptr(0, off))) {
            assert!(rt; fault == PutFault::Memory, "at {off}");
            assert!(rt; s.get(at(1, off)).is_none(), "at {off}");
            return off;
        }
    }
    20
}

/// The calls that take memory, each of which may find none: then all is as before. `rt try --test --fail-alloc N` lets
/// the Nth allocation fail.
#[test]
fn want_of_memory_changes_nothing(rt: HostRuntime) {
    let Ok(mut s) = nine_words(rt.alloc()) else {
        return;
    };
    assert!(rt; s.count() < SEGMENT_LIMIT);
    if s.add_segment(rt.alloc()).is_err() {
        check_sizes(&rt, &s, 1, &[9, 0, 0]);
        return;
    }
    check_sizes(&rt, &s, 2, &[9, 0, 0]);
    let size = put_twenty(&rt, rt.alloc(), &mut s);
    check_sizes(&rt, &s, 2, &[9, size, 0]);
}
