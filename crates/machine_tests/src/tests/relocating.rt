//! Where segments come to lie, and what values are there.
use super::NO_MEMORY;
use super::segment_values::{Plain, add_segment, at, value_of};
use Plain::{Num, Ptr};
use goldilocks::{Felt, PRIME};
use relocation::{bases, relocate_value};
use segments::{Segments, Value};
use std::alloc::{AllocError, Global};
use std::process::Abort;

/// A cell that holds a value, so that segment `seg` has the size `off + 1`.
fn put(rt: &impl Abort, alloc: Global, s: &mut Segments, seg: u32, off: u32) {
    let answer = s.put(alloc, at(seg, off), Value::Num(Felt::ONE));
    assert!(rt; answer.is_ok(), "{seg}:{off}");
}

/// Nine words in segment 0.
fn nine_words(alloc: Global) -> Result<Segments, AllocError> {
    Segments::new(alloc, &[Felt::ONE; 9])
}

/// Compares the bases.
fn check_bases(rt: &impl Abort, alloc: Global, s: &Segments, want: &[u64], name: &str) {
    let found = bases(alloc, s).expect(rt, NO_MEMORY);
    assert!(rt; found.as_slice() == want, "{name}");
}

/// A cell is put at this place, and then the segments have these bases. The sizes are 9, 5, 0 by the last of five cells
/// alone, and then 9, 5, 2.
const PUTS: &[(&str, u32, u32, &[u64])] = &[
    ("1:4", 1, 4, &[1, 10, 15]),
    ("2:1", 2, 1, &[1, 10, 15]),
];

#[test]
fn segments_lie_one_after_another(rt: HostRuntime) {
    let alloc = rt.alloc();
    let mut s = nine_words(alloc).expect(&rt, NO_MEMORY);
    check_bases(&rt, alloc, &s, &[1], "the program");
    add_segment(&rt, alloc, &mut s, 1);
    add_segment(&rt, alloc, &mut s, 2);
    check_bases(&rt, alloc, &s, &[1, 10, 10], "two segments");
    for (name, seg, off, want) in PUTS {
        put(&rt, alloc, &mut s, *seg, *off);
        check_bases(&rt, alloc, &s, want, name);
    }
}

const BASES: &[u64] = &[1, 10, 15, 2097153];

/// A value, and its number where the segments have these bases.
const RELOCATED: &[(Plain, u64)] = &[
    (Num(0), 0),
    (Num(PRIME - 1), PRIME - 1),
    (Ptr(0, 0), 1),
    (Ptr(1, 2), 12),
    (Ptr(2, 0), 15),
    (Ptr(3, 4294967295), 4297064448),
];

#[test]
fn values_relocate(rt: HostRuntime) {
    for (plain, want) in RELOCATED {
        let value = value_of(*plain);
        if let Value::Ptr(place) = value {
            assert!(rt; (place.seg as usize) < BASES.len());
        }
        assert!(rt; relocate_value(BASES, value).get() == *want, "{want}");
    }
}
