//! Numbers of the field, their texts, and the order of cells.
use super::{NO_MEMORY, check_text};
use goldilocks::{Felt, PRIME, Pair, TextFault};
use std::alloc::{AllocError, Global};
use std::process::Abort;

/// p - 1, which is -1 in the field.
const LAST: u64 = 18446744069414584320;

/// The number of the field with this number, which is below p.
fn felt(rt: &impl Abort, number: u64) -> Felt {
    Felt::new(number).expect(rt, "the number is below p")
}

const BELOW_P: &[u64] = &[0, 1, 4294967295, LAST];

const FROM_P_ON: &[u64] = &[
    18446744069414584321,
    18446744069414584322,
    18446744073709551615,
];

#[test]
fn new_takes_the_numbers_below_p(rt: HostRuntime) {
    for number in BELOW_P {
        let found = Felt::new(*number).map(|x| x.get());
        assert!(rt; found == Some(*number), "{number}");
    }
    for number in FROM_P_ON {
        assert!(rt; Felt::new(*number).is_none(), "{number}");
    }
    assert!(rt; PRIME == 18446744069414584321);
}

/// a, b, a + b, a - b, a b
const SUMS_AND_PRODUCTS: &[(u64, u64, u64, u64, u64)] = &[
    (0, 0, 0, 0, 0),
    (1, LAST, 0, 2, LAST),
    (LAST, LAST, 18446744069414584319, 0, 1),
    (0, 1, 1, LAST, 0),
    (4294967296, 4294967296, 8589934592, 0, 4294967295),
    (4294967296, 4294967295, 8589934591, 1, 18446744069414584320),
    (
        18446744065119617024,
        4294967296,
        18446744069414584320,
        18446744060824649728,
        18446744060824649730,
    ),
    (
        1311768467463790320,
        18364758544493064720,
        1229782942542270719,
        1393753992385309921,
        18080541965438139092,
    ),
];

#[test]
fn sums_differences_and_products(rt: HostRuntime) {
    for (a, b, sum, difference, product) in SUMS_AND_PRODUCTS {
        let (x, y) = (felt(&rt, *a), felt(&rt, *b));
        let found = (x.add(y).get(), x.sub(y).get(), x.mul(y).get());
        assert!(rt; found == (*sum, *difference, *product), "{a}, {b}");
        assert!(rt; x.neg().add(x).get() == 0, "{a}");
    }
    assert!(rt; Felt::ZERO.neg().get() == 0);
    assert!(rt; Felt::ONE.neg().get() == LAST);
}

/// A whole number, and what it is modulo p.
const REMAINDERS: &[(u128, u64)] = &[
    (0, 0),
    (18446744069414584320, LAST),
    (18446744069414584321, 0),
    (18446744073709551616, 4294967295),
    (79228162514264337593543950336, LAST),
    (
        170141183460469231731687303715884105728,
        18446744067267100673,
    ),
    (
        340282366920938463463374607431768211455,
        18446744065119617024,
    ),
];

const SIGNED: &[(i64, u64)] = &[
    (0, 0),
    (5, 5),
    (-1, LAST),
    (i64::MIN, 9223372032559808513),
    (i64::MAX, 9223372036854775807),
];

#[test]
fn whole_numbers_modulo_p(rt: HostRuntime) {
    for (number, remainder) in REMAINDERS {
        assert!(rt; Felt::of_u128(*number).get() == *remainder, "{number}");
    }
    for (number, remainder) in SIGNED {
        assert!(rt; Felt::of_signed(*number).get() == *remainder, "{number}");
    }
}

/// A base, an exponent and the power.
const POWERS: &[(u64, u64, u64)] = &[
    (0, 0, 1),
    (0, 7, 0),
    (2, 96, LAST),
    (7, 0, 1),
    (7, 1, 7),
    (7, LAST, 1),
    (7, 9223372034707292160, LAST),
    (7, 9223372036854775808, 1066724758865801085),
    (3, 18446744073709551615, 12845536442210729893),
    (LAST, 18446744073709551615, LAST),
    (1311768467463790320, 65537, 9365596019839068015),
];

/// A number and its inverse.
const INVERSES: &[(u64, Option<u64>)] = &[
    (1, Some(1)),
    (2, Some(9223372034707292161)),
    (3, Some(12297829379609722881)),
    (7, Some(2635249152773512046)),
    (LAST, Some(LAST)),
    (1311768467463790320, Some(14736413637906284881)),
    (0, None),
];

/// A dividend, a divisor and the quotient.
const QUOTIENTS: &[(u64, u64, Option<u64>)] = &[
    (0, 5, Some(0)),
    (LAST, 2, Some(9223372034707292160)),
    (
        1311768467463790320,
        18364758544493064720,
        Some(9676980574641064036),
    ),
    (0, 0, None),
    (5, 0, None),
];

#[test]
fn powers_inverses_and_quotients(rt: HostRuntime) {
    for (base, exponent, power) in POWERS {
        let found = felt(&rt, *base).pow(*exponent).get();
        assert!(rt; found == *power, "{base} to the {exponent}");
    }
    for (number, inverse) in INVERSES {
        let found = felt(&rt, *number).inverse().map(|x| x.get());
        assert!(rt; found == *inverse, "{number}");
    }
    for (a, d, quotient) in QUOTIENTS {
        let found = felt(&rt, *a).div(felt(&rt, *d)).map(|x| x.get());
        assert!(rt; found == *quotient, "{a} by {d}");
    }
}

/// A text, and the number that it is or its fault.
const TEXTS: &[(&[u8], Result<u64, TextFault>)] = &[
    (b"0", Ok(0)),
    (b"7", Ok(7)),
    (b"0007", Ok(7)),
    (b"18446744069414584320", Ok(LAST)),
    (
        b"000000000000000000000000000018446744069414584320",
        Ok(LAST),
    ),
    (b"0x0", Ok(0)),
    (b"0x00ff", Ok(255)),
    (b"0xAbC", Ok(2748)),
    (b"0xFFFFFFFF00000000", Ok(LAST)),
    (b"", Err(TextFault::Empty)),
    (b"0x", Err(TextFault::Empty)),
    (b"0X1", Err(TextFault::BadDigit(1))),
    (b"12a", Err(TextFault::BadDigit(2))),
    (b"0xg", Err(TextFault::BadDigit(2))),
    (b"0x1G2z", Err(TextFault::BadDigit(3))),
    (b"x1", Err(TextFault::BadDigit(0))),
    (b"00x1", Err(TextFault::BadDigit(2))),
    (b"-1", Err(TextFault::BadDigit(0))),
    (b"+1", Err(TextFault::BadDigit(0))),
    (b" 1", Err(TextFault::BadDigit(0))),
    (b"18446744069414584321", Err(TextFault::TooLarge)),
    (b"0xffffffff00000001", Err(TextFault::TooLarge)),
    (b"18446744073709551616", Err(TextFault::TooLarge)),
    (
        b"9999999999999999999999999999999999999999",
        Err(TextFault::TooLarge),
    ),
    (
        b"9999999999999999999999999999999999999999:",
        Err(TextFault::BadDigit(40)),
    ),
];

#[test]
fn texts_are_read(rt: HostRuntime) {
    for (row, (text, want)) in TEXTS.iter().enumerate() {
        let found = Felt::read_text(text).map(|x| x.get());
        assert!(rt; found == *want, "row {row}");
    }
}

/// A fault and its text.
const FAULTS: &[(TextFault, &str)] = &[
    (TextFault::Empty, "Empty"),
    (TextFault::BadDigit(40), "BadDigit 40"),
    (TextFault::TooLarge, "TooLarge"),
];

#[test]
fn faults_of_texts_print(rt: HostRuntime) {
    for (fault, want) in FAULTS {
        check_text(&rt, rt.alloc(), fault, want);
    }
}

/// A number, and what is written of it.
const WRITTEN: &[(u64, &[u8])] = &[
    (0, b"= 0 0x0"),
    (10, b"= 10 0xa"),
    (4294967296, b"= 4294967296 0x100000000"),
    (
        12297829382473034410,
        b"= 12297829382473034410 0xaaaaaaaaaaaaaaaa",
    ),
    (LAST, b"= 18446744069414584320 0xffffffff00000000"),
];

/// What is written of a number, behind a text that is there before.
fn written(alloc: Global, number: Felt) -> Result<Vec<u8>, AllocError> {
    let mut out = b"= ".to_vec(alloc)?;
    number.write_text(alloc, &mut out)?;
    out.push(b' ')?;
    number.write_hex(alloc, &mut out)?;
    Ok(out)
}

#[test]
fn texts_are_written(rt: HostRuntime) {
    for (number, want) in WRITTEN {
        let found = written(rt.alloc(), felt(&rt, *number)).expect(&rt, NO_MEMORY);
        assert!(rt; found.as_slice() == *want, "{number}");
    }
}

#[test]
fn pairs_are_ordered_by_address_and_then_value(rt: HostRuntime) {
    let pair = |addr: u64, value: u64| {
        Some(Pair {
            addr: Felt::new(addr)?,
            value: Felt::new(value)?,
        })
    };
    assert!(rt; pair(1, 9) < pair(2, 0), "by address");
    assert!(rt; pair(1, 2) < pair(1, 9), "by value at one address");
    assert!(rt; pair(1, 9) == pair(1, 9), "the same");
}
