//! JSON values: what stands in them, and what is written of numbers and pairs.

use super::NO_MEMORY;
use goldilocks::{Felt, Pair};
use json::Writer;
use json_fields::{
    felt_at, felt_in, list_at, pair_in, read_json, text_at, whole_at, write_felt, write_felts,
    write_pairs,
};
use serde_json::Value;
use std::alloc::{AllocError, Global};
use std::process::Abort;

/// 127 lists in one another.
const DEEP: &[u8] =
    b"[[[[[[[[[[[[[[[[[[[[[[[[[[[[[[[[[[[[[[[[[[[[[[[[[[[[[[[[[[[[[[[[[[[[[[[[[[[[[[[[[[[[[[[[[[[[[[[[[[[[[[[[[[[[[[[[[[[[[[[[[[[[[[[]]]]]]]]]]]]]]]]]]]]]]]]]]]]]]]]]]]]]]]]]]]]]]]]]]]]]]]]]]]]]]]]]]]]]]]]]]]]]]]]]]]]]]]]]]]]]]]]]]]]]]]]]]]]]]]]]]]]]]]]]]]]]]]";

/// 128 lists in one another.
const TOO_DEEP: &[u8] =
    b"[[[[[[[[[[[[[[[[[[[[[[[[[[[[[[[[[[[[[[[[[[[[[[[[[[[[[[[[[[[[[[[[[[[[[[[[[[[[[[[[[[[[[[[[[[[[[[[[[[[[[[[[[[[[[[[[[[[[[[[[[[[[[[[[]]]]]]]]]]]]]]]]]]]]]]]]]]]]]]]]]]]]]]]]]]]]]]]]]]]]]]]]]]]]]]]]]]]]]]]]]]]]]]]]]]]]]]]]]]]]]]]]]]]]]]]]]]]]]]]]]]]]]]]]]]]]]]]]";

/// Bytes, and whether they are JSON.
const TEXTS: &[(&[u8], bool)] = &[
    (b"{}", true),
    (b" [ 1 , null ]\n", true),
    (b"\"a\"", true),
    (b"", false),
    (b"{", false),
    (b"{} x", false),
    (b"{\"a\":1,}", false),
    (b"{'a':1}", false),
    (b"[01]", false),
    (b"[NaN]", false),
    (b"{\"a\":1e308}", true),
    (b"{\"a\":1e400}", false),
    (b"{\"a\":18446744073709551616}", true),
    (b"\"\\u0031\"", true),
    (b"\"\\ud800\"", false),
    (b"\"\xff\"", false),
    (b"\xef\xbb\xbf{}", false),
    (b"\"\xc3\xa9\"", true),
    (DEEP, true),
    (TOO_DEEP, false),
];

/// Texts, and the whole number at `a`.
const WHOLE_NUMBERS: &[(&str, Option<u64>)] = &[
    (r#"{"a":4}"#, Some(4)),
    (r#"{"a":0}"#, Some(0)),
    (r#"{"a":18446744073709551615}"#, Some(18446744073709551615)),
    (r#"{"a":18446744073709551616}"#, None),
    (r#"{"a":-1}"#, None),
    (r#"{"a":-0}"#, None),
    (r#"{"a":4.0}"#, None),
    (r#"{"a":4e0}"#, None),
    (r#"{"a":"4"}"#, None),
    (r#"{"a":null}"#, None),
    (r#"{"b":4}"#, None),
    (r#"{"a":1,"a":2}"#, Some(2)),
    (r#"{"a":2,"a":null}"#, None),
    (r#"{"\u0061":7}"#, Some(7)),
    ("[4]", None),
    ("4", None),
];

/// Texts, and the text at `a` as it is, and as a number of the field.
const FIELD_TEXTS: &[(&str, Option<&str>, Option<u64>)] = &[
    (r#"{"a":"0x1F"}"#, Some("0x1F"), Some(31)),
    (r#"{"a":"0031"}"#, Some("0031"), Some(31)),
    (r#"{"a":"\u0031"}"#, Some("1"), Some(1)),
    (
        r#"{"a":"0xffffffff00000000"}"#,
        Some("0xffffffff00000000"),
        Some(18446744069414584320),
    ),
    (
        r#"{"a":"18446744069414584321"}"#,
        Some("18446744069414584321"),
        None,
    ),
    (r#"{"a":""}"#, Some(""), None),
    (r#"{"a":"0x"}"#, Some("0x"), None),
    (r#"{"a":"12a"}"#, Some("12a"), None),
    (r#"{"a":"-1"}"#, Some("-1"), None),
    (r#"{"a":31}"#, None, None),
    (r#"{"a":["31"]}"#, None, None),
    (r#"["31"]"#, None, None),
];

/// Texts, and the address and the value that they are.
const PAIRS: &[(&str, Option<(u64, u64)>)] = &[
    (r#"["0xa","12"]"#, Some((10, 12))),
    (r#"["0xa"]"#, None),
    (r#"["0xa","12","13"]"#, None),
    (r#"["0xa",12]"#, None),
    (r#"[10,"12"]"#, None),
    ("[]", None),
    (r#""0xa""#, None),
];

/// The value that a text is.
fn value_of(rt: &impl Abort, alloc: Global, text: &str) -> Value {
    let value = read_json(alloc, text.as_bytes()).expect(rt, NO_MEMORY);
    value.expect(rt, "the text is JSON")
}

/// The number of the field with this number.
fn felt(rt: &impl Abort, number: u64) -> Felt {
    Felt::new(number).expect(rt, "the number is below p")
}

#[test]
fn which_bytes_are_json(rt: HostRuntime) {
    for (row, (bytes, is_json)) in TEXTS.iter().enumerate() {
        let found = read_json(rt.alloc(), bytes).expect(&rt, NO_MEMORY);
        assert!(rt; found.is_some() == *is_json, "row {row}");
    }
}

#[test]
fn whole_numbers_and_equal_keys(rt: HostRuntime) {
    for (text, number) in WHOLE_NUMBERS {
        let top = value_of(&rt, rt.alloc(), text);
        assert!(rt; whole_at(&top, "a") == *number, "{text}");
    }
}

#[test]
fn texts_lists_and_numbers_of_the_field(rt: HostRuntime) {
    for (text, found, number) in FIELD_TEXTS {
        let top = value_of(&rt, rt.alloc(), text);
        let same = text_at(&top, "a") == *found;
        let equal = felt_at(&top, "a").map(|x| x.number) == *number;
        assert!(rt; same && equal, "{text}");
    }
    let top = value_of(&rt, rt.alloc(), r#"{"a":[1,[],null],"b":{}}"#);
    assert!(rt; list_at(&top, "a").map(|entries| entries.len()) == Some(3));
    assert!(rt; list_at(&top, "b").is_none());
    assert!(rt; list_at(&top, "c").is_none());
}

#[test]
fn pairs_and_entries(rt: HostRuntime) {
    for (text, pair) in PAIRS {
        let value = value_of(&rt, rt.alloc(), text);
        let found = pair_in(&value).map(|p| (p.addr.number, p.value.number));
        assert!(rt; found == *pair, "{text}");
    }
    let value = value_of(&rt, rt.alloc(), r#""0x19""#);
    assert!(rt; felt_in(&value).map(|x| x.number) == Some(25));
}

/// What is written of `last`, of two lists of numbers and of two pairs.
fn written(alloc: Global, last: Felt, other: Felt) -> Result<Vec<u8>, AllocError> {
    let mut out = Writer::new(Vec::new(alloc));
    out.begin_array()?;
    write_felt(alloc, &mut out, last)?;
    write_felts(alloc, &mut out, &[Felt::ZERO, other])?;
    write_felts(alloc, &mut out, &[])?;
    let pair = Pair {
        addr: Felt::ONE,
        value: last,
    };
    write_pairs(alloc, &mut out, &[pair, pair])?;
    out.end_array()?;
    Ok(out.into_inner())
}

const WRITTEN: &[u8] =
    b"[\"0xffffffff00000000\",[\"0x0\",\"0xab\"],[],[[\"0x1\",\"0xffffffff00000000\"],[\"0x1\",\"0xffffffff00000000\"]]]";

#[test]
fn what_is_written(rt: HostRuntime) {
    let (last, other) = (felt(&rt, 18446744069414584320), felt(&rt, 171));
    let found = written(rt.alloc(), last, other).expect(&rt, NO_MEMORY);
    assert!(rt; found.as_slice() == WRITTEN);
}
