//! Public files: their faults, and what is read and written.

use super::NO_MEMORY;
use public_input::{
    PUBLIC_CELL_LIMIT, PUBLIC_LIMIT, Public, PublicFault, RANGE_CELL_LIMIT, SMALL_LIMIT,
    STEP_LIMIT, read, write,
};
use std::alloc::{AllocError, Global};
use std::process::Abort;

/// Files as they are written, the numbers in the order of the fields, and the cells.
const FILES: &[(&str, [u64; 7], &[[u64; 2]])] = &[
    (
        r#"{"ap_first":"0xc","ap_last":"0xf","cells":[["0xa","0xc"],["0xb","0x0"]],"range_begin":"0x0","range_count":0,"rc_max":32769,"rc_min":32766,"steps":4}"#,
        [4, 12, 15, 32766, 32769, 0, 0],
        &[[10, 12], [11, 0]],
    ),
    (
        r#"{"ap_first":"0x7","ap_last":"0x8","cells":[],"range_begin":"0x0","range_count":0,"rc_max":32769,"rc_min":32767,"steps":1}"#,
        [1, 7, 8, 32767, 32769, 0, 0],
        &[],
    ),
    (
        r#"{"ap_first":"0xb","ap_last":"0xc","cells":[["0x9","0xb"],["0xa","0x0"]],"range_begin":"0x0","range_count":0,"rc_max":32769,"rc_min":32767,"steps":2}"#,
        [2, 11, 12, 32767, 32769, 0, 0],
        &[[9, 11], [10, 0]],
    ),
    (
        r#"{"ap_first":"0x1c","ap_last":"0x61","cells":[["0x1a","0x1c"],["0x1b","0x0"],["0x1c","0x61"],["0x1d","0x62"],["0x5f","0x62"],["0x60","0x76"],["0x61","0x3c475"]],"range_begin":"0x62","range_count":20,"rc_max":61726,"rc_min":0,"steps":109}"#,
        [109, 28, 97, 0, 61726, 98, 20],
        &[
            [26, 28],
            [27, 0],
            [28, 97],
            [29, 98],
            [95, 98],
            [96, 118],
            [97, 246901],
        ],
    ),
    (
        r#"{"ap_first":"0xc","ap_last":"0xf","cells":[["0xa","0xc"],["0xb","0x0"],["0xc","0xf"],["0xe","0x10"],["0xf","0x7"]],"range_begin":"0x0","range_count":0,"rc_max":32769,"rc_min":32767,"steps":4}"#,
        [4, 12, 15, 32767, 32769, 0, 0],
        &[[10, 12], [11, 0], [12, 15], [14, 16], [15, 7]],
    ),
    (
        r#"{"ap_first":"0xc","ap_last":"0xf","cells":[["0xa","0xc"],["0xb","0x0"],["0xc","0xd"]],"range_begin":"0x0","range_count":0,"rc_max":32769,"rc_min":32766,"steps":4}"#,
        [4, 12, 15, 32766, 32769, 0, 0],
        &[[10, 12], [11, 0], [12, 13]],
    ),
    (
        r#"{"ap_first":"0xa","ap_last":"0xd","cells":[["0x8","0xa"],["0x9","0x0"],["0xa","0xd"],["0xc","0xe"]],"range_begin":"0xd","range_count":1,"rc_max":65535,"rc_min":32767,"steps":3}"#,
        [3, 10, 13, 32767, 65535, 13, 1],
        &[[8, 10], [9, 0], [10, 13], [12, 14]],
    ),
    (
        r#"{"ap_first":"0x1c","ap_last":"0x30025","cells":[["0x1a","0x1c"],["0x1b","0x0"],["0x1c","0x30025"],["0x1d","0x30026"],["0x30023","0x30026"],["0x30024","0x40026"],["0x30025","0x30390001"]],"range_begin":"0x30026","range_count":65536,"rc_max":65535,"rc_min":0,"steps":327689}"#,
        [327689, 28, 196645, 0, 65535, 196646, 65536],
        &[
            [26, 28],
            [27, 0],
            [28, 196645],
            [29, 196646],
            [196643, 196646],
            [196644, 262182],
            [196645, 809041921],
        ],
    ),
    (
        r#"{"ap_first":"0x7","ap_last":"0x8","cells":[["0x0","0x5"],["0x6","0x0"]],"range_begin":"0x9","range_count":0,"rc_max":32769,"rc_min":32767,"steps":1}"#,
        [1, 7, 8, 32767, 32769, 9, 0],
        &[[0, 5], [6, 0]],
    ),
    (
        r#"{"ap_first":"0x7","ap_last":"0x8","cells":[],"range_begin":"0xffffffff00000000","range_count":262144,"rc_max":65535,"rc_min":65535,"steps":1048576}"#,
        [1048576, 7, 8, 65535, 65535, 18446744069414584320, 262144],
        &[],
    ),
];

/// The members of a public file, in the order in which their faults count.
const MEMBERS: &[&str] = &[
    r#""steps":4"#,
    r#""ap_first":"0xc""#,
    r#""ap_last":"0xf""#,
    r#""rc_min":32766"#,
    r#""rc_max":32769"#,
    r#""range_begin":"0x0""#,
    r#""range_count":0"#,
    r#""cells":[["0xa","0xc"],["0xb","0x0"]]"#,
];

/// Their keys.
const KEYS: &[&str] = &[
    "steps",
    "ap_first",
    "ap_last",
    "rc_min",
    "rc_max",
    "range_begin",
    "range_count",
    "cells",
];

/// Values that no key may have.
const WRONG_KINDS: &[&str] = &[
    "null",
    "true",
    r#""""#,
    r#""0x""#,
    r#""0xg""#,
    r#""0Xc""#,
    r#""-1""#,
    r#"" 1""#,
    r#""0xffffffff00000001""#,
    "{}",
    "4.0",
    "4e0",
    "-1",
    "-0",
    "18446744073709551616",
];

/// Members after [`MEMBERS`], and how reading ends: `read`, or the fault.
const ENDINGS: &[(&str, &str)] = &[
    (r#""other":[1,{"steps":0}]"#, "read"),
    (r#""steps":0"#, "Range steps"),
    (r#""steps":1"#, "read"),
    (r#""steps" : 1048576"#, "read"),
    (r#""steps":1048577"#, "TooMany"),
    (r#""steps":18446744073709551615"#, "TooMany"),
    (r#""steps":"4""#, "Key steps"),
    (r#""steps":[4]"#, "Key steps"),
    (r#""steps":0,"steps":4"#, "read"),
    (r#""steps":true,"st\u0065ps":1"#, "read"),
    (r#""ap_first":12"#, "Key ap_first"),
    (r#""ap_first":["0xc"]"#, "Key ap_first"),
    (r#""ap_first":"12""#, "read"),
    (r#""ap_first":"0x00C""#, "read"),
    (r#""ap_last":"\u0031""#, "read"),
    (r#""ap_last":"0xffffffff00000000""#, "read"),
    (r#""range_begin":"18446744069414584320""#, "read"),
    (r#""range_begin":"18446744069414584321""#, "Key range_begin"),
    (r#""rc_max":65535"#, "read"),
    (r#""rc_max":65536"#, "Range rc_max"),
    (r#""rc_max":18446744073709551615"#, "Range rc_max"),
    (r#""rc_max":32766"#, "read"),
    (r#""rc_max":32765"#, "Range rc_min"),
    (r#""rc_min":0"#, "read"),
    (r#""rc_min":32769"#, "read"),
    (r#""rc_min":32770"#, "Range rc_min"),
    (r#""rc_min":18446744073709551615"#, "Range rc_min"),
    (r#""range_count":262144"#, "read"),
    (r#""range_count":262145"#, "TooMany"),
    (r#""range_count":18446744073709551615"#, "TooMany"),
    (r#""cells":2"#, "Key cells"),
    (r#""cells":"0xa""#, "Key cells"),
    (r#""cells":{"0":["0xa","0xc"]}"#, "Key cells"),
    (r#""cells":[]"#, "read"),
    (
        r#""cells":[["0xffffffff00000000","0xffffffff00000000"]]"#,
        "read",
    ),
    (r#""cells":[["10","0x00c"],["0xB","0"]]"#, "read"),
    (r#""cells":[7]"#, "Cell 0"),
    (r#""cells":[[]]"#, "Cell 0"),
    (r#""cells":["0xa","0xc"]"#, "Cell 0"),
    (r#""cells":[["0xa"]]"#, "Cell 0"),
    (r#""cells":[["0xa","0xc","0x0"]]"#, "Cell 0"),
    (r#""cells":[[10,"0xc"]]"#, "Cell 0"),
    (r#""cells":[["0xa",12]]"#, "Cell 0"),
    (r#""cells":[["0xffffffff00000001","0xc"]]"#, "Cell 0"),
    (r#""cells":[["0xa","0xffffffff00000001"]]"#, "Cell 0"),
    (r#""cells":[{"0":"0xa","1":"0xc"}]"#, "Cell 0"),
    (r#""cells":[["0xa","0xc"],["0xb"]]"#, "Cell 1"),
    (
        r#""cells":[["0xa","0xc"],["0xb","0x0"],["0xc","0xd","0xe"]]"#,
        "Cell 2",
    ),
    (r#""cells":[["0xa","0xc"],["0xa","0xc"]]"#, "Order 1"),
    (
        r#""cells":[["0xa","0xc"],["0xb","0x0"],["10","0xd"]]"#,
        "Order 2",
    ),
    (
        r#""cells":[["0xa","0xc"],["0xb","0x0"],["0xb","0x0"]]"#,
        "Order 2",
    ),
    // the first fault counts
    (r#""cells":[["0xa","0xc"],["0x9","0xc","0x0"]]"#, "Cell 1"),
    (
        r#""cells":[["0xa","0xc"],["0x9","0xc"],["0x8"]]"#,
        "Order 1",
    ),
    (r#""cells":[["0xa"],["0x9","0xc"],["0x8","0xc"]]"#, "Cell 0"),
    (r#""steps":0,"ap_first":1"#, "Range steps"),
    (r#""ap_first":1,"steps":1048577"#, "TooMany"),
    (r#""rc_min":true,"rc_max":65536"#, "Key rc_min"),
    (r#""rc_min":65537,"rc_max":65536"#, "Range rc_max"),
    (r#""rc_min":65537,"rc_max":4.0"#, "Key rc_max"),
    (r#""rc_min":40000,"range_begin":1"#, "Range rc_min"),
    (r#""range_count":262145,"range_begin":1"#, "Key range_begin"),
    (r#""cells":[7],"range_count":262145"#, "TooMany"),
    // a cell at address 0, and no range cells that begin elsewhere
    (r#""cells":[["0x0","0x7"],["0xb","0x0"]]"#, "read"),
    (r#""cells":[["0xa","0xc"],["0x0","0x0"]]"#, "Order 1"),
    (r#""range_begin":"0x9""#, "read"),
    (
        r#""cells":[["0xa","0xc"],["0xc","0x0"],["0xb","0xd"]]"#,
        "Order 2",
    ),
];

/// Bytes that are no JSON or no object.
const OTHER_BYTES: &[(&[u8], &str)] = &[
    (b"", "Json"),
    (b" \n", "Json"),
    (b"{", "Json"),
    (br#"{"steps":4,}"#, "Json"),
    (br#"{"steps":4} {}"#, "Json"),
    (br#"{"steps":04}"#, "Json"),
    (br#"{'steps':4}"#, "Json"),
    (b"\xff", "Json"),
    (b"{\"other\":\"\xc3\"}", "Json"),
    (b"\xef\xbb\xbf{}", "Json"),
    (br#"{"other":1e400}"#, "Json"),
    (br#"{"other":"\ud800"}"#, "Json"),
    (b"[]", "Key steps"),
    (b"4", "Key steps"),
    (b"null", "Key steps"),
    (br#""steps""#, "Key steps"),
    (br#"[{"steps":4}]"#, "Key steps"),
    (b"{}", "Key steps"),
    (br#"{"Steps":4}"#, "Key steps"),
];

/// How many lists stand in one another, and how reading ends.
const DEPTHS: &[(usize, &str)] = &[(127, "Key steps"), (128, "Json")];

/// How many cells, the last one, and how reading ends.
const COUNTS: &[(usize, &str, &str)] = &[
    (262144, r#"["262144","0"]"#, "read"),
    (262144, r#"["262143","0"]"#, "Order 262143"),
    (262144, r#"["262144"]"#, "Cell 262143"),
    (262145, r#"["262145","0"]"#, "TooMany"),
    (262145, r#"["262145"]"#, "TooMany"),
];

/// How reading ends: `read`, or the fault as it is printed.
fn ending(alloc: Global, bytes: &[u8]) -> Result<String, AllocError> {
    match read(alloc, bytes) {
        Ok(_) => String::from_str(alloc, "read"),
        Err(fault) => fault.to_string(alloc),
    }
}

/// The numbers in the order of the fields.
fn numbers_of(p: &Public) -> [u64; 7] {
    [
        u64::from(p.steps),
        p.ap_first.number,
        p.ap_last.number,
        u64::from(p.rc_min),
        u64::from(p.rc_max),
        p.range_begin.number,
        u64::from(p.range_count),
    ]
}

#[test]
fn files_are_read_and_written(rt: HostRuntime) {
    for (text, numbers, cells) in FILES {
        let p = read(rt.alloc(), text.as_bytes()).expect(&rt, "a public file is read");
        assert!(rt; numbers_of(&p) == *numbers, "{text}, numbers");
        assert!(rt; p.cells.len() == cells.len(), "{text}, how many cells");
        for (cell, numbers) in p.cells.iter().zip(*cells) {
            let found = [cell.addr.number, cell.value.number];
            assert!(rt; found == *numbers, "{text}, cells");
        }
        let out = write(rt.alloc(), &p).expect(&rt, NO_MEMORY);
        assert!(rt; out.as_slice() == text.as_bytes(), "{text}, written");
    }
}

/// Compares how reading ends.
fn check_ending(rt: &impl Abort, alloc: Global, name: &str, bytes: &[u8], wanted: &str) {
    let found = ending(alloc, bytes).expect(rt, NO_MEMORY);
    assert!(rt; found.as_str() == wanted, "{name}");
}

/// These texts, one after another.
fn joined(alloc: Global, texts: &[&str]) -> Result<String, AllocError> {
    let mut all = String::new(alloc);
    for text in texts {
        all.push_str(text)?;
    }
    Ok(all)
}

/// A file of [`MEMBERS`] and then another member. Of equal keys the last one counts.
fn file_with(alloc: Global, last: &str) -> Result<String, AllocError> {
    let mut text = String::from_str(alloc, "{")?;
    for member in MEMBERS {
        text.push_str(member)?;
        text.push_str(",")?;
    }
    text.push_str(last)?;
    text.push_str("}")?;
    Ok(text)
}

/// A file of [`MEMBERS`] but for those from one place up to another.
fn file_without(alloc: Global, from: usize, to: usize) -> Result<String, AllocError> {
    let mut text = String::from_str(alloc, r#"{"end":9"#)?;
    for (place, member) in MEMBERS.iter().enumerate() {
        if place < from || to <= place {
            text.push_str(",")?;
            text.push_str(member)?;
        }
    }
    text.push_str("}")?;
    Ok(text)
}

/// Compares how reading a file ends that has this member last.
fn check_last(rt: &impl Abort, alloc: Global, last: &str, wanted: &str) {
    let text = file_with(alloc, last).expect(rt, NO_MEMORY);
    check_ending(rt, alloc, last, text.as_bytes(), wanted);
}

/// Compares how reading a file ends in which these members are missing.
fn check_missing(rt: &impl Abort, alloc: Global, key: &str, from: usize, to: usize, wanted: &str) {
    let text = file_without(alloc, from, to).expect(rt, NO_MEMORY);
    check_ending(rt, alloc, key, text.as_bytes(), wanted);
}

#[test]
fn each_key_is_there_and_of_its_kind(rt: HostRuntime) {
    let alloc = rt.alloc();
    for (place, key) in KEYS.iter().enumerate() {
        let fault = joined(alloc, &["Key ", key]).expect(&rt, NO_MEMORY);
        // it is missing, alone and with all those after it
        check_missing(&rt, alloc, key, place, place + 1, &fault);
        check_missing(&rt, alloc, key, place, 8, &fault);
        for form in WRONG_KINDS {
            let last = joined(alloc, &["\"", key, "\":", form]).expect(&rt, NO_MEMORY);
            check_last(&rt, alloc, &last, &fault);
        }
    }
}

#[test]
fn members_and_their_endings(rt: HostRuntime) {
    for (last, end) in ENDINGS {
        check_last(&rt, rt.alloc(), last, end);
    }
}

/// As many lists, one in another.
fn nested(alloc: Global, depth: usize) -> Result<Vec<u8>, AllocError> {
    let mut bytes = Vec::new(alloc);
    for _ in 0..depth {
        bytes.push(b'[')?;
    }
    for _ in 0..depth {
        bytes.push(b']')?;
    }
    Ok(bytes)
}

#[test]
fn other_json_and_no_json(rt: HostRuntime) {
    let alloc = rt.alloc();
    for (row, (bytes, end)) in OTHER_BYTES.iter().enumerate() {
        let found = ending(alloc, bytes).expect(&rt, NO_MEMORY);
        assert!(rt; found.as_str() == *end, "row {row}");
    }
    for (depth, end) in DEPTHS {
        let bytes = nested(alloc, *depth).expect(&rt, NO_MEMORY);
        check_ending(&rt, alloc, end, &bytes, end);
    }
}

/// The member `cells` with so many entries, at the addresses from 1 on, of which the last is given.
fn cells(alloc: Global, count: usize, last: &str) -> Result<String, AllocError> {
    let mut text = String::from_str(alloc, r#""cells":["#)?;
    for address in 1..count {
        let entry = format!(in alloc; r#"["{address}","0"],"#)?;
        text.push_str(&entry)?;
    }
    text.push_str(last)?;
    text.push_str("]")?;
    Ok(text)
}

#[test]
fn files_at_the_limit_of_cells(rt: HostRuntime) {
    let alloc = rt.alloc();
    for (count, last, end) in COUNTS {
        let member = cells(alloc, *count, last).expect(&rt, NO_MEMORY);
        let text = file_with(alloc, &member).expect(&rt, NO_MEMORY);
        check_ending(&rt, alloc, last, text.as_bytes(), end);
    }
    let memory = PublicFault::Memory.to_string(alloc).expect(&rt, NO_MEMORY);
    assert!(rt; memory.as_str() == "Memory");
}

#[test]
fn limits_of_public_files(rt: HostRuntime) {
    assert!(rt; STEP_LIMIT == 1048576);
    assert!(rt; RANGE_CELL_LIMIT == 262144);
    assert!(rt; PUBLIC_CELL_LIMIT == 262144);
    assert!(rt; SMALL_LIMIT == 65536);
    assert!(rt; PUBLIC_LIMIT == 33554432);
}
