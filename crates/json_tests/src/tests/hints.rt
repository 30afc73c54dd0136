//! Hint files: their faults, and what is read and written.

use Held::{Number, Pointer};
use goldilocks::Felt;
use hint_cells::{
    EXTRA_LIMIT, HINT_CELL_LIMIT, HINTS_LIMIT, HintCell, HintFault, Hints, read, write,
};
use segments::{Place, Value};
use std::alloc::{AllocError, Global};
use std::test::Fail;

/// What a cell holds, as a row of a table has it.
#[derive(Clone, Copy)]
enum Held {
    /// This number.
    Number(u64),
    /// A pointer to this segment and offset.
    Pointer(u32, u32),
}

/// A segment, an offset and what the cell there holds.
type Row = (u32, u32, Held);

/// Files, the number of extra segments, the cells, and whether the file is what is written for them.
const FILES: &[(&str, u32, &[Row], bool)] = &[
    (r#"{"cells":[],"extra":0}"#, 0, &[], true),
    (
        r#"{"cells":[[1,30,[0,0]]],"extra":0}"#,
        0,
        &[(1, 30, Pointer(0, 0))],
        true,
    ),
    (
        r#"{"cells":[[2,0,"0x7fff7fff8000"]],"extra":0}"#,
        0,
        &[(2, 0, Number(140735340838912))],
        true,
    ),
    (
        r#"{"cells":[[2,0,"0x800080018002"]],"extra":0}"#,
        0,
        &[(2, 0, Number(140739635937282))],
        true,
    ),
    (
        r#"{"cells":[[1,2,[0,0]],[1,3,"0x2"]],"extra":0}"#,
        0,
        &[(1, 2, Pointer(0, 0)), (1, 3, Number(2))],
        true,
    ),
    (
        r#"{"cells":[[1,2,[0,4]],[1,3,[0,6]],[1,4,"0x5"]],"extra":0}"#,
        0,
        &[
            (1, 2, Pointer(0, 4)),
            (1, 3, Pointer(0, 6)),
            (1, 4, Number(5)),
        ],
        true,
    ),
    (
        r#"{"cells":[[1,2,[1,2]],[1,3,[0,2]],[1,5,[0,6]]],"extra":0}"#,
        0,
        &[
            (1, 2, Pointer(1, 2)),
            (1, 3, Pointer(0, 2)),
            (1, 5, Pointer(0, 6)),
        ],
        true,
    ),
    (
        r#"{"cells":[[1,2,[2,3]],[2,2,"0x7"],[2,3,[1,2]]],"extra":1}"#,
        1,
        &[
            (1, 2, Pointer(2, 3)),
            (2, 2, Number(7)),
            (2, 3, Pointer(1, 2)),
        ],
        true,
    ),
    (
        r#"{"cells":[[1,2,[2,6]],[2,6,"0x480680017fff8000"],[2,7,"0x5"],[2,8,"0x208b7fff7fff7ffe"]],"extra":1}"#,
        1,
        &[
            (1, 2, Pointer(2, 6)),
            (2, 6, Number(5189976364521848832)),
            (2, 7, Number(5)),
            (2, 8, Number(2345108766317314046)),
        ],
        true,
    ),
    (
        r#"{"cells":[[1,2,[3,0]],[3,0,[2,1]],[2,0,[3,0]],[2,1,[3,4294967295]],[3,1,[1,2]],[2,2,[2,1000]]],"extra":2}"#,
        2,
        &[
            (1, 2, Pointer(3, 0)),
            (3, 0, Pointer(2, 1)),
            (2, 0, Pointer(3, 0)),
            (2, 1, Pointer(3, 4294967295)),
            (3, 1, Pointer(1, 2)),
            (2, 2, Pointer(2, 1000)),
        ],
        true,
    ),
    (
        r#"{"cells":[[1,2,[2,0]],[2,0,"0x5"],[2,2,[4,1]],[4,1,"0xb"],[4,3,[3,0]],[3,0,"0xffffffff00000000"],[3,2,"0x0"],[3,7,"0x9"],[4,5,[2,2]]],"extra":3}"#,
        3,
        &[
            (1, 2, Pointer(2, 0)),
            (2, 0, Number(5)),
            (2, 2, Pointer(4, 1)),
            (4, 1, Number(11)),
            (4, 3, Pointer(3, 0)),
            (3, 0, Number(18446744069414584320)),
            (3, 2, Number(0)),
            (3, 7, Number(9)),
            (4, 5, Pointer(2, 2)),
        ],
        true,
    ),
    (
        r#"{"cells":[[1,7,"0x1"]],"extra":0}"#,
        0,
        &[(1, 7, Number(1))],
        true,
    ),
    (
        r#"{"cells":[[4294967295,4294967295,[4294967295,0]]],"extra":65536}"#,
        65536,
        &[(4294967295, 4294967295, Pointer(4294967295, 0))],
        true,
    ),
    (
        r#"{"cells":[[2,0,"0x9"],[2,0,"9"],[1,0,[1,2]],[1,1,"0x0"],[1,2,[2,0]],[0,1,"0x1"],[1,40,[3,7]],[1,40,[3,7]]],"extra":1}"#,
        1,
        &[
            (2, 0, Number(9)),
            (2, 0, Number(9)),
            (1, 0, Pointer(1, 2)),
            (1, 1, Number(0)),
            (1, 2, Pointer(2, 0)),
            (0, 1, Number(1)),
            (1, 40, Pointer(3, 7)),
            (1, 40, Pointer(3, 7)),
        ],
        false,
    ),
    (
        r#"{"cells":[[1,9,"18446744069414584320"],[1,9,"0x00FFFFFFff00000000"]],"extra":0}"#,
        0,
        &[
            (1, 9, Number(18446744069414584320)),
            (1, 9, Number(18446744069414584320)),
        ],
        false,
    ),
    (
        r#"{"cells":5,"extra":"x","cells":[],"extra":0,"note":[1,{"a":null}]}"#,
        0,
        &[],
        false,
    ),
    (r#" {"extra" : 0 , "cells" : [ ] } "#, 0, &[], false),
    (
        r#"{"extra":7,"cells":[[0,0,"\u0031"]]}"#,
        7,
        &[(0, 0, Number(1))],
        false,
    ),
];

/// Texts, and how reading ends: `read`, or the fault as it is printed.
const ENDINGS: &[(&str, &str)] = &[
    (r#""#, "Json"),
    (r#"{"#, "Json"),
    (r#"{"cells":[],"extra":0} x"#, "Json"),
    (r#"{"cells":[],"extra":0,}"#, "Json"),
    (r#"{'cells':[],'extra':0}"#, "Json"),
    (r#"{"cells":[],"extra":00}"#, "Json"),
    (r#"{"cells":[],"extra":+1}"#, "Json"),
    (r#"{"cells":[[1,0,"\ud800"]],"extra":0}"#, "Json"),
    (r#"{"cells":[],"extra":0,"x":1e400}"#, "Json"),
    (r#"[]"#, "Key extra"),
    (r#"0"#, "Key extra"),
    (r#"null"#, "Key extra"),
    (r#"{}"#, "Key extra"),
    (r#"{"cells":[]}"#, "Key extra"),
    (r#"{"cells":[],"extra":null}"#, "Key extra"),
    (r#"{"cells":[],"extra":"0"}"#, "Key extra"),
    (r#"{"cells":[],"extra":-1}"#, "Key extra"),
    (r#"{"cells":[],"extra":-0}"#, "Key extra"),
    (r#"{"cells":[],"extra":0.0}"#, "Key extra"),
    (r#"{"cells":[],"extra":0e0}"#, "Key extra"),
    (r#"{"cells":[],"extra":18446744073709551616}"#, "Key extra"),
    (r#"{"cells":5,"extra":[]}"#, "Key extra"),
    (r#"{"cells":[],"Extra":0}"#, "Key extra"),
    (r#"{"cells":[],"extra":18446744073709551615}"#, "TooMany"),
    (r#"{"cells":[],"extra":65537}"#, "TooMany"),
    (r#"{"extra":65537}"#, "TooMany"),
    (r#"{"cells":[[1,0]],"extra":65537}"#, "TooMany"),
    (r#"{"extra":0}"#, "Key cells"),
    (r#"{"cells":{},"extra":0}"#, "Key cells"),
    (r#"{"cells":null,"extra":0}"#, "Key cells"),
    (r#"{"cells":"","extra":0}"#, "Key cells"),
    (r#"{"cells":[],"extra":0,"cells":5}"#, "Key cells"),
    (r#"{"cells":[0],"extra":0}"#, "Cell 0"),
    (r#"{"cells":[[]],"extra":0}"#, "Cell 0"),
    (r#"{"cells":[[1,9]],"extra":0}"#, "Cell 0"),
    (r#"{"cells":[[1,9,"0x1",0]],"extra":0}"#, "Cell 0"),
    (r#"{"cells":[{"0":1}],"extra":0}"#, "Cell 0"),
    (r#"{"cells":[["1",9,"0x1"]],"extra":0}"#, "Cell 0"),
    (r#"{"cells":[[1,"9","0x1"]],"extra":0}"#, "Cell 0"),
    (r#"{"cells":[[-1,9,"0x1"]],"extra":0}"#, "Cell 0"),
    (r#"{"cells":[[4294967296,9,"0x1"]],"extra":0}"#, "Cell 0"),
    (r#"{"cells":[[1,4294967296,"0x1"]],"extra":0}"#, "Cell 0"),
    (r#"{"cells":[[1,9.0,"0x1"]],"extra":0}"#, "Cell 0"),
    (r#"{"cells":[[1,9,1]],"extra":0}"#, "Cell 0"),
    (r#"{"cells":[[1,9,null]],"extra":0}"#, "Cell 0"),
    (r#"{"cells":[[1,9,""]],"extra":0}"#, "Cell 0"),
    (r#"{"cells":[[1,9,"0x"]],"extra":0}"#, "Cell 0"),
    (r#"{"cells":[[1,9,"0X1"]],"extra":0}"#, "Cell 0"),
    (r#"{"cells":[[1,9,"-1"]],"extra":0}"#, "Cell 0"),
    (r#"{"cells":[[1,9," 1"]],"extra":0}"#, "Cell 0"),
    (r#"{"cells":[[1,9,"12a"]],"extra":0}"#, "Cell 0"),
    (r#"{"cells":[[1,9,"0xg"]],"extra":0}"#, "Cell 0"),
    (
        r#"{"cells":[[1,9,"18446744069414584321"]],"extra":0}"#,
        "Cell 0",
    ),
    (
        r#"{"cells":[[1,9,"0xffffffff00000001"]],"extra":0}"#,
        "Cell 0",
    ),
    (r#"{"cells":[[1,9,[]]],"extra":0}"#, "Cell 0"),
    (r#"{"cells":[[1,9,[1]]],"extra":0}"#, "Cell 0"),
    (r#"{"cells":[[1,9,[1,2,3]]],"extra":0}"#, "Cell 0"),
    (r#"{"cells":[[1,9,["1",2]]],"extra":0}"#, "Cell 0"),
    (r#"{"cells":[[1,9,[1,4294967296]]],"extra":0}"#, "Cell 0"),
    (r#"{"cells":[[1,9,[4294967296,1]]],"extra":0}"#, "Cell 0"),
    (
        r#"{"cells":[[1,9,"0x1"],[1,9,"0x1"],[1,9],0],"extra":0}"#,
        "Cell 2",
    ),
    (r#"{"cells":[[9,9,"0x1"],[1]],"extra":0}"#, "Cell 1"),
    (r#""extra""#, "Key extra"),
    (r#"{"extra":true,"cells":[]}"#, "Key extra"),
    (r#"{"extra":{},"cells":[]}"#, "Key extra"),
    (r#"{"extra":[0],"cells":[]}"#, "Key extra"),
    (r#"{"cells":[],"extra":0,"extra":null}"#, "Key extra"),
    (r#"{"cells":[],"extra":65537,"extra":65536}"#, "read"),
    (r#"{"cells":[],"extra":65536,"extra":65537}"#, "TooMany"),
    (r#"{"cells":[],"extra":65536}"#, "read"),
    (
        r#"{"cells":[],"extra":18446744073709551615,"x":0}"#,
        "TooMany",
    ),
    (r#"{"extra":0,"Cells":[]}"#, "Key cells"),
    (r#"{"extra":0,"cells":true}"#, "Key cells"),
    (r#"{"extra":0,"cells":0}"#, "Key cells"),
    (r#"{"cells":[[1]],"extra":0}"#, "Cell 0"),
    (r#"{"cells":[[1,9,"0x1","0x1","0x1"]],"extra":0}"#, "Cell 0"),
    (r#"{"cells":["0x1"],"extra":0}"#, "Cell 0"),
    (r#"{"cells":[null],"extra":0}"#, "Cell 0"),
    (r#"{"cells":[[-0,9,"0x1"]],"extra":0}"#, "Cell 0"),
    (r#"{"cells":[[1,9e0,"0x1"]],"extra":0}"#, "Cell 0"),
    (
        r#"{"cells":[[1,18446744073709551615,"0x1"]],"extra":0}"#,
        "Cell 0",
    ),
    (
        r#"{"cells":[[4294967295,4294967295,"0x1"]],"extra":0}"#,
        "read",
    ),
    (r#"{"cells":[[1,9,[1,-0]]],"extra":0}"#, "Cell 0"),
    (r#"{"cells":[[1,9,[1,"2"]]],"extra":0}"#, "Cell 0"),
    (r#"{"cells":[[1,9,[[1,2]]]],"extra":0}"#, "Cell 0"),
    (r#"{"cells":[[1,9,[1,2,"0x1"]]],"extra":0}"#, "Cell 0"),
    (r#"{"cells":[[1,9,["0x1"]]],"extra":0}"#, "Cell 0"),
    (r#"{"cells":[[1,9,true]],"extra":0}"#, "Cell 0"),
    (r#"{"cells":[[1,9,{"0":1,"1":2}]],"extra":0}"#, "Cell 0"),
    (
        r#"{"cells":[[1,9,"0x10000000000000000"]],"extra":0}"#,
        "Cell 0",
    ),
    (
        r#"{"cells":[[1,9,"0x1"],[1,9,[1,4294967295]],[1,9,"18446744069414584321"]],"extra":0}"#,
        "Cell 2",
    ),
    (r#"{"cells":[],"extra":0,"cells":[[1,2]]}"#, "Cell 0"),
    (r#"{"cells":[[1,2]],"extra":0,"cells":[]}"#, "read"),
];

/// How many lists stand in one another under another key, and how reading ends.
const DEPTHS: &[(usize, &str)] = &[(126, "read"), (127, "Json")];

/// How many entries, the last one, and how reading ends.
const COUNTS: &[(usize, &str, &str)] = &[
    (1048576, "[0,0,[0,0]]", "read"),
    (1048576, "[0,0,[0]]", "Cell 1048575"),
    (1048577, "[0,0,[0,0]]", "TooMany"),
    (1048577, "0", "TooMany"),
];

/// How many extra segments and how many cells, and whether they are hints.
const BOUNDS: &[(u32, usize, bool)] = &[
    (0, 0, true),
    (65536, 1048576, true),
    (65537, 0, false),
    (4294967295, 0, false),
    (0, 1048577, false),
];

/// How reading ends: `read`, or the fault as it is printed.
fn ending(alloc: Global, bytes: &[u8]) -> Result<String, AllocError> {
    match read(alloc, bytes) {
        Ok(_) => String::from_str(alloc, "read"),
        Err(fault) => fault.to_string(alloc),
    }
}

/// Whether the cell is that of the row.
fn is_row(cell: &HintCell, row: &Row) -> bool {
    let (seg, off, held) = *row;
    let same = match (cell.value, held) {
        (Value::Num(x), Number(number)) => x.number == number,
        (Value::Ptr(place), Pointer(seg, off)) => place == Place { seg, off },
        _ => false,
    };
    same && cell.place == Place { seg, off }
}

#[test]
fn hint_files_are_read_and_written(rt: HostRuntime) -> Result<(), Fail> {
    let alloc = rt.alloc();
    for (text, extra, rows, is_written) in FILES {
        let hints = read(alloc, text.as_bytes())?;
        let mut same = hints.extra() == *extra && hints.cells().len() == rows.len();
        for (cell, row) in hints.cells().iter().zip(*rows) {
            same = same && is_row(cell, row);
        }
        let bytes = write(alloc, &hints)?;
        let as_it_was = bytes.as_slice() == text.as_bytes();
        assert!(rt; same && as_it_was == *is_written, "{text}");
    }
    Ok(())
}

#[test]
fn faults_of_hint_files(rt: HostRuntime) -> Result<(), Fail> {
    let alloc = rt.alloc();
    for (text, end) in ENDINGS {
        assert!(rt; ending(alloc, text.as_bytes())?.as_str() == *end, "{text}");
    }
    assert!(rt; ending(alloc, b"{\"x\":\"\xff\"}")?.as_str() == "Json");
    assert!(rt; HintFault::Memory.to_string(alloc)?.as_str() == "Memory");
    Ok(())
}

/// Hints, and under another key as many lists, one in another.
fn nested(alloc: Global, depth: usize) -> Result<String, AllocError> {
    let mut text = String::from_str(alloc, r#"{"cells":[],"extra":0,"x":"#)?;
    for _ in 0..depth {
        text.push_str("[")?;
    }
    for _ in 0..depth {
        text.push_str("]")?;
    }
    text.push_str("}")?;
    Ok(text)
}

/// Hints with so many entries, of which the last is given.
fn long_file(alloc: Global, count: usize, last: &str) -> Result<String, AllocError> {
    let mut text = String::from_str(alloc, r#"{"extra":0,"cells":["#)?;
    for _ in 1..count {
        text.push_str("[0,0,[0,0]],")?;
    }
    text.push_str(last)?;
    text.push_str("]}")?;
    Ok(text)
}

#[test]
fn hint_files_at_their_limits(rt: HostRuntime) -> Result<(), Fail> {
    let alloc = rt.alloc();
    for (depth, end) in DEPTHS {
        let text = nested(alloc, *depth)?;
        assert!(rt; ending(alloc, text.as_bytes())?.as_str() == *end, "{depth}");
    }
    for (count, last, end) in COUNTS {
        let text = long_file(alloc, *count, last)?;
        assert!(rt; ending(alloc, text.as_bytes())?.as_str() == *end, "{last}");
    }
    Ok(())
}

#[test]
fn hints_keep_their_bounds(rt: HostRuntime) -> Result<(), Fail> {
    let place = Place { seg: 1, off: 2 };
    let number = Felt::of_signed(-1);
    let cell = HintCell {
        place,
        value: Value::Num(number),
    };
    for (extra, count, are_hints) in BOUNDS {
        let cells = vec![in rt.alloc(); cell; *count]?;
        let found = Hints::new(*extra, cells).map(|h| (h.extra(), h.cells().len()));
        assert!(rt; found == are_hints.then_some((*extra, *count)), "{extra}");
    }
    assert!(rt; HINTS_LIMIT == 134217728);
    assert!(rt; EXTRA_LIMIT == 65536);
    assert!(rt; HINT_CELL_LIMIT == 1048576);
    Ok(())
}
