//! Program files: their faults, and what is read and written.

use super::NO_MEMORY;
use goldilocks::Felt;
use program_file::{
    Builtins, PROGRAM_LIMIT, PROGRAM_WORD_LIMIT, Program, ProgramFault, read, write,
};
use std::alloc::{AllocError, Global};
use std::process::Abort;

/// Texts, and what is printed of reading them: the fault, or `program`.
const FAULTS: &[(&str, &str)] = &[
    // no JSON, and no object
    ("", "Json"),
    ("{", "Json"),
    (
        r#"{"builtins":[],"data":["0x1","0x2"],"end":1,"prime":"0xffffffff00000001","start":0}x"#,
        "Json",
    ),
    (
        r#"{"builtins":[],"data":["0x1","0x2"],"end":1,"prime":"0xffffffff00000001","start":0,"x":1e400}"#,
        "Json",
    ),
    (
        "[[[[[[[[[[[[[[[[[[[[[[[[[[[[[[[[[[[[[[[[[[[[[[[[[[[[[[[[[[[[[[[[[[[[[[[[[[[[[[[[[[[[[[[[[[[[[[[[[[[[[[[[[[[[[[[[[[[[[[[[[[[[[[[[]]]]]]]]]]]]]]]]]]]]]]]]]]]]]]]]]]]]]]]]]]]]]]]]]]]]]]]]]]]]]]]]]]]]]]]]]]]]]]]]]]]]]]]]]]]]]]]]]]]]]]]]]]]]]]]]]]]]]]]]]]]]]]]]",
        "Json",
    ),
    ("[]", "Key prime"),
    ("7", "Key prime"),
    ("null", "Key prime"),
    (r#""text""#, "Key prime"),
    ("{}", "Key prime"),
    (
        r#"{"builtins":[],"data":["0x1","0x2"],"end":1,"start":0}"#,
        "Key prime",
    ),
    (
        r#"{"builtins":[],"data":["0x1","0x2"],"end":1,"prime":18446744069414584321,"start":0}"#,
        "Key prime",
    ),
    (
        r#"{"builtins":[],"data":["0x1","0x2"],"end":1,"prime":null,"start":0}"#,
        "Key prime",
    ),
    (
        r#"{"builtins":[],"data":["0x1","0x2"],"end":1,"prime":["0xffffffff00000001"],"start":0}"#,
        "Key prime",
    ),
    (
        r#"{"builtins":[],"data":["0x1","0x2"],"end":1,"prime":"0x11","start":0}"#,
        "Prime",
    ),
    (
        r#"{"builtins":[],"data":["0x1","0x2"],"end":1,"prime":"0xFFFFFFFF00000001","start":0}"#,
        "Prime",
    ),
    (
        r#"{"builtins":[],"data":["0x1","0x2"],"end":1,"prime":"18446744069414584321","start":0}"#,
        "Prime",
    ),
    (
        r#"{"builtins":[],"data":["0x1","0x2"],"end":1,"prime":"","start":0}"#,
        "Prime",
    ),
    (
        r#"{"builtins":[],"data":["0x1","0x2"],"end":1,"prime":"0xffffffff000000010","start":0}"#,
        "Prime",
    ),
    (
        r#"{"builtins":[],"data":["0x40780017fff7fff","0x0","0x1104800180018000","0x4","0x10780017fff7fff","0x0","0x480680017fff8000","0x19","0x208b7fff7fff7ffe"],"end":4,"prime":"0x11","start":0}"#,
        "Prime",
    ),
    // the words
    (
        r#"{"builtins":[],"end":1,"prime":"0xffffffff00000001","start":0}"#,
        "Key data",
    ),
    (
        r#"{"builtins":[],"data":null,"end":1,"prime":"0xffffffff00000001","start":0}"#,
        "Key data",
    ),
    (
        r#"{"builtins":[],"data":"0x1","end":1,"prime":"0xffffffff00000001","start":0}"#,
        "Key data",
    ),
    (
        r#"{"builtins":[],"data":{"0":"0x1"},"end":1,"prime":"0xffffffff00000001","start":0}"#,
        "Key data",
    ),
    (
        r#"{"builtins":[],"data":["18446744069414584321","0x2"],"end":1,"prime":"0xffffffff00000001","start":0}"#,
        "Felt 0",
    ),
    (
        r#"{"builtins":[],"data":["0x1","0x2","18446744069414584321"],"end":1,"prime":"0xffffffff00000001","start":0}"#,
        "Felt 2",
    ),
    (
        r#"{"builtins":[],"data":["0xffffffff00000001","0x2"],"end":1,"prime":"0xffffffff00000001","start":0}"#,
        "Felt 0",
    ),
    (
        r#"{"builtins":[],"data":["0x1","0x2","0xffffffff00000001"],"end":1,"prime":"0xffffffff00000001","start":0}"#,
        "Felt 2",
    ),
    (
        r#"{"builtins":[],"data":["0xg","0x2"],"end":1,"prime":"0xffffffff00000001","start":0}"#,
        "Felt 0",
    ),
    (
        r#"{"builtins":[],"data":["0x1","0x2","0xg"],"end":1,"prime":"0xffffffff00000001","start":0}"#,
        "Felt 2",
    ),
    (
        r#"{"builtins":[],"data":["12a","0x2"],"end":1,"prime":"0xffffffff00000001","start":0}"#,
        "Felt 0",
    ),
    (
        r#"{"builtins":[],"data":["0x1","0x2","12a"],"end":1,"prime":"0xffffffff00000001","start":0}"#,
        "Felt 2",
    ),
    (
        r#"{"builtins":[],"data":["","0x2"],"end":1,"prime":"0xffffffff00000001","start":0}"#,
        "Felt 0",
    ),
    (
        r#"{"builtins":[],"data":["0x1","0x2",""],"end":1,"prime":"0xffffffff00000001","start":0}"#,
        "Felt 2",
    ),
    (
        r#"{"builtins":[],"data":["0x","0x2"],"end":1,"prime":"0xffffffff00000001","start":0}"#,
        "Felt 0",
    ),
    (
        r#"{"builtins":[],"data":["0x1","0x2","0x"],"end":1,"prime":"0xffffffff00000001","start":0}"#,
        "Felt 2",
    ),
    (
        r#"{"builtins":[],"data":["-1","0x2"],"end":1,"prime":"0xffffffff00000001","start":0}"#,
        "Felt 0",
    ),
    (
        r#"{"builtins":[],"data":["0x1","0x2","-1"],"end":1,"prime":"0xffffffff00000001","start":0}"#,
        "Felt 2",
    ),
    (
        r#"{"builtins":[],"data":[" 1","0x2"],"end":1,"prime":"0xffffffff00000001","start":0}"#,
        "Felt 0",
    ),
    (
        r#"{"builtins":[],"data":["0x1","0x2"," 1"],"end":1,"prime":"0xffffffff00000001","start":0}"#,
        "Felt 2",
    ),
    (
        r#"{"builtins":[],"data":[1,"0x2"],"end":1,"prime":"0xffffffff00000001","start":0}"#,
        "Felt 0",
    ),
    (
        r#"{"builtins":[],"data":["0x1","0x2",1],"end":1,"prime":"0xffffffff00000001","start":0}"#,
        "Felt 2",
    ),
    (
        r#"{"builtins":[],"data":[null,"0x2"],"end":1,"prime":"0xffffffff00000001","start":0}"#,
        "Felt 0",
    ),
    (
        r#"{"builtins":[],"data":["0x1","0x2",null],"end":1,"prime":"0xffffffff00000001","start":0}"#,
        "Felt 2",
    ),
    (
        r#"{"builtins":[],"data":[["0x1"],"0x2"],"end":1,"prime":"0xffffffff00000001","start":0}"#,
        "Felt 0",
    ),
    (
        r#"{"builtins":[],"data":["0x1","0x2",["0x1"]],"end":1,"prime":"0xffffffff00000001","start":0}"#,
        "Felt 2",
    ),
    (
        r#"{"builtins":[],"data":["0x1",1,"0xg"],"end":1,"prime":"0xffffffff00000001","start":0}"#,
        "Felt 1",
    ),
    // places and builtins
    (
        r#"{"builtins":[],"data":["0x1","0x2"],"end":1,"prime":"0xffffffff00000001","start":4.0}"#,
        "Key start",
    ),
    (
        r#"{"builtins":[],"data":["0x1","0x2"],"end":1,"prime":"0xffffffff00000001","start":4e0}"#,
        "Key start",
    ),
    (
        r#"{"builtins":[],"data":["0x1","0x2"],"end":1,"prime":"0xffffffff00000001","start":-1}"#,
        "Key start",
    ),
    (
        r#"{"builtins":[],"data":["0x1","0x2"],"end":1,"prime":"0xffffffff00000001","start":-0}"#,
        "Key start",
    ),
    (
        r#"{"builtins":[],"data":["0x1","0x2"],"end":1,"prime":"0xffffffff00000001","start":18446744073709551616}"#,
        "Key start",
    ),
    (
        r#"{"builtins":[],"data":["0x1","0x2"],"end":1,"prime":"0xffffffff00000001","start":"0"}"#,
        "Key start",
    ),
    (
        r#"{"builtins":[],"data":["0x1","0x2"],"end":1,"prime":"0xffffffff00000001","start":null}"#,
        "Key start",
    ),
    (
        r#"{"builtins":[],"data":["0x1","0x2"],"end":1,"prime":"0xffffffff00000001","start":[0]}"#,
        "Key start",
    ),
    (
        r#"{"builtins":[],"data":["0x1","0x2"],"end":1,"prime":"0xffffffff00000001"}"#,
        "Key start",
    ),
    (
        r#"{"builtins":[],"data":["0x1","0x2"],"end":4.0,"prime":"0xffffffff00000001","start":0}"#,
        "Key end",
    ),
    (
        r#"{"builtins":[],"data":["0x1","0x2"],"end":4e0,"prime":"0xffffffff00000001","start":0}"#,
        "Key end",
    ),
    (
        r#"{"builtins":[],"data":["0x1","0x2"],"end":-1,"prime":"0xffffffff00000001","start":0}"#,
        "Key end",
    ),
    (
        r#"{"builtins":[],"data":["0x1","0x2"],"end":-0,"prime":"0xffffffff00000001","start":0}"#,
        "Key end",
    ),
    (
        r#"{"builtins":[],"data":["0x1","0x2"],"end":18446744073709551616,"prime":"0xffffffff00000001","start":0}"#,
        "Key end",
    ),
    (
        r#"{"builtins":[],"data":["0x1","0x2"],"end":"0","prime":"0xffffffff00000001","start":0}"#,
        "Key end",
    ),
    (
        r#"{"builtins":[],"data":["0x1","0x2"],"end":null,"prime":"0xffffffff00000001","start":0}"#,
        "Key end",
    ),
    (
        r#"{"builtins":[],"data":["0x1","0x2"],"end":[0],"prime":"0xffffffff00000001","start":0}"#,
        "Key end",
    ),
    (
        r#"{"builtins":[],"data":["0x1","0x2"],"prime":"0xffffffff00000001","start":0}"#,
        "Key end",
    ),
    (
        r#"{"data":["0x1","0x2"],"end":1,"prime":"0xffffffff00000001","start":0}"#,
        "Key builtins",
    ),
    (
        r#"{"builtins":null,"data":["0x1","0x2"],"end":1,"prime":"0xffffffff00000001","start":0}"#,
        "Key builtins",
    ),
    (
        r#"{"builtins":"output","data":["0x1","0x2"],"end":1,"prime":"0xffffffff00000001","start":0}"#,
        "Key builtins",
    ),
    (
        r#"{"builtins":{"output":true},"data":["0x1","0x2"],"end":1,"prime":"0xffffffff00000001","start":0}"#,
        "Key builtins",
    ),
    (
        r#"{"builtins":["range_check","output"],"data":["0x1","0x2"],"end":1,"prime":"0xffffffff00000001","start":0}"#,
        "Builtin",
    ),
    (
        r#"{"builtins":["output","output"],"data":["0x1","0x2"],"end":1,"prime":"0xffffffff00000001","start":0}"#,
        "Builtin",
    ),
    (
        r#"{"builtins":["range_check","range_check"],"data":["0x1","0x2"],"end":1,"prime":"0xffffffff00000001","start":0}"#,
        "Builtin",
    ),
    (
        r#"{"builtins":["pedersen"],"data":["0x1","0x2"],"end":1,"prime":"0xffffffff00000001","start":0}"#,
        "Builtin",
    ),
    (
        r#"{"builtins":["Output"],"data":["0x1","0x2"],"end":1,"prime":"0xffffffff00000001","start":0}"#,
        "Builtin",
    ),
    (
        r#"{"builtins":["output "],"data":["0x1","0x2"],"end":1,"prime":"0xffffffff00000001","start":0}"#,
        "Builtin",
    ),
    (
        r#"{"builtins":[""],"data":["0x1","0x2"],"end":1,"prime":"0xffffffff00000001","start":0}"#,
        "Builtin",
    ),
    (
        r#"{"builtins":[1],"data":["0x1","0x2"],"end":1,"prime":"0xffffffff00000001","start":0}"#,
        "Builtin",
    ),
    (
        r#"{"builtins":[null],"data":["0x1","0x2"],"end":1,"prime":"0xffffffff00000001","start":0}"#,
        "Builtin",
    ),
    (
        r#"{"builtins":["output",null],"data":["0x1","0x2"],"end":1,"prime":"0xffffffff00000001","start":0}"#,
        "Builtin",
    ),
    (
        r#"{"builtins":["output","range_check","output"],"data":["0x1","0x2"],"end":1,"prime":"0xffffffff00000001","start":0}"#,
        "Builtin",
    ),
    (
        r#"{"builtins":[["output"]],"data":["0x1","0x2"],"end":1,"prime":"0xffffffff00000001","start":0}"#,
        "Builtin",
    ),
    (
        r#"{"builtins":[],"data":["0x1","0x2"],"end":1,"prime":"0xffffffff00000001","start":2}"#,
        "Label start",
    ),
    (
        r#"{"builtins":[],"data":["0x1","0x2"],"end":2,"prime":"0xffffffff00000001","start":0}"#,
        "Label end",
    ),
    (
        r#"{"builtins":[],"data":["0x1","0x2"],"end":1,"prime":"0xffffffff00000001","start":3}"#,
        "Label start",
    ),
    (
        r#"{"builtins":[],"data":["0x1","0x2"],"end":3,"prime":"0xffffffff00000001","start":0}"#,
        "Label end",
    ),
    (
        r#"{"builtins":[],"data":["0x1","0x2"],"end":1,"prime":"0xffffffff00000001","start":4294967296}"#,
        "Label start",
    ),
    (
        r#"{"builtins":[],"data":["0x1","0x2"],"end":4294967296,"prime":"0xffffffff00000001","start":0}"#,
        "Label end",
    ),
    (
        r#"{"builtins":[],"data":["0x1","0x2"],"end":1,"prime":"0xffffffff00000001","start":18446744073709551615}"#,
        "Label start",
    ),
    (
        r#"{"builtins":[],"data":["0x1","0x2"],"end":18446744073709551615,"prime":"0xffffffff00000001","start":0}"#,
        "Label end",
    ),
    (
        r#"{"builtins":[],"data":[],"end":1,"prime":"0xffffffff00000001","start":0}"#,
        "Label start",
    ),
    (
        r#"{"builtins":[],"data":["0x40780017fff7fff","0x0","0x1104800180018000","0x4","0x10780017fff7fff","0x0","0x480680017fff8000","0x19","0x208b7fff7fff7ffe"],"end":9,"prime":"0xffffffff00000001","start":0}"#,
        "Label end",
    ),
    // the first fault counts
    (
        r#"{"builtins":[],"end":1,"prime":"0x11","start":0}"#,
        "Prime",
    ),
    (
        r#"{"builtins":[],"end":1,"prime":"0xffffffff00000001"}"#,
        "Key data",
    ),
    (
        r#"{"builtins":[],"data":["x"],"end":1,"prime":"0xffffffff00000001"}"#,
        "Felt 0",
    ),
    (
        r#"{"builtins":[],"data":["0x1","0x2"],"prime":"0xffffffff00000001"}"#,
        "Key start",
    ),
    (
        r#"{"data":["0x1","0x2"],"prime":"0xffffffff00000001","start":0}"#,
        "Key end",
    ),
    (
        r#"{"data":["0x1","0x2"],"end":1,"prime":"0xffffffff00000001","start":2}"#,
        "Key builtins",
    ),
    (
        r#"{"builtins":[1],"data":["0x1","0x2"],"end":1,"prime":"0xffffffff00000001","start":2}"#,
        "Builtin",
    ),
    (
        r#"{"builtins":[],"data":["0x1","0x2"],"end":2,"prime":"0xffffffff00000001","start":2}"#,
        "Label start",
    ),
    (
        r#"{"builtins":[],"data":["0x1","0x2"],"end":1,"prime":"0xffffffff00000001","start":0,"start":2}"#,
        "Label start",
    ),
    (
        r#"{"builtins":[],"data":["0x1","0x2"],"end":1,"prime":"0xffffffff00000001","start":0,"data":7}"#,
        "Key data",
    ),
];

/// Faults that no short file has.
const OTHER_FAULTS: &[(ProgramFault, &str)] = &[
    (ProgramFault::TooLong, "TooLong"),
    (ProgramFault::Felt(262143), "Felt 262143"),
    (ProgramFault::Memory, "Memory"),
];

/// What a program has: its words' number, the first and the last word, its places and its builtins.
type Shown = (usize, u64, u64, u32, u32, bool, bool);

/// Texts, their programs, and whether they are what is written for these.
const PROGRAMS: &[(&str, Shown, bool)] = &[
    (
        r#"{"builtins":[],"data":["0x40780017fff7fff","0x0","0x1104800180018000","0x4","0x10780017fff7fff","0x0","0x480680017fff8000","0x19","0x208b7fff7fff7ffe"],"end":4,"prime":"0xffffffff00000001","start":0}"#,
        (
            9,
            290341444919459839,
            2345108766317314046,
            0,
            4,
            false,
            false,
        ),
        true,
    ),
    (
        r#"{"builtins":[],"data":["0x486680017fff8000","0x3","0x10780017fff7fff","0x0"],"end":2,"prime":"0xffffffff00000001","start":0}"#,
        (4, 5216997962286071808, 0, 0, 2, false, false),
        true,
    ),
    (
        r#"{"builtins":[],"data":["0x480680017fff8000","0x0","0x20680017fff7fff","0x4","0x10780017fff7fff","0x0","0x10780017fff7fff","0x0"],"end":4,"prime":"0xffffffff00000001","start":0}"#,
        (8, 5189976364521848832, 0, 0, 4, false, false),
        true,
    ),
    (
        r#"{"builtins":[],"data":["0x480680017fff8000","0x2","0x20680017fff7fff","0x4","0x10780017fff7fff","0x0","0x10780017fff7fff","0x0"],"end":6,"prime":"0xffffffff00000001","start":0}"#,
        (8, 5189976364521848832, 0, 0, 6, false, false),
        true,
    ),
    (
        r#"{"builtins":["output","range_check"],"data":["0x40780017fff7fff","0x2","0x1104800180018000","0x4","0x10780017fff7fff","0x0","0x480a7ffd7fff8000","0x40780017fff7fff","0x1","0x480680017fff8000","0x14","0x400080007ffd7ffe","0x482480017ffd8000","0x1","0x482480017ffd8000","0x3039","0x482480017ffd8000","0xffffffff00000000","0x20680017fff7fff","0xfffffffefffffffa","0x400280007ffc7ffe","0x482680017ffc8000","0x1","0x48127ffc7fff8000","0x208b7fff7fff7ffe"],"end":4,"prime":"0xffffffff00000001","start":0}"#,
        (
            25,
            290341444919459839,
            2345108766317314046,
            0,
            4,
            true,
            true,
        ),
        true,
    ),
    (
        r#"{"builtins":["output"],"data":["0x40780017fff7fff","0x1","0x480680017fff8000","0x7","0x4002800080007fff","0x4826800180008000","0x1","0x10780017fff7fff","0x0"],"end":7,"prime":"0xffffffff00000001","start":0}"#,
        (9, 290341444919459839, 0, 0, 7, true, false),
        true,
    ),
    (
        r#"{"builtins":["range_check"],"data":["0x40780017fff7fff","0x1","0x4802800080008000","0x4826800180008000","0x1","0x10780017fff7fff","0x0"],"end":5,"prime":"0xffffffff00000001","start":0}"#,
        (7, 290341444919459839, 0, 0, 5, false, true),
        true,
    ),
    (
        r#"{"builtins":[],"data":["0x208b7fff7fff7ffe"],"end":0,"prime":"0xffffffff00000001","start":0}"#,
        (
            1,
            2345108766317314046,
            2345108766317314046,
            0,
            0,
            false,
            false,
        ),
        true,
    ),
    (
        r#"{"builtins":[],"data":["0x8000000000000000","0x0"],"end":1,"prime":"0xffffffff00000001","start":0}"#,
        (2, 9223372036854775808, 0, 0, 1, false, false),
        true,
    ),
    (
        " { \"start\" : 1 , \"end\" : 0 ,\t\"prime\" : \"0xffffffff00000001\" , \"data\" : [ \"7\" , \"0x00ff\" , \"0xAb\" ] , \"builtins\" : [ ] } ",
        (3, 7, 171, 1, 0, false, false),
        false,
    ),
    (
        r#"{"builtins":[],"data":["0x1","0x2"],"end":1,"prime":"0xffffffff00000001","start":0,"x":{"data":[1]},"main":null}"#,
        (2, 1, 2, 0, 1, false, false),
        false,
    ),
    (
        r#"{"builtins":[],"data":["0x1","0x2"],"end":1,"prime":"0xffffffff00000001","start":9,"start":1}"#,
        (2, 1, 2, 1, 1, false, false),
        false,
    ),
    (
        r#"{"builtins":["output"],"data":["0x1","0x2"],"end":1,"\u0070rime":"0xffffffff0000000\u0031","start":0}"#,
        (2, 1, 2, 0, 1, true, false),
        false,
    ),
    (
        r#"{"builtins":["range_check"],"data":["18446744069414584320","0xffffffff00000000"],"end":1,"prime":"0xffffffff00000001","start":0}"#,
        (
            2,
            18446744069414584320,
            18446744069414584320,
            0,
            1,
            false,
            true,
        ),
        false,
    ),
    (
        r#"{"builtins":["output","range_check"],"data":["0x1","0x2"],"end":1,"prime":"0xffffffff00000001","start":0}"#,
        (2, 1, 2, 0, 1, true, true),
        true,
    ),
];

/// How many words, start, end, and whether there is a program.
const BOUNDS: &[(usize, u32, u32, bool)] = &[
    (0, 0, 0, false),
    (1, 0, 0, true),
    (1, 1, 0, false),
    (1, 0, 1, false),
    (3, 2, 2, true),
    (3, 2, 3, false),
    (3, 3, 2, false),
    (3, 4294967295, 0, false),
];

/// How many words a file has, its first word, its end, and what is printed of reading it.
const LENGTHS: &[(usize, &str, &str, &str)] = &[
    (262144, r#""0""#, "262143", "program"),
    (262144, r#""0""#, "262144", "Label end"),
    (262144, "0", "262143", "Felt 0"),
    (262145, r#""0""#, "262144", "TooLong"),
    (262145, "0", "262144", "TooLong"),
];

/// What is printed of reading these bytes: the fault, or `program`.
fn printed(alloc: Global, bytes: &[u8]) -> Result<String, AllocError> {
    match read(alloc, bytes) {
        Ok(_) => String::from_str(alloc, "program"),
        Err(fault) => fault.to_string(alloc),
    }
}

/// Compares what is printed of reading these bytes.
fn check_printed(rt: &impl Abort, alloc: Global, name: &str, bytes: &[u8], wanted: &str) {
    let found = printed(alloc, bytes).expect(rt, NO_MEMORY);
    assert!(rt; found.as_str() == wanted, "{name}");
}

/// Bytes that are no text.
const NO_TEXT: &[u8] = b"{\"prime\":\"\xff\"}";

#[test]
fn faults_of_program_files(rt: HostRuntime) {
    let alloc = rt.alloc();
    for (text, fault) in FAULTS {
        check_printed(&rt, alloc, text, text.as_bytes(), fault);
    }
    check_printed(&rt, alloc, "no text", NO_TEXT, "Json");
    for (fault, text) in OTHER_FAULTS {
        let found = fault.to_string(alloc).expect(&rt, NO_MEMORY);
        assert!(rt; found.as_str() == *text, "{text}");
    }
}

/// What the program has.
fn shown(program: &Program) -> Shown {
    let words = program.words();
    let first = words.first().map_or(0, |x| x.number);
    let last = words.last().map_or(0, |x| x.number);
    let builtins = program.builtins();
    (
        words.len(),
        first,
        last,
        program.start(),
        program.end(),
        builtins.output,
        builtins.range,
    )
}

#[test]
fn programs_are_read_and_written(rt: HostRuntime) {
    let alloc = rt.alloc();
    for (text, expected, is_written) in PROGRAMS {
        let program = read(alloc, text.as_bytes()).expect(&rt, "a program is read");
        assert!(rt; shown(&program) == *expected, "{text}");
        let bytes = write(alloc, &program).expect(&rt, NO_MEMORY);
        let same = bytes.as_slice() == text.as_bytes();
        assert!(rt; same == *is_written, "{text}, written");
    }
}

#[test]
fn programs_keep_their_bounds(rt: HostRuntime) {
    let builtins = Builtins {
        output: false,
        range: true,
    };
    for (count, start, end, is_program) in BOUNDS {
        let words = vec![in rt.alloc(); Felt::ONE; *count].expect(&rt, NO_MEMORY);
        let program = Program::new(words, *start, *end, builtins);
        let found = program.as_ref().map(shown);
        let expected = (*count, 1, 1, *start, *end, false, true);
        assert!(rt; found == is_program.then_some(expected), "{count}");
    }
    assert!(rt; PROGRAM_WORD_LIMIT == 262144);
    assert!(rt; PROGRAM_LIMIT == 16777216);
}

/// A program file of so many words, which are 0 but for the first one, and with this end.
fn long_file(alloc: Global, count: usize, first: &str, end: &str) -> Result<String, AllocError> {
    let mut text = String::from_str(alloc, r#"{"builtins":[],"data":["#)?;
    text.push_str(first)?;
    for _ in 1..count {
        text.push_str(r#","0""#)?;
    }
    text.push_str(r#"],"prime":"0xffffffff00000001","start":0,"end":"#)?;
    text.push_str(end)?;
    text.push_str("}")?;
    Ok(text)
}

#[test]
fn files_at_the_limit_of_words(rt: HostRuntime) {
    let alloc = rt.alloc();
    for (count, first, end, fault) in LENGTHS {
        let text = long_file(alloc, *count, first, end).expect(&rt, NO_MEMORY);
        check_printed(&rt, alloc, fault, text.as_bytes(), fault);
    }
}
