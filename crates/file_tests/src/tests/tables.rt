//! Tables files.

use super::{Global, NO_MEMORY, PRIME, push_numbers};
use casm_word::State;
use goldilocks::{Felt, Pair};
use range_columns::RangeRow;
use std::process::Abort;
use table_file::{TABLES_LIMIT, TableFault, Tables, read, write};

/// The numbers of a file from outside, after its text: the tables of a run of four steps.
#[rattlefmt::skip]
const FOUR_STEPS: &[u64] = &[
    // the counts of rows, range rows, memory fillers, sorted pairs and range fillers
    4, 0, 0, 27, 0,
    // row 0
    1, 12, 12, 290341444919459839, 1031, 515, 257, 128, 64, 32, 16, 8, 4, 2, 1, 0, 0, 0, 0, 0, 32767,
    32767, 32769, 11, 11, 2, 0, 0, 0, 0, 0, 0, 0,
    // row 1
    3, 12, 12, 1226245742482522112, 4356, 2178, 1089, 544, 272, 136, 68, 34, 17, 8, 4, 2, 1, 0, 0, 0,
    32768, 32769, 32769, 12, 13, 4, 12, 5, 4, 20, 4, 0, 0,
    // row 2
    7, 14, 14, 5189976364521848832, 18438, 9219, 4609, 2304, 1152, 576, 288, 144, 72, 36, 18, 9, 4, 2,
    1, 0, 32768, 32767, 32769, 14, 13, 8, 25, 5, 25, 125, 25, 0, 0,
    // row 3
    9, 15, 14, 2345108766317314046, 8331, 4165, 2082, 1041, 520, 260, 130, 65, 32, 16, 8, 4, 2, 1, 0, 0,
    32766, 32767, 32767, 12, 13, 13, 12, 5, 5, 25, 5, 0, 0,
    // the last state
    5, 15, 12,
    // the sorted pairs
    1, 290341444919459839, 1, 290341444919459839, 2, 0, 2, 0, 3, 1226245742482522112, 3,
    1226245742482522112, 4, 4, 4, 4, 5, 74168662805676031, 6, 0, 7, 5189976364521848832, 7,
    5189976364521848832, 8, 25, 8, 25, 9, 2345108766317314046, 9, 2345108766317314046, 10, 12, 11, 0,
    11, 0, 11, 0, 12, 12, 12, 12, 13, 5, 13, 5, 13, 5, 13, 5, 14, 25,
    // the sorted range values
    32766, 32767, 32767, 32767, 32767, 32767, 32768, 32768, 32769, 32769, 32769, 32769,
];

/// A file with one of each list. Its values count up from 1, in the order of the format.
const ONE_OF_EACH: &[u64] = &[
    // the counts
    1, 1, 1, 2, 1,
    // the row
    1, 2, 3, 4, 5, 6, 7, 8, 9, 10, 11, 12, 13, 14, 15, 16, 17, 18, 19, 20, 21, 22, 23, 24, 25, 26,
    27, 28, 29, 30, 31, 32, 33,
    // the last state
    34, 35, 36,
    // the range row
    37, 38, 39, 40,
    // the memory filler
    41, 42,
    // the two sorted pairs
    43, 44, 45, 46,
    // the range filler
    47,
    // the seven sorted range values
    48, 49, 50, 51, 52, 53, 54,
];

/// A change of a file.
#[derive(Clone, Copy)]
enum Change {
    /// Another byte at a place.
    Byte(usize, u8),
    /// Another number in the eight bytes from a place on.
    Number(usize, u64),
    /// Only so many bytes are left.
    Cut(usize),
    /// One byte more.
    More,
}

use Change::{Byte, Cut, More, Number};
use TableFault::{Length, Magic, NotField, TooMany};

/// The file with these numbers after its text.
fn file(rt: &impl Abort, alloc: Global, numbers: &[u64]) -> Vec<u8> {
    let mut bytes = b"CAIROGT1".to_vec(alloc).expect(rt, NO_MEMORY);
    push_numbers(rt, &mut bytes, numbers);
    bytes
}

/// Puts bytes at a place.
fn put(bytes: &mut Vec<u8>, place: usize, new: &[u8]) {
    for (old, byte) in bytes.iter_mut().skip(place).zip(new) {
        *old = *byte;
    }
}

/// Makes one change.
fn make(rt: &impl Abort, bytes: &mut Vec<u8>, change: Change) {
    match change {
        Byte(place, byte) => put(bytes, place, &[byte]),
        Number(place, number) => put(bytes, place, &number.to_le_bytes()),
        Cut(len) => bytes.truncate(len),
        More => bytes.push(0).expect(rt, NO_MEMORY),
    }
}

/// A name, the changes of the file from outside, and the fault that it then has.
type Case = (&'static str, &'static [Change], Option<TableFault>);

const CASES: &[Case] = &[
    ("the whole file", &[], None),
    ("one byte short", &[Cut(1655)], Some(Length)),
    ("no byte", &[Cut(0)], Some(Length)),
    ("47 bytes", &[Cut(47)], Some(Length)),
    ("48 bytes", &[Cut(48)], Some(Length)),
    ("72 bytes", &[Cut(72)], Some(Length)),
    ("one byte more", &[More], Some(Length)),
    (
        "the first value is p",
        &[Number(48, PRIME)],
        Some(NotField(48)),
    ),
    ("the first value is p - 1", &[Number(48, PRIME - 1)], None),
    (
        "the first value is 2^64 - 1",
        &[Number(48, u64::MAX)],
        Some(NotField(48)),
    ),
    (
        "the second value is p",
        &[Number(56, PRIME)],
        Some(NotField(56)),
    ),
    (
        "the last value is p",
        &[Number(1648, PRIME)],
        Some(NotField(1648)),
    ),
    (
        "two values are p",
        &[Number(1648, PRIME), Number(56, PRIME)],
        Some(NotField(56)),
    ),
    ("p in two values", &[Number(52, PRIME)], None),
    (
        "a value is p in a cut file",
        &[Number(56, PRIME), Cut(1655)],
        Some(NotField(56)),
    ),
    (
        "p is whole at the end of a cut file",
        &[Number(56, PRIME), Cut(64)],
        Some(NotField(56)),
    ),
    ("p is cut", &[Number(56, PRIME), Cut(63)], Some(Length)),
    (
        "p is cut at the end",
        &[Number(1648, PRIME), Cut(1655)],
        Some(Length),
    ),
    (
        "p and one byte more",
        &[Number(1648, PRIME), More],
        Some(NotField(1648)),
    ),
    ("the first byte", &[Byte(0, b'c')], Some(Magic)),
    ("the eighth byte", &[Byte(7, b'2')], Some(Magic)),
    (
        "the fourth of four bytes",
        &[Byte(3, b'X'), Cut(4)],
        Some(Magic),
    ),
    ("a byte that is cut", &[Byte(4, b'X'), Cut(4)], Some(Length)),
    (
        "another text and a high count",
        &[Byte(7, b'2'), Number(8, u64::MAX)],
        Some(Magic),
    ),
    ("rows at the limit", &[Number(8, 1_048_576)], Some(Length)),
    (
        "rows above the limit",
        &[Number(8, 1_048_577)],
        Some(TooMany),
    ),
    (
        "range rows at the limit",
        &[Number(16, 262_144)],
        Some(Length),
    ),
    (
        "range rows above the limit",
        &[Number(16, 262_145)],
        Some(TooMany),
    ),
    (
        "memory fillers at the limit",
        &[Number(24, 2_097_152)],
        Some(Length),
    ),
    (
        "memory fillers above the limit",
        &[Number(24, 2_097_153)],
        Some(TooMany),
    ),
    (
        "sorted pairs at the limit",
        &[Number(32, 7_077_888)],
        Some(Length),
    ),
    (
        "sorted pairs above the limit",
        &[Number(32, 7_077_889)],
        Some(TooMany),
    ),
    (
        "range fillers at the limit",
        &[Number(40, 65_536)],
        Some(Length),
    ),
    (
        "range fillers above the limit",
        &[Number(40, 65_537)],
        Some(TooMany),
    ),
    (
        "a high count in 16 bytes",
        &[Number(8, 1_048_577), Cut(16)],
        Some(TooMany),
    ),
    (
        "a high count that is cut",
        &[Number(8, 1_048_577), Cut(15)],
        Some(Length),
    ),
    (
        "a high count and a value of p",
        &[Number(40, 65_537), Number(48, PRIME)],
        Some(TooMany),
    ),
    (
        "a count of 2^64 - 1",
        &[Number(32, u64::MAX)],
        Some(TooMany),
    ),
    ("a row too many", &[Number(8, 5)], Some(Length)),
    ("a row too few", &[Number(8, 3)], Some(Length)),
    (
        "p behind the last value",
        &[Number(8, 3), Number(1648, PRIME)],
        Some(Length),
    ),
    ("a range row too many", &[Number(16, 1)], Some(Length)),
    ("a pair too many", &[Number(32, 28)], Some(Length)),
    (
        "a pair too few and a filler more",
        &[Number(32, 26), Number(24, 1)],
        None,
    ),
    (
        "two range fillers and a pair less",
        &[Number(32, 25), Number(40, 2)],
        None,
    ),
    (
        "all counts at their limits",
        &[
            Number(8, 1_048_576),
            Number(16, 262_144),
            Number(24, 2_097_152),
            Number(32, 7_077_888),
            Number(40, 65_536),
        ],
        Some(Length),
    ),
    (
        "60 bytes with counts for 2^20 rows",
        &[Number(8, 1_048_576), Cut(60)],
        Some(Length),
    ),
];

#[test]
fn the_first_fault_is_told(rt: HostRuntime) {
    for (name, changes, fault) in CASES {
        let mut bytes = file(&rt, rt.alloc(), FOUR_STEPS);
        for change in *changes {
            make(&rt, &mut bytes, *change);
        }
        assert!(rt; read(rt.alloc(), &bytes).err() == *fault, "{name}");
    }
}

/// Puts one more number behind the others.
fn push_value(rt: &impl Abort, numbers: &mut Vec<u64>, value: Felt) {
    numbers.push(value.number).expect(rt, NO_MEMORY);
}

fn push_values(rt: &impl Abort, numbers: &mut Vec<u64>, values: &[Felt]) {
    for value in values {
        push_value(rt, numbers, *value);
    }
}

fn push_pairs(rt: &impl Abort, numbers: &mut Vec<u64>, pairs: &[Pair]) {
    for pair in pairs {
        push_value(rt, numbers, pair.addr);
        push_value(rt, numbers, pair.value);
    }
}

fn push_state(rt: &impl Abort, numbers: &mut Vec<u64>, state: State) {
    push_value(rt, numbers, state.pc);
    push_value(rt, numbers, state.ap);
    push_value(rt, numbers, state.fp);
}

fn push_range_row(rt: &impl Abort, numbers: &mut Vec<u64>, row: &RangeRow) {
    push_value(rt, numbers, row.value);
    push_value(rt, numbers, row.l0);
    push_value(rt, numbers, row.l1);
    push_value(rt, numbers, row.l2);
}

/// All values of the tables, list after list.
fn values_of(rt: &impl Abort, alloc: Global, tables: &Tables) -> Vec<u64> {
    let mut numbers = Vec::new(alloc);
    for row in &tables.rows {
        push_values(rt, &mut numbers, &row.values());
    }
    push_state(rt, &mut numbers, tables.last);
    for row in &tables.range {
        push_range_row(rt, &mut numbers, row);
    }
    push_pairs(rt, &mut numbers, &tables.memory.fill);
    push_pairs(rt, &mut numbers, &tables.memory.sorted);
    push_values(rt, &mut numbers, &tables.small.fill);
    push_values(rt, &mut numbers, &tables.small.sorted);
    numbers
}

/// How many items the lists have.
fn lengths(tables: &Tables) -> [usize; 6] {
    [
        tables.rows.len(),
        tables.range.len(),
        tables.memory.fill.len(),
        tables.memory.sorted.len(),
        tables.small.fill.len(),
        tables.small.sorted.len(),
    ]
}

/// Files: a name, their numbers, and how many items the lists have.
const FILES: &[(&str, &[u64], &[usize])] = &[
    ("a run of four steps", FOUR_STEPS, &[4, 0, 0, 27, 0, 12]),
    ("one of each", ONE_OF_EACH, &[1, 1, 1, 2, 1, 7]),
    (
        "tables with no row",
        &[0, 0, 0, 0, 0, 7, 8, 9],
        &[0, 0, 0, 0, 0, 0],
    ),
];

/// The texts of faults.
const TEXTS: &[(TableFault, &str)] = &[
    (Magic, "Magic"),
    (TooMany, "TooMany"),
    (NotField(48), "NotField 48"),
    (Length, "Length"),
];

#[test]
fn files_are_read_and_written_back(rt: HostRuntime) {
    let alloc = rt.alloc();
    for (name, numbers, counts) in FILES {
        let bytes = file(&rt, alloc, numbers);
        let tables = read(alloc, &bytes).expect(&rt, "the tables are read");
        assert!(rt; lengths(&tables).as_slice() == *counts, "{name}, counts");
        let values = values_of(&rt, alloc, &tables);
        assert!(rt;
            Some(values.as_slice()) == numbers.get(5..),
            "{name}, values"
        );
        let back = write(alloc, &tables).expect(&rt, NO_MEMORY);
        assert!(rt; back == bytes, "{name}, written");
    }
}

#[test]
fn faults_are_printed(rt: HostRuntime) {
    for (fault, text) in TEXTS {
        let printed = fault.to_string(rt.alloc()).expect(&rt, NO_MEMORY);
        assert!(rt; printed.as_str() == *text, "{text}");
    }
    assert!(rt; TABLES_LIMIT == 464519240);
}
