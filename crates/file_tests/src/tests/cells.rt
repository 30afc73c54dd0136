//! Lists of cells, and what they have at an address.

use super::{Felt, Global, LAST, NO_MEMORY, Pair, pairs_of};
use casm_word::Reads;
use std::process::Abort;
use trace_files::{CellList, read_memory, write_memory};

/// Addresses and values, and whether they are a list of cells.
const LISTS: &[(&str, &[(u64, u64)], bool)] = &[
    ("nothing", &[], true),
    ("one cell", &[(7, 9)], true),
    ("rising", &[(1, 5), (2, 5), (LAST, 0)], true),
    ("equal at the start", &[(1, 5), (1, 5), (2, 6)], false),
    ("equal at the end", &[(1, 5), (2, 5), (2, 6)], false),
    ("falling at the end", &[(1, 5), (3, 5), (2, 6)], false),
    ("falling at the start", &[(2, 5), (1, 5), (3, 6)], false),
    ("past p - 1", &[(LAST, 5), (0, 5)], false),
];

/// Lists, and what is found at addresses in them.
const LOOK_UPS: &[(&str, &[(u64, u64)], &[(u64, Option<u64>)])] = &[
    ("nothing", &[], &[(0, None), (1, None), (LAST, None)]),
    (
        "no gaps",
        &[(5, 50), (6, 60), (7, 70)],
        &[
            (0, None),
            (4, None),
            (5, Some(50)),
            (6, Some(60)),
            (7, Some(70)),
            (8, None),
            (LAST, None),
        ],
    ),
    (
        "gaps",
        &[(5, 50), (6, 60), (9, 90), (11, 0), (20, 200)],
        &[
            (4, None),
            (5, Some(50)),
            (6, Some(60)),
            (7, None),
            (8, None),
            (9, Some(90)),
            (10, None),
            (11, Some(0)),
            (12, None),
            (19, None),
            (20, Some(200)),
            (21, None),
        ],
    ),
    (
        "both ends of the field",
        &[(0, 1), (2, 3), (LAST, 4)],
        &[
            (0, Some(1)),
            (1, None),
            (2, Some(3)),
            (3, None),
            (LAST - 1, None),
            (LAST, Some(4)),
        ],
    ),
];

#[test]
fn only_rising_addresses_are_a_list(rt: HostRuntime) {
    for (name, numbers, is_list) in LISTS {
        let list = CellList::new(pairs_of(&rt, rt.alloc(), numbers));
        assert!(rt; list.is_some() == *is_list, "{name}");
        if let Some(list) = list {
            let pairs = pairs_of(&rt, rt.alloc(), numbers);
            assert!(rt; list.cells() == pairs.as_slice(), "{name}");
        }
    }
}

/// So many cells, at the addresses from 0 on, with the address plus 1 as the value.
fn row_of_cells(rt: &impl Abort, alloc: Global, count: u64) -> Vec<Pair> {
    let mut pairs = Vec::new(alloc);
    for i in 0..count {
        let addr = Felt::new(i).expect(rt, "the address is below p");
        let value = addr.add(Felt::ONE);
        pairs.push(Pair { addr, value }).expect(rt, NO_MEMORY);
    }
    pairs
}

#[test]
fn a_list_has_two_to_the_21_cells_at_most(rt: HostRuntime) {
    let alloc = rt.alloc();
    assert!(rt; CellList::new(row_of_cells(&rt, alloc, 2097153)).is_none());
    let most = row_of_cells(&rt, alloc, 2097152);
    let list = CellList::new(most).expect(&rt, "2^21 cells");
    let bytes = write_memory(alloc, &list).expect(&rt, NO_MEMORY);
    assert!(rt; bytes.len() == 33554432);
    let read = read_memory(alloc, &bytes).expect(&rt, "2^21 cells are read");
    assert!(rt; read.cells().len() == 2097152);
    assert!(rt; value_at(&rt, &read, 2097151) == Some(2097152));
}

/// The value at an address of the list.
fn value_at(rt: &impl Abort, list: &CellList, address: u64) -> Option<u64> {
    let address = Felt::new(address).expect(rt, "the address is below p");
    Some(list.read(address)?.number)
}

#[test]
fn cells_are_found_at_their_addresses(rt: HostRuntime) {
    for (name, numbers, look_ups) in LOOK_UPS {
        let pairs = pairs_of(&rt, rt.alloc(), numbers);
        let list = CellList::new(pairs).expect(&rt, "rising addresses");
        for (address, value) in *look_ups {
            let found = value_at(&rt, &list, *address);
            assert!(rt; found == *value, "{name} at {address}");
        }
    }
}
