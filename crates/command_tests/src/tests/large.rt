//! Tables of a long run, which are built and checked, files above their most bytes, and public inputs of too many cells.

use super::check::CHECK;
use super::contents::Bytes::{Long, Numbers, Parts, Raw, Repeated, Text};
use super::contents::{Bytes, Part, said};
use super::loop_of_twenty::{FILLERS, FRONT, MEMORY, PROGRAM, PUBLIC, SORTED, TRACE};
use super::{Row, check_call, check_file, check_rows, store_of};
use cairo_commands::Status::{Done, Input, Limit};

const BUILD: &[&str] = &["tables", "P", "U", "S", "M", "T"];

/// The files of the run of twenty rounds, in the order of the words of `tables`.
const TWENTY: &[Bytes] = &[Text(PROGRAM), Text(PUBLIC), Numbers(TRACE), Numbers(MEMORY)];

/// Its program, its public input, and its tables.
const TABLES_OF_TWENTY: &[Part] = &[
    Part::Numbers(FRONT),
    Part::Runs(FILLERS),
    Part::Runs(SORTED),
];

const CHECKED: &[Row] = &[
    (
        "tables from outside",
        &[Text(PROGRAM), Text(PUBLIC), Parts(TABLES_OF_TWENTY)],
        Done,
        "check: accepted, 109 steps\n",
    ),
    (
        "a long public input",
        &[Text(PROGRAM), Long(0, 33554433), Raw(b"")],
        Limit,
        "limit: input 2\n",
    ),
    (
        "long tables",
        &[Text(PROGRAM), Text(PUBLIC), Long(0, 464519241)],
        Limit,
        "limit: input 3\n",
    ),
    (
        "2^18 entries",
        &[
            Text(PROGRAM),
            Repeated(ONE_ENTRY, ",0", 262143, "]}"),
            Raw(b""),
        ],
        Input,
        "input 2: Cell 0\n",
    ),
    (
        "one entry more",
        &[
            Text(PROGRAM),
            Repeated(ONE_ENTRY, ",0", 262144, "]}"),
            Raw(b""),
        ],
        Limit,
        "limit: input 2\n",
    ),
];

#[test]
fn a_loop_of_twenty_and_larger_files_are_checked(rt: HostRuntime) {
    check_rows(&rt, rt.alloc(), CHECK, CHECKED);
}

#[test]
fn the_tables_of_twenty_are_built(rt: HostRuntime) {
    let wanted = said(&rt, rt.alloc(), Parts(TABLES_OF_TWENTY));
    assert_eq!(rt; wanted.len(), 1027560);
    let mut store = store_of(&rt, rt.alloc(), BUILD, TWENTY, &[]);
    let built = (Done, "tables: 109 steps, 1027560 bytes\n");
    check_call(&rt, rt.alloc(), "built", BUILD, &mut store, built);
    check_file(&rt, "built", &store, "T", Some(&wanted));
    let accepted = (Done, "check: accepted, 109 steps\n");
    check_call(&rt, rt.alloc(), "checked", CHECK, &mut store, accepted);
}

/// A public input whose cells begin with an entry. Each entry is `0`, which is no cell.
const ONE_ENTRY: &str =
    r#"{"steps":4,"ap_first":"0xc","ap_last":"0xf","rc_min":32766,"rc_max":32769,"range_begin":"0x0","range_count":0,"cells":[0"#;
