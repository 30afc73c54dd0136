//! The rows of the trace table.

ghost use Rattle.std.specs.Prelude.{◌%◌, ◌==◌, find, option_map};
ghost use Rattle.goldilocks.specs.Field.{prime};

use super::felt;
use super::worked_rows::{
    ASSERTED_JUMPS, BOTH_RES_FLAGS, CALLS_THAT_MOVE_AP, FOUR_STEPS, FOUR_STEPS_CELLS,
    JUMP_NOT_TAKEN, JUMP_NOT_TAKEN_CELLS, JUMP_TAKEN, JUMP_TAKEN_CELLS, JUMP_WITH_ASSERTION,
    JUMP_WITH_ASSERTION_CELLS, LEAST, OFFSET_OUT_OF_RANGE, RAISED,
};
use casm_word::{Reads, State};
use cpu_rows::{Row, build_row, first_fault, row_fault};
use goldilocks::{Felt, PRIME};
use std::process::Abort;

/// The 33 values of a row, and then the next state's pc, ap and fp.
type Values = [u64; 36];

/// The values of a row as a text has them.
fn values(text: &str) -> Values {
    let mut values = [0; 36];
    for (value, word) in values.iter_mut().zip(text.split(' ')) {
        *value = word.parse().unwrap_or(0);
    }
    values
}

/// The row of these values.
fn row(values: &Values) -> Row {
    let mut felts = [Felt::ZERO; 33];
    for (place, value) in felts.iter_mut().enumerate() {
        if place < 33 {
            *value = felt(values[place]);
        }
    }
    Row::of_values(&felts)
}

/// The next state of these values.
fn next(values: &Values) -> State {
    State {
        pc: felt(values[33]),
        ap: felt(values[34]),
        fp: felt(values[35]),
    }
}

/// Compares the least equation that fails for these values.
fn check_fault(rt: &impl Abort, name: &str, values: &Values, wanted: Option<u8>) {
    let found = row_fault(&row(values), next(values));
    assert!(rt; found == wanted, "{name}");
}

/// Rows that meet all equations.
const WORKED: &[&[&str]] = &[
    FOUR_STEPS,
    JUMP_TAKEN,
    JUMP_NOT_TAKEN,
    OFFSET_OUT_OF_RANGE,
    JUMP_WITH_ASSERTION,
];

#[test]
fn worked_rows_meet_the_equations(rt: HostRuntime) {
    for table in WORKED {
        for text in *table {
            check_fault(&rt, text, &values(text), None);
        }
    }
    let mut wrong_t1 = values(JUMP_TAKEN[1]);
    wrong_t1[32] = 2;
    check_fault(&rt, "t1 is 2", &wrong_t1, Some(24));
    let mut wrong_pc = values(FOUR_STEPS[3]);
    wrong_pc[33] = 6;
    check_fault(&rt, "next pc is 6", &wrong_pc, Some(26));
}

/// The values of the first of the four steps, where the one at this place is raised by 1.
fn raised(place: usize) -> Values {
    let mut values = values(FOUR_STEPS[0]);
    if let Some(value) = values.get_mut(place) {
        *value = (*value % PRIME) + 1;
    }
    values
}

/// Rows with the least equation that fails.
const FAILING: &[&[(u8, &str)]] = &[LEAST, BOTH_RES_FLAGS, CALLS_THAT_MOVE_AP, ASSERTED_JUMPS];

#[test]
fn tells_the_least_that_fails(rt: HostRuntime) {
    for (place, (name, number)) in RAISED.iter().enumerate() {
        let wanted = if *number == 0 { None } else { Some(*number) };
        check_fault(&rt, name, &raised(place), wanted);
    }
    for table in FAILING {
        for (number, text) in *table {
            check_fault(&rt, text, &values(text), Some(*number));
        }
    }
}

/// Compares the first row that fails, and its least equation.
fn check_first(
    rt: &impl Abort,
    name: &str,
    rows: &[Row],
    last: State,
    wanted: Option<(usize, u8)>,
) {
    assert!(rt; first_fault(rows, last) == wanted, "{name}");
}

#[test]
fn tells_the_first_row(rt: HostRuntime) {
    let last = next(&values(FOUR_STEPS[3]));
    let rows = [
        row(&values(FOUR_STEPS[0])),
        row(&values(FOUR_STEPS[1])),
        row(&values(FOUR_STEPS[2])),
        row(&values(FOUR_STEPS[3])),
    ];
    check_first(&rt, "four steps", &rows, last, None);
    check_first(&rt, "no rows", &[], last, None);
    let other = State {
        pc: felt(6),
        ap: last.ap,
        fp: last.fp,
    };
    check_first(&rt, "last pc is 6", &rows, other, Some((3, 26)));
    let mut with_mul = rows;
    with_mul[1].mul = felt(21);
    with_mul[2].t1 = felt(1);
    check_first(&rt, "mul raised", &with_mul, other, Some((1, 21)));
    let swapped = [rows[0], rows[2]];
    let last = rows[3].state();
    check_first(&rt, "a row is missing", &swapped, last, Some((0, 26)));
}

/// A memory by its list of cells.
#[derive(Clone, Copy)]
struct Listed<'a>(&'a [(u64, u64)]);

impl Reads for Listed<'_> {
    ghost cells = { λ m a. option_map (λ cell. cell.1 % prime) (find (λ cell. cell.0 == a) m.0.now) };

    fn read(&self, a: Felt) -> Option<Felt> {
        self.0
            .iter()
            .find(|cell| cell.0 == a.number)
            .map(|cell| felt(cell.1))
    }
}

/// A name, rows, and the memory that they are built from.
type Built = (&'static str, &'static [&'static str], &'static [(u64, u64)]);

const BUILT: &[Built] = &[
    ("four steps", FOUR_STEPS, FOUR_STEPS_CELLS),
    ("jump taken", JUMP_TAKEN, JUMP_TAKEN_CELLS),
    ("jump not taken", JUMP_NOT_TAKEN, JUMP_NOT_TAKEN_CELLS),
    (
        "jump with an assertion",
        JUMP_WITH_ASSERTION,
        JUMP_WITH_ASSERTION_CELLS,
    ),
];

#[test]
fn builds_the_worked_rows(rt: HostRuntime) {
    for (name, rows, cells) in BUILT {
        let m = Listed(cells);
        for text in *rows {
            let values = values(text);
            let expected = row(&values);
            let from = expected.state();
            let to = next(&values);
            assert!(rt; build_row(&m, from, to) == Some(expected), "{name}");
            let other = State {
                pc: to.pc,
                ap: to.ap.add(Felt::ONE),
                fp: to.fp,
            };
            assert!(rt; build_row(&m, from, other).is_none(), "{name}, another ap");
            assert!(rt;
                build_row(&Listed(&[]), from, to).is_none(),
                "{name}, no cells"
            );
        }
    }
}

#[test]
fn keeps_the_order_of_the_columns(rt: HostRuntime) {
    let expected = values(JUMP_TAKEN[1]);
    let built = row(&expected);
    let found = built.values();
    for (place, value) in found.iter().enumerate() {
        if place < 36 {
            assert!(rt; value.number == expected[place], "column {place}");
        }
    }
    assert!(rt; Row::of_values(&found) == built);
    assert!(rt; built.tilde[0].number == 518);
    assert!(rt; built.tilde[15].number == 0);
    assert!(rt; built.t1.number == 1);
}
