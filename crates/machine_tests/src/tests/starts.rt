//! The segments of a run, the memory and the state in which it starts, and the placing of cells.
use super::segment_values::{Plain, Refusal, at, cause_of, value_of};
use super::{NO_MEMORY, check_text};
use Plain::{Num, Ptr};
use Refusal::{CellLimit, Conflict, Fixed, NoSegment};
use builtin_segments::{CellCause, CellFault, Layout, first_state, place_cell, start_segments};
use goldilocks::Felt;
use hint_cells::EXTRA_LIMIT;
use program_file::{Builtins, Program};
use segments::{RelState, Segments};
use std::alloc::{AllocError, Global};
use std::process::Abort;

/// Whether there are the output and the range checks; their segments, and the first extra one.
const LAYOUTS: &[(bool, bool, Option<u32>, Option<u32>, u32)] = &[
    (false, false, None, None, 2),
    (true, false, Some(2), None, 3),
    (false, true, None, Some(2), 3),
    (true, true, Some(2), Some(3), 4),
];

#[test]
fn segments_are_laid_out(rt: HostRuntime) {
    for (output, range, output_seg, range_seg, first_extra) in LAYOUTS {
        let found = Layout::of(Builtins {
            output: *output,
            range: *range,
        });
        assert!(rt; found.output == *output_seg, "output, {first_extra}");
        assert!(rt; found.range == *range_seg, "range, {first_extra}");
        assert!(rt; found.first_extra == *first_extra, "{first_extra}");
    }
}

/// A program of the words 10, 11 and 12 that starts at the second one.
fn three_words(rt: &impl Abort, alloc: Global, output: bool, range: bool) -> Program {
    let words = vec![in alloc; Felt::of_u128(10), Felt::of_u128(11), Felt::of_u128(12)].expect(
        rt, NO_MEMORY,
    );
    Program::new(words, 1, 2, Builtins { output, range }).expect(rt, "the places are inside")
}

/// A name, whether there are the output and the range checks, how many extra segments there are, all sizes, and the cells
/// of the execution segment.
type Start = (
    &'static str,
    bool,
    bool,
    u32,
    &'static [u32],
    &'static [Plain],
);

const STARTS: &[Start] = &[
    ("no builtin", false, false, 0, &[3, 2], &[Ptr(1, 2), Num(0)]),
    (
        "two extra segments",
        false,
        false,
        2,
        &[3, 2, 0, 0],
        &[Ptr(1, 2), Num(0)],
    ),
    (
        "output",
        true,
        false,
        1,
        &[3, 3, 0, 0],
        &[Ptr(1, 2), Num(0), Ptr(2, 0)],
    ),
    (
        "range",
        false,
        true,
        0,
        &[3, 3, 0],
        &[Ptr(1, 2), Num(0), Ptr(2, 0)],
    ),
    (
        "both",
        true,
        true,
        2,
        &[3, 4, 0, 0, 0, 0],
        &[Ptr(1, 2), Num(0), Ptr(2, 0), Ptr(3, 0)],
    ),
];

/// The memory in which the program starts.
fn started(rt: &impl Abort, alloc: Global, program: &Program, extra: u32) -> Segments {
    assert!(rt; extra <= EXTRA_LIMIT);
    start_segments(alloc, program, extra).expect(rt, NO_MEMORY)
}

/// Compares the number of segments, and each size.
fn check_sizes(rt: &impl Abort, memory: &Segments, want: &[u32], name: &str) {
    assert!(rt; memory.count() as usize == want.len(), "{name}: segments");
    for (seg, size) in want.iter().enumerate() {
        let seg = seg as u32;
        assert!(rt; seg < memory.count());
        assert!(rt; memory.size(seg) == *size, "{name}: size of {seg}");
    }
}

#[test]
fn runs_start_with_words_and_stack(rt: HostRuntime) {
    let alloc = rt.alloc();
    for (name, output, range, extra, sizes, stack) in STARTS {
        let program = three_words(&rt, alloc, *output, *range);
        let memory = started(&rt, alloc, &program, *extra);
        check_sizes(&rt, &memory, sizes, name);
        for (off, want) in [Num(10), Num(11), Num(12)].iter().enumerate() {
            let found = memory.get(at(0, off as u32));
            assert!(rt; found == Some(value_of(*want)), "{name}: word {off}");
        }
        for (off, want) in stack.iter().enumerate() {
            let found = memory.get(at(1, off as u32));
            assert!(rt; found == Some(value_of(*want)), "{name}: stack {off}");
        }
        let state = RelState {
            pc: at(0, 1),
            ap: at(1, 2),
            fp: at(1, 2),
        };
        assert!(rt; first_state(&program) == state, "{name}: first state");
    }
}

/// A place and a value, one after another in one run, and why it is refused.
const PLACED: &[(u32, u32, Plain, Option<Refusal>)] = &[
    // an empty cell, the same again, and another value
    (2, 0, Num(5), None),
    (2, 0, Num(5), None),
    (2, 0, Num(6), Some(Conflict(Num(5)))),
    (2, 1, Ptr(2, 7), None),
    (2, 1, Num(6), Some(Conflict(Ptr(2, 7)))),
    // what is held at the start
    (0, 0, Num(10), None),
    (0, 0, Num(11), Some(Conflict(Num(10)))),
    (1, 0, Ptr(1, 2), None),
    (1, 1, Num(1), Some(Conflict(Num(0)))),
    // a segment that isn't there, past the program, and past the limit
    (3, 0, Num(5), Some(NoSegment)),
    (2, 2, Ptr(3, 0), Some(NoSegment)),
    (0, 3, Num(5), Some(Fixed)),
    (2, 2097147, Num(5), Some(CellLimit)),
];

#[test]
fn cells_are_placed(rt: HostRuntime) {
    let alloc = rt.alloc();
    let program = three_words(&rt, alloc, false, false);
    let mut memory = started(&rt, alloc, &program, 1);
    for (seg, off, plain, refusal) in PLACED {
        let want = match refusal {
            None => Ok(()),
            Some(refusal) => Err(CellFault::from(CellCause::Put(cause_of(*refusal)))),
        };
        let found = place_cell(alloc, &mut memory, at(*seg, *off), value_of(*plain));
        assert!(rt; found == want, "{seg}:{off}");
    }
    assert!(rt; memory.total() == 7);
    assert!(rt; CellFault::from(AllocError) == CellFault::Memory);
}

/// A cause and its text.
const CAUSES: &[(Refusal, &str)] = &[
    (NoSegment, "NoSegment"),
    (Fixed, "Fixed"),
    (CellLimit, "CellLimit"),
    (Conflict(Num(5)), "Conflict 5"),
    (Conflict(Ptr(2, 1)), "Conflict 2:1"),
];

#[test]
fn causes_print(rt: HostRuntime) {
    for (refusal, want) in CAUSES {
        check_text(&rt, rt.alloc(), &CellCause::Put(cause_of(*refusal)), want);
    }
}
