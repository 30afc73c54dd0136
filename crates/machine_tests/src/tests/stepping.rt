//! Steps, each with the memory that it reads.
ghost use Rattle.std.specs.Prelude.{◌≡◌, ◌%◌, ◌==◌, find, option_map};
ghost use Rattle.goldilocks.specs.Field.{prime};

use super::check_text;
use casm_word::{Reads, Shape, State, StepResult, WordFault, step};
use goldilocks::{Felt, PRIME};

/// A number of the field.
pub(crate) fn felt(number: u64) -> Felt
    ensures { result.number ≡ number % prime }
{
    Felt {
        number: number % PRIME,
    }
}

/// A memory by its list of cells.
#[derive(Clone, Copy)]
pub(crate) struct Cells<'a>(pub(crate) &'a [(u64, u64)]);

impl Reads for Cells<'_> {
    ghost cells = { λ m a. option_map (λ cell. cell.1 % prime) (find (λ cell. cell.0 == a) m.0.now) };

    fn read(&self, a: Felt) -> Option<Felt> {
        self.0
            .iter()
            .find(|cell| cell.0 == a.number)
            .map(|cell| felt(cell.1))
    }
}

/// The state with these registers: pc, ap and fp.
pub(crate) fn state(registers: (u64, u64, u64)) -> State {
    State {
        pc: felt(registers.0),
        ap: felt(registers.1),
        fp: felt(registers.2),
    }
}

/// What a step comes to, in plain numbers.
#[derive(Clone, Copy)]
pub(crate) enum Answer {
    /// The next pc, ap and fp.
    Next(u64, u64, u64),
    /// The address of the missing cell.
    NoCell(u64),
    /// An undefined word.
    Undefined(Shape),
    HighBit,
    CallPc,
    CallFp,
    NotEqual,
}

use Answer::{CallFp, CallPc, HighBit, Next, NoCell, NotEqual, Undefined};

/// The answer as `step` gives it.
pub(crate) fn result_of(answer: Answer) -> StepResult {
    match answer {
        Next(pc, ap, fp) => StepResult::Next(state((pc, ap, fp))),
        NoCell(address) => StepResult::NoCell(felt(address)),
        Undefined(shape) => StepResult::BadWord(WordFault::Undefined(shape)),
        HighBit => StepResult::BadWord(WordFault::HighBit),
        CallPc => StepResult::CallPc,
        CallFp => StepResult::CallFp,
        NotEqual => StepResult::NotEqual,
    }
}

/// p - 1, which is -1 in the field.
const LAST: u64 = PRIME - 1;

/// `[ap] = imm; ap++`
const STORE: (u64, u64) = (1, 0x480680017fff8000);

/// `call rel imm`
const CALL: (u64, u64) = (1, 0x1104800180018000);

/// `jmp rel imm if [fp - 3] != 0`
const BRANCH: (u64, u64) = (1, 0x020780017fff7ffd);

/// `[ap] = [fp - 1] * [fp - 2]`
const PRODUCT: (u64, u64) = (1, 0x404a7ffe7fff8000);

/// The cells of a memory, and what the step at pc 1, ap 10 and fp 20 comes to there.
const STEPS: &[(&[(u64, u64)], Answer)] = &[
    // the causes in their order
    (&[], NoCell(1)),
    (&[(1, 0x8000000000000000), (10, 0)], HighBit),
    (&[(1, 0x486680017fff8000)], Undefined(Shape::Res)),
    (&[STORE], NoCell(10)),
    (&[STORE, (10, 25)], NoCell(19)),
    (&[STORE, (10, 25), (19, 0)], NoCell(2)),
    (&[STORE, (10, 25), (19, 0), (2, 26)], NotEqual),
    (&[STORE, (10, 25), (19, 0), (2, 25)], Next(3, 11, 20)),
    (&[CALL, (2, 4), (10, 20), (11, 3)], Next(5, 12, 12)),
    (&[CALL, (2, 4), (10, 20), (11, 4)], CallPc),
    (&[CALL, (2, 4), (10, 21), (11, 4)], CallPc),
    (&[CALL, (2, 4), (10, 21), (11, 3)], CallFp),
    // a call that adds 1 to ap, too
    (
        &[(1, 0x1904800180018000), (2, 4), (10, 20), (11, 3)],
        Undefined(Shape::CallAp),
    ),
    // a conditional jump, also with ap++
    (&[BRANCH, (2, 7), (17, 0), (19, 0)], Next(3, 10, 20)),
    (&[BRANCH, (2, 7), (17, 1), (19, 0)], Next(8, 10, 20)),
    (&[BRANCH, (2, LAST), (17, LAST), (19, 0)], Next(0, 10, 20)),
    (
        &[(1, 0x0a0780017fff7ffd), (2, 7), (17, 0), (19, 0)],
        Next(3, 11, 20),
    ),
    // `[ap] = [[fp]]; ap++`, `[ap] = [ap - 2]`
    (
        &[(1, 0x4802800080008000), (10, 9), (20, 30), (30, 9)],
        Next(2, 11, 20),
    ),
    (
        &[(1, 0x40127ffe7fff8000), (8, 6), (10, 6), (19, 0)],
        Next(2, 10, 20),
    ),
    // `[ap] = [fp - 1] * [fp - 2]`, `[ap] = [fp - 1] + [fp - 2]`
    (&[PRODUCT, (10, 1), (18, LAST), (19, LAST)], Next(2, 10, 20)),
    (&[PRODUCT, (10, 0), (18, LAST), (19, LAST)], NotEqual),
    (
        &[(1, 0x402a7ffe7fff8000), (10, 1), (18, 3), (19, PRIME - 2)],
        Next(2, 10, 20),
    ),
    // `jmp abs [fp - 1] + [fp - 2]`, `jmp rel [fp - 2]`, `ap += [fp - 2]`, `call abs [fp - 2]`
    (
        &[(1, 0x00ab7ffe7fff7fff), (18, 2), (19, 40)],
        Next(42, 10, 20),
    ),
    (
        &[(1, 0x010b7ffe7fff7fff), (18, 5), (19, 0)],
        Next(6, 10, 20),
    ),
    (
        &[(1, 0x040b7ffe7fff7fff), (18, PRIME - 3), (19, 0)],
        Next(2, 7, 20),
    ),
    (
        &[(1, 0x10887ffe80018000), (10, 20), (11, 2), (18, 50)],
        Next(50, 12, 12),
    ),
    // a jump by [fp - 2] that asserts that [ap] is the same, and one to it
    (
        &[(1, 0x410a7ffe7fff8000), (10, 5), (18, 5), (19, 0)],
        Next(6, 10, 20),
    ),
    (
        &[(1, 0x410a7ffe7fff8000), (10, 6), (18, 5), (19, 0)],
        NotEqual,
    ),
    (
        &[(1, 0x408a7ffe7fff8000), (10, 5), (18, 5), (19, 0)],
        Next(5, 10, 20),
    ),
    (
        &[(1, 0x408a7ffe7fff8000), (10, 6), (18, 5), (19, 0)],
        NotEqual,
    ),
];

#[test]
fn steps_and_their_causes(rt: HostRuntime) {
    for (row, (cells, answer)) in STEPS.iter().enumerate() {
        let found = step(&Cells(cells), state((1, 10, 20)));
        assert!(rt; found == result_of(*answer), "row {row}");
    }
    // sums of addresses go past the last one, and below 0
    let around = Cells(&[(1, 0x4002800080007fff), (LAST, 9), (20, 30), (30, 9)]);
    let found = step(&around, state((1, 0, 20)));
    assert!(rt; found == result_of(Next(2, 0, 20)), "around");
    let at_end = Cells(&[(LAST, 0x00037fff7fff7fff), (19, 21), (20, 0)]);
    let found = step(&at_end, state((LAST, 10, 20)));
    assert!(rt; found == result_of(Next(0, 10, 20)), "at the end");
}

/// What a step comes to, and its text.
const CAUSES: &[(Answer, &str)] = &[
    (Next(1, 2, 3), "Mismatch"),
    (NoCell(LAST), "NoCell 18446744069414584320"),
    (HighBit, "BadWord HighBit"),
    (Undefined(Shape::Op1), "BadWord Undefined Op1"),
    (Undefined(Shape::Res), "BadWord Undefined Res"),
    (Undefined(Shape::Pc), "BadWord Undefined Pc"),
    (Undefined(Shape::Opcode), "BadWord Undefined Opcode"),
    (Undefined(Shape::ApBoth), "BadWord Undefined ApBoth"),
    (Undefined(Shape::JnzOpcode), "BadWord Undefined JnzOpcode"),
    (Undefined(Shape::JnzAp), "BadWord Undefined JnzAp"),
    (Undefined(Shape::CallAp), "BadWord Undefined CallAp"),
    (CallPc, "CallPc"),
    (CallFp, "CallFp"),
    (NotEqual, "NotEqual"),
];

#[test]
fn causes_print(rt: HostRuntime) {
    for (answer, text) in CAUSES {
        check_text(&rt, rt.alloc(), &result_of(*answer), text);
    }
}
