//! Statements, their words and immediates, and their canonical texts.

use casm_statements::{Body, Cell, Item, Name, Operand, Reg, Stmt, Term, of_word, to_word};
use casm_text::parse;
use casm_tokens::TEXT_LIMIT;
use casm_word::decode;
use goldilocks::Felt;
use std::alloc::{AllocError, Global};
use std::test::Fail;

/// The statement that a text is.
fn statement(alloc: Global, text: &str) -> Option<Stmt> {
    let text = text.as_bytes();
    if text.len() > TEXT_LIMIT {
        return None;
    }
    let items = parse(alloc, text).ok()?;
    match items.first()?.body {
        Body::Stmt(stmt) => Some(stmt),
        _ => None,
    }
}

/// A statement, its word and its immediate.
const STATEMENTS: &[(&str, u64, Option<u64>)] = &[
    ("ret", 0x208b7fff7fff7ffe, None),
    ("call rel 5", 0x1104800180018000, Some(5)),
    ("call abs [fp - 2]", 0x10887ffe80018000, None),
    ("jmp rel 5", 0x010780017fff7fff, Some(5)),
    ("jmp rel 5; ap++", 0x090780017fff7fff, Some(5)),
    ("jmp rel [fp - 2]", 0x010b7ffe7fff7fff, None),
    ("jmp abs [fp - 1] + [fp - 2]", 0x00ab7ffe7fff7fff, None),
    (
        "[ap] = -1; ap++",
        0x480680017fff8000,
        Some(0xffffffff00000000),
    ),
    ("ap += 5", 0x040780017fff7fff, Some(5)),
    ("ap += [fp - 2]", 0x040b7ffe7fff7fff, None),
    ("jmp rel 5 if [fp - 3] != 0", 0x020780017fff7ffd, Some(5)),
    (
        "jmp rel 5 if [fp - 3] != 0; ap++",
        0x0a0780017fff7ffd,
        Some(5),
    ),
    ("jmp rel 5 if [ap - 1] != 0", 0x020680017fff7fff, Some(5)),
    ("[ap] = [[fp]]; ap++", 0x4802800080008000, None),
    ("[ap] = [fp] + 5; ap++", 0x4826800180008000, Some(5)),
    ("[ap - 1] = [[fp]]", 0x4002800080007fff, None),
    ("[ap] = [fp - 3]; ap++", 0x480a7ffd7fff8000, None),
    ("[ap - 2] = [[ap - 3]]", 0x400080007ffd7ffe, None),
    ("[ap] = [ap - 3] + 5; ap++", 0x482480017ffd8000, Some(5)),
    ("[ap - 2] = [[fp - 4]]", 0x400280007ffc7ffe, None),
    ("[ap] = [fp - 4] + 5; ap++", 0x482680017ffc8000, Some(5)),
    ("[ap] = [ap - 4]; ap++", 0x48127ffc7fff8000, None),
    ("[ap] = [ap - 2]", 0x40127ffe7fff8000, None),
    ("[ap] = [fp - 1] * [fp - 2]", 0x404a7ffe7fff8000, None),
    ("[ap] = [fp - 1] + [fp - 2]", 0x402a7ffe7fff8000, None),
    ("[fp - 3] = [[ap + 1] - 3]", 0x40017ffd80017ffd, None),
    ("[fp - 3] = [ap + 1] + [fp - 3]", 0x40297ffd80017ffd, None),
    ("[fp - 3] = [ap + 1] * 7", 0x4045800180017ffd, Some(7)),
    ("jmp abs [ap + 1] * [fp - 3]", 0x00c97ffd80017fff, None),
];

/// Whether the text is the statement of this word and immediate, and of the word with an immediate too many or too few
/// there is none.
fn is_written(
    alloc: Global,
    text: &str,
    number: u64,
    imm: Option<u64>,
) -> Result<bool, AllocError> {
    let Ok(word) = decode(number) else {
        return Ok(false);
    };
    let Some(stmt) = statement(alloc, text) else {
        return Ok(false);
    };
    let imm = imm.and_then(Felt::new);
    let other = if imm.is_none() { Some(Felt::ONE) } else { None };
    let shown = format!(in alloc; "{stmt}")?;
    Ok(
        shown.as_str() == text
            && to_word(&stmt) == (word, imm)
            && of_word(&word, imm) == Some(stmt)
            && of_word(&word, other).is_none(),
    )
}

#[test]
fn statements_and_words(rt: HostRuntime) -> Result<(), Fail> {
    for (text, number, imm) in STATEMENTS {
        assert!(rt; is_written(rt.alloc(), text, *number, *imm)?, "{text}");
    }
    Ok(())
}

/// Whether the text is the assertion of this operand.
fn asserts(alloc: Global, text: &str, res: Operand) -> bool {
    let dst = Cell {
        reg: Reg::Ap,
        off: 0,
    };
    let inc = false;
    statement(alloc, text) == Some(Stmt::Assert { dst, res, inc })
}

#[test]
fn operands_are_read(rt: HostRuntime) {
    let alloc = rt.alloc();
    let five = Felt { number: 5 };
    let low = Cell {
        reg: Reg::Fp,
        off: -3,
    };
    let high = Cell {
        reg: Reg::Ap,
        off: 1,
    };
    assert!(rt; asserts(alloc, "[ap] = [fp - 3]", Operand::Deref(low)));
    assert!(rt; asserts(alloc, "[ap] = [[fp - 3]]", Operand::Double(low, 0)));
    assert!(rt; asserts(alloc, "[ap] = [[ap + 1] - 7]", Operand::Double(high, -7)));
    assert!(rt; asserts(alloc, "[ap] = 5", Operand::Imm(five)));
    assert!(rt;
        asserts(
            alloc,
            "[ap] = [fp - 3] + [ap + 1]",
            Operand::Sum(low, Term::Cell(high))
        )
    );
    assert!(rt;
        asserts(
            alloc,
            "[ap] = [fp - 3] + 5",
            Operand::Sum(low, Term::Imm(five))
        )
    );
    assert!(rt;
        asserts(
            alloc,
            "[ap] = [ap + 1] * [fp - 3]",
            Operand::Product(high, Term::Cell(low))
        )
    );
    assert!(rt;
        asserts(
            alloc,
            "[ap] = [ap + 1] * 5",
            Operand::Product(high, Term::Imm(five))
        )
    );
}

#[test]
fn statements_are_read(rt: HostRuntime) {
    let alloc = rt.alloc();
    let low = Cell {
        reg: Reg::Fp,
        off: -3,
    };
    let jump = Stmt::Jump {
        abs: true,
        res: Operand::Deref(low),
        inc: true,
    };
    let branch = Stmt::Branch {
        cond: low,
        to: Term::Cell(low),
        inc: false,
    };
    let call = Stmt::Call {
        abs: false,
        to: Term::Cell(low),
    };
    let moved = Stmt::AddAp {
        res: Operand::Deref(low),
    };
    assert!(rt; statement(alloc, "ret") == Some(Stmt::Ret));
    assert!(rt; statement(alloc, "jmp abs [fp - 3]; ap++") == Some(jump));
    assert!(rt; statement(alloc, "jmp rel [fp - 3] if [fp - 3] != 0") == Some(branch));
    assert!(rt; statement(alloc, "call rel [fp - 3]") == Some(call));
    assert!(rt; statement(alloc, "ap += [fp - 3]") == Some(moved));
}

/// Words that no statement has.
const OTHERS: &[u64] = &[
    // `ret` with another offset, with ap as its register, with ap++
    0x208b7fff7fff7fff,
    0x208a7fff7fff7ffe,
    0x288b7fff7fff7ffe,
    // `[ap] = [fp - 3]` with a spare offset of op0, `ap += [fp - 3]` and a spare offset of dst
    0x400a7ffd80008000,
    0x040b7ffd7fff8000,
    // no flags at all
    0x0000800080008000,
    0x0000800080000000,
];

#[test]
fn words_without_statements(rt: HostRuntime) {
    for number in OTHERS {
        let stmt = decode(*number).map(|word| of_word(&word, None));
        assert!(rt; stmt == Ok(None), "{number}");
    }
}

#[test]
fn items_are_shown(rt: HostRuntime) -> Result<(), Fail> {
    let stmt = Stmt::Branch {
        cond: Cell {
            reg: Reg::Fp,
            off: -3,
        },
        to: Term::Imm(Felt::ONE.neg()),
        inc: true,
    };
    let text = format!(in rt.alloc(); "{stmt}")?;
    assert!(rt;
        text.as_str() == "jmp rel -1 if [fp - 3] != 0; ap++",
        "a branch"
    );
    if let Some(name) = Name::new(rt.alloc(), b"loop".as_slice())? {
        let body = Body::CallTo(name);
        let item = Item { line: 7, body };
        let text = format!(in rt.alloc(); "{item}")?;
        assert!(rt; text.as_str() == "call loop", "a call");
    } else {
        assert!(rt; false, "a label");
    }
    Ok(())
}
