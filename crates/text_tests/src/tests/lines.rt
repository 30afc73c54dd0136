//! Lines that are cut short and lines with a wrong token, at each place, and each statement with each operand and end.

use super::faults::fault;
use casm_text::parse;
use casm_tokens::{ParseFault, SyntaxKind, TEXT_LIMIT};
use std::alloc::{AllocError, Global};
use std::test::Fail;

/// Lines with a blank after each token. Below each stands `o` where the line may end.
const LINES: &[(&[u8], &[u8])] = &[
    (
        b"[ ap + 3 ] = [ fp - 2 ] ; ap ++ ; ",
        b"                       o o     o o",
    ),
    (
        b"[ fp ] = [ [ fp + 1 ] - 2 ] , ap ++ ",
        b"                           o       o",
    ),
    (
        b"[ ap ] = [ fp ] + - 1 ; ap ++ ",
        b"               o     o o     o",
    ),
    (
        b"[ ap ] = [ fp ] * [ ap - 1 ] ",
        b"               o            o",
    ),
    (b"[ ap ] = [ fp ] - 1 ", b"               o   o"),
    (b"[ ap ] = - 5 ; ", b"            o o"),
    (
        b"jmp rel [ ap ] + 1 ; ap ++ ",
        b"              o   o o     o",
    ),
    (b"jmp abs [ [ ap ] ] ", b"                  o"),
    (
        b"jmp rel - 7 if [ ap ] != 0 ; ap ++ ",
        b"           o              o o     o",
    ),
    (b"jmp f ; ap ++ ", b"     o o     o"),
    (b"jmp f if [ fp - 1 ] != 0 ", b"     o                  o"),
    (b"call rel [ fp ] ; ", b"               o o"),
    (b"call abs 4 ", b"          o"),
    (b"call f ; ", b"      o o"),
    (b"ret ; ", b"   o o"),
    (b"ap += [ ap ] * 2 ; ", b"            o   o o"),
    (b"dw - 1 ; ", b"      o o"),
    (b"f : ret ", b"   o   o"),
    (
        b"% builtins output range_check ",
        b"          o      o           o",
    ),
    (b"% start 7 ", b"         o"),
    (b"% end last ", b"          o"),
];

/// The fault of a line whose token at this place, or end, is wrong.
fn fault_at(i: usize) -> Option<ParseFault> {
    let column = u32::try_from(i).ok()?.checked_add(1)?;
    Some(ParseFault::Syntax {
        line: 1,
        column,
        kind: SyntaxKind::Token,
    })
}

/// The fault of the first bytes of a line, and then of the byte: no token of the lines is a colon, but after a label.
fn fault_with_other(
    alloc: Global,
    start: &[u8],
    byte: u8,
) -> Result<Option<ParseFault>, AllocError> {
    let mut other = start.to_vec(alloc)?;
    other.push(if byte == b':' { b'=' } else { b':' })?;
    Ok(fault(alloc, &other))
}

#[test]
fn lines_cut_short_and_with_a_wrong_token(rt: HostRuntime) -> Result<(), Fail> {
    for (text, ends) in LINES {
        let mut begins = true;
        for (i, byte) in text.iter().enumerate() {
            let start = text.get(..i).unwrap_or(b"");
            if *byte == b' ' {
                let may_end = ends.get(i) == Some(&b'o');
                let want = if may_end { None } else { fault_at(i) };
                assert!(rt; fault(rt.alloc(), start) == want, "before {i} of {text:?}");
            } else if begins {
                let found = fault_with_other(rt.alloc(), start, *byte)?;
                assert!(rt; found == fault_at(i), "at {i} of {text:?}");
            }
            begins = *byte == b' ';
        }
    }
    Ok(())
}

/// The ends of a line with an increment or none.
const ENDS: &[(&str, bool)] = &[
    ("", false),
    (" ;", false),
    ("; ap++", true),
    (", ap++", true),
    (";ap ++;", true),
    (" , ap++ ;", true),
];

/// What may stand around a line, and the number that the line has then.
const FRAMES: &[(&str, &str, u32)] = &[
    ("", "", 1),
    ("f:", " # why", 1),
    ("\n\r\n\t", "\t\r\n", 3),
    ("// a\n\n", "//\n\n", 3),
    ("# f: ret\n _ : ", "\n # end", 2),
];

/// Whether the last item of a text has this canonical text, and is on this line.
fn reads_as(alloc: Global, text: &str, line: u32, canonical: &str) -> Result<bool, AllocError> {
    let bytes = text.as_bytes();
    if bytes.len() > TEXT_LIMIT {
        return Ok(false);
    }
    let Ok(items) = parse(alloc, bytes) else {
        return Ok(false);
    };
    match items.as_slice().split_last() {
        Some((item, _)) => {
            let found = format!(in alloc; "{item}")?;
            Ok(found.as_str() == canonical && item.line == line)
        }
        None => Ok(false),
    }
}

/// Whether a statement reads as its canonical text with each end, also within other lines, and with an increment only where
/// it takes one.
fn reads_with_ends(
    alloc: Global,
    form: &str,
    canonical: &str,
    takes: bool,
) -> Result<bool, AllocError> {
    for (end, inc) in ENDS {
        let increment = if *inc { "; ap++" } else { "" };
        let wanted = format!(in alloc; "{canonical}{increment}")?;
        for (before, after, line) in FRAMES {
            let text = format!(in alloc; "{before}{form}{end}{after}")?;
            let reads = reads_as(alloc, text.as_str(), *line, wanted.as_str())?;
            if reads != (takes || !*inc) {
                return Ok(false);
            }
        }
    }
    Ok(true)
}

/// Operands, and their canonical texts.
const OPERANDS: &[(&str, &str)] = &[
    ("[fp - 3]", "[fp - 3]"),
    ("[[ap + 1] - 3]", "[[ap + 1] - 3]"),
    ("7", "7"),
    ("- 7", "-7"),
    ("[ap+1] + [fp-3]", "[ap + 1] + [fp - 3]"),
    ("[ap+1] + -7", "[ap + 1] + -7"),
    ("[ap+1] - 7", "[ap + 1] + -7"),
    ("[ap+1] * [fp-3]", "[ap + 1] * [fp - 3]"),
    ("[ap+1]*7", "[ap + 1] * 7"),
];

/// What stands before an operand, and whether the statement takes an increment.
const BEFORE_OPERANDS: &[(&str, bool)] = &[
    ("[fp - 3] = ", true),
    ("jmp rel ", true),
    ("jmp abs ", true),
    ("ap += ", false),
];

#[test]
fn every_statement_with_every_operand(rt: HostRuntime) -> Result<(), Fail> {
    let alloc = rt.alloc();
    for (operand, shown) in OPERANDS {
        for (before, takes) in BEFORE_OPERANDS {
            let form = format!(in alloc; "{before}{operand}")?;
            let canonical = format!(in alloc; "{before}{shown}")?;
            let reads = reads_with_ends(alloc, form.as_str(), canonical.as_str(), *takes)?;
            assert!(rt; reads, "{before} {operand}");
        }
    }
    Ok(())
}

/// Statements with a term, a name or none of both, their canonical texts, and whether they take an increment.
const STATEMENTS: &[(&str, &str, bool)] = &[
    (
        "jmp rel [fp - 3] if [ap + 1] != 0",
        "jmp rel [fp - 3] if [ap + 1] != 0",
        true,
    ),
    (
        "jmp rel 7 if [ap + 1] != 0",
        "jmp rel 7 if [ap + 1] != 0",
        true,
    ),
    (
        "jmp rel -7 if [ap + 1] != 0",
        "jmp rel -7 if [ap + 1] != 0",
        true,
    ),
    ("call rel [fp - 3]", "call rel [fp - 3]", false),
    ("call rel 7", "call rel 7", false),
    ("call rel -7", "call rel -7", false),
    ("call abs [fp - 3]", "call abs [fp - 3]", false),
    ("call abs 7", "call abs 7", false),
    ("call abs -7", "call abs -7", false),
    ("ret", "ret", false),
    ("dw 7", "dw 0x7", false),
    ("jmp g", "jmp g", true),
    ("jmp g if [ap+1]!=0x0", "jmp g if [ap + 1] != 0", true),
    ("call g", "call g", false),
];

#[test]
fn every_other_statement(rt: HostRuntime) -> Result<(), Fail> {
    for (form, canonical, takes) in STATEMENTS {
        assert!(rt;
            reads_with_ends(rt.alloc(), form, canonical, *takes)?,
            "{form}"
        );
    }
    Ok(())
}
