//! Forms of lines and their canonical texts.

use casm_text::{parse, print, read_back};
use casm_tokens::TEXT_LIMIT;
use std::alloc::{AllocError, Global};
use std::test::Fail;

/// Whether a text means what has this canonical text: as it is printed, as what is read back of that is printed, and as
/// each item is shown.
fn is_canonical(alloc: Global, text: &[u8], canonical: &[u8]) -> Result<bool, AllocError> {
    if text.len() > TEXT_LIMIT {
        return Ok(false);
    }
    let Ok(items) = parse(alloc, text) else {
        return Ok(false);
    };
    let printed = print(alloc, &items)?;
    let Some(again) = read_back(alloc, &items)? else {
        return Ok(false);
    };
    let again = print(alloc, &again)?;
    let mut shown = String::new(alloc);
    for item in &items {
        writeln!(shown, "{item}")?;
    }
    Ok(
        printed.as_slice() == canonical
            && again.as_slice() == canonical
            && shown.as_bytes() == canonical,
    )
}

/// A text, and its canonical text.
const FORMS: &[(&[u8], &[u8])] = &[
    (b"", b""),
    (b"\n \t\r\n# nothing\n", b""),
    (b"ret", b"ret\n"),
    (b"ret;", b"ret\n"),
    (b"\tret ; \r\n", b"ret\n"),
    (b"ap += 18446744069414584320", b"ap += -1\n"),
    (b"[ap]=[fp]", b"[ap] = [fp]\n"),
    (b"[ap] = [fp - 3]; ap++", b"[ap] = [fp - 3]; ap++\n"),
    (b"[ap] = [fp - 3], ap++;", b"[ap] = [fp - 3]; ap++\n"),
    (b"[ap+0]=[[fp-0]+0];ap++;", b"[ap] = [[fp]]; ap++\n"),
    (
        b"[ap - 32768] = [[fp + 32767] - 32768]",
        b"[ap - 32768] = [[fp + 32767] - 32768]\n",
    ),
    (b"[fp] = [[fp] + 2];", b"[fp] = [[fp] + 2]\n"),
    (b"[ap] = 5", b"[ap] = 5\n"),
    (b"[ap] = -5", b"[ap] = -5\n"),
    (
        b"[ap] = 9223372034707292160",
        b"[ap] = 9223372034707292160\n",
    ),
    (
        b"[ap] = 9223372034707292161",
        b"[ap] = -9223372034707292160\n",
    ),
    (b"[ap] = -0", b"[ap] = 0\n"),
    (b"[ap] = 007", b"[ap] = 7\n"),
    (b"[ap] = 0xABC", b"[ap] = 2748\n"),
    (b"[ap] = [fp] + [ap]", b"[ap] = [fp] + [ap]\n"),
    (b"[ap] = [fp] + 1; ap++", b"[ap] = [fp] + 1; ap++\n"),
    (b"[ap] = [fp] + -1", b"[ap] = [fp] + -1\n"),
    (b"[ap] = [fp] - 1", b"[ap] = [fp] + -1\n"),
    (b"[ap] = [fp] - 40000", b"[ap] = [fp] + -40000\n"),
    (
        b"[ap] = [fp] * [ap - 1], ap++",
        b"[ap] = [fp] * [ap - 1]; ap++\n",
    ),
    (b"[ap] = [fp] * 3", b"[ap] = [fp] * 3\n"),
    (b"jmp rel 5", b"jmp rel 5\n"),
    (b"jmp rel [ap] + 5; ap++", b"jmp rel [ap] + 5; ap++\n"),
    (b"jmp rel [ap]", b"jmp rel [ap]\n"),
    (b"jmp abs [[ap]]; ap++", b"jmp abs [[ap]]; ap++\n"),
    (b"jmp abs [ap] * [fp]", b"jmp abs [ap] * [fp]\n"),
    (
        b"jmp rel -7 if [ap - 1] != 0",
        b"jmp rel -7 if [ap - 1] != 0\n",
    ),
    (b"jmp rel 5 if [ap] != 00", b"jmp rel 5 if [ap] != 0\n"),
    (
        b"jmp rel 5 if [ap] != 0x0; ap++",
        b"jmp rel 5 if [ap] != 0; ap++\n",
    ),
    (
        b"jmp rel [fp] if [ap] != 0, ap++",
        b"jmp rel [fp] if [ap] != 0; ap++\n",
    ),
    (b"jmp f", b"jmp f\n"),
    (b"jmp f; ap++", b"jmp f; ap++\n"),
    (b"jmp f, ap++;", b"jmp f; ap++\n"),
    (b"jmp f if [ap] != 0", b"jmp f if [ap] != 0\n"),
    (b"jmp f if [ap] != 0; ap++", b"jmp f if [ap] != 0; ap++\n"),
    (b"call rel 4", b"call rel 4\n"),
    (b"call abs [fp - 2];", b"call abs [fp - 2]\n"),
    (b"call f", b"call f\n"),
    (b"call f;", b"call f\n"),
    (b"ap += [fp] + 1", b"ap += [fp] + 1\n"),
    (b"dw -1", b"dw 0xffffffff00000000\n"),
    (b"dw 0x00;", b"dw 0x0\n"),
    (b"f: ret", b"f:\nret\n"),
    (b"start: // here\n", b"start:\n"),
    (b"apx:ret", b"apx:\nret\n"),
    (b"_ :\nf_1:\nAP:", b"_:\nf_1:\nAP:\n"),
    (b"%start 4294967295", b"%start 4294967295\n"),
    (b"%builtins", b"%builtins\n"),
    (
        b"% builtins output range_check",
        b"%builtins output range_check\n",
    ),
    (
        b"%builtins range_check\n%start 0\n%end 4294967295",
        b"%builtins range_check\n%start 0\n%end 4294967295\n",
    ),
    (b"%start output\n%end f_1", b"%start output\n%end f_1\n"),
];

#[test]
fn forms_and_their_canonical_texts(rt: HostRuntime) -> Result<(), Fail> {
    for (text, canonical) in FORMS {
        assert!(rt; is_canonical(rt.alloc(), text, canonical)?, "{text:?}");
    }
    Ok(())
}

const TEXT: &[u8] = b"# a function\nf: ret;\n\n%end f\n[ap] = 1; ap++ // one\n";

#[test]
fn items_have_their_lines(rt: HostRuntime) -> Result<(), Fail> {
    let items = parse(rt.alloc(), TEXT)?;
    let mut lines = Vec::new(rt.alloc());
    for item in &items {
        lines.push(item.line)?;
    }
    assert_eq!(rt; lines.as_slice(), [2, 2, 4, 5].as_slice());
    Ok(())
}
