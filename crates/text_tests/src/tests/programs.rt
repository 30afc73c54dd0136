//! Programs: their words, labels and faults, and the texts that they are disassembled to.

use assembler::{AsmFault, Assembled, assemble, disassemble};
use casm_statements::{Body, Item, Name, Stmt, Target};
use casm_text::{parse, print};
use casm_tokens::TEXT_LIMIT;
use casm_word::PROGRAM_WORD_LIMIT;
use goldilocks::Felt;
use std::alloc::{AllocError, Global};
use std::test::Fail;

/// The program of a text, or the fault as it is printed; `text` where it doesn't read.
fn program(alloc: Global, text: &[u8]) -> Result<Result<Assembled, String>, AllocError> {
    if text.len() > TEXT_LIMIT {
        return Ok(Err(String::from_str(alloc, "long")?));
    }
    let Ok(items) = parse(alloc, text) else {
        return Ok(Err(String::from_str(alloc, "text")?));
    };
    match assemble(alloc, &items) {
        Ok(assembled) => Ok(Ok(assembled)),
        Err(fault) => Ok(Err(format!(in alloc; "{fault}")?)),
    }
}

/// The values of these numbers.
fn values(alloc: Global, numbers: &[u64]) -> Result<Vec<Felt>, AllocError> {
    let mut values = Vec::new(alloc);
    for number in numbers {
        if let Some(value) = Felt::new(*number) {
            values.push(value)?;
        }
    }
    Ok(values)
}

/// The text of a program that is disassembled.
fn text_of(alloc: Global, program: &Assembled) -> Result<Vec<u8>, AllocError> {
    if program.words.len() > PROGRAM_WORD_LIMIT {
        return Ok(Vec::new(alloc));
    }
    let words = &program.words;
    let (start, end) = (program.start, program.end);
    let items = disassemble(alloc, words, start, end, program.output, program.range)?;
    print(alloc, &items)
}

/// A text, what its program is disassembled to, and the program.
type Program = (&'static [u8], &'static [u8], &'static [u64]);

#[rattlefmt::skip]
const PROGRAMS: &[Program] = &[
    (
        b"%start 0\n%end 0\nret\n",
        b"%start 0\n%end 0\nret\n",
        &[0x208b7fff7fff7ffe],
    ),
    // an immediate is missing
    (
        b"%end 0\ndw 0x480680017fff8000",
        b"%start 0\n%end 0\ndw 0x480680017fff8000\n",
        &[0x480680017fff8000],
    ),
    // bit 63 is set
    (
        b"%end 1\ndw 9223372036854775808\ndw 0",
        b"%start 0\n%end 1\ndw 0x8000000000000000\ndw 0x0\n",
        &[0x8000000000000000, 0x0],
    ),
    // both res flags are set
    (
        b"%end 2\ndw 0x486680017fff8000\ndw 3\njmp rel 0",
        b"%start 0\n%end 2\ndw 0x486680017fff8000\ndw 0x3\njmp rel 0\n",
        &[0x486680017fff8000, 0x3, 0x10780017fff7fff, 0x0],
    ),
    // a product, and one with a number
    (
        b"%end 0\n[ap] = [fp - 1] * [fp - 2]\n[fp - 3] = [ap + 1] * 7",
        b"%start 0\n%end 0\n[ap] = [fp - 1] * [fp - 2]\n[fp - 3] = [ap + 1] * 7\n",
        &[0x404a7ffe7fff8000, 0x4045800180017ffd, 0x7],
    ),
    // a jump to a label with an increment
    (
        b"%end 0\nret\nf: jmp f; ap++",
        b"%start 0\n%end 0\nret\njmp rel 0; ap++\n",
        &[0x208b7fff7fff7ffe, 0x90780017fff7fff, 0x0],
    ),
    (
        b"%start main\n%end stop\nmain: ap += 0;\ncall f\nstop:\njmp stop\nf: [ap] = 25, ap++;\nret",
        b"%start 0\n%end 4\nap += 0\ncall rel 4\njmp rel 0\n[ap] = 25; ap++\nret\n",
        &[
            0x40780017fff7fff, 0x0, 0x1104800180018000, 0x4, 0x10780017fff7fff, 0x0,
            0x480680017fff8000, 0x19, 0x208b7fff7fff7ffe,
        ],
    ),
    (
        b"%end stop\n[ap] = 2; ap++\njmp stop if [ap - 1] != 0\njmp rel 0\nstop: jmp stop",
        b"%start 0\n%end 6\n[ap] = 2; ap++\njmp rel 4 if [ap - 1] != 0\njmp rel 0\njmp rel 0\n",
        &[
            0x480680017fff8000, 0x2, 0x20680017fff7fff, 0x4, 0x10780017fff7fff, 0x0,
            0x10780017fff7fff, 0x0,
        ],
    ),
    (
        b"%start 0\n%end 4\n[ap] = 0; ap++\njmp rel 4 if [ap - 1] != 0\njmp rel 0\njmp rel 0\n",
        b"%start 0\n%end 4\n[ap] = 0; ap++\njmp rel 4 if [ap - 1] != 0\njmp rel 0\njmp rel 0\n",
        &[
            0x480680017fff8000, 0x0, 0x20680017fff7fff, 0x4, 0x10780017fff7fff, 0x0,
            0x10780017fff7fff, 0x0,
        ],
    ),
    (
        b"%builtins output range_check\n%end done\nap += 2\ncall sum\ndone: jmp done\n\
            sum: [ap] = [fp - 3]; ap++\nap += 1\n[ap] = 20; ap++\n\
            next: [ap - 2] = [[ap - 3]]\n[ap] = [ap - 3] + 1; ap++\n\
            [ap] = [ap - 3] + 12345; ap++\n[ap] = [ap - 3] + -1; ap++\n\
            jmp next if [ap - 1] != 0\n[ap - 2] = [[fp - 4]]\n[ap] = [fp - 4] + 1; ap++\n\
            [ap] = [ap - 4]; ap++\nret",
        b"%builtins output range_check\n%start 0\n%end 4\nap += 2\ncall rel 4\njmp rel 0\n\
            [ap] = [fp - 3]; ap++\nap += 1\n[ap] = 20; ap++\n[ap - 2] = [[ap - 3]]\n\
            [ap] = [ap - 3] + 1; ap++\n[ap] = [ap - 3] + 12345; ap++\n\
            [ap] = [ap - 3] + -1; ap++\njmp rel -7 if [ap - 1] != 0\n[ap - 2] = [[fp - 4]]\n\
            [ap] = [fp - 4] + 1; ap++\n[ap] = [ap - 4]; ap++\nret\n",
        &[
            0x40780017fff7fff, 0x2, 0x1104800180018000, 0x4, 0x10780017fff7fff, 0x0,
            0x480a7ffd7fff8000, 0x40780017fff7fff, 0x1, 0x480680017fff8000, 0x14,
            0x400080007ffd7ffe, 0x482480017ffd8000, 0x1, 0x482480017ffd8000, 0x3039,
            0x482480017ffd8000, 0xffffffff00000000, 0x20680017fff7fff, 0xfffffffefffffffa,
            0x400280007ffc7ffe, 0x482680017ffc8000, 0x1, 0x48127ffc7fff8000, 0x208b7fff7fff7ffe,
        ],
    ),
    (
        b"%builtins output\n%start 0\n%end 7\nap += 1\n[ap] = 7; ap++\n[ap - 1] = [[fp]]\n\
            [ap] = [fp] + 1; ap++\njmp rel 0\n",
        b"%builtins output\n%start 0\n%end 7\nap += 1\n[ap] = 7; ap++\n[ap - 1] = [[fp]]\n\
            [ap] = [fp] + 1; ap++\njmp rel 0\n",
        &[
            0x40780017fff7fff, 0x1, 0x480680017fff8000, 0x7, 0x4002800080007fff,
            0x4826800180008000, 0x1, 0x10780017fff7fff, 0x0,
        ],
    ),
    (
        b"%builtins range_check\n%start 0\n%end 5\nap += 1\n[ap] = [[fp]]; ap++\n\
            [ap] = [fp] + 1; ap++\njmp rel 0\n",
        b"%builtins range_check\n%start 0\n%end 5\nap += 1\n[ap] = [[fp]]; ap++\n\
            [ap] = [fp] + 1; ap++\njmp rel 0\n",
        &[
            0x40780017fff7fff, 0x1, 0x4802800080008000, 0x4826800180008000, 0x1,
            0x10780017fff7fff, 0x0,
        ],
    ),
];

/// Whether a text is assembled to these words, which are disassembled to what is shown.
fn gives(alloc: Global, text: &[u8], shown: &[u8], words: &[u64]) -> Result<bool, AllocError> {
    let Ok(found) = program(alloc, text)? else {
        return Ok(false);
    };
    let words = values(alloc, words)?;
    let again = text_of(alloc, &found)?;
    Ok(found.words == words && again.as_slice() == shown)
}

#[test]
fn programs_and_their_texts(rt: HostRuntime) -> Result<(), Fail> {
    // the text, and then what is shown of its program, give the program
    for (text, shown, words) in PROGRAMS {
        assert!(rt; gives(rt.alloc(), text, shown, words)?, "{text:?}");
        assert!(rt; gives(rt.alloc(), shown, shown, words)?, "{shown:?}");
    }
    Ok(())
}

const LABELLED: &[u8] =
    b"%builtins output\n%end stop\nmain: ap += 0;\ncall f\nstop:\njmp stop\nf:\n\
    g: [ap] = 25\nret\nend:\n%start f";

/// The labels of that text, with their values.
const LABELS: &[(&[u8], u32)] = &[
    (b"main", 0),
    (b"stop", 4),
    (b"f", 6),
    (b"g", 6),
    (b"end", 9),
];

#[test]
fn labels_stand_in_their_order(rt: HostRuntime) -> Result<(), Fail> {
    let Ok(found) = program(rt.alloc(), LABELLED)? else {
        assert!(rt; false, "a program");
        return Ok(());
    };
    assert!(rt; found.labels.len() == LABELS.len(), "how many");
    for ((name, value), (text, place)) in found.labels.iter().zip(LABELS.iter()) {
        assert!(rt; name.text() == *text && *value == *place, "{text:?}");
    }
    assert!(rt; (found.start, found.end) == (6, 4), "the places");
    assert!(rt;
        (found.output, found.range) == (true, false),
        "the builtins"
    );
    Ok(())
}

/// Texts, and their faults as they are printed; nothing where there is none.
const FAULTS: &[(&[u8], &str)] = &[
    (b"", "NoEnd"),
    (b"%end 0\njmp foo", "Unknown foo 2"),
    (b"%end 0\n", "StartOutside"),
    // what is given twice, by the line of the first that repeats
    (b"%end 0\nret\na:\nb:\nb:\na:", "Duplicate 5"),
    (b"%start 0\n%start 0\n%end 0\nret", "Duplicate 2"),
    (b"%end 0\nret\n%end 0", "Duplicate 3"),
    (b"%builtins\n%end 0\n%builtins output\nret", "Duplicate 3"),
    (
        b"%builtins output\nret\n%builtins range_check\n%end 0",
        "Duplicate 3",
    ),
    (b"ret\n%builtins\n%end 0\n%builtins", "Duplicate 4"),
    (b"%start 0\n%end 0\nend:\nstart: ret", ""),
    (b"jmp foo\na:\na:", "Duplicate 3"),
    (b"%end 9\n\n%start 9\na: jmp a\na: ret", "Duplicate 5"),
    // names
    (b"ret\ncall g\njmp f\n%end 0", "Unknown g 2"),
    (b"jmp f if [ap] != 0\ncall g", "Unknown f 1"),
    (b"%start main\n%end stop\nret", "Unknown main 1"),
    (b"ret\n%end stop\n%start 7", "Unknown stop 2"),
    (b"main: jmp Main", "Unknown Main 1"),
    (b"jmp foo", "Unknown foo 1"),
    // places
    (b"%start 5\nret", "NoEnd"),
    (b"%start 1\n%end 1\nret", "StartOutside"),
    (b"%start last\n%end 0\nret\nlast:", "StartOutside"),
    (b"%end 1\nret", "EndOutside"),
    (b"%start 0\n%end last\nret\nlast:", "EndOutside"),
    (b"%start 4294967295\n%end 0\nret", "StartOutside"),
    (b"%end 0\nret", ""),
];

#[test]
fn faults_and_their_order(rt: HostRuntime) -> Result<(), Fail> {
    for (text, want) in FAULTS {
        let found = program(rt.alloc(), text)?;
        let found = match &found {
            Ok(_) => "",
            Err(fault) => fault.as_str(),
        };
        assert!(rt; found == *want, "{text:?}");
    }
    Ok(())
}

/// As many returns, on line 7, with an end before them and one item after them.
fn long(alloc: Global, count: u32, last: Body) -> Result<Vec<Item>, AllocError> {
    let mut items = Vec::new(alloc);
    let body = Body::End(Target::Number(1));
    items.push(Item { line: 1, body })?;
    for _ in 0..count {
        let body = Body::Stmt(Stmt::Ret);
        items.push(Item { line: 7, body })?;
    }
    items.push(Item {
        line: 9,
        body: last,
    })?;
    Ok(items)
}

/// Whether items are refused with this fault.
fn is_refused(alloc: Global, items: &[Item], fault: &AsmFault) -> bool {
    assemble(alloc, items).is_err_and(|found| found == *fault)
}

/// Whether items are assembled to as many words, which are shown as a text that is assembled to them again.
fn is_restored(alloc: Global, items: &[Item], count: usize) -> Result<bool, AllocError> {
    let Ok(found) = assemble(alloc, items) else {
        return Ok(false);
    };
    let text = text_of(alloc, &found)?;
    match program(alloc, &text)? {
        Ok(again) => Ok(found.words.len() == count && again.words == found.words),
        Err(_) => Ok(false),
    }
}

#[test]
fn long_programs(rt: HostRuntime) -> Result<(), Fail> {
    let zero = Felt { number: 0 };
    // 2^18 words, and one more
    let items = long(rt.alloc(), 262143, Body::Dw(zero))?;
    assert!(rt; is_restored(rt.alloc(), &items, 262144)?, "2^18 words");
    let items = long(rt.alloc(), 262144, Body::Dw(zero))?;
    assert!(rt;
        is_refused(rt.alloc(), &items, &AsmFault::TooLong),
        "one more"
    );
    // after what is given twice, and before a name that isn't there
    let items = long(rt.alloc(), 262145, Body::End(Target::Number(0)))?;
    assert!(rt;
        is_refused(rt.alloc(), &items, &AsmFault::Duplicate { line: 9 }),
        "a second end"
    );
    if let Some(name) = Name::new(rt.alloc(), b"foo".as_slice())? {
        let items = long(rt.alloc(), 262143, Body::CallTo(name))?;
        assert!(rt;
            is_refused(rt.alloc(), &items, &AsmFault::TooLong),
            "a name"
        );
    } else {
        assert!(rt; false, "a label");
    }
    Ok(())
}

/// Whether the items of a program of three words, with places that lie outside, have the lines from one.
fn has_lines(alloc: Global, output: bool) -> Result<bool, AllocError> {
    let words = values(alloc, &[0x40780017fff7fff, 0x0, 0x208b7fff7fff7ffe, 0x0])?;
    if words.len() > PROGRAM_WORD_LIMIT {
        return Ok(false);
    }
    let items = disassemble(alloc, &words, 70000, 80000, output, false)?;
    let lines: &[u32] = if output {
        &[1, 2, 3, 4, 5, 6]
    } else {
        &[1, 2, 3, 4, 5]
    };
    Ok(items.iter().map(|item| item.line).eq(lines.iter().copied()))
}

#[test]
fn items_have_the_lines_from_one(rt: HostRuntime) -> Result<(), Fail> {
    assert!(rt; has_lines(rt.alloc(), false)?, "no output");
    assert!(rt; has_lines(rt.alloc(), true)?, "an output");
    let text = format!(in rt.alloc(); "{} {}", AsmFault::TooLong, AsmFault::Memory)?;
    assert!(rt; text.as_str() == "TooLong Memory", "the texts");
    Ok(())
}
