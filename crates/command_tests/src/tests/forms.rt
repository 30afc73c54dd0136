//! Tables of words. What they ask for follows from the rules of the words, by hand.

use super::words_of;
use command_words::{Command, CommandForm, Part, form, form_in, forms, number_in};
use std::test::Fail;

/// The form of a command `c` with these parts.
fn form_with(parts: &'static [Part], takes_workers: bool) -> CommandForm {
    CommandForm {
        command: Command::Check,
        word: "c",
        parts,
        takes_workers,
    }
}

/// Words of a call, its command, and how many words follow that.
const CALLS: &[(&[&str], Option<(Command, usize)>)] = &[
    (&["walk", "a", "b"], Some((Command::Walk, 2))),
    (&["asm", "a", "b"], Some((Command::Asm, 2))),
    (&["dis", "a", "b"], Some((Command::Dis, 2))),
    (
        &["run", "a", "b", "c", "d", "e", "f"],
        Some((Command::Run, 6)),
    ),
    (
        &["run", "a", "a", "c", "d", "e", "f"],
        Some((Command::Run, 6)),
    ),
    (
        &["run", "a", "b", "c", "d", "--workers", "2"],
        Some((Command::Run, 6)),
    ),
    (
        &["tables", "a", "b", "c", "d", "e"],
        Some((Command::Tables, 5)),
    ),
    (
        &["tables", "a", "a", "a", "a", "b"],
        Some((Command::Tables, 5)),
    ),
    (&["check", "a", "b", "c"], Some((Command::Check, 3))),
    (&["check", "P", "--workers", "3"], Some((Command::Check, 3))),
    (&[], None),
    (&["Walk", "a", "b"], None),
    (&["walk ", "a", "b"], None),
    (&["walk", "a"], None),
    (&["walk", "a", "b", "c"], None),
    (&["walk", "a", "b", "--workers", "2"], None),
    (&["asm", "a", "a"], None),
    (&["dis", "a", "a"], None),
    (&["dis", "", "a"], None),
    (&["tables", "a", "b", "c", "d"], None),
    (&["tables", "a", "b", "c", "d", "c"], None),
    (&["tables", "a", "b", "c", "d", "e", "--workers", "2"], None),
    (&["check", "a", "b"], None),
    (&["check", "a", "b", "c", "--workers", "2"], None),
    (&["run"], None),
    (&["run", "a", "b", "c", "d", "e"], None),
    (&["run", "a", "b", "c", "d", "e", "f", "g"], None),
    (&["run", "a", "b", "c", "d", "c", "f"], None),
    (&["run", "a", "b", "c", "d", "e", "e"], None),
    (&["run", "a", "b", "a", "d", "e", "f"], None),
    (&["run", "a", "b", "c", "d", "e", "b"], None),
    (&["run", "a", "", "c", "d", "e", "f"], None),
    (&["run", "a", "b", "c", "d", "", "f"], None),
    (
        &["run", "a", "b", "c", "d", "e", "f", "--workers", "2"],
        None,
    ),
    (&["runs", "a", "b", "c", "d", "e", "f"], None),
];

/// The command that the words name, and how many words follow.
fn called(words: &[String]) -> Option<(Command, usize)> {
    let form = form(words)?;
    Some((form.command, form.arguments.len()))
}

#[test]
fn words_ask_for_commands(rt: HostRuntime) -> Result<(), Fail> {
    for (texts, wanted) in CALLS {
        let words = words_of(rt.alloc(), texts)?;
        assert!(rt; called(&words) == *wanted, "{texts:?}");
    }
    Ok(())
}

/// How each command is written.
const USAGES: &[&str] = &[
    "walk TRACE MEMORY",
    "asm TEXT PROGRAM",
    "dis PROGRAM TEXT",
    "run PROGRAM HINTS TRACE MEMORY PUBLIC TABLES",
    "tables PROGRAM PUBLIC TRACE MEMORY TABLES",
    "check PROGRAM PUBLIC TABLES",
];

#[test]
fn usage_texts_are_written(rt: HostRuntime) -> Result<(), Fail> {
    assert_eq!(rt; forms().len(), USAGES.len());
    for (form, wanted) in forms().iter().zip(USAGES) {
        let text = form.usage(rt.alloc())?;
        assert_eq!(rt; text.as_str(), *wanted);
    }
    let sample = form_with(&[DIGIT, OUT], true);
    let text = sample.usage(rt.alloc())?;
    assert_eq!(rt; text.as_str(), "c DIGIT OUT [--workers N]");
    Ok(())
}

const IN: Part = Part::Input("IN");

const OUT: Part = Part::Output("OUT");

const DIGIT: Part = Part::Number {
    shown: "DIGIT",
    least: 2,
    most: 9,
};

/// Whether a form takes workers, its parts, words, and what they ask for: how many arguments, how many workers, and two
/// numbers.
const KEPT: &[(bool, &[Part], &[&str], Option<(usize, u8, u64, u64)>)] = &[
    (false, &[], &["c"], Some((0, 1, 0, 0))),
    (
        false,
        &[IN, IN, OUT, OUT],
        &["c", "a", "a", "b", "c"],
        Some((4, 1, 0, 0)),
    ),
    (false, &[IN, IN], &["c", "a", ""], None),
    (false, &[IN, OUT, OUT], &["c", "a", "b", ""], None),
    (false, &[IN, IN, OUT, OUT], &["c", "a", "b", "c", "b"], None),
    (
        false,
        &[IN, OUT, OUT, OUT],
        &["c", "a", "b", "c", "b"],
        None,
    ),
    (
        false,
        &[IN, OUT, OUT],
        &["c", "a", "A", "a "],
        Some((3, 1, 0, 0)),
    ),
    (false, &[OUT, IN], &["c", "a", "a"], None),
    (false, &[OUT, IN], &["c", "a", "b"], Some((2, 1, 0, 0))),
    (
        false,
        &[IN, DIGIT, OUT],
        &["c", "2", "2", "3"],
        Some((3, 1, 2, 0)),
    ),
    (
        false,
        &[IN, DIGIT, OUT],
        &["c", "3", "2", "2"],
        Some((3, 1, 2, 0)),
    ),
    (false, &[IN], &["c", "c"], Some((1, 1, 0, 0))),
    (false, &[IN], &["d", "a"], None),
    (true, &[], &["c"], Some((0, 1, 0, 0))),
    (true, &[IN], &["c", "a"], Some((1, 1, 0, 0))),
    (true, &[IN], &["c", "--workers"], Some((1, 1, 0, 0))),
    (true, &[], &["c", "--workers", "1"], Some((0, 1, 0, 0))),
    (
        true,
        &[IN],
        &["c", "a", "--workers", "9"],
        Some((1, 9, 0, 0)),
    ),
    (
        true,
        &[IN],
        &["c", "a", "--workers", "10"],
        Some((1, 10, 0, 0)),
    ),
    (
        true,
        &[IN],
        &["c", "a", "--workers", "64"],
        Some((1, 64, 0, 0)),
    ),
    (
        true,
        &[IN, IN, IN],
        &["c", "--workers", "2", "a"],
        Some((3, 1, 0, 0)),
    ),
    (
        true,
        &[IN, IN, IN],
        &["c", "a", "--worker", "2"],
        Some((3, 1, 0, 0)),
    ),
    (
        true,
        &[IN, IN],
        &["c", "--workers", "2", "--workers", "3"],
        Some((2, 3, 0, 0)),
    ),
    (true, &[IN], &["c", "a", "--workers", "0"], None),
    (true, &[IN], &["c", "a", "--workers", "01"], None),
    (true, &[IN], &["c", "a", "--workers", "65"], None),
    (true, &[IN], &["c", "a", "--workers", "100"], None),
    (
        true,
        &[IN],
        &["c", "a", "--workers", "18446744073709551617"],
        None,
    ),
    (true, &[IN], &["c", "a", "--workers", "+2"], None),
    (true, &[IN], &["c", "a", "--workers", "-2"], None),
    (true, &[IN], &["c", "a", "--workers", "2 "], None),
    (true, &[IN], &["c", "a", "--workers", "two"], None),
    (true, &[IN], &["c", "a", "--workers", ""], None),
    (true, &[IN], &["c", "a", "--workers", "--workers"], None),
    (
        true,
        &[IN, IN, IN],
        &["c", "a", "--workers", "3"],
        Some((3, 1, 0, 0)),
    ),
    (
        true,
        &[IN, IN, IN],
        &["c", "a", "--workers", "x"],
        Some((3, 1, 0, 0)),
    ),
    (true, &[IN, IN], &["c", "a", "--workers", "3"], None),
    (true, &[IN], &["c", "a", "--worker", "2"], None),
    (true, &[IN], &["c", "--workers", "2", "a"], None),
    (true, &[IN], &["c", "a", "--workers"], None),
    (true, &[IN], &["c", "a", "--workers", "2", "b"], None),
    (
        true,
        &[IN],
        &["c", "a", "--workers", "2", "--workers", "2"],
        None,
    ),
    (
        false,
        &[DIGIT, IN, DIGIT],
        &["c", "2", "a", "9"],
        Some((3, 1, 2, 9)),
    ),
    (
        false,
        &[DIGIT, IN, DIGIT],
        &["c", "9", "7", "2"],
        Some((3, 1, 9, 2)),
    ),
    (false, &[DIGIT, IN, DIGIT], &["c", "1", "a", "9"], None),
    (false, &[DIGIT, IN, DIGIT], &["c", "2", "a", "10"], None),
    (false, &[DIGIT, IN, DIGIT], &["c", "2", "a", "x"], None),
    (false, &[DIGIT, IN, DIGIT], &["c", "2", "3"], None),
    (false, &[IN], &["c", "a", "--workers", "2"], None),
];

/// What words ask for where this is the form: how many arguments, how many workers, and two numbers.
fn asked(form: CommandForm, words: &[String]) -> Option<(usize, u8, u64, u64)> {
    let form = form_in(&[form], words)?;
    Some((form.arguments.len(), form.workers, form.first, form.second))
}

#[test]
fn forms_are_kept(rt: HostRuntime) -> Result<(), Fail> {
    for (takes_workers, parts, texts, wanted) in KEPT {
        let words = words_of(rt.alloc(), texts)?;
        let found = asked(form_with(parts, *takes_workers), &words);
        assert!(rt; found == *wanted, "{texts:?}");
    }
    Ok(())
}

/// Words, the least and the most number that they may be, and the number that they are.
const NUMBERS: &[(&str, u64, u64, Option<u64>)] = &[
    ("0", 0, 9, Some(0)),
    ("0", 1, 9, None),
    ("1", 1, 9, Some(1)),
    ("9", 1, 9, Some(9)),
    ("10", 1, 9, None),
    ("7", 7, 7, Some(7)),
    ("6", 7, 7, None),
    ("00", 0, 9, None),
    ("07", 0, 9, None),
    ("1048576", 1, 1048576, Some(1048576)),
    ("1048577", 1, 1048576, None),
    ("18446744073709551615", 0, u64::MAX, Some(u64::MAX)),
    ("18446744073709551616", 0, u64::MAX, None),
    ("", 0, 9, None),
    ("0x7", 0, 9, None),
    ("-0", 0, 9, None),
    ("+1", 0, 9, None),
    (" 1", 0, 9, None),
    ("1 ", 0, 9, None),
    ("\u{661}", 0, 9, None),
];

#[test]
fn words_are_numbers(rt: HostRuntime) {
    for (word, least, most, wanted) in NUMBERS {
        let found = number_in(word, *least, *most);
        assert!(rt; found == *wanted, "{word:?} from {least} to {most}");
    }
}

/// The words of a call, a position, and the word there.
const POSITIONS: &[(&[&str], usize, &str)] = &[
    (&["check", "a", "b", "c"], 1, "a"),
    (&["check", "a", "b", "c"], 3, "c"),
    (&["check", "a", "b", "c"], 4, ""),
    (&["run", "a", "b", "c", "d", "e", "f"], 2, "b"),
    (&["run", "a", "b", "c", "d", "e", "f"], 6, "f"),
];

#[test]
fn words_have_positions(rt: HostRuntime) -> Result<(), Fail> {
    for (texts, position, wanted) in POSITIONS {
        let words = words_of(rt.alloc(), texts)?;
        let found = form(&words).map_or("", |form| form.word(*position));
        assert_eq!(rt; found, *wanted, "{texts:?}");
    }
    Ok(())
}
