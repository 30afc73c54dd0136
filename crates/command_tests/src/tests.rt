//! Tables of calls. What they answer and print was computed outside, from the tables of the machine and of the files.

mod asm;
mod check;
mod contents;
mod dis;
mod faults;
mod forms;
mod large;
mod loop_of_twenty;
mod one_return;
mod run;
mod steps;
mod tables;
mod vectors;
mod walk;
mod words;

use cairo_commands::{Status, perform};
use contents::{Bytes, copied, said};
use file_port::{MemorySink, MemoryStore, Sink, Store};
use std::alloc::{AllocError, Global};
use std::process::Abort;

/// ap, fp and pc of each state of a run: `ap += 0`, `call rel 4`, `[ap] = 25; ap++`, `ret`.
const TRACE: &[u64] = &[12, 12, 1, 12, 12, 3, 14, 14, 7, 15, 14, 9, 15, 12, 5];

/// Address and value of each cell of that run.
#[rattlefmt::skip]
const MEMORY: &[u64] = &[
    1, 0x0407_8001_7fff_7fff, 2, 0, 3, 0x1104_8001_8001_8000, 4, 4, 5, 0x0107_8001_7fff_7fff, 6, 0,
    7, 0x4806_8001_7fff_8000, 8, 25, 9, 0x208b_7fff_7fff_7ffe,
    10, 12, 11, 0, 12, 12, 13, 5, 14, 25,
];

const WALK: &[&str] = &["walk", "T", "M"];

/// What a test says that finds no memory.
const NO_MEMORY: &str = "no memory";

/// Names of files with their bytes.
type Files = Vec<(String, Vec<u8>)>;

/// A row of a table: its name, the files of the command in the order of its words, and what is answered.
type Row = (&'static str, &'static [Bytes], Status, &'static str);

/// A row where calls of the store fail: its name, the numbers of the calls, and what is answered.
type Fault = (&'static str, &'static [u32], Status, &'static str);

/// These texts as words.
fn words_of(alloc: Global, texts: &[&str]) -> Result<Vec<String>, AllocError> {
    let mut words = Vec::new(alloc);
    for text in texts {
        words.push(String::from_str(alloc, text)?)?;
    }
    Ok(words)
}

/// One more file.
fn put_file(rt: &impl Abort, alloc: Global, files: &mut Files, name: &str, bytes: Vec<u8>) {
    let name = String::from_str(alloc, name).expect(rt, NO_MEMORY);
    files.push((name, bytes)).expect(rt, NO_MEMORY);
}

/// The files that the words name behind the first one.
fn files_of(rt: &impl Abort, alloc: Global, words: &[&str], files: &[Bytes]) -> Files {
    let mut list = Vec::new(alloc);
    for (name, bytes) in words.iter().skip(1).zip(files) {
        if !matches!(bytes, Bytes::Absent) {
            put_file(rt, alloc, &mut list, name, said(rt, alloc, *bytes));
        }
    }
    list
}

/// A store of these files that fails at the calls of these numbers.
fn store_in(rt: &impl Abort, alloc: Global, files: Files, fails: &[u32]) -> MemoryStore {
    let fails = Vec::from_slice(alloc, fails).expect(rt, NO_MEMORY);
    MemoryStore::new(files, fails)
}

/// A store of the files that the words name.
fn store_of(
    rt: &impl Abort,
    alloc: Global,
    words: &[&str],
    files: &[Bytes],
    fails: &[u32],
) -> MemoryStore {
    store_in(rt, alloc, files_of(rt, alloc, words, files), fails)
}

/// A sink that fails at the calls of these numbers.
fn sink_of(rt: &impl Abort, alloc: Global, fails: &[u32]) -> MemorySink {
    let fails = Vec::from_slice(alloc, fails).expect(rt, NO_MEMORY);
    MemorySink::new(alloc, fails)
}

/// The status of [`perform`] with the words.
fn status_of<S: Store, K: Sink>(
    rt: &impl Abort,
    alloc: Global,
    words: &[&str],
    store: &mut S,
    sink: &mut K,
) -> Status {
    let words = words_of(alloc, words).expect(rt, NO_MEMORY);
    perform(alloc, &words, store, sink)
}

/// Looks at the status of a call, and at what it printed.
fn check_answer(rt: &impl Abort, row: &str, found: (Status, &[u8]), wanted: (Status, &str)) {
    assert!(rt; found.0 == wanted.0, "{row}: the status");
    assert!(rt; found.1 == wanted.1.as_bytes(), "{row}: the line");
}

/// Calls [`perform`] with the words, and looks at its status and at what it printed.
fn check_call<S: Store>(
    rt: &impl Abort,
    alloc: Global,
    row: &str,
    words: &[&str],
    store: &mut S,
    wanted: (Status, &str),
) {
    let mut sink = sink_of(rt, alloc, &[]);
    let status = status_of(rt, alloc, words, store, &mut sink);
    check_answer(rt, row, (status, sink.bytes()), wanted);
}

/// Calls [`perform`] over a sink that fails, which prints nothing.
fn check_failing_sink(
    rt: &impl Abort,
    alloc: Global,
    row: &str,
    words: &[&str],
    store: &mut MemoryStore,
) {
    let mut sink = sink_of(rt, alloc, &[1]);
    let status = status_of(rt, alloc, words, store, &mut sink);
    check_answer(rt, row, (status, sink.bytes()), (Status::Sink, ""));
}

/// Looks at a file, which has these bytes or is missing.
fn check_file(rt: &impl Abort, row: &str, store: &MemoryStore, name: &str, wanted: Option<&[u8]>) {
    assert!(rt; store.file(name) == wanted, "{row}: {name}");
}

/// Makes the call of each row.
fn check_rows(rt: &impl Abort, alloc: Global, words: &[&str], rows: &[Row]) {
    for (row, files, status, line) in rows {
        let mut store = store_of(rt, alloc, words, files, &[]);
        check_call(rt, alloc, row, words, &mut store, (*status, line));
    }
}

/// Makes a call over these files for each row.
fn check_faults(rt: &impl Abort, alloc: Global, words: &[&str], files: &[Bytes], rows: &[Fault]) {
    for (row, fails, status, line) in rows {
        let mut store = store_of(rt, alloc, words, files, fails);
        check_call(rt, alloc, row, words, &mut store, (*status, line));
    }
}

/// A text in a file, what is answered, and the text of another file, if it is written.
type Written = (&'static str, Status, &'static str, Option<&'static str>);

/// A store with a text in a file, and one more file.
fn store_of_text(rt: &impl Abort, alloc: Global, name: &str, text: &str) -> MemoryStore {
    let mut files = Vec::new(alloc);
    put_file(
        rt,
        alloc,
        &mut files,
        name,
        copied(rt, alloc, text.as_bytes()),
    );
    put_file(rt, alloc, &mut files, "kept", copied(rt, alloc, b"kept"));
    store_in(rt, alloc, files, &[])
}

/// Makes the call of each row. Its command reads one file and writes another one.
fn check_written(
    rt: &impl Abort,
    alloc: Global,
    words: &[&str],
    names: (&str, &str),
    rows: &[Written],
) {
    for (text, status, line, written) in rows {
        let mut store = store_of_text(rt, alloc, names.0, text);
        check_call(rt, alloc, text, words, &mut store, (*status, line));
        check_file(rt, text, &store, names.0, Some(text.as_bytes()));
        check_file(rt, text, &store, names.1, written.map(str::as_bytes));
        check_file(rt, text, &store, "kept", Some(b"kept"));
    }
}
