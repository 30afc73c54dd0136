//! Stores and sinks that fail, that hand out their files in other pieces, and that find no memory.

ghost use Rattle.std.specs.Prelude.{None};

use super::contents::Bytes;
use super::{
    Fault, MEMORY, TRACE, WALK, check_answer, check_call, check_failing_sink, check_faults,
    files_of, sink_of, status_of, store_of,
};
use cairo_commands::Status;
use cairo_commands::Status::{Done, Input};
use file_port::{MemoryStore, PortError, Sink, Store, SureSink, SureStore};
use std::alloc::Global;
use std::process::Abort;

/// The calls of the store that fail, and what is answered over a run's files.
const FAULTS: &[Fault] = &[
    (
        "beginning the trace",
        &[1],
        Status::Store,
        "store fault: T\n",
    ),
    ("reading the trace", &[2], Status::Store, "store fault: T\n"),
    (
        "the end of the trace",
        &[3],
        Status::Store,
        "store fault: T\n",
    ),
    (
        "beginning the memory",
        &[4],
        Status::Store,
        "store fault: M\n",
    ),
    (
        "reading the memory",
        &[5],
        Status::Store,
        "store fault: M\n",
    ),
    (
        "the end of the memory",
        &[6],
        Status::Store,
        "store fault: M\n",
    ),
    ("a call that is not made", &[7], Done, "walk: 4 steps\n"),
    ("three calls", &[6, 3, 5], Status::Store, "store fault: T\n"),
];

/// A run's files.
const RUN: &[Bytes] = &[Bytes::Numbers(TRACE), Bytes::Numbers(MEMORY)];

#[test]
fn faults_are_told(rt: HostRuntime) {
    check_faults(&rt, rt.alloc(), WALK, RUN, FAULTS);
}

/// A store that hands out one byte at a time of what another one has.
#[derive(Drop)]
struct Bytewise {
    store: MemoryStore,
}

impl Store for Bytewise {
    ghost seen = { λ s. record (⟦<MemoryStore as Store>⟧.seen s.store) { files = None; reading = None } };

    fn begin_read(&mut self, alloc: Global, name: &str) -> Result<bool, PortError> {
        self.store.begin_read(alloc, name)
    }

    fn read(&mut self, alloc: Global, buf: &mut [u8]) -> Result<usize, PortError> {
        let most = buf.len().min(1);
        self.store.read(alloc, &mut buf[..most])
    }

    fn replace(&mut self, alloc: Global, name: &str, bytes: &[u8]) -> Result<(), PortError> {
        self.store.replace(alloc, name, bytes)
    }

    ghost tells_both = { λ _ told. told };
}

/// The calls that fail of a store that hands out one byte at a time, and what is answered over a run's files.
const BYTEWISE_FAULTS: &[Fault] = &[
    ("no call", &[], Done, "walk: 4 steps\n"),
    (
        "beginning the trace",
        &[1],
        Status::Store,
        "store fault: T\n",
    ),
    (
        "the trace's byte 58",
        &[60],
        Status::Store,
        "store fault: T\n",
    ),
    ("the trace's end", &[122], Status::Store, "store fault: T\n"),
    (
        "beginning the memory",
        &[123],
        Status::Store,
        "store fault: M\n",
    ),
    (
        "the memory's byte 76",
        &[200],
        Status::Store,
        "store fault: M\n",
    ),
    (
        "the memory's end",
        &[348],
        Status::Store,
        "store fault: M\n",
    ),
    ("a call that is not made", &[349], Done, "walk: 4 steps\n"),
];

/// Calls `walk` over a store that hands out one byte at a time.
fn check_bytewise(rt: &impl Abort, alloc: Global, files: &[Bytes], rows: &[Fault]) {
    for (row, fails, status, line) in rows {
        let store = store_of(rt, alloc, WALK, files, fails);
        let mut store = Bytewise { store };
        check_call(rt, alloc, row, WALK, &mut store, (*status, line));
    }
}

/// A run's files, of which the second one lacks a byte.
const CUT: &[Bytes] = &[Bytes::Numbers(TRACE), Bytes::First(MEMORY, 223)];

const CUT_FAULTS: &[Fault] = &[("a memory with a byte cut", &[], Input, "input 2: Length\n")];

#[test]
fn files_are_read_in_any_pieces(rt: HostRuntime) {
    check_bytewise(&rt, rt.alloc(), RUN, BYTEWISE_FAULTS);
    check_bytewise(&rt, rt.alloc(), CUT, CUT_FAULTS);
}

#[test]
fn a_store_and_a_sink_without_faults_answer(rt: HostRuntime) {
    let mut store = SureStore::new(files_of(&rt, rt.alloc(), WALK, RUN));
    let mut sink = SureSink::new(rt.alloc());
    let status = status_of(&rt, rt.alloc(), WALK, &mut store, &mut sink);
    check_answer(
        &rt,
        "sure",
        (status, sink.bytes()),
        (Done, "walk: 4 steps\n"),
    );
}

/// A sink that writes half of what it is given and then answers an error.
#[derive(Drop)]
struct Halfway {
    bytes: Vec<u8>,
    faults: u64,
}

impl Sink for Halfway {
    ghost seen = { λ s. record { written = None; faults = s.faults } };

    fn put(&mut self, _alloc: Global, bytes: &[u8]) -> Result<(), PortError> {
        self.bytes.extend_from_slice(&bytes[..bytes.len() / 2])?;
        self.faults = self.faults.saturating_add(1);
        Err(PortError::Failed)
    }
}

/// The calls of the store that fail, and half of the line: of `walk: 4 steps`, and of `store fault: M`.
const HALVES: &[(&[u32], &str)] = &[(&[0], "walk: 4"), (&[4], "store f")];

#[test]
fn faults_of_the_sink_end_the_call(rt: HostRuntime) {
    for (fails, half) in HALVES {
        let mut sink = Halfway {
            bytes: Vec::new(rt.alloc()),
            faults: 0,
        };
        let status = status_of(
            &rt,
            rt.alloc(),
            WALK,
            &mut store_of(&rt, rt.alloc(), WALK, RUN, fails),
            &mut sink,
        );
        check_answer(
            &rt,
            half,
            (status, sink.bytes.as_slice()),
            (Status::Sink, half),
        );
        check_failing_sink(
            &rt,
            rt.alloc(),
            half,
            WALK,
            &mut store_of(&rt, rt.alloc(), WALK, RUN, fails),
        );
    }
}

/// The line is one call of the sink: a second one would fail.
#[test]
fn the_line_is_one_call(rt: HostRuntime) {
    let mut sink = sink_of(&rt, rt.alloc(), &[2]);
    let status = status_of(
        &rt,
        rt.alloc(),
        WALK,
        &mut store_of(&rt, rt.alloc(), WALK, RUN, &[]),
        &mut sink,
    );
    check_answer(
        &rt,
        "one call",
        (status, sink.bytes()),
        (Done, "walk: 4 steps\n"),
    );
}

/// A store and a sink that find no memory.
#[derive(Drop)]
struct NoMemory;

impl Store for NoMemory {
    ghost seen = { λ _. record { files = None; reading = None; given = 0; faults = 0; absent = 0; torn = 0 } };

    fn begin_read(&mut self, _alloc: Global, _name: &str) -> Result<bool, PortError> {
        Err(PortError::Memory)
    }

    fn read(&mut self, _alloc: Global, _buf: &mut [u8]) -> Result<usize, PortError> {
        Err(PortError::Memory)
    }

    fn replace(&mut self, _alloc: Global, _name: &str, _bytes: &[u8]) -> Result<(), PortError> {
        Err(PortError::Memory)
    }

    ghost tells_both = { λ _ told. told };
}

impl Sink for NoMemory {
    ghost seen = { λ _. record { written = None; faults = 0 } };

    fn put(&mut self, _alloc: Global, _bytes: &[u8]) -> Result<(), PortError> {
        Err(PortError::Memory)
    }
}

#[test]
fn want_of_memory_ends_the_call(rt: HostRuntime) {
    // Nothing is put, so a sink that would fail doesn't.
    let mut failing = sink_of(&rt, rt.alloc(), &[1]);
    let status = status_of(&rt, rt.alloc(), WALK, &mut NoMemory, &mut failing);
    check_answer(
        &rt,
        "for a file",
        (status, failing.bytes()),
        (Status::Memory, ""),
    );
    let status = status_of(&rt, rt.alloc(), &["walk"], &mut NoMemory, &mut NoMemory);
    check_answer(&rt, "for the line", (status, &[]), (Status::Memory, ""));
}
