//! Sinks in memory, the standard output, and an output that is full.
use super::NO_MEMORY;
use file_port::{MemorySink, OutSink, PortError, Sink, SureSink};
use std::alloc::{AllocError, Global};
use std::fmt::Display;
use std::io::{self, ErrorKind};
use std::process::Abort;

const FAILED: Result<(), PortError> = Err(PortError::Failed);

/// Bytes that are put, and what `put` must answer.
type Put = (&'static [u8], Result<(), PortError>);

fn put_all<K: Sink>(rt: &impl Abort, alloc: Global, row: &str, sink: &mut K, puts: &[Put]) {
    for (bytes, wanted) in puts {
        assert!(rt; sink.put(alloc, bytes) == *wanted, "{row}");
    }
}

/// Lists of failing calls, each with its name, the calls on a sink that has it and the bytes that it then holds.
const FAILING_PUTS: &[(&str, &[u32], &[Put], &[u8])] = &[
    (
        "none of the calls",
        &[],
        &[(b"ab", Ok(())), (b"", Ok(())), (b"\x00c\n", Ok(()))],
        b"ab\x00c\n",
    ),
    (
        "the first put",
        &[1],
        &[(b"ab", FAILED), (b"c", Ok(()))],
        b"c",
    ),
    (
        "two puts",
        &[2, 4],
        &[
            (b"ab", Ok(())),
            (b"c", FAILED),
            (b"d", Ok(())),
            (b"e", FAILED),
            (b"f", Ok(())),
        ],
        b"abdf",
    ),
    (
        "a call that is not made",
        &[0, 3],
        &[(b"ab", Ok(())), (b"c", Ok(()))],
        b"abc",
    ),
];

const SURE_PUTS: &[Put] = &[(b"ab", Ok(())), (b"c", Ok(()))];

#[test]
fn sinks_in_memory_append(rt: HostRuntime) {
    let alloc = rt.alloc();
    for (row, fails, puts, written) in FAILING_PUTS {
        let fails = Vec::from_slice(alloc, fails).expect(&rt, NO_MEMORY);
        let mut sink = MemorySink::new(alloc, fails);
        put_all(&rt, alloc, row, &mut sink, puts);
        assert!(rt; sink.bytes() == *written, "{row}");
    }
    let mut sure = SureSink::new(alloc);
    put_all(&rt, alloc, "sure", &mut sure, SURE_PUTS);
    assert!(rt; sure.bytes() == b"abc".as_slice(), "sure");
}

/// An output that is full.
#[derive(Clone, Copy)]
struct Full;

impl Print for Full {
    fn print<D: Display + Drop>(&self, _value: D) -> io::Result<()> {
        Err(ErrorKind::StorageFull.into())
    }

    fn println<D: Display + Drop>(&self, _value: D) -> io::Result<()> {
        Err(ErrorKind::StorageFull.into())
    }

    fn write_all(&self, _bytes: &[u8]) -> io::Result<()> {
        Err(ErrorKind::StorageFull.into())
    }
}

const REAL_PUTS: &[Put] = &[(b"a line\n", Ok(())), (b"", Ok(()))];

const FULL_PUTS: &[Put] = &[(b"a", FAILED), (b"", FAILED)];

#[test]
fn out_sink_prints(rt: HostRuntime) {
    let alloc = rt.alloc();
    put_all(&rt, alloc, "real output", &mut OutSink::new(rt), REAL_PUTS);
    put_all(
        &rt,
        alloc,
        "full output",
        &mut OutSink::new(Full),
        FULL_PUTS,
    );
}

#[test]
fn errors_print(rt: HostRuntime) {
    let alloc = rt.alloc();
    let failed = PortError::Failed.to_string(alloc).expect(&rt, NO_MEMORY);
    assert!(rt; failed.as_str() == "the files or the output failed");
    let memory = PortError::from(AllocError).to_string(alloc);
    let memory = memory.expect(&rt, NO_MEMORY);
    assert!(rt; memory.as_str() == "out of memory");
}
