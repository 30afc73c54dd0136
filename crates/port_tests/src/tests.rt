//! Tables of calls over each store and sink. Each test calls through the traits' bounds.

mod failing_disk;
mod real_files;
mod sinks;
mod stores;

use file_port::{PortError, Store};
use std::alloc::Global;
use std::process::Abort;

/// A call on a store, and what it must answer.
#[derive(Clone, Copy)]
enum Step<'a> {
    /// `begin_read` of a name.
    Begin(&'a str, Result<bool, PortError>),
    /// `read` into at most 8 bytes: the bytes that it gives, or `None` where it fails.
    Read(usize, Option<&'static [u8]>),
    /// `replace` of a name by these bytes.
    Replace(&'a str, &'static [u8], Result<(), PortError>),
}

use Step::{Begin, Read, Replace};

/// What a test says that finds no memory.
const NO_MEMORY: &str = "no memory";

const FAILED: Result<bool, PortError> = Err(PortError::Failed);

/// Makes the calls one after another.
fn follow<S: Store>(rt: &impl Abort, alloc: Global, row: &str, store: &mut S, steps: &[Step]) {
    for step in steps {
        follow_step(rt, alloc, row, store, *step);
    }
}

/// Makes one call, and compares its answer.
fn follow_step<S: Store>(rt: &impl Abort, alloc: Global, row: &str, store: &mut S, step: Step) {
    match step {
        Begin(name, wanted) => {
            let answer = store.begin_read(alloc, name);
            assert!(rt; answer == wanted, "{row}");
        }
        Read(room, wanted) => read_step(rt, alloc, row, store, room, wanted),
        Replace(name, bytes, wanted) => {
            let answer = store.replace(alloc, name, bytes);
            assert!(rt; answer == wanted, "{row}");
        }
    }
}

fn read_step<S: Store>(
    rt: &impl Abort,
    alloc: Global,
    row: &str,
    store: &mut S,
    room: usize,
    wanted: Option<&[u8]>,
) {
    let mut buf = [0x55u8; 8];
    let room = room.min(8);
    let answer = store.read(alloc, &mut buf[..room]);
    let found = match answer {
        Ok(count) => buf.get(..count),
        Err(PortError::Failed) => None,
        Err(PortError::Memory) => panic!(rt; "{row}"),
    };
    assert!(rt; found == wanted, "{row}");
}
