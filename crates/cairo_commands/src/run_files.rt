//! The files of a run as formats: its trace and its memory.

ghost use Rattle.std.specs.Prelude.{◌≤◌, ◌<◌, ◌^◌, List, map, length, refl, false};
ghost use Rattle.std.proofs.Common.{lit<};
ghost use Rattle.casm_word.specs.Transition.{Registers, registers};
ghost use Rattle.trace_files.specs.TraceFile.{trace_limit, state_limit};
ghost use Rattle.goldilocks.specs.declared.Pair.{Pair};
ghost use Rattle.trace_files.specs.MemoryFile.{memory_limit};
ghost use Rattle.trace_files.specs.CellList.{listed};
ghost use Rattle.cairo_commands.specs.RunFiles.{trace_format, memory_format};

use casm_word::State;
use command_frame::{FileFormat, Unread};
use std::alloc::Global;
use trace_files::{CellList, FileFault, MEMORY_LIMIT, TRACE_LIMIT, read_memory, read_trace};

/// Trace files.
pub(crate) struct TraceFile;

impl FileFormat for TraceFile {
    type Value = Vec<State>;

    ghost Meaning = { List Registers };

    ghost format = { trace_format };

    ghost meaning = { λ states. map registers states.items };

    ghost keeps = { λ states. (2 ≤ length states.items) × (length states.items ≤ state_limit) };

    const LIMIT: usize = TRACE_LIMIT;

    ghost LIMIT = { trace_limit };

    const MAY_HAVE_TOO_MANY: bool = false;

    ghost MAY_HAVE_TOO_MANY = { false };

    fn read(alloc: Global, bytes: &[u8]) -> Result<Vec<State>, Unread> {
        match read_trace(alloc, bytes) {
            Ok(states) => Ok(states),
            Err(FileFault::TooMany) => Err(Unread::TooMuch),
            Err(FileFault::Memory) => Err(Unread::OutOfMemory),
            Err(fault) => Err(Unread::of_fault(alloc, &fault)),
        }
    }

    ghost limit_is = { refl };

    ghost may_is = { refl };

    ghost low = { lit< tt };
}

/// Memory files.
pub(crate) struct MemoryFile;

impl FileFormat for MemoryFile {
    type Value = CellList;

    ghost Meaning = { List Pair };

    ghost format = { memory_format };

    ghost meaning = { listed };

    ghost keeps = { λ list. Unit {0} };

    const LIMIT: usize = MEMORY_LIMIT;

    ghost LIMIT = { memory_limit };

    const MAY_HAVE_TOO_MANY: bool = false;

    ghost MAY_HAVE_TOO_MANY = { false };

    fn read(alloc: Global, bytes: &[u8]) -> Result<CellList, Unread> {
        match read_memory(alloc, bytes) {
            Ok(cells) => Ok(cells),
            Err(FileFault::TooMany) => Err(Unread::TooMuch),
            Err(FileFault::Memory) => Err(Unread::OutOfMemory),
            Err(fault) => Err(Unread::of_fault(alloc, &fault)),
        }
    }

    ghost limit_is = { refl };

    ghost may_is = { refl };

    ghost low = { lit< tt };
}
