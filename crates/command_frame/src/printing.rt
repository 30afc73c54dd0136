//! The line of a call is printed.

ghost use Rattle.std.specs.Prelude.{◌≡◌, IfOk, Err, string_bytes};
ghost use Rattle.file_port.specs.Counts.{Counts};
ghost use Rattle.command_frame.specs.Parts.{ending_answer, Prints};

use crate::ending::{Refusal, Work};
use crate::status::Status;
use file_port::{PortError, Sink};
use std::alloc::{AllocError, Global};

/// Prints the line that the ending has, and answers the status of the call. Where memory ran out nothing is put.
pub(crate) fn print<K: Sink>(
    alloc: Global,
    sink: &mut K,
    ending: Result<Work<'_>, Refusal<'_>>,
) -> Status
    ensures prints { Prints result (ending_answer ending.entry) (K.seen sink.old).written (K.seen sink.new).written }
    ensures sink_faults { Counts (K.seen sink.old).faults (K.seen sink.new).faults (result ≡ Status.Sink) }
    ensures silent { (ending_answer ending.entry).status ≡ Status.Memory →
        (result ≡ Status.Memory) × (sink.new ≡ sink.old) }
{
    let status = status_of(&ending);
    if status == Status::Memory {
        return Status::Memory;
    }
    let Ok(line) = line_of(alloc, ending) else {
        return Status::Memory;
    };
    match sink.put(alloc, line.as_bytes()) {
        Ok(()) => status,
        Err(PortError::Failed) => Status::Sink,
        Err(PortError::Memory) => Status::Memory,
    }
}

fn status_of(ending: &Result<Work<'_>, Refusal<'_>>) -> Status
    ensures { result ≡ (ending_answer ending.now).status }
{
    match ending {
        Ok(work) => work.conclusion.status(),
        Err(refusal) => refusal.status(),
    }
}

fn line_of(alloc: Global, ending: Result<Work<'_>, Refusal<'_>>) -> Result<String, AllocError>
    ensures { IfOk result (λ text. string_bytes text ≡ (ending_answer ending.entry).line) }
{
    match ending {
        Ok(work) => Ok(work.line),
        Err(refusal) => refusal.line(alloc),
    }
}
