//! What a command comes to, and why a call ends that comes to nothing of its own.

ghost use Rattle.std.specs.Prelude.{◌≡◌, ◌∷◌, [], IfOk, string_bytes};
ghost use Rattle.command_frame.specs.Answer.{says};
ghost use Rattle.command_frame.specs.Parts.{refusal_answer, work_answer, status_of, outputs_in};

use crate::formats::Unread;
use crate::status::Status;
use std::alloc::{AllocError, Global};

/// A file to write.
#[derive(Drop)]
pub struct Output<'w> {
    /// The name of the file.
    pub name: &'w str,
    /// The bytes that it is to have.
    pub bytes: Vec<u8>,
}

/// How a command itself ends, once its inputs were read.
#[derive(Clone, Copy, PartialEq, Eq)]
pub enum Conclusion {
    /// It did its work.
    Done,
    /// It refuses what its files spell.
    Refused,
    /// It refuses the run that its files ask for.
    RunRefused,
}

impl Conclusion {
    /// The status of a call that ends so.
    pub fn status(self) -> Status
        ensures { result ≡ status_of self }
    {
        match self {
            Conclusion::Done => Status::Done,
            Conclusion::Refused => Status::Refused,
            Conclusion::RunRefused => Status::Run,
        }
    }
}

/// What a command has come to: how it ends, the files to write before its line, in their order, and the line to print.
///
/// An ending that is refused may have files to write, too. A fault of writing them stands in its place.
#[derive(Drop)]
pub struct Work<'w> {
    /// How the command ends.
    pub conclusion: Conclusion,
    /// The files to write.
    pub outputs: Vec<Output<'w>>,
    /// The line to print.
    pub line: String,
}

impl<'w> Work<'w> {
    /// An ending that writes no file.
    pub fn of_line(alloc: Global, conclusion: Conclusion, line: String) -> Work<'w>
        ensures { work_answer result ≡ says (status_of conclusion) (string_bytes line) }
    {
        let outputs = Vec::new(alloc);
        Work {
            conclusion,
            outputs,
            line,
        }
    }

    /// Work that is done, with one file to write.
    pub fn of_output(
        alloc: Global,
        name: &'w str,
        bytes: Vec<u8>,
        line: String,
    ) -> Result<Work<'w>, AllocError>
        ensures { IfOk result (λ work. work_answer work ≡ record {
          status = Status.Done;
          writes = (name.now, bytes.items) ∷ [];
          line = string_bytes line;
        }) }
    {
        let mut outputs = Vec::new(alloc);
        outputs.push(Output { name, bytes })?;
        Ok(Work::of_outputs(outputs, line))
    }

    /// Work that is done, with several files to write, in their order.
    pub fn of_outputs(outputs: Vec<Output<'w>>, line: String) -> Work<'w>
        ensures { work_answer result ≡ record {
          status = Status.Done;
          writes = outputs_in outputs.entry.items;
          line = string_bytes line;
        } }
    {
        Work {
            conclusion: Conclusion::Done,
            outputs,
            line,
        }
    }
}

/// Why a call came to no ending of its command's own.
#[derive(Drop)]
pub enum Refusal<'w> {
    /// The words are an unknown command.
    Usage,
    /// The input at this position among the words spells nothing.
    Unspelled {
        /// The position of the input.
        position: usize,
        /// The text of its fault.
        fault: String,
    },
    /// An input has more bytes than its limit, or more entries than it may have.
    OverLimit {
        /// The position of the input.
        position: usize,
    },
    /// An input is missing.
    Missing {
        /// The position of the input.
        position: usize,
    },
    /// The store failed at a file.
    StoreFault {
        /// The name of the file.
        name: &'w str,
    },
    /// There was not enough memory.
    OutOfMemory,
}

impl From<AllocError> for Refusal<'_> {
    ghost use Rattle.command_frame.specs.declared.ending.Refusal.TheVariants.{OutOfMemory};

    ghost from_gives = { λ _ e. e ≡ OutOfMemory };

    fn from(_: AllocError) -> Self {
        Refusal::OutOfMemory
    }
}

impl Refusal<'_> {
    /// The status of a call that ends with this refusal.
    pub(crate) fn status(&self) -> Status
        ensures { result ≡ (refusal_answer self.now).status }
    {
        match self {
            Refusal::Usage => Status::Words,
            Refusal::Unspelled { .. } => Status::Input,
            Refusal::OverLimit { .. } => Status::Limit,
            Refusal::Missing { .. } => Status::Missing,
            Refusal::StoreFault { .. } => Status::Store,
            Refusal::OutOfMemory => Status::Memory,
        }
    }

    /// The line that is printed of it. Nothing is, where memory ran out.
    pub(crate) fn line(self, alloc: Global) -> Result<String, AllocError>
        ensures { IfOk result (λ text. string_bytes text ≡ (refusal_answer self.entry).line) }
    {
        match self {
            Refusal::Usage => format!(in alloc; "usage\n"),
            Refusal::Unspelled { position, fault } => {
                format!(in alloc; "input {position}: {fault}\n")
            }
            Refusal::OverLimit { position } => format!(in alloc; "limit: input {position}\n"),
            Refusal::Missing { position } => format!(in alloc; "missing: input {position}\n"),
            Refusal::StoreFault { name } => format!(in alloc; "store fault: {name}\n"),
            Refusal::OutOfMemory => Ok(String::new(alloc)),
        }
    }
}
