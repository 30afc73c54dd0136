//! How a call ends.

ghost use Rattle.std.specs.Prelude.{◌≡◌};
ghost use Rattle.command_frame.specs.Status.{status_number};

/// How a call ended. Its number is the exit status of the program.
#[derive(Clone, Copy, Debug, PartialEq, Eq)]
pub enum Status {
    /// 0: the inputs were read to their ends, and the outputs and the line were written.
    Done,
    /// 1: the command refuses what its files spell, as the line says.
    Refused,
    /// 2: the words are an unknown command.
    Words,
    /// 3: an input was read whole and spells nothing, for the fault that the line tells.
    Input,
    /// 4: a run is refused, as the line says.
    Run,
    /// 5: a call of the store failed.
    Store,
    /// 6: a call of the sink failed.
    Sink,
    /// 7: there was not enough memory. Nothing was printed.
    Memory,
    /// 8: an input has more bytes than its limit, or more entries than it may have.
    Limit,
    /// 9: an input is missing.
    Missing,
}

impl Status {
    /// The status's number, from 0 to 9.
    pub fn number(self) -> u8
        ensures { result ≡ status_number self }
    {
        match self {
            Status::Done => 0,
            Status::Refused => 1,
            Status::Words => 2,
            Status::Input => 3,
            Status::Run => 4,
            Status::Store => 5,
            Status::Sink => 6,
            Status::Memory => 7,
            Status::Limit => 8,
            Status::Missing => 9,
        }
    }
}
