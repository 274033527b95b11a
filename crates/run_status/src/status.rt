ghost use Rattle.std.specs.Prelude.{◌≡◌};
ghost use Rattle.run_status.specs.Statuses.{code_of};

/// How a run of the program ended.
#[derive(Clone, Copy, Debug, PartialEq, Eq)]
pub enum Status {
    /// All that was asked for was done, and the output took its whole text.
    Done,
    /// The words are no command, or not UTF-8.
    Words,
    /// The model's file is no model, or an option names what the model lacks.
    Model,
    /// The policy's file is no policy for the model.
    Policy,
    /// The input is no script, no text of requests, or no text of packets.
    Script,
    /// A file is absent, or a file or the input could not be read.
    ReadFault,
    /// The output could not be written.
    WriteFault,
    /// A file, the input or a report is longer than its limit.
    TooLong,
    /// Memory ran out.
    NoMemory,
}

impl Status {
    /// The exit status of the program.
    pub fn code(self) -> u8
        ensures { result ≡ code_of self }
    {
        match self {
            Status::Done => 0,
            Status::Words => 2,
            Status::Model => 3,
            Status::Policy => 4,
            Status::Script => 5,
            Status::ReadFault => 6,
            Status::WriteFault => 7,
            Status::TooLong => 8,
            Status::NoMemory => 9,
        }
    }
}
