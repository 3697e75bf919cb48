//! How a run ends.

/// How a run ends: all was done, a certificate is invalid, the words are no command, a read or a
/// write failed, memory ran out, or the input is longer than its limit.
#[derive(Clone, Copy, Debug, PartialEq, Eq)]
pub enum Status {
    Done,
    Invalid,
    Usage,
    ReadFault,
    WriteFault,
    NoMemory,
    InputLimit,
}

impl Status {
    ghost use Rattle.germ_cli.specs.Run.{exit_status};
    ghost use Rattle.std.specs.Prelude.{◌≡◌};

    /// The exit status of the process, from 0 to 6.
    pub fn code(self) -> u8
        ensures { result ≡ exit_status self }
    {
        match self {
            Status::Done => 0,
            Status::Invalid => 1,
            Status::Usage => 2,
            Status::ReadFault => 3,
            Status::WriteFault => 4,
            Status::NoMemory => 5,
            Status::InputLimit => 6,
        }
    }
}
