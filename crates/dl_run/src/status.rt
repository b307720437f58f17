/// How a run of the program ended.
#[derive(Clone, Copy, Debug, PartialEq, Eq)]
pub enum Status {
    /// The whole output was written.
    Done,
    /// The words have no written form.
    Usage,
    /// The input is refused, or there are too many answers.
    Refused,
    /// Reading failed.
    ReadFault,
    /// Writing failed.
    WriteFault,
    /// There was no memory.
    NoMemory,
}

impl Status {
    ghost use Rattle.std.specs.Prelude.{◌≡◌};
    ghost use Rattle.dl_run.specs.Codes.{code_of};

    /// The exit status of the program.
    pub fn code(self) -> u8
        ensures { result ≡ code_of self }
    {
        match self {
            Status::Done => 0,
            Status::Usage => 1,
            Status::Refused => 2,
            Status::ReadFault => 3,
            Status::WriteFault => 4,
            Status::NoMemory => 5,
        }
    }
}
