//! How a run ends.
ghost use Rattle.std.specs.Prelude.{◌≡◌};
ghost use Rattle.edge_traits.specs.Outcome.{code_of};

/// How a run ended; the program's exit status is `code`.
#[derive(Clone, Copy, Debug, PartialEq, Eq, Drop)]
pub enum Status {
    /// The input was read to its end and every line was written.
    Done,
    /// The input was refused; the last line that was written says where and why.
    Refused,
    /// The words name no command; nothing was read or written.
    Usage,
    /// A read failed.
    ReadFault,
    /// A write failed.
    WriteFault,
    /// The input passes a limit.
    Limit,
    /// Memory ran out.
    Memory,
}

impl Status {
    /// The number that the program ends with: 0 to 4 and 6, 7 in the order of the variants. 5 is
    /// the program's own, for a socket that can't be used.
    pub fn code(self) -> u8
        ensures { result ≡ code_of self }
    {
        match self {
            Status::Done => 0,
            Status::Refused => 1,
            Status::Usage => 2,
            Status::ReadFault => 3,
            Status::WriteFault => 4,
            Status::Limit => 6,
            Status::Memory => 7,
        }
    }
}
