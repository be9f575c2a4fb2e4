//! How a run ends.

ghost use Rattle.std.specs.Prelude.{◌≡◌};

/// Why the input is no message.
#[derive(Clone, Copy, Debug, PartialEq, Eq)]
pub enum Cause {
    /// No schema's head begins it.
    NotRecord,
    /// It ends at this place, before its body does.
    Truncated { at: u64 },
    /// Its padding byte at this place isn't zero.
    Padding { at: u64 },
    /// It goes on at this place, where its body ends.
    Trailing { at: u64 },
}

/// How a run of the program ended.
#[derive(Clone, Copy, Debug, PartialEq, Eq)]
pub enum Status {
    /// The whole text was taken.
    Ok,
    /// Memory could not be had.
    Memory,
    /// There were words.
    Usage,
    /// The input is no message.
    NoMessage { cause: Cause },
    /// The source gave more than 16,777,216 bytes.
    TooLong,
    /// A read failed.
    ReadFault,
    /// A write of the text failed.
    WriteFault,
}

impl Status {
    ghost use Rattle.record_show.specs.Statuses.{code_of};

    /// The exit code of the program: 0 for `Ok`, and 1 to 6 in the order of the faults above.
    pub fn code(&self) -> u8
        ensures { result ≡ code_of self.now }
    {
        match self {
            Status::Ok => 0,
            Status::Memory => 1,
            Status::Usage => 2,
            Status::NoMessage { .. } => 3,
            Status::TooLong => 4,
            Status::ReadFault => 5,
            Status::WriteFault => 6,
        }
    }
}
