//! How a run ends.

ghost use Rattle.std.specs.Prelude.{◌≡◌};

/// How a run of the program ended.
#[derive(Clone, Copy, Debug, PartialEq, Eq)]
pub enum Status {
    /// All calls were made, and their answers were taken.
    Ok,
    /// Memory could not be had.
    Memory,
    /// There are words.
    Usage,
    /// This line, counted from 1, is the first that is no call.
    BadLine { line: u64 },
    /// The source gave more than 16,777,216 bytes.
    TooLong,
    /// A read failed.
    ReadFault,
    /// A write of the answers failed.
    WriteFault,
}

impl Status {
    ghost use Rattle.plugin_host.specs.Statuses.{code_of};

    /// The exit code of the program: 0 for `Ok`, and 1 to 6 in the order of the faults above.
    pub fn code(&self) -> u8
        ensures { result ≡ code_of self.now }
    {
        match self {
            Status::Ok => 0,
            Status::Memory => 1,
            Status::Usage => 2,
            Status::BadLine { .. } => 3,
            Status::TooLong => 4,
            Status::ReadFault => 5,
            Status::WriteFault => 6,
        }
    }
}
