//! What a call answers.

use stabby_registry::{CellFault, TryFault};

/// What a call answers. C sees its code.
#[derive(Clone, Copy, Debug, PartialEq, Eq)]
pub enum Answer {
    /// The call did what it is for.
    Done,
    /// Memory could not be had.
    Memory,
    /// Another client held the registry's turn.
    Busy,
    /// Another client inserted a table meanwhile.
    Moved,
    /// The registry has as many tables as it can count.
    Full,
    /// No table has this number.
    Absent,
    /// The other client is of another registry.
    Foreign,
    /// The client's weight can't be cut so.
    Light,
    /// The lengths of a batch don't add up, or its numbers have no room.
    Malformed,
}

impl Answer {
    ghost use Rattle.std.specs.Prelude.{◌≡◌};
    ghost use Rattle.stabby_c.specs.Codes.{code_of};

    /// The code that C sees.
    pub fn code(self) -> u32
        ensures { result ≡ code_of self }
    {
        match self {
            Answer::Done => 0,
            Answer::Memory => 1,
            Answer::Busy => 2,
            Answer::Moved => 3,
            Answer::Full => 4,
            Answer::Absent => 5,
            Answer::Foreign => 6,
            Answer::Light => 7,
            Answer::Malformed => 8,
        }
    }
}

impl From<TryFault> for Answer {
    ghost use Rattle.std.specs.Prelude.{◌≡◌};
    ghost use Rattle.stabby_c.specs.Codes.{of_try};

    ghost from_gives = { λ fault answer. answer ≡ of_try fault };

    fn from(fault: TryFault) -> Answer {
        match fault {
            TryFault::Busy => Answer::Busy,
            TryFault::Moved { .. } => Answer::Moved,
            TryFault::Full { .. } => Answer::Full,
            TryFault::Memory => Answer::Memory,
        }
    }
}

impl From<CellFault> for Answer {
    ghost use Rattle.std.specs.Prelude.{◌≡◌};
    ghost use Rattle.stabby_c.specs.Codes.{of_read};

    ghost from_gives = { λ fault answer. answer ≡ of_read fault };

    fn from(fault: CellFault) -> Answer {
        match fault {
            CellFault::Busy => Answer::Busy,
            CellFault::Memory => Answer::Memory,
        }
    }
}
