//! Why a count was not raised.

/// Why a call that raises a count refused, having tried until no other handle was in the way.
#[derive(Clone, Copy, Debug, PartialEq, Eq)]
pub enum CountFault {
    /// The word read has the count to be raised at its limit, 2^32 - 1.
    Full { word: u64 },
    /// No memory for a further handle. None is wanted today.
    Memory,
}

/// Why one try to raise a count refused.
#[derive(Clone, Copy, Debug, PartialEq, Eq)]
pub enum TryCountFault {
    /// The load read `first`, and the exchange another word, `second`.
    Moved { first: u64, second: u64 },
    /// The word read has the count to be raised at its limit, 2^32 - 1.
    Full { word: u64 },
    /// No memory for a further handle. None is wanted today.
    Memory,
}
