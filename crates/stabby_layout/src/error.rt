//! Why a growth was refused.
ghost use Rattle.std.specs.Prelude.{◌≡◌};
ghost use Rattle.stabby_layout.specs.declared.error.AllocationError.TheVariants.{Memory};

use std::alloc::{AllocError, AllocFailed};
use thiserror::Error;

/// Why a growth was refused: for want of memory, or since no memory could ever hold it.
///
/// Both variants are displayed as `AllocationError`.
#[derive(Clone, Copy, Debug, PartialEq, Eq, Hash, Error)]
pub enum AllocationError {
    /// The allocator had no memory to give.
    #[error("AllocationError")]
    Memory,
    /// The size or capacity asked for is beyond its bound.
    #[error("AllocationError")]
    Range,
}

/// An allocator that refuses has no memory: always `Memory`.
impl From<AllocError> for AllocationError {
    ghost from_gives = { λ _ error. error ≡ Memory };

    fn from(_refused: AllocError) -> AllocationError {
        AllocationError::Memory
    }
}

/// The value that could not be stored is let go: always `Memory`.
impl<T: Drop> From<AllocFailed<T>> for AllocationError {
    ghost from_gives = { λ _ error. error ≡ Memory };

    fn from(_refused: AllocFailed<T>) -> AllocationError {
        AllocationError::Memory
    }
}
