//! Why a registry refuses.

use stabby_layout::AllocationError;

/// Why a table could not be inserted. Nothing was added by the call.
#[derive(Clone, Copy, Debug, PartialEq, Eq)]
pub enum RegistryFault {
    /// The registry has as many tables as it can count: the stamp is 2^63 - 1. `front` is the length of the front.
    Full { front: u64 },
    /// A row of words has no room: `claimed` of its words are claimed, and `needed` are needed. Never from a `VtBtree`.
    RowFull { claimed: u64, needed: u64 },
    /// Memory could not be had.
    Memory,
}

impl From<AllocationError> for RegistryFault {
    ghost use Rattle.std.specs.Prelude.{◌≡◌};
    ghost use Rattle.stabby_registry.specs.declared.fault.RegistryFault.TheVariants.{Memory};

    ghost from_gives = { λ _ fault. fault ≡ Memory };

    fn from(_refused: AllocationError) -> RegistryFault {
        RegistryFault::Memory
    }
}

/// Why one try could not insert a table. Nothing was added by the call.
#[derive(Clone, Copy, Debug, PartialEq, Eq)]
pub enum TryFault {
    /// Another pass held the turn.
    Busy,
    /// The new version was built on the first `from` tables, and the registry has `seen` by now.
    Moved { from: u64, seen: u64 },
    /// The registry has as many tables as it can count: the stamp is 2^63 - 1. `front` is the length of the front.
    Full { front: u64 },
    /// Memory could not be had.
    Memory,
}

impl From<AllocationError> for TryFault {
    ghost use Rattle.std.specs.Prelude.{◌≡◌};
    ghost use Rattle.stabby_registry.specs.declared.fault.TryFault.TheVariants.{Memory};

    ghost from_gives = { λ _ fault. fault ≡ Memory };

    fn from(_refused: AllocationError) -> TryFault {
        TryFault::Memory
    }
}
