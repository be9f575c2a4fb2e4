//! A caller's token.
ghost use Rattle.std.specs.Prelude.{◌≡◌, ◌-◌, ◌<◌, ◌≤◌, ◌^◌, ◌↔◌, min, length, IsTrue};
ghost use Rattle.std.specs.List.{Contains};
ghost use Rattle.stabby_row.specs.Seats.{IsReady, view_of};

use crate::base::RowSeat;

/// What one caller has seen of a row: a prefix of its list of tables.
///
/// The pass of a new row is whole. `WordRow::split` cuts weight off it for a further pass, `WordRow::join` puts two
/// passes together. A pass is `Send`, and takes no memory.
#[derive(Drop)]
pub struct RowPass {
    pub(crate) seat: RowSeat,
    pub(crate) seen: u64,
    pub(crate) walked: u64,
    pub(crate) weight: u64,
    // The greatest number of claimed words that the pass remembers that a claim left, or 0.
    pub(crate) left: u64,
    ghost ready: { IsReady seat },
    ghost seen_is: { seen ≡ length (view_of seat).nodes },
    ghost weight_is: { (weight ≡ (view_of seat).weight) × (weight ≤ 2 ^ 32) },
    ghost walked_is: { walked ≡ min (view_of seat).tally.walked (2 ^ 64 - 1) },
    ghost left_is: { left ≡ (view_of seat).left },
    ghost left_is_marked: { ∥ (0 < left → Contains (view_of seat).tally.marks left) ∥₁ },
}

impl RowPass {
    ghost use Rattle.stabby_row.specs.Passes.{front_of, walked_of, weight_of, IsWhole};

    /// How many tables this pass has seen: the length of its front.
    pub fn seen(&self) -> u64
        ensures { result ≡ length (front_of self.now) }
    {
        self.seen
    }

    /// How many loads of links this pass made, with those of the passes joined into it. It stays at `u64::MAX` once it
    /// is there.
    pub fn walked(&self) -> u64
        ensures { result ≡ min (walked_of self.now) (2 ^ 64 - 1) }
    {
        self.walked
    }

    /// The part of the whole weight, 2^32, that this pass has. At least 1.
    pub fn weight(&self) -> u64
        ensures weight { result ≡ weight_of self.now }
        ensures live { 0 < result }
    {
        self.weight
    }

    /// Whether this pass has the whole weight: every pass split from the row's first one is joined into it again. Then
    /// its front is all of the row's list.
    pub fn is_whole(&self) -> bool
        ensures { IsTrue result ↔ IsWhole self.now }
    {
        self.weight == 1 << 32
    }
}
