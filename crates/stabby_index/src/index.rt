//! Indices, and the passes of their callers.
ghost use Rattle.std.specs.Prelude.{◌≡◌, ◌<◌, ◌≤◌, [], ◌∷◌, length, IfOk, IfErr};
ghost use mathlib.Core.List.{IsPrefix};
ghost use Rattle.stabby_cell.specs.Telling.{noted};
ghost use Rattle.stabby_cell.specs.declared.view.StepKind.TheVariants.{Look};
ghost use Rattle.stabby_cell.specs.Passes.{SplitOff, Joined, Advances, IsWhole, front_of, stamp_of, weight_of, lost_of, commits_of, record_of, first_version_of, opening_stamp_of, keep_of};

use crate::version::Version;
use stabby_cell::{Pass, TurnCell};
use stabby_layout::AllocationError;
use std::alloc::Global;

/// What its caller has seen of an index: the front, a prefix of the list of all commits' changes.
pub type IndexPass = Pass<Version>;

/// Rows by their keys, and by their groups, version by version.
#[derive(Drop)]
pub struct Index {
    pub(crate) cell: TurnCell<Version>,
    ghost empty: { (first_version_of cell).view ≡ [] },
    ghost zero: { opening_stamp_of cell ≡ 0 },
}

impl Index {
    ghost use Rattle.stabby_index.specs.Passes.{IsPassOf, kept_by};

    /// The index at stamp 0, which has no rows, and its whole pass. The index keeps its last `keep` versions.
    ///
    /// # Errors
    /// `Memory`, where the index finds none.
    pub fn new(alloc: Global, keep: usize) -> Result<(Index, IndexPass), AllocationError>
        requires { (1 ≤ keep) × (keep ≤ 1024) }
        ensures pass { IfOk result (λ made. IsPassOf made.0 made.1) }
        ensures whole { IfOk result (λ made. IsWhole made.1) }
        ensures front { IfOk result (λ made. front_of made.1 ≡ []) }
        ensures stamp { IfOk result (λ made. stamp_of made.1 ≡ 0) }
        ensures keep { IfOk result (λ made. kept_by made.0 ≡ keep) }
        ensures lost { IfOk result (λ made. lost_of made.1 ≡ 0) }
        ensures commits { IfOk result (λ made. commits_of made.1 ≡ []) }
        ensures steps { IfOk result (λ made. record_of made.1 ≡ []) }
        ensures memory { IfErr result (λ error. error ≡ AllocationError.Memory) }
    {
        match TurnCell::new_keeping(alloc, Version::first(alloc), 0, keep) {
            Ok((cell, pass)) => Ok((Index { cell }, pass)),
            Err((_, error)) => Err(error),
        }
    }

    /// Cuts this weight off the pass, for a further caller with the same front.
    pub fn split(&self, pass: &mut IndexPass, weight: u64) -> IndexPass
        requires own { IsPassOf self.now pass.old }
        requires light { (0 < weight) × (weight < weight_of pass.old) }
        ensures pass { IsPassOf self.now pass.new }
        ensures new_pass { IsPassOf self.now result }
        ensures split { SplitOff pass.old pass.new result weight }
    {
        self.cell.split(pass, weight)
    }

    /// Puts the other pass into this one, and looks. Both fronts are prefixes of the new one.
    pub fn join(&self, pass: &mut IndexPass, other: IndexPass)
        requires own { IsPassOf self.now pass.old }
        requires other { IsPassOf self.now other }
        ensures pass { IsPassOf self.now pass.new }
        ensures joined { Joined pass.old other pass.new }
        ensures first { IsPrefix (front_of pass.old) (front_of pass.new) }
        ensures second { IsPrefix (front_of other) (front_of pass.new) }
    {
        self.cell.join(pass, other)
    }

    /// Reads the stamp, which is how many commits there are, and brings the front of the pass up to them.
    pub fn look(&self, pass: &mut IndexPass) -> u64
        requires { IsPassOf self.now pass.old }
        ensures pass { IsPassOf self.now pass.new }
        ensures stamp { result ≡ stamp_of pass.new }
        ensures count { result ≡ length (front_of pass.new) }
        ensures looked { Advances pass.old pass.new (noted Look result ∷ []) }
    {
        self.cell.look(pass)
    }
}
