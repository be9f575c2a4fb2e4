//! A cell whose commits replace the version whole.
ghost use Rattle.std.specs.Prelude.{◌≡◌, ◌↔◌, ◌<◌, [], ◌∷◌, IfOk, IfErr, OnOk, IfSome, IsSome};
ghost use mathlib.Core.List.{IsPrefix};

use crate::cell::TurnCell;
use crate::chronicle::Chronicle;
use crate::copy_at::copy_at;
use crate::fault::CellFault;
use crate::pass::Pass;
use crate::turn::Busy;
use stabby_layout::AllocationError;
use std::alloc::Global;
use std::sync::Wait;

/// A version that commits replace whole: its entry is the version itself, any version may follow, and a copy is equal.
pub trait Replaced: Chronicle<Entry = Self> {
    ghost entry_is: { (v : Self) → Self.Chronicle.entry_of v ≡ v };

    ghost follows: { (old : Self) (new : Self) → Self.Chronicle.next old new new };

    ghost no_other: { (old : Self) (e : Self) (new : Self) → Self.Chronicle.next old e new → e ≡ new };

    ghost exact: { (one : Self) (other : Self) → Self.Chronicle.same one other → other ≡ one };
}

/// A value that threads read and replace whole: the entry of a commit is the new version.
#[derive(Drop)]
pub struct ReplacedCell<V: Replaced> {
    pub(crate) cell: TurnCell<V>,
    pub(crate) alloc: Global,
}

impl<V: Replaced + Drop> ReplacedCell<V> {
    ghost use Rattle.stabby_cell.specs.Telling.{noted};
    ghost use Rattle.stabby_cell.specs.declared.view.StepKind.TheVariants.{Look};
    ghost use Rattle.stabby_cell.specs.Passes.{Advances, Looked, SplitOff, Joined, front_of, stamp_of, weight_of};
    ghost use Rattle.stabby_cell.specs.Replaced.{IsPassOf, contents_of, contents_at, KeepsAt};
    ghost use Rattle.stabby_cell.specs.Reads.{IsReadFault};
    ghost use Rattle.stabby_cell.specs.Visits.{Visited};

    /// Cuts this weight off the pass, for a further pass with the same front.
    pub fn split(&self, pass: &mut Pass<V>, weight: u64) -> Pass<V>
        requires own { IsPassOf self.now pass.old }
        requires light { (0 < weight) × (weight < weight_of pass.old) }
        ensures pass { IsPassOf self.now pass.new }
        ensures new_pass { IsPassOf self.now result }
        ensures split { SplitOff pass.old pass.new result weight }
    {
        self.cell.split(pass, weight)
    }

    /// Puts the other pass into this one, and looks. Both fronts are prefixes of the new one.
    pub fn join(&self, pass: &mut Pass<V>, other: Pass<V>)
        requires own { IsPassOf self.now pass.old }
        requires other { IsPassOf self.now other }
        ensures pass { IsPassOf self.now pass.new }
        ensures joined { Joined pass.old other pass.new }
        ensures first { IsPrefix (front_of pass.old) (front_of pass.new) }
        ensures second { IsPrefix (front_of other) (front_of pass.new) }
    {
        self.cell.join(pass, other)
    }

    /// Reads the stamp, and brings the front of the pass up to it.
    pub fn look(&self, pass: &mut Pass<V>) -> u64
        requires { IsPassOf self.now pass.old }
        ensures pass { IsPassOf self.now pass.new }
        ensures stamp { result ≡ stamp_of pass.new }
        ensures looked { Advances pass.old pass.new (noted Look result ∷ []) }
    {
        self.cell.look(pass)
    }

    /// A copy of the version at the end of the front after.
    ///
    /// # Errors
    ///
    /// `AllocationError::Memory` where the copy would need memory that there isn't.
    pub fn snapshot<H: Wait>(&self, rt: &H, pass: &mut Pass<V>) -> Result<V, AllocationError>
        requires own { IsPassOf self.now pass.old }
        requires copies { (v : V) → V.Chronicle.can_copy v }
        ensures pass { IsPassOf self.now pass.new }
        ensures looked { Looked pass.old pass.new }
        ensures contents { IfOk result (λ v. v ≡ contents_of self.now (front_of pass.new)) }
        ensures memory { IfErr result (λ error. error ≡ AllocationError.Memory) }
    {
        self.load(rt, self.alloc, pass)
    }

    /// `snapshot` by one try at the turn.
    ///
    /// # Errors
    ///
    /// `Busy` only where another pass held the turn: `lost` rose by one, the front stays; never for a whole pass.
    /// `Memory` where the copy would need memory that there isn't.
    pub fn try_snapshot(&self, pass: &mut Pass<V>) -> Result<V, CellFault>
        requires own { IsPassOf self.now pass.old }
        requires copies { (v : V) → V.Chronicle.can_copy v }
        ensures pass { IsPassOf self.now pass.new }
        ensures looked { OnOk result (Looked pass.old pass.new) }
        ensures contents { IfOk result (λ v. v ≡ contents_of self.now (front_of pass.new)) }
        ensures fault { IfErr result (IsReadFault pass.old pass.new) }
    {
        match pass.try_take(&self.cell) {
            Err(Busy) => Err(CellFault::Busy),
            Ok(turn) => {
                let copy = turn.version().copy(self.alloc);
                turn.release();
                match copy {
                    Ok(version) => Ok(version),
                    Err(_) => Err(CellFault::Memory),
                }
            }
        }
    }

    /// A copy of the version of that stamp. `None` exactly where the stamp isn't kept at the front after.
    ///
    /// # Errors
    ///
    /// `AllocationError::Memory` where the copy would need memory that there isn't.
    pub fn snapshot_at<H: Wait>(
        &self,
        rt: &H,
        pass: &mut Pass<V>,
        stamp: u64,
    ) -> Result<Option<V>, AllocationError>
        requires own { IsPassOf self.now pass.old }
        requires copies { (v : V) → V.Chronicle.can_copy v }
        ensures pass { IsPassOf self.now pass.new }
        ensures looked { Looked pass.old pass.new }
        ensures kept { IfOk result (λ found. IsSome found ↔ KeepsAt self.now pass.new stamp) }
        ensures contents { IfOk result (λ found. IfSome found (λ v. v ≡ contents_at self.now (front_of pass.new) stamp)) }
        ensures memory { IfErr result (λ error. error ≡ AllocationError.Memory) }
    {
        let turn = self.cell.take(rt, pass);
        let found = copy_at(&turn, stamp, self.alloc);
        turn.release();
        found
    }

    // A copy of the version, made under the turn.
    pub(crate) fn load<H: Wait>(
        &self,
        rt: &H,
        alloc: Global,
        pass: &mut Pass<V>,
    ) -> Result<V, AllocationError>
        requires own { IsPassOf self.now pass.old }
        requires copies { (v : V) → V.Chronicle.can_copy v }
        ensures pass { IsPassOf self.now pass.new }
        ensures visited { Visited pass.old pass.new }
        ensures contents { IfOk result (λ v. v ≡ contents_of self.now (front_of pass.new)) }
        ensures memory { IfErr result (λ error. error ≡ AllocationError.Memory) }
    {
        let turn = self.cell.take(rt, pass);
        let copied = turn.version().copy(alloc);
        turn.release();
        copied
    }
}
