//! Registries, and the passes of their callers.

ghost use Rattle.std.specs.Prelude.{◌≡◌, ◌<◌, [], ◌∷◌, IfOk, IfErr};
ghost use mathlib.Core.List.{IsPrefix};
ghost use Rattle.stabby_tree.specs.Sets.{IsLimit};
ghost use Rattle.stabby_cell.specs.Telling.{noted};
ghost use Rattle.stabby_cell.specs.declared.view.StepKind.TheVariants.{Look};
ghost use Rattle.stabby_cell.specs.Passes.{SplitOff, Joined, Advances, front_of, stamp_of, weight_of, first_version_of, opening_stamp_of};

use crate::catalog::Catalog;
use stabby_cell::{Pass, TurnCell};
use stabby_layout::AllocationError;
use std::alloc::Global;

/// What its caller has seen of a registry: the front, which is a prefix of the registry's list.
pub type TreePass<const SIZE: usize> = Pass<Catalog<SIZE>>;

/// A registry: a list of distinct tables, which changes only by appending an absent one.
///
/// It is a cell whose versions are catalogs. `SIZE`, odd and at least 3, is the limit of a node of its set.
#[derive(Drop)]
pub struct VtBtree<const SIZE: usize> {
    pub(crate) cell: TurnCell<Catalog<SIZE>>,
    ghost empty: { first_version_of cell ≡ [] },
    ghost zero: { opening_stamp_of cell ≡ 0 },
}

impl<const SIZE: usize> VtBtree<SIZE> {
    ghost use Rattle.stabby_registry.specs.Passes.{IsPassOf, IsOpening};

    /// The empty registry, and its whole pass.
    ///
    /// # Errors
    /// `Memory`, where the registry finds none.
    pub fn new(alloc: Global) -> Result<(VtBtree<SIZE>, TreePass<SIZE>), AllocationError>
        requires { IsLimit SIZE }
        ensures ok { IfOk result (λ made. IsOpening made.0 made.1) }
        ensures memory { IfErr result (λ error. error ≡ AllocationError.Memory) }
    {
        match TurnCell::new(alloc, Catalog::new(alloc), 0) {
            Ok((cell, pass)) => Ok((VtBtree { cell }, pass)),
            Err((_, error)) => Err(error),
        }
    }

    /// Cuts this weight off the pass, for a further caller with the same front.
    pub fn split(&self, pass: &mut TreePass<SIZE>, weight: u64) -> TreePass<SIZE>
        requires own { IsPassOf self.now pass.old }
        requires light { (0 < weight) × (weight < weight_of pass.old) }
        ensures pass { IsPassOf self.now pass.new }
        ensures new_pass { IsPassOf self.now result }
        ensures split { SplitOff pass.old pass.new result weight }
    {
        self.cell.split(pass, weight)
    }

    /// Puts the other pass into this one, and looks. Both fronts are prefixes of the new one.
    pub fn join(&self, pass: &mut TreePass<SIZE>, other: TreePass<SIZE>)
        requires own { IsPassOf self.now pass.old }
        requires other { IsPassOf self.now other }
        ensures pass { IsPassOf self.now pass.new }
        ensures joined { Joined pass.old other.entry pass.new }
        ensures first { IsPrefix (front_of pass.old) (front_of pass.new) }
        ensures second { IsPrefix (front_of other.entry) (front_of pass.new) }
    {
        self.cell.join(pass, other)
    }

    /// Reads how many tables there are, and brings the front of the pass up to them.
    pub fn look(&self, pass: &mut TreePass<SIZE>) -> u64
        requires { IsPassOf self.now pass.old }
        ensures pass { IsPassOf self.now pass.new }
        ensures stamp { result ≡ stamp_of pass.new }
        ensures looked { Advances pass.old pass.new (noted Look result ∷ []) }
    {
        self.cell.look(pass)
    }
}
