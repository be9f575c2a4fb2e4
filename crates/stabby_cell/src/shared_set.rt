//! A set that threads read and edit whole.
ghost use Rattle.std.specs.Prelude.{◌≡◌, ◌≤◌, [], IfOk, IfErr};
ghost use Rattle.stabby_tree.specs.Sets.{IsLimit};
ghost use Rattle.stabby_cell.specs.Lookups.{Finds};
ghost use Rattle.stabby_cell.specs.Passes.{IsWhole, Looked, front_of, stamp_of, lost_of, commits_of, record_of};
ghost use Rattle.stabby_cell.specs.Replaced.{IsPassOf, contents_of, first_contents_of, keep_of};

use crate::cell::TurnCell;
use crate::pass::Pass;
use crate::replaced::ReplacedCell;
use stabby_layout::AllocationError;
use stabby_tree::{ArcBTreeSet, Keyed};
use std::alloc::Global;
use std::sync::Wait;

/// The contents of an [`AtomicArcBTreeSet`].
pub type Set<T, const R: usize, const L: usize> = ArcBTreeSet<T, Global, R, L>;

/// What its caller has seen of an [`AtomicArcBTreeSet`].
pub type SetPass<T, const R: usize, const L: usize> = Pass<Set<T, R, L>>;

/// A set that commits replace whole. The entry of a commit is the new contents.
pub type AtomicArcBTreeSet<T, const R: usize, const L: usize> = ReplacedCell<Set<T, R, L>>;

impl<T: Keyed + Drop + Clone, const R: usize, const L: usize> ReplacedCell<
    ArcBTreeSet<T, Global, R, L>,
> {
    /// The empty set at stamp 0, and its whole pass.
    ///
    /// # Errors
    ///
    /// `AllocationError::Memory` where there is no memory for the cell.
    pub fn new(alloc: Global) -> Result<(Self, SetPass<T, R, L>), AllocationError>
        requires { IsLimit L }
        ensures empty { IfOk result (λ made. (first_contents_of made.0).items ≡ []) }
        ensures pass { IfOk result (λ made. IsPassOf made.0 made.1) }
        ensures whole { IfOk result (λ made. IsWhole made.1) }
        ensures front { IfOk result (λ made. front_of made.1 ≡ []) }
        ensures stamp { IfOk result (λ made. stamp_of made.1 ≡ 0) }
        ensures keep { IfOk result (λ made. keep_of made.0 ≡ 1) }
        ensures lost { IfOk result (λ made. lost_of made.1 ≡ 0) }
        ensures commits { IfOk result (λ made. commits_of made.1 ≡ []) }
        ensures steps { IfOk result (λ made. record_of made.1 ≡ []) }
        ensures memory { IfErr result (λ error. error ≡ AllocationError.Memory) }
    {
        match TurnCell::new(alloc, ArcBTreeSet::from_alloc(alloc), 0) {
            Ok((cell, pass)) => Ok((ReplacedCell { cell, alloc }, pass)),
            Err((_, error)) => Err(error),
        }
    }

    /// `new`, and the cell keeps its last `keep` versions. It takes the room for all of them.
    ///
    /// # Errors
    ///
    /// `AllocationError::Memory` where there is no memory for the cell.
    pub fn new_keeping(
        alloc: Global,
        keep: usize,
    ) -> Result<(Self, SetPass<T, R, L>), AllocationError>
        requires limit { IsLimit L }
        requires keep { (1 ≤ keep) × (keep ≤ 1024) }
        ensures empty { IfOk result (λ made. (first_contents_of made.0).items ≡ []) }
        ensures pass { IfOk result (λ made. IsPassOf made.0 made.1) }
        ensures whole { IfOk result (λ made. IsWhole made.1) }
        ensures front { IfOk result (λ made. front_of made.1 ≡ []) }
        ensures stamp { IfOk result (λ made. stamp_of made.1 ≡ 0) }
        ensures keep { IfOk result (λ made. keep_of made.0 ≡ keep) }
        ensures lost { IfOk result (λ made. lost_of made.1 ≡ 0) }
        ensures commits { IfOk result (λ made. commits_of made.1 ≡ []) }
        ensures steps { IfOk result (λ made. record_of made.1 ≡ []) }
        ensures memory { IfErr result (λ error. error ≡ AllocationError.Memory) }
    {
        match TurnCell::new_keeping(alloc, ArcBTreeSet::from_alloc(alloc), 0, keep) {
            Ok((cell, pass)) => Ok((ReplacedCell { cell, alloc }, pass)),
            Err((_, error)) => Err(error),
        }
    }

    /// Calls `f`, outside the turn, on the element with this key in the contents at the end of the front after.
    ///
    /// # Errors
    ///
    /// `AllocationError::Memory` where the copy of the contents would need memory that there isn't.
    pub fn get<H: Wait, Q, F: FnOnce(Option<&T>) -> Q>(
        &self,
        rt: &H,
        pass: &mut SetPass<T, R, L>,
        key: &T::Key,
        f: F,
    ) -> Result<Q, AllocationError>
        requires own { IsPassOf self.now pass.old }
        requires clones_are_equal { (x y : T) → T.is_clone x y → y ≡ x }
        requires callable { F.IsAlwaysCallable f }
        ensures pass { IsPassOf self.now pass.new }
        ensures looked { Looked pass.old pass.new }
        ensures answer { IfOk result (λ q. Finds T.key_of T.Key.cmp (contents_of self.now (front_of pass.new)) key.now (λ x. F.post f x q)) }
        ensures memory { IfErr result (λ error. error ≡ AllocationError.Memory) }
    {
        let set = self.load(rt, self.alloc, pass)?;
        Ok(f(set.get(key)))
    }
}
