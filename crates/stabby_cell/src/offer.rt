//! Versions that were built outside the turn.
use crate::pass::Pass;
use crate::replaced::{Replaced, ReplacedCell};
use stabby_layout::AllocationError;
use std::alloc::Global;
use std::sync::Wait;

// How an offered version fared.
#[derive(Drop)]
pub(crate) enum Offered<V> {
    // It is in the cell.
    Committed,
    // Another pass committed since it was begun; this is the version now.
    Moved(V),
    // Another pass committed since it was begun, and no try is left.
    Lost,
    // There is no next stamp.
    Full,
    // Another pass committed since it was begun, and there is no memory for a copy of the version now.
    Memory,
}

impl<V: Replaced + Drop> ReplacedCell<V> {
    ghost use Rattle.stabby_cell.specs.Replaced.{IsPassOf};
    ghost use Rattle.stabby_cell.specs.Visits.{HasOffered};

    // Commits a version that was built on the front of the pass, unless another came between. Where one did and a try is
    // left, the version now is copied under the same turn.
    pub(crate) fn offer<H: Wait>(
        &self,
        rt: &H,
        alloc: Global,
        pass: &mut Pass<V>,
        next: V,
        left: u64,
    ) -> Offered<V>
        requires own { IsPassOf self.now pass.old }
        requires copies { (v : V) → V.Chronicle.can_copy v }
        ensures pass { IsPassOf self.now pass.new }
        ensures offered { HasOffered self.now pass.old pass.new left (V.Chronicle.entry_of next) result }
    {
        let base = pass.seen();
        let turn = self.cell.take(rt, pass);
        if turn.stamp() != base {
            if left == 0 {
                return Offered::Lost;
            }
            return match turn.version().copy(alloc) {
                Ok(newer) => Offered::Moved(newer),
                Err(_) => Offered::Memory,
            };
        }
        match turn.commit(next) {
            Ok(_) => Offered::Committed,
            Err(_) => Offered::Full,
        }
    }
}
