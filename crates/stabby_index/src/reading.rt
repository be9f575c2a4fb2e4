//! Reading the versions that an index keeps.
ghost use Rattle.std.specs.Prelude.{◌≡◌, ◌↔◌, length, IfOk, IfErr, IfSome, IsSome};
ghost use Rattle.stabby_cell.specs.Passes.{Looked, front_of, stamp_of};
ghost use Rattle.stabby_cell.specs.Turns.{IsTurn, KeepsStamp};
ghost use Rattle.stabby_index.specs.Rows.{rows_at};
ghost use Rattle.stabby_index.specs.Turns.{Next, HasRowsAt};

use crate::index::{Index, IndexPass};
use crate::version::Version;
use crate::view::View;
use stabby_cell::Turn;
use stabby_layout::AllocationError;
use std::sync::Wait;

impl Index {
    ghost use Rattle.stabby_index.specs.Passes.{IsPassOf, IsKeptBy};

    /// The version at the end of the front, and its stamp.
    ///
    /// # Errors
    /// `Memory`, where the copy of the version finds none.
    pub fn now<H: Wait>(&self, rt: &H, pass: &mut IndexPass) -> Result<(View, u64), AllocationError>
        requires { IsPassOf self.now pass.old }
        ensures pass { IsPassOf self.now pass.new }
        ensures looked { Looked pass.old pass.new }
        ensures view { IfOk result (λ found. found.0 ≡ rows_at (front_of pass.new) found.1) }
        ensures stamp { IfOk result (λ found. found.1 ≡ stamp_of pass.new) }
        ensures count { IfOk result (λ found. found.1 ≡ length (front_of pass.new)) }
        ensures memory { IfErr result (λ error. error ≡ AllocationError.Memory) }
    {
        let turn = self.cell.take(rt, pass);
        let stamp = turn.stamp();
        let copy = turn.version().view.copy();
        turn.release();
        match copy {
            Ok(view) => Ok((view, stamp)),
            Err(error) => Err(error),
        }
    }

    /// The version of that stamp; `None` exactly where it isn't kept.
    ///
    /// # Errors
    /// `Memory`, where the copy of the version finds none.
    pub fn at<H: Wait>(
        &self,
        rt: &H,
        pass: &mut IndexPass,
        stamp: u64,
    ) -> Result<Option<View>, AllocationError>
        requires { IsPassOf self.now pass.old }
        ensures pass { IsPassOf self.now pass.new }
        ensures looked { Looked pass.old pass.new }
        ensures kept { IfOk result (λ found. IsSome found ↔ IsKeptBy self.now (stamp_of pass.new) stamp) }
        ensures view { IfOk result (λ found. IfSome found (λ view. view ≡ rows_at (front_of pass.new) stamp)) }
        ensures memory { IfErr result (λ error. error ≡ AllocationError.Memory) }
    {
        let turn = self.cell.take(rt, pass);
        let found = view_at(&turn, stamp);
        turn.release();
        found
    }
}

// The version of that stamp, copied under the turn.
fn view_at(turn: &Turn<'_, Version>, stamp: u64) -> Result<Option<View>, AllocationError>
    requires { IsTurn Next turn.now }
    ensures kept { IfOk result (λ found. IsSome found ↔ KeepsStamp turn.now stamp) }
    ensures view { IfOk result (λ found. IfSome found (HasRowsAt turn.now stamp)) }
    ensures memory { IfErr result (λ error. error ≡ AllocationError.Memory) }
{
    match turn.at(stamp) {
        None => Ok(None),
        Some(version) => Ok(Some(version.view.copy()?)),
    }
}
