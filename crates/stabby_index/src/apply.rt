//! Committing a list of changes.
ghost use Rattle.std.specs.Prelude.{◌≡◌, ℕ, Some, IfSome, IfNone, IfOk, IfErr, OnOk, OnErr};
ghost use Rattle.stabby_cell.specs.Passes.{Looked, front_of, stamp_of};
ghost use Rattle.stabby_index.specs.Rows.{rows_at};

use crate::index::{Index, IndexPass};
use crate::row::Change;
use crate::version::Version;
use crate::view::View;
use std::alloc::Global;
use std::sync::Wait;

/// Why changes weren't committed. Nothing was committed then.
#[derive(Drop, Debug)]
pub enum ApplyFault {
    /// The stamp isn't the one that the caller expected.
    Stale {
        /// The stamp that the caller expected.
        expected: u64,
        /// The stamp that was read.
        stamp: u64,
    },
    /// The stamp is 2^63 - 1, the greatest.
    Full {
        /// That stamp.
        stamp: u64,
    },
    /// There was no memory for the next version.
    Memory,
}

// The stamp that has no next one.
const LAST_STAMP: u64 = (1 << 63) - 1;

impl Index {
    ghost use Rattle.stabby_index.specs.Passes.{IsPassOf};
    ghost use Rattle.stabby_index.specs.Applying.{Applied, IsApplyFault, HasRoom, IsBuiltOn};

    /// Commits all these changes, in order, as the next version, and answers its stamp. Where a stamp is expected, that is
    /// the one before.
    ///
    /// The version is built outside the turn. Where another commit came between, it is built again under the turn, so a
    /// call takes two turns at most.
    ///
    /// # Errors
    /// In this order: `Stale` only where a stamp is expected and is not the one that was read; `Full` only where that is
    /// 2^63 - 1; `Memory`.
    pub fn apply<H: Wait>(
        &self,
        rt: &H,
        alloc: Global,
        pass: &mut IndexPass,
        changes: &[Change],
        expect: Option<u64>,
    ) -> Result<u64, ApplyFault>
        requires { IsPassOf self.now pass.old }
        ensures pass { IsPassOf self.now pass.new }
        ensures applied { IfOk result (Applied pass.old pass.new changes.now expect) }
        ensures looked { OnErr result (Looked pass.old pass.new) }
        ensures fault { IfErr result (IsApplyFault pass.new expect) }
    {
        let next = self.build(rt, alloc, pass, changes, expect)?;
        self.offer(rt, alloc, pass, next, expect)
    }

    // The version that these changes make of the newest one, built outside the turn.
    fn build<H: Wait>(
        &self,
        rt: &H,
        alloc: Global,
        pass: &mut IndexPass,
        changes: &[Change],
        expect: Option<u64>,
    ) -> Result<Version, ApplyFault>
        requires { IsPassOf self.now pass.old }
        ensures pass { IsPassOf self.now pass.new }
        ensures looked { Looked pass.old pass.new }
        ensures rows { IfOk result (λ next. IsBuiltOn pass.new next) }
        ensures changes { IfOk result (λ next. next.changes ≡ changes.now) }
        ensures fault { IfErr result (IsApplyFault pass.new expect) }
    {
        let rows = self.begin(rt, pass, expect)?;
        match Version::after(rows, alloc, changes) {
            Ok(next) => Ok(next),
            Err(_) => Err(ApplyFault::Memory),
        }
    }

    // The newest rows, where changes may be made of them.
    fn begin<H: Wait>(
        &self,
        rt: &H,
        pass: &mut IndexPass,
        expect: Option<u64>,
    ) -> Result<View, ApplyFault>
        requires { IsPassOf self.now pass.old }
        ensures pass { IsPassOf self.now pass.new }
        ensures looked { Looked pass.old pass.new }
        ensures rows { IfOk result (λ rows. rows ≡ rows_at (front_of pass.new) (stamp_of pass.new)) }
        ensures room { OnOk result (HasRoom pass.new expect) }
        ensures fault { IfErr result (IsApplyFault pass.new expect) }
    {
        let turn = self.cell.take(rt, pass);
        let stamp = turn.stamp();
        if let Some(expected) = stale(expect, stamp) {
            return Err(ApplyFault::Stale { expected, stamp });
        }
        if stamp == LAST_STAMP {
            return Err(ApplyFault::Full { stamp });
        }
        let copy = turn.version().view.copy();
        turn.release();
        match copy {
            Ok(rows) => Ok(rows),
            Err(_) => Err(ApplyFault::Memory),
        }
    }

    // Commits a version that was built on the front of the pass.
    fn offer<H: Wait>(
        &self,
        rt: &H,
        alloc: Global,
        pass: &mut IndexPass,
        next: Version,
        expect: Option<u64>,
    ) -> Result<u64, ApplyFault>
        requires own { IsPassOf self.now pass.old }
        requires built { IsBuiltOn pass.old next }
        ensures pass { IsPassOf self.now pass.new }
        ensures applied { IfOk result (Applied pass.old pass.new next.changes expect) }
        ensures looked { OnErr result (Looked pass.old pass.new) }
        ensures fault { IfErr result (IsApplyFault pass.new expect) }
    {
        let base = pass.seen();
        let turn = self.cell.take(rt, pass);
        let stamp = turn.stamp();
        if let Some(expected) = stale(expect, stamp) {
            return Err(ApplyFault::Stale { expected, stamp });
        }
        if stamp == LAST_STAMP {
            return Err(ApplyFault::Full { stamp });
        }
        match next.on(alloc, turn.version(), stamp == base) {
            Err(_) => Err(ApplyFault::Memory),
            Ok(next) => match turn.commit(next) {
                Ok(_) => Ok(stamp + 1),
                Err(_) => Err(ApplyFault::Full { stamp }),
            },
        }
    }
}

// The expected stamp, where it isn't this one.
fn stale(expect: Option<u64>, stamp: u64) -> Option<u64>
    ensures some { IfSome result (λ e. (expect ≡ Some e) × (e ≡ stamp → ⊥)) }
    ensures none { IfNone result ((e : ℕ) → expect ≡ Some e → e ≡ stamp) }
{
    match expect {
        None => None,
        Some(expected) => {
            if expected == stamp {
                None
            } else {
                Some(expected)
            }
        }
    }
}
