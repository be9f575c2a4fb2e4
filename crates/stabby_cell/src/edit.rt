//! Editing a version by a closure.
ghost use Rattle.std.specs.Prelude.{◌≡◌, ◌<◌, IfOk, IfErr, OnErr};
ghost use Rattle.stabby_cell.specs.Passes.{IsWhole, Looked};

use crate::offer::Offered;
use crate::pass::Pass;
use crate::replaced::{Replaced, ReplacedCell};
use stabby_layout::AllocationError;
use std::alloc::Global;
use std::sync::Wait;

/// How an edit ended.
#[derive(Clone, Copy, Debug, PartialEq, Eq)]
pub enum Edited {
    /// The closure kept the contents, which have this stamp.
    Kept {
        /// The stamp of the contents.
        stamp: u64,
    },
    /// The closure's contents were committed, and have this stamp.
    Committed {
        /// The stamp of the new contents.
        stamp: u64,
    },
}

/// Why an edit changed nothing.
#[derive(Clone, Copy, Debug, PartialEq, Eq)]
pub enum EditFault {
    /// The closure answered this fault.
    Refused(AllocationError),
    /// Each try was outrun by another caller's commit.
    Lost {
        /// The stamp of the contents that the closure got last.
        tried: u64,
        /// The stamp now.
        stamp: u64,
    },
    /// There is no stamp after this one.
    Full {
        /// The stamp, 2^63 - 1.
        stamp: u64,
    },
    /// The copy of the contents would need memory that there isn't.
    Memory,
}

impl<V: Replaced + Drop> ReplacedCell<V> {
    ghost use Rattle.stabby_cell.specs.Replaced.{IsPassOf};
    ghost use Rattle.stabby_cell.specs.Edits.{Edits, FailsEdit, IsOwnFault};

    /// Calls `f` on the contents, outside the turn, and commits the contents that it answers where none were committed since.
    /// Where some were, `f` is called on those, up to `tries` times in all.
    ///
    /// # Errors
    ///
    /// `Refused` where `f` answered that fault; `Lost` where contents were committed by others during each of the `tries`
    /// calls, never for a whole pass; `Full` where `f` answered contents and the stamp is 2^63 - 1; `Memory`. Nothing was
    /// added by this call.
    pub fn edit<H: Wait, F: FnMut(&V) -> Result<Option<V>, AllocationError>>(
        &self,
        rt: &H,
        alloc: Global,
        pass: &mut Pass<V>,
        tries: u64,
        mut f: F,
    ) -> Result<Edited, EditFault>
        requires own { IsPassOf self.now pass.old }
        requires copies { (v : V) → V.Chronicle.can_copy v }
        requires some { 0 < tries }
        requires callable { F.IsAlwaysCallable f }
        ensures pass { IsPassOf self.now pass.new }
        ensures ok { IfOk result (Edits F.FnMut self.now f pass.old pass.new tries) }
        ensures looked { OnErr result (Looked pass.old pass.new) }
        ensures fault { IfErr result (FailsEdit F.FnMut self.now f pass.old pass.new tries) }
        ensures whole { IsWhole pass.old → IfErr result IsOwnFault }
    {
        let mut contents = match self.load(rt, alloc, pass) {
            Ok(contents) => contents,
            Err(_) => return Err(EditFault::Memory),
        };
        for round in 0..tries {
            let base = pass.seen();
            match f(&contents) {
                Err(fault) => return Err(EditFault::Refused(fault)),
                Ok(None) => return Ok(Edited::Kept { stamp: base }),
                Ok(Some(next)) => match self.offer(rt, alloc, pass, next, tries - round - 1) {
                    Offered::Committed => return Ok(Edited::Committed { stamp: pass.seen() }),
                    Offered::Full => return Err(EditFault::Full { stamp: base }),
                    Offered::Memory => return Err(EditFault::Memory),
                    Offered::Lost => {
                        return Err(EditFault::Lost {
                            tried: base,
                            stamp: pass.seen(),
                        });
                    }
                    Offered::Moved(newer) => contents = newer,
                },
            }
        }
        unreachable!()
    }
}
