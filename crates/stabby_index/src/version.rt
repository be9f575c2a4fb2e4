//! The versions of an index.
ghost use Rattle.std.specs.Prelude.{◌≡◌, [], IsTrue, IfOk, IfErr};
ghost use Rattle.stabby_index.specs.Rows.{changed_by};

use crate::changes::Changes;
use crate::row::Change;
use crate::view::View;
use stabby_cell::Chronicle;
use stabby_layout::AllocationError;
use std::alloc::Global;

/// A version: its rows, and the changes that made it out of the version before.
#[derive(Drop)]
pub struct Version {
    pub(crate) view: View,
    pub(crate) changes: Changes,
}

/// A version's entry is the list of the changes that made it.
impl Chronicle for Version {
    ghost use Rattle.std.specs.Prelude.{◌≡◌};
    ghost use Rattle.stabby_index.specs.Versions.{Follows};

    type Entry = Changes;

    ghost entry_of = { λ v. v.changes };

    ghost next = { λ old changes new. Follows old.view changes new.view };

    ghost same = { λ one other. other ≡ one };

    ghost can_copy = { λ _. Unit {0} };

    fn copy(&self, alloc: Global) -> Result<Version, AllocationError> {
        Ok(Version {
            view: self.view.copy()?,
            changes: self.changes.share(alloc)?,
        })
    }
}

impl Version {
    // The first version, which no changes made.
    pub(crate) fn first(alloc: Global) -> Version
        ensures { result.view ≡ [] }
    {
        Version {
            view: View::empty(alloc),
            changes: Changes::none(alloc),
        }
    }

    // The version that these changes make of these rows.
    pub(crate) fn after(
        rows: View,
        alloc: Global,
        changes: &[Change],
    ) -> Result<Version, AllocationError>
        ensures rows { IfOk result (λ new. new.view ≡ changed_by rows changes.now) }
        ensures changes { IfOk result (λ new. new.changes ≡ changes.now) }
        ensures memory { IfErr result (λ error. error ≡ AllocationError.Memory) }
    {
        let changes = Changes::of(alloc, changes)?;
        let view = rows.with_all(alloc, changes.list())?;
        Ok(Version { view, changes })
    }

    // This version, if it was built on the one before; else the one that its changes make of that one.
    pub(crate) fn on(
        self,
        alloc: Global,
        before: &Version,
        built_on_it: bool,
    ) -> Result<Version, AllocationError>
        requires built { IsTrue built_on_it → self.view ≡ changed_by before.now.view self.changes }
        ensures rows { IfOk result (λ new. new.view ≡ changed_by before.now.view self.changes) }
        ensures changes { IfOk result (λ new. new.changes ≡ self.changes) }
        ensures memory { IfErr result (λ error. error ≡ AllocationError.Memory) }
    {
        if built_on_it {
            return Ok(self);
        }
        let Version { view: _, changes } = self;
        let view = before.view.copy()?.with_all(alloc, changes.list())?;
        Ok(Version { view, changes })
    }
}
