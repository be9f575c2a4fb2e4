//! Counted handles as pointers.
ghost use Rattle.stabby_count.specs.Shared.{arc_value, weak_value, IsSole};
ghost use Rattle.stabby_dyn.specs.Handles.{ClonesStrong, ClonesWeak, FindsOthers, LendsAlone, RefusesStrong, RefusesWeak};

use crate::pointer::{IPtr, IPtrClone, IPtrOwned, IPtrTryAsMut};
use stabby_count::{Arc, CountFault, Weak};
use std::sync::Wait;

impl<U> IPtr for Arc<U> {
    type Target = U;

    ghost pointee = { arc_value };

    fn as_ref(&self) -> &U {
        &**self
    }
}

/// Lends exactly where `get_mut` does: where the word read is one strong and one weak.
impl<U> IPtrTryAsMut for Arc<U> {
    ghost sure = { IsSole };

    ghost granted = { LendsAlone };

    ghost refused = { FindsOthers };

    fn try_as_mut(&mut self) -> Option<&mut U> {
        self.get_mut()
    }
}

/// Ends the strong handle by one step. The value is let go where it comes.
impl<U: Drop> IPtrOwned for Arc<U> {
    fn end(self) {}
}

impl<U: Drop> IPtrClone for Arc<U> {
    ghost Shared = { U };

    ghost shared = { arc_value };

    ghost cloned = { ClonesStrong };

    ghost clone_refused = { RefusesStrong };

    fn clone_ptr<R: Wait>(&mut self, rt: &R) -> Result<Self, CountFault> {
        self.clone(rt)
    }
}

/// Ends the weak handle by one step.
impl<U> IPtrOwned for Weak<U> {
    fn end(self) {}
}

impl<U> IPtrClone for Weak<U> {
    ghost Shared = { U };

    ghost shared = { weak_value };

    ghost cloned = { ClonesWeak };

    ghost clone_refused = { RefusesWeak };

    fn clone_ptr<R: Wait>(&mut self, rt: &R) -> Result<Self, CountFault> {
        self.clone(rt)
    }
}
