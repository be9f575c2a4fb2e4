//! The list or the items of a shared slice, lent to be changed in place.
ghost use Rattle.std.specs.Borrow.{sem};
ghost use Rattle.std.specs.Prelude.{◌≡◌};
ghost use Rattle.stabby_count.specs.SharedLists.{share_lends_items};
ghost use Rattle.stabby_count_word.specs.Kinds.{held};

use crate::slice::ArcSlice;
use crate::strong::Arc;
use stabby_count_word::{CountRule, Share};
use stabby_vec::Vec;
use std::alloc::{Allocator, Global};

// The items of a share's list.
fn share_items<T, A: Allocator, B: Allocator, W, P: CountRule<W>>(
    share: &mut Share<Vec<T, A>, B, W, P>,
) -> &mut [T]
    requires { share.old.kind ≡ held }
    ensures* writes_back { sem 𝓛 (share_lends_items T.row A.row B.row W.row P.row A.Allocator B.Allocator P.CountRule share.entry result) }
    ensures value { result.now ≡ share.old.value.items }
{
    share.show_mut().as_slice_mut()
}

impl<T> Arc<Vec<T, Global>> {
    ghost use Rattle.std.specs.Borrow.{sem};
    ghost use Rattle.std.specs.Prelude.{◌≡◌};
    ghost use Rattle.stabby_count.specs.Shared.{arc_value};
    ghost use Rattle.stabby_count.specs.SliceLends.{own_lends_items};
    ghost use Rattle.stabby_count_word.specs.Kinds.{held};

    // The items, while the handle may lend its list.
    fn own_items(&mut self) -> &mut [T]
        requires { self.old.share.kind ≡ held }
        ensures* writes_back { sem 𝓛 (own_lends_items T.row self.entry result) }
        ensures value { result.now ≡ (arc_value self.old).items }
    {
        share_items(&mut self.share)
    }
}

impl<T> ArcSlice<T> {
    ghost use Rattle.std.specs.Borrow.{sem};
    ghost use Rattle.std.specs.Prelude.{◌≡◌, IfSome, IsTrue, true, is_some};
    ghost use Rattle.stabby_count.specs.Records.{ReadsAlone};
    ghost use Rattle.stabby_count.specs.SharedSlices.{slice_value, slice_items, slice_record, IsSoleSlice, IsSameSlice};
    ghost use Rattle.stabby_count.specs.SliceLends.{slice_lends_own, slice_lends_list, slice_lends_items};
    ghost use Rattle.stabby_count_word.specs.Kinds.{held};

    // One read. Where it is of one strong and one weak, the handle may lend its list.
    fn seize(&mut self) -> bool
        ensures read { ReadsAlone (slice_record self.old) (slice_record self.new) result }
        ensures held { IsTrue result → self.new.shared.share.kind ≡ held }
        ensures sole { IsSoleSlice self.old → IsTrue result }
        ensures becomes_sole { IsTrue result → IsSoleSlice self.new }
        ensures kept { IsSameSlice self.old self.new }
    {
        self.shared.seize()
    }

    // The items, while the handle may lend its list.
    fn own_items(&mut self) -> &mut [T]
        requires { self.old.shared.share.kind ≡ held }
        ensures* writes_back { sem 𝓛 (slice_lends_own T.row self.entry result) }
        ensures value { result.now ≡ slice_items self.old }
    {
        self.shared.own_items()
    }

    /// The list to be changed, where this is the only handle.
    ///
    /// `None` comes as for `as_slice_mut`. What is written through the reference is the slice of all later
    /// handles, with its capacity; a caller's proof learns it, as it can't of `as_slice_mut`.
    pub fn get_mut(&mut self) -> Option<&mut Vec<T, Global>>
        ensures* writes_back { sem 𝓛 (slice_lends_list T.row self.entry result) }
        ensures value { IfSome result (λ r. r.now ≡ slice_value self.old) }
        ensures sole { IsSoleSlice self.old → is_some result ≡ true }
    {
        self.shared.get_mut()
    }

    /// The items to be changed in place, where this is the only handle.
    ///
    /// `None` comes exactly where the word read isn't one strong and one weak. What is written through
    /// the reference is what all later handles read. The number of items and the capacity stay.
    pub fn as_slice_mut(&mut self) -> Option<&mut [T]>
        ensures* writes_back { sem 𝓛 (slice_lends_items T.row self.entry result) }
        ensures value { IfSome result (λ r. r.now ≡ slice_items self.old) }
        ensures sole { IsSoleSlice self.old → is_some result ≡ true }
    {
        if self.seize() {
            Some(self.own_items())
        } else {
            None
        }
    }
}
