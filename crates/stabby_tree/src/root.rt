//! Insertion below a root.

ghost use Rattle.std.specs.Prelude.{◌≡◌, ℕ, ◌+◌, ◌*◌, ◌/◌, ◌-◌, ◌<◌, ◌≤◌, length, MatchResult};
ghost use Rattle.stabby_tree.specs.Sets.{IsRising, IsHeightOf};
ghost use Rattle.stabby_tree.specs.Few.{few_items, IsFor};
ghost use Rattle.stabby_tree.specs.Shape.{below, depth_of};
ghost use Rattle.stabby_tree.specs.Insert.{LinkKept};
ghost use Rattle.stabby_tree.specs.Root.{RootTook};

use crate::copier::Copier;
use crate::few::widen;
use crate::insert::{Up, blank, insert_link, is_full, is_full_at};
use crate::keyed::Keyed;
use crate::node::{Item, Limit, Node};
use crate::spot::place;
use std::alloc::Allocator;
use std::mem;
use std::sync::Arc;

/// What an insert below a root comes to.
#[derive(Drop)]
pub enum Rooted<T> {
    /// The root is as high as it was. What stood in the value's place comes back.
    Same(Option<T>),
    /// The root is higher by one, and the key was absent.
    Higher,
}

// Whether a root may split at an insert of this key.
fn may_split<T: Keyed + Drop, A: Allocator + Drop, P: Limit>(
    root: &Option<Arc<Node<T, A, P>, A>>,
    key: &T::Key,
) -> bool
    requires rising { IsRising T.key_of T.Key.cmp (below root.now) }
{
    if !is_full(root) {
        return false;
    }
    match root {
        None => true,
        Some(node) => {
            let (at, hit) = place(&node.entries, key);
            !hit && is_full_at(&node.entries, &node.greater, at)
        }
    }
}

// Puts the value below the root.
pub(crate) fn insert_root<T: Keyed + Drop, A: Allocator + Clone + Drop, P: Limit, C: Copier<T>>(
    root: &mut Option<Arc<Node<T, A, P>, A>>,
    alloc: &A,
    copier: &mut C,
    value: T,
) -> Result<Rooted<T>, T>
    requires odd { P.limit ≡ 2 * (P.limit / 2) + 1 }
    requires three { 3 ≤ P.limit }
    requires rising { IsRising T.key_of T.Key.cmp (below root.old) }
    requires height { IsHeightOf P.limit (depth_of root.old) (length (below root.old)) }
    requires exact { (x y : T) → C.is_copy x y → y ≡ x }
    ensures not_less { C.copies copier.old ≤ C.copies copier.new }
    ensures count { C.copies copier.new ≤ C.copies copier.old + (P.limit - 1) * depth_of root.old }
    ensures value { MatchResult result (RootTook T.key_of T.Key.cmp P.limit value root.old root.new) (LinkKept value root.old root.new) }
{
    if !may_split(root, value.key()) {
        return match insert_link(root, alloc, copier, value, false) {
            Err(refused) => Err(refused),
            Ok(Up::Same(old)) => Ok(Rooted::Same(old)),
            Ok(Up::Split(_, _)) => unreachable!(),
        };
    }
    let Ok(mut fresh) = blank::<T, A, P>(alloc) else {
        return Err(value);
    };
    let Some(room) = Arc::get_mut(&mut fresh) else {
        return Err(value);
    };
    match insert_link(root, alloc, copier, value, true) {
        Err(refused) => Err(refused),
        Ok(Up::Same(old)) => Ok(Rooted::Same(old)),
        Ok(Up::Split(middle, right)) => {
            let left = mem::replace(root, None);
            let item = Item {
                smaller: left,
                value: middle,
            };
            widen::<Item<Node<T, A, P>, T, A>, A, P>(&mut room.entries, 0, item);
            room.greater = right;
            *root = Some(fresh);
            Ok(Rooted::Higher)
        }
    }
}
