//! Insertion below a link. A node that no other set has is changed where it stands, and another one is copied first.

ghost use Rattle.std.specs.Prelude.{◌≡◌, ℕ, ◌+◌, ◌*◌, ◌/◌, ◌-◌, ◌<◌, ◌≤◌, List, [], ◌++◌, ◌∷◌, Some, true, false, length, take, drop, slice_get, slice_index_or, vec_len, vec_capacity, IfOk, MatchResult};
ghost use Rattle.std.specs.declared.cmp.Ordering.TheVariants.{Less, Equal, Greater};
ghost use Rattle.stabby_tree.specs.Order.{AllByRecursion, IsRising};
ghost use Rattle.stabby_tree.specs.Few.{few_items, IsFor};
ghost use Rattle.stabby_tree.specs.Shape.{flat, below, depth_of, IsHeavy, AreHeavy, KeyAt, Copies};
ghost use Rattle.stabby_tree.specs.Insert.{LinkTook, LinkKept, NodeTook, NodeKept, EntriesTook, EntriesKept};

use crate::copier::{Copier, copied};
use crate::few::{Few, empty, relink, revalue, split, widen};
use crate::keyed::Keyed;
use crate::node::{Item, Limit, Node};
use crate::spot::place;
use std::alloc::{AllocError, Allocator};
use std::marker::PhantomData;
use std::mem;
use std::sync::Arc;

/// What an insert below a link comes to.
#[derive(Drop)]
pub enum Up<N, T, A: Allocator> {
    /// The link has the value. What stood in the value's place comes back.
    Same(Option<T>),
    /// The link keeps the values below this one. The values above it are in a link of their own.
    Split(T, Option<Arc<N, A>>),
}

/// A node with no entry.
pub(crate) fn blank<T: Drop, A: Allocator + Clone + Drop, P: Limit>(
    alloc: &A,
) -> Result<Arc<Node<T, A, P>, A>, AllocError>
    requires { 0 < P.limit }
    ensures { IfOk result (λ n. n.value ≡ ([], 0)) }
{
    let entries = empty::<Item<Node<T, A, P>, T, A>, A, P>(alloc)?;
    let node = Arc::new(
        alloc.clone()?,
        Node {
            entries,
            greater: None,
            limit: PhantomData,
        },
    )?;
    Ok(node)
}

/// Another handle of the node that a link leads to.
pub(crate) fn share<T: Drop, A: Allocator + Drop, P: Limit>(
    link: &Option<Arc<Node<T, A, P>, A>>,
) -> Result<Option<Arc<Node<T, A, P>, A>>, AllocError>
    ensures { IfOk result (λ l. (below l ≡ below link.now) × (depth_of l ≡ depth_of link.now)) }
{
    match link {
        None => Ok(None),
        Some(node) => Ok(Some(Arc::try_clone(node)?)),
    }
}

/// An entry of the same values.
#[inline(always)]
fn copy_item<T: Drop, A: Allocator + Drop, P: Limit, C: Copier<T>>(
    item: &Item<Node<T, A, P>, T, A>,
    copier: &mut C,
) -> Result<Item<Node<T, A, P>, T, A>, AllocError>
    requires exact { (x y : T) → C.is_copy x y → y ≡ x }
    ensures same { IfOk result (λ i. (below i.smaller ≡ below item.now.smaller) × (depth_of i.smaller ≡ depth_of item.now.smaller) × (i.value ≡ item.now.value)) }
    ensures not_less { C.copies copier.old ≤ C.copies copier.new }
    ensures count { C.copies copier.new ≤ C.copies copier.old + 1 }
{
    let value = copied(&item.value, copier)?;
    match &item.smaller {
        None => Ok(Item {
            smaller: None,
            value,
        }),
        Some(node) => Ok(Item {
            smaller: Some(Arc::try_clone(node)?),
            value,
        }),
    }
}

/// A vector of entries of the same values.
fn copy_vec<T: Drop, A: Allocator + Clone + Drop, P: Limit, C: Copier<T>>(
    values: &[Item<Node<T, A, P>, T, A>],
    alloc: &A,
    copier: &mut C,
) -> Result<Vec<Item<Node<T, A, P>, T, A>, A>, AllocError>
    requires exact { (x y : T) → C.is_copy x y → y ≡ x }
    requires room { length values.now < P.limit }
    ensures same { IfOk result (λ es. Copies values.now es.items) }
    ensures capacity { IfOk result (λ es. P.limit ≤ vec_capacity es) }
    ensures not_less { C.copies copier.old ≤ C.copies copier.new }
    ensures count { C.copies copier.new ≤ C.copies copier.old + length values.now }
{
    let mut copies = Vec::with_capacity(alloc.clone()?, P::limit())?;
    for entry in values.iter() {
        let copied = copy_item(entry, copier)?;
        copies.push_reserved(copied);
    }
    Ok(copies)
}

/// Entries of the same values.
#[inline(always)]
fn copy_entries<T: Drop, A: Allocator + Clone + Drop, P: Limit, C: Copier<T>>(
    entries: &Few<Item<Node<T, A, P>, T, A>, A>,
    alloc: &A,
    copier: &mut C,
) -> Result<Few<Item<Node<T, A, P>, T, A>, A>, AllocError>
    requires exact { (x y : T) → C.is_copy x y → y ≡ x }
    requires room { length (few_items entries.now) < P.limit }
    requires place { IsFor P.limit entries.now }
    ensures same { IfOk result (λ es. Copies (few_items entries.now) (few_items es)) }
    ensures place { IfOk result (IsFor P.limit) }
    ensures not_less { C.copies copier.old ≤ C.copies copier.new }
    ensures count { C.copies copier.new ≤ C.copies copier.old + length (few_items entries.now) }
{
    match entries {
        Few::Zero => Ok(Few::Zero),
        Few::One(a) => {
            let a = copy_item(a, copier)?;
            Ok(Few::One(a))
        }
        Few::Two(a, b) => {
            let a = copy_item(a, copier)?;
            let b = copy_item(b, copier)?;
            Ok(Few::Two(a, b))
        }
        Few::Three(a, b, c) => {
            let a = copy_item(a, copier)?;
            let b = copy_item(b, copier)?;
            let c = copy_item(c, copier)?;
            Ok(Few::Three(a, b, c))
        }
        Few::Four(a, b, c, d) => {
            let a = copy_item(a, copier)?;
            let b = copy_item(b, copier)?;
            let c = copy_item(c, copier)?;
            let d = copy_item(d, copier)?;
            Ok(Few::Four(a, b, c, d))
        }
        Few::Five(_, _, _, _, _) => unreachable!(),
        Few::Many(values) => {
            let copies = copy_vec(values.as_slice(), alloc, copier)?;
            Ok(Few::Many(copies))
        }
    }
}

/// A node of the same values, with further handles of the nodes below.
fn copy_node<T: Drop, A: Allocator + Clone + Drop, P: Limit, C: Copier<T>>(
    node: &Node<T, A, P>,
    alloc: &A,
    copier: &mut C,
) -> Result<Arc<Node<T, A, P>, A>, AllocError>
    requires exact { (x y : T) → C.is_copy x y → y ≡ x }
    ensures same { IfOk result (λ n. n.value ≡ node.now) }
    ensures not_less { C.copies copier.old ≤ C.copies copier.new }
    ensures count { C.copies copier.new ≤ C.copies copier.old + (P.limit - 1) }
{
    let entries = copy_entries(&node.entries, alloc, copier)?;
    let greater = share(&node.greater)?;
    let copy = Arc::new(
        alloc.clone()?,
        Node {
            entries,
            greater,
            limit: PhantomData,
        },
    )?;
    Ok(copy)
}

/// Whether a link has no place for one more entry.
pub(crate) fn is_full<T, A: Allocator, P: Limit>(link: &Option<Arc<Node<T, A, P>, A>>) -> bool {
    match link {
        None => true,
        Some(node) => node.entries.len() + 1 >= P::limit(),
    }
}

/// Whether the link before this place is full, so that its node may split.
#[inline(always)]
pub(crate) fn is_full_at<T, A: Allocator, P: Limit>(
    entries: &Few<Item<Node<T, A, P>, T, A>, A>,
    greater: &Option<Arc<Node<T, A, P>, A>>,
    at: usize,
) -> bool {
    if at < entries.len() {
        is_full(&entries.at(at).smaller)
    } else {
        is_full(greater)
    }
}

/// Puts the value into entries that are no one else's, at the place that `place` has found. They get one more only where
/// the caller absorbs it.
#[cycle(insert)]
#[inline(always)]
fn insert_between<T: Keyed + Drop, A: Allocator + Clone + Drop, P: Limit, C: Copier<T>>(
    entries: &mut Few<Item<Node<T, A, P>, T, A>, A>,
    greater: &mut Option<Arc<Node<T, A, P>, A>>,
    at: usize,
    hit: bool,
    alloc: &A,
    copier: &mut C,
    value: T,
    absorbs: bool,
) -> Result<Option<T>, T>
    requires odd { P.limit ≡ 2 * (P.limit / 2) + 1 }
    requires rising { IsRising T.key_of T.Key.cmp (flat (few_items entries.old) greater.old) }
    requires heavy { AreHeavy (P.limit / 2) (depth_of greater.old) (few_items entries.old) }
    requires last { IsHeavy (P.limit / 2) (depth_of greater.old) greater.old }
    requires room { length (few_items entries.old) < P.limit }
    requires place { IsFor P.limit entries.old }
    requires within { at ≤ length (few_items entries.old) }
    requires less { AllByRecursion (λ y. T.Key.cmp (T.key_of y) (T.key_of value) ≡ Less) (flat (take at (few_items entries.old)) None) }
    requires hit { hit ≡ true → (at < length (few_items entries.old)) × KeyAt T.key_of T.Key.cmp (few_items entries.old) at (T.key_of value) Equal }
    requires miss { hit ≡ false → at < length (few_items entries.old) → KeyAt T.key_of T.Key.cmp (few_items entries.old) at (T.key_of value) Greater }
    requires exact { (x y : T) → C.is_copy x y → y ≡ x }
    ensures not_less { C.copies copier.old ≤ C.copies copier.new }
    ensures count { C.copies copier.new ≤ C.copies copier.old + (P.limit - 1) * depth_of greater.old }
    ensures place { IsFor P.limit entries.new }
    ensures value { MatchResult result
        (EntriesTook T.key_of T.Key.cmp (P.limit / 2) value (few_items entries.old) (few_items entries.new) greater.old greater.new absorbs)
        (EntriesKept T.key_of T.Key.cmp (P.limit / 2) value (few_items entries.old) (few_items entries.new) greater.old greater.new) }
{
    if hit {
        return Ok(Some(revalue::<Node<T, A, P>, T, A, P>(entries, at, value)));
    }
    if at < entries.len() {
        let mut link = relink::<Node<T, A, P>, T, A, P>(entries, at, None);
        match insert_link(&mut link, alloc, copier, value, absorbs) {
            Err(refused) => {
                relink::<Node<T, A, P>, T, A, P>(entries, at, link);
                Err(refused)
            }
            Ok(Up::Same(old)) => {
                relink::<Node<T, A, P>, T, A, P>(entries, at, link);
                Ok(old)
            }
            Ok(Up::Split(middle, right)) => {
                relink::<Node<T, A, P>, T, A, P>(entries, at, right);
                let item = Item {
                    smaller: link,
                    value: middle,
                };
                widen::<Item<Node<T, A, P>, T, A>, A, P>(entries, at, item);
                Ok(None)
            }
        }
    } else {
        match insert_link(greater, alloc, copier, value, absorbs) {
            Err(refused) => Err(refused),
            Ok(Up::Same(old)) => Ok(old),
            Ok(Up::Split(middle, right)) => {
                let left = mem::replace(greater, right);
                let item = Item {
                    smaller: left,
                    value: middle,
                };
                widen::<Item<Node<T, A, P>, T, A>, A, P>(entries, at, item);
                Ok(None)
            }
        }
    }
}

/// Puts the value into a node that is no one else's. The half that a split needs is made before the node is changed, and
/// only where a split may come.
#[cycle(insert)]
#[inline(always)]
fn insert_node<T: Keyed + Drop, A: Allocator + Clone + Drop, P: Limit, C: Copier<T>>(
    node: &mut Node<T, A, P>,
    alloc: &A,
    copier: &mut C,
    value: T,
    absorbs: bool,
) -> Result<Up<Node<T, A, P>, T, A>, T>
    requires odd { P.limit ≡ 2 * (P.limit / 2) + 1 }
    requires rising { IsRising T.key_of T.Key.cmp node.old.0 }
    requires exact { (x y : T) → C.is_copy x y → y ≡ x }
    ensures not_less { C.copies copier.old ≤ C.copies copier.new }
    ensures count { C.copies copier.new ≤ C.copies copier.old + (P.limit - 1) * node.old.1 }
    ensures value { MatchResult result
        (NodeTook T.key_of T.Key.cmp (P.limit / 2) value node.old node.new absorbs)
        (NodeKept value node.old node.new) }
{
    let (at, hit) = place(&node.entries, value.key());
    if node.entries.len() + 1 < P::limit() {
        return match insert_between(
            &mut node.entries,
            &mut node.greater,
            at,
            hit,
            alloc,
            copier,
            value,
            true,
        ) {
            Ok(old) => Ok(Up::Same(old)),
            Err(refused) => Err(refused),
        };
    }
    if !absorbs || hit || !is_full_at(&node.entries, &node.greater, at) {
        return match insert_between(
            &mut node.entries,
            &mut node.greater,
            at,
            hit,
            alloc,
            copier,
            value,
            false,
        ) {
            Ok(old) => Ok(Up::Same(old)),
            Err(refused) => Err(refused),
        };
    }
    let Ok(mut fresh) = blank::<T, A, P>(alloc) else {
        return Err(value);
    };
    let Some(room) = Arc::get_mut(&mut fresh) else {
        return Err(value);
    };
    match insert_between(
        &mut node.entries,
        &mut node.greater,
        at,
        hit,
        alloc,
        copier,
        value,
        true,
    ) {
        Err(refused) => Err(refused),
        Ok(old) => {
            if node.entries.len() < P::limit() {
                return Ok(Up::Same(old));
            }
            mem::drop(old);
            let middle = split::<Node<T, A, P>, T, A, P>(
                &mut node.entries,
                &mut node.greater,
                &mut room.entries,
                &mut room.greater,
            );
            Ok(Up::Split(middle, Some(fresh)))
        }
    }
}

/// Puts the value below the link. The answer is in two links only where the caller absorbs the second. A refusal leaves the
/// values below the link.
#[cycle(insert)]
pub(crate) fn insert_link<T: Keyed + Drop, A: Allocator + Clone + Drop, P: Limit, C: Copier<T>>(
    link: &mut Option<Arc<Node<T, A, P>, A>>,
    alloc: &A,
    copier: &mut C,
    value: T,
    absorbs: bool,
) -> Result<Up<Node<T, A, P>, T, A>, T>
    requires odd { P.limit ≡ 2 * (P.limit / 2) + 1 }
    requires rising { IsRising T.key_of T.Key.cmp (below link.old) }
    requires exact { (x y : T) → C.is_copy x y → y ≡ x }
    ensures not_less { C.copies copier.old ≤ C.copies copier.new }
    ensures count { C.copies copier.new ≤ C.copies copier.old + (P.limit - 1) * depth_of link.old }
    ensures value { MatchResult result
        (LinkTook T.key_of T.Key.cmp (P.limit / 2) value link.old link.new absorbs)
        (LinkKept value link.old link.new) }
{
    let Some(shared) = link else {
        return if absorbs {
            Ok(Up::Split(value, None))
        } else {
            Err(value)
        };
    };
    if let Some(node) = Arc::get_mut(shared) {
        return insert_node(node, alloc, copier, value, absorbs);
    }
    let Ok(mut copy) = copy_node(&**shared, alloc, copier) else {
        return Err(value);
    };
    let Some(node) = Arc::get_mut(&mut copy) else {
        return Err(value);
    };
    match insert_node(node, alloc, copier, value, absorbs) {
        Err(refused) => Err(refused),
        Ok(up) => {
            *shared = copy;
            Ok(up)
        }
    }
}
