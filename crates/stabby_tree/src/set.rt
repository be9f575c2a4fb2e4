//! An ordered set, kept as a tree of nodes that its clones share.

ghost use Rattle.std.specs.Prelude.{◌≡◌, ◌==◌, Bool, [], length, min, ◌-◌, ◌^◌, ◌+◌, ◌*◌, ◌<◌, ◌≤◌, ◌||◌, not, is_none, option_copied, false, map, OnOk, OnErr, IfOk, IfErr, IsSome, IsOk};
ghost use Rattle.std.specs.List.{FoldsTo, find};
ghost use Rattle.std.specs.Fn.{CalledAt, FnReturnsAt};
ghost use Rattle.stabby_tree.specs.Sets.{IsLimit, IsRising, IsHeightOf, found, replaces, inserted, given_back};

use crate::copier::{Copier, PlainCopier};
use crate::insert::share;
use crate::keyed::Keyed;
use crate::node::{Node, SplitAt};
use crate::probe::Probe;
use crate::root::{Rooted, insert_root};
use crate::search::{look_up, search};
use crate::walk::{find_below, list_below, visit};
use stabby_layout::AllocationError;
use std::alloc::{Allocator, Global};
use std::marker::Model;
use std::sync::Arc;

/// A set of values in the order of their keys.
///
/// `REPLACE_ON_INSERT` says whether an insert of a key that is there puts the new value in the old one's place (any
/// number but 0) or leaves the set (0). `SPLIT_LIMIT` is how many entries split a node of the tree: odd, and at least 3.
#[derive(Drop)]
pub struct ArcBTreeSet<
    T: Keyed + Drop,
    A: Allocator,
    const REPLACE_ON_INSERT: usize,
    const SPLIT_LIMIT: usize,
> {
    pub(crate) root: Option<Arc<Node<T, A, SplitAt<SPLIT_LIMIT>>, A>>,
    count: usize,
    height: usize,
    alloc: A,
}

impl<T: Keyed + Drop, A: Allocator, const REPLACE_ON_INSERT: usize, const SPLIT_LIMIT: usize> Model
    for ArcBTreeSet<T, A, REPLACE_ON_INSERT, SPLIT_LIMIT> {
    ghost use Rattle.std.specs.Prelude.{◌≡◌, ◌-◌, ◌^◌, length, min};
    ghost use Rattle.stabby_tree.specs.Shape.{below, depth_of};
    ghost use Rattle.stabby_tree.specs.Sets.{SetValue, IsLimit, IsRising, IsHeightOf};

    ghost Value = { SetValue T };

    ghost view = { λ s. record { items = below s.root; height = depth_of s.root } };

    ghost invariant = { λ s. IsRising T.key_of T.Key.cmp (below s.root) × IsLimit SPLIT_LIMIT × IsHeightOf SPLIT_LIMIT (depth_of s.root) (length (below s.root)) × (s.count ≡ min (length (below s.root)) (2 ^ 64 - 1)) × (s.height ≡ depth_of s.root) };
}

impl<T: Keyed + Drop, A: Allocator> ArcBTreeSet<T, A, 0, 5> {
    /// The empty set that keeps its elements, with nodes of up to 4 entries.
    pub fn new_in(alloc: A) -> ArcBTreeSet<T, A, 0, 5>
        ensures { result.items ≡ [] }
    {
        ArcBTreeSet {
            root: None,
            count: 0,
            height: 0,
            alloc,
        }
    }
}

impl<T: Keyed + Drop, A: Allocator> ArcBTreeSet<T, A, 1, 5> {
    // The empty set that replaces, with nodes of up to 4 entries.
    pub(crate) fn replacing_in(alloc: A) -> ArcBTreeSet<T, A, 1, 5>
        ensures { result.items ≡ [] }
    {
        ArcBTreeSet {
            root: None,
            count: 0,
            height: 0,
            alloc,
        }
    }
}

impl<
    T: Keyed + Drop,
    A: Allocator,
    const REPLACE_ON_INSERT: usize,
    const SPLIT_LIMIT: usize,
> ArcBTreeSet<T, A, REPLACE_ON_INSERT, SPLIT_LIMIT> {
    /// The empty set. It takes no memory.
    pub fn from_alloc(alloc: A) -> Self
        requires limit { IsLimit SPLIT_LIMIT }
        ensures { result.items ≡ [] }
    {
        ArcBTreeSet {
            root: None,
            count: 0,
            height: 0,
            alloc,
        }
    }

    /// How many elements there are, or `usize::MAX` where they are more.
    pub fn len(&self) -> usize
        ensures { result ≡ min (length self.now.items) (2 ^ 64 - 1) }
    {
        self.count
    }

    /// Whether there is no element.
    pub fn is_empty(&self) -> bool
        ensures { result ≡ (length self.now.items == 0) }
    {
        self.count == 0
    }

    /// How many levels the tree has: 0 for the empty set, and at most logarithmic in the number of elements.
    pub fn height(&self) -> usize
        ensures height { result ≡ self.now.height }
        ensures bound { IsHeightOf SPLIT_LIMIT result (length self.now.items) }
    {
        self.height
    }

    /// The element with this key; `None` exactly where there is none.
    pub fn get(&self, key: &T::Key) -> Option<&T>
        ensures found { option_copied result ≡ found T.key_of T.Key.cmp self.now.items key.now }
        ensures rising { IsRising T.key_of T.Key.cmp self.now.items }
    {
        match &self.root {
            None => None,
            Some(node) => look_up(node, key),
        }
    }

    /// The element with the probe's key, as `get` has it. The probe's count rises by at most as many comparisons as one path
    /// of the tree has entries.
    pub fn get_counted<P: Probe<T>>(&self, probe: &mut P) -> Option<&T>
        requires countable { P.count probe.old + (SPLIT_LIMIT - 1) * self.now.height < 18446744073709551615 }
        ensures found { option_copied result ≡ found T.key_of T.Key.cmp self.now.items (P.sought probe.old) }
        ensures key { P.sought probe.new ≡ P.sought probe.old }
        ensures count { P.count probe.new ≤ P.count probe.old + (SPLIT_LIMIT - 1) * self.now.height }
    {
        match &self.root {
            None => None,
            Some(node) => search(node, probe),
        }
    }

    /// Adds the value where its key is absent, and answers `None`. Where the key is there and `REPLACE_ON_INSERT` is 0, the
    /// set stays, no memory is taken, and the value comes back. With another `REPLACE_ON_INSERT` the value takes the old
    /// one's place, and the old one comes back.
    ///
    /// # Errors
    /// `Memory` alone, with the value; the set is as it was. Never where the key is there and `REPLACE_ON_INSERT` is 0.
    pub fn insert(&mut self, value: T) -> Result<Option<T>, (T, AllocationError)>
    where
        T: Clone,
        A: Clone + Drop,
        requires clones_are_equal { (x y : T) → T.is_clone x y → y ≡ x }
        requires allocators_are_equal { (x y : A) → A.is_clone x y → y ≡ x }
        ensures set { OnOk result (self.new.items ≡ inserted T.key_of T.Key.cmp (replaces REPLACE_ON_INSERT) self.old.items value) }
        ensures given_back { IfOk result (λ back. back ≡ given_back T.key_of T.Key.cmp (replaces REPLACE_ON_INSERT) self.old.items value) }
        ensures rising { IsRising T.key_of T.Key.cmp self.new.items }
        ensures unchanged { OnErr result (self.new ≡ self.old) }
        ensures value_back { IfErr result (λ refusal. refusal ≡ (value, AllocationError.Memory)) }
        ensures no_memory_for_a_known_key { REPLACE_ON_INSERT ≡ 0 → IsSome (found T.key_of T.Key.cmp self.old.items (T.key_of value)) → IsOk result }
    {
        let mut copier = PlainCopier;
        self.insert_counted(&mut copier, value)
    }

    /// Inserts as `insert` does, and copies elements by the copier alone. Its count rises by at most as many elements as one
    /// path of the tree has, also where the call refuses, and not at all where the set keeps an element with the key.
    ///
    /// # Errors
    /// `Memory` alone, with the value; the set is as it was. Never where the key is there and `REPLACE_ON_INSERT` is 0.
    pub fn insert_counted<C: Copier<T>>(
        &mut self,
        copier: &mut C,
        value: T,
    ) -> Result<Option<T>, (T, AllocationError)>
    where
        A: Clone + Drop,
        requires copies_are_equal { (x y : T) → C.is_copy x y → y ≡ x }
        requires allocators_are_equal { (x y : A) → A.is_clone x y → y ≡ x }
        ensures set { OnOk result (self.new.items ≡ inserted T.key_of T.Key.cmp (replaces REPLACE_ON_INSERT) self.old.items value) }
        ensures given_back { IfOk result (λ back. back ≡ given_back T.key_of T.Key.cmp (replaces REPLACE_ON_INSERT) self.old.items value) }
        ensures rising { IsRising T.key_of T.Key.cmp self.new.items }
        ensures unchanged { OnErr result (self.new ≡ self.old) }
        ensures value_back { IfErr result (λ refusal. refusal ≡ (value, AllocationError.Memory)) }
        ensures no_memory_for_a_known_key { REPLACE_ON_INSERT ≡ 0 → IsSome (found T.key_of T.Key.cmp self.old.items (T.key_of value)) → IsOk result }
        ensures not_less { C.copies copier.old ≤ C.copies copier.new }
        ensures count { C.copies copier.new ≤ C.copies copier.old + (SPLIT_LIMIT - 1) * self.old.height }
        ensures none_for_a_known_key { REPLACE_ON_INSERT ≡ 0 → IsSome (found T.key_of T.Key.cmp self.old.items (T.key_of value)) → C.copies copier.new ≡ C.copies copier.old }
    {
        if self.keeps(value.key()) {
            return Ok(Some(value));
        }
        if self.height == usize::MAX {
            return Err((value, AllocationError::Memory));
        }
        match insert_root(&mut self.root, &self.alloc, copier, value) {
            Err(refused) => Err((refused, AllocationError::Memory)),
            Ok(Rooted::Same(Some(old))) => Ok(Some(old)),
            Ok(Rooted::Same(None)) => {
                self.count = self.count.saturating_add(1);
                Ok(None)
            }
            Ok(Rooted::Higher) => {
                self.count = self.count.saturating_add(1);
                self.height += 1;
                Ok(None)
            }
        }
    }

    /// An equal set. Later inserts into either leave the other.
    ///
    /// # Errors
    /// `Memory`, where the root has no further handle.
    pub fn clone(&self) -> Result<Self, AllocationError>
    where
        T: Clone,
        A: Clone + Drop,
        requires clones_are_equal { (x y : T) → T.is_clone x y → y ≡ x }
        requires allocators_are_equal { (x y : A) → A.is_clone x y → y ≡ x }
        ensures ok { IfOk result (λ copy. copy ≡ self.now) }
        ensures memory { IfErr result (λ error. error ≡ AllocationError.Memory) }
    {
        let root = share(&self.root)?;
        let alloc = self.alloc.clone()?;
        Ok(ArcBTreeSet {
            root,
            count: self.count,
            height: self.height,
            alloc,
        })
    }

    /// The first element, in order, that passes the test.
    pub fn find<F: Fn(&T) -> bool>(&self, test: F) -> Option<&T>
        requires { F.IsAlwaysCallable test }
        ensures { (p : T → Bool) → ((x : T) (r : Bool) → FnReturnsAt F.Fn test x r → r ≡ p x) → option_copied result ≡ find p self.now.items }
    {
        find_below(&self.root, &test)
    }

    /// Calls `f` on each element in order.
    pub fn for_each<F: FnMut(&T)>(&self, f: F)
        requires { F.IsAlwaysCallable f }
        ensures { (last : F) × FoldsTo (λ p x q. CalledAt F.FnMut p x tt q) f self.now.items last }
    {
        visit(&self.root, f);
    }

    /// The elements in order.
    ///
    /// # Errors
    /// `Memory`, where the list finds none.
    pub fn to_list(&self, alloc: Global) -> Result<Vec<&T>, AllocationError>
        ensures ok { IfOk result (λ list. map (λ x. x.now) list.items ≡ self.now.items) }
        ensures rising { IsRising T.key_of T.Key.cmp self.now.items }
        ensures memory { IfErr result (λ error. error ≡ AllocationError.Memory) }
    {
        let mut list = Vec::with_capacity(alloc, self.count)?;
        list_below(&self.root, &mut list)?;
        Ok(list)
    }

    // Whether an insert of this key leaves the set.
    fn keeps(&self, key: &T::Key) -> bool
        ensures { result ≡ not (replaces REPLACE_ON_INSERT || is_none (found T.key_of T.Key.cmp self.now.items key.now)) }
    {
        if REPLACE_ON_INSERT != 0 {
            return false;
        }
        self.get(key).is_some()
    }
}
