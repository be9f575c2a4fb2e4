//! Where a key belongs among the entries of a node.

ghost use Rattle.std.specs.Prelude.{◌≡◌, ℕ, ◌+◌, ◌*◌, ◌<◌, ◌≤◌, [], ◌∷◌, true, false, None, length, take};
ghost use Rattle.std.specs.declared.cmp.Ordering.TheVariants.{Less, Equal, Greater};
ghost use Rattle.stabby_tree.specs.Order.{AllByRecursion, IsRising};
ghost use Rattle.stabby_tree.specs.Few.{few_items};
ghost use Rattle.stabby_tree.specs.Shape.{flat, KeyAt};
ghost use Rattle.stabby_tree.specs.Spot.{IsSpot};

use crate::few::Few;
use crate::keyed::Keyed;
use crate::node::{Item, Limit, Node};
use crate::probe::Probe;
use std::alloc::Allocator;
use std::cmp::Ordering;
use std::sync::Arc;

/// How the keys of elements are compared with what is asked.
pub(crate) trait Asks<T: Keyed, Q> {
    // The key that is looked up.
    ghost sought: { Q → T.Key };

    // How many comparisons were counted.
    ghost count: { Q → ℕ };

    // How many a comparison counts for.
    ghost cost: { ℕ };

    /// The order of the element's key against the key that is sought.
    fn order(asked: &mut Q, element: &T) -> Ordering
        requires room { count asked.old + cost ≤ 18446744073709551615 }
        ensures order { result ≡ T.Key.cmp (T.key_of element.now) (sought asked.old) }
        ensures key { sought asked.new ≡ sought asked.old }
        ensures count { count asked.new ≤ count asked.old + cost };
}

/// By a key.
pub(crate) struct ByKey;

impl<'a, T: Keyed> Asks<T, &'a T::Key> for ByKey {
    ghost sought = { λ k. k.now };

    ghost count = { λ k. 0 };

    ghost cost = { 0 };

    #[inline(always)]
    fn order(asked: &mut &'a T::Key, element: &T) -> Ordering {
        element.compare(*asked)
    }
}

/// By a probe, which counts.
pub(crate) struct ByProbe;

impl<T: Keyed, Q: Probe<T>> Asks<T, Q> for ByProbe {
    ghost sought = { λ q. Q.sought q };

    ghost count = { λ q. Q.count q };

    ghost cost = { 1 };

    #[inline(always)]
    fn order(asked: &mut Q, element: &T) -> Ordering {
        asked.compare(element)
    }
}

/// Where a key belongs, with how many entries are less than it.
pub(crate) enum Spot<'a, N, T, A: Allocator> {
    /// The entry of this element has the key.
    Hit(usize, &'a T),
    /// No entry has it, and only this link may lead to it.
    Below(usize, &'a Option<Arc<N, A>>),
}

/// Where the key belongs among the entries and the last link.
#[inline(always)]
pub(crate) fn seek<'a, T: Keyed, A: Allocator, P: Limit, Q, S: Asks<T, Q>>(
    entries: &'a Few<Item<Node<T, A, P>, T, A>, A>,
    last: &'a Option<Arc<Node<T, A, P>, A>>,
    asked: &mut Q,
) -> Spot<'a, Node<T, A, P>, T, A>
    requires rising { IsRising T.key_of T.Key.cmp (flat (few_items entries.now) last.now) }
    requires room { S.count asked.old + S.cost * length (few_items entries.now) ≤ 18446744073709551615 }
    ensures spot { IsSpot T.key_of T.Key.cmp (S.sought asked.old) (few_items entries.now) last.now 0 result }
    ensures key { S.sought asked.new ≡ S.sought asked.old }
    ensures count { S.count asked.new ≤ S.count asked.old + S.cost * length (few_items entries.now) }
{
    match entries {
        Few::Zero => Spot::Below(0, last),
        Few::One(a) => seek_one::<T, A, P, Q, S>(0, a, last, asked),
        Few::Two(a, b) => seek_two::<T, A, P, Q, S>(0, a, b, last, asked),
        Few::Three(a, b, c) => seek_three::<T, A, P, Q, S>(0, a, b, c, last, asked),
        Few::Four(a, b, c, d) => seek_four::<T, A, P, Q, S>(0, a, b, c, d, last, asked),
        Few::Five(a, b, c, d, e) => seek_five::<T, A, P, Q, S>(a, b, c, d, e, last, asked),
        Few::Many(values) => seek_many::<T, A, P, Q, S>(values.as_slice(), last, asked),
    }
}

#[inline(always)]
fn seek_one<'a, T: Keyed, A: Allocator, P: Limit, Q, S: Asks<T, Q>>(
    at: usize,
    a: &'a Item<Node<T, A, P>, T, A>,
    last: &'a Option<Arc<Node<T, A, P>, A>>,
    asked: &mut Q,
) -> Spot<'a, Node<T, A, P>, T, A>
    requires small { at < 5 }
    requires rising { IsRising T.key_of T.Key.cmp (flat (a.now ∷ []) last.now) }
    requires room { S.count asked.old + S.cost ≤ 18446744073709551615 }
    ensures spot { IsSpot T.key_of T.Key.cmp (S.sought asked.old) (a.now ∷ []) last.now at result }
    ensures key { S.sought asked.new ≡ S.sought asked.old }
    ensures count { S.count asked.new ≤ S.count asked.old + S.cost }
{
    match S::order(asked, &a.value) {
        Ordering::Less => Spot::Below(at + 1, last),
        Ordering::Equal => Spot::Hit(at, &a.value),
        Ordering::Greater => Spot::Below(at, &a.smaller),
    }
}

#[inline(always)]
fn seek_two<'a, T: Keyed, A: Allocator, P: Limit, Q, S: Asks<T, Q>>(
    at: usize,
    a: &'a Item<Node<T, A, P>, T, A>,
    b: &'a Item<Node<T, A, P>, T, A>,
    last: &'a Option<Arc<Node<T, A, P>, A>>,
    asked: &mut Q,
) -> Spot<'a, Node<T, A, P>, T, A>
    requires small { at < 4 }
    requires rising { IsRising T.key_of T.Key.cmp (flat (a.now ∷ b.now ∷ []) last.now) }
    requires room { S.count asked.old + S.cost * 2 ≤ 18446744073709551615 }
    ensures spot { IsSpot T.key_of T.Key.cmp (S.sought asked.old) (a.now ∷ b.now ∷ []) last.now at result }
    ensures key { S.sought asked.new ≡ S.sought asked.old }
    ensures count { S.count asked.new ≤ S.count asked.old + S.cost * 2 }
{
    match S::order(asked, &a.value) {
        Ordering::Less => seek_one::<T, A, P, Q, S>(at + 1, b, last, asked),
        Ordering::Equal => Spot::Hit(at, &a.value),
        Ordering::Greater => Spot::Below(at, &a.smaller),
    }
}

#[inline(always)]
fn seek_three<'a, T: Keyed, A: Allocator, P: Limit, Q, S: Asks<T, Q>>(
    at: usize,
    a: &'a Item<Node<T, A, P>, T, A>,
    b: &'a Item<Node<T, A, P>, T, A>,
    c: &'a Item<Node<T, A, P>, T, A>,
    last: &'a Option<Arc<Node<T, A, P>, A>>,
    asked: &mut Q,
) -> Spot<'a, Node<T, A, P>, T, A>
    requires small { at < 3 }
    requires rising { IsRising T.key_of T.Key.cmp (flat (a.now ∷ b.now ∷ c.now ∷ []) last.now) }
    requires room { S.count asked.old + S.cost * 3 ≤ 18446744073709551615 }
    ensures spot { IsSpot T.key_of T.Key.cmp (S.sought asked.old) (a.now ∷ b.now ∷ c.now ∷ []) last.now at result }
    ensures key { S.sought asked.new ≡ S.sought asked.old }
    ensures count { S.count asked.new ≤ S.count asked.old + S.cost * 3 }
{
    match S::order(asked, &a.value) {
        Ordering::Less => seek_two::<T, A, P, Q, S>(at + 1, b, c, last, asked),
        Ordering::Equal => Spot::Hit(at, &a.value),
        Ordering::Greater => Spot::Below(at, &a.smaller),
    }
}

#[inline(always)]
fn seek_four<'a, T: Keyed, A: Allocator, P: Limit, Q, S: Asks<T, Q>>(
    at: usize,
    a: &'a Item<Node<T, A, P>, T, A>,
    b: &'a Item<Node<T, A, P>, T, A>,
    c: &'a Item<Node<T, A, P>, T, A>,
    d: &'a Item<Node<T, A, P>, T, A>,
    last: &'a Option<Arc<Node<T, A, P>, A>>,
    asked: &mut Q,
) -> Spot<'a, Node<T, A, P>, T, A>
    requires small { at < 2 }
    requires rising { IsRising T.key_of T.Key.cmp (flat (a.now ∷ b.now ∷ c.now ∷ d.now ∷ []) last.now) }
    requires room { S.count asked.old + S.cost * 4 ≤ 18446744073709551615 }
    ensures spot { IsSpot T.key_of T.Key.cmp (S.sought asked.old) (a.now ∷ b.now ∷ c.now ∷ d.now ∷ []) last.now at result }
    ensures key { S.sought asked.new ≡ S.sought asked.old }
    ensures count { S.count asked.new ≤ S.count asked.old + S.cost * 4 }
{
    match S::order(asked, &a.value) {
        Ordering::Less => seek_three::<T, A, P, Q, S>(at + 1, b, c, d, last, asked),
        Ordering::Equal => Spot::Hit(at, &a.value),
        Ordering::Greater => Spot::Below(at, &a.smaller),
    }
}

#[inline(always)]
fn seek_five<'a, T: Keyed, A: Allocator, P: Limit, Q, S: Asks<T, Q>>(
    a: &'a Item<Node<T, A, P>, T, A>,
    b: &'a Item<Node<T, A, P>, T, A>,
    c: &'a Item<Node<T, A, P>, T, A>,
    d: &'a Item<Node<T, A, P>, T, A>,
    e: &'a Item<Node<T, A, P>, T, A>,
    last: &'a Option<Arc<Node<T, A, P>, A>>,
    asked: &mut Q,
) -> Spot<'a, Node<T, A, P>, T, A>
    requires rising { IsRising T.key_of T.Key.cmp (flat (a.now ∷ b.now ∷ c.now ∷ d.now ∷ e.now ∷ []) last.now) }
    requires room { S.count asked.old + S.cost * 5 ≤ 18446744073709551615 }
    ensures spot { IsSpot T.key_of T.Key.cmp (S.sought asked.old) (a.now ∷ b.now ∷ c.now ∷ d.now ∷ e.now ∷ []) last.now 0 result }
    ensures key { S.sought asked.new ≡ S.sought asked.old }
    ensures count { S.count asked.new ≤ S.count asked.old + S.cost * 5 }
{
    match S::order(asked, &a.value) {
        Ordering::Less => seek_four::<T, A, P, Q, S>(1, b, c, d, e, last, asked),
        Ordering::Equal => Spot::Hit(0, &a.value),
        Ordering::Greater => Spot::Below(0, &a.smaller),
    }
}

fn seek_many<'a, T: Keyed, A: Allocator, P: Limit, Q, S: Asks<T, Q>>(
    values: &'a [Item<Node<T, A, P>, T, A>],
    last: &'a Option<Arc<Node<T, A, P>, A>>,
    asked: &mut Q,
) -> Spot<'a, Node<T, A, P>, T, A>
    requires rising { IsRising T.key_of T.Key.cmp (flat values.now last.now) }
    requires room { S.count asked.old + S.cost * length values.now ≤ 18446744073709551615 }
    ensures spot { IsSpot T.key_of T.Key.cmp (S.sought asked.old) values.now last.now 0 result }
    ensures key { S.sought asked.new ≡ S.sought asked.old }
    ensures count { S.count asked.new ≤ S.count asked.old + S.cost * length values.now }
{
    let mut low = 0;
    let mut high = values.len();
    while low < high {
        let middle = low + (high - low) / 2;
        let entry = &values[middle];
        match S::order(asked, &entry.value) {
            Ordering::Less => low = middle + 1,
            Ordering::Equal => return Spot::Hit(middle, &entry.value),
            Ordering::Greater => high = middle,
        }
    }
    if low < values.len() {
        Spot::Below(low, &values[low].smaller)
    } else {
        Spot::Below(low, last)
    }
}

/// How many entries are less than the key, and whether the next one has it.
#[inline(always)]
pub(crate) fn place<T: Keyed + Drop, A: Allocator + Drop, P: Limit>(
    entries: &Few<Item<Node<T, A, P>, T, A>, A>,
    key: &T::Key,
) -> (usize, bool)
    requires rising { IsRising T.key_of T.Key.cmp (flat (few_items entries.now) None) }
    ensures within { result.0 ≤ length (few_items entries.now) }
    ensures less { AllByRecursion (λ y. T.Key.cmp (T.key_of y) key.now ≡ Less) (flat (take result.0 (few_items entries.now)) None) }
    ensures hit { result.1 ≡ true → (result.0 < length (few_items entries.now)) × KeyAt T.key_of T.Key.cmp (few_items entries.now) result.0 key.now Equal }
    ensures miss { result.1 ≡ false → result.0 < length (few_items entries.now) → KeyAt T.key_of T.Key.cmp (few_items entries.now) result.0 key.now Greater }
{
    let none = None;
    let mut asked = key;
    match seek::<T, A, P, &T::Key, ByKey>(entries, &none, &mut asked) {
        Spot::Hit(at, _) => (at, true),
        Spot::Below(at, _) => (at, false),
    }
}
