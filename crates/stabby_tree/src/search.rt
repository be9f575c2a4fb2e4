//! Lookup below a node.

ghost use Rattle.std.specs.Prelude.{◌≡◌, ℕ, ◌+◌, ◌*◌, ◌-◌, ◌<◌, ◌≤◌, option_copied};
ghost use Rattle.stabby_tree.specs.Sets.{IsRising, found};

use crate::keyed::Keyed;
use crate::node::{Limit, Node};
use crate::probe::Probe;
use crate::spot::{ByKey, ByProbe, Spot, seek};
use std::alloc::Allocator;

/// The element with the probe's key, with at most so many comparisons as the entries of one path.
pub fn search<'a, T: Keyed, A: Allocator, P: Limit, Q: Probe<T>>(
    node: &'a Node<T, A, P>,
    probe: &mut Q,
) -> Option<&'a T>
    requires rising { IsRising T.key_of T.Key.cmp node.now.0 }
    requires countable { Q.count probe.old + (P.limit - 1) * (node.now.1 + 1) < 18446744073709551615 }
    ensures value { option_copied result ≡ found T.key_of T.Key.cmp node.now.0 (Q.sought probe.old) }
    ensures key { Q.sought probe.new ≡ Q.sought probe.old }
    ensures count { Q.count probe.new ≤ Q.count probe.old + (P.limit - 1) * (node.now.1 + 1) }
{
    let mut node = node;
    'levels: loop {
        match seek::<T, A, P, Q, ByProbe>(&node.entries, &node.greater, probe) {
            Spot::Hit(_, element) => return Some(element),
            Spot::Below(_, None) => return None,
            Spot::Below(_, Some(child)) => node = &**child,
        }
    }
}

/// The element with this key.
pub fn look_up<'a, T: Keyed, A: Allocator, P: Limit>(
    node: &'a Node<T, A, P>,
    key: &T::Key,
) -> Option<&'a T>
    requires rising { IsRising T.key_of T.Key.cmp node.now.0 }
    ensures value { option_copied result ≡ found T.key_of T.Key.cmp node.now.0 key.now }
{
    let mut node = node;
    let mut asked = key;
    'levels: loop {
        match seek::<T, A, P, &T::Key, ByKey>(&node.entries, &node.greater, &mut asked) {
            Spot::Hit(_, element) => return Some(element),
            Spot::Below(_, None) => return None,
            Spot::Below(_, Some(child)) => node = &**child,
        }
    }
}
