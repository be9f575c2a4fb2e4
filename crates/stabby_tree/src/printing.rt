//! How a set is printed.

use crate::keyed::Keyed;
use crate::node::{Limit, Node};
use crate::set::ArcBTreeSet;
use std::alloc::Allocator;
use std::fmt;

// A node as `{`, its smaller children, values and greater child in order with `, ` between, and `}`.
fn print_node<T: fmt::Debug, A: Allocator, P: Limit, W: fmt::Write>(
    node: &Node<T, A, P>,
    f: &mut fmt::Formatter<W>,
) -> fmt::Result {
    write!(f, "{{")?;
    for at in 0..node.entries.len() {
        let entry = node.entries.at(at);
        if at > 0 {
            write!(f, ", ")?;
        }
        if let Some(child) = &entry.smaller {
            print_node(child, f)?;
            write!(f, ", ")?;
        }
        fmt::Debug::fmt(&entry.value, f)?;
    }
    if let Some(child) = &node.greater {
        write!(f, ", ")?;
        print_node(child, f)?;
    }
    write!(f, "}}")
}

/// Prints the nodes: `ArcBTreeSet{{1, 2}, 3, {4, 5}}`, and the empty set as `ArcBTreeSet{}`.
impl<
    T: Keyed + Drop + fmt::Debug,
    A: Allocator,
    const REPLACE_ON_INSERT: usize,
    const SPLIT_LIMIT: usize,
> fmt::Debug for ArcBTreeSet<T, A, REPLACE_ON_INSERT, SPLIT_LIMIT> {
    fn fmt<W: fmt::Write>(&self, f: &mut fmt::Formatter<W>) -> fmt::Result {
        write!(f, "ArcBTreeSet")?;
        match &self.root {
            None => write!(f, "{{}}"),
            Some(node) => print_node(node, f),
        }
    }
}
