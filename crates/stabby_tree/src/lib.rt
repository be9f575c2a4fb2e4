//! Sets ordered by a key.
//!
//! An `ArcBTreeSet` is a strictly rising list of elements: `insert` leaves that list with the new element at its place, a
//! refused insert leaves it as it was and hands the element back, and a `clone` is an equal set of its own.
#![tactic(auto)]

mod copier;
mod entry;
mod few;
mod insert;
mod keyed;
mod map;
mod node;
mod printing;
mod probe;
mod root;
mod search;
mod set;
mod spot;
mod walk;

pub use copier::{CloneCopier, Copier};
pub use entry::Entry;
pub use keyed::Keyed;
pub use map::ArcBTreeMap;
pub use probe::{KeyProbe, Probe};
pub use set::ArcBTreeSet;
