//! A caller of heaps of blocks, in a crate of its own.
#![tactic(auto)]

mod storing;

pub use storing::store;
