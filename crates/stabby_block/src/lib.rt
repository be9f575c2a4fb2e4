//! Heaps of numbered blocks of bytes.
//!
//! `IAlloc` is such a heap: a map from number to layout and bytes, and the faults that are due. `Ledger` is one with a
//! limit on the sum of the sizes, and `RustAlloc` one over any other, which keeps each layout in a prefix. `AllocPrefix`
//! makes arrays behind a prefix of counts.
#![tactic(auto)]

mod array;
mod block;
mod heap;
pub mod laws;
mod ledger;
mod prefix;
mod rust_alloc;
#[cfg(test)]
mod tests;

pub use array::AllocPrefix;
pub use block::{Block, BlockFault};
pub use heap::IAlloc;
pub use ledger::Ledger;
pub use prefix::RustAllocPrefix;
pub use rust_alloc::RustAlloc;
