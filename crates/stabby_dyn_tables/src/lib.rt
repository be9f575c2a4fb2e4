//! Interface tables: lists of plain words with markers for threads, paths to what stands in them, and the words that a
//! table lists.
//!
//! A table is a value. What it lists decides which number a registry gives it: two tables get one number exactly where
//! they list the same words in the same order.
#![tactic(auto)]

mod construct;
mod marks;
mod path;
mod table;
mod words;

pub use construct::IConstConstructor;
pub use marks::{HasDropVt, HasSendVt, HasSyncVt};
pub use path::{H, T, TransitiveDeref};
pub use table::{AnyVt, IterVt, VTable, VtDrop, VtSend, VtSync};

#[cfg(test)]
mod tests;
