//! Callers of erased values, in a crate of their own, over a universe of bytes and numbers.
#![tactic(auto)]

mod converted;
mod one_thread;
mod slot;
#[cfg(test)]
mod tests;
mod two_threads;

pub use converted::{Sendable, forget_iterator, wake_first};
pub use one_thread::{Marked, put_convert_and_read, put_where_alone, share};
pub use slot::{Content, Slot};
pub use two_threads::{Answers, ask_by_two_handles, ask_in_two_threads, put_share_and_read};
