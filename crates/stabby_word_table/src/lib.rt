//! Tables of words, what lists them, and tables with their numbers: what a registry keeps.
#![tactic(auto)]

mod lists_words;
mod numbered;
mod table;
mod words;

pub use lists_words::ListsWords;
pub use numbered::Numbered;
pub use stabby_layout::AllocationError;
pub use table::WordTable;
