//! Symbols: texts interned in a registry, each distinct text under one number.
//!
//! A text is packed into a table of words, so that different texts have different tables, and its number is that of its
//! table.
#![tactic(auto)]

mod index;
mod interning;
pub mod laws;
mod packing;
mod unpacking;
mod words;

pub use index::{IndexedWord, WordIndex, index_words};
pub use interning::{SymbolFault, intern_text, text_of, try_intern_text};
pub use packing::pack;
pub use unpacking::{UnpackFault, unpack};
pub use words::Span;
