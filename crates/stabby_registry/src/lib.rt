//! Registries of tables: each distinct table gets a number once and for all, whichever caller is first.
//!
//! A registry's list of distinct tables only grows at its end; a table's number is its place in that list. What a caller
//! has seen of the list is the front of its pass, a prefix of the list. `intern_all` appends exactly the tables that were
//! absent and answers each table's number; `ranks` turns numbers into places in sorted order. [`VtBtree`] is a registry
//! under a turn, [`VtVec`] one without, in a row of so many words.
#![tactic(auto)]

mod catalog;
mod fault;
mod gate;
mod held;
mod insert;
mod insert_within;
mod intern;
pub mod laws;
mod ranking;
mod registry;
mod row;
mod snapshot;
mod try_insert;
mod vtable_registry;
mod worker;

pub use catalog::Catalog;
pub use fault::{RegistryFault, TryFault};
pub use gate::{Gate, OpenGate};
pub use held::{Held, try_hold};
pub use intern::{Interned, intern_all};
pub use ranking::ranks;
pub use registry::{TreePass, VtBtree};
pub use row::VtVec;
pub use stabby_cell::{Busy, CellFault};
pub use stabby_layout::AllocationError;
pub use stabby_row::{RowFull, RowPass};
pub use stabby_word_table::{ListsWords, Numbered, WordTable};
pub use vtable_registry::VTableRegistry;
