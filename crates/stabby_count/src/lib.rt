//! Counted handles: a value that threads share, exact counts of its strong and weak handles in one
//! word, and the value given back once, to whoever ends the last strong handle.
#![tactic(auto)]

mod fault;
pub mod laws;
mod machine;
mod raise;
mod slice;
mod slice_loan;
mod slice_traits;
mod spent;
mod strong;
mod text;
mod text_traits;
mod view;
mod weak;
mod word;
mod word_steps;

pub use fault::{CountFault, TryCountFault};
pub use machine::{HandleMachine, Reply, Step, ValueState};
pub use slice::{ArcSlice, WeakSlice};
pub use spent::Spent;
pub use stabby_text::MakeFault;
pub use strong::Arc;
pub use text::{ArcStr, WeakStr};
pub use view::{Note, View};
pub use weak::Weak;
