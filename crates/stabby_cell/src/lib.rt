//! A cell whose value is replaced version by version, each time under one exclusive turn.
//!
//! A [`TurnCell`] has one word, `2 * stamp + held`, and one slot with the last versions. Whoever takes the turn has them out
//! of the slot, and gives them back or commits the next one. A [`Pass`] is what one caller has seen of the cell's history:
//! its front is a prefix of the list of all entries committed so far. Passes are split for further callers and joined again.
//!
//! An [`AtomicArc`] is a cell of shared values, an [`AtomicArcBTreeSet`] one of sets that closures edit.
#![tactic(auto)]

mod atomic;
mod cell;
mod chronicle;
mod copy_at;
mod edit;
mod fault;
mod kept;
mod kept_value;
pub mod laws;
mod offer;
mod pass;
mod plays;
mod protocol;
mod replaced;
mod set_version;
mod shared_set;
mod shared_value;
mod turn;
mod view;

pub use atomic::{ArcPass, AtomicArc, ExchangeFault, IsFault, Kept};
pub use cell::TurnCell;
pub use chronicle::Chronicle;
pub use edit::{EditFault, Edited};
pub use fault::CellFault;
pub use pass::Pass;
pub use replaced::{Replaced, ReplacedCell};
pub use shared_set::{AtomicArcBTreeSet, Set, SetPass};
pub use stabby_layout::AllocationError;
pub use turn::{Busy, Turn};
pub use view::{NotedStep, StepKind};
