//! A versioned index: rows by their keys, and by their groups, version by version.
//!
//! An [`Index`] is a cell whose versions are maps from keys to rows. [`Index::apply`] commits a list of changes as one
//! version; a [`View`] is one version, and stays as it is.
#![tactic(auto)]

mod apply;
mod building;
mod changes;
mod index;
mod keys;
pub mod laws;
mod reading;
mod row;
mod slot;
mod version;
mod view;

pub use apply::ApplyFault;
pub use index::{Index, IndexPass};
pub use row::{Change, Row};
pub use stabby_layout::{AllocationError, Text};
pub use version::Version;
pub use view::View;
