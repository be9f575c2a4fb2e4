//! A host of plugins: values of a universe, each behind a counted handle, with an interface table and with needs that
//! other plugins meet.
//!
//! A plugin has a number, its place in the order of loading, and is live until it is unloaded. It is never unloaded while
//! a live plugin is bound to it. A caller gets its content as a type only where id and report are that type's.
#![tactic(auto)]

mod ask;
mod binding;
mod faults;
mod guest;
mod host;
mod load;
mod need;
mod plugin;
mod shelf;
mod unload;

pub use faults::{AskFault, GuestFault, LoadFault, UnloadFault, ViewFault};
pub use host::Host;
pub use need::Need;
