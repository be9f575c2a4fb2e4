//! Plugins, live and ended.
use stabby_count::{Arc, Spent};
use stabby_registry::WordTable;

/// A live plugin.
#[derive(Drop)]
pub(crate) struct Loaded<U> {
    // The host's strong handle of the value.
    pub(crate) handle: Arc<U>,
    pub(crate) table: WordTable,
    // The registry's number of the table.
    pub(crate) number: u64,
    // The plugins that meet its needs, in order.
    pub(crate) bound: Vec<u64>,
}

/// A plugin in its place.
#[derive(Drop)]
pub(crate) enum Plugin<U> {
    Live(Loaded<U>),
    // What is left of the host's handle, where its end didn't give the value.
    Ended(Option<Spent>),
}
