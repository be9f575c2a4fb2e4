//! Callers of `stabby_record`, in a crate of their own: what two programs know that exchange a record.
#![tactic(auto)]

mod exchanging;
#[cfg(test)]
mod fixtures;
#[cfg(test)]
mod pair_tests;
#[cfg(test)]
mod refusal_tests;
#[cfg(test)]
mod wrapped_tests;

pub use exchanging::{ExchangeFault, exchange, exchange_described};
