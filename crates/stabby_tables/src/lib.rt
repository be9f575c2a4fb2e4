//! What the crates above say of tables: their order, lists of distinct tables, the shares of workers, the lines of an
//! input and the reports. The definitions stand in `specs/`; their laws are the contracts of the functions of `laws`.
#![tactic(auto)]

pub mod laws;
