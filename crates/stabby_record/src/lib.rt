//! Stable records: a record of whole numbers as bytes under its schema, and read under an equal one.
#![tactic(auto)]

mod comparing;
mod describing;
mod fits;
pub mod laws;
mod layout;
mod message;
mod reading;
mod schema;
mod value;
mod writing;

pub use describing::{DescribeFault, describe};
pub use reading::{RecordFault, read};
pub use schema::{Field, Kind, Schema, SchemaFault};
pub use value::{Value, ValueList};
pub use writing::{RecordWriteFault, write};
