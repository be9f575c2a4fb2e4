//! Interning from bytes to a report.
//!
//! `run` reads tables from a source, numbers them in one registry, and writes their ranks or their numbers, and the
//! distinct tables; or it generates tables, numbers them, and writes their counts. Its contract is the headline: for every valid input, worker count and schedule the report is the one
//! that the command asks for, and the registry holds exactly these tables, each numbered by the place where it was added.
//! Each other status has its cause there too, and a line in the log.
#![tactic(auto)]

mod command;
mod device;
mod generate;
mod lines;
mod memory;
mod messages;
mod program;
mod report;
mod standard;
mod status;
mod sure;
mod transfer;
mod word;

pub use device::{Failed, Sink, Source};
pub use memory::{MemorySink, MemorySource};
pub use messages::tell;
pub use program::run;
pub use standard::{StderrSink, StdinSource, StdoutSink};
pub use status::Status;
pub use sure::{SureSink, SureSource};
pub use transfer::{ReadFault, read_to_end, write_all};
