//! `Vec`, its drains and its iterator.
mod comparison;
pub mod double_ended;
pub mod drains;
pub mod filling;
pub mod growth;
pub mod indexing;
pub mod into_iter;
mod printing;
pub mod removal;
pub mod sequence;
mod turning;

pub use double_ended::DoubleEndedDrain;
pub use drains::Drain;
pub use into_iter::IntoIter;
pub use sequence::Vec;
