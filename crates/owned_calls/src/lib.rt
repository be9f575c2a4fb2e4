//! Lines of calls and their answers, and the calls of containers that have one owner: lists, texts, sets and maps.
#![tactic(auto)]

mod calls;
mod lists;
mod owned;
mod sets;
mod singles;
mod texts;

pub use calls::{Answer, Call, found, listed, parse, taken, write_answer};
pub use owned::{Owned, call_owned};
pub use texts::{bytes_of, piece};
