//! Lines that programs read and write: a text cut into lines, a line cut at its first space, digits read as a number, and
//! the line that tells how a run ended.
#![tactic(auto)]

mod pieces;
mod telling;

pub use pieces::{first_line, first_piece, parse_number};
pub use telling::{tell_line, tell_number};
