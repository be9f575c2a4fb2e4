//! Sequences whose capacities are exactly as their calls say.
//!
//! `Vec` is a list with a capacity. A full one grows by 8 from capacity 0, and by half of its
//! capacity later; every other growth is by what was asked for. A growth that is refused hands
//! the value back and leaves the list as it was. A drain reads the items of a range out of a
//! list. `SingleOrVec` keeps a lone item in the value itself, and `BoxedSlice` never grows.
#![tactic(auto)]

pub mod boxed;
pub mod single;
pub mod vec;

pub use boxed::{BoxedSlice, slice as boxed_slice};
pub use single::{SingleOrVec, growth as single_growth};
pub use vec::{
    DoubleEndedDrain, Drain, IntoIter, Vec, double_ended, drains, filling, growth, indexing,
    into_iter, removal, sequence,
};
