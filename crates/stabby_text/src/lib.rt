//! Owned values and texts over an allocator that is handed in, and borrowed slices and texts.
//!
//! `String` and `BoxedStr` are sequences of bytes that are UTF-8, whatever is done to them.
//! `Box` holds one value, which a refusal hands back. `Recast` lends a value as another type and
//! gives it back.
#![tactic(auto)]

pub mod boxed;
pub mod boxed_str;
pub mod recasting;
pub mod slices;
mod string_traits;
pub mod strings;
#[cfg(test)]
mod tests;
pub mod text_views;

pub use boxed::{Box, MakeFault};
pub use boxed_str::BoxedStr;
pub use recasting::{Recast, lend_as, lend_as_mut};
pub use slices::{Slice, SliceMut};
pub use strings::{String, Utf8Error};
pub use text_views::Str;
