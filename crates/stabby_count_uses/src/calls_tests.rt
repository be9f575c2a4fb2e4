//! What no clause says.
mod handles;
mod machine;
mod slices;
mod texts;
mod threads;
