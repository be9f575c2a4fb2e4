//! A registry for C, and for whatever speaks C's calling convention.
//!
//! A client is one caller of a shared registry: a handle of the registry, and this caller's pass of it. C holds it by an
//! address behind which it never reads (`handle`). `client` has the calls, in Rattle's types; `exports` is what C may
//! call, each with a code for an answer (`answer`). `examples/c/stabby.h`, at the top, is the header of these exports.
#![tactic(auto)]

mod answer;
mod batch;
mod client;
mod exports;
mod handle;
