//! What a worker tells of its steps.

use std::marker::Sync;

/// Is told of each step of a worker: tests make workers meet by it. It has no say in what a call answers.
pub trait Gate: Sync {
    /// The worker begins with the table at `place`.
    fn before(&self, worker: u64, place: u64);

    /// The worker builds a version with the table at `place`, which no other caller waits for.
    fn building(&self, worker: u64, place: u64);

    /// The worker has the number of the table at `place`.
    fn after(&self, worker: u64, place: u64, number: u64);
}

/// A gate that does nothing.
#[derive(Clone, Copy, Debug)]
pub struct OpenGate;

impl Gate for OpenGate {
    fn before(&self, _worker: u64, _place: u64) {}

    fn building(&self, _worker: u64, _place: u64) {}

    fn after(&self, _worker: u64, _place: u64, _number: u64) {}
}
