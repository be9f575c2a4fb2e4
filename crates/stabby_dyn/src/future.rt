//! Futures: a poll answers a value, or that it is pending.
ghost use Rattle.std.specs.Prelude.{Option};

use crate::waker::{StableWaker, Wake};
use std::mem;

/// A value that comes later, asked for by polls.
pub trait Future {
    type Output;

    // Of the state before a poll, its answer, and the state after it.
    ghost polls: { Self → Option Self.Output → Self → Type 0 };

    /// The value, or `None` where it is pending.
    fn poll<W: Wake>(&mut self, waker: &StableWaker<'_, W>) -> Option<Self::Output>
        ensures { polls self.old result self.new };
}

/// A value that is there, one that was taken, or a future of it.
#[derive(Drop)]
pub enum MaybeResolved<X, F> {
    Resolved(X),
    Empty,
    Pending(F),
}

/// `Resolved` gives its value and becomes `Empty`. `Pending` polls its future once, and is `Empty` once that gave a
/// value. `Empty` gives nothing.
impl<X: Drop, F: Future<Output = X> + Drop> Future for MaybeResolved<X, F> {
    type Output = X;

    ghost use Rattle.stabby_dyn.specs.Polls.{MaybePolls};

    ghost polls = { MaybePolls F.polls };

    fn poll<W: Wake>(&mut self, waker: &StableWaker<'_, W>) -> Option<X> {
        match mem::replace(self, MaybeResolved::Empty) {
            MaybeResolved::Resolved(value) => Some(value),
            MaybeResolved::Empty => None,
            MaybeResolved::Pending(mut future) => match future.poll(waker) {
                Some(value) => Some(value),
                None => {
                    *self = MaybeResolved::Pending(future);
                    None
                }
            },
        }
    }
}
