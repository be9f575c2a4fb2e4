//! A capacity: any number but `usize::MAX`.
ghost use Rattle.std.specs.Prelude.{◌≡◌, ◌<◌, ◌↔◌, IfSome, IsNone};

use std::marker::Model;

/// A `usize` below `usize::MAX`, seen by contracts as its number.
///
/// Capacities are numbers of this kind: the containers answer `Range` where one would be
/// `usize::MAX` or more.
#[derive(Clone, Copy, PartialEq, Eq, PartialOrd, Ord, Hash, Debug)]
pub struct NonMaxUsize {
    value: usize,
}

impl Model for NonMaxUsize {
    ghost use Rattle.std.specs.Prelude.{ℕ, ◌<◌, ◌-◌, ◌^◌};

    ghost Value = { ℕ };

    ghost view = { λ number. number.value };

    ghost invariant = { λ number. number.value < 2 ^ 64 - 1 };

    ghost inverse = { λ number. record { value = number } };
}

impl NonMaxUsize {
    /// `None` exactly at `usize::MAX`.
    pub fn new(value: usize) -> Option<NonMaxUsize>
        ensures none { IsNone result ↔ (value ≡ usize.MAX) }
        ensures some { IfSome result (λ number. number ≡ value) }
    {
        if value == usize::MAX {
            return None;
        }
        Some(NonMaxUsize { value })
    }

    /// The number.
    pub fn get(self) -> usize
        ensures value { result ≡ self }
        ensures below { result < usize.MAX }
    {
        self.value
    }
}
