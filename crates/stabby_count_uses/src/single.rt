//! A value that can't be there twice.
ghost use Rattle.std.specs.Prelude.{◌≡◌};

use std::sync::Mutex;
use std::sync::ledger::{Blank, Ledger, Share};

// The part of a ledger that has one part, so no two are there at once. It takes no bytes.
#[derive(Drop)]
struct OnlyPart<L: Ledger> {
    share: Share<L>,
    ghost one: { share.parts ≡ 1 },
}

/// A value, and beside it the only part of a ledger: of one ledger no two such values are there at once.
#[derive(Drop)]
pub struct Single<T, L: Ledger> {
    pub value: T,
    // A share isn't `Sync`, and a mutex round it is. Nothing locks it.
    part: Mutex<OnlyPart<L>>,
}

impl<T, L: Ledger> Single<T, L> {
    /// Puts the only part of a new ledger beside the value.
    pub fn new(value: T, blank: Blank) -> Single<T, L>
        requires ledger { (blank.name ≡ L.name) × (blank.parts ≡ L.parts) }
        requires one_part { L.parts ≡ 1 }
        ensures { result.value ≡ value }
    {
        let (book, share) = blank.open::<L>();
        drop(book);
        let part = Mutex::new(OnlyPart { share });
        Single { value, part }
    }

    /// The value alone.
    pub fn into_value(self) -> T
        ensures { result ≡ self.value }
    {
        drop(self.part);
        self.value
    }

    /// For a place that control doesn't reach, since two values of one ledger would be there.
    pub fn never_beside(self, other: Single<T, L>) -> !
        requires { L.parts ≡ 1 }
    {
        let OnlyPart { mut share } = self.part.into_inner();
        let OnlyPart { share: second } = other.part.into_inner();
        share.merge(second);
        unreachable!()
    }
}
