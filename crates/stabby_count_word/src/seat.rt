//! The seat of a handle.
ghost use Rattle.std.specs.Prelude.{ℕ};
ghost use Rattle.stabby_count_word.specs.Rights.{seat_owns};

use std::marker::{Model, PhantomData};

/// A seat of a counted word: it has one of the word's views, and takes its steps. It takes no room.
pub struct Seat<W> {
    pub(crate) marker: PhantomData<W>,
    // Which word it belongs to.
    pub ghost views: { ℕ },
    pub ghost id: { ℕ },
    pub ghost view: { W },
}

impl<W> Model for Seat<W> {
    ghost also_owns = { λ s. seat_owns W.row.coded.code s.views s.id s.view };
}

impl<W> Drop for Seat<W> {
    fn drop(self) {
        let Self { marker: _ } = self;
    }
}

unsafe impl<W> Send for Seat<W> {}

unsafe impl<W> Sync for Seat<W> {}
