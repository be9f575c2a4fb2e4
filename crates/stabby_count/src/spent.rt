//! What is left of a handle that ended.
ghost use Rattle.std.specs.Prelude.{◌≡◌, ◌+◌};
ghost use Rattle.stabby_count_word.specs.Kinds.{block, nothing};
ghost use Rattle.stabby_count_word.specs.Steps.{KindBy};

use crate::view::View;
use crate::word_steps::SharedCounts;
use stabby_count_word::{Seat, Share};
use std::alloc::Global;

/// The seat of a handle that ended, with its record and no share.
#[derive(Drop)]
pub struct Spent {
    pub(crate) seat: Seat<View>,
    pub(crate) word: u64,
    ghost no_share: { seat.view.strong + seat.view.weak ≡ 0 },
}

impl Spent {
    ghost use Rattle.stabby_count.specs.Shared.{spent_word};

    /// The word that the end step read, before it took its share away.
    pub fn word(&self) -> u64
        ensures { result ≡ spent_word self.now }
    {
        self.word
    }
}

/// Leaves a block after an end of a unit of the low half that read `word`, and frees it where that was the last.
pub(crate) fn leave<T>(share: Share<T, Global, View, SharedCounts>, word: u64) -> Seat<View>
    requires { KindBy word 1 block nothing share.kind }
    ensures { (result.views ≡ share.names.views) × (result.view ≡ share.view) }
{
    if word == 1 {
        share.free()
    } else {
        share.done()
    }
}
