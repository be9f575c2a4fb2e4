//! What each step on the table tells.
ghost use Rattle.stabby_row.specs.Telling.{noted, walked, passed, sized, read, wrote, claimed, linked, learned, left_of, right_of, both_of, spent};

use crate::view::View;
use atomic_table::{Join, Play, Split};

pub(crate) struct Note;

impl Play<u64, View> for Note {
    ghost then = { noted };
}

pub(crate) struct Walk;

impl Play<u64, View> for Walk {
    ghost then = { walked };
}

pub(crate) struct Pass;

impl Play<u64, View> for Pass {
    ghost then = { passed };
}

pub(crate) struct Measure;

impl Play<u64, View> for Measure {
    ghost then = { sized };
}

pub(crate) struct Read;

impl Play<u64, View> for Read {
    ghost then = { read };
}

pub(crate) struct Put;

impl Play<u64, View> for Put {
    ghost then = { wrote };
}

pub(crate) struct Claims;

impl Play<u64, View> for Claims {
    ghost then = { claimed };
}

pub(crate) struct Link;

impl Play<u64, View> for Link {
    ghost then = { linked };
}

pub(crate) struct Learn;

impl Play<u64, View> for Learn {
    ghost then = { learned };
}

pub(crate) struct Cut;

impl Split<View> for Cut {
    ghost left = { left_of };

    ghost right = { right_of };
}

pub(crate) struct Glue;

impl Join<View> for Glue {
    ghost both = { both_of };

    ghost spent = { spent };
}
