//! Borrowed texts.
ghost use Rattle.std.specs.Prelude.{◌≡◌};

use std::fmt;

/// A borrowed text.
#[derive(Clone, Copy, PartialEq, Eq, PartialOrd, Ord, Hash, Debug)]
pub struct Str<'a> {
    inner: &'a str,
}

impl<'a> Str<'a> {
    ghost use Rattle.stabby_text.specs.SliceViews.{str_bytes};

    /// The text `s`.
    pub fn new(s: &'a str) -> Self
        ensures { str_bytes result ≡ s.now }
    {
        Str { inner: s }
    }

    /// The text.
    pub fn as_str(self) -> &'a str
        ensures { result.now ≡ str_bytes self.entry }
    {
        self.inner
    }
}

impl fmt::Display for Str<'_> {
    fn fmt<W: fmt::Write>(&self, f: &mut fmt::Formatter<W>) -> fmt::Result {
        fmt::Display::fmt(self.inner, f)
    }
}
