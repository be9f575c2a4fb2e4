//! Texts that do not grow.
ghost use Rattle.std.specs.Prelude.{◌≡◌, ◌<◌, slice_index};
ghost use Rattle.std.specs.Str.{IsUtf8};
ghost use Rattle.stabby_vec.specs.Sequence.{sequence_len};
ghost use Rattle.stabby_text.specs.Texts.{with_byte};

use crate::String;
use std::alloc::Allocator;
use std::marker::Model;

/// A text that does not grow. Contracts see it as the `Text` of its `String`.
#[derive(Drop)]
pub struct BoxedStr<A: Allocator> {
    pub(crate) text: String<A>,
}

impl<A: Allocator> Model for BoxedStr<A> {
    ghost use Rattle.std.specs.Coded.{coded_ℕ};
    ghost use Rattle.stabby_vec.specs.Sequence.{sequence_code};
    ghost use Rattle.stabby_text.specs.Texts.{Text};

    ghost Value = { Text };

    ghost coded = { sequence_code coded_ℕ };

    ghost view = { λ s. s.text };
}

impl<A: Allocator> BoxedStr<A> {
    /// The text of `value`, with its capacity. It takes no memory.
    pub fn from_string(value: String<A>) -> Self
        ensures { result ≡ value }
    {
        BoxedStr { text: value }
    }

    /// The text, with its capacity. It takes no memory.
    pub fn into_string(self) -> String<A>
        ensures { result ≡ self }
    {
        let BoxedStr { text } = self;
        text
    }

    /// The text.
    pub fn as_str(&self) -> &str
        ensures value { result.now ≡ self.now.items }
        ensures utf8 { IsUtf8 self.now.items }
    {
        self.text.as_str()
    }

    /// Writes an ASCII byte over an ASCII byte, and changes no other.
    pub fn set_ascii(&mut self, at: usize, byte: u8)
        requires in_bounds { at < sequence_len self.old }
        requires old_ascii { slice_index self.old.items at < 128 }
        requires new_ascii { byte < 128 }
        ensures { self.new ≡ with_byte self.old at byte }
    {
        self.text.set_ascii(at, byte);
    }
}
