//! Texts that grow.
ghost use Rattle.std.specs.Prelude.{◌≡◌, ◌<◌, ◌↔◌, [], length, IsOk, IfOk, IfErr, OnOk, OnErr, IsErrOf, slice_index};
ghost use Rattle.std.specs.Str.{IsUtf8};
ghost use Rattle.stabby_layout.specs.declared.error.AllocationError.TheVariants.{Memory, Range};
ghost use Rattle.stabby_vec.specs.Sequence.{ClonesAlways, sequence_len, empty_with, with_extended, HasRoomFor, AsksPastBound, GREATEST_CAPACITY};
ghost use Rattle.stabby_text.specs.Texts.{exact_text, with_byte};

use stabby_layout::AllocationError;
use stabby_vec::Vec;
use std::alloc::Allocator;
use std::marker::Model;
use thiserror::Error;

/// The bytes were not UTF-8.
#[derive(Clone, Copy, PartialEq, Eq, Debug, Error)]
#[error("not UTF-8")]
pub struct Utf8Error;

/// A text: a sequence of bytes that is always UTF-8.
///
/// Contracts see it as a `Text`: the bytes are its `items`, and it has the `capacity` of its `Vec`.
#[derive(Drop)]
pub struct String<A: Allocator> {
    bytes: Vec<u8, A>,
}

impl<A: Allocator> Model for String<A> {
    ghost use Rattle.std.specs.Coded.{coded_ℕ};
    ghost use Rattle.std.specs.Str.{IsUtf8};
    ghost use Rattle.stabby_vec.specs.Sequence.{sequence_code};
    ghost use Rattle.stabby_text.specs.Texts.{Text};

    ghost Value = { Text };

    ghost coded = { sequence_code coded_ℕ };

    ghost view = { λ s. s.bytes };

    ghost invariant = { λ s. IsUtf8 s.bytes.items };
}

impl<A: Allocator> String<A> {
    /// The empty text, with capacity 0. It takes no memory.
    pub fn new_in(alloc: A) -> Self
        ensures { result ≡ empty_with 0 }
    {
        String {
            bytes: Vec::new_in(alloc),
        }
    }

    /// The text `value`, whose length is the capacity. The empty text takes no memory.
    pub fn from_str(alloc: A, value: &str) -> Result<Self, AllocationError>
        ensures ok { IfOk result (λ text. text ≡ exact_text value.now) }
        ensures range { IsErrOf result Range ↔ (GREATEST_CAPACITY < length value.now) }
        ensures empty { value.now ≡ [] → IsOk result }
    {
        let bytes = Vec::from_slice(alloc, value.as_bytes())?;
        Ok(String { bytes })
    }

    /// The bytes of `value` as a text. They are handed back exactly where they are not UTF-8.
    pub fn try_from_vec(value: Vec<u8, A>) -> Result<Self, (Vec<u8, A>, Utf8Error)>
        ensures variant { IsOk result ↔ IsUtf8 value.items }
        ensures ok { IfOk result (λ text. text ≡ value) }
        ensures value_back { IfErr result (λ refusal. refusal.0 ≡ value) }
    {
        if std::str::from_utf8(value.as_slice()).is_err() {
            return Err((value, Utf8Error));
        }
        Ok(String { bytes: value })
    }

    /// The bytes, with the same capacity.
    pub fn into_vec(self) -> Vec<u8, A>
        ensures value { result ≡ self }
        ensures utf8 { IsUtf8 result.items }
    {
        let String { bytes } = self;
        bytes
    }

    /// The text.
    pub fn as_str(&self) -> &str
        ensures value { result.now ≡ self.now.items }
        ensures utf8 { IsUtf8 self.now.items }
    {
        unsafe { std::str::from_utf8_unchecked(self.bytes.as_slice()) }
    }

    /// Makes room for `s`, as `Vec::try_reserve` does, and appends it. A refusal leaves the text
    /// as it was.
    #[tactic(auto, using(crate::proofs::TextLemmas::concat_utf8))]
    pub fn try_concat(&mut self, s: &str) -> Result<(), AllocationError>
        ensures ok { OnOk result (self.new ≡ with_extended self.old s.now) }
        ensures unchanged { OnErr result (self.new ≡ self.old) }
        ensures range { IsErrOf result Range ↔ AsksPastBound self.old (length s.now) }
        ensures room { HasRoomFor self.old (length s.now) → IsOk result }
    {
        self.bytes.try_copy_extend(s.as_bytes())?;
        Ok(())
    }

    /// Writes an ASCII byte over an ASCII byte, and changes no other.
    pub fn set_ascii(&mut self, at: usize, byte: u8)
        requires in_bounds { at < sequence_len self.old }
        requires old_ascii { slice_index self.old.items at < 128 }
        requires new_ascii { byte < 128 }
        ensures { self.new ≡ with_byte self.old at byte }
    {
        self.bytes.as_slice_mut()[at] = byte;
    }

    /// The same text, whose length is the capacity.
    ///
    /// The only error is `Memory`, also where a clone of the allocator is refused. The empty text
    /// takes no memory but what that clone takes.
    pub fn copy(&self) -> Result<Self, AllocationError>
    where
        A: Clone,
        ensures ok { IfOk result (λ copy. copy ≡ exact_text self.now.items) }
        ensures memory { IfErr result (λ error. error ≡ Memory) }
        ensures empty { self.now.items ≡ [] → ClonesAlways A.is_infallible → IsOk result }
    {
        let bytes = self.bytes.copy()?;
        Ok(String { bytes })
    }
}
