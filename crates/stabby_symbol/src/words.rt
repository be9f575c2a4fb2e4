//! The words of a source.
ghost use Rattle.std.specs.Prelude.{◌≡◌, ◌≤◌, ◌<◌, ℕ, true, false, length, slice_index, IfOk};
ghost use Rattle.stabby_symbol.specs.Words.{is_word_byte, AreWordSpans};

use std::alloc::{AllocError, Global};

/// A run of bytes in a source, by places that are counted from 0.
#[derive(Clone, Copy, Debug, PartialEq, Eq)]
pub struct Span {
    /// The place of the first byte.
    pub from: usize,
    /// The place after the last byte.
    pub to: usize,
}

// Whether words have the byte.
fn is_word_byte(byte: u8) -> bool
    ensures { result ≡ is_word_byte byte }
{
    byte.is_ascii_alphanumeric() || byte == b'_'
}

// The first place from `at` on where a word begins, or the end.
fn word_start(bytes: &[u8], at: usize) -> usize
    requires { at ≤ length bytes.now }
    ensures within { (at ≤ result) × (result ≤ length bytes.now) }
    ensures before { (i : ℕ) → at ≤ i → i < result → is_word_byte (slice_index bytes.now i) ≡ false }
    ensures here { result < length bytes.now → is_word_byte (slice_index bytes.now result) ≡ true }
{
    for start in at..bytes.len() {
        if is_word_byte(bytes[start]) {
            return start;
        }
    }
    bytes.len()
}

// The first place from `from` on where no word goes on, or the end.
fn word_end(bytes: &[u8], from: usize) -> usize
    requires { from ≤ length bytes.now }
    ensures within { (from ≤ result) × (result ≤ length bytes.now) }
    ensures before { (i : ℕ) → from ≤ i → i < result → is_word_byte (slice_index bytes.now i) ≡ true }
    ensures here { result < length bytes.now → is_word_byte (slice_index bytes.now result) ≡ false }
{
    for end in from..bytes.len() {
        if !is_word_byte(bytes[end]) {
            return end;
        }
    }
    bytes.len()
}

// The spans of the words, in increasing order.
pub(crate) fn word_spans(alloc: Global, bytes: &[u8]) -> Result<Vec<Span>, AllocError>
    ensures spans { IfOk result (λ spans. AreWordSpans bytes.now spans.items) }
    ensures few { IfOk result (λ spans. length spans.items ≤ length bytes.now) }
{
    let mut spans = Vec::new(alloc);
    let mut at = 0;
    while at < bytes.len() {
        let from = word_start(bytes, at);
        at = word_end(bytes, from);
        if from < at {
            spans.push(Span { from, to: at })?;
        }
    }
    Ok(spans)
}
