//! A table of words as a text.
ghost use Rattle.std.specs.Prelude.{◌≡◌, ◌⊎◌, ◌∷◌, ◌^◌, ◌<◌, ℕ, List, Some, None, IfOk, MatchResult, take};
ghost use Rattle.std.specs.Str.{IsUtf8};
ghost use Rattle.stabby_symbol.specs.Packed.{packed, bytes_in};
ghost use Rattle.stabby_symbol.specs.Unpacked.{all_zero, unpack_fault, IsUnpacked, TellsCause};
ghost use Rattle.stabby_symbol.specs.declared.unpacking.UnpackFault.TheVariants.{Memory};

use stabby_layout::{AllocationError, Text};
use stabby_registry::WordTable;
use std::alloc::{AllocError, Global};

/// Why a table is no packed text.
#[derive(Clone, Copy, Debug, PartialEq, Eq)]
pub enum UnpackFault {
    /// The table is empty.
    NoLength,
    /// The first word states a length in bytes that `words`, the number of words after it, isn't for.
    Length { stated: u64, words: u64 },
    /// A byte past the length isn't zero.
    Padding,
    /// The bytes aren't UTF-8.
    Utf8,
    /// The allocator had no memory to give.
    Memory,
}

impl From<AllocError> for UnpackFault {
    ghost from_gives = { λ _ fault. fault ≡ Memory };

    fn from(_refused: AllocError) -> UnpackFault {
        UnpackFault::Memory
    }
}

impl From<AllocationError> for UnpackFault {
    ghost from_gives = { λ _ fault. fault ≡ Memory };

    fn from(_refused: AllocationError) -> UnpackFault {
        UnpackFault::Memory
    }
}

// Whether each byte is zero.
fn all_zero(bytes: &[u8]) -> bool
    ensures { result ≡ all_zero bytes.now }
{
    bytes.iter().all(|byte| *byte == 0)
}

// The bytes of the words.
fn bytes_of(alloc: Global, words: &[u64]) -> Result<Vec<u8>, AllocError>
    ensures { IfOk result (λ bytes. bytes.items ≡ bytes_in words.now) }
{
    let mut bytes = Vec::with_capacity(alloc, words.len().saturating_mul(8))?;
    for word in words {
        bytes.extend_from_slice(&word.to_le_bytes())?;
    }
    Ok(bytes)
}

// The text of that many bytes in the words.
fn text_in(alloc: Global, stated: u64, words: &[u64]) -> Result<Text, UnpackFault>
    ensures ok { IfOk result (λ text. text ≡ take stated (bytes_in words.now)) }
    ensures cause { TellsCause (unpack_fault (stated ∷ words.now)) result }
{
    if words.len() as u64 != stated.div_ceil(8) {
        return Err(UnpackFault::Length {
            stated,
            words: words.len() as u64,
        });
    }
    let bytes = bytes_of(alloc, words)?;
    let (text, padding) = bytes.as_slice().split_at(stated as usize);
    if !all_zero(padding) {
        return Err(UnpackFault::Padding);
    }
    match std::str::from_utf8(text) {
        Ok(text) => Ok(Text::from_str(alloc, text)?),
        Err(_) => Err(UnpackFault::Utf8),
    }
}

// The text of a table of these words.
fn unpack_words(alloc: Global, words: &[u64]) -> Result<Text, UnpackFault>
    ensures ok { IfOk result (IsUnpacked words.now) }
    ensures complete { (text : List ℕ) → IsUtf8 text → words.now ≡ packed text
        → MatchResult result (λ found. found ≡ text) (λ fault. fault ≡ Memory) }
    ensures cause { TellsCause (unpack_fault words.now) result }
{
    let [stated, words @ ..] = words else {
        return Err(UnpackFault::NoLength);
    };
    text_in(alloc, *stated, words)
}

/// The text whose table it is.
///
/// # Errors
/// The first that speaks against the table: `NoLength` exactly where it is empty; `Length` exactly where the first word isn't
/// the length of a text in so many words; `Padding` exactly where a byte past the length isn't zero; `Utf8` exactly where the
/// bytes aren't UTF-8. Where memory is wanting, `Memory` may come in place of the last two.
pub fn unpack(alloc: Global, table: &WordTable) -> Result<Text, UnpackFault>
    ensures ok { IfOk result (IsUnpacked table.now) }
    ensures complete { (text : List ℕ) → IsUtf8 text → table.now ≡ packed text
        → MatchResult result (λ found. found ≡ text) (λ fault. fault ≡ Memory) }
    ensures cause { TellsCause (unpack_fault table.now) result }
{
    unpack_words(alloc, table.words())
}
