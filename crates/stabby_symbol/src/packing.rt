//! A text as a table of words.
ghost use Rattle.std.specs.Prelude.{◌≡◌, ◌≤◌, ◌++◌, ◌-◌, IfOk, IfErr, OnOk, length, replicate};
ghost use Rattle.stabby_symbol.specs.Packed.{word_of, words_of, words_for, packed};

use stabby_layout::AllocationError;
use stabby_registry::WordTable;
use std::alloc::{AllocError, Global};

// At most eight bytes, and zeros after them.
fn padded(bytes: &[u8]) -> [u8; 8]
    requires { length bytes.now ≤ 8 }
    ensures { result ≡ bytes.now ++ replicate (8 - length bytes.now) 0 }
{
    let mut word = [0u8; 8];
    word[..bytes.len()].copy_from_slice(bytes);
    word
}

// At most eight bytes as a word.
fn word_of(bytes: &[u8]) -> u64
    requires { length bytes.now ≤ 8 }
    ensures { result ≡ word_of bytes.now }
{
    u64::from_le_bytes(padded(bytes))
}

// The words of the bytes, put behind those that are there.
fn put_words(out: &mut Vec<u64>, bytes: &[u8]) -> Result<(), AllocError>
    ensures { OnOk result (out.new.items ≡ out.old.items ++ words_of (words_for (length bytes.now)) bytes.now) }
{
    let mut rest = bytes;
    while !rest.is_empty() {
        let (own, after) = rest.split_at(rest.len().min(8));
        out.push(word_of(own))?;
        rest = after;
    }
    Ok(())
}

// The words of the table of a text.
fn pack_words(alloc: Global, text: &str) -> Result<Vec<u64>, AllocError>
    ensures { IfOk result (λ words. words.items ≡ packed text.now) }
{
    let bytes = text.as_bytes();
    let mut words = Vec::with_capacity(alloc, bytes.len() / 8 + 2)?;
    words.push(bytes.len() as u64)?;
    put_words(&mut words, bytes)?;
    Ok(words)
}

/// The text's table: its length in bytes, and then its bytes, eight a word, the first lowest.
///
/// # Errors
/// `Memory`, where the table finds none.
pub fn pack(alloc: Global, text: &str) -> Result<WordTable, AllocationError>
    ensures ok { IfOk result (λ table. table ≡ packed text.now) }
    ensures memory { IfErr result (λ error. error ≡ AllocationError.Memory) }
{
    let words = pack_words(alloc, text)?;
    Ok(WordTable::from_vec(words))
}
