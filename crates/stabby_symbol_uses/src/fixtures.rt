//! What the tests ask of packed texts.
use stabby_layout::Text;
use stabby_registry::WordTable;
use stabby_symbol::{UnpackFault, pack, unpack};
use std::alloc::Global;

pub fn is_packed(alloc: Global, text: &str, words: &[u64]) -> bool {
    match pack(alloc, text) {
        Ok(table) => table.words() == words,
        Err(_) => false,
    }
}

pub fn unpacked(alloc: Global, words: &[u64]) -> Result<Text, UnpackFault> {
    let table = WordTable::from_words(alloc, words)?;
    unpack(alloc, &table)
}

pub fn refused(alloc: Global, words: &[u64]) -> Option<UnpackFault> {
    match unpacked(alloc, words) {
        Ok(_) => None,
        Err(fault) => Some(fault),
    }
}

// Whether the text has these words, and they give it back.
pub fn comes_back(alloc: Global, text: &str, words: &[u64]) -> bool {
    match unpacked(alloc, words) {
        Ok(found) => found.as_str() == text && is_packed(alloc, text, words),
        Err(_) => false,
    }
}
