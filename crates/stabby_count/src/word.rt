//! The numbers of the count word: strong handles in its upper half, weak ones in its lower.

/// What one strong handle adds to a word.
pub(crate) const ONE_STRONG: u64 = 4294967296;

/// What one weak handle adds to a word.
pub(crate) const ONE_WEAK: u64 = 1;

/// The word of one strong handle and no weak one, whose value counts as one weak handle.
pub(crate) const ALONE: u64 = 4294967297;

/// The greatest count of half a word.
pub(crate) const COUNT_LIMIT: u64 = 4294967295;
