//! What the seat of a handle knows of the count word.
use crate::machine::Step;

/// A step of a handle's own on the count word.
pub struct Note {
    pub step: Step,
    /// The word that it read.
    pub word: u64,
}

/// What a seat knows: its shares of the two counts, its rights, and its record.
///
/// No value of it is made. Contracts alone speak of it.
pub struct View {
    /// Strong shares. A strong handle at rest has one.
    pub strong: u64,
    /// Weak shares. A weak handle at rest has one.
    pub weak: u64,
    /// 1 where it ended the last strong handle and is to take the value, else 0.
    pub due: u64,
    /// 1 where it ended the last handle of a taken value and may free the block, else 0.
    pub free: u64,
    /// 1 where it has the one strong share and no other seat has a share, else 0.
    pub sole: u64,
    /// Its own steps, in order. A contract reads the array as a list of any length.
    pub notes: [Note; 0],
}
