//! What a seat at the words of a row knows. Views are ghost state: no value of one is made.
use std::collections::LinkedList;

/// A linked node: the place of its link word, and its table.
pub struct Node {
    pub at: u64,
    pub table: LinkedList<u64>,
}

/// A range of words that the seat has claimed and not linked: its first word, its size, and what is written of it.
pub struct Claim {
    pub start: u64,
    pub size: u64,
    pub written: LinkedList<u64>,
}

/// What the pass has counted.
pub struct Tally {
    /// Loads of links.
    pub walked: u64,
    /// Loads that found the link past the front empty.
    pub ends: u64,
    pub claims: u64,
    /// For each claim the number of claimed words that it found, and the number that it left.
    pub marks: LinkedList<u64>,
    /// The front's length and `ends`, both at the last claim.
    pub seen_then: u64,
    pub ends_then: u64,
    /// The weight that a split is to cut off.
    pub asked: u64,
}

pub struct View {
    /// How many words the row has, where the weight isn't 0.
    pub room: u64,
    /// The nodes of the front.
    pub nodes: LinkedList<Node>,
    /// A further prefix of the row's nodes: those of the shorter of the two fronts that a join put together.
    pub told: LinkedList<Node>,
    pub weight: u64,
    /// The greatest number of claimed words that the pass remembers that a claim left, or 0.
    pub left: u64,
    pub claim: Claim,
    pub tally: Tally,
}
