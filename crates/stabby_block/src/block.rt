//! The name of a block, and why a heap refuses one.

use stabby_layout::Layout;

/// The name of a block: its number in its heap, and its layout.
#[derive(Clone, Copy, PartialEq, Eq, Debug)]
pub struct Block {
    pub number: u64,
    pub layout: Layout,
}

/// Why a heap refuses a block.
#[derive(Clone, Copy, PartialEq, Eq, Debug)]
pub enum BlockFault {
    /// The layout has size 0.
    ZeroSize,
    /// A size that the heap needs is beyond `usize::MAX`.
    Range,
    /// `wanted` bytes were asked for, and the limit leaves `left`.
    OverLimit { wanted: usize, left: usize },
    /// There is no number left for a block.
    Exhausted,
    /// There is no memory.
    Memory,
}
