//! Facts about layouts that hold of the definitions alone: each function says one, and does nothing.
ghost use Rattle.stabby_layout.specs.Laws.{ConcatIsCStruct, NextMultipleIsLeast};

/// `Layout::concat` of the layouts of two C types gives the size and alignment of the C struct
/// of the two, in this order.
pub fn concat_is_c_struct()
    ensures { ConcatIsCStruct }
{}

/// The number by which `Layout` rounds up is the least multiple that isn't below.
pub fn next_multiple_is_least()
    ensures { NextMultipleIsLeast }
{}
