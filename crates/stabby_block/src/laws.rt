//! Facts about blocks that hold of the definitions alone: each function says one, and does nothing.
ghost use Rattle.stabby_block.specs.Laws.{KeptIsKeeps};

/// The bytes and layout of a block below fix the block that it keeps.
pub fn kept_is_keeps()
    ensures { KeptIsKeeps }
{}
