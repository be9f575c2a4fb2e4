//! Bytes that are kept in a block of any heap.

ghost use Rattle.std.specs.Prelude.{IfOk, OnErr};
ghost use Rattle.stabby_block.specs.Blocks.{IsHeld, SameBlocks};

use stabby_block::{Block, BlockFault, IAlloc};
use stabby_layout::Layout;

/// A new block with these bytes.
///
/// # Errors
/// As `alloc`: `ZeroSize` where there is no byte.
pub fn store<H: IAlloc>(heap: &mut H, bytes: &[u8]) -> Result<Block, BlockFault>
    ensures held { IfOk result (λ block. IsHeld (H.blocks heap.new) block bytes.now) }
    ensures unchanged { OnErr result (SameBlocks (H.blocks heap.old) (H.blocks heap.new)) }
{
    let layout = Layout {
        size: bytes.len(),
        align: 1,
    };
    let block = heap.alloc(layout)?;
    heap.write(&block, 0, bytes);
    Ok(block)
}
