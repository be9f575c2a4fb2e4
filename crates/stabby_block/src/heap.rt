//! What a heap of blocks is.
ghost use Rattle.std.specs.Prelude.{◌≡◌, ◌≢◌, ◌≤◌, ◌+◌, ℕ, List, ◌↔◌, IsTrue, IfOk, IfErr, OnOk, OnErr, IsErrOf, None, Some, length, slice_range};
ghost use Rattle.stabby_layout.specs.declared.layout.Layout.{Layout};
ghost use Rattle.stabby_block.specs.declared.block.BlockFault.{BlockFault};
ghost use Rattle.stabby_block.specs.declared.block.BlockFault.TheVariants.{ZeroSize, Memory};
ghost use Rattle.stabby_block.specs.Blocks.{Blocks, Held, IsSound, HasEnd, zeroed, written, resized, resized_layout, ChangesAt, MovesTo, SameBlocks, SameDue, IsHeld, IsLive};

use crate::{Block, BlockFault};
use stabby_layout::Layout;

/// A heap of blocks of bytes, each with a number.
///
/// It has two meanings. `blocks` is the finite map from the number of each live block to its
/// layout and bytes. `due` says whether a fault other than `Memory` is due for a layout: `alloc`
/// of that layout answers it exactly there, and so does `realloc` to that layout. `Memory` alone
/// may come at any time. A refusal leaves both meanings as they were.
pub trait IAlloc {
    ghost blocks: { Self → Blocks };

    ghost due: { Self → Layout → BlockFault → Type 0 };

    /// A new live block of that layout, with zero bytes. The others stay.
    fn alloc(&mut self, layout: Layout) -> Result<Block, BlockFault>
        requires { 1 ≤ layout.align }
        ensures layout { IfOk result (λ block. block.layout ≡ layout) }
        ensures fresh { IfOk result (λ block. blocks self.old block.number ≡ None) }
        ensures ok { IfOk result (λ block. ChangesAt (blocks self.old) (blocks self.new) block.number (Some (zeroed layout))) }
        ensures faults { (fault : BlockFault) → fault ≢ Memory → IsErrOf result fault ↔ due self.old layout fault }
        ensures unchanged { OnErr result (SameBlocks (blocks self.old) (blocks self.new)) }
        ensures err_due { OnErr result (SameDue (due self.old) (due self.new)) };

    /// Ends a live block. The others stay.
    fn free(&mut self, block: Block)
        requires { IsLive (blocks self.old) block }
        ensures { ChangesAt (blocks self.old) (blocks self.new) block.number None };

    /// A new block in the place of a live one, of `new_size` bytes at the old alignment. Its first
    /// bytes are those of the old block, as far as both reach, and the rest are zero.
    ///
    /// On an `Err` the old block is handed back, live and with the same bytes.
    fn realloc(&mut self, block: Block, new_size: usize) -> Result<Block, (Block, BlockFault)>
        requires { IsLive (blocks self.old) block }
        ensures layout { IfOk result (λ new. new.layout ≡ resized_layout block.layout new_size) }
        ensures fresh { IfOk result (λ new. blocks self.old new.number ≡ None) }
        ensures ok { IfOk result (λ new. (bytes : List ℕ) → IsHeld (blocks self.old) block bytes
            → MovesTo (blocks self.old) (blocks self.new) block.number new.number (record { layout = new.layout; bytes = resized bytes new_size })) }
        ensures faults { (fault : BlockFault) → fault ≢ Memory → IsErrOf result (block, fault) ↔ due self.old (resized_layout block.layout new_size) fault }
        ensures value_back { IfErr result (λ refused. refused.0 ≡ block) }
        ensures unchanged { OnErr result (SameBlocks (blocks self.old) (blocks self.new)) }
        ensures err_due { OnErr result (SameDue (due self.old) (due self.new)) };

    /// Whether the block with this number is live and has this layout.
    fn is_live(&self, block: &Block) -> bool
        ensures { IsTrue result ↔ IsLive (blocks self.now) block.now };

    /// Fills `into` with the bytes of a live block from `at` on.
    fn read(&self, block: &Block, at: usize, into: &mut [u8])
        requires live { IsLive (blocks self.now) block.now }
        requires within { at + length into.old ≤ block.now.layout.size }
        ensures { (bytes : List ℕ) → IsHeld (blocks self.now) block.now bytes → into.new ≡ slice_range bytes at (at + length into.old) };

    /// Writes `bytes` over those of a live block from `at` on. The other bytes and blocks stay, and
    /// so do the faults that are due.
    fn write(&mut self, block: &Block, at: usize, bytes: &[u8])
        requires live { IsLive (blocks self.old) block.now }
        requires within { at + length bytes.now ≤ block.now.layout.size }
        ensures ok { (old : List ℕ) → IsHeld (blocks self.old) block.now old
            → ChangesAt (blocks self.old) (blocks self.new) block.now.number (Some (record { layout = block.now.layout; bytes = written old at bytes.now })) }
        ensures due { SameDue (due self.old) (due self.new) };

    // A live block has an alignment of at least 1, as many bytes as its size, and numbers that fit.
    ghost sound: { (heap : Self) (number : ℕ) (held : Held) → blocks heap number ≡ Some held → IsSound held };

    // From some number on no block is live.
    ghost finite: { (heap : Self) → HasEnd (blocks heap) };

    // A block of no bytes is all that `ZeroSize` may refuse.
    ghost zero_size: { (heap : Self) (layout : Layout) → due heap layout ZeroSize → layout.size ≡ 0 };
}
