//! A heap over another one, which keeps the asked layout before each block.
ghost use Rattle.std.specs.Prelude.{◌≡◌, ◌≤◌, ◌<◌, ◌-◌, ◌^◌, ◌↔◌, ℕ, List, Some, None, IfSome, IsNone, IsTrue};
ghost use Rattle.stabby_block.specs.Blocks.{HasNone, IsHeld, IsLive, ChangesAt, written};
ghost use Rattle.stabby_block.specs.Prefix.{skip_of, layout_bytes};
ghost use Rattle.stabby_block.specs.Stored.{kept_blocks, AllKept, prefix_before, stored_due, whole_layout};

use crate::prefix::skip_past_prefix;
use crate::{Block, BlockFault, IAlloc, RustAllocPrefix};
use stabby_layout::Layout;
use std::marker::Model;

/// A heap over `H`, seen as that heap.
///
/// Each block stands in a block of `H` with the same number. Its own bytes begin there at skip, the
/// least multiple of its alignment that isn't below 32, and the 32 bytes before hold its layout, as
/// `RustAllocPrefix` encodes it. The block of `H` has skip bytes more, and an alignment of at least
/// 8. It refuses, in this order: `ZeroSize` exactly at size 0; `Range` exactly where skip and size
/// are together beyond `usize::MAX`; then what `H` refuses of the greater layout.
#[derive(Drop)]
pub struct RustAlloc<H: IAlloc> {
    inner: H,
}

impl<H: IAlloc> Model for RustAlloc<H> {
    ghost Value = { H };

    ghost coded = { H.code };

    ghost view = { λ heap. heap.inner };

    ghost invariant = { λ heap. AllKept (H.blocks heap.inner) };
}

impl<H: IAlloc> RustAlloc<H> {
    /// A heap over `inner`, which has no live block.
    pub fn new(inner: H) -> RustAlloc<H>
        requires { HasNone (H.blocks inner) }
        ensures value { result ≡ inner }
        ensures empty { HasNone (kept_blocks (H.blocks result)) }
    {
        RustAlloc { inner }
    }

    /// The heap below. Each of its live blocks keeps one of this heap.
    pub fn inner(&self) -> &H
        ensures value { result.now ≡ self.now }
        ensures all { AllKept (H.blocks result.now) }
    {
        &self.inner
    }
}

impl<H: IAlloc> IAlloc for RustAlloc<H> {
    ghost use Rattle.stabby_block.specs.StoredLaws.{stored_sound, stored_finite};

    ghost blocks = { λ heap. kept_blocks (H.blocks heap) };

    ghost due = { λ heap. stored_due (H.due heap) };

    ghost sound = { λ heap n h is. stored_sound (H.blocks heap) (H.sound heap) n h is };

    ghost finite = { λ heap. stored_finite (H.blocks heap) (H.finite heap) };

    ghost zero_size = { λ heap layout due. due };

    fn alloc(&mut self, layout: Layout) -> Result<Block, BlockFault> {
        if layout.size == 0 {
            return Err(BlockFault::ZeroSize);
        }
        let Some(whole) = whole_of(layout) else {
            return Err(BlockFault::Range);
        };
        let inner = self.inner.alloc(whole)?;
        write_prefix(&mut self.inner, &inner, layout);
        let number = inner.number;
        Ok(Block { number, layout })
    }

    fn free(&mut self, block: Block) {
        self.inner.free(inner_block(block));
    }

    fn realloc(&mut self, block: Block, new_size: usize) -> Result<Block, (Block, BlockFault)> {
        if new_size == 0 {
            return Err((block, BlockFault::ZeroSize));
        }
        let layout = Layout {
            size: new_size,
            align: block.layout.align,
        };
        let Some(whole) = whole_of(layout) else {
            return Err((block, BlockFault::Range));
        };
        match self.inner.realloc(inner_block(block), whole.size) {
            Err((_, fault)) => Err((block, fault)),
            Ok(inner) => {
                write_prefix(&mut self.inner, &inner, layout);
                let number = inner.number;
                Ok(Block { number, layout })
            }
        }
    }

    fn is_live(&self, block: &Block) -> bool {
        if block.layout.align == 0 {
            return false;
        }
        let Some(whole) = whole_of(block.layout) else {
            return false;
        };
        let inner = Block {
            number: block.number,
            layout: whole,
        };
        self.inner.is_live(&inner) && has_prefix(&self.inner, &inner, block.layout)
    }

    fn read(&self, block: &Block, at: usize, into: &mut [u8]) {
        let skip = skip_past_prefix(block.layout.align);
        self.inner.read(&inner_block(*block), skip + at, into);
    }

    fn write(&mut self, block: &Block, at: usize, bytes: &[u8]) {
        let skip = skip_past_prefix(block.layout.align);
        self.inner.write(&inner_block(*block), skip + at, bytes);
    }
}

// The layout of the block below, or `None` where its size is beyond `usize::MAX`.
fn whole_of(layout: Layout) -> Option<Layout>
    requires { 1 ≤ layout.align }
    ensures some { IfSome result (λ whole. whole ≡ whole_layout layout) }
    ensures none { IsNone result ↔ (2 ^ 64 ≤ (whole_layout layout).size) }
{
    let size = skip_past_prefix(layout.align).checked_add(layout.size)?;
    let align = layout.align.max(8);
    Some(Layout { size, align })
}

// The block below, of a block whose place below is known to fit.
fn inner_block(block: Block) -> Block
    requires aligned { 1 ≤ block.layout.align }
    requires fits { (whole_layout block.layout).size < 2 ^ 64 }
    ensures { result ≡ record { number = block.number; layout = whole_layout block.layout } }
{
    let size = skip_past_prefix(block.layout.align) + block.layout.size;
    let align = block.layout.align.max(8);
    Block {
        number: block.number,
        layout: Layout { size, align },
    }
}

// Writes the prefix of the layout into a live block below.
fn write_prefix<H: IAlloc>(heap: &mut H, inner: &Block, layout: Layout)
    requires aligned { 1 ≤ layout.align }
    requires live { IsLive (H.blocks heap.old) inner.now }
    requires whole { inner.now.layout ≡ whole_layout layout }
    ensures { (old : List ℕ) → IsHeld (H.blocks heap.old) inner.now old
        → ChangesAt (H.blocks heap.old) (H.blocks heap.new) inner.now.number (Some (record { layout = inner.now.layout; bytes = written old (skip_of layout.align - 32) (layout_bytes layout) })) }
{
    let prefix = RustAllocPrefix { layout }.encode();
    heap.write(inner, skip_past_prefix(layout.align) - 32, &prefix);
}

// Whether a live block below has the prefix of the layout.
fn has_prefix<H: IAlloc>(heap: &H, inner: &Block, layout: Layout) -> bool
    requires aligned { 1 ≤ layout.align }
    requires live { IsLive (H.blocks heap.now) inner.now }
    requires whole { inner.now.layout ≡ whole_layout layout }
    ensures { (bytes : List ℕ) → IsHeld (H.blocks heap.now) inner.now bytes
        → IsTrue result ↔ (prefix_before (record { layout = inner.now.layout; bytes = bytes }) layout.align ≡ layout_bytes layout) }
{
    let mut prefix = [0u8; 32];
    heap.read(inner, skip_past_prefix(layout.align) - 32, &mut prefix);
    prefix == RustAllocPrefix { layout }.encode()
}
