//! Arrays behind a prefix of counts.
ghost use Rattle.std.specs.Prelude.{◌≡◌, ◌≢◌, ◌≤◌, ◌^◌, ◌↔◌, ℕ, List, None, Some, IfOk, IfErr, OnErr, IsErrOf};
ghost use Rattle.stabby_block.specs.declared.array.AllocPrefix.{AllocPrefix};
ghost use Rattle.stabby_block.specs.declared.block.BlockFault.{BlockFault};
ghost use Rattle.stabby_block.specs.declared.block.BlockFault.TheVariants.{Memory, Range};
ghost use Rattle.stabby_block.specs.ArrayPrefix.{prefix_bytes, prefix_of, PrefixFits, array_layout, first_prefix, prefixed, array_due};
ghost use Rattle.stabby_block.specs.Blocks.{ChangesAt, SameBlocks, SameDue, IsHeld, IsLive};
ghost use Rattle.stabby_block.specs.Prefix.{skip_of};

use crate::prefix::{read_number, skip_past_prefix};
use crate::{Block, BlockFault, IAlloc};
use stabby_layout::{Described, Layout};

/// What stands before a shared array, in the first 32 bytes of its block: the counts of strong and
/// weak handles, how many items there is room for, and the number of the block. Each is 8 bytes,
/// little endian, in this order.
#[derive(Clone, Copy, PartialEq, Eq, Debug)]
pub struct AllocPrefix {
    pub strong: u64,
    pub weak: u64,
    pub capacity: u64,
    pub origin: u64,
}

impl AllocPrefix {
    /// The 32 bytes.
    pub fn encode(&self) -> [u8; 32]
        ensures { result ≡ prefix_bytes self.now }
    {
        let mut bytes = [0u8; 32];
        bytes[0..8].copy_from_slice(&self.strong.to_le_bytes());
        bytes[8..16].copy_from_slice(&self.weak.to_le_bytes());
        bytes[16..24].copy_from_slice(&self.capacity.to_le_bytes());
        bytes[24..32].copy_from_slice(&self.origin.to_le_bytes());
        bytes
    }

    /// The four numbers of these bytes.
    pub fn decode(bytes: &[u8; 32]) -> AllocPrefix
        ensures value { result ≡ prefix_of bytes.now }
        ensures undoes { (prefix : AllocPrefix) → PrefixFits prefix → bytes.now ≡ prefix_bytes prefix → result ≡ prefix }
    {
        AllocPrefix {
            strong: read_number(bytes, 0),
            weak: read_number(bytes, 8),
            capacity: read_number(bytes, 16),
            origin: read_number(bytes, 24),
        }
    }

    /// Where the items begin: the least multiple of T's alignment that isn't below 32.
    pub fn skip_to<T: Described>() -> usize
        ensures { result ≡ skip_of T.stated_layout.align }
    {
        skip_past_prefix(T::layout().align)
    }

    /// A new block with room for `capacity` items of `T` behind a prefix, which has one strong and
    /// one weak handle, the capacity and the block's number. All bytes behind the prefix are zero.
    ///
    /// `BlockFault::Range` exactly where the block's size is beyond `usize::MAX`; then what the heap
    /// refuses. A refusal leaves the heap as it was.
    pub fn alloc_array<H: IAlloc, T: Described>(
        heap: &mut H,
        capacity: usize,
    ) -> Result<Block, BlockFault>
        ensures layout { IfOk result (λ block. block.layout ≡ array_layout T.stated_layout capacity) }
        ensures fresh { IfOk result (λ block. H.blocks heap.old block.number ≡ None) }
        ensures ok { IfOk result (λ block. ChangesAt (H.blocks heap.old) (H.blocks heap.new) block.number
            (Some (prefixed (array_layout T.stated_layout capacity) (first_prefix capacity block.number)))) }
        ensures faults { (fault : BlockFault) → fault ≢ Memory → IsErrOf result fault ↔ array_due (H.due heap.old) (array_layout T.stated_layout capacity) fault }
        ensures unchanged { OnErr result (SameBlocks (H.blocks heap.old) (H.blocks heap.new)) }
        ensures err_due { OnErr result (SameDue (H.due heap.old) (H.due heap.new)) }
    {
        let layout = array_of::<T>(capacity)?;
        let block = heap.alloc(layout)?;
        let prefix = AllocPrefix {
            strong: 1,
            weak: 1,
            capacity: capacity as u64,
            origin: block.number,
        };
        heap.write(&block, 0, &prefix.encode());
        Ok(block)
    }

    /// The prefix in the first 32 bytes of a live block.
    pub fn of_block<H: IAlloc>(heap: &H, block: &Block) -> AllocPrefix
        requires live { IsLive (H.blocks heap.now) block.now }
        requires room { 32 ≤ block.now.layout.size }
        ensures { (bytes : List ℕ) → IsHeld (H.blocks heap.now) block.now bytes → result ≡ prefix_of bytes }
    {
        let mut bytes = [0u8; 32];
        heap.read(block, 0, &mut bytes);
        AllocPrefix::decode(&bytes)
    }
}

// The layout of an array behind a prefix, or `Range` where its size is beyond `usize::MAX`.
fn array_of<T: Described>(capacity: usize) -> Result<Layout, BlockFault>
    ensures ok { IfOk result (λ layout. layout ≡ array_layout T.stated_layout capacity) }
    ensures range { IsErrOf result Range ↔ (2 ^ 64 ≤ (array_layout T.stated_layout capacity).size) }
    ensures err { IfErr result (λ fault. fault ≡ Range) }
{
    let Ok(items) = Layout::array::<T>(capacity) else {
        return Err(BlockFault::Range);
    };
    let Some(size) = AllocPrefix::skip_to::<T>().checked_add(items.size) else {
        return Err(BlockFault::Range);
    };
    let align = items.align.max(8);
    Ok(Layout { size, align })
}
