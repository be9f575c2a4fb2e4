//! A heap with a limit, which keeps its blocks in a map.
ghost use Rattle.std.specs.Prelude.{◌≡◌, ◌≢◌, ◌≤◌, ◌<◌, ◌+◌, ◌-◌, ◌^◌, ℕ, List, ◌↔◌, IfOk, IfErr, IfSome, OnOk, OnErr, IsErrOf, Some, None, false, is_some, vec_len, length, sum_by};
ghost use Rattle.std.specs.Ordering.{nat_cmp};
ghost use Rattle.std.specs.BTreeMap.{get, values};
ghost use Rattle.stabby_layout.specs.declared.layout.Layout.{Layout};
ghost use Rattle.stabby_block.specs.declared.block.BlockFault.{BlockFault};
ghost use Rattle.stabby_block.specs.declared.block.BlockFault.TheVariants.{Memory};
ghost use Rattle.stabby_block.specs.Blocks.{written, resized, resized_layout, zeroed, ChangesAt, MovesTo, SameBlocks, SameDue, IsHeld, IsLive};

use crate::{Block, BlockFault, IAlloc};
use stabby_layout::Layout;
use std::alloc::Global;
use std::collections::BTreeMap;

// A live block.
#[derive(Drop)]
struct Slot {
    layout: Layout,
    bytes: Vec<u8>,
    ghost sized: { vec_len bytes ≡ layout.size },
    ghost aligned: { 1 ≤ layout.align },
    ghost align_fits: { layout.align < 2 ^ 64 },
}

impl Slot {
    // The first bytes, as many as fit, and zero bytes behind them.
    fn resized(&self, alloc: Global, size: usize) -> Option<Slot>
        ensures { IfSome result (λ slot. (slot.layout ≡ record { size = size; align = self.now.layout.align }) × (slot.bytes.items ≡ resized self.now.bytes.items size)) }
    {
        let kept = self.bytes.len().min(size);
        let mut bytes = Vec::with_capacity(alloc, size).ok()?;
        bytes.extend_from_slice(&self.bytes[..kept]).ok()?;
        bytes.resize(size, 0).ok()?;
        let layout = Layout {
            size,
            align: self.layout.align,
        };
        Some(Slot { layout, bytes })
    }

    fn write(&mut self, at: usize, bytes: &[u8])
        requires { at + length bytes.now ≤ vec_len self.old.bytes }
        ensures layout { self.new.layout ≡ self.old.layout }
        ensures bytes { self.new.bytes.items ≡ written self.old.bytes.items at bytes.now }
    {
        let end = at + bytes.len();
        self.bytes[at..end].copy_from_slice(bytes);
    }
}

/// A heap with a limit on the sum of the sizes of its live blocks.
///
/// Numbers go up from 0. `alloc` and `realloc` refuse, in this order: `ZeroSize` exactly at size 0;
/// `OverLimit` exactly where the used bytes and the new size are together more than the limit;
/// `Exhausted` exactly where the next number is `u64::MAX`; `Memory`. `Range` never comes.
#[derive(Drop)]
pub struct Ledger {
    slots: BTreeMap<u64, Slot>,
    next: u64,
    used: usize,
    limit: usize,
    alloc: Global,
    ghost within: { used ≤ limit },
    ghost counted: { used ≡ sum_by (λ s. s.layout.size) (values slots) },
    ghost numbered: { (n : ℕ) → next ≤ n → is_some (get nat_cmp slots n) ≡ false },
}

impl Ledger {
    ghost use Rattle.stabby_block.specs.Blocks.{HasNone};
    ghost use Rattle.stabby_block.specs.Ledgers.{ledger_blocks, next_of, limit_of, used_of, live_count};

    /// A heap without a block, whose blocks may have `limit` bytes together.
    pub fn new_in(alloc: Global, limit: usize) -> Ledger
        ensures empty { HasNone (ledger_blocks result) }
        ensures next { next_of result ≡ 0 }
        ensures limit { limit_of result ≡ limit }
        ensures used { used_of result ≡ 0 }
        ensures live { live_count result ≡ 0 }
    {
        Ledger {
            slots: BTreeMap::new(alloc),
            next: 0,
            used: 0,
            limit,
            alloc,
        }
    }

    /// How many bytes the live blocks may have together.
    pub fn limit(&self) -> usize
        ensures { result ≡ limit_of self.now }
    {
        self.limit
    }

    /// The sum of the sizes of the live blocks.
    pub fn used(&self) -> usize
        ensures sum { result ≡ used_of self.now }
        ensures within { result ≤ limit_of self.now }
    {
        self.used
    }

    /// How many blocks are live.
    pub fn live(&self) -> usize
        ensures { result ≡ live_count self.now }
    {
        self.slots.len()
    }
}

impl IAlloc for Ledger {
    ghost use Rattle.stabby_block.specs.Ledgers.{ledger_blocks, ledger_due, next_of, limit_of, used_of, live_count, HasTally};
    ghost use Rattle.stabby_block.specs.LedgerLaws.{ledger_sound, ledger_finite};

    ghost blocks = { ledger_blocks };

    ghost due = { ledger_due };

    ghost sound = { ledger_sound };

    ghost finite = { ledger_finite };

    ghost zero_size = { λ heap layout due. due };

    #[tactic(auto, using(crate::proofs::Sums::after_insert))]
    fn alloc(&mut self, layout: Layout) -> Result<Block, BlockFault>
        requires { 1 ≤ layout.align }
        ensures layout { IfOk result (λ block. block.layout ≡ layout) }
        ensures fresh { IfOk result (λ block. ledger_blocks self.old block.number ≡ None) }
        ensures ok { IfOk result (λ block. ChangesAt (ledger_blocks self.old) (ledger_blocks self.new) block.number (Some (zeroed layout))) }
        ensures faults { (fault : BlockFault) → fault ≢ Memory → IsErrOf result fault ↔ ledger_due self.old layout fault }
        ensures unchanged { OnErr result (SameBlocks (ledger_blocks self.old) (ledger_blocks self.new)) }
        ensures err_due { OnErr result (SameDue (ledger_due self.old) (ledger_due self.new)) }
        ensures number { IfOk result (λ block. block.number ≡ next_of self.old) }
        ensures tally { OnOk result (HasTally self.new (next_of self.old + 1) (used_of self.old + layout.size) (live_count self.old + 1)) }
        ensures err_tally { OnErr result (HasTally self.new (next_of self.old) (used_of self.old) (live_count self.old)) }
        ensures limit { limit_of self.new ≡ limit_of self.old }
    {
        self.room_for(layout.size)?;
        let Ok(bytes) = vec![in self.alloc; 0u8; layout.size] else {
            return Err(BlockFault::Memory);
        };
        let number = self.next;
        if self.slots.insert(number, Slot { layout, bytes }).is_err() {
            return Err(BlockFault::Memory);
        }
        self.next += 1;
        self.used += layout.size;
        Ok(Block { number, layout })
    }

    #[tactic(auto, using(crate::proofs::Sums::after_insert))]
    fn free(&mut self, block: Block)
        requires { IsLive (ledger_blocks self.old) block }
        ensures gone { ChangesAt (ledger_blocks self.old) (ledger_blocks self.new) block.number None }
        ensures tally { HasTally self.new (next_of self.old) (used_of self.old - block.layout.size) (live_count self.old - 1) }
        ensures limit { limit_of self.new ≡ limit_of self.old }
    {
        if let Some(slot) = self.slots.remove(&block.number) {
            self.used -= slot.layout.size;
        }
    }

    #[tactic(auto, using(crate::proofs::Sums::after_insert))]
    fn realloc(&mut self, block: Block, new_size: usize) -> Result<Block, (Block, BlockFault)>
        requires { IsLive (ledger_blocks self.old) block }
        ensures layout { IfOk result (λ new. new.layout ≡ resized_layout block.layout new_size) }
        ensures fresh { IfOk result (λ new. ledger_blocks self.old new.number ≡ None) }
        ensures ok { IfOk result (λ new. (bytes : List ℕ) → IsHeld (ledger_blocks self.old) block bytes
            → MovesTo (ledger_blocks self.old) (ledger_blocks self.new) block.number new.number (record { layout = new.layout; bytes = resized bytes new_size })) }
        ensures faults { (fault : BlockFault) → fault ≢ Memory → IsErrOf result (block, fault) ↔ ledger_due self.old (resized_layout block.layout new_size) fault }
        ensures value_back { IfErr result (λ refused. refused.0 ≡ block) }
        ensures unchanged { OnErr result (SameBlocks (ledger_blocks self.old) (ledger_blocks self.new)) }
        ensures err_due { OnErr result (SameDue (ledger_due self.old) (ledger_due self.new)) }
        ensures number { IfOk result (λ new. new.number ≡ next_of self.old) }
        ensures tally { OnOk result (HasTally self.new (next_of self.old + 1) (used_of self.old + new_size - block.layout.size) (live_count self.old)) }
        ensures err_tally { OnErr result (HasTally self.new (next_of self.old) (used_of self.old) (live_count self.old)) }
        ensures limit { limit_of self.new ≡ limit_of self.old }
    {
        if let Err(fault) = self.room_for(new_size) {
            return Err((block, fault));
        }
        let Some(slot) = self.slots.get(&block.number) else {
            return Err((block, BlockFault::Memory));
        };
        let Some(resized) = slot.resized(self.alloc, new_size) else {
            return Err((block, BlockFault::Memory));
        };
        let layout = resized.layout;
        let number = self.next;
        if self.slots.insert(number, resized).is_err() {
            return Err((block, BlockFault::Memory));
        }
        self.next += 1;
        self.used += new_size;
        self.free(block);
        Ok(Block { number, layout })
    }

    fn is_live(&self, block: &Block) -> bool {
        match self.slots.get(&block.number) {
            Some(slot) => slot.layout == block.layout,
            None => false,
        }
    }

    fn read(&self, block: &Block, at: usize, into: &mut [u8]) {
        if let Some(slot) = self.slots.get(&block.number) {
            into.copy_from_slice(&slot.bytes[at..at + into.len()]);
        }
    }

    #[tactic(auto, using(crate::proofs::Sums::after_insert))]
    fn write(&mut self, block: &Block, at: usize, bytes: &[u8])
        requires live { IsLive (ledger_blocks self.old) block.now }
        requires within { at + length bytes.now ≤ block.now.layout.size }
        ensures ok { (old : List ℕ) → IsHeld (ledger_blocks self.old) block.now old
            → ChangesAt (ledger_blocks self.old) (ledger_blocks self.new) block.now.number (Some (record { layout = block.now.layout; bytes = written old at bytes.now })) }
        ensures due { SameDue (ledger_due self.old) (ledger_due self.new) }
        ensures tally { HasTally self.new (next_of self.old) (used_of self.old) (live_count self.old) }
        ensures limit { limit_of self.new ≡ limit_of self.old }
    {
        if let Some(slot) = self.slots.get_mut(&block.number) {
            slot.write(at, bytes);
        }
    }
}

impl Ledger {
    ghost use Rattle.stabby_block.specs.Ledgers.{ledger_due};

    // Whether a block of that size may be made, memory aside.
    fn room_for(&self, size: usize) -> Result<(), BlockFault>
        ensures fits { OnOk result ((0 < size) × (self.now.used + size ≤ self.now.limit) × (self.now.next < 2 ^ 64 - 1)) }
        ensures due { IfErr result (λ fault. (layout : Layout) → layout.size ≡ size → ledger_due self.now layout fault) }
    {
        if size == 0 {
            return Err(BlockFault::ZeroSize);
        }
        let left = self.limit - self.used;
        if size > left {
            return Err(BlockFault::OverLimit { wanted: size, left });
        }
        if self.next == u64::MAX {
            return Err(BlockFault::Exhausted);
        }
        Ok(())
    }
}
