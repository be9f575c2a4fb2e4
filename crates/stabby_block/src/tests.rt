//! A proved caller, stated numbers, and each call that takes memory once where there is memory.
ghost use Rattle.std.specs.Prelude.{◌≡◌, IfOk};
ghost use Rattle.stabby_block.specs.Blocks.{IsHeld};

use super::*;
use stabby_layout::Layout;
use std::test::*;

const fn layout(size: usize, align: usize) -> Layout
    ensures { result ≡ record { size = size; align = align } }
{
    Layout { size, align }
}

const fn block(number: u64, size: usize, align: usize) -> Block
    ensures { result ≡ record { number = number; layout = record { size = size; align = align } } }
{
    Block {
        number,
        layout: layout(size, align),
    }
}

// A caller, as the README shows it: a new block with these bytes, in any heap.
fn store<H: IAlloc>(heap: &mut H, bytes: &[u8]) -> Result<Block, BlockFault>
    ensures { IfOk result (λ block. IsHeld (H.blocks heap.new) block bytes.now) }
{
    let block = heap.alloc(layout(bytes.len(), 1))?;
    heap.write(&block, 0, bytes);
    Ok(block)
}

#[test]
fn ledger_of_one_hundred(rt: HostRuntime) {
    let mut ledger = Ledger::new_in(rt.alloc(), 100);
    let first = block(0, 40, 8);
    let second = block(1, 60, 1);
    assert_eq!(rt; ledger.alloc(layout(40, 8)), Ok(first));
    assert_eq!(rt; ledger.alloc(layout(0, 1)), Err(BlockFault::ZeroSize));
    let over = BlockFault::OverLimit {
        wanted: 61,
        left: 60,
    };
    assert_eq!(rt; ledger.alloc(layout(61, 1)), Err(over));
    assert_eq!(rt; ledger.alloc(layout(60, 1)), Ok(second));
    assert!(rt; ledger.is_live(&first));
    let over = BlockFault::OverLimit { wanted: 8, left: 0 };
    assert_eq!(rt; ledger.realloc(first, 8), Err((first, over)));
    assert!(rt; ledger.is_live(&second));
    ledger.free(second);
    assert!(rt; !ledger.is_live(&second));
    assert!(rt; ledger.is_live(&first));
    assert_eq!(rt; ledger.realloc(first, 50), Ok(block(2, 50, 8)));
    assert_eq!(rt;
        (ledger.limit(), ledger.used(), ledger.live()),
        (100, 50, 1)
    );
}

#[test]
fn bytes_of_a_ledger(rt: HostRuntime) -> Result<(), Fail> {
    let mut ledger = Ledger::new_in(rt.alloc(), 100);
    let Ok(kept) = store(&mut ledger, &[1, 2, 3]) else {
        return Err(Fail::new("refused"));
    };
    let Ok(grown) = ledger.realloc(kept, 5) else {
        return Err(Fail::new("refused"));
    };
    assert!(rt; ledger.is_live(&grown));
    ledger.write(&grown, 1, &[9]);
    let mut bytes = [7u8; 5];
    assert!(rt; ledger.is_live(&grown));
    ledger.read(&grown, 0, &mut bytes);
    assert_eq!(rt; bytes, [1, 9, 3, 0, 0]);
    Ok(())
}

#[test]
fn prefix_bytes(rt: HostRuntime) {
    let prefix = RustAllocPrefix {
        layout: layout(10, 64),
    };
    let mut bytes = prefix.encode();
    let mut wanted = [0u8; 32];
    wanted[0] = 0x0a;
    wanted[8] = 0x40;
    assert_eq!(rt; bytes, wanted);
    assert_eq!(rt; RustAllocPrefix::decode(&bytes), Some(prefix));
    bytes[31] = 1;
    assert_eq!(rt; RustAllocPrefix::decode(&bytes), None);
}

#[test]
fn prefix_bytes_below(rt: HostRuntime) -> Result<(), Fail> {
    let mut heap = RustAlloc::new(Ledger::new_in(rt.alloc(), 100));
    assert_eq!(rt; heap.alloc(layout(10, 64)), Ok(block(0, 10, 64)));
    assert_eq!(rt; heap.inner().used(), 74);
    let below = block(0, 74, 64);
    assert!(rt; heap.inner().is_live(&below));
    let mut bytes = [1u8; 16];
    heap.inner().read(&below, 32, &mut bytes);
    assert_eq!(rt; bytes, [10, 0, 0, 0, 0, 0, 0, 0, 64, 0, 0, 0, 0, 0, 0, 0]);
    Ok(())
}

#[test]
fn bytes_of_a_heap_over_a_ledger(rt: HostRuntime) -> Result<(), Fail> {
    let mut heap = RustAlloc::new(Ledger::new_in(rt.alloc(), 100));
    assert_eq!(rt; heap.alloc(layout(0, 1)), Err(BlockFault::ZeroSize));
    assert_eq!(rt; heap.alloc(layout(usize::MAX, 1)), Err(BlockFault::Range));
    let over = BlockFault::OverLimit {
        wanted: 101,
        left: 100,
    };
    assert_eq!(rt; heap.alloc(layout(69, 1)), Err(over));
    let Ok(kept) = store(&mut heap, &[1, 2, 3]) else {
        return Err(Fail::new("refused"));
    };
    let Ok(grown) = heap.realloc(kept, 5) else {
        return Err(Fail::new("refused"));
    };
    assert_eq!(rt; heap.inner().used(), 37);
    let other = Block {
        number: grown.number,
        layout: layout(5, 2),
    };
    assert!(rt; !heap.is_live(&other));
    assert!(rt; heap.is_live(&grown));
    heap.write(&grown, 1, &[9]);
    let mut bytes = [7u8; 5];
    assert!(rt; heap.is_live(&grown));
    heap.read(&grown, 0, &mut bytes);
    assert_eq!(rt; bytes, [1, 9, 3, 0, 0]);
    assert!(rt; heap.is_live(&grown));
    heap.free(grown);
    assert_eq!(rt; heap.inner().live(), 0);
    Ok(())
}

#[test]
fn prefix_of_an_array(rt: HostRuntime) -> Result<(), Fail> {
    let mut ledger = Ledger::new_in(rt.alloc(), 100);
    let Ok(array) = AllocPrefix::alloc_array::<Ledger, u64>(&mut ledger, 3) else {
        return Err(Fail::new("refused"));
    };
    assert_eq!(rt; array, block(0, 56, 8));
    assert_eq!(rt; AllocPrefix::skip_to::<u64>(), 32);
    assert!(rt; ledger.is_live(&array));
    let prefix = AllocPrefix {
        strong: 1,
        weak: 1,
        capacity: 3,
        origin: 0,
    };
    assert_eq!(rt; AllocPrefix::of_block(&ledger, &array), prefix);
    let range = AllocPrefix::alloc_array::<Ledger, u64>(&mut ledger, 1 << 61);
    assert_eq!(rt; range, Err(BlockFault::Range));
    Ok(())
}
