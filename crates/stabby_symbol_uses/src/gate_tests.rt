//! What `index_words` tells its gate.
use stabby_layout::Text;
use stabby_registry::{Gate, VtBtree};
use stabby_symbol::index_words;
use std::sync::atomic::{AtomicU64, Ordering};
use std::test::Fail;

// Adds up what it is told of words that have their number: a hundred for each place, counted from 1, and the number.
#[derive(Drop)]
struct Adder {
    sum: AtomicU64,
}

impl Gate for Adder {
    fn before(&self, _worker: u64, _place: u64) {}

    fn building(&self, _worker: u64, _place: u64) {}

    fn after(&self, _worker: u64, place: u64, number: u64) {
        let told = place.wrapping_add(1).wrapping_mul(100).wrapping_add(number);
        let _sum = self.sum.fetch_add(told, Ordering::SeqCst);
    }
}

#[test]
fn words_tell_their_gate(rt: HostRuntime) -> Result<(), Fail> {
    let alloc = rt.alloc();
    let Ok((mut registry, mut pass)) = VtBtree::<5>::new(alloc) else {
        return Err("memory")?;
    };
    let Ok(source) = Text::from_str(alloc, "b a b") else {
        return Err("memory")?;
    };
    assert!(rt; pass.is_whole() && pass.seen() == 0);
    let gate = Adder {
        sum: AtomicU64::new(0),
    };
    let index = index_words(&rt, alloc, &mut registry, &mut pass, &source, 1, &gate);
    assert!(rt; index.is_ok());
    assert_eq!(rt; gate.sum.load(Ordering::SeqCst), 601);
    Ok(())
}
