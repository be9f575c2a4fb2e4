//! The calls of two workers of one run are under way at once.

use stabby_intern::{MemorySink, MemorySource, Status, run};
use stabby_registry::{Gate, VtBtree};
use std::marker::Sync;
use std::sync::atomic::{AtomicBool, Ordering};
use std::test::Fail;
use std::thread;

// Holds worker 0 in its first `building` until worker 1 has a number, and worker 1 before its table until worker 0 is
// there.
#[derive(Drop)]
struct Meeting {
    // Worker 0 is in its first `building`.
    built: AtomicBool,
    // Worker 1 has a number.
    numbered: AtomicBool,
    // One of the two waited in vain.
    missed: AtomicBool,
}

impl Meeting {
    // Gives up the processor until the flag is up, a million times at most.
    fn wait_for(&self, flag: &AtomicBool) {
        for _ in 0..1_000_000u32 {
            if flag.load(Ordering::SeqCst) {
                return;
            }
            thread::yield_now();
        }
        self.missed.store(true, Ordering::SeqCst);
    }
}

impl Gate for Meeting {
    fn before(&self, worker: u64, _place: u64) {
        if worker == 1 {
            self.wait_for(&self.built);
        }
    }

    fn building(&self, worker: u64, _place: u64) {
        if worker == 0 && !self.built.swap(true, Ordering::SeqCst) {
            self.wait_for(&self.numbered);
        }
    }

    fn after(&self, worker: u64, _place: u64, _number: u64) {
        if worker == 1 {
            self.numbered.store(true, Ordering::SeqCst);
        }
    }
}

#[test]
fn workers_overlap(rt: HostRuntime) -> Result<(), Fail> {
    let alloc = rt.alloc();
    let mut words = Vec::new(alloc);
    words.push(String::from_str(alloc, "numbers")?)?;
    words.push(String::from_str(alloc, "2")?)?;
    let bytes = "1\n2\n".as_bytes().to_vec(alloc)?;
    let mut source = MemorySource::new(bytes, 2, Vec::new(alloc));
    let Ok(mut out) = MemorySink::new(alloc, 100, 3, Vec::new(alloc)) else {
        return Err("memory")?;
    };
    let Ok(mut log) = MemorySink::new(alloc, 100, 7, Vec::new(alloc)) else {
        return Err("memory")?;
    };
    let Ok((mut registry, mut pass)) = VtBtree::<5>::new(alloc) else {
        return Err("memory")?;
    };
    let gate = Meeting {
        built: AtomicBool::new(false),
        numbered: AtomicBool::new(false),
        missed: AtomicBool::new(false),
    };
    let status = run(
        &rt,
        alloc,
        &words,
        &mut source,
        &mut out,
        &mut log,
        &mut registry,
        &mut pass,
        &gate,
    );
    assert!(rt; !gate.missed.load(Ordering::SeqCst));
    assert!(rt; status == Status::Ok);
    assert!(rt; out.taken() == "1\n0\n2\n1\n".as_bytes());
    Ok(())
}
