//! What a run tells its gate.

use stabby_intern::{MemorySource, Status, SureSink, run};
use stabby_registry::{Gate, VtBtree};
use std::alloc::Global;
use std::sync::atomic::{AtomicU64, AtomicUsize, Ordering};
use std::test::Fail;

const BEFORE: u64 = 1;

const BUILDING: u64 = 2;

const AFTER: u64 = 3;

// A call of a gate: its step, the worker, the place, and the number, which is 0 where none is told.
#[derive(Clone, Copy, PartialEq, Eq)]
struct Call {
    step: u64,
    worker: u64,
    place: u64,
    number: u64,
}

impl Call {
    fn new(step: u64, place: u64, number: u64) -> Call {
        Call {
            step,
            worker: 0,
            place,
            number,
        }
    }
}

// A call that was told. Step 0 is none.
#[derive(Drop)]
struct Told {
    step: AtomicU64,
    worker: AtomicU64,
    place: AtomicU64,
    number: AtomicU64,
}

// Keeps the calls that it is told, in order.
#[derive(Drop)]
struct Recorder {
    count: AtomicUsize,
    told: Vec<Told>,
}

impl Recorder {
    // A recorder of at most so many calls.
    fn new(alloc: Global, calls: usize) -> Result<Recorder, Fail> {
        let mut told = Vec::new(alloc);
        for _ in 0..calls {
            let none = Told {
                step: AtomicU64::new(0),
                worker: AtomicU64::new(0),
                place: AtomicU64::new(0),
                number: AtomicU64::new(0),
            };
            told.push(none)?;
        }
        Ok(Recorder {
            count: AtomicUsize::new(0),
            told,
        })
    }

    fn keep(&self, step: u64, worker: u64, place: u64, number: u64) {
        let at = self.count.fetch_add(1, Ordering::SeqCst);
        if let Some(told) = self.told.get(at) {
            told.step.store(step, Ordering::SeqCst);
            told.worker.store(worker, Ordering::SeqCst);
            told.place.store(place, Ordering::SeqCst);
            told.number.store(number, Ordering::SeqCst);
        }
    }

    // Whether it was told exactly these calls, in order.
    fn heard(&self, calls: &[Call]) -> bool {
        let mut at = 0usize;
        for told in &self.told {
            let call = Call {
                step: told.step.load(Ordering::SeqCst),
                worker: told.worker.load(Ordering::SeqCst),
                place: told.place.load(Ordering::SeqCst),
                number: told.number.load(Ordering::SeqCst),
            };
            match calls.get(at) {
                Some(wanted) if *wanted == call => at = at.saturating_add(1),
                Some(_) => return false,
                None if call.step > 0 => return false,
                None => {}
            }
        }
        at == calls.len()
    }
}

impl Gate for Recorder {
    fn before(&self, worker: u64, place: u64) {
        self.keep(BEFORE, worker, place, 0);
    }

    fn building(&self, worker: u64, place: u64) {
        self.keep(BUILDING, worker, place, 0);
    }

    fn after(&self, worker: u64, place: u64, number: u64) {
        self.keep(AFTER, worker, place, number);
    }
}

// A new table is told of three times, one that was there twice.
#[test]
fn run_tells_its_gate(rt: HostRuntime) -> Result<(), Fail> {
    let alloc = rt.alloc();
    let mut words = Vec::new(alloc);
    words.push(String::from_str(alloc, "numbers")?)?;
    words.push(String::from_str(alloc, "1")?)?;
    let mut source = MemorySource::new(b"5\n3\n5\n".to_vec(alloc)?, 2, Vec::new(alloc));
    let mut out = SureSink::new(alloc, 100)?;
    let mut log = SureSink::new(alloc, 100)?;
    let (mut registry, mut pass) = VtBtree::<5>::new(alloc)?;
    let gate = Recorder::new(alloc, 12)?;
    let status = run(
        &rt,
        alloc,
        &words,
        &mut source,
        &mut out,
        &mut log,
        &mut registry,
        &mut pass,
        &gate,
    );
    assert!(rt; status == Status::Ok && out.kept() == "0\n1\n0\n5\n3\n".as_bytes());
    let five = [
        Call::new(BEFORE, 0, 0),
        Call::new(BUILDING, 0, 0),
        Call::new(AFTER, 0, 0),
    ];
    let three = [
        Call::new(BEFORE, 1, 0),
        Call::new(BUILDING, 1, 0),
        Call::new(AFTER, 1, 1),
    ];
    let again = [Call::new(BEFORE, 2, 0), Call::new(AFTER, 2, 0)];
    assert!(rt;
        gate.heard(&[
            five[0], five[1], five[2], three[0], three[1], three[2], again[0], again[1]
        ])
    );
    Ok(())
}
