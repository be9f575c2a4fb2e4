//! What gates are told: each worker's steps, with the place of the table and its number.

ghost use Rattle.stabby_registry.specs.Passes.{IsPassOf};

use stabby_registry::{AllocationError, Gate, TreePass, VtBtree, WordTable, intern_all};
use std::alloc::Global;
use std::sync::Wait;
use std::sync::atomic::{AtomicU64, AtomicUsize, Ordering};
use std::test::Fail;

const BEFORE: u64 = 1;

const BUILDING: u64 = 2;

const AFTER: u64 = 3;

// A call of a gate: its step, the place, and the number, which is 0 where none is told.
#[derive(Clone, Copy, PartialEq, Eq)]
struct Call {
    step: u64,
    place: u64,
    number: u64,
}

impl Call {
    fn before(place: u64) -> Call {
        Call {
            step: BEFORE,
            place,
            number: 0,
        }
    }

    fn building(place: u64) -> Call {
        Call {
            step: BUILDING,
            place,
            number: 0,
        }
    }

    fn after(place: u64, number: u64) -> Call {
        Call {
            step: AFTER,
            place,
            number,
        }
    }
}

// A call that was told, and by which worker. Step 0 is none.
#[derive(Drop)]
struct Told {
    worker: AtomicU64,
    step: AtomicU64,
    place: AtomicU64,
    number: AtomicU64,
}

impl Told {
    fn nothing() -> Told {
        Told {
            worker: AtomicU64::new(0),
            step: AtomicU64::new(0),
            place: AtomicU64::new(0),
            number: AtomicU64::new(0),
        }
    }

    fn is_of(&self, worker: u64) -> bool {
        self.worker.load(Ordering::SeqCst) == worker && self.step.load(Ordering::SeqCst) > 0
    }

    fn call(&self) -> Call {
        Call {
            step: self.step.load(Ordering::SeqCst),
            place: self.place.load(Ordering::SeqCst),
            number: self.number.load(Ordering::SeqCst),
        }
    }
}

// Keeps the calls that it is told, in order.
#[derive(Drop)]
struct Recorder {
    count: AtomicUsize,
    told: Vec<Told>,
}

impl Recorder {
    // A recorder of at most so many calls.
    fn new(alloc: Global, calls: usize) -> Result<Recorder, AllocationError> {
        let mut told = Vec::new(alloc);
        for _ in 0..calls {
            told.push(Told::nothing())?;
        }
        Ok(Recorder {
            count: AtomicUsize::new(0),
            told,
        })
    }

    fn keep(&self, worker: u64, call: Call) {
        let at = self.count.fetch_add(1, Ordering::SeqCst);
        if let Some(told) = self.told.get(at) {
            told.worker.store(worker, Ordering::SeqCst);
            told.place.store(call.place, Ordering::SeqCst);
            told.number.store(call.number, Ordering::SeqCst);
            told.step.store(call.step, Ordering::SeqCst);
        }
    }

    // Whether a worker told exactly these calls, in order. Where another worker came between, a version is built again.
    fn heard(&self, worker: u64, calls: &[Call]) -> bool {
        let mut at = 0usize;
        let mut last = Call::after(0, 0);
        for told in &self.told {
            let call = told.call();
            if !told.is_of(worker) || (call.step == BUILDING && call == last) {
                continue;
            }
            match calls.get(at) {
                Some(wanted) if *wanted == call => at = at.saturating_add(1),
                _ => return false,
            }
            last = call;
        }
        at == calls.len()
    }
}

impl Gate for Recorder {
    fn before(&self, worker: u64, place: u64) {
        self.keep(worker, Call::before(place));
    }

    fn building(&self, worker: u64, place: u64) {
        self.keep(worker, Call::building(place));
    }

    fn after(&self, worker: u64, place: u64, number: u64) {
        self.keep(worker, Call::after(place, number));
    }
}

fn tables_of(alloc: Global, words: &[u64]) -> Result<Vec<WordTable>, AllocationError> {
    let mut tables = Vec::new(alloc);
    for word in words {
        let table = WordTable::from_words(alloc, &[*word])?;
        tables.push(table)?;
    }
    Ok(tables)
}

// Whether the table of one word gets the number by `insert_gated`, for worker 7 at this place.
fn gets_number<H: Wait>(
    rt: &H,
    alloc: Global,
    registry: &VtBtree<5>,
    pass: &mut TreePass<5>,
    gate: &Recorder,
    asked: (u64, u64, u64),
) -> bool
    requires { IsPassOf registry.now pass.old }
    ensures { IsPassOf registry.now pass.new }
{
    let (word, place, number) = asked;
    match WordTable::from_words(alloc, &[word]) {
        Ok(table) => registry.insert_gated(rt, alloc, pass, &table, gate, 7, place) == Ok(number),
        Err(_) => false,
    }
}

// Whether worker 7 told of two new tables and of a known one.
fn heard_two_and_one(gate: &Recorder) -> bool {
    gate.heard(
        7,
        &[
            Call::before(4),
            Call::building(4),
            Call::after(4, 0),
            Call::before(8),
            Call::building(8),
            Call::after(8, 1),
            Call::before(6),
            Call::after(6, 1),
        ],
    )
}

// A new table is told of three times, a known one twice, each time with the worker and the place that the caller gave.
#[test]
fn insert_tells_its_gate(rt: HostRuntime) -> Result<(), Fail> {
    let alloc = rt.alloc();
    let gate = Recorder::new(alloc, 9)?;
    let (registry, mut pass) = VtBtree::<5>::new(alloc)?;
    assert!(rt; gets_number(&rt, alloc, &registry, &mut pass, &gate, (5, 4, 0)));
    assert!(rt; gets_number(&rt, alloc, &registry, &mut pass, &gate, (3, 8, 1)));
    assert!(rt; gets_number(&rt, alloc, &registry, &mut pass, &gate, (3, 6, 1)));
    assert!(rt; heard_two_and_one(&gate));
    Ok(())
}

// The number at the place, and one that no table of these tests has where there is none.
fn number_at(numbers: &[u64], place: usize) -> u64 {
    match numbers.get(place) {
        Some(number) => *number,
        None => 99,
    }
}

// Whether a worker told of a new table at this place and of one at the next, and of their numbers.
fn heard_pair(gate: &Recorder, worker: u64, place: u64, number: u64, next: u64) -> bool {
    let after = place.saturating_add(1);
    gate.heard(
        worker,
        &[
            Call::before(place),
            Call::building(place),
            Call::after(place, number),
            Call::before(after),
            Call::building(after),
            Call::after(after, next),
        ],
    )
}

// Whether worker 2 told of the table at the place 4.
fn heard_last(gate: &Recorder, number: u64) -> bool {
    gate.heard(
        2,
        &[Call::before(4), Call::building(4), Call::after(4, number)],
    )
}

// Of five tables two are of each of the first two workers, and one is of the third.
#[test]
fn workers_tell_their_gate(rt: HostRuntime) -> Result<(), Fail> {
    let alloc = rt.alloc();
    let tables = tables_of(alloc, &[5, 3, 9, 1, 7])?;
    let gate = Recorder::new(alloc, 60)?;
    let (mut registry, mut pass) = VtBtree::<5>::new(alloc)?;
    let interned = intern_all(&rt, alloc, &mut registry, &mut pass, &tables, 3, &gate)?;
    let numbers = interned.numbers();
    assert!(rt; heard_pair(&gate, 0, 0, number_at(numbers, 0), number_at(numbers, 1)));
    assert!(rt; heard_pair(&gate, 1, 2, number_at(numbers, 2), number_at(numbers, 3)));
    assert!(rt; heard_last(&gate, number_at(numbers, 4)));
    Ok(())
}

// Whether worker 0 told of a new table and then of the same one again.
fn heard_twice(gate: &Recorder) -> bool {
    gate.heard(
        0,
        &[
            Call::before(0),
            Call::building(0),
            Call::after(0, 0),
            Call::before(1),
            Call::after(1, 0),
        ],
    )
}

// A worker tells of a table that it had before by the number alone.
#[test]
fn repeats_tell_their_gate(rt: HostRuntime) -> Result<(), Fail> {
    let alloc = rt.alloc();
    let tables = tables_of(alloc, &[5, 5])?;
    let gate = Recorder::new(alloc, 9)?;
    let (mut registry, mut pass) = VtBtree::<5>::new(alloc)?;
    let _ = intern_all(&rt, alloc, &mut registry, &mut pass, &tables, 1, &gate)?;
    assert!(rt; heard_twice(&gate));
    Ok(())
}
