//! How often a run calls its devices: no read and no write is tried again, wherever it fails.

use stabby_intern::{Failed, MemorySink, MemorySource, Sink, Source, Status, run};
use stabby_registry::{OpenGate, VtBtree};
use std::alloc::Global;
use std::marker::Sync;
use std::sync::Wait;
use std::test::Fail;
use std::thread::Threads;

// A device, and how often it was called.
#[derive(Drop)]
struct Counted<D: Drop> {
    device: D,
    calls: u64,
}

impl<S: Source + Drop> Source for Counted<S> {
    ghost left = { λ s. S.left s.device };

    ghost faults = { λ s. S.faults s.device };

    fn read(&mut self, buf: &mut [u8]) -> Result<usize, Failed> {
        self.calls = self.calls.saturating_add(1);
        self.device.read(buf)
    }
}

impl<K: Sink + Drop> Sink for Counted<K> {
    ghost taken = { λ s. K.taken s.device };

    ghost faults = { λ s. K.faults s.device };

    fn write(&mut self, bytes: &[u8]) -> Result<usize, Failed> {
        self.calls = self.calls.saturating_add(1);
        self.device.write(bytes)
    }
}

// How a run ended, and how often it read and wrote.
#[derive(Clone, Copy)]
struct Count {
    status: Status,
    reads: u64,
    writes: u64,
}

// Ranks the tables of two lines, read and written in three calls each, of which these fail.
fn count_calls<H: Threads + Wait + Sync>(
    rt: &H,
    alloc: Global,
    failing_read: u64,
    failing_write: u64,
) -> Result<Count, Fail> {
    let mut words = Vec::new(alloc);
    for word in ["ranks", "1"] {
        let word = String::from_str(alloc, word)?;
        words.push(word)?;
    }
    let bytes = b"1\n2\n".to_vec(alloc)?;
    let read_fails = vec![in alloc; failing_read; 1]?;
    let write_fails = vec![in alloc; failing_write; 1]?;
    let mut source = Counted {
        device: MemorySource::new(bytes, 2, read_fails),
        calls: 0,
    };
    let sink = MemorySink::new(alloc, 100, 3, write_fails)?;
    let mut out = Counted {
        device: sink,
        calls: 0,
    };
    let mut log = MemorySink::new(alloc, 100, 7, Vec::new(alloc))?;
    let (mut registry, mut pass) = VtBtree::<5>::new(alloc)?;
    let status = run(
        rt,
        alloc,
        &words,
        &mut source,
        &mut out,
        &mut log,
        &mut registry,
        &mut pass,
        &OpenGate,
    );
    Ok(Count {
        status,
        reads: source.calls,
        writes: out.calls,
    })
}

// A number that no call has.
const NO_CALL: u64 = 99;

// The end of the input is read once, and each part of the report is written once.
#[test]
fn each_call_is_made_once(rt: HostRuntime) -> Result<(), Fail> {
    let count = count_calls(&rt, rt.alloc(), NO_CALL, NO_CALL)?;
    assert!(rt; count.status == Status::Ok && count.reads == 3 && count.writes == 3);
    Ok(())
}

#[test]
fn failed_read_is_the_last(rt: HostRuntime) -> Result<(), Fail> {
    for (failing, calls) in [(0u64, 1u64), (1, 2), (2, 3)] {
        let count = count_calls(&rt, rt.alloc(), failing, NO_CALL)?;
        assert!(rt; count.status == Status::ReadFault && count.reads == calls && count.writes == 0);
    }
    Ok(())
}

#[test]
fn failed_write_is_the_last(rt: HostRuntime) -> Result<(), Fail> {
    for (failing, calls) in [(0u64, 1u64), (1, 2), (2, 3)] {
        let count = count_calls(&rt, rt.alloc(), NO_CALL, failing)?;
        assert!(rt;
            count.status == Status::WriteFault && count.reads == 3 && count.writes == calls
        );
    }
    Ok(())
}
