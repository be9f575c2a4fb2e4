//! Devices that fail at each of their calls in turn, and lists that are all alike.

use crate::run_fresh;
use stabby_intern::{MemorySink, MemorySource, Status};
use stabby_registry::{OpenGate, VtBtree, WordTable, intern_all};
use std::alloc::Global;
use std::marker::Sync;
use std::sync::Wait;
use std::test::Fail;
use std::thread::Threads;

// A number that no call has.
const NO_CALL: u64 = 99;

// A run of `ranks`: how many workers, the input, which read and which write fails, and the room of the log. Devices move
// one byte a call, and the output has room for 12.
#[derive(Clone, Copy)]
struct Hostile {
    workers: &'static str,
    input: &'static str,
    failing_read: u64,
    failing_write: u64,
    room_of_log: usize,
}

// What a run is to leave: its status, the output, and how many tables its registry holds.
#[derive(Clone, Copy)]
struct Left<'a> {
    status: Status,
    output: &'a [u8],
    seen: u64,
}

fn leaves<H: Threads + Wait + Sync>(
    rt: &H,
    alloc: Global,
    hostile: Hostile,
    left: Left,
) -> Result<bool, Fail> {
    let mut words = Vec::new(alloc);
    for word in ["ranks", hostile.workers] {
        let word = String::from_str(alloc, word)?;
        words.push(word)?;
    }
    let bytes = hostile.input.as_bytes().to_vec(alloc)?;
    let read_fails = vec![in alloc; hostile.failing_read; 1]?;
    let write_fails = vec![in alloc; hostile.failing_write; 1]?;
    let mut source = MemorySource::new(bytes, 1, read_fails);
    let mut out = MemorySink::new(alloc, 12, 1, write_fails)?;
    let mut log = MemorySink::new(alloc, hostile.room_of_log, 1, Vec::new(alloc)).map_err(
        |_| "memory",
    )?;
    let (status, seen) = run_fresh(rt, alloc, &words, &mut source, &mut out, &mut log).map_err(
        |_| "memory",
    )?;
    Ok(status == left.status && out.taken() == left.output && seen == left.seen)
}

#[test]
fn each_read_fails_in_turn(rt: HostRuntime) -> Result<(), Fail> {
    let left = Left {
        status: Status::ReadFault,
        output: b"",
        seen: 0,
    };
    for failing in 0..5u64 {
        let hostile = Hostile {
            workers: "1",
            input: "1\n2\n",
            failing_read: failing,
            failing_write: NO_CALL,
            room_of_log: 100,
        };
        assert!(rt; leaves(&rt, rt.alloc(), hostile, left)?);
    }
    Ok(())
}

// The sink has room for the report and no more, and takes the bytes in front of the write that fails.
#[test]
fn each_write_fails_in_turn(rt: HostRuntime) -> Result<(), Fail> {
    let report = b"0\n1\n0\n1 2\n3\n";
    for failing in 0..13u64 {
        let taken = failing as usize;
        let hostile = Hostile {
            workers: "2",
            input: "1 2\n3\n1 2\n",
            failing_read: NO_CALL,
            failing_write: failing,
            room_of_log: 100,
        };
        let left = Left {
            status: if taken < 12 {
                Status::WriteFault
            } else {
                Status::Ok
            },
            output: &report[..taken],
            seen: 2,
        };
        assert!(rt; leaves(&rt, rt.alloc(), hostile, left)?);
    }
    Ok(())
}

#[test]
fn log_without_room(rt: HostRuntime) -> Result<(), Fail> {
    let hostile = Hostile {
        workers: "1",
        input: "1\n18446744073709551616\n",
        failing_read: NO_CALL,
        failing_write: NO_CALL,
        room_of_log: 0,
    };
    let left = Left {
        status: Status::BadWord { line: 2 },
        output: b"",
        seen: 0,
    };
    assert!(rt; leaves(&rt, rt.alloc(), hostile, left)?);
    Ok(())
}

#[test]
fn ten_thousand_empty_tables(rt: HostRuntime) -> Result<(), Fail> {
    let alloc = rt.alloc();
    let mut tables = Vec::new(alloc);
    for _ in 0..10_000u64 {
        tables.push(WordTable::from_vec(Vec::new(alloc)))?;
    }
    let (mut registry, mut pass) = VtBtree::<5>::new(alloc)?;
    let interned = intern_all(&rt, alloc, &mut registry, &mut pass, &tables, 64, &OpenGate).map_err(
        |_| "memory",
    )?;
    assert_eq!(rt; interned.entries().len(), 1);
    assert_eq!(rt; interned.numbers().len(), 10_000);
    for number in interned.numbers() {
        assert_eq!(rt; *number, 0);
    }
    Ok(())
}
