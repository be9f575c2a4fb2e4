//! Each status but `Memory`, through `run` over devices in memory.
use crate::program::run;
use crate::status::Status;
use stabby_intern::{MemorySink, MemorySource};
use std::alloc::Global;
use std::marker::Sync;
use std::sync::Wait;
use std::test::Fail;
use std::thread::Threads;

const TEXT: &str = "To be, or not to be: be_ is_2 be\n";

const COUNTS: &str = "To 1\nbe 3\nbe_ 1\nis_2 1\nnot 1\nor 1\nto 1\n";

const PLACES: &str =
    "To 0-2\nbe 3-5 17-19 30-32\nbe_ 21-24\nis_2 25-29\nnot 10-13\nor 7-9\nto 14-16\n";

// How a run ended, and whether the sink and the log took these texts.
#[derive(Drop)]
struct Ended {
    status: Status,
    took: bool,
    told: bool,
}

fn words_of(alloc: Global, task: &str, workers: &str) -> Option<Vec<String>> {
    let mut words = Vec::new(alloc);
    for word in [task, workers] {
        let Ok(word) = String::from_str(alloc, word) else {
            return None;
        };
        if words.push(word).is_err() {
            return None;
        }
    }
    Some(words)
}

fn sink_of(alloc: Global, room: usize) -> Option<MemorySink> {
    match MemorySink::new(alloc, room, 7, Vec::new(alloc)) {
        Ok(sink) => Some(sink),
        Err(_) => None,
    }
}

// A run over the bytes, of which each read gives five, with room for so many bytes in the sink.
fn run_over<H: Threads + Wait + Sync>(
    rt: &H,
    alloc: Global,
    task: &str,
    workers: &str,
    bytes: &[u8],
    room: usize,
    text: &str,
    line: &str,
) -> Option<Ended> {
    let words = words_of(alloc, task, workers)?;
    let Ok(bytes) = bytes.to_vec(alloc) else {
        return None;
    };
    let mut source = MemorySource::new(bytes, 5, Vec::new(alloc));
    let mut out = sink_of(alloc, room)?;
    let mut log = sink_of(alloc, 100)?;
    let status = run(rt, alloc, &words, &mut source, &mut out, &mut log);
    Some(Ended {
        status,
        took: out.taken() == text.as_bytes(),
        told: log.taken() == line.as_bytes(),
    })
}

fn has_ended(ended: &Option<Ended>, status: Status) -> bool {
    match ended {
        Some(ended) => ended.status == status && ended.took && ended.told,
        None => false,
    }
}

#[test]
fn listed(rt: HostRuntime) {
    let alloc = rt.alloc();
    let counts = run_over(&rt, alloc, "words", "1", TEXT.as_bytes(), 1000, COUNTS, "");
    assert!(rt; has_ended(&counts, Status::Ok));
    let places = run_over(&rt, alloc, "spans", "3", TEXT.as_bytes(), 1000, PLACES, "");
    assert!(rt; has_ended(&places, Status::Ok));
}

#[test]
fn no_command(rt: HostRuntime) {
    let alloc = rt.alloc();
    let line = "usage: word_index words W, spans W\n";
    let none = run_over(&rt, alloc, "words", "65", TEXT.as_bytes(), 1000, "", line);
    assert!(rt; has_ended(&none, Status::Usage));
    let signed = run_over(&rt, alloc, "spans", "+1", TEXT.as_bytes(), 1000, "", line);
    assert!(rt; has_ended(&signed, Status::Usage));
}

#[test]
fn no_text(rt: HostRuntime) -> Result<(), Fail> {
    let alloc = rt.alloc();
    let line = "not UTF-8 at 4\n";
    let cut = run_over(&rt, alloc, "words", "1", b"ab\xc3\xa9\xc3", 1000, "", line);
    assert!(rt; has_ended(&cut, Status::NotUtf8 { at: 4 }));
    Ok(())
}

#[test]
fn no_room(rt: HostRuntime) {
    let alloc = rt.alloc();
    let ended = run_over(
        &rt,
        alloc,
        "words",
        "1",
        b"a b",
        5,
        "a 1\nb",
        "write fault\n",
    );
    assert!(rt; has_ended(&ended, Status::WriteFault));
}
