//! Each status, and the text of a message whose names want escapes, through `run` over devices in memory.
use crate::program::run;
use crate::status::{Cause, Status};
use stabby_intern::{MemorySink, MemorySource};
use std::alloc::Global;
use std::test::Fail;

// `P` with 1 and 258: its head, and then `a`, three bytes of padding, and `b`.
const MESSAGE: [u8; 29] = [
    0x53, 0x52, 0x31, 0x0a, 0x01, 0x50, 0x64, 0, 0, 0, 0, 0, 0, 0, 0x02, 0x01, 0x61, 0x01, 0x01,
    0x62, 0x03, 0x01, 0, 0, 0, 0x02, 0x01, 0, 0,
];

const TEXT: &str = "\"P\" id 100 size 8 align 4\n  \"a\" u8 at 0 = 1\n  \"b\" u32 at 4 = 258\n";

// A record named `"`, a backslash and a newline, whose field is named NUL, tab, carriage return, 1f, 7f and é.
const ODD: [u8; 27] = [
    0x53, 0x52, 0x31, 0x0a, 0x03, 0x22, 0x5c, 0x0a, 0x07, 0, 0, 0, 0, 0, 0, 0, 0x01, 0x07, 0x00,
    0x09, 0x0d, 0x1f, 0x7f, 0xc3, 0xa9, 0x01, 0x2a,
];

const ODD_TEXT: &str =
    "\"\\\"\\\\\\n\" id 7 size 1 align 1\n  \"\\0\\t\\r\\u{1f}\\u{7f}é\" u8 at 0 = 42\n";

// How a run ended, and whether the sink and the log took these texts.
#[derive(Drop)]
struct Ended {
    status: Status,
    took: bool,
    told: bool,
}

fn words_of(alloc: Global, word: &str) -> Option<Vec<String>> {
    let mut words = Vec::new(alloc);
    if word.is_empty() {
        return Some(words);
    }
    let Ok(word) = String::from_str(alloc, word) else {
        return None;
    };
    match words.push(word) {
        Ok(()) => Some(words),
        Err(_) => None,
    }
}

fn sink_of(alloc: Global, room: usize) -> Option<MemorySink> {
    match MemorySink::new(alloc, room, 7, Vec::new(alloc)) {
        Ok(sink) => Some(sink),
        Err(_) => None,
    }
}

fn run_over(
    alloc: Global,
    word: &str,
    mut source: MemorySource,
    room: usize,
    text: &str,
    line: &str,
) -> Option<Ended> {
    let words = words_of(alloc, word)?;
    let mut out = sink_of(alloc, room)?;
    let mut log = sink_of(alloc, 100)?;
    let status = run(alloc, &words, &mut source, &mut out, &mut log);
    Some(Ended {
        status,
        took: out.taken() == text.as_bytes(),
        told: log.taken() == line.as_bytes(),
    })
}

fn source_of(alloc: Global, bytes: &[u8]) -> Option<MemorySource> {
    match bytes.to_vec(alloc) {
        Ok(bytes) => Some(MemorySource::new(bytes, 5, Vec::new(alloc))),
        Err(_) => None,
    }
}

// Whether a run over the bytes ends so, prints the text and tells the line.
fn ends(alloc: Global, bytes: &[u8], status: Status, text: &str, line: &str) -> bool {
    let Some(source) = source_of(alloc, bytes) else {
        return false;
    };
    match run_over(alloc, "", source, 1000, text, line) {
        Some(ended) => ended.status == status && ended.took && ended.told,
        None => false,
    }
}

fn refused(alloc: Global, bytes: &[u8], cause: Cause, line: &str) -> bool {
    ends(alloc, bytes, Status::NoMessage { cause }, "", line)
}

#[test]
fn messages_are_printed(rt: HostRuntime) {
    assert!(rt; ends(rt.alloc(), &MESSAGE[..], Status::Ok, TEXT, ""));
    assert!(rt; ends(rt.alloc(), &ODD[..], Status::Ok, ODD_TEXT, ""));
}

#[test]
fn no_records(rt: HostRuntime) {
    assert!(rt; refused(rt.alloc(), &[], Cause::NotRecord, "not a record\n"));
    assert!(rt;
        refused(
            rt.alloc(),
            &MESSAGE[..20],
            Cause::NotRecord,
            "not a record\n"
        )
    );
}

#[test]
fn cut_body(rt: HostRuntime) {
    let cause = Cause::Truncated { at: 28 };
    assert!(rt; refused(rt.alloc(), &MESSAGE[..28], cause, "truncated at 28\n"));
}

#[test]
fn filled_padding(rt: HostRuntime) {
    let mut bytes = MESSAGE;
    bytes[22] = 1;
    let cause = Cause::Padding { at: 22 };
    assert!(rt; refused(rt.alloc(), &bytes[..], cause, "padding at 22\n"));
}

#[test]
fn one_byte_more(rt: HostRuntime) {
    let mut bytes = [0u8; 30];
    bytes[..29].copy_from_slice(&MESSAGE);
    let cause = Cause::Trailing { at: 29 };
    assert!(rt; refused(rt.alloc(), &bytes[..], cause, "trailing byte at 29\n"));
}

fn with_words(alloc: Global) -> Option<Ended> {
    let source = source_of(alloc, &MESSAGE[..])?;
    run_over(alloc, "x", source, 1000, "", "usage: record_show\n")
}

#[test]
fn words_are_refused(rt: HostRuntime) -> Result<(), Fail> {
    let Some(ended) = with_words(rt.alloc()) else {
        return Err("memory")?;
    };
    assert!(rt; ended.status == Status::Usage && ended.took && ended.told);
    Ok(())
}

fn with_faulty_source(alloc: Global) -> Option<Ended> {
    let (Ok(bytes), Ok(fails)) = (MESSAGE[..].to_vec(alloc), [1u64][..].to_vec(alloc)) else {
        return None;
    };
    let source = MemorySource::new(bytes, 5, fails);
    run_over(alloc, "", source, 1000, "", "read fault\n")
}

#[test]
fn failed_read(rt: HostRuntime) -> Result<(), Fail> {
    let Some(ended) = with_faulty_source(rt.alloc()) else {
        return Err("memory")?;
    };
    assert!(rt; ended.status == Status::ReadFault && ended.took && ended.told);
    Ok(())
}

// The sink has room for the first line alone.
fn with_full_sink(alloc: Global) -> Option<Ended> {
    let source = source_of(alloc, &MESSAGE[..])?;
    run_over(
        alloc,
        "",
        source,
        26,
        "\"P\" id 100 size 8 align 4\n",
        "write fault\n",
    )
}

#[test]
fn failed_write(rt: HostRuntime) -> Result<(), Fail> {
    let Some(ended) = with_full_sink(rt.alloc()) else {
        return Err("memory")?;
    };
    assert!(rt; ended.status == Status::WriteFault && ended.took && ended.told);
    Ok(())
}

fn with_long_input(alloc: Global) -> Option<Ended> {
    let Ok(bytes) = vec![in alloc; 0u8; 16_777_217] else {
        return None;
    };
    let source = MemorySource::new(bytes, 1_000_000, Vec::new(alloc));
    run_over(
        alloc,
        "",
        source,
        1000,
        "",
        "input longer than 16777216 bytes\n",
    )
}

#[test]
fn input_too_long(rt: HostRuntime) -> Result<(), Fail> {
    let Some(ended) = with_long_input(rt.alloc()) else {
        return Err("memory")?;
    };
    assert!(rt; ended.status == Status::TooLong && ended.took && ended.told);
    Ok(())
}
