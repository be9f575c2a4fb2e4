//! What commands print, which lines are none, and each status but `Memory` and `TooLong`, through `run` over devices in
//! memory.
use crate::program::run;
use crate::status::Status;
use stabby_intern::{MemorySink, MemorySource};
use std::alloc::Global;
use std::sync::Wait;
use std::test::Fail;

// Two versions: the first row goes to another group, the second row leaves.
const TWO: &str = "put 1 10 a\nput 2 10 b\ncommit\nput 1 11 a\ndelete 2\nrows\ncommit\n";

const ASKED: &str = "rows\ngroup 10\ngroups\ngroup 10 1\ngroups 1\nrows 0\nrows 3";

const ANSWERS: &str =
    "stamp 1\n1 10 a\n2 10 b\nstamp 2\n1 11 a\n11 1\n1 10 a\n2 10 b\n10 2\nnot kept 0\nnot kept 3\n";

// How a run ended, and whether the sink and the log took these texts.
#[derive(Drop)]
struct Ended {
    status: Status,
    took: bool,
    told: bool,
}

fn words_of(alloc: Global, word: &str) -> Option<Vec<String>> {
    let mut words = Vec::new(alloc);
    let Ok(word) = String::from_str(alloc, word) else {
        return None;
    };
    match words.push(word) {
        Ok(()) => Some(words),
        Err(_) => None,
    }
}

fn sink_of(alloc: Global, room: usize) -> Option<MemorySink> {
    match MemorySink::new(alloc, room, 7, Vec::new(alloc)) {
        Ok(sink) => Some(sink),
        Err(_) => None,
    }
}

// The first text and then the second.
fn source_of(alloc: Global, first: &[u8], second: &[u8], fails: Vec<u64>) -> Option<MemorySource> {
    let mut bytes = Vec::new(alloc);
    if bytes.extend_from_slice(first).is_err() || bytes.extend_from_slice(second).is_err() {
        return None;
    }
    Some(MemorySource::new(bytes, 5, fails))
}

fn run_over<H: Wait>(
    rt: &H,
    alloc: Global,
    word: &str,
    mut source: MemorySource,
    room: usize,
    text: &str,
    line: &str,
) -> Option<Ended> {
    let words = words_of(alloc, word)?;
    let mut out = sink_of(alloc, room)?;
    let mut log = sink_of(alloc, 100)?;
    let status = run(rt, alloc, &words, &mut source, &mut out, &mut log);
    Some(Ended {
        status,
        took: out.taken() == text.as_bytes(),
        told: log.taken() == line.as_bytes(),
    })
}

// Whether a run that keeps two versions ends so over the two texts, prints the text and tells the line.
fn ends<H: Wait>(
    rt: &H,
    alloc: Global,
    first: &[u8],
    second: &[u8],
    status: Status,
    text: &str,
    line: &str,
) -> bool {
    let Some(source) = source_of(alloc, first, second, Vec::new(alloc)) else {
        return false;
    };
    match run_over(rt, alloc, "2", source, 1000, text, line) {
        Some(ended) => ended.status == status && ended.took && ended.told,
        None => false,
    }
}

#[test]
fn commands_are_obeyed(rt: HostRuntime) {
    let alloc = rt.alloc();
    let same = ends(
        &rt,
        alloc,
        TWO.as_bytes(),
        ASKED.as_bytes(),
        Status::Ok,
        ANSWERS,
        "",
    );
    assert!(rt; same);
}

// A row of this line, printed.
fn is_printed<H: Wait>(rt: &H, alloc: Global, line: &str, printed: &str) -> bool {
    ends(
        rt,
        alloc,
        line.as_bytes(),
        b"\ncommit\nrows\n",
        Status::Ok,
        printed,
        "",
    )
}

#[test]
fn texts_are_kept(rt: HostRuntime) {
    let alloc = rt.alloc();
    assert!(rt; is_printed(&rt, alloc, "put 1 2 ", "stamp 1\n1 2 \n"));
    assert!(rt; is_printed(&rt, alloc, "put 007 2  a  b ", "stamp 1\n7 2  a  b \n"));
    assert!(rt;
        is_printed(
            &rt,
            alloc,
            "put 18446744073709551615 0 é",
            "stamp 1\n18446744073709551615 0 é\n"
        )
    );
}

// Whether the line is no command: the second of the input, after a commit.
fn is_none<H: Wait>(rt: &H, alloc: Global, line: &[u8]) -> bool {
    let status = Status::BadLine { line: 2 };
    let (text, told) = ("stamp 1\n", "line 2: not a command\n");
    ends(rt, alloc, b"commit\n", line, status, text, told)
}

#[test]
fn no_commands(rt: HostRuntime) {
    let alloc = rt.alloc();
    assert!(rt; is_none(&rt, alloc, b"\nrows"));
    assert!(rt; is_none(&rt, alloc, b"PUT 1 2 a"));
    assert!(rt; is_none(&rt, alloc, b" put 1 2 a"));
    assert!(rt; is_none(&rt, alloc, b"put"));
    assert!(rt; is_none(&rt, alloc, b"put 1"));
    assert!(rt; is_none(&rt, alloc, b"put 1 2"));
    assert!(rt; is_none(&rt, alloc, b"put  1 2 a"));
    assert!(rt; is_none(&rt, alloc, b"put +1 2 a"));
    assert!(rt; is_none(&rt, alloc, b"put 1 x a"));
    assert!(rt; is_none(&rt, alloc, b"put 1 18446744073709551616 a"));
    assert!(rt; is_none(&rt, alloc, b"put 1 2 \xff"));
}

#[test]
fn no_short_commands(rt: HostRuntime) {
    let alloc = rt.alloc();
    assert!(rt; is_none(&rt, alloc, b"delete"));
    assert!(rt; is_none(&rt, alloc, b"delete "));
    assert!(rt; is_none(&rt, alloc, b"delete 1 "));
    assert!(rt; is_none(&rt, alloc, b"commit "));
    assert!(rt; is_none(&rt, alloc, b"commit 1"));
    assert!(rt; is_none(&rt, alloc, b"rows "));
    assert!(rt; is_none(&rt, alloc, b"rows 1 2"));
    assert!(rt; is_none(&rt, alloc, b"group"));
    assert!(rt; is_none(&rt, alloc, b"group 1 "));
    assert!(rt; is_none(&rt, alloc, b"group 1 2 3"));
    assert!(rt; is_none(&rt, alloc, b"groups x"));
}

fn is_refused<H: Wait>(rt: &H, alloc: Global, word: &str) -> bool {
    let Some(source) = source_of(alloc, TWO.as_bytes(), b"", Vec::new(alloc)) else {
        return false;
    };
    match run_over(rt, alloc, word, source, 1000, "", "usage: index_log KEEP\n") {
        Some(ended) => ended.status == Status::Usage && ended.took && ended.told,
        None => false,
    }
}

#[test]
fn words_are_refused(rt: HostRuntime) {
    let alloc = rt.alloc();
    assert!(rt; is_refused(&rt, alloc, ""));
    assert!(rt; is_refused(&rt, alloc, "0"));
    assert!(rt; is_refused(&rt, alloc, "1025"));
    assert!(rt; is_refused(&rt, alloc, "2 "));
}

fn with_faulty_source<H: Wait>(rt: &H, alloc: Global) -> Option<Ended> {
    let Ok(fails) = [1u64][..].to_vec(alloc) else {
        return None;
    };
    let source = source_of(alloc, TWO.as_bytes(), b"", fails)?;
    run_over(rt, alloc, "2", source, 1000, "", "read fault\n")
}

#[test]
fn failed_read(rt: HostRuntime) -> Result<(), Fail> {
    let Some(ended) = with_faulty_source(&rt, rt.alloc()) else {
        return Err("memory")?;
    };
    assert!(rt; ended.status == Status::ReadFault && ended.took && ended.told);
    Ok(())
}

// The sink has room for the first stamp, and the first bytes of what is printed next.
fn with_full_sink<H: Wait>(rt: &H, alloc: Global) -> Option<Ended> {
    let source = source_of(alloc, TWO.as_bytes(), b"", Vec::new(alloc))?;
    run_over(rt, alloc, "2", source, 12, "stamp 1\n1 10", "write fault\n")
}

#[test]
fn failed_write(rt: HostRuntime) -> Result<(), Fail> {
    let Some(ended) = with_full_sink(&rt, rt.alloc()) else {
        return Err("memory")?;
    };
    assert!(rt; ended.status == Status::WriteFault && ended.took && ended.told);
    Ok(())
}
