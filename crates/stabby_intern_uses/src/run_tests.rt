//! The worked rows, through `run` over devices in memory.

use crate::run_fresh;
use stabby_intern::{
    MemorySink, MemorySource, Sink, Source, Status, StderrSink, StdinSource, StdoutSink, SureSink,
    SureSource, tell,
};
use std::alloc::Global;
use std::marker::Sync;
use std::sync::Wait;
use std::test::Fail;
use std::thread::Threads;

const USAGE: &str = "usage: stabby_intern ranks W, numbers W, gen N D W\n";

// How a run ended, and how many tables its registry holds.
#[derive(Drop)]
struct Ended {
    status: Status,
    seen: u64,
}

// Runs the command over a source, a sink and a log, and a fresh registry.
fn run_over<S: Source, K: Sink, E: Sink, H: Threads + Wait + Sync>(
    rt: &H,
    alloc: Global,
    command: &[&str],
    source: &mut S,
    out: &mut K,
    log: &mut E,
) -> Result<Ended, Fail> {
    let mut words = Vec::new(alloc);
    for word in command {
        let word = String::from_str(alloc, *word)?;
        words.push(word)?;
    }
    let (status, seen) = run_fresh(rt, alloc, &words, source, out, log)?;
    Ok(Ended { status, seen })
}

fn source_of(alloc: Global, input: &str) -> Result<MemorySource, Fail> {
    let bytes = input.as_bytes().to_vec(alloc)?;
    Ok(MemorySource::new(bytes, 2, Vec::new(alloc)))
}

// What a run is to leave: its status, the output, the line in the log, and how many tables its registry holds.
#[derive(Clone, Copy)]
struct Wanted {
    status: Status,
    output: &'static str,
    line: &'static str,
    seen: u64,
}

impl Wanted {
    fn report(output: &'static str, seen: u64) -> Wanted {
        Wanted {
            status: Status::Ok,
            output,
            line: "",
            seen,
        }
    }

    fn refusal(status: Status, line: &'static str) -> Wanted {
        Wanted {
            status,
            output: "",
            line,
            seen: 0,
        }
    }
}

// Whether the command over the input leaves this.
fn leaves<H: Threads + Wait + Sync>(
    rt: &H,
    alloc: Global,
    command: &[&str],
    input: &str,
    wanted: Wanted,
) -> Result<bool, Fail> {
    let mut source = source_of(alloc, input)?;
    let mut out = MemorySink::new(alloc, 1000, 3, Vec::new(alloc))?;
    let mut log = MemorySink::new(alloc, 100, 7, Vec::new(alloc))?;
    let ended = run_over(rt, alloc, command, &mut source, &mut out, &mut log)?;
    Ok(
        ended.status == wanted.status
            && out.taken() == wanted.output.as_bytes()
            && log.taken() == wanted.line.as_bytes()
            && ended.seen == wanted.seen,
    )
}

#[test]
fn empty_input(rt: HostRuntime) -> Result<(), Fail> {
    let nothing = Wanted::report("", 0);
    assert!(rt; leaves(&rt, rt.alloc(), &["ranks", "1"], "", nothing)?);
    assert!(rt; leaves(&rt, rt.alloc(), &["numbers", "1"], "", nothing)?);
    Ok(())
}

#[test]
fn repeat_gets_one_rank(rt: HostRuntime) -> Result<(), Fail> {
    let report = Wanted::report("0\n1\n0\n1 2\n3\n", 2);
    assert!(rt; leaves(&rt, rt.alloc(), &["ranks", "2"], "1 2\n3\n1 2\n", report)?);
    assert!(rt; leaves(&rt, rt.alloc(), &["ranks", "1"], "1 2\n3\n1 2", report)?);
    Ok(())
}

#[test]
fn empty_tables_many_workers(rt: HostRuntime) -> Result<(), Fail> {
    let report = Wanted::report("0\n0\n1\n\n5\n", 2);
    assert!(rt; leaves(&rt, rt.alloc(), &["ranks", "64"], "\n\n5", report)?);
    Ok(())
}

#[test]
fn numbers_in_order_of_insertion(rt: HostRuntime) -> Result<(), Fail> {
    let report = Wanted::report("0\n1\n0\n5\n3\n", 2);
    assert!(rt; leaves(&rt, rt.alloc(), &["numbers", "1"], "5\n3\n5\n", report)?);
    let report = Wanted::report("0\n1\n2\n0\n1 0\n1\n\n", 3);
    assert!(rt; leaves(&rt, rt.alloc(), &["numbers", "1"], "1 0\n1\n\n1 0", report)?);
    Ok(())
}

#[test]
fn greatest_word_and_leading_zeros(rt: HostRuntime) -> Result<(), Fail> {
    let input = "18446744073709551615\n00018446744073709551615";
    let report = Wanted::report("0\n0\n18446744073709551615\n", 1);
    assert!(rt; leaves(&rt, rt.alloc(), &["ranks", "1"], input, report)?);
    let report = Wanted::report("0\n7\n", 1);
    assert!(rt; leaves(&rt, rt.alloc(), &["ranks", "0001"], "007\n", report)?);
    Ok(())
}

#[test]
fn word_past_the_limit(rt: HostRuntime) -> Result<(), Fail> {
    let refusal = Wanted::refusal(Status::BadWord { line: 2 }, "line 2: not a table\n");
    let input = "1\n18446744073709551616\n";
    assert!(rt; leaves(&rt, rt.alloc(), &["ranks", "1"], input, refusal)?);
    assert!(rt; leaves(&rt, rt.alloc(), &["numbers", "1"], input, refusal)?);
    Ok(())
}

#[test]
fn malformed_lines(rt: HostRuntime) -> Result<(), Fail> {
    let refusal = Wanted::refusal(Status::BadWord { line: 1 }, "line 1: not a table\n");
    for input in ["1 2 \n", " 1\n", "1  2\n", "1\r\n"] {
        assert!(rt; leaves(&rt, rt.alloc(), &["ranks", "1"], input, refusal)?);
    }
    Ok(())
}

#[test]
fn prefix_before_longer(rt: HostRuntime) -> Result<(), Fail> {
    let report = Wanted::report("2\n3\n1\n0\n\n0 9\n1\n1 0\n", 4);
    assert!(rt; leaves(&rt, rt.alloc(), &["ranks", "2"], "1\n1 0\n0 9\n\n", report)?);
    Ok(())
}

// Whether a run over so many zeros and no newline ends so, with this output and this line in the log.
fn zeros_leave<H: Threads + Wait + Sync>(
    rt: &H,
    alloc: Global,
    zeros: usize,
    wanted: Wanted,
) -> Result<bool, Fail> {
    let bytes = vec![in alloc; b'0'; zeros]?;
    let mut source = SureSource::new(bytes);
    let mut out = MemorySink::new(alloc, 1000, 3, Vec::new(alloc))?;
    let mut log = MemorySink::new(alloc, 100, 7, Vec::new(alloc))?;
    let ended = run_over(rt, alloc, &["ranks", "1"], &mut source, &mut out, &mut log)?;
    Ok(
        ended.status == wanted.status
            && out.taken() == wanted.output.as_bytes()
            && log.taken() == wanted.line.as_bytes()
            && ended.seen == wanted.seen,
    )
}

#[test]
fn largest_input(rt: HostRuntime) -> Result<(), Fail> {
    let report = Wanted::report("0\n0\n", 1);
    assert!(rt; zeros_leave(&rt, rt.alloc(), 16_777_216, report)?);
    let refusal = Wanted::refusal(Status::TooLong, "input longer than 16777216 bytes\n");
    assert!(rt; zeros_leave(&rt, rt.alloc(), 16_777_217, refusal)?);
    Ok(())
}

// Whether a run ends at the second read, which fails, with nothing written.
fn ends_at_a_read<H: Threads + Wait + Sync>(rt: &H, alloc: Global) -> Result<bool, Fail> {
    let mut fails = Vec::new(alloc);
    fails.push(1)?;
    let bytes = b"1\n".to_vec(alloc)?;
    let mut source = MemorySource::new(bytes, 2, fails);
    let mut out = MemorySink::new(alloc, 1000, 3, Vec::new(alloc))?;
    let mut log = MemorySink::new(alloc, 100, 7, Vec::new(alloc))?;
    let ended = run_over(rt, alloc, &["ranks", "1"], &mut source, &mut out, &mut log)?;
    Ok(
        ended.status == Status::ReadFault
            && ended.seen == 0
            && out.taken().is_empty()
            && log.taken() == "read fault\n".as_bytes(),
    )
}

// Whether a run of two distinct tables ends at a write into a sink that has room for three bytes, which took these.
fn ends_at_a_write<H: Threads + Wait + Sync>(
    rt: &H,
    alloc: Global,
    command: &[&str],
    taken: &str,
) -> Result<bool, Fail> {
    let mut source = source_of(alloc, "1 2\n3\n1 2\n")?;
    let mut out = MemorySink::new(alloc, 3, 3, Vec::new(alloc))?;
    let mut log = MemorySink::new(alloc, 100, 7, Vec::new(alloc))?;
    let ended = run_over(rt, alloc, command, &mut source, &mut out, &mut log)?;
    Ok(
        ended.status == Status::WriteFault
            && ended.seen == 2
            && out.taken() == taken.as_bytes()
            && log.taken() == "write fault\n".as_bytes(),
    )
}

#[test]
fn device_faults_and_usage(rt: HostRuntime) -> Result<(), Fail> {
    let alloc = rt.alloc();
    assert!(rt; ends_at_a_read(&rt, alloc)?);
    assert!(rt; ends_at_a_write(&rt, alloc, &["ranks", "2"], "0\n1")?);
    assert!(rt; ends_at_a_write(&rt, alloc, &["gen", "3", "2", "2"], "tab")?);
    let refusal = Wanted::refusal(Status::Usage, USAGE);
    assert!(rt; leaves(&rt, alloc, &["ranks", "0"], "1\n", refusal)?);
    assert!(rt; leaves(&rt, alloc, &["ranks", "65"], "1\n", refusal)?);
    assert!(rt; leaves(&rt, alloc, &["ranks"], "1\n", refusal)?);
    assert!(rt; leaves(&rt, alloc, &["rank", "1"], "1\n", refusal)?);
    assert!(rt; leaves(&rt, alloc, &["numbers", "1", "1"], "1\n", refusal)?);
    assert!(rt; leaves(&rt, alloc, &["gen", "1", "7", "1"], "1\n", refusal)?);
    assert!(rt; leaves(&rt, alloc, &["--help"], "1\n", refusal)?);
    Ok(())
}

// A number of tables, a divisor or a number of workers out of its range, and no digits.
#[test]
fn generation_out_of_range(rt: HostRuntime) -> Result<(), Fail> {
    let refusal = Wanted::refusal(Status::Usage, USAGE);
    for [tables, divisor, workers] in [
        ["0", "1", "1"],
        ["1000001", "1", "1"],
        ["1", "0", "1"],
        ["1", "1000001", "1"],
        ["1", "999999", "1"],
        ["1", "1", "0"],
        ["1", "1", "65"],
        ["1", "", "1"],
    ] {
        let words = ["gen", tables, divisor, workers];
        assert!(rt; leaves(&rt, rt.alloc(), &words, "1\n", refusal)?);
    }
    Ok(())
}

#[test]
fn generated_report(rt: HostRuntime) -> Result<(), Fail> {
    let few = Wanted::report("tables 3\ndistinct 2\nranksum 1\n", 2);
    assert!(rt; leaves(&rt, rt.alloc(), &["gen", "3", "2", "1"], "1\n", few)?);
    assert!(rt; leaves(&rt, rt.alloc(), &["gen", "0003", "02", "08"], "1\n", few)?);
    Ok(())
}

// Each of the 50,000 distinct tables makes a version, which copies one path alone.
#[test]
fn generated_report_of_many_tables(rt: HostRuntime) -> Result<(), Fail> {
    let many = Wanted::report(
        "tables 200000\ndistinct 50000\nranksum 4999900000\n",
        50_000,
    );
    for workers in ["1", "8"] {
        let words = ["gen", "200000", "50000", workers];
        assert!(rt; leaves(&rt, rt.alloc(), &words, "1\n", many)?);
    }
    Ok(())
}

// A log that fails takes the first bytes of the line, and the run ends as it does with another.
#[test]
fn fault_of_the_log(rt: HostRuntime) -> Result<(), Fail> {
    let alloc = rt.alloc();
    let mut source = source_of(alloc, "1\n1 \n")?;
    let mut out = SureSink::new(alloc, 100)?;
    let mut log = MemorySink::new(alloc, 6, 7, Vec::new(alloc))?;
    let ended = run_over(&rt, alloc, &["ranks", "1"], &mut source, &mut out, &mut log)?;
    assert!(rt; ended.status == Status::BadWord { line: 2 } && log.taken() == "line 2".as_bytes());
    Ok(())
}

// Whether a status has this exit code and this line.
fn tells(alloc: Global, status: Status, code: u8, line: &str) -> Result<bool, Fail> {
    let mut log = MemorySink::new(alloc, 100, 7, Vec::new(alloc))?;
    tell(&mut log, status);
    Ok(status.code() == code && log.taken() == line.as_bytes())
}

#[test]
fn codes_and_lines(rt: HostRuntime) -> Result<(), Fail> {
    let alloc = rt.alloc();
    let last = Status::BadWord { line: u64::MAX };
    assert!(rt; tells(alloc, Status::Ok, 0, "")?);
    assert!(rt; tells(alloc, Status::Memory, 1, "out of memory\n")?);
    assert!(rt; tells(alloc, Status::Usage, 2, USAGE)?);
    assert!(rt; tells(alloc, last, 3, "line 18446744073709551615: not a table\n")?);
    assert!(rt;
        tells(
            alloc,
            Status::TooLong,
            4,
            "input longer than 16777216 bytes\n"
        )?
    );
    assert!(rt; tells(alloc, Status::ReadFault, 5, "read fault\n")?);
    assert!(rt; tells(alloc, Status::WriteFault, 6, "write fault\n")?);
    Ok(())
}

#[test]
fn sure_devices(rt: HostRuntime) -> Result<(), Fail> {
    let alloc = rt.alloc();
    let mut source = SureSource::new(b"7\n7\n".to_vec(alloc)?);
    let mut out = SureSink::new(alloc, 5)?;
    let mut log = SureSink::new(alloc, 5)?;
    let ended = run_over(&rt, alloc, &["ranks", "1"], &mut source, &mut out, &mut log)?;
    assert!(rt;
        ended.status == Status::Ok && out.kept() == "0\n0\n7".as_bytes() && log.kept().is_empty()
    );
    Ok(())
}

// The sinks: no room is needed to make one.
#[test]
fn small_cells_and_sinks(rt: HostRuntime) -> Result<(), Fail> {
    let alloc = rt.alloc();
    assert!(rt; SureSink::new(alloc, 0).is_ok());
    assert!(rt; MemorySink::new(alloc, 0, 1, Vec::new(alloc)).is_ok());
    Ok(())
}

// Standard input is empty where tests run, and what is written there is not looked at.
#[test]
fn standard_streams(rt: HostRuntime) -> Result<(), Fail> {
    let mut buf = [0u8; 8];
    assert!(rt; StdinSource::new(rt.stdin()).read(&mut buf).is_ok());
    assert!(rt; StdoutSink::new(rt.stdout()).write(b"\n") == Ok(1));
    assert!(rt; StderrSink::new(rt.stderr()).write(b"\n") == Ok(1));
    Ok(())
}
