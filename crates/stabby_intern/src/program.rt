//! The top call.

ghost use Rattle.std.specs.Prelude.{◌≡◌, ◌≤◌, ℕ, List, [], length, map, string_bytes, IfOk, IsErr, Err};
ghost use Rattle.stabby_tables.specs.Lines.{IsBadLine};
ghost use Rattle.stabby_tables.specs.Lists.{AppendsSome};
ghost use Rattle.stabby_registry.specs.Passes.{IsWhole, IsPassOf, GoesOn, front_of};
ghost use Rattle.stabby_intern.specs.Messages.{line_of, IsTold};
ghost use Rattle.stabby_intern.specs.Commands.{IsCommand, IsGeneration, generation_limit};
ghost use Rattle.stabby_intern.specs.Generated.{generated_tables};
ghost use Rattle.stabby_intern.specs.Runs.{run_of, run_with, run_between, sink_of, Device, NoFault, Says, Comes, HasGeneration, input_limit, Reported, CountsReported, PartlyAdded};

use crate::command::{Command, Generation, Interning, parse_command};
use crate::device::{Sink, Source};
use crate::generate::generate_tables;
use crate::lines::{ParseFault, parse_tables};
use crate::messages::tell;
use crate::report::{make_count_report, make_report};
use crate::status::Status;
use crate::transfer::{ReadFault, read_to_end, write_all};
use stabby_layout::AllocationError;
use stabby_registry::{Gate, TreePass, VtBtree, intern_all};
use std::alloc::Global;
use std::marker::Sync;
use std::sync::Wait;
use std::thread::Threads;

/// Runs a command. `ranks W` and `numbers W`, with W from 1 to 64, read tables from `source`, one a line, and share
/// them among W workers, which insert into the registry. Then they write to `out`, one a line: `ranks` each table's rank,
/// and the distinct tables, strictly increasing; `numbers` each table's number, and the distinct tables in the order of
/// their numbers. `gen N D W`, with N and D from 1 to 1,000,000, D no multiple of 7, and W as before, reads nothing: its
/// tables are N, at place i the remainders of 7 * i and of i by D. They are shared and inserted likewise, and `out` gets
/// three lines: how many they are, how many of them are distinct, and the sum of their ranks.
///
/// `words` are the words after the program's name. The pass is whole and its front empty. The first fault of `source` or
/// `out` ends the run; no read and no write is tried again. Where the status isn't `Ok`, one line to `log` tells it, and
/// a fault of `log` changes nothing.
pub fn run<S: Source, K: Sink, E: Sink, G: Gate, H: Threads + Wait + Sync>(
    rt: &H,
    alloc: Global,
    words: &[String],
    source: &mut S,
    out: &mut K,
    log: &mut E,
    registry: &mut VtBtree<5>,
    pass: &mut TreePass<5>,
    gate: &G,
) -> Status
    requires whole { IsWhole pass.old }
    requires empty { front_of pass.old ≡ [] }
    requires belongs { IsPassOf registry.old pass.old }

    // What each status says of the run. That of `Ok` is the headline: the input spells tables, the report was taken, and the
    // registry holds exactly these tables.
    ensures says { Says
        (run_of S.Source K.Sink words.now source.old source.new out.old out.new (front_of pass.new)) result }

    // Where each status comes.
    ensures comes { Comes
        (run_of S.Source K.Sink words.now source.old source.new out.old out.new (front_of pass.new)) result }

    // Where the words are no command, nothing is read and nothing is written.
    ensures usage_leaves { result ≡ Status.Usage → (source.new ≡ source.old) × (out.new ≡ out.old) }

    // Generated tables need no input: nothing is read.
    ensures unread { HasGeneration (map string_bytes words.now) → source.new ≡ source.old }

    // The log took the status's line, or its first bytes where the log failed; a fault of the log changes nothing.
    ensures log_told { IsTold (line_of result) (E.taken log.old) (E.taken log.new)
        (E.faults log.old) (E.faults log.new) }
    ensures log_kept { result ≡ Status.Ok → log.new ≡ log.old }

    // The registry and the pass are the ones that were handed in, and the pass goes on from what it was.
    ensures whole { IsWhole pass.new }
    ensures belongs { IsPassOf registry.new pass.new }
    ensures same_registry { registry.new ≡ registry.old }
    ensures goes_on { GoesOn pass.old pass.new }
{
    let status = outcome(rt, alloc, words, source, out, registry, pass, gate);
    tell(log, status);
    status
}

// Runs a command, and tells nobody how it ended.
fn outcome<S: Source, K: Sink, G: Gate, H: Threads + Wait + Sync>(
    rt: &H,
    alloc: Global,
    words: &[String],
    source: &mut S,
    out: &mut K,
    registry: &mut VtBtree<5>,
    pass: &mut TreePass<5>,
    gate: &G,
) -> Status
    requires whole { IsWhole pass.old }
    requires empty { front_of pass.old ≡ [] }
    requires belongs { IsPassOf registry.old pass.old }

    ensures says { Says
        (run_of S.Source K.Sink words.now source.old source.new out.old out.new (front_of pass.new)) result }
    ensures comes { Comes
        (run_of S.Source K.Sink words.now source.old source.new out.old out.new (front_of pass.new)) result }
    ensures usage_leaves { result ≡ Status.Usage → (source.new ≡ source.old) × (out.new ≡ out.old) }
    ensures unread { HasGeneration (map string_bytes words.now) → source.new ≡ source.old }
    ensures whole { IsWhole pass.new }
    ensures belongs { IsPassOf registry.new pass.new }
    ensures same_registry { registry.new ≡ registry.old }
    ensures goes_on { GoesOn pass.old pass.new }
{
    match parse_command(words) {
        None => Status::Usage,
        Some(Command::Intern(asked)) => {
            intern_input(rt, alloc, asked, source, out, registry, pass, gate)
        }
        Some(Command::Generate(asked)) => {
            intern_generated(rt, alloc, asked, out, registry, pass, gate)
        }
    }
}

// Interns the tables of the input, and writes the report that is asked for.
fn intern_input<S: Source, K: Sink, G: Gate, H: Threads + Wait + Sync>(
    rt: &H,
    alloc: Global,
    asked: Interning,
    source: &mut S,
    out: &mut K,
    registry: &mut VtBtree<5>,
    pass: &mut TreePass<5>,
    gate: &G,
) -> Status
    requires workers { (1 ≤ asked.workers) × (asked.workers ≤ 64) }
    requires whole { IsWhole pass.old }
    requires empty { front_of pass.old ≡ [] }
    requires belongs { IsPassOf registry.old pass.old }
    ensures says { (words : List (List ℕ)) → IsCommand words asked.task asked.workers → Says
        (run_with S.Source K.Sink words source.old source.new out.old out.new (front_of pass.new)) result }
    ensures whole { IsWhole pass.new }
    ensures belongs { IsPassOf registry.new pass.new }
    ensures same_registry { registry.new ≡ registry.old }
    ensures goes_on { GoesOn pass.old pass.new }
{
    let text = match read_to_end(alloc, source) {
        Ok(text) => text,
        Err(ReadFault::Memory) => return Status::Memory,
        Err(ReadFault::Failed) => return Status::ReadFault,
        Err(ReadFault::TooLong) => return Status::TooLong,
    };
    let report = match report_of(rt, alloc, asked, &text, registry, pass, gate) {
        Ok(report) => report,
        Err(ParseFault::Memory) => return Status::Memory,
        Err(ParseFault::BadWord { line }) => return Status::BadWord { line },
    };
    match write_all(out, &report) {
        Ok(()) => Status::Ok,
        Err(_) => Status::WriteFault,
    }
}

// Interns generated tables, and writes their counts.
fn intern_generated<K: Sink, G: Gate, H: Threads + Wait + Sync>(
    rt: &H,
    alloc: Global,
    asked: Generation,
    out: &mut K,
    registry: &mut VtBtree<5>,
    pass: &mut TreePass<5>,
    gate: &G,
) -> Status
    requires workers { (1 ≤ asked.workers) × (asked.workers ≤ 64) }
    requires few { asked.tables ≤ generation_limit }
    requires divides { 1 ≤ asked.divisor }
    requires whole { IsWhole pass.old }
    requires empty { front_of pass.old ≡ [] }
    requires belongs { IsPassOf registry.old pass.old }
    ensures says { (words : List (List ℕ)) (source : Device)
        → IsGeneration words asked.tables asked.divisor asked.workers → NoFault source
        → Says (run_between words source (sink_of K.Sink out.old out.new) (front_of pass.new)) result }
    ensures whole { IsWhole pass.new }
    ensures belongs { IsPassOf registry.new pass.new }
    ensures same_registry { registry.new ≡ registry.old }
    ensures goes_on { GoesOn pass.old pass.new }
{
    let Ok(report) = counts_of_generated(rt, alloc, asked, registry, pass, gate) else {
        return Status::Memory;
    };
    match write_all(out, &report) {
        Ok(()) => Status::Ok,
        Err(_) => Status::WriteFault,
    }
}

// Interns the tables of a text, and makes the report of them that is asked for.
fn report_of<G: Gate, H: Threads + Wait + Sync>(
    rt: &H,
    alloc: Global,
    asked: Interning,
    text: &[u8],
    registry: &mut VtBtree<5>,
    pass: &mut TreePass<5>,
    gate: &G,
) -> Result<Vec<u8>, ParseFault>
    requires workers { (1 ≤ asked.workers) × (asked.workers ≤ 64) }
    requires short { length text.now ≤ input_limit }
    requires whole { IsWhole pass.old }
    requires empty { front_of pass.old ≡ [] }
    requires belongs { IsPassOf registry.old pass.old }
    ensures ok { IfOk result (λ report. Reported asked.task text.now asked.workers
        (front_of pass.new) report.items) }
    ensures bad_word { (line : ℕ) → result ≡ Err (ParseFault.BadWord line)
        → IsBadLine text.now line × (front_of pass.new ≡ []) }
    ensures memory { result ≡ Err ParseFault.Memory → PartlyAdded text.now (front_of pass.new) }
    ensures whole { IsWhole pass.new }
    ensures belongs { IsPassOf registry.new pass.new }
    ensures same_registry { registry.new ≡ registry.old }
    ensures goes_on { GoesOn pass.old pass.new }
{
    let tables = parse_tables(alloc, text)?;
    let interned = intern_all(rt, alloc, registry, pass, &tables, asked.workers, gate)?;
    Ok(make_report(alloc, asked.task, &interned)?)
}

// Makes tables, interns them, and makes the report of their counts.
fn counts_of_generated<G: Gate, H: Threads + Wait + Sync>(
    rt: &H,
    alloc: Global,
    asked: Generation,
    registry: &mut VtBtree<5>,
    pass: &mut TreePass<5>,
    gate: &G,
) -> Result<Vec<u8>, AllocationError>
    requires workers { (1 ≤ asked.workers) × (asked.workers ≤ 64) }
    requires few { asked.tables ≤ generation_limit }
    requires divides { 1 ≤ asked.divisor }
    requires whole { IsWhole pass.old }
    requires empty { front_of pass.old ≡ [] }
    requires belongs { IsPassOf registry.old pass.old }
    ensures ok { IfOk result (λ report. CountsReported asked.tables asked.divisor asked.workers
        (front_of pass.new) report.items) }
    ensures some_added { IsErr result → AppendsSome [] (generated_tables asked.tables asked.divisor)
        (front_of pass.new) }
    ensures whole { IsWhole pass.new }
    ensures belongs { IsPassOf registry.new pass.new }
    ensures same_registry { registry.new ≡ registry.old }
    ensures goes_on { GoesOn pass.old pass.new }
{
    let tables = generate_tables(alloc, asked.tables, asked.divisor)?;
    let interned = intern_all(rt, alloc, registry, pass, &tables, asked.workers, gate)?;
    let report = make_count_report(alloc, &interned)?;
    Ok(report)
}
