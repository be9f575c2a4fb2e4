//! The call that `main` makes.

ghost use Rattle.std.specs.Prelude.{◌≡◌, ◌≤◌, [], length, map, string_bytes, IfOk, IfErr};
ghost use Rattle.stabby_tables.specs.Pieces.{lines_of};
ghost use Rattle.stabby_intern.specs.Messages.{IsTold};
ghost use Rattle.stabby_intern.specs.Runs.{input_limit};
ghost use Rattle.plugin_host.specs.Answers.{AreAnswered};
ghost use Rattle.plugin_host.specs.Runs.{AreCalls, Says, Comes, IsScriptFault, run_of};
ghost use Rattle.plugin_host.specs.Statuses.{line_of};

use crate::answers::put_answer;
use crate::messages::tell;
use crate::play::Play;
use crate::script::{Call, parse_call};
use crate::status::Status;
use stabby_host::Host;
use stabby_intern::{ReadFault, Sink, Source, read_to_end, write_all};
use stabby_lines::first_line;
use std::alloc::{AllocError, Global};
use std::sync::Wait;

// How many plugins may be live.
const LIMIT: u64 = 1_000;

/// Plays the script that `source` gives, and writes a line for each call to `out`.
///
/// `words` are the words after the program's name: none. The script is read to its end, and each of its lines is read as a
/// call, before the first call is made; the answers are written after the last. The first fault of `source` or `out` ends
/// the run; no read and no write is tried again. Where the status isn't `Ok`, one line to `log` tells it, and a fault of
/// `log` changes nothing.
pub fn run<R: Wait, S: Source, K: Sink, E: Sink>(
    rt: &R,
    alloc: Global,
    words: &[String],
    source: &mut S,
    out: &mut K,
    log: &mut E,
) -> Status
    // What each status says of the run. That of `Ok`: the lines are calls, and a line for each was taken.
    ensures says { Says (run_of S.Source K.Sink words.now source.old source.new out.old out.new) result }

    // Where each status comes.
    ensures comes { Comes (run_of S.Source K.Sink words.now source.old source.new out.old out.new) result }

    // The log took the status's line, or its first bytes where the log failed; a fault of the log changes nothing.
    ensures log_told { IsTold (line_of result) (E.taken log.old) (E.taken log.new) (E.faults log.old) (E.faults log.new) }
    ensures log_kept { result ≡ Status.Ok → log.new ≡ log.old }
{
    let status = outcome(rt, alloc, words, source, out);
    tell(log, status);
    status
}

// Runs, and tells nobody how it ended.
fn outcome<R: Wait, S: Source, K: Sink>(
    rt: &R,
    alloc: Global,
    words: &[String],
    source: &mut S,
    out: &mut K,
) -> Status
    ensures says { Says (run_of S.Source K.Sink words.now source.old source.new out.old out.new) result }
    ensures comes { Comes (run_of S.Source K.Sink words.now source.old source.new out.old out.new) result }
{
    if words.is_empty() {
        return play_input(rt, alloc, words, source, out);
    }
    Status::Usage
}

// Plays the script of the input.
fn play_input<R: Wait, S: Source, K: Sink>(
    rt: &R,
    alloc: Global,
    words: &[String],
    source: &mut S,
    out: &mut K,
) -> Status
    requires { map string_bytes words.now ≡ [] }
    ensures { Says (run_of S.Source K.Sink words.now source.old source.new out.old out.new) result }
{
    let text = match read_to_end(alloc, source) {
        Ok(text) => text,
        Err(ReadFault::Memory) => return Status::Memory,
        Err(ReadFault::Failed) => return Status::ReadFault,
        Err(ReadFault::TooLong) => return Status::TooLong,
    };
    let calls = match parse_calls(alloc, &text) {
        Ok(calls) => calls,
        Err(ScriptFault::Memory) => return Status::Memory,
        Err(ScriptFault::BadLine { line }) => return Status::BadLine { line },
    };
    let Ok(answers) = play(rt, alloc, &calls) else {
        return Status::Memory;
    };
    match write_all(out, &answers) {
        Ok(()) => Status::Ok,
        Err(_) => Status::WriteFault,
    }
}

// Why a text isn't read as a script.
#[derive(Clone, Copy, Debug, PartialEq, Eq)]
enum ScriptFault {
    Memory,
    BadLine { line: u64 },
}

// The calls of a text's lines, or the first line that is none.
fn parse_calls(alloc: Global, text: &[u8]) -> Result<Vec<Call>, ScriptFault>
    requires { length text.now ≤ input_limit }
    ensures ok { IfOk result (λ calls. AreCalls (lines_of text.now) calls.items) }
    ensures fault { IfErr result (IsScriptFault (lines_of text.now)) }
{
    let mut calls = Vec::new(alloc);
    let mut rest = text;
    let mut number: u64 = 1;
    while !rest.is_empty() {
        let (line, others) = first_line(rest);
        let Some(call) = parse_call(line) else {
            return Err(ScriptFault::BadLine { line: number });
        };
        let Ok(()) = calls.push(call) else {
            return Err(ScriptFault::Memory);
        };
        rest = others;
        number += 1;
    }
    Ok(calls)
}

// What the calls answer, a line for each.
fn play<R: Wait>(rt: &R, alloc: Global, calls: &[Call]) -> Result<Vec<u8>, AllocError>
    ensures { IfOk result (λ text. AreAnswered calls.now text.items) }
{
    let Ok(host) = Host::new(alloc, LIMIT) else {
        return Err(AllocError);
    };
    let mut play = Play {
        host,
        guests: Vec::new(alloc),
    };
    let mut text = Vec::new(alloc);
    for call in calls {
        let answer = play.call(rt, alloc, *call)?;
        put_answer(&mut text, answer)?;
    }
    Ok(text)
}
