//! The call that `main` makes.

ghost use Rattle.std.specs.Prelude.{◌≡◌, ◌≤◌, length, map, string_bytes, IfSome, IsNone};
ghost use Rattle.stabby_tables.specs.Pieces.{lines_of};
ghost use Rattle.stabby_intern.specs.Messages.{IsTold};
ghost use Rattle.stabby_intern.specs.Runs.{sink_of, input_limit};
ghost use Rattle.index_log.specs.Keeps.{IsKeep, IsNoKeep};
ghost use Rattle.index_log.specs.Runs.{Says, Comes, Ends, LineEnds, run_of};
ghost use Rattle.index_log.specs.Sessions.{state_of};
ghost use Rattle.index_log.specs.Statuses.{line_of};

use crate::command::parse_command;
use crate::messages::tell;
use crate::session::Session;
use crate::status::Status;
use stabby_intern::{ReadFault, Sink, Source, read_to_end, write_all};
use stabby_lines::{first_line, parse_number};
use std::alloc::Global;
use std::sync::Wait;

/// Reads commands from `source`, one a line, and obeys them in order. What a command prints goes to `out` before the next
/// one is obeyed.
///
/// `words` are the words after the program's name: one, how many versions the index keeps, from 1 to 1,024. The first fault
/// of `source` or `out` ends the run; no read and no write is tried again. Where the status isn't `Ok`, one line to `log`
/// tells it, and a fault of `log` changes nothing.
pub fn run<H: Wait, S: Source, K: Sink, E: Sink>(
    rt: &H,
    alloc: Global,
    words: &[String],
    source: &mut S,
    out: &mut K,
    log: &mut E,
) -> Status
    // What each status says of the run. That of `Ok`: the lines are commands, and exactly what they print was taken.
    ensures says { Says (run_of S.Source K.Sink words.now source.old source.new out.old out.new) result }

    // Where each status comes.
    ensures comes { Comes (run_of S.Source K.Sink words.now source.old source.new out.old out.new) result }

    // The log took the status's line, or its first bytes where the log failed; a fault of the log changes nothing.
    ensures log_told { IsTold (line_of result) (E.taken log.old) (E.taken log.new) (E.faults log.old) (E.faults log.new) }
    ensures log_kept { result ≡ Status.Ok → log.new ≡ log.old }
{
    let status = outcome(rt, alloc, words, source, out);
    tell(log, status);
    status
}

// Runs, and tells nobody how it ended.
fn outcome<H: Wait, S: Source, K: Sink>(
    rt: &H,
    alloc: Global,
    words: &[String],
    source: &mut S,
    out: &mut K,
) -> Status
    ensures says { Says (run_of S.Source K.Sink words.now source.old source.new out.old out.new) result }
    ensures comes { Comes (run_of S.Source K.Sink words.now source.old source.new out.old out.new) result }
{
    match parse_keep(words) {
        Some(keep) => obey_input(rt, alloc, keep, words, source, out),
        None => Status::Usage,
    }
}

// Obeys the commands of the input.
fn obey_input<H: Wait, S: Source, K: Sink>(
    rt: &H,
    alloc: Global,
    keep: usize,
    words: &[String],
    source: &mut S,
    out: &mut K,
) -> Status
    requires { IsKeep (map string_bytes words.now) keep }
    ensures { Says (run_of S.Source K.Sink words.now source.old source.new out.old out.new) result }
{
    let text = match read_to_end(alloc, source) {
        Ok(text) => text,
        Err(ReadFault::Memory) => return Status::Memory,
        Err(ReadFault::Failed) => return Status::ReadFault,
        Err(ReadFault::TooLong) => return Status::TooLong,
    };
    match Session::new(alloc, keep) {
        Ok(mut session) => obey_all(rt, alloc, &mut session, &text, out),
        Err(_) => Status::Memory,
    }
}

// How many versions are kept.
fn parse_keep(words: &[String]) -> Option<usize>
    ensures some { IfSome result (λ keep. IsKeep (map string_bytes words.now) keep) }
    ensures none { IsNone result → IsNoKeep (map string_bytes words.now) }
{
    match words {
        [word] => match parse_number(word.as_bytes()) {
            Some(keep) if 1 <= keep && keep <= 1024 => Some(keep as usize),
            _ => None,
        },
        _ => None,
    }
}

// Obeys the lines of a text in order, up to the first that is no command.
fn obey_all<H: Wait, K: Sink>(
    rt: &H,
    alloc: Global,
    session: &mut Session,
    text: &[u8],
    out: &mut K,
) -> Status
    requires { length text.now ≤ input_limit }
    ensures { Ends (state_of session.old) (lines_of text.now) (sink_of K.Sink out.old out.new) result }
{
    let mut rest = text;
    let mut number: u64 = 1;
    while !rest.is_empty() {
        let (line, others) = first_line(rest);
        match obey_line(rt, alloc, session, line, number, out) {
            Status::Ok => {}
            status => return status,
        }
        rest = others;
        number += 1;
    }
    Status::Ok
}

fn obey_line<H: Wait, K: Sink>(
    rt: &H,
    alloc: Global,
    session: &mut Session,
    line: &[u8],
    number: u64,
    out: &mut K,
) -> Status
    ensures { LineEnds (state_of session.old) (state_of session.new) line.now (sink_of K.Sink out.old out.new)
        number result }
{
    let command = match parse_command(alloc, line) {
        Ok(Some(command)) => command,
        Ok(None) => return Status::BadLine { line: number },
        Err(_) => return Status::Memory,
    };
    match session.obey(rt, alloc, command) {
        Err(_) => Status::Memory,
        Ok(printed) => match write_all(out, &printed) {
            Ok(()) => Status::Ok,
            Err(_) => Status::WriteFault,
        },
    }
}
