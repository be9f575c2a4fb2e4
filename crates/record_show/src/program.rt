//! The call that `main` makes.

ghost use Rattle.std.specs.Prelude.{◌≡◌, ◌⊎◌, ◌<◌, ◌≤◌, ℕ, List, [], length, IfOk, Err, Some};
ghost use Rattle.stabby_intern.specs.Messages.{IsTold};
ghost use Rattle.record_show.specs.Statuses.{line_of};
ghost use Rattle.record_show.specs.Runs.{Shows, HasCause, Misread, Says, Comes, run_of};

use crate::messages::tell;
use crate::status::{Cause, Status};
use crate::text::make_text;
use stabby_intern::{ReadFault, Sink, Source, read_to_end, write_all};
use stabby_record::{DescribeFault, RecordFault, Schema, Value, describe, read};
use std::alloc::Global;

/// Reads a message from `source`, and writes it to `out` as a person reads it: a line of the record's name, id, size and
/// alignment, and then a line for each field, in preorder, two spaces deeper for each record that it stands in.
///
/// `words` are the words after the program's name; there are to be none. The first fault of `source` or `out` ends the run;
/// no read and no write is tried again. Where the status isn't `Ok`, one line to `log` tells it, and a fault of `log`
/// changes nothing.
pub fn run<S: Source, K: Sink, E: Sink>(
    alloc: Global,
    words: &[String],
    source: &mut S,
    out: &mut K,
    log: &mut E,
) -> Status
    // What each status says of the run. That of `Ok`: the input is a message, and its text was taken.
    ensures says { Says (run_of S.Source K.Sink words.now source.old source.new out.old out.new) result }

    // Where each status comes.
    ensures comes { Comes (run_of S.Source K.Sink words.now source.old source.new out.old out.new) result }

    // The log took the status's line, or its first bytes where the log failed; a fault of the log changes nothing.
    ensures log_told { IsTold (line_of result) (E.taken log.old) (E.taken log.new) (E.faults log.old) (E.faults log.new) }
    ensures log_kept { result ≡ Status.Ok → log.new ≡ log.old }
{
    let status = outcome(alloc, words, source, out);
    tell(log, status);
    status
}

// Runs, and tells nobody how it ended.
fn outcome<S: Source, K: Sink>(
    alloc: Global,
    words: &[String],
    source: &mut S,
    out: &mut K,
) -> Status
    ensures says { Says (run_of S.Source K.Sink words.now source.old source.new out.old out.new) result }
    ensures comes { Comes (run_of S.Source K.Sink words.now source.old source.new out.old out.new) result }
{
    if !words.is_empty() {
        return Status::Usage;
    }
    let bytes = match read_to_end(alloc, source) {
        Ok(bytes) => bytes,
        Err(ReadFault::Memory) => return Status::Memory,
        Err(ReadFault::Failed) => return Status::ReadFault,
        Err(ReadFault::TooLong) => return Status::TooLong,
    };
    let text = match show(alloc, &bytes) {
        Ok(text) => text,
        Err(None) => return Status::Memory,
        Err(Some(cause)) => return Status::NoMessage { cause },
    };
    match write_all(out, &text) {
        Ok(()) => Status::Ok,
        Err(_) => Status::WriteFault,
    }
}

// The text of a message, or why the bytes are none; `None` is want of memory.
fn show(alloc: Global, bytes: &[u8]) -> Result<Vec<u8>, Option<Cause>>
    ensures ok { IfOk result (λ text. Shows bytes.now text.items) }
    ensures cause { (cause : Cause) → result ≡ Err (Some cause) → HasCause bytes.now cause }
{
    let schema = match describe(alloc, bytes) {
        Ok(schema) => schema,
        Err(DescribeFault::NotRecord) => return Err(Some(Cause::NotRecord)),
        Err(DescribeFault::Memory) => return Err(None),
    };
    match read(alloc, &schema, bytes) {
        Ok(Value::Record(list)) => match make_text(alloc, &schema, &list) {
            Ok(text) => Ok(text),
            Err(_) => Err(None),
        },
        Ok(Value::Number(_)) => unreachable!(),
        Err(RecordFault::Differs { .. }) => unreachable!(),
        Err(RecordFault::Truncated { at }) => Err(Some(Cause::Truncated { at })),
        Err(RecordFault::Padding { at }) => Err(Some(Cause::Padding { at })),
        Err(RecordFault::Trailing { at }) => Err(Some(Cause::Trailing { at })),
        Err(RecordFault::Memory) => Err(None),
    }
}
