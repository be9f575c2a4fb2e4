//! The call that `main` makes.

ghost use Rattle.std.specs.Prelude.{◌≡◌, ◌≤◌, ℕ, length, IfOk, Err};
ghost use Rattle.std.specs.Str.{IsValidUpTo};
ghost use Rattle.stabby_intern.specs.Messages.{IsTold};
ghost use Rattle.stabby_intern.specs.Runs.{input_limit};
ghost use Rattle.word_index.specs.Statuses.{line_of};
ghost use Rattle.word_index.specs.Runs.{Lists, Says, Comes, run_of};

use crate::command::{Command, parse_command};
use crate::listing::make_listing;
use crate::messages::tell;
use crate::status::Status;
use stabby_intern::{ReadFault, Sink, Source, read_to_end, write_all};
use stabby_layout::{AllocationError, Text};
use stabby_registry::{OpenGate, VtBtree};
use stabby_symbol::index_words;
use std::alloc::{AllocError, Global};
use std::marker::Sync;
use std::sync::Wait;
use std::thread::Threads;

/// Reads a text from `source`, and writes a line for each distinct word of it to `out`, in increasing order of bytes: the
/// word and how often it stands in the text (`words W`), or the word and its spans (`spans W`).
///
/// `words` are the words after the program's name. W workers, from 1 to 64, intern the words of the text. The first fault
/// of `source` or `out` ends the run; no read and no write is tried again. Where the status isn't `Ok`, one line to `log`
/// tells it, and a fault of `log` changes nothing.
pub fn run<S: Source, K: Sink, E: Sink, H: Threads + Wait + Sync>(
    rt: &H,
    alloc: Global,
    words: &[String],
    source: &mut S,
    out: &mut K,
    log: &mut E,
) -> Status
    // What each status says of the run. That of `Ok`: the input is a text, and the lines of its index were taken.
    ensures says { Says (run_of S.Source K.Sink words.now source.old source.new out.old out.new) result }

    // Where each status comes.
    ensures comes { Comes (run_of S.Source K.Sink words.now source.old source.new out.old out.new) result }

    // The log took the status's line, or its first bytes where the log failed; a fault of the log changes nothing.
    ensures log_told { IsTold (line_of result) (E.taken log.old) (E.taken log.new) (E.faults log.old) (E.faults log.new) }
    ensures log_kept { result ≡ Status.Ok → log.new ≡ log.old }
{
    let status = outcome(rt, alloc, words, source, out);
    tell(log, status);
    status
}

// Runs, and tells nobody how it ended.
fn outcome<S: Source, K: Sink, H: Threads + Wait + Sync>(
    rt: &H,
    alloc: Global,
    words: &[String],
    source: &mut S,
    out: &mut K,
) -> Status
    ensures says { Says (run_of S.Source K.Sink words.now source.old source.new out.old out.new) result }
    ensures comes { Comes (run_of S.Source K.Sink words.now source.old source.new out.old out.new) result }
{
    list_input(rt, alloc, words, source, out)
}

// Reads the input, and writes its lines.
fn list_input<S: Source, K: Sink, H: Threads + Wait + Sync>(
    rt: &H,
    alloc: Global,
    words: &[String],
    source: &mut S,
    out: &mut K,
) -> Status
    ensures { Says (run_of S.Source K.Sink words.now source.old source.new out.old out.new) result }
{
    let Some(command) = parse_command(words) else {
        return Status::Usage;
    };
    let bytes = match read_to_end(alloc, source) {
        Ok(bytes) => bytes,
        Err(ReadFault::Memory) => return Status::Memory,
        Err(ReadFault::Failed) => return Status::ReadFault,
        Err(ReadFault::TooLong) => return Status::TooLong,
    };
    let text = match listing_of_input(rt, alloc, command, &bytes) {
        Ok(text) => text,
        Err(ListFault::Memory) => return Status::Memory,
        Err(ListFault::NotUtf8 { at }) => return Status::NotUtf8 { at },
    };
    match write_all(out, &text) {
        Ok(()) => Status::Ok,
        Err(_) => Status::WriteFault,
    }
}

// Why an input has no listing.
#[derive(Clone, Copy, Debug, PartialEq, Eq)]
enum ListFault {
    Memory,
    NotUtf8 { at: u64 },
}

impl From<AllocError> for ListFault {
    ghost use Rattle.word_index.specs.declared.program.ListFault.TheVariants.{Memory};

    ghost from_gives = { λ _ fault. fault ≡ Memory };

    fn from(_refused: AllocError) -> ListFault {
        ListFault::Memory
    }
}

impl From<AllocationError> for ListFault {
    ghost use Rattle.word_index.specs.declared.program.ListFault.TheVariants.{Memory};

    ghost from_gives = { λ _ fault. fault ≡ Memory };

    fn from(_refused: AllocationError) -> ListFault {
        ListFault::Memory
    }
}

// The lines of the index of the bytes, where they are a text.
fn listing_of_input<H: Threads + Wait + Sync>(
    rt: &H,
    alloc: Global,
    command: Command,
    bytes: &[u8],
) -> Result<Vec<u8>, ListFault>
    requires workers { (1 ≤ command.workers) × (command.workers ≤ 64) }
    requires short { length bytes.now ≤ input_limit }
    ensures ok { IfOk result (λ text. Lists command.task bytes.now text.items) }
    ensures not_utf8 { (at : ℕ) → result ≡ Err (ListFault.NotUtf8 at) → IsValidUpTo bytes.now at }
{
    let text = match std::str::from_utf8(bytes) {
        Ok(text) => text,
        Err(error) => {
            return Err(ListFault::NotUtf8 {
                at: error.valid_up_to() as u64,
            });
        }
    };
    let source = Text::from_str(alloc, text)?;
    let (mut registry, mut pass) = VtBtree::<5>::new(alloc)?;
    let index = index_words(
        rt,
        alloc,
        &mut registry,
        &mut pass,
        &source,
        command.workers,
        &OpenGate,
    )?;
    Ok(make_listing(alloc, command.task, &index)?)
}
