//! The line that a run writes to its log.

ghost use Rattle.std.specs.Prelude.{◌≡◌};
ghost use Rattle.stabby_intern.specs.Messages.{IsTold};
ghost use Rattle.word_index.specs.Statuses.{line_of};

use crate::status::Status;
use stabby_intern::Sink;
use stabby_lines::{tell_line, tell_number};

/// Writes the line of a status to the log; that of `Ok` is empty. The first fault of the log ends the writing, and is
/// told to nobody.
pub fn tell<E: Sink>(log: &mut E, status: Status)
    ensures told { IsTold (line_of status) (E.taken log.old) (E.taken log.new) (E.faults log.old) (E.faults log.new) }
    ensures ok { status ≡ Status.Ok → log.new ≡ log.old }
{
    match status {
        Status::Ok => {}
        Status::Memory => tell_line(log, b"out of memory\n"),
        Status::Usage => tell_line(log, b"usage: word_index words W, spans W\n"),
        Status::NotUtf8 { at } => tell_number(log, b"not UTF-8 at ", at, b"\n"),
        Status::TooLong => tell_line(log, b"input longer than 16777216 bytes\n"),
        Status::ReadFault => tell_line(log, b"read fault\n"),
        Status::WriteFault => tell_line(log, b"write fault\n"),
    }
}
