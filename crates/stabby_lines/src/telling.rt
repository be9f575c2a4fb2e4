//! The line that a run writes to its log.

ghost use Rattle.std.specs.Prelude.{◌≡◌, ℕ, OnOk, OnErr, take};
ghost use Rattle.stabby_intern.specs.Devices.{Took, Rose};
ghost use Rattle.stabby_intern.specs.Messages.{IsTold};
ghost use Rattle.stabby_lines.specs.Pieces.{numbered};

use itoa::Buffer;
use stabby_intern::{Failed, Sink, write_all};

/// Writes a line to the log. The first fault of the log ends the writing, and is told to nobody.
pub fn tell_line<E: Sink>(log: &mut E, line: &[u8])
    ensures { IsTold line.now (E.taken log.old) (E.taken log.new) (E.faults log.old) (E.faults log.new) }
{
    let _ = write_all(log, line);
}

/// Writes a line with a number in it to the log: these words, the number in digits, and the rest. The first fault of the
/// log ends the writing, and is told to nobody.
pub fn tell_number<E: Sink>(log: &mut E, words: &[u8], number: u64, rest: &[u8])
    ensures { IsTold (numbered words.now number rest.now) (E.taken log.old) (E.taken log.new) (E.faults log.old)
        (E.faults log.new) }
{
    let _ = write_number(log, words, number, rest);
}

// Writes in three parts, since a line that is put together would need memory.
fn write_number<E: Sink>(log: &mut E, words: &[u8], number: u64, rest: &[u8]) -> Result<(), Failed>
    ensures ok { OnOk result (Took (E.taken log.old) (E.taken log.new) (numbered words.now number rest.now)) }
    ensures part { OnErr result ((n : ℕ) × Took (E.taken log.old) (E.taken log.new)
        (take n (numbered words.now number rest.now))) }
    ensures failed { OnErr result (Rose (E.faults log.old) (E.faults log.new)) }
{
    write_all(log, words)?;
    let mut buffer = Buffer::new();
    write_all(log, buffer.format(number).as_bytes())?;
    write_all(log, rest)
}
