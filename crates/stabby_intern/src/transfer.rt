//! Reading a source to its end, and writing a text whole.

ghost use Rattle.std.specs.Prelude.{◌≡◌, ◌<◌, ℕ, length, IfOk, OnOk, OnErr, Err, take};
ghost use Rattle.stabby_intern.specs.Devices.{Took, Rose};
ghost use Rattle.stabby_intern.specs.Runs.{ReadToEnd, GaveTooMuch, GaveSome};

use crate::device::{Failed, Sink, Source};
use std::alloc::{AllocError, Global};

/// Why an input could not be read whole.
#[derive(Clone, Copy, Debug, PartialEq, Eq)]
pub enum ReadFault {
    Memory,
    Failed,
    TooLong,
}

impl From<AllocError> for ReadFault {
    ghost use Rattle.std.specs.Prelude.{◌≡◌};
    ghost use Rattle.stabby_intern.specs.declared.transfer.ReadFault.TheVariants.{Memory};

    ghost from_gives = { λ _ fault. fault ≡ Memory };

    fn from(_refused: AllocError) -> ReadFault {
        ReadFault::Memory
    }
}

const LIMIT: usize = 16_777_216;

const CHUNK: usize = 65_536;

/// All bytes of a source, if they are no more than the limit. The first fault ends the reading.
pub fn read_to_end<S: Source>(alloc: Global, source: &mut S) -> Result<Vec<u8>, ReadFault>
    ensures bytes { IfOk result (λ text. ReadToEnd (S.left source.old) (S.left source.new) text.items) }
    ensures too_long { result ≡ Err ReadFault.TooLong → GaveTooMuch (S.left source.old) (S.left source.new) }
    ensures failed { result ≡ Err ReadFault.Failed → Rose (S.faults source.old) (S.faults source.new) }
    ensures failed_at { result ≡ Err ReadFault.Failed → GaveSome (S.left source.old) (S.left source.new) }
    ensures kept { (result ≡ Err ReadFault.Failed → ⊥) → S.faults source.new ≡ S.faults source.old }
{
    let mut text = Vec::new(alloc);
    let mut buf = [0u8; CHUNK];
    for turn in 0..LIMIT + 2 {
        match source.read(&mut buf) {
            Ok(0) => return Ok(text),
            Ok(n) => {
                text.extend_from_slice(&buf[..n])?;
                if text.len() > LIMIT {
                    return Err(ReadFault::TooLong);
                }
            }
            Err(_) => return Err(ReadFault::Failed),
        }
    }
    Err(ReadFault::TooLong)
}

/// Writes a text whole, or up to the first fault.
pub fn write_all<K: Sink>(out: &mut K, text: &[u8]) -> Result<(), Failed>
    ensures ok { OnOk result (Took (K.taken out.old) (K.taken out.new) text.now) }
    ensures part { OnErr result ((n : ℕ) × (n < length text.now)
        × Took (K.taken out.old) (K.taken out.new) (take n text.now)) }
    ensures failed { OnErr result (Rose (K.faults out.old) (K.faults out.new)) }
    ensures kept { OnOk result (K.faults out.new ≡ K.faults out.old) }
{
    let mut rest = text;
    while !rest.is_empty() {
        let n = out.write(rest)?;
        rest = &rest[n..];
    }
    Ok(())
}
