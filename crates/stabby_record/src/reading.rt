//! A record from bytes.
ghost use Rattle.std.specs.Prelude.{◌≡◌, ◌≤◌, ◌<◌, ◌+◌, ◌*◌, ◌^◌, Option, Some, None, IfOk, IfErr, MatchResult, length};
ghost use Rattle.stabby_record.specs.Shape.{places};
ghost use Rattle.stabby_record.specs.Layouts.{ends, fields_size};
ghost use Rattle.stabby_record.specs.Read.{fields_of, kind_layout};
ghost use Rattle.stabby_record.specs.ReadValues.{values_of};
ghost use Rattle.stabby_record.specs.Fits.{FitsSchema};
ghost use Rattle.stabby_record.specs.Message.{head, message};
ghost use Rattle.stabby_record.specs.Reading.{first_differing, first_nonzero, misfilled, misfilled_body, decoded, kind_number, IsPlain, ahead};
ghost use Rattle.stabby_record.specs.Misread.{misread, cause_of};
ghost use Rattle.stabby_record.specs.declared.value.Value.{Value};
ghost use Rattle.stabby_record.specs.declared.reading.RecordFault.TheVariants.{Memory};

use crate::comparing::compare_head;
use crate::layout::{end_of, next_start};
use crate::schema::{Field, Kind, Schema};
use crate::value::{Value, ValueList};
use std::alloc::{AllocError, AllocFailed, Global};
use thiserror::Error;

/// Why bytes were not read as a record.
#[derive(Clone, Copy, Debug, PartialEq, Eq, Error)]
pub enum RecordFault {
    /// `at` is the first byte that differs from the head.
    #[error("the head differs at byte {at}")]
    Differs { at: u64 },
    /// The bytes end at `at`, before head and body do.
    #[error("the bytes end at byte {at}")]
    Truncated { at: u64 },
    /// `at` is the first padding byte that isn't zero.
    #[error("a padding byte is not zero at byte {at}")]
    Padding { at: u64 },
    /// The bytes go on at `at`, the end of the body.
    #[error("the bytes go on at byte {at}")]
    Trailing { at: u64 },
    /// The allocator had no memory to give.
    #[error("no memory")]
    Memory,
}

impl From<AllocError> for RecordFault {
    ghost from_gives = { λ _ error. error ≡ Memory };

    fn from(_refused: AllocError) -> RecordFault {
        RecordFault::Memory
    }
}

impl<T: Drop> From<AllocFailed<T>> for RecordFault {
    ghost from_gives = { λ _ error. error ≡ Memory };

    fn from(_refused: AllocFailed<T>) -> RecordFault {
        RecordFault::Memory
    }
}

// The first byte that isn't zero.
fn nonzero(bytes: &[u8], at: u64) -> Option<u64>
    requires { at + length bytes.now < 2 ^ 64 }
    ensures { result ≡ first_nonzero bytes.now at }
{
    let [byte, rest @ ..] = bytes else {
        return None;
    };
    if *byte != 0 {
        return Some(at);
    }
    nonzero(rest, at + 1)
}

// The first padding byte that isn't zero, of fields that stand in `bytes` from `at` on; `place` is the place of the
// first byte in the message.
fn first_misfilled(fields: &[Field], bytes: &[u8], at: usize, place: u64) -> Option<u64>
    requires exact { length bytes.now + at ≡ ends (fields_of fields.now) at }
    requires room { at + 15 * places (fields_of fields.now) < 2 ^ 32 }
    requires far { place + length bytes.now < 2 ^ 64 }
    ensures { result ≡ misfilled (fields_of fields.now) bytes.now at place }
{
    let [field, fields @ ..] = fields else {
        return None;
    };
    let layout = field.kind.layout();
    let start = next_start(layout, at);
    let (padding, bytes) = bytes.split_at(start - at);
    if let Some(at) = nonzero(padding, place) {
        return Some(at);
    }
    let place = place + (start - at) as u64;
    let (own, bytes) = bytes.split_at(layout.size);
    if let Kind::Record(schema) = &field.kind {
        let inner = schema.fields();
        let end = end_of(inner, 0);
        let (inside, padding) = own.split_at(end);
        if let Some(at) = first_misfilled(inner, inside, 0, place) {
            return Some(at);
        }
        if let Some(at) = nonzero(padding, place + end as u64) {
            return Some(at);
        }
        return first_misfilled(
            fields,
            bytes,
            start + layout.size,
            place + layout.size as u64,
        );
    }
    first_misfilled(
        fields,
        bytes,
        start + layout.size,
        place + layout.size as u64,
    )
}

// The number in the bytes of its kind.
fn number_in(kind: &Kind, b: &[u8]) -> u64
    requires plain { IsPlain kind.now }
    requires exact { length b.now ≡ (kind_layout kind.now).size }
    ensures { result ≡ kind_number kind.now b.now }
{
    match kind {
        Kind::U8 => b[0] as u64,
        Kind::U16 => u16::from_le_bytes([b[0], b[1]]) as u64,
        Kind::U32 => u32::from_le_bytes([b[0], b[1], b[2], b[3]]) as u64,
        Kind::U64 => u64::from_le_bytes([b[0], b[1], b[2], b[3], b[4], b[5], b[6], b[7]]),
        Kind::Record(_) => unreachable!(),
    }
}

// The values that stand in `bytes` from `at` on, put behind those that are there.
fn take_values(
    out: &mut Vec<Value>,
    alloc: Global,
    fields: &[Field],
    bytes: &[u8],
    at: usize,
) -> Result<(), RecordFault>
    requires exact { length bytes.now + at ≡ ends (fields_of fields.now) at }
    requires room { at + 15 * places (fields_of fields.now) < 2 ^ 32 }
    ensures ok { IfOk result (λ _. values_of out.new.items ≡ ahead out.old.items (decoded (fields_of fields.now) bytes.now at)) }
    ensures memory { IfErr result (λ fault. fault ≡ Memory) }
{
    let [field, fields @ ..] = fields else {
        return Ok(());
    };
    let layout = field.kind.layout();
    let start = next_start(layout, at);
    let (_padding, bytes) = bytes.split_at(start - at);
    let (own, bytes) = bytes.split_at(layout.size);
    if let Kind::Record(schema) = &field.kind {
        let inner = schema.fields();
        let (inside, _padding) = own.split_at(end_of(inner, 0));
        let mut values = Vec::with_capacity(alloc, inner.len())?;
        take_values(&mut values, alloc, inner, inside, 0)?;
        out.push(Value::Record(ValueList::new(values)))?;
        return take_values(out, alloc, fields, bytes, start + layout.size);
    }
    out.push(Value::Number(number_in(&field.kind, own)))?;
    take_values(out, alloc, fields, bytes, start + layout.size)
}

// The place where the body begins, or that the head differs.
fn head_end(schema: &Schema, bytes: &[u8]) -> Result<usize, RecordFault>
    ensures same { MatchResult result
        (λ begin. (first_differing (head schema.now) bytes.now 0 ≡ None) × (begin ≡ length (head schema.now)))
        (λ fault. misread schema.now bytes.now ≡ Some fault) }
    ensures short { length (head schema.now) < 2 ^ 32 }
{
    match compare_head(schema, bytes) {
        Ok(begin) => Ok(begin),
        Err(at) => Err(RecordFault::Differs { at: at as u64 }),
    }
}

// Why bytes whose head is the schema's, and whose body begins at `begin`, are no message of it.
fn misread_after(schema: &Schema, begin: usize, bytes: &[u8]) -> Option<RecordFault>
    requires same { first_differing (head schema.now) bytes.now 0 ≡ None }
    requires begin { begin ≡ length (head schema.now) }
    requires short { length (head schema.now) < 2 ^ 32 }
    ensures { result ≡ misread schema.now bytes.now }
{
    let size = schema.layout().size;
    if bytes.len() < begin || bytes.len() - begin < size {
        return Some(RecordFault::Truncated {
            at: bytes.len() as u64,
        });
    }
    let (_, rest) = bytes.split_at(begin);
    let (body, rest) = rest.split_at(size);
    let fields = schema.fields();
    let end = end_of(fields, 0);
    let (inside, padding) = body.split_at(end);
    if let Some(at) = first_misfilled(fields, inside, 0, begin as u64) {
        return Some(RecordFault::Padding { at });
    }
    if let Some(at) = nonzero(padding, (begin + end) as u64) {
        return Some(RecordFault::Padding { at });
    }
    if !rest.is_empty() {
        return Some(RecordFault::Trailing {
            at: (begin + size) as u64,
        });
    }
    None
}

/// The value whose message under the schema the bytes are.
///
/// # Errors
/// `Differs`, `Truncated`, `Padding` and `Trailing` say why the bytes are no message of the schema: the first of these
/// four causes, each with its first place. Only bytes without any of them want memory, and may end in `Memory`.
pub fn read(alloc: Global, schema: &Schema, bytes: &[u8]) -> Result<Value, RecordFault>
    ensures ok { IfOk result (λ value. FitsSchema schema.now value × (bytes.now ≡ message schema.now value)) }
    ensures complete { (value : Value) → FitsSchema schema.now value → bytes.now ≡ message schema.now value
        → MatchResult result (λ found. found ≡ value) (λ fault. fault ≡ Memory) }
    ensures cause { misread schema.now bytes.now ≡ cause_of result }
{
    let begin = head_end(schema, bytes)?;
    if let Some(fault) = misread_after(schema, begin, bytes) {
        return Err(fault);
    }
    let fields = schema.fields();
    let (_, body) = bytes.split_at(begin);
    let (inside, _) = body.split_at(end_of(fields, 0));
    let mut values = Vec::with_capacity(alloc, fields.len())?;
    take_values(&mut values, alloc, fields, inside, 0)?;
    Ok(Value::Record(ValueList::new(values)))
}
