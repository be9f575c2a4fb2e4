//! A schema from the bytes of a message.
ghost use Rattle.std.specs.Prelude.{◌≡◌, ◌≤◌, ◌<◌, ◌^◌, ◌∷◌, ◌++◌, [], ℕ, List, length, IfOk, IfErr, IsErrOf, MatchResult};
ghost use Rattle.std.specs.Int.{to_le_bytes, w64};
ghost use Rattle.stabby_record.specs.Shape.{Shape};
ghost use Rattle.stabby_record.specs.Limits.{IsSchema};
ghost use Rattle.stabby_record.specs.Fits.{FitsSchema};
ghost use Rattle.stabby_record.specs.Kinds.{IsKind};
ghost use Rattle.stabby_record.specs.Message.{name_bytes, spelling, message};
ghost use Rattle.stabby_record.specs.Described.{ReadsFields, ReadsKind, BeginsWith, NoNameBegins, NoIdBegins, NoByteBegins, NoKindBegins, NoFieldsBegin, NoSpellingBegins, NoHeadBegins};
ghost use Rattle.stabby_record.specs.declared.value.Value.{Value};
ghost use Rattle.stabby_record.specs.declared.describing.DescribeFault.TheVariants.{NotRecord, Memory};

use crate::schema::{Field, Kind, Schema};
use stabby_layout::{AllocationError, Text};
use std::alloc::{AllocError, AllocFailed, Global};
use thiserror::Error;

/// Why no schema was read.
#[derive(Clone, Copy, Debug, PartialEq, Eq, Error)]
pub enum DescribeFault {
    /// The bytes begin with no schema's head.
    #[error("not a record")]
    NotRecord,
    /// The allocator had no memory to give.
    #[error("no memory")]
    Memory,
}

impl From<AllocError> for DescribeFault {
    ghost from_gives = { λ _ error. error ≡ Memory };

    fn from(_refused: AllocError) -> DescribeFault {
        DescribeFault::Memory
    }
}

impl<T: Drop> From<AllocFailed<T>> for DescribeFault {
    ghost from_gives = { λ _ error. error ≡ Memory };

    fn from(_refused: AllocFailed<T>) -> DescribeFault {
        DescribeFault::Memory
    }
}

impl From<AllocationError> for DescribeFault {
    ghost from_gives = { λ _ error. error ≡ Memory };

    fn from(_refused: AllocationError) -> DescribeFault {
        DescribeFault::Memory
    }
}

// One byte, and the bytes after it.
fn take_byte(bytes: &[u8]) -> Result<(u8, &[u8]), DescribeFault>
    ensures ok { IfOk result (λ found. bytes.now ≡ found.0 ∷ found.1.now) }
    ensures shorter { IfOk result (λ found. length found.1.now < length bytes.now) }
    ensures not_record { IsErrOf result NotRecord → NoByteBegins bytes.now }
{
    let [byte, rest @ ..] = bytes else {
        return Err(DescribeFault::NotRecord);
    };
    Ok((*byte, rest))
}

// A name, and the bytes after it.
fn take_name(alloc: Global, bytes: &[u8]) -> Result<(Text, &[u8]), DescribeFault>
    ensures ok { IfOk result (λ found. bytes.now ≡ name_bytes found.0 ++ found.1.now) }
    ensures shorter { IfOk result (λ found. length found.1.now < length bytes.now) }
    ensures short { IfOk result (λ found. length found.0 ≤ 255) }
    ensures not_record { IsErrOf result NotRecord → NoNameBegins bytes.now }
{
    let [length, rest @ ..] = bytes else {
        return Err(DescribeFault::NotRecord);
    };
    let length = *length as usize;
    if rest.len() < length {
        return Err(DescribeFault::NotRecord);
    }
    let (name, rest) = rest.split_at(length);
    match std::str::from_utf8(name) {
        Ok(text) => Ok((Text::from_str(alloc, text)?, rest)),
        Err(_) => Err(DescribeFault::NotRecord),
    }
}

// An id, and the bytes after it.
fn take_id(bytes: &[u8]) -> Result<(u64, &[u8]), DescribeFault>
    ensures ok { IfOk result (λ found. bytes.now ≡ to_le_bytes w64 found.0 ++ found.1.now) }
    ensures shorter { IfOk result (λ found. length found.1.now < length bytes.now) }
    ensures range { IfOk result (λ found. found.0 < 2 ^ 64) }
    ensures not_record { IsErrOf result NotRecord → NoIdBegins bytes.now }
{
    if bytes.len() < 8 {
        return Err(DescribeFault::NotRecord);
    }
    let (b, rest) = bytes.split_at(8);
    let id = u64::from_le_bytes([b[0], b[1], b[2], b[3], b[4], b[5], b[6], b[7]]);
    Ok((id, rest))
}

// A kind, where records may lie in one another `depth` deep.
#[cycle(describe)]
fn take_kind(alloc: Global, bytes: &[u8], depth: u64) -> Result<(Kind, &[u8]), DescribeFault>
    requires near { depth ≤ 8 }
    ensures ok { IfOk result (λ found. ReadsKind bytes.now found.0 found.1.now) }
    ensures shorter { IfOk result (λ found. length found.1.now < length bytes.now) }
    ensures within { IfOk result (λ found. IsKind found.0) }
    ensures not_record { IsErrOf result NotRecord → NoKindBegins bytes.now depth }
{
    let [code, rest @ ..] = bytes else {
        return Err(DescribeFault::NotRecord);
    };
    match *code {
        1 => Ok((Kind::U8, rest)),
        2 => Ok((Kind::U16, rest)),
        3 => Ok((Kind::U32, rest)),
        4 => Ok((Kind::U64, rest)),
        5 => {
            let (schema, rest) = take_schema(alloc, rest, depth)?;
            Ok((Kind::Record(schema), rest))
        }
        _ => Err(DescribeFault::NotRecord),
    }
}

// That many fields, put behind those that are there, and the bytes after them.
#[cycle(describe)]
fn take_fields<'a>(
    out: &mut Vec<Field>,
    alloc: Global,
    bytes: &'a [u8],
    count: u8,
    depth: u64,
) -> Result<&'a [u8], DescribeFault>
    requires near { depth ≤ 8 }
    ensures ok { IfOk result (λ rest. ReadsFields bytes.now out.old.items out.new.items count rest.now) }
    ensures shorter { IfOk result (λ rest. length rest.now ≤ length bytes.now) }
    ensures not_record { IsErrOf result NotRecord → NoFieldsBegin bytes.now count depth }
{
    if count == 0 {
        return Ok(bytes);
    }
    let (name, rest) = take_name(alloc, bytes)?;
    let (kind, rest) = take_kind(alloc, rest, depth)?;
    out.push(Field { name, kind })?;
    take_fields(out, alloc, rest, count - 1, depth)
}

// A schema of at most this depth, and the bytes after it.
#[cycle(describe)]
fn take_schema(alloc: Global, bytes: &[u8], depth: u64) -> Result<(Schema, &[u8]), DescribeFault>
    requires near { depth ≤ 8 }
    ensures ok { IfOk result (λ found. bytes.now ≡ spelling found.0 ++ found.1.now) }
    ensures within { IfOk result (λ found. IsSchema found.0) }
    ensures shorter { IfOk result (λ found. length found.1.now < length bytes.now) }
    ensures not_record { IsErrOf result NotRecord → NoSpellingBegins bytes.now depth }
{
    if depth == 0 {
        return Err(DescribeFault::NotRecord);
    }
    let (name, rest) = take_name(alloc, bytes)?;
    let (id, rest) = take_id(rest)?;
    let (count, rest) = take_byte(rest)?;
    let mut fields = Vec::new(alloc);
    let rest = take_fields(&mut fields, alloc, rest, count, depth - 1)?;
    match Schema::new(name, id, fields) {
        Ok(schema) => {
            let _fields = schema.fields();
            Ok((schema, rest))
        }
        Err(_) => Err(DescribeFault::NotRecord),
    }
}

// The schema whose head begins the bytes.
fn begun(alloc: Global, bytes: &[u8]) -> Result<Schema, DescribeFault>
    ensures ok { IfOk result (λ schema. IsSchema schema × BeginsWith bytes.now schema) }
    ensures not_record { IsErrOf result NotRecord → NoHeadBegins bytes.now }
{
    let [0x53, 0x52, 0x31, 0x0a, rest @ ..] = bytes else {
        return Err(DescribeFault::NotRecord);
    };
    let (schema, _rest) = take_schema(alloc, rest, 8)?;
    Ok(schema)
}

/// The schema whose head begins the bytes; there is one at most. What follows the head is not looked at.
///
/// # Errors
/// `NotRecord` only where no schema's head begins the bytes, and `Memory` where there was none to be had.
pub fn describe(alloc: Global, bytes: &[u8]) -> Result<Schema, DescribeFault>
    ensures ok { IfOk result (λ schema. IsSchema schema × BeginsWith bytes.now schema) }
    ensures not_record { IsErrOf result NotRecord → NoHeadBegins bytes.now }
    ensures message { (schema : Shape) (value : Value) → IsSchema schema → FitsSchema schema value → bytes.now ≡ message schema value
        → MatchResult result (λ found. found ≡ schema) (λ fault. fault ≡ Memory) }
{
    begun(alloc, bytes)
}
