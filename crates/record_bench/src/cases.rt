//! One record, under a schema that it may not have been written under.
ghost use Rattle.std.specs.Prelude.{◌≡◌, IfOk};
ghost use Rattle.stabby_record.specs.Message.{message};

use stabby_record::{
    DescribeFault, RecordFault, RecordWriteFault, Schema, Value, describe, read, write,
};
use std::alloc::Global;

/// What is printed of an order.
#[derive(Drop)]
pub enum Answer {
    /// The line is no order.
    NoOrder,
    /// The allocator had no memory to give.
    Memory,
    /// No schema's head begins the bytes.
    NotRecord,
    /// The cause, and the byte or the place.
    Refused { cause: &'static str, at: u64 },
    /// What the rounds summed up.
    Sum { sum: u64 },
    /// A message.
    Bytes { bytes: Vec<u8> },
}

/// The schema whose head begins the bytes, or what is printed where there is none.
pub(crate) fn schema_of(alloc: Global, bytes: &[u8]) -> Result<Schema, Answer> {
    match describe(alloc, bytes) {
        Ok(schema) => Ok(schema),
        Err(DescribeFault::NotRecord) => Err(Answer::NotRecord),
        Err(DescribeFault::Memory) => Err(Answer::Memory),
    }
}

/// The value that the bytes spell under the schema, or what is printed where they spell none.
pub(crate) fn value_of(alloc: Global, schema: &Schema, bytes: &[u8]) -> Result<Value, Answer>
    ensures { IfOk result (λ value. bytes.now ≡ message schema.now value) }
{
    match read(alloc, schema, bytes) {
        Ok(value) => Ok(value),
        Err(RecordFault::Differs { at }) => Err(Answer::Refused {
            cause: "differs",
            at,
        }),
        Err(RecordFault::Truncated { at }) => Err(Answer::Refused {
            cause: "truncated",
            at,
        }),
        Err(RecordFault::Padding { at }) => Err(Answer::Refused {
            cause: "padding",
            at,
        }),
        Err(RecordFault::Trailing { at }) => Err(Answer::Refused {
            cause: "trailing",
            at,
        }),
        Err(RecordFault::Memory) => Err(Answer::Memory),
    }
}

fn written(alloc: Global, schema: &Schema, value: &Value) -> Result<Vec<u8>, Answer>
    ensures { IfOk result (λ bytes. bytes.items ≡ message schema.now value.now) }
{
    match write(alloc, schema, value) {
        Ok(bytes) => Ok(bytes),
        Err(RecordWriteFault::Shape { at }) => Err(Answer::Refused { cause: "shape", at }),
        Err(RecordWriteFault::Memory) => Err(Answer::Memory),
    }
}

/// Reads the bytes under the schema of the head, and writes again what was read: those bytes.
pub fn read_under(alloc: Global, head: &[u8], bytes: &[u8]) -> Result<Vec<u8>, Answer>
    ensures { IfOk result (λ again. again.items ≡ bytes.now) }
{
    let schema = schema_of(alloc, head)?;
    let value = value_of(alloc, &schema, bytes)?;
    written(alloc, &schema, &value)
}

/// Reads the message under its own schema, and writes its value under the schema of the head.
pub fn put_under(alloc: Global, head: &[u8], message: &[u8]) -> Result<Vec<u8>, Answer> {
    let schema = schema_of(alloc, head)?;
    let own = schema_of(alloc, message)?;
    let value = value_of(alloc, &own, message)?;
    written(alloc, &schema, &value)
}
