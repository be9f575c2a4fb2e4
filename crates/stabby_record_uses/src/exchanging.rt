//! A value that goes from one program to another as bytes.
ghost use Rattle.std.specs.Prelude.{◌≡◌, ℕ, Some, IfOk, IfErr, IsErrOf};
ghost use Rattle.stabby_record.specs.Fits.{FitsSchema, misfit_whole};
ghost use Rattle.stabby_record.specs.Message.{message};
ghost use Rattle.stabby_record.specs.Misread.{misread};
ghost use Rattle.stabby_record.specs.declared.reading.RecordFault.TheVariants as read_fault;
ghost use Rattle.stabby_record_uses.specs.Exchanges.{shape_of, IsOfWriting};
ghost use Rattle.stabby_record_uses.specs.declared.exchanging.ExchangeFault.TheVariants.{Differs};

use stabby_record::{
    DescribeFault, RecordFault, RecordWriteFault, Schema, Value, describe, read, write,
};
use std::alloc::Global;

/// Why a value didn't come over.
#[derive(Clone, Copy, Debug, PartialEq, Eq)]
pub enum ExchangeFault {
    /// The value doesn't fit the writer's schema; `at` is its first place that doesn't, in preorder.
    Shape { at: u64 },
    /// The schemas aren't equal; `at` is the first byte of the message that differs from the reader's head.
    Differs { at: u64 },
    /// The allocator had no memory to give.
    Memory,
}

// The message, or why there is none.
fn written(alloc: Global, schema: &Schema, value: &Value) -> Result<Vec<u8>, ExchangeFault>
    ensures fits { IfOk result (λ _. FitsSchema schema.now value.now) }
    ensures ok { IfOk result (λ bytes. bytes.items ≡ message schema.now value.now) }
    ensures shape { misfit_whole schema.now value.now ≡ shape_of result }
    ensures own { IfErr result IsOfWriting }
{
    match write(alloc, schema, value) {
        Ok(bytes) => Ok(bytes),
        Err(RecordWriteFault::Shape { at }) => Err(ExchangeFault::Shape { at }),
        Err(RecordWriteFault::Memory) => Err(ExchangeFault::Memory),
    }
}

/// Writes the value under one schema, and reads the message under another, as two programs do.
///
/// # Errors
/// `Shape` exactly where the value doesn't fit `ours`. `Differs` only where it fits and the schemas aren't equal.
pub fn exchange(
    alloc: Global,
    ours: &Schema,
    theirs: &Schema,
    value: &Value,
) -> Result<Value, ExchangeFault>
    ensures equal { IfOk result (λ found. (theirs.now ≡ ours.now) × (found ≡ value.now)) }
    ensures shape { misfit_whole ours.now value.now ≡ shape_of result }
    ensures differs { (at : ℕ) → IsErrOf result (Differs at)
        → misread theirs.now (message ours.now value.now) ≡ Some (read_fault.Differs at) }
{
    let bytes = written(alloc, ours, value)?;
    // Each getter tells that a schema is within the limits, which the laws ask.
    let (_ours, _theirs) = (ours.fields(), theirs.fields());
    match read(alloc, theirs, bytes.as_slice()) {
        Ok(found) => Ok(found),
        Err(RecordFault::Differs { at }) => Err(ExchangeFault::Differs { at }),
        Err(RecordFault::Memory) => Err(ExchangeFault::Memory),
        Err(RecordFault::Truncated { .. }) => unreachable!(),
        Err(RecordFault::Padding { .. }) => unreachable!(),
        Err(RecordFault::Trailing { .. }) => unreachable!(),
    }
}

/// Writes the value under its schema, and reads the message under the schema that its head spells.
pub fn exchange_described(
    alloc: Global,
    schema: &Schema,
    value: &Value,
) -> Result<(Schema, Value), ExchangeFault>
    ensures equal { IfOk result (λ found. (found.0 ≡ schema.now) × (found.1 ≡ value.now)) }
    ensures shape { misfit_whole schema.now value.now ≡ shape_of result }
    ensures same { (at : ℕ) → IsErrOf result (Differs at) → ⊥ }
{
    let bytes = written(alloc, schema, value)?;
    let _fields = schema.fields();
    let described = match describe(alloc, bytes.as_slice()) {
        Ok(described) => described,
        Err(DescribeFault::NotRecord) => unreachable!(),
        Err(DescribeFault::Memory) => return Err(ExchangeFault::Memory),
    };
    match read(alloc, &described, bytes.as_slice()) {
        Ok(found) => Ok((described, found)),
        Err(RecordFault::Memory) => Err(ExchangeFault::Memory),
        Err(_) => unreachable!(),
    }
}
