//! The bytes of a schema.
ghost use Rattle.std.specs.Prelude.{◌≡◌, ◌≤◌, [], ◌∷◌, ◌++◌, length, IfOk};
ghost use Rattle.stabby_record.specs.Shape.{count};
ghost use Rattle.stabby_record.specs.Limits.{AreFields, IsSchema};
ghost use Rattle.stabby_record.specs.Read.{fields_of};
ghost use Rattle.stabby_record.specs.Kinds.{kind_code};
ghost use Rattle.stabby_record.specs.Message.{name_bytes, start, spelled, head};

use crate::schema::{Field, Kind, Schema};
use stabby_layout::Text;
use std::alloc::AllocError;

pub(crate) fn put_byte(out: &mut Vec<u8>, byte: u8) -> Result<(), AllocError>
    ensures { IfOk result (λ _. out.new.items ≡ out.old.items ++ byte ∷ []) }
{
    out.push(byte)?;
    Ok(())
}

// A name is its length in one byte and its bytes.
pub(crate) fn put_name(out: &mut Vec<u8>, name: &Text) -> Result<(), AllocError>
    requires { length name.now ≤ 255 }
    ensures { IfOk result (λ _. out.new.items ≡ out.old.items ++ name_bytes name.now) }
{
    let bytes = name.as_str().as_bytes();
    put_byte(out, bytes.len() as u8)?;
    out.extend_from_slice(bytes)
}

// The name, the id and the count of fields.
fn put_start(out: &mut Vec<u8>, schema: &Schema) -> Result<(), AllocError>
    requires { IsSchema schema.now }
    ensures { IfOk result (λ _. out.new.items ≡ out.old.items ++ start schema.now.name schema.now.id (count schema.now.fields)) }
{
    put_name(out, schema.name())?;
    out.extend_from_slice(&schema.id().to_le_bytes())?;
    put_byte(out, schema.count())
}

impl Kind {
    // The byte after a field's name.
    pub(crate) fn code(&self) -> u8
        ensures { result ≡ kind_code self.now }
    {
        match self {
            Kind::U8 => 1,
            Kind::U16 => 2,
            Kind::U32 => 3,
            Kind::U64 => 4,
            Kind::Record(_) => 5,
        }
    }
}

// The fields' names and kinds.
fn put_fields(out: &mut Vec<u8>, fields: &[Field]) -> Result<(), AllocError>
    requires { AreFields (fields_of fields.now) }
    ensures { IfOk result (λ _. out.new.items ≡ out.old.items ++ spelled (fields_of fields.now)) }
{
    let [field, fields @ ..] = fields else {
        return Ok(());
    };
    put_name(out, &field.name)?;
    put_byte(out, field.kind.code())?;
    if let Kind::Record(schema) = &field.kind {
        let inner = schema.fields();
        put_start(out, schema)?;
        put_fields(out, inner)?;
        return put_fields(out, fields);
    }
    put_fields(out, fields)
}

// The four bytes that a message begins with, and the spelling.
pub(crate) fn put_head(out: &mut Vec<u8>, schema: &Schema) -> Result<(), AllocError>
    ensures { IfOk result (λ _. out.new.items ≡ out.old.items ++ head schema.now) }
{
    let fields = schema.fields();
    out.extend_from_slice(&[0x53, 0x52, 0x31, 0x0a])?;
    put_start(out, schema)?;
    put_fields(out, fields)
}
