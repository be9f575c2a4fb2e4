//! The head of a schema beside the bytes of a message. It is compared where it stands, so that a head that differs is
//! told before any memory is asked for.
ghost use Rattle.std.specs.Prelude.{◌≡◌, ◌≤◌, ◌<◌, ◌+◌, ◌^◌, length};
ghost use Rattle.stabby_record.specs.Shape.{count};
ghost use Rattle.stabby_record.specs.Limits.{AreFields, IsSchema};
ghost use Rattle.stabby_record.specs.Read.{fields_of};
ghost use Rattle.stabby_record.specs.Message.{name_bytes, start, spelled, head};
ghost use Rattle.stabby_record.specs.Reading.{first_differing};
ghost use Rattle.stabby_record.specs.Compared.{Compared};

use crate::schema::{Field, Kind, Schema};
use stabby_layout::Text;

// The first byte that differs, where both have one.
fn differing(piece: &[u8], bytes: &[u8], at: usize) -> Option<usize>
    requires { at + length piece.now < 2 ^ 64 }
    ensures { result ≡ first_differing piece.now bytes.now at }
{
    let shared = piece.len().min(bytes.len());
    for index in 0..shared {
        if piece[index] != bytes[index] {
            return Some(at + index);
        }
    }
    None
}

// A piece of the head beside the bytes from `at` on: the place after it, or the first that differs. Bytes that end
// within it differ nowhere.
fn compare(piece: &[u8], bytes: &[u8], at: usize) -> Result<usize, usize>
    requires { at + length piece.now < 2 ^ 64 }
    ensures { Compared result piece.now bytes.now at }
{
    let rest = &bytes[at.min(bytes.len())..];
    match differing(piece, rest, at) {
        Some(place) => Err(place),
        None => Ok(at + piece.len()),
    }
}

fn compare_name(name: &Text, bytes: &[u8], at: usize) -> Result<usize, usize>
    requires short { length name.now ≤ 255 }
    requires room { at + length (name_bytes name.now) < 2 ^ 64 }
    ensures { Compared result (name_bytes name.now) bytes.now at }
{
    let text = name.as_str().as_bytes();
    let at = compare(&[text.len() as u8], bytes, at)?;
    compare(text, bytes, at)
}

// The name, the id and the count of fields.
fn compare_start(schema: &Schema, bytes: &[u8], at: usize) -> Result<usize, usize>
    requires is { IsSchema schema.now }
    requires room { at + length (start schema.now.name schema.now.id (count schema.now.fields)) < 2 ^ 64 }
    ensures { Compared result (start schema.now.name schema.now.id (count schema.now.fields)) bytes.now at }
{
    let at = compare_name(schema.name(), bytes, at)?;
    let at = compare(&schema.id().to_le_bytes(), bytes, at)?;
    compare(&[schema.count()], bytes, at)
}

// The fields' names and kinds.
fn compare_fields(fields: &[Field], bytes: &[u8], at: usize) -> Result<usize, usize>
    requires are { AreFields (fields_of fields.now) }
    requires room { at + length (spelled (fields_of fields.now)) < 2 ^ 64 }
    ensures { Compared result (spelled (fields_of fields.now)) bytes.now at }
{
    let [field, fields @ ..] = fields else {
        return Ok(at);
    };
    let at = compare_name(&field.name, bytes, at)?;
    let at = compare(&[field.kind.code()], bytes, at)?;
    if let Kind::Record(schema) = &field.kind {
        let inner = schema.fields();
        let at = compare_start(schema, bytes, at)?;
        let at = compare_fields(inner, bytes, at)?;
        return compare_fields(fields, bytes, at);
    }
    compare_fields(fields, bytes, at)
}

// The whole head: its length, or the first byte that differs.
pub(crate) fn compare_head(schema: &Schema, bytes: &[u8]) -> Result<usize, usize>
    ensures compared { Compared result (head schema.now) bytes.now 0 }
    ensures short { length (head schema.now) < 2 ^ 32 }
{
    let fields = schema.fields();
    let at = compare(&[0x53, 0x52, 0x31, 0x0a], bytes, 0)?;
    let at = compare_start(schema, bytes, at)?;
    compare_fields(fields, bytes, at)
}
