//! The text of a message.

ghost use Rattle.std.specs.Prelude.{◌≡◌, ◌≤◌, ◌<◌, ◌+◌, ◌*◌, ◌^◌, ◌++◌, [], ◌∷◌, ℕ, IfOk, OnOk, flat_map};
ghost use Rattle.std.specs.Fmt.{decimal};
ghost use Rattle.std.specs.Char.{digit_char};
ghost use Rattle.std.specs.Str.{chars};
ghost use Rattle.stabby_layout.specs.Layouts.{next_multiple};
ghost use Rattle.stabby_record.specs.Shape.{places};
ghost use Rattle.stabby_record.specs.Read.{fields_of};
ghost use Rattle.stabby_record.specs.ReadValues.{values_of};
ghost use Rattle.stabby_record.specs.Fits.{Fits};
ghost use Rattle.record_show.specs.Shown.{hex_code, shown_char, quoted, indent, number_line, record_line, field_lines, first_line, text_of, plain_name};

use itoa::Buffer;
use stabby_layout::{Layout, Text};
use stabby_record::{Field, Kind, Schema, Value, ValueList};
use std::alloc::{AllocError, Global};

fn put_number(out: &mut Vec<u8>, number: u64) -> Result<(), AllocError>
    ensures { OnOk result (out.new.items ≡ out.old.items ++ decimal number) }
{
    let mut buffer = Buffer::new();
    out.extend_from_slice(buffer.format(number).as_bytes())
}

fn hex_digit(digit: u8) -> u8
    requires { digit < 16 }
    ensures { result ≡ digit_char digit }
{
    if digit < 10 {
        b'0' + digit
    } else {
        b'a' - 10 + digit
    }
}

// The code of a character between braces.
fn put_code(out: &mut Vec<u8>, code: u8) -> Result<(), AllocError>
    ensures { OnOk result (out.new.items ≡ out.old.items ++ hex_code code) }
{
    out.extend_from_slice(b"\\u{")?;
    if code < 16 {
        return out.extend_from_slice(&[hex_digit(code), b'}']);
    }
    out.extend_from_slice(&[hex_digit(code / 16), hex_digit(code % 16), b'}'])
}

// A character as it stands between quotes.
fn put_char(out: &mut Vec<u8>, c: char) -> Result<(), AllocError>
    ensures { OnOk result (out.new.items ≡ out.old.items ++ shown_char c) }
{
    match c {
        '\0' => out.extend_from_slice(b"\\0"),
        '\t' => out.extend_from_slice(b"\\t"),
        '\n' => out.extend_from_slice(b"\\n"),
        '\r' => out.extend_from_slice(b"\\r"),
        '"' => out.extend_from_slice(b"\\\""),
        '\\' => out.extend_from_slice(b"\\\\"),
        _ => {
            if c.is_control() {
                return put_code(out, c as u32 as u8);
            }
            let mut buffer = [0u8; 4];
            out.extend_from_slice(c.encode_utf8(&mut buffer).as_bytes())
        }
    }
}

fn put_chars(out: &mut Vec<u8>, text: &str) -> Result<(), AllocError>
    ensures { OnOk result (out.new.items ≡ out.old.items ++ flat_map shown_char (chars text.now)) }
{
    for c in text.chars() {
        put_char(out, c)?;
    }
    Ok(())
}

// A name between quotes.
fn put_name(out: &mut Vec<u8>, name: &Text) -> Result<(), AllocError>
    ensures { OnOk result (out.new.items ≡ out.old.items ++ quoted name.now) }
{
    out.push(b'"')?;
    put_chars(out, name.as_str())?;
    out.push(b'"')?;
    Ok(())
}

// Two spaces for each record that the line stands in.
fn put_indent(out: &mut Vec<u8>, depth: usize) -> Result<(), AllocError>
    ensures { OnOk result (out.new.items ≡ out.old.items ++ indent depth) }
{
    for done in 0..depth {
        out.extend_from_slice(b"  ")?;
    }
    Ok(())
}

// The name of a kind of number.
fn plain_name(kind: &Kind) -> &'static [u8]
    ensures { result.now ≡ plain_name kind.now }
{
    match kind {
        Kind::U8 => b"u8",
        Kind::U16 => b"u16",
        Kind::U32 => b"u32",
        Kind::U64 => b"u64",
        Kind::Record(_) => b"",
    }
}

fn put_number_line(
    out: &mut Vec<u8>,
    field: &Field,
    depth: usize,
    offset: usize,
    number: u64,
) -> Result<(), AllocError>
    ensures { OnOk result (out.new.items ≡ out.old.items ++ number_line field.now.name (plain_name field.now.kind) depth offset number) }
{
    put_indent(out, depth)?;
    put_name(out, &field.name)?;
    out.push(b' ')?;
    out.extend_from_slice(plain_name(&field.kind))?;
    out.extend_from_slice(b" at ")?;
    put_number(out, offset as u64)?;
    out.extend_from_slice(b" = ")?;
    put_number(out, number)?;
    out.push(b'\n')?;
    Ok(())
}

fn put_record_line(
    out: &mut Vec<u8>,
    name: &Text,
    schema: &Schema,
    depth: usize,
    offset: usize,
) -> Result<(), AllocError>
    ensures { OnOk result (out.new.items ≡ out.old.items ++ record_line name.now schema.now.name schema.now.id depth offset) }
{
    put_indent(out, depth)?;
    put_name(out, name)?;
    out.extend_from_slice(b" record ")?;
    put_name(out, schema.name())?;
    out.extend_from_slice(b" id ")?;
    put_number(out, schema.id())?;
    out.extend_from_slice(b" at ")?;
    put_number(out, offset as u64)?;
    out.push(b'\n')?;
    Ok(())
}

// The least multiple of the alignment that isn't below `at`.
fn next_start(layout: Layout, at: usize) -> usize
    requires aligned { 1 ≤ layout.align }
    requires small { layout.align ≤ 8 }
    requires room { at < 2 ^ 32 }
    ensures { result ≡ next_multiple layout.align at }
{
    match layout.next_matching(at) {
        Ok(start) => start,
        Err(_) => unreachable!(),
    }
}

// The lines of fields in preorder. The record that they are fields of begins at `begin` of the body, and the first of
// them stands at `at` of the record or after it.
fn put_fields(
    out: &mut Vec<u8>,
    fields: &[Field],
    values: &[Value],
    depth: usize,
    begin: usize,
    at: usize,
) -> Result<(), AllocError>
    requires fits { Fits (fields_of fields.now) (values_of values.now) }
    requires shallow { depth + places (fields_of fields.now) < 2 ^ 32 }
    requires room { at + 15 * places (fields_of fields.now) < 2 ^ 32 }
    requires far { begin + at + 15 * places (fields_of fields.now) < 2 ^ 32 }
    ensures { OnOk result (out.new.items ≡ out.old.items ++ field_lines (fields_of fields.now) (values_of values.now) depth begin at) }
{
    let [field, fields @ ..] = fields else {
        return Ok(());
    };
    let [value, values @ ..] = values else {
        return Ok(());
    };
    let layout = field.kind.layout();
    let start = next_start(layout, at);
    let next = start + layout.size;
    match value {
        Value::Number(n) => {
            put_number_line(out, field, depth, begin + start, *n)?;
            put_fields(out, fields, values, depth, begin, next)
        }
        Value::Record(list) => {
            let Kind::Record(schema) = &field.kind else {
                unreachable!();
            };
            let inner = schema.fields();
            let items = list.values();
            put_record_line(out, &field.name, schema, depth, begin + start)?;
            put_fields(out, inner, items, depth + 1, begin + start, 0)?;
            put_fields(out, fields, values, depth, begin, next)
        }
    }
}

// The line of the whole record.
fn put_first_line(out: &mut Vec<u8>, schema: &Schema) -> Result<(), AllocError>
    ensures { OnOk result (out.new.items ≡ out.old.items ++ first_line schema.now) }
{
    let layout = schema.layout();
    put_name(out, schema.name())?;
    out.extend_from_slice(b" id ")?;
    put_number(out, schema.id())?;
    out.extend_from_slice(b" size ")?;
    put_number(out, layout.size as u64)?;
    out.extend_from_slice(b" align ")?;
    put_number(out, layout.align as u64)?;
    out.push(b'\n')?;
    Ok(())
}

/// The text of a message of this schema with these values.
pub fn make_text(alloc: Global, schema: &Schema, list: &ValueList) -> Result<Vec<u8>, AllocError>
    requires { Fits schema.now.fields list.now }
    ensures { IfOk result (λ text. text.items ≡ text_of schema.now list.now) }
{
    let fields = schema.fields();
    let mut out = Vec::new(alloc);
    put_first_line(&mut out, schema)?;
    put_fields(&mut out, fields, list.values(), 1, 0, 0)?;
    Ok(out)
}
