//! The schemas and values of the tests.
use stabby_layout::Text;
use stabby_record::{Field, Kind, Schema, Value, ValueList};
use std::alloc::Global;

/// The message of `P` with 1 and 258: its head, and then `a`, three bytes of padding, and `b`.
pub(crate) const MESSAGE: [u8; 29] = [
    0x53, 0x52, 0x31, 0x0a, 0x01, 0x50, 0x64, 0, 0, 0, 0, 0, 0, 0, 0x02, 0x01, 0x61, 0x01, 0x01,
    0x62, 0x03, 0x01, 0, 0, 0, 0x02, 0x01, 0, 0,
];

pub(crate) fn text(alloc: Global, text: &str) -> Option<Text> {
    match Text::from_str(alloc, text) {
        Ok(text) => Some(text),
        Err(_) => None,
    }
}

fn push_field(fields: &mut Vec<Field>, alloc: Global, name: &str, kind: Kind) -> Option<()> {
    let name = text(alloc, name)?;
    match fields.push(Field { name, kind }) {
        Ok(()) => Some(()),
        Err(_) => None,
    }
}

fn schema(alloc: Global, name: &str, id: u64, fields: Vec<Field>) -> Option<Schema> {
    let name = text(alloc, name)?;
    match Schema::new(name, id, fields) {
        Ok(schema) => Some(schema),
        Err(_) => None,
    }
}

/// `P`: `a` of one byte, and `b` of the kind.
pub(crate) fn pair(alloc: Global, second: Kind) -> Option<Schema> {
    let mut fields = Vec::new(alloc);
    push_field(&mut fields, alloc, "a", Kind::U8)?;
    push_field(&mut fields, alloc, "b", second)?;
    schema(alloc, "P", 100, fields)
}

/// `Q`: `x` of one byte, the record `P`, and `y` of two bytes.
pub(crate) fn wrapped(alloc: Global) -> Option<Schema> {
    let inner = pair(alloc, Kind::U32)?;
    let mut fields = Vec::new(alloc);
    push_field(&mut fields, alloc, "x", Kind::U8)?;
    push_field(&mut fields, alloc, "p", Kind::Record(inner))?;
    push_field(&mut fields, alloc, "y", Kind::U16)?;
    schema(alloc, "Q", 101, fields)
}

fn push_value(values: &mut Vec<Value>, value: Value) -> Option<()> {
    match values.push(value) {
        Ok(()) => Some(()),
        Err(_) => None,
    }
}

/// A value of `P`.
pub(crate) fn pair_value(alloc: Global, a: u64, b: u64) -> Option<Value> {
    let mut values = Vec::new(alloc);
    push_value(&mut values, Value::Number(a))?;
    push_value(&mut values, Value::Number(b))?;
    Some(Value::Record(ValueList::new(values)))
}

/// A value of `Q`.
pub(crate) fn wrapped_value(alloc: Global, x: u64) -> Option<Value> {
    let inner = pair_value(alloc, 1, 258)?;
    let mut values = Vec::new(alloc);
    push_value(&mut values, Value::Number(x))?;
    push_value(&mut values, inner)?;
    push_value(&mut values, Value::Number(7))?;
    Some(Value::Record(ValueList::new(values)))
}

/// The number of that field; `None` where there is none.
pub(crate) fn number_at(value: &Value, index: usize) -> Option<u64> {
    let Value::Record(list) = value else {
        return None;
    };
    match list.values().get(index) {
        Some(Value::Number(n)) => Some(*n),
        _ => None,
    }
}
