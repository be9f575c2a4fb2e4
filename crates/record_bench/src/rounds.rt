//! One record, written or read many times.
use crate::cases::{Answer, schema_of, value_of};
use stabby_record::{Schema, Value, read, write};
use std::alloc::Global;

fn write_times(alloc: Global, schema: &Schema, value: &Value, count: u64) -> Option<u64> {
    let mut sum = 0u64;
    for _ in 0..count {
        let Ok(bytes) = write(alloc, schema, value) else {
            return None;
        };
        sum = sum.wrapping_add(bytes.len() as u64);
    }
    Some(sum)
}

fn first_number(value: &Value) -> u64 {
    let Value::Record(list) = value else {
        return 0;
    };
    match list.values().get(0) {
        Some(Value::Number(n)) => *n,
        _ => 0,
    }
}

fn read_times(alloc: Global, schema: &Schema, bytes: &[u8], count: u64) -> Option<u64> {
    let mut sum = 0u64;
    for _ in 0..count {
        let Ok(value) = read(alloc, schema, bytes) else {
            return None;
        };
        sum = sum.wrapping_add(first_number(&value));
    }
    Some(sum)
}

fn summed(sum: Option<u64>) -> Answer {
    match sum {
        Some(sum) => Answer::Sum { sum },
        None => Answer::Memory,
    }
}

/// Writes the record of the message so many times. Answers the sum of the messages' lengths.
pub fn write_rounds(alloc: Global, message: &[u8], count: u64) -> Answer {
    let schema = match schema_of(alloc, message) {
        Ok(schema) => schema,
        Err(answer) => return answer,
    };
    match value_of(alloc, &schema, message) {
        Ok(value) => summed(write_times(alloc, &schema, &value, count)),
        Err(answer) => answer,
    }
}

/// Reads the message so many times. Answers the sum of its first number.
pub fn read_rounds(alloc: Global, message: &[u8], count: u64) -> Answer {
    let schema = match schema_of(alloc, message) {
        Ok(schema) => schema,
        Err(answer) => return answer,
    };
    match value_of(alloc, &schema, message) {
        Ok(_) => summed(read_times(alloc, &schema, message, count)),
        Err(answer) => answer,
    }
}
