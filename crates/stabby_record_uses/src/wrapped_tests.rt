//! A record in a record.
use crate::fixtures::{number_at, wrapped, wrapped_value};
use stabby_layout::Layout;
use stabby_record::{RecordWriteFault, Schema, read, write};
use std::alloc::Global;
use std::test::Fail;

fn last_offsets(schema: &Schema) -> (usize, usize) {
    if schema.fields().len() == 3 {
        return (schema.offset(1), schema.offset(2));
    }
    (0, 0)
}

#[test]
fn record_in_a_record(rt: HostRuntime) -> Result<(), Fail> {
    let Some(schema) = wrapped(rt.alloc()) else {
        return Err("no memory")?;
    };
    assert!(rt; schema.layout() == Layout { size: 16, align: 4 });
    assert!(rt; last_offsets(&schema) == (4, 12));
    Ok(())
}

fn misfit(alloc: Global) -> Option<RecordWriteFault> {
    let schema = wrapped(alloc)?;
    let value = wrapped_value(alloc, 256)?;
    match write(alloc, &schema, &value) {
        Ok(_) => None,
        Err(fault) => Some(fault),
    }
}

#[test]
fn number_too_great(rt: HostRuntime) {
    assert!(rt; misfit(rt.alloc()) == Some(RecordWriteFault::Shape { at: 1 }));
}

fn last_read(alloc: Global) -> Option<u64> {
    let schema = wrapped(alloc)?;
    let value = wrapped_value(alloc, 255)?;
    let Ok(bytes) = write(alloc, &schema, &value) else {
        return None;
    };
    let Ok(found) = read(alloc, &schema, bytes.as_slice()) else {
        return None;
    };
    number_at(&found, 2)
}

#[test]
fn record_in_a_record_round(rt: HostRuntime) {
    assert!(rt; last_read(rt.alloc()) == Some(7));
}
