//! A record of two numbers: its layout, its message at stated bytes, and its report.
use crate::fixtures::{MESSAGE, number_at, pair, pair_value};
use crate::{exchange, exchange_described};
use stabby_layout::{FieldReport, Layout};
use stabby_record::{Kind, Schema, describe, read, write};
use std::alloc::Global;
use std::test::Fail;

#[test]
fn pair_layout(rt: HostRuntime) -> Result<(), Fail> {
    let Some(schema) = pair(rt.alloc(), Kind::U32) else {
        return Err("no memory")?;
    };
    assert!(rt; schema.layout() == Layout { size: 8, align: 4 });
    assert!(rt; schema.fields().len() == 2);
    Ok(())
}

fn second_offset(schema: &Schema) -> usize {
    if schema.fields().len() == 2 {
        return schema.offset(1);
    }
    0
}

#[test]
fn pair_offsets(rt: HostRuntime) -> Result<(), Fail> {
    let Some(schema) = pair(rt.alloc(), Kind::U32) else {
        return Err("no memory")?;
    };
    assert!(rt; second_offset(&schema) == 4);
    Ok(())
}

fn written(alloc: Global) -> Option<Vec<u8>> {
    let schema = pair(alloc, Kind::U32)?;
    let value = pair_value(alloc, 1, 258)?;
    match write(alloc, &schema, &value) {
        Ok(bytes) => Some(bytes),
        Err(_) => None,
    }
}

#[test]
fn pair_as_bytes(rt: HostRuntime) -> Result<(), Fail> {
    let Some(bytes) = written(rt.alloc()) else {
        return Err("not written")?;
    };
    assert!(rt; bytes.as_slice() == &MESSAGE[..]);
    Ok(())
}

#[test]
fn pair_from_bytes(rt: HostRuntime) -> Result<(), Fail> {
    let Some(schema) = pair(rt.alloc(), Kind::U32) else {
        return Err("no memory")?;
    };
    let Ok(value) = read(rt.alloc(), &schema, &MESSAGE[..]) else {
        return Err("not read")?;
    };
    assert!(rt; number_at(&value, 0) == Some(1));
    assert!(rt; number_at(&value, 1) == Some(258));
    assert!(rt; number_at(&value, 2).is_none());
    Ok(())
}

#[test]
fn pair_described(rt: HostRuntime) -> Result<(), Fail> {
    let Some(schema) = pair(rt.alloc(), Kind::U32) else {
        return Err("no memory")?;
    };
    let Ok(found) = describe(rt.alloc(), &MESSAGE[..]) else {
        return Err("not described")?;
    };
    assert!(rt; found == schema);
    Ok(())
}

fn reports(field: &FieldReport, name: &str, id: u64, size: usize) -> bool {
    field.name.as_str() == name && field.id == id && field.layout == Layout { size, align: size }
}

#[test]
fn pair_report(rt: HostRuntime) -> Result<(), Fail> {
    let Some(schema) = pair(rt.alloc(), Kind::U32) else {
        return Err("no memory")?;
    };
    let Ok(report) = schema.report(rt.alloc()) else {
        return Err("no memory")?;
    };
    let [a, b] = report.fields() else {
        return Err("not two fields")?;
    };
    assert!(rt; report.name().as_str() == "P");
    assert!(rt; reports(a, "a", 1, 1));
    assert!(rt; reports(b, "b", 3, 4));
    Ok(())
}

// What comes over between two schemas.
fn exchanged(alloc: Global) -> Option<u64> {
    let ours = pair(alloc, Kind::U32)?;
    let theirs = pair(alloc, Kind::U32)?;
    let value = pair_value(alloc, 1, 258)?;
    match exchange(alloc, &ours, &theirs, &value) {
        Ok(found) => number_at(&found, 1),
        Err(_) => None,
    }
}

fn exchanged_described(alloc: Global) -> Option<u64> {
    let schema = pair(alloc, Kind::U32)?;
    let value = pair_value(alloc, 1, 258)?;
    match exchange_described(alloc, &schema, &value) {
        Ok((_, found)) => number_at(&found, 1),
        Err(_) => None,
    }
}

#[test]
fn pair_exchanged(rt: HostRuntime) {
    assert!(rt; exchanged(rt.alloc()) == Some(258));
    assert!(rt; exchanged_described(rt.alloc()) == Some(258));
}
