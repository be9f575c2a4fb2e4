//! Each refusal, with the byte or the place that it names.
use crate::fixtures::{MESSAGE, pair, pair_value, text};
use crate::{ExchangeFault, exchange};
use stabby_record::{DescribeFault, Field, Kind, RecordFault, Schema, SchemaFault, describe, read};
use std::alloc::Global;
use std::test::Fail;

// The fault of reading the bytes under `P`.
fn refused(alloc: Global, second: Kind, bytes: &[u8]) -> Option<RecordFault> {
    let schema = pair(alloc, second)?;
    match read(alloc, &schema, bytes) {
        Ok(_) => None,
        Err(fault) => Some(fault),
    }
}

#[test]
fn cut_message(rt: HostRuntime) {
    let fault = refused(rt.alloc(), Kind::U32, &MESSAGE[..28]);
    assert!(rt; fault == Some(RecordFault::Truncated { at: 28 }));
}

#[test]
fn filled_padding(rt: HostRuntime) {
    let mut bytes = MESSAGE;
    bytes[22] = 1;
    let fault = refused(rt.alloc(), Kind::U32, &bytes[..]);
    assert!(rt; fault == Some(RecordFault::Padding { at: 22 }));
}

#[test]
fn one_byte_more(rt: HostRuntime) {
    let mut bytes = [0u8; 30];
    bytes[..29].copy_from_slice(&MESSAGE);
    let fault = refused(rt.alloc(), Kind::U32, &bytes[..]);
    assert!(rt; fault == Some(RecordFault::Trailing { at: 29 }));
}

#[test]
fn other_width(rt: HostRuntime) {
    let fault = refused(rt.alloc(), Kind::U16, &MESSAGE[..]);
    assert!(rt; fault == Some(RecordFault::Differs { at: 20 }));
}

fn exchanged(alloc: Global, theirs: Kind, a: u64) -> Option<ExchangeFault> {
    let ours = pair(alloc, Kind::U32)?;
    let theirs = pair(alloc, theirs)?;
    let value = pair_value(alloc, a, 258)?;
    match exchange(alloc, &ours, &theirs, &value) {
        Ok(_) => None,
        Err(fault) => Some(fault),
    }
}

#[test]
fn exchange_refused(rt: HostRuntime) {
    let differs = exchanged(rt.alloc(), Kind::U16, 1);
    assert!(rt; differs == Some(ExchangeFault::Differs { at: 20 }));
    let shape = exchanged(rt.alloc(), Kind::U32, 256);
    assert!(rt; shape == Some(ExchangeFault::Shape { at: 1 }));
}

#[test]
fn magic_alone(rt: HostRuntime) {
    let described = describe(rt.alloc(), &MESSAGE[..4]);
    assert!(rt; matches!(described, Err(DescribeFault::NotRecord)));
}

fn made_of_none(alloc: Global) -> Option<SchemaFault> {
    let name = text(alloc, "E")?;
    let fields: Vec<Field> = Vec::new(alloc);
    match Schema::new(name, 1, fields) {
        Ok(_) => None,
        Err((_, _, fault)) => Some(fault),
    }
}

#[test]
fn no_fields(rt: HostRuntime) {
    assert!(rt; made_of_none(rt.alloc()) == Some(SchemaFault::Fields { count: 0 }));
}
