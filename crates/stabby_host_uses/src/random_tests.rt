//! 1,000 random calls of a host beside a plain model of it.
use stabby_dyn::{AnyVt, VTable, VtDrop};
use stabby_dyn_uses::{Content, Slot};
use stabby_host::{AskFault, GuestFault, Host, LoadFault, Need, UnloadFault, ViewFault};
use stabby_layout::Described;
use std::alloc::Global;
use std::sync::Wait;
use std::test::Fail;

const CALLS: u64 = 1_000;

const LIMIT: u64 = 20;

#[derive(Clone, Copy, PartialEq, Eq)]
enum Kind {
    Byte,
    Number,
}

// What the model knows of a plugin.
#[derive(Clone, Copy)]
struct Plain {
    live: bool,
    kind: Kind,
    value: u8,
    table: bool,
    bound: Option<u64>,
}

#[derive(Drop)]
struct Model {
    plugins: Vec<Plain>,
    // The table that was loaded first: its number is 0.
    first: Option<bool>,
}

fn next(x: u64) -> u64 {
    x.wrapping_mul(6364136223846793005)
        .wrapping_add(1442695040888963407)
}

fn table_of(which: bool) -> VTable<AnyVt> {
    VTable {
        tail: VtDrop { word: 3 },
        head: AnyVt {
            word: if which { 9 } else { 8 },
        },
    }
}

fn slot_of(alloc: Global, kind: Kind, value: u8) -> Result<Slot, &'static str> {
    match kind {
        Kind::Byte => Slot::of_byte(alloc, value).map_err(|_| "memory"),
        Kind::Number => Slot::of_number(alloc, u64::from(value)).map_err(|_| "memory"),
    }
}

fn holds(slot: &Slot, kind: Kind, value: u8) -> bool {
    match slot.content {
        Content::Byte(byte) => kind == Kind::Byte && byte == value,
        Content::Number(number) => kind == Kind::Number && number == u64::from(value),
    }
}

fn need_of(alloc: Global, kind: Kind) -> Result<Need, &'static str> {
    match kind {
        Kind::Byte => {
            let report = <u8 as Described>::report(alloc).map_err(|_| "memory")?;
            Ok(Need { id: 1, report })
        }
        Kind::Number => {
            let report = <u64 as Described>::report(alloc).map_err(|_| "memory")?;
            Ok(Need { id: 4, report })
        }
    }
}

fn needs_of(alloc: Global, kind: Option<Kind>) -> Result<Vec<Need>, &'static str> {
    let mut needs = Vec::new(alloc);
    if let Some(kind) = kind {
        let need = need_of(alloc, kind)?;
        needs.push(need).map_err(|_| "memory")?;
    }
    Ok(needs)
}

fn least_of(plugins: &[Plain], kind: Kind) -> Option<u64> {
    let mut number = 0;
    for plugin in plugins {
        if plugin.live && plugin.kind == kind {
            return Some(number);
        }
        number += 1;
    }
    None
}

fn least_bound_to(plugins: &[Plain], other: u64) -> Option<u64> {
    let mut number = 0;
    for plugin in plugins {
        if plugin.live && plugin.bound == Some(other) {
            return Some(number);
        }
        number += 1;
    }
    None
}

fn live_in(plugins: &[Plain]) -> u64 {
    let mut live = 0;
    for plugin in plugins {
        if plugin.live {
            live += 1;
        }
    }
    live
}

// The plugin that the need is bound to, or why nothing is loaded.
fn bound_by_model(model: &Model, need: Option<Kind>) -> Result<Option<u64>, LoadFault> {
    let live = live_in(&model.plugins);
    if live == LIMIT {
        return Err(LoadFault::Full { live });
    }
    let Some(kind) = need else {
        return Ok(None);
    };
    match least_of(&model.plugins, kind) {
        Some(number) => Ok(Some(number)),
        None => Err(LoadFault::Unmet { place: 0 }),
    }
}

fn load_both(
    alloc: Global,
    host: &mut Host<Slot>,
    model: &mut Model,
    plugin: Plain,
    need: Option<Kind>,
) -> Result<bool, &'static str> {
    let slot = slot_of(alloc, plugin.kind, plugin.value)?;
    let needs = needs_of(alloc, need)?;
    let expected = bound_by_model(model, need);
    match host.load(alloc, slot, &table_of(plugin.table), needs) {
        Ok(number) => {
            let Ok(bound) = expected else {
                return Ok(false);
            };
            let right = number == model.plugins.len() as u64;
            if model.first.is_none() {
                model.first = Some(plugin.table);
            }
            let loaded = Plain { bound, ..plugin };
            model.plugins.push(loaded).map_err(|_| "memory")?;
            Ok(right)
        }
        Err((slot, needs, fault)) => Ok(
            expected == Err(fault)
                && holds(&slot, plugin.kind, plugin.value)
                && needs.len() as u64 == u64::from(need.is_some()),
        ),
    }
}

fn unload_both(host: &mut Host<Slot>, model: &mut Model, number: u64) -> bool {
    let needed = least_bound_to(&model.plugins, number);
    let Some(plugin) = model.plugins.get_mut(number as usize) else {
        return host.unload(number).err() == Some(UnloadFault::Unknown);
    };
    if !plugin.live {
        return host.unload(number).err() == Some(UnloadFault::Ended);
    }
    if let Some(by) = needed {
        return host.unload(number).err() == Some(UnloadFault::Needed { by });
    }
    plugin.live = false;
    match host.unload(number) {
        Ok(Some(slot)) => holds(&slot, plugin.kind, plugin.value),
        _ => false,
    }
}

// Whether a live plugin answers what the model says of it.
fn answers_as(host: &Host<Slot>, number: u64, plugin: &Plain, first: Option<bool>) -> bool {
    let as_number = host.interface::<u64>(number);
    let as_byte = host.interface::<u8>(number);
    let told = match plugin.kind {
        Kind::Byte => {
            as_byte == Ok(&plugin.value)
                && as_number == Err(AskFault::Differs { held: 1, asked: 4 })
        }
        Kind::Number => {
            as_number == Ok(&u64::from(plugin.value))
                && as_byte == Err(AskFault::Differs { held: 4, asked: 1 })
        }
    };
    let bound = match (host.bound(number), plugin.bound) {
        (Ok(bound), Some(other)) => bound.len() == 1 && bound.contains(&other),
        (Ok(bound), None) => bound.is_empty(),
        _ => false,
    };
    told && bound && host.table(number) == Ok(u64::from(first != Some(plugin.table)))
}

fn views_as(alloc: Global, host: &Host<Slot>, number: u64, table: bool, of: u64) -> bool {
    let other = matches!(
        host.view(alloc, number, table_of(!table)),
        Err(ViewFault::OtherTable { held }) if held == of
    );
    match host.view(alloc, number, table_of(table)) {
        Ok(seen) => other && seen.vtable().head.word == table_of(table).head.word,
        Err(_) => false,
    }
}

fn ask_both(alloc: Global, host: &Host<Slot>, model: &Model, number: u64) -> bool {
    let fault = match model.plugins.get(number as usize) {
        Some(plugin) if plugin.live => {
            let of = u64::from(model.first != Some(plugin.table));
            return answers_as(host, number, plugin, model.first)
                && views_as(alloc, host, number, plugin.table, of);
        }
        Some(_) => AskFault::Ended,
        None => AskFault::Unknown,
    };
    host.interface::<u64>(number) == Err(fault)
        && host.table(number) == Err(fault)
        && host.bound(number) == Err(fault)
        && matches!(
            host.view(alloc, number, table_of(true)),
            Err(ViewFault::Ask(told)) if told == fault
        )
}

// A guest comes and goes.
fn guest_both<R: Wait>(rt: &R, host: &mut Host<Slot>, model: &Model, number: u64) -> bool {
    let expected = match model.plugins.get(number as usize) {
        Some(plugin) if plugin.live => None,
        Some(_) => Some(AskFault::Ended),
        None => Some(AskFault::Unknown),
    };
    match (host.guest(rt, number), expected) {
        (Ok(weak), None) => {
            weak.end();
            true
        }
        (Err(GuestFault::Ask(fault)), Some(expected)) => fault == expected,
        _ => false,
    }
}

fn need_by(x: u64) -> Option<Kind> {
    match x % 3 {
        0 => None,
        1 => Some(Kind::Byte),
        _ => Some(Kind::Number),
    }
}

fn plain_by(x: u64) -> Plain {
    Plain {
        live: true,
        kind: if x % 2 == 0 { Kind::Byte } else { Kind::Number },
        value: (x / 2 % 256) as u8,
        table: x / 512 % 2 == 0,
        bound: None,
    }
}

// A plugin among the last, or any: the number after the last too.
fn number_by(x: u64, loaded: u64) -> u64 {
    let back = x / 2 % 10;
    if x % 2 == 0 || loaded < back {
        x / 2 % loaded.max(1)
    } else {
        loaded - back
    }
}

fn call_both<R: Wait>(
    rt: &R,
    alloc: Global,
    host: &mut Host<Slot>,
    model: &mut Model,
    x: u64,
) -> Result<bool, &'static str> {
    let number = number_by(x / 8, model.plugins.len() as u64);
    match x % 8 {
        0 | 1 | 2 => load_both(alloc, host, model, plain_by(x / 8), need_by(x / 8192)),
        3 | 4 => Ok(unload_both(host, model, number)),
        5 => Ok(guest_both(rt, host, model, number)),
        _ => Ok(ask_both(alloc, host, model, number)),
    }
}

#[test]
fn random_calls(rt: HostRuntime) -> Result<(), Fail> {
    let Ok(mut host) = Host::new(rt.alloc(), LIMIT) else {
        return Err("memory")?;
    };
    let mut model = Model {
        plugins: Vec::new(rt.alloc()),
        first: None,
    };
    let mut x = 22;
    for _ in 0..CALLS {
        x = next(x);
        if !call_both(&rt, rt.alloc(), &mut host, &mut model, x >> 33)? {
            return Err("an answer")?;
        }
        if host.loaded() != model.plugins.len() as u64 || host.live() != live_in(&model.plugins) {
            return Err("counts")?;
        }
    }
    assert!(rt; host.loaded() > 100);
    Ok(())
}
