//! Loads that are refused, and made again.
use stabby_dyn::{AnyVt, VTable, VtDrop};
use stabby_dyn_uses::Slot;
use stabby_host::{AskFault, Host, LoadFault, Need};
use stabby_layout::{AllocationError, Described};
use std::alloc::Global;
use std::test::Fail;

// What a host is to answer of a live plugin.
#[derive(Clone, Copy)]
struct Told {
    number: Option<u64>,
    byte: Option<u8>,
    table: u64,
    bound: Option<u64>,
}

const FIVE: Told = Told {
    number: Some(5),
    byte: None,
    table: 0,
    bound: None,
};

const SEVEN: Told = Told {
    number: None,
    byte: Some(7),
    table: 1,
    bound: Some(0),
};

const SIX: Told = Told {
    number: Some(6),
    byte: None,
    table: 0,
    bound: None,
};

fn table_of(word: u64) -> VTable<AnyVt> {
    VTable {
        tail: VtDrop { word: 3 },
        head: AnyVt { word },
    }
}

// A value that is made, or made at the second try.
fn once_more<T: Drop, F: Fn() -> Result<T, AllocationError>>(make: F) -> Result<T, Fail>
    requires { F.IsAlwaysCallable make }
{
    match make() {
        Ok(made) => Ok(made),
        Err(_) => match make() {
            Ok(made) => Ok(made),
            Err(_) => Err("memory")?,
        },
    }
}

fn needs_number(alloc: Global) -> Result<Vec<Need>, AllocationError> {
    let report = <u64 as Described>::report(alloc)?;
    let mut needs = Vec::new(alloc);
    match needs.push(Need { id: 4, report }) {
        Ok(()) => Ok(needs),
        Err(_) => Err(AllocationError::Memory),
    }
}

fn is_told(host: &Host<Slot>, plugin: u64, told: &Told) -> bool {
    let is_bound = match host.bound(plugin) {
        Ok(bound) => bound.first().copied() == told.bound && bound.len() < 2,
        Err(_) => false,
    };
    is_bound
        && host.table(plugin) == Ok(told.table)
        && host.interface::<u64>(plugin).ok().copied() == told.number
        && host.interface::<u8>(plugin).ok().copied() == told.byte
}

// Whether the host has these plugins, of which some are ended, and no others.
fn has(host: &Host<Slot>, plugins: &[Option<Told>]) -> bool {
    let mut live = 0u64;
    for (plugin, told) in plugins.iter().enumerate() {
        let is_right = match told {
            Some(told) => is_told(host, plugin as u64, told),
            None => host.table(plugin as u64) == Err(AskFault::Ended),
        };
        if !is_right {
            return false;
        }
        live = live.wrapping_add(told.is_some() as u64);
    }
    let loaded = plugins.len() as u64;
    host.live() == live && host.loaded() == loaded && host.table(loaded) == Err(AskFault::Unknown)
}

// A load into a host of these plugins. Where it is refused the host is as before; where that was for want of memory, the
// same load is made again, with the value and the needs that came back.
fn load(
    host: &mut Host<Slot>,
    alloc: Global,
    plugins: &[Option<Told>],
    slot: Slot,
    word: u64,
    needs: Vec<Need>,
) -> Result<Result<u64, (Slot, Vec<Need>, LoadFault)>, Fail> {
    let table = table_of(word);
    let answer = match host.load(alloc, slot, &table, needs) {
        Err((slot, needs, LoadFault::Memory)) if has(host, plugins) => {
            host.load(alloc, slot, &table, needs)
        }
        answer => answer,
    };
    if answer.is_err() && !has(host, plugins) {
        return Err("a refused load leaves the host as it was")?;
    }
    Ok(answer)
}

// It is to pass also where any one request for memory is refused, which `checks/memory` tries.
#[test]
fn loaded_after_a_refusal(rt: HostRuntime) -> Result<(), Fail> {
    let alloc = rt.alloc();
    let mut host: Host<Slot> = once_more(|| Host::new(alloc, 3))?;
    let seven = once_more(|| Slot::of_byte(alloc, 7))?;
    let needs = once_more(|| needs_number(alloc))?;
    let Err((seven, needs, LoadFault::Unmet { place: 0 })) = load(
        &mut host,
        alloc,
        &[],
        seven,
        8,
        needs,
    )?
    else {
        return Err("no number is loaded yet")?;
    };
    let five = once_more(|| Slot::of_number(alloc, 5))?;
    let loaded = load(&mut host, alloc, &[], five, 9, Vec::new(alloc))?;
    assert!(rt; matches!(loaded, Ok(0)));
    assert!(rt; has(&host, &[Some(FIVE)]));
    let loaded = load(&mut host, alloc, &[Some(FIVE)], seven, 8, needs)?;
    assert!(rt; matches!(loaded, Ok(1)));
    assert!(rt; has(&host, &[Some(FIVE), Some(SEVEN)]));
    Ok(())
}

// As the one above.
#[test]
fn loaded_once_there_is_room(rt: HostRuntime) -> Result<(), Fail> {
    let alloc = rt.alloc();
    let mut host: Host<Slot> = once_more(|| Host::new(alloc, 2))?;
    let five = once_more(|| Slot::of_number(alloc, 5))?;
    let loaded = load(&mut host, alloc, &[], five, 9, Vec::new(alloc))?;
    assert!(rt; matches!(loaded, Ok(0)));
    let six = once_more(|| Slot::of_number(alloc, 6))?;
    let loaded = load(&mut host, alloc, &[Some(FIVE)], six, 9, Vec::new(alloc))?;
    assert!(rt; matches!(loaded, Ok(1)));
    let seven = once_more(|| Slot::of_byte(alloc, 7))?;
    let needs = once_more(|| needs_number(alloc))?;
    let Err((seven, needs, LoadFault::Full { live: 2 })) = load(
        &mut host,
        alloc,
        &[Some(FIVE), Some(SIX)],
        seven,
        8,
        needs,
    )?
    else {
        return Err("two plugins are live")?;
    };
    assert!(rt; host.unload(1).is_ok());
    let loaded = load(&mut host, alloc, &[Some(FIVE), None], seven, 8, needs)?;
    assert!(rt; matches!(loaded, Ok(2)));
    assert!(rt; has(&host, &[Some(FIVE), None, Some(SEVEN)]));
    Ok(())
}
