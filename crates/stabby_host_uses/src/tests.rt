//! Hosts of bytes and numbers.
use stabby_dyn::{AnyVt, VTable, VtDrop};
use stabby_dyn_uses::{Content, Slot};
use stabby_host::{AskFault, Host, LoadFault, Need, UnloadFault, ViewFault};
use stabby_layout::Described;
use std::alloc::Global;
use std::test::Fail;

const TABLE: VTable<AnyVt> = VTable {
    tail: VtDrop { word: 3 },
    head: AnyVt { word: 9 },
};

const OTHER_TABLE: VTable<AnyVt> = VTable {
    tail: VtDrop { word: 3 },
    head: AnyVt { word: 8 },
};

fn host_of_two(alloc: Global) -> Result<Host<Slot>, Fail> {
    match Host::new(alloc, 2) {
        Ok(host) => Ok(host),
        Err(_) => Err("memory")?,
    }
}

// The number of a plugin that holds the number 5 and needs nothing.
fn load_five(host: &mut Host<Slot>, alloc: Global) -> Result<u64, Fail> {
    let slot = Slot::of_number(alloc, 5).map_err(|_| "memory")?;
    match host.load(alloc, slot, &TABLE, Vec::new(alloc)) {
        Ok(number) => Ok(number),
        Err(_) => Err("not loaded")?,
    }
}

// The outcome of loading the byte 7, which needs a number.
fn load_seven(host: &mut Host<Slot>, alloc: Global) -> Result<Result<u64, LoadFault>, Fail> {
    let slot = Slot::of_byte(alloc, 7).map_err(|_| "memory")?;
    let report = <u64 as Described>::report(alloc).map_err(|_| "memory")?;
    let mut needs = Vec::new(alloc);
    if needs.push(Need { id: 4, report }).is_err() {
        return Err("memory")?;
    }
    match host.load(alloc, slot, &TABLE, needs) {
        Ok(number) => Ok(Ok(number)),
        Err((slot, needs, fault)) => {
            if !matches!(slot.content, Content::Byte(7)) || needs.len() != 1 {
                return Err("value and needs come back")?;
            }
            Ok(Err(fault))
        }
    }
}

// What is left of a value that was unloaded.
fn number_of(given: Option<Slot>) -> Option<u64> {
    match given {
        Some(
            Slot {
                report: _,
                content: Content::Number(number),
            },
        ) => Some(number),
        _ => None,
    }
}

#[test]
fn one_needs_the_other(rt: HostRuntime) -> Result<(), Fail> {
    let alloc = rt.alloc();
    let mut host = host_of_two(alloc)?;
    assert_eq!(rt; load_five(&mut host, alloc)?, 0);
    assert_eq!(rt; load_seven(&mut host, alloc)?, Ok(1));
    assert_eq!(rt; host.bound(1), Ok(&[0u64][..]));
    assert_eq!(rt; (host.table(0), host.table(1)), (Ok(0), Ok(0)));
    assert_eq!(rt;
        load_seven(&mut host, alloc)?,
        Err(LoadFault::Full { live: 2 })
    );
    assert_eq!(rt; host.unload(0).err(), Some(UnloadFault::Needed { by: 1 }));
    assert_eq!(rt; (host.live(), host.loaded()), (2, 2));
    Ok(())
}

#[test]
fn content_is_asked_by_type(rt: HostRuntime) -> Result<(), Fail> {
    let alloc = rt.alloc();
    let mut host = host_of_two(alloc)?;
    load_five(&mut host, alloc)?;
    let _ = load_seven(&mut host, alloc)?;
    assert_eq!(rt; host.interface::<u64>(0), Ok(&5u64));
    assert_eq!(rt;
        host.interface::<u64>(1),
        Err(AskFault::Differs { held: 1, asked: 4 })
    );
    assert_eq!(rt; host.interface::<u8>(1), Ok(&7u8));
    assert_eq!(rt; host.interface::<u64>(2), Err(AskFault::Unknown));
    Ok(())
}

#[test]
fn unloaded_in_order(rt: HostRuntime) -> Result<(), Fail> {
    let alloc = rt.alloc();
    let mut host = host_of_two(alloc)?;
    load_five(&mut host, alloc)?;
    let _ = load_seven(&mut host, alloc)?;
    let Ok(Some(last)) = host.unload(1) else {
        return Err("nothing is bound to it")?;
    };
    assert!(rt; matches!(last.content, Content::Byte(7)));
    let Ok(first) = host.unload(0) else {
        return Err("nothing is bound to it any more")?;
    };
    assert_eq!(rt; number_of(first), Some(5));
    assert_eq!(rt; host.unload(0).err(), Some(UnloadFault::Ended));
    assert_eq!(rt; host.interface::<u64>(0), Err(AskFault::Ended));
    assert_eq!(rt; (host.live(), host.loaded()), (0, 2));
    Ok(())
}

#[test]
fn guest_keeps_the_value(rt: HostRuntime) -> Result<(), Fail> {
    let alloc = rt.alloc();
    let mut host = host_of_two(alloc)?;
    assert_eq!(rt;
        load_seven(&mut host, alloc)?,
        Err(LoadFault::Unmet { place: 0 })
    );
    assert_eq!(rt; load_five(&mut host, alloc)?, 0);
    let Ok(mut guest) = host.guest(&rt, 0) else {
        return Err("memory")?;
    };
    let Ok(Some(strong)) = guest.upgrade(&rt) else {
        return Err("the plugin is live")?;
    };
    assert!(rt; matches!(host.unload(0), Ok(None)));
    let Ok(value) = strong.end() else {
        return Err("it is the last strong handle")?;
    };
    assert_eq!(rt; number_of(Some(value)), Some(5));
    assert!(rt; matches!(guest.upgrade(&rt), Ok(None)));
    assert_eq!(rt; guest.end().word(), 1);
    Ok(())
}

#[test]
fn report_decides_as_the_id_does(rt: HostRuntime) -> Result<(), Fail> {
    let alloc = rt.alloc();
    let mut host = host_of_two(alloc)?;
    let report = <u8 as Described>::report(alloc).map_err(|_| "memory")?;
    let slot = Slot {
        report,
        content: Content::Number(5),
    };
    let Ok(number) = host.load(alloc, slot, &TABLE, Vec::new(alloc)) else {
        return Err("memory")?;
    };
    assert_eq!(rt;
        host.interface::<u64>(number),
        Err(AskFault::Differs { held: 4, asked: 4 })
    );
    Ok(())
}

#[test]
fn viewed_with_its_own_table(rt: HostRuntime) -> Result<(), Fail> {
    let alloc = rt.alloc();
    let mut host = host_of_two(alloc)?;
    load_five(&mut host, alloc)?;
    assert!(rt; host.view(alloc, 0, TABLE).is_ok());
    assert!(rt;
        matches!(
            host.view(alloc, 0, OTHER_TABLE),
            Err(ViewFault::OtherTable { held: 0 })
        )
    );
    assert!(rt;
        matches!(
            host.view(alloc, 1, TABLE),
            Err(ViewFault::Ask(AskFault::Unknown))
        )
    );
    Ok(())
}
