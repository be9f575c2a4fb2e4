//! Tables at concrete types: their entries by paths, their constructors, their words and their numbers.
ghost use Rattle.stabby_registry.specs.Passes.{IsPassOf};

use crate::{
    AnyVt, H, HasDropVt, HasSendVt, HasSyncVt, IConstConstructor, IterVt, T, TransitiveDeref,
    VTable, VtDrop, VtSend, VtSync,
};
use stabby_registry::{ListsWords, TreePass, VTableRegistry, VtBtree};
use std::alloc::Global;
use std::sync::Wait;
use std::test::Fail;

type Nested = VtSync<VTable<IterVt, VtSend<VTable<AnyVt>>>>;

fn nested() -> Nested {
    VtSync(VTable {
        tail: VtSend(VTable {
            tail: VtDrop { word: 3 },
            head: AnyVt { word: 9 },
        }),
        head: IterVt { word: 2 },
    })
}

// Takes a table that is marked in both ways, at whatever depth.
fn drop_word<Vt: HasDropVt + HasSendVt + HasSyncVt>(table: &Vt) -> u64 {
    table.drop_vt().word
}

#[test]
fn paths_reach_each_entry(rt: HostRuntime) -> Result<(), Fail> {
    let table = nested();
    let iter: &IterVt = <Nested as TransitiveDeref<IterVt, H>>::tderef(&table);
    let any: &AnyVt = <Nested as TransitiveDeref<AnyVt, T<H>>>::tderef(&table);
    assert_eq!(rt; iter.word, 2);
    assert_eq!(rt; any.word, 9);
    assert_eq!(rt; drop_word(&table), 3);
    assert!(rt; table == nested());
    Ok(())
}

#[derive(Drop)]
struct Counter;

impl IConstConstructor<Counter> for VtDrop {
    ghost stated = { record { word = 5 } };

    fn vtable() -> Self {
        VtDrop { word: 5 }
    }
}

impl IConstConstructor<Counter> for IterVt {
    ghost stated = { record { word = 6 } };

    fn vtable() -> Self {
        IterVt { word: 6 }
    }
}

#[test]
fn tables_are_built_from_parts(rt: HostRuntime) -> Result<(), Fail> {
    let built: VtSync<VtSend<VTable<IterVt>>> = IConstConstructor::<Counter>::vtable();
    assert_eq!(rt; built.0.0.tail.word, 5);
    assert_eq!(rt; built.0.0.head.word, 6);
    <() as IConstConstructor<Counter>>::vtable();
    Ok(())
}

#[test]
fn each_growing_call_succeeds(rt: HostRuntime) -> Result<(), Fail> {
    let Ok(words) = nested().list_words(rt.alloc()) else {
        return Err("memory")?;
    };
    assert_eq!(rt; words.words(), &[3u64, 9, 2][..]);
    Ok(())
}

// The number that the registry gives the table.
fn number_of<Vt: ListsWords, R: Wait>(
    rt: &R,
    alloc: Global,
    registry: &VtBtree<5>,
    pass: &mut TreePass<5>,
    table: &Vt,
) -> Result<u64, Fail>
    requires { IsPassOf registry.now pass.old }
    ensures { IsPassOf registry.now pass.new }
{
    match registry.insert_typed(rt, alloc, pass, table) {
        Ok(number) => Ok(number),
        Err(_) => Err("memory")?,
    }
}

// Whether the registry's table of this number is `[3, 9]`.
fn is_three_nine<R: Wait>(
    rt: &R,
    registry: &VtBtree<5>,
    pass: &mut TreePass<5>,
    number: u64,
) -> Result<bool, Fail>
    requires { IsPassOf registry.now pass.old }
    ensures { IsPassOf registry.now pass.new }
{
    match registry.entry(rt, pass, number) {
        Ok(Some(table)) => Ok(table.words() == &[3u64, 9][..]),
        Ok(None) => Ok(false),
        Err(_) => Err("memory")?,
    }
}

// The numbers of the words 5, 3 and 4, and then of the table with 3 below 9.
#[test]
fn registry_calls(rt: HostRuntime) -> Result<(), Fail> {
    let alloc = rt.alloc();
    let Ok((registry, mut pass)) = VtBtree::<5>::new(alloc) else {
        return Err("memory")?;
    };
    number_of(&rt, alloc, &registry, &mut pass, &VtDrop { word: 5 })?;
    number_of(&rt, alloc, &registry, &mut pass, &VtDrop { word: 3 })?;
    number_of(&rt, alloc, &registry, &mut pass, &VtDrop { word: 4 })?;
    let table: VTable<AnyVt> = VTable {
        tail: VtDrop { word: 3 },
        head: AnyVt { word: 9 },
    };
    assert_eq!(rt; number_of(&rt, alloc, &registry, &mut pass, &table)?, 3);
    assert!(rt; is_three_nine(&rt, &registry, &mut pass, 3)?);
    Ok(())
}
