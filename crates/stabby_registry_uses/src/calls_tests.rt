//! Each call once, with expected values worked out by hand.

ghost use Rattle.stabby_registry.specs.Passes.{IsPassOf};

use stabby_registry::{
    AllocationError, Busy, Catalog, CellFault, Gate, ListsWords, Numbered, OpenGate, TreePass,
    TryFault, VTableRegistry, VtBtree, WordTable, intern_all, ranks, try_hold,
};
use stabby_tree::KeyProbe;
use std::alloc::Global;
use std::marker::Sync;
use std::sync::Wait;
use std::sync::atomic::{AtomicBool, Ordering};
use std::test::Fail;
use std::thread;

#[test]
fn ranks_of_four_tables(rt: HostRuntime) -> Result<(), Fail> {
    let alloc = rt.alloc();
    let mut tables = Vec::new(alloc);
    for words in [&[1u64][..], &[1, 0][..], &[0, 9][..], &[][..], &[1][..]] {
        tables.push(WordTable::from_words(alloc, words)?)?;
    }
    let (mut registry, mut pass) = VtBtree::<5>::new(alloc)?;
    let interned = intern_all(&rt, alloc, &mut registry, &mut pass, &tables, 1, &OpenGate)?;
    let ranked = ranks(alloc, interned.entries(), interned.numbers())?;
    assert_eq!(rt; interned.numbers(), &[0u64, 1, 2, 3, 0][..]);
    assert_eq!(rt; ranked.as_slice(), &[2u64, 3, 1, 0, 2][..]);
    assert_eq!(rt; (pass.seen(), pass.added(), pass.is_whole()), (4, 4, true));
    Ok(())
}

#[test]
fn ranks_are_the_same_by_three_workers(rt: HostRuntime) -> Result<(), Fail> {
    let alloc = rt.alloc();
    let mut tables = Vec::new(alloc);
    for words in [&[1u64][..], &[1, 0][..], &[0, 9][..], &[][..], &[1][..]] {
        tables.push(WordTable::from_words(alloc, words)?)?;
    }
    let (mut registry, mut pass) = VtBtree::<5>::new(alloc)?;
    let interned = intern_all(&rt, alloc, &mut registry, &mut pass, &tables, 3, &OpenGate)?;
    let ranked = ranks(alloc, interned.entries(), interned.numbers())?;
    assert_eq!(rt; ranked.as_slice(), &[2u64, 3, 1, 0, 2][..]);
    assert_eq!(rt; (pass.seen(), pass.added(), pass.is_whole()), (4, 4, true));
    Ok(())
}

#[test]
fn tables_compare_as_slices(rt: HostRuntime) -> Result<(), Fail> {
    let alloc = rt.alloc();
    let low = WordTable::from_words(alloc, &[])?;
    let zero = WordTable::from_words(alloc, &[0])?;
    let high = WordTable::from_words(alloc, &[7, 1])?;
    assert!(rt; low < zero && zero < high && low != zero);
    let copy = high.copy()?;
    assert!(rt; copy == high && copy.words() == &[7u64, 1][..]);
    Ok(())
}

// Holds worker 0 in its first `building` until worker 1 has a number, and worker 1 before its table until worker 0 is
// there.
#[derive(Drop)]
struct Meeting {
    // Worker 0 is in its first `building`.
    built: AtomicBool,
    // Worker 1 has a number.
    numbered: AtomicBool,
    // One of the two waited in vain.
    missed: AtomicBool,
}

impl Meeting {
    // Gives up the processor until the flag is up, a million times at most.
    fn wait_for(&self, flag: &AtomicBool) {
        for _ in 0..1_000_000u32 {
            if flag.load(Ordering::SeqCst) {
                return;
            }
            thread::yield_now();
        }
        self.missed.store(true, Ordering::SeqCst);
    }
}

impl Gate for Meeting {
    fn before(&self, worker: u64, _place: u64) {
        if worker == 1 {
            self.wait_for(&self.built);
        }
    }

    fn building(&self, worker: u64, _place: u64) {
        if worker == 0 && !self.built.swap(true, Ordering::SeqCst) {
            self.wait_for(&self.numbered);
        }
    }

    fn after(&self, worker: u64, _place: u64, _number: u64) {
        if worker == 1 {
            self.numbered.store(true, Ordering::SeqCst);
        }
    }
}

#[test]
fn workers_overlap(rt: HostRuntime) -> Result<(), Fail> {
    let alloc = rt.alloc();
    let mut tables = Vec::new(alloc);
    for words in [&[1u64][..], &[2][..]] {
        tables.push(WordTable::from_words(alloc, words)?)?;
    }
    let gate = Meeting {
        built: AtomicBool::new(false),
        numbered: AtomicBool::new(false),
        missed: AtomicBool::new(false),
    };
    let (mut registry, mut pass) = VtBtree::<5>::new(alloc)?;
    let interned = intern_all(&rt, alloc, &mut registry, &mut pass, &tables, 2, &gate)?;
    assert!(rt; !gate.missed.load(Ordering::SeqCst));
    assert_eq!(rt; interned.numbers(), &[1u64, 0][..]);
    let entries = interned.entries();
    assert!(rt; entries.len() == 2);
    assert_eq!(rt; (entries[0].number(), entries[1].number()), (1, 0));
    assert!(rt;
        entries[0].table().words() == &[1u64][..] && entries[1].table().words() == &[2u64][..]
    );
    Ok(())
}

// A table of two words.
#[derive(Drop)]
struct TwoWords {
    tail: u64,
    head: u64,
}

impl ListsWords for TwoWords {
    ghost use Rattle.std.specs.Prelude.{◌∷◌, []};

    ghost listed_words = { λ t. t.tail ∷ t.head ∷ [] };

    fn list_words(&self, alloc: Global) -> Result<WordTable, AllocationError> {
        WordTable::from_words(alloc, &[self.tail, self.head])
    }
}

#[test]
fn equal_tables_get_one_number(rt: HostRuntime) -> Result<(), Fail> {
    let alloc = rt.alloc();
    let three = WordTable::from_words(alloc, &[3])?;
    let five = WordTable::from_words(alloc, &[5])?;
    let (registry, mut pass) = VtBtree::<5>::new(alloc)?;
    assert!(rt; registry.insert(&rt, alloc, &mut pass, &five) == Ok(0));
    assert!(rt; registry.insert(&rt, alloc, &mut pass, &three) == Ok(1));
    assert!(rt; registry.insert(&rt, alloc, &mut pass, &five) == Ok(0));
    assert!(rt; pass.added() == 2 && pass.seen() == 2);
    Ok(())
}

#[test]
fn insert_within(rt: HostRuntime) -> Result<(), Fail> {
    let alloc = rt.alloc();
    let five = WordTable::from_words(alloc, &[5])?;
    let (registry, mut pass) = VtBtree::<5>::new(alloc)?;
    assert!(rt; registry.insert_within(&rt, alloc, &mut pass, &five, 1) == Ok(0));
    assert!(rt; registry.insert_within(&rt, alloc, &mut pass, &five, 1) == Ok(0));
    Ok(())
}

// The number that `insert` gives a table of one word.
fn inserted<H: Wait>(
    rt: &H,
    alloc: Global,
    registry: &VtBtree<5>,
    pass: &mut TreePass<5>,
    word: u64,
) -> Option<u64>
    requires { IsPassOf registry.now pass.old }
    ensures { IsPassOf registry.now pass.new }
{
    let Ok(table) = WordTable::from_words(alloc, &[word]) else {
        return None;
    };
    registry.insert(rt, alloc, pass, &table).ok()
}

// The number that `try_insert` gives a table of one word.
fn try_inserted(
    alloc: Global,
    registry: &VtBtree<5>,
    pass: &mut TreePass<5>,
    word: u64,
) -> Option<u64>
    requires { IsPassOf registry.now pass.old }
    ensures { IsPassOf registry.now pass.new }
{
    let Ok(table) = WordTable::from_words(alloc, &[word]) else {
        return None;
    };
    registry.try_insert(alloc, pass, &table).ok()
}

// Whether the tables of 5, 3 and 4 get the numbers 0, 1 and 2, by whichever call.
fn numbers_are_given<H: Wait>(
    rt: &H,
    alloc: Global,
    registry: &VtBtree<5>,
    pass: &mut TreePass<5>,
) -> bool
    requires { IsPassOf registry.now pass.old }
    ensures { IsPassOf registry.now pass.new }
{
    let five = inserted(rt, alloc, registry, pass, 5);
    let three = inserted(rt, alloc, registry, pass, 3);
    let again = inserted(rt, alloc, registry, pass, 5);
    let four = try_inserted(alloc, registry, pass, 4);
    let known = try_inserted(alloc, registry, pass, 3);
    five == Some(0) && three == Some(1) && again == Some(0) && four == Some(2) && known == Some(1)
}

// Whether the probe of 4 finds its number, by at most as many comparisons as a tree of one level needs.
fn four_is_found<H: Wait>(
    rt: &H,
    alloc: Global,
    registry: &VtBtree<5>,
    pass: &mut TreePass<5>,
) -> bool
    requires { IsPassOf registry.now pass.old }
    ensures { IsPassOf registry.now pass.new }
{
    let Ok(four) = WordTable::from_words(alloc, &[4]) else {
        return false;
    };
    let mut probe = KeyProbe::new(four);
    let found = registry.find_counted(rt, pass, &mut probe);
    found == Ok(Some(2)) && probe.count() <= 4
}

// Whether a table that lists 3 and 9 gets the number 3, and is there.
fn pair_is_there<H: Wait>(
    rt: &H,
    alloc: Global,
    registry: &VtBtree<5>,
    pass: &mut TreePass<5>,
) -> bool
    requires { IsPassOf registry.now pass.old }
    ensures { IsPassOf registry.now pass.new }
{
    let pair = TwoWords { tail: 3, head: 9 };
    let number = registry.insert_typed(rt, alloc, pass, &pair);
    match registry.entry(rt, pass, 3) {
        Ok(Some(last)) => number == Ok(3) && last.words() == &[3u64, 9][..],
        _ => false,
    }
}

// Whether four tables are read, and no fifth.
fn four_are_read<H: Wait>(rt: &H, registry: &VtBtree<5>, pass: &mut TreePass<5>) -> bool
    requires { IsPassOf registry.now pass.old }
    ensures { IsPassOf registry.now pass.new }
{
    let looked = registry.look(pass);
    let none = matches!(registry.entry(rt, pass, 4), Ok(None));
    match registry.try_snapshot(pass) {
        Ok(tried) => looked == 4 && none && tried.len() == 4,
        Err(_) => false,
    }
}

// Whether the entry at this place has these words and this number.
fn lists(entries: &[Numbered], place: usize, words: &[u64], number: u64) -> bool {
    match entries.get(place) {
        Some(entry) => entry.table().words() == words && entry.number() == number,
        None => false,
    }
}

// Whether the catalog's entries are the four tables in order.
fn lists_four(alloc: Global, catalog: &Catalog<5>) -> bool {
    match catalog.entries(alloc) {
        Ok(entries) => {
            lists(&entries, 0, &[3], 1)
                && lists(&entries, 1, &[3, 9], 3)
                && lists(&entries, 2, &[4], 2)
                && lists(&entries, 3, &[5], 0)
        }
        Err(_) => false,
    }
}

// The ranks of the numbers 0 and 1 among four tables.
fn first_two_ranked(alloc: Global, catalog: &Catalog<5>) -> Result<Vec<u64>, Fail> {
    let entries = catalog.entries(alloc)?;
    if entries.len() != 4 {
        return Err("four tables were added")?;
    }
    let ranked = ranks(alloc, &entries, &[0, 1])?;
    Ok(ranked)
}

// All calls of a registry, one after the other on one state.
#[test]
fn registry_calls(rt: HostRuntime) -> Result<(), Fail> {
    let alloc = rt.alloc();
    let (registry, mut pass) = VtBtree::<5>::new(alloc)?;
    assert!(rt; numbers_are_given(&rt, alloc, &registry, &mut pass));
    assert!(rt; four_is_found(&rt, alloc, &registry, &mut pass));
    assert!(rt; pair_is_there(&rt, alloc, &registry, &mut pass));
    assert!(rt; four_are_read(&rt, &registry, &mut pass));
    let snapshot = registry.snapshot(&rt, &mut pass)?;
    assert!(rt; lists_four(alloc, &snapshot));
    let ranked = first_two_ranked(alloc, &snapshot)?;
    assert_eq!(rt; ranked.as_slice(), &[3u64, 0][..]);
    assert_eq!(rt; (pass.seen(), pass.added(), pass.lost()), (4, 4, 0));
    Ok(())
}

#[test]
fn busy_while_held(rt: HostRuntime) -> Result<(), Fail> {
    let alloc = rt.alloc();
    let (registry, mut first) = VtBtree::<5>::new(alloc)?;
    let mut second = registry.split(&mut first, 1);
    match registry.try_hold(&mut first) {
        Err(Busy) => return Err("the turn was free")?,
        Ok(held) => {
            let Err(CellFault::Busy) = registry.try_snapshot(&mut second) else {
                return Err("the turn was held")?;
            };
            assert!(rt; second.lost() == 1);
            held.release();
        }
    }
    let snapshot = registry
        .try_snapshot(&mut second)
        .map_err(|_| "the turn was free")?;
    assert!(rt; snapshot.len() == 0);
    registry.join(&mut first, second);
    assert!(rt; first.is_whole() && first.lost() == 1);
    Ok(())
}

#[test]
fn inserts_are_busy_while_held(rt: HostRuntime) -> Result<(), Fail> {
    let alloc = rt.alloc();
    let one = WordTable::from_words(alloc, &[1])?;
    let (registry, mut first) = VtBtree::<5>::new(alloc)?;
    let mut second = registry.split(&mut first, 1);
    match registry.try_hold(&mut first) {
        Err(Busy) => return Err("the turn was free")?,
        Ok(held) => {
            assert!(rt; registry.try_insert(alloc, &mut second, &one) == Err(TryFault::Busy));
            assert!(rt; matches!(try_hold(&mut second, &registry), Err(Busy)));
            assert!(rt; second.lost() == 2 && held.stamp() == 0);
            held.release();
        }
    }
    Ok(())
}

#[test]
fn two_callers_lose_a_step_each(rt: HostRuntime) -> Result<(), Fail> {
    let alloc = rt.alloc();
    let one = WordTable::from_words(alloc, &[1])?;
    let (registry, mut a) = VtBtree::<5>::new(alloc)?;
    let mut b = registry.split(&mut a, 1);
    let mut c = registry.split(&mut a, 1);
    match registry.try_hold(&mut a) {
        Err(Busy) => return Err("the turn was free")?,
        Ok(held) => {
            assert!(rt; registry.try_insert(alloc, &mut b, &one) == Err(TryFault::Busy));
            assert!(rt; registry.try_insert(alloc, &mut c, &one) == Err(TryFault::Busy));
            held.release();
        }
    }
    registry.join(&mut a, b);
    registry.join(&mut a, c);
    assert_eq!(rt; (a.lost(), a.is_whole()), (2, true));
    Ok(())
}
