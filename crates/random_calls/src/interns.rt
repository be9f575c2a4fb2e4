//! A registry of tables, a list of tables to be interned, and the interning of that list, as often as it is asked for.
ghost use Rattle.stabby_registry.specs.Passes.{IsPassOf};
ghost use Rattle.stabby_registry.specs.Interned.{CanRank};

use owned_calls::{Answer, Call, listed};
use stabby_registry::{
    AllocationError, Interned, Numbered, OpenGate, RegistryFault, TreePass, VTableRegistry,
    VtBtree, WordTable, intern_all, ranks,
};
use std::alloc::Global;
use std::marker::Sync;
use std::sync::Wait;
use std::thread::Threads;

/// A registry, its whole pass, and a list of tables.
#[derive(Drop)]
pub struct Interns {
    registry: VtBtree<5>,
    pass: TreePass<5>,
    tables: Vec<WordTable>,
    ghost belongs: { IsPassOf registry pass },
}

fn table_of(alloc: Global, call: &Call) -> Result<WordTable, AllocationError> {
    match call.a {
        0 => WordTable::from_words(alloc, &[]),
        1 => WordTable::from_words(alloc, &[call.b]),
        _ => WordTable::from_words(alloc, &[call.b, call.c]),
    }
}

fn insert<H: Wait>(
    rt: &H,
    alloc: Global,
    registry: &VtBtree<5>,
    pass: &mut TreePass<5>,
    table: &WordTable,
) -> Answer
    requires { IsPassOf registry.now pass.old }
    ensures { IsPassOf registry.now pass.new }
{
    match registry.insert(rt, alloc, pass, table) {
        Ok(number) => Answer::Number("number", number),
        Err(RegistryFault::Memory) => Answer::Word("memory"),
        Err(_) => Answer::Word("full"),
    }
}

// The numbers of the tables that are in a registry, and of each its length and its words.
fn push_entries(numbers: &mut Vec<u64>, entries: &[Numbered]) -> Result<(), AllocationError> {
    for entry in entries {
        let words = entry.table().words();
        numbers.push(entry.number())?;
        numbers.push(words.len() as u64)?;
        numbers.extend_from_slice(words)?;
    }
    Ok(())
}

// The number of each table, its place in order, and the registry's tables in order.
fn told(alloc: Global, interned: &Interned) -> Result<Vec<u64>, AllocationError>
    requires { CanRank interned.now.entries interned.now.numbers }
{
    let mut numbers = Vec::new(alloc);
    numbers.extend_from_slice(interned.numbers())?;
    let places = ranks(alloc, interned.entries(), interned.numbers())?;
    numbers.extend_from_slice(places.as_slice())?;
    push_entries(&mut numbers, interned.entries())?;
    Ok(numbers)
}

// All tables, interned over what the registry has.
fn intern<H: Threads + Wait + Sync>(
    rt: &H,
    alloc: Global,
    registry: &mut VtBtree<5>,
    pass: &mut TreePass<5>,
    tables: &[WordTable],
    workers: usize,
) -> Result<Vec<u64>, AllocationError>
    requires { IsPassOf registry.old pass.old }
    ensures { IsPassOf registry.new pass.new }
{
    let is_asked = workers >= 1 && workers <= 64 && pass.is_whole();
    let has_room = pass.seen() < 1 << 40 && tables.len() < 1 << 40;
    if !is_asked || !has_room {
        return Ok(Vec::new(alloc));
    }
    let interned = intern_all(rt, alloc, registry, pass, tables, workers, &OpenGate)?;
    told(alloc, &interned)
}

// The registry's tables, in order.
fn show<H: Wait>(
    rt: &H,
    alloc: Global,
    registry: &VtBtree<5>,
    pass: &mut TreePass<5>,
) -> Result<Vec<u64>, AllocationError>
    requires { IsPassOf registry.now pass.old }
    ensures { IsPassOf registry.now pass.new }
{
    let catalog = registry.snapshot(rt, pass)?;
    let mut numbers = Vec::new(alloc);
    push_entries(&mut numbers, &catalog.entries(alloc)?)?;
    Ok(numbers)
}

impl Interns {
    /// An empty registry, and no tables.
    pub fn new(alloc: Global) -> Result<Interns, AllocationError> {
        let (registry, pass) = VtBtree::<5>::new(alloc)?;
        Ok(Interns {
            registry,
            pass,
            tables: Vec::new(alloc),
        })
    }

    fn add_table(&mut self, alloc: Global, call: &Call) -> Result<(), AllocationError> {
        let table = table_of(alloc, call)?;
        self.tables.push(table)?;
        Ok(())
    }

    /// A call of the registry.
    pub fn call<H: Threads + Wait + Sync>(&mut self, rt: &H, alloc: Global, call: &Call) -> Answer {
        match call.name {
            "table" => match self.add_table(alloc, call) {
                Ok(()) => Answer::Word("done"),
                Err(_) => Answer::Word("memory"),
            },
            "insert" => match table_of(alloc, call) {
                Ok(table) => insert(rt, alloc, &self.registry, &mut self.pass, &table),
                Err(_) => Answer::Word("memory"),
            },
            "intern" => listed(intern(
                rt,
                alloc,
                &mut self.registry,
                &mut self.pass,
                &self.tables,
                call.a as usize,
            )),
            "show" => listed(show(rt, alloc, &self.registry, &mut self.pass)),
            _ => Answer::Word("unknown"),
        }
    }
}
