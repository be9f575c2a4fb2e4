//! Orders, their tables, and the inserts of one thread.

use stabby_registry::{AllocationError, VTableRegistry, WordTable};
use std::alloc::Global;
use std::sync::Wait;

/// What is inserted.
#[derive(Clone, Copy)]
pub(crate) enum Work {
    /// Tables that the registry has, so often.
    Known,
    /// The tables into an empty registry, so many registries one after another.
    New,
}

/// A line of the input, behind the kind of the registry.
#[derive(Clone, Copy)]
pub(crate) struct Order {
    pub(crate) work: Work,
    /// 1 or 4.
    pub(crate) threads: u64,
    /// How many distinct tables there are.
    pub(crate) tables: u64,
    /// Known tables: how many inserts a thread. New ones: how many registries.
    pub(crate) count: u64,
}

fn work_of(name: &str) -> Option<Work> {
    match name {
        "known" => Some(Work::Known),
        "new" => Some(Work::New),
        _ => None,
    }
}

fn number_of(word: &str) -> Option<u64> {
    match word.parse::<u64>() {
        Ok(number) => Some(number),
        Err(_) => None,
    }
}

/// The order of a text `WORK THREADS TABLES COUNT`.
pub(crate) fn parse(text: &str) -> Option<Order> {
    let (name, rest) = text.split_once(' ')?;
    let (threads, rest) = rest.split_once(' ')?;
    let (tables, count) = rest.split_once(' ')?;
    let work = work_of(name)?;
    let threads = number_of(threads)?;
    let tables = number_of(tables)?;
    let count = number_of(count)?;
    Some(Order {
        work,
        threads,
        tables,
        count,
    })
}

/// So many tables of four words, no two with the same first word.
pub(crate) fn tables(alloc: Global, count: u64) -> Result<Vec<WordTable>, AllocationError> {
    let mut made = Vec::new(alloc);
    for i in 0..count {
        let words = [i, 8, 16, 24];
        made.push(WordTable::from_words(alloc, &words)?)?;
    }
    Ok(made)
}

/// Inserts every `step`-th table from the one at `first` on, from the start again at their end, so many in all.
pub(crate) fn insert_every<R: VTableRegistry, H: Wait>(
    rt: &H,
    alloc: Global,
    registry: &R,
    pass: &mut R::Pass,
    tables: &[WordTable],
    first: usize,
    step: usize,
    count: u64,
)
    requires { R.belongs registry.now pass.old }
    ensures pass { R.belongs registry.now pass.new }
{
    let mut at = first;
    for _ in 0..count {
        if at >= tables.len() {
            at = first;
        }
        if let Some(table) = tables.get(at) {
            let _ = registry.insert(rt, alloc, pass, table);
        }
        at = at.saturating_add(step);
    }
}
