//! What the sets hold: numbers, and shared tables with a number each. Their keys are the same on each run.
ghost use Rattle.std.specs.Prelude.{◌≡◌};

use stabby_tree::Keyed;
use std::alloc::{AllocError, Global};
use std::marker::Model;
use std::sync::Arc;

/// How many distinct keys `Skewed` has.
const SKEWED: u64 = 3000;

/// How the keys come.
#[derive(Clone, Copy)]
pub(crate) enum Keys {
    /// No key comes twice.
    Distinct,
    /// 3,000 keys, the k-th of which comes about 1/k as often as the first.
    Skewed,
}

/// The words of a table.
#[derive(PartialEq, Eq, PartialOrd, Ord, Drop)]
pub struct Words {
    words: Vec<u64>,
}

/// A shared table with its number, keyed by the table: what a registry keeps.
#[derive(Drop)]
pub struct Numbered {
    table: Arc<Words, Global>,
    number: u64,
}

impl Model for Numbered {
    ghost use Rattle.std.specs.Prelude.{ℕ};
    ghost use Rattle.tree_bench.specs.declared.elements.Words.{Words};

    ghost Value = { Words × ℕ };

    ghost view = { λ n. (n.table.value, n.number) };
}

impl Clone for Numbered {
    ghost is_clone = { λ x y. y ≡ x };

    fn clone(&self) -> Result<Numbered, AllocError> {
        Ok(Numbered {
            table: Arc::try_clone(&self.table)?,
            number: self.number,
        })
    }
}

impl Keyed for Numbered {
    type Key = Words;

    ghost key_of = { λ n. n.0 };

    fn key(&self) -> &Words {
        &*self.table
    }
}

// A number for each number, and no two have one: the last steps of splitmix64.
fn mixed(x: u64) -> u64 {
    let mut x = x.wrapping_add(0x9e37_79b9_7f4a_7c15);
    x = (x ^ (x >> 30)).wrapping_mul(0xbf58_476d_1ce4_e5b9);
    x = (x ^ (x >> 27)).wrapping_mul(0x94d0_49bb_1331_11eb);
    x ^ (x >> 31)
}

fn key(keys: Keys, at: u64) -> u64 {
    match keys {
        Keys::Distinct => mixed(at),
        Keys::Skewed => {
            let x = mixed(at);
            let scale = 1u64 << (x % 12);
            mixed((scale + (x >> 32) % scale) % SKEWED)
        }
    }
}

/// So many numbers.
pub(crate) fn numbers(alloc: Global, keys: Keys, count: u64) -> Result<Vec<u64>, AllocError> {
    let mut numbers = Vec::new(alloc);
    for at in 0..count {
        numbers.push(key(keys, at))?;
    }
    Ok(numbers)
}

// A table of 1 to 4 words, which the key tells.
fn table(alloc: Global, key: u64) -> Result<Words, AllocError> {
    let mut words = Vec::new(alloc);
    words.push(key)?;
    for _ in 0..key % 4 {
        words.push(key)?;
    }
    Ok(Words { words })
}

/// So many tables, each with the place that it comes at.
pub(crate) fn tables(alloc: Global, keys: Keys, count: u64) -> Result<Vec<Numbered>, AllocError> {
    let mut tables = Vec::new(alloc);
    for number in 0..count {
        let table = table(alloc, key(keys, number))?;
        let table = Arc::new(alloc, table)?;
        tables.push(Numbered { table, number })?;
    }
    Ok(tables)
}
