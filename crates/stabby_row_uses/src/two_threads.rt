//! Two callers of one row, on two threads.

ghost use Rattle.std.specs.Prelude.{◌≡◌, ◌≤◌, ◌^◌, ◌↔◌, IfOk};
ghost use Rattle.stabby_row.specs.Passes.{IsPassOf, IsNumber, IsWhole, front_of, weight_of};

use crate::one_thread::RowFault;
use stabby_row::{RowFull, RowPass, WordRow};
use std::alloc::Global;
use std::marker::Sync;
use std::thread::{Threads, join};

/// The numbers of two tables, each inserted on a thread of its own, and the joined pass, which knows both.
#[derive(Drop)]
pub struct Two {
    pub pass: RowPass,
    pub first: u64,
    pub second: u64,
}

// Inserts a table, and hands the pass on.
fn number(row: &WordRow, mut pass: RowPass, table: &[u64]) -> (Result<u64, RowFull>, RowPass)
    requires { IsPassOf row.now pass }
    ensures pass { IsPassOf row.now result.1 }
    ensures number { IfOk result.0 (IsNumber (front_of result.1) table.now) }
    ensures weight { weight_of result.1 ≡ weight_of pass }
{
    let number = row.insert_row(&mut pass, table);
    (number, pass)
}

/// Makes a row of so many words, lets two threads insert one table each, and joins their passes. No thread waits for the
/// other but at the end, and the numbers are equal exactly where the tables are.
///
/// # Errors
/// As `insert_row`, of whichever thread; `Memory` where the row finds none.
pub fn number_both<H: Threads + Sync>(
    rt: &H,
    alloc: Global,
    words: u64,
    first: &[u64],
    second: &[u64],
) -> Result<Two, RowFault>
    requires { (1 ≤ words) × (words ≤ 2 ^ 28) }
    ensures first { IfOk result (λ two. IsNumber (front_of two.pass) first.now two.first) }
    ensures second { IfOk result (λ two. IsNumber (front_of two.pass) second.now two.second) }
    ensures same { IfOk result (λ two. (two.first ≡ two.second) ↔ (first.now ≡ second.now)) }
    ensures whole { IfOk result (λ two. IsWhole two.pass) }
{
    let (row, mut mine) = WordRow::new(alloc, words)?;
    let other = row.split(&mut mine, 1);
    let ((one, mut mine), (two, other)) = join(
        rt,
        || -> (Result<u64, RowFull>, RowPass)
            requires { IsPassOf row mine }
            ensures pass { IsPassOf row result.1 }
            ensures number { IfOk result.0 (IsNumber (front_of result.1) first.entry.now) }
            ensures weight { weight_of result.1 ≡ weight_of mine }
        { number(&row, mine, first) },
        || -> (Result<u64, RowFull>, RowPass)
            requires { IsPassOf row other }
            ensures pass { IsPassOf row result.1 }
            ensures number { IfOk result.0 (IsNumber (front_of result.1) second.entry.now) }
            ensures weight { weight_of result.1 ≡ weight_of other }
        { number(&row, other, second) },
    );
    row.join(&mut mine, other);
    let first = one?;
    let second = two?;
    Ok(Two {
        pass: mine,
        first,
        second,
    })
}
