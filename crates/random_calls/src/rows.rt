//! A registry of tables in a row of words.
ghost use Rattle.std.specs.Prelude.{◌≤◌, ◌^◌};
ghost use Rattle.stabby_row.specs.Passes.{IsPassOf};

use owned_calls::{Answer, Call};
use stabby_row::{RowPass, WordRow};
use std::alloc::Global;

/// A row, and its whole pass.
#[derive(Drop)]
pub struct Rows {
    row: WordRow,
    pass: RowPass,
    ghost belongs: { IsPassOf row pass },
}

impl Rows {
    /// A row of so many words.
    pub fn new(alloc: Global, words: u64) -> Option<Rows>
        requires { (1 ≤ words) × (words ≤ 2 ^ 28) }
    {
        let (row, pass) = WordRow::new(alloc, words).ok()?;
        Some(Rows { row, pass })
    }

    fn insert(&mut self, table: &[u64]) -> Answer {
        match self.row.insert_row(&mut self.pass, table) {
            Ok(number) => Answer::Number("number", number),
            Err(full) => Answer::Pair("full", full.claimed, full.needed),
        }
    }

    fn entry(&mut self, alloc: Global, number: u64) -> Answer {
        match self.row.entry(alloc, &mut self.pass, number) {
            Ok(Some(table)) => Answer::List(table),
            Ok(None) => Answer::Word("none"),
            Err(_) => Answer::Word("memory"),
        }
    }

    /// A call of the row.
    pub fn call(&mut self, alloc: Global, call: &Call) -> Answer {
        match (call.name, call.a) {
            ("insert", 0) => self.insert(&[]),
            ("insert", 1) => self.insert(&[call.b]),
            ("insert", 2) => self.insert(&[call.b, call.c]),
            ("insert", _) => self.insert(&[call.b, call.c, call.b]),
            ("entry", number) => self.entry(alloc, number),
            ("seen", _) => Answer::Number("seen", self.pass.seen()),
            _ => Answer::Word("unknown"),
        }
    }
}
