//! An index, of which each change is committed alone.
ghost use Rattle.std.specs.Prelude.{◌≤◌};
ghost use Rattle.stabby_index.specs.Passes.{IsPassOf};

use owned_calls::{Answer, Call, listed, piece};
use stabby_index::{AllocationError, ApplyFault, Change, Index, IndexPass, Row, Text, View};
use std::alloc::Global;
use std::sync::Wait;

/// An index, and its whole pass.
#[derive(Drop)]
pub struct Indices {
    index: Index,
    pass: IndexPass,
    ghost belongs: { IsPassOf index pass },
}

fn apply<H: Wait>(
    rt: &H,
    alloc: Global,
    index: &Index,
    pass: &mut IndexPass,
    change: Change,
    expect: Option<u64>,
) -> Answer
    requires { IsPassOf index.now pass.old }
    ensures { IsPassOf index.now pass.new }
{
    match index.apply(rt, alloc, pass, &[change], expect) {
        Ok(stamp) => Answer::Number("stamp", stamp),
        Err(ApplyFault::Stale { expected, stamp }) => Answer::Pair("stale", expected, stamp),
        Err(ApplyFault::Full { stamp }) => Answer::Number("full", stamp),
        Err(ApplyFault::Memory) => Answer::Word("memory"),
    }
}

// The row of this key and group, with the text of their sum.
fn row_of(alloc: Global, key: u64, group: u64) -> Result<Row, AllocationError> {
    Ok(Row {
        key,
        group,
        text: Text::from_str(alloc, piece(key.wrapping_add(group)))?,
    })
}

// Key, group and length of the text of each row.
fn rows_of(alloc: Global, rows: &[&Row]) -> Result<Vec<u64>, AllocationError> {
    let mut numbers = Vec::new(alloc);
    for row in rows {
        numbers.push(row.key)?;
        numbers.push(row.group)?;
        numbers.push(row.text.as_str().len() as u64)?;
    }
    Ok(numbers)
}

fn groups_of(alloc: Global, view: &View) -> Result<Vec<u64>, AllocationError> {
    let mut numbers = Vec::new(alloc);
    for (group, count) in view.groups(alloc)? {
        numbers.push(group)?;
        numbers.push(count)?;
    }
    Ok(numbers)
}

// What a version answers.
fn view_of(alloc: Global, view: &View, call: &Call) -> Result<Vec<u64>, AllocationError> {
    match call.name {
        "groups" => groups_of(alloc, view),
        "group" => rows_of(alloc, &view.group(alloc, call.b)?),
        _ => rows_of(alloc, &view.rows(alloc)?),
    }
}

fn view<H: Wait>(rt: &H, alloc: Global, index: &Index, pass: &mut IndexPass, call: &Call) -> Answer
    requires { IsPassOf index.now pass.old }
    ensures { IsPassOf index.now pass.new }
{
    match index.at(rt, pass, call.a) {
        Ok(Some(view)) => listed(view_of(alloc, &view, call)),
        Ok(None) => Answer::Word("not kept"),
        Err(_) => Answer::Word("memory"),
    }
}

// None for 0, and else the stamp before that.
fn expected(word: u64) -> Option<u64> {
    word.checked_sub(1)
}

impl Indices {
    /// An empty index that keeps so many versions.
    pub fn new(alloc: Global, keep: usize) -> Result<Indices, AllocationError>
        requires { (1 ≤ keep) × (keep ≤ 1024) }
    {
        let (index, pass) = Index::new(alloc, keep)?;
        Ok(Indices { index, pass })
    }

    /// A call of the index.
    pub fn call<H: Wait>(&mut self, rt: &H, alloc: Global, call: &Call) -> Answer {
        let expect = expected(call.c);
        match call.name {
            "put" => match row_of(alloc, call.a, call.b) {
                Ok(row) => apply(
                    rt,
                    alloc,
                    &self.index,
                    &mut self.pass,
                    Change::Put(row),
                    expect,
                ),
                Err(_) => Answer::Word("memory"),
            },
            "delete" => apply(
                rt,
                alloc,
                &self.index,
                &mut self.pass,
                Change::Delete(call.a),
                expect,
            ),
            "seen" => Answer::Pair("seen", self.pass.seen(), self.pass.added()),
            _ => view(rt, alloc, &self.index, &mut self.pass, call),
        }
    }
}
