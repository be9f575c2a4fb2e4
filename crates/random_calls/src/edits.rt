//! A shared set that is edited whole.
ghost use Rattle.std.specs.Prelude.{◌≤◌};
ghost use Rattle.stabby_cell.specs.Replaced.{IsPassOf};

use owned_calls::{Answer, Call, listed};
use stabby_cell::{AtomicArcBTreeSet, EditFault, Edited, Set, SetPass};
use stabby_layout::AllocationError;
use std::alloc::Global;
use std::sync::Wait;

type Contents = Set<u64, 0, 3>;

/// A cell of sets, and its whole pass.
#[derive(Drop)]
pub struct Edits {
    cell: AtomicArcBTreeSet<u64, 0, 3>,
    pass: SetPass<u64, 0, 3>,
    ghost belongs: { IsPassOf cell pass },
}

// The contents with the number in addition, or none where it is among them.
fn with_number(contents: &Contents, number: u64) -> Result<Option<Contents>, AllocationError> {
    let mut next = contents.clone()?;
    match next.insert(number) {
        Ok(None) => Ok(Some(next)),
        Ok(Some(_known)) => Ok(None),
        Err((_, error)) => Err(error),
    }
}

// The numbers of a set, in order.
fn flat(alloc: Global, contents: &Contents) -> Result<Vec<u64>, AllocationError> {
    let mut numbers = Vec::new(alloc);
    for number in contents.to_list(alloc)? {
        numbers.push(*number)?;
    }
    Ok(numbers)
}

impl Edits {
    /// A cell that keeps so many sets, of which the first is empty.
    pub fn new(alloc: Global, keep: usize) -> Option<Edits>
        requires { (1 ≤ keep) × (keep ≤ 1024) }
    {
        let (cell, pass) = AtomicArcBTreeSet::<u64, 0, 3>::new_keeping(alloc, keep).ok()?;
        Some(Edits { cell, pass })
    }

    fn edit<H: Wait>(&mut self, rt: &H, alloc: Global, number: u64) -> Answer {
        let edited = self.cell.edit(rt, alloc, &mut self.pass, 1, |contents| {
            with_number(contents, number)
        });
        match edited {
            Ok(Edited::Kept { stamp }) => Answer::Number("as before", stamp),
            Ok(Edited::Committed { stamp }) => Answer::Number("committed", stamp),
            Err(EditFault::Lost { .. }) => Answer::Word("lost"),
            Err(EditFault::Full { .. }) => Answer::Word("full"),
            Err(_) => Answer::Word("memory"),
        }
    }

    fn has<H: Wait>(&mut self, rt: &H, number: u64) -> Answer {
        let (cell, pass) = (&self.cell, &mut self.pass);
        match cell.get(rt, pass, &number, |member| member.is_some()) {
            Ok(is_there) => Answer::Number("has", is_there as u64),
            Err(_) => Answer::Word("memory"),
        }
    }

    fn show<H: Wait>(&mut self, rt: &H, alloc: Global) -> Answer {
        match self.cell.snapshot(rt, &mut self.pass) {
            Ok(contents) => listed(flat(alloc, &contents)),
            Err(_) => Answer::Word("memory"),
        }
    }

    fn show_at<H: Wait>(&mut self, rt: &H, alloc: Global, stamp: u64) -> Answer {
        match self.cell.snapshot_at(rt, &mut self.pass, stamp) {
            Ok(Some(contents)) => listed(flat(alloc, &contents)),
            Ok(None) => Answer::Word("not kept"),
            Err(_) => Answer::Word("memory"),
        }
    }

    /// A call of the cell.
    pub fn call<H: Wait>(&mut self, rt: &H, alloc: Global, call: &Call) -> Answer {
        match call.name {
            "edit" => self.edit(rt, alloc, call.a),
            "has" => self.has(rt, call.a),
            "at" => self.show_at(rt, alloc, call.a),
            "show" => self.show(rt, alloc),
            "seen" => Answer::Pair("seen", self.pass.seen(), self.pass.added()),
            _ => Answer::Word("unknown"),
        }
    }
}
