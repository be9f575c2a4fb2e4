//! A cell of shared numbers, whose turn is taken for each call.
ghost use Rattle.std.specs.Prelude.{◌≤◌};
ghost use Rattle.stabby_cell.specs.Passes.{IsPassOf};
ghost use Rattle.stabby_cell.specs.Turns.{IsTurn};
ghost use Rattle.stabby_cell.specs.Values.{AnyNext};

use owned_calls::{Answer, Call, found};
use stabby_cell::{Pass, Turn, TurnCell};
use std::alloc::Global;
use std::sync::{Arc, Wait};

/// A shared number, or none.
pub type Value = Option<Arc<u64, Global>>;

/// A cell, and its whole pass.
#[derive(Drop)]
pub struct Turns {
    cell: TurnCell<Value>,
    pass: Pass<Value>,
    ghost belongs: { IsPassOf cell pass },
}

/// The number of a handle.
pub fn number_of(value: &Value) -> Option<u64> {
    match value {
        Some(handle) => Some(**handle),
        None => None,
    }
}

// The number of that stamp, read under the turn.
fn told_at(turn: &Turn<'_, Value>, stamp: u64) -> Answer
    requires { IsTurn AnyNext turn.now }
{
    match turn.at(stamp) {
        Some(value) => found(number_of(value)),
        None => Answer::Word("not kept"),
    }
}

impl Turns {
    /// A cell that keeps so many versions, of which the first is none.
    pub fn new(alloc: Global, keep: usize) -> Option<Turns>
        requires { (1 ≤ keep) × (keep ≤ 1024) }
    {
        let (cell, pass) = TurnCell::new_keeping(alloc, None, 0, keep).ok()?;
        Some(Turns { cell, pass })
    }

    // What the version that is no longer kept says.
    fn commit<H: Wait>(&mut self, rt: &H, value: Value) -> Answer {
        match self.cell.take(rt, &mut self.pass).commit(value) {
            Ok(Some(value)) => found(number_of(&value)),
            Ok(None) => Answer::Word("kept"),
            Err(_) => Answer::Word("full"),
        }
    }

    fn release<H: Wait>(&mut self, rt: &H) -> Answer {
        let turn = self.cell.take(rt, &mut self.pass);
        let stamp = turn.stamp();
        turn.release();
        Answer::Number("stamp", stamp)
    }

    fn try_release(&mut self) -> Answer {
        match self.pass.try_take(&self.cell) {
            Ok(turn) => {
                let stamp = turn.stamp();
                turn.release();
                Answer::Number("stamp", stamp)
            }
            Err(_) => Answer::Word("busy"),
        }
    }

    fn read_at<H: Wait>(&mut self, rt: &H, stamp: u64) -> Answer {
        let turn = self.cell.take(rt, &mut self.pass);
        let answer = told_at(&turn, stamp);
        turn.release();
        answer
    }

    /// A call of the cell.
    pub fn call<H: Wait>(&mut self, rt: &H, alloc: Global, call: &Call) -> Answer {
        match call.name {
            "commit" => match Arc::new(alloc, call.a) {
                Ok(handle) => self.commit(rt, Some(handle)),
                Err(_) => Answer::Word("memory"),
            },
            "release" => self.release(rt),
            "try" => self.try_release(),
            "at" => self.read_at(rt, call.a),
            "seen" => Answer::Pair("seen", self.pass.seen(), self.pass.added()),
            _ => Answer::Word("unknown"),
        }
    }
}
