//! A shared number that is replaced.
ghost use Rattle.std.specs.Prelude.{◌≤◌};
ghost use Rattle.stabby_cell.specs.Shared.{IsPassOf};

use crate::turns::{Value, number_of};
use owned_calls::{Answer, Call, found};
use stabby_cell::{ArcPass, AtomicArc, ExchangeFault, IsFault, Kept};
use std::alloc::Global;
use std::sync::{Arc, Wait};

/// A cell, and its whole pass.
#[derive(Drop)]
pub struct Values {
    cell: AtomicArc<u64>,
    pass: ArcPass<u64>,
    ghost belongs: { IsPassOf cell pass },
}

// The stamp, and the number where there is one.
fn told(value: &Value, stamp: u64) -> Answer {
    match value {
        Some(handle) => Answer::Pair("at", stamp, **handle),
        None => Answer::Number("empty", stamp),
    }
}

// What came back, where the exchange found no memory.
fn not_exchanged(fault: ExchangeFault<u64>) -> Answer {
    match fault {
        ExchangeFault::Differs { stamp, current, .. } => told(&current, stamp),
        ExchangeFault::Full { .. } => Answer::Word("full"),
        ExchangeFault::Memory { refused } => match number_of(&refused) {
            Some(number) => Answer::Number("memory", number),
            None => Answer::Word("memory"),
        },
    }
}

impl Values {
    /// A cell that keeps so many values, of which the first is none.
    pub fn new(alloc: Global, keep: usize) -> Option<Values>
        requires { (1 ≤ keep) × (keep ≤ 1024) }
    {
        let (cell, pass) = AtomicArc::new_keeping(alloc, None, keep).ok()?;
        Some(Values { cell, pass })
    }

    fn store<H: Wait>(&mut self, rt: &H, value: Value) -> Answer {
        match self.cell.store(rt, &mut self.pass, value) {
            Ok(stamp) => Answer::Number("stamp", stamp),
            Err(_) => Answer::Word("full"),
        }
    }

    fn load<H: Wait>(&mut self, rt: &H) -> Answer {
        match self.cell.load(rt, &mut self.pass) {
            Ok((value, stamp)) => told(&value, stamp),
            Err(_) => Answer::Word("memory"),
        }
    }

    fn try_load(&mut self) -> Answer {
        match self.cell.try_load(&mut self.pass) {
            Ok((value, stamp)) => told(&value, stamp),
            Err(_) => Answer::Word("memory"),
        }
    }

    fn load_at<H: Wait>(&mut self, rt: &H, stamp: u64) -> Answer {
        match self.cell.load_at(rt, &mut self.pass, stamp) {
            Ok(Kept::Version(value)) => found(number_of(&value)),
            Ok(Kept::NotKept { oldest, stamp }) => Answer::Pair("kept", oldest, stamp),
            Err(_) => Answer::Word("memory"),
        }
    }

    fn is<H: Wait>(&mut self, rt: &H, expected: u64) -> Answer {
        match self.cell.is(rt, &mut self.pass, expected) {
            Ok(()) => Answer::Word("is"),
            Err(IsFault::Differs { stamp, current, .. }) => told(&current, stamp),
            Err(IsFault::Memory) => Answer::Word("memory"),
        }
    }

    fn exchange<H: Wait>(&mut self, rt: &H, expected: u64, value: Value) -> Answer {
        let (cell, pass) = (&self.cell, &mut self.pass);
        match cell.compare_exchange(rt, pass, expected, value) {
            Ok(old) => found(number_of(&old)),
            Err(fault) => not_exchanged(fault),
        }
    }

    /// A call of the cell.
    pub fn call<H: Wait>(&mut self, rt: &H, alloc: Global, call: &Call) -> Answer {
        match call.name {
            "store" => match Arc::new(alloc, call.a) {
                Ok(handle) => self.store(rt, Some(handle)),
                Err(_) => Answer::Word("memory"),
            },
            "clear" => self.store(rt, None),
            "load" => self.load(rt),
            "try" => self.try_load(),
            "at" => self.load_at(rt, call.a),
            "is" => self.is(rt, call.a),
            "exchange" => match Arc::new(alloc, call.b) {
                Ok(handle) => self.exchange(rt, call.a, Some(handle)),
                Err(_) => Answer::Word("memory"),
            },
            "seen" => Answer::Pair("seen", self.pass.seen(), self.pass.added()),
            _ => Answer::Word("unknown"),
        }
    }
}
