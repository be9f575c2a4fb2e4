//! Calls on a cell that other threads may share.
ghost use Rattle.std.specs.Prelude.{◌≡◌, ◌+◌, IfSome, IfNone, IfOk, IfErr, List, ℕ};
ghost use Rattle.stabby_cell.specs.Passes.{IsPassOf, Looked, Committed, MissedTurn, front_of};
ghost use Rattle.stabby_cell_uses.specs.Cells.{Shows};

use crate::counter::Counter;
use stabby_cell::{Busy, Pass, TurnCell};
use std::sync::Wait;

/// Reads the number, and lets the turn go at the end.
pub fn read<H: Wait>(rt: &H, cell: &TurnCell<Counter>, pass: &mut Pass<Counter>) -> u64
    requires { IsPassOf cell.now pass.old }
    ensures pass { IsPassOf cell.now pass.new }
    ensures looked { Looked pass.old pass.new }
    ensures number { Shows cell.now (front_of pass.new) result }
{
    let turn = cell.take(rt, pass);
    turn.version().number
}

/// Adds one under the turn, and answers the new number. `None` where there is no next number or no next stamp: the turn is
/// given back early, with nothing changed.
pub fn add_one<H: Wait>(rt: &H, cell: &TurnCell<Counter>, pass: &mut Pass<Counter>) -> Option<u64>
    requires { IsPassOf cell.now pass.old }
    ensures pass { IsPassOf cell.now pass.new }
    ensures committed { IfSome result (λ n. (before : List ℕ) × Committed pass.old pass.new before n) }
    ensures number { IfSome result (Shows cell.now (front_of pass.new)) }
    ensures looked { IfNone result (Looked pass.old pass.new) }
{
    let turn = cell.take(rt, pass);
    let number = turn.version().number;
    if number == u64::MAX {
        return None;
    }
    match turn.commit(Counter { number: number + 1 }) {
        Ok(_) => Some(number + 1),
        Err(_) => None,
    }
}

/// The same by one try at the turn.
///
/// # Errors
///
/// `Busy` where another pass holds the turn.
pub fn try_add(cell: &TurnCell<Counter>, pass: &mut Pass<Counter>) -> Result<Option<u64>, Busy>
    requires { IsPassOf cell.now pass.old }
    ensures pass { IsPassOf cell.now pass.new }
    ensures busy { IfErr result (λ _. MissedTurn pass.old pass.new) }
{
    match pass.try_take(cell) {
        Err(Busy) => Err(Busy),
        Ok(turn) => {
            let number = turn.version().number;
            if number == u64::MAX {
                return Ok(None);
            }
            match turn.commit(Counter { number: number + 1 }) {
                Ok(_) => Ok(Some(number + 1)),
                Err(_) => Ok(None),
            }
        }
    }
}

/// Reads the number, and commits the next one if no other commit came between.
pub fn add_outside_turn<H: Wait>(
    rt: &H,
    cell: &TurnCell<Counter>,
    pass: &mut Pass<Counter>,
) -> Option<u64>
    requires { IsPassOf cell.now pass.old }
    ensures pass { IsPassOf cell.now pass.new }
    ensures number { IfSome result (Shows cell.now (front_of pass.new)) }
{
    let number = read(rt, cell, pass);
    if number == u64::MAX {
        return None;
    }
    let stamp = pass.seen();
    let turn = cell.take(rt, pass);
    if turn.stamp() != stamp {
        return None;
    }
    match turn.commit(Counter { number: number + 1 }) {
        Ok(_) => Some(number + 1),
        Err(_) => None,
    }
}
