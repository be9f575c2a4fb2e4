//! The container that is called now.
use crate::edits::Edits;
use crate::handles::{Handles, call_handles};
use crate::indices::Indices;
use crate::interns::Interns;
use crate::rows::Rows;
use crate::shared::{Slices, Texts, call_slices, call_texts};
use crate::turns::Turns;
use crate::values::Values;
use owned_calls::{Answer, Call, Owned, call_owned};
use std::alloc::Global;
use std::marker::Sync;
use std::sync::Wait;
use std::thread::Threads;

/// A container, or none yet.
#[derive(Drop)]
pub enum Machine {
    Nothing,
    Owned(Owned),
    Turns(Turns),
    Values(Values),
    Edits(Edits),
    Rows(Rows),
    Handles(Handles),
    Slices(Slices),
    Texts(Texts),
    Interns(Interns),
    Indices(Indices),
}

fn new_cells(alloc: Global, name: &str) -> Option<Machine> {
    match name {
        "cell1" => Some(Machine::Turns(Turns::new(alloc, 1)?)),
        "cell16" => Some(Machine::Turns(Turns::new(alloc, 16)?)),
        "value1" => Some(Machine::Values(Values::new(alloc, 1)?)),
        "value16" => Some(Machine::Values(Values::new(alloc, 16)?)),
        "edits1" => Some(Machine::Edits(Edits::new(alloc, 1)?)),
        "edits16" => Some(Machine::Edits(Edits::new(alloc, 16)?)),
        _ => None,
    }
}

fn new_shared(alloc: Global, name: &str) -> Option<Machine> {
    match name {
        "row" => Some(Machine::Rows(Rows::new(alloc, 600)?)),
        "handles" => Some(Machine::Handles(Handles::new(alloc, 6).ok()?)),
        "slices" => Some(Machine::Slices(Slices::new(alloc, 3).ok()?)),
        "texts" => Some(Machine::Texts(Texts::new(alloc, 3).ok()?)),
        "interns" => Some(Machine::Interns(Interns::new(alloc).ok()?)),
        "index1" => Some(Machine::Indices(Indices::new(alloc, 1).ok()?)),
        "index16" => Some(Machine::Indices(Indices::new(alloc, 16).ok()?)),
        _ => None,
    }
}

/// A new container of this name, where there is one, and memory for it.
pub fn made(alloc: Global, name: &str) -> Option<Machine> {
    match Owned::new(alloc, name) {
        Some(owned) => Some(Machine::Owned(owned)),
        None => match new_cells(alloc, name) {
            Some(cell) => Some(cell),
            None => new_shared(alloc, name),
        },
    }
}

/// What the container answers to a call.
pub fn call<H: Threads + Wait + Sync>(
    rt: &H,
    alloc: Global,
    machine: &mut Machine,
    call: &Call,
) -> Answer {
    match machine {
        Machine::Nothing => Answer::Word("nothing"),
        Machine::Owned(owned) => call_owned(alloc, owned, call),
        Machine::Turns(turns) => turns.call(rt, alloc, call),
        Machine::Values(values) => values.call(rt, alloc, call),
        Machine::Edits(edits) => edits.call(rt, alloc, call),
        Machine::Rows(rows) => rows.call(alloc, call),
        Machine::Handles(handles) => call_handles(handles, rt, alloc, call),
        Machine::Slices(slices) => call_slices(slices, rt, alloc, call),
        Machine::Texts(texts) => call_texts(texts, rt, alloc, call),
        Machine::Interns(interns) => interns.call(rt, alloc, call),
        Machine::Indices(indices) => indices.call(rt, alloc, call),
    }
}
