//! Makes the calls that the lines of the input name on one container after another, and prints what each answers.
#![tactic(auto)]

mod edits;
mod handles;
mod indices;
mod interns;
mod machines;
mod rows;
mod shared;
mod turns;
mod values;

use machines::{Machine, call, made};
use owned_calls::{Answer, parse, write_answer};
use std::alloc::Global;
use std::io;
use std::io::{BufWriter, Write};
use std::marker::Sync;
use std::sync::Wait;
use std::thread::Threads;

/// What a line answers: `new NAME` begins with a new container, and other lines are calls of it.
fn answer<H: Threads + Wait + Sync>(
    rt: &H,
    alloc: Global,
    machine: &mut Machine,
    line: &str,
) -> Answer {
    if let Some(name) = line.strip_prefix("new ") {
        return match made(alloc, name) {
            Some(new) => {
                *machine = new;
                Answer::Word("new")
            }
            None => Answer::Word("memory"),
        };
    }
    match parse(line) {
        Some(asked) => call(rt, alloc, machine, &asked),
        None => Answer::Word("unknown"),
    }
}

fn main(rt: HostRuntime) -> io::Result<()> {
    let alloc = rt.alloc();
    let text = io::read_to_string(alloc, rt.reader())?;
    let mut out = BufWriter::new(alloc, io::writer(&rt))?;
    let mut machine = Machine::Nothing;
    for line in text.as_str().lines() {
        let answer = answer(&rt, alloc, &mut machine, line);
        write_answer(&mut out, &answer)?;
    }
    out.flush()
}
