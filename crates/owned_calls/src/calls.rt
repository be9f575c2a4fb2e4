//! Lines of the input, and what a call answers.
use stabby_layout::{AllocationError, NonMaxUsize};
use std::io;
use std::io::Write;

/// A call: its name, and three numbers, each 0 where it says nothing.
#[derive(Clone, Copy)]
pub struct Call<'a> {
    pub name: &'a str,
    pub a: u64,
    pub b: u64,
    pub c: u64,
}

/// What a call answers.
#[derive(Drop)]
pub enum Answer {
    Word(&'static str),
    Number(&'static str, u64),
    Pair(&'static str, u64, u64),
    List(Vec<u64>),
}

/// The call that a line is.
pub fn parse(line: &str) -> Option<Call<'_>> {
    let (name, numbers) = line.split_once(' ')?;
    let (a, numbers) = numbers.split_once(' ')?;
    let (b, c) = numbers.split_once(' ')?;
    Some(Call {
        name,
        a: a.parse().ok()?,
        b: b.parse().ok()?,
        c: c.parse().ok()?,
    })
}

fn write_list<W: Write>(out: &mut W, numbers: &[u64]) -> io::Result<()> {
    write!(out, "list")?;
    for number in numbers {
        write!(out, " {number}")?;
    }
    writeln!(out)
}

/// Writes the line of an answer.
pub fn write_answer<W: Write>(out: &mut W, answer: &Answer) -> io::Result<()> {
    match answer {
        Answer::Word(word) => writeln!(out, "{word}"),
        Answer::Number(word, a) => writeln!(out, "{word} {a}"),
        Answer::Pair(word, a, b) => writeln!(out, "{word} {a} {b}"),
        Answer::List(numbers) => write_list(out, numbers),
    }
}

/// The answer of a call that takes a number, and hands it back where it is refused.
pub fn taken(answered: Result<(), (u64, AllocationError)>) -> Answer {
    match answered {
        Ok(()) => Answer::Word("done"),
        Err((back, AllocationError::Memory)) => Answer::Number("memory", back),
        Err((back, AllocationError::Range)) => Answer::Number("range", back),
    }
}

/// The answer of a call that hands nothing back.
pub fn done_or(answered: Result<(), AllocationError>) -> Answer {
    match answered {
        Ok(()) => Answer::Word("done"),
        Err(AllocationError::Memory) => Answer::Word("memory"),
        Err(AllocationError::Range) => Answer::Word("range"),
    }
}

/// The answer of a call that makes a container anew, which stands in the place of the old one.
pub fn renewed<T: Drop>(place: &mut T, made: Result<T, AllocationError>) -> Answer {
    match made {
        Ok(made) => {
            *place = made;
            Answer::Word("done")
        }
        Err(error) => done_or(Err(error)),
    }
}

/// The answer of a call that makes room.
pub fn reserved(capacity: Result<NonMaxUsize, AllocationError>) -> Answer {
    match capacity {
        Ok(capacity) => Answer::Number("capacity", capacity.get() as u64),
        Err(error) => done_or(Err(error)),
    }
}

/// The answer of a call that may find a number.
pub fn found(number: Option<u64>) -> Answer {
    match number {
        Some(number) => Answer::Number("value", number),
        None => Answer::Word("none"),
    }
}

/// Of numbers that were put together for an answer.
pub fn listed<E: Drop>(numbers: Result<Vec<u64>, E>) -> Answer {
    match numbers {
        Ok(numbers) => Answer::List(numbers),
        Err(_) => Answer::Word("memory"),
    }
}
