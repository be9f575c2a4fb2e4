//! Clones and ends handles, or reads through them, in so many threads and as often as each line of the input says.
#![tactic(auto)]

use stabby_count::Arc;
use std::alloc::Global;
use std::io;
use std::sync::Wait;
use std::thread::{Threads, map_vec};

/// What each thread does in a round.
#[derive(Clone, Copy)]
enum Work {
    CloneAndEnd,
    Read,
}

/// A line of the input: the work, the threads, and the rounds of each.
fn parse(line: &str) -> Option<(Work, u64, u64)> {
    let (name, numbers) = line.split_once(' ')?;
    let (threads, rounds) = numbers.split_once(' ')?;
    let work = match name {
        "clone" => Work::CloneAndEnd,
        "read" => Work::Read,
        _ => return None,
    };
    let Ok(threads) = threads.parse::<u64>() else {
        return None;
    };
    let Ok(rounds) = rounds.parse::<u64>() else {
        return None;
    };
    Some((work, threads, rounds))
}

/// Shares the numbers from 0 to 63.
fn share_numbers(alloc: Global) -> Option<Vec<Arc<u64>>> {
    let mut handles = Vec::new(alloc);
    for number in 0..64u64 {
        let Ok(handle) = Arc::try_new_in(alloc, number) else {
            return None;
        };
        if handles.push(handle).is_err() {
            return None;
        }
    }
    Some(handles)
}

/// One more handle of each.
fn clones_of<H: Wait>(rt: &H, alloc: Global, handles: &mut Vec<Arc<u64>>) -> Option<Vec<Arc<u64>>> {
    let mut clones = Vec::new(alloc);
    for handle in handles.iter_mut() {
        let Ok(other) = handle.clone(rt) else {
            return None;
        };
        if clones.push(other).is_err() {
            return None;
        }
    }
    Some(clones)
}

/// Clones the handle and ends the clone, once a round. Answers how many clones were ended.
fn clone_and_end<H: Wait>(rt: &H, handle: &mut Arc<u64>, rounds: u64) -> u64 {
    let mut ended = 0u64;
    for _ in 0..rounds {
        if let Ok(other) = handle.clone(rt) {
            if other.end().is_err() {
                ended = ended.wrapping_add(1);
            }
        }
    }
    ended
}

/// Reads through the handles in turn, one a round. Answers the sum of what was read.
fn read_in_turn(handles: &[Arc<u64>], rounds: u64) -> u64 {
    let mut sum = 0u64;
    for round in 0..rounds {
        if let Some(handle) = handles.get((round % 64) as usize) {
            sum = sum.wrapping_add(**handle);
        }
    }
    sum
}

/// What one thread does.
fn work_on<H: Wait>(rt: &H, mut handles: Vec<Arc<u64>>, work: Work, rounds: u64) -> u64 {
    match work {
        Work::CloneAndEnd => match handles.first_mut() {
            Some(handle) => clone_and_end(rt, handle, rounds),
            None => 0,
        },
        Work::Read => read_in_turn(handles.as_slice(), rounds),
    }
}

/// Handles of every number for each of so many threads.
fn jobs_for<H: Wait>(rt: &H, alloc: Global, threads: u64) -> Option<Vec<Vec<Arc<u64>>>> {
    let mut owners = share_numbers(alloc)?;
    let mut jobs = Vec::new(alloc);
    for _ in 0..threads {
        let handles = clones_of(rt, alloc, &mut owners)?;
        if jobs.push(handles).is_err() {
            return None;
        }
    }
    Some(jobs)
}

/// Does the work in so many threads. Answers the sum of what they answered.
fn work_in_threads<H: Threads + Wait + Sync>(
    rt: &H,
    jobs: Vec<Vec<Arc<u64>>>,
    work: Work,
    rounds: u64,
) -> Option<u64> {
    let Ok(sums) = map_vec(rt, jobs, &|handles| work_on(rt, handles, work, rounds)) else {
        return None;
    };
    let mut sum = 0u64;
    for one in sums {
        sum = sum.wrapping_add(one);
    }
    Some(sum)
}

/// Carries out a line of the input.
fn carry_out<H: Threads + Wait + Sync>(
    rt: &H,
    alloc: Global,
    work: Work,
    threads: u64,
    rounds: u64,
) -> Option<u64> {
    let jobs = jobs_for(rt, alloc, threads)?;
    work_in_threads(rt, jobs, work, rounds)
}

fn main(rt: HostRuntime) -> io::Result<()> {
    for line in rt.lines(rt.alloc()) {
        let line = line?;
        match parse(line.as_str()) {
            None => println!(rt; "not an order")?,
            Some((work, threads, rounds)) => {
                match carry_out(&rt, rt.alloc(), work, threads, rounds) {
                    Some(sum) => println!(rt; "{sum}")?,
                    None => println!(rt; "no memory")?,
                }
            }
        }
    }
    Ok(())
}
