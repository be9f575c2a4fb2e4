ghost use Rattle.std.specs.Prelude.{◌≡◌, ◌+◌, ◌<◌, ◌≤◌, ◌^◌, length};
ghost use Rattle.stabby_row.specs.Passes.{IsPassOf, weight_of};

use crate::pass::RowPass;
use crate::row::WordRow;
use std::alloc::Global;
use std::sync::atomic::{AtomicU64, Ordering};
use std::test::Fail;
use std::thread;
use std::thread::Threads;

#[test]
fn row_of_eight_words(rt: HostRuntime) -> Result<(), Fail> {
    let (row, mut pass) = WordRow::new(rt.alloc(), 8).map_err(|_| "memory")?;
    assert!(rt; row.insert_row(&mut pass, &[1, 2]).is_ok_and(|n| n == 0));
    assert!(rt; row.insert_row(&mut pass, &[]).is_ok_and(|n| n == 1));
    assert!(rt;
        row.insert_row(&mut pass, &[7])
            .is_err_and(|f| f.claimed == 6 && f.needed == 3)
    );
    assert!(rt; row.insert_row(&mut pass, &[1, 2]).is_ok_and(|n| n == 0));
    assert!(rt; pass.seen() == 2);
    let second = row.entry(rt.alloc(), &mut pass, 1).map_err(|_| "memory")?;
    assert!(rt; second.is_some_and(|t| t.is_empty()));
    let third = row.entry(rt.alloc(), &mut pass, 2).map_err(|_| "memory")?;
    assert!(rt; third.is_none());
    Ok(())
}

// The threads begin when all of them are there.
#[derive(Drop)]
struct Meeting {
    arrived: AtomicU64,
    // How many threads waited in vain.
    missed: AtomicU64,
}

impl Meeting {
    // Gives up the processor until so many threads are there, a million times at most.
    fn wait_for(&self, threads: u64) {
        self.arrived.fetch_add(1, Ordering::SeqCst);
        for _ in 0..1_000_000u32 {
            if self.arrived.load(Ordering::SeqCst) >= threads {
                return;
            }
            thread::yield_now();
        }
        self.missed.fetch_add(1, Ordering::SeqCst);
    }
}

// The i-th word that a thread inserts: i itself for the seed 0, else some word below 64.
fn word_of(seed: u64, i: u64) -> u64 {
    if seed == 0 {
        return i;
    }
    (seed.wrapping_mul(1000).wrapping_add(i)).wrapping_mul(6364136223846793005) >> 58
}

// Inserts the tables of one word, and keeps their numbers.
fn fill(row: &WordRow, mut pass: RowPass, seed: u64, numbers: &mut [u64]) -> RowPass
    requires { IsPassOf row.now pass }
    ensures { IsPassOf row.now result × (weight_of result ≡ weight_of pass) }
{
    let mut i = 0;
    while i < numbers.len() {
        if let Ok(n) = row.insert_row(&mut pass, &[word_of(seed, i as u64)]) {
            numbers[i] = n;
        }
        i += 1;
    }
    pass
}

fn filled(
    row: &WordRow,
    pass: RowPass,
    seed: u64,
    meeting: &Meeting,
    threads: u64,
) -> (RowPass, [u64; 100])
    requires { IsPassOf row.now pass }
    ensures { IsPassOf row.now result.0 × (weight_of result.0 ≡ weight_of pass) }
{
    meeting.wait_for(threads);
    let mut numbers = [1000; 100];
    let pass = fill(row, pass, seed, &mut numbers);
    (pass, numbers)
}

// Two threads insert, the second with the next seed where the first has one.
fn two<R: Threads + Sync>(
    rt: &R,
    row: &WordRow,
    mut first: RowPass,
    seed: u64,
    meeting: &Meeting,
    threads: u64,
) -> (RowPass, [u64; 100], [u64; 100])
    requires { IsPassOf row.now first × (1 < weight_of first) }
    ensures { IsPassOf row.now result.0 × (weight_of result.0 ≡ weight_of first) }
{
    let second = row.split(&mut first, 1);
    let next = if seed == 0 { 0 } else { seed.wrapping_add(1) };
    let (one, another) = thread::join(
        rt,
        move ||
            requires { IsPassOf row.now first }
            ensures { IsPassOf row.entry.now result.0 × (weight_of result.0 ≡ weight_of first) }
        { filled(row, first, seed, meeting, threads) },
        move ||
            requires { IsPassOf row.now second × (weight_of second ≡ 1) }
            ensures { IsPassOf row.entry.now result.0 × (weight_of result.0 ≡ 1) }
        { filled(row, second, next, meeting, threads) },
    );
    let (mut pass, left) = one;
    let (other, right) = another;
    row.join(&mut pass, other);
    (pass, left, right)
}

#[test]
fn two_threads_get_the_same_numbers(rt: HostRuntime) -> Result<(), Fail> {
    let (row, pass) = WordRow::new(rt.alloc(), 1000).map_err(|_| "memory")?;
    let meeting = Meeting {
        arrived: AtomicU64::new(0),
        missed: AtomicU64::new(0),
    };
    let (pass, left, right) = two(&rt, &row, pass, 0, &meeting, 2);
    assert!(rt; meeting.missed.load(Ordering::SeqCst) == 0);
    assert!(rt; pass.is_whole() && pass.seen() == 100 && left == right);
    let mut marked = [false; 100];
    for n in left {
        assert!(rt; n < 100);
        marked[n as usize] = true;
    }
    assert!(rt; marked == [true; 100]);
    Ok(())
}

// Whether each table stands at the number that its thread got.
fn stand(row: &WordRow, alloc: Global, pass: &mut RowPass, seed: u64, numbers: &[u64]) -> bool
    requires { IsPassOf row.now pass.old }
    ensures { IsPassOf row.now pass.new }
{
    let mut i = 0;
    while i < numbers.len() {
        let Ok(Some(table)) = row.entry(alloc, pass, numbers[i]) else {
            return false;
        };
        if table.as_slice() != &[word_of(seed, i as u64)][..] {
            return false;
        }
        i += 1;
    }
    true
}

// Four threads insert, each with a seed of its own.
fn four<R: Threads + Sync>(
    rt: &R,
    row: &WordRow,
    mut first: RowPass,
    meeting: &Meeting,
) -> (RowPass, [[u64; 100]; 4])
    requires { IsPassOf row.now first × (weight_of first ≡ 2 ^ 32) }
    ensures { IsPassOf row.now result.0 × (weight_of result.0 ≡ 2 ^ 32) }
{
    let second = row.split(&mut first, 2);
    let (one, another) = thread::join(
        rt,
        move ||
            requires { IsPassOf row.now first × (weight_of first + 2 ≡ 2 ^ 32) }
            ensures { IsPassOf row.entry.now result.0 × (weight_of result.0 + 2 ≡ 2 ^ 32) }
        { two(rt, row, first, 1, meeting, 4) },
        move ||
            requires { IsPassOf row.now second × (weight_of second ≡ 2) }
            ensures { IsPassOf row.entry.now result.0 × (weight_of result.0 ≡ 2) }
        { two(rt, row, second, 3, meeting, 4) },
    );
    let (mut pass, a, b) = one;
    let (other, c, d) = another;
    row.join(&mut pass, other);
    (pass, [a, b, c, d])
}

#[test]
fn four_threads_keep_their_numbers(rt: HostRuntime) -> Result<(), Fail> {
    let alloc = rt.alloc();
    let (row, pass) = WordRow::new(alloc, 1000).map_err(|_| "memory")?;
    let meeting = Meeting {
        arrived: AtomicU64::new(0),
        missed: AtomicU64::new(0),
    };
    let (mut pass, numbers) = four(&rt, &row, pass, &meeting);
    assert!(rt; meeting.missed.load(Ordering::SeqCst) == 0);
    assert!(rt; pass.is_whole() && pass.seen() <= 64);
    assert!(rt; stand(&row, alloc, &mut pass, 1, &numbers[0]));
    assert!(rt; stand(&row, alloc, &mut pass, 2, &numbers[1]));
    assert!(rt; stand(&row, alloc, &mut pass, 3, &numbers[2]));
    assert!(rt; stand(&row, alloc, &mut pass, 4, &numbers[3]));
    Ok(())
}
