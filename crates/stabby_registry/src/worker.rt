//! The workers of `intern_all`: each numbers one share of the tables, by a pass of its own.

ghost use Rattle.std.specs.Prelude.{◌≡◌, ◌<◌, ◌≤◌, ◌+◌, ◌*◌, ◌^◌, [], ◌++◌, ℕ, All, Ok, length, slice_index_or, vec_len, vec_capacity, IfOk, IfErr, Err};
ghost use mathlib.Core.List.{IsPrefix};
ghost use Rattle.std.specs.Thread.{IsSync};
ghost use Rattle.stabby_tables.specs.Shares.{share_size};
ghost use Rattle.stabby_registry.specs.Passes.{IsPassOf, SplitOff, GoesOn, front_of, weight_of, commits_of};
ghost use Rattle.stabby_registry.specs.Work.{share_of, HasWorked, HasStopped, IsReady, IsDone, AreTogether, AreJoined, HaveOutcome};

use crate::catalog::Catalog;
use crate::fault::RegistryFault;
use crate::gate::Gate;
use crate::registry::{TreePass, VtBtree};
use stabby_word_table::WordTable;
use std::alloc::Global;
use std::marker::Sync;
use std::sync::Wait;
use std::thread::{self, Threads};

/// A worker's pass, and what it made of its share: the numbers of its tables, or why it stopped.
#[derive(Drop)]
pub(crate) struct Job {
    pub(crate) pass: TreePass<5>,
    pub(crate) outcome: Result<Vec<u64>, RegistryFault>,
}

// Splits a pass off for each worker.
#[tactic(auto, using(crate::proofs::GoingOn::goes_on_same))]
fn hand_out(
    alloc: Global,
    registry: &VtBtree<5>,
    pass: &mut TreePass<5>,
    mut jobs: Vec<Job>,
    workers: usize,
) -> Vec<Job>
    requires own { IsPassOf registry.now pass.old }
    requires heavy { workers < weight_of pass.old }
    requires empty { jobs.items ≡ [] }
    requires room { workers ≤ vec_capacity jobs }
    ensures pass { IsPassOf registry.now pass.new }
    ensures weight { weight_of pass.new + workers ≡ weight_of pass.old }
    ensures front { front_of pass.new ≡ front_of pass.old }
    ensures commits { commits_of pass.new ≡ commits_of pass.old }
    ensures goes_on { GoesOn pass.old pass.new }
    ensures ready { All (IsReady registry.now) result.items }
    ensures count { length result.items ≡ workers }
{
    for _ in 0..workers {
        let part = registry.split(pass, 1);
        jobs.push_reserved(Job {
            pass: part,
            outcome: Ok(Vec::new(alloc)),
        });
    }
    jobs
}

// Numbers the tables of a worker's share, whose first table stands at place `first`.
fn number_share<G: Gate, H: Wait>(
    rt: &H,
    alloc: Global,
    registry: &VtBtree<5>,
    pass: &mut TreePass<5>,
    tables: &[WordTable],
    gate: &G,
    worker: usize,
    first: usize,
) -> Result<Vec<u64>, RegistryFault>
    requires own { IsPassOf registry.now pass.old }
    requires fresh { commits_of pass.old ≡ [] }
    requires places { first + length tables.now < 2 ^ 64 }
    ensures pass { IsPassOf registry.now pass.new }
    ensures weight { weight_of pass.new ≡ weight_of pass.old }
    ensures numbers { IfOk result (λ numbers. HasWorked pass.new tables.now numbers.items) }
    ensures refused { IfErr result (HasStopped pass.new tables.now) }
{
    let Ok(mut numbers) = Vec::with_capacity(alloc, tables.len()) else {
        return Err(RegistryFault::Memory);
    };
    // The newest version that this worker read or made: its tables need no step on the registry.
    let mut known = Catalog::new(alloc);
    for (at, table) in tables.iter().enumerate() {
        let place = (first + at) as u64;
        gate.before(worker as u64, place);
        if let Some(number) = known.number_of(table) {
            gate.after(worker as u64, place, number);
            numbers.push_reserved(number);
            continue;
        }
        let number = registry.insert_absent(
            rt,
            alloc,
            pass,
            table,
            gate,
            worker as u64,
            place,
            &mut known,
        )?;
        numbers.push_reserved(number);
    }
    Ok(numbers)
}

// Numbers the share of a worker.
fn work_share<G: Gate, H: Wait>(
    rt: &H,
    alloc: Global,
    registry: &VtBtree<5>,
    tables: &[WordTable],
    size: usize,
    gate: &G,
    worker: usize,
    job: &mut Job,
)
    requires ready { IsReady registry.now job.old }
    ensures done { IsDone registry.now (share_of tables.now size worker) job.new }
{
    let from = worker.saturating_mul(size).min(tables.len());
    let to = from.saturating_add(size).min(tables.len());
    job.outcome = number_share(
        rt,
        alloc,
        registry,
        &mut job.pass,
        &tables[from..to],
        gate,
        worker,
        from,
    );
}

// Runs the jobs, each in a thread of its own where there are threads.
fn run_jobs<G: Gate, H: Threads + Wait + Sync>(
    rt: &H,
    alloc: Global,
    registry: &VtBtree<5>,
    tables: &[WordTable],
    size: usize,
    gate: &G,
    mut jobs: Vec<Job>,
) -> Vec<Job>
    requires some { 0 < length jobs.items }
    requires ready { All (IsReady registry.now) jobs.items }
    ensures count { length result.items ≡ length jobs.items }
    ensures done { (i : ℕ) (d : _) → i < length jobs.items
        → IsDone registry.now (share_of tables.now size i) (slice_index_or result.items i d) }
{
    let workers = jobs.len();
    thread::for_each_mut(
        rt,
        &mut jobs,
        workers,
        &|worker, job: &mut Job|
            requires { IsSync H.row × IsReady registry.now job.old }
            ensures { IsDone registry.entry.now (share_of tables.entry.now size worker) job.new }
        { work_share(rt, alloc, registry, tables, size, gate, worker, job) },
    );
    jobs
}

// The numbers of both, one list behind the other, or the first fault. Behind an empty list the other is taken as it is.
fn together(
    before: Result<Vec<u64>, RegistryFault>,
    after: Result<Vec<u64>, RegistryFault>,
) -> Result<Vec<u64>, RegistryFault>
    ensures { AreTogether before after result }
{
    let mut all = before?;
    let more = after?;
    if all.is_empty() {
        return Ok(more);
    }
    match all.extend_from_slice(&more) {
        Ok(()) => Ok(all),
        Err(_) => Err(RegistryFault::Memory),
    }
}

// Runs the jobs, joins their passes into this one, and puts their numbers together.
#[tactic(auto, using(crate::proofs::GoingOn::goes_on_same))]
fn number_shares<G: Gate, H: Threads + Wait + Sync>(
    rt: &H,
    alloc: Global,
    registry: &VtBtree<5>,
    pass: &mut TreePass<5>,
    tables: &[WordTable],
    size: usize,
    gate: &G,
    jobs: Vec<Job>,
) -> Result<Vec<u64>, RegistryFault>
    requires own { IsPassOf registry.now pass.old }
    requires some { 0 < length jobs.items }
    requires ready { All (IsReady registry.now) jobs.items }
    ensures pass { IsPassOf registry.now pass.new }
    ensures weight { weight_of pass.new ≡ weight_of pass.old + length jobs.items }
    ensures goes_on { GoesOn pass.old pass.new }
    ensures joined { AreJoined (front_of pass.old) (commits_of pass.old) pass.new tables.now size (length jobs.items) }
    ensures outcome { HaveOutcome (commits_of pass.old) pass.new tables.now size (length jobs.items) result }
{
    let mut numbered = Ok(Vec::new(alloc));
    for job in run_jobs(rt, alloc, registry, tables, size, gate, jobs) {
        let Job {
            pass: part,
            outcome,
        } = job;
        registry.join(pass, part);
        numbered = together(numbered, outcome);
    }
    numbered
}

// Numbers the tables by so many workers.
#[tactic(auto, using(crate::proofs::GoingOn::goes_on_same, crate::proofs::GoingOn::goes_on_then))]
pub(crate) fn number_tables<G: Gate, H: Threads + Wait + Sync>(
    rt: &H,
    alloc: Global,
    registry: &VtBtree<5>,
    pass: &mut TreePass<5>,
    tables: &[WordTable],
    workers: usize,
    gate: &G,
) -> Result<Vec<u64>, RegistryFault>
    requires workers { (1 ≤ workers) × (workers ≤ 64) }
    requires own { IsPassOf registry.now pass.old }
    requires heavy { workers < weight_of pass.old }
    requires few { length tables.now < 2 ^ 63 }
    ensures pass { IsPassOf registry.now pass.new }
    ensures weight { weight_of pass.new ≡ weight_of pass.old }
    ensures goes_on { GoesOn pass.old pass.new }
    ensures joined { AreJoined (front_of pass.old) (commits_of pass.old) pass.new tables.now
        (share_size (length tables.now) workers) workers }
    ensures outcome { HaveOutcome (commits_of pass.old) pass.new tables.now
        (share_size (length tables.now) workers) workers result }
{
    let Ok(jobs) = Vec::with_capacity(alloc, workers) else {
        return Err(RegistryFault::Memory);
    };
    let jobs = hand_out(alloc, registry, pass, jobs, workers);
    let size = (tables.len() + (workers - 1)) / workers;
    number_shares(rt, alloc, registry, pass, tables, size, gate, jobs)
}
