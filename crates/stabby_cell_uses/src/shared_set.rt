//! Two threads that fill one shared set by edits.
ghost use Rattle.std.specs.Prelude.{◌≡◌, ◌+◌, ◌<◌, [], length, IfOk, IfErr, OnErr};
ghost use mathlib.Core.List.{IsPrefix};
ghost use Rattle.std.specs.Thread.{IsSync};
ghost use Rattle.stabby_cell.specs.Passes.{IsWhole, Looked, front_of, commits_of, weight_of};
ghost use Rattle.stabby_cell.specs.Replaced.{IsPassOf, contents_of, first_contents_of};
ghost use Rattle.stabby_cell.specs.Edits.{IsOwnFault};
ghost use Rattle.stabby_cell_uses.specs.Fills.{WithNumber, AddsNumber, AddedOnly, EachAddsOne, size_of};

use stabby_cell::{AllocationError, AtomicArcBTreeSet, EditFault, Edited, Set, SetPass};
use std::alloc::Global;
use std::sync::Wait;
use std::thread::{Threads, join};

/// The contents with the number in addition, or none where it is among them.
///
/// # Errors
///
/// `AllocationError::Memory`, where there is none for the new contents.
pub fn with_number(
    contents: &Set<u64, 0, 5>,
    number: u64,
) -> Result<Option<Set<u64, 0, 5>>, AllocationError>
    ensures ok { IfOk result (WithNumber number contents.now) }
    ensures memory { IfErr result (λ error. error ≡ AllocationError.Memory) }
{
    let mut next = contents.clone()?;
    match next.insert(number) {
        Ok(None) => Ok(Some(next)),
        Ok(Some(_known)) => Ok(None),
        Err((_, error)) => Err(error),
    }
}

/// Puts the number into the set by an edit of at most so many tries.
///
/// # Errors
///
/// Those of the edit, which added nothing. A whole pass never loses.
pub fn add_number<H: Wait>(
    rt: &H,
    alloc: Global,
    set: &AtomicArcBTreeSet<u64, 0, 5>,
    pass: &mut SetPass<u64, 0, 5>,
    number: u64,
    tries: u64,
) -> Result<Edited, EditFault>
    requires own { IsPassOf set.now pass.old }
    requires some { 0 < tries }
    ensures pass { IsPassOf set.now pass.new }
    ensures ok { IfOk result (AddsNumber set.now pass.old pass.new number) }
    ensures looked { OnErr result (Looked pass.old pass.new) }
    ensures whole { IsWhole pass.old → IfErr result IsOwnFault }
{
    set.edit(
        rt,
        alloc,
        pass,
        tries,
        |contents| -> Result<Option<Set<u64, 0, 5>>, AllocationError>
            ensures { IfOk result (WithNumber number contents.now) }
        { with_number(contents, number) },
    )
}

// Adds so many numbers, from the first on.
fn add_numbers<H: Wait>(
    rt: &H,
    alloc: Global,
    set: &AtomicArcBTreeSet<u64, 0, 5>,
    mut pass: SetPass<u64, 0, 5>,
    first: u64,
    count: u64,
    tries: u64,
) -> SetPass<u64, 0, 5>
    requires own { IsPassOf set.now pass }
    requires some { 0 < tries }
    requires added { AddedOnly set.now pass }
    ensures pass { IsPassOf set.now result }
    ensures added { AddedOnly set.now result }
    ensures weight { weight_of result ≡ weight_of pass }
    ensures front { IsPrefix (front_of pass) (front_of result) }
{
    for round in 0..count {
        let number = first.wrapping_add(round);
        let _ = add_number(rt, alloc, set, &mut pass, number, tries);
    }
    pass
}

/// Cuts the pass in two, lets two threads add `count` numbers each, by edits of at most so many tries, and joins the passes
/// again. Where the pass was whole and new, the whole history is known: each contents has one number more than those before.
pub fn fill_in_two_threads<H: Threads + Wait + Sync>(
    rt: &H,
    alloc: Global,
    set: &AtomicArcBTreeSet<u64, 0, 5>,
    mut pass: SetPass<u64, 0, 5>,
    count: u64,
    tries: u64,
) -> SetPass<u64, 0, 5>
    requires own { IsPassOf set.now pass }
    requires some { 0 < tries }
    requires heavy { 1 < weight_of pass }
    requires fresh { commits_of pass ≡ [] }
    ensures pass { IsPassOf set.now result }
    ensures weight { weight_of result ≡ weight_of pass }
    ensures front { IsPrefix (front_of pass) (front_of result) }
    ensures added { AddedOnly set.now result }
    ensures history { IsWhole pass → EachAddsOne set.now (front_of result) }
{
    let other = set.split(&mut pass, 1);
    let (mut one, two) = join(
        rt,
        || -> SetPass<u64, 0, 5>
            requires { IsSync H.row × IsPassOf set.now pass × (0 < tries) × AddedOnly set.now pass }
            ensures pass { IsPassOf set.entry.now result }
            ensures added { AddedOnly set.entry.now result }
            ensures weight { weight_of result ≡ weight_of pass }
            ensures front { IsPrefix (front_of pass) (front_of result) }
        { add_numbers(rt, alloc, set, pass, 0, count, tries) },
        || -> SetPass<u64, 0, 5>
            requires { IsSync H.row × IsPassOf set.now other × (0 < tries) × AddedOnly set.now other }
            ensures pass { IsPassOf set.entry.now result }
            ensures added { AddedOnly set.entry.now result }
            ensures weight { weight_of result ≡ weight_of other }
            ensures front { IsPrefix (front_of other) (front_of result) }
        { add_numbers(rt, alloc, set, other, count, count, tries) },
    );
    set.join(&mut one, two);
    one
}

/// What two threads left in a set.
#[derive(Drop)]
pub struct Filled {
    /// The stamp of the contents.
    pub stamp: u64,
    /// How many commits the two made.
    pub added: u64,
    /// How many numbers there are.
    pub size: usize,
}

/// Fills a new set by two threads. The stamp, the number of commits and that of the numbers are equal: the joined pass is
/// whole, so there was no other commit, and each added one number.
///
/// # Errors
///
/// `AllocationError::Memory` where there is none for the set, or no further handle of its contents.
pub fn fill_new_set<H: Threads + Wait + Sync>(
    rt: &H,
    alloc: Global,
    count: u64,
    tries: u64,
) -> Result<Filled, AllocationError>
    requires { 0 < tries }
    ensures added { IfOk result (λ filled. filled.added ≡ filled.stamp) }
    ensures size { IfOk result (λ filled. filled.size ≡ filled.stamp) }
    ensures memory { IfErr result (λ error. error ≡ AllocationError.Memory) }
{
    match AtomicArcBTreeSet::<u64, 0, 5>::new(alloc) {
        Err(error) => Err(error),
        Ok((set, pass)) => {
            let mut pass = fill_in_two_threads(rt, alloc, &set, pass, count, tries);
            match set.snapshot(rt, &mut pass) {
                Err(error) => Err(error),
                Ok(contents) => Ok(Filled {
                    stamp: pass.seen(),
                    added: pass.added(),
                    size: contents.len(),
                }),
            }
        }
    }
}
