//! Two threads at one shared set, run.
ghost use Rattle.std.specs.Prelude.{◌<◌};
ghost use Rattle.std.specs.Thread.{IsSync};
ghost use Rattle.stabby_cell.specs.Replaced.{IsPassOf};

use crate::{fill_new_set, with_number};
use stabby_cell::{AtomicArcBTreeSet, EditFault, Edited, SetPass};
use std::alloc::Global;
use std::sync::Wait;
use std::sync::atomic::{AtomicBool, Ordering};
use std::test::Fail;
use std::thread;
use std::thread::{Threads, join};

// 100 edits in each of two threads: 200 calls that made 200 commits, so each of them committed.
#[test]
fn two_threads_edit(rt: HostRuntime) -> Result<(), Fail> {
    let Ok(filled) = fill_new_set(&rt, rt.alloc(), 100, 1_000) else {
        return Err("no memory")?;
    };
    assert!(rt; (filled.stamp, filled.added, filled.size) == (200, 200, 200));
    Ok(())
}

// Holds the first thread in its closure's first call until the second thread has edited, and that one until the call.
#[derive(Drop)]
struct Meeting {
    // The closure has been called.
    called: AtomicBool,
    // The second thread has edited.
    edited: AtomicBool,
    // One of the two waited in vain.
    missed: AtomicBool,
}

impl Meeting {
    fn new() -> Meeting {
        Meeting {
            called: AtomicBool::new(false),
            edited: AtomicBool::new(false),
            missed: AtomicBool::new(false),
        }
    }

    // Gives up the processor until the flag is up, a million times at most.
    fn wait_for(&self, flag: &AtomicBool) {
        for _ in 0..1_000_000u32 {
            if flag.load(Ordering::SeqCst) {
                return;
            }
            thread::yield_now();
        }
        self.missed.store(true, Ordering::SeqCst);
    }

    fn in_call(&self) {
        if !self.called.swap(true, Ordering::SeqCst) {
            self.wait_for(&self.edited);
        }
    }
}

// How the edit ended, and how often its closure was called.
fn edit_first<H: Wait>(
    rt: &H,
    alloc: Global,
    set: &AtomicArcBTreeSet<u64, 0, 5>,
    mut pass: SetPass<u64, 0, 5>,
    meeting: &Meeting,
    tries: u64,
) -> (Result<Edited, EditFault>, u64)
    requires own { IsPassOf set.now pass }
    requires some { 0 < tries }
{
    let mut calls = 0u64;
    let edited = set.edit(rt, alloc, &mut pass, tries, |contents| {
        meeting.in_call();
        calls = calls.saturating_add(1);
        with_number(contents, 8)
    });
    (edited, calls)
}

fn edit_second<H: Wait>(
    rt: &H,
    alloc: Global,
    set: &AtomicArcBTreeSet<u64, 0, 5>,
    mut pass: SetPass<u64, 0, 5>,
    meeting: &Meeting,
) -> Result<Edited, EditFault>
    requires { IsPassOf set.now pass }
{
    meeting.wait_for(&meeting.called);
    let edited = set.edit(rt, alloc, &mut pass, 1, |contents| with_number(contents, 7));
    meeting.edited.store(true, Ordering::SeqCst);
    edited
}

// How both edits ended, how often the first one's closure was called, and whether a thread waited in vain.
fn edit_at_once<H: Threads + Wait + Sync>(
    rt: &H,
    alloc: Global,
    tries: u64,
) -> Option<
    (
        Result<Edited, EditFault>,
        u64,
        Result<Edited, EditFault>,
        bool,
    ),
>
    requires { 0 < tries }
{
    let Ok((set, mut pass)) = AtomicArcBTreeSet::<u64, 0, 5>::new(alloc) else {
        return None;
    };
    let other = set.split(&mut pass, 1);
    let meeting = Meeting::new();
    let (first, second) = join(
        rt,
        || -> (Result<Edited, EditFault>, u64)
            requires { IsSync H.row × IsPassOf set pass × (0 < tries) }
        { edit_first(rt, alloc, &set, pass, &meeting, tries) },
        || -> Result<Edited, EditFault>
            requires { IsSync H.row × IsPassOf set other }
        { edit_second(rt, alloc, &set, other, &meeting) },
    );
    let (edited, calls) = first;
    Some((edited, calls, second, meeting.missed.load(Ordering::SeqCst)))
}

#[test]
fn edit_loses_once(rt: HostRuntime) -> Result<(), Fail> {
    let Some((first, calls, second, missed)) = edit_at_once(&rt, rt.alloc(), 1) else {
        return Err("no memory")?;
    };
    assert!(rt; !missed);
    assert!(rt; second == Ok(Edited::Committed { stamp: 1 }));
    assert!(rt; first == Err(EditFault::Lost { tried: 0, stamp: 1 }));
    assert!(rt; calls == 1);
    Ok(())
}

#[test]
fn edit_tries_again(rt: HostRuntime) -> Result<(), Fail> {
    let Some((first, calls, second, missed)) = edit_at_once(&rt, rt.alloc(), 2) else {
        return Err("no memory")?;
    };
    assert!(rt; !missed);
    assert!(rt; second == Ok(Edited::Committed { stamp: 1 }));
    assert!(rt; first == Ok(Edited::Committed { stamp: 2 }));
    assert!(rt; calls == 2);
    Ok(())
}
