//! Handles on several threads.
use stabby_count::{Arc, Weak};
use std::alloc::Global;
use std::sync::Wait;
use std::test::Fail;
use std::thread;

// What a thread has at its end, and how often a value came to it.
#[derive(Drop)]
struct Left {
    strong: Vec<Arc<u64>>,
    weak: Vec<Weak<u64>>,
    values: u64,
    refused: bool,
}

impl Left {
    fn keep_strong(&mut self, handle: Arc<u64>) {
        if self.strong.push(handle).is_err() {
            self.refused = true;
        }
    }

    fn keep_weak(&mut self, handle: Weak<u64>) {
        if self.weak.push(handle).is_err() {
            self.refused = true;
        }
    }

    fn clone_one(&mut self, rt: &impl Wait) {
        if let Some(last) = self.strong.last_mut() {
            match last.clone(rt) {
                Ok(other) => self.keep_strong(other),
                Err(_) => self.refused = true,
            }
        }
    }

    fn downgrade_one(&mut self, rt: &impl Wait) {
        if let Some(last) = self.strong.last_mut() {
            match last.downgrade(rt) {
                Ok(other) => self.keep_weak(other),
                Err(_) => self.refused = true,
            }
        }
    }

    fn upgrade_one(&mut self, rt: &impl Wait) {
        if let Some(last) = self.weak.last_mut() {
            match last.upgrade(rt) {
                Ok(Some(other)) => self.keep_strong(other),
                Ok(None) => {}
                Err(_) => self.refused = true,
            }
        }
    }

    fn end_one(&mut self, strong: bool) {
        if strong {
            if let Some(last) = self.strong.pop() {
                if let Ok(_value) = last.end() {
                    self.values = self.values.wrapping_add(1);
                }
            }
        } else if let Some(last) = self.weak.pop() {
            drop(last.end());
        }
    }
}

fn next_random(state: u64) -> u64 {
    state
        .wrapping_mul(6364136223846793005)
        .wrapping_add(1442695040888963407)
}

fn random_steps(rt: &impl Wait, alloc: Global, first: Arc<u64>, seed: u64) -> Left {
    let mut left = Left {
        strong: Vec::new(alloc),
        weak: Vec::new(alloc),
        values: 0,
        refused: false,
    };
    left.keep_strong(first);
    let mut state = seed;
    for _ in 0..10000 {
        state = next_random(state);
        match (state >> 40) % 6 {
            0 => left.clone_one(rt),
            1 => left.downgrade_one(rt),
            2 => left.upgrade_one(rt),
            3 => left.end_one(false),
            _ => {
                if left.strong.len() > 1 {
                    left.end_one(true);
                }
            }
        }
    }
    left
}

// Ends all that a thread has left, and counts how often a value came.
fn end_all(left: Left) -> u64 {
    let mut values: u64 = 0;
    for handle in left.strong {
        if let Ok(value) = handle.end() {
            if value == 7 {
                values = values.wrapping_add(1);
            }
        }
    }
    values
}

#[test]
fn random_steps_of_four_threads(rt: HostRuntime) -> Result<(), Fail> {
    let Ok(mut owner) = Arc::try_new_in(rt.alloc(), 7u64) else {
        return Err(Fail::from("no memory to share a value"));
    };
    let mut threads = Vec::new(rt.alloc());
    for seed in [1u64, 2, 3, 4] {
        let Ok(first) = owner.clone(&rt) else {
            return Err(Fail::from("a clone was refused"));
        };
        threads.push(thread::spawn(&rt, move || { random_steps(&rt, rt.alloc(), first, seed) })?)?;
    }
    let mut all = Vec::new(rt.alloc());
    let mut strong: usize = 1;
    let mut weak: usize = 1;
    for one in threads {
        let left: Left = one.join(&rt);
        assert!(rt; !left.refused);
        assert_eq!(rt; left.values, 0);
        strong = strong.wrapping_add(left.strong.len());
        weak = weak.wrapping_add(left.weak.len());
        all.push(left)?;
    }
    assert_eq!(rt; owner.strong_count(), strong as u64);
    assert_eq!(rt; owner.weak_count(), weak as u64);
    let mut values: u64 = 0;
    if owner.end().is_ok() {
        values = 1;
    }
    for left in all {
        values = values.wrapping_add(end_all(left));
    }
    assert_eq!(rt; values, 1);
    Ok(())
}

#[test]
fn ends_on_two_threads(rt: HostRuntime) -> Result<(), Fail> {
    let Ok(mut first) = Arc::try_new_in(rt.alloc(), 9u64) else {
        return Err(Fail::from("no memory to share a value"));
    };
    let Ok(second) = first.clone(&rt) else {
        return Err(Fail::from("a clone was refused"));
    };
    let child = thread::spawn(&rt, move || second.end().is_ok())?;
    let mine = first.end().is_ok();
    assert!(rt; mine != child.join(&rt));
    Ok(())
}
