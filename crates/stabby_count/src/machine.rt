//! The handle machine: what each step on the counts of one shared value does and answers.
use crate::word::{COUNT_LIMIT, ONE_STRONG};
use std::marker::Model;

/// A step on the counts.
#[derive(Clone, Copy, Debug, PartialEq, Eq)]
pub enum Step {
    /// One more strong handle, made from a strong one.
    Clone,
    /// One more weak handle, made from a strong or a weak one.
    Downgrade,
    /// One more strong handle, made from a weak one.
    Upgrade,
    /// A strong handle ends.
    EndStrong,
    /// A weak handle ends.
    EndWeak,
    /// A holder reads both counts.
    Look,
    /// The holder of the last strong handle takes the value.
    Take,
}

/// What has become of the value.
#[derive(Clone, Copy, Debug, PartialEq, Eq)]
pub enum ValueState {
    /// The value is there.
    Live,
    /// The value was taken, and weak handles are left.
    Taken,
    /// The value was taken and no handle is left: the block is free.
    Released,
}

/// What a step answers.
#[derive(Clone, Copy, Debug, PartialEq, Eq)]
pub enum Reply {
    /// The step was carried out.
    Done,
    /// It was carried out, and the last strong handle is gone: the value is due.
    Last,
    /// It was carried out, and the block is free.
    Freed,
    /// The count to be raised is at its limit, 2^32 - 1. Nothing changed.
    Full,
    /// No strong handle is left to upgrade to. Nothing changed.
    Gone,
    /// The strong count, and the weak count with the one of a value that is there.
    Counts { strong: u64, weak: u64 },
    /// There is no handle, or no value that is due, for such a step. Nothing changed.
    NotHeld,
}

/// Counts the strong and the weak handles of one value, each up to 2^32 - 1.
///
/// It has no thread and no memory: it is the model that running handles follow.
#[derive(Drop)]
pub struct HandleMachine {
    strong: u64,
    weak: u64,
    value: ValueState,
}

impl Model for HandleMachine {
    ghost use Rattle.std.specs.Prelude.{◌+◌, ◌^◌, ◌<◌};
    ghost use Rattle.stabby_count.specs.Handles.{Handles, handles, live_count};

    ghost Value = { Handles };

    ghost view = { λ m. handles m.strong m.weak m.value };

    ghost invariant = { λ m. (m.strong < 2 ^ 32) × (m.weak + live_count m.value < 2 ^ 32) };
}

impl HandleMachine {
    ghost use Rattle.std.specs.Prelude.{◌≡◌, ◌^◌, ◌<◌, IsTrue};
    ghost use mathlib.Core.Logic.{◌↔◌};
    ghost use Rattle.stabby_count.specs.Handles.{start, stepped, weak_count, word_of, IsDue};
    ghost use Rattle.stabby_count.specs.declared.machine.Step.TheVariants.{Clone, Downgrade, Upgrade, EndStrong, EndWeak, Look, Take};

    /// One strong handle and its value.
    pub fn new() -> HandleMachine
        ensures { result ≡ start }
    {
        HandleMachine {
            strong: 1,
            weak: 0,
            value: ValueState::Live,
        }
    }

    /// How many strong handles there are.
    pub fn strong(&self) -> u64
        ensures { result ≡ self.now.strong }
    {
        self.strong
    }

    /// How many weak handles there are, without the one that counts for the value.
    pub fn weak(&self) -> u64
        ensures { result ≡ self.now.weak }
    {
        self.weak
    }

    /// What has become of the value.
    pub fn value(&self) -> ValueState
        ensures { result ≡ self.now.value }
    {
        self.value
    }

    // The lower half of the word.
    fn weak_count(&self) -> u64
        ensures count { result ≡ weak_count self.now }
        ensures fits { result < 2 ^ 32 }
    {
        match self.value {
            ValueState::Live => self.weak + 1,
            ValueState::Taken | ValueState::Released => self.weak,
        }
    }

    /// Both counts in one word: `strong * 2^32 + weak`, and one more while the value is there.
    pub fn word(&self) -> u64
        ensures { result ≡ word_of self.now }
    {
        self.strong * ONE_STRONG + self.weak_count()
    }

    /// Whether the value is there and no strong handle is left, so that it is to be taken.
    pub fn due(&self) -> bool
        ensures { IsTrue result ↔ IsDue self.now }
    {
        match self.value {
            ValueState::Live => self.strong == 0,
            ValueState::Taken | ValueState::Released => false,
        }
    }

    /// Carries a step out, or refuses it and changes nothing.
    ///
    /// The refusals are `NotHeld`, `Full` and `Gone`. A look changes nothing either.
    pub fn step(&mut self, step: Step) -> Reply
        ensures { (self.new, result) ≡ stepped self.old step }
    {
        match step {
            Step::Clone => self.clone_strong(),
            Step::Downgrade => self.add_weak(),
            Step::Upgrade => self.upgrade_weak(),
            Step::EndStrong => self.end_strong(),
            Step::EndWeak => self.end_weak(),
            Step::Look => self.look(),
            Step::Take => self.take(),
        }
    }

    fn clone_strong(&mut self) -> Reply
        ensures { (self.new, result) ≡ stepped self.old Clone }
    {
        if self.strong == 0 {
            return Reply::NotHeld;
        }
        if self.strong == COUNT_LIMIT {
            return Reply::Full;
        }
        self.strong += 1;
        Reply::Done
    }

    fn add_weak(&mut self) -> Reply
        ensures { (self.new, result) ≡ stepped self.old Downgrade }
    {
        if self.strong == 0 && self.weak == 0 {
            return Reply::NotHeld;
        }
        if self.weak_count() == COUNT_LIMIT {
            return Reply::Full;
        }
        self.weak += 1;
        Reply::Done
    }

    fn upgrade_weak(&mut self) -> Reply
        ensures { (self.new, result) ≡ stepped self.old Upgrade }
    {
        if self.weak == 0 {
            return Reply::NotHeld;
        }
        if self.strong == 0 {
            return Reply::Gone;
        }
        self.clone_strong()
    }

    fn end_strong(&mut self) -> Reply
        ensures { (self.new, result) ≡ stepped self.old EndStrong }
    {
        if self.strong == 0 {
            return Reply::NotHeld;
        }
        self.strong -= 1;
        if self.strong == 0 {
            Reply::Last
        } else {
            Reply::Done
        }
    }

    fn end_weak(&mut self) -> Reply
        ensures { (self.new, result) ≡ stepped self.old EndWeak }
    {
        if self.weak == 0 {
            return Reply::NotHeld;
        }
        self.weak -= 1;
        match self.value {
            ValueState::Taken if self.weak == 0 => {
                self.value = ValueState::Released;
                Reply::Freed
            }
            ValueState::Live | ValueState::Taken | ValueState::Released => Reply::Done,
        }
    }

    fn look(&self) -> Reply
        ensures { (self.now, result) ≡ stepped self.now Look }
    {
        if self.strong == 0 && self.weak == 0 {
            return Reply::NotHeld;
        }
        Reply::Counts {
            strong: self.strong,
            weak: self.weak_count(),
        }
    }

    fn take(&mut self) -> Reply
        ensures { (self.new, result) ≡ stepped self.old Take }
    {
        if !self.due() {
            return Reply::NotHeld;
        }
        if self.weak == 0 {
            self.value = ValueState::Released;
            return Reply::Freed;
        }
        self.value = ValueState::Taken;
        Reply::Done
    }
}
