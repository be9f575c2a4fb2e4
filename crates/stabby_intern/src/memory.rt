//! A source and a sink in memory, which fail at the calls that they are told.

ghost use Rattle.std.specs.Prelude.{◌≡◌, ◌≤◌, ◌<◌, min, ◌↔◌, [], Some, drop, length, vec_len, vec_capacity, IfOk, IfErr, IsErr};
ghost use Rattle.stabby_intern.specs.Devices.{Reads, Writes, HasCause};

use crate::device::{Failed, Sink, Source};
use stabby_layout::AllocationError;
use std::alloc::Global;

/// Bytes to read, at most a chunk at a time.
#[derive(Drop)]
pub struct MemorySource {
    bytes: Vec<u8>,
    at: usize,
    chunk: usize,
    fails: Vec<u64>,
    calls: u64,
    faults: u64,
    ghost within: { at ≤ vec_len bytes },
    ghost some: { 1 ≤ chunk },
}

impl MemorySource {
    ghost use Rattle.stabby_intern.specs.Memory.{chunk_of, failing_of, calls_of};

    /// A source of `bytes`. A read gives at most `chunk` bytes, at least 1; the calls whose number, from 0, is in
    /// `fails` fail.
    pub fn new(bytes: Vec<u8>, chunk: usize, fails: Vec<u64>) -> MemorySource
        requires { 1 ≤ chunk }
        ensures left { ⟦<MemorySource as Source>⟧.left result ≡ Some bytes.items }
        ensures faults { ⟦<MemorySource as Source>⟧.faults result ≡ 0 }
        ensures chunk { chunk_of result ≡ chunk }
        ensures fails { failing_of result ≡ fails.items }
        ensures calls { calls_of result ≡ 0 }
    {
        MemorySource {
            bytes,
            at: 0,
            chunk,
            fails,
            calls: 0,
            faults: 0,
        }
    }
}

impl Source for MemorySource {
    ghost use Rattle.stabby_intern.specs.Memory.{chunk_of, failing_of, calls_of, left_in, IsTold, next_call};

    ghost left = { λ s. Some (drop s.at s.bytes.items) };

    ghost faults = { λ s. s.faults };

    fn read(&mut self, buf: &mut [u8]) -> Result<usize, Failed>
        requires { 0 < length buf.old }
        ensures bound { IfOk result (λ n. n ≤ length buf.new) }
        ensures bytes { Reads (⟦<MemorySource as Source>⟧.left self.old) (⟦<MemorySource as Source>⟧.left self.new)
            result buf.new }
        ensures cause { HasCause (⟦<MemorySource as Source>⟧.faults self.old)
            (⟦<MemorySource as Source>⟧.faults self.new) result }
        ensures amount { IfOk result (λ n. n ≡ min (min (length buf.old) (chunk_of self.old)) (left_in self.old)) }
        ensures fails { IsErr result ↔ IsTold (failing_of self.old) (calls_of self.old) }
        ensures same_chunk { chunk_of self.new ≡ chunk_of self.old }
        ensures same_fails { failing_of self.new ≡ failing_of self.old }
        ensures calls { calls_of self.new ≡ next_call (calls_of self.old) }
    {
        let call = self.calls;
        self.calls = call.saturating_add(1);
        if self.fails.contains(&call) {
            self.faults = self.faults.saturating_add(1);
            return Err(Failed);
        }
        let n = buf.len().min(self.chunk).min(self.bytes.len() - self.at);
        buf[..n].copy_from_slice(&self.bytes[self.at..self.at + n]);
        self.at += n;
        Ok(n)
    }
}

/// Takes bytes, at most a chunk at a time, up to its room.
#[derive(Drop)]
pub struct MemorySink {
    taken: Vec<u8>,
    room: usize,
    chunk: usize,
    fails: Vec<u64>,
    calls: u64,
    faults: u64,
    ghost some: { 1 ≤ chunk },
    ghost reserved: { room ≤ vec_capacity taken },
    ghost within: { vec_len taken ≤ room },
}

impl MemorySink {
    ghost use Rattle.stabby_intern.specs.Memory.{settings_of, writes_of};

    /// An empty sink with `room` bytes reserved. A write takes at most `chunk` bytes, at least 1; it fails where no
    /// room is left, and where the call's number, from 0, is in `fails`.
    ///
    /// # Errors
    /// `Memory`, where the room finds none.
    pub fn new(
        alloc: Global,
        room: usize,
        chunk: usize,
        fails: Vec<u64>,
    ) -> Result<MemorySink, AllocationError>
        requires { 1 ≤ chunk }
        ensures taken { IfOk result (λ sink. ⟦<MemorySink as Sink>⟧.taken sink ≡ Some []) }
        ensures faults { IfOk result (λ sink. ⟦<MemorySink as Sink>⟧.faults sink ≡ 0) }
        ensures settings { IfOk result (λ sink. settings_of sink
            ≡ record { room = room; chunk = chunk; fails = fails.items }) }
        ensures calls { IfOk result (λ sink. writes_of sink ≡ 0) }
        ensures memory { IfErr result (λ error. error ≡ AllocationError.Memory) }
    {
        Ok(MemorySink {
            taken: Vec::with_capacity(alloc, room)?,
            room,
            chunk,
            fails,
            calls: 0,
            faults: 0,
        })
    }

    /// The bytes that it took.
    pub fn taken(&self) -> &[u8]
        ensures { ⟦<MemorySink as Sink>⟧.taken self.now ≡ Some result.now }
    {
        &self.taken
    }
}

impl Sink for MemorySink {
    ghost use Rattle.stabby_intern.specs.Memory.{settings_of, writes_of, takes, Refuses, next_call};

    ghost taken = { λ s. Some s.taken.items };

    ghost faults = { λ s. s.faults };

    fn write(&mut self, bytes: &[u8]) -> Result<usize, Failed>
        requires { 0 < length bytes.now }
        ensures least { IfOk result (λ n. 1 ≤ n) }
        ensures most { IfOk result (λ n. n ≤ length bytes.now) }
        ensures bytes { Writes (⟦<MemorySink as Sink>⟧.taken self.old) (⟦<MemorySink as Sink>⟧.taken self.new)
            result bytes.now }
        ensures cause { HasCause (⟦<MemorySink as Sink>⟧.faults self.old) (⟦<MemorySink as Sink>⟧.faults self.new)
            result }
        ensures amount { IfOk result (λ n. n ≡ takes self.old (length bytes.now)) }
        ensures fails { IsErr result ↔ Refuses self.old }
        ensures same_settings { settings_of self.new ≡ settings_of self.old }
        ensures calls { writes_of self.new ≡ next_call (writes_of self.old) }
    {
        let call = self.calls;
        self.calls = call.saturating_add(1);
        if self.fails.contains(&call) {
            self.faults = self.faults.saturating_add(1);
            return Err(Failed);
        }
        let left = self.room - self.taken.len();
        if left == 0 {
            self.faults = self.faults.saturating_add(1);
            return Err(Failed);
        }
        let n = bytes.len().min(self.chunk).min(left);
        match self.taken.extend_from_slice(&bytes[..n]) {
            Ok(()) => Ok(n),
            Err(_) => unreachable!(),
        }
    }
}
