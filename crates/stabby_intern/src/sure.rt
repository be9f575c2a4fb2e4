//! A source and a sink that never fail.

ghost use Rattle.std.specs.Prelude.{◌≡◌, ◌≤◌, ◌<◌, ◌+◌, ◌↔◌, ◌++◌, [], Ok, Some, None, drop, take, length, min, vec_len, vec_capacity, if◌then◌else◌, IfOk, IfErr, IfSome, IsSome};
ghost use Rattle.stabby_intern.specs.Devices.{Reads, Writes, HasCause};

use crate::device::{Failed, Sink, Source};
use stabby_layout::AllocationError;
use std::alloc::Global;

/// Bytes to read. It never fails: its count of faults is the constant 0.
#[derive(Drop)]
pub struct SureSource {
    bytes: Vec<u8>,
    at: usize,
    ghost within: { at ≤ vec_len bytes },
}

impl SureSource {
    /// A source of `bytes`.
    pub fn new(bytes: Vec<u8>) -> SureSource
        ensures left { ⟦<SureSource as Source>⟧.left result ≡ Some bytes.items }
        ensures faults { ⟦<SureSource as Source>⟧.faults result ≡ 0 }
    {
        SureSource { bytes, at: 0 }
    }
}

impl Source for SureSource {
    ghost use Rattle.stabby_intern.specs.Sure.{rest_in};

    ghost left = { λ s. Some (drop s.at s.bytes.items) };

    ghost faults = { λ _. 0 };

    fn read(&mut self, buf: &mut [u8]) -> Result<usize, Failed>
        requires { 0 < length buf.old }
        ensures bound { IfOk result (λ n. n ≤ length buf.new) }
        ensures bytes { Reads (⟦<SureSource as Source>⟧.left self.old) (⟦<SureSource as Source>⟧.left self.new)
            result buf.new }
        ensures cause { HasCause 0 0 result }
        ensures amount { result ≡ Ok (min (length buf.old) (rest_in self.old)) }
    {
        let n = buf.len().min(self.bytes.len() - self.at);
        buf[..n].copy_from_slice(&self.bytes[self.at..self.at + n]);
        self.at += n;
        Ok(n)
    }
}

/// Keeps the first `room` bytes that it is given, and lets go of the rest. It never fails: its count of faults is the
/// constant 0. It tells its bytes as long as it was given no more than its room.
#[derive(Drop)]
pub struct SureSink {
    taken: Vec<u8>,
    room: usize,
    full: bool,
    ghost reserved: { room ≤ vec_capacity taken },
    ghost kept: { vec_len taken ≤ room },
}

impl SureSink {
    ghost use Rattle.stabby_intern.specs.Sure.{kept_of, room_of};

    /// An empty sink with `room` bytes reserved.
    ///
    /// # Errors
    /// `Memory`, where the room finds none.
    pub fn new(alloc: Global, room: usize) -> Result<SureSink, AllocationError>
        ensures taken { IfOk result (λ sink. ⟦<SureSink as Sink>⟧.taken sink ≡ Some []) }
        ensures faults { IfOk result (λ sink. ⟦<SureSink as Sink>⟧.faults sink ≡ 0) }
        ensures room { IfOk result (λ sink. room_of sink ≡ room) }
        ensures memory { IfErr result (λ error. error ≡ AllocationError.Memory) }
    {
        Ok(SureSink {
            taken: Vec::with_capacity(alloc, room)?,
            room,
            full: false,
        })
    }

    /// The first bytes that it was given, at most its room. While it tells its bytes, they are these.
    pub fn kept(&self) -> &[u8]
        ensures kept { result.now ≡ kept_of self.now }
        ensures told { IfSome (⟦<SureSink as Sink>⟧.taken self.now) (λ bytes. bytes ≡ result.now) }
    {
        &self.taken
    }
}

impl Sink for SureSink {
    ghost use Rattle.stabby_intern.specs.Sure.{kept_of, room_of};

    ghost taken = { λ s. if s.full then None else Some s.taken.items };

    ghost faults = { λ _. 0 };

    fn write(&mut self, bytes: &[u8]) -> Result<usize, Failed>
        requires { 0 < length bytes.now }
        ensures least { IfOk result (λ n. 1 ≤ n) }
        ensures most { IfOk result (λ n. n ≤ length bytes.now) }
        ensures bytes { Writes (⟦<SureSink as Sink>⟧.taken self.old) (⟦<SureSink as Sink>⟧.taken self.new)
            result bytes.now }
        ensures cause { HasCause 0 0 result }
        ensures all { result ≡ Ok (length bytes.now) }
        ensures kept { kept_of self.new ≡ take (room_of self.old) (kept_of self.old ++ bytes.now) }
        ensures same_room { room_of self.new ≡ room_of self.old }
        ensures still_tells { IsSome (⟦<SureSink as Sink>⟧.taken self.new)
            ↔ (IsSome (⟦<SureSink as Sink>⟧.taken self.old)
            × (length (kept_of self.old) + length bytes.now ≤ room_of self.old)) }
    {
        let n = bytes.len().min(self.room - self.taken.len());
        if n < bytes.len() {
            self.full = true;
        }
        match self.taken.extend_from_slice(&bytes[..n]) {
            Ok(()) => Ok(bytes.len()),
            Err(_) => unreachable!(),
        }
    }
}
