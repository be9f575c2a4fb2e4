//! The standard streams. This is the trusted edge: no clause says which bytes reach or leave the system.

ghost use Rattle.std.specs.Prelude.{◌≡◌, None};

use crate::device::{Failed, Sink, Source};
use std::io::{Read, Stderr, Stdin, Stdout, Write};

/// Standard input. It doesn't tell its bytes.
#[derive(Drop)]
pub struct StdinSource {
    stdin: Stdin,
    faults: u64,
}

impl StdinSource {
    /// It has not failed yet.
    pub fn new(stdin: Stdin) -> StdinSource
        ensures faults { ⟦<StdinSource as Source>⟧.faults result ≡ 0 }
    {
        StdinSource { stdin, faults: 0 }
    }
}

impl Source for StdinSource {
    ghost left = { λ _. None };

    ghost faults = { λ s. s.faults };

    fn read(&mut self, buf: &mut [u8]) -> Result<usize, Failed> {
        match self.stdin.read(buf) {
            Ok(n) => Ok(n),
            Err(_) => {
                self.faults = self.faults.saturating_add(1);
                Err(Failed)
            }
        }
    }
}

/// Standard output. It doesn't tell its bytes; a write that takes nothing is a fault.
#[derive(Drop)]
pub struct StdoutSink {
    stdout: Stdout,
    faults: u64,
}

impl StdoutSink {
    /// It has not failed yet.
    pub fn new(stdout: Stdout) -> StdoutSink
        ensures faults { ⟦<StdoutSink as Sink>⟧.faults result ≡ 0 }
    {
        StdoutSink { stdout, faults: 0 }
    }
}

impl Sink for StdoutSink {
    ghost taken = { λ _. None };

    ghost faults = { λ s. s.faults };

    fn write(&mut self, bytes: &[u8]) -> Result<usize, Failed> {
        match self.stdout.write(bytes) {
            Ok(n) if n > 0 => Ok(n),
            _ => {
                self.faults = self.faults.saturating_add(1);
                Err(Failed)
            }
        }
    }
}

/// Standard error. It doesn't tell its bytes; a write that takes nothing is a fault.
#[derive(Drop)]
pub struct StderrSink {
    stderr: Stderr,
    faults: u64,
}

impl StderrSink {
    /// It has not failed yet.
    pub fn new(stderr: Stderr) -> StderrSink
        ensures faults { ⟦<StderrSink as Sink>⟧.faults result ≡ 0 }
    {
        StderrSink { stderr, faults: 0 }
    }
}

impl Sink for StderrSink {
    ghost taken = { λ _. None };

    ghost faults = { λ s. s.faults };

    fn write(&mut self, bytes: &[u8]) -> Result<usize, Failed> {
        match self.stderr.write(bytes) {
            Ok(n) if n > 0 => Ok(n),
            _ => {
                self.faults = self.faults.saturating_add(1);
                Err(Failed)
            }
        }
    }
}
