//! The outside: where bytes come from and go to.

ghost use Rattle.std.specs.Prelude.{◌<◌, ◌≤◌, ℕ, List, length, IfOk, Option};
ghost use Rattle.stabby_intern.specs.Devices.{HasCause, Reads, Writes};

/// A read or write that failed. Nothing was moved.
#[derive(Clone, Copy, Debug, PartialEq, Eq)]
pub struct Failed;

/// Where bytes come from.
pub trait Source {
    // The bytes that are left, where the source tells them.
    ghost left: { Self → Option (List ℕ) };

    // How often it has failed. The count never falls, and stays at 2 ^ 64 - 1 once it is there.
    ghost faults: { Self → ℕ };

    /// Puts the next bytes at the front of `buf`, which isn't empty, and answers how many; 0 is the end of input.
    ///
    /// # Errors
    /// `Failed`, only where the count of faults rose. No byte was taken then.
    fn read(&mut self, buf: &mut [u8]) -> Result<usize, Failed>
        requires { 0 < length buf.old }
        ensures bound { IfOk result (λ n. n ≤ length buf.new) }
        ensures bytes { Reads (left self.old) (left self.new) result buf.new }
        ensures cause { HasCause (faults self.old) (faults self.new) result };
}

/// Where bytes go.
pub trait Sink {
    // The bytes that it took, where it tells them.
    ghost taken: { Self → Option (List ℕ) };

    // How often it has failed. The count never falls, and stays at 2 ^ 64 - 1 once it is there.
    ghost faults: { Self → ℕ };

    /// Takes the first bytes of `bytes`, which isn't empty, and answers how many: one at least.
    ///
    /// # Errors
    /// `Failed`, only where the count of faults rose. No byte was taken then.
    fn write(&mut self, bytes: &[u8]) -> Result<usize, Failed>
        requires { 0 < length bytes.now }
        ensures least { IfOk result (λ n. 1 ≤ n) }
        ensures most { IfOk result (λ n. n ≤ length bytes.now) }
        ensures bytes { Writes (taken self.old) (taken self.new) result bytes.now }
        ensures cause { HasCause (faults self.old) (faults self.new) result };
}
