//! What a pointer lends, and how it ends.
ghost use Rattle.std.specs.Prelude.{◌≡◌, ⊤, refl, IfErr, IfOk, IfSome, IsSome};
ghost use Rattle.std.specs.Borrow.{sem, Lends, LendsSo};
ghost use Rattle.std.specs.Option.{ForNone, ForSome};
ghost use Rattle.stabby_count.specs.declared.fault.CountFault.{CountFault};

use stabby_count::CountFault;
use stabby_text::Box;
use std::alloc::Allocator;
use std::sync::Wait;

/// A pointer whose pointee can be read.
pub trait IPtr {
    type Target;

    ghost pointee: { Self → Self.Target };

    /// The pointee.
    fn as_ref(&self) -> &Self::Target
        ensures { result.now ≡ pointee self.now };
}

/// A pointer whose pointee can be changed.
pub trait IPtrMut: IPtr {
    ghost with_pointee: { Self → Self.Target → Self };

    /// The pointee, to be changed: what is left behind the reference is the pointee afterwards.
    fn as_mut(&mut self) -> &mut Self::Target
        ensures* writes_back { sem 𝓛 (Lends Self.row Self.Target.row self.entry result (with_pointee self.old)) }
        ensures value { result.now ≡ Self.pointee self.old };

    ghost pointee_put: { (p : Self) (w : Self.Target) → Self.pointee (with_pointee p w) ≡ w };
}

/// A pointer that may lend its pointee.
pub trait IPtrTryAsMut: IPtr {
    // Where the answer is Some.
    ghost sure: { Self → Type 0 };

    // Of the pointer before a call that lends and the pointer after the loan.
    ghost granted: { Self → Self → Type 0 };

    // Of the pointer before and after a call that lends nothing.
    ghost refused: { Self → Self → Type 0 };

    /// The pointee, to be changed as by `as_mut`, or `None`, which leaves it.
    fn try_as_mut(&mut self) -> Option<&mut Self::Target>
        ensures* writes_back { sem 𝓛 (LendsSo Self.row Self.Target.row self.entry result
            (λ n w. ForSome result (λ _. (Self.pointee n ≡ w) × granted self.old n))
            (λ n. ForNone result ((Self.pointee n ≡ Self.pointee self.old) × refused self.old n))) }
        ensures value { IfSome result (λ r. r.now ≡ Self.pointee self.old) }
        ensures sure { sure self.old → IsSome result };
}

/// A pointer that can be let go.
pub trait IPtrOwned {
    /// Does what dropping the pointer does.
    fn end(self);
}

/// A pointer that shares its value, and of which there may be several.
pub trait IPtrClone: IPtrOwned {
    // The type of the shared value: a weak handle has no pointee.
    ghost Shared: { Type 0 };

    ghost shared: { Self → Shared };

    // Of the pointer before and after a call that succeeds, and the further one.
    ghost cloned: { Self → Self → Self → Type 0 };

    // Of the pointer before and after a call that is refused, and the fault.
    ghost clone_refused: { Self → Self → CountFault → Type 0 };

    /// A further pointer to the same value.
    ///
    /// # Errors
    /// `Full` where the count is at its limit of 2^32 - 1, `Memory` where there is none.
    fn clone_ptr<R: Wait>(&mut self, rt: &R) -> Result<Self, CountFault>
        ensures kept { shared self.new ≡ shared self.old }
        ensures value { IfOk result (λ other. shared other ≡ shared self.old) }
        ensures cloned { IfOk result (cloned self.old self.new) }
        ensures fault { IfErr result (clone_refused self.old self.new) };
}

impl<U> IPtr for &U {
    type Target = U;

    ghost pointee = { λ p. p.now };

    fn as_ref(&self) -> &U {
        *self
    }
}

impl<U> IPtr for &mut U {
    type Target = U;

    ghost pointee = { λ p. p.now };

    fn as_ref(&self) -> &U {
        &**self
    }
}

impl<U> IPtrMut for &mut U {
    ghost with_pointee = { λ p w. record p { now = w } };

    fn as_mut(&mut self) -> &mut U {
        &mut **self
    }

    ghost pointee_put = { λ _ _. refl };
}

/// Always lends.
impl<U> IPtrTryAsMut for &mut U {
    ghost sure = { λ _. ⊤ };

    ghost granted = { λ _ _. ⊤ };

    ghost refused = { λ _ _. ⊥ };

    fn try_as_mut(&mut self) -> Option<&mut U> {
        Some(&mut **self)
    }
}

impl<U> IPtrOwned for &mut U {
    fn end(self) {}
}

impl<U, A: Allocator> IPtr for Box<U, A> {
    type Target = U;

    ghost pointee = { λ p. p };

    fn as_ref(&self) -> &U {
        &**self
    }
}

impl<U, A: Allocator> IPtrMut for Box<U, A> {
    ghost with_pointee = { λ _ w. w };

    fn as_mut(&mut self) -> &mut U {
        &mut **self
    }

    ghost pointee_put = { λ _ _. refl };
}

/// Always lends.
impl<U, A: Allocator> IPtrTryAsMut for Box<U, A> {
    ghost sure = { λ _. ⊤ };

    ghost granted = { λ _ _. ⊤ };

    ghost refused = { λ _ _. ⊥ };

    fn try_as_mut(&mut self) -> Option<&mut U> {
        Some(&mut **self)
    }
}

impl<U: Drop, A: Allocator> IPtrOwned for Box<U, A> {
    fn end(self) {}
}
