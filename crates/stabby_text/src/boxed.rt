//! One value on the heap.
ghost use Rattle.std.specs.Prelude.{◌≡◌, IfOk, IfErr};
ghost use Rattle.std.specs.Borrow.{sem};
ghost use Rattle.stabby_layout.specs.declared.error.AllocationError.TheVariants.{Memory};
ghost use Rattle.stabby_text.specs.Making.{MadeOrFault};

use stabby_layout::AllocationError;
use std::alloc::Allocator;
use std::marker::Model;
use std::ops::{Deref, DerefMut};

/// Why `Box::try_make_in` made nothing.
#[derive(Drop, Debug)]
pub enum MakeFault<T, E> {
    /// The closure answered this fault.
    Constructor(E),
    /// There was no memory for this value, which the closure had made.
    Memory(T),
}

/// A value on the heap. Contracts see it as that value.
#[derive(Drop)]
pub struct Box<T, A: Allocator> {
    inner: std::boxed::Box<T, A>,
}

impl<T, A: Allocator> Model for Box<T, A> {
    ghost Value = { T };

    ghost coded = { T.code };

    ghost view = { λ b. b.inner.value };
}

impl<T, A: Allocator> Box<T, A> {
    /// Puts `value` on the heap. A refusal hands it back, and is always `Memory`.
    pub fn try_new_in(alloc: A, value: T) -> Result<Self, (T, AllocationError)>
        ensures ok { IfOk result (λ made. made ≡ value) }
        ensures value_back { IfErr result (λ refusal. refusal.0 ≡ value) }
        ensures memory { IfErr result (λ refusal. refusal.1 ≡ Memory) }
    {
        match std::boxed::Box::new(alloc, value) {
            Ok(inner) => Ok(Box { inner }),
            Err(refused) => Err((refused.value, AllocationError::Memory)),
        }
    }

    /// As `try_new_in`; a refused `value` is dropped.
    pub fn new_in(alloc: A, value: T) -> Result<Self, AllocationError>
    where
        T: Drop,
        ensures ok { IfOk result (λ made. made ≡ value) }
        ensures memory { IfErr result (λ error. error ≡ Memory) }
    {
        match Box::try_new_in(alloc, value) {
            Ok(made) => Ok(made),
            Err((_refused, error)) => Err(error),
        }
    }

    /// Calls `make`, and puts what it made on the heap.
    ///
    /// `Constructor` comes only where `make` answered that fault, and `Memory` hands back the
    /// value that it made.
    pub fn try_make_in<E, F: FnOnce() -> Result<T, E>>(
        alloc: A,
        make: F,
    ) -> Result<Self, MakeFault<T, E>>
        requires { F.pre make }
        ensures { MadeOrFault (F.post make) result }
    {
        match make() {
            Err(fault) => Err(MakeFault::Constructor(fault)),
            Ok(value) => match std::boxed::Box::new(alloc, value) {
                Ok(inner) => Ok(Box { inner }),
                Err(refused) => Err(MakeFault::Memory(refused.value)),
            },
        }
    }

    /// The value, taken off the heap.
    pub fn into_inner(this: Self) -> T
        ensures { result ≡ this }
    {
        let Box { inner } = this;
        std::boxed::Box::into_inner(inner)
    }

    /// A clone of the value on the heap.
    ///
    /// The only error is `Memory`, also where a clone of the value or of the allocator is refused.
    pub fn copy(&self) -> Result<Self, AllocationError>
    where
        T: Clone + Drop,
        A: Clone,
        requires clones_are_equal { (x y : T) → T.is_clone x y → y ≡ x }
        ensures ok { IfOk result (λ copy. copy ≡ self.now) }
        ensures memory { IfErr result (λ error. error ≡ Memory) }
    {
        let Ok(alloc) = std::boxed::Box::allocator(&self.inner).clone() else {
            return Err(AllocationError::Memory);
        };
        let Ok(value) = (*self.inner).clone() else {
            return Err(AllocationError::Memory);
        };
        Box::new_in(alloc, value)
    }
}

impl<T, A: Allocator> Deref for Box<T, A> {
    type Target = T;

    ghost deref_gives = { λ b value. value ≡ b };

    fn deref(&self) -> &T {
        &*self.inner
    }
}

impl<T, A: Allocator> DerefMut for Box<T, A> {
    ghost use Rattle.stabby_text.specs.BoxLends.{box_lends};

    ghost deref_mut_gives = { λ b value. value ≡ b };

    fn deref_mut(&mut self) -> &mut T
        ensures* writes_back { sem 𝓛 (box_lends T.row A.row A.Allocator self.entry result) }
        ensures value { result.now ≡ self.old }
    {
        &mut *self.inner
    }
}
