//! Wakers: how a future tells that it is worth polling again.
ghost use Rattle.std.specs.Prelude.{◌≡◌, IfErr, IfOk};
ghost use Rattle.stabby_count.specs.Shared.{arc_value, IsSole};
ghost use Rattle.stabby_layout.specs.declared.error.AllocationError.TheVariants.{Memory};

use stabby_count::Arc;
use stabby_layout::AllocationError;
use std::alloc::Global;

/// Something that can be woken.
pub trait Wake {
    // What is known of a waker that was woken.
    ghost woken: { Self → Type 0 } = { λ _. Unit {0} };

    /// Wakes it.
    fn wake_by_ref(&self)
        ensures { woken self.now };
}

/// A waker that a poll is given.
#[derive(Drop)]
pub struct StableWaker<'a, W: Wake> {
    pub waker: &'a W,
}

/// A waker that is kept past a poll, and may be shared.
#[derive(Drop)]
pub struct SharedStableWaker<W> {
    pub waker: Arc<W>,
}

impl<'a, W: Wake> StableWaker<'a, W> {
    /// The waker that wakes `waker`.
    pub fn new(waker: &'a W) -> Self
        ensures { result.waker.now ≡ waker.now }
    {
        StableWaker { waker }
    }

    /// Wakes what it was made of.
    pub fn wake_by_ref(&self)
        ensures { W.woken self.now.waker.now }
    {
        self.waker.wake_by_ref();
    }

    /// Hands what it was made of to `f`, and answers what `f` does.
    pub fn with_waker<R, F: FnOnce(&W) -> R>(&self, f: F) -> R
        requires { F.pre f self.now.waker }
        ensures { F.post f self.now.waker result }
    {
        f(self.waker)
    }

    /// A clone of what it was made of, shared by a handle that is the only one.
    ///
    /// # Errors
    /// `Memory`, where the clone or the share finds none.
    pub fn to_shared(&self, alloc: Global) -> Result<SharedStableWaker<W>, AllocationError>
    where
        W: Clone + Drop,
        requires clones_are_equal { (y : W) → W.is_clone self.now.waker.now y → y ≡ self.now.waker.now }
        ensures value { IfOk result (λ shared. arc_value shared.waker ≡ self.now.waker.now) }
        ensures sole { IfOk result (λ shared. IsSole shared.waker) }
        ensures memory { IfErr result (λ error. error ≡ Memory) }
    {
        let Ok(waker) = self.waker.clone() else {
            return Err(AllocationError::Memory);
        };
        match Arc::try_new_in(alloc, waker) {
            Ok(waker) => Ok(SharedStableWaker { waker }),
            Err((refused, error)) => {
                drop(refused);
                Err(error)
            }
        }
    }
}
