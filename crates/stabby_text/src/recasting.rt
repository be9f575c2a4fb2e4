//! A value lent as another type.
ghost use Rattle.std.specs.Prelude.{◌≡◌};
ghost use Rattle.std.specs.Fn.{FnOnceReturnsAt, FnOnceReturnsAtMut};

/// A type whose values can be seen as values of `U`, and turned back.
pub trait Recast<U> {
    // What `forth` makes of a value.
    ghost forward: { Self → U };

    // What `back` makes of a value.
    ghost backward: { U → Self };

    /// The value as a `U`.
    fn forth(self) -> U
        ensures { result ≡ forward self };

    /// The value that `other` stands for.
    fn back(other: U) -> Self
        ensures { result ≡ backward other };

    // Going forth and back gives the same value.
    ghost undoes: { (x : Self) → backward (forward x) ≡ x };
}

/// Lends `value` to `f` as a `U`, and gives it back unchanged, with what `f` answered.
pub fn lend_as<T: Recast<U>, U, R, F: FnOnce(&U) -> R>(value: T, f: F) -> (T, R)
    requires { F.IsAlwaysCallable f }
    ensures value { result.0 ≡ value }
    ensures answer { FnOnceReturnsAt F.FnOnce f (T.forward value) result.1 }
{
    let lent = value.forth();
    let answer = f(&lent);
    (T::back(lent), answer)
}

/// Lends `value` to `f` as a `U` that may be changed, and gives back what `f` left, with what it
/// answered.
pub fn lend_as_mut<T: Recast<U>, U, R, F: FnOnce(&mut U) -> R>(value: T, f: F) -> (T, R)
    requires { F.IsAlwaysCallable f }
    ensures { (left : U) × (result.0 ≡ T.backward left) × FnOnceReturnsAtMut F.FnOnce f (T.forward value) result.1 left }
{
    let mut changed = value.forth();
    let answer = f(&mut changed);
    (T::back(changed), answer)
}
