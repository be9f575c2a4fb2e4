//! Iterators whose meaning is the list of the items left, and erased ones.
ghost use Rattle.std.specs.Prelude.{◌≡◌, ◌≤◌, ℕ, List, Option, length, IfSome};
ghost use Rattle.stabby_dyn.specs.Items.{TakesFirst};

use crate::erased::Dyn;
use crate::pointer::{IPtr, IPtrMut, IPtrOwned};
use stabby_dyn_tables::{HasDropVt, IterVt, VTable};

/// A list of items that is taken from the front.
pub trait Iterator {
    type Item;

    ghost left: { Self → List Self.Item };

    ghost hint: { Self → ℕ × Option ℕ };

    /// The first of the items left, or `None` exactly where none is.
    fn next(&mut self) -> Option<Self::Item>
        ensures { TakesFirst (left self.old) result (left self.new) };

    /// A number that isn't above the number of items left, and one that isn't below it.
    fn size_hint(&self) -> (usize, Option<usize>)
        ensures hint { result ≡ hint self.now }
        ensures lower { result.0 ≤ length (left self.now) }
        ensures upper { IfSome result.1 (λ most. length (left self.now) ≤ most) };
}

/// Gives what its pointee gives.
impl<P: IPtrMut + IPtrOwned, Vt: HasDropVt> Iterator for Dyn<P, VTable<IterVt, Vt>>
where
    P::Target: Iterator,
{
    type Item = <P::Target as Iterator>::Item;

    ghost left = { λ erased. P.Target.left (P.pointee erased.ptr) };

    ghost hint = { λ erased. P.Target.hint (P.pointee erased.ptr) };

    fn next(&mut self) -> Option<<P::Target as Iterator>::Item> {
        self.ptr.as_mut().next()
    }

    fn size_hint(&self) -> (usize, Option<usize>) {
        self.ptr.as_ref().size_hint()
    }
}
