//! Paths to the entries of a table.
ghost use Rattle.std.specs.Prelude.{◌≡◌};

use crate::table::{VTable, VtSend, VtSync};
use std::marker::PhantomData;

/// The path to the head of a table.
pub struct H;

/// The path that goes to the tail first, and from there by `N`.
pub struct T<N>(PhantomData<N>);

/// A table with an entry of type `Head` at the path `N`. Markers are passed through.
pub trait TransitiveDeref<Head, N> {
    ghost entry: { Self → Head };

    /// The entry at the path.
    fn tderef(&self) -> &Head
        ensures { result.now ≡ entry self.now };
}

impl<Head, Tail> TransitiveDeref<Head, H> for VTable<Head, Tail> {
    ghost entry = { λ table. table.head };

    fn tderef(&self) -> &Head {
        &self.head
    }
}

impl<X, Tail: TransitiveDeref<Head, N>, Head, N> TransitiveDeref<Head, T<N>> for VTable<X, Tail> {
    ghost entry = { λ table. Tail.entry table.tail };

    fn tderef(&self) -> &Head {
        self.tail.tderef()
    }
}

impl<V: TransitiveDeref<Head, N>, Head, N> TransitiveDeref<Head, N> for VtSend<V> {
    ghost entry = { λ table. V.entry table.0 };

    fn tderef(&self) -> &Head {
        self.0.tderef()
    }
}

impl<V: TransitiveDeref<Head, N>, Head, N> TransitiveDeref<Head, N> for VtSync<V> {
    ghost entry = { λ table. V.entry table.0 };

    fn tderef(&self) -> &Head {
        self.0.tderef()
    }
}
