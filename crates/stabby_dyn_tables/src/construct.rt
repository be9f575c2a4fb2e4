//! Tables that are built from their parts.
ghost use Rattle.std.specs.Prelude.{◌≡◌};

use crate::table::{VTable, VtSend, VtSync};

/// The table of the type `Source`, stated once for each entry and built up for tables of entries.
///
/// No impl stands for `VtDrop`: a crate gives the word that ends its own type by
/// `impl IConstConstructor<Source> for VtDrop`.
pub trait IConstConstructor<Source>: Copy {
    ghost stated: { Self };

    /// The stated table. It takes no memory, and inserts nothing anywhere.
    fn vtable() -> Self
        ensures { result ≡ stated };
}

impl<Source, Head: IConstConstructor<Source>, Tail: IConstConstructor<Source>> IConstConstructor<
    Source,
> for VTable<Head, Tail> {
    ghost stated = { record { tail = Tail.stated; head = Head.stated } };

    fn vtable() -> Self {
        VTable {
            tail: Tail::vtable(),
            head: Head::vtable(),
        }
    }
}

/// Only where the source may go to another thread.
impl<Source: Send, V: IConstConstructor<Source>> IConstConstructor<Source> for VtSend<V> {
    ghost stated = { record { 0 = V.stated } };

    fn vtable() -> Self {
        VtSend(V::vtable())
    }
}

/// Only where several threads may read the source at once.
impl<Source: Sync, V: IConstConstructor<Source>> IConstConstructor<Source> for VtSync<V> {
    ghost stated = { record { 0 = V.stated } };

    fn vtable() -> Self {
        VtSync(V::vtable())
    }
}

/// The empty table.
impl<Source> IConstConstructor<Source> for () {
    ghost stated = { tt };

    fn vtable() -> Self {}
}
