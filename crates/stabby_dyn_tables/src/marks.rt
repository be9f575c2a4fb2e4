//! The drop entry, and which tables are marked for threads.
ghost use Rattle.std.specs.Prelude.{◌≡◌};
ghost use Rattle.stabby_dyn_tables.specs.declared.table.VtDrop.{VtDrop};

use crate::table::{VTable, VtDrop, VtSend, VtSync};

/// A table with a drop entry, which is its innermost.
pub trait HasDropVt {
    ghost drop_entry: { Self → VtDrop };

    /// The drop entry.
    fn drop_vt(&self) -> &VtDrop
        ensures { result.now ≡ drop_entry self.now };
}

impl HasDropVt for VtDrop {
    ghost drop_entry = { λ table. table };

    fn drop_vt(&self) -> &VtDrop {
        self
    }
}

impl<Head, Tail: HasDropVt> HasDropVt for VTable<Head, Tail> {
    ghost drop_entry = { λ table. Tail.drop_entry table.tail };

    fn drop_vt(&self) -> &VtDrop {
        self.tail.drop_vt()
    }
}

impl<V: HasDropVt> HasDropVt for VtSend<V> {
    ghost drop_entry = { λ table. V.drop_entry table.0 };

    fn drop_vt(&self) -> &VtDrop {
        self.0.drop_vt()
    }
}

impl<V: HasDropVt> HasDropVt for VtSync<V> {
    ghost drop_entry = { λ table. V.drop_entry table.0 };

    fn drop_vt(&self) -> &VtDrop {
        self.0.drop_vt()
    }
}

/// A table that is marked for a value that may go to another thread.
pub trait HasSendVt {}

impl<V> HasSendVt for VtSend<V> {}

impl<V: HasSendVt> HasSendVt for VtSync<V> {}

impl<Head, Tail: HasSendVt> HasSendVt for VTable<Head, Tail> {}

/// A table that is marked for a value that several threads may read at once.
pub trait HasSyncVt {}

impl<V> HasSyncVt for VtSync<V> {}

impl<V: HasSyncVt> HasSyncVt for VtSend<V> {}

impl<Head, Tail: HasSyncVt> HasSyncVt for VTable<Head, Tail> {}
