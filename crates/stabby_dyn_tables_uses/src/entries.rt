//! What stands in a table.

ghost use Rattle.std.specs.Prelude.{◌≡◌};

use stabby_dyn_tables::{
    AnyVt, H, HasDropVt, HasSendVt, HasSyncVt, IterVt, T, TransitiveDeref, VTable, VtSend, VtSync,
};

/// The drop entry's word of a table that is marked in both ways, at whatever depth.
pub fn drop_word<Vt: HasDropVt + HasSendVt + HasSyncVt>(table: &Vt) -> u64
    ensures { result ≡ (Vt.drop_entry table.now).word }
{
    table.drop_vt().word
}

/// An iterator's entry on top of a table that lets a value tell its type, both marked.
pub type Marked = VtSync<VTable<IterVt, VtSend<VTable<AnyVt>>>>;

/// The entry below the iterator's, by its path: the head of the tail.
pub fn inner_any(table: &Marked) -> AnyVt
    ensures { result ≡ table.now.0.tail.0.head }
{
    *<Marked as TransitiveDeref<AnyVt, T<H>>>::tderef(table)
}
