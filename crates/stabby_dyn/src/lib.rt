//! Erased values: a pointer to a value of a named universe, with an interface table beside it.
//!
//! Which type a value has is told by its id and its report together, and a downcast succeeds exactly where both are
//! those of the type that is asked for. Conversions take interfaces off a table and keep the pointer and the drop entry.
//! Handles of shared values are counted as `stabby_count` counts them.
#![tactic(auto)]

mod counted;
mod erased;
mod erased_ref;
mod future;
mod handles;
mod iterator;
mod member;
mod pointer;
mod upcast;
mod upcast_dyn;
mod upcast_ref;
mod waker;

pub use erased::Dyn;
pub use erased_ref::DynRef;
pub use future::{Future, MaybeResolved};
pub use iterator::Iterator;
pub use member::{Any, Member, Universe};
pub use pointer::{IPtr, IPtrClone, IPtrMut, IPtrOwned, IPtrTryAsMut};
pub use stabby_count::CountFault;
pub use stabby_dyn_tables::{
    AnyVt, H, HasDropVt, HasSendVt, HasSyncVt, IConstConstructor, IterVt, T, TransitiveDeref,
    VTable, VtDrop, VtSend, VtSync,
};
pub use upcast::IntoSuperTrait;
pub use waker::{SharedStableWaker, StableWaker, Wake};

#[cfg(test)]
mod tests;
