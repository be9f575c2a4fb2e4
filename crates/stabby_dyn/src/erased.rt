//! A pointer to an erased value, with its table.
ghost use Rattle.std.specs.Prelude.{◌≡◌, ◌↔◌, IfErr, IfOk, IfSome, IsSome, Some};
ghost use Rattle.std.specs.Borrow.{sem, Lends, LendsIf};
ghost use Rattle.stabby_dyn.specs.Types.{IsType};
ghost use Rattle.stabby_dyn.specs.contracts.erased.Dyn.{the_row};

use crate::erased_ref::DynRef;
use crate::member::{Member, Universe, downcast, downcast_mut};
use crate::pointer::{IPtr, IPtrClone, IPtrMut, IPtrOwned, IPtrTryAsMut};
use crate::upcast::IntoSuperTrait;
use stabby_count::CountFault;
use stabby_dyn_tables::{AnyVt, HasDropVt, TransitiveDeref};
use std::sync::Wait;

/// A pointer to a value of a universe, with a table. Dropping it does what `end` does.
pub struct Dyn<P: IPtrOwned, Vt: HasDropVt> {
    pub ptr: P,
    pub vtable: Vt,
}

impl<P: IPtrOwned, Vt: HasDropVt + Drop> Drop for Dyn<P, Vt> {
    fn drop(self) {
        let Dyn { ptr, vtable: _ } = self;
        ptr.end();
    }
}

impl<P: IPtrOwned, Vt: HasDropVt> Dyn<P, Vt> {
    /// The pointer with the table.
    pub fn from_ptr(ptr: P, vtable: Vt) -> Self
        ensures pointer { result.ptr ≡ ptr }
        ensures vtable { result.vtable ≡ vtable }
    {
        Dyn { ptr, vtable }
    }

    /// The pointer.
    pub fn ptr(&self) -> &P
        ensures { result.now ≡ self.now.ptr }
    {
        &self.ptr
    }

    /// The pointer, to be changed. What is left behind the reference is the pointer afterwards.
    pub fn ptr_mut(&mut self) -> &mut P
        ensures* writes_back { sem 𝓛 (Lends (the_row P.row Vt.row) P.row self.entry result
            (λ w. record self.old { ptr = w })) }
        ensures value { result.now ≡ self.old.ptr }
    {
        &mut self.ptr
    }

    /// The table.
    pub fn vtable(&self) -> &Vt
        ensures { result.now ≡ self.now.vtable }
    {
        &self.vtable
    }

    // The pointer and the table, with nothing let go.
    pub(crate) fn into_parts(self) -> (P, Vt)
        ensures pointer { result.0 ≡ self.ptr }
        ensures vtable { result.1 ≡ self.vtable }
    {
        let Dyn { ptr, vtable } = self;
        (ptr, vtable)
    }

    /// The same pointer with what stands inside the table, as `IntoSuperTrait` lists it.
    pub fn into_super<S>(self) -> S
    where
        Self: IntoSuperTrait<S>,
        ensures { ⟦<Self as IntoSuperTrait<S>>⟧.keeps self result }
    {
        <Self as IntoSuperTrait<S>>::into_super(self)
    }

    /// Ends the pointer, as `IPtrOwned::end` does.
    pub fn end(self)
    where
        Vt: Drop,
    {
        let Dyn { ptr, vtable: _ } = self;
        ptr.end();
    }

    /// A reference to the value, with the table.
    pub fn as_ref(&self) -> DynRef<'_, P::Target, Vt>
    where
        P: IPtr,
        Vt: Copy,
        ensures pointee { result.ptr.now ≡ P.pointee self.now.ptr }
        ensures vtable { result.vtable ≡ self.now.vtable }
    {
        DynRef {
            ptr: self.ptr.as_ref(),
            vtable: self.vtable,
        }
    }

    /// The value, to be changed, with the table. What is left behind the reference is the value afterwards.
    pub fn as_mut(&mut self) -> Dyn<&mut P::Target, Vt>
    where
        P: IPtrMut,
        Vt: Copy,
        ensures* writes_back { sem 𝓛 (Lends (the_row P.row Vt.row) P.Target.row self.entry result.ptr
            (λ w. record self.old { ptr = P.with_pointee self.old.ptr w })) }
        ensures pointee { result.ptr.now ≡ P.pointee self.old.ptr }
        ensures vtable { result.vtable ≡ self.old.vtable }
    {
        let vtable = self.vtable;
        Dyn {
            ptr: self.ptr.as_mut(),
            vtable,
        }
    }

    /// As `as_mut`, where the pointer lends its pointee, or `None`, which leaves it.
    pub fn try_as_mut(&mut self) -> Option<Dyn<&mut P::Target, Vt>>
    where
        P: IPtrTryAsMut,
        Vt: Copy,
        ensures pointee { IfSome result (λ lent. lent.ptr.now ≡ P.pointee self.old.ptr) }
        ensures vtable { IfSome result (λ lent. lent.vtable ≡ self.old.vtable) }
        ensures sure { P.sure self.old.ptr → IsSome result }
    {
        let vtable = self.vtable;
        let ptr = self.ptr.try_as_mut()?;
        Some(Dyn { ptr, vtable })
    }

    /// The value's content as an `X`. `None` comes exactly where the value's id or report isn't that of `X`.
    pub fn stable_downcast_ref<X: Member<P::Target>, Path>(&self) -> Option<&X>
    where
        P: IPtr,
        P::Target: Universe,
        Vt: TransitiveDeref<AnyVt, Path>,
        ensures cause { let value = P.pointee self.now.ptr in
            IsSome result ↔ IsType (P.Target.type_id value) (P.Target.type_report value) X.stated_id X.stated_report }
        ensures shows { IfSome result (λ r. X.content (P.pointee self.now.ptr) ≡ Some r.now) }
    {
        downcast(self.ptr.as_ref())
    }

    /// As `stable_downcast_ref`, and to be changed: what is left behind the reference is the content afterwards.
    pub fn stable_downcast_mut<X: Member<P::Target>, Path>(&mut self) -> Option<&mut X>
    where
        P: IPtrMut,
        P::Target: Universe,
        Vt: TransitiveDeref<AnyVt, Path>,
        ensures* writes_back { sem 𝓛 (LendsIf (the_row P.row Vt.row) X.row self.entry result
            (λ w. record self.old { ptr = P.with_pointee self.old.ptr (X.with_content (P.pointee self.old.ptr) w) })
            (record self.old { ptr = P.with_pointee self.old.ptr (P.pointee self.old.ptr) })) }
        ensures cause { let value = P.pointee self.old.ptr in
            IsSome result ↔ IsType (P.Target.type_id value) (P.Target.type_report value) X.stated_id X.stated_report }
        ensures shows { IfSome result (λ r. X.content (P.pointee self.old.ptr) ≡ Some r.now) }
    {
        downcast_mut(self.ptr.as_mut())
    }

    /// A further pointer to the same value, with the table.
    ///
    /// # Errors
    /// Those of `IPtrClone::clone_ptr`.
    pub fn clone_dyn<R: Wait>(&mut self, rt: &R) -> Result<Self, CountFault>
    where
        P: IPtrClone,
        Vt: Copy,
        ensures kept { P.shared self.new.ptr ≡ P.shared self.old.ptr }
        ensures table_kept { self.new.vtable ≡ self.old.vtable }
        ensures value { IfOk result (λ other. P.shared other.ptr ≡ P.shared self.old.ptr) }
        ensures vtable { IfOk result (λ other. other.vtable ≡ self.old.vtable) }
        ensures cloned { IfOk result (λ other. P.cloned self.old.ptr self.new.ptr other.ptr) }
        ensures fault { IfErr result (P.clone_refused self.old.ptr self.new.ptr) }
    {
        let vtable = self.vtable;
        let ptr = self.ptr.clone_ptr(rt)?;
        Ok(Dyn { ptr, vtable })
    }
}
