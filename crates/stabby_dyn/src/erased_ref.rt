//! A reference to an erased value, with its table.
ghost use Rattle.std.specs.Prelude.{◌≡◌, ◌↔◌, IfSome, IsSome, Some};
ghost use Rattle.stabby_dyn.specs.Types.{IsType};

use crate::member::{Member, Universe, downcast};
use crate::upcast::IntoSuperTrait;
use stabby_dyn_tables::{AnyVt, TransitiveDeref};

/// A reference to a value of a universe, with a table.
#[derive(Drop)]
#[derive_where(Clone, Copy; Vt)]
pub struct DynRef<'a, U, Vt> {
    pub ptr: &'a U,
    pub vtable: Vt,
}

impl<'a, U, Vt> DynRef<'a, U, Vt> {
    /// The reference with the table.
    pub fn new(ptr: &'a U, vtable: Vt) -> Self
        ensures pointee { result.ptr.now ≡ ptr.now }
        ensures vtable { result.vtable ≡ vtable }
    {
        DynRef { ptr, vtable }
    }

    /// The reference.
    pub fn ptr(&self) -> &'a U
        ensures { result.now ≡ self.now.ptr.now }
    {
        self.ptr
    }

    /// The table.
    pub fn vtable(&self) -> &Vt
        ensures { result.now ≡ self.now.vtable }
    {
        &self.vtable
    }

    /// The value's content as an `X`. `None` comes exactly where the value's id or report isn't that of `X`.
    pub fn stable_downcast<X: Member<U>, Path>(&self) -> Option<&X>
    where
        U: Universe,
        Vt: TransitiveDeref<AnyVt, Path>,
        ensures cause { let value = self.now.ptr.now in
            IsSome result ↔ IsType (U.type_id value) (U.type_report value) X.stated_id X.stated_report }
        ensures shows { IfSome result (λ r. X.content self.now.ptr.now ≡ Some r.now) }
    {
        downcast(self.ptr)
    }

    /// The same reference with what stands inside the table, as `IntoSuperTrait` lists it.
    pub fn into_super<S>(self) -> S
    where
        Self: IntoSuperTrait<S>,
        ensures { ⟦<Self as IntoSuperTrait<S>>⟧.keeps self.entry result }
    {
        <Self as IntoSuperTrait<S>>::into_super(self)
    }
}
