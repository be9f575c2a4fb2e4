//! The conversions of a `DynRef`.
ghost use Rattle.std.specs.Prelude.{◌≡◌};
ghost use Rattle.stabby_dyn.specs.Tables.{Keeps};

use crate::erased_ref::DynRef;
use crate::upcast::IntoSuperTrait;
use stabby_dyn_tables::{HasDropVt, VTable, VtSend, VtSync};

impl<'a, U, X: Drop, Y: HasDropVt> IntoSuperTrait<DynRef<'a, U, Y>>
    for DynRef<'a, U, VTable<X, Y>> {
    ghost keeps = { λ d e. Keeps (e.ptr.now ≡ d.ptr.now) Y.drop_entry e.vtable d.vtable.tail };

    fn into_super(this: Self) -> DynRef<'a, U, Y> {
        let DynRef { ptr, vtable } = this;
        let VTable {
            tail: rest,
            head: _,
        } = vtable;
        DynRef { ptr, vtable: rest }
    }
}

impl<'a, U, V: HasDropVt> IntoSuperTrait<DynRef<'a, U, V>> for DynRef<'a, U, VtSend<V>> {
    ghost keeps = { λ d e. Keeps (e.ptr.now ≡ d.ptr.now) V.drop_entry e.vtable d.vtable.0 };

    fn into_super(this: Self) -> DynRef<'a, U, V> {
        let DynRef { ptr, vtable } = this;
        let VtSend(rest) = vtable;
        DynRef { ptr, vtable: rest }
    }
}

impl<'a, U, V: HasDropVt> IntoSuperTrait<DynRef<'a, U, V>> for DynRef<'a, U, VtSync<V>> {
    ghost keeps = { λ d e. Keeps (e.ptr.now ≡ d.ptr.now) V.drop_entry e.vtable d.vtable.0 };

    fn into_super(this: Self) -> DynRef<'a, U, V> {
        let DynRef { ptr, vtable } = this;
        let VtSync(rest) = vtable;
        DynRef { ptr, vtable: rest }
    }
}

impl<'a, U, V: HasDropVt> IntoSuperTrait<DynRef<'a, U, V>> for DynRef<'a, U, VtSync<VtSend<V>>> {
    ghost keeps = { λ d e. Keeps (e.ptr.now ≡ d.ptr.now) V.drop_entry e.vtable d.vtable.0.0 };

    fn into_super(this: Self) -> DynRef<'a, U, V> {
        let DynRef { ptr, vtable } = this;
        let VtSync(VtSend(rest)) = vtable;
        DynRef { ptr, vtable: rest }
    }
}

impl<'a, U, V: HasDropVt> IntoSuperTrait<DynRef<'a, U, V>> for DynRef<'a, U, VtSend<VtSync<V>>> {
    ghost keeps = { λ d e. Keeps (e.ptr.now ≡ d.ptr.now) V.drop_entry e.vtable d.vtable.0.0 };

    fn into_super(this: Self) -> DynRef<'a, U, V> {
        let DynRef { ptr, vtable } = this;
        let VtSend(VtSync(rest)) = vtable;
        DynRef { ptr, vtable: rest }
    }
}

impl<'a, U, V: HasDropVt> IntoSuperTrait<DynRef<'a, U, VtSync<V>>>
    for DynRef<'a, U, VtSync<VtSend<V>>> {
    ghost keeps = { λ d e. Keeps (e.ptr.now ≡ d.ptr.now) V.drop_entry e.vtable.0 d.vtable.0.0 };

    fn into_super(this: Self) -> DynRef<'a, U, VtSync<V>> {
        let DynRef { ptr, vtable } = this;
        let VtSync(VtSend(rest)) = vtable;
        DynRef {
            ptr,
            vtable: VtSync(rest),
        }
    }
}

impl<'a, U, V: HasDropVt> IntoSuperTrait<DynRef<'a, U, VtSend<V>>>
    for DynRef<'a, U, VtSend<VtSync<V>>> {
    ghost keeps = { λ d e. Keeps (e.ptr.now ≡ d.ptr.now) V.drop_entry e.vtable.0 d.vtable.0.0 };

    fn into_super(this: Self) -> DynRef<'a, U, VtSend<V>> {
        let DynRef { ptr, vtable } = this;
        let VtSend(VtSync(rest)) = vtable;
        DynRef {
            ptr,
            vtable: VtSend(rest),
        }
    }
}

impl<'a, U, X: Drop, Y: HasDropVt> IntoSuperTrait<DynRef<'a, U, Y>>
    for DynRef<'a, U, VtSend<VTable<X, Y>>> {
    ghost keeps = { λ d e. Keeps (e.ptr.now ≡ d.ptr.now) Y.drop_entry e.vtable d.vtable.0.tail };

    fn into_super(this: Self) -> DynRef<'a, U, Y> {
        let DynRef { ptr, vtable } = this;
        let VtSend(
            VTable {
                tail: rest,
                head: _,
            },
        ) = vtable;
        DynRef { ptr, vtable: rest }
    }
}

impl<'a, U, X: Drop, Y: HasDropVt> IntoSuperTrait<DynRef<'a, U, Y>>
    for DynRef<'a, U, VtSync<VTable<X, Y>>> {
    ghost keeps = { λ d e. Keeps (e.ptr.now ≡ d.ptr.now) Y.drop_entry e.vtable d.vtable.0.tail };

    fn into_super(this: Self) -> DynRef<'a, U, Y> {
        let DynRef { ptr, vtable } = this;
        let VtSync(
            VTable {
                tail: rest,
                head: _,
            },
        ) = vtable;
        DynRef { ptr, vtable: rest }
    }
}

impl<'a, U, X: Drop, Y: HasDropVt> IntoSuperTrait<DynRef<'a, U, Y>>
    for DynRef<'a, U, VtSync<VtSend<VTable<X, Y>>>> {
    ghost keeps = { λ d e. Keeps (e.ptr.now ≡ d.ptr.now) Y.drop_entry e.vtable d.vtable.0.0.tail };

    fn into_super(this: Self) -> DynRef<'a, U, Y> {
        let DynRef { ptr, vtable } = this;
        let VtSync(
            VtSend(
                VTable {
                    tail: rest,
                    head: _,
                },
            ),
        ) = vtable;
        DynRef { ptr, vtable: rest }
    }
}

impl<'a, U, X: Drop, Y: HasDropVt> IntoSuperTrait<DynRef<'a, U, Y>>
    for DynRef<'a, U, VtSend<VtSync<VTable<X, Y>>>> {
    ghost keeps = { λ d e. Keeps (e.ptr.now ≡ d.ptr.now) Y.drop_entry e.vtable d.vtable.0.0.tail };

    fn into_super(this: Self) -> DynRef<'a, U, Y> {
        let DynRef { ptr, vtable } = this;
        let VtSend(
            VtSync(
                VTable {
                    tail: rest,
                    head: _,
                },
            ),
        ) = vtable;
        DynRef { ptr, vtable: rest }
    }
}

impl<'a, U, X: Drop, Y: HasDropVt> IntoSuperTrait<DynRef<'a, U, VtSend<Y>>>
    for DynRef<'a, U, VtSend<VTable<X, Y>>> {
    ghost keeps = { λ d e. Keeps (e.ptr.now ≡ d.ptr.now) Y.drop_entry e.vtable.0 d.vtable.0.tail };

    fn into_super(this: Self) -> DynRef<'a, U, VtSend<Y>> {
        let DynRef { ptr, vtable } = this;
        let VtSend(
            VTable {
                tail: rest,
                head: _,
            },
        ) = vtable;
        DynRef {
            ptr,
            vtable: VtSend(rest),
        }
    }
}

impl<'a, U, X: Drop, Y: HasDropVt> IntoSuperTrait<DynRef<'a, U, VtSync<Y>>>
    for DynRef<'a, U, VtSync<VTable<X, Y>>> {
    ghost keeps = { λ d e. Keeps (e.ptr.now ≡ d.ptr.now) Y.drop_entry e.vtable.0 d.vtable.0.tail };

    fn into_super(this: Self) -> DynRef<'a, U, VtSync<Y>> {
        let DynRef { ptr, vtable } = this;
        let VtSync(
            VTable {
                tail: rest,
                head: _,
            },
        ) = vtable;
        DynRef {
            ptr,
            vtable: VtSync(rest),
        }
    }
}

impl<'a, U, X: Drop, Y: HasDropVt> IntoSuperTrait<DynRef<'a, U, VtSync<VtSend<Y>>>>
    for DynRef<'a, U, VtSync<VtSend<VTable<X, Y>>>> {
    ghost keeps = { λ d e. Keeps (e.ptr.now ≡ d.ptr.now) Y.drop_entry e.vtable.0.0 d.vtable.0.0.tail };

    fn into_super(this: Self) -> DynRef<'a, U, VtSync<VtSend<Y>>> {
        let DynRef { ptr, vtable } = this;
        let VtSync(
            VtSend(
                VTable {
                    tail: rest,
                    head: _,
                },
            ),
        ) = vtable;
        DynRef {
            ptr,
            vtable: VtSync(VtSend(rest)),
        }
    }
}

impl<'a, U, X: Drop, Y: HasDropVt> IntoSuperTrait<DynRef<'a, U, VtSend<VtSync<Y>>>>
    for DynRef<'a, U, VtSend<VtSync<VTable<X, Y>>>> {
    ghost keeps = { λ d e. Keeps (e.ptr.now ≡ d.ptr.now) Y.drop_entry e.vtable.0.0 d.vtable.0.0.tail };

    fn into_super(this: Self) -> DynRef<'a, U, VtSend<VtSync<Y>>> {
        let DynRef { ptr, vtable } = this;
        let VtSend(
            VtSync(
                VTable {
                    tail: rest,
                    head: _,
                },
            ),
        ) = vtable;
        DynRef {
            ptr,
            vtable: VtSend(VtSync(rest)),
        }
    }
}
