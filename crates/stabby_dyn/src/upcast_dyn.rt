//! The conversions of a `Dyn`.
ghost use Rattle.std.specs.Prelude.{◌≡◌};
ghost use Rattle.stabby_dyn.specs.Tables.{Keeps};

use crate::erased::Dyn;
use crate::pointer::IPtrOwned;
use crate::upcast::IntoSuperTrait;
use stabby_dyn_tables::{HasDropVt, VTable, VtSend, VtSync};

impl<P: IPtrOwned, X: Drop, Y: HasDropVt> IntoSuperTrait<Dyn<P, Y>> for Dyn<P, VTable<X, Y>> {
    ghost keeps = { λ d e. Keeps (e.ptr ≡ d.ptr) Y.drop_entry e.vtable d.vtable.tail };

    fn into_super(this: Self) -> Dyn<P, Y> {
        let (ptr, vtable) = this.into_parts();
        let VTable {
            tail: rest,
            head: _,
        } = vtable;
        Dyn { ptr, vtable: rest }
    }
}

impl<P: IPtrOwned, V: HasDropVt> IntoSuperTrait<Dyn<P, V>> for Dyn<P, VtSend<V>> {
    ghost keeps = { λ d e. Keeps (e.ptr ≡ d.ptr) V.drop_entry e.vtable d.vtable.0 };

    fn into_super(this: Self) -> Dyn<P, V> {
        let (ptr, vtable) = this.into_parts();
        let VtSend(rest) = vtable;
        Dyn { ptr, vtable: rest }
    }
}

impl<P: IPtrOwned, V: HasDropVt> IntoSuperTrait<Dyn<P, V>> for Dyn<P, VtSync<V>> {
    ghost keeps = { λ d e. Keeps (e.ptr ≡ d.ptr) V.drop_entry e.vtable d.vtable.0 };

    fn into_super(this: Self) -> Dyn<P, V> {
        let (ptr, vtable) = this.into_parts();
        let VtSync(rest) = vtable;
        Dyn { ptr, vtable: rest }
    }
}

impl<P: IPtrOwned, V: HasDropVt> IntoSuperTrait<Dyn<P, V>> for Dyn<P, VtSync<VtSend<V>>> {
    ghost keeps = { λ d e. Keeps (e.ptr ≡ d.ptr) V.drop_entry e.vtable d.vtable.0.0 };

    fn into_super(this: Self) -> Dyn<P, V> {
        let (ptr, vtable) = this.into_parts();
        let VtSync(VtSend(rest)) = vtable;
        Dyn { ptr, vtable: rest }
    }
}

impl<P: IPtrOwned, V: HasDropVt> IntoSuperTrait<Dyn<P, V>> for Dyn<P, VtSend<VtSync<V>>> {
    ghost keeps = { λ d e. Keeps (e.ptr ≡ d.ptr) V.drop_entry e.vtable d.vtable.0.0 };

    fn into_super(this: Self) -> Dyn<P, V> {
        let (ptr, vtable) = this.into_parts();
        let VtSend(VtSync(rest)) = vtable;
        Dyn { ptr, vtable: rest }
    }
}

impl<P: IPtrOwned, V: HasDropVt> IntoSuperTrait<Dyn<P, VtSync<V>>> for Dyn<P, VtSync<VtSend<V>>> {
    ghost keeps = { λ d e. Keeps (e.ptr ≡ d.ptr) V.drop_entry e.vtable.0 d.vtable.0.0 };

    fn into_super(this: Self) -> Dyn<P, VtSync<V>> {
        let (ptr, vtable) = this.into_parts();
        let VtSync(VtSend(rest)) = vtable;
        Dyn {
            ptr,
            vtable: VtSync(rest),
        }
    }
}

impl<P: IPtrOwned, V: HasDropVt> IntoSuperTrait<Dyn<P, VtSend<V>>> for Dyn<P, VtSend<VtSync<V>>> {
    ghost keeps = { λ d e. Keeps (e.ptr ≡ d.ptr) V.drop_entry e.vtable.0 d.vtable.0.0 };

    fn into_super(this: Self) -> Dyn<P, VtSend<V>> {
        let (ptr, vtable) = this.into_parts();
        let VtSend(VtSync(rest)) = vtable;
        Dyn {
            ptr,
            vtable: VtSend(rest),
        }
    }
}

impl<P: IPtrOwned, X: Drop, Y: HasDropVt> IntoSuperTrait<Dyn<P, Y>>
    for Dyn<P, VtSend<VTable<X, Y>>> {
    ghost keeps = { λ d e. Keeps (e.ptr ≡ d.ptr) Y.drop_entry e.vtable d.vtable.0.tail };

    fn into_super(this: Self) -> Dyn<P, Y> {
        let (ptr, vtable) = this.into_parts();
        let VtSend(
            VTable {
                tail: rest,
                head: _,
            },
        ) = vtable;
        Dyn { ptr, vtable: rest }
    }
}

impl<P: IPtrOwned, X: Drop, Y: HasDropVt> IntoSuperTrait<Dyn<P, Y>>
    for Dyn<P, VtSync<VTable<X, Y>>> {
    ghost keeps = { λ d e. Keeps (e.ptr ≡ d.ptr) Y.drop_entry e.vtable d.vtable.0.tail };

    fn into_super(this: Self) -> Dyn<P, Y> {
        let (ptr, vtable) = this.into_parts();
        let VtSync(
            VTable {
                tail: rest,
                head: _,
            },
        ) = vtable;
        Dyn { ptr, vtable: rest }
    }
}

impl<P: IPtrOwned, X: Drop, Y: HasDropVt> IntoSuperTrait<Dyn<P, Y>>
    for Dyn<P, VtSync<VtSend<VTable<X, Y>>>> {
    ghost keeps = { λ d e. Keeps (e.ptr ≡ d.ptr) Y.drop_entry e.vtable d.vtable.0.0.tail };

    fn into_super(this: Self) -> Dyn<P, Y> {
        let (ptr, vtable) = this.into_parts();
        let VtSync(
            VtSend(
                VTable {
                    tail: rest,
                    head: _,
                },
            ),
        ) = vtable;
        Dyn { ptr, vtable: rest }
    }
}

impl<P: IPtrOwned, X: Drop, Y: HasDropVt> IntoSuperTrait<Dyn<P, Y>>
    for Dyn<P, VtSend<VtSync<VTable<X, Y>>>> {
    ghost keeps = { λ d e. Keeps (e.ptr ≡ d.ptr) Y.drop_entry e.vtable d.vtable.0.0.tail };

    fn into_super(this: Self) -> Dyn<P, Y> {
        let (ptr, vtable) = this.into_parts();
        let VtSend(
            VtSync(
                VTable {
                    tail: rest,
                    head: _,
                },
            ),
        ) = vtable;
        Dyn { ptr, vtable: rest }
    }
}

impl<P: IPtrOwned, X: Drop, Y: HasDropVt> IntoSuperTrait<Dyn<P, VtSend<Y>>>
    for Dyn<P, VtSend<VTable<X, Y>>> {
    ghost keeps = { λ d e. Keeps (e.ptr ≡ d.ptr) Y.drop_entry e.vtable.0 d.vtable.0.tail };

    fn into_super(this: Self) -> Dyn<P, VtSend<Y>> {
        let (ptr, vtable) = this.into_parts();
        let VtSend(
            VTable {
                tail: rest,
                head: _,
            },
        ) = vtable;
        Dyn {
            ptr,
            vtable: VtSend(rest),
        }
    }
}

impl<P: IPtrOwned, X: Drop, Y: HasDropVt> IntoSuperTrait<Dyn<P, VtSync<Y>>>
    for Dyn<P, VtSync<VTable<X, Y>>> {
    ghost keeps = { λ d e. Keeps (e.ptr ≡ d.ptr) Y.drop_entry e.vtable.0 d.vtable.0.tail };

    fn into_super(this: Self) -> Dyn<P, VtSync<Y>> {
        let (ptr, vtable) = this.into_parts();
        let VtSync(
            VTable {
                tail: rest,
                head: _,
            },
        ) = vtable;
        Dyn {
            ptr,
            vtable: VtSync(rest),
        }
    }
}

impl<P: IPtrOwned, X: Drop, Y: HasDropVt> IntoSuperTrait<Dyn<P, VtSync<VtSend<Y>>>>
    for Dyn<P, VtSync<VtSend<VTable<X, Y>>>> {
    ghost keeps = { λ d e. Keeps (e.ptr ≡ d.ptr) Y.drop_entry e.vtable.0.0 d.vtable.0.0.tail };

    fn into_super(this: Self) -> Dyn<P, VtSync<VtSend<Y>>> {
        let (ptr, vtable) = this.into_parts();
        let VtSync(
            VtSend(
                VTable {
                    tail: rest,
                    head: _,
                },
            ),
        ) = vtable;
        Dyn {
            ptr,
            vtable: VtSync(VtSend(rest)),
        }
    }
}

impl<P: IPtrOwned, X: Drop, Y: HasDropVt> IntoSuperTrait<Dyn<P, VtSend<VtSync<Y>>>>
    for Dyn<P, VtSend<VtSync<VTable<X, Y>>>> {
    ghost keeps = { λ d e. Keeps (e.ptr ≡ d.ptr) Y.drop_entry e.vtable.0.0 d.vtable.0.0.tail };

    fn into_super(this: Self) -> Dyn<P, VtSend<VtSync<Y>>> {
        let (ptr, vtable) = this.into_parts();
        let VtSend(
            VtSync(
                VTable {
                    tail: rest,
                    head: _,
                },
            ),
        ) = vtable;
        Dyn {
            ptr,
            vtable: VtSend(VtSync(rest)),
        }
    }
}
