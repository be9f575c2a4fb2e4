//! Erased values that are shared: weak handles of them, and back.
ghost use Rattle.std.specs.Prelude.{◌≡◌, IfErr, IfNone, IfOk, IfSome, OnErr, OnOk, OnSome};
ghost use Rattle.stabby_count.specs.Shared.{arc_value, arc_block, arc_record, weak_value, weak_block, weak_record, IsShared, IsSole};
ghost use Rattle.stabby_count.specs.Records.{AddsStep, FindsNoneAfterLooks, RaisesAfterLooks, Refuses, UpgradesAfterLooks, alone, strong_of, weak_of};
ghost use Rattle.stabby_count.specs.declared.fault.CountFault.TheVariants.{Memory};
ghost use Rattle.stabby_count.specs.declared.machine.Step.TheVariants.{Downgrade};

use crate::erased::Dyn;
use stabby_count::{Arc, CountFault, Weak};
use stabby_dyn_tables::HasDropVt;
use std::sync::Wait;

impl<U: Drop, Vt: HasDropVt + Copy> Dyn<Arc<U>, Vt> {
    /// A weak handle of the same value, with the table. It tries again where another handle was in the way.
    ///
    /// # Errors
    /// `Full` where the weak count is at its limit of 2^32 - 1, `Memory` where there is none.
    pub fn downgrade<R: Wait>(&mut self, rt: &R) -> Result<Dyn<Weak<U>, Vt>, CountFault>
        ensures value { IfOk result (λ weak. weak_value weak.ptr ≡ arc_value self.old.ptr) }
        ensures vtable { IfOk result (λ weak. weak.vtable ≡ self.old.vtable) }
        ensures block { IfOk result (λ weak. weak_block weak.ptr ≡ arc_block self.old.ptr) }
        ensures added { OnOk result
            (RaisesAfterLooks Downgrade weak_of (arc_record self.old.ptr) (arc_record self.new.ptr)) }
        ensures copied { IfOk result (λ weak. weak_record weak.ptr ≡ arc_record self.new.ptr) }
        ensures shares { OnOk result (IsShared self.new.ptr) }
        ensures stays_sole { IsSole self.old.ptr → OnErr result (IsSole self.new.ptr) }
        ensures sole_word { IsSole self.old.ptr → OnOk result
            (AddsStep Downgrade (arc_record self.old.ptr) (arc_record self.new.ptr) alone) }
        ensures sole { IsSole self.old.ptr → IfErr result (λ fault. fault ≡ Memory) }
        ensures fault { IfErr result (Refuses weak_of (arc_record self.old.ptr) (arc_record self.new.ptr)) }
        ensures kept { arc_value self.new.ptr ≡ arc_value self.old.ptr }
        ensures block_kept { arc_block self.new.ptr ≡ arc_block self.old.ptr }
        ensures table_kept { self.new.vtable ≡ self.old.vtable }
    {
        let vtable = self.vtable;
        match self.ptr.downgrade(rt) {
            Ok(ptr) => Ok(Dyn { ptr, vtable }),
            Err(fault) => Err(fault),
        }
    }
}

impl<U: Drop, Vt: HasDropVt + Copy> Dyn<Weak<U>, Vt> {
    /// A strong handle of the same value, with the table. It tries again where another handle was in the way.
    ///
    /// `None` comes only where the word read had no strong handle.
    ///
    /// # Errors
    /// `Full` where the strong count is at its limit of 2^32 - 1, `Memory` where there is none.
    pub fn upgrade<R: Wait>(&mut self, rt: &R) -> Result<Option<Dyn<Arc<U>, Vt>>, CountFault>
        ensures value { IfOk result (λ found. IfSome found (λ strong. arc_value strong.ptr ≡ weak_value self.old.ptr)) }
        ensures vtable { IfOk result (λ found. IfSome found (λ strong. strong.vtable ≡ self.old.vtable)) }
        ensures block { IfOk result (λ found. IfSome found (λ strong. arc_block strong.ptr ≡ weak_block self.old.ptr)) }
        ensures added { IfOk result (λ found. OnSome found
            (UpgradesAfterLooks (weak_record self.old.ptr) (weak_record self.new.ptr))) }
        ensures copied { IfOk result (λ found.
            IfSome found (λ strong. arc_record strong.ptr ≡ weak_record self.new.ptr)) }
        ensures shares { IfOk result (λ found. IfSome found (λ strong. IsShared strong.ptr)) }
        ensures none { IfOk result (λ found. IfNone found
            (FindsNoneAfterLooks (weak_record self.old.ptr) (weak_record self.new.ptr))) }
        ensures fault { IfErr result (Refuses strong_of (weak_record self.old.ptr) (weak_record self.new.ptr)) }
        ensures kept { weak_value self.new.ptr ≡ weak_value self.old.ptr }
        ensures block_kept { weak_block self.new.ptr ≡ weak_block self.old.ptr }
        ensures table_kept { self.new.vtable ≡ self.old.vtable }
    {
        let vtable = self.vtable;
        match self.ptr.upgrade(rt) {
            Ok(Some(ptr)) => Ok(Some(Dyn { ptr, vtable })),
            Ok(None) => Ok(None),
            Err(fault) => Err(fault),
        }
    }
}
