//! Shared slices: counted handles of a list that keeps its capacity.
use crate::fault::{CountFault, TryCountFault};
use crate::spent::Spent;
use crate::strong::Arc;
use crate::weak::Weak;
use stabby_layout::AllocationError;
use stabby_vec::Vec;
use std::alloc::Global;
use std::sync::Wait;

/// A strong handle of a shared slice.
#[derive(Drop)]
pub struct ArcSlice<T> {
    pub(crate) shared: Arc<Vec<T, Global>>,
}

/// A weak handle of a shared slice.
#[derive(Drop)]
pub struct WeakSlice<T> {
    pub(crate) shared: Weak<Vec<T, Global>>,
}

impl<T> ArcSlice<T> {
    ghost use Rattle.std.specs.Prelude.{◌≡◌, ◌<◌, ℕ, IsTrue, ◌↔◌, length, []};
    ghost use Rattle.stabby_count.specs.SharedSlices.{slice_items, slice_record, IsSoleSlice, IsSameSlice};
    ghost use Rattle.stabby_count.specs.Records.{AddsLook, ReadsAlone, alone, strong_of, weak_of};

    /// The number of items.
    pub fn len(&self) -> usize
        ensures { result ≡ length (slice_items self.now) }
    {
        self.shared.len()
    }

    /// Whether there are no items.
    pub fn is_empty(&self) -> bool
        ensures { IsTrue result ↔ (slice_items self.now ≡ []) }
    {
        self.shared.is_empty()
    }

    /// The items.
    pub fn as_slice(&self) -> &[T]
        ensures { result.now ≡ slice_items self.now }
    {
        self.shared.as_slice()
    }

    /// Whether this is the only handle, from one read of the word.
    pub fn is_unique(&mut self) -> bool
        ensures unique { ReadsAlone (slice_record self.old) (slice_record self.new) result }
        ensures sole { IsSoleSlice self.old → IsTrue result }
        ensures becomes_sole { IsTrue result → IsSoleSlice self.new }
        ensures kept { IsSameSlice self.old self.new }
    {
        self.shared.is_unique()
    }

    /// How many strong handles there are, from one read of the word.
    pub fn strong_count(&mut self) -> u64
        ensures count { (n : ℕ) × (result ≡ strong_of n) × AddsLook (slice_record self.old) (slice_record self.new) n }
        ensures at_least_one { 0 < result }
        ensures sole { IsSoleSlice self.old → (result ≡ 1) × IsSoleSlice self.new }
        ensures sole_word { IsSoleSlice self.old → AddsLook (slice_record self.old) (slice_record self.new) alone }
        ensures kept { IsSameSlice self.old self.new }
    {
        self.shared.strong_count()
    }

    /// How many weak handles there are, and one more, from one read of the word.
    pub fn weak_count(&mut self) -> u64
        ensures count { (n : ℕ) × (result ≡ weak_of n) × AddsLook (slice_record self.old) (slice_record self.new) n }
        ensures at_least_one { 0 < result }
        ensures sole { IsSoleSlice self.old → (result ≡ 1) × IsSoleSlice self.new }
        ensures sole_word { IsSoleSlice self.old → AddsLook (slice_record self.old) (slice_record self.new) alone }
        ensures kept { IsSameSlice self.old self.new }
    {
        self.shared.weak_count()
    }
}

impl<T> ArcSlice<T> {
    ghost use Rattle.std.specs.Prelude.{◌≡◌, [], IfOk, IfErr, OnOk, OnErr, IsOk};
    ghost use Rattle.stabby_count.specs.SharedSlices.{slice_value, slice_block, slice_record, weak_slice_value, weak_slice_block, weak_slice_record, IsSoleSlice, IsSharedSlice, IsSameSlice, SliceFindsOthers};
    ghost use Rattle.stabby_count.specs.Records.{AddsStep, RaisesAfterLooks, Refuses, alone, strong_of, weak_of};
    ghost use Rattle.stabby_count.specs.declared.fault.CountFault.TheVariants.{Memory as NoMemory};
    ghost use Rattle.stabby_count.specs.declared.machine.Step.TheVariants.{Clone as CloneNote, Downgrade as DowngradeNote};
    ghost use Rattle.stabby_layout.specs.declared.error.AllocationError.TheVariants.{Memory};

    /// Shares a list, with its capacity. The handle is sole. Where there is no memory the list comes back.
    pub fn from_vec(
        alloc: Global,
        value: Vec<T, Global>,
    ) -> Result<ArcSlice<T>, (Vec<T, Global>, AllocationError)>
        ensures value { IfOk result (λ made. slice_value made ≡ value) }
        ensures sole { IfOk result IsSoleSlice }
        ensures new_record { IfOk result (λ made. slice_record made ≡ []) }
        ensures value_back { IfErr result (λ back. back ≡ (value, Memory)) }
    {
        match Arc::try_new_in(alloc, value) {
            Ok(shared) => Ok(ArcSlice { shared }),
            Err(back) => Err(back),
        }
    }

    /// The list with its capacity, where this is the only handle, by one exchange.
    ///
    /// The handle comes back exactly where the exchange read a word that isn't one strong and one weak.
    pub fn try_into_vec(self) -> Result<Vec<T, Global>, ArcSlice<T>>
        ensures value { IfOk result (λ list. list ≡ slice_value self) }
        ensures value_back { IfErr result (IsSameSlice self) }
        ensures shared { IfErr result (SliceFindsOthers self) }
        ensures sole { IsSoleSlice self → IsOk result }
    {
        let ArcSlice { shared } = self;
        match shared.try_into_inner() {
            Ok(list) => Ok(list),
            Err(shared) => Err(ArcSlice { shared }),
        }
    }

    /// One more strong handle of the same slice. It tries again where another handle was in the way.
    pub fn clone<H: Wait>(&mut self, rt: &H) -> Result<ArcSlice<T>, CountFault>
        ensures value { IfOk result (λ other. slice_value other ≡ slice_value self.old) }
        ensures block { IfOk result (λ other. slice_block other ≡ slice_block self.old) }
        ensures added { OnOk result (RaisesAfterLooks CloneNote strong_of (slice_record self.old) (slice_record self.new)) }
        ensures copied { IfOk result (λ other. slice_record other ≡ slice_record self.new) }
        ensures shares { IfOk result (λ other. IsSharedSlice self.new × IsSharedSlice other) }
        ensures stays_sole { IsSoleSlice self.old → OnErr result (IsSoleSlice self.new) }
        ensures sole_word { IsSoleSlice self.old → OnOk result (AddsStep CloneNote (slice_record self.old) (slice_record self.new) alone) }
        ensures fault { IfErr result (Refuses strong_of (slice_record self.old) (slice_record self.new)) }
        ensures sole { IsSoleSlice self.old → IfErr result (λ fault. fault ≡ NoMemory) }
        ensures kept { IsSameSlice self.old self.new }
    {
        match self.shared.clone(rt) {
            Ok(shared) => Ok(ArcSlice { shared }),
            Err(fault) => Err(fault),
        }
    }

    /// One weak handle of the same slice. It tries again where another handle was in the way.
    pub fn downgrade<H: Wait>(&mut self, rt: &H) -> Result<WeakSlice<T>, CountFault>
        ensures value { IfOk result (λ weak. weak_slice_value weak ≡ slice_value self.old) }
        ensures block { IfOk result (λ weak. weak_slice_block weak ≡ slice_block self.old) }
        ensures added { OnOk result (RaisesAfterLooks DowngradeNote weak_of (slice_record self.old) (slice_record self.new)) }
        ensures copied { IfOk result (λ weak. weak_slice_record weak ≡ slice_record self.new) }
        ensures shares { OnOk result (IsSharedSlice self.new) }
        ensures stays_sole { IsSoleSlice self.old → OnErr result (IsSoleSlice self.new) }
        ensures sole_word { IsSoleSlice self.old → OnOk result (AddsStep DowngradeNote (slice_record self.old) (slice_record self.new) alone) }
        ensures fault { IfErr result (Refuses weak_of (slice_record self.old) (slice_record self.new)) }
        ensures sole { IsSoleSlice self.old → IfErr result (λ fault. fault ≡ NoMemory) }
        ensures kept { IsSameSlice self.old self.new }
    {
        match self.shared.downgrade(rt) {
            Ok(shared) => Ok(WeakSlice { shared }),
            Err(fault) => Err(fault),
        }
    }
}

impl<T: Copy> ArcSlice<T> {
    ghost use Rattle.std.specs.Prelude.{◌≡◌, [], IfOk, IfErr};
    ghost use Rattle.stabby_count.specs.SharedSlices.{slice_items, slice_record, IsSoleSlice};
    ghost use Rattle.stabby_layout.specs.declared.error.AllocationError.TheVariants.{Memory};

    /// Shares a copy of the items. The handle is sole. The refusal is for want of memory.
    pub fn from_slice(alloc: Global, value: &[T]) -> Result<ArcSlice<T>, AllocationError>
        ensures items { IfOk result (λ made. slice_items made ≡ value.now) }
        ensures sole { IfOk result IsSoleSlice }
        ensures new_record { IfOk result (λ made. slice_record made ≡ []) }
        ensures memory { IfErr result (λ error. error ≡ Memory) }
    {
        let Ok(list) = Vec::from_slice(alloc, value) else {
            return Err(AllocationError::Memory);
        };
        match ArcSlice::from_vec(alloc, list) {
            Ok(made) => Ok(made),
            Err((list, error)) => {
                drop(list);
                Err(error)
            }
        }
    }
}

impl<T> WeakSlice<T> {
    ghost use Rattle.std.specs.Prelude.{◌≡◌, ◌<◌, ◌++◌, ◌∷◌, [], IfOk, IfErr, IfSome, IfNone, OnOk, OnSome};
    ghost use Rattle.stabby_count.specs.SharedSlices.{slice_value, slice_block, slice_record, weak_slice_value, weak_slice_block, weak_slice_record, IsSharedSlice, IsSameWeakSlice};
    ghost use Rattle.stabby_count.specs.Shared.{spent_block, spent_record, spent_word};
    ghost use Rattle.stabby_count.specs.Records.{RaisesAfterLooks, Refuses, RefusesTry, Upgrades, UpgradesAfterLooks, FindsNone, FindsNoneAfterLooks, note, strong_of, weak_of};
    ghost use Rattle.stabby_count.specs.declared.machine.Step.TheVariants.{Downgrade as DowngradeNote, EndWeak as EndNote};

    /// A strong handle of the same slice, by one try. `None` comes only where the word read had no strong handle.
    pub fn try_upgrade(&mut self) -> Result<Option<ArcSlice<T>>, TryCountFault>
        ensures value { IfOk result (λ found. IfSome found (λ strong. slice_value strong ≡ weak_slice_value self.old)) }
        ensures block { IfOk result (λ found. IfSome found (λ strong. slice_block strong ≡ weak_slice_block self.old)) }
        ensures added { IfOk result (λ found. OnSome found (Upgrades (weak_slice_record self.old) (weak_slice_record self.new))) }
        ensures copied { IfOk result (λ found. IfSome found (λ strong. slice_record strong ≡ weak_slice_record self.new)) }
        ensures shares { IfOk result (λ found. IfSome found IsSharedSlice) }
        ensures none { IfOk result (λ found. IfNone found (FindsNone (weak_slice_record self.old) (weak_slice_record self.new))) }
        ensures fault { IfErr result (RefusesTry strong_of (weak_slice_record self.old) (weak_slice_record self.new)) }
        ensures kept { IsSameWeakSlice self.old self.new }
    {
        match self.shared.try_upgrade() {
            Ok(Some(shared)) => Ok(Some(ArcSlice { shared })),
            Ok(None) => Ok(None),
            Err(fault) => Err(fault),
        }
    }

    /// A strong handle of the same slice. It tries again where another handle was in the way.
    ///
    /// `None` comes only where the word read had no strong handle.
    pub fn upgrade<H: Wait>(&mut self, rt: &H) -> Result<Option<ArcSlice<T>>, CountFault>
        ensures value { IfOk result (λ found. IfSome found (λ strong. slice_value strong ≡ weak_slice_value self.old)) }
        ensures block { IfOk result (λ found. IfSome found (λ strong. slice_block strong ≡ weak_slice_block self.old)) }
        ensures added { IfOk result (λ found. OnSome found (UpgradesAfterLooks (weak_slice_record self.old) (weak_slice_record self.new))) }
        ensures copied { IfOk result (λ found. IfSome found (λ strong. slice_record strong ≡ weak_slice_record self.new)) }
        ensures shares { IfOk result (λ found. IfSome found IsSharedSlice) }
        ensures none { IfOk result (λ found. IfNone found (FindsNoneAfterLooks (weak_slice_record self.old) (weak_slice_record self.new))) }
        ensures fault { IfErr result (Refuses strong_of (weak_slice_record self.old) (weak_slice_record self.new)) }
        ensures kept { IsSameWeakSlice self.old self.new }
    {
        match self.shared.upgrade(rt) {
            Ok(Some(shared)) => Ok(Some(ArcSlice { shared })),
            Ok(None) => Ok(None),
            Err(fault) => Err(fault),
        }
    }

    /// One more weak handle of the same slice. It tries again where another handle was in the way.
    pub fn clone<H: Wait>(&mut self, rt: &H) -> Result<WeakSlice<T>, CountFault>
        ensures value { IfOk result (λ other. weak_slice_value other ≡ weak_slice_value self.old) }
        ensures block { IfOk result (λ other. weak_slice_block other ≡ weak_slice_block self.old) }
        ensures added { OnOk result (RaisesAfterLooks DowngradeNote weak_of (weak_slice_record self.old) (weak_slice_record self.new)) }
        ensures copied { IfOk result (λ other. weak_slice_record other ≡ weak_slice_record self.new) }
        ensures fault { IfErr result (Refuses weak_of (weak_slice_record self.old) (weak_slice_record self.new)) }
        ensures kept { IsSameWeakSlice self.old self.new }
    {
        match self.shared.clone(rt) {
            Ok(shared) => Ok(WeakSlice { shared }),
            Err(fault) => Err(fault),
        }
    }

    /// Ends the handle by one step, which released the block exactly where it read the word 1.
    pub fn end(self) -> Spent
        ensures added { spent_record result ≡ weak_slice_record self ++ note EndNote (spent_word result) ∷ [] }
        ensures had_weak { 0 < weak_of (spent_word result) }
        ensures block { spent_block result ≡ weak_slice_block self }
    {
        let WeakSlice { shared } = self;
        shared.end()
    }
}
