//! Strong handles.
ghost use Rattle.std.specs.Prelude.{◌≡◌};
ghost use Rattle.std.proofs.Props.{props};
ghost use Rattle.stabby_count_word.proofs.KindFacts.{IsStrong-prop};
ghost use Rattle.stabby_count_word.specs.Kinds.{last};
ghost use Rattle.stabby_count_word.specs.Steps.{IsStrong};

use crate::fault::{CountFault, TryCountFault};
use crate::raise::{Raise, try_raise, wait_to_raise};
use crate::spent::{Spent, leave};
use crate::view::View;
use crate::weak::Weak;
use crate::word::{ALONE, ONE_STRONG};
use crate::word_steps::{EndSole, EndStrong, Look, LookSole, Rest, SharedCounts, Take};
use stabby_count_word::Share;
use stabby_layout::AllocationError;
use stabby_text::MakeFault;
use std::alloc::Global;
use std::mem;
use std::ops::Deref;
use std::sync::Wait;

/// A strong handle of a shared value.
///
/// The value is there for as long as a strong handle is. Whoever ends the last one gets it. A handle that
/// is the only one may change it.
pub struct Arc<T> {
    pub(crate) share: Share<T, Global, View, SharedCounts>,
    ghost one_share: { IsStrong share.kind × (share.view.strong ≡ 1) × (share.view.weak ≡ 0) } by { Prim.hlevel (props, IsStrong-prop) },
}

impl<T> Arc<T> {
    ghost use Rattle.std.specs.Prelude.{◌≡◌, ◌==◌, ◌<◌, ◌≤◌, ℕ, IsTrue, true};
    ghost use Rattle.stabby_count.specs.Shared.{arc_value, arc_record, IsSole, IsSameArc};
    ghost use Rattle.stabby_count.specs.Records.{AddsLook, ReadsAlone, strong_of, weak_of, alone};

    fn get(&self) -> &T
        ensures { result.now ≡ arc_value self.now }
    {
        self.share.show()
    }

    /// How many strong handles there are, from one read of the word.
    pub fn strong_count(&mut self) -> u64
        ensures count { (n : ℕ) × (result ≡ strong_of n) × AddsLook (arc_record self.old) (arc_record self.new) n }
        ensures at_least_one { 0 < result }
        ensures sole { IsSole self.old → (result ≡ 1) × IsSole self.new }
        ensures sole_word { IsSole self.old → AddsLook (arc_record self.old) (arc_record self.new) alone }
        ensures kept { IsSameArc self.old self.new }
    {
        self.share.look::<Look>() / ONE_STRONG
    }

    /// How many weak handles there are, and one more, from one read of the word.
    pub fn weak_count(&mut self) -> u64
        ensures count { (n : ℕ) × (result ≡ weak_of n) × AddsLook (arc_record self.old) (arc_record self.new) n }
        ensures at_least_one { 0 < result }
        ensures sole { IsSole self.old → (result ≡ 1) × IsSole self.new }
        ensures sole_word { IsSole self.old → AddsLook (arc_record self.old) (arc_record self.new) alone }
        ensures kept { IsSameArc self.old self.new }
    {
        self.share.look::<Look>() % ONE_STRONG
    }

    /// Whether this is the only handle, from one read of the word.
    pub fn is_unique(&mut self) -> bool
        ensures unique { ReadsAlone (arc_record self.old) (arc_record self.new) result }
        ensures sole { IsSole self.old → IsTrue result }
        ensures becomes_sole { IsTrue result → IsSole self.new }
        ensures kept { IsSameArc self.old self.new }
    {
        self.share.look::<LookSole>() == ALONE
    }
}

impl<T> Deref for Arc<T> {
    type Target = T;

    ghost use Rattle.std.specs.Prelude.{◌≡◌};
    ghost use Rattle.stabby_count.specs.Shared.{arc_value};

    ghost deref_gives = { λ a x. x ≡ arc_value a };

    fn deref(&self) -> &T
        ensures { result.now ≡ arc_value self.now }
    {
        self.get()
    }
}

impl<T> Arc<T> {
    ghost use Rattle.std.specs.Borrow.{sem};
    ghost use Rattle.std.specs.Prelude.{◌≡◌, IsTrue, IfSome, true, is_some};
    ghost use Rattle.stabby_count.specs.Loans.{arc_lends};
    ghost use Rattle.stabby_count.specs.Shared.{arc_value, arc_record, IsSole, IsSameArc};
    ghost use Rattle.stabby_count.specs.Records.{ReadsAlone};
    ghost use Rattle.stabby_count_word.specs.Kinds.{held};

    // One read. Where it is of one strong and one weak, the handle may lend its value.
    pub(crate) fn seize(&mut self) -> bool
        ensures read { ReadsAlone (arc_record self.old) (arc_record self.new) result }
        ensures held { IsTrue result → self.new.share.kind ≡ held }
        ensures sole { IsSole self.old → IsTrue result }
        ensures becomes_sole { IsTrue result → IsSole self.new }
        ensures kept { IsSameArc self.old self.new }
    {
        self.share.seize::<LookSole>() == ALONE
    }

    /// The value to be changed, where this is the only handle.
    ///
    /// `None` comes exactly where the word read isn't one strong and one weak. What is written through
    /// the reference is the value of all later handles.
    pub fn get_mut(&mut self) -> Option<&mut T>
        ensures* writes_back { sem 𝓛 (arc_lends T.row self.entry result) }
        ensures value { IfSome result (λ r. r.now ≡ arc_value self.old) }
        ensures sole { IsSole self.old → is_some result ≡ true }
    {
        if self.seize() {
            Some(self.share.show_mut())
        } else {
            None
        }
    }
}

impl<T> Arc<T> {
    ghost use Rattle.std.specs.Prelude.{◌≡◌, IfOk, IfErr, OnOk, OnErr};
    ghost use Rattle.stabby_count.specs.Shared.{arc_value, arc_block, arc_record, weak_value, weak_block, weak_record, IsSole, IsShared, IsSameArc};
    ghost use Rattle.stabby_count.specs.Records.{AddsStep, Raises, RefusesTry, alone, strong_of, weak_of};
    ghost use Rattle.stabby_count.specs.declared.machine.Step.TheVariants.{Clone as CloneNote, Downgrade as DowngradeNote};
    ghost use Rattle.stabby_count.specs.declared.fault.TryCountFault.TheVariants.{Memory};

    #[tactic(auto, using(crate::proofs::Raises::clone_refuses, crate::proofs::Raises::clone_never_refused))]
    /// One more strong handle of the same value, by one try.
    pub fn try_clone(&mut self) -> Result<Arc<T>, TryCountFault>
        ensures value { IfOk result (λ other. arc_value other ≡ arc_value self.old) }
        ensures block { IfOk result (λ other. arc_block other ≡ arc_block self.old) }
        ensures added { OnOk result (Raises CloneNote strong_of (arc_record self.old) (arc_record self.new)) }
        ensures copied { IfOk result (λ other. arc_record other ≡ arc_record self.new) }
        ensures shares { IfOk result (λ other. IsShared self.new × IsShared other) }
        ensures stays_sole { IsSole self.old → OnErr result (IsSole self.new) }
        ensures sole_word { IsSole self.old → OnOk result (AddsStep CloneNote (arc_record self.old) (arc_record self.new) alone) }
        ensures fault { IfErr result (RefusesTry strong_of (arc_record self.old) (arc_record self.new)) }
        ensures sole { IsSole self.old → IfErr result (λ fault. fault ≡ Memory) }
        ensures kept { IsSameArc self.old self.new }
    {
        match try_raise(&mut self.share, Raise::Clone) {
            Ok(share) => Ok(Arc { share }),
            Err(fault) => Err(fault),
        }
    }

    #[tactic(auto, using(crate::proofs::Raises::downgrade_refuses, crate::proofs::Raises::downgrade_never_refused))]
    /// One weak handle of the same value, by one try.
    pub fn try_downgrade(&mut self) -> Result<Weak<T>, TryCountFault>
        ensures value { IfOk result (λ weak. weak_value weak ≡ arc_value self.old) }
        ensures block { IfOk result (λ weak. weak_block weak ≡ arc_block self.old) }
        ensures added { OnOk result (Raises DowngradeNote weak_of (arc_record self.old) (arc_record self.new)) }
        ensures copied { IfOk result (λ weak. weak_record weak ≡ arc_record self.new) }
        ensures shares { OnOk result (IsShared self.new) }
        ensures stays_sole { IsSole self.old → OnErr result (IsSole self.new) }
        ensures sole_word { IsSole self.old → OnOk result (AddsStep DowngradeNote (arc_record self.old) (arc_record self.new) alone) }
        ensures fault { IfErr result (RefusesTry weak_of (arc_record self.old) (arc_record self.new)) }
        ensures sole { IsSole self.old → IfErr result (λ fault. fault ≡ Memory) }
        ensures kept { IsSameArc self.old self.new }
    {
        match try_raise(&mut self.share, Raise::Downgrade) {
            Ok(share) => Ok(Weak { share }),
            Err(fault) => Err(fault),
        }
    }
}

impl<T> Arc<T> {
    ghost use Rattle.std.specs.Prelude.{◌≡◌, IfOk, IfErr, OnOk, OnErr};
    ghost use Rattle.stabby_count.specs.Shared.{arc_value, arc_block, arc_record, weak_value, weak_block, weak_record, IsSole, IsShared, IsSameArc};
    ghost use Rattle.stabby_count.specs.Records.{AddsStep, RaisesAfterLooks, Refuses, alone, strong_of, weak_of};
    ghost use Rattle.stabby_count.specs.declared.machine.Step.TheVariants.{Clone as CloneNote, Downgrade as DowngradeNote};
    ghost use Rattle.stabby_count.specs.declared.fault.CountFault.TheVariants.{Memory};

    /// One more strong handle of the same value. It tries again where another handle was in the way.
    pub fn clone<H: Wait>(&mut self, rt: &H) -> Result<Arc<T>, CountFault>
        ensures value { IfOk result (λ other. arc_value other ≡ arc_value self.old) }
        ensures block { IfOk result (λ other. arc_block other ≡ arc_block self.old) }
        ensures added { OnOk result (RaisesAfterLooks CloneNote strong_of (arc_record self.old) (arc_record self.new)) }
        ensures copied { IfOk result (λ other. arc_record other ≡ arc_record self.new) }
        ensures shares { IfOk result (λ other. IsShared self.new × IsShared other) }
        ensures stays_sole { IsSole self.old → OnErr result (IsSole self.new) }
        ensures sole_word { IsSole self.old → OnOk result (AddsStep CloneNote (arc_record self.old) (arc_record self.new) alone) }
        ensures fault { IfErr result (Refuses strong_of (arc_record self.old) (arc_record self.new)) }
        ensures sole { IsSole self.old → IfErr result (λ fault. fault ≡ Memory) }
        ensures kept { IsSameArc self.old self.new }
    {
        match wait_to_raise(rt, &mut self.share, Raise::Clone) {
            Ok(share) => Ok(Arc { share }),
            Err(word) => Err(CountFault::Full { word }),
        }
    }

    /// One weak handle of the same value. It tries again where another handle was in the way.
    pub fn downgrade<H: Wait>(&mut self, rt: &H) -> Result<Weak<T>, CountFault>
        ensures value { IfOk result (λ weak. weak_value weak ≡ arc_value self.old) }
        ensures block { IfOk result (λ weak. weak_block weak ≡ arc_block self.old) }
        ensures added { OnOk result (RaisesAfterLooks DowngradeNote weak_of (arc_record self.old) (arc_record self.new)) }
        ensures copied { IfOk result (λ weak. weak_record weak ≡ arc_record self.new) }
        ensures shares { OnOk result (IsShared self.new) }
        ensures stays_sole { IsSole self.old → OnErr result (IsSole self.new) }
        ensures sole_word { IsSole self.old → OnOk result (AddsStep DowngradeNote (arc_record self.old) (arc_record self.new) alone) }
        ensures fault { IfErr result (Refuses weak_of (arc_record self.old) (arc_record self.new)) }
        ensures sole { IsSole self.old → IfErr result (λ fault. fault ≡ Memory) }
        ensures kept { IsSameArc self.old self.new }
    {
        match wait_to_raise(rt, &mut self.share, Raise::Downgrade) {
            Ok(share) => Ok(Weak { share }),
            Err(word) => Err(CountFault::Full { word }),
        }
    }
}

// Takes the value that is due to the share, and frees the block where no weak handle is left.
fn take_value<T>(share: Share<T, Global, View, SharedCounts>) -> T
    requires last { share.kind ≡ last }
    requires due { share.view.due ≡ 1 }
    ensures { result ≡ share.value }
{
    let mut share = share;
    let value = share.take();
    let word = share.end_weak::<Take>();
    drop(leave(share, word));
    value
}

impl<T> Arc<T> {
    ghost use Rattle.std.specs.Prelude.{◌≡◌, ◌↔◌, [], ℕ, IfOk, IfErr, IsOk};
    ghost use Rattle.stabby_count.specs.Shared.{arc_value, arc_record, spent_record, spent_word, record_after_end, IsSole, IsSameArc, EndsAt, LeavesOthers, FindsOthers};
    ghost use Rattle.stabby_count.specs.Records.{AddsLook, alone};
    ghost use Rattle.stabby_layout.specs.declared.error.AllocationError.TheVariants.{Memory};

    /// Shares a value. The handle is sole, and its record empty.
    ///
    /// Where there is no memory the value comes back.
    pub fn try_new_in(alloc: Global, value: T) -> Result<Arc<T>, (T, AllocationError)>
        ensures value { IfOk result (λ made. arc_value made ≡ value) }
        ensures sole { IfOk result IsSole }
        ensures new_record { IfOk result (λ made. arc_record made ≡ []) }
        ensures value_back { IfErr result (λ back. back ≡ (value, Memory)) }
    {
        match Share::make(alloc, value) {
            Ok(share) => Ok(Arc { share }),
            Err(value) => Err((value, AllocationError::Memory)),
        }
    }

    // The end of a handle, and the word that its step read.
    fn finish(self) -> (Result<T, Spent>, u64)
        ensures exactly { EndsAt result.0 result.1 }
        ensures value { IfOk result.0 (λ value. value ≡ arc_value self) }
        ensures spent { IfErr result.0 (LeavesOthers self) }
        ensures added { IfErr result.0 (λ spent. spent_record spent ≡ record_after_end self (spent_word spent)) }
        ensures sole { IsSole self → IsOk result.0 }
    {
        let Arc { mut share } = self;
        let word = share.end_strong::<EndStrong>();
        if word / ONE_STRONG != 1 {
            let seat = share.done();
            return (Err(Spent { seat, word }), word);
        }
        (Ok(take_value(share)), word)
    }

    /// Ends the handle by one step. The value comes exactly where that step read one strong.
    pub fn end(self) -> Result<T, Spent>
        ensures exactly { (word : ℕ) × EndsAt result word }
        ensures value { IfOk result (λ value. value ≡ arc_value self) }
        ensures spent { IfErr result (LeavesOthers self) }
        ensures added { IfErr result (λ spent. spent_record spent ≡ record_after_end self (spent_word spent)) }
        ensures sole { IsSole self → IsOk result }
    {
        let (answer, _word) = self.finish();
        answer
    }

    // One exchange, and the word that it read.
    fn end_sole(self) -> (Result<T, Arc<T>>, u64)
        ensures exactly { IsOk result.0 ↔ (result.1 ≡ alone) }
        ensures value { IfOk result.0 (λ value. value ≡ arc_value self) }
        ensures value_back { IfErr result.0 (IsSameArc self) }
        ensures shared { IfErr result.0 (λ back. AddsLook (arc_record self) (arc_record back) result.1) }
        ensures sole { IsSole self → IsOk result.0 }
    {
        let Arc { mut share } = self;
        share.give_back::<Rest>();
        let word = share.exchange::<EndSole>(ALONE, 1);
        if word != ALONE {
            return (Err(Arc { share }), word);
        }
        (Ok(take_value(share)), word)
    }

    /// The value, where this is the only handle, by one exchange.
    ///
    /// The handle comes back exactly where the exchange read a word that isn't one strong and one weak.
    pub fn try_into_inner(self) -> Result<T, Arc<T>>
        ensures value { IfOk result (λ value. value ≡ arc_value self) }
        ensures value_back { IfErr result (IsSameArc self) }
        ensures shared { IfErr result (FindsOthers self) }
        ensures sole { IsSole self → IsOk result }
    {
        let (answer, _word) = self.end_sole();
        answer
    }
}

impl<T> Arc<T> {
    ghost use Rattle.std.specs.Prelude.{◌≡◌, [], Ok, Err, IfOk, IfErr};
    ghost use Rattle.stabby_count.specs.Shared.{arc_value, arc_record, IsSole};
    ghost use Rattle.stabby_text.specs.Making.{MadeOrFault};

    /// Calls `make`, and shares what it made. The handle is sole, and its record empty.
    ///
    /// `Constructor` comes only where `make` answered that fault, and `Memory` hands back the value that it
    /// made.
    pub fn try_make_in<E, F: FnOnce() -> Result<T, E>>(
        alloc: Global,
        make: F,
    ) -> Result<Arc<T>, MakeFault<T, E>>
        requires { F.pre make }
        ensures made { IfOk result (λ made. F.post make (Ok (arc_value made))) }
        ensures sole { IfOk result IsSole }
        ensures new_record { IfOk result (λ made. arc_record made ≡ []) }
        ensures fault { IfErr result (λ fault. MadeOrFault (F.post make) (Err fault)) }
    {
        match make() {
            Err(fault) => Err(MakeFault::Constructor(fault)),
            Ok(value) => match Arc::try_new_in(alloc, value) {
                Ok(made) => Ok(made),
                Err((value, _error)) => Err(MakeFault::Memory(value)),
            },
        }
    }
}

impl<T: Clone + Drop> Arc<T> {
    ghost use Rattle.std.specs.Borrow.{sem};
    ghost use Rattle.std.specs.Prelude.{◌≡◌, IfOk, IfErr, IfSome, IfNone, IsOk, OnErr, OnOk};
    ghost use Rattle.stabby_count_word.specs.Kinds.{held};
    ghost use Rattle.stabby_count.specs.Loans.{arc_lends_alone};
    ghost use Rattle.stabby_count.specs.Shared.{arc_value, IsSole, IsSameArc, IsOrClones, StaysAlone, PartsWays, EndsAfterLook, FindsOthers};
    ghost use Rattle.stabby_layout.specs.declared.error.AllocationError.TheVariants.{Memory};

    // A handle of its own, where the value was shared, and then what the end of the handle before it gave.
    fn part_ways(&mut self, alloc: Global) -> Result<Option<Result<T, Spent>>, AllocationError>
        ensures held { OnOk result (self.new.share.kind ≡ held) }
        ensures sole { OnOk result (IsSole self.new) }
        ensures value { OnOk result (IsOrClones T.is_clone (arc_value self.old) (arc_value self.new)) }
        ensures parted { OnOk result (PartsWays T.is_clone self.old self.new (arc_value self.new)) }
        ensures stayed { IfOk result (λ ended. IfNone ended (StaysAlone self.old self.new (arc_value self.new))) }
        ensures ended { IfOk result (λ ended. IfSome ended (EndsAfterLook self.old)) }
        ensures was_sole { IsSole self.old → OnOk result (IsSameArc self.old self.new) }
        ensures unchanged { OnErr result (IsSameArc self.old self.new) }
        ensures found_others { OnErr result (FindsOthers self.old self.new) }
        ensures memory { IfErr result (λ error. error ≡ Memory) }
        ensures sole_succeeds { IsSole self.old → IsOk result }
    {
        if self.seize() {
            return Ok(None);
        }
        let value = self.get().clone()?;
        match Arc::try_new_in(alloc, value) {
            Ok(fresh) => {
                let ended = mem::replace(self, fresh).end();
                self.seize();
                Ok(Some(ended))
            }
            Err((value, error)) => {
                drop(value);
                Err(error)
            }
        }
    }

    /// The value to be changed, by a handle that is the only one from then on.
    ///
    /// Where the word read isn't one strong and one weak, the value is cloned into a new block and the old
    /// handle ends; a value that its end gave is dropped. A refusal leaves the handle and its value as they
    /// were.
    pub fn make_mut(&mut self, alloc: Global) -> Result<&mut T, AllocationError>
        ensures* writes_back { sem 𝓛 (arc_lends_alone T.row self.entry T.is_clone result) }
        ensures value { IfOk result (λ r. IsOrClones T.is_clone (arc_value self.old) r.now) }
        ensures sole { IsSole self.old → IfOk result (λ r. r.now ≡ arc_value self.old) }
        ensures sole_succeeds { IsSole self.old → IsOk result }
        ensures memory { IfErr result (λ error. error ≡ Memory) }
    {
        let ended = self.part_ways(alloc)?;
        drop(ended);
        Ok(self.share.show_mut())
    }
}

/// Ends the handle as `end` does, and lets the value go where it comes.
impl<T: Drop> Drop for Arc<T> {
    fn drop(self) {
        if let Ok(value) = self.end() {
            drop(value);
        }
    }
}
