//! Weak handles.
ghost use Rattle.std.specs.Prelude.{◌≡◌};
ghost use Rattle.stabby_count_word.specs.Kinds.{one_weak};

use crate::fault::{CountFault, TryCountFault};
use crate::raise::{Raise, try_raise, wait_to_raise};
use crate::spent::{Spent, leave};
use crate::strong::Arc;
use crate::view::View;
use crate::word::ONE_STRONG;
use crate::word_steps::{EndWeak, Glance, SharedCounts};
use stabby_count_word::Share;
use std::alloc::Global;
use std::sync::Wait;

/// A weak handle of a shared value: it can be upgraded while a strong handle is there.
pub struct Weak<T> {
    pub(crate) share: Share<T, Global, View, SharedCounts>,
    ghost one_share: { (share.kind ≡ one_weak) × (share.view.strong ≡ 0) × (share.view.weak ≡ 1) × (share.view.sole ≡ 0) },
}

impl<T> Weak<T> {
    ghost use Rattle.std.specs.Prelude.{◌≡◌, ◌<◌, ◌++◌, ◌∷◌, [], IsTrue, IfOk, IfErr, IfSome, IfNone, OnOk, OnSome, false};
    ghost use Rattle.stabby_count.specs.Shared.{arc_value, arc_block, arc_record, weak_value, weak_block, weak_record, spent_block, spent_record, spent_word, IsShared, IsSameWeak};
    ghost use Rattle.stabby_count.specs.Records.{Raises, RaisesAfterLooks, Refuses, RefusesTry, Upgrades, UpgradesAfterLooks, FindsNone, FindsNoneAfterLooks, note, strong_of, weak_of};
    ghost use Rattle.stabby_count.specs.declared.machine.Step.TheVariants.{Downgrade as DowngradeNote, EndWeak as EndNote};

    // One load, which is a look where it finds no strong handle.
    fn finds_none(&mut self) -> bool
        ensures none { IsTrue result → FindsNone (weak_record self.old) (weak_record self.new) }
        ensures some { result ≡ false → weak_record self.new ≡ weak_record self.old }
        ensures kept { IsSameWeak self.old self.new }
    {
        self.share.look::<Glance>() / ONE_STRONG == 0
    }

    /// A strong handle of the same value, by one try. It is shared, for another one is there.
    ///
    /// `None` comes only where the word read had no strong handle.
    pub fn try_upgrade(&mut self) -> Result<Option<Arc<T>>, TryCountFault>
        ensures value { IfOk result (λ found. IfSome found (λ strong. arc_value strong ≡ weak_value self.old)) }
        ensures block { IfOk result (λ found. IfSome found (λ strong. arc_block strong ≡ weak_block self.old)) }
        ensures added { IfOk result (λ found. OnSome found (Upgrades (weak_record self.old) (weak_record self.new))) }
        ensures copied { IfOk result (λ found. IfSome found (λ strong. arc_record strong ≡ weak_record self.new)) }
        ensures shares { IfOk result (λ found. IfSome found IsShared) }
        ensures none { IfOk result (λ found. IfNone found (FindsNone (weak_record self.old) (weak_record self.new))) }
        ensures fault { IfErr result (RefusesTry strong_of (weak_record self.old) (weak_record self.new)) }
        ensures kept { IsSameWeak self.old self.new }
    {
        if self.finds_none() {
            return Ok(None);
        }
        match try_raise(&mut self.share, Raise::Upgrade) {
            Ok(share) => Ok(Some(Arc { share })),
            Err(TryCountFault::Moved { first, second }) => {
                Err(TryCountFault::Moved { first, second })
            }
            Err(TryCountFault::Full { word }) => {
                if word / ONE_STRONG == 0 {
                    Ok(None)
                } else {
                    Err(TryCountFault::Full { word })
                }
            }
            Err(TryCountFault::Memory) => Err(TryCountFault::Memory),
        }
    }

    /// A strong handle of the same value. It tries again where another handle was in the way.
    ///
    /// `None` comes only where the word read had no strong handle.
    pub fn upgrade<H: Wait>(&mut self, rt: &H) -> Result<Option<Arc<T>>, CountFault>
        ensures value { IfOk result (λ found. IfSome found (λ strong. arc_value strong ≡ weak_value self.old)) }
        ensures block { IfOk result (λ found. IfSome found (λ strong. arc_block strong ≡ weak_block self.old)) }
        ensures added { IfOk result (λ found. OnSome found (UpgradesAfterLooks (weak_record self.old) (weak_record self.new))) }
        ensures copied { IfOk result (λ found. IfSome found (λ strong. arc_record strong ≡ weak_record self.new)) }
        ensures shares { IfOk result (λ found. IfSome found IsShared) }
        ensures none { IfOk result (λ found. IfNone found (FindsNoneAfterLooks (weak_record self.old) (weak_record self.new))) }
        ensures fault { IfErr result (Refuses strong_of (weak_record self.old) (weak_record self.new)) }
        ensures kept { IsSameWeak self.old self.new }
    {
        if self.finds_none() {
            return Ok(None);
        }
        match wait_to_raise(rt, &mut self.share, Raise::Upgrade) {
            Ok(share) => Ok(Some(Arc { share })),
            Err(word) => {
                if word / ONE_STRONG == 0 {
                    Ok(None)
                } else {
                    Err(CountFault::Full { word })
                }
            }
        }
    }

    /// One more weak handle of the same value. It tries again where another handle was in the way.
    pub fn clone<H: Wait>(&mut self, rt: &H) -> Result<Weak<T>, CountFault>
        ensures value { IfOk result (λ other. weak_value other ≡ weak_value self.old) }
        ensures block { IfOk result (λ other. weak_block other ≡ weak_block self.old) }
        ensures added { OnOk result (RaisesAfterLooks DowngradeNote weak_of (weak_record self.old) (weak_record self.new)) }
        ensures copied { IfOk result (λ other. weak_record other ≡ weak_record self.new) }
        ensures fault { IfErr result (Refuses weak_of (weak_record self.old) (weak_record self.new)) }
        ensures kept { IsSameWeak self.old self.new }
    {
        match wait_to_raise(rt, &mut self.share, Raise::WeakClone) {
            Ok(share) => Ok(Weak { share }),
            Err(word) => Err(CountFault::Full { word }),
        }
    }

    /// Ends the handle by one step, which released the block exactly where it read the word 1.
    pub fn end(self) -> Spent
        ensures added { spent_record result ≡ weak_record self ++ note EndNote (spent_word result) ∷ [] }
        ensures had_weak { 0 < weak_of (spent_word result) }
        ensures block { spent_block result ≡ weak_block self }
    {
        let Weak { mut share } = self;
        let word = share.end_weak::<EndWeak>();
        let seat = leave(share, word);
        Spent { seat, word }
    }
}

/// Ends the handle as `end` does.
impl<T> Drop for Weak<T> {
    fn drop(self) {
        let _ = self.end();
    }
}
