//! One shape for all calls that raise a count: a look, an exchange that expects the word which was read last, and a split.
ghost use Rattle.std.specs.Prelude.{◌≡◌, ◌<◌, IsTrue, IfOk, IfErr, OnOk, false};
ghost use Rattle.stabby_count_word.specs.Changes.{kind_after, kind_before};
ghost use Rattle.stabby_count_word.specs.Steps.{KindBy};
ghost use Rattle.stabby_count.specs.Raising.{HasRoom, HasTwo, IsOfSame, LacksRoom, MayBegin, MayRaise, Parted, Raised, RaisedAfterLooks, Refused, RefusedAfterLooks, RefusedFrom, Stays, change_by, view_by};
ghost use Rattle.stabby_count.specs.Tells.{Reads, ToldWhere};

use crate::fault::TryCountFault;
use crate::view::View;
use crate::word::{COUNT_LIMIT, ONE_STRONG, ONE_WEAK};
use crate::word_steps::{
    Clone as CloneStep, Downgrade, GiveStrong, GiveWeak, Look, SharedCounts, Upgrade, WeakClone,
};
use stabby_count_word::Share;
use std::alloc::Global;
use std::mem;
use std::sync::Wait;

/// A call that raises a count.
#[derive(Clone, Copy)]
pub(crate) enum Raise {
    /// One more strong handle, made from a strong one.
    Clone,
    /// One more weak handle, made from a strong one.
    Downgrade,
    /// One more weak handle, made from a weak one.
    WeakClone,
    /// One more strong handle, made from a weak one.
    Upgrade,
}

// Whether a word has room for one handle more.
fn has_room(raise: Raise, word: u64) -> bool
    ensures room { IsTrue result → HasRoom raise word }
    ensures no_room { result ≡ false → LacksRoom raise word }
{
    let strong = word / ONE_STRONG;
    match raise {
        Raise::Clone => strong != COUNT_LIMIT,
        Raise::Downgrade | Raise::WeakClone => word % ONE_STRONG != COUNT_LIMIT,
        Raise::Upgrade => strong != 0 && strong != COUNT_LIMIT,
    }
}

fn exchange<T>(share: &mut Share<T, Global, View, SharedCounts>, raise: Raise, old: u64) -> u64
    requires room { HasRoom raise old }
    requires view { MayRaise raise share.old.view × Reads share.old.view old }
    requires kind { share.old.kind ≡ kind_before (change_by raise) }
    ensures same { IsOfSame share.old share.new }
    ensures view { ToldWhere (view_by raise) old old share.old.view result share.new.view }
    ensures kind { KindBy result old (kind_after (change_by raise)) (kind_before (change_by raise)) share.new.kind }
{
    match raise {
        Raise::Clone => share.exchange::<CloneStep>(old, old + ONE_STRONG),
        Raise::Downgrade => share.exchange::<Downgrade>(old, old + ONE_WEAK),
        Raise::WeakClone => share.exchange::<WeakClone>(old, old + ONE_WEAK),
        Raise::Upgrade => share.exchange::<Upgrade>(old, old + ONE_STRONG),
    }
}

// Cuts a share whose count was raised in two: the new handle's is the answer.
fn cut<T>(
    share: &mut Share<T, Global, View, SharedCounts>,
    raise: Raise,
) -> Share<T, Global, View, SharedCounts>
    requires view { HasTwo raise share.old.view }
    requires kind { share.old.kind ≡ kind_after (change_by raise) }
    ensures same { IsOfSame share.old share.new }
    ensures parted { Parted raise share.old.view share.new result }
{
    match raise {
        Raise::Clone => share.split::<GiveStrong>(),
        Raise::Downgrade | Raise::WeakClone => share.split::<GiveWeak>(),
        Raise::Upgrade => {
            let weak = share.split::<GiveWeak>();
            mem::replace(share, weak)
        }
    }
}

// One exchange, which expects the word `found` that the share read last. Where it gives no share, it answers the word
// that it read, or `found`, which has no room.
fn raise_from<T>(
    share: &mut Share<T, Global, View, SharedCounts>,
    raise: Raise,
    found: u64,
) -> Result<Share<T, Global, View, SharedCounts>, u64>
    requires view { MayRaise raise share.old.view × Reads share.old.view found }
    requires kind { share.old.kind ≡ kind_before (change_by raise) }
    ensures same { IsOfSame share.old share.new }
    ensures room { OnOk result (HasRoom raise found) }
    ensures parted { IfOk result (Parted raise (view_by raise share.old.view found) share.new) }
    ensures refused { IfErr result (RefusedFrom raise found share.old.view share.new.view) }
    ensures kept { IfErr result (λ word. share.new.kind ≡ kind_before (change_by raise)) }
{
    if !has_room(raise, found) {
        return Err(found);
    }
    let second = exchange(share, raise, found);
    if second == found {
        Ok(cut(share, raise))
    } else {
        Err(second)
    }
}

/// A look, and one exchange that expects the word that it read. `Full` has a word without room, which for an upgrade
/// may have no strong handle.
pub(crate) fn try_raise<T>(
    share: &mut Share<T, Global, View, SharedCounts>,
    raise: Raise,
) -> Result<Share<T, Global, View, SharedCounts>, TryCountFault>
    requires view { MayRaise raise share.old.view }
    requires kind { MayBegin raise share.old.kind }
    ensures same { IsOfSame share.old share.new }
    ensures raised { IfOk result (Raised raise share.old.view share.new) }
    ensures refused { IfErr result (Refused raise share.old.view share.new.view) }
    ensures kept { IfErr result (λ fault. Stays raise share.old.view share.new) }
{
    let found = share.give_back::<Look>();
    match raise_from(share, raise, found) {
        Ok(other) => Ok(other),
        Err(word) => {
            if word == found {
                Err(TryCountFault::Full { word })
            } else {
                Err(TryCountFault::Moved {
                    first: found,
                    second: word,
                })
            }
        }
    }
}

#[tactic(auto, using(crate::proofs::Looks::looks_first))]
/// A look, and exchanges until one reads the word that it expects, or a word without room: each expects the word
/// that the last step read. The word without room is the refusal.
pub(crate) fn wait_to_raise<T, H: Wait>(
    rt: &H,
    share: &mut Share<T, Global, View, SharedCounts>,
    raise: Raise,
) -> Result<Share<T, Global, View, SharedCounts>, u64>
    requires view { MayRaise raise share.old.view }
    requires kind { MayBegin raise share.old.kind }
    ensures same { IsOfSame share.old share.new }
    ensures raised { IfOk result (RaisedAfterLooks raise share.old.view share.new) }
    ensures refused { IfErr result (RefusedAfterLooks raise share.old.view share.new.view) }
    ensures sole { 0 < share.old.view.sole → IfOk result (Raised raise share.old.view share.new) }
    ensures kept { IfErr result (λ word. Stays raise share.old.view share.new) }
{
    let mut found = share.give_back::<Look>();
    for _ in rt.forever() {
        match raise_from(share, raise, found) {
            Ok(other) => return Ok(other),
            Err(word) => {
                if word == found {
                    return Err(word);
                }
                found = word;
            }
        }
    }
    unreachable!()
}
