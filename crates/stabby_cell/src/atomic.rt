//! A shared value that threads replace.
ghost use Rattle.std.specs.Prelude.{◌≡◌, ◌≤◌, ◌<◌, ◌-◌, ◌^◌, [], ◌∷◌, List, Option, IfOk, IfErr, OnOk, OnErr};
ghost use mathlib.Core.List.{IsPrefix};

use crate::cell::TurnCell;
use crate::chronicle::Chronicle;
use crate::fault::CellFault;
use crate::kept_value::kept_at;
use crate::pass::Pass;
use crate::turn::Busy;
use stabby_layout::AllocationError;
use std::alloc::Global;
use std::sync::{Arc, Wait};

/// What its caller has seen of an [`AtomicArc`].
pub type ArcPass<T> = Pass<Option<Arc<T, Global>>>;

/// A shared value, or none, that threads replace. The entry of a commit is the new value.
#[derive(Drop)]
pub struct AtomicArc<T> {
    pub(crate) cell: TurnCell<Option<Arc<T, Global>>>,
    alloc: Global,
}

/// Why a stamp isn't the one expected.
#[derive(Drop)]
pub enum IsFault<T> {
    /// The stamp isn't the one expected.
    Differs {
        /// The stamp expected.
        expected: u64,
        /// The stamp.
        stamp: u64,
        /// The value.
        current: Option<Arc<T, Global>>,
    },
    /// It isn't the one expected, and there is no further handle of the value.
    Memory,
}

/// Why an exchange was refused; the new value comes back.
#[derive(Drop)]
pub enum ExchangeFault<T> {
    /// The stamp isn't the one expected.
    Differs {
        /// The stamp expected.
        expected: u64,
        /// The stamp.
        stamp: u64,
        /// The value.
        current: Option<Arc<T, Global>>,
        /// The new value.
        refused: Option<Arc<T, Global>>,
    },
    /// There is no stamp after this one.
    Full {
        /// The new value.
        refused: Option<Arc<T, Global>>,
    },
    /// A further handle is needed and there is none: of the value where the stamp isn't the one expected, or of the old
    /// value where the cell keeps more than one.
    Memory {
        /// The new value.
        refused: Option<Arc<T, Global>>,
    },
}

/// What a cell answers for the stamp of an older value.
#[derive(Drop)]
pub enum Kept<T> {
    /// The value of that stamp.
    Version(Option<Arc<T, Global>>),
    /// The stamp isn't kept: it is below the oldest that is, or past the newest.
    NotKept {
        /// The oldest stamp that is kept.
        oldest: u64,
        /// The newest.
        stamp: u64,
    },
}

impl<T: Drop> AtomicArc<T> {
    ghost use Rattle.stabby_cell.specs.Telling.{noted};
    ghost use Rattle.stabby_cell.specs.declared.view.StepKind.TheVariants.{Look};
    ghost use Rattle.stabby_cell.specs.Passes.{IsWhole, Advances, Looked, Committed, SplitOff, Joined, front_of, stamp_of, weight_of, lost_of, commits_of, record_of};
    ghost use Rattle.stabby_cell.specs.Reads.{IsReadFault};
    ghost use Rattle.stabby_cell.specs.Values.{value_of};
    ghost use Rattle.stabby_cell.specs.Shared.{IsPassOf, keep_of, first_value_of, value_at, AnswersAt, Exchanges, IsNot, NotExchanged};

    /// A cell with this value at stamp 0, and its whole pass.
    ///
    /// # Errors
    ///
    /// `AllocationError::Memory` with the value back, where there is no memory for the cell.
    pub fn new(
        alloc: Global,
        value: Option<Arc<T, Global>>,
    ) -> Result<(AtomicArc<T>, ArcPass<T>), (Option<Arc<T, Global>>, AllocationError)>
        ensures value { IfOk result (λ made. first_value_of made.0 ≡ value_of value) }
        ensures pass { IfOk result (λ made. IsPassOf made.0 made.1) }
        ensures whole { IfOk result (λ made. IsWhole made.1) }
        ensures front { IfOk result (λ made. front_of made.1 ≡ []) }
        ensures stamp { IfOk result (λ made. stamp_of made.1 ≡ 0) }
        ensures keep { IfOk result (λ made. keep_of made.0 ≡ 1) }
        ensures lost { IfOk result (λ made. lost_of made.1 ≡ 0) }
        ensures commits { IfOk result (λ made. commits_of made.1 ≡ []) }
        ensures steps { IfOk result (λ made. record_of made.1 ≡ []) }
        ensures memory { IfErr result (λ refusal. refusal.1 ≡ AllocationError.Memory) }
        ensures value_back { IfErr result (λ refusal. refusal.0 ≡ value) }
    {
        AtomicArc::new_at(alloc, value, 0)
    }

    /// `new` at this first stamp.
    ///
    /// # Errors
    ///
    /// `AllocationError::Memory` with the value back, where there is no memory for the cell.
    pub fn new_at(
        alloc: Global,
        value: Option<Arc<T, Global>>,
        stamp: u64,
    ) -> Result<(AtomicArc<T>, ArcPass<T>), (Option<Arc<T, Global>>, AllocationError)>
        requires { stamp ≤ 2 ^ 63 - 1 }
        ensures value { IfOk result (λ made. first_value_of made.0 ≡ value_of value) }
        ensures pass { IfOk result (λ made. IsPassOf made.0 made.1) }
        ensures whole { IfOk result (λ made. IsWhole made.1) }
        ensures front { IfOk result (λ made. front_of made.1 ≡ []) }
        ensures stamp { IfOk result (λ made. stamp_of made.1 ≡ stamp) }
        ensures keep { IfOk result (λ made. keep_of made.0 ≡ 1) }
        ensures lost { IfOk result (λ made. lost_of made.1 ≡ 0) }
        ensures commits { IfOk result (λ made. commits_of made.1 ≡ []) }
        ensures steps { IfOk result (λ made. record_of made.1 ≡ []) }
        ensures memory { IfErr result (λ refusal. refusal.1 ≡ AllocationError.Memory) }
        ensures value_back { IfErr result (λ refusal. refusal.0 ≡ value) }
    {
        match TurnCell::new(alloc, value, stamp) {
            Ok((cell, pass)) => Ok((AtomicArc { cell, alloc }, pass)),
            Err(refused) => Err(refused),
        }
    }

    /// `new`, and the cell keeps its last `keep` values. It takes the room for all of them.
    ///
    /// # Errors
    ///
    /// `AllocationError::Memory` with the value back, where there is no memory for the cell.
    pub fn new_keeping(
        alloc: Global,
        value: Option<Arc<T, Global>>,
        keep: usize,
    ) -> Result<(AtomicArc<T>, ArcPass<T>), (Option<Arc<T, Global>>, AllocationError)>
        requires { (1 ≤ keep) × (keep ≤ 1024) }
        ensures value { IfOk result (λ made. first_value_of made.0 ≡ value_of value) }
        ensures pass { IfOk result (λ made. IsPassOf made.0 made.1) }
        ensures whole { IfOk result (λ made. IsWhole made.1) }
        ensures front { IfOk result (λ made. front_of made.1 ≡ []) }
        ensures stamp { IfOk result (λ made. stamp_of made.1 ≡ 0) }
        ensures keep { IfOk result (λ made. keep_of made.0 ≡ keep) }
        ensures lost { IfOk result (λ made. lost_of made.1 ≡ 0) }
        ensures commits { IfOk result (λ made. commits_of made.1 ≡ []) }
        ensures steps { IfOk result (λ made. record_of made.1 ≡ []) }
        ensures memory { IfErr result (λ refusal. refusal.1 ≡ AllocationError.Memory) }
        ensures value_back { IfErr result (λ refusal. refusal.0 ≡ value) }
    {
        match TurnCell::new_keeping(alloc, value, 0, keep) {
            Ok((cell, pass)) => Ok((AtomicArc { cell, alloc }, pass)),
            Err(refused) => Err(refused),
        }
    }

    /// Cuts this weight off the pass, for a further pass with the same front.
    pub fn split(&self, pass: &mut ArcPass<T>, weight: u64) -> ArcPass<T>
        requires own { IsPassOf self.now pass.old }
        requires light { (0 < weight) × (weight < weight_of pass.old) }
        ensures pass { IsPassOf self.now pass.new }
        ensures new_pass { IsPassOf self.now result }
        ensures split { SplitOff pass.old pass.new result weight }
    {
        self.cell.split(pass, weight)
    }

    /// Puts the other pass into this one, and looks. Both fronts are prefixes of the new one.
    pub fn join(&self, pass: &mut ArcPass<T>, other: ArcPass<T>)
        requires own { IsPassOf self.now pass.old }
        requires other { IsPassOf self.now other }
        ensures pass { IsPassOf self.now pass.new }
        ensures joined { Joined pass.old other pass.new }
        ensures first { IsPrefix (front_of pass.old) (front_of pass.new) }
        ensures second { IsPrefix (front_of other) (front_of pass.new) }
    {
        self.cell.join(pass, other)
    }

    /// Reads the stamp, and brings the front of the pass up to it.
    pub fn look(&self, pass: &mut ArcPass<T>) -> u64
        requires { IsPassOf self.now pass.old }
        ensures pass { IsPassOf self.now pass.new }
        ensures stamp { result ≡ stamp_of pass.new }
        ensures looked { Advances pass.old pass.new (noted Look result ∷ []) }
    {
        self.cell.look(pass)
    }

    /// A handle of the value at the end of the front after, and its stamp.
    ///
    /// # Errors
    ///
    /// `AllocationError::Memory` where there is no further handle.
    pub fn load<H: Wait>(
        &self,
        rt: &H,
        pass: &mut ArcPass<T>,
    ) -> Result<(Option<Arc<T, Global>>, u64), AllocationError>
        requires { IsPassOf self.now pass.old }
        ensures pass { IsPassOf self.now pass.new }
        ensures looked { Looked pass.old pass.new }
        ensures value { IfOk result (λ r. value_of r.0 ≡ value_at self.now (front_of pass.new)) }
        ensures stamp { IfOk result (λ r. r.1 ≡ stamp_of pass.new) }
        ensures memory { IfErr result (λ error. error ≡ AllocationError.Memory) }
    {
        let turn = self.cell.take(rt, pass);
        let copied = turn.version().copy(self.alloc);
        turn.release();
        Ok((copied?, pass.seen()))
    }

    /// `load` by one try at the turn.
    ///
    /// # Errors
    ///
    /// `Busy` only where another pass held the turn: `lost` rose by one, the front stays; never for a whole pass.
    /// `Memory` where there is no further handle.
    pub fn try_load(
        &self,
        pass: &mut ArcPass<T>,
    ) -> Result<(Option<Arc<T, Global>>, u64), CellFault>
        requires { IsPassOf self.now pass.old }
        ensures pass { IsPassOf self.now pass.new }
        ensures looked { OnOk result (Looked pass.old pass.new) }
        ensures value { IfOk result (λ r. value_of r.0 ≡ value_at self.now (front_of pass.new)) }
        ensures stamp { IfOk result (λ r. r.1 ≡ stamp_of pass.new) }
        ensures fault { IfErr result (IsReadFault pass.old pass.new) }
    {
        match pass.try_take(&self.cell) {
            Err(Busy) => Err(CellFault::Busy),
            Ok(turn) => {
                let copy = turn.version().copy(self.alloc);
                let stamp = turn.stamp();
                turn.release();
                match copy {
                    Ok(value) => Ok((value, stamp)),
                    Err(_) => Err(CellFault::Memory),
                }
            }
        }
    }

    /// A handle of the value of that stamp. Where it isn't kept, the ends of the kept stamps at the front after.
    ///
    /// # Errors
    ///
    /// `AllocationError::Memory` where there is no further handle.
    pub fn load_at<H: Wait>(
        &self,
        rt: &H,
        pass: &mut ArcPass<T>,
        stamp: u64,
    ) -> Result<Kept<T>, AllocationError>
        requires { IsPassOf self.now pass.old }
        ensures pass { IsPassOf self.now pass.new }
        ensures looked { Looked pass.old pass.new }
        ensures answer { IfOk result (AnswersAt self.now pass.new stamp) }
        ensures memory { IfErr result (λ error. error ≡ AllocationError.Memory) }
    {
        let turn = self.cell.take(rt, pass);
        let answer = kept_at(&turn, stamp, self.alloc);
        turn.release();
        answer
    }

    /// Puts this value in the place of the old one, and answers the new stamp. The value that is no longer kept is let go.
    ///
    /// # Errors
    ///
    /// The value back, exactly where the stamp is 2^63 - 1.
    pub fn store<H: Wait>(
        &self,
        rt: &H,
        pass: &mut ArcPass<T>,
        value: Option<Arc<T, Global>>,
    ) -> Result<u64, Option<Arc<T, Global>>>
        requires { IsPassOf self.now pass.old }
        ensures pass { IsPassOf self.now pass.new }
        ensures committed { OnOk result ((before : List (Option T)) × Committed pass.old pass.new before (value_of value)) }
        ensures stamp { IfOk result (λ n. n ≡ stamp_of pass.new) }
        ensures full { OnErr result (stamp_of pass.new ≡ 2 ^ 63 - 1) }
        ensures looked { OnErr result (Looked pass.old pass.new) }
        ensures value_back { IfErr result (λ back. back ≡ value) }
    {
        let committed = self.cell.take(rt, pass).commit(value);
        match committed {
            Ok(_) => Ok(pass.seen()),
            Err(back) => Err(back),
        }
    }

    /// Whether the stamp is the one expected.
    ///
    /// # Errors
    ///
    /// `Differs` exactly where it isn't, with the value; `Memory` in its place where there is no further handle.
    pub fn is<H: Wait>(
        &self,
        rt: &H,
        pass: &mut ArcPass<T>,
        expected: u64,
    ) -> Result<(), IsFault<T>>
        requires { IsPassOf self.now pass.old }
        ensures pass { IsPassOf self.now pass.new }
        ensures looked { Looked pass.old pass.new }
        ensures same { OnOk result (stamp_of pass.new ≡ expected) }
        ensures fault { IfErr result (IsNot self.now pass.new expected) }
    {
        let turn = self.cell.take(rt, pass);
        let stamp = turn.stamp();
        if stamp == expected {
            return Ok(());
        }
        match turn.version().copy(self.alloc) {
            Ok(current) => Err(IsFault::Differs {
                expected,
                stamp,
                current,
            }),
            Err(_) => Err(IsFault::Memory),
        }
    }

    /// Puts this value in the place of the old one where the stamp is the one expected, and answers the old one.
    ///
    /// # Errors
    ///
    /// `Differs` exactly where the stamp isn't the one expected; then `Full` exactly where it is 2^63 - 1. Where there is no
    /// further handle, `Memory` in place of `Differs`, or, where the cell keeps more than one value, in place of `Ok` with
    /// nothing committed. The new value comes back.
    pub fn compare_exchange<H: Wait>(
        &self,
        rt: &H,
        pass: &mut ArcPass<T>,
        expected: u64,
        new: Option<Arc<T, Global>>,
    ) -> Result<Option<Arc<T, Global>>, ExchangeFault<T>>
        requires { IsPassOf self.now pass.old }
        ensures pass { IsPassOf self.now pass.new }
        ensures exchanged { IfOk result (Exchanges self.now pass.old pass.new expected new) }
        ensures looked { OnErr result (Looked pass.old pass.new) }
        ensures fault { IfErr result (NotExchanged self.now pass.new expected new) }
    {
        let turn = self.cell.take(rt, pass);
        let stamp = turn.stamp();
        if stamp != expected {
            return match turn.version().copy(self.alloc) {
                Ok(current) => Err(ExchangeFault::Differs {
                    expected,
                    stamp,
                    current,
                    refused: new,
                }),
                Err(_) => Err(ExchangeFault::Memory { refused: new }),
            };
        }
        if stamp == (1 << 63) - 1 {
            return Err(ExchangeFault::Full { refused: new });
        }
        if self.cell.keep() == 1 {
            return match turn.commit(new) {
                Ok(gone) => Ok(gone.unwrap()),
                Err(refused) => Err(ExchangeFault::Full { refused }),
            };
        }
        match turn.version().copy(self.alloc) {
            Err(_) => Err(ExchangeFault::Memory { refused: new }),
            Ok(old) => match turn.commit(new) {
                Ok(_) => Ok(old),
                Err(refused) => Err(ExchangeFault::Full { refused }),
            },
        }
    }
}
