//! The row and its calls.
ghost use Rattle.std.specs.Prelude.{◌≡◌, ◌+◌, ◌<◌, ◌≤◌, ◌^◌, true, length, IfOk, IfErr, IfSome, IfNone};
ghost use mathlib.Core.List.{IsPrefix};
ghost use Rattle.stabby_tables.specs.Lists.{has, IsDistinct};

use crate::base::Base;
use crate::pass::RowPass;
use crate::plays::{Cut, Glue, Learn};
use stabby_layout::AllocationError;
use std::alloc::Global;

/// A registry of tables of words, kept in a row of atomic words.
///
/// A table of `len` words takes `2 + len` words of the row.
#[derive(Drop)]
pub struct WordRow {
    pub(crate) base: Base<Global>,
    pub(crate) words: u64,
    ghost sized: { (base.shared.table_id.words ≡ words + 2) × (words ≤ 2 ^ 28) },
}

/// The row has no room for a table. Nothing was added, and words that the call claimed stay claimed.
#[derive(Clone, Copy, Debug, PartialEq, Eq)]
pub struct RowFull {
    /// How many words of the row are claimed, as the claim of this call found, or as an earlier claim of this pass, or
    /// of one split or joined with it, found or left. 0 where the row has fewer words in all than are needed.
    pub claimed: u64,
    /// How many words the table needs: 2, and its length.
    pub needed: u64,
}

impl WordRow {
    ghost use Rattle.stabby_row.specs.Passes.{words_of, IsPassOf, IsOpening, SplitOff, Joined};
    ghost use Rattle.stabby_row.specs.Passes.{front_of, weight_of, walked_of, ends_of, IsNumber};
    ghost use Rattle.stabby_row.specs.Passes.{MadeNoClaim, ClaimsAtMostOnce, IsRowFull};

    /// A row of this many words with no table in it, and its whole pass. It takes twice the row's memory while it is
    /// made.
    ///
    /// # Errors
    /// `Memory`, where the row finds none.
    pub fn new(alloc: Global, words: u64) -> Result<(WordRow, RowPass), AllocationError>
        requires { (1 ≤ words) × (words ≤ 2 ^ 28) }
        ensures ok { IfOk result (λ made. IsOpening words made.0 made.1) }
        ensures memory { IfErr result (λ error. error ≡ AllocationError.Memory) }
    {
        let zeros = vec![in alloc; 0u64; (words + 2) as usize]?;
        let (base, seat) = Base::of_words(alloc, zeros.as_slice(), &words)?;
        let pass = RowPass {
            seat,
            seen: 0,
            walked: 0,
            weight: 1 << 32,
            left: 0,
        };
        Ok((WordRow { base, words }, pass))
    }

    /// How many words the row has.
    pub fn words(&self) -> u64
        ensures words { result ≡ words_of self.now }
        ensures limit { result ≤ 2 ^ 28 }
    {
        self.words
    }

    /// Cuts this weight off the pass, for a further caller with the same front.
    pub fn split(&self, pass: &mut RowPass, weight: u64) -> RowPass
        requires own { IsPassOf self.now pass.old }
        requires light { (1 ≤ weight) × (weight < weight_of pass.old) }
        ensures pass { IsPassOf self.now pass.new }
        ensures new_pass { IsPassOf self.now result }
        ensures split { SplitOff pass.old pass.new result weight }
    {
        self.note(&mut pass.seat, weight);
        let seat = self.base.shared.split_seat::<Cut>(&mut pass.seat);
        pass.weight -= weight;
        RowPass {
            seat,
            seen: pass.seen,
            walked: 0,
            weight,
            left: pass.left,
        }
    }

    /// Puts the other pass into this one. Both fronts are prefixes of the new one.
    pub fn join(&self, pass: &mut RowPass, other: RowPass)
        requires own { IsPassOf self.now pass.old }
        requires other { IsPassOf self.now other }
        ensures pass { IsPassOf self.now pass.new }
        ensures joined { Joined pass.old other pass.new }
        ensures first { IsPrefix (front_of pass.old) (front_of pass.new) }
        ensures second { IsPrefix (front_of other) (front_of pass.new) }
        ensures distinct { IsDistinct (front_of pass.new) }
    {
        let RowPass {
            seat,
            seen,
            walked,
            weight,
            left,
        } = other;
        self.base.shared.join_seat::<Glue>(&mut pass.seat, seat);
        self.base.shared.load::<Learn>(&mut pass.seat, 0);
        pass.seen = pass.seen.max(seen);
        pass.walked = pass.walked.saturating_add(walked);
        pass.weight += weight;
        pass.left = pass.left.max(left);
    }

    /// The number of this table. An absent one is added at the end of the row's list.
    ///
    /// It takes no memory, claims words at most once, and never for a table that this pass has seen. It returns
    /// whatever other threads do.
    ///
    /// # Errors
    /// `RowFull`, where the table is absent and the row has too few words left for it.
    pub fn insert_row(&self, pass: &mut RowPass, table: &[u64]) -> Result<u64, RowFull>
        requires { IsPassOf self.now pass.old }
        ensures pass { IsPassOf self.now pass.new }
        ensures weight { weight_of pass.new ≡ weight_of pass.old }
        ensures front { IsPrefix (front_of pass.old) (front_of pass.new) }
        ensures distinct { IsDistinct (front_of pass.new) }
        ensures number { IfOk result (IsNumber (front_of pass.new) table.now) }
        ensures walked { IfOk result (λ n. walked_of pass.new ≤ walked_of pass.old + (n + 1)) }
        ensures claims { ClaimsAtMostOnce pass.old pass.new table.now }
        ensures known { has (front_of pass.old) table.now ≡ true → MadeNoClaim pass.old pass.new }
        ensures full { IfErr result (IsRowFull (words_of self.now) pass.old pass.new table.now) }
    {
        let outcome = self.insert_at(&mut pass.seat, pass.seen, pass.left, table);
        pass.seen = outcome.seen;
        pass.left = outcome.left;
        pass.walked = pass.walked.saturating_add(outcome.n + 1);
        outcome.answer
    }

    /// The words of the table of this number, or `None` where the row has no table of it yet.
    ///
    /// It walks to that table or to the end, and claims nothing.
    ///
    /// # Errors
    /// `Memory`, where the copy finds none.
    pub fn entry(
        &self,
        alloc: Global,
        pass: &mut RowPass,
        number: u64,
    ) -> Result<Option<Vec<u64>>, AllocationError>
        requires { IsPassOf self.now pass.old }
        ensures pass { IsPassOf self.now pass.new }
        ensures weight { weight_of pass.new ≡ weight_of pass.old }
        ensures front { IsPrefix (front_of pass.old) (front_of pass.new) }
        ensures distinct { IsDistinct (front_of pass.new) }
        ensures walked { walked_of pass.new ≤ walked_of pass.old + (number + 1) }
        ensures no_claim { MadeNoClaim pass.old pass.new }
        ensures table { IfOk result (λ found. IfSome found (λ t. IsNumber (front_of pass.new) t.items number)) }
        ensures none { IfOk result (λ found. IfNone found (length (front_of pass.new) ≤ number)) }
        ensures end { IfOk result (λ found. IfNone found (ends_of pass.old < ends_of pass.new)) }
        ensures memory { IfErr result (λ error. error ≡ AllocationError.Memory) }
    {
        let stop = self.walk_to(&mut pass.seat, pass.seen, number);
        pass.seen = stop.seen;
        pass.walked = pass.walked.saturating_add(stop.n + 1);
        if !stop.found {
            return Ok(None);
        }
        let table = self.read_table(alloc, &mut pass.seat, stop.n, stop.at)?;
        Ok(Some(table))
    }
}
