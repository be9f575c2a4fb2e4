//! Inserting a table by one try.

ghost use Rattle.std.specs.Prelude.{◌≡◌, ◌<◌, ◌-◌, ◌^◌, true, length, List, ℕ, IfOk, IfErr, OnOk};
ghost use mathlib.Core.List.{IsPrefix};
ghost use Rattle.stabby_tables.specs.Lists.{has, IsDistinct};
ghost use Rattle.stabby_cell.specs.Passes.{front_of, Looked, IsWhole, Committed};

use crate::catalog::{Catalog, Found};
use crate::fault::TryFault;
use crate::registry::{TreePass, VtBtree};
use stabby_cell::Busy;
use stabby_word_table::WordTable;
use std::alloc::Global;

impl<const SIZE: usize> VtBtree<SIZE> {
    ghost use Rattle.stabby_registry.specs.Passes.{IsPassOf};
    ghost use Rattle.stabby_registry.specs.Inserts.{IsNumber, InsertsTable, IsTryFault};
    ghost use Rattle.stabby_registry.specs.Tries.{IsOwnFault, HasTriedInsert};
    ghost use Rattle.stabby_registry.specs.Visits.{HasFound};
    ghost use Rattle.stabby_registry.specs.TryVisits.{VisitedOnce, CommittedOnce, IsFindFault, IsOfferFault};
    ghost use Rattle.stabby_registry.specs.Catalog.{AppendsTable, last_table};

    /// `VTableRegistry::insert` by one try: the turn is taken once to look the table up, and once to commit the new version.
    ///
    /// # Errors
    /// `Busy` where another pass held the turn at the last step; `Moved` where another caller inserted between the two
    /// turns; neither comes for a whole pass. `Full` only where the table is absent and the stamp is 2^63 - 1. `Memory`.
    /// Nothing was added by this call.
    pub fn try_insert(
        &self,
        alloc: Global,
        pass: &mut TreePass<SIZE>,
        table: &WordTable,
    ) -> Result<u64, TryFault>
        requires { IsPassOf self.now pass.old }
        ensures pass { IsPassOf self.now pass.new }
        ensures front { IsPrefix (front_of pass.old) (front_of pass.new) }
        ensures number { IfOk result (λ n. IsNumber (front_of pass.new) table.now n) }
        ensures inserts { IfOk result (InsertsTable pass.old pass.new table.now) }
        ensures known { has (front_of pass.old) table.now ≡ true → OnOk result (Looked pass.old pass.new) }
        ensures distinct { OnOk result (IsDistinct (front_of pass.new)) }
        ensures tried { HasTriedInsert pass.old pass.new result }
        ensures refused { IfErr result (IsTryFault pass.old pass.new table.now) }
        ensures whole { IsWhole pass.old → IfErr result IsOwnFault }
    {
        match self.try_find(pass, table)? {
            Found::Known(number) => Ok(number),
            Found::Full => Err(TryFault::Full { front: pass.seen() }),
            Found::Absent(version) => {
                let number = version.len();
                let next = version.with(alloc, table)?;
                self.try_offer(pass, next)?;
                Ok(number)
            }
        }
    }

    // Looks a table up in a copy of the version, which is made by one try at the turn.
    fn try_find(
        &self,
        pass: &mut TreePass<SIZE>,
        table: &WordTable,
    ) -> Result<Found<SIZE>, TryFault>
        requires { IsPassOf self.now pass.old }
        ensures pass { IsPassOf self.now pass.new }
        ensures visited { OnOk result (VisitedOnce pass.old pass.new) }
        ensures distinct { OnOk result (IsDistinct (front_of pass.new)) }
        ensures found { IfOk result (HasFound (front_of pass.new) table.now) }
        ensures refused { IfErr result (IsFindFault pass.old pass.new) }
    {
        match pass.try_take(&self.cell) {
            Err(Busy) => Err(TryFault::Busy),
            Ok(turn) => {
                let version = turn.version().duplicate();
                turn.release();
                match version {
                    Ok(version) => Ok(version.find(table)),
                    Err(_) => Err(TryFault::Memory),
                }
            }
        }
    }

    // Commits by one try the version that was built on the front of the pass, unless another came between.
    fn try_offer(&self, pass: &mut TreePass<SIZE>, next: Catalog<SIZE>) -> Result<(), TryFault>
        requires own { IsPassOf self.now pass.old }
        requires follows { (table : List ℕ) × AppendsTable (front_of pass.old) table next }
        requires room { length (front_of pass.old) < 2 ^ 63 - 1 }
        ensures pass { IsPassOf self.now pass.new }
        ensures committed { OnOk result (Committed pass.old pass.new (front_of pass.old) (last_table next.entry)) }
        ensures committed_once { OnOk result (CommittedOnce pass.old pass.new) }
        ensures refused { IfErr result (IsOfferFault pass.old pass.new) }
    {
        let base = pass.seen();
        match pass.try_take(&self.cell) {
            Err(Busy) => Err(TryFault::Busy),
            Ok(turn) => {
                let seen = turn.stamp();
                if seen != base {
                    return Err(TryFault::Moved { from: base, seen });
                }
                match turn.commit(next) {
                    Ok(_) => Ok(()),
                    Err(_) => unreachable!(),
                }
            }
        }
    }
}
