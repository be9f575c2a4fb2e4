//! Reading a registry's version.

ghost use Rattle.std.specs.Prelude.{◌≡◌, ◌+◌, ◌-◌, ◌*◌, ◌<◌, ◌≤◌, length, IfOk, IfErr, OnOk, OnErr, MatchOption};
ghost use Rattle.stabby_tables.specs.Lists.{IsDistinct, ordered};
ghost use Rattle.stabby_cell.specs.Passes.{front_of, Looked};

use crate::catalog::Catalog;
use crate::registry::{TreePass, VtBtree};
use stabby_cell::{Busy, CellFault};
use stabby_layout::AllocationError;
use stabby_tree::Probe;
use stabby_word_table::{Numbered, WordTable};
use std::alloc::Global;
use std::sync::{Arc, Wait};

impl<const SIZE: usize> VtBtree<SIZE> {
    ghost use Rattle.stabby_registry.specs.Passes.{IsPassOf};
    ghost use Rattle.stabby_registry.specs.Inserts.{IsNumber, IsReadFault};
    ghost use Rattle.stabby_registry.specs.Tries.{HasTriedRead};
    ghost use Rattle.stabby_registry.specs.Counted.{number_in, CountsOnePath};

    /// The registry's list, as of the last step of this call.
    ///
    /// # Errors
    /// `Memory`, where the copy of the version finds none.
    pub fn snapshot<H: Wait>(
        &self,
        rt: &H,
        pass: &mut TreePass<SIZE>,
    ) -> Result<Catalog<SIZE>, AllocationError>
        requires { IsPassOf self.now pass.old }
        ensures pass { IsPassOf self.now pass.new }
        ensures looked { Looked pass.old pass.new }
        ensures list { IfOk result (λ catalog. catalog ≡ front_of pass.new) }
        ensures distinct { IsDistinct (front_of pass.new) }
        ensures memory { IfErr result (λ error. error ≡ AllocationError.Memory) }
    {
        let turn = self.cell.take(rt, pass);
        let catalog = turn.version().duplicate();
        turn.release();
        catalog
    }

    /// `snapshot` by one try at the turn.
    ///
    /// # Errors
    /// `Busy` only where another pass held the turn: `lost` rose by one, the front stays; never for a whole pass.
    /// `Memory`, where the copy of the version finds none.
    #[tactic(auto, using(crate::proofs::Trying::tried_missed))]
    pub fn try_snapshot(&self, pass: &mut TreePass<SIZE>) -> Result<Catalog<SIZE>, CellFault>
        requires { IsPassOf self.now pass.old }
        ensures pass { IsPassOf self.now pass.new }
        ensures looked { OnOk result (Looked pass.old pass.new) }
        ensures list { IfOk result (λ catalog. catalog ≡ front_of pass.new) }
        ensures tried { HasTriedRead pass.old pass.new result }
        ensures refused { IfErr result (IsReadFault pass.old pass.new) }
    {
        match pass.try_take(&self.cell) {
            Err(Busy) => Err(CellFault::Busy),
            Ok(turn) => {
                let copy = turn.version().duplicate();
                turn.release();
                match copy {
                    Ok(catalog) => Ok(catalog),
                    Err(_) => Err(CellFault::Memory),
                }
            }
        }
    }

    /// The number of the probe's table: its place in the front after; `None` exactly where it is absent.
    ///
    /// The probe compares on one path of the version's tree, and without the turn. Its count may be up to 64 times `SIZE - 1`
    /// below `u64::MAX`.
    ///
    /// # Errors
    /// `Memory`, where the copy of the version finds none; then nothing was compared.
    pub fn find_counted<P: Probe<Numbered>, H: Wait>(
        &self,
        rt: &H,
        pass: &mut TreePass<SIZE>,
        probe: &mut P,
    ) -> Result<Option<u64>, AllocationError>
        requires own { IsPassOf self.now pass.old }
        requires room { P.count probe.old + 64 * (SIZE - 1) < 18446744073709551615 }
        ensures pass { IsPassOf self.now pass.new }
        ensures looked { Looked pass.old pass.new }
        ensures found { IfOk result (λ found. found ≡ number_in (front_of pass.new) (P.sought probe.old)) }
        ensures key { P.sought probe.new ≡ P.sought probe.old }
        ensures count { OnOk result (CountsOnePath SIZE (front_of pass.new) (P.count probe.old) (P.count probe.new)) }
        ensures uncounted { OnErr result (P.count probe.new ≡ P.count probe.old) }
        ensures memory { IfErr result (λ error. error ≡ AllocationError.Memory) }
    {
        let version = self.snapshot(rt, pass)?;
        Ok(version.number_counted(probe))
    }

    /// The table with this number; `None` exactly where the number isn't below the length of the list.
    ///
    /// # Errors
    /// `Memory`, where std's `Arc` gives no further handle.
    pub fn entry<H: Wait>(
        &self,
        rt: &H,
        pass: &mut TreePass<SIZE>,
        number: u64,
    ) -> Result<Option<Arc<WordTable, Global>>, AllocationError>
        requires { IsPassOf self.now pass.old }
        ensures pass { IsPassOf self.now pass.new }
        ensures looked { Looked pass.old pass.new }
        ensures entry { IfOk result (λ entry. MatchOption entry (length (front_of pass.new) ≤ number)
            (λ table. IsNumber (front_of pass.new) table.value number)) }
        ensures memory { IfErr result (λ error. error ≡ AllocationError.Memory) }
    {
        let turn = self.cell.take(rt, pass);
        let entry = turn.version().handle_of(number);
        turn.release();
        entry
    }

    /// `entry` by one try at the turn.
    ///
    /// # Errors
    /// `Busy` only where another pass held the turn: `lost` rose by one, the front stays; never for a whole pass.
    /// `Memory`, where std's `Arc` gives no further handle.
    #[tactic(auto, using(crate::proofs::Trying::tried_missed))]
    pub fn try_entry(
        &self,
        pass: &mut TreePass<SIZE>,
        number: u64,
    ) -> Result<Option<Arc<WordTable, Global>>, CellFault>
        requires { IsPassOf self.now pass.old }
        ensures pass { IsPassOf self.now pass.new }
        ensures looked { OnOk result (Looked pass.old pass.new) }
        ensures entry { IfOk result (λ entry. MatchOption entry (length (front_of pass.new) ≤ number)
            (λ table. IsNumber (front_of pass.new) table.value number)) }
        ensures tried { HasTriedRead pass.old pass.new result }
        ensures refused { IfErr result (IsReadFault pass.old pass.new) }
    {
        match pass.try_take(&self.cell) {
            Err(Busy) => Err(CellFault::Busy),
            Ok(turn) => {
                let handle = turn.version().handle_of(number);
                turn.release();
                match handle {
                    Ok(entry) => Ok(entry),
                    Err(_) => Err(CellFault::Memory),
                }
            }
        }
    }

    // The tables with their numbers, in order, as of the last step of this call.
    pub(crate) fn entries<H: Wait>(
        &self,
        rt: &H,
        alloc: Global,
        pass: &mut TreePass<SIZE>,
    ) -> Result<Vec<Numbered>, AllocationError>
        requires { IsPassOf self.now pass.old }
        ensures pass { IsPassOf self.now pass.new }
        ensures looked { Looked pass.old pass.new }
        ensures ok { IfOk result (λ entries. entries.items ≡ ordered (front_of pass.new)) }
        ensures distinct { IsDistinct (front_of pass.new) }
        ensures memory { IfErr result (λ error. error ≡ AllocationError.Memory) }
    {
        let turn = self.cell.take(rt, pass);
        let entries = turn.version().entries(alloc);
        turn.release();
        entries
    }
}
