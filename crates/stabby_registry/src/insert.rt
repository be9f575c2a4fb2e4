//! Inserting a table, however often others come between.

ghost use Rattle.std.specs.Prelude.{◌≡◌, ◌<◌, ◌-◌, ◌^◌, ◌++◌, ◌∷◌, [], false, true, length, List, ℕ, IfOk, IfErr, OnOk, OnErr};
ghost use mathlib.Core.List.{IsPrefix};
ghost use Rattle.stabby_tables.specs.Lists.{has, IsDistinct};
ghost use Rattle.stabby_cell.specs.Passes.{front_of, stamp_of, Looked};
ghost use Rattle.stabby_cell.specs.Visits.{Visited};

use crate::catalog::{Catalog, Found, LAST_STAMP};
use crate::fault::RegistryFault;
use crate::gate::{Gate, OpenGate};
use crate::registry::{TreePass, VtBtree};
use stabby_layout::AllocationError;
use stabby_word_table::WordTable;
use std::alloc::Global;
use std::sync::Wait;

impl<const SIZE: usize> VtBtree<SIZE> {
    ghost use Rattle.stabby_registry.specs.Passes.{IsPassOf};
    ghost use Rattle.stabby_registry.specs.Inserts.{IsNumber, InsertsTable, IsInsertFault};
    ghost use Rattle.stabby_registry.specs.Visits.{HasFound, HasOffered};
    ghost use Rattle.stabby_registry.specs.Catalog.{AppendsTable};
    ghost use Rattle.stabby_registry.specs.Counted.{number_in};

    /// `VTableRegistry::insert`, which tells the gate of its steps: `before` first, `building` each time a new version is
    /// being built, outside the turn, and `after` once it has the number.
    ///
    /// # Errors
    /// `Full` only where the table is absent and the stamp is 2^63 - 1; `Memory`. Nothing was added by this call.
    pub fn insert_gated<G: Gate, H: Wait>(
        &self,
        rt: &H,
        alloc: Global,
        pass: &mut TreePass<SIZE>,
        table: &WordTable,
        gate: &G,
        worker: u64,
        place: u64,
    ) -> Result<u64, RegistryFault>
        requires { IsPassOf self.now pass.old }
        ensures pass { IsPassOf self.now pass.new }
        ensures front { IsPrefix (front_of pass.old) (front_of pass.new) }
        ensures number { IfOk result (λ n. IsNumber (front_of pass.new) table.now n) }
        ensures inserts { IfOk result (InsertsTable pass.old pass.new table.now) }
        ensures known { has (front_of pass.old) table.now ≡ true → OnOk result (Looked pass.old pass.new) }
        ensures distinct { OnOk result (IsDistinct (front_of pass.new)) }
        ensures refused { IfErr result (IsInsertFault pass.old pass.new table.now) }
    {
        gate.before(worker, place);
        let mut known = self.snapshot(rt, pass)?;
        if let Some(number) = known.number_of(table) {
            gate.after(worker, place, number);
            return Ok(number);
        }
        self.insert_absent(rt, alloc, pass, table, gate, worker, place, &mut known)
    }

    // Inserts a table that `known`, a version that the pass has seen, lacks. Afterwards `known` is the newest version that
    // this call read or made.
    pub(crate) fn insert_absent<G: Gate, H: Wait>(
        &self,
        rt: &H,
        alloc: Global,
        pass: &mut TreePass<SIZE>,
        table: &WordTable,
        gate: &G,
        worker: u64,
        place: u64,
        known: &mut Catalog<SIZE>,
    ) -> Result<u64, RegistryFault>
        requires own { IsPassOf self.now pass.old }
        requires behind { IsPrefix known.old (front_of pass.old) }
        requires absent { has known.old table.now ≡ false }
        requires distinct { IsDistinct known.old }
        ensures pass { IsPassOf self.now pass.new }
        ensures front { IsPrefix (front_of pass.old) (front_of pass.new) }
        ensures number { IfOk result (λ n. IsNumber (front_of pass.new) table.now n) }
        ensures inserts { IfOk result (InsertsTable pass.old pass.new table.now) }
        ensures distinct { OnOk result (IsDistinct (front_of pass.new)) }
        ensures refused { IfErr result (IsInsertFault pass.old pass.new table.now) }
        ensures behind { OnOk result (IsPrefix known.new (front_of pass.new)) }
    {
        if let Some(number) = self.catch_up(rt, pass, known, table)? {
            gate.after(worker, place, number);
            return Ok(number);
        }
        for _ in rt.forever() {
            let number = known.len();
            if number == LAST_STAMP {
                return Err(RegistryFault::Full { front: pass.seen() });
            }
            gate.building(worker, place);
            let next = known.duplicate()?.with(alloc, table)?;
            let copy = next.duplicate()?;
            match self.offer(rt, pass, next)? {
                None => {
                    *known = copy;
                    gate.after(worker, place, number);
                    return Ok(number);
                }
                Some(newer) => {
                    *known = newer;
                    if let Some(number) = known.number_of(table) {
                        gate.after(worker, place, number);
                        return Ok(number);
                    }
                }
            }
        }
        unreachable!()
    }

    // Makes `known`, a version that the pass has seen and that lacks the table, the registry's, and answers the table's
    // number in it. A look tells whether it is that one already.
    fn catch_up<H: Wait>(
        &self,
        rt: &H,
        pass: &mut TreePass<SIZE>,
        known: &mut Catalog<SIZE>,
        table: &WordTable,
    ) -> Result<Option<u64>, AllocationError>
        requires own { IsPassOf self.now pass.old }
        requires behind { IsPrefix known.old (front_of pass.old) }
        requires absent { has known.old table.now ≡ false }
        requires distinct { IsDistinct known.old }
        ensures pass { IsPassOf self.now pass.new }
        ensures looked { Looked pass.old pass.new }
        ensures known { OnOk result (known.new ≡ front_of pass.new) }
        ensures number { IfOk result (λ number. number ≡ number_in (front_of pass.new) table.now) }
        ensures distinct { OnOk result (IsDistinct (front_of pass.new)) }
        ensures memory { IfErr result (λ error. error ≡ AllocationError.Memory) }
    {
        if self.look(pass) == known.len() {
            return Ok(None);
        }
        *known = self.snapshot(rt, pass)?;
        Ok(known.number_of(table))
    }

    // Looks a table up in a copy of the version, without the turn.
    pub(crate) fn find<H: Wait>(
        &self,
        rt: &H,
        pass: &mut TreePass<SIZE>,
        table: &WordTable,
    ) -> Result<Found<SIZE>, AllocationError>
        requires { IsPassOf self.now pass.old }
        ensures pass { IsPassOf self.now pass.new }
        ensures looked { Looked pass.old pass.new }
        ensures visited { Visited pass.old pass.new }
        ensures distinct { IsDistinct (front_of pass.new) }
        ensures found { IfOk result (HasFound (front_of pass.new) table.now) }
        ensures memory { IfErr result (λ error. error ≡ AllocationError.Memory) }
    {
        let turn = self.cell.take(rt, pass);
        let version = turn.version().duplicate();
        turn.release();
        match version {
            Ok(version) => Ok(version.find(table)),
            Err(error) => Err(error),
        }
    }

    // Commits the version that was built on the front of the pass, and answers `None`. Where another came between, answers
    // a copy of that one. The old version is let go once the turn is given back.
    pub(crate) fn offer<H: Wait>(
        &self,
        rt: &H,
        pass: &mut TreePass<SIZE>,
        next: Catalog<SIZE>,
    ) -> Result<Option<Catalog<SIZE>>, AllocationError>
        requires own { IsPassOf self.now pass.old }
        requires follows { (table : List ℕ) × AppendsTable (front_of pass.old) table next }
        requires room { length (front_of pass.old) < 2 ^ 63 - 1 }
        ensures pass { IsPassOf self.now pass.new }
        ensures offered { IfOk result (HasOffered pass.old pass.new next.entry) }
        ensures looked { OnErr result (Looked pass.old pass.new) }
        ensures memory { IfErr result (λ error. error ≡ AllocationError.Memory) }
    {
        let base = pass.seen();
        let turn = self.cell.take(rt, pass);
        if turn.stamp() != base {
            let newer = turn.version().duplicate();
            turn.release();
            match newer {
                Ok(newer) => return Ok(Some(newer)),
                Err(error) => return Err(error),
            }
        }
        match turn.commit(next) {
            Ok(_) => Ok(None),
            Err(_) => unreachable!(),
        }
    }
}
