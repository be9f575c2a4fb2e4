//! Inserting a table by so many tries.

ghost use Rattle.std.specs.Prelude.{◌≡◌, ◌<◌, ◌-◌, ◌^◌, true, false, length, List, ℕ, IfOk, IfErr, OnOk, OnErr};
ghost use mathlib.Core.List.{IsPrefix};
ghost use Rattle.stabby_tables.specs.Lists.{has, IsDistinct};
ghost use Rattle.stabby_cell.specs.Passes.{front_of, Looked, IsWhole};

use crate::catalog::{Catalog, Found};
use crate::fault::TryFault;
use crate::registry::{TreePass, VtBtree};
use stabby_word_table::WordTable;
use std::alloc::Global;
use std::sync::Wait;

// How one of several tries fared.
#[derive(Drop)]
pub(crate) enum Tried<const SIZE: usize> {
    // The table was added, and this is its number.
    Added(u64),
    // Another caller's insert came before, and the table has this number.
    Known(u64),
    // Another caller's insert came before, and the table is absent: a copy of the version.
    Outrun(Catalog<SIZE>),
}

impl<const SIZE: usize> VtBtree<SIZE> {
    ghost use Rattle.stabby_registry.specs.Passes.{IsPassOf};
    ghost use Rattle.stabby_registry.specs.Inserts.{IsNumber, InsertsTable};
    ghost use Rattle.stabby_registry.specs.Within.{IsWithinFault};
    ghost use Rattle.stabby_registry.specs.Tries.{IsOwnFault};
    ghost use Rattle.stabby_registry.specs.Visits.{HasTriedOn, IsTriedFault};

    /// `VTableRegistry::insert` with at most `tries` versions built.
    ///
    /// # Errors
    /// `Moved` where other callers' inserts came before each of the `tries` versions, never for a whole pass; `Full` only
    /// where the table is absent and the stamp is 2^63 - 1; `Memory`. `Busy` never. Nothing was added by this call.
    pub fn insert_within<H: Wait>(
        &self,
        rt: &H,
        alloc: Global,
        pass: &mut TreePass<SIZE>,
        table: &WordTable,
        tries: u64,
    ) -> Result<u64, TryFault>
        requires own { IsPassOf self.now pass.old }
        requires some { 0 < tries }
        ensures pass { IsPassOf self.now pass.new }
        ensures front { IsPrefix (front_of pass.old) (front_of pass.new) }
        ensures number { IfOk result (λ n. IsNumber (front_of pass.new) table.now n) }
        ensures inserts { IfOk result (InsertsTable pass.old pass.new table.now) }
        ensures known { has (front_of pass.old) table.now ≡ true → OnOk result (Looked pass.old pass.new) }
        ensures distinct { OnOk result (IsDistinct (front_of pass.new)) }
        ensures refused { IfErr result (IsWithinFault pass.old pass.new table.now tries) }
        ensures whole { IsWhole pass.old → IfErr result IsOwnFault }
    {
        let mut version = match self.find(rt, pass, table)? {
            Found::Known(number) => return Ok(number),
            Found::Full => return Err(TryFault::Full { front: pass.seen() }),
            Found::Absent(version) => version,
        };
        for round in 0..tries {
            let from = pass.seen();
            match self.insert_on(rt, alloc, pass, version, table)? {
                Tried::Added(number) => return Ok(number),
                Tried::Known(number) => return Ok(number),
                Tried::Outrun(newer) => {
                    if round + 1 == tries {
                        return Err(TryFault::Moved {
                            from,
                            seen: pass.seen(),
                        });
                    }
                    version = newer;
                }
            }
        }
        unreachable!()
    }

    // Builds the version with the table on the version of the front, and offers it.
    fn insert_on<H: Wait>(
        &self,
        rt: &H,
        alloc: Global,
        pass: &mut TreePass<SIZE>,
        version: Catalog<SIZE>,
        table: &WordTable,
    ) -> Result<Tried<SIZE>, TryFault>
        requires own { IsPassOf self.now pass.old }
        requires is { version ≡ front_of pass.old }
        requires absent { has (front_of pass.old) table.now ≡ false }
        requires room { length (front_of pass.old) < 2 ^ 63 - 1 }
        ensures pass { IsPassOf self.now pass.new }
        ensures tried { IfOk result (HasTriedOn pass.old pass.new table.now) }
        ensures refused { IfErr result (IsTriedFault pass.old pass.new table.now) }
    {
        let number = version.len();
        let next = version.with(alloc, table)?;
        let Some(newer) = self.offer(rt, pass, next)? else {
            return Ok(Tried::Added(number));
        };
        match newer.find(table) {
            Found::Known(number) => Ok(Tried::Known(number)),
            Found::Absent(newer) => Ok(Tried::Outrun(newer)),
            Found::Full => Err(TryFault::Full { front: pass.seen() }),
        }
    }
}
