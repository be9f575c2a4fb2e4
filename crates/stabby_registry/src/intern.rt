//! Interning a list of tables.

ghost use Rattle.std.specs.Prelude.{◌≡◌, ◌<◌, ◌≤◌, ◌+◌, ◌^◌, ◌-◌, length, map, IfOk, IfErr, OnOk, OnErr};
ghost use Rattle.stabby_tables.specs.Lists.{place, ordered, AppendsSome, AppendsAbsent};
ghost use Rattle.stabby_tables.specs.Shares.{IsFirstInShare};
ghost use Rattle.stabby_registry.specs.Passes.{IsWhole, IsPassOf, GoesOn, front_of};
ghost use Rattle.stabby_registry.specs.Interned.{CanRank};

use crate::fault::RegistryFault;
use crate::gate::Gate;
use crate::registry::{TreePass, VtBtree};
use crate::worker::number_tables;
use stabby_layout::AllocationError;
use stabby_word_table::{Numbered, WordTable};
use std::alloc::Global;
use std::marker::{Model, Sync};
use std::sync::Wait;
use std::thread::Threads;

/// The numbers of a list of tables, and the registry's tables in order.
#[derive(Drop)]
pub struct Interned {
    numbers: Vec<u64>,
    entries: Vec<Numbered>,
}

impl Model for Interned {
    ghost use Rattle.stabby_registry.specs.Interned.{InternedValue};

    ghost Value = { InternedValue };

    ghost view = { λ i. record { numbers = i.numbers.items; entries = i.entries.items } };
}

impl Interned {
    /// The number of each table, in the order of the list.
    pub fn numbers(&self) -> &[u64]
        ensures { result.now ≡ self.now.numbers }
    {
        &self.numbers
    }

    /// The registry's tables with their numbers, in strictly increasing order of tables.
    pub fn entries(&self) -> &[Numbered]
        ensures { result.now ≡ self.now.entries }
    {
        &self.entries
    }
}

/// Numbers each table of the list, and appends those that the registry lacks.
///
/// The list is shared among `workers` threads, 1 to 64, each with a run of places that follow one another. A worker
/// inserts its tables in order, and the gate is told of each step. Which worker adds a table that several have, and so
/// the order of the new tables, is left to the schedule.
///
/// # Errors
/// `Memory` alone. What was added until then stays, each table once, and the pass is whole again.
pub fn intern_all<G: Gate, H: Threads + Wait + Sync>(
    rt: &H,
    alloc: Global,
    registry: &mut VtBtree<5>,
    pass: &mut TreePass<5>,
    tables: &[WordTable],
    workers: usize,
    gate: &G,
) -> Result<Interned, AllocationError>
    requires workers { (1 ≤ workers) × (workers ≤ 64) }
    requires whole { IsWhole pass.old }
    requires belongs { IsPassOf registry.old pass.old }
    requires room { length (front_of pass.old) + length tables.now < 2 ^ 63 - 1 }

    ensures front { OnOk result (AppendsAbsent (front_of pass.old) tables.now (front_of pass.new)) }
    ensures numbers { IfOk result (λ interned. interned.numbers ≡ map (place (front_of pass.new)) tables.now) }
    ensures first { IfOk result (λ interned. IsFirstInShare interned.numbers workers (length (front_of pass.old))) }
    ensures entries { IfOk result (λ interned. interned.entries ≡ ordered (front_of pass.new)) }
    ensures can_rank { IfOk result (λ interned. CanRank interned.entries interned.numbers) }

    ensures some_added { OnErr result (AppendsSome (front_of pass.old) tables.now (front_of pass.new)) }
    ensures memory { IfErr result (λ error. error ≡ AllocationError.Memory) }

    ensures whole { IsWhole pass.new }
    ensures belongs { IsPassOf registry.new pass.new }
    ensures same_registry { registry.new ≡ registry.old }
    ensures goes_on { GoesOn pass.old pass.new }
{
    let numbered = number_tables(rt, alloc, registry, pass, tables, workers, gate);
    let entries = registry.entries(rt, alloc, pass);
    match numbered {
        Ok(numbers) => {
            let entries = entries?;
            Ok(Interned { numbers, entries })
        }
        Err(RegistryFault::Memory) => Err(AllocationError::Memory),
        Err(RegistryFault::Full { .. }) => unreachable!(),
        Err(RegistryFault::RowFull { .. }) => unreachable!(),
    }
}
