//! A registry with its whole pass: one caller's list of distinct tables.
ghost use Rattle.std.specs.Prelude.{◌≡◌};
ghost use Rattle.std.proofs.Props.{props};
ghost use Rattle.stabby_tables.specs.Lists.{IsDistinct};
ghost use Rattle.stabby_registry.specs.Passes.{IsPassOf, IsWhole, front_of};

use stabby_registry::{AllocationError, TreePass, TryFault, VtBtree, WordTable};
use std::alloc::Global;

/// A registry that no other caller has.
#[derive(Drop)]
pub(crate) struct Shelf {
    pub(crate) registry: VtBtree<5>,
    pub(crate) pass: TreePass<5>,
    ghost belongs: { IsPassOf registry pass } by { Prim.hlevel props },
    ghost whole: { IsWhole pass },
    ghost distinct: { IsDistinct (front_of pass) } by { Prim.hlevel props },
}

impl Shelf {
    ghost use Rattle.std.specs.Prelude.{◌≡◌, ◌<◌, ◌^◌, ◌-◌, [], length, IfErr, IfOk, OnErr};
    ghost use Rattle.stabby_host.specs.Shelves.{HasTable, shelf_tables};
    ghost use Rattle.stabby_layout.specs.declared.error.AllocationError.TheVariants.{Memory};

    /// The empty registry.
    pub(crate) fn new(alloc: Global) -> Result<Shelf, AllocationError>
        ensures ok { IfOk result (λ shelf. shelf_tables shelf ≡ []) }
        ensures memory { IfErr result (λ error. error ≡ Memory) }
    {
        let (registry, pass) = VtBtree::new(alloc)?;
        Ok(Shelf { registry, pass })
    }

    /// The number of the table, which is added where it is absent. The only refusal is want of memory.
    pub(crate) fn number_of(
        &mut self,
        alloc: Global,
        table: &WordTable,
    ) -> Result<u64, AllocationError>
        requires few { length (shelf_tables self.old) < 2 ^ 63 - 1 }
        ensures ok { IfOk result (HasTable (shelf_tables self.old) (shelf_tables self.new) table.now) }
        ensures unchanged { OnErr result (shelf_tables self.new ≡ shelf_tables self.old) }
        ensures memory { IfErr result (λ error. error ≡ Memory) }
    {
        match self.registry.try_insert(alloc, &mut self.pass, table) {
            Ok(number) => Ok(number),
            Err(TryFault::Memory) => Err(AllocationError::Memory),
            Err(_) => unreachable!(),
        }
    }
}
