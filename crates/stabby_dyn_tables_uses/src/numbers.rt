//! The numbers that a registry gives to tables.

ghost use Rattle.std.specs.Prelude.{◌≡◌, ◌∷◌, [], IfOk};
ghost use Rattle.stabby_registry.specs.Passes.{IsPassOf, front_of};
ghost use Rattle.stabby_registry.specs.Inserts.{IsNumber};

use stabby_dyn_tables::{AnyVt, VTable, VtDrop, VtSend};
use stabby_registry::{ListsWords, RegistryFault, TreePass, VTableRegistry, VtBtree, laws};
use std::alloc::Global;
use std::sync::Wait;

/// The number of the table of these two entries: that of the list of the two words, the drop entry's first.
///
/// # Errors
/// As `insert_typed`.
pub fn number_of_pair<R: Wait>(
    rt: &R,
    alloc: Global,
    registry: &VtBtree<5>,
    pass: &mut TreePass<5>,
    end: u64,
    any: u64,
) -> Result<u64, RegistryFault>
    requires { IsPassOf registry.now pass.old }
    ensures pass { IsPassOf registry.now pass.new }
    ensures number { IfOk result (IsNumber (front_of pass.new) (end ∷ any ∷ [])) }
{
    let table: VTable<AnyVt> = VTable {
        tail: VtDrop { word: end },
        head: AnyVt { word: any },
    };
    registry.insert_typed(rt, alloc, pass, &table)
}

/// The numbers of a table and of the same table with a mark round it. They are equal, since a mark lists no word.
///
/// # Errors
/// As `insert_typed`.
pub fn number_with_and_without_mark<Vt: ListsWords + Copy, R: Wait>(
    rt: &R,
    alloc: Global,
    registry: &VtBtree<5>,
    pass: &mut TreePass<5>,
    table: &Vt,
) -> Result<(u64, u64), RegistryFault>
    requires { IsPassOf registry.now pass.old }
    ensures pass { IsPassOf registry.now pass.new }
    ensures equal { IfOk result (λ numbers. numbers.0 ≡ numbers.1) }
{
    laws::numbers_stay();
    let without = registry.insert_typed(rt, alloc, pass, table)?;
    let with = registry.insert_typed(rt, alloc, pass, &VtSend(*table))?;
    Ok((without, with))
}
