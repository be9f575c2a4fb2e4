//! One caller of a registry.

ghost use Rattle.std.specs.Prelude.{◌≡◌, IfOk, IfSome, IsSome};
ghost use mathlib.Core.List.{IsPrefix};
ghost use Rattle.stabby_registry.specs.Passes.{IsPassOf, IsWhole, front_of};
ghost use Rattle.stabby_registry.specs.Inserts.{IsNumber};

use stabby_registry::{RegistryFault, TreePass, TryFault, VTableRegistry, VtBtree, WordTable};
use std::alloc::Global;
use std::sync::{Arc, Wait};

/// Gives the table a number, and reads back what the registry has at that number: the table.
///
/// # Errors
/// As `insert`, and `Memory` where the read finds none; the table then has its number all the same.
pub fn number_and_read_back<H: Wait>(
    rt: &H,
    alloc: Global,
    registry: &VtBtree<5>,
    pass: &mut TreePass<5>,
    table: &WordTable,
) -> Result<Arc<WordTable, Global>, RegistryFault>
    requires { IsPassOf registry.now pass.old }
    ensures pass { IsPassOf registry.now pass.new }
    ensures read { IfOk result (λ read. read.value ≡ table.now) }
{
    let number = registry.insert(rt, alloc, pass, table)?;
    match registry.entry(rt, pass, number)? {
        Some(entry) => Ok(entry),
        None => unreachable!(),
    }
}

/// The table's number by one try; `None` where another caller had the turn or came between. A whole pass always gets it.
///
/// # Errors
/// `Full` and `Memory`, as of `try_insert`.
pub fn try_number(
    alloc: Global,
    registry: &VtBtree<5>,
    pass: &mut TreePass<5>,
    table: &WordTable,
) -> Result<Option<u64>, RegistryFault>
    requires { IsPassOf registry.now pass.old }
    ensures pass { IsPassOf registry.now pass.new }
    ensures front { IsPrefix (front_of pass.old) (front_of pass.new) }
    ensures number { IfOk result (λ found. IfSome found (IsNumber (front_of pass.new) table.now)) }
    ensures whole { IsWhole pass.old → IfOk result (λ found. IsSome found) }
{
    match registry.try_insert(alloc, pass, table) {
        Ok(number) => Ok(Some(number)),
        Err(TryFault::Busy) => Ok(None),
        Err(TryFault::Moved { .. }) => Ok(None),
        Err(TryFault::Full { front }) => Err(RegistryFault::Full { front }),
        Err(TryFault::Memory) => Err(RegistryFault::Memory),
    }
}
