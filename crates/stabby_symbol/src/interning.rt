//! Texts under the numbers of a registry.
ghost use Rattle.std.specs.Prelude.{◌≡◌, ◌≤◌, ◌⊎◌, true, length, Some, IfOk, IfErr, OnOk, MatchOption};
ghost use mathlib.Core.List.{IsPrefix};
ghost use Rattle.stabby_tables.specs.Lists.{has, IsDistinct};
ghost use Rattle.stabby_registry.specs.Passes.{IsPassOf, IsWhole, Looked, front_of};
ghost use Rattle.stabby_registry.specs.Inserts.{IsNumber, InsertsTable, IsTryFault};
ghost use Rattle.stabby_registry.specs.Tries.{IsOwnFault};
ghost use Rattle.stabby_symbol.specs.Packed.{packed};
ghost use Rattle.stabby_symbol.specs.Unpacked.{unpack_fault};
ghost use Rattle.stabby_symbol.specs.Symbols.{IsSymbolFault, IsText, IsTextFault, HasTriedText};

use crate::packing::pack;
use crate::unpacking::{UnpackFault, unpack};
use stabby_layout::{AllocationError, Text};
use stabby_registry::{RegistryFault, TreePass, TryFault, VTableRegistry, VtBtree};
use std::alloc::Global;
use std::sync::Wait;

/// Why a text could not be interned. Nothing was added by the call.
#[derive(Clone, Copy, Debug, PartialEq, Eq)]
pub enum SymbolFault {
    /// The registry has as many tables as it can count: the stamp is 2^63 - 1. `front` is the length of the front.
    Full { front: u64 },
    /// Memory could not be had.
    Memory,
}

impl From<AllocationError> for SymbolFault {
    ghost use Rattle.stabby_symbol.specs.declared.interning.SymbolFault.TheVariants.{Memory};

    ghost from_gives = { λ _ fault. fault ≡ Memory };

    fn from(_refused: AllocationError) -> SymbolFault {
        SymbolFault::Memory
    }
}

/// The text's number: the place of its table in the registry's list. An absent one is added at the end.
///
/// # Errors
/// `Full` only where the text is absent and the stamp is 2^63 - 1; `Memory`. Nothing was added by this call.
pub fn intern_text<H: Wait>(
    rt: &H,
    alloc: Global,
    registry: &VtBtree<5>,
    pass: &mut TreePass<5>,
    text: &str,
) -> Result<u64, SymbolFault>
    requires { IsPassOf registry.now pass.old }
    ensures pass { IsPassOf registry.now pass.new }
    ensures front { IsPrefix (front_of pass.old) (front_of pass.new) }
    ensures number { IfOk result (λ n. IsNumber (front_of pass.new) (packed text.now) n) }
    ensures inserts { IfOk result (InsertsTable pass.old pass.new (packed text.now)) }
    ensures known { has (front_of pass.old) (packed text.now) ≡ true → OnOk result (Looked pass.old pass.new) }
    ensures distinct { OnOk result (IsDistinct (front_of pass.new)) }
    ensures refused { IfErr result (IsSymbolFault pass.old pass.new (packed text.now)) }
{
    let table = pack(alloc, text)?;
    match registry.insert(rt, alloc, pass, &table) {
        Ok(number) => Ok(number),
        Err(RegistryFault::Full { front }) => Err(SymbolFault::Full { front }),
        Err(RegistryFault::RowFull { .. }) => unreachable!(),
        Err(RegistryFault::Memory) => Err(SymbolFault::Memory),
    }
}

/// `intern_text` by one try, as `VtBtree::try_insert` makes it.
///
/// # Errors
/// Those of `VtBtree::try_insert`, and `Memory` where the table finds none. Nothing was added by this call.
pub fn try_intern_text(
    alloc: Global,
    registry: &VtBtree<5>,
    pass: &mut TreePass<5>,
    text: &str,
) -> Result<u64, TryFault>
    requires { IsPassOf registry.now pass.old }
    ensures pass { IsPassOf registry.now pass.new }
    ensures front { IsPrefix (front_of pass.old) (front_of pass.new) }
    ensures number { IfOk result (λ n. IsNumber (front_of pass.new) (packed text.now) n) }
    ensures inserts { IfOk result (InsertsTable pass.old pass.new (packed text.now)) }
    ensures known { has (front_of pass.old) (packed text.now) ≡ true → OnOk result (Looked pass.old pass.new) }
    ensures distinct { OnOk result (IsDistinct (front_of pass.new)) }
    ensures tried { HasTriedText pass.old pass.new result }
    ensures refused { IfErr result (IsTryFault pass.old pass.new (packed text.now)) }
    ensures whole { IsWhole pass.old → IfErr result IsOwnFault }
{
    let table = pack(alloc, text)?;
    registry.try_insert(alloc, pass, &table)
}

/// The text with this number; `None` exactly where the number isn't below the length of the registry's list.
///
/// # Errors
/// Those of `unpack` on the table with this number, where it is no text's; `Memory`.
pub fn text_of<H: Wait>(
    rt: &H,
    alloc: Global,
    registry: &VtBtree<5>,
    pass: &mut TreePass<5>,
    number: u64,
) -> Result<Option<Text>, UnpackFault>
    requires { IsPassOf registry.now pass.old }
    ensures pass { IsPassOf registry.now pass.new }
    ensures looked { Looked pass.old pass.new }
    ensures text { IfOk result (λ found. MatchOption found (length (front_of pass.new) ≤ number)
        (λ text. IsText (front_of pass.new) text number)) }
    ensures fault { IfErr result (IsTextFault (front_of pass.new) number) }
{
    match registry.entry(rt, pass, number)? {
        None => Ok(None),
        Some(table) => {
            let text = unpack(alloc, &table)?;
            Ok(Some(text))
        }
    }
}
