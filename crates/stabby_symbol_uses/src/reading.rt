//! What callers know of texts and their numbers, from the clauses of `stabby_symbol` alone.
ghost use Rattle.std.specs.Prelude.{◌≡◌, ◌↔◌, List, IfOk};
ghost use mathlib.Core.List.{IsPrefix};
ghost use Rattle.stabby_tables.specs.Tables.{Table};
ghost use Rattle.stabby_tables.specs.Lists.{IsDistinct};
ghost use Rattle.stabby_registry.specs.Passes.{IsPassOf, front_of};

use stabby_layout::Text;
use stabby_registry::{TreePass, VtBtree};
use stabby_symbol::{SymbolFault, UnpackFault, intern_text, laws, text_of};
use std::alloc::Global;
use std::sync::Wait;

/// Interns a text, and reads it back by its number.
pub fn read_back<H: Wait>(
    rt: &H,
    alloc: Global,
    registry: &VtBtree<5>,
    pass: &mut TreePass<5>,
    text: &str,
) -> Result<Text, SymbolFault>
    requires { IsPassOf registry.now pass.old }
    ensures pass { IsPassOf registry.now pass.new }
    ensures same { IfOk result (λ found. found ≡ text.now) }
{
    laws::texts_agree();
    let number = intern_text(rt, alloc, registry, pass, text)?;
    match text_of(rt, alloc, registry, pass, number) {
        Ok(Some(found)) => Ok(found),
        Ok(None) => unreachable!(),
        Err(fault) => match fault {
            UnpackFault::Memory => Err(SymbolFault::Memory),
            _ => unreachable!(),
        },
    }
}

/// The numbers of two texts that are interned through two passes, in whichever order.
pub fn numbers_of<H: Wait>(
    rt: &H,
    alloc: Global,
    registry: &VtBtree<5>,
    mine: &mut TreePass<5>,
    yours: &mut TreePass<5>,
    one: &str,
    other: &str,
) -> Result<(u64, u64), SymbolFault>
    requires mine { IsPassOf registry.now mine.old }
    requires yours { IsPassOf registry.now yours.old }
    ensures mine { IsPassOf registry.now mine.new }
    ensures yours { IsPassOf registry.now yours.new }
    // In every list that both passes saw a front of, the numbers are equal exactly where the texts are.
    ensures agree { IfOk result (λ numbers. (both : List Table) → IsPrefix (front_of mine.new) both
        → IsPrefix (front_of yours.new) both → IsDistinct both → (numbers.0 ≡ numbers.1) ↔ (one.now ≡ other.now)) }
{
    laws::texts_agree();
    let first = intern_text(rt, alloc, registry, mine, one)?;
    let second = intern_text(rt, alloc, registry, yours, other)?;
    Ok((first, second))
}
