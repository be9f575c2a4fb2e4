//! One caller of a row.

ghost use Rattle.std.specs.Prelude.{◌≡◌, true, false, IfOk, IsErrOf};
ghost use mathlib.Core.List.{IsPrefix};
ghost use Rattle.stabby_tables.specs.Lists.{has};
ghost use Rattle.stabby_row.specs.Passes.{IsPassOf, front_of};

use stabby_row::{AllocationError, RowFull, RowPass, WordRow};
use std::alloc::Global;

/// Why a table wasn't read back.
#[derive(Clone, Copy, Debug, PartialEq, Eq)]
pub enum RowFault {
    /// The row has no room for the table.
    Full(RowFull),
    /// The copy found no memory.
    Memory,
}

impl From<RowFull> for RowFault {
    ghost use Rattle.stabby_row_uses.specs.declared.one_thread.RowFault.{RowFault};

    ghost from_gives = { λ full fault. fault ≡ RowFault.Full full };

    fn from(full: RowFull) -> RowFault {
        RowFault::Full(full)
    }
}

impl From<AllocationError> for RowFault {
    ghost use Rattle.stabby_row_uses.specs.declared.one_thread.RowFault.{RowFault};

    ghost from_gives = { λ _ fault. fault ≡ RowFault.Memory };

    fn from(_refused: AllocationError) -> RowFault {
        RowFault::Memory
    }
}

/// Gives the table a number, and reads back what the row has at that number: the table.
///
/// # Errors
/// `Full` where the table has no number, and `Memory` where it has one all the same.
pub fn number_and_read_back(
    alloc: Global,
    row: &WordRow,
    pass: &mut RowPass,
    table: &[u64],
) -> Result<Vec<u64>, RowFault>
    requires { IsPassOf row.now pass.old }
    ensures pass { IsPassOf row.now pass.new }
    ensures front { IsPrefix (front_of pass.old) (front_of pass.new) }
    ensures read { IfOk result (λ read. read.items ≡ table.now) }
    ensures full { (full : RowFull) → IsErrOf result (RowFault.Full full) → has (front_of pass.new) table.now ≡ false }
    ensures memory { IsErrOf result RowFault.Memory → has (front_of pass.new) table.now ≡ true }
{
    let number = row.insert_row(pass, table)?;
    match row.entry(alloc, pass, number)? {
        Some(read) => Ok(read),
        None => unreachable!(),
    }
}
