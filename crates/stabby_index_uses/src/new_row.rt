//! Adding a row only where its key has none.
ghost use Rattle.std.specs.Prelude.{◌≡◌, ◌↔◌, IfOk, IfSome, IfNone, IsSome, IsTrue};
ghost use Rattle.stabby_cell.specs.Passes.{front_of, stamp_of};
ghost use Rattle.stabby_index.specs.Passes.{IsPassOf};
ghost use Rattle.stabby_index.specs.Rows.{row_at, rows_at};
ghost use Rattle.stabby_index_uses.specs.Adding.{AddsRow};

use stabby_index::{ApplyFault, Change, Index, IndexPass, Row, View};
use std::alloc::Global;
use std::sync::Wait;

/// Commits this row as a version of its own, and answers its stamp; `None`, and no commit, where its key has a row.
///
/// # Errors
/// `Stale` where another caller committed after the key was looked up; `Full` and `Memory` as of `apply`.
pub fn add_row<H: Wait>(
    rt: &H,
    alloc: Global,
    index: &Index,
    pass: &mut IndexPass,
    row: Row,
) -> Result<Option<u64>, ApplyFault>
    requires { IsPassOf index.now pass.old }
    ensures pass { IsPassOf index.now pass.new }
    ensures added { IfOk result (λ stamp. IfSome stamp (AddsRow (front_of pass.new) row)) }
    ensures there { IfOk result (λ stamp. IfNone stamp
        (IsSome (row_at (rows_at (front_of pass.new) (stamp_of pass.new)) row.key))) }
{
    let Ok((view, stamp)) = index.now(rt, pass) else {
        return Err(ApplyFault::Memory);
    };
    if has_row(&view, row.key) {
        return Ok(None);
    }
    let changes = [Change::Put(row)];
    let added = index.apply(rt, alloc, pass, &changes, Some(stamp))?;
    Ok(Some(added))
}

fn has_row(view: &View, key: u64) -> bool
    ensures { IsTrue result ↔ IsSome (row_at view.now key) }
{
    view.get(key).is_some()
}
