//! Many passes joined into one.
ghost use Rattle.std.specs.Prelude.{◌≡◌, ◌+◌, ◌++◌, All, sum_by, flat_map};
ghost use mathlib.Core.List.{IsPrefix};
ghost use Rattle.stabby_cell.specs.Passes.{IsPassOf, front_of, weight_of, commits_of};

use crate::counter::Counter;
use stabby_cell::{Pass, TurnCell};

/// Joins the parts and the last pass, as after so many workers: each front is a prefix of the new one, the weights are
/// summed, and the commits stand one list after another. Where the sum is the whole weight, the pass knows the whole history.
pub fn join_all(
    cell: &TurnCell<Counter>,
    mut parts: Vec<Pass<Counter>>,
    mut last: Pass<Counter>,
) -> Pass<Counter>
    requires parts { All (IsPassOf cell.now) parts.items }
    requires last { IsPassOf cell.now last }
    ensures pass { IsPassOf cell.now result }
    ensures weight { weight_of result ≡ sum_by weight_of parts.items + weight_of last }
    ensures commits { commits_of result ≡ flat_map commits_of parts.items ++ commits_of last }
    ensures fronts { All (λ part. IsPrefix (front_of part) (front_of result)) parts.items }
    ensures last_front { IsPrefix (front_of last) (front_of result) }
{
    while let Some(mut part) = parts.pop() {
        cell.join(&mut part, last);
        last = part;
    }
    last
}
