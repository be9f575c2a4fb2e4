//! Holding a registry's turn.

ghost use Rattle.std.specs.Prelude.{◌≡◌, ◌<◌, ◌^◌, ◌∷◌, [], IfOk, OnErr};
ghost use Rattle.std.specs.Borrow.{sem};
ghost use Rattle.stabby_registry.specs.Passes.{IsPassOf};
ghost use Rattle.stabby_registry.specs.Loans.{rests_if_busy};
ghost use Rattle.stabby_registry.specs.Catalog.{AppendsTable};
ghost use Rattle.stabby_cell.specs.Telling.{noted};
ghost use Rattle.stabby_cell.specs.declared.view.StepKind.TheVariants.{Take};
ghost use Rattle.stabby_cell.specs.Passes.{Advances, stamp_of, weight_of};
ghost use Rattle.stabby_cell.specs.Turns.{IsTurn, cell_of, pass_of, lender_of};

use crate::catalog::Catalog;
use crate::registry::{TreePass, VtBtree};
use stabby_cell::{Busy, Chronicle, Turn};

/// The turn of a registry. No insert of another pass is carried out while it is out; letting it go gives the turn back.
pub type Held<'a, const SIZE: usize> = Turn<'a, Catalog<SIZE>>;

impl<const SIZE: usize> VtBtree<SIZE> {
    /// Takes the turn if it is free, by one step.
    ///
    /// # Errors
    /// `Busy` where the step found the turn held by another pass: `lost` rose by one and the front stays. A whole pass
    /// never gets it.
    pub fn try_hold<'a>(&'a self, pass: &'a mut TreePass<SIZE>) -> Result<Held<'a, SIZE>, Busy>
        requires { IsPassOf self.now pass.old }
        ensures* busy { sem 𝓛 (rests_if_busy SIZE.row ⟦<Catalog<SIZE> as Chronicle>⟧ self.now pass.entry result) }
        ensures not_whole { OnErr result (weight_of pass.old < 2 ^ 32) }
        ensures cell { IfOk result (λ held. cell_of held ≡ self.now.cell) }
        ensures same_pass { IfOk result (λ held. lender_of held ≡ pass.entry.ghost_name) }
        ensures turn { IfOk result (IsTurn AppendsTable) }
        ensures took { IfOk result (λ held. Advances pass.old (pass_of held)
            (noted Take (stamp_of (pass_of held)) ∷ [])) }
    {
        try_hold(pass, self)
    }
}

/// Takes the turn of a registry if it is free, by one step.
///
/// It is `VtBtree::try_hold` with the pass first, for callers whose proof goes on after `Busy`.
///
/// # Errors
/// `Busy` where the step found the turn held by another pass: `lost` rose by one and the front stays. A whole pass never
/// gets it.
pub fn try_hold<'a, const SIZE: usize>(
    pass: &'a mut TreePass<SIZE>,
    registry: &'a VtBtree<SIZE>,
) -> Result<Held<'a, SIZE>, Busy>
    requires { IsPassOf registry.now pass.old }
    ensures* busy { sem 𝓛 (rests_if_busy SIZE.row ⟦<Catalog<SIZE> as Chronicle>⟧ registry.now pass.entry result) }
    ensures not_whole { OnErr result (weight_of pass.old < 2 ^ 32) }
    ensures cell { IfOk result (λ held. cell_of held ≡ registry.now.cell) }
    ensures same_pass { IfOk result (λ held. lender_of held ≡ pass.entry.ghost_name) }
    ensures turn { IfOk result (IsTurn AppendsTable) }
    ensures took { IfOk result (λ held. Advances pass.old (pass_of held)
        (noted Take (stamp_of (pass_of held)) ∷ [])) }
{
    pass.try_take(&registry.cell)
}
