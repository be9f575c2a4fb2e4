//! The rule of the count word, and what each step on it does to a view.
use crate::view::View;
use stabby_count_word::{CountExchange, CountRule, CountSplit, CountStep};

/// The rule of the count word of shared values.
pub struct SharedCounts;

impl CountRule<View> for SharedCounts {
    ghost use Rattle.stabby_count.specs.Rule.{Rule};
    ghost use Rattle.stabby_count.specs.Views.{opening};

    ghost holds = { Rule };

    ghost first = { opening };
}

/// A load.
pub(crate) struct Look;

impl CountStep<View> for Look {
    ghost use Rattle.stabby_count.specs.Tells.{Told};
    ghost use Rattle.stabby_count.specs.Views.{looked};

    ghost then = { Told looked };
}

/// A load by a strong handle, which is sole from then on where it reads one strong and one weak.
pub(crate) struct LookSole;

impl CountStep<View> for LookSole {
    ghost use Rattle.stabby_count.specs.Tells.{ToldSole};

    ghost then = { ToldSole };
}

/// A load that is a look only where it finds no strong handle: a call answers from it there, and nowhere else.
pub(crate) struct Glance;

impl CountStep<View> for Glance {
    ghost use Rattle.stabby_count.specs.Tells.{ToldNone};

    ghost then = { ToldNone };
}

/// A load that is no look: the handle brings its value back before a step of its own.
pub(crate) struct Rest;

impl CountStep<View> for Rest {
    ghost use Rattle.stabby_count.specs.Tells.{ToldNothing};

    ghost then = { ToldNothing };
}

pub(crate) struct Clone;

impl CountExchange<View> for Clone {
    ghost use Rattle.stabby_count.specs.Tells.{ToldWhere};
    ghost use Rattle.stabby_count.specs.Views.{cloned};
    ghost use Rattle.stabby_count_word.specs.Changes.{clone};

    ghost change = { clone };

    ghost then = { ToldWhere cloned };
}

/// The downgrade of a strong handle.
pub(crate) struct Downgrade;

impl CountExchange<View> for Downgrade {
    ghost use Rattle.stabby_count.specs.Tells.{ToldWhere};
    ghost use Rattle.stabby_count.specs.Views.{downgraded};
    ghost use Rattle.stabby_count_word.specs.Changes.{downgrade};

    ghost change = { downgrade };

    ghost then = { ToldWhere downgraded };
}

/// The clone of a weak handle.
pub(crate) struct WeakClone;

impl CountExchange<View> for WeakClone {
    ghost use Rattle.stabby_count.specs.Tells.{ToldWhere};
    ghost use Rattle.stabby_count.specs.Views.{downgraded};
    ghost use Rattle.stabby_count_word.specs.Changes.{clone_weak};

    ghost change = { clone_weak };

    ghost then = { ToldWhere downgraded };
}

pub(crate) struct Upgrade;

impl CountExchange<View> for Upgrade {
    ghost use Rattle.stabby_count.specs.Tells.{ToldWhere};
    ghost use Rattle.stabby_count.specs.Views.{upgraded};
    ghost use Rattle.stabby_count_word.specs.Changes.{upgrade};

    ghost change = { upgrade };

    ghost then = { ToldWhere upgraded };
}

pub(crate) struct EndStrong;

impl CountStep<View> for EndStrong {
    ghost use Rattle.stabby_count.specs.Tells.{Told};
    ghost use Rattle.stabby_count.specs.Views.{ended_strong};

    ghost then = { Told ended_strong };
}

/// The end of a strong handle by an exchange of one strong and one weak.
pub(crate) struct EndSole;

impl CountExchange<View> for EndSole {
    ghost use Rattle.stabby_count.specs.Tells.{ToldWhere};
    ghost use Rattle.stabby_count.specs.Views.{ended_strong};
    ghost use Rattle.stabby_count_word.specs.Changes.{end_sole};

    ghost change = { end_sole };

    ghost then = { ToldWhere ended_strong };
}

pub(crate) struct Take;

impl CountStep<View> for Take {
    ghost use Rattle.stabby_count.specs.Tells.{Told};
    ghost use Rattle.stabby_count.specs.Views.{took};

    ghost then = { Told took };
}

pub(crate) struct EndWeak;

impl CountStep<View> for EndWeak {
    ghost use Rattle.stabby_count.specs.Tells.{Told};
    ghost use Rattle.stabby_count.specs.Views.{ended_weak};

    ghost then = { Told ended_weak };
}

/// A strong share goes to a new seat.
pub(crate) struct GiveStrong;

impl CountSplit<View> for GiveStrong {
    ghost use Rattle.stabby_count.specs.Views.{without_strong, with_strong};

    ghost left = { without_strong };

    ghost right = { with_strong };
}

/// A weak share goes to a new seat.
pub(crate) struct GiveWeak;

impl CountSplit<View> for GiveWeak {
    ghost use Rattle.stabby_count.specs.Views.{without_weak, with_weak};

    ghost left = { without_weak };

    ghost right = { with_weak };
}
