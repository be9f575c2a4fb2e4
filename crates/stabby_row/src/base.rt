//! The words under a row, and the rule that holds of them between any two steps.
use crate::view::View;
use atomic_table::{Seat, Table, TableRule};

pub struct RowWords;

impl TableRule<u64, View, u64> for RowWords {
    ghost use Rattle.stabby_row.specs.Rule.{RowRule, opening_view};

    ghost holds = { RowRule };

    ghost first = { opening_view };
}

pub type Base<A> = Table<u64, View, u64, RowWords, A>;

pub type RowSeat = Seat<u64, View>;
