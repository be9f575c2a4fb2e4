//! An insert into the row.
ghost use Rattle.std.specs.Prelude.{◌≡◌, ◌+◌, ◌-◌, ◌<◌, ◌≤◌, length, IfOk, IfErr};
ghost use Rattle.stabby_row.specs.Inserts.{Grown, ClaimsOnce, IsCounted, PlacesNew, FindsFull, EndsFull};
ghost use Rattle.stabby_row.specs.Rule.{Absent};
ghost use Rattle.stabby_row.specs.Seats.{view_of, IsReady, IsSameSeat, Reached, claim_with, node_words, MovesTo, IsAt};

use crate::base::RowSeat;
use crate::row::{RowFull, WordRow};

// Where a table stands, and how many nodes are seen.
#[derive(Drop)]
pub(crate) struct Placed {
    pub n: u64,
    pub seen: u64,
}

// The answer, how many links but one were walked, the nodes seen, and what the last claim left.
#[derive(Drop)]
pub(crate) struct Outcome {
    pub answer: Result<u64, RowFull>,
    pub n: u64,
    pub seen: u64,
    pub left: u64,
}

impl WordRow {
    // Hangs the written node behind all others, unless another hangs the same table first.
    fn hang_last(
        &self,
        seat: &mut RowSeat,
        count: u64,
        link: usize,
        start: u64,
        table: &[u64],
    ) -> Placed
        requires seat { (seat.old.table_id ≡ self.now.base.shared.table_id) × IsReady seat.old }
        requires at { Reached (view_of seat.old) count link × (count ≡ length (view_of seat.old).nodes) }
        requires claim { (view_of seat.old).claim ≡ claim_with start (2 + length table.now) (node_words table.now) }
        requires inside { start < (view_of seat.old).room + 2 }
        requires absent { Absent table.now (view_of seat.old).nodes }
        ensures same { IsSameSeat seat.old seat.new × IsReady seat.new }
        ensures moved { MovesTo (view_of seat.old) (view_of seat.new) count result.n result.seen }
        ensures there { IsAt table.now (view_of seat.new).nodes result.n }
    {
        let mut n = count;
        let mut at = link;
        'tries: loop {
            let next = self.hang(seat, n, at, start, table);
            if next == 0 {
                return Placed { n, seen: n + 1 };
            }
            at = (next - 1) as usize;
            if self.has_table(seat, n, at, table) {
                return Placed { n, seen: n + 1 };
            }
            let stop = self.walk(seat, n + 1, at, n + 1, table);
            n = stop.n;
            at = stop.at;
            if stop.found {
                return Placed { n, seen: stop.seen };
            }
        }
    }

    // Claims, writes and hangs a node, where the n nodes of the front lack the table.
    fn insert_new(&self, seat: &mut RowSeat, n: u64, at: usize, left: u64, table: &[u64]) -> Outcome
        requires seat { (seat.old.table_id ≡ self.now.base.shared.table_id) × IsReady seat.old }
        requires at { Reached (view_of seat.old) n at × (n ≡ length (view_of seat.old).nodes) }
        requires left { left ≡ (view_of seat.old).left }
        requires absent { Absent table.now (view_of seat.old).nodes }
        ensures same { IsSameSeat seat.old seat.new × IsReady seat.new }
        ensures grown { (n ≤ result.n) × Grown (result.n - n) (view_of seat.old) (view_of seat.new) }
        ensures counts { IsCounted (view_of seat.new) result.seen result.left result.n }
        ensures ok { IfOk result.answer (PlacesNew table.now (view_of seat.old) (view_of seat.new) result.n) }
        ensures full { IfErr result.answer (FindsFull self.now.words table.now (view_of seat.old)
            (view_of seat.new) (result.n ≡ result.seen)) }
    {
        let needed = 2 + table.len() as u64;
        if needed > self.words {
            return full(0, needed, n, left);
        }
        let most = self.words - needed;
        if left > most {
            return full(left, needed, n, left);
        }
        let found = self.claim(seat, needed);
        if found > most {
            return full(found, needed, n, found + needed);
        }
        self.write_node(seat, (found + 2) as usize, table);
        let placed = self.hang_last(seat, n, at, found + 2, table);
        Outcome {
            answer: Ok(placed.n),
            n: placed.n,
            seen: placed.seen,
            left: found + needed,
        }
    }

    // Walks from the first link, and inserts the table where it is not met.
    pub(crate) fn insert_at(
        &self,
        seat: &mut RowSeat,
        seen: u64,
        left: u64,
        table: &[u64],
    ) -> Outcome
        requires seat { (seat.old.table_id ≡ self.now.base.shared.table_id) × IsReady seat.old }
        requires counts { (seen ≡ length (view_of seat.old).nodes) × (left ≡ (view_of seat.old).left) }
        ensures same { IsSameSeat seat.old seat.new × IsReady seat.new }
        ensures grown { Grown (result.n + 1) (view_of seat.old) (view_of seat.new) }
        ensures counts { IsCounted (view_of seat.new) result.seen result.left result.n }
        ensures ok { IfOk result.answer (λ k. (k ≡ result.n) × IsAt table.now (view_of seat.new).nodes k) }
        ensures claims { ClaimsOnce table.now (view_of seat.old) (view_of seat.new) }
        ensures full { IfErr result.answer (EndsFull self.now.words table.now (view_of seat.old)
            (view_of seat.new) (result.n ≡ result.seen)) }
    {
        let stop = self.walk(seat, 0, 1, seen, table);
        if stop.found {
            return Outcome {
                answer: Ok(stop.n),
                n: stop.n,
                seen: stop.seen,
                left,
            };
        }
        self.insert_new(seat, stop.n, stop.at, left, table)
    }
}

fn full(claimed: u64, needed: u64, n: u64, left: u64) -> Outcome
    ensures answer { result.answer ≡ Err (record { claimed = claimed; needed = needed }) }
    ensures counts { (result.n ≡ n) × (result.seen ≡ n) × (result.left ≡ left) }
{
    Outcome {
        answer: Err(RowFull { claimed, needed }),
        n,
        seen: n,
        left,
    }
}
