//! The table of a number.
ghost use Rattle.std.specs.Prelude.{◌≡◌, ℕ, ◌+◌, ◌-◌, ◌<◌, ◌≤◌, length, IfOk, IfErr};
ghost use Rattle.stabby_row.specs.Seats.{view_of, IsReady, IsSameSeat, Stood, WalksTo, FrontGrows, StopsBy, IsAt};

use crate::base::RowSeat;
use crate::row::WordRow;
use crate::steps::Stop;
use stabby_layout::AllocationError;
use std::alloc::Global;

impl WordRow {
    // Walks to the node of this number, or to the end.
    pub(crate) fn walk_to(&self, seat: &mut RowSeat, front_len: u64, number: u64) -> Stop
        requires seat { (seat.old.table_id ≡ self.now.base.shared.table_id) × IsReady seat.old }
        requires seen { front_len ≡ length (view_of seat.old).nodes }
        ensures same { IsSameSeat seat.old seat.new × IsReady seat.new }
        ensures view { WalksTo (view_of seat.old) (view_of seat.new) (result.n + 1) result.found }
        ensures front { FrontGrows (view_of seat.old) (view_of seat.new) result.seen result.n result.seen }
        ensures stop { StopsBy number (view_of seat.new) result.found result.n result.at result.seen }
    {
        let mut n = 0;
        let mut at = 1;
        let mut seen = front_len;
        'links: loop {
            let next = self.link_word(seat, n, at, seen);
            if next == 0 {
                return Stop {
                    found: false,
                    n,
                    at,
                    seen,
                };
            }
            at = (next - 1) as usize;
            if n == seen {
                seen += 1;
            }
            if n == number {
                return Stop {
                    found: true,
                    n,
                    at,
                    seen,
                };
            }
            n += 1;
        }
    }

    // The n-th node's table.
    pub(crate) fn read_table(
        &self,
        alloc: Global,
        seat: &mut RowSeat,
        n: u64,
        at: usize,
    ) -> Result<Vec<u64>, AllocationError>
        requires seat { (seat.old.table_id ≡ self.now.base.shared.table_id) × IsReady seat.old }
        requires at { Stood (view_of seat.old) n at }
        ensures same { IsSameSeat seat.old seat.new × (seat.new.me ≡ seat.old.me) }
        ensures table { IfOk result (λ t. IsAt t.items (view_of seat.old).nodes n) }
        ensures memory { IfErr result (λ error. error ≡ AllocationError.Memory) }
    {
        let len = self.size_at(seat, n, at) as usize;
        let mut table = Vec::with_capacity(alloc, len)?;
        let mut i = 0;
        while i < len {
            table.push(self.word_at(seat, n, at, len, i))?;
            i += 1;
        }
        Ok(table)
    }
}
