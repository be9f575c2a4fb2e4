//! Single steps on the row.
ghost use Rattle.std.specs.Prelude.{◌≡◌, ℕ, ◌+◌, ◌-◌, ◌<◌, ◌≤◌, ◌^◌, [], take, max, length};
ghost use Rattle.stabby_row.specs.Rule.{Absent};
ghost use Rattle.stabby_row.specs.Telling.{noting, walking, ending, writing, claiming};
ghost use Rattle.stabby_row.specs.Seats.{view_of, IsReady, IsSameSeat, Reached, Stood, ShowsNode, IsSizeAt, IsWordAt};
ghost use Rattle.stabby_row.specs.Seats.{TellsTable, WalksTo, FrontGrows, StopsAt, HasRoomAt};
ghost use Rattle.stabby_row.specs.Seats.{claim_with, node_words, with_node, HungOwn, LostTo};

use crate::base::RowSeat;
use crate::plays::{Claims, Link, Measure, Note, Pass, Put, Read, Walk};
use crate::row::WordRow;

// Where a walk stopped: at the n-th node, which has the table, or at the empty link behind n nodes.
#[derive(Drop)]
pub(crate) struct Stop {
    pub found: bool,
    pub n: u64,
    pub at: usize,
    pub seen: u64,
}

impl WordRow {
    pub(crate) fn note(&self, seat: &mut RowSeat, k: u64)
        requires { (seat.old.table_id ≡ self.now.base.shared.table_id) × IsReady seat.old }
        ensures same { IsSameSeat seat.old seat.new }
        ensures view { seat.new.me ≡ (noting k (view_of seat.old), []) }
    {
        self.base.shared.compare_exchange::<Note>(seat, 0, k, k);
    }

    pub(crate) fn claim(&self, seat: &mut RowSeat, needed: u64) -> u64
        requires seat { (seat.old.table_id ≡ self.now.base.shared.table_id) × IsReady seat.old }
        requires small { needed ≤ (view_of seat.old).room }
        requires unaware { (view_of seat.old).left ≤ (view_of seat.old).room }
        ensures same { IsSameSeat seat.old seat.new }
        ensures view { seat.new.me ≡ (claiming result needed (view_of seat.old), []) }
        ensures sum { result + needed < 2 ^ 64 }
    {
        self.base.shared.fetch_add::<Claims>(seat, 0, needed)
    }

    // The link behind the first n nodes, of which the front has more.
    fn link_within(&self, seat: &mut RowSeat, n: u64, at: usize) -> u64
        requires seat { (seat.old.table_id ≡ self.now.base.shared.table_id) × IsReady seat.old }
        requires at { Reached (view_of seat.old) n at × (n < length (view_of seat.old).nodes) }
        ensures same { IsSameSeat seat.old seat.new }
        ensures view { seat.new.me ≡ (walking (view_of seat.old), []) }
        ensures node { (0 < result) × Stood (view_of seat.new) n (result - 1) }
    {
        self.base.shared.load::<Walk>(seat, at)
    }

    // The link past the front.
    fn link_past(&self, seat: &mut RowSeat, n: u64, at: usize) -> u64
        requires seat { (seat.old.table_id ≡ self.now.base.shared.table_id) × IsReady seat.old }
        requires at { Reached (view_of seat.old) n at × (n ≡ length (view_of seat.old).nodes) }
        ensures same { IsSameSeat seat.old seat.new × IsReady seat.new }
        ensures end { result ≡ 0 → seat.new.me ≡ (ending (view_of seat.old), []) }
        ensures node { 0 < result → ShowsNode (view_of seat.old) (view_of seat.new) (n + 1) n result }
    {
        self.base.shared.load::<Pass>(seat, at)
    }

    // The length of the n-th node's table.
    pub(crate) fn size_at(&self, seat: &mut RowSeat, n: u64, at: usize) -> u64
        requires seat { (seat.old.table_id ≡ self.now.base.shared.table_id) × IsReady seat.old }
        requires at { Stood (view_of seat.old) n at }
        ensures same { IsSameSeat seat.old seat.new × (seat.new.me ≡ seat.old.me) }
        ensures size { IsSizeAt (view_of seat.old) at result }
    {
        self.base.shared.load::<Measure>(seat, at + 1)
    }

    // A word of the n-th node's table.
    pub(crate) fn word_at(&self, seat: &mut RowSeat, n: u64, at: usize, len: usize, i: usize) -> u64
        requires seat { (seat.old.table_id ≡ self.now.base.shared.table_id) × IsReady seat.old }
        requires at { (s : Stood (view_of seat.old) n at) × (len ≡ length s.node.table) }
        requires inside { i < len }
        ensures same { IsSameSeat seat.old seat.new × (seat.new.me ≡ seat.old.me) }
        ensures word { IsWordAt (view_of seat.old) at i result }
    {
        self.base.shared.load::<Read>(seat, at + (2 + i))
    }

    // Whether the n-th node has this table.
    pub(crate) fn has_table(&self, seat: &mut RowSeat, n: u64, at: usize, table: &[u64]) -> bool
        requires seat { (seat.old.table_id ≡ self.now.base.shared.table_id) × IsReady seat.old }
        requires at { Stood (view_of seat.old) n at }
        ensures same { IsSameSeat seat.old seat.new × (seat.new.me ≡ seat.old.me) }
        ensures told { TellsTable table.now (view_of seat.old) n at result }
    {
        if self.size_at(seat, n, at) != table.len() as u64 {
            return false;
        }
        let mut i = 0;
        while i < table.len() {
            if self.word_at(seat, n, at, table.len(), i) != table[i] {
                return false;
            }
            i += 1;
        }
        true
    }

    // The link behind the first n nodes.
    pub(crate) fn link_word(&self, seat: &mut RowSeat, n: u64, at: usize, seen: u64) -> u64
        requires seat { (seat.old.table_id ≡ self.now.base.shared.table_id) × IsReady seat.old }
        requires at { Reached (view_of seat.old) n at }
        requires seen { seen ≡ length (view_of seat.old).nodes }
        ensures same { IsSameSeat seat.old seat.new × IsReady seat.new }
        ensures end { result ≡ 0 → (n ≡ seen) × (view_of seat.new ≡ ending (view_of seat.old)) }
        ensures node { 0 < result → ShowsNode (view_of seat.old) (view_of seat.new) (max seen (n + 1)) n result }
    {
        if n < seen {
            self.link_within(seat, n, at)
        } else {
            self.link_past(seat, n, at)
        }
    }

    // Walks the links from behind the first `start` nodes, as far as the table or the end.
    pub(crate) fn walk(
        &self,
        seat: &mut RowSeat,
        start: u64,
        link: usize,
        front_len: u64,
        table: &[u64],
    ) -> Stop
        requires seat { (seat.old.table_id ≡ self.now.base.shared.table_id) × IsReady seat.old }
        requires at { Reached (view_of seat.old) start link }
        requires seen { front_len ≡ length (view_of seat.old).nodes }
        requires absent { Absent table.now (take start (view_of seat.old).nodes) }
        ensures same { IsSameSeat seat.old seat.new × IsReady seat.new }
        ensures view { WalksTo (view_of seat.old) (view_of seat.new) (result.n + 1 - start) result.found }
        ensures front { FrontGrows (view_of seat.old) (view_of seat.new) result.seen start result.n }
        ensures stop { StopsAt table.now (view_of seat.new) result.found result.n result.at result.seen }
        ensures absent { Absent table.now (take result.n (view_of seat.new).nodes) }
    {
        let mut n = start;
        let mut at = link;
        let mut seen = front_len;
        'links: loop {
            let next = self.link_word(seat, n, at, seen);
            if next == 0 {
                return Stop {
                    found: false,
                    n,
                    at,
                    seen,
                };
            }
            at = (next - 1) as usize;
            if n == seen {
                seen += 1;
            }
            if self.has_table(seat, n, at, table) {
                return Stop {
                    found: true,
                    n,
                    at,
                    seen,
                };
            }
            n += 1;
        }
    }

    fn put(&self, seat: &mut RowSeat, at: usize, x: u64)
        requires seat { (seat.old.table_id ≡ self.now.base.shared.table_id) × IsReady seat.old }
        requires at { at ≡ (view_of seat.old).claim.start + length (view_of seat.old).claim.written }
        requires inside { HasRoomAt (view_of seat.old) at }
        ensures same { IsSameSeat seat.old seat.new }
        ensures view { seat.new.me ≡ (writing x (view_of seat.old), []) }
    {
        self.base.shared.store::<Put>(seat, at, x);
    }

    // Writes the claim: an empty link, the length and the table.
    pub(crate) fn write_node(&self, seat: &mut RowSeat, start: usize, table: &[u64])
        requires seat { (seat.old.table_id ≡ self.now.base.shared.table_id) × IsReady seat.old }
        requires claim { (view_of seat.old).claim ≡ claim_with start (2 + length table.now) [] }
        requires inside { start + (2 + length table.now) ≤ (view_of seat.old).room + 2 }
        ensures same { IsSameSeat seat.old seat.new }
        ensures view { seat.new.me ≡ (with_node start table.now (view_of seat.old), []) }
    {
        self.put(seat, start, 0);
        self.put(seat, start + 1, table.len() as u64);
        let mut i = 0;
        while i < table.len() {
            self.put(seat, start + (2 + i), table[i]);
            i += 1;
        }
    }

    // Hangs the node on the link past the front, or finds the node that is there.
    pub(crate) fn hang(
        &self,
        seat: &mut RowSeat,
        n: u64,
        at: usize,
        start: u64,
        table: &[u64],
    ) -> u64
        requires seat { (seat.old.table_id ≡ self.now.base.shared.table_id) × IsReady seat.old }
        requires at { Reached (view_of seat.old) n at × (n ≡ length (view_of seat.old).nodes) }
        requires claim { (view_of seat.old).claim ≡ claim_with start (2 + length table.now) (node_words table.now) }
        requires inside { start < (view_of seat.old).room + 2 }
        requires absent { Absent table.now (view_of seat.old).nodes }
        ensures same { IsSameSeat seat.old seat.new × IsReady seat.new }
        ensures won { result ≡ 0 → HungOwn (view_of seat.old) (view_of seat.new) start table.now }
        ensures lost { 0 < result → LostTo (view_of seat.old) (view_of seat.new) n result }
    {
        self.base
            .shared
            .compare_exchange::<Link>(seat, at, 0, start + 1)
    }
}
