//! A share of a counted block: the raw type, whose functions alone are proved by hand.
ghost use Rattle.std.specs.Prelude.{◌≡◌, ◌⊎◌, ℕ, List, [], ◌∷◌, MatchResult};
ghost use Rattle.atomic_table.specs.Marked.{Keeps};
ghost use Rattle.stabby_count_word.specs.Changes.{MayChange, kind_after, kind_before};
ghost use Rattle.stabby_count_word.specs.Kinds.{Kind, kind_coded, nothing, one_strong, two_strong, last, emptied, block, one_weak, strong_and_weak, two_weak, held};
ghost use Rattle.stabby_count_word.specs.Rights.{BlockNames, block_names_coded, Cuts, strong_half, share_owns, share_shares};
ghost use Rattle.stabby_count_word.specs.Steps.{IsStrong, KindBy, MayLook, Settles, exchanged, less_by};

use crate::rule::{CountExchange, CountRule, CountSplit, CountStep};
use crate::seat::Seat;
use atomic_table::exchange;
use std::alloc::Allocator;
use std::marker::{Brand, Model, PhantomData};
use std::sync::atomic::Ordering::SeqCst;
use std::sync::atomic::raw;
use std_alloc::room::Vacant;

// The block: two 32-bit counts in a word, strong above weak, and the value.
struct Inner<T, A> {
    word: u64,
    alloc: A,
    value: T,
}

/// A share of a block with a counted word and a value, and its seat, under the rule `P` over the word and all views.
///
/// It can't be copied or let go: a step changes its kind, `split` gives one of two shares away, and it ends by `done`, at kind `nothing`, or by
/// `free`, at kind `block`. A step is one sequentially consistent access. An exchange that reads another word than it expects has written nothing.
pub struct Share<T, A: Allocator, W, P: CountRule<W>> {
    ptr: *mut Inner<T, A>,
    marker: PhantomData<(W, P)>,
    // Which block it is of.
    pub ghost names: { BlockNames } by { block_names_coded },
    pub ghost round: { ℕ },
    pub ghost value: { T },
    pub ghost kind: { Kind } by { kind_coded },
    pub ghost id: { ℕ },
    pub ghost view: { W },
}

impl<T, A: Allocator, W, P: CountRule<W>> Model for Share<T, A, W, P> {
    ghost also_owns = { λ s. share_owns A.row T.row A.dealloc_token W.row.coded.code P.holds s.names (s.round, (s.value, s.ptr)) s.kind s.id s.view };

    ghost also_shares = { λ s _ κ. share_shares A.row T.row (s.round, (s.value, s.ptr)) s.kind κ };
}

impl<T, A: Allocator, W, P: CountRule<W>> Share<T, A, W, P> {
    ghost use Rattle.std.specs.Borrow.{sem};
    ghost use Rattle.stabby_count_word.specs.Lending.{lends_value};

    /// A value in a block of its own, with one strong share, its seat and the value's own weak unit.
    ///
    /// # Errors
    ///
    /// The value, where there is no memory.
    pub fn make(alloc: A, value: T) -> Result<Share<T, A, W, P>, T>
        requires { P.holds 4294967297 (P.first ∷ []) }
        ensures { MatchResult result (λ made. (made.value ≡ value) × (made.kind ≡ one_strong) × (made.view ≡ P.first)) (λ back. back ≡ value) }
    {
        match Vacant::take(alloc) {
            Ok(room) => Ok(Share::write_into(room, value)),
            Err(_) => Err(value),
        }
    }

    fn write_into(room: Vacant<Inner<T, A>, A>, value: T) -> Share<T, A, W, P>
        requires { P.holds 4294967297 (P.first ∷ []) }
        ensures { (result.value ≡ value) × (result.kind ≡ one_strong) × (result.view ≡ P.first) }
    {
        let Vacant { ptr, alloc } = room;
        unsafe {
            ptr.write(Inner {
                word: 4294967297,
                alloc,
                value,
            });
        }
        Share {
            ptr,
            marker: PhantomData,
        }
    }

    /// The value, which a strong share can read.
    pub fn show(&self) -> &T
        requires { IsStrong self.now.kind }
        ensures { result.now ≡ self.now.value }
    {
        unsafe { &(*self.ptr).value }
    }

    /// The value of a sole share, to be changed where it is.
    pub fn show_mut(&mut self) -> &mut T
        requires { self.old.kind ≡ held }
        ensures* writes_back { sem 𝓛 (lends_value T.row A.row W.row P.row A.Allocator P.CountRule self.entry result) }
        ensures value { result.now ≡ self.old.value }
    {
        unsafe { &mut (*self.ptr).value }
    }

    /// A load.
    pub fn look<M: CountStep<W>>(&mut self) -> u64
        requires kind { MayLook self.old.kind }
        requires view { Keeps P.holds self.old.id self.old.view (λ n. n) (M.then 0 0 self.old.view) }
        ensures same { self.new ≡ record self.old { view = self.new.view } }
        ensures told { M.then 0 0 self.old.view result self.new.view }
    {
        unsafe { raw::load::<Brand>(&raw const (*self.ptr).word, SeqCst) }
    }

    /// Where the word is `old`, it becomes `new`, and the share's kind changes with it.
    pub fn exchange<M: CountExchange<W>>(&mut self, old: u64, new: u64) -> u64
        requires counts { MayChange M.change old new }
        requires kind { self.old.kind ≡ kind_before M.change }
        requires view { Keeps P.holds self.old.id self.old.view (exchanged old new) (M.then old new self.old.view) }
        ensures same { self.new ≡ record self.old { kind = self.new.kind; view = self.new.view } }
        ensures told { M.then old new self.old.view result self.new.view }
        ensures kind { KindBy result old (kind_after M.change) (kind_before M.change) self.new.kind }
    {
        unsafe { exchange::<Brand>(&raw const (*self.ptr).word, old, new) }
    }

    /// A load. Where it reads one strong and one weak, the value itself is the share's, to be changed and brought back.
    pub fn seize<M: CountStep<W>>(&mut self) -> u64
        requires kind { IsStrong self.old.kind }
        requires view { Keeps P.holds self.old.id self.old.view (λ n. n) (M.then 0 0 self.old.view) }
        ensures same { self.new ≡ record self.old { kind = self.new.kind; view = self.new.view } }
        ensures told { M.then 0 0 self.old.view result self.new.view }
        ensures kind { KindBy result 4294967297 held one_strong self.new.kind }
    {
        unsafe { raw::load::<Brand>(&raw const (*self.ptr).word, SeqCst) }
    }

    /// A load, at which a share that holds its value brings it back for others to share.
    pub fn give_back<M: CountStep<W>>(&mut self) -> u64
        requires kind { MayLook self.old.kind }
        requires view { Keeps P.holds self.old.id self.old.view (λ n. n) (M.then 0 0 self.old.view) }
        ensures same { (self.new.names ≡ self.old.names) × (self.new.id ≡ self.old.id) × (self.new.value ≡ self.old.value) }
        ensures told { M.then 0 0 self.old.view result self.new.view }
        ensures kind { Settles self.old.kind self.new.kind }
    {
        unsafe { raw::load::<Brand>(&raw const (*self.ptr).word, SeqCst) }
    }

    /// A load, at which the view is cut in two, and one of two shares goes to a new seat.
    pub fn split<M: CountSplit<W>>(&mut self) -> Share<T, A, W, P>
        requires kind { (self.old.kind ≡ two_strong) ⊎ ((self.old.kind ≡ strong_and_weak) ⊎ (self.old.kind ≡ two_weak)) }
        requires view { Cuts P.holds self.old.id self.old.view (M.left self.old.view) (M.right self.old.view) }
        ensures same { (self.new.names ≡ self.old.names) × (self.new.value ≡ self.old.value) × (result.names ≡ self.old.names) × (result.value ≡ self.old.value) }
        ensures views { (self.new.view ≡ M.left self.old.view) × (result.view ≡ M.right self.old.view) }
        ensures strong { self.old.kind ≡ two_strong → (self.new.kind ≡ one_strong) × (result.kind ≡ one_strong) }
        ensures both { self.old.kind ≡ strong_and_weak → (self.new.kind ≡ one_strong) × (result.kind ≡ one_weak) }
        ensures weak { self.old.kind ≡ two_weak → (self.new.kind ≡ one_weak) × (result.kind ≡ one_weak) }
    {
        unsafe { raw::load::<Brand>(&raw const (*self.ptr).word, SeqCst) };
        Share {
            ptr: self.ptr,
            marker: PhantomData,
        }
    }

    /// One strong share less, also by a share that holds its value. Whoever reads one strong share has the value outright.
    pub fn end_strong<M: CountStep<W>>(&mut self) -> u64
        requires kind { IsStrong self.old.kind }
        requires view { Keeps P.holds self.old.id self.old.view (less_by 4294967296) (M.then 0 0 self.old.view) }
        ensures same { (self.new.names ≡ self.old.names) × (self.new.id ≡ self.old.id) × (self.new.value ≡ self.old.value) }
        ensures told { M.then 0 0 self.old.view result self.new.view }
        ensures kind { KindBy (strong_half result) 1 last nothing self.new.kind }
    {
        unsafe { raw::fetch_sub::<Brand>(&raw const (*self.ptr).word, 4294967296, SeqCst) }
    }

    /// Moves the value out of the block.
    pub fn take(&mut self) -> T
        requires { self.old.kind ≡ last }
        ensures { (result ≡ self.old.value) × (self.new ≡ record self.old { kind = emptied }) }
    {
        unsafe { (&raw const (*self.ptr).value).read() }
    }

    /// One unit of the low half less: a weak share's, or that of a value that was taken. Whoever reads one has the block.
    pub fn end_weak<M: CountStep<W>>(&mut self) -> u64
        requires kind { (self.old.kind ≡ one_weak) ⊎ (self.old.kind ≡ emptied) }
        requires view { Keeps P.holds self.old.id self.old.view (less_by 1) (M.then 0 0 self.old.view) }
        ensures same { self.new ≡ record self.old { kind = self.new.kind; view = self.new.view } }
        ensures told { M.then 0 0 self.old.view result self.new.view }
        ensures kind { KindBy result 1 block nothing self.new.kind }
    {
        unsafe { raw::fetch_sub::<Brand>(&raw const (*self.ptr).word, 1, SeqCst) }
    }

    /// Frees the block, and leaves the seat.
    pub fn free(self) -> Seat<W>
        requires { self.kind ≡ block }
        ensures { (result.views ≡ self.names.views) × (result.view ≡ self.view) }
    {
        let mut share = self;
        share.take_room().free();
        share.done()
    }

    fn take_room(&mut self) -> Vacant<Inner<T, A>, A>
        requires { self.old.kind ≡ block }
        ensures { self.new ≡ record self.old { kind = nothing } }
    {
        let ptr = self.ptr;
        unsafe {
            let alloc = (&raw const (*ptr).alloc).read();
            Vacant { ptr, alloc }
        }
    }

    /// The seat of a share that has no right.
    pub fn done(self) -> Seat<W>
        requires { self.kind ≡ nothing }
        ensures { (result.views ≡ self.names.views) × (result.view ≡ self.view) }
    {
        let Share { ptr: _, marker: _ } = self;
        Seat {
            marker: PhantomData,
        }
    }
}

unsafe impl<T: Send + Sync, A: Allocator + Send + Sync, W, P: CountRule<W>> Send
    for Share<T, A, W, P> {}

unsafe impl<T: Send + Sync, A: Allocator + Send + Sync, W, P: CountRule<W>> Sync
    for Share<T, A, W, P> {}
