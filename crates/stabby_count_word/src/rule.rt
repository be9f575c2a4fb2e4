//! What the crate above says of a counted block: its rule, and what each step and split does to a view.
ghost use Rattle.std.specs.Prelude.{ℕ, List};
ghost use Rattle.stabby_count_word.specs.Changes.{Change};

/// The rule of a block's word, where `W` is what a share's seat knows, its view.
pub trait CountRule<W> {
    // What holds between any two steps, of the word and of all views.
    ghost holds: { ℕ → List W → Type 0 };
    // The view of the first seat.
    ghost first: { W };
}

/// What a step does to its seat's view, and tells its caller.
pub trait CountStep<W> {
    // Of the word expected (0 where there is none), the word to write, the view before, the word found and the view after.
    ghost then: { ℕ → ℕ → W → ℕ → W → Type 0 };
}

/// How an exchange changes the counts, what it does to its seat's view, and what it tells its caller.
pub trait CountExchange<W> {
    ghost change: { Change };
    // As of a `CountStep`.
    ghost then: { ℕ → ℕ → W → ℕ → W → Type 0 };
}

/// How a view is cut in two.
pub trait CountSplit<W> {
    // The view that is left.
    ghost left: { W → W };
    // The view of the new seat.
    ghost right: { W → W };
}
