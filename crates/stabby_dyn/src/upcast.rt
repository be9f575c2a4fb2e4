//! Which erased value is turned into which, by taking interfaces off its table.

/// An erased value that turns into the erased value `S`, whose table stands inside its own.
///
/// The fifteen conversions of a `Dyn`, and the same of a `DynRef`, take off a head, one marker or two, or a head from
/// under its markers, which stay or go with it. Each keeps the pointer, what is left of the table, and so its drop
/// entry.
pub trait IntoSuperTrait<S> {
    // Of the value before and after.
    ghost keeps: { Self → S → Type 0 };

    /// The same pointer, with the table that stands inside.
    fn into_super(this: Self) -> S
        ensures { keeps this result };
}
