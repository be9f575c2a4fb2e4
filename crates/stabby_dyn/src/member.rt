//! Values of a named universe, and the types that are members of it.
ghost use Rattle.std.specs.Prelude.{◌≡◌, ◌↔◌, IfSome, IsSome, IsTrue, Option, Some, ℕ};
ghost use Rattle.std.specs.Borrow.{sem, LendsIf};
ghost use Rattle.stabby_layout.specs.Report.{Report};
ghost use Rattle.stabby_dyn.specs.Types.{IsType};

use stabby_layout::{Described, TypeReport};

/// A value that tells the id and the report of its type.
pub trait Any {
    ghost type_report: { Self → Report };

    ghost type_id: { Self → ℕ };

    /// The report of the value's type.
    fn report(&self) -> &TypeReport
        ensures { result.now ≡ type_report self.now };

    /// The id of the value's type.
    fn id(&self) -> u64
        ensures { result ≡ type_id self.now };
}

/// A named set of values of several types: an erased value is one of them.
///
/// Two values whose ids and reports are equal are of one kind.
pub trait Universe: Any {
    ghost kind_number: { Self → ℕ };

    /// The number of the value's kind.
    fn kind(&self) -> u64
        ensures { result ≡ kind_number self.now };

    ghost kind_by_type: { (x y : Self) → Self.type_id x ≡ Self.type_id y → Self.type_report x ≡ Self.type_report y
        → kind_number x ≡ kind_number y };
}

/// A type whose values stand in the universe `U`.
///
/// What is written to a value's content is its content afterwards.
pub trait Member<U: Universe>: Described {
    ghost content: { U → Option Self };

    ghost with_content: { U → Self → U };

    /// The value's content: `Some` where its id and its report are this type's.
    fn pick(value: &U) -> Option<&Self>
        ensures shows { IfSome result (λ r. content value.now ≡ Some r.now) }
        ensures some { U.type_id value.now ≡ Self.stated_id
            → U.type_report value.now ≡ Self.stated_report → IsSome result };

    /// As `pick`, and to be changed.
    fn pick_mut(value: &mut U) -> Option<&mut Self>
        ensures* writes_back { sem 𝓛 (LendsIf U.row Self.row value.entry result (with_content value.old) value.old) }
        ensures shows { IfSome result (λ r. content value.old ≡ Some r.now) }
        ensures some { U.type_id value.old ≡ Self.stated_id
            → U.type_report value.old ≡ Self.stated_report → IsSome result };

    ghost content_put: { (u : U) (x y : Self) → content u ≡ Some x → content (with_content u y) ≡ Some y };
}

// Whether the value's id and report are those of X.
fn is_of<U: Universe, X: Member<U>>(value: &U) -> bool
    ensures { IsTrue result ↔ IsType (U.type_id value.now) (U.type_report value.now) X.stated_id X.stated_report }
{
    value.id() == X::id() && X::report_is(value.report())
}

/// The value's content, where its id and its report are those of `X`.
pub(crate) fn downcast<U: Universe, X: Member<U>>(value: &U) -> Option<&X>
    ensures cause { IsSome result ↔ IsType (U.type_id value.now) (U.type_report value.now) X.stated_id X.stated_report }
    ensures shows { IfSome result (λ r. X.content value.now ≡ Some r.now) }
{
    if is_of::<U, X>(value) {
        X::pick(value)
    } else {
        None
    }
}

/// As `downcast`, and to be changed.
pub(crate) fn downcast_mut<U: Universe, X: Member<U>>(value: &mut U) -> Option<&mut X>
    ensures* writes_back { sem 𝓛 (LendsIf U.row X.row value.entry result (X.with_content value.old) value.old) }
    ensures cause { IsSome result ↔ IsType (U.type_id value.old) (U.type_report value.old) X.stated_id X.stated_report }
    ensures shows { IfSome result (λ r. X.content value.old ≡ Some r.now) }
{
    if is_of::<U, X>(value) {
        X::pick_mut(value)
    } else {
        None
    }
}
