//! The report of a type.

ghost use Rattle.std.specs.Prelude.{◌≡◌, ◌∷◌, [], IfOk, IfErr};

use stabby_layout::{AllocationError, Described, FieldReport, Text, TypeReport};
use std::alloc::Global;

// The report of a field of type `T`.
fn field<T: Described>(alloc: Global, name: &str) -> Result<FieldReport, AllocationError>
    ensures ok { IfOk result (λ field. field ≡ record { name = name.now; id = T.stated_id; layout = T.stated_layout }) }
    ensures memory { IfErr result (λ error. error ≡ AllocationError.Memory) }
{
    Ok(FieldReport {
        name: Text::from_str(alloc, name)?,
        id: T::id(),
        layout: T::layout(),
    })
}

/// The report of a type of this name with two fields, the first of type `A` and the second of type `B`.
///
/// # Errors
/// `Memory`, where the report finds none.
pub fn pair_report<A: Described, B: Described>(
    alloc: Global,
    name: &str,
    first: &str,
    second: &str,
) -> Result<TypeReport, AllocationError>
    ensures name { IfOk result (λ report. report.name ≡ name.now) }
    ensures fields { IfOk result (λ report. report.fields
        ≡ record { name = first.now; id = A.stated_id; layout = A.stated_layout }
        ∷ record { name = second.now; id = B.stated_id; layout = B.stated_layout } ∷ []) }
    ensures memory { IfErr result (λ error. error ≡ AllocationError.Memory) }
{
    let mut fields = Vec::new(alloc);
    fields.push(field::<A>(alloc, first)?)?;
    fields.push(field::<B>(alloc, second)?)?;
    Ok(TypeReport::new(Text::from_str(alloc, name)?, fields))
}
