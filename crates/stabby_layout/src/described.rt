//! Types whose layout, id and fields are stated.
ghost use Rattle.std.specs.Prelude.{◌≡◌, ℕ, ◌≤◌, ◌<◌, ◌↔◌, IsTrue, IfOk, IfErr, IsErrOf};
ghost use Rattle.stabby_layout.specs.declared.layout.Layout.{Layout};
ghost use Rattle.stabby_layout.specs.declared.error.AllocationError.TheVariants.{Memory, Range};
ghost use Rattle.stabby_layout.specs.Report.{Report};
ghost use Rattle.stabby_layout.specs.Layouts.{repeated};

use crate::{AllocationError, Layout, Text, TypeReport};
use std::alloc::Global;

/// A type whose layout, id and report are stated. The layout's alignment is at least 1.
pub trait Described {
    ghost stated_layout: { Layout };

    ghost stated_id: { ℕ };

    ghost stated_report: { Report };

    /// The stated layout.
    fn layout() -> Layout
        ensures value { result ≡ stated_layout }
        ensures aligned { 1 ≤ result.align };

    /// The stated id.
    fn id() -> u64
        ensures { result ≡ stated_id };

    /// The stated report, or `Memory`.
    fn report(alloc: Global) -> Result<TypeReport, AllocationError>
        ensures ok { IfOk result (λ report. report ≡ stated_report) }
        ensures memory { IfErr result (λ error. error ≡ Memory) };

    /// Whether `report` is equal to the stated one: the same name, and the same fields in order.
    fn report_is(report: &TypeReport) -> bool
        ensures { IsTrue result ↔ (report.now ≡ stated_report) };

    ghost aligned: { 1 ≤ stated_layout.align };
}

impl Layout {
    /// The stated layout of `T`.
    pub fn of<T: Described>() -> Layout
        ensures { result ≡ T.stated_layout }
    {
        T::layout()
    }

    /// The layout of `n` values of type `T`, one after another.
    pub fn array<T: Described>(n: usize) -> Result<Layout, AllocationError>
        ensures ok { IfOk result (λ layout. layout ≡ repeated T.stated_layout n) }
        ensures range { IsErrOf result Range ↔ (usize.MAX < (repeated T.stated_layout n).size) }
        ensures err { IfErr result (λ error. error ≡ Range) }
    {
        T::layout().times(n)
    }
}
