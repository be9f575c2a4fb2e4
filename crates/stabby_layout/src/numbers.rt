//! What is stated of the four types of unsigned numbers.
ghost use Rattle.std.specs.Prelude.{◌≡◌, ◌↔◌, IsTrue, IfOk, IfErr, codes};
ghost use Rattle.std.proofs.Common.{arith};
ghost use Rattle.stabby_layout.specs.declared.error.AllocationError.TheVariants.{Memory};
ghost use Rattle.stabby_layout.specs.Report.{without_fields};

use crate::{AllocationError, Described, Layout, Text, TypeReport};
use std::alloc::Global;

impl Described for u8 {
    ghost stated_layout = { record { size = 1; align = 1 } };

    ghost stated_id = { 1 };

    ghost stated_report = { without_fields (codes "u8") };

    ghost aligned = { Prim.omega arith };

    fn layout() -> Layout {
        Layout { size: 1, align: 1 }
    }

    fn id() -> u64 {
        1
    }

    fn report(alloc: Global) -> Result<TypeReport, AllocationError> {
        report_without_fields(alloc, "u8")
    }

    fn report_is(report: &TypeReport) -> bool {
        is_without_fields(report, "u8")
    }
}

impl Described for u16 {
    ghost stated_layout = { record { size = 2; align = 2 } };

    ghost stated_id = { 2 };

    ghost stated_report = { without_fields (codes "u16") };

    ghost aligned = { Prim.omega arith };

    fn layout() -> Layout {
        Layout { size: 2, align: 2 }
    }

    fn id() -> u64 {
        2
    }

    fn report(alloc: Global) -> Result<TypeReport, AllocationError> {
        report_without_fields(alloc, "u16")
    }

    fn report_is(report: &TypeReport) -> bool {
        is_without_fields(report, "u16")
    }
}

impl Described for u32 {
    ghost stated_layout = { record { size = 4; align = 4 } };

    ghost stated_id = { 3 };

    ghost stated_report = { without_fields (codes "u32") };

    ghost aligned = { Prim.omega arith };

    fn layout() -> Layout {
        Layout { size: 4, align: 4 }
    }

    fn id() -> u64 {
        3
    }

    fn report(alloc: Global) -> Result<TypeReport, AllocationError> {
        report_without_fields(alloc, "u32")
    }

    fn report_is(report: &TypeReport) -> bool {
        is_without_fields(report, "u32")
    }
}

impl Described for u64 {
    ghost stated_layout = { record { size = 8; align = 8 } };

    ghost stated_id = { 4 };

    ghost stated_report = { without_fields (codes "u64") };

    ghost aligned = { Prim.omega arith };

    fn layout() -> Layout {
        Layout { size: 8, align: 8 }
    }

    fn id() -> u64 {
        4
    }

    fn report(alloc: Global) -> Result<TypeReport, AllocationError> {
        report_without_fields(alloc, "u64")
    }

    fn report_is(report: &TypeReport) -> bool {
        is_without_fields(report, "u64")
    }
}

// The report of a type of this name that has no fields.
fn report_without_fields(alloc: Global, name: &str) -> Result<TypeReport, AllocationError>
    ensures ok { IfOk result (λ report. report ≡ without_fields name.now) }
    ensures memory { IfErr result (λ error. error ≡ Memory) }
{
    let name = Text::from_str(alloc, name)?;
    Ok(TypeReport::new(name, Vec::new(alloc)))
}

// Whether the report is that of a type of this name that has no fields.
fn is_without_fields(report: &TypeReport, name: &str) -> bool
    ensures { IsTrue result ↔ (report.now ≡ without_fields name.now) }
{
    report.name().as_str() == name && report.fields().is_empty()
}
