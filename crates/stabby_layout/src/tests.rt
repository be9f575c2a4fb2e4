//! What the clauses mean at stated numbers, and each call that takes memory once where there is memory.
ghost use Rattle.std.specs.Prelude.{◌≡◌, IfOk};

use super::*;
use std::alloc::{AllocError, Global};
use std::cmp::Ordering;
use std::collections::hash_map::DefaultHasher;
use std::hash::{Hash, Hasher};
use std::test::*;

const fn layout(size: usize, align: usize) -> Layout
    ensures { result ≡ record { size = size; align = align } }
{
    Layout { size, align }
}

// A caller, as the README shows it: the block of one flag and then one number.
fn flag_and_number() -> Result<Layout, AllocationError>
    ensures { IfOk result (λ layout. layout ≡ record { size = 16; align = 8 }) }
{
    Layout::of::<u8>().concat(Layout::of::<u64>())
}

#[test]
fn layout_arithmetic(rt: HostRuntime) {
    let range = AllocationError::Range;
    assert_eq!(rt; layout(1, 1).concat(layout(8, 8)), Ok(layout(16, 8)));
    assert_eq!(rt; flag_and_number(), Ok(layout(16, 8)));
    assert_eq!(rt; layout(5, 1).realign(4), Ok(layout(8, 4)));
    assert_eq!(rt; Layout::array::<u64>(3), Ok(layout(24, 8)));
    assert_eq!(rt; Layout::array::<u64>(1 << 61), Err(range));
    assert_eq!(rt; layout(8, 8).next_matching(13), Ok(16));
    assert_eq!(rt; layout(8, 8).next_matching(usize::MAX), Err(range));
}

#[test]
fn number_types(rt: HostRuntime) -> Result<(), Fail> {
    let sizes = [
        (Layout::of::<u8>(), u8::id()),
        (Layout::of::<u16>(), u16::id()),
        (Layout::of::<u32>(), u32::id()),
        (Layout::of::<u64>(), u64::id()),
    ];
    assert_eq!(rt;
        sizes,
        [
            (layout(1, 1), 1),
            (layout(2, 2), 2),
            (layout(4, 4), 3),
            (layout(8, 8), 4),
        ]
    );
    let reports = [
        u8::report(rt.alloc())?,
        u16::report(rt.alloc())?,
        u32::report(rt.alloc())?,
        u64::report(rt.alloc())?,
    ];
    let mut names = [""; 4];
    let mut found = [[false; 4]; 4];
    for i in 0..4 {
        names[i] = reports[i].name().as_str();
        assert!(rt; reports[i].fields().is_empty());
        found[i] = [
            u8::report_is(&reports[i]),
            u16::report_is(&reports[i]),
            u32::report_is(&reports[i]),
            u64::report_is(&reports[i]),
        ];
    }
    assert_eq!(rt; names, ["u8", "u16", "u32", "u64"]);
    for i in 0..4 {
        for j in 0..4 {
            assert_eq!(rt; found[i][j], i == j);
        }
    }
    Ok(())
}

fn field(alloc: Global, name: &str, id: u64) -> Result<FieldReport, AllocationError> {
    Ok(FieldReport {
        name: Text::from_str(alloc, name)?,
        id,
        layout: layout(8, 8),
    })
}

fn pair(alloc: Global, second: &str) -> Result<TypeReport, AllocationError> {
    let mut fields = Vec::new(alloc);
    fields.push(field(alloc, "first", 4)?)?;
    fields.push(field(alloc, second, 4)?)?;
    Ok(TypeReport::new(Text::from_str(alloc, "Pair")?, fields))
}

#[test]
fn each_growing_call_succeeds(rt: HostRuntime) -> Result<(), Fail> {
    let report = pair(rt.alloc(), "second")?;
    let copy = report.copy()?;
    assert!(rt; copy == report);
    assert_eq!(rt; copy.name().as_str(), "Pair");
    assert_eq!(rt; copy.fields().len(), 2);
    assert_eq!(rt; copy.fields()[1].name.as_str(), "second");
    assert!(rt; copy != pair(rt.alloc(), "third")?);
    assert!(rt; !u64::report_is(&report));
    let text = Text::from_str(rt.alloc(), "né")?;
    assert_eq!(rt; text.copy()?.as_str(), "né");
    Ok(())
}

fn hash_of<T: Hash>(value: &T) -> u64 {
    let mut hasher = DefaultHasher::default();
    value.hash(&mut hasher);
    hasher.finish()
}

#[test]
fn texts_compare_as_bytes(rt: HostRuntime) -> Result<(), Fail> {
    let plain = Text::from_str(rt.alloc(), "nz")?;
    let accented = Text::from_str(rt.alloc(), "né")?;
    let again = accented.copy()?;
    assert!(rt; again == accented && plain != accented);
    assert_eq!(rt; plain.cmp(&accented), Ordering::Less);
    assert_eq!(rt; accented.partial_cmp(&again), Some(Ordering::Equal));
    assert_eq!(rt; hash_of(&again), hash_of(&accented));
    Ok(())
}

#[test]
fn greatest_capacity(rt: HostRuntime) {
    assert_eq!(rt; NonMaxUsize::new(usize::MAX), None);
    let greatest = NonMaxUsize::new(usize::MAX - 1);
    assert_eq!(rt; greatest.map(NonMaxUsize::get), Some(usize::MAX - 1));
}

#[test]
fn refusals_are_displayed_alike(rt: HostRuntime) -> Result<(), Fail> {
    for error in [AllocationError::Memory, AllocationError::Range] {
        assert_eq!(rt;
            format!(in rt.alloc(); "{error}")?.as_str(),
            "AllocationError"
        );
    }
    assert_eq!(rt; AllocationError::from(AllocError), AllocationError::Memory);
    Ok(())
}
