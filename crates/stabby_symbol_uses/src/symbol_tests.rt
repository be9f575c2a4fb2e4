//! Texts under the numbers of a fresh registry.
use stabby_registry::VtBtree;
use stabby_symbol::{intern_text, try_intern_text};
use std::test::Fail;

#[test]
fn interned_twice(rt: HostRuntime) -> Result<(), Fail> {
    let alloc = rt.alloc();
    let Ok((registry, mut pass)) = VtBtree::<5>::new(alloc) else {
        return Err("memory")?;
    };
    let first = intern_text(&rt, alloc, &registry, &mut pass, "x");
    let again = try_intern_text(alloc, &registry, &mut pass, "x");
    let other = try_intern_text(alloc, &registry, &mut pass, "");
    assert!(rt; matches!((first, again, other), (Ok(0), Ok(0), Ok(1))));
    Ok(())
}
