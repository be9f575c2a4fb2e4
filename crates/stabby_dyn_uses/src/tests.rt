//! The callers, run, and the calls on shared erased slots.
use crate::{
    Content, Marked, Slot, ask_by_two_handles, put_convert_and_read, put_share_and_read,
    put_where_alone, share,
};
use stabby_count::Arc;
use stabby_dyn::{Dyn, DynRef, H, VtDrop};
use stabby_layout::Described;
use stabby_text::Box;
use std::test::Fail;

fn shared_number(rt: &HostRuntime, number: u64) -> Result<Dyn<Arc<Slot>, Marked>, Fail> {
    let slot = Slot::of_number(rt.alloc(), number).map_err(|_| "memory")?;
    match share(rt.alloc(), slot) {
        Ok(erased) => Ok(erased),
        Err(_) => Err("memory")?,
    }
}

// A number with the report of bytes.
fn number_told_as_byte(rt: &HostRuntime) -> Result<Slot, Fail> {
    let report = <u8 as Described>::report(rt.alloc()).map_err(|_| "memory")?;
    Ok(Slot {
        report,
        content: Content::Number(5),
    })
}

#[test]
fn downcasts(rt: HostRuntime) -> Result<(), Fail> {
    let erased = shared_number(&rt, 5)?;
    assert_eq!(rt; erased.stable_downcast_ref::<u64, H>(), Some(&5u64));
    assert!(rt; erased.stable_downcast_ref::<u8, H>().is_none());
    let table = *erased.vtable();
    let unlike = number_told_as_byte(&rt)?;
    let seen = DynRef::new(&unlike, table);
    assert!(rt; seen.stable_downcast::<u64, H>().is_none());
    assert!(rt; seen.stable_downcast::<u8, H>().is_none());
    let Ok(unlike) = share(rt.alloc(), unlike) else {
        return Err("memory")?;
    };
    assert!(rt; unlike.stable_downcast_ref::<u64, H>().is_none());
    assert_eq!(rt; *unlike.vtable(), table);
    Ok(())
}

#[test]
fn lends_while_it_is_alone(rt: HostRuntime) -> Result<(), Fail> {
    let mut erased = shared_number(&rt, 5)?;
    assert!(rt; erased.try_as_mut().is_some());
    let Ok(other) = erased.clone_dyn(&rt) else {
        return Err("memory")?;
    };
    assert!(rt; erased.try_as_mut().is_none());
    assert!(rt; !put_where_alone(&mut erased, 6));
    other.end();
    assert!(rt; put_where_alone(&mut erased, 6));
    assert_eq!(rt; erased.as_ref().stable_downcast::<u64, H>(), Some(&6u64));
    Ok(())
}

#[test]
fn upgrades_while_a_strong_handle_is_there(rt: HostRuntime) -> Result<(), Fail> {
    let mut erased = shared_number(&rt, 5)?;
    let Ok(mut weak) = erased.downgrade(&rt) else {
        return Err("memory")?;
    };
    let Ok(Some(strong)) = weak.upgrade(&rt) else {
        return Err("a strong handle is there")?;
    };
    assert_eq!(rt; strong.stable_downcast_ref::<u64, H>(), Some(&5u64));
    strong.end();
    erased.end();
    assert!(rt; matches!(weak.upgrade(&rt), Ok(None)));
    Ok(())
}

#[test]
fn one_is_read_in_two_threads(rt: HostRuntime) -> Result<(), Fail> {
    let slot = Slot::of_number(rt.alloc(), 5).map_err(|_| "memory")?;
    let Ok(answers) = put_share_and_read(&rt, rt.alloc(), slot, 6) else {
        return Err("memory")?;
    };
    assert_eq!(rt; answers.number, Some(6));
    assert_eq!(rt; answers.byte, None);
    assert_eq!(rt; answers.converted, Some(6));
    Ok(())
}

#[test]
fn two_handles_end_in_two_threads(rt: HostRuntime) -> Result<(), Fail> {
    let mut first = shared_number(&rt, 5)?;
    let Ok(second) = first.clone_dyn(&rt) else {
        return Err("memory")?;
    };
    assert_eq!(rt; ask_by_two_handles(&rt, first, second), (Some(5), Some(5)));
    Ok(())
}

#[test]
fn bytes_and_boxes(rt: HostRuntime) -> Result<(), Fail> {
    let slot = Slot::of_byte(rt.alloc(), 7).map_err(|_| "memory")?;
    let Ok(erased) = share(rt.alloc(), slot) else {
        return Err("memory")?;
    };
    assert_eq!(rt; erased.stable_downcast_ref::<u8, H>(), Some(&7u8));
    let slot = Slot::of_number(rt.alloc(), 5).map_err(|_| "memory")?;
    let Ok(read) = put_convert_and_read(rt.alloc(), slot, 6) else {
        return Err("memory")?;
    };
    assert_eq!(rt; read, Some(6));
    Ok(())
}

#[test]
fn box_lends_its_slot(rt: HostRuntime) -> Result<(), Fail> {
    let slot = Slot::of_number(rt.alloc(), 5).map_err(|_| "memory")?;
    let Ok(boxed) = Box::new_in(rt.alloc(), slot) else {
        return Err("memory")?;
    };
    let mut erased = Dyn::from_ptr(boxed, VtDrop { word: 3 });
    let lent = erased.as_mut();
    assert!(rt; matches!(lent.ptr().content, Content::Number(5)));
    Ok(())
}
