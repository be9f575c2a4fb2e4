//! Shared slices on one thread.
use stabby_count::{ArcSlice, WeakSlice};
use stabby_vec::Vec;
use std::alloc::Global;
use std::cmp::Ordering;
use std::fmt;
use std::hash::{DefaultHasher, Hash, Hasher};
use std::test::Fail;

fn listed(alloc: Global) -> Result<ArcSlice<u8>, Fail> {
    let mut list = Vec::new_in(alloc);
    for byte in [1u8, 255] {
        if list.try_push(byte).is_err() {
            return Err(Fail::from("no memory for a list"));
        }
    }
    match ArcSlice::from_vec(alloc, list) {
        Ok(made) => Ok(made),
        Err(_) => Err(Fail::from("no memory to share a list")),
    }
}

fn not_unwrapped(answer: Result<Vec<u8, Global>, ArcSlice<u8>>) -> Result<ArcSlice<u8>, Fail> {
    match answer {
        Ok(_) => Err(Fail::from("another handle is there")),
        Err(back) => Ok(back),
    }
}

#[test]
fn shared_slice(rt: HostRuntime) -> Result<(), Fail> {
    let mut first = listed(rt.alloc())?;
    let Ok(second) = first.clone(&rt) else {
        return Err(Fail::from("a clone was refused"));
    };
    assert_eq!(rt; first.strong_count(), 2);
    assert!(rt; first.as_slice_mut().is_none());
    let first = not_unwrapped(first.try_into_vec())?;
    assert_eq!(rt; second.as_slice(), [1, 255].as_slice());
    drop(second);
    match first.try_into_vec() {
        Ok(list) => {
            assert_eq!(rt; list.capacity(), 8);
            assert_eq!(rt; list.as_slice(), [1, 255].as_slice());
        }
        Err(_) => return Err(Fail::from("it is the only handle")),
    }
    Ok(())
}

#[test]
fn weak_slice_outlives(rt: HostRuntime) -> Result<(), Fail> {
    let mut first = listed(rt.alloc())?;
    let Ok(mut aside) = first.downgrade(&rt) else {
        return Err(Fail::from("a downgrade was refused"));
    };
    let first = not_unwrapped(first.try_into_vec())?;
    match aside.try_upgrade() {
        Ok(Some(again)) => assert_eq!(rt; again.len(), 2),
        _ => return Err(Fail::from("the slice is there")),
    }
    let other: WeakSlice<u8> = match aside.clone(&rt) {
        Ok(other) => other,
        Err(_) => return Err(Fail::from("a weak clone was refused")),
    };
    drop(other);
    drop(first);
    assert!(rt; matches!(aside.upgrade(&rt), Ok(None)));
    assert_eq!(rt; aside.end().word(), 1);
    Ok(())
}

#[test]
fn sole_slice_changes_in_place(rt: HostRuntime) -> Result<(), Fail> {
    let mut first = listed(rt.alloc())?;
    let Some(items) = first.as_slice_mut() else {
        return Err(Fail::from("it is the only handle"));
    };
    assert_eq!(rt; &*items, [1, 255].as_slice());
    items[0] = 7;
    assert_eq!(rt; first.as_slice(), [7, 255].as_slice());
    let Ok(mut second) = first.clone(&rt) else {
        return Err(Fail::from("a clone was refused"));
    };
    assert_eq!(rt; second.as_slice(), [7, 255].as_slice());
    assert!(rt; second.as_slice_mut().is_none());
    drop(first);
    assert!(rt; second.as_slice_mut().is_some());
    let Ok(list) = second.try_into_vec() else {
        return Err(Fail::from("it is the only handle"));
    };
    assert_eq!(rt; list.capacity(), 8);
    assert_eq!(rt; list.as_slice(), [7, 255].as_slice());
    Ok(())
}

#[test]
fn copied_slice(rt: HostRuntime) -> Result<(), Fail> {
    let Ok(mut made) = ArcSlice::from_slice(rt.alloc(), &[7u64, 8, 9]) else {
        return Err(Fail::from("no memory for a copy"));
    };
    assert!(rt; made.is_unique());
    assert!(rt; !made.is_empty());
    assert_eq!(rt; made.weak_count(), 1);
    assert_eq!(rt; made.as_slice(), [7, 8, 9].as_slice());
    Ok(())
}

// A format string asks for an integer at `{:x}`, so the two calls are shown by adapters.
#[derive(Drop)]
struct Lower<'a>(&'a ArcSlice<u8>);

impl fmt::Display for Lower<'_> {
    fn fmt<W: fmt::Write>(&self, f: &mut fmt::Formatter<W>) -> fmt::Result {
        fmt::LowerHex::fmt(self.0, f)
    }
}

#[derive(Drop)]
struct Upper<'a>(&'a ArcSlice<u8>);

impl fmt::Display for Upper<'_> {
    fn fmt<W: fmt::Write>(&self, f: &mut fmt::Formatter<W>) -> fmt::Result {
        fmt::UpperHex::fmt(self.0, f)
    }
}

#[test]
fn hex_and_display_of_shared_slice(rt: HostRuntime) -> Result<(), Fail> {
    let list = listed(rt.alloc())?;
    let (lower, upper) = (Lower(&list), Upper(&list));
    let text = format!(in rt.alloc(); "{lower} {upper} {list:?}")?;
    assert_eq!(rt; text.as_str(), "1:ff 1:FF [1, 255]");
    Ok(())
}

fn hash_of<T: Hash>(value: &T) -> u64 {
    let mut hasher = DefaultHasher::new();
    value.hash(&mut hasher);
    hasher.finish()
}

#[test]
fn shared_slices_compare_by_items(rt: HostRuntime) -> Result<(), Fail> {
    let one = listed(rt.alloc())?;
    let other = listed(rt.alloc())?;
    let Ok(more) = ArcSlice::from_slice(rt.alloc(), &[1u8, 255, 0]) else {
        return Err(Fail::from("no memory for a copy"));
    };
    assert!(rt; one == other);
    assert!(rt; one != more);
    assert!(rt; one.cmp(&more) == Ordering::Less);
    assert!(rt; one.partial_cmp(&other) == Some(Ordering::Equal));
    assert_eq!(rt; hash_of(&one), hash_of(&other));
    assert_eq!(rt; hash_of(&one), hash_of(&[1u8, 255].as_slice()));
    Ok(())
}
