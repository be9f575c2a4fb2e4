//! Worked examples whose numbers are from outside, and each call once where it succeeds.
use crate::{cut, cut_both, ends_of, first_of, first_then_last, stop_at_once, take_one};
use stabby_layout::AllocationError;
use stabby_vec::{BoxedSlice, SingleOrVec, Vec};
use std::alloc::Global;
use std::cmp::Ordering;
use std::fmt;
use std::hash::{DefaultHasher, Hash, Hasher};
use std::test::Fail;

#[test]
fn capacity_growth(rt: HostRuntime) -> Result<(), Fail> {
    let mut list = Vec::new_in(rt.alloc());
    assert_eq!(rt; list.capacity(), 0);
    for item in 0u8..19 {
        list.push(item)?;
        if item == 0 {
            assert_eq!(rt; list.capacity(), 8);
        }
        if item == 8 {
            assert_eq!(rt; list.capacity(), 12);
        }
        if item == 12 {
            assert_eq!(rt; list.capacity(), 18);
        }
        if item == 18 {
            assert_eq!(rt; list.capacity(), 27);
        }
    }
    assert_eq!(rt; list.remaining_capacity(), 8);
    Ok(())
}

#[test]
fn vec_calls(rt: HostRuntime) -> Result<(), Fail> {
    let mut list = Vec::from_slice(rt.alloc(), &[1u8, 2])?;
    assert_eq!(rt; list.capacity(), 2);
    list.copy_extend(&[3])?;
    assert_eq!(rt; list.capacity(), 3);
    list.extend([4u8].iter().copied())?;
    assert_eq!(rt; list.capacity(), 4);
    list.extend([5u8].iter().copied())?;
    assert_eq!(rt; list.capacity(), 6);
    assert_eq!(rt; list.as_slice(), [1u8, 2, 3, 4, 5].as_slice());
    assert_eq!(rt; list.try_reserve(1)?.get(), 6);
    let refused = list.try_reserve(usize::MAX);
    assert!(rt; matches!(refused, Err(AllocationError::Range)));
    assert_eq!(rt; list.as_slice(), [1u8, 2, 3, 4, 5].as_slice());
    assert_eq!(rt; list.capacity(), 6);
    assert_eq!(rt; list.remove(5), None);
    assert_eq!(rt; list.swap_remove(0), Some(1));
    assert_eq!(rt; list.as_slice(), [5u8, 2, 3, 4].as_slice());
    assert_eq!(rt; list.pop(), Some(4));
    Ok(())
}

#[test]
fn vec_calls_in_place(rt: HostRuntime) -> Result<(), Fail> {
    let mut list = Vec::from_slice(rt.alloc(), &[1u8, 2, 3, 4])?;
    list.swap(0, 3);
    assert_eq!(rt; list.remove(1), Some(2));
    if list.len() > 2 {
        list[2] = 9;
        assert_eq!(rt; list[2], 9);
    }
    if let Some(first) = list.as_slice_mut().first_mut() {
        *first = 7;
    }
    assert_eq!(rt; list.as_slice(), [7u8, 3, 9].as_slice());
    list.truncate(2);
    assert!(rt; !list.is_empty());
    let mut items = list.into_iter();
    assert_eq!(rt; items.next(), Some(7));
    assert_eq!(rt; items.next(), Some(3));
    assert_eq!(rt; items.next(), None);
    Ok(())
}

#[test]
fn each_growing_call_succeeds(rt: HostRuntime) -> Result<(), Fail> {
    let mut list = Vec::try_with_capacity_in(rt.alloc(), 3)?;
    assert_eq!(rt; list.capacity(), 3);
    list.reserve(5)?;
    assert_eq!(rt; list.capacity(), 5);
    list.try_copy_extend(&[1u8, 2])?;
    assert!(rt; list.try_push(3).is_ok());
    let copy = list.copy()?;
    assert_eq!(rt; copy.capacity(), 3);
    assert!(rt; copy == list);
    let gathered = Vec::try_from_iter(rt.alloc(), [1u8, 2, 3].iter().copied())?;
    assert_eq!(rt; gathered.capacity(), 8);
    assert!(rt; gathered == copy);
    let room = Vec::with_capacity_in(rt.alloc(), 2)?;
    assert_eq!(rt; room.capacity(), 2);
    assert!(rt; room < gathered);
    Ok(())
}

#[test]
fn capacity_past_the_bound(rt: HostRuntime) {
    let refused: Result<Vec<u8, Global>, AllocationError> = Vec::with_capacity_in(
        rt.alloc(),
        usize::MAX,
    );
    assert!(rt; matches!(refused, Err(AllocationError::Range)));
}

#[test]
fn drain_stop_and_drop(rt: HostRuntime) -> Result<(), Fail> {
    let mut list = Vec::from_slice(rt.alloc(), &[0u8, 1, 2, 3, 4, 5])?;
    if let Some(mut drain) = list.try_drain(2, 4) {
        assert_eq!(rt; drain.next(), Some(2));
        assert_eq!(rt; drain.len(), 1);
        drain.stop();
    }
    assert_eq!(rt; list.as_slice(), [0u8, 1, 3, 4, 5].as_slice());
    let mut list = Vec::from_slice(rt.alloc(), &[0u8, 1, 2, 3, 4, 5])?;
    if let Some(mut drain) = list.try_drain(2, 4) {
        assert_eq!(rt; drain.next(), Some(2));
    }
    assert_eq!(rt; list.as_slice(), [0u8, 1, 4, 5].as_slice());
    let mut list = Vec::from_slice(rt.alloc(), &[0u8, 1, 2, 3, 4, 5])?;
    if let Some(drain) = list.try_drain(1, 5) {
        let mut both = drain.double_ended();
        assert_eq!(rt; both.next(), Some(1));
        assert_eq!(rt; both.next_back(), Some(4));
        assert_eq!(rt; both.size_hint(), (2, Some(2)));
    }
    assert_eq!(rt; list.as_slice(), [0u8, 5].as_slice());
    Ok(())
}

#[test]
fn drains_of_the_whole_list(rt: HostRuntime) -> Result<(), Fail> {
    let mut list = Vec::from_slice(rt.alloc(), &[0u8, 1, 2, 3, 4, 5])?;
    if let Some(drain) = list.try_drain(0, 6) {
        drain.stop();
    }
    assert_eq!(rt; list.as_slice(), [0u8, 1, 2, 3, 4, 5].as_slice());
    if let Some(drain) = list.try_drain(0, 6) {
        drop(drain);
    }
    assert!(rt; list.is_empty());
    Ok(())
}

#[test]
fn drain_read_past_its_end(rt: HostRuntime) -> Result<(), Fail> {
    let mut list = Vec::from_slice(rt.alloc(), &[0u8, 1, 2, 3, 4, 5])?;
    let Some(mut drain) = list.try_drain(2, 4) else {
        return Err("the range is in the list")?;
    };
    assert_eq!(rt; drain.next(), Some(2));
    assert_eq!(rt; drain.next(), Some(3));
    assert_eq!(rt; drain.next(), None);
    drain.stop();
    assert_eq!(rt; list.as_slice(), [0u8, 1, 4, 5].as_slice());
    let Some(mut drain) = list.try_drain(1, 3) else {
        return Err("the range is in the list")?;
    };
    assert_eq!(rt; drain.next(), Some(1));
    let mut both = drain.double_ended();
    assert_eq!(rt; both.next_back(), Some(4));
    assert_eq!(rt; both.len(), 0);
    assert_eq!(rt; both.next_back(), None);
    assert_eq!(rt; both.next(), None);
    drop(both);
    assert_eq!(rt; list.as_slice(), [0u8, 5].as_slice());
    Ok(())
}

#[test]
fn drain_bounds(rt: HostRuntime) -> Result<(), Fail> {
    let mut list = Vec::from_slice(rt.alloc(), &[0u8, 1, 2, 3, 4, 5])?;
    match list.try_drain(2, 2) {
        Some(drain) => assert_eq!(rt; drain.len(), 0),
        None => assert!(rt; false),
    }
    assert!(rt; list.try_drain(3, 2).is_none());
    assert!(rt; list.try_drain(0, 7).is_none());
    match list.try_drain(6, 6) {
        Some(drain) => assert_eq!(rt; drain.len(), 0),
        None => assert!(rt; false),
    }
    assert_eq!(rt; list.len(), 6);
    Ok(())
}

fn cut_and_swap(list: &mut Vec<u8, Global>) {
    if list.len() == 2000 {
        cut(list, 55, 100);
    }
    if list.len() > 92 {
        list.swap(5, 92);
    }
}

#[test]
fn two_thousand_bytes(rt: HostRuntime) -> Result<(), Fail> {
    let mut grown = Vec::new_in(rt.alloc());
    let mut roomy = Vec::with_capacity_in(rt.alloc(), 2000)?;
    let mut other = std::vec::Vec::new(rt.alloc());
    for i in 0u32..2000 {
        let byte = ((37 * i + 11) % 256) as u8;
        grown.push(byte)?;
        roomy.push(byte)?;
        other.push(byte)?;
    }
    assert_eq!(rt; roomy.capacity(), 2000);
    cut_and_swap(&mut grown);
    cut_and_swap(&mut roomy);
    if other.len() == 2000 {
        drop(other.drain(55..100));
    }
    if other.len() > 92 {
        other.swap(5, 92);
    }
    assert_eq!(rt; grown.len(), 1955);
    assert!(rt; grown == roomy);
    assert_eq!(rt; grown.as_slice(), other.as_slice());
    assert_eq!(rt; grown.as_slice().get(5), Some(&216));
    assert_eq!(rt; grown.as_slice().get(92), Some(&196));
    Ok(())
}

#[test]
fn callers_of_drains(rt: HostRuntime) -> Result<(), Fail> {
    let mut list = Vec::from_slice(rt.alloc(), &[0u8, 1, 2, 3, 4, 5])?;
    if list.len() == 6 {
        stop_at_once(&mut list, 1, 4);
        assert_eq!(rt; take_one(&mut list, 4, 6), Some(4));
    }
    if list.len() == 5 {
        assert_eq!(rt; first_of(&mut list, 2, 4), Some(2));
    }
    if list.len() == 3 {
        cut(&mut list, 1, 2);
    }
    assert_eq!(rt; list.as_slice(), [0u8, 5].as_slice());
    list.copy_extend(&[6, 7, 8, 9])?;
    if list.len() == 6 {
        assert_eq!(rt; ends_of(&mut list, 1, 4), (Some(5), Some(7)));
        assert_eq!(rt; first_then_last(&mut list, 0, 2), (Some(0), Some(8)));
        cut_both(&mut list, 0, 1);
    }
    assert!(rt; list.is_empty());
    Ok(())
}

#[test]
fn inline_or_vec(rt: HostRuntime) -> Result<(), Fail> {
    let mut list = SingleOrVec::new_in(rt.alloc());
    assert_eq!(rt; list.capacity(), 0);
    list.push(7u8)?;
    assert!(rt; list.is_inline());
    assert_eq!(rt; list.capacity(), 1);
    assert_eq!(rt; list.remaining_capacity(), 0);
    list.truncate(0);
    assert_eq!(rt; list.capacity(), 0);
    assert!(rt; list.try_push(8).is_ok());
    assert!(rt; list.is_inline());
    if let Some(first) = list.as_slice_mut().first_mut() {
        *first = 9;
    }
    assert_eq!(rt; list.try_reserve(3)?.get(), 4);
    assert!(rt; !list.is_inline());
    assert_eq!(rt; list.as_slice(), [9u8].as_slice());
    Ok(())
}

#[test]
fn inline_or_vec_grown(rt: HostRuntime) -> Result<(), Fail> {
    let mut list = SingleOrVec::new_in(rt.alloc());
    for item in 0u8..21 {
        list.push(item)?;
    }
    assert_eq!(rt; list.capacity(), 27);
    let copy = list.copy()?;
    assert!(rt; copy == list);
    let mut roomy = SingleOrVec::with_capacity_in(rt.alloc(), 20)?;
    roomy.push(1u8)?;
    assert!(rt; !roomy.is_inline());
    let mut single = SingleOrVec::new_in(rt.alloc());
    single.push(5u8)?;
    assert!(rt; single.copy()?.is_inline());
    assert!(rt; roomy < single);
    match single.into_vec() {
        Ok(list) => assert_eq!(rt; list.capacity(), 8),
        Err(_back) => assert!(rt; false),
    }
    Ok(())
}

#[test]
fn each_growing_call_of_single_succeeds(rt: HostRuntime) -> Result<(), Fail> {
    let mut list = SingleOrVec::try_with_capacity_in(rt.alloc(), 1)?;
    list.reserve(2)?;
    assert_eq!(rt; list.capacity(), 2);
    list.extend([1u8, 2, 3].iter().copied())?;
    assert_eq!(rt; list.len(), 3);
    assert!(rt; !list.is_empty());
    let refused = list.try_reserve(usize::MAX);
    assert!(rt; matches!(refused, Err(AllocationError::Range)));
    let back = SingleOrVec::from_vec(Vec::from_slice(rt.alloc(), &[1u8, 2, 3])?);
    assert!(rt; back == list);
    Ok(())
}

#[test]
fn boxed_slice_keeps_capacity(rt: HostRuntime) -> Result<(), Fail> {
    let mut list = BoxedSlice::with_capacity_in(rt.alloc(), 2)?;
    assert!(rt; list.try_push(1u8).is_ok());
    assert!(rt; list.try_push(2).is_ok());
    assert_eq!(rt; list.try_push(3), Err(3));
    assert_eq!(rt; list.len(), 2);
    assert_eq!(rt; list.into_vec().capacity(), 2);
    let empty: BoxedSlice<u8, Global> = BoxedSlice::with_capacity_in(rt.alloc(), 4)?;
    assert!(rt; empty.is_empty());
    assert_eq!(rt; empty.into_vec().capacity(), 4);
    let slice = BoxedSlice::from_slice(rt.alloc(), &[1u8, 2])?;
    let mut gathered = BoxedSlice::try_from_iter(rt.alloc(), [1u8, 2].iter().copied())?;
    assert_eq!(rt; gathered.capacity(), 8);
    assert!(rt; gathered == slice);
    if let Some(first) = gathered.as_slice_mut().first_mut() {
        *first = 0;
    }
    assert!(rt; gathered < slice);
    let mut items = BoxedSlice::from_vec(gathered.into_vec()).into_iter();
    assert_eq!(rt; items.next(), Some(0));
    Ok(())
}

// A format string asks for an integer at `{:x}`, so the two calls are shown by adapters.
#[derive(Drop)]
struct Lower<'a>(&'a Vec<u8, Global>);

impl fmt::Display for Lower<'_> {
    fn fmt<W: fmt::Write>(&self, f: &mut fmt::Formatter<W>) -> fmt::Result {
        fmt::LowerHex::fmt(self.0, f)
    }
}

#[derive(Drop)]
struct Upper<'a>(&'a Vec<u8, Global>);

impl fmt::Display for Upper<'_> {
    fn fmt<W: fmt::Write>(&self, f: &mut fmt::Formatter<W>) -> fmt::Result {
        fmt::UpperHex::fmt(self.0, f)
    }
}

#[derive(Drop)]
struct LowerBoxed<'a>(&'a BoxedSlice<u8, Global>);

impl fmt::Display for LowerBoxed<'_> {
    fn fmt<W: fmt::Write>(&self, f: &mut fmt::Formatter<W>) -> fmt::Result {
        fmt::LowerHex::fmt(self.0, f)
    }
}

#[derive(Drop)]
struct UpperBoxed<'a>(&'a BoxedSlice<u8, Global>);

impl fmt::Display for UpperBoxed<'_> {
    fn fmt<W: fmt::Write>(&self, f: &mut fmt::Formatter<W>) -> fmt::Result {
        fmt::UpperHex::fmt(self.0, f)
    }
}

#[test]
fn hex_and_display_of_boxed_slice(rt: HostRuntime) -> Result<(), Fail> {
    let list = BoxedSlice::from_slice(rt.alloc(), &[1u8, 255])?;
    let (lower, upper) = (LowerBoxed(&list), UpperBoxed(&list));
    let text = format!(in rt.alloc(); "{lower} {upper} {list:?}")?;
    assert_eq!(rt; text.as_str(), "1:ff 1:FF [1, 255]");
    Ok(())
}

#[test]
fn hex_and_display(rt: HostRuntime) -> Result<(), Fail> {
    let list = Vec::from_slice(rt.alloc(), &[1u8, 255])?;
    let (lower, upper) = (Lower(&list), Upper(&list));
    let text = format!(in rt.alloc(); "{lower} {upper} {list:?}")?;
    assert_eq!(rt; text.as_str(), "1:ff 1:FF [1, 255]");
    let error = AllocationError::Range;
    let text = format!(in rt.alloc(); "{error}")?;
    assert_eq!(rt; text.as_str(), "AllocationError");
    Ok(())
}

fn hash_of<T: Hash>(value: &T) -> u64 {
    let mut hasher = DefaultHasher::new();
    value.hash(&mut hasher);
    hasher.finish()
}

#[test]
fn lists_hash_as_slices(rt: HostRuntime) -> Result<(), Fail> {
    let list = Vec::from_slice(rt.alloc(), &[1u8, 255])?;
    assert_eq!(rt; hash_of(&list), hash_of(&[1u8, 255].as_slice()));
    let boxed = BoxedSlice::from_slice(rt.alloc(), &[1u8, 255])?;
    assert_eq!(rt; hash_of(&boxed), hash_of(&[1u8, 255].as_slice()));
    Ok(())
}

#[test]
fn lists_are_ordered_as_slices(rt: HostRuntime) -> Result<(), Fail> {
    let list = Vec::from_slice(rt.alloc(), &[1u8, 255])?;
    let more = Vec::from_slice(rt.alloc(), &[1u8, 255, 0])?;
    assert!(rt; list.cmp(&more) == Ordering::Less);
    let boxed = BoxedSlice::from_vec(list);
    let longer = BoxedSlice::from_vec(more);
    assert!(rt; longer.cmp(&boxed) == Ordering::Greater);
    assert_eq!(rt; longer.as_slice(), [1u8, 255, 0].as_slice());
    Ok(())
}

#[test]
fn inline_or_vec_ordered(rt: HostRuntime) -> Result<(), Fail> {
    let mut inline = SingleOrVec::new_in(rt.alloc());
    inline.push(1u8)?;
    let less = SingleOrVec::from_vec(Vec::from_slice(rt.alloc(), &[0u8, 9])?);
    let same = SingleOrVec::from_vec(Vec::from_slice(rt.alloc(), &[1u8])?);
    assert!(rt; inline.cmp(&less) == Ordering::Greater);
    assert!(rt; inline.cmp(&same) == Ordering::Equal);
    Ok(())
}

#[test]
fn sizes_are_exact(rt: HostRuntime) -> Result<(), Fail> {
    let mut list = Vec::from_slice(rt.alloc(), &[0u8, 1, 2, 3, 4])?;
    let Some(mut drain) = list.try_drain(1, 4) else {
        return Err(Fail::from("the range is within the list"));
    };
    assert_eq!(rt; drain.next(), Some(1));
    assert_eq!(rt; drain.size_hint(), (2, Some(2)));
    let mut both = drain.double_ended();
    assert_eq!(rt; both.next_back(), Some(3));
    assert_eq!(rt; both.len(), 1);
    Ok(())
}

#[test]
fn a_list_lends_its_allocator(rt: HostRuntime) -> Result<(), Fail> {
    let list: Vec<u8, Global> = Vec::new_in(rt.alloc());
    let other = Vec::from_slice(*list.allocator(), &[1u8, 2])?;
    assert_eq!(rt; other.as_slice(), [1u8, 2].as_slice());
    Ok(())
}

#[test]
fn nothing_takes_no_memory(rt: HostRuntime) {
    let Ok(list): Result<Vec<u8, Global>, AllocationError> = Vec::with_capacity_in(rt.alloc(), 0)
    else {
        unreachable!();
    };
    let Ok(copy) = list.copy() else {
        unreachable!();
    };
    assert!(rt; copy.is_empty());
    let Ok(boxed) = BoxedSlice::from_slice(rt.alloc(), &[0u8; 0]) else {
        unreachable!();
    };
    assert!(rt; boxed.is_empty());
    let mut single = SingleOrVec::new_in(rt.alloc());
    let Ok(()) = single.push(7u8) else {
        unreachable!();
    };
    let Ok(copy) = single.copy() else {
        unreachable!();
    };
    assert!(rt; copy.is_inline());
}
