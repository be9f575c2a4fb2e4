//! Worked examples whose values are from outside, and each call once where it succeeds.
ghost use Rattle.std.specs.Prelude.{◌≡◌, not, refl};
ghost use Rattle.std.proofs.Common.{rules};

use crate::{
    Box, BoxedStr, MakeFault, Recast, Slice, SliceMut, Str, String, Utf8Error, lend_as, lend_as_mut,
};
use stabby_vec::Vec;
use std::alloc::Global;
use std::cmp::Ordering;
use std::hash::{DefaultHasher, Hash, Hasher};
use std::test::Fail;

#[test]
fn box_by_closure(rt: HostRuntime) -> Result<(), Fail> {
    let refused = Box::try_make_in(rt.alloc(), || -> Result<u8, u8> { Err(7) });
    assert!(rt; matches!(refused, Err(MakeFault::Constructor(7))));
    let Ok(made) = Box::try_make_in(rt.alloc(), || -> Result<u8, u8> { Ok(5) }) else {
        return Err(Fail::from("refused"));
    };
    assert_eq!(rt; Box::into_inner(made), 5);
    let Ok(made) = Box::try_new_in(rt.alloc(), 5u8) else {
        return Err(Fail::from("refused"));
    };
    assert_eq!(rt; Box::into_inner(made), 5);
    let mut made = Box::new_in(rt.alloc(), 5u8)?;
    let copy = made.copy()?;
    *made = 6;
    assert_eq!(rt; *made, 6);
    assert_eq!(rt; *copy, 5);
    Ok(())
}

// Puts an `A` in front where an ASCII character stands there.
fn begin_with_a(text: &mut String<Global>) {
    let bytes = text.as_str().as_bytes();
    let is_ascii = !bytes.is_empty() && bytes[0] < 128;
    if is_ascii {
        text.set_ascii(0, 65);
    }
}

#[test]
fn text_edits(rt: HostRuntime) -> Result<(), Fail> {
    let mut text = String::from_str(rt.alloc(), "ab")?;
    text.try_concat("é")?;
    assert_eq!(rt;
        text.as_str().as_bytes(),
        [0x61u8, 0x62, 0xc3, 0xa9].as_slice()
    );
    begin_with_a(&mut text);
    assert_eq!(rt; text.as_str(), "Abé");
    let bytes = Vec::from_slice(rt.alloc(), &[255u8])?;
    match String::try_from_vec(bytes) {
        Ok(_text) => assert!(rt; false),
        Err((back, _error)) => assert_eq!(rt; back.as_slice(), [255u8].as_slice()),
    }
    let copy = text.copy()?;
    assert!(rt; copy == text);
    let boxed = BoxedStr::from_string(copy);
    assert_eq!(rt; boxed.as_str(), "Abé");
    let back = boxed.into_string();
    assert_eq!(rt; back.into_vec().as_slice(), "Abé".as_bytes());
    Ok(())
}

#[test]
fn texts_compare_and_print(rt: HostRuntime) -> Result<(), Fail> {
    let empty = String::new_in(rt.alloc());
    let text = String::from_str(rt.alloc(), "a\"é")?;
    assert!(rt; empty < text);
    assert!(rt; empty != text);
    let printed = format!(in rt.alloc(); "{text} {text:?}")?;
    assert_eq!(rt; printed.as_str(), "a\"é \"a\\\"é\"");
    let less = BoxedStr::from_string(empty);
    let boxed = BoxedStr::from_string(text);
    assert!(rt; less < boxed);
    let printed = format!(in rt.alloc(); "{boxed} {boxed:?}")?;
    assert_eq!(rt; printed.as_str(), "a\"é \"a\\\"é\"");
    let view = Str::new(boxed.as_str());
    assert!(rt; Str::new("a") < view);
    let printed = format!(in rt.alloc(); "{view}")?;
    assert_eq!(rt; printed.as_str(), view.as_str());
    Ok(())
}

// Puts a `Z` second where an ASCII character stands there.
fn put_z_second(text: &mut BoxedStr<Global>) {
    let bytes = text.as_str().as_bytes();
    let is_ascii = bytes.len() > 1 && bytes[1] < 128;
    if is_ascii {
        text.set_ascii(1, 90);
    }
}

#[test]
fn a_boxed_text_changes_one_byte(rt: HostRuntime) -> Result<(), Fail> {
    let mut text = BoxedStr::from_string(String::from_str(rt.alloc(), "abcé")?);
    put_z_second(&mut text);
    assert_eq!(rt; text.as_str(), "aZcé");
    Ok(())
}

fn hash_of<T: Hash>(value: &T) -> u64 {
    let mut hasher = DefaultHasher::new();
    value.hash(&mut hasher);
    hasher.finish()
}

#[test]
fn texts_hash_as_str(rt: HostRuntime) -> Result<(), Fail> {
    let text = String::from_str(rt.alloc(), "a\"é")?;
    assert_eq!(rt; hash_of(&text), hash_of(&"a\"é"));
    let boxed = BoxedStr::from_string(text);
    assert_eq!(rt; hash_of(&boxed), hash_of(&"a\"é"));
    assert_eq!(rt; hash_of(&Str::new("a\"é")), hash_of(&"a\"é"));
    Ok(())
}

#[test]
fn owned_texts_are_ordered_as_str(rt: HostRuntime) -> Result<(), Fail> {
    let less = String::from_str(rt.alloc(), "az")?;
    let more = String::from_str(rt.alloc(), "aé")?;
    assert!(rt; less.cmp(&more) == Ordering::Less);
    let less = BoxedStr::from_string(less);
    let more = BoxedStr::from_string(more);
    assert!(rt; more.cmp(&less) == Ordering::Greater);
    assert!(rt; less != more);
    Ok(())
}

#[test]
fn borrowed_texts_compare_and_print(rt: HostRuntime) -> Result<(), Fail> {
    let view = Str::new("a\"é");
    let Ok(copy) = view.clone() else {
        return Err(Fail::from("a clone of a borrow was refused"));
    };
    assert!(rt; copy == view);
    assert!(rt; Str::new("az").cmp(&Str::new("aé")) == Ordering::Less);
    let printed = format!(in rt.alloc(); "{view:?}")?;
    assert_eq!(rt; printed.as_str(), "Str { inner: \"a\\\"é\" }");
    Ok(())
}

#[test]
fn borrowed_slices(rt: HostRuntime) -> Result<(), Fail> {
    let mut items = [1u8, 2, 3];
    let slice = Slice::new(&items);
    let again = slice;
    assert!(rt; slice == again);
    assert_eq!(rt; again.as_slice(), [1u8, 2, 3].as_slice());
    let mut changed = SliceMut::new(&mut items);
    if let Some(first) = changed.as_slice_mut().first_mut() {
        *first = 9;
    }
    let printed = format!(in rt.alloc(); "{changed:?}")?;
    assert_eq!(rt; printed.as_str(), "[9, 2, 3]");
    assert_eq!(rt; changed.into_slice().as_slice(), [9u8, 2, 3].as_slice());
    Ok(())
}

#[test]
fn borrowed_slices_hash_and_print(rt: HostRuntime) -> Result<(), Fail> {
    let slice = Slice::new(&[1u8, 255]);
    let Ok(copy) = slice.clone() else {
        return Err(Fail::from("a clone of a borrow was refused"));
    };
    assert_eq!(rt; hash_of(&copy), hash_of(&[1u8, 255].as_slice()));
    let printed = format!(in rt.alloc(); "{slice:?}")?;
    assert_eq!(rt; printed.as_str(), "Slice { inner: [1, 255] }");
    Ok(())
}

#[test]
fn changeable_slices_hash_as_slices(rt: HostRuntime) {
    let (mut items, mut same, mut other) = ([1u8, 255], [1u8, 255], [1u8, 254]);
    let slice = SliceMut::new(&mut items);
    assert!(rt; slice == SliceMut::new(&mut same));
    assert!(rt; slice != SliceMut::new(&mut other));
    assert_eq!(rt; slice.as_slice(), [1u8, 255].as_slice());
    assert_eq!(rt; hash_of(&slice), hash_of(&[1u8, 255].as_slice()));
}

#[test]
fn faults_print(rt: HostRuntime) -> Result<(), Fail> {
    let faults: [MakeFault<u8, u8>; 2] = [MakeFault::Constructor(7), MakeFault::Memory(5)];
    let printed = format!(in rt.alloc(); "{faults:?}")?;
    assert_eq!(rt; printed.as_str(), "[Constructor(7), Memory(5)]");
    let Ok(error) = Utf8Error.clone() else {
        return Err(Fail::from("a clone of an error was refused"));
    };
    assert!(rt; error == Utf8Error);
    let printed = format!(in rt.alloc(); "{error} {error:?}")?;
    assert_eq!(rt; printed.as_str(), "not UTF-8 Utf8Error");
    Ok(())
}

// A flag seen as its opposite.
#[derive(Clone, Copy, PartialEq, Eq, Debug)]
struct Flipped(bool);

impl Recast<bool> for Flipped {
    ghost use Rattle.stabby_text.specs.declared.tests.Flipped.{Flipped};

    ghost forward = { λ x. not x.0 };

    ghost backward = { λ x. record { 0 = not x } };

    fn forth(self) -> bool {
        !self.0
    }

    fn back(other: bool) -> Flipped {
        Flipped(!other)
    }

    ghost undoes = { λ x. Prim.search rules };
}

#[test]
fn lent_values_come_back(rt: HostRuntime) {
    let (back, seen) = lend_as(Flipped(true), |flag: &bool| *flag);
    assert_eq!(rt; back, Flipped(true));
    assert!(rt; !seen);
    let (left, seen) = lend_as_mut(Flipped(true), |flag: &mut bool| {
        let before = *flag;
        *flag = true;
        before
    });
    assert_eq!(rt; left, Flipped(false));
    assert!(rt; !seen);
}
