//! Shared texts on one thread.
use stabby_count::{ArcStr, WeakStr};
use stabby_text::String;
use std::alloc::Global;
use std::hash::{DefaultHasher, Hash, Hasher};
use std::test::Fail;

fn shared_text_of(alloc: Global, value: &str) -> Result<ArcStr, Fail> {
    let Ok(text) = String::from_str(alloc, value) else {
        return Err(Fail::from("no memory for a text"));
    };
    match ArcStr::from_string(alloc, text) {
        Ok(made) => Ok(made),
        Err(_) => Err(Fail::from("no memory to share a text")),
    }
}

// Writes an `A` in front, where an ASCII character stands there and the handle is the only one.
fn begin_with_a(text: &mut ArcStr) -> bool {
    let bytes = text.as_str().as_bytes();
    let is_ascii = !bytes.is_empty() && bytes[0] < 128;
    is_ascii && text.set_ascii(0, 65)
}

#[test]
fn shared_text(rt: HostRuntime) -> Result<(), Fail> {
    let mut text = shared_text_of(rt.alloc(), "ab")?;
    assert!(rt; begin_with_a(&mut text));
    assert_eq!(rt; text.as_str(), "Ab");
    let Ok(mut aside) = text.downgrade(&rt) else {
        return Err(Fail::from("a downgrade was refused"));
    };
    assert!(rt; !begin_with_a(&mut text));
    assert_eq!(rt; text.as_str(), "Ab");
    assert!(rt; matches!(aside.upgrade(&rt), Ok(Some(_))));
    match aside.try_upgrade() {
        Ok(Some(again)) => assert_eq!(rt; again.as_str(), "Ab"),
        _ => return Err(Fail::from("the text is there")),
    }
    drop(aside);
    assert!(rt; text.is_unique());
    Ok(())
}

#[test]
fn text_goes_back(rt: HostRuntime) -> Result<(), Fail> {
    let mut first = shared_text_of(rt.alloc(), "é")?;
    let Ok(second) = first.clone(&rt) else {
        return Err(Fail::from("a clone was refused"));
    };
    let first = match first.try_into_string() {
        Ok(_) => return Err(Fail::from("another handle is there")),
        Err(back) => back,
    };
    assert_eq!(rt; second.as_str(), "é");
    drop(second);
    match first.try_into_string() {
        Ok(text) => assert_eq!(rt; text.as_str(), "é"),
        Err(_) => return Err(Fail::from("it is the only handle")),
    }
    Ok(())
}

#[test]
fn weak_text_outlives(rt: HostRuntime) -> Result<(), Fail> {
    let mut first = shared_text_of(rt.alloc(), "ab")?;
    let Ok(mut aside) = first.downgrade(&rt) else {
        return Err(Fail::from("a downgrade was refused"));
    };
    let other: WeakStr = match aside.clone(&rt) {
        Ok(other) => other,
        Err(_) => return Err(Fail::from("a weak clone was refused")),
    };
    drop(first);
    assert!(rt; matches!(aside.upgrade(&rt), Ok(None)));
    drop(aside);
    assert_eq!(rt; other.end().word(), 1);
    Ok(())
}

fn hash_of<T: Hash>(value: &T) -> u64 {
    let mut hasher = DefaultHasher::new();
    value.hash(&mut hasher);
    hasher.finish()
}

#[test]
fn shared_texts_compare_and_print(rt: HostRuntime) -> Result<(), Fail> {
    let less = shared_text_of(rt.alloc(), "a")?;
    let text = shared_text_of(rt.alloc(), "a\"é")?;
    let same = shared_text_of(rt.alloc(), "a\"é")?;
    assert!(rt; less < text);
    assert!(rt; text == same);
    assert!(rt; text != less);
    assert_eq!(rt; hash_of(&text), hash_of(&same));
    assert_eq!(rt; hash_of(&less), hash_of(&"a"));
    let printed = format!(in rt.alloc(); "{text} {text:?}")?;
    assert_eq!(rt; printed.as_str(), "a\"é \"a\\\"é\"");
    Ok(())
}
