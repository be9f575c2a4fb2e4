//! The callers, run.

use crate::{Counts, Set, add_and_keep, add_both, count_one, known_again};
use std::test::Fail;

#[test]
fn versions_stay(rt: HostRuntime) -> Result<(), Fail> {
    let mut set = Set::<u64>::new_in(rt.alloc());
    add_both(&mut set, 7, 3)?;
    let before = add_and_keep(&mut set, 5)?;
    assert_eq!(rt; (set.len(), before.len()), (3, 2));
    assert!(rt; set.get(&5).is_some() && before.get(&5).is_none());
    if set.get(&7).is_some() {
        assert_eq!(rt; known_again(&mut set, 7), 7);
    }
    Ok(())
}

// How often each letter stands in a word.
#[test]
fn letters_are_counted(rt: HostRuntime) -> Result<(), Fail> {
    let mut counts = Counts::<u8>::new_in(rt.alloc());
    for letter in b"abracadabra" {
        count_one(&mut counts, *letter)?;
    }
    for (letter, count) in [(b'a', 5u64), (b'b', 2), (b'r', 2), (b'c', 1), (b'd', 1)] {
        assert_eq!(rt; counts.get(&letter).copied(), Some(count));
    }
    assert!(rt; counts.get(&b'e').is_none());
    Ok(())
}
