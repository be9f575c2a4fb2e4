//! Odd use: keys whose order is reversed, and inserts that are tried again where they were refused.

ghost use Rattle.std.specs.Prelude.{◌≡◌};

use stabby_tree::{ArcBTreeSet, Keyed};
use std::alloc::Global;
use std::cmp::Reverse;
use std::test::Fail;

// A number whose key falls as the number rises.
#[derive(Clone, Copy)]
struct Falling {
    key: Reverse<u64>,
}

impl Keyed for Falling {
    type Key = Reverse<u64>;

    ghost key_of = { λ x. x.key };

    fn key(&self) -> &Reverse<u64> {
        &self.key
    }
}

#[test]
fn reversed_keys(rt: HostRuntime) -> Result<(), Fail> {
    let alloc = rt.alloc();
    let mut set = ArcBTreeSet::<Falling, Global, 0, 3>::from_alloc(alloc);
    for number in 1..6u64 {
        let value = Falling {
            key: Reverse(number),
        };
        assert!(rt; matches!(set.insert(value), Ok(None)));
    }
    let list = set.to_list(alloc)?;
    assert_eq!(rt; list.len(), 5);
    for (i, value) in list.iter().enumerate() {
        assert_eq!(rt; value.key.0, 5 - i as u64);
    }
    assert!(rt; set.get(&Reverse(4)).is_some());
    assert!(rt; set.get(&Reverse(6)).is_none());
    Ok(())
}

// Whether the set takes a number above all that it has: at once, or at the second try after a refusal that left it.
fn takes(set: &mut ArcBTreeSet<u64, Global, 0, 3>, number: u64) -> bool {
    let len = set.len();
    match set.insert(number) {
        Ok(back) => back.is_none(),
        Err((back, _)) => {
            back == number
                && set.len() == len
                && set.get(&number).is_none()
                && matches!(set.insert(number), Ok(None))
        }
    }
}

// It passes also where any one request for memory is refused, which `checks/memory` tries.
#[test]
fn twenty_numbers_at_limit_3(rt: HostRuntime) -> Result<(), Fail> {
    let mut set = ArcBTreeSet::<u64, Global, 0, 3>::from_alloc(rt.alloc());
    for number in 1..21u64 {
        assert!(rt; takes(&mut set, number));
    }
    assert_eq!(rt; set.len(), 20);
    for number in 1..21u64 {
        assert_eq!(rt; set.get(&number).copied(), Some(number));
    }
    Ok(())
}
