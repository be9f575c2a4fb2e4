//! Each caller once.

use crate::{number_and_read_back, number_both, try_number};
use stabby_registry::{VtBtree, WordTable};
use std::test::Fail;

#[test]
fn a_number_is_read_back(rt: HostRuntime) -> Result<(), Fail> {
    let alloc = rt.alloc();
    let table = WordTable::from_words(alloc, &[7, 1])?;
    let (registry, mut pass) = VtBtree::<5>::new(alloc)?;
    let Ok(read) = number_and_read_back(&rt, alloc, &registry, &mut pass, &table) else {
        return Err("memory")?;
    };
    assert_eq!(rt; read.words(), &[7u64, 1][..]);
    assert!(rt; try_number(alloc, &registry, &mut pass, &table) == Ok(Some(0)));
    Ok(())
}

#[test]
fn two_threads_number_two_tables(rt: HostRuntime) -> Result<(), Fail> {
    let alloc = rt.alloc();
    let one = WordTable::from_words(alloc, &[1])?;
    let two = WordTable::from_words(alloc, &[2])?;
    let Ok(numbers) = number_both(&rt, alloc, &one, &two) else {
        return Err("memory")?;
    };
    assert!(rt; numbers.first != numbers.second && numbers.pass.seen() == 2);
    Ok(())
}
