//! What no clause says: that the calls find their memory and their turn, at a concrete type.
ghost use Rattle.std.specs.Prelude.{◌≡◌, ◌+◌, IfOk};

use stabby_cell::{AllocationError, Busy, Chronicle, Pass, TurnCell};
use std::alloc::Global;
use std::test::Fail;

/// A value that each commit replaces by any other: the entry is the value.
#[derive(Drop)]
struct Value {
    number: u64,
}

impl Chronicle for Value {
    ghost use Rattle.std.specs.Prelude.{◌≡◌};

    type Entry = u64;

    ghost entry_of = { λ v. v.number };

    ghost next = { λ _ e new. e ≡ new.number };

    ghost same = { λ a b. a ≡ b };

    ghost can_copy = { λ _. Unit {0} };

    fn copy(&self, _alloc: Global) -> Result<Value, AllocationError> {
        Ok(Value {
            number: self.number,
        })
    }
}

#[test]
fn small_cells_and_sinks(rt: HostRuntime) -> Result<(), Fail> {
    let Ok((cell, mut first)) = TurnCell::new(rt.alloc(), Value { number: 5 }, 0) else {
        return Err("no memory")?;
    };
    let mut second = cell.split(&mut first, 1);
    match cell.try_take(&mut first) {
        Err(Busy) => return Err("the turn was free")?,
        Ok(turn) => {
            let Ok(Some(old)) = turn.commit(Value { number: 6 }) else {
                return Err("one version is kept")?;
            };
            assert!(rt; old.number == 5);
        }
    }
    assert!(rt; first.seen() == 1);
    assert!(rt; first.added() == 1);
    assert!(rt; second.seen() == 0);
    assert!(rt; cell.look(&mut second) == 1);
    Ok(())
}

#[test]
fn busy_while_held(rt: HostRuntime) -> Result<(), Fail> {
    let Ok((cell, mut first)) = TurnCell::new(rt.alloc(), Value { number: 5 }, 7) else {
        return Err("no memory")?;
    };
    let mut second = cell.split(&mut first, 1);
    assert!(rt; second.weight() == 1);
    assert!(rt; first.weight() == 4_294_967_295);
    match first.try_take(&cell) {
        Err(Busy) => return Err("the turn was free")?,
        Ok(turn) => {
            assert!(rt; second.try_take(&cell).is_err());
            assert!(rt; turn.stamp() == 7);
            assert!(rt; turn.version().number == 5);
            turn.release();
        }
    }
    assert!(rt; second.lost() == 1);
    let turn = cell.take(&rt, &mut second);
    assert!(rt; turn.version().number == 5);
    drop(turn);
    assert!(rt; second.lost() == 1);
    assert!(rt; second.added() == 0);
    cell.join(&mut first, second);
    assert!(rt; first.is_whole());
    assert!(rt; first.lost() == 1);
    assert!(rt; first.seen() == 7);
    Ok(())
}

#[test]
fn full_at_the_last_stamp(rt: HostRuntime) -> Result<(), Fail> {
    let Ok((cell, mut pass)) = TurnCell::new(rt.alloc(), Value { number: 5 }, (1 << 63) - 2) else {
        return Err("no memory")?;
    };
    assert!(rt;
        cell.take(&rt, &mut pass)
            .commit(Value { number: 6 })
            .is_ok()
    );
    assert!(rt; pass.seen() == (1 << 63) - 1);
    let Err(back) = cell.take(&rt, &mut pass).commit(Value { number: 7 }) else {
        return Err("a stamp past the last")?;
    };
    assert!(rt; back.number == 7);
    assert!(rt; cell.take(&rt, &mut pass).version().number == 6);
    assert!(rt; pass.added() == 1);
    Ok(())
}

#[test]
fn kept_versions(rt: HostRuntime) -> Result<(), Fail> {
    let Ok((cell, mut pass)) = TurnCell::new_keeping(rt.alloc(), Value { number: 10 }, 0, 2) else {
        return Err("no memory")?;
    };
    assert!(rt; cell.keep() == 2);
    assert!(rt;
        cell.take(&rt, &mut pass)
            .commit(Value { number: 11 })
            .is_ok_and(|gone| gone.is_none())
    );
    let Ok(Some(gone)) = cell.take(&rt, &mut pass).commit(Value { number: 12 }) else {
        return Err("two versions are kept")?;
    };
    assert!(rt; gone.number == 10);
    let turn = cell.take(&rt, &mut pass);
    assert!(rt; turn.at(0).is_none());
    assert!(rt; turn.at(1).is_some_and(|version| version.number == 11));
    assert!(rt; turn.at(2).is_some_and(|version| version.number == 12));
    assert!(rt; turn.at(3).is_none());
    turn.release();
    Ok(())
}
