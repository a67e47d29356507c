//! What no clause says: that calls succeed, and that as many rows stand as two lists tell.
use lock_manager::{AskRefusal, Locks};
use samples::{object, proc};
use std::test::Fail;
use uid_names::{LISTED_ROWS, LockRow, Mode};

#[test]
fn a_conflict_names_the_holder(rt: HostRuntime) -> Result<(), Fail> {
    let mut locks = Locks::new(rt.alloc())?;
    let (first, second) = (proc(1, 1)?, proc(2, 1)?);
    let uid = object(2, 1)?;
    assert_eq!(rt; locks.ask(first, uid, Mode::Write), Ok(1));
    let refused = locks.ask(second, uid, Mode::Read);
    assert_eq!(rt; refused, Err(AskRefusal::Conflict(first, Mode::Write)));
    let (rows, more) = locks.list(rt.alloc(), None)?;
    let row = LockRow {
        uid,
        proc: first,
        mode: Mode::Write,
    };
    assert_eq!(rt; rows.items(), [row].as_slice());
    assert!(rt; !more);
    assert!(rt; locks.release(first, uid));
    assert_eq!(rt; locks.held_by(first, uid), None);
    Ok(())
}

#[test]
fn co_writers_of_one_node_hold_an_object_together(rt: HostRuntime) -> Result<(), Fail> {
    let mut locks = Locks::new(rt.alloc())?;
    let (first, second, away) = (proc(1, 1)?, proc(1, 2)?, proc(2, 1)?);
    let uid = object(2, 1)?;
    assert_eq!(rt; locks.ask(second, uid, Mode::CoWrite), Ok(1));
    assert_eq!(rt; locks.ask(first, uid, Mode::CoWrite), Ok(2));
    let refused = locks.ask(away, uid, Mode::CoWrite);
    assert_eq!(rt; refused, Err(AskRefusal::Conflict(first, Mode::CoWrite)));
    assert!(rt; locks.writes(1, uid, first.node()));
    assert!(rt; !locks.writes(1, uid, away.node()));
    Ok(())
}

#[test]
fn a_second_list_goes_on_behind_the_first(rt: HostRuntime) -> Result<(), Fail> {
    let mut locks = Locks::new(rt.alloc())?;
    for at in 0..96u64 {
        let process = proc((at % 8) as u8 + 1, (at / 8 % 4) as u8 + 1)?;
        let uid = object(at / 32 + 1, 1)?;
        assert_eq!(rt; locks.ask(process, uid, Mode::Read), Ok(at + 1));
    }
    let (rows, more) = locks.list(rt.alloc(), None)?;
    assert!(rt; more && rows.items().len() == LISTED_ROWS);
    let last = rows.items().last().ok_or("no row")?;
    let (rows, more) = locks.list(rt.alloc(), Some((last.uid, last.proc)))?;
    assert!(rt; !more && rows.items().len() == 96 - LISTED_ROWS);
    Ok(())
}
