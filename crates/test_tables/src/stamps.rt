//! What no clause says: that a stamp can be set, and that a node's calls on one object go together.
use samples::object;
use std::test::Fail;
use version_stamps::{Checked, Seen};

#[test]
fn a_stamp_is_set_raised_and_forgotten(rt: HostRuntime) -> Result<(), Fail> {
    let mut seen = Seen::new(rt.alloc());
    let uid = object(2, 1)?;
    assert_eq!(rt; seen.check(uid, 1), Checked::Other);
    seen.set(uid, 1)?;
    assert_eq!(rt; seen.check(uid, 1), Checked::Same);
    seen.raise(uid, 3);
    seen.raise(uid, 2);
    assert_eq!(rt; seen.of(uid), Some(3));
    seen.forget(uid);
    assert_eq!(rt; seen.of(uid), None);
    Ok(())
}

#[test]
fn each_object_has_its_own_stamp(rt: HostRuntime) -> Result<(), Fail> {
    let mut seen = Seen::new(rt.alloc());
    let (first, second, third) = (object(2, 2)?, object(4, 2)?, object(9, 2)?);
    seen.set(second, 8)?;
    seen.set(third, 5)?;
    seen.set(first, 6)?;
    seen.forget(second);
    seen.set(third, 7)?;
    assert_eq!(rt; seen.of(first), Some(6));
    assert_eq!(rt; seen.of(second), None);
    assert_eq!(rt; seen.of(third), Some(7));
    Ok(())
}
