//! What no clause says: that room is made for each process, and that the calls do as they say at owned answers.
use call_once::{Asking, Looked, Noticed, Served};
use samples::proc;
use std::process::Abort;
use std::test::Fail;
use uid_names::ByteList;

#[test]
fn a_number_acts_once(rt: HostRuntime) -> Result<(), Fail> {
    let mut served = Served::new(rt.alloc())?;
    let first = proc(1, 1)?;
    assert_eq!(rt; served.look(first, 1), Looked::Fresh);
    assert!(rt; served.kept(first).is_none());
    served.keep(first, 1, ByteList::from_slice(rt.alloc(), b"granted")?);
    assert_eq!(rt; served.look(first, 1), Looked::Again);
    assert_eq!(rt; served.look(first, 0), Looked::Old);
    assert_eq!(rt; served.look(first, 2), Looked::Fresh);
    let body = served.kept(first).ok_or("nothing kept")?;
    assert_eq!(rt; body.bytes(), b"granted".as_slice());
    Ok(())
}

#[test]
fn each_process_has_its_own_last_number(rt: HostRuntime) -> Result<(), Fail> {
    let mut served = Served::new(rt.alloc())?;
    for node in 1..9 {
        for number in 1..5 {
            served.keep(proc(node, number)?, u64::from(node), number);
        }
    }
    for node in 1..9 {
        for number in 1..5 {
            let process = proc(node, number)?;
            assert_eq!(rt; served.look(process, u64::from(node)), Looked::Again);
            assert_eq!(rt; served.kept(process).copied(), Some(number));
        }
    }
    Ok(())
}

#[test]
fn the_eighth_notice_gives_up(rt: HostRuntime) -> Result<(), Fail> {
    let mut asking = Asking::new(5);
    assert_eq!(rt; asking.number(), 5);
    assert!(rt; !asking.fits(4));
    assert!(rt; asking.fits(5));
    for _ in 0..7u8 {
        assert_eq!(rt; asking.notice(), Noticed::Resend);
    }
    assert_eq!(rt; asking.notice(), Noticed::GiveUp);
    Ok(())
}
