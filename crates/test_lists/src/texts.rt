//! Which texts are lists.
use acl_rules::{ListFault, read_list};
use std::alloc::Global;
use std::test::Fail;
use uid_names::ByteList;

/// Why no list is read.
fn refused(alloc: Global, text: &[u8]) -> Option<ListFault> {
    match read_list(alloc, text) {
        Ok(_list) => None,
        Err(fault) => Some(fault),
    }
}

#[test]
fn each_form_is_read(rt: HostRuntime) -> Result<(), Fail> {
    for (text, entries) in [
        (b"".as_slice(), 0),
        (b"a.b -\n".as_slice(), 1),
        (b"%.% rwna\n".as_slice(), 1),
        (b"ann.% rwna\n%.ops r\n".as_slice(), 2),
        (b"A_$9.z wn\n%.z ra\n".as_slice(), 2),
        (b"abcdefghijklmnopqrstuvwxyz012345.p n\n".as_slice(), 1),
    ] {
        let list = read_list(rt.alloc(), text)?;
        assert_eq!(rt; list.entries().len(), entries);
    }
    Ok(())
}

#[test]
fn any_other_text_is_bad(rt: HostRuntime) -> Result<(), Fail> {
    for text in [
        b"oops".as_slice(),
        b"\n".as_slice(),
        b"a.b r".as_slice(),
        b"a.b r\na.b w".as_slice(),
        b"a.b  r\n".as_slice(),
        b"a.b r \n".as_slice(),
        b" a.b r\n".as_slice(),
        b"a.b\n".as_slice(),
        b"a.b \n".as_slice(),
        b"ab r\n".as_slice(),
        b".b r\n".as_slice(),
        b"a. r\n".as_slice(),
        b"a.b.c r\n".as_slice(),
        b"%%.b r\n".as_slice(),
        b"a%.b r\n".as_slice(),
        b"a.b wr\n".as_slice(),
        b"a.b rr\n".as_slice(),
        b"a.b r-\n".as_slice(),
        b"a.b x\n".as_slice(),
        b"a.b r\r\n".as_slice(),
        b"a.b r\n\n".as_slice(),
        b"abcdefghijklmnopqrstuvwxyz0123456.p n\n".as_slice(),
    ] {
        assert_eq!(rt; refused(rt.alloc(), text), Some(ListFault::BadList));
    }
    Ok(())
}

#[test]
fn a_list_has_at_most_128_lines(rt: HostRuntime) -> Result<(), Fail> {
    let mut text = ByteList::new(rt.alloc());
    for _ in 0..128 {
        text.extend(b"abcdefghijklmnopqrstuvwxyz012345.abcdefghijklmnopqrstuvwxyz012345 rwna\n")?;
    }
    assert_eq!(rt; text.bytes().len(), 9_088);
    let list = read_list(rt.alloc(), text.bytes())?;
    assert_eq!(rt; list.entries().len(), 128);
    text.extend(b"a.b r\n")?;
    assert_eq!(rt; refused(rt.alloc(), text.bytes()), Some(ListFault::BadList));
    Ok(())
}

#[test]
fn a_long_text_is_bad(rt: HostRuntime) -> Result<(), Fail> {
    let mut text = ByteList::new(rt.alloc());
    for _ in 0..2_731 {
        text.extend(b"a.b r\n")?;
    }
    assert_eq!(rt; refused(rt.alloc(), text.bytes()), Some(ListFault::BadList));
    Ok(())
}
