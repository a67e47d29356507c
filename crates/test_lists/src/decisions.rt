//! What lists decide: rows of a subject, a right and what comes of it.
use acl_rules::{Decision, Rights, decide, read_list};
use std::test::Fail;

/// These rights.
fn rights(r: bool, w: bool, n: bool, a: bool) -> Rights {
    Rights { r, w, n, a }
}

const TEXT: &[u8] = b"ann.dev rwn\nann.% r\n%.ops w\nbob.% -\n%.all rwna\nbob.all n\n";

#[test]
fn the_first_entry_for_a_subject_decides(rt: HostRuntime) -> Result<(), Fail> {
    let list = read_list(rt.alloc(), TEXT)?;
    let none = rights(false, false, false, false);
    let read = rights(true, false, false, false);
    let write = rights(false, true, false, false);
    let names = rights(false, false, true, false);
    let own = rights(false, false, false, true);
    let all = rights(true, true, true, true);
    for (person, project, need, decision) in [
        (
            b"ann".as_slice(),
            b"dev".as_slice(),
            read,
            Decision::Allowed,
        ),
        (
            b"ann".as_slice(),
            b"dev".as_slice(),
            write,
            Decision::Allowed,
        ),
        (
            b"ann".as_slice(),
            b"dev".as_slice(),
            names,
            Decision::Allowed,
        ),
        (
            b"ann".as_slice(),
            b"dev".as_slice(),
            own,
            Decision::Denied(1),
        ),
        (
            b"ann".as_slice(),
            b"dev".as_slice(),
            all,
            Decision::Denied(1),
        ),
        (
            b"ann".as_slice(),
            b"ops".as_slice(),
            read,
            Decision::Allowed,
        ),
        (
            b"ann".as_slice(),
            b"ops".as_slice(),
            write,
            Decision::Denied(2),
        ),
        (
            b"bob".as_slice(),
            b"ops".as_slice(),
            write,
            Decision::Allowed,
        ),
        (
            b"bob".as_slice(),
            b"ops".as_slice(),
            read,
            Decision::Denied(3),
        ),
        (
            b"bob".as_slice(),
            b"all".as_slice(),
            names,
            Decision::Denied(4),
        ),
        (
            b"bob".as_slice(),
            b"all".as_slice(),
            none,
            Decision::Allowed,
        ),
        (b"eve".as_slice(), b"all".as_slice(), all, Decision::Allowed),
        (
            b"eve".as_slice(),
            b"dev".as_slice(),
            read,
            Decision::Denied(0),
        ),
        (
            b"eve".as_slice(),
            b"dev".as_slice(),
            none,
            Decision::Denied(0),
        ),
        (
            b"an".as_slice(),
            b"dev".as_slice(),
            read,
            Decision::Denied(0),
        ),
    ] {
        assert_eq!(rt; decide(&list, person, project, need), decision);
    }
    Ok(())
}

#[test]
fn an_empty_list_denies_all(rt: HostRuntime) -> Result<(), Fail> {
    let list = read_list(rt.alloc(), b"")?;
    for need in [
        rights(false, false, false, false),
        rights(true, true, true, true),
    ] {
        assert_eq!(rt; decide(&list, b"user", b"none", need), Decision::Denied(0));
    }
    Ok(())
}
