//! What no clause says: that calls succeed, and that the contract holds of either kind through the trait.
use page_store::{BlockPages, ListPages, Pages};
use std::process::Abort;
use std::test::Fail;
use uid_names::{MAX_ROOM, NoMemory, PAGE_BYTES};

/// A page, whatever keeps it.
fn page_at<P: Pages>(pages: &P, counter: u64, page: u32) -> [u8; PAGE_BYTES] {
    let mut into = [9; PAGE_BYTES];
    pages.get(counter, page, &mut into);
    into
}

/// Puts pages of these bytes, whatever keeps them.
fn put_all<P: Pages>(pages: &mut P, rows: &[(u64, u32, u8)]) -> Result<(), NoMemory> {
    for (counter, page, byte) in rows {
        pages.put(*counter, *page, &[*byte; PAGE_BYTES])?;
    }
    Ok(())
}

/// Compares pages with these bytes, whatever keeps them.
fn compare<P: Pages>(rt: &impl Abort, pages: &P, rows: &[(u64, u32, u8)]) {
    for (counter, page, byte) in rows {
        assert_eq!(rt;
            page_at(pages, *counter, *page),
            [*byte; PAGE_BYTES],
            "{counter} {page}"
        );
    }
}

/// What is put at first, one page twice, and what the pages are then.
const PUT: [(u64, u32, u8); 5] = [
    (3, 7, 1),
    (2, 7, 2),
    (2, 0, 3),
    (2, 7, 5),
    (1, MAX_ROOM - 1, 6),
];

const THEN: [(u64, u32, u8); 5] = [
    (1, MAX_ROOM - 1, 6),
    (2, 0, 3),
    (2, 7, 5),
    (3, 7, 1),
    (2, 1, 0),
];

/// What the pages are once object 2 was dropped and its page 7 was put again.
const AGAIN: [(u64, u32, u8); 4] = [(1, MAX_ROOM - 1, 6), (2, 0, 0), (2, 7, 8), (3, 7, 1)];

/// Puts pages, drops an object and puts a page of it again.
fn play<P: Pages>(rt: &impl Abort, pages: &mut P) -> Result<(), Fail> {
    put_all(pages, &PUT)?;
    compare(rt, pages, &THEN);
    pages.drop_object(2);
    put_all(pages, &[(2, 7, 8)])?;
    compare(rt, pages, &AGAIN);
    Ok(())
}

#[test]
fn the_last_bytes_of_each_page_are_read_until_its_object_is_dropped(
    rt: HostRuntime,
) -> Result<(), Fail> {
    play(&rt, &mut ListPages::new(rt.alloc()))?;
    play(&rt, &mut BlockPages::new(rt.alloc()))
}

#[test]
fn a_page_is_kept_until_its_object_is_dropped(rt: HostRuntime) -> Result<(), Fail> {
    let mut pages = BlockPages::new(rt.alloc());
    pages.put(2, 0, &[1; PAGE_BYTES])?;
    assert!(rt; pages.kept(2, 0));
    assert!(rt; !pages.kept(2, 1));
    pages.drop_object(2);
    assert!(rt; !pages.kept(2, 0));
    assert_eq!(rt; page_at(&pages, 2, 0), [0; PAGE_BYTES]);
    Ok(())
}

/// Puts a hundred pages of an object, each of its own byte.
fn put_a_hundred<P: Pages>(pages: &mut P, counter: u64, least: u8) -> Result<(), NoMemory> {
    for page in 0..100u8 {
        pages.put(
            counter,
            u32::from(page),
            &[least.wrapping_add(page); PAGE_BYTES],
        )?;
    }
    Ok(())
}

#[test]
fn pages_of_several_blocks_stay_apart(rt: HostRuntime) -> Result<(), Fail> {
    let mut pages = BlockPages::new(rt.alloc());
    put_a_hundred(&mut pages, 1, 0)?;
    put_a_hundred(&mut pages, 2, 100)?;
    pages.drop_object(1);
    put_a_hundred(&mut pages, 3, 50)?;
    for page in 0..100u8 {
        let at = u32::from(page);
        compare(
            &rt,
            &pages,
            &[(1, at, 0), (2, at, 100 + page), (3, at, 50 + page)],
        );
    }
    Ok(())
}

/// What can be handed to another thread.
fn is_send<T: Send>(_value: &T) {}

#[test]
fn pages_can_be_handed_to_another_thread(rt: HostRuntime) {
    is_send(&ListPages::new(rt.alloc()));
    is_send(&BlockPages::new(rt.alloc()));
}
