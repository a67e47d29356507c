//! What no clause says: that calls succeed, and how they go together.
use page_cache::Cache;
use page_frames::Flags;
use samples::object;
use std::test::Fail;
use uid_names::{PAGE_BYTES, Uid};

const CLEAN: Flags = Flags {
    dirty: false,
    sent: false,
    transit: false,
};

const DIRTY: Flags = Flags {
    dirty: true,
    sent: false,
    transit: false,
};

const IN_TRANSIT: Flags = Flags {
    dirty: false,
    sent: false,
    transit: true,
};

/// Reserves a frame and installs a page, each byte of which is this one.
fn install(cache: &mut Cache, uid: Uid, page: u32, byte: u8) -> Result<(), Fail> {
    if cache.free() == 0 {
        return Err(Fail::from("no frame is free"));
    }
    cache.reserve();
    match cache.find(uid, page) {
        None => cache.install(uid, page, &[byte; PAGE_BYTES])?,
        Some(_) => return Err(Fail::from("resident before")),
    }
    Ok(())
}

fn touch(cache: &mut Cache, uid: Uid, page: u32) -> Result<(), Fail> {
    match cache.find(uid, page) {
        Some(_) => cache.touch(uid, page),
        None => return Err(Fail::from("not resident")),
    }
    Ok(())
}

fn set_flags(cache: &mut Cache, uid: Uid, page: u32, flags: Flags) -> Result<(), Fail> {
    match cache.find(uid, page) {
        Some(frame) => cache.set_flags(frame, flags),
        None => return Err(Fail::from("not resident")),
    }
    Ok(())
}

/// The first byte of a resident page.
fn first_byte(cache: &Cache, uid: Uid, page: u32) -> Option<u8> {
    match cache.find(uid, page) {
        Some(frame) => Some(cache.bytes(frame)[0]),
        None => None,
    }
}

#[test]
fn clean_pages_go_before_dirty_ones_and_those_in_transit_stay(rt: HostRuntime) -> Result<(), Fail> {
    let uid = object(2, 1)?;
    let mut cache = Cache::new(rt.alloc(), 5)?;
    for page in 0..5 {
        install(&mut cache, uid, page, 0)?;
    }
    touch(&mut cache, uid, 0)?;
    assert_eq!(rt; cache.victim(), Some((uid, 1)));
    assert!(rt; cache.use_page(uid, 1).is_some());
    assert!(rt; cache.use_page(uid, 9).is_none());
    assert_eq!(rt; cache.victim(), Some((uid, 2)));
    for page in 1..5 {
        set_flags(&mut cache, uid, page, DIRTY)?;
    }
    assert_eq!(rt; cache.victim(), Some((uid, 0)));
    set_flags(&mut cache, uid, 0, IN_TRANSIT)?;
    assert_eq!(rt; cache.victim(), Some((uid, 2)));
    for page in 1..5 {
        set_flags(&mut cache, uid, page, IN_TRANSIT)?;
    }
    assert_eq!(rt; cache.victim(), None);
    Ok(())
}

/// Installs pages that follow one another, and makes them dirty. So the lower page is the older one.
fn install_dirty(cache: &mut Cache, uid: Uid, pages: u32) -> Result<(), Fail> {
    for page in 0..pages {
        install(cache, uid, page, 0)?;
        set_flags(cache, uid, page, DIRTY)?;
    }
    Ok(())
}

#[test]
fn a_page_that_is_gone_is_no_victim(rt: HostRuntime) -> Result<(), Fail> {
    let (first, second) = (object(2, 1)?, object(2, 2)?);
    let mut cache = Cache::new(rt.alloc(), 12)?;
    install_dirty(&mut cache, first, 8)?;
    for page in 0..4 {
        install(&mut cache, second, page, 0)?;
    }
    cache.remove(second, 0);
    cache.remove(first, 0);
    assert_eq!(rt; cache.victim(), Some((second, 1)));
    cache.drop_object(second);
    assert_eq!(rt; cache.victim(), Some((first, 1)));
    set_flags(&mut cache, first, 5, CLEAN)?;
    assert_eq!(rt; cache.victim(), Some((first, 5)));
    cache.drop_object(first);
    assert_eq!(rt; cache.victim(), None);
    Ok(())
}

#[test]
fn an_object_has_its_own_pages_in_the_order_of_their_numbers(rt: HostRuntime) -> Result<(), Fail> {
    let (first, second) = (object(2, 1)?, object(2, 2)?);
    let mut cache = Cache::new(rt.alloc(), 6)?;
    for page in [9, 0, 4] {
        install(&mut cache, first, page, 1)?;
        install(&mut cache, second, page, 2)?;
    }
    assert_eq!(rt;
        cache.pages_of(rt.alloc(), first)?.items(),
        [0, 4, 9].as_slice()
    );
    set_flags(&mut cache, first, 9, DIRTY)?;
    set_flags(&mut cache, first, 4, DIRTY)?;
    assert_eq!(rt; cache.dirty_of(first), Some(4));
    assert_eq!(rt; cache.dirty_of(second), None);
    cache.remove(second, 4);
    assert_eq!(rt;
        cache.pages_of(rt.alloc(), second)?.items(),
        [0, 9].as_slice()
    );
    cache.drop_object(first);
    assert_eq!(rt; cache.pages_of(rt.alloc(), first)?.items(), [].as_slice());
    assert_eq!(rt; first_byte(&cache, second, 9), Some(2));
    assert_eq!(rt; cache.free(), 4);
    Ok(())
}

/// What can be handed to another thread.
fn is_send<T: Send>(_value: &T) {}

#[test]
fn a_cache_can_be_handed_to_another_thread(rt: HostRuntime) -> Result<(), Fail> {
    let cache = Cache::new(rt.alloc(), 5)?;
    is_send(&cache);
    Ok(())
}
