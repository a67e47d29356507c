//! What no clause says: the worked addresses.
use address_map::{AddressMap, MapRefusal, NotMapped};
use samples::object;
use std::test::Fail;

#[test]
fn objects_stand_at_the_lowest_addresses(rt: HostRuntime) -> Result<(), Fail> {
    let mut map = AddressMap::new(rt.alloc())?;
    let first = object(2, 1)?;
    let second = object(3, 1)?;
    assert_eq!(rt; map.map(first, 1), Ok((0, true)));
    assert_eq!(rt; map.map(second, 33), Ok((0x8000, true)));
    assert_eq!(rt; map.map(second, 33), Ok((0x8000, false)));
    assert_eq!(rt; map.find(0x400), Ok((first, 0x400)));
    assert_eq!(rt; map.find(0x0001_7fff), Ok((second, 0xffff)));
    assert_eq!(rt; map.find(0x0002_0000), Err(NotMapped));
    assert_eq!(rt; map.unmap(first), Ok(()));
    assert_eq!(rt; map.unmap(first), Err(NotMapped));
    assert_eq!(rt; map.map(first, 1), Ok((0, true)));
    Ok(())
}

#[test]
fn eight_great_objects_fill_the_space(rt: HostRuntime) -> Result<(), Fail> {
    let mut map = AddressMap::new(rt.alloc())?;
    for place in 0..8u32 {
        let uid = object(u64::from(place) + 2, 1)?;
        assert_eq!(rt; map.map(uid, 1024), Ok((place * 0x0010_0000, true)));
    }
    assert_eq!(rt; map.map(object(10, 1)?, 1), Err(MapRefusal::NoSegment));
    assert_eq!(rt; map.find(0x007f_ffff), Ok((object(9, 1)?, 0x000f_ffff)));
    assert_eq!(rt; map.find(0x0080_0000), Err(NotMapped));
    Ok(())
}

#[test]
fn a_seventeenth_mapping_is_refused(rt: HostRuntime) -> Result<(), Fail> {
    let mut map = AddressMap::new(rt.alloc())?;
    for place in 0..16u32 {
        let uid = object(u64::from(place) + 2, 1)?;
        assert_eq!(rt; map.map(uid, 32), Ok((place * 0x8000, true)));
    }
    assert_eq!(rt; map.map(object(18, 1)?, 1), Err(MapRefusal::TooManyMaps));
    assert_eq!(rt; map.map(object(5, 1)?, 32), Ok((0x0001_8000, false)));
    Ok(())
}
