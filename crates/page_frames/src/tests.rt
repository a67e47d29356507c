//! What no clause says: that a pool is made, and that its frames are as many as were asked for.
use super::*;
use std::test::Fail;

#[test]
#[tactic(auto, using(crate::proofs::FrameLemmas::after_a_change))]
fn a_pool_of_five_gives_five_frames(rt: HostRuntime) -> Result<(), Fail> {
    let mut pool = Frames::new(rt.alloc(), 5)?;
    for taken in 0..5 {
        assert_eq!(rt; pool.free(), 5 - taken);
        let frame = pool.take(&[7; PAGE_BYTES]);
        assert_eq!(rt; pool.bytes(frame)[PAGE_BYTES - 1], 7);
    }
    assert_eq!(rt; pool.free(), 0);
    Ok(())
}

#[test]
#[tactic(auto, using(crate::proofs::FrameLemmas::after_a_change))]
fn a_frame_that_was_given_back_is_taken_again(rt: HostRuntime) -> Result<(), Fail> {
    let mut pool = Frames::new(rt.alloc(), 5)?;
    assert_eq!(rt; pool.free(), 5);
    let frame = pool.take(&[1; PAGE_BYTES]);
    pool.bytes_mut(frame)[0] = 2;
    assert_eq!(rt; pool.bytes(frame)[0], 2);
    assert_eq!(rt; pool.bytes(frame)[1], 1);
    pool.give_back(frame);
    assert_eq!(rt; pool.free(), 5);
    let frame = pool.take(&[3; PAGE_BYTES]);
    assert!(rt; !pool.flags(frame).dirty);
    assert_eq!(rt; pool.bytes(frame)[0], 3);
    Ok(())
}

/// What can be handed to another thread.
fn is_send<T: Send>(_value: &T) {}

#[test]
fn a_pool_can_be_handed_to_another_thread(rt: HostRuntime) -> Result<(), Fail> {
    let pool = Frames::new(rt.alloc(), FEWEST_FRAMES)?;
    is_send(&pool);
    Ok(())
}
