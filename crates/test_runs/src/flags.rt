//! What no clause says of a stop flag: that it is found set where it was, and that who is woken sleeps no longer.
use node_threads::StopFlag;
use samples::node;
use std::test::Fail;
use std::thread;

#[test]
fn a_flag_is_set_once_it_was(rt: HostRuntime) -> Result<(), Fail> {
    let flag = StopFlag::for_nodes(&rt, 8);
    assert!(rt; !flag.is_set());
    flag.set();
    assert!(rt; flag.is_set());
    assert!(rt; !StopFlag::new().is_set());
    Ok(())
}

#[test]
fn who_was_woken_does_not_sleep(rt: HostRuntime) -> Result<(), Fail> {
    let flag = StopFlag::new();
    for number in 1..9 {
        let node = node(number)?;
        flag.wake(node);
        flag.park(&rt, node);
    }
    // Setting the flag wakes all.
    flag.set();
    for number in 1..9 {
        flag.park(&rt, node(number)?);
    }
    Ok(())
}

#[test]
fn who_sleeps_is_woken_by_another_thread(rt: HostRuntime) -> Result<(), Fail> {
    let flag = StopFlag::new();
    let (one, two) = (node(1)?, node(2)?);
    for _ in 0..100 {
        thread::join(
            &rt,
            || {
                flag.wake(two);
                flag.park(&rt, one);
            },
            || {
                flag.park(&rt, two);
                flag.wake(one);
            },
        );
    }
    Ok(())
}
