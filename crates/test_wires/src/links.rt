//! What waits on a link.
use dom_history::Fate;
use ring_links::{Link, Waiting};
use ring_messages::{Body, Frame};
use std::test::Fail;
use uid_names::NodeId;

/// The first frame falls twice in its place, the second is late by 0, the third comes behind the fourth, the fifth is lost.
#[test]
fn copies_in_order(rt: HostRuntime) -> Result<(), Fail> {
    let alloc = rt.alloc();
    let one = NodeId::new(1).ok_or("node")?;
    let two = NodeId::new(2).ok_or("node")?;
    let mut link = Link::new(alloc);
    link.send(
        alloc,
        Fate::Twice(0),
        Frame::new(1, one, two, 1, 7, 3, Body::Done),
    )?;
    link.send(
        alloc,
        Fate::Late(0),
        Frame::new(1, one, two, 1, 7, 4, Body::Done),
    )?;
    link.send(
        alloc,
        Fate::Late(1),
        Frame::new(1, one, two, 1, 7, 5, Body::Done),
    )?;
    link.send(
        alloc,
        Fate::Pass,
        Frame::new(1, one, two, 1, 7, 6, Body::Done),
    )?;
    link.send(
        alloc,
        Fate::Lose,
        Frame::new(1, one, two, 1, 7, 7, Body::Done),
    )?;
    let mut order = 0u64;
    for _ in 0..9 {
        if let Some(entry) = link.pop() {
            if let Waiting::Copy(index) = entry.waiting {
                order = order.wrapping_mul(10).wrapping_add(index);
            }
        }
    }
    assert_eq!(rt; order, 11_243);
    Ok(())
}
