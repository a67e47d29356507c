//! Fault plans, names of nodes, events, and the words for how an operation ended.
ghost use Rattle.dom_history.specs.Plans.{is_set};

use dom_history::{
    Dropped, Effects, EndWord, Event, EventList, Fate, FaultPlan, MergedLogs, NodeLog, Reply, Sent,
    What,
};
use std::alloc::Global;
use std::process::Abort;
use std::test::Fail;
use uid_names::{ByteList, FrameKind, NodeId, Place, Uid};

#[test]
fn a_plan_has_the_fates_that_were_set(rt: HostRuntime) -> Result<(), Fail> {
    let alloc = rt.alloc();
    let a = NodeId::new(1).ok_or("node")?;
    let b = NodeId::new(2).ok_or("node")?;
    let mut plan = FaultPlan::new(alloc);
    assert_eq!(rt; plan.fate(a, b, 1), Fate::Pass);
    assert!(rt; !plan.is_set(a, b, 1));
    plan.set(a, b, 1, Fate::Lose)?;
    assert!(rt; !plan.is_set(b, a, 1));
    plan.set(b, a, 1, Fate::Twice(2))?;
    assert!(rt; !plan.is_set(a, b, 3));
    plan.set(a, b, 3, Fate::Late(4))?;
    assert_eq!(rt; plan.fate(a, b, 1), Fate::Lose);
    assert_eq!(rt; plan.fate(b, a, 1), Fate::Twice(2));
    assert_eq!(rt; plan.fate(a, b, 2), Fate::Pass);
    assert_eq!(rt; plan.fate(a, b, 3), Fate::Late(4));
    assert!(rt; plan.is_set(a, b, 3));
    assert_eq!(rt; plan.rows().len(), 3);
    assert_eq!(rt; plan.copy(alloc)?.rows(), plan.rows());
    Ok(())
}

/// Loses the frame of this number from a node to another; its fate was not set before.
fn lose(plan: &mut FaultPlan, from: NodeId, to: NodeId, index: u64) -> Result<(), Fail> {
    if from.number() == to.number() || plan.is_set(from, to, index) {
        return Err(Fail::from("set"));
    }
    plan.set(from, to, index, Fate::Lose)?;
    Ok(())
}

#[test]
fn the_rows_of_a_link_rise(rt: HostRuntime) -> Result<(), Fail> {
    let alloc = rt.alloc();
    let a = NodeId::new(1).ok_or("node")?;
    let b = NodeId::new(2).ok_or("node")?;
    let mut plan = FaultPlan::new(alloc);
    for index in [4, 2, 5, 1] {
        lose(&mut plan, a, b, index)?;
    }
    lose(&mut plan, b, a, 3)?;
    let mut numbers = Vec::new(alloc);
    for row in &plan.rows_of_link(alloc, a, b)? {
        numbers.push(row.index)?;
    }
    assert_eq!(rt; numbers.as_slice(), [1, 2, 4, 5].as_slice());
    Ok(())
}

#[test]
fn an_event_has_what_it_was_made_of(rt: HostRuntime) -> Result<(), Fail> {
    let alloc = rt.alloc();
    let node = NodeId::new(1).ok_or("node")?;
    let to = NodeId::new(2).ok_or("node")?;
    let place = Place { tick: 3, node };
    let mut dropped = Dropped::new(alloc);
    dropped.push((Uid::from_parts(2, to), 7))?;
    assert!(rt; dropped.is_rising());
    let sent = Sent {
        to,
        index: 1,
        kind: FrameKind::Lock.number(),
        number: 1,
    };
    let effects = Effects {
        dropped,
        sent: Some(sent),
        ended: None,
    };
    let event = Event::new(place, What::Begin(1), effects);
    let mut events = EventList::new(alloc);
    events.push(event.copy(alloc)?)?;
    events.push(event)?;
    for event in events.items() {
        assert_eq!(rt; event.place(), place);
        assert_eq!(rt; event.what(), What::Begin(1));
        assert_eq!(rt; event.effects().sent, Some(sent));
        assert_eq!(rt; event.effects().dropped.items().len(), 1);
    }
    Ok(())
}

#[test]
fn an_event_names_processes_from_one_to_four(rt: HostRuntime) -> Result<(), Fail> {
    let node = NodeId::new(8).ok_or("node")?;
    assert!(rt; What::Begin(4).is_valid());
    assert!(rt; !What::Go(0).is_valid());
    assert!(rt; !What::Notice(5, node, node, 1).is_valid());
    assert!(rt; What::Take(node, 0).is_valid());
    Ok(())
}

#[test]
fn dropped_pages_rise_by_object_and_then_by_number(rt: HostRuntime) -> Result<(), Fail> {
    let alloc = rt.alloc();
    let node = NodeId::new(1).ok_or("node")?;
    let mut dropped = Dropped::new(alloc);
    assert!(rt; dropped.is_rising());
    dropped.push((Uid::from_parts(2, node), 9))?;
    dropped.push((Uid::from_parts(3, node), 0))?;
    dropped.push((Uid::from_parts(3, node), 1))?;
    assert!(rt; dropped.is_rising());
    dropped.push((Uid::from_parts(3, node), 1))?;
    assert!(rt; !dropped.is_rising());
    Ok(())
}

#[test]
fn each_end_has_its_word(rt: HostRuntime) -> Result<(), Fail> {
    assert_eq!(rt; EndWord::of(&Reply::TooManyMaps).word(), "too-many-maps");
    assert_eq!(rt; EndWord::of(&Reply::Size(0)).word(), "ok");
    assert_eq!(rt; EndWord::from_word(b"link-fault"), Some(EndWord::LinkFault));
    assert_eq!(rt; EndWord::from_word(b"Ok"), None);
    Ok(())
}

/// An event of a node, at a tick.
fn begins_at(alloc: Global, tick: u64, node: NodeId) -> Event {
    let effects = Effects {
        dropped: Dropped::new(alloc),
        sent: None,
        ended: None,
    };
    Event::new(Place { tick, node }, What::Begin(1), effects)
}

/// A log of a node with events at these ticks.
fn log_at(alloc: Global, node: NodeId, ticks: &[u64]) -> Result<NodeLog, Fail> {
    let mut events = EventList::new(alloc);
    for tick in ticks {
        events.push(begins_at(alloc, *tick, node))?;
    }
    Ok(NodeLog { node, events })
}

/// The next event of the log at a place, if there is one, comes.
fn come(merged: &mut MergedLogs, i: usize) -> Result<bool, Fail> {
    if i >= merged.logs().len() || merged.next(i).is_none() {
        return Ok(false);
    }
    merged.pass(i)?;
    Ok(true)
}

#[test]
fn logs_are_read_in_the_order_in_which_their_events_came(rt: HostRuntime) -> Result<(), Fail> {
    let alloc = rt.alloc();
    let a = NodeId::new(1).ok_or("node")?;
    let b = NodeId::new(2).ok_or("node")?;
    let mut logs = Vec::new(alloc);
    logs.push(log_at(alloc, a, &[1, 4])?)?;
    logs.push(log_at(alloc, b, &[2, 3])?)?;
    let mut merged = MergedLogs::new(alloc, logs)?;
    for i in [0, 1, 1, 0] {
        assert!(rt; come(&mut merged, i)?);
    }
    assert!(rt; !come(&mut merged, 0)?);
    assert!(rt; !come(&mut merged, 1)?);
    assert!(rt; !come(&mut merged, 2)?);
    assert_eq!(rt; merged.len(), 4);
    let list = merged.to_list(alloc)?;
    let mut reader = merged.reader(alloc)?;
    for tick in 1..5 {
        let Some(event) = reader.next() else {
            return Err("no event".into());
        };
        assert_eq!(rt; event.place().tick, tick);
        assert!(rt;
            list.items()
                .get(tick as usize - 1)
                .is_some_and(|other| other.place() == event.place())
        );
    }
    assert!(rt; reader.next().is_none());
    Ok(())
}
