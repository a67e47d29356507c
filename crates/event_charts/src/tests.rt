use super::*;
use dom_history::{FaultPlan, NodeNames};
use event_views::{Choice, RunView};
use std::alloc::Global;
use std::test::Fail;
use uid_names::{ByteList, ItemList};

/// The name `a`.
fn names(alloc: Global) -> Result<NodeNames, Fail> {
    let a = ByteList::from_slice(alloc, b"a")?;
    Ok(NodeNames::from_list(alloc, &[a])?)
}

/// A run in which nothing happens is a lane for its node, with neither row nor arrow.
#[test]
fn a_run_without_events_has_its_lanes(rt: HostRuntime) -> Result<(), Fail> {
    let alloc = rt.alloc();
    let run = RunView::new(
        names(alloc)?,
        ItemList::new(alloc),
        FaultPlan::new(alloc),
        ItemList::new(alloc),
        ItemList::new(alloc),
        ItemList::new(alloc),
    );
    let all = Choice {
        from: None,
        to: None,
        object: None,
        page: None,
        command: None,
    };
    let chart = chart_of(alloc, &run, &all)?;
    assert_eq!(rt; chart.title(), b"0 of 0 events".as_slice());
    assert_eq!(rt; chart.lanes().len(), 1);
    assert_eq!(rt; chart.rows().len(), 0);
    assert_eq!(rt; chart.arrows().len(), 0);
    Ok(())
}
