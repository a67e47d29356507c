//! Whether the events of a run have their places by the plan.
ghost use Rattle.std.specs.Prelude.{◌≡◌, ◌≤◌, ◌<◌, ◌^◌, ◌+◌, ◌*◌, ◌∷◌, [], ℕ, List, Option, OnOk, IfOk, IfSome, length};
ghost use Rattle.uid_names.specs.declared.limits.TheConstants.{MAX_NODES};
ghost use Rattle.dom_history.specs.declared.plan.FateRow.{FateRow};
ghost use Rattle.dom_history.specs.Events.{Happening};
ghost use Rattle.fault_handler.specs.Desks.{IsNode};
ghost use Rattle.world_runs.specs.NamedNodes.{NamesNodes, NamesNodesIn};
ghost use Rattle.run_journals.specs.Places.{Counts};
ghost use Rattle.journal_check.specs.Judged.{ArePlaces, KeepsPlaces, IsLeastFault, IsNextEvent, IsNextSent, Takes, WhereKept, least_of, notice_then, sent_then, taken_then};

use crate::links::link_of;
use crate::order::Order;
use dom_history::{Event, FaultPlan, Sent, What};
use ring_links::is_gone;
use std::alloc::Global;
use uid_names::{NoMemory, NodeId};

/// The lesser of two lines, where there are two.
fn least(a: Option<u64>, b: Option<u64>) -> Option<u64>
    ensures { result ≡ least_of a b }
{
    match (a, b) {
        (Some(x), Some(y)) => Some(x.min(y)),
        (Some(x), None) => Some(x),
        (None, other) => other,
    }
}

/// The order of each link, and the line of the first notice that had no place.
#[derive(Drop)]
pub struct Places<'a> {
    pub(crate) plan: &'a FaultPlan,
    pub(crate) nodes: usize,
    pub(crate) orders: Vec<Order>,
    pub(crate) notice: Option<u64>,
}

impl<'a> Places<'a> {
    /// Of so many nodes, before any event.
    pub fn new(alloc: Global, plan: &'a FaultPlan, nodes: u8) -> Result<Places<'a>, NoMemory>
        requires few { nodes ≤ MAX_NODES }
        ensures { IfOk result (ArePlaces plan.now nodes []) }
    {
        let nodes = usize::from(nodes);
        let mut orders = Vec::with_capacity(alloc, nodes * nodes)?;
        for _link in 0..nodes * nodes {
            orders.push(Order::new(alloc))?;
        }
        Ok(Places {
            plan,
            nodes,
            orders,
            notice: None,
        })
    }

    /// What happens at a node by this line takes a frame, or tells of one, which was told before or was not.
    fn hear(&mut self, node: NodeId, what: What, again: bool, line: u64) -> Result<(), NoMemory>
        requires few { self.old.nodes ≤ MAX_NODES }
        requires whole { length self.old.orders.items ≡ self.old.nodes * self.old.nodes }
        requires node { IsNode self.old.nodes node }
        requires named { NamesNodesIn self.old.nodes what }
        ensures count { length self.new.orders.items ≡ length self.old.orders.items }
        ensures same { (self.new.plan ≡ self.old.plan) × (self.new.nodes ≡ self.old.nodes) }
        ensures keeps { WhereKept self.old (λ counts taken notice.
            OnOk result (KeepsPlaces counts (taken_then taken line node what) (notice_then self.old.plan.now notice line again what) self.new)) }
    {
        match what {
            What::Take(from, index) => {
                self.orders[link_of(from, node, self.nodes)].take(index, line)
            }
            What::Notice(_, from, to, index) => {
                if again || !is_gone(self.plan.fate(from, to, index)) {
                    self.notice = least(self.notice, Some(line));
                }
                Ok(())
            }
            What::Begin(_) | What::Go(_) | What::Ready(_) | What::Mark(_, _) => Ok(()),
        }
    }

    /// A frame was sent by a node, if one was.
    fn send(&mut self, alloc: Global, from: NodeId, sent: &Option<Sent>) -> Result<(), NoMemory>
        requires few { self.old.nodes ≤ MAX_NODES }
        requires whole { length self.old.orders.items ≡ self.old.nodes * self.old.nodes }
        requires from { IsNode self.old.nodes from }
        requires to { IfSome sent.now (λ sent. IsNode self.old.nodes sent.to) }
        requires keeps { (counts : Counts) × (taken : Takes) × (notice : Option ℕ) × KeepsPlaces counts taken notice self.old }
        ensures same { (self.new.plan ≡ self.old.plan) × (self.new.nodes ≡ self.old.nodes) }
        ensures keeps { WhereKept self.old (λ counts taken notice.
            IsNextSent counts from sent.now → OnOk result (KeepsPlaces (sent_then counts from sent.now) taken notice self.new)) }
    {
        match sent {
            Some(sent) => {
                let fate = self.plan.fate(from, sent.to, sent.index);
                self.orders[link_of(from, sent.to, self.nodes)].send(alloc, fate)
            }
            None => Ok(()),
        }
    }

    /// The event of this line happened; whether the frame of which it tells, if it tells of one, was told before. Without memory these are the
    /// places of no events any more.
    pub fn add(
        &mut self,
        alloc: Global,
        line: u64,
        event: &Event,
        again: bool,
    ) -> Result<(), NoMemory>
        requires named { NamesNodes self.old.nodes event.now }
        requires places { (es : List Happening) × ArePlaces self.old.plan.now self.old.nodes es self.old }
        ensures { (plan : List FateRow) (n : ℕ) (es : List Happening) → ArePlaces plan n es self.old →
            IsNextEvent es event.now line again → OnOk result (ArePlaces plan n (event.now ∷ es) self.new) }
    {
        let node = event.place().node;
        self.hear(node, event.what(), again, line)?;
        self.send(alloc, node, &event.effects().sent)
    }

    /// The line of the first event that has no place, once no more come. Takes no memory.
    pub fn first_fault(&self) -> Option<u64>
        ensures { (es : List Happening) → ArePlaces self.now.plan.now self.now.nodes es self.now → IsLeastFault self.now.plan.now es result }
    {
        let mut first = self.notice;
        for order in &self.orders {
            first = least(first, order.first_fault());
        }
        first
    }
}
