//! Both ends of each link in one hand: what was taken from its ring is a first part of what was pushed.
ghost use Rattle.std.specs.Prelude.{◌≡◌, ◌≢◌, ◌+◌, ◌<◌, ℕ, IfOk, length, map};
ghost use Rattle.node_posts.specs.Ends.{place_of};
ghost use Rattle.node_posts.specs.Starts.{AreRings};
ghost use Rattle.wire_links.specs.Wires.{AreEnds};
ghost use Rattle.node_threads.specs.Joined.{OfEnds, OfLink, OfLinks, IsFifo, StayOuts, StayIns, AllStayOuts, AllStayIns, AreBeside};

use dom_history::Program;
use node_core::Node;
use node_posts::Post;
use page_store::Pages;
use std::alloc::Global;
use uid_names::NoMemory;
use wire_links::{WireIn, WireOut};

/// Where the link between a node and another stands among the links of the first, by the places of both among all nodes.
fn place_among(own: usize, other: usize) -> usize
    ensures { result ≡ place_of (own + 1) (other + 1) }
{
    if other < own {
        other
    } else {
        other.saturating_sub(1)
    }
}

/// The two ends at these places are of one ring: what was taken is a first part of what was pushed.
fn beside_at(outs: &mut Vec<WireOut>, at: usize, ins: &mut Vec<WireIn>, other: usize)
    requires ring { OfEnds AreEnds outs.old.items at ins.old.items other }
    ensures fifo { OfEnds IsFifo outs.old.items at ins.old.items other }
    ensures outs { StayOuts outs.old.items outs.new.items }
    ensures ins { StayIns ins.old.items ins.new.items }
{
    if at >= outs.len() || other >= ins.len() {
        return;
    }
    let _ = ins[other].beside(&mut outs[at]);
}

/// So it is of the link from a node to another, by the places of both among all nodes.
fn beside_link(outs: &mut Vec<Vec<WireOut>>, ins: &mut Vec<Vec<WireIn>>, from: usize, to: usize)
    requires from { from < length outs.old.items }
    requires to { to < length ins.old.items }
    requires rings { OfLinks AreEnds outs.old.items ins.old.items }
    ensures fifo { from ≢ to → OfLink IsFifo from to outs.old.items ins.old.items }
    ensures outs { AllStayOuts outs.old.items outs.new.items }
    ensures ins { AllStayIns ins.old.items ins.new.items }
{
    if to == from {
        return;
    }
    let (at, other) = (place_among(from, to), place_among(to, from));
    beside_at(&mut outs[from], at, &mut ins[to], other);
}

/// So it is of the links from one node.
fn beside_from(outs: &mut Vec<Vec<WireOut>>, ins: &mut Vec<Vec<WireIn>>, from: usize)
    requires from { from < length outs.old.items }
    requires rings { OfLinks AreEnds outs.old.items ins.old.items }
    ensures fifo { (to : ℕ) → to < length ins.old.items → from ≢ to → OfLink IsFifo from to outs.old.items ins.old.items }
    ensures outs { AllStayOuts outs.old.items outs.new.items }
    ensures ins { AllStayIns ins.old.items ins.new.items }
{
    for to in 0..ins.len() {
        beside_link(outs, ins, from, to);
    }
}

/// So it is of each link.
fn beside_every(outs: &mut Vec<Vec<WireOut>>, ins: &mut Vec<Vec<WireIn>>)
    requires rings { OfLinks AreEnds outs.old.items ins.old.items }
    ensures fifo { OfLinks IsFifo outs.old.items ins.old.items }
{
    for from in 0..outs.len() {
        beside_from(outs, ins, from);
    }
}

/// The nodes of these posts. Of the ends of their links it is known from then on that what was taken is a first part of what was pushed.
pub(crate) fn beside_all<P: Program, G: Pages>(
    alloc: Global,
    posts: Vec<Post<P, G>>,
) -> Result<Vec<Node<P, G>>, NoMemory>
    requires rings { AreRings posts.items }
    ensures nodes { IfOk result (λ nodes. nodes.items ≡ map (λ x. x.node) posts.items) }
    ensures fifo { IfOk result (λ nodes. AreBeside posts.items) }
{
    let mut nodes = Vec::with_capacity(alloc, posts.len())?;
    let mut outs = Vec::with_capacity(alloc, posts.len())?;
    let mut ins = Vec::with_capacity(alloc, posts.len())?;
    for post in posts {
        nodes.push(post.node)?;
        outs.push(post.outs)?;
        ins.push(post.ins)?;
    }
    beside_every(&mut outs, &mut ins);
    Ok(nodes)
}
