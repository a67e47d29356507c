//! The posts of all nodes.
ghost use Rattle.std.specs.Prelude.{◌≡◌, ◌≢◌, ◌≤◌, ◌++◌, ◌∷◌, [], ℕ, ◌+◌, Option, None, length, IfOk, OnOk};
ghost use Rattle.node_runs.specs.Setups.{Setup};
ghost use Rattle.node_posts.specs.Starts.{AreNodes, ArePostsOf, AreRings, IsAlone, IsJoined, AreJoined, AreJoinedWith};

use crate::post::Post;
use dom_history::{FaultPlan, Program};
use node_core::Node;
use page_store::Pages;
use ring_links::Link;
use std::alloc::Global;
use std::collections::VecDeque;
use uid_names::NoMemory;
use wire_links::pair;

/// A node without any ends.
fn alone<P: Program, G: Pages>(alloc: Global, node: Node<P, G>) -> Post<P, G>
    ensures { IsAlone node result }
{
    Post {
        node,
        ins: Vec::new(alloc),
        outs: Vec::new(alloc),
        own: Link::new(alloc),
        notices: VecDeque::new(alloc),
        fault: None,
    }
}

/// Two posts get their ends of the links between them, last.
fn join<P: Program, G: Pages>(
    alloc: Global,
    a: &mut Post<P, G>,
    b: &mut Post<P, G>,
    plan: &FaultPlan,
) -> Result<(), NoMemory>
    requires { a.old.node.log.node ≢ b.old.node.log.node }
    ensures { OnOk result (IsJoined plan.now a.old b.old a.new b.new) }
{
    let (out, into) = pair(alloc, a.number(), b.number(), plan)?;
    a.outs.push(out)?;
    b.ins.push(into)?;
    let (out, into) = pair(alloc, b.number(), a.number(), plan)?;
    b.outs.push(out)?;
    a.ins.push(into)?;
    Ok(())
}

/// The post of a node, joined with each of these.
fn joined<P: Program, G: Pages>(
    alloc: Global,
    posts: &mut Vec<Post<P, G>>,
    node: Node<P, G>,
    plan: &FaultPlan,
) -> Result<Post<P, G>, NoMemory>
    requires joined { AreJoined plan.now posts.old.items }
    requires next { node.log.node ≡ length posts.old.items + 1 }
    ensures { IfOk result (λ post. AreJoinedWith plan.now node posts.old.items posts.new.items post) }
{
    let mut post = alone(alloc, node);
    for at in 0..posts.len() {
        join(alloc, &mut posts[at], &mut post, plan)?;
    }
    Ok(post)
}

/// The posts of these nodes, which are all, by number, as they were made: with the ends of a ring for each two of them each way, on which
/// nothing was sent, and no fault.
pub fn make_posts<P: Program, G: Pages>(
    alloc: Global,
    nodes: Vec<Node<P, G>>,
    plan: &FaultPlan,
) -> Result<Vec<Post<P, G>>, NoMemory>
    requires nodes { (made : ℕ → ℕ → Option P) × (s : Setup) × AreNodes P.wants P.becomes made s nodes.items }
    ensures posts { IfOk result (λ posts. ArePostsOf P.wants P.becomes nodes.items plan.now posts.items) }
    ensures rings { IfOk result (λ posts. AreRings posts.items) }
{
    // No row of it is of a link from a node to itself, on which each frame passes then.
    let _rows = plan.rows();
    let mut posts = Vec::with_capacity(alloc, nodes.len())?;
    for node in nodes {
        let post = joined(alloc, &mut posts, node, plan)?;
        posts.push(post)?;
    }
    Ok(posts)
}
