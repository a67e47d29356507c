//! Three nodes, with a process each that counts.
ghost use Rattle.std.specs.Prelude.{◌≡◌, ◌≤◌, IfOk};
ghost use Rattle.world_core.specs.Stands.{AreNodes};
ghost use Rattle.count_up.specs.Counters.{want_of, counter_after};
ghost use Rattle.count_up.specs.Starting.{object, start};
ghost use Rattle.count_up.specs.Counting.{made_counter, counting, IsCounting};

use crate::counter::Counter;
use node_core::{Node, NodeSetup};
use page_store::BlockPages;
use std::alloc::Global;
use uid_names::{NoMemory, NodeId, ObjKind, Opening, Uid};

/// The nodes have the numbers 1 to 3.
const NODES: u8 = 3;

/// One to count in, and one to see what came of it.
const PHASES: u32 = 2;

/// In which version they write what they send each other: 2 leaves out the bytes of a page that are all zero.
const WIRE: u8 = 2;

/// How many page frames each has.
const FRAMES: u16 = 8;

/// The node of a number.
fn node(number: u8) -> NodeId
    requires least { 1 ≤ number }
    requires greatest { number ≤ 8 }
    ensures { result ≡ number }
{
    match NodeId::new(number) {
        Some(node) => node,
        None => unreachable!(),
    }
}

/// The object with the number, whose home is the first node.
fn object() -> Uid
    ensures { result ≡ object }
{
    Uid::from_parts(2, node(1))
}

/// What there is at the start: the object, which has one page.
fn start(alloc: Global) -> Result<Opening, NoMemory>
    ensures { IfOk result (λ opening. opening ≡ start) }
{
    let mut opening = Opening::new(alloc, NODES, 1);
    opening.add(object(), ObjKind::File, 1)?;
    Ok(opening)
}

/// The node of a number, whose process 1 counts up so often.
fn counting_node(
    alloc: Global,
    number: u8,
    rounds: u32,
) -> Result<Node<Counter, BlockPages>, NoMemory>
    requires least { 1 ≤ number }
    requires greatest { number ≤ 3 }
    ensures { IfOk result (IsCounting rounds number) }
{
    let setup = NodeSetup {
        node: node(number),
        nodes: NODES,
        wire: WIRE,
        frames: FRAMES,
        phases: PHASES,
    };
    let programs = vec![in alloc; (1, Counter::new(object(), rounds))]?;
    let start = start(alloc)?;
    let pages = BlockPages::new(alloc);
    Node::new(alloc, setup, &start, pages, programs)
}

/// The nodes at the start, by number. Each process counts up so often.
pub fn counting_nodes(
    alloc: Global,
    rounds: u32,
) -> Result<Vec<Node<Counter, BlockPages>>, NoMemory>
    ensures { IfOk result (λ nodes. AreNodes want_of counter_after (made_counter rounds) (counting rounds) nodes.items) }
{
    let nodes = vec![in alloc;
        counting_node(alloc, 1, rounds)?,
        counting_node(alloc, 2, rounds)?,
        counting_node(alloc, 3, rounds)?,
    ]?;
    Ok(nodes)
}
