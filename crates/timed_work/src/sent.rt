//! A node alone with one process, which goes round the pages of an object, of which but one are zeros: how many bytes the frames
//! have that the node sends, in each version.
ghost use Rattle.std.specs.Prelude.{◌≡◌, false, IfOk};
ghost use Rattle.dom_history.specs.declared.op.Want.TheVariants.{Phase};
ghost use Rattle.uid_names.specs.Wires.{IsWire};
ghost use Rattle.timed_work.specs.Rounds.{round_wants};

use crate::process;
use crate::rounds::{Rounds, WantList};
use crate::teams::{load, lock, store, unlock};
use anyhow::Result;
use dom_history::{Want, What};
use node_core::{Incoming, Node, NodeSetup};
use page_store::BlockPages;
use ring_messages::write;
use std::alloc::Global;
use uid_names::{NoMemory, NodeId, ObjKind, Opening, Uid};

/// How many pages the object has, more than the node has frames for.
const PAGES: u32 = 32;

/// The program, before it was asked. The last page is stored in once in a round, so that all can be loaded in turn.
fn program(alloc: Global, uid: Uid) -> Result<Rounds, NoMemory>
    ensures whole { IfOk result (λ program. program.spent ≡ false) }
    ensures fresh { IfOk result (λ program. round_wants program ≡ Phase) }
{
    let mut list = WantList::new(alloc, Want::Do(lock(uid)))?;
    list.add(store(alloc, uid, PAGES - 1)?)?;
    for page in 0..PAGES {
        list.add(load(uid, page))?;
    }
    list.add(unlock(uid))?;
    Ok(Rounds::new(list, u32::MAX))
}

/// A node, what its next event receives, and as which one on its link the frame was sent that is received.
#[derive(Drop)]
struct Side {
    alloc: Global,
    number: NodeId,
    node: Node<Rounds, BlockPages>,
    incoming: Incoming,
    index: u64,
}

impl Side {
    fn new(alloc: Global, wire: u8) -> Result<Side, NoMemory>
        requires { IsWire wire }
    {
        let number = process(1, 1).node();
        let uid = Uid::from_parts(2, number);
        let mut opening = Opening::new(alloc, 1, 1024);
        opening.add(uid, ObjKind::File, PAGES)?;
        let setup = NodeSetup {
            node: number,
            nodes: 1,
            wire,
            frames: 5,
            phases: 1,
        };
        let programs = vec![in alloc; (1, program(alloc, uid)?)]?;
        let node = Node::new(alloc, setup, &opening, BlockPages::new(alloc), programs)?;
        Ok(Side {
            alloc,
            number,
            node,
            incoming: Incoming::Nothing,
            index: 0,
        })
    }

    /// The frame is taken that waits, or the process begins what it wants; how many bytes the frame has that is sent then.
    fn happen(&mut self) -> Result<u32, NoMemory> {
        const LATEST: u64 = 1 << 40;
        let (node, incoming) = (&mut self.node, &self.incoming);
        let what = match incoming {
            Incoming::Frame(_) => What::Take(self.number, self.index),
            _ => What::Begin(1),
        };
        if !node.enabled(&what, incoming) || node.tick() >= LATEST || incoming.tick() >= LATEST {
            return Ok(0);
        }
        match node.step(self.alloc, what, incoming)?.frame {
            Some((index, frame)) => {
                let bytes = write(self.alloc, &frame)?;
                self.index = index;
                self.incoming = Incoming::Frame(frame);
                Ok(u32::try_from(bytes.bytes().len()).unwrap_or(u32::MAX))
            }
            None => {
                self.incoming = Incoming::Nothing;
                Ok(0)
            }
        }
    }
}

pub fn send(rt: &HostRuntime, wire: u8, count: u32) -> Result<(u64, u64)>
    requires { IsWire wire }
{
    let mut side = Side::new(rt.alloc(), wire)?;
    timed!(rt, count, _i => side.happen()?)
}
