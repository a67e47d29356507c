//! A node alone with one process, and with the object that it works on: resident loads and stores, or locks and unlocks.
//! What is counted are events.
ghost use Rattle.std.specs.Prelude.{◌≡◌, false, IfOk};
ghost use Rattle.dom_history.specs.declared.op.Want.TheVariants.{Phase};
ghost use Rattle.timed_work.specs.Repeating.{want_of};

use crate::process;
use crate::repeat::Repeat;
use anyhow::Result;
use dom_history::{Op, Spot, What};
use node_core::{Incoming, Node, NodeSetup};
use page_store::BlockPages;
use std::alloc::Global;
use uid_names::{ByteList, Mode, NoMemory, NodeId, ObjKind, Opening, Uid};

/// What the process does in turn, once it has locked the object.
#[derive(Clone, Copy)]
pub enum Deeds {
    Accesses,
    Locks,
}

/// The program, before it was asked.
fn program(alloc: Global, deeds: Deeds, uid: Uid) -> Result<Repeat, NoMemory>
    ensures whole { IfOk result (λ program. program.spent ≡ false) }
    ensures fresh { IfOk result (λ program. want_of program ≡ Phase) }
{
    let (mode, spot, count) = (Mode::Write, Spot::Of(uid, 0), 1);
    // What each name of an object keeps.
    let _number = uid.number();
    let bytes = ByteList::from_slice(alloc, b"x")?;
    let lock = Op::Lock { uid, mode };
    Ok(match deeds {
        Deeds::Accesses => Repeat::new(lock, Op::Store { spot, bytes }, Op::Load { spot, count }),
        Deeds::Locks => Repeat::new(lock, Op::Unlock { uid }, Op::Lock { uid, mode }),
    })
}

/// A node, what its next event receives, and as which one on its link the frame was sent that is received.
#[derive(Drop)]
struct Side {
    alloc: Global,
    number: NodeId,
    node: Node<Repeat, BlockPages>,
    incoming: Incoming,
    index: u64,
}

impl Side {
    fn new(alloc: Global, deeds: Deeds) -> Result<Side, NoMemory> {
        let number = process(1, 1).node();
        let uid = Uid::from_parts(2, number);
        let mut opening = Opening::new(alloc, 1, 1024);
        opening.add(uid, ObjKind::File, 1)?;
        let setup = NodeSetup {
            node: number,
            nodes: 1,
            wire: 1,
            frames: 64,
            phases: 1,
        };
        let programs = vec![in alloc; (1, program(alloc, deeds, uid)?)]?;
        let node = Node::new(alloc, setup, &opening, BlockPages::new(alloc), programs)?;
        Ok(Side {
            alloc,
            number,
            node,
            incoming: Incoming::Nothing,
            index: 0,
        })
    }

    /// The frame is taken that waits, or the process begins what it wants; 1 where that was enabled.
    fn happen(&mut self) -> Result<u32, NoMemory> {
        const LATEST: u64 = 1 << 40;
        let (node, incoming) = (&mut self.node, &self.incoming);
        let what = match incoming {
            Incoming::Frame(_) => What::Take(self.number, self.index),
            _ => What::Begin(1),
        };
        if !node.enabled(&what, incoming) || node.tick() >= LATEST || incoming.tick() >= LATEST {
            return Ok(0);
        }
        match node.step(self.alloc, what, incoming)?.frame {
            Some((index, frame)) => {
                self.index = index;
                self.incoming = Incoming::Frame(frame);
            }
            None => self.incoming = Incoming::Nothing,
        }
        Ok(1)
    }
}

pub fn happen(rt: &HostRuntime, deeds: Deeds, count: u32) -> Result<(u64, u64)> {
    let mut side = Side::new(rt.alloc(), deeds)?;
    timed!(rt, count, _i => side.happen()?)
}
