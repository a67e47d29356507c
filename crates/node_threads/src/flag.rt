//! The flag that ends the service of nodes, and what their threads sleep on.
ghost use Rattle.std.specs.Prelude.{◌≡◌, ◌<◌, ◌-◌};
ghost use Rattle.uid_names.specs.declared.limits.TheConstants.{MAX_NODES};

use crate::looks::SPINS;
use crossbeam_utils::CachePadded;
use std::sync::Wait;
use std::sync::atomic::{AtomicBool, Ordering};
use std::thread;
use std::thread::{Parker, Threads};
use uid_names::{MAX_NODES, NodeId};

fn parker() -> CachePadded<Parker> {
    CachePadded::new(Parker::new())
}

/// Where a node stands among all.
pub(crate) fn place_of(node: NodeId) -> usize
    ensures value { result ≡ node - 1 }
    ensures bound { result < MAX_NODES }
{
    usize::from(node.number()) - 1
}

/// A flag at which all node threads look, and a parker for each node. Each stands on cache lines of its own, so that who wakes a node
/// slows no other one down; nothing that is promised rests on that.
#[derive(Drop)]
pub struct StopFlag {
    set: CachePadded<AtomicBool>,
    parkers: [CachePadded<Parker>; MAX_NODES as usize],
    spins: u32,
}

impl StopFlag {
    /// A flag that is not set, for as many nodes as there are processors, or fewer. Takes no memory.
    pub fn new() -> StopFlag {
        StopFlag::with_spins(SPINS)
    }

    /// A flag that is not set, for the threads of so many nodes: where there are more of them than processors, one that finds nothing to
    /// do lets others go first at once.
    pub fn for_nodes<R: Threads>(rt: &R, nodes: usize) -> StopFlag {
        match thread::available_parallelism(rt) {
            Ok(processors) if nodes <= processors.get() => StopFlag::with_spins(SPINS),
            _ => StopFlag::with_spins(0),
        }
    }

    fn with_spins(spins: u32) -> StopFlag {
        StopFlag {
            set: CachePadded::new(AtomicBool::new(false)),
            parkers: [
                parker(),
                parker(),
                parker(),
                parker(),
                parker(),
                parker(),
                parker(),
                parker(),
            ],
            spins,
        }
    }

    /// How often a thread that finds nothing looks again with a hint to the processor between. Takes no memory.
    pub(crate) fn spins(&self) -> u32 {
        self.spins
    }

    /// Whether it was set. Takes no memory.
    pub fn is_set(&self) -> bool {
        self.set.load(Ordering::SeqCst)
    }

    /// Sets it, and wakes the threads of all nodes. Takes no memory.
    pub fn set(&self) {
        self.set.store(true, Ordering::SeqCst);
        for parker in &self.parkers {
            parker.unpark();
        }
    }

    /// Wakes the thread of a node: it sleeps no longer, or not the next time. Takes no memory.
    pub fn wake(&self, node: NodeId) {
        self.parkers[place_of(node)].unpark();
    }

    /// The thread of a node sleeps until it is woken; not at all where it was woken since it slept last. One thread at a time sleeps for
    /// a node.
    pub fn park<R: Wait>(&self, rt: &R, node: NodeId) {
        self.parkers[place_of(node)].park(rt);
    }
}
