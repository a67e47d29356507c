//! The marks that a node took.
ghost use Rattle.std.specs.Prelude.{◌≡◌, ℕ, [], ◌∷◌, OnOk, OnErr};
ghost use Rattle.node_core.specs.Marks.{is_taken};

use std::alloc::Global;
use std::collections::BTreeSet;
use std::marker::Model;
use uid_names::{NoMemory, NodeId};

/// The marks that were taken, each by its node and its phase.
#[derive(Drop)]
pub(crate) struct Marks {
    taken: BTreeSet<(u8, u32)>,
}

impl Model for Marks {
    ghost use Rattle.std.specs.Prelude.{ℕ, List};

    ghost Value = { List (ℕ × ℕ) };

    ghost view = { λ m. m.taken.keys };
}

impl Marks {
    /// None. Takes no memory.
    pub(crate) fn new(alloc: Global) -> Marks
        ensures { result ≡ [] }
    {
        Marks {
            taken: BTreeSet::new(alloc),
        }
    }

    /// Whether that node's mark of that phase was taken. Takes no memory.
    pub(crate) fn has(&self, from: u8, phase: u32) -> bool
        ensures { result ≡ is_taken self.now from phase }
    {
        self.taken.contains(&(from, phase))
    }

    /// Notes that node's mark of that phase; without memory nothing changes.
    pub(crate) fn add(&mut self, from: NodeId, phase: u32) -> Result<(), NoMemory>
        ensures taken { OnOk result ((f k : ℕ) → is_taken self.new f k ≡ is_taken ((from, phase) ∷ self.old) f k) }
        ensures err { OnErr result (self.new ≡ self.old) }
    {
        self.taken.insert((from.number(), phase))?;
        Ok(())
    }
}
