//! One store on one thread.
ghost use Rattle.std.specs.Prelude.{◌≡◌, ◌^◌, ◌<◌, List, [], ◌∷◌, length, IfOk, OnOk, OnErr};
ghost use Rattle.dom_history.specs.Ranges.{IsOp};

use crate::answer::reply_to;
use crate::kept::Kept;
use dom_history::{Deed, Op, Reply};
use std::alloc::Global;
use std::marker::Model;
use uid_names::{NoMemory, Opening, ProcId};

/// The store without nodes or caches: it keeps all that was done, and answers each operation as one store does.
/// It gives no reply of a link fault.
#[derive(Debug)]
pub struct PlainStore {
    opening: Opening,
    deeds: Vec<Deed>,
    /// What the deeds left, so that no reply needs a pass over them.
    kept: Kept,
}

// Of its own, so that what drops one calls this and does not take it apart in place.
impl Drop for PlainStore {
    fn drop(self) {
        let PlainStore {
            opening: _,
            deeds: _,
            kept: _,
        } = self;
    }
}

impl Model for PlainStore {
    ghost use Rattle.std.specs.Prelude.{reverse};
    ghost use Rattle.plain_store.specs.Plain.{Plain};
    ghost use Rattle.plain_store.specs.Kept.{IsPlain};

    ghost Value = { Plain };

    ghost view = { λ s. record { opening = s.opening; deeds = reverse s.deeds.items } };

    ghost invariant = { λ s. IsPlain s.opening (reverse s.deeds.items) s.kept };
}

impl PlainStore {
    ghost use Rattle.uid_names.specs.Beginnings.{CanBegin};
    ghost use Rattle.dom_history.specs.Fitting.{Fits};
    ghost use Rattle.dom_history.specs.Replies.{before_of, reply_of};
    ghost use Rattle.plain_store.specs.Plain.{after_deed};

    /// A store in which nothing was done.
    pub fn new(alloc: Global, opening: &Opening) -> Result<PlainStore, NoMemory>
        requires { CanBegin opening.now }
        ensures { IfOk result (λ store. store ≡ record { opening = opening.now; deeds = [] }) }
    {
        let kept = Kept::new(alloc, opening)?;
        let opening = opening.copy(alloc)?;
        Ok(PlainStore {
            opening,
            deeds: Vec::new(alloc),
            kept,
        })
    }

    /// Does an operation of a process. Without memory the store stays as it was.
    pub fn apply(&mut self, alloc: Global, proc: ProcId, op: &Op) -> Result<Reply, NoMemory>
        requires range { IsOp op.now }
        requires few { length self.old.deeds < 2 ^ 40 }
        ensures reply { IfOk result (λ reply. reply ≡ reply_of (before_of self.old.opening self.old.deeds proc) proc op.now) }
        ensures fits { IfOk result (Fits op.now) }
        ensures after { IfOk result (λ reply. self.new ≡ after_deed self.old (record { proc = proc; op = op.now; reply = reply })) }
        ensures err { OnErr result (self.new ≡ self.old) }
    {
        let reply = reply_to(alloc, &self.opening, &self.kept, proc, op)?;
        let deed = Deed {
            proc,
            op: op.copy(alloc)?,
            reply: reply.copy(alloc)?,
        };
        // Where there is no memory for the deed or for what it leaves, neither is kept.
        self.kept.reserve()?;
        self.deeds.reserve(1)?;
        self.kept.take_in(&deed)?;
        match self.deeds.push(deed) {
            Ok(()) => Ok(reply),
            Err(_) => unreachable!(),
        }
    }
}
