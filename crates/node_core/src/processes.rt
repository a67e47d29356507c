//! What a node keeps of a process beside its program.
ghost use Rattle.std.specs.Prelude.{◌≡◌, ◌+◌, ◌-◌, ◌<◌, ◌^◌, Some, None, IfSome, IfNone, IfOk, OnOk};
ghost use Rattle.std.specs.Option.{option_map};
ghost use Rattle.uid_names.specs.Names.{IsProcNumber};
ghost use Rattle.uid_names.specs.declared.limits.TheConstants.{NODE_PROCESSES};
ghost use Rattle.dom_history.specs.declared.op.Op.{Op};
ghost use Rattle.dom_history.specs.declared.op.Want.TheVariants.{Do, Phase};
ghost use Rattle.node_runs.specs.NodeStates.{Asked, Await as Awaiting, BegunOp, first_proc};
ghost use Rattle.node_runs.specs.Outcomes.{next_call};
ghost use Rattle.call_once.specs.Notices.{noticed};
ghost use Rattle.call_once.specs.declared.asking.Noticed.{Noticed};
ghost use Rattle.call_once.specs.declared.asking.TheConstants.{MOST_NOTICES};
ghost use Rattle.node_runs.specs.Doings.{noticed_call};
ghost use Rattle.node_core.specs.Processes.{open_in, call_seen, proc_seen, with_open, with_notice, with_call, IsCalling, IsAgain, IsResent, IsGivenUp};

use crate::asked::Request;
use call_once::{Asking, Noticed};
use dom_history::Want;
use ring_messages::Body;
use std::alloc::Global;
use uid_names::{NoMemory, NodeId, Place, ProcId, Uid};

/// A call that waits for its answer: its number and notices, and the home that is asked.
#[derive(Clone, Copy, Debug, PartialEq, Eq)]
pub(crate) struct Call {
    pub(crate) asking: Asking,
    pub(crate) home: NodeId,
}

/// What an open operation awaits: the answer to a call, or that a page is no longer on its way.
#[derive(Clone, Copy, Debug, PartialEq, Eq)]
pub(crate) enum Await {
    Answer(Call),
    Page(Uid, u32),
}

/// An open operation: where it began, and what it awaits. It is what its program wants.
#[derive(Clone, Copy, Debug, PartialEq, Eq)]
pub(crate) struct Open {
    pub(crate) begun: Place,
    pub(crate) awaits: Await,
}

/// A process: what its program wants, which is known before the process asks; its open operation; the number of its last
/// call; the phase of what its program wants next; and what its last call asks.
pub(crate) struct Proc {
    pub(crate) want: Want,
    pub(crate) opened: Option<Open>,
    pub(crate) last: u64,
    pub(crate) phase: u32,
    pub(crate) asked: Request,
}

// Of its own, so that what drops one calls this and does not take it apart in place.
impl Drop for Proc {
    fn drop(self) {
        let Proc {
            want: _,
            opened: _,
            last: _,
            phase: _,
            asked: _,
        } = self;
    }
}

/// A request that is sent again: to which home, the number of its call, and what it asks.
#[derive(Drop)]
pub(crate) struct Again {
    pub(crate) home: NodeId,
    pub(crate) number: u64,
    pub(crate) body: Body,
}

/// Where a process's own stands.
pub(crate) fn index_of(proc: ProcId) -> usize
    ensures value { result ≡ proc.number - 1 }
    ensures bound { result < NODE_PROCESSES }
    ensures process { IsProcNumber proc.number }
{
    usize::from(proc.number()) - 1
}

impl Proc {
    /// A process at the start, whose program was not asked yet. Takes no memory.
    pub(crate) fn new() -> Proc
        ensures want { result.want ≡ Phase }
        ensures state { proc_seen result ≡ first_proc }
    {
        Proc {
            want: Want::Phase,
            opened: None,
            last: 0,
            phase: 1,
            asked: Request::none(),
        }
    }

    /// The open operation. Takes no memory.
    pub(crate) fn doing(&self) -> Option<Open>
        ensures { result ≡ open_in self.now.want self.now.opened }
    {
        match self.want {
            Want::Do(_) => self.opened,
            Want::Phase | Want::Done => None,
        }
    }

    /// The next call of the operation that began at this place: its number. Takes memory only for a page.
    #[inline(always)]
    pub(crate) fn call(
        &mut self,
        alloc: Global,
        begun: Place,
        home: NodeId,
        request: &Request,
    ) -> Result<u64, NoMemory>
        requires few { self.old.last < 2 ^ 40 }
        ensures number { IfOk result (λ number. number ≡ self.old.last + 1) }
        ensures want { self.new.want ≡ self.old.want }
        ensures state { OnOk result ((op : Op) → self.old.want ≡ Do op → proc_seen self.new ≡ with_call (proc_seen self.old) op begun home request.now) }
    {
        let number = self.last + 1;
        self.asked = request.copy(alloc)?;
        let asking = Asking::new(number);
        let awaits = Await::Answer(Call { asking, home });
        self.opened = Some(Open { begun, awaits });
        self.last = number;
        Ok(number)
    }

    /// One notice more of its open call: its request, which is to be sent again, or None where it is given up. Wants
    /// memory only for a page.
    pub(crate) fn notice(&mut self, alloc: Global) -> Result<Option<Again>, NoMemory>
        requires called { IsCalling (proc_seen self.old).doing }
        requires few { (o : BegunOp) (c : Asked) → (proc_seen self.old).doing ≡ Some (record { began = o; awaits = Awaiting.Answer c }) →
            c.waiting.notices < MOST_NOTICES }
        ensures again { IfOk result (λ sent. IfSome sent (IsResent self.old self.new)) }
        ensures none { IfOk result (λ sent. IfNone sent (IsGivenUp self.old self.new)) }
        ensures want { self.new.want ≡ self.old.want }
    {
        let Some(Open { begun, awaits }) = self.doing() else {
            unreachable!()
        };
        match awaits {
            Await::Answer(call) => self.notice_call(alloc, begun, call),
            Await::Page(_, _) => unreachable!(),
        }
    }

    /// One notice more of this call, which the operation that began at this place awaits: its request, which is to be sent
    /// again, or None where it is given up.
    fn notice_call(
        &mut self,
        alloc: Global,
        begun: Place,
        mut call: Call,
    ) -> Result<Option<Again>, NoMemory>
        requires { call.asking.notices < MOST_NOTICES }
        ensures again { IfOk result (λ sent. IfSome sent (λ again. IsAgain (call_seen call self.old.asked) again × (noticed (call.asking.notices + 1) ≡ Noticed.Resend))) }
        ensures state { IfOk result (λ sent. IfSome sent (λ again. (op : Op) → self.old.want ≡ Do op → proc_seen self.new ≡ with_notice self.old op begun call)) }
        ensures none { IfOk result (λ sent. IfNone sent ((noticed (call.asking.notices + 1) ≡ Noticed.GiveUp) × (self.new ≡ self.old))) }
        ensures want { self.new.want ≡ self.old.want }
    {
        match call.asking.notice() {
            Noticed::Resend => {
                let (home, number) = (call.home, call.asking.number());
                let body = self.asked.copy(alloc)?.into_body();
                let awaits = Await::Answer(call);
                self.opened = Some(Open { begun, awaits });
                Ok(Some(Again { home, number, body }))
            }
            Noticed::GiveUp => Ok(None),
        }
    }

    /// The operation that began at this place waits for a page. Takes no memory.
    pub(crate) fn wait(&mut self, begun: Place, uid: Uid, page: u32)
        ensures want { self.new.want ≡ self.old.want }
        ensures state { (op : Op) → self.old.want ≡ Do op → proc_seen self.new ≡ with_open (proc_seen self.old) op begun (Awaiting.Page uid page) }
    {
        let awaits = Await::Page(uid, page);
        self.opened = Some(Open { begun, awaits });
    }
}
