//! One round at a post: all that is ready there, the Begins that the gate lets through, and then what waits is pushed.
ghost use Rattle.std.specs.Prelude.{ℕ, ◌≤◌, ◌^◌};
ghost use Rattle.fault_handler.specs.Invariant.{IsProc};
ghost use Rattle.node_posts.specs.Posts.{HasRun, GoesOn};

use crate::flag::StopFlag;
use crate::gate::Gate;
use crate::told::Told;
use dom_history::Program;
use node_posts::Post;
use page_store::Pages;
use std::alloc::Global;
use uid_names::{NODE_PROCESSES, NodeId, ProcId};

/// What a round was: whether something was done or came, and whether the gate put a Begin off.
#[derive(Clone, Copy, Debug, PartialEq, Eq)]
pub(crate) struct Round {
    pub(crate) moved: bool,
    pub(crate) put_off: bool,
}

impl Round {
    /// Nothing was done.
    pub(crate) fn idle() -> Round {
        Round {
            moved: false,
            put_off: false,
        }
    }

    /// This round, and another.
    pub(crate) fn and(self, other: Round) -> Round {
        Round {
            moved: self.moved || other.moved,
            put_off: self.put_off || other.put_off,
        }
    }
}

/// A process begins, if it may and the gate lets it.
fn begin_one<P: Program, G: Pages, K: Gate>(
    alloc: Global,
    post: &mut Post<P, G>,
    proc: u8,
    gate: &K,
    last_tick: u64,
) -> Round
    requires proc { IsProc proc }
    requires last { last_tick ≤ 2 ^ 40 }
    requires run { HasRun P.wants P.becomes last_tick post.old }
    ensures { GoesOn P.wants P.becomes last_tick post.old post.new }
{
    let Some(answered) = post.unfinished(proc) else {
        return Round::idle();
    };
    let Some(name) = ProcId::new(post.number(), proc) else {
        return Round::idle();
    };
    if !gate.may_begin(name, answered.saturating_add(1)) {
        return Round {
            moved: false,
            put_off: true,
        };
    }
    Round {
        moved: post.begin(alloc, proc, last_tick),
        put_off: false,
    }
}

/// Each process begins that may and that the gate lets.
fn begin_all<P: Program, G: Pages, K: Gate>(
    alloc: Global,
    post: &mut Post<P, G>,
    gate: &K,
    last_tick: u64,
) -> Round
    requires last { last_tick ≤ 2 ^ 40 }
    requires run { HasRun P.wants P.becomes last_tick post.old }
    ensures { GoesOn P.wants P.becomes last_tick post.old post.new }
{
    let mut round = Round::idle();
    for i in 0..NODE_PROCESSES as u8 {
        round = round.and(begin_one(alloc, post, i + 1, gate, last_tick));
    }
    round
}

/// Wakes the thread of a node, if it may sleep.
fn wake(node: Option<NodeId>, stop: Option<&StopFlag>) {
    if let (Some(node), Some(stop)) = (node, stop) {
        stop.wake(node);
    }
}

/// What waits is pushed, and each node is woken for which something was.
fn push_all<P: Program, G: Pages>(post: &mut Post<P, G>, stop: Option<&StopFlag>)
    ensures { (limit : ℕ) → limit ≤ 2 ^ 40 → GoesOn P.wants P.becomes limit post.old post.new }
{
    for at in 0..post.others() {
        if post.flush(at) {
            wake(post.other(at), stop);
        }
    }
}

/// One round at a post. All that is there is served before anything is pushed.
pub(crate) fn serve_post<P: Program, G: Pages, K: Gate>(
    alloc: Global,
    post: &mut Post<P, G>,
    gate: &K,
    told: &mut Told,
    stop: Option<&StopFlag>,
    last_tick: u64,
) -> Round
    requires last { last_tick ≤ 2 ^ 40 }
    requires run { HasRun P.wants P.becomes last_tick post.old }
    ensures { GoesOn P.wants P.becomes last_tick post.old post.new }
{
    let moved = post.serve_round(alloc, last_tick);
    // The gate hears of each command that has its answer before it is asked for the next one.
    if moved || post.node.tick() == 0 {
        told.tell(post, gate);
    }
    let begun = begin_all(alloc, post, gate, last_tick);
    if begun.moved {
        told.tell(post, gate);
    }
    push_all(post, stop);
    Round {
        moved: moved || begun.moved,
        put_off: begun.put_off,
    }
}
