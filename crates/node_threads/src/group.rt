//! Nodes that are served together, in one thread.
ghost use Rattle.std.specs.Prelude.{ℕ, ◌≡◌, ◌≤◌, ◌^◌, ◌||◌, All, IsNone, IsSome, IsTrue};
ghost use Rattle.std.specs.List.{AllZip};
ghost use Rattle.node_posts.specs.Posts.{HasRun, GoesOn};
ghost use Rattle.node_threads.specs.Groups.{any_fault, all_ended};

use crate::flag::StopFlag;
use crate::gate::Gate;
use crate::looks::Looks;
use crate::serving::{Round, serve_post};
use crate::told::Told;
use dom_history::Program;
use node_posts::Post;
use page_store::Pages;
use std::alloc::Global;
use std::sync::Wait;

/// Whether a fault came to one of these posts.
pub(crate) fn has_fault<P: Program, G: Pages>(posts: &[Post<P, G>]) -> bool
    ensures { result ≡ any_fault posts.now }
{
    for post in posts {
        if post.fault.is_some() {
            return true;
        }
    }
    false
}

/// Whether each of these posts has ended, and no mark of one is left.
pub(crate) fn are_over<P: Program, G: Pages>(posts: &[Post<P, G>]) -> bool
    ensures { result ≡ all_ended posts.now }
{
    for post in posts {
        if !post.is_over() {
            return false;
        }
    }
    true
}

fn is_set(stop: Option<&StopFlag>) -> bool
    ensures { IsTrue result → IsSome stop.entry }
{
    match stop {
        Some(stop) => stop.is_set(),
        None => false,
    }
}

fn set(stop: Option<&StopFlag>) {
    if let Some(stop) = stop {
        stop.set();
    }
}

/// What a gate was told of these posts before.
fn told_before<P: Program, G: Pages>(posts: &[Post<P, G>]) -> Told
    requires run { (limit : ℕ) × All (HasRun P.wants P.becomes limit) posts.now }
{
    let mut told = Told::new();
    for post in posts {
        told.pass(post);
    }
    told
}

/// One round at each post.
fn serve_each<P: Program, G: Pages, K: Gate>(
    alloc: Global,
    group: &mut Vec<Post<P, G>>,
    gate: &K,
    told: &mut Told,
    stop: Option<&StopFlag>,
    last_tick: u64,
) -> Round
    requires last { last_tick ≤ 2 ^ 40 }
    requires run { All (HasRun P.wants P.becomes last_tick) group.old.items }
    ensures { AllZip (GoesOn P.wants P.becomes last_tick) group.old.items group.new.items }
{
    let mut round = Round::idle();
    for at in 0..group.len() {
        round = round.and(serve_post(alloc, &mut group[at], gate, told, stop, last_tick));
    }
    round
}

/// Serves the nodes of a group until all have ended and no mark of one is left, a fault came to one, or the flag was found set. Where a
/// fault comes the flag is set. Without a flag nothing else ends it; it never sleeps.
pub fn serve_group<P: Program + Send, G: Pages + Send, K: Gate, R: Wait>(
    rt: &R,
    alloc: Global,
    group: Vec<Post<P, G>>,
    gate: &K,
    stop: Option<&StopFlag>,
    last_tick: u64,
) -> Vec<Post<P, G>>
    requires last { last_tick ≤ 2 ^ 40 }
    requires run { All (HasRun P.wants P.becomes last_tick) group.items }
    ensures goes { AllZip (GoesOn P.wants P.becomes last_tick) group.items result.items }
    ensures ends { IsNone stop.entry → IsTrue (any_fault result.items || all_ended result.items) }
{
    let mut group = group;
    let mut told = told_before(group.as_slice());
    let mut looks = Looks::new(stop);
    for _ in rt.forever() {
        let round = serve_each(alloc, &mut group, gate, &mut told, stop, last_tick);
        if has_fault(group.as_slice()) {
            set(stop);
            return group;
        }
        if are_over(group.as_slice()) {
            return group;
        }
        if is_set(stop) {
            return group;
        }
        looks.found(round.moved);
        looks.pause();
    }
    unreachable!()
}
