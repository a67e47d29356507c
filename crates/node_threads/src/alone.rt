//! A node in a thread of its own.
ghost use Rattle.std.specs.Prelude.{ℕ, ◌≤◌, ◌^◌};
ghost use Rattle.node_posts.specs.Posts.{HasRun, GoesOn};

use crate::flag::StopFlag;
use crate::gate::Gate;
use crate::looks::Looks;
use crate::serving::serve_post;
use crate::told::Told;
use dom_history::Program;
use node_posts::Post;
use page_store::Pages;
use std::alloc::Global;
use std::sync::Wait;
use std::sync::atomic::{AtomicBool, Ordering};

/// Whether nothing waits to be pushed.
fn is_flushed<P: Program, G: Pages>(post: &Post<P, G>) -> bool {
    for out in &post.outs {
        if out.waiting() > 0 {
            return false;
        }
    }
    true
}

/// Looks at the rings alone until something waits there, the flag was set, or the thread looked in vain so often that it may sleep. Nothing
/// else can come to a node where all that was there is served and pushed.
fn look_out<P: Program, G: Pages>(post: &mut Post<P, G>, looks: &mut Looks, stop: &StopFlag)
    ensures { (limit : ℕ) → limit ≤ 2 ^ 40 → GoesOn P.wants P.becomes limit post.old post.new }
{
    for _ in 0..looks.left() {
        if stop.is_set() {
            return;
        }
        if post.has_incoming() {
            return;
        }
        looks.found(false);
        looks.pause();
    }
}

/// Lets a moment pass behind a round in which nothing came; where nothing is ready either, until something comes.
fn rest<P: Program, G: Pages>(
    post: &mut Post<P, G>,
    looks: &mut Looks,
    stop: &StopFlag,
    is_quiet: bool,
)
    ensures { (limit : ℕ) → limit ≤ 2 ^ 40 → GoesOn P.wants P.becomes limit post.old post.new }
{
    looks.pause();
    if is_quiet {
        look_out(post, looks, stop);
    }
}

/// Serves a node until it has ended and no mark of it is left, a fault came, or the flag was found set. Where a fault comes the flag is
/// set. The thread sleeps only where it has looked often enough, nothing is ready or waits to be pushed, and the gate put nothing off.
pub(crate) fn serve_alone<P: Program, G: Pages, K: Gate, R: Wait>(
    rt: &R,
    alloc: Global,
    post: Post<P, G>,
    gate: &K,
    stop: &StopFlag,
    last_tick: u64,
) -> Post<P, G>
    requires last { last_tick ≤ 2 ^ 40 }
    requires run { HasRun P.wants P.becomes last_tick post }
    ensures { GoesOn P.wants P.becomes last_tick post result }
{
    let mut post = post;
    let mut told = Told::new();
    told.pass(&post);
    let mut looks = Looks::new(Some(stop));
    for _ in rt.forever() {
        let round = serve_post(alloc, &mut post, gate, &mut told, Some(stop), last_tick);
        if post.has_fault() {
            stop.set();
            return post;
        }
        if post.is_over() || stop.is_set() {
            return post;
        }
        looks.found(round.moved);
        let is_quiet = !round.moved && !round.put_off && is_flushed(&post);
        if is_quiet && looks.are_enough() {
            stop.park(rt, post.number());
        } else {
            rest(&mut post, &mut looks, stop, is_quiet);
        }
    }
    unreachable!()
}

/// Serves it, unless the post is to be handed back as it is.
pub(crate) fn serve_unless<P: Program, G: Pages, K: Gate, R: Wait>(
    rt: &R,
    alloc: Global,
    post: Post<P, G>,
    gate: &K,
    stop: &StopFlag,
    back: &AtomicBool,
    last_tick: u64,
) -> Post<P, G>
    requires last { last_tick ≤ 2 ^ 40 }
    requires run { HasRun P.wants P.becomes last_tick post }
    ensures { GoesOn P.wants P.becomes last_tick post result }
{
    if back.load(Ordering::SeqCst) {
        post
    } else {
        serve_alone(rt, alloc, post, gate, stop, last_tick)
    }
}
