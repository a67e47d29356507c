//! Posts, each served in a thread of its own.
ghost use Rattle.std.specs.Prelude.{◌≡◌, ◌≤◌, ◌^◌, List, All, IfOk};
ghost use Rattle.std.specs.List.{AllZip};
ghost use Rattle.std.specs.Thread.{IsSend, IsSync};
ghost use Rattle.node_posts.specs.declared.post.Post.{Post as PostOf};
ghost use Rattle.node_posts.specs.Posts.{HasRun, GoesOn};
ghost use Rattle.node_threads.specs.Slots.{AreSlots, GoOnTo, IsChild};

use crate::alone::serve_unless;
use crate::flag::{StopFlag, place_of};
use crate::gate::Gate;
use crate::group::serve_group;
use dom_history::Program;
use node_posts::Post;
use page_store::Pages;
use std::alloc::Global;
use std::collections::VecDeque;
use std::snapshot::Snapshot;
use std::sync::Wait;
use std::sync::atomic::{AtomicBool, Ordering};
use std::thread;
use std::thread::{Promise, PromisedHandle, Threads};
use uid_names::{MAX_NODES, NoMemory};

/// What a thread promises of the post that it serves.
#[derive(Drop)]
pub struct Serves<P: Program, G: Pages>(Snapshot<Post<P, G>>, u64);

impl<P: Program, G: Pages> Promise<Post<P, G>> for Serves<P, G> {
    ghost kept_by = { λ p r. GoesOn P.wants P.becomes p.1 p.0.value r };
}

/// A thread that serves a post.
type Child<P, G> = PromisedHandle<Post<P, G>, Serves<P, G>>;

/// For each node whether its start was refused, so that its post is handed back as it is.
type Backs = [AtomicBool; MAX_NODES as usize];

fn no() -> AtomicBool {
    AtomicBool::new(false)
}

/// The posts in their order: those of the threads, which are joined, and those that were served here, whose place is empty.
fn join_all<P: Program, G: Pages, R: Threads>(
    rt: &R,
    alloc: Global,
    slots: VecDeque<Option<Child<P, G>>>,
    here: VecDeque<Post<P, G>>,
    last_tick: u64,
) -> Result<Vec<Post<P, G>>, NoMemory>
    requires slots { (posts : List (PostOf P G)) × AreSlots (IsChild last_tick) (GoesOn P.wants P.becomes last_tick) slots.items here.items posts }
    ensures { IfOk result (λ served. GoOnTo (IsChild last_tick) (GoesOn P.wants P.becomes last_tick) slots.items here.items served.items) }
{
    let mut left = slots;
    let mut kept = here;
    let mut served = Vec::with_capacity(alloc, left.len())?;
    loop {
        let Some(slot) = left.pop_front() else {
            return Ok(served);
        };
        match slot {
            Some(child) => served.push(child.join(rt))?,
            None => match kept.pop_front() {
                Some(post) => served.push(post)?,
                None => unreachable!(),
            },
        }
    }
}

/// Serves each post in a thread of its own until all have ended, a fault came to one, or its start was refused: these are served here, as
/// one group.
pub(crate) fn serve_all<P: Program + Send, G: Pages + Send, K: Gate, R: Threads + Wait + Sync>(
    rt: &R,
    alloc: Global,
    posts: Vec<Post<P, G>>,
    gate: &K,
    last_tick: u64,
) -> Result<Vec<Post<P, G>>, NoMemory>
    requires last { last_tick ≤ 2 ^ 40 }
    requires run { All (HasRun P.wants P.becomes last_tick) posts.items }
    ensures { IfOk result (λ served. AllZip (GoesOn P.wants P.becomes last_tick) posts.items served.items) }
{
    let flag = StopFlag::for_nodes(rt, posts.len());
    let stop = &flag;
    let flags: Backs = [no(), no(), no(), no(), no(), no(), no(), no()];
    let backs = &flags;
    thread::scope(
        thread::scope_env(),
        rt,
        move |scope| -> Result<Vec<Post<P, G>>, NoMemory>
            requires crosses { IsSend P.row × IsSend G.row × IsSync K.row × IsSync R.row }
            requires last { last_tick ≤ 2 ^ 40 }
            requires run { All (HasRun P.wants P.becomes last_tick) posts.items }
            ensures { IfOk result (λ served. AllZip (GoesOn P.wants P.becomes last_tick) posts.items served.items) }
        {
            // All memory is taken before the first thread starts: what is pushed behind has room.
            let mut slots = VecDeque::with_capacity(alloc, posts.len())?;
            let mut refused = Vec::with_capacity(alloc, posts.len())?;
            for post in posts {
                let back = &backs[place_of(post.number())];
                let promise = Serves(Snapshot::of(&post), last_tick);
                let start = scope.spawn_with(
                    promise,
                    move || -> Post<P, G>
                        requires { (last_tick ≤ 2 ^ 40) × HasRun P.wants P.becomes last_tick post }
                        ensures { GoesOn P.wants P.becomes last_tick post result }
                    { serve_unless(rt, alloc, post, gate, stop, back, last_tick) },
                );
                match start {
                    Ok(child) => slots.push_back(Some(child))?,
                    Err(handed) => {
                        back.store(true, Ordering::SeqCst);
                        refused.push((handed.value)())?;
                        slots.push_back(None)?;
                    }
                }
            }
            let here = serve_group(rt, alloc, refused, gate, Some(stop), last_tick);
            join_all(rt, alloc, slots, VecDeque::from_vec(here), last_tick)
        },
    )
}
