//! A run of all nodes, each in a thread of its own.
ghost use Rattle.std.specs.Prelude.{◌≡◌, ◌≤◌, ◌^◌, ◌||◌, ℕ, Option, List, All, IfOk, IsErrOf, IsTrue};
ghost use Rattle.std.specs.List.{AllZip};
ghost use Rattle.dom_history.specs.declared.plan.FateRow.{FateRow};
ghost use Rattle.node_runs.specs.Setups.{Setup};
ghost use Rattle.node_core.specs.declared.fault.RunFault.TheVariants as faults;
ghost use Rattle.node_posts.specs.Posts.{HasRun, GoesOn};
ghost use Rattle.node_posts.specs.Starts.{ArePosts, AreRings};
ghost use Rattle.node_threads.specs.Groups.{any_fault, all_ended, first_fault};
ghost use Rattle.node_threads.specs.Ran.{HaveRun, ReachesTick};
ghost use Rattle.node_threads.specs.Starts.{OfEachStart};

use crate::gate::Gate;
use crate::group::{are_over, has_fault, serve_group};
use crate::joining::beside_all;
use crate::laws::logs_of_threads_are_one_recent_run;
use crate::threads::serve_all;
use dom_history::{NodeLog, Program};
use ended_nodes::take_apart;
use local_runs::joined::{served_posts_are_local_runs, threads_make_a_planned_run};
use local_runs::merged::local_runs_have_a_merge;
use node_core::RunFault;
use node_posts::Post;
use page_store::Pages;
use std::alloc::Global;
use std::sync::Wait;
use std::thread::Threads;
use uid_names::ProcId;

/// The fault of the lowest node to which one came, of posts by number.
fn lowest_fault<P: Program, G: Pages>(posts: &[Post<P, G>]) -> Option<RunFault>
    ensures { result ≡ first_fault posts.now }
{
    for post in posts {
        if let Some(fault) = post.fault {
            return Some(fault);
        }
    }
    None
}

/// Where no fault came and a node has not ended, all are served on as one group, until one of both is so: no answer rests on the flag alone.
fn serve_on<P: Program + Send, G: Pages + Send, K: Gate, R: Wait>(
    rt: &R,
    alloc: Global,
    posts: Vec<Post<P, G>>,
    gate: &K,
    last_tick: u64,
) -> Vec<Post<P, G>>
    requires last { last_tick ≤ 2 ^ 40 }
    requires run { All (HasRun P.wants P.becomes last_tick) posts.items }
    ensures goes { AllZip (GoesOn P.wants P.becomes last_tick) posts.items result.items }
    ensures ends { IsTrue (any_fault result.items || all_ended result.items) }
{
    if has_fault(posts.as_slice()) {
        return posts;
    }
    if are_over(posts.as_slice()) {
        return posts;
    }
    serve_group(rt, alloc, posts, gate, None, last_tick)
}

/// Runs the nodes of these posts, which are all, by number, as they were made: each in a thread of its own, where one can be started, until
/// all have ended. The answer is the journals, and each program as it ended. TickLimit is answered where an event gave that node the tick
/// `last_tick`. Where faults came to several nodes it is that of the lowest one, which no clause says.
pub fn run_all<P: Program + Send, G: Pages + Send, K: Gate, R: Threads + Wait + Sync>(
    rt: &R,
    alloc: Global,
    posts: Vec<Post<P, G>>,
    gate: &K,
    last_tick: u64,
) -> Result<(Vec<NodeLog>, Vec<(ProcId, P)>), RunFault>
    requires greatest { last_tick ≤ 2 ^ 40 }
    requires posts { (made : ℕ → ℕ → Option P) × (s : Setup) × (plan : List FateRow) × ArePosts P.wants P.becomes last_tick made s plan posts.items }
    requires rings { AreRings posts.items }
    ensures run { IfOk result (λ r. OfEachStart P.wants P.becomes last_tick posts.items (λ made s plan. HaveRun P.wants P.becomes made s plan r.0.items r.1.items)) }
    ensures limit { (n : ℕ) → IsErrOf result (faults.TickLimit n) → OfEachStart P.wants P.becomes last_tick posts.items (λ made s plan. ReachesTick s plan last_tick n) }
{
    let served = serve_all(rt, alloc, posts, gate, last_tick)?;
    let served = serve_on(rt, alloc, served, gate, last_tick);
    let fault = lowest_fault(served.as_slice());
    let nodes = beside_all(alloc, served)?;
    // So what was taken from each ring is a first part of what was put, and the journals are those of runs that fit one another.
    served_posts_are_local_runs();
    threads_make_a_planned_run();
    local_runs_have_a_merge();
    logs_of_threads_are_one_recent_run();
    match fault {
        Some(fault) => Err(fault),
        None => Ok(take_apart(alloc, nodes)?),
    }
}
