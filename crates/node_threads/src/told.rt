//! Which commands a gate was told of.
ghost use Rattle.std.specs.Prelude.{ℕ};
ghost use Rattle.node_posts.specs.Posts.{HasRun};

use crate::gate::Gate;
use dom_history::Program;
use node_posts::Post;
use page_store::Pages;
use uid_names::{NODE_PROCESSES, PROCESSES, ProcId};

/// How many commands of each process, by its place among all, a gate was told of.
#[derive(Drop)]
pub(crate) struct Told {
    counts: [u32; PROCESSES],
}

impl Told {
    /// Of none.
    pub(crate) fn new() -> Told {
        Told {
            counts: [0; PROCESSES],
        }
    }

    /// What is known of a post that goes on: its gate was told of all, unless its node did nothing yet.
    pub(crate) fn pass<P: Program, G: Pages>(&mut self, post: &Post<P, G>)
        requires run { (limit : ℕ) × HasRun P.wants P.becomes limit post.now }
    {
        if post.node.tick() == 0 {
            return;
        }
        for i in 0..NODE_PROCESSES as u8 {
            if let (Some(proc), Some(answered)) = named(post, i + 1) {
                self.counts[proc.place()] = answered;
            }
        }
    }

    /// Tells a gate of the commands of a post that have their answer, each once.
    pub(crate) fn tell<P: Program, G: Pages, K: Gate>(&mut self, post: &Post<P, G>, gate: &K)
        requires run { (limit : ℕ) × HasRun P.wants P.becomes limit post.now }
    {
        for i in 0..NODE_PROCESSES as u8 {
            if let (Some(proc), Some(answered)) = named(post, i + 1) {
                self.tell_of(proc, answered, gate);
            }
        }
    }

    /// Tells it of the commands of a process, so many of which have their answer.
    fn tell_of<K: Gate>(&mut self, proc: ProcId, answered: u32, gate: &K) {
        for command in self.counts[proc.place()]..answered {
            gate.done(proc, command + 1);
        }
        self.counts[proc.place()] = answered;
    }
}

/// A process of a post, and how many of its commands have their answer.
fn named<P: Program, G: Pages>(post: &Post<P, G>, proc: u8) -> (Option<ProcId>, Option<u32>)
    requires run { (limit : ℕ) × HasRun P.wants P.becomes limit post.now }
{
    (ProcId::new(post.number(), proc), post.answered(proc))
}
