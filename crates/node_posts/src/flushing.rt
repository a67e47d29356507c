//! What waits in the outboxes is pushed.
ghost use Rattle.std.specs.Prelude.{◌≡◌, ◌≢◌, ◌≤◌, ◌^◌, ℕ, [], None};
ghost use Rattle.std.specs.List.{AllZip};
ghost use Rattle.node_posts.specs.Posts.{GoesOn};
ghost use Rattle.node_posts.specs.Sending.{IsFlushed};

use crate::post::Post;
use dom_history::Program;
use page_store::Pages;
use wire_links::WireOut;

/// What waits for the other node at a place is pushed, while its ring takes; true where something was.
fn flush_at(outs: &mut Vec<WireOut>, at: usize) -> bool
    ensures { AllZip IsFlushed outs.old.items outs.new.items }
{
    if at >= outs.len() {
        return false;
    }
    let before = outs[at].waiting();
    if before == 0 {
        return false;
    }
    outs[at].flush();
    outs[at].waiting() < before
}

impl<P: Program, G: Pages> Post<P, G> {
    /// Pushes what waits for the other node of the link at a place, while its ring takes; true where something was pushed, so that this node
    /// is to be woken. Where a fault came nothing is pushed. Takes no memory.
    pub fn flush(&mut self, at: usize) -> bool
        ensures goes { (limit : ℕ) → limit ≤ 2 ^ 40 → GoesOn P.wants P.becomes limit self.old self.new }
        ensures fault { self.old.fault ≢ None → self.new ≡ self.old }
    {
        if self.has_fault() {
            return false;
        }
        flush_at(&mut self.outs, at)
    }
}
