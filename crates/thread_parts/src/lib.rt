//! What node threads take and hand back may cross threads. Each law stands on a function whose body names the types, so that the check
//! proves it.
#![tactic(auto)]

use dom_history::{MergedLogs, NodeLog, Program};
use node_core::{Emitted, Incoming, Node};
use page_store::{BlockPages, ListPages, Pages};
use uid_names::laws::may_cross_threads;

/// A node may, where its programs and its pages may.
pub fn nodes_may_cross_threads<P: Program + Send, G: Pages + Send>() {
    may_cross_threads::<Node<P, G>>();
}

/// So may what an event receives and what it emits, and logs, merged or not.
pub fn events_may_cross_threads() {
    may_cross_threads::<Incoming>();
    may_cross_threads::<Emitted>();
    may_cross_threads::<NodeLog>();
    may_cross_threads::<MergedLogs>();
}

/// So may pages, of either kind.
pub fn pages_may_cross_threads() {
    may_cross_threads::<BlockPages>();
    may_cross_threads::<ListPages>();
}
