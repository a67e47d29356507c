//! The law of the page that a node drops. Its body names the laws below that its proof stands on.
ghost use Rattle.std.specs.Prelude.{ℕ, Option, []};
ghost use Rattle.node_runs.specs.Setups.{Given, IsGiven};
ghost use Rattle.node_runs.specs.NodeStates.{first_node};
ghost use Rattle.node_core.specs.Nodes.{Noted, Stands};
ghost use Rattle.recent_nodes.specs.NodesByUse.{StandsByUse, StepsByUse};

use dom_history::Program;
use node_runs::laws::{an_enabled_event_happens, each_reached_node_agrees_with_its_desk};
use recent_runs::laws::a_step_is_recent_where_its_cache_names_the_page;

/// The resident pages of a node as it was made stand by their last uses: there are none. Where they do so, and the node does an event that is
/// enabled, as `step` of node_core does it, then a page that it drops for another is the one that was used longest ago of all pages that
/// are clean, resident and moved by no process behind the event; and they stand by their last uses again.
pub fn a_node_drops_the_page_used_longest_ago<P: Program>()
    ensures begins { (made : ℕ → Option P) (g : Given) (x : Noted P) → IsGiven g → Stands P.wants P.becomes made g x (first_node g) →
        StandsByUse P.wants P.becomes made g x (first_node g) [] }
    ensures steps { (made : ℕ → Option P) (g : Given) → StepsByUse P.wants P.becomes made g }
{
    an_enabled_event_happens();
    each_reached_node_agrees_with_its_desk();
    a_step_is_recent_where_its_cache_names_the_page();
}
