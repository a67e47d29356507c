//! The names of a script's nodes.
ghost use Rattle.std.specs.Prelude.{◌≡◌, map, IfOk};
ghost use Rattle.dom_history.specs.NodeTexts.{AreNodeNames};

use dom_history::NodeNames;
use script_reader::NodeRow;
use std::alloc::Global;
use uid_names::NoMemory;

/// The names of nodes.
pub fn names_of(alloc: Global, rows: &[NodeRow]) -> Result<NodeNames, NoMemory>
    requires { AreNodeNames (map (λ n. n.name) rows.now) }
    ensures { IfOk result (λ names. names ≡ map (λ n. n.name) rows.now) }
{
    let mut names = Vec::new(alloc);
    for row in rows {
        names.push(row.name.copy(alloc)?)?;
    }
    NodeNames::from_list(alloc, names.as_slice())
}
