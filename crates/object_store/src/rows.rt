//! The rows of a home: how they begin, and how one is found.
ghost use Rattle.std.specs.Prelude.{◌≡◌, ◌^◌, ◌<◌, None, IfOk, MatchOption};
ghost use Rattle.object_store.specs.Objects.{attr_at, rooms};
ghost use Rattle.object_store.specs.Kept.{AreCountersRising};
ghost use Rattle.uid_names.specs.Beginnings.{at_home};
ghost use Rattle.object_store.specs.Beginnings.{opened, first_rows};
ghost use Rattle.object_store.specs.Places.{IsRowAt};

use crate::attributes::{Attr, ObjectRow};
use std::alloc::Global;
use uid_names::{NoMemory, NodeId, Object};

/// The row of an object that is there from the start.
fn opened(object: &Object) -> ObjectRow
    ensures { result ≡ opened object.now }
{
    ObjectRow {
        counter: object.uid.counter(),
        attr: Attr::fresh(object.kind, object.room),
    }
}

/// The rows at the start: the entry directory, and the opening's objects at the node.
pub(crate) fn first_rows(
    alloc: Global,
    node: NodeId,
    objects: &[Object],
) -> Result<Vec<ObjectRow>, NoMemory>
    ensures { IfOk result (λ rows. rows.items ≡ first_rows node (at_home node objects.now)) }
{
    let mut rows = Vec::new(alloc);
    rows.push(opened(&Object::entry_directory(node)))?;
    for object in objects {
        if object.uid.home() == node {
            rows.push(opened(object))?;
        }
    }
    Ok(rows)
}

/// Where the row with this counter stands.
pub(crate) fn position(rows: &[ObjectRow], counter: u64) -> Option<usize>
    requires { AreCountersRising 0 rows.now }
    ensures { MatchOption result (attr_at rows.now counter ≡ None) (IsRowAt rows.now counter) }
{
    rows.binary_search_by_key(&counter, |row| row.counter).ok()
}

/// The sum of the rooms, in pages.
pub(crate) fn sum_of_rooms(rows: &[ObjectRow]) -> u32
    requires { rooms rows.now < 2 ^ 32 }
    ensures { result ≡ rooms rows.now }
{
    rows.iter().map(|row| row.attr.room).sum()
}
