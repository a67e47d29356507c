//! Laws of contents. Each stands on a function without a body, so that the check proves it.
ghost use Rattle.std.specs.Prelude.{◌≡◌, ℕ, ◌≤◌};
ghost use Rattle.node_runs.specs.NodesKeep.{AtEveryEvent, InEveryRun};
ghost use Rattle.run_laws.specs.DeskContents.{AreContents};
ghost use Rattle.uid_names.specs.Names.{ObjectName};
ghost use Rattle.run_laws.specs.Items.{Item};
ghost use Rattle.run_laws.specs.Contents.{content};
ghost use Rattle.run_laws.specs.Stamps.{stamp_at, IsThere, AreStamped};
ghost use Rattle.run_laws.specs.ObjectMoves.{ObjectMove};
ghost use Rattle.run_laws.specs.Stores.{AreStores, AreReadsRight};

/// In every run in which no tick is above 2^40: a home has what its object holds at its stamp; what a home told of an object at a stamp
/// is what that held there; and no stamp that was told, was seen, or is the base of a write is above the object's, as long as it is there.
pub fn stamps_are_in_order()
    ensures { InEveryRun AreStamped }
{}

/// At each event of such a run an object stays as it is, with its stamp, as long as it is there; or its home takes one write of it that is
/// based on its stamp: one item has the new value then, and the stamp is one more; or it is made, with the stamp 1 and nothing in it.
pub fn an_object_changes_by_a_write_that_is_taken()
    ensures objects { AtEveryEvent (λ old new. (u : ObjectName) → ObjectMove old new u) }

    // So what an object held up to its stamp stays.
    ensures contents { AtEveryEvent (λ old new. (u : ObjectName) → IsThere old u → (t : ℕ) → t ≤ stamp_at old u → (x : Item) → content new.trace u t x ≡ content old.trace u t x) }
{}

/// In every run in which no tick is above 2^40, of each object that is there: what a home took of an open write stays; a late write of
/// what is clean at its node changes nothing; what is clean at a node that has a lock did not change since that was given, or since the
/// stamp that it has seen; and what is clean at a node is what the object held at the stamp that it has seen.
pub fn what_is_clean_is_as_it_was_seen()
    ensures { InEveryRun AreContents }
{}

/// In every run in which no tick is above 2^40: what is dirty at a node is what one store has, and what is dirty nowhere the home has so.
pub fn the_last_store_is_at_the_writing_node_or_at_home()
    ensures { InEveryRun AreStores }
{}

/// So what a process that keeps an object reads at its node is what one store has.
pub fn what_is_read_is_the_last_store()
    ensures { InEveryRun AreReadsRight }
{}
