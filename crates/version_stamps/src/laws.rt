//! Laws of seen stamps. Each stands on a function without a body, so that the check proves it.
ghost use Rattle.std.specs.Prelude.{◌≡◌, [], List, Some, None, if◌then◌else◌};
ghost use Rattle.uid_names.specs.Names.{ObjectName, same_uid};
ghost use Rattle.version_stamps.specs.declared.stamps.Stamp.{Stamp};
ghost use Rattle.version_stamps.specs.Stamps.{AreRising, stamp_of, with_stamp, without_stamp};

/// Stamps stay in order, each object's once, whatever is set and forgotten.
pub fn changes_keep_the_order()
    ensures start { AreRising [] }
    ensures set { (row : Stamp) (rows : List Stamp) → AreRising rows → AreRising (with_stamp row rows) }
    ensures forgotten { (u : ObjectName) (rows : List Stamp) → AreRising rows → AreRising (without_stamp u rows) }
{}

/// The stamp of an object changes only where that object's is set or forgotten.
pub fn changes_leave_the_others()
    ensures set { (row : Stamp) (rows : List Stamp) (u : ObjectName) →
        stamp_of u (with_stamp row rows) ≡ (if same_uid u row.uid then Some row.stamp else stamp_of u rows) }
    ensures forgotten { (v : ObjectName) (rows : List Stamp) (u : ObjectName) →
        stamp_of u (without_stamp v rows) ≡ (if same_uid u v then None else stamp_of u rows) }
{}
