//! Laws of names. Each stands on a function without a body, so that the check proves it.
ghost use Rattle.std.specs.Prelude.{◌≡◌, ◌≢◌, ℕ, ◌<◌, ◌^◌, true, false, if◌then◌else◌, Some, None, IsTrue, List, [], nat_lt};
ghost use Rattle.uid_names.specs.Modes.{mode_writes, mode_removes, mode_shared, modes_clash, mode_letter, mode_code, mode_of_letter, mode_of_code, object_code, object_of_code};
ghost use Rattle.uid_names.specs.Tables.{AreRising, row_of, with_row, without_row};
ghost use Rattle.uid_names.specs.declared.mode.Mode.{Mode};
ghost use Rattle.uid_names.specs.declared.mode.ObjKind.{ObjKind};
ghost use Rattle.uid_names.specs.Names.{ProcName, ObjectName, IsName, number_of, same_uid, uid_lt, Given};
ghost use Rattle.uid_names.specs.Rows.{row_lt, same_row};
ghost use Rattle.uid_names.specs.Segments.{Stretch, is_free_run, lowest_run};
ghost use Rattle.uid_names.specs.Texts.{text_of};
ghost use Rattle.uid_names.specs.declared.lock_row.LockRow.{LockRow};
ghost use Rattle.uid_names.specs.declared.segment.TheConstants.{SEGMENTS};

use crate::table::UidRow;

/// The text, the number and the value of a name are one to one, and names are in the order of their numbers.
pub fn names_are_one_to_one()
    ensures number { (u v : ObjectName) → IsName u → IsName v → number_of u ≡ number_of v → u ≡ v }
    ensures text { (u v : ObjectName) → IsName u → IsName v → text_of u ≡ text_of v → u ≡ v }
    ensures same { (u v : ObjectName) → IsTrue (same_uid u v) → u ≡ v }
    ensures order { (u v : ObjectName) → IsName u → IsName v → uid_lt u v ≡ nat_lt (number_of u) (number_of v) }
{}

/// A mode that removes writes and is not shared, one that is shared writes, and a conflict is one from both sides.
/// Where a mode that writes goes with another, both are shared, and of processes of one node.
pub fn modes_agree()
    ensures removes { (m : Mode) → mode_removes m ≡ true → mode_writes m ≡ true }
    ensures alone { (m : Mode) → mode_removes m ≡ true → mode_shared m ≡ false }
    ensures shared { (m : Mode) → mode_shared m ≡ true → mode_writes m ≡ true }
    ensures together { (p : ProcName) (m : Mode) (q : ProcName) (n : Mode) → mode_writes n ≡ true → modes_clash p m q n ≡ false →
        (mode_shared m ≡ true) × ((mode_shared n ≡ true) × (p.node ≡ q.node)) }
    ensures clash { (p : ProcName) (m : Mode) (q : ProcName) (n : Mode) → modes_clash p m q n ≡ modes_clash q n p m }
{}

/// A mode is known by its letter and by its number, and a kind of objects by its number; nothing else is read as one.
pub fn modes_are_read_as_they_are_written()
    ensures letter { (m : Mode) → mode_of_letter (mode_letter m) ≡ Some m }
    ensures letters { (n : ℕ) (m : Mode) → mode_of_letter n ≡ Some m → mode_letter m ≡ n }
    ensures code { (m : Mode) → mode_of_code (mode_code m) ≡ Some m }
    ensures codes { (n : ℕ) (m : Mode) → mode_of_code n ≡ Some m → mode_code m ≡ n }
    ensures object { (k : ObjKind) → object_of_code (object_code k) ≡ Some k }
    ensures objects { (n : ℕ) (k : ObjKind) → object_of_code n ≡ Some k → object_code k ≡ n }
{}

/// A table keeps its rows in order, one for each object, and a change leaves the rows of the other objects.
pub fn tables_keep_one_row_of_each_object<R: UidRow>()
    ensures start { AreRising R.name [] }
    ensures set { (row : R) (rows : List R) → AreRising R.name rows → AreRising R.name (with_row R.name row rows) }
    ensures forgotten { (u : ObjectName) (rows : List R) → AreRising R.name rows → AreRising R.name (without_row R.name u rows) }
    ensures row_set { (row : R) (rows : List R) (u : ObjectName) →
        row_of R.name u (with_row R.name row rows) ≡ (if same_uid u (R.name row) then Some row else row_of R.name u rows) }
    ensures row_forgotten { (v : ObjectName) (rows : List R) (u : ObjectName) →
        row_of R.name u (without_row R.name v rows) ≡ (if same_uid u v then None else row_of R.name u rows) }
    ensures named { (u : ObjectName) (rows : List R) (row : R) → row_of R.name u rows ≡ Some row → R.name row ≡ u }
{}

/// Rows of locks are in one order: by rising object, and then by rising process.
pub fn rows_are_in_one_order()
    ensures onward { (a b c : LockRow) → row_lt a b ≡ true → row_lt b c ≡ true → row_lt a c ≡ true }
    ensures apart { (a b : LockRow) → row_lt a b ≡ true → same_row a.proc a.uid b ≡ false }
    ensures total { (a b : LockRow) → row_lt b a ≡ false → same_row a.proc a.uid b ≡ false → row_lt a b ≡ true }
{}

/// The lowest run is free and no lower one is; where there is none, none is free.
pub fn the_lowest_run_is_the_lowest()
    ensures free { (count first : ℕ) (taken : List Stretch) →
        lowest_run count taken ≡ Some first → is_free_run count first taken ≡ true }
    ensures lowest { (count first : ℕ) (taken : List Stretch) → lowest_run count taken ≡ Some first →
        (lower : ℕ) → lower < first → is_free_run count lower taken ≡ false }
    ensures none { (count : ℕ) (taken : List Stretch) → lowest_run count taken ≡ None →
        (first : ℕ) → first < SEGMENTS → is_free_run count first taken ≡ false }
{}

/// Threads may hand each other values of this type.
pub fn may_cross_threads<T: Send>() {}
