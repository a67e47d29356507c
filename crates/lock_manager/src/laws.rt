//! Laws of lock tables. Each stands on a function without a body, so that the check proves it.
ghost use Rattle.std.specs.Prelude.{◌≡◌, ◌&&◌, false, [], Some, None, if◌then◌else◌};
ghost use Rattle.uid_names.specs.Names.{ProcName, ObjectName, same_proc, same_uid};
ghost use Rattle.uid_names.specs.declared.lock_row.LockRow.{LockRow};
ghost use Rattle.uid_names.specs.Rows.{same_row};
ghost use Rattle.lock_manager.specs.declared.grants.Grant.{Grant};
ghost use Rattle.lock_manager.specs.Grants.{conflict_of};
ghost use Rattle.lock_manager.specs.Tables.{Table, IsTable, GoTogether, held, held_unless, next_grant, with_grant, without_grant, without_grants_on};

use crate::locks::Locks;
use uid_names::laws::may_cross_threads;

/// Grants stay in order, their numbers apart and their locks without conflict, whatever is granted and
/// ended.
pub fn changes_keep_tables()
    ensures start { IsTable (record { grants = []; last = 0 }) }
    ensures granted { (row : LockRow) (table : Table) → IsTable table →
        conflict_of row.proc row.uid row.mode table.grants ≡ None → IsTable (with_grant row table) }
    ensures released { (p : ProcName) (u : ObjectName) (table : Table) → IsTable table → IsTable (without_grant p u table) }
    ensures dropped { (u : ObjectName) (table : Table) → IsTable table → IsTable (without_grants_on u table) }
{}

/// What a process holds on an object changes only where that is granted or ended.
pub fn changes_leave_the_others()
    ensures granted { (row : LockRow) (table : Table) (p : ProcName) (u : ObjectName) →
        held p u (with_grant row table) ≡ (if same_row p u row then Some (next_grant row table) else held p u table) }
    ensures released { (q : ProcName) (v : ObjectName) (table : Table) (p : ProcName) (u : ObjectName) →
        held p u (without_grant q v table) ≡ held_unless (same_proc p q && same_uid u v) p u table }
    ensures dropped { (v : ObjectName) (table : Table) (p : ProcName) (u : ObjectName) →
        held p u (without_grants_on v table) ≡ held_unless (same_uid u v) p u table }
{}

/// Two processes that hold an object do not conflict.
pub fn holders_do_not_conflict()
    ensures { (table : Table) (p q : ProcName) (u : ObjectName) (a b : Grant) → IsTable table →
        held p u table ≡ Some a → held q u table ≡ Some b → same_proc p q ≡ false →
        GoTogether p a q b }
{}

/// Threads may hand each other lock tables.
pub fn lock_tables_may_cross_threads() {
    may_cross_threads::<Locks>();
}
