//! Grants in order, and where one stands among them.
ghost use Rattle.std.specs.Prelude.{◌≡◌, ◌<◌, ◌≤◌, filter, is_ok, is_some, length, vec_len, vec_capacity, MatchResult, OnOk, OnErr};
ghost use Rattle.std.specs.List.{list_any};
ghost use Rattle.uid_names.specs.Rows.{rows_after};
ghost use Rattle.lock_manager.specs.Grants.{AreGrantsRising, rows_of, is_on, grant_of, place_of, conflict_of, writes_under, grants_with, grants_without};

use uid_names::{LockRow, Mode, NoMemory, NodeId, ProcId, Uid};

/// A lock that was granted, and the number of the grant.
#[derive(Clone, Copy, Debug, PartialEq, Eq)]
pub struct Grant {
    pub row: LockRow,
    pub number: u64,
}

/// Where the grant of a process on an object stands; Err where it would.
pub(crate) fn search(grants: &[Grant], proc: ProcId, uid: Uid) -> Result<usize, usize>
    requires { AreGrantsRising grants.now }
    ensures place { MatchResult result
        (λ at. at ≡ place_of proc uid grants.now)
        (λ at. at ≡ place_of proc uid grants.now) }
    ensures bound { MatchResult result (λ at. at < length grants.now) (λ at. at ≤ length grants.now) }
    ensures found { is_ok result ≡ is_some (grant_of proc uid grants.now) }
{
    grants.binary_search_by_key(&(uid, proc), |grant| (grant.row.uid, grant.row.proc))
}

/// The grants on an object.
pub(crate) fn on_object(grants: &[Grant], uid: Uid) -> &[Grant]
    requires { AreGrantsRising grants.now }
    ensures { result.now ≡ filter (is_on uid) grants.now }
{
    let first = grants.partition_point(|grant| grant.row.uid.is_below(uid));
    let others = &grants[first..];
    let count = others.partition_point(|grant| !uid.is_below(grant.row.uid));
    &others[..count]
}

/// The first other process that holds the object in conflict with a mode, and its mode.
pub(crate) fn conflict(
    grants: &[Grant],
    proc: ProcId,
    uid: Uid,
    mode: Mode,
) -> Option<(ProcId, Mode)>
    requires { AreGrantsRising grants.now }
    ensures { result ≡ conflict_of proc uid mode grants.now }
{
    for grant in on_object(grants, uid) {
        let row = &grant.row;
        if row.conflicts(proc, mode) {
            return Some((row.proc, row.mode));
        }
    }
    None
}

/// Whether a process of a node holds one of these grants, of this number, in a mode that writes.
pub(crate) fn any_writes(grants: &[Grant], number: u64, node: NodeId) -> bool
    ensures { result ≡ list_any (writes_under number node) grants.now }
{
    grants.iter().any(|grant| {
        let row = &grant.row;
        grant.number == number && row.proc.node() == node && row.mode.writes()
    })
}

/// Puts a grant where it belongs, in place of that of its process on its object.
pub(crate) fn put(grants: &mut Vec<Grant>, grant: Grant) -> Result<(), NoMemory>
    requires { AreGrantsRising grants.old.items }
    ensures ok { OnOk result (grants.new.items
        ≡ grants_with grant (grants_without grant.row.proc grant.row.uid grants.old.items)) }
    ensures err { OnErr result (grants.new.items ≡ grants.old.items) }
    ensures full { OnErr result (vec_capacity grants.old ≤ vec_len grants.old) }
    ensures capacity { vec_capacity grants.old ≤ vec_capacity grants.new }
{
    let row = &grant.row;
    match search(grants, row.proc, row.uid) {
        Ok(at) => grants[at] = grant,
        Err(at) => grants.insert(at, grant)?,
    }
    Ok(())
}

/// The grants whose rows stand behind a row, or all of them.
pub(crate) fn behind(grants: &[Grant], after: Option<(Uid, ProcId)>) -> &[Grant]
    requires { AreGrantsRising grants.now }
    ensures { rows_of result.now ≡ rows_after after (rows_of grants.now) }
{
    match after {
        None => grants,
        Some((uid, proc)) => {
            let first = grants.partition_point(|grant| !grant.row.is_after(uid, proc));
            &grants[first..]
        }
    }
}
