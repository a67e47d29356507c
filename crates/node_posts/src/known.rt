//! What frames are like, for the check alone: nothing is done.
ghost use Rattle.std.specs.Prelude.{◌<◌, ◌^◌, All, IfSome};
ghost use Rattle.uid_names.specs.Names.{IsName, IsNodeNumber, IsProcName};
ghost use Rattle.ring_messages.specs.Spelled.{IsRow, AreBytes, IsAfter, IsTypedBody, IsFrame};

use node_core::Emitted;
use ring_messages::{Body, Frame};
use uid_names::{LockRow, PAGE_BYTES, ProcId, Uid};

/// A name of an object.
fn uid_known(uid: Uid)
    ensures { IsName uid }
{
    let _number = uid.number();
}

/// A name of a process.
fn proc_known(proc: ProcId)
    ensures { IsProcName proc }
{
    let _node = proc.node();
    let _number = proc.number();
}

/// Rows of locks.
fn rows_known(rows: &[LockRow])
    ensures { All IsRow rows.now }
{
    for row in rows {
        row_known(row);
    }
}

fn row_known(row: &LockRow)
    ensures { IsRow row.now }
{
    uid_known(row.uid);
    proc_known(row.proc);
}

/// The row behind which rows begin.
fn after_known(after: Option<(Uid, ProcId)>)
    ensures { IsAfter after }
{
    if let Some((uid, proc)) = after {
        uid_known(uid);
        proc_known(proc);
    }
}

/// The bytes of a page.
fn page_known(bytes: &[u8; PAGE_BYTES])
    ensures { AreBytes bytes.now }
{
    let _all = bytes.as_slice();
}

/// Two numbers.
fn numbers_known(a: u64, b: u64)
    ensures { (a < 2 ^ 64) × (b < 2 ^ 64) }
{}

/// What is written to an object, and under what.
fn write_known(uid: Uid, grant: u64, base: u64)
    ensures { IsName uid × (grant < 2 ^ 64) × (base < 2 ^ 64) }
{
    uid_known(uid);
}

/// A body.
fn body_known(body: &Body)
    ensures { IsTypedBody body.now }
{
    match *body {
        Body::PageIn { uid, .. } => uid_known(uid),
        Body::PageOut {
            uid,
            grant,
            base,
            ref bytes,
            ..
        } => {
            write_known(uid, grant, base);
            page_known(bytes.bytes());
        }
        Body::AttrOut {
            uid,
            grant,
            base,
            ..
        } => write_known(uid, grant, base),
        Body::Lock { uid, .. } => uid_known(uid),
        Body::Unlock { uid } => uid_known(uid),
        Body::Remove { uid } => uid_known(uid),
        Body::List { after } => after_known(after),
        Body::Page { stamp, ref bytes } => {
            numbers_known(stamp, stamp);
            page_known(bytes.bytes());
        }
        Body::Stored { stamp } => numbers_known(stamp, stamp),
        Body::Stale { stamp } => numbers_known(stamp, stamp),
        Body::Granted { grant, stamp, .. } => numbers_known(grant, stamp),
        Body::Conflict { proc, .. } => proc_known(proc),
        Body::Made { uid } => uid_known(uid),
        Body::Listed { ref rows, .. } => rows_known(rows.items()),
        Body::Make { .. } | Body::NoGrant | Body::NoObject | Body::Done | Body::NoSpace => {}
    }
}

/// A frame has every range that its spelling wants.
fn frame_known(frame: &Frame)
    ensures { IsFrame frame.now }
{
    let _from = frame.from();
    let _to = frame.to();
    let _number = frame.number();
    let _tick = frame.tick();
    body_known(frame.body());
}

/// So has the frame that an event emits, if it emits one.
pub(crate) fn emitted_known(emitted: &Emitted)
    ensures { IfSome emitted.now.frame (λ sent. IsFrame sent.1) }
{
    if let Some((_, frame)) = &emitted.frame {
        frame_known(frame);
    }
}
