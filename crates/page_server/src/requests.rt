//! What a home decides on each kind of request.
ghost use Rattle.std.specs.Prelude.{◌≡◌, ◌-◌, ◌^◌, ◌<◌, ◌≤◌, ◌&&◌, nat_le, length, IfSome, IfOk, OnOk, OnErr, IsErr, IsTrue, unwrap_or, option_copied};
ghost use Rattle.std.specs.Option.{ForSome};
ghost use Rattle.uid_names.specs.Names.{ProcName};
ghost use Rattle.page_store.specs.Volumes.{zeros};
ghost use Rattle.uid_names.specs.declared.mode.Mode.{Mode};
ghost use Rattle.object_store.specs.HomeStates.{attr_of};
ghost use Rattle.object_store.specs.Rules.{has_page, has_length};
ghost use Rattle.lock_manager.specs.Grants.{grant_of};
ghost use Rattle.ring_messages.specs.Bodies.{Answer, ask_of, is_request};
ghost use Rattle.lock_manager.specs.Tables.{IsTable};
ghost use Rattle.ring_messages.specs.Ranges.{IsBody, IsWhole};
ghost use Rattle.lock_manager.specs.declared.locks.TheConstants.{ROOM};
ghost use Rattle.page_server.specs.ServerStates.{AreStampedTo};
ghost use Rattle.page_server.specs.Wants.{is_page, is_stored, is_grant, is_made, decision_wants};
ghost use Rattle.page_server.specs.Decisions.{is_write, decide, page_in, is_granted, page_out, attr_out, lock, unlock, may_remove, remove, make, list_rows};

use crate::answers::HomeAnswer;
use lock_manager::{AskRefusal, Locks};
use object_store::{Home, MakeFault, NoObject, WriteRefusal};
use page_store::Pages;
use ring_messages::{Body, PageBytes};
use std::alloc::Global;
use uid_names::{MAX_ROOM, Mode, NoMemory, ObjKind, PAGE_BYTES, ProcId, Uid};

/// A copy of a page.
fn copy(alloc: Global, bytes: &[u8; PAGE_BYTES]) -> Result<PageBytes, NoMemory>
    ensures bytes { IfOk result (λ page. page ≡ bytes.now) }
    ensures whole { IfOk result IsWhole }
{
    PageBytes::new(alloc, bytes)
}

/// A page as an answer carries it; one of zeros takes no memory.
#[tactic(auto, unfolding(ring_messages::specs::BlankPages::blank_page, page_store::specs::Volumes::zeros))]
fn carried(alloc: Global, found: Option<&[u8; PAGE_BYTES]>) -> Result<PageBytes, NoMemory>
    ensures bytes { IfOk result (λ page. page ≡ unwrap_or (option_copied found.entry) zeros) }
    ensures whole { IfOk result IsWhole }
{
    match found {
        Some(bytes) => copy(alloc, bytes),
        None => Ok(PageBytes::blank()),
    }
}

/// A page, where it is there.
pub(crate) fn page_in<P: Pages>(
    alloc: Global,
    home: &Home<P>,
    uid: Uid,
    page: u32,
) -> Result<HomeAnswer, NoMemory>
    ensures answer { IfOk result (λ answer. answer ≡ page_in home.now uid page) }
    ensures memory { OnErr result (IsTrue (is_page (page_in home.now uid page))) }
{
    if !has_page(home, uid, page) {
        return Ok(HomeAnswer::new(Body::NoObject));
    }
    match home.page(uid, page) {
        Ok((stamp, found)) => {
            let bytes = carried(alloc, found)?;
            Ok(HomeAnswer::new(Body::Page { stamp, bytes }))
        }
        // The page is there.
        Err(NoObject) => unreachable!(),
    }
}

/// Whether the object is there, and the page is below its room.
fn has_page<P: Pages>(home: &Home<P>, uid: Uid, page: u32) -> bool
    ensures { result ≡ has_page (attr_of home.now uid) page }
{
    match home.look(uid) {
        Ok(attr) => page < attr.room,
        Err(NoObject) => false,
    }
}

/// Whether the object is there, and its room is enough for this length in bytes.
fn has_length<P: Pages>(home: &Home<P>, uid: Uid, length: u32) -> bool
    ensures { result ≡ has_length (attr_of home.now uid) length }
{
    match home.look(uid) {
        Ok(attr) => u64::from(length) <= PAGE_BYTES as u64 * u64::from(attr.room),
        Err(NoObject) => false,
    }
}

/// Whether the node of a process holds the object in a mode that writes, under the grant of this number.
fn is_granted(locks: &Locks, grant: u64, uid: Uid, proc: ProcId) -> bool
    ensures { result ≡ is_granted locks.now grant uid proc.node }
{
    locks.writes(grant, uid, proc.node())
}

/// Writes a page, where it is there, the sender holds the grant and the base is the stamp.
pub(crate) fn page_out<P: Pages>(
    home: &mut Home<P>,
    granted: bool,
    uid: Uid,
    page: u32,
    base: u64,
    bytes: &[u8; PAGE_BYTES],
) -> Result<HomeAnswer, NoMemory>
    requires { ForSome (attr_of home.old uid) (λ attr. attr.stamp < 2 ^ 64 - 1) }
    ensures answer { IfOk result (λ answer. answer ≡ (page_out home.old granted uid page base bytes.now).answer) }
    ensures home { OnOk result (home.new ≡ (page_out home.old granted uid page base bytes.now).home) }
    ensures memory { OnErr result (IsTrue (is_stored (page_out home.old granted uid page base bytes.now).answer)) }
    ensures err { OnErr result (home.new ≡ home.old) }
{
    if !has_page(home, uid, page) {
        return Ok(HomeAnswer::new(Body::NoObject));
    }
    if !granted {
        return Ok(HomeAnswer::new(Body::NoGrant));
    }
    match home.write_page(uid, page, base, bytes) {
        Ok(stamp) => Ok(HomeAnswer::new(Body::Stored { stamp })),
        Err(WriteRefusal::Stale(stamp)) => Ok(HomeAnswer::new(Body::Stale { stamp })),
        Err(WriteRefusal::NoMemory) => Err(NoMemory),
        Err(WriteRefusal::NoObject) => unreachable!(),
    }
}

/// Writes a length, where the object is there with room for it, the sender holds the grant and the base
/// is the stamp. Takes no memory.
pub(crate) fn attr_out<P: Pages>(
    home: &mut Home<P>,
    granted: bool,
    uid: Uid,
    length: u32,
    base: u64,
) -> HomeAnswer
    requires { ForSome (attr_of home.old uid) (λ attr. attr.stamp < 2 ^ 64 - 1) }
    ensures answer { result ≡ (attr_out home.old granted uid length base).answer }
    ensures home { home.new ≡ (attr_out home.old granted uid length base).home }
{
    if !has_length(home, uid, length) {
        return HomeAnswer::new(Body::NoObject);
    }
    if !granted {
        return HomeAnswer::new(Body::NoGrant);
    }
    match home.write_length(uid, length, base) {
        Ok(stamp) => HomeAnswer::new(Body::Stored { stamp }),
        Err(WriteRefusal::Stale(stamp)) => HomeAnswer::new(Body::Stale { stamp }),
        Err(WriteRefusal::NoObject | WriteRefusal::NoMemory) => unreachable!(),
    }
}

/// The answer where a lock is not granted.
fn refused(refusal: AskRefusal) -> Result<HomeAnswer, NoMemory>
    ensures conflict { (holder : ProcName) (held : Mode) →
        refusal ≡ AskRefusal.Conflict holder held → result ≡ Ok (Answer.Conflict holder held) }
    ensures memory { refusal ≡ AskRefusal.NoMemory → IsErr result }
{
    match refusal {
        AskRefusal::Conflict(proc, mode) => Ok(HomeAnswer::new(Body::Conflict { proc, mode })),
        AskRefusal::NoMemory => Err(NoMemory),
    }
}

/// Grants a lock, where the object is there and no other process holds it in conflict.
pub(crate) fn lock<P: Pages>(
    home: &Home<P>,
    locks: &mut Locks,
    proc: ProcId,
    uid: Uid,
    mode: Mode,
) -> Result<HomeAnswer, NoMemory>
    requires { locks.old.last < 2 ^ 64 - 1 }
    ensures answer { IfOk result (λ answer. answer ≡ (lock locks.old (attr_of home.now uid) proc uid mode).answer) }
    ensures locks { OnOk result (locks.new ≡ (lock locks.old (attr_of home.now uid) proc uid mode).locks) }
    ensures memory { OnErr result (IsTrue (is_grant (lock locks.old (attr_of home.now uid) proc uid mode).answer
        && nat_le ROOM (length locks.old.grants))) }
    ensures err { OnErr result (locks.new ≡ locks.old) }
{
    let attr = match home.look(uid) {
        Ok(attr) => attr,
        Err(NoObject) => return Ok(HomeAnswer::new(Body::NoObject)),
    };
    match locks.ask(proc, uid, mode) {
        Ok(grant) => Ok(HomeAnswer::new(Body::Granted {
            grant,
            stamp: attr.stamp,
            kind: attr.kind,
            room: attr.room,
            length: attr.length,
        })),
        Err(refusal) => refused(refusal),
    }
}

/// Ends what a process holds on an object.
pub(crate) fn unlock(locks: &mut Locks, proc: ProcId, uid: Uid) -> HomeAnswer
    ensures answer { result ≡ (unlock locks.old proc uid).answer }
    ensures locks { locks.new ≡ (unlock locks.old proc uid).locks }
{
    let _held = locks.release(proc, uid);
    HomeAnswer::new(Body::Done)
}

/// Whether a process holds an object in a mode that lets it remove it.
fn may_remove(locks: &Locks, proc: ProcId, uid: Uid) -> bool
    ensures { result ≡ may_remove (grant_of proc uid locks.now.grants) }
{
    match locks.held_by(proc, uid) {
        Some((mode, _)) => mode.removes(),
        None => false,
    }
}

/// Removes an object with its pages and its grants, where the process holds it in a mode
/// that removes.
pub(crate) fn remove<P: Pages>(
    home: &mut Home<P>,
    locks: &mut Locks,
    proc: ProcId,
    uid: Uid,
) -> HomeAnswer
    ensures answer { result ≡ (remove home.old locks.old proc uid).answer }
    ensures home { home.new ≡ (remove home.old locks.old proc uid).home }
    ensures locks { locks.new ≡ (remove home.old locks.old proc uid).locks }
{
    if home.look(uid).is_err() {
        return HomeAnswer::new(Body::NoObject);
    }
    if !may_remove(locks, proc, uid) {
        return HomeAnswer::new(Body::NoGrant);
    }
    match home.remove(uid) {
        Ok(()) => {
            locks.drop_object(uid);
            HomeAnswer::new(Body::Done)
        }
        Err(NoObject) => unreachable!(),
    }
}

/// Makes an object of this room, in pages, where it fits the volume.
pub(crate) fn make<P: Pages>(
    home: &mut Home<P>,
    kind: ObjKind,
    room: u32,
) -> Result<HomeAnswer, NoMemory>
    requires room { (1 ≤ room) × (room ≤ MAX_ROOM) }
    requires counter { home.old.greatest < 2 ^ 44 - 1 }
    ensures answer { IfOk result (λ answer. answer ≡ (make home.old kind room).answer) }
    ensures home { OnOk result (home.new ≡ (make home.old kind room).home) }
    ensures memory { OnErr result (IsTrue (is_made (make home.old kind room).answer)) }
    ensures err { OnErr result (home.new ≡ home.old) }
{
    match home.make(kind, room) {
        Ok(uid) => Ok(HomeAnswer::new(Body::Made { uid })),
        Err(MakeFault::NoSpace) => Ok(HomeAnswer::new(Body::NoSpace)),
        Err(MakeFault::NoMemory) => Err(NoMemory),
    }
}

/// The first rows behind one, and whether more follow.
pub(crate) fn list(
    alloc: Global,
    locks: &Locks,
    after: Option<(Uid, ProcId)>,
) -> Result<HomeAnswer, NoMemory>
    requires { IsTable locks.now }
    ensures { IfOk result (λ answer. answer ≡ list_rows locks.now after) }
{
    let (rows, more) = locks.list(alloc, after)?;
    Ok(HomeAnswer::new(Body::Listed { rows, more }))
}

/// Decides on a write of a page or of a length.
fn write<P: Pages>(
    home: &mut Home<P>,
    locks: &Locks,
    proc: ProcId,
    body: &Body,
) -> Result<HomeAnswer, NoMemory>
    requires write { IsTrue (is_write body.now) }
    requires stamps { AreStampedTo (2 ^ 64 - 2) home.old.objects }
    ensures answer { IfSome (ask_of body.now) (λ ask.
        IfOk result (λ answer. answer ≡ (decide home.old locks.now proc ask).answer)) }
    ensures home { IfSome (ask_of body.now) (λ ask.
        OnOk result (home.new ≡ (decide home.old locks.now proc ask).home)) }
    ensures memory { IfSome (ask_of body.now) (λ ask.
        OnErr result (IsTrue (decision_wants ask locks.now (decide home.old locks.now proc ask).answer))) }
    ensures err { OnErr result (home.new ≡ home.old) }
{
    match body {
        Body::PageOut {
            uid,
            page,
            grant,
            base,
            bytes,
        } => {
            let granted = is_granted(locks, *grant, *uid, proc);
            page_out(home, granted, *uid, *page, *base, bytes.bytes())
        }
        Body::AttrOut {
            uid,
            length,
            grant,
            base,
        } => {
            let granted = is_granted(locks, *grant, *uid, proc);
            Ok(attr_out(home, granted, *uid, *length, *base))
        }
        _ => unreachable!(),
    }
}

/// Decides on a request.
pub(crate) fn decide<P: Pages>(
    alloc: Global,
    home: &mut Home<P>,
    locks: &mut Locks,
    proc: ProcId,
    body: &Body,
) -> Result<HomeAnswer, NoMemory>
    requires request { IsTrue (is_request body.now) }
    requires ranges { IsBody home.old.node body.now }
    requires table { IsTable locks.old }
    requires grants { locks.old.last < 2 ^ 64 - 1 }
    requires counters { home.old.greatest < 2 ^ 44 - 1 }
    requires stamps { AreStampedTo (2 ^ 64 - 2) home.old.objects }
    ensures answer { IfSome (ask_of body.now) (λ ask.
        IfOk result (λ answer. answer ≡ (decide home.old locks.old proc ask).answer)) }
    ensures home { IfSome (ask_of body.now) (λ ask.
        OnOk result (home.new ≡ (decide home.old locks.old proc ask).home)) }
    ensures locks { IfSome (ask_of body.now) (λ ask.
        OnOk result (locks.new ≡ (decide home.old locks.old proc ask).locks)) }
    ensures memory { IfSome (ask_of body.now) (λ ask.
        OnErr result (IsTrue (decision_wants ask locks.old (decide home.old locks.old proc ask).answer))) }
    ensures err_home { OnErr result (home.new ≡ home.old) }
    ensures err_locks { OnErr result (locks.new ≡ locks.old) }
{
    match body {
        Body::PageIn { uid, page } => page_in(alloc, home, *uid, *page),
        Body::PageOut { .. } => write(home, locks, proc, body),
        Body::AttrOut { .. } => write(home, locks, proc, body),
        Body::Lock { uid, mode } => lock(home, locks, proc, *uid, *mode),
        Body::Unlock { uid } => Ok(unlock(locks, proc, *uid)),
        Body::Remove { uid } => Ok(remove(home, locks, proc, *uid)),
        Body::Make { kind, room } => make(home, *kind, *room),
        Body::List { after } => list(alloc, locks, *after),
        _ => unreachable!(),
    }
}
