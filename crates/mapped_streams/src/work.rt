//! What streams do with an object that is open.
ghost use Rattle.std.specs.Prelude.{◌≡◌, ◌<◌, ◌≤◌, ◌+◌, ℕ, false, true, Some, None, IfOk, IfSome, OnOk};
ghost use Rattle.dom_history.specs.Ranges.{IsOp};
ghost use Rattle.dom_history.specs.Fitting.{Fits};
ghost use Rattle.naming_tree.specs.Entering.{pages as pages_of};
ghost use Rattle.mapped_streams.specs.Pages.{IsMapped, end_of, page_load};
ghost use Rattle.mapped_streams.specs.declared.work.Work.TheVariants.{Copy as CopyWork};
ghost use Rattle.mapped_streams.specs.Works.{mode_of, come_of, append_op as append_asks, copy_op as copy_asks, work_op, side_after, is_stored, copy_after, work_after, if_taken, is_done as is_done_work, IsText, IsLoaded, IsWork};

use crate::gathered::Gathered;
use crate::mapped::{Mapped, room_at};
use crate::step::StreamResult;
use dom_history::{Op, Reply, Spot};
use std::alloc::Global;
use uid_names::{ByteList, Mode, NoMemory};

/// The sides of a page border.
#[derive(Clone, Copy)]
pub enum Side {
    Before,
    Behind,
}

/// What is done with an object that is open.
pub enum Work {
    /// Its pages from this one on are loaded.
    Read {
        page: u32,
        gathered: Gathered,
    },
    /// A text is put behind its bytes: what of it comes before the next page border, and then what comes behind it.
    Append {
        text: ByteList,
        side: Option<Side>,
    },
    /// The pages of another object from this one on are loaded and stored into it; `loaded` is to be stored.
    Copy {
        source: Mapped,
        page: u32,
        loaded: Option<ByteList>,
    },
}

// Of its own, so that what drops one calls this and does not take it apart in place.
impl Drop for Work {
    fn drop(self) {
        match self {
            Work::Read {
                page: _,
                gathered: _,
            }
            | Work::Append { text: _, side: _ }
            | Work::Copy {
                source: _,
                page: _,
                loaded: _,
            } => {}
        }
    }
}

/// The store of a text behind the bytes of an object: up to the page border, or what is left there.
fn append_op(
    alloc: Global,
    at: &Mapped,
    text: &ByteList,
    side: Option<Side>,
) -> Result<Op, NoMemory>
    requires mapped { IsMapped at.now }
    requires text { IsText text.now }
    requires going { is_stored (end_of at.now) text.now side ≡ false }
    ensures value { IfOk result (λ op. op ≡ append_asks (end_of at.now) text.now side) }
    ensures range { IfOk result IsOp }
{
    let place = at.end();
    let room = room_at(place);
    let bytes = text.bytes();
    match side {
        Some(Side::Before) => Ok(Op::Store {
            spot: Spot::Addr(place),
            bytes: ByteList::from_slice(alloc, &bytes[..room.min(bytes.len())])?,
        }),
        _ => Ok(Op::Store {
            spot: Spot::Addr(place + room as u32),
            bytes: ByteList::from_slice(alloc, &bytes[room..])?,
        }),
    }
}

/// The load of a page of the source, or the store of one that is loaded.
fn copy_op(
    alloc: Global,
    source: &Mapped,
    at: &Mapped,
    page: u32,
    loaded: &Option<ByteList>,
) -> Result<Op, NoMemory>
    requires source { IsMapped source.now }
    requires mapped { IsMapped at.now }
    requires page { page < pages_of source.now.length }
    requires loaded { IfSome loaded.now (λ bytes. IsLoaded source.now page bytes) }
    ensures value { IfOk result (λ op. op ≡ copy_asks source.now at.now page loaded.now) }
    ensures range { IfOk result IsOp }
{
    match loaded {
        Some(bytes) => Ok(at.store(page, bytes.copy(alloc)?)),
        None => Ok(source.load(page)),
    }
}

/// Takes in the reply to the load of a page of the source, or to its store; false where that is a refusal.
fn hear_copy(
    alloc: Global,
    source: &Mapped,
    page: &mut u32,
    loaded: &mut Option<ByteList>,
    reply: &Reply,
) -> Result<bool, NoMemory>
    requires source { IsMapped source.now }
    requires page { page.old < pages_of source.now.length }
    requires fits { loaded.old ≡ None → Fits (page_load source.now page.old) reply.now }
    requires loaded { IfSome loaded.old (λ bytes. IsLoaded source.now page.old bytes) }
    ensures value { IfOk result (λ taken. if_taken taken (CopyWork source.now page.new loaded.new) ≡ copy_after source.now page.old loaded.old reply.now) }
    ensures refused { IfOk result (λ taken. taken ≡ false → (page.new ≡ page.old) × (loaded.new ≡ loaded.old)) }
    ensures loaded { OnOk result (IfSome loaded.new (λ bytes. IsLoaded source.now page.new bytes)) }
{
    match (loaded.is_some(), reply) {
        (false, Reply::Bytes(bytes)) => {
            *loaded = Some(bytes.copy(alloc)?);
            Ok(true)
        }
        (true, Reply::Fine) => {
            *loaded = None;
            *page += 1;
            Ok(true)
        }
        _ => Ok(false),
    }
}

/// The side of the border that comes behind one.
fn side_behind(side: Option<Side>) -> Option<Side>
    ensures { result ≡ side_after side }
{
    match side {
        Some(Side::Before) => Some(Side::Behind),
        _ => None,
    }
}

impl Work {
    /// How its object is locked.
    pub fn mode(&self) -> Mode
        ensures { result ≡ mode_of self.now }
    {
        match self {
            Work::Read {
                page: _,
                gathered: _,
            } => Mode::Read,
            _ => Mode::Write,
        }
    }

    /// Whether nothing is left but to close.
    pub fn is_done(&self, at: &Mapped) -> bool
        requires { IsMapped at.now }
        ensures { result ≡ is_done_work at.now self.now }
    {
        match self {
            Work::Read { page, gathered: _ } => at.pages() <= *page,
            Work::Append { text, side } => match side {
                Some(Side::Before) => false,
                Some(Side::Behind) => text.bytes().len() <= room_at(at.end()),
                None => true,
            },
            Work::Copy {
                source,
                page,
                loaded: _,
            } => source.pages() <= *page,
        }
    }

    /// What it asks while there is something left.
    pub fn op(&self, alloc: Global, at: &Mapped) -> Result<Op, NoMemory>
        requires work { IsWork self.now }
        requires mapped { IsMapped at.now }
        requires going { is_done_work at.now self.now ≡ false }
        ensures value { IfOk result (λ op. op ≡ work_op at.now self.now) }
        ensures range { IfOk result IsOp }
    {
        match self {
            Work::Read { page, gathered: _ } => Ok(at.load(*page)),
            Work::Append { text, side } => append_op(alloc, at, text, *side),
            Work::Copy {
                source,
                page,
                loaded,
            } => copy_op(alloc, source, at, *page, loaded),
        }
    }

    /// Takes in the reply to its operation; false where that is a refusal.
    pub fn hear(&mut self, alloc: Global, at: &Mapped, reply: &Reply) -> Result<bool, NoMemory>
        requires work { IsWork self.old }
        requires mapped { IsMapped at.now }
        requires going { is_done_work at.now self.old ≡ false }
        requires fits { Fits (work_op at.now self.old) reply.now }
        ensures value { IfOk result (λ taken. if_taken taken self.new ≡ work_after self.old reply.now) }
        ensures refused { IfOk result (λ taken. taken ≡ false → self.new ≡ self.old) }
        ensures work { OnOk result (IsWork self.new) }
    {
        match self {
            Work::Read { page, gathered } => match reply {
                Reply::Bytes(bytes) => {
                    gathered.add(*page, bytes.bytes())?;
                    *page += 1;
                    Ok(true)
                }
                _ => Ok(false),
            },
            Work::Append { text: _, side } => match reply {
                Reply::Fine => {
                    *side = side_behind(*side);
                    Ok(true)
                }
                _ => Ok(false),
            },
            Work::Copy {
                source,
                page,
                loaded,
            } => hear_copy(alloc, source, page, loaded, reply),
        }
    }

    /// What it comes to; bytes that were gathered are handed out.
    pub fn take_result(&mut self, alloc: Global) -> StreamResult
        ensures { result ≡ come_of self.old }
    {
        match self {
            Work::Read { page: _, gathered } => gathered.take(alloc),
            _ => StreamResult::Fine,
        }
    }
}
