//! Objects that are opened, loaded whole and closed. No function but `Closing::hear` takes memory.
ghost use Rattle.std.specs.Prelude.{◌≡◌, ◌≢◌, ◌≤◌, ◌<◌, ◌+◌, ◌*◌, ◌-◌, ◌^◌, ◌%◌, ℕ, None, Some, Ok, IfOk, OnOk, IfSome, true, false};
ghost use Rattle.naming_tree.specs.Entering.{pages as pages_of, page_load, enter_op, entry_of, entry_at, on_lock as lock_entry, on_length as length_entry, on_map as map_entry, on_load as load_entry, locked as locked_only, held_of, IsEntering, IsOpened, bytes_after, held_op, held_after, closing_after, is_fine as is_fine_reply};
ghost use Rattle.naming_tree.specs.Readings.{nothing_held, stage_of, closing_of};
ghost use Rattle.naming_tree.specs.declared.session.Entering.TheVariants.{Load as LoadStage};
ghost use Rattle.dom_history.specs.Ranges.{IsOp};

use dom_history::{Op, Reply, Spot};
use std::alloc::Global;
use uid_names::{ByteList, Mode, NoMemory, PAGE_BYTES, Uid};

/// An object that is open: how long it is, and where it is mapped. `fresh` where this opening mapped it.
#[derive(Clone, Copy)]
pub struct Opened {
    pub uid: Uid,
    pub length: u32,
    pub address: u32,
    pub fresh: bool,
}

/// What is to be closed, newest first: the lock of another object, a mapping, and the lock of its object.
#[derive(Clone, Copy)]
pub struct Held {
    pub other: Option<Uid>,
    pub mapped: bool,
    pub uid: Uid,
}

/// How far an object is opened and loaded: the operation that is asked.
#[derive(Clone, Copy)]
pub enum Entering {
    Lock,
    Length,
    Map { length: u32 },
    Load { opened: Opened, page: u32 },
}

/// What a reply makes of an opening.
#[derive(Clone, Copy)]
pub enum Entry {
    On(Entering),
    In(Opened),
    /// Refused, with this to be closed.
    Out(Option<Held>),
}

/// What is closed, and whether refusals count; the first that counted.
#[derive(Drop)]
pub struct Closing {
    pub held: Option<Held>,
    pub counts: bool,
    pub refused: Option<Reply>,
}

impl Held {
    /// An object that is only locked.
    pub fn locked(uid: Uid) -> Held
        ensures { result ≡ locked_only uid }
    {
        Held {
            other: None,
            mapped: false,
            uid,
        }
    }

    /// The first operation that closes it.
    pub fn op(self) -> Op
        ensures value { result ≡ held_op self }
        ensures range { IsOp result }
    {
        let _number = self.uid.number();
        match self.other {
            Some(uid) => {
                let _number = uid.number();
                Op::Unlock { uid }
            }
            None if self.mapped => Op::Unmap { uid: self.uid },
            None => Op::Unlock { uid: self.uid },
        }
    }

    /// What is to be closed behind it.
    pub fn rest(self) -> Option<Held>
        ensures { result ≡ held_after self }
    {
        match self.other {
            Some(_) => Some(Held {
                other: None,
                ..self
            }),
            None if self.mapped => Some(Held {
                mapped: false,
                ..self
            }),
            None => None,
        }
    }
}

impl Opened {
    /// How many pages it has.
    fn pages(&self) -> u32
        ensures { result ≡ pages_of self.now.length }
    {
        self.length.div_ceil(PAGE_BYTES as u32)
    }

    /// The load of a page, as far as the object is long.
    fn load(&self, page: u32) -> Op
        requires opened { IsOpened self.now }
        requires page { page < pages_of self.now.length }
        ensures value { result ≡ page_load self.now page }
        ensures range { IsOp result }
    {
        let bytes = PAGE_BYTES as u32;
        Op::Load {
            spot: Spot::Addr(self.address + page * bytes),
            count: bytes.min(self.length - page * bytes),
        }
    }

    /// What is to be closed of it.
    pub fn held(&self) -> Held
        ensures { result ≡ held_of self.now }
    {
        Held {
            other: None,
            mapped: self.fresh,
            uid: self.uid,
        }
    }

    /// The stage at a page, or that all pages are loaded.
    fn at_page(&self, page: u32) -> Entry
        ensures { result ≡ entry_at self.now page }
    {
        if page < self.pages() {
            Entry::On(Entering::Load {
                opened: *self,
                page,
            })
        } else {
            Entry::In(*self)
        }
    }
}

impl Entering {
    /// The operation of the opening of an object.
    pub fn op(&self, uid: Uid, mode: Mode) -> Op
        requires { IsEntering self.now }
        ensures value { result ≡ enter_op uid mode self.now }
        ensures range { IsOp result }
    {
        let _number = uid.number();
        match self {
            Entering::Lock => Op::Lock { uid, mode },
            Entering::Length => Op::Length { uid },
            Entering::Map { length: _ } => Op::Map { uid },
            Entering::Load { opened, page } => opened.load(*page),
        }
    }

    /// Puts the bytes of a reply to its operation behind those before.
    pub fn take_bytes(&self, bytes: &mut ByteList, reply: &Reply) -> Result<(), NoMemory>
        ensures { OnOk result (bytes.new ≡ bytes_after self.now bytes.old reply.now) }
    {
        if let Entering::Load { opened: _, page: _ } = self {
            if let Reply::Bytes(more) = reply {
                return bytes.extend(more.bytes());
            }
        }
        Ok(())
    }

    /// What a reply to its operation makes of the opening of an object.
    pub fn hear(&self, uid: Uid, reply: &Reply) -> Entry
        requires { IsEntering self.now }
        ensures { result ≡ entry_of uid self.now reply.now }
    {
        match self {
            Entering::Lock => on_lock(reply),
            Entering::Length => on_length(uid, reply),
            Entering::Map { length } => on_map(uid, *length, reply),
            Entering::Load { opened, page } => on_load(opened, *page, reply),
        }
    }
}

fn on_lock(reply: &Reply) -> Entry
    ensures { result ≡ lock_entry reply.now }
{
    match reply {
        Reply::Fine => Entry::On(Entering::Length),
        _ => Entry::Out(None),
    }
}

fn on_length(uid: Uid, reply: &Reply) -> Entry
    ensures { result ≡ length_entry uid reply.now }
{
    match reply {
        Reply::Size(length) => Entry::On(Entering::Map { length: *length }),
        _ => Entry::Out(Some(Held::locked(uid))),
    }
}

fn on_map(uid: Uid, length: u32, reply: &Reply) -> Entry
    ensures { result ≡ map_entry uid length reply.now }
{
    match reply {
        Reply::At { address, fresh } => {
            let opened = Opened {
                uid,
                length,
                address: *address,
                fresh: *fresh,
            };
            opened.at_page(0)
        }
        _ => Entry::Out(Some(Held::locked(uid))),
    }
}

fn on_load(opened: &Opened, page: u32, reply: &Reply) -> Entry
    requires { IsEntering (LoadStage opened.now page) }
    ensures { result ≡ load_entry opened.now page reply.now }
{
    match reply {
        Reply::Bytes(_) => opened.at_page(page + 1),
        _ => Entry::Out(Some(opened.held())),
    }
}

/// Whether an operation was done that tells nothing.
pub fn is_fine(reply: &Reply) -> bool
    ensures { result ≡ is_fine_reply reply.now }
{
    match reply {
        Reply::Fine => true,
        _ => false,
    }
}

impl Entry {
    /// How far an opening has come, where it goes on.
    pub fn stage(&self) -> Option<Entering>
        ensures { result ≡ stage_of self.now }
    {
        match self {
            Entry::On(stage) => Some(*stage),
            _ => None,
        }
    }

    /// What is closed behind a reply.
    pub fn closing(&self, alloc: Global, reply: &Reply) -> Result<Closing, NoMemory>
        ensures { IfOk result (λ closing. closing ≡ closing_of reply.now self.now) }
    {
        match self {
            Entry::On(_) => Ok(Closing::none()),
            Entry::In(opened) => Ok(Closing {
                held: Some(opened.held()),
                counts: true,
                refused: None,
            }),
            Entry::Out(held) => Ok(Closing {
                held: *held,
                counts: false,
                refused: Some(reply.copy(alloc)?),
            }),
        }
    }
}

impl Closing {
    /// Nothing is to be closed.
    pub fn none() -> Closing
        ensures { result ≡ nothing_held }
    {
        Closing {
            held: None,
            counts: false,
            refused: None,
        }
    }

    /// Takes in the reply to its operation.
    pub fn hear(&mut self, alloc: Global, reply: &Reply) -> Result<(), NoMemory>
        ensures { OnOk result (self.new ≡ closing_after self.old reply.now) }
    {
        if self.counts && !is_fine(reply) {
            self.refused = Some(reply.copy(alloc)?);
            self.counts = false;
        }
        self.held = match self.held {
            Some(held) => held.rest(),
            None => None,
        };
        Ok(())
    }
}
