//! Streams on the files of a store, what they ask, and what they are refused.
ghost use Rattle.std.specs.Prelude.{◌≡◌, ◌<◌, ◌*◌, ◌%◌, None, Some, IfOk, IfSome};
ghost use Rattle.std.specs.Option.{option_copied};
ghost use Rattle.uid_names.specs.declared.segment.TheConstants.{SEGMENT_SIZE, SEGMENTS};
ghost use Rattle.dom_history.specs.Fitting.{Fits};
ghost use Rattle.dom_history.specs.Ranges.{IsOp};
ghost use Rattle.mapped_streams.specs.Dialogues.{MayHear};
ghost use Rattle.mapped_streams.specs.States.{rest};

use crate::refusals::{Refusal, refusal_at};
use crate::undone::{Result, Undone};
use crate::world::World;
use dom_history::{Op, Reply};
use mapped_streams::{Stream, StreamResult, StreamStep};
use std::alloc::Global;
use uid_names::{ByteList, MAX_LENGTH, MAX_ROOM, Mode, ObjKind, PAGE_BYTES, Uid};

/// How many operations a stream asks at most.
const MOST_CALLS: u32 = 3000;

/// What a machine asked, in words, how many operations, and whether one was refused.
#[derive(Drop)]
pub(crate) struct Asked {
    pub(crate) words: ByteList,
    count: u64,
    refused: bool,
}

impl Asked {
    /// Nothing.
    pub(crate) fn new(alloc: Global) -> Asked {
        Asked {
            words: ByteList::new(alloc),
            count: 0,
            refused: false,
        }
    }
}

/// What a stream asked, in words, and what it came to.
#[derive(Drop)]
pub struct Served {
    pub words: ByteList,
    pub result: StreamResult,
}

/// The word of an operation.
pub(crate) fn word(op: &Op) -> &'static [u8] {
    match op {
        Op::Lock {
            uid: _,
            mode: Mode::Read,
        } => b"lock-r ",
        Op::Lock { uid: _, mode: _ } => b"lock-w ",
        Op::Length { uid: _ } => b"length ",
        Op::Map { uid: _ } => b"map ",
        Op::Load { spot: _, count: _ } => b"load ",
        Op::Store { spot: _, bytes: _ } => b"store ",
        Op::Unmap { uid: _ } => b"unmap ",
        Op::Unlock { uid: _ } => b"unlock ",
        _ => b"another ",
    }
}

/// What an operation is answered: by the store, unless it is to be refused.
pub(crate) fn answer(
    world: &mut World,
    op: &Op,
    asked: &mut Asked,
    refusal: &Option<Refusal>,
) -> Result<Reply>
    requires { IsOp op.now }
    ensures { IfOk result (Fits op.now) }
{
    let count = asked.count;
    asked.count = count.saturating_add(1);
    match refusal_at(op, count, asked.refused, refusal)? {
        Some(reply) => {
            asked.refused = true;
            Ok(reply)
        }
        None => world.reply(op),
    }
}

/// Tells a stream a reply; what its operation is answered, unless it is over.
fn turn(
    world: &mut World,
    machine: &mut Stream,
    last: Option<&Reply>,
    asked: &mut Asked,
    refusal: &Option<Refusal>,
) -> Result<Result<Reply, StreamResult>>
    requires { MayHear (rest machine.old) (option_copied last) }
    ensures { IfOk result (λ told. IfOk told (λ reply. MayHear (rest machine.new) (Some reply))) }
{
    let op = match machine.next(world.alloc, last)? {
        StreamStep::Over(result) => return Ok(Err(result)),
        StreamStep::Do(op) => op,
    };
    asked.words.extend(word(&op))?;
    let reply = answer(world, &op, asked, refusal)?;
    Ok(Ok(reply))
}

/// Serves a stream until it is over.
pub fn serve(world: &mut World, machine: Stream, refusal: &Option<Refusal>) -> Result<Served>
    requires { MayHear (rest machine) None }
{
    let mut machine = machine;
    let mut asked = Asked::new(world.alloc);
    let mut last = None;
    'calls: for _ in 0..MOST_CALLS {
        match turn(world, &mut machine, last.as_ref(), &mut asked, refusal)? {
            Ok(reply) => last = Some(reply),
            Err(result) => {
                return Ok(Served {
                    words: asked.words,
                    result,
                });
            }
        }
    }
    Err(Undone::NoEnd)
}

/// So many bytes; every seventh ends a line.
pub fn some_bytes(alloc: Global, count: u64) -> Result<ByteList> {
    let mut bytes = ByteList::new(alloc);
    for i in 0..count {
        bytes.push(if i % 7 == 3 {
            b'\n'
        } else {
            b'a' + (i % 26) as u8
        })?;
    }
    Ok(bytes)
}

/// A stream that puts a text behind an object.
pub fn appending(alloc: Global, uid: Uid, text: &[u8]) -> Result<Stream>
    ensures { IfOk result (λ m. MayHear (rest m) None) }
{
    if text.is_empty() || text.len() > PAGE_BYTES {
        return Err(Undone::NoText);
    }
    Ok(Stream::append(alloc, uid, text)?)
}

/// Has an operation done that the process asks.
fn have_done(world: &mut World, op: &Op) -> Result<()>
    requires { IsOp op.now }
{
    match &world.reply(op)? {
        Reply::Fine => Ok(()),
        _ => Err(Undone::Refused),
    }
}

/// A file with room for so many pages.
pub fn made(world: &mut World, room: u32) -> Result<Uid> {
    if room == 0 || room > MAX_ROOM {
        return Err(Undone::NoRoom);
    }
    let (home, kind) = (world.own(), ObjKind::File);
    let _number = home.number();
    match &world.reply(&Op::New { home, kind, room })? {
        Reply::Made(uid) => Ok(*uid),
        _ => Err(Undone::Refused),
    }
}

/// Locks and maps an object; where it is mapped.
pub fn open(world: &mut World, uid: Uid, mode: Mode) -> Result<u32>
    ensures { IfOk result (λ a. (a % SEGMENT_SIZE ≡ 0) × (a < SEGMENTS * SEGMENT_SIZE)) }
{
    let _number = uid.number();
    have_done(world, &Op::Lock { uid, mode })?;
    match &world.reply(&Op::Map { uid })? {
        Reply::At { address, fresh: _ } => Ok(*address),
        _ => Err(Undone::Refused),
    }
}

/// Ends a lock; what is mapped stays mapped.
pub fn leave(world: &mut World, uid: Uid) -> Result<()> {
    let _number = uid.number();
    have_done(world, &Op::Unlock { uid })
}

/// Ends a mapping and a lock.
fn close(world: &mut World, uid: Uid) -> Result<()> {
    let _number = uid.number();
    have_done(world, &Op::Unmap { uid })?;
    leave(world, uid)
}

/// The length of an object that is locked.
fn length(world: &mut World, uid: Uid) -> Result<u32> {
    let _number = uid.number();
    match &world.reply(&Op::Length { uid })? {
        Reply::Size(length) => Ok(*length),
        _ => Err(Undone::Refused),
    }
}

/// Reads an object, or counts its lines.
pub fn read(
    world: &mut World,
    uid: Uid,
    counts: bool,
    refusal: &Option<Refusal>,
) -> Result<Served> {
    if counts {
        return serve(world, Stream::count_lines(uid), refusal);
    }
    let machine = Stream::read_all(world.alloc, uid);
    serve(world, machine, refusal)
}

/// Copies an object to another one; the source is opened before, and closed behind it.
pub fn copy(world: &mut World, from: Uid, to: Uid, refusal: &Option<Refusal>) -> Result<Served> {
    let address = open(world, from, Mode::Read)?;
    let length = length(world, from)?;
    if length > MAX_LENGTH {
        return Err(Undone::NoLength);
    }
    let served = serve(world, Stream::copy(address, length, to), refusal)?;
    close(world, from)?;
    Ok(served)
}

/// Puts a text behind an object.
fn append(world: &mut World, uid: Uid, text: &[u8], refusal: &Option<Refusal>) -> Result<Served> {
    let machine = appending(world.alloc, uid, text)?;
    serve(world, machine, refusal)
}

/// Puts so many bytes behind an object.
pub fn append_bytes(
    world: &mut World,
    uid: Uid,
    count: u64,
    refusal: &Option<Refusal>,
) -> Result<Served> {
    let text = some_bytes(world.alloc, count)?;
    append(world, uid, text.bytes(), refusal)
}

/// Puts a piece behind an object, or fails.
fn put_behind(world: &mut World, uid: Uid, piece: &[u8]) -> Result<()> {
    match append(world, uid, piece, &None)?.result {
        StreamResult::Fine => Ok(()),
        _ => Err(Undone::Refused),
    }
}

/// Puts so many bytes behind an object, in pieces.
pub fn fill(world: &mut World, uid: Uid, count: u64) -> Result<()> {
    let bytes = some_bytes(world.alloc, count)?;
    for piece in bytes.bytes().chunks(700) {
        put_behind(world, uid, piece)?;
    }
    Ok(())
}
