//! What is done by names, streams and mailboxes, as a row says it, and what comes of it: `crd d 8` and `added`.
ghost use Rattle.std.specs.Prelude.{IsSome, IfOk};
ghost use Rattle.uid_names.specs.Rooms.{IsRoom};
ghost use Rattle.dir_records.specs.Paths.{route_of};

use crate::records::{number_of, put_names, read_again, record_bytes};
use dir_records::{Component, is_path};
use dom_history::{EndWord, Op, Reply};
use dom_text::{cut, put_decimal};
use mail_box::MailResult;
use mapped_streams::StreamResult;
use naming_tree::{Addition, NameResult, Walked};
use plain_machines::machines::{add, add_at, list, remove, remove_at, walk};
use plain_machines::mails::{Mailed, put_mail, refused_mail, take_mail};
use plain_machines::refusals::{Refusal, refused};
use plain_machines::streams::{
    Served, append_bytes, appending, copy, fill, leave, open, read, serve, some_bytes,
};
use plain_machines::undone::{Result, Undone};
use plain_machines::world::World;
use std::alloc::Global;
use uid_names::{ByteList, MAX_ROOM, Mode, ObjKind, Uid};

/// A result in words, where it has no rows.
fn result_word(come: &NameResult) -> &'static [u8] {
    match come {
        NameResult::Found(Walked::Root) => b"root",
        NameResult::Found(_) => b"found",
        NameResult::Added(_) => b"added",
        NameResult::Removed => b"removed",
        NameResult::Under(_) => b"under",
        NameResult::Rows(_) => b"rows",
        NameResult::Nodes => b"nodes",
        NameResult::NoName => b"no name",
        NameResult::NameExists => b"name exists",
        NameResult::NotDir => b"not a directory",
        NameResult::IsDir => b"is a directory",
        NameResult::DirFull => b"directory full",
        NameResult::LinkLoop => b"link loop",
        NameResult::BadDir => b"bad directory",
        NameResult::Store(reply) => EndWord::of(reply).word().as_bytes(),
    }
}

/// A result in words.
fn words(alloc: Global, come: &NameResult) -> Result<ByteList> {
    let mut words = ByteList::new(alloc);
    match come {
        NameResult::Rows(rows) => put_names(&mut words, rows)?,
        _ => words.extend(result_word(come))?,
    }
    Ok(words)
}

/// Puts the bytes that a stream read. Bytes that are as many of those that files are filled with are counted, and so are
/// other ones where they are many.
fn put_read(alloc: Global, words: &mut ByteList, bytes: &[u8]) -> Result<()> {
    let count = bytes.len() as u64;
    if bytes == some_bytes(alloc, count)?.bytes() {
        put_decimal(words, count)?;
    } else if count > 64 {
        put_decimal(words, count)?;
        words.extend(b" bytes")?;
    } else {
        words.extend(bytes)?;
    }
    Ok(())
}

/// Puts what a stream came to.
fn put_result(alloc: Global, words: &mut ByteList, came: &StreamResult) -> Result<()> {
    match came {
        StreamResult::Bytes(bytes) => put_read(alloc, words, bytes.bytes())?,
        StreamResult::Fine => words.extend(b"ok")?,
        StreamResult::Count(count) => put_decimal(words, *count)?,
        StreamResult::Store(reply) => words.extend(EndWord::of(reply).word().as_bytes())?,
    }
    Ok(())
}

/// What a stream asked and came to, in words.
fn stream_words(alloc: Global, served: &Served) -> Result<ByteList> {
    let mut words = served.words.copy(alloc)?;
    put_result(alloc, &mut words, &served.result)?;
    Ok(words)
}

/// Puts what the machine of a mailbox came to.
fn put_mailed(words: &mut ByteList, came: &MailResult) -> Result<()> {
    match came {
        MailResult::Put => words.extend(b"ok")?,
        MailResult::Taken(text) => words.extend(text.bytes())?,
        MailResult::Full => words.extend(b"mailbox full")?,
        MailResult::Empty => words.extend(b"mailbox empty")?,
        MailResult::BadMail => words.extend(b"bad mailbox")?,
        MailResult::Store(reply) => words.extend(EndWord::of(reply).word().as_bytes())?,
    }
    Ok(())
}

/// What the machine of a mailbox asked and came to, in words.
fn mail_words(alloc: Global, mailed: &Mailed) -> Result<ByteList> {
    let mut words = mailed.words.copy(alloc)?;
    put_mailed(&mut words, &mailed.result)?;
    Ok(words)
}

/// The pages that a word spells; one where there is none.
fn room(word: &[u8]) -> Result<u32>
    ensures { IfOk result IsRoom }
{
    if word.is_empty() {
        return Ok(1);
    }
    let room = number_of(word)?;
    if room < 1 || room > MAX_ROOM as u64 {
        return Err(Undone::NoWords);
    }
    Ok(room as u32)
}

/// Adds a link with a text.
fn link(world: &mut World, path: &[u8], text: &[u8]) -> Result<NameResult>
    requires { IsSome (route_of path.now) }
{
    if !is_path(world.alloc, text)? {
        return Err(Undone::NoWords);
    }
    let text = Some(ByteList::from_slice(world.alloc, text)?);
    add(world, path, ObjKind::Link, 1, text)
}

/// Adds files `0`, `1` and so on to a directory, and looks at it; or the first refusal.
fn crowd(world: &mut World, path: &[u8], number: u64) -> Result<NameResult>
    requires { IsSome (route_of path.now) }
{
    for i in 0..number {
        let mut name = ByteList::from_slice(world.alloc, path)?;
        name.push(b'/')?;
        put_decimal(&mut name, i)?;
        if !is_path(world.alloc, name.bytes())? {
            return Err(Undone::NoWords);
        }
        let come = add(world, name.bytes(), ObjKind::File, 1, None)?;
        if !matches!(&come, NameResult::Added(_)) {
            return Ok(come);
        }
    }
    walk(world, path, true)
}

/// Adds a file by its directory, the one in which the process works.
fn add_there(world: &mut World, name: &[u8]) -> Result<NameResult> {
    let dir = world.entry();
    let what = Addition {
        name: Component::read(name).ok_or(Undone::NoWords)?,
        kind: ObjKind::File,
        room: 1,
        text: None,
    };
    add_at(world, dir, what)
}

/// Removes a name by its directory, the one in which the process works.
fn remove_there(world: &mut World, name: &[u8]) -> Result<NameResult> {
    let dir = world.entry();
    remove_at(world, dir, Component::read(name).ok_or(Undone::NoWords)?)
}

/// The object to which a path led.
fn object_of(come: &NameResult) -> Option<Uid> {
    match come {
        NameResult::Found(Walked::At { uid, .. }) => Some(*uid),
        _ => None,
    }
}

/// The object at a path, no link at its end followed.
fn object(world: &mut World, path: &[u8]) -> Result<Uid>
    requires { IsSome (route_of path.now) }
{
    let come = walk(world, path, false)?;
    object_of(&come).ok_or(Undone::NoObject)
}

/// Stores the records that words spell, behind the byte where they go, into a directory that another process locks.
fn put(world: &mut World, uid: Uid, words: &[u8]) -> Result<Reply> {
    let (at, records) = cut(words, b' ').ok_or(Undone::NoWords)?;
    let at = u32::try_from(number_of(at)?).map_err(|_| Undone::NoWords)?;
    let bytes = record_bytes(world.alloc, records)?;
    let _number = uid.number();
    let mode = Mode::Write;
    let locked = world.reply_to_other(&Op::Lock { uid, mode })?;
    if !matches!(&locked, Reply::Fine) {
        return Ok(locked);
    }
    let stored = world.store_by_other(uid, at, bytes.bytes())?;
    if !matches!(&stored, Reply::Fine) {
        return Ok(stored);
    }
    world.reply_to_other(&Op::Unlock { uid })
}

/// What another process is answered that works on an object itself.
fn done_to(world: &mut World, verb: &[u8], uid: Uid, word: &[u8]) -> Result<Reply> {
    let _number = uid.number();
    let mode = Mode::Write;
    match verb {
        b"lock" => world.reply_to_other(&Op::Lock { uid, mode }),
        b"unlock" => world.reply_to_other(&Op::Unlock { uid }),
        b"delete" => world.reply_to_other(&Op::Delete { uid }),
        b"store" => world.store_by_other(uid, 0, word),
        b"put" => put(world, uid, word),
        _ => Err(Undone::NoWords),
    }
}

/// Whether there is an object of this counter at the node: what another process is answered that locks it.
fn made(world: &mut World, counter: u64) -> Result<Reply> {
    if counter < 1 || counter > 1000 {
        return Err(Undone::NoWords);
    }
    let uid = Uid::from_parts(counter, world.own());
    done_to(world, b"lock", uid, b"")
}

/// A process of the node of an object works on.
fn go(world: &mut World, path: &[u8]) -> Result<NameResult>
    requires { IsSome (route_of path.now) }
{
    let uid = object(world, path)?;
    world.go_to(uid.home());
    walk(world, path, true)
}

/// What comes of a command on names, most by their verbs in the shell. A further word is a room, a text or a number.
fn come_of(world: &mut World, verb: &[u8], path: &[u8], word: &[u8]) -> Result<NameResult>
    requires { IsSome (route_of path.now) }
{
    match verb {
        b"ld" => list(world, path),
        b"bind" => walk(world, path, true),
        b"crf" => add(world, path, ObjKind::File, room(word)?, None),
        b"crd" => add(world, path, ObjKind::Directory, room(word)?, None),
        b"crl" => link(world, path, word),
        b"crm" => add(world, path, ObjKind::Mail, 8, None),
        b"dlf" => remove(world, path),
        b"add-there" => add_there(world, path),
        b"remove-there" => remove_there(world, path),
        b"go" => go(world, path),
        b"made" => Ok(NameResult::Store(made(world, number_of(path)?)?)),
        b"crowd" => crowd(world, path, number_of(word)?),
        b"fail" => {
            world.fail_deletion();
            walk(world, path, true)
        }
        _ => {
            let uid = object(world, path)?;
            Ok(NameResult::Store(done_to(world, verb, uid, word)?))
        }
    }
}

/// Copies a file to the one at a path.
fn copy_to(world: &mut World, uid: Uid, path: &[u8]) -> Result<Served> {
    if !is_path(world.alloc, path)? {
        return Err(Undone::NoWords);
    }
    let to = object(world, path)?;
    copy(world, uid, to, &None)
}

/// What comes of a command on the bytes of a file: `catf`, `lnf`, `apf`, `cpf` of the shell, and `apn` of a number.
fn stream(world: &mut World, verb: &[u8], uid: Uid, word: &[u8]) -> Result<Served> {
    match verb {
        b"catf" => read(world, uid, false, &None),
        b"lnf" => read(world, uid, true, &None),
        b"apf" => {
            let machine = appending(world.alloc, uid, word)?;
            serve(world, machine, &None)
        }
        b"apn" => append_bytes(world, uid, number_of(word)?, &None),
        b"cpf" => copy_to(world, uid, word),
        _ => Err(Undone::NoWords),
    }
}

/// What comes of the process's own work on a file: it is filled with so many bytes, opened in a mode, or left.
fn prepare(world: &mut World, verb: &[u8], uid: Uid, word: &[u8]) -> Result<()> {
    match (verb, word) {
        (b"fill", count) => fill(world, uid, number_of(count)?),
        (b"open", b"r") => {
            let _address = open(world, uid, Mode::Read)?;
            Ok(())
        }
        (b"open", _) => {
            let _address = open(world, uid, Mode::Write)?;
            Ok(())
        }
        _ => leave(world, uid),
    }
}

/// The first word of a text, and what stands behind it.
fn first_word(text: &[u8]) -> (&[u8], &[u8]) {
    match cut(text, b' ') {
        Some(parts) => parts,
        None => (text, &[]),
    }
}

/// The refusal that words spell.
fn refusal(at: &[u8], which: &[u8], closings: bool) -> Result<Refusal> {
    Ok(Refusal {
        at: number_of(at)?,
        which: number_of(which)?,
        closings,
    })
}

/// What a machine asks and comes to that is refused so, in words.
fn refused_words(alloc: Global, verb: &[u8], mapped: bool, refusal: Refusal) -> Result<ByteList> {
    match verb {
        b"putm" | b"putm-first" | b"putm-full" | b"takem" | b"takem-none" => {
            mail_words(alloc, &refused_mail(alloc, verb, mapped, refusal)?)
        }
        _ => stream_words(alloc, &refused(alloc, verb, mapped, refusal)?),
    }
}

/// What a machine asks and comes to that is refused as a row says it: `catf 3 1 mapped closings`.
fn refused_so(alloc: Global, words: &[u8]) -> Result<ByteList> {
    let (verb, rest) = first_word(words);
    let (at, rest) = first_word(rest);
    let (which, rest) = first_word(rest);
    let closings = matches!(rest, b"closings" | b"mapped closings");
    let mapped = matches!(rest, b"mapped" | b"mapped closings");
    let refusal = refusal(at, which, closings)?;
    refused_words(alloc, verb, mapped, refusal)
}

/// Puts the texts `0`, `1` and so on into a mailbox; what the last one asked and came to, in words.
fn put_many(world: &mut World, uid: Uid, number: u64) -> Result<ByteList> {
    let mut said = ByteList::new(world.alloc);
    for i in 0..number {
        let mut text = ByteList::new(world.alloc);
        put_decimal(&mut text, i)?;
        let mailed = put_mail(world, uid, text.bytes(), &None)?;
        said = mail_words(world.alloc, &mailed)?;
    }
    Ok(said)
}

/// Takes so many texts out of a mailbox; what the last one asked and came to, in words.
fn take_many(world: &mut World, uid: Uid, number: u64) -> Result<ByteList> {
    let mut said = ByteList::new(world.alloc);
    for _ in 0..number {
        let mailed = take_mail(world, uid, &None)?;
        said = mail_words(world.alloc, &mailed)?;
    }
    Ok(said)
}

/// What comes of a command on a mailbox, in words: `putm` and `takem` of the shell, and `putn` and `takn` of a number.
fn on_mail(world: &mut World, verb: &[u8], path: &[u8], word: &[u8]) -> Result<ByteList>
    requires { IsSome (route_of path.now) }
{
    let uid = object(world, path)?;
    match verb {
        b"putm" => mail_words(world.alloc, &put_mail(world, uid, word, &None)?),
        b"takem" => mail_words(world.alloc, &take_mail(world, uid, &None)?),
        b"putn" => put_many(world, uid, number_of(word)?),
        b"takn" => take_many(world, uid, number_of(word)?),
        _ => Err(Undone::NoWords),
    }
}

/// What comes of a command on a file, in words.
fn on_file(world: &mut World, verb: &[u8], path: &[u8], word: &[u8]) -> Result<ByteList>
    requires { IsSome (route_of path.now) }
{
    let uid = object(world, path)?;
    match verb {
        b"fill" | b"open" | b"leave" => {
            prepare(world, verb, uid, word)?;
            Ok(ByteList::from_slice(world.alloc, b"ok")?)
        }
        _ => stream_words(world.alloc, &stream(world, verb, uid, word)?),
    }
}

/// What comes of a command at a path, in words.
fn at_path(world: &mut World, verb: &[u8], rest: &[u8]) -> Result<ByteList> {
    let (path, word) = first_word(rest);
    if !is_path(world.alloc, path)? {
        return Ok(ByteList::from_slice(world.alloc, b"no path")?);
    }
    match verb {
        b"catf" | b"lnf" | b"apf" | b"apn" | b"cpf" | b"fill" | b"open" | b"leave" => {
            on_file(world, verb, path, word)
        }
        b"putm" | b"takem" | b"putn" | b"takn" => on_mail(world, verb, path, word),
        _ => words(world.alloc, &come_of(world, verb, path, word)?),
    }
}

/// What comes of a command, in words.
pub fn answer(world: &mut World, command: &[u8]) -> Result<ByteList> {
    let (verb, rest) = first_word(command);
    match verb {
        b"records" => read_again(world.alloc, rest),
        b"refused" => refused_so(world.alloc, rest),
        _ => at_path(world, verb, rest),
    }
}
