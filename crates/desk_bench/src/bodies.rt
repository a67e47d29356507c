//! What a frame carries, in words: the name of its kind, and its parts.
use crate::texts::{Part, told};
use crate::words::{kind, mode, number, number8, number32, object, proc};
use anyhow::{Result, bail};
use ring_messages::{Body, PageBytes};
use std::alloc::{AllocError, Global};
use uid_names::{LockRow, PAGE_BYTES};

/// Six words.
pub type Parts<'a> = [&'a str; 6];

/// The body that the words say: a request, or an answer that has no rows. A page has equal bytes.
pub fn read(alloc: Global, parts: &Parts<'_>) -> Result<Body> {
    match parts[0] {
        "page" => page(alloc, parts),
        "stored" => stored(parts),
        "stale" => stale(parts),
        "no-object" => Ok(Body::NoObject),
        "granted" => granted(parts),
        "conflict" => conflict(parts),
        "done" => Ok(Body::Done),
        _ => request(alloc, parts),
    }
}

/// A request. A page that is sent home has equal bytes.
fn request(alloc: Global, parts: &Parts<'_>) -> Result<Body> {
    match parts[0] {
        "page-in" => page_in(parts),
        "page-out" => page_out(alloc, parts),
        "attr-out" => attr_out(parts),
        "make" => make(parts),
        "list" => list(parts[1], parts[2]),
        _ => lock_request(parts),
    }
}

/// A request for a lock, its end, or that of an object.
fn lock_request(parts: &Parts<'_>) -> Result<Body> {
    match parts[0] {
        "lock" => lock(parts),
        "unlock" => unlock(parts),
        "remove" => remove(parts),
        _ => bail!("no body"),
    }
}

/// A page of equal bytes.
fn bytes_of(alloc: Global, word: &str) -> Result<PageBytes> {
    Ok(PageBytes::new(alloc, &[number8(word)?; PAGE_BYTES])?)
}

fn page_in(parts: &Parts<'_>) -> Result<Body> {
    let (uid, page) = (object(parts[1])?, number32(parts[2])?);
    Ok(Body::PageIn { uid, page })
}

fn page_out(alloc: Global, parts: &Parts<'_>) -> Result<Body> {
    let (uid, page) = (object(parts[1])?, number32(parts[2])?);
    let (grant, base) = (number(parts[3])?, number(parts[4])?);
    let bytes = bytes_of(alloc, parts[5])?;
    Ok(Body::PageOut {
        uid,
        page,
        grant,
        base,
        bytes,
    })
}

fn attr_out(parts: &Parts<'_>) -> Result<Body> {
    let (uid, length) = (object(parts[1])?, number32(parts[2])?);
    let (grant, base) = (number(parts[3])?, number(parts[4])?);
    Ok(Body::AttrOut {
        uid,
        length,
        grant,
        base,
    })
}

fn lock(parts: &Parts<'_>) -> Result<Body> {
    let (uid, mode) = (object(parts[1])?, mode(parts[2])?);
    Ok(Body::Lock { uid, mode })
}

fn unlock(parts: &Parts<'_>) -> Result<Body> {
    let uid = object(parts[1])?;
    Ok(Body::Unlock { uid })
}

fn remove(parts: &Parts<'_>) -> Result<Body> {
    let uid = object(parts[1])?;
    Ok(Body::Remove { uid })
}

fn make(parts: &Parts<'_>) -> Result<Body> {
    let (kind, room) = (kind(parts[1])?, number32(parts[2])?);
    Ok(Body::Make { kind, room })
}

/// A list of all rows, or of those behind one.
fn list(uid: &str, holder: &str) -> Result<Body> {
    if uid.is_empty() {
        return Ok(Body::List { after: None });
    }
    let after = Some((object(uid)?, proc(holder)?));
    Ok(Body::List { after })
}

fn page(alloc: Global, parts: &Parts<'_>) -> Result<Body> {
    let stamp = number(parts[1])?;
    let bytes = bytes_of(alloc, parts[2])?;
    Ok(Body::Page { stamp, bytes })
}

fn stored(parts: &Parts<'_>) -> Result<Body> {
    let stamp = number(parts[1])?;
    Ok(Body::Stored { stamp })
}

fn stale(parts: &Parts<'_>) -> Result<Body> {
    let stamp = number(parts[1])?;
    Ok(Body::Stale { stamp })
}

fn granted(parts: &Parts<'_>) -> Result<Body> {
    let (grant, stamp) = (number(parts[1])?, number(parts[2])?);
    let kind = kind(parts[3])?;
    let (room, length) = (number32(parts[4])?, number32(parts[5])?);
    Ok(Body::Granted {
        grant,
        stamp,
        kind,
        room,
        length,
    })
}

fn conflict(parts: &Parts<'_>) -> Result<Body> {
    let (proc, mode) = (proc(parts[1])?, mode(parts[2])?);
    Ok(Body::Conflict { proc, mode })
}

/// What a body says, as the words that are read. Of bytes the first is told, and of rows how many there are.
pub fn text(alloc: Global, body: &Body) -> Result<String, AllocError> {
    let name = body.kind().name();
    match body {
        Body::PageIn { .. }
        | Body::PageOut { .. }
        | Body::AttrOut { .. }
        | Body::Lock { .. }
        | Body::Unlock { .. }
        | Body::Remove { .. }
        | Body::Make { .. } => request_text(alloc, name, body),
        Body::List { .. } | Body::Listed { .. } => list_text(alloc, name, body),
        _ => answer_text(alloc, name, body),
    }
}

/// What a request says that is none for a list.
fn request_text(alloc: Global, name: &str, body: &Body) -> Result<String, AllocError> {
    match body {
        Body::PageIn { uid, page } => {
            let page = Part::Number(u64::from(*page));
            told(alloc, name, &[Part::Object(*uid), page])
        }
        Body::Lock { uid, mode } => told(alloc, name, &[Part::Object(*uid), Part::Letter(*mode)]),
        Body::Unlock { uid } | Body::Remove { uid } => told(alloc, name, &[Part::Object(*uid)]),
        Body::Make { kind, room } => {
            let kind = Part::Number(u64::from(kind.code()));
            told(alloc, name, &[kind, Part::Number(u64::from(*room))])
        }
        _ => home_text(alloc, name, body),
    }
}

/// What a body says that sends a page or a length home.
fn home_text(alloc: Global, name: &str, body: &Body) -> Result<String, AllocError> {
    match body {
        Body::PageOut {
            uid,
            page,
            grant,
            base,
            bytes,
        } => {
            let (page, byte) = (u64::from(*page), u64::from(bytes.bytes()[0]));
            let [page, grant, base, byte] = numbers([page, *grant, *base, byte]);
            told(alloc, name, &[Part::Object(*uid), page, grant, base, byte])
        }
        Body::AttrOut {
            uid,
            length,
            grant,
            base,
        } => {
            let [length, grant, base, _] = numbers([u64::from(*length), *grant, *base, 0]);
            told(alloc, name, &[Part::Object(*uid), length, grant, base])
        }
        _ => told(alloc, name, &[]),
    }
}

/// Four numbers, as parts.
fn numbers(of: [u64; 4]) -> [Part; 4] {
    let [first, second, third, fourth] = of;
    [
        Part::Number(first),
        Part::Number(second),
        Part::Number(third),
        Part::Number(fourth),
    ]
}

/// What an answer says that is no list.
fn answer_text(alloc: Global, name: &str, body: &Body) -> Result<String, AllocError> {
    match body {
        Body::Page { stamp, bytes } => {
            let byte = Part::Number(u64::from(bytes.bytes()[0]));
            told(alloc, name, &[Part::Number(*stamp), byte])
        }
        Body::Stored { stamp } | Body::Stale { stamp } => {
            told(alloc, name, &[Part::Number(*stamp)])
        }
        Body::Granted {
            grant,
            stamp,
            kind,
            room,
            length,
        } => {
            let (kind, length) = (u64::from(kind.code()), u64::from(*length));
            let [grant, stamp, kind, room] = numbers([*grant, *stamp, kind, u64::from(*room)]);
            told(
                alloc,
                name,
                &[grant, stamp, kind, room, Part::Number(length)],
            )
        }
        Body::Conflict { proc, mode } => {
            told(alloc, name, &[Part::Proc(*proc), Part::Letter(*mode)])
        }
        Body::Made { uid } => told(alloc, name, &[Part::Object(*uid)]),
        _ => told(alloc, name, &[]),
    }
}

/// What a list says, or who asks for one.
fn list_text(alloc: Global, name: &str, body: &Body) -> Result<String, AllocError> {
    match body {
        Body::List { after: Some(after) } => {
            told(alloc, name, &[Part::Object(after.0), Part::Proc(after.1)])
        }
        Body::Listed { rows, more } => rows_text(alloc, name, rows.items(), *more),
        _ => told(alloc, name, &[]),
    }
}

/// How many rows there are, whether there are more, and the first, if there is one.
fn rows_text(
    alloc: Global,
    name: &str,
    rows: &[LockRow],
    more: bool,
) -> Result<String, AllocError> {
    let (count, more) = (Part::Number(rows.len() as u64), Part::More(more));
    match rows.first() {
        None => told(alloc, name, &[count, more]),
        Some(row) => {
            let (uid, holder) = (Part::Object(row.uid), Part::Proc(row.proc));
            told(
                alloc,
                name,
                &[count, more, uid, holder, Part::Letter(row.mode)],
            )
        }
    }
}
