//! What a plain store of one node answers to operations in turn, by rows of words.
ghost use Rattle.std.specs.Prelude.{◌<◌, IsTrue};
ghost use Rattle.uid_names.specs.Names.{IsName};
ghost use Rattle.dom_history.specs.Ranges.{IsInPage, IsOp, IsSpot};

use dom_history::{EndWord, Op, Reply, Spot};
use plain_store::PlainStore;
use samples::{node, object, proc};
use std::alloc::Global;
use std::test::Fail;
use uid_names::{ByteList, LockRow, MAX_ROOM, Mode, ObjKind, Opening, PAGE_BYTES, ProcId, Uid};

/// How often an operation is done, the operation, and its reply. An operation is in words: the process of node 1 that asks it, what it
/// does, the object, by its counter and its home, or the address, and what else it needs. A reply is the word of its end, and what it tells.
type Row = (usize, &'static str, &'static str);

/// The most words of an operation.
const MOST: usize = 5;

const CASES: [(&str, &[Row]); 9] = [
    (
        "an object is made, locked, stored to, loaded from and unlocked",
        &[
            (1, "1 new 1 1", "ok"),
            (1, "1 lock 2.1 w", "ok"),
            (1, "1 lock 3.1 w", "no-object"),
            (1, "1 store 2.1 0 hi", "ok"),
            (1, "1 load 2.1 0 2", "ok hi"),
            (1, "1 length 2.1", "ok 2"),
            (1, "1 unlock 2.1", "ok"),
            (1, "1 unlock 2.1", "not-held"),
        ],
    ),
    (
        "a home that is no node has no space and no locks",
        &[
            (1, "1 new 2 1", "no-space"),
            (1, "1 lock 1.2 r", "no-object"),
            (1, "1 list 2", "ok"),
        ],
    ),
    (
        "a deleted object is gone and frees its room: sixteen objects of 1,024 pages fill the volume",
        &[
            (1, "1 lock 1.1 w", "ok"),
            (1, "1 delete 1.1", "ok"),
            (1, "1 unlock 1.1", "not-held"),
            (1, "2 lock 1.1 w", "no-object"),
            (16, "1 new 1 1024", "ok"),
            (1, "1 new 1 1024", "no-space"),
        ],
    ),
    (
        "objects fit into the volume beside the entry directory, which has 8 of its 16,384 pages",
        &[
            (15, "1 new 1 1024", "ok"),
            (1, "1 new 1 1017", "no-space"),
            (1, "1 new 1 1016", "ok"),
            (1, "1 new 1 1", "no-space"),
        ],
    ),
    (
        "readers share, and a conflict names the first holder",
        &[
            (1, "2 lock 1.1 r", "ok"),
            (1, "1 lock 1.1 r", "ok"),
            (1, "3 lock 1.1 w", "conflict 1 1"),
            (1, "1 delete 1.1", "wrong-mode"),
        ],
    ),
    (
        "co-writers of a node write together and remove nothing, and a reader goes with none of them",
        &[
            (1, "2 lock 1.1 c", "ok"),
            (1, "1 lock 1.1 c", "ok"),
            (1, "3 lock 1.1 r", "conflict 1 3"),
            (1, "2 store 1.1 0 no", "ok"),
            (1, "1 store 1.1 1 k", "ok"),
            (1, "2 load 1.1 0 2", "ok nk"),
            (1, "1 delete 1.1", "wrong-mode"),
            (1, "1 unlock 1.1", "ok"),
            (1, "2 unlock 1.1", "ok"),
            (1, "3 lock 1.1 r", "ok"),
        ],
    ),
    (
        "loads end at the length and stores at the room",
        &[
            (1, "1 load 1.1 0 3", "no-lock"),
            (1, "1 lock 1.1 w", "ok"),
            (1, "1 store 1.1 0 hi", "ok"),
            (1, "1 store 1.1 8192 hi", "past-room"),
            (1, "1 store 1.1 8190 hi", "ok"),
            (1, "1 load 1.1 0 3", "ok hi\0"),
            (1, "1 load 1.1 8192 1", "past-end"),
        ],
    ),
    (
        "addresses name the bytes of a mapped object until it is unmapped",
        &[
            (1, "1 lock 1.1 w", "ok"),
            (1, "1 loadat 32767 1", "not-mapped"),
            (1, "1 map 1.1", "ok 0 1"),
            (1, "1 map 1.1", "ok 0 0"),
            (1, "1 storeat 1 hi", "ok"),
            (1, "1 load 1.1 0 3", "ok \0hi"),
            (1, "1 loadat 32767 1", "past-end"),
            (1, "1 loadat 32768 1", "not-mapped"),
            (1, "1 unmap 1.1", "ok"),
            (1, "1 unmap 1.1", "not-mapped"),
        ],
    ),
    (
        "a list tells the locks of a home in order",
        &[
            (1, "2 lock 1.1 r", "ok"),
            (1, "1 lock 1.1 r", "ok"),
            (1, "1 list 1", "ok 1 2"),
        ],
    ),
];

/// Objects of rooms in turn, each of which is made, locked, mapped and unlocked; of one, by its place from 0, what its mapping comes to.
const MAPPINGS: [(&[u32], usize, &str); 8] = [
    (&[33, 1, 32, 64], 0, "ok 0 1"),
    (&[33, 1, 32, 64], 1, "ok 65536 1"),
    (&[33, 1, 32, 64], 2, "ok 98304 1"),
    (&[33, 1, 32, 64], 3, "ok 131072 1"),
    (&[1; 17], 15, "ok 491520 1"),
    (&[1; 17], 16, "too-many-maps"),
    (&[1024; 9], 7, "ok 7340032 1"),
    (&[1024; 9], 8, "no-segment"),
];

fn is_named(uid: Uid) -> bool
    ensures { IsTrue result → IsName uid }
{
    uid.number() > 0
}

fn is_spot(spot: &Spot) -> bool
    ensures { IsTrue result → IsSpot spot.now }
{
    match spot {
        Spot::Of(uid, _) => is_named(*uid),
        Spot::Addr(_) => true,
    }
}

fn is_in_page(spot: &Spot, count: usize) -> bool
    ensures { IsTrue result → IsInPage spot.now count }
{
    let offset = match spot {
        Spot::Of(_, offset) => *offset as usize % PAGE_BYTES,
        Spot::Addr(address) => *address as usize % PAGE_BYTES,
    };
    1 <= count && count <= PAGE_BYTES && offset + count <= PAGE_BYTES
}

/// Whether an operation is in its ranges. Lists are asked from the beginning alone.
fn is_in_range(op: &Op) -> bool
    ensures { IsTrue result → IsOp op.now }
{
    match op {
        Op::New {
            home,
            kind: _,
            room,
        } => home.number() >= 1 && 1 <= *room && *room <= MAX_ROOM,
        Op::Lock { uid, mode: _ }
        | Op::Unlock { uid }
        | Op::Delete { uid }
        | Op::Length { uid }
        | Op::Map { uid }
        | Op::Unmap { uid } => is_named(*uid),
        Op::Load { spot, count } => is_spot(spot) && is_in_page(spot, *count as usize),
        Op::Store { spot, bytes } => is_spot(spot) && is_in_page(spot, bytes.bytes().len()),
        Op::List { home, after } => match after {
            Some(_) => false,
            None => home.number() >= 1,
        },
    }
}

/// The replies to operations in turn.
fn replies(alloc: Global, ops: &[(ProcId, Op)]) -> Result<Vec<Reply>, Fail> {
    if ops.len() > 1000 {
        return Err(Fail::from("too many operations"));
    }
    let opening = Opening::new(alloc, 1, MAX_ROOM);
    let mut store = PlainStore::new(alloc, &opening)?;
    let mut replies = Vec::new(alloc);
    for (p, op) in ops {
        if !is_in_range(op) {
            return Err(Fail::from("an operation out of its range"));
        }
        replies.push(store.apply(alloc, *p, op)?)?;
    }
    Ok(replies)
}

/// The words of a line. Those that are missing are empty.
fn words(line: &str) -> [&str; MOST] {
    let mut words = [""; MOST];
    let mut rest = line.split(' ');
    for place in 0..MOST {
        words[place] = rest.next().unwrap_or("");
    }
    words
}

fn number(word: &str) -> Result<u32, Fail> {
    Ok(word.parse::<u32>().ok().ok_or("no number")?)
}

fn number8(word: &str) -> Result<u8, Fail> {
    Ok(word.parse::<u8>().ok().ok_or("no number below 256")?)
}

/// An object, as `2.1`: its counter and its home.
fn object_of(word: &str) -> Result<Uid, Fail> {
    let (counter, home) = word.split_once('.').ok_or("no object")?;
    let counter = u64::from(number(counter)?);
    if counter == 0 {
        return Err(Fail::from("no counter"));
    }
    object(counter, number8(home)?)
}

/// What is done to an object, or to a home, by a word alone.
fn plain_op(verb: &str, word: &str) -> Result<Op, Fail> {
    if verb == "list" {
        let (home, after) = (node(number8(word)?)?, None);
        return Ok(Op::List { home, after });
    }
    let uid = object_of(word)?;
    match verb {
        "unlock" => Ok(Op::Unlock { uid }),
        "delete" => Ok(Op::Delete { uid }),
        "length" => Ok(Op::Length { uid }),
        "map" => Ok(Op::Map { uid }),
        "unmap" => Ok(Op::Unmap { uid }),
        _ => Err(Fail::from("no operation")),
    }
}

/// Whether a verb is of an address, and not of an offset of an object.
fn is_at(verb: &str) -> bool {
    verb == "loadat" || verb == "storeat"
}

/// The place that words name: an address, or an offset of an object.
fn spot_of(verb: &str, first: &str, second: &str) -> Result<Spot, Fail> {
    if is_at(verb) {
        Ok(Spot::Addr(number(first)?))
    } else {
        Ok(Spot::Of(object_of(first)?, number(second)?))
    }
}

fn file(home: &str, room: &str) -> Result<Op, Fail> {
    Ok(Op::New {
        home: node(number8(home)?)?,
        kind: ObjKind::File,
        room: number(room)?,
    })
}

fn lock(uid: &str, mode: &str) -> Result<Op, Fail> {
    let mode = match mode {
        "r" => Mode::Read,
        "c" => Mode::CoWrite,
        _ => Mode::Write,
    };
    Ok(Op::Lock {
        uid: object_of(uid)?,
        mode,
    })
}

/// The operation that words name.
fn op_of(alloc: Global, line: &str) -> Result<Op, Fail> {
    let [_, verb, first, second, third] = words(line);
    let last = if is_at(verb) { second } else { third };
    match verb {
        "new" => file(first, second),
        "lock" => lock(first, second),
        "load" | "loadat" => {
            let (spot, count) = (spot_of(verb, first, second)?, number(last)?);
            Ok(Op::Load { spot, count })
        }
        "store" | "storeat" => {
            let spot = spot_of(verb, first, second)?;
            let bytes = ByteList::from_slice(alloc, last.as_bytes())?;
            Ok(Op::Store { spot, bytes })
        }
        _ => plain_op(verb, first),
    }
}

/// The operations of rows, with who asks each.
fn ops_of(alloc: Global, rows: &[Row]) -> Result<Vec<(ProcId, Op)>, Fail> {
    let mut ops = Vec::new(alloc);
    for (times, line, _) in rows {
        let [first, ..] = words(line);
        for _ in 0..*times {
            ops.push((proc(1, number8(first)?)?, op_of(alloc, line)?))?;
        }
    }
    Ok(ops)
}

/// A word, and numbers behind it.
fn told(alloc: Global, word: &str, numbers: &[u64]) -> Result<String, Fail> {
    let mut text = format!(in alloc; "{word}")?;
    for number in numbers {
        text.push_str(format!(in alloc; " {number}")?.as_str())?;
    }
    Ok(text)
}

/// The word of a list, and the processes of its rows.
fn listed(alloc: Global, word: &str, rows: &[LockRow]) -> Result<String, Fail> {
    let mut numbers = Vec::new(alloc);
    for row in rows {
        numbers.push(u64::from(row.proc.number()))?;
    }
    told(alloc, word, numbers.as_slice())
}

/// A reply in words. Of bytes, which are a text here, that text.
fn said(alloc: Global, reply: &Reply) -> Result<String, Fail> {
    let word = EndWord::of(reply).word();
    match reply {
        Reply::Bytes(bytes) => {
            let text = str::from_utf8(bytes.bytes()).ok().ok_or("no text")?;
            Ok(format!(in alloc; "{word} {text}")?)
        }
        Reply::Size(length) => told(alloc, word, &[u64::from(*length)]),
        Reply::At { address, fresh } => {
            told(alloc, word, &[u64::from(*address), u64::from(*fresh)])
        }
        Reply::Conflict(holder, mode) => told(
            alloc,
            word,
            &[u64::from(holder.number()), u64::from(mode.code())],
        ),
        Reply::Locks { rows, more: false } => listed(alloc, word, rows.items()),
        _ => told(alloc, word, &[]),
    }
}

/// Whether the replies to the operations of rows are those that these have.
fn is_as_said(alloc: Global, rows: &[Row]) -> Result<bool, Fail> {
    let ops = ops_of(alloc, rows)?;
    let replies = replies(alloc, ops.as_slice())?;
    let mut came = replies.iter();
    for (times, _, expected) in rows {
        for _ in 0..*times {
            let reply = came.next().ok_or("no reply")?;
            if said(alloc, reply)?.as_str() != *expected {
                return Ok(false);
            }
        }
    }
    Ok(came.next().is_none())
}

#[test]
fn operations_are_answered_as_rows_say(rt: HostRuntime) -> Result<(), Fail> {
    for (_title, rows) in CASES {
        assert!(rt; is_as_said(rt.alloc(), rows)?);
    }
    // One that is wrong is seen to be.
    assert!(rt; !is_as_said(rt.alloc(), &[(1, "1 unlock 1.1", "ok")])?);
    Ok(())
}

/// Makes an object of each room in turn, and locks, maps and unlocks it; the replies to the mappings.
fn map_rooms(alloc: Global, rooms: &[u32]) -> Result<Vec<Reply>, Fail> {
    let p = proc(1, 1)?;
    let (home, kind, mode) = (node(1)?, ObjKind::File, Mode::Read);
    let mut ops = Vec::new(alloc);
    for (i, room) in rooms.iter().enumerate() {
        if i > 100 {
            return Err(Fail::from("too many rooms"));
        }
        let uid = object(i as u64 + 2, 1)?;
        ops.push((
            p,
            Op::New {
                home,
                kind,
                room: *room,
            },
        ))?;
        ops.push((p, Op::Lock { uid, mode }))?;
        ops.push((p, Op::Map { uid }))?;
        ops.push((p, Op::Unlock { uid }))?;
    }
    replies(alloc, ops.as_slice())
}

#[test]
fn mappings_take_the_lowest_runs_up_to_a_limit(rt: HostRuntime) -> Result<(), Fail> {
    let alloc = rt.alloc();
    for (rooms, place, expected) in MAPPINGS {
        let replies = map_rooms(alloc, rooms)?;
        let reply = replies.get(4 * place + 2).ok_or("no reply")?;
        assert!(rt; said(alloc, reply)?.as_str() == expected);
    }
    Ok(())
}
