use std::alloc::Global;
use std::test::Fail;
use uid_names::{
    ByteList, ENTRY_ROOM, FrameKind, ItemList, LockRow, LockRows, MAX_ROOM, Mode, NoMemory, NodeId,
    ObjKind, Object, Opening, ProcId, Uid, UidRow, UidSource, UidTable, clash, segments,
};

fn node(number: u8) -> Result<NodeId, Fail> {
    Ok(NodeId::new(number).ok_or("no such node")?)
}

fn proc(node_number: u8, number: u8) -> Result<ProcId, Fail> {
    let node = node(node_number)?;
    Ok(ProcId::new(node, number).ok_or("no such process")?)
}

#[test]
fn names_are_given_once_and_read_again(rt: HostRuntime) -> Result<(), Fail> {
    let mut source = UidSource::new(node(1)?);
    let _directory = source.next();
    let first = source.next();
    assert!(rt; first.number() == 0x20_0001);
    assert!(rt; first.text() == *b"0000000000200001");
    assert!(rt; Uid::read(b"0000000000200001") == Ok(first));
    let second = source.next();
    assert!(rt; second.number() == 0x30_0001);
    assert!(rt; first.is_below(second));
    Ok(())
}

/// Texts that name no object.
const NO_NAMES: [&[u8]; 8] = [
    b"",
    b"000000000020000",
    b"00000000002000011",
    b"0000000000000001",
    b"0000000000200000",
    b"0000000000200009",
    b"0000000000A00001",
    b"0000000000g00001",
];

#[test]
fn texts_that_name_no_object_are_refused(rt: HostRuntime) {
    for text in NO_NAMES {
        assert!(rt; Uid::read(text).is_err());
    }
    assert!(rt; Uid::read(b"0000000000a00001").is_ok());
}

/// Modes of a process and of another, the number of the other's node, and whether they conflict.
const CLASHES: [(Mode, Mode, u8, bool); 8] = [
    (Mode::Read, Mode::Read, 2, false),
    (Mode::Read, Mode::Write, 2, true),
    (Mode::Write, Mode::Read, 2, true),
    (Mode::Write, Mode::Write, 2, true),
    (Mode::CoWrite, Mode::CoWrite, 1, false),
    (Mode::CoWrite, Mode::CoWrite, 2, true),
    (Mode::CoWrite, Mode::Read, 1, true),
    (Mode::Write, Mode::CoWrite, 1, true),
];

#[test]
fn modes_conflict_unless_both_read_or_co_write_at_one_node(rt: HostRuntime) -> Result<(), Fail> {
    let p = proc(1, 1)?;
    for (held, asked, other, expected) in CLASHES {
        let q = proc(other, 2)?;
        assert!(rt; clash(p, held, q, asked) == expected);
    }
    Ok(())
}

#[test]
fn modes_have_letters_and_codes(rt: HostRuntime) {
    for (letter, mode) in [
        (b'w', Some(Mode::Write)),
        (b'c', Some(Mode::CoWrite)),
        (b'R', None),
    ] {
        assert!(rt; Mode::from_letter(letter) == mode);
    }
    for (code, mode) in [
        (1, Some(Mode::Read)),
        (3, Some(Mode::CoWrite)),
        (4, None),
        (0, None),
    ] {
        assert!(rt; Mode::from_code(code) == mode);
    }
}

#[test]
fn kinds_of_objects_have_codes(rt: HostRuntime) {
    let mail = ObjKind::Mail;
    for (code, kind) in [(mail.code(), Some(mail)), (0, None), (5, None)] {
        assert!(rt; ObjKind::from_code(code) == kind);
    }
}

/// Kinds of frames: their numbers and names, and whether they are requests.
const KINDS: [(u8, &str, bool); 5] = [
    (1, "page-in", true),
    (8, "list", true),
    (129, "page", false),
    (132, "no-grant", false),
    (139, "listed", false),
];

fn is_kind(found: Option<FrameKind>, number: u8, is_request: bool) -> bool {
    match found {
        Some(kind) => kind.number() == number && kind.is_request() == is_request,
        None => false,
    }
}

#[test]
fn kinds_of_frames_have_their_numbers_and_names(rt: HostRuntime) {
    for (number, name, is_request) in KINDS {
        let kind = FrameKind::from_number(number);
        assert!(rt; kind == FrameKind::from_name(name.as_bytes()));
        assert!(rt; is_kind(kind, number, is_request));
    }
}

#[test]
fn other_numbers_and_names_are_no_kinds_of_frames(rt: HostRuntime) {
    for number in [9, 140] {
        assert!(rt; FrameKind::from_number(number).is_none());
    }
    assert!(rt; FrameKind::from_name(b"page-in ").is_none());
}

#[test]
fn an_opening_has_its_objects(rt: HostRuntime) -> Result<(), Fail> {
    let mut opening = Opening::new(rt.alloc(), 2, MAX_ROOM);
    let home = node(1)?;
    assert!(rt; home.number() <= 2);
    let uid = Uid::from_parts(2, home);
    opening.add(uid, ObjKind::File, 3)?;
    let copy = opening.copy(rt.alloc())?;
    let object = Object {
        uid,
        kind: ObjKind::File,
        room: 3,
    };
    assert!(rt; copy.objects() == [object].as_slice());
    Ok(())
}

#[test]
fn rooms_take_whole_segments(rt: HostRuntime) -> Result<(), Fail> {
    assert!(rt; segments(1) == 1);
    assert!(rt; segments(32) == 1);
    assert!(rt; segments(33) == 2);
    assert!(rt; segments(MAX_ROOM) == 128);
    let entry = Object::entry_directory(node(3)?);
    assert!(rt; entry.uid.number() == 0x10_0003);
    assert!(rt; entry.room == ENTRY_ROOM);
    Ok(())
}

/// The bytes a to e, put into a list in three ways.
fn five_bytes(alloc: Global) -> Result<ByteList, NoMemory> {
    let mut bytes = ByteList::with_capacity(alloc, 5)?;
    put_all(&mut bytes, ByteList::from_slice(alloc, b"ab")?.bytes())?;
    Ok(bytes)
}

fn put_all(bytes: &mut ByteList, first: &[u8]) -> Result<(), NoMemory> {
    bytes.extend(first)?;
    bytes.push(b'c')?;
    bytes.extend(b"de")
}

#[test]
fn lists_keep_what_is_pushed(rt: HostRuntime) -> Result<(), Fail> {
    let bytes = five_bytes(rt.alloc())?.copy(rt.alloc())?;
    assert!(rt; bytes.bytes() == b"abcde".as_slice());
    Ok(())
}

fn lock_row() -> Result<LockRow, Fail> {
    Ok(LockRow {
        uid: Uid::from_parts(2, node(1)?),
        proc: proc(1, 4)?,
        mode: Mode::Read,
    })
}

#[test]
fn a_lock_has_its_place_and_conflicts(rt: HostRuntime) -> Result<(), Fail> {
    let row = lock_row()?;
    let other = proc(2, 1)?;
    assert!(rt; row.is_of(row.proc, row.uid));
    assert!(rt; row.is_before(row.uid, other) && row.is_after(row.uid, proc(1, 3)?));
    assert!(rt; row.conflicts(other, Mode::Write) && !row.conflicts(row.proc, Mode::Write));
    Ok(())
}

/// A list of one row, copied.
fn one_row(alloc: Global, row: LockRow) -> Result<LockRows, NoMemory> {
    let mut rows = LockRows::new(alloc);
    rows.push(row)?;
    rows.copy(alloc)
}

#[test]
fn lists_keep_their_rows(rt: HostRuntime) -> Result<(), Fail> {
    let row = lock_row()?;
    let list = ItemList::from_vec(vec![in rt.alloc(); row]?);
    assert!(rt; list.items() == [row].as_slice());
    let rows = one_row(rt.alloc(), row)?;
    assert!(rt; rows.items() == [row].as_slice());
    Ok(())
}

/// A row of a table: an object's stamp, say.
#[derive(Clone, Copy)]
struct Row {
    uid: Uid,
    stamp: u64,
}

impl UidRow for Row {
    ghost use Rattle.test_words.specs.declared.names.Row.{Row};

    ghost name = { λ row. row.uid };

    fn uid(&self) -> Uid {
        self.uid
    }
}

/// The row of an object has this stamp.
fn has_stamp(table: &UidTable<Row>, uid: Uid, stamp: u64) -> bool {
    match table.of(uid) {
        Some(row) => row.uid == uid && row.stamp == stamp,
        None => false,
    }
}

/// Puts rows of these objects into a table in turn.
fn set_all(table: &mut UidTable<Row>, rows: &[(Uid, u64)]) -> Result<(), NoMemory> {
    for (uid, stamp) in rows {
        table.set(Row {
            uid: *uid,
            stamp: *stamp,
        })?;
    }
    Ok(())
}

#[test]
fn a_table_has_one_row_of_each_object(rt: HostRuntime) -> Result<(), Fail> {
    let home = node(1)?;
    let first = Uid::from_parts(2, home);
    let second = Uid::from_parts(4, home);
    let mut table = UidTable::new(rt.alloc());
    set_all(&mut table, &[(second, 8), (first, 6), (second, 9)])?;
    assert!(rt; has_stamp(&table, second, 9));
    if table.of(first).is_some() {
        table.replace(Row {
            uid: first,
            stamp: 7,
        });
    }
    assert!(rt; has_stamp(&table, first, 7));
    table.forget(second);
    assert!(rt; table.of(second).is_none());
    Ok(())
}
