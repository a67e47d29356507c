//! How the answers of commands on names are written.
ghost use Rattle.std.specs.Prelude.{◌≡◌, ◌++◌, ◌∷◌, [], codes, decimal, IfOk, OnOk};
ghost use Rattle.uid_names.specs.Modes.{mode_letter};
ghost use Rattle.uid_names.specs.Texts.{text_of as uid_text};
ghost use Rattle.aegis_shell.specs.Outcomes.{kind_text as text_of_kind, row_text, row_texts, node_texts, lock_text, lock_texts, stream_text as text_of_stream, result_text as text_of_result, found_text, entered_text, came_text as text_that_came, outcome_text as text_of_outcome};

use crate::answer::{answer_text, counted, loaded};
use crate::work::Work;
use crate::working::Working;
use command_talks::Outcome;
use dir_records::DirRow;
use dom_history::NodeNames;
use mapped_streams::StreamResult;
use naming_tree::{NameResult, Walked};
use node_texts::put_process;
use script_reader::Command;
use std::alloc::Global;
use uid_names::{ByteList, LockRow, NoMemory, ObjKind, Uid};

/// The word of a kind.
fn kind_text(kind: ObjKind) -> &'static [u8]
    ensures { result.now ≡ text_of_kind kind }
{
    match kind {
        ObjKind::File => b"file",
        ObjKind::Directory => b"dir",
        ObjKind::Link => b"link",
        ObjKind::Mail => b"mail",
    }
}

/// Puts a row of a directory behind a text.
fn put_row(text: &mut ByteList, row: &DirRow) -> Result<(), NoMemory>
    ensures { OnOk result (text.new ≡ text.old ++ row_text row.now) }
{
    text.extend(b" ")?;
    text.extend(row.name.bytes())?;
    text.extend(b":")?;
    text.extend(kind_text(row.kind))?;
    Ok(())
}

/// A directory's answer.
fn rows_text(alloc: Global, rows: &[DirRow]) -> Result<ByteList, NoMemory>
    ensures { IfOk result (λ text. text ≡ codes "ok" ++ row_texts rows.now) }
{
    let mut text = ByteList::from_slice(alloc, b"ok")?;
    for row in rows {
        put_row(&mut text, row)?;
    }
    Ok(text)
}

/// The answer of `//`.
fn nodes_text(alloc: Global, names: &[ByteList]) -> Result<ByteList, NoMemory>
    ensures { IfOk result (λ text. text ≡ codes "ok" ++ node_texts names.now) }
{
    let mut text = ByteList::from_slice(alloc, b"ok")?;
    for name in names {
        text.extend(b" ")?;
        text.extend(name.bytes())?;
        text.extend(b":node")?;
    }
    Ok(text)
}

/// Puts a lock behind a text.
fn put_lock(text: &mut ByteList, names: &NodeNames, row: &LockRow) -> Result<(), NoMemory>
    ensures { OnOk result (text.new ≡ text.old ++ lock_text names.now row.now) }
{
    text.extend(b" ")?;
    text.extend(row.uid.text().as_slice())?;
    text.extend(b"/")?;
    put_process(text, names, row.proc)?;
    text.extend(b"/")?;
    text.push(row.mode.letter())?;
    Ok(())
}

/// Puts locks behind a text.
pub fn put_locks(text: &mut ByteList, names: &NodeNames, rows: &[LockRow]) -> Result<(), NoMemory>
    ensures { OnOk result (text.new ≡ text.old ++ lock_texts names.now rows.now) }
{
    for row in rows {
        put_lock(text, names, row)?;
    }
    Ok(())
}

/// `ok`, and an object.
fn object_text(alloc: Global, uid: Uid) -> Result<ByteList, NoMemory>
    ensures { IfOk result (λ text. text ≡ codes "ok " ++ uid_text uid) }
{
    let mut text = ByteList::from_slice(alloc, b"ok ")?;
    text.extend(uid.text().as_slice())?;
    Ok(text)
}

/// `ok`, and the text of a directory.
pub fn directory_text(alloc: Global, directory: &[u8]) -> Result<ByteList, NoMemory>
    ensures { IfOk result (λ text. text ≡ codes "ok " ++ directory.now) }
{
    let mut text = ByteList::from_slice(alloc, b"ok ")?;
    text.extend(directory)?;
    Ok(text)
}

/// The answer of a `bind` whose path leads there.
fn bound_text(alloc: Global, found: &Walked) -> Result<ByteList, NoMemory>
    ensures { IfOk result (λ text. text ≡ found_text found.now) }
{
    match found {
        Walked::Root => ByteList::from_slice(alloc, b"is a directory"),
        Walked::At { uid, .. } => object_text(alloc, *uid),
    }
}

/// The answer of a `wd` whose path leads there; the directory's text is that.
fn working_text(alloc: Global, text: &ByteList, found: &Walked) -> Result<ByteList, NoMemory>
    ensures { IfOk result (λ answer. answer ≡ entered_text text.now found.now) }
{
    match found {
        Walked::At {
            kind: ObjKind::Directory,
            ..
        } => directory_text(alloc, text.bytes()),
        _ => ByteList::from_slice(alloc, b"not a directory"),
    }
}

/// The answer of a name that came to this, of which nothing more is asked.
fn result_text(alloc: Global, names: &NodeNames, come: &NameResult) -> Result<ByteList, NoMemory>
    ensures { IfOk result (λ text. text ≡ text_of_result names.now come.now) }
{
    let text: &[u8] = match come {
        NameResult::Rows(rows) => return rows_text(alloc, rows.items()),
        NameResult::Nodes => return nodes_text(alloc, names.items()),
        NameResult::Store(reply) => return answer_text(alloc, names, reply),
        NameResult::Found(_) | NameResult::Under(_) | NameResult::Added(_) | NameResult::Removed =>
            b"ok",
        NameResult::NoName => b"no name",
        NameResult::NameExists => b"name exists",
        NameResult::NotDir => b"not a directory",
        NameResult::IsDir => b"is a directory",
        NameResult::DirFull => b"directory full",
        NameResult::LinkLoop => b"link loop",
        NameResult::BadDir => b"bad directory",
    };
    ByteList::from_slice(alloc, text)
}

/// The answer of a command whose name came to this.
fn came_text(
    alloc: Global,
    work: &Work,
    working: &Working,
    command: &Command,
    come: &NameResult,
) -> Result<ByteList, NoMemory>
    ensures { IfOk result (λ text. text ≡ text_that_came work.now working.now command.now come.now) }
{
    if let NameResult::Found(found) = come {
        match command {
            Command::Bind { .. } => return bound_text(alloc, found),
            Command::Wd { path: Some(path) } => {
                let text = working.text_at(alloc, work, path.bytes())?;
                return working_text(alloc, &text, found);
            }
            _ => {}
        }
    }
    result_text(alloc, work.names(), come)
}

/// The answer of a command whose file came to this.
fn stream_text(alloc: Global, names: &NodeNames, come: &StreamResult) -> Result<ByteList, NoMemory>
    ensures { IfOk result (λ text. text ≡ text_of_stream names.now come.now) }
{
    match come {
        StreamResult::Bytes(bytes) => loaded(alloc, bytes.bytes()),
        StreamResult::Count(n) => counted(alloc, *n),
        StreamResult::Fine => ByteList::from_slice(alloc, b"ok"),
        StreamResult::Store(reply) => answer_text(alloc, names, reply),
    }
}

/// The answer of a command that has come to this.
pub fn outcome_text(
    alloc: Global,
    work: &Work,
    working: &Working,
    command: &Command,
    outcome: &Outcome,
) -> Result<ByteList, NoMemory>
    ensures { IfOk result (λ text. text ≡ text_of_outcome work.now working.now command.now outcome.now) }
{
    match outcome {
        Outcome::Replied(reply) => answer_text(alloc, work.names(), reply),
        Outcome::Came(come) => came_text(alloc, work, working, command, come),
        Outcome::Streamed(come) => stream_text(alloc, work.names(), come),
        Outcome::Written(text) => text.copy(alloc),
    }
}
