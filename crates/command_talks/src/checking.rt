//! How a command is checked behind its walk: the directory is read, and then its list.
ghost use Rattle.std.specs.Prelude.{◌≡◌, Some, codes, IfOk};
ghost use Rattle.std.specs.Option.{option_copied};
ghost use Rattle.dir_records.specs.Directories.{directory_of};
ghost use Rattle.mapped_streams.specs.Dialogues.{MayHear};
ghost use Rattle.mapped_streams.specs.States.{rest};
ghost use Rattle.command_talks.specs.Checks.{denied};
ghost use Rattle.command_talks.specs.FileTalks.{directory_turn, fails_turn, file_turn, guarded_turn, row_turn, slots_turn, text_turn, verdict_turn};
ghost use Rattle.command_talks.specs.FileTurns.{Asks};
ghost use Rattle.command_talks.specs.declared.file_talk.FileTalk.TheVariants.{LooksUp, ReadsList};

use crate::check::{Subject, Verdict, check_of, verdict_of, verdict_of_bad};
use crate::closing::close;
use crate::errand::Errand;
use crate::file_talk::{FileTalk, FileTurn, Pending};
use crate::outcome::Outcome;
use crate::seeking::sought;
use dir_records::{Component, DirFault, DirRow, Directory};
use dom_history::Reply;
use dom_text::put_decimal;
use mapped_streams::{Stream, StreamResult, StreamStep};
use naming_tree::NameResult;
use std::alloc::Global;
use uid_names::{ByteList, NoMemory, ObjKind};

/// A check has stopped a command: a source that is open is closed.
fn fails(errand: &Errand, outcome: Outcome) -> FileTurn
    ensures turn { Some result ≡ fails_turn errand.now outcome }
    ensures asks { Asks result }
{
    match errand {
        Errand::Fill(source) => close(source.again(), Some(outcome)),
        _ => FileTurn::Comes(outcome),
    }
}

/// The answer of a command that is denied.
fn denied_text(alloc: Global, number: u32) -> Result<ByteList, NoMemory>
    ensures { IfOk result (λ text. text ≡ denied number) }
{
    let mut text = ByteList::from_slice(alloc, b"denied ")?;
    put_decimal(&mut text, u64::from(number))?;
    Ok(text)
}

/// What a list says leads on.
fn on_verdict(alloc: Global, pending: Pending, verdict: Verdict) -> Result<FileTurn, NoMemory>
    ensures turn { IfOk result (λ turn. Some turn ≡ verdict_turn pending verdict) }
    ensures asks { IfOk result Asks }
{
    match verdict {
        Verdict::Passes => sought(alloc, pending.errand, pending.come),
        Verdict::IsBad => {
            let text = ByteList::from_slice(alloc, b"bad access list")?;
            Ok(fails(&pending.errand, Outcome::Written(text)))
        }
        Verdict::Denies(number) => {
            let text = denied_text(alloc, number)?;
            Ok(fails(&pending.errand, Outcome::Written(text)))
        }
    }
}

/// The list was read.
pub fn on_text(alloc: Global, pending: Pending, come: StreamResult) -> Result<FileTurn, NoMemory>
    ensures turn { IfOk result (λ turn. Some turn ≡ text_turn pending come) }
    ensures asks { IfOk result Asks }
{
    match come {
        StreamResult::Bytes(text) => {
            let verdict = verdict_of(alloc, &pending.who, &pending.check, text.bytes())?;
            on_verdict(alloc, pending, verdict)
        }
        StreamResult::Store(reply) => Ok(fails(
            &pending.errand,
            Outcome::Came(NameResult::Store(reply)),
        )),
        come => Ok(fails(&pending.errand, Outcome::Streamed(come))),
    }
}

/// The list of the directory was found, or there is none.
fn on_row(alloc: Global, pending: Pending, row: Option<DirRow>) -> Result<FileTurn, NoMemory>
    ensures turn { IfOk result (λ turn. Some turn ≡ row_turn pending row) }
    ensures asks { IfOk result Asks }
{
    let Some(row) = row else {
        return sought(alloc, pending.errand, pending.come);
    };
    match row.kind {
        ObjKind::File => read_through(alloc, Stream::read_all(alloc, row.uid), pending, None),
        _ => {
            let verdict = verdict_of_bad(pending.check.lenient);
            on_verdict(alloc, pending, verdict)
        }
    }
}

/// The name of the list.
fn list_name() -> Component
    ensures { result ≡ codes "acl$" }
{
    match Component::read(b"acl$") {
        Some(name) => name,
        None => unreachable!(),
    }
}

/// The list is looked for in this directory.
fn find_list(alloc: Global, pending: Pending, directory: &Directory) -> Result<FileTurn, NoMemory>
    ensures turn { IfOk result (λ turn. Some turn ≡ slots_turn pending (Some directory.now)) }
    ensures asks { IfOk result Asks }
{
    let row = directory.find(&list_name());
    on_row(alloc, pending, row)
}

/// These are the bytes of the directory.
fn on_slots(alloc: Global, pending: Pending, bytes: &[u8]) -> Result<FileTurn, NoMemory>
    ensures turn { IfOk result (λ turn. Some turn ≡ slots_turn pending (directory_of bytes.now)) }
    ensures asks { IfOk result Asks }
{
    match Directory::read(alloc, bytes) {
        Ok(directory) => find_list(alloc, pending, &directory),
        Err(DirFault::BadDir) => Ok(fails(&pending.errand, Outcome::Came(NameResult::BadDir))),
        Err(DirFault::NoMemory) => Err(NoMemory),
    }
}

/// The directory was read.
pub fn on_directory(
    alloc: Global,
    pending: Pending,
    come: StreamResult,
) -> Result<FileTurn, NoMemory>
    ensures turn { IfOk result (λ turn. Some turn ≡ directory_turn pending come) }
    ensures asks { IfOk result Asks }
{
    match come {
        StreamResult::Bytes(bytes) => on_slots(alloc, pending, bytes.bytes()),
        StreamResult::Store(reply) => Ok(fails(
            &pending.errand,
            Outcome::Came(NameResult::Store(reply)),
        )),
        come => Ok(fails(&pending.errand, Outcome::Streamed(come))),
    }
}

/// The directory of a check, as it is read.
pub fn look_up(
    alloc: Global,
    mut stream: Stream,
    pending: Pending,
    last: Option<&Reply>,
) -> Result<FileTurn, NoMemory>
    requires { MayHear (rest stream) (option_copied last) }
    ensures turn { IfOk result (λ turn. Some turn ≡ file_turn (LooksUp stream pending) (option_copied last.entry)) }
    ensures asks { IfOk result Asks }
{
    match stream.next(alloc, last)? {
        StreamStep::Do(op) => Ok(FileTurn::Goes(FileTalk::LooksUp(stream, pending), op)),
        StreamStep::Over(come) => on_directory(alloc, pending, come),
    }
}

/// Its list, as it is read.
pub fn read_through(
    alloc: Global,
    mut stream: Stream,
    pending: Pending,
    last: Option<&Reply>,
) -> Result<FileTurn, NoMemory>
    requires { MayHear (rest stream) (option_copied last) }
    ensures turn { IfOk result (λ turn. Some turn ≡ file_turn (ReadsList stream pending) (option_copied last.entry)) }
    ensures asks { IfOk result Asks }
{
    match stream.next(alloc, last)? {
        StreamStep::Do(op) => Ok(FileTurn::Goes(FileTalk::ReadsList(stream, pending), op)),
        StreamStep::Over(come) => on_text(alloc, pending, come),
    }
}

/// The walk along a command's path came to this. It is the one way on from each walk: the check, where there is one, and then what is
/// done behind it.
pub fn guarded(
    alloc: Global,
    guard: Option<Subject>,
    errand: Errand,
    come: NameResult,
) -> Result<FileTurn, NoMemory>
    ensures turn { IfOk result (λ turn. Some turn ≡ guarded_turn guard errand come) }
    ensures asks { IfOk result Asks }
{
    let Some(who) = guard else {
        return sought(alloc, errand, come);
    };
    let Some(check) = check_of(&errand, &come) else {
        return sought(alloc, errand, come);
    };
    let stream = Stream::read_all(alloc, check.dir);
    let pending = Pending {
        who,
        check,
        errand,
        come,
    };
    look_up(alloc, stream, pending, None)
}
