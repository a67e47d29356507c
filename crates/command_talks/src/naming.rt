//! How commands on names and files begin.
ghost use Rattle.std.specs.Prelude.{◌≡◌, true, false, None, Some, MatchOption, IfOk, IfSome, IsSome, unwrap_or};
ghost use Rattle.uid_names.specs.Rooms.{IsRoom};
ghost use Rattle.uid_names.specs.declared.mode.ObjKind.TheVariants.{Directory, File, Link, Mail};
ghost use Rattle.dir_records.specs.Paths.{route_of};
ghost use Rattle.mapped_streams.specs.Works.{IsText as IsStreamText};
ghost use Rattle.mail_box.specs.Boxes.{IsText as IsMessageText};
ghost use Rattle.command_talks.specs.Commands.{begun_at, talk_for, talks};
ghost use Rattle.command_talks.specs.Intentions.{object_for};
ghost use Rattle.command_talks.specs.Ranges.{IsRanged};
ghost use Rattle.command_talks.specs.Talks.{talk_in};
ghost use Rattle.command_talks.specs.declared.errand.Errand.TheVariants.{Append as AppendErrand, Copy as CopyErrand, Add as AddErrand, Put as PutErrand};

use crate::check::Subject;
use crate::errand::{Errand, Letter, NewObject, Target, Text};
use crate::file_talk::FileTalk;
use crate::reach::Reach;
use crate::talk::{Machine, Talk};
use dom_history::NodeNames;
use naming_tree::{Site, Walk};
use script_reader::Command;
use std::alloc::Global;
use uid_names::{ByteList, NoMemory, ObjKind, Uid};

/// The room of a file where a command says none, in pages.
const FILE_ROOM: u32 = 16;

/// The room of a directory, and that of a link.
const DIRECTORY_ROOM: u32 = 8;

const LINK_ROOM: u32 = 1;

/// That of a mailbox: its numbers, and 56 messages.
const MAIL_ROOM: u32 = 8;

/// A copy of a site, for a machine of its own.
fn copied(alloc: Global, site: &Site) -> Result<Site, NoMemory>
    ensures { IfOk result (λ copy. copy ≡ site.now) }
{
    // A node at least has a name, and no two have one.
    let _nodes = site.names.len();
    Ok(Site {
        own: site.own,
        names: NodeNames::from_list(alloc, site.names.items())?,
    })
}

/// A copy of who a process is, for a machine of its own.
fn copied_guard(alloc: Global, guard: &Option<Subject>) -> Result<Option<Subject>, NoMemory>
    ensures { IfOk result (λ copy. copy ≡ guard.now) }
{
    match guard {
        Some(who) => Ok(Some(who.copy(alloc)?)),
        None => Ok(None),
    }
}

/// The errand of a text that is put behind the bytes of a file.
#[inline(never)]
fn append_errand(alloc: Global, text: &ByteList) -> Result<Errand, NoMemory>
    requires { IsStreamText text.now }
    ensures { IfOk result (λ errand. errand ≡ AppendErrand text.now) }
{
    Ok(Errand::Append(Text::new(text.copy(alloc)?)))
}

/// The errand of a text that is put into a mailbox.
#[inline(never)]
fn put_errand(alloc: Global, text: &ByteList) -> Result<Errand, NoMemory>
    requires { IsMessageText text.now }
    ensures { IfOk result (λ errand. errand ≡ PutErrand text.now) }
{
    Ok(Errand::Put(Letter::new(text.copy(alloc)?)))
}

/// The errand of a copy to this path.
#[inline(never)]
fn copy_errand(
    alloc: Global,
    guard: &Option<Subject>,
    site: &Site,
    dir: Uid,
    target: &ByteList,
) -> Result<Errand, NoMemory>
    requires { IsSome (route_of target.now) }
    ensures { IfOk result (λ errand. errand ≡ CopyErrand (record { guard = guard.now; site = site.now; dir = dir; path = target.now })) }
{
    let guard = copied_guard(alloc, guard)?;
    let site = copied(alloc, site)?;
    Ok(Errand::Copy(Target::new(guard, site, dir, target.copy(alloc)?)))
}

/// The errand of a file that is made; where no room is said it is that of a file.
#[tactic(auto, using(crate::proofs::Begun::room_or))]
fn file_errand(room: Option<u32>) -> Errand
    requires { IfSome room IsRoom }
    ensures { result ≡ AddErrand (object_for File (unwrap_or room 16) None) }
{
    let room = room.unwrap_or(FILE_ROOM);
    Errand::Add(NewObject::new(ObjKind::File, room, None))
}

/// The errand of a directory that is made.
fn directory_errand() -> Errand
    ensures { result ≡ AddErrand (object_for Directory 8 None) }
{
    let kind = ObjKind::Directory;
    Errand::Add(NewObject::new(kind, DIRECTORY_ROOM, None))
}

/// The errand of a mailbox that is made.
fn mail_errand() -> Errand
    ensures { result ≡ AddErrand (object_for Mail 8 None) }
{
    Errand::Add(NewObject::new(ObjKind::Mail, MAIL_ROOM, None))
}

/// The errand of a link that is made, which stands for a path.
fn link_errand(alloc: Global, target: &ByteList) -> Result<Errand, NoMemory>
    requires { IsSome (route_of target.now) }
    ensures { IfOk result (λ errand. errand ≡ AddErrand (object_for Link 1 (Some target.now))) }
{
    let text = Some(target.copy(alloc)?);
    Ok(Errand::Add(NewObject::new(ObjKind::Link, LINK_ROOM, text)))
}

/// The walk of an errand along a path, before its first turn.
fn walk_for(
    alloc: Global,
    guard: Option<Subject>,
    site: Site,
    dir: Uid,
    path: &[u8],
    errand: Errand,
) -> Result<FileTalk, NoMemory>
    requires { IsSome (route_of path.now) }
    ensures { IfOk result (λ talk. talk ≡ begun_at guard site dir path.now errand) }
{
    match errand.purpose() {
        None => {
            let walk = Walk::new(alloc, site, path, dir, true)?;
            Ok(FileTalk::Seeks(walk, errand, guard))
        }
        Some(purpose) => {
            let walk = Reach::new(alloc, site, path, dir, purpose)?;
            Ok(FileTalk::Reaches(walk, errand, guard))
        }
    }
}

/// The machine of an errand behind the walk along a path.
#[inline(never)]
fn begin(
    alloc: Global,
    guard: &Option<Subject>,
    site: &Site,
    dir: Uid,
    path: &ByteList,
    errand: Errand,
) -> Result<Machine, NoMemory>
    requires { IsSome (route_of path.now) }
    ensures { IfOk result (λ machine. machine ≡ talk_in (Some (begun_at guard.now site.now dir path.now errand))) }
{
    let guard = copied_guard(alloc, guard)?;
    let site = copied(alloc, site)?;
    let talk = walk_for(alloc, guard, site, dir, path.bytes(), errand)?;
    Machine::new(alloc, Talk { at: Some(talk) })
}

/// The machine of a command, before its first turn; None for a command that has none. A process with a subject is checked.
pub fn machine_for(
    alloc: Global,
    guard: &Option<Subject>,
    site: &Site,
    dir: Uid,
    command: &Command,
) -> Result<Option<Machine>, NoMemory>
    requires { IsRanged command.now }
    ensures { IfOk result (λ found. MatchOption found (talks command.now ≡ false) (λ talk. (talks command.now ≡ true) × (talk ≡ talk_for guard.now site.now dir command.now))) }
{
    match command {
        Command::Bind { var: _, path } => Ok(Some(begin(
            alloc,
            guard,
            site,
            dir,
            path,
            Errand::Bind,
        )?)),
        Command::Crf { path, room } => {
            let errand = file_errand(*room);
            Ok(Some(begin(alloc, guard, site, dir, path, errand)?))
        }
        Command::Crd { path } => Ok(Some(begin(
            alloc,
            guard,
            site,
            dir,
            path,
            directory_errand(),
        )?)),
        Command::Crl { path, target } => {
            let errand = link_errand(alloc, target)?;
            Ok(Some(begin(alloc, guard, site, dir, path, errand)?))
        }
        Command::Dlf { path } => Ok(Some(begin(alloc, guard, site, dir, path, Errand::Remove)?)),
        Command::Catf { path } => Ok(Some(begin(alloc, guard, site, dir, path, Errand::Read)?)),
        Command::Lnf { path } => Ok(Some(begin(alloc, guard, site, dir, path, Errand::Count)?)),
        Command::Apf { path, text } => {
            let errand = append_errand(alloc, text)?;
            Ok(Some(begin(alloc, guard, site, dir, path, errand)?))
        }
        Command::Cpf { path, target } => {
            let errand = copy_errand(alloc, guard, site, dir, target)?;
            Ok(Some(begin(alloc, guard, site, dir, path, errand)?))
        }
        Command::Crm { path } => Ok(Some(begin(alloc, guard, site, dir, path, mail_errand())?)),
        Command::Putm { path, text } => {
            let errand = put_errand(alloc, text)?;
            Ok(Some(begin(alloc, guard, site, dir, path, errand)?))
        }
        Command::Takem { path } => Ok(Some(begin(alloc, guard, site, dir, path, Errand::Take)?)),
        Command::Ld { path } => Ok(Some(begin(alloc, guard, site, dir, path, Errand::List)?)),
        Command::Wd { path } => match path {
            Some(path) => Ok(Some(begin(alloc, guard, site, dir, path, Errand::Enter)?)),
            None => Ok(None),
        },
        _ => Ok(None),
    }
}
