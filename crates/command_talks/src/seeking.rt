//! How commands walk along their paths, and what they do behind that.
ghost use Rattle.std.specs.Prelude.{◌≡◌, Some, IfOk, IsSome};
ghost use Rattle.std.specs.Option.{option_copied};
ghost use Rattle.naming_tree.specs.Turns.{FitsStood};
ghost use Rattle.naming_tree.specs.ByPaths.{by_path_asks};
ghost use Rattle.naming_tree.specs.Changing.{changing_asks};
ghost use Rattle.naming_tree.specs.ListsAt.{listing_asks};
ghost use Rattle.command_talks.specs.FileTalks.{add_turn, append_turn, copy_turn, count_turn, file_sought, file_turn, list_sought, mail_sought, place_sought, put_turn, read_turn, remove_turn, sought_turn, take_turn, MayHearFile};
ghost use Rattle.command_talks.specs.FileTurns.{Asks, IsApart};
ghost use Rattle.command_talks.specs.declared.file_talk.FileTalk.TheVariants.{Changes, Lists, Mails, Reaches};
ghost use Rattle.mail_box.specs.Dialogues.{MayHear as MayHearMail};
ghost use Rattle.mail_box.specs.States.{rest as mail_rest};

use crate::arriving::{Arrival, directory_in, file_in, mail_in};
use crate::check::Subject;
use crate::checking::guarded;
use crate::closing::closed;
use crate::copying::{begin_open, fill, open};
use crate::errand::{Errand, Letter, NewObject, Target, Text};
use crate::file_talk::{FileTalk, FileTurn};
use crate::mailed::mail_over;
use crate::outcome::Outcome;
use crate::reach::Reach;
use crate::source::Source;
use crate::streaming::turned;
use dom_history::Reply;
use mail_box::{Mail, MailStep};
use mapped_streams::Stream;
use naming_tree::{ChangeAt, ListAt, NameResult, NameStep};
use std::alloc::Global;
use uid_names::{NoMemory, Uid};

/// A file is read whole.
fn begin_read(alloc: Global, uid: Uid) -> Result<FileTurn, NoMemory>
    ensures turn { IfOk result (λ turn. Some turn ≡ read_turn uid) }
    ensures asks { IfOk result Asks }
{
    let mut machine = Stream::read_all(alloc, uid);
    let step = machine.next(alloc, None)?;
    Ok(turned(FileTalk::Reads(machine), step))
}

/// Its lines are counted.
fn begin_count(alloc: Global, uid: Uid) -> Result<FileTurn, NoMemory>
    ensures turn { IfOk result (λ turn. Some turn ≡ count_turn uid) }
    ensures asks { IfOk result Asks }
{
    let mut machine = Stream::count_lines(uid);
    let step = machine.next(alloc, None)?;
    Ok(turned(FileTalk::Counts(machine), step))
}

/// A text is put behind its bytes.
fn begin_append(alloc: Global, uid: Uid, text: &Text) -> Result<FileTurn, NoMemory>
    ensures turn { IfOk result (λ turn. Some turn ≡ append_turn text.now uid) }
    ensures asks { IfOk result Asks }
{
    let mut machine = Stream::append(alloc, uid, text.bytes())?;
    let step = machine.next(alloc, None)?;
    Ok(turned(FileTalk::Appends(machine), step))
}

/// A mailbox whose machine goes on.
fn mail_on(alloc: Global, mut machine: Mail, last: Option<&Reply>) -> Result<FileTurn, NoMemory>
    requires { MayHearMail (mail_rest machine) (option_copied last) }
    ensures turn { IfOk result (λ turn. Some turn ≡ file_turn (Mails machine) (option_copied last.entry)) }
    ensures asks { IfOk result Asks }
{
    match machine.next(alloc, last)? {
        MailStep::Do(op) => Ok(FileTurn::Goes(FileTalk::Mails(machine), op)),
        MailStep::Over(come) => mail_over(alloc, come),
    }
}

/// A text is put into a mailbox.
fn begin_put(alloc: Global, uid: Uid, text: &Letter) -> Result<FileTurn, NoMemory>
    ensures turn { IfOk result (λ turn. Some turn ≡ put_turn text.now uid) }
    ensures asks { IfOk result Asks }
{
    let machine = Mail::put(alloc, uid, text.bytes())?;
    mail_on(alloc, machine, None)
}

/// The first is taken out of it.
fn begin_take(alloc: Global, uid: Uid) -> Result<FileTurn, NoMemory>
    ensures turn { IfOk result (λ turn. Some turn ≡ take_turn uid) }
    ensures asks { IfOk result Asks }
{
    mail_on(alloc, Mail::take(alloc, uid), None)
}

/// A directory that is listed.
fn list(alloc: Global, mut machine: ListAt, last: Option<&Reply>) -> Result<FileTurn, NoMemory>
    requires still { IsSome machine }
    requires fits { FitsStood listing_asks machine (option_copied last) }
    ensures turn { IfOk result (λ turn. Some turn ≡ file_turn (Lists machine) (option_copied last.entry)) }
    ensures asks { IfOk result Asks }
{
    match machine.next(alloc, last)? {
        NameStep::Do(op) => Ok(FileTurn::Goes(FileTalk::Lists(machine), op)),
        NameStep::Over(come) => Ok(FileTurn::Comes(Outcome::Came(come))),
    }
}

/// One that is changed.
fn change(alloc: Global, mut machine: ChangeAt, last: Option<&Reply>) -> Result<FileTurn, NoMemory>
    requires still { IsSome machine }
    requires fits { FitsStood changing_asks machine (option_copied last) }
    ensures turn { IfOk result (λ turn. Some turn ≡ file_turn (Changes machine) (option_copied last.entry)) }
    ensures asks { IfOk result Asks }
{
    match machine.next(alloc, last)? {
        NameStep::Do(op) => Ok(FileTurn::Goes(FileTalk::Changes(machine), op)),
        NameStep::Over(come) => Ok(FileTurn::Comes(Outcome::Came(come))),
    }
}

/// The walk came to this: a directory is listed.
fn list_found(alloc: Global, come: NameResult) -> Result<FileTurn, NoMemory>
    ensures turn { IfOk result (λ turn. Some turn ≡ list_sought come) }
    ensures asks { IfOk result Asks }
{
    match directory_in(come) {
        Arrival::There(dir) => list(alloc, ListAt::new(alloc, dir), None),
        Arrival::Else(outcome) => Ok(FileTurn::Comes(outcome)),
    }
}

/// A file is read whole.
fn read_found(alloc: Global, come: NameResult) -> Result<FileTurn, NoMemory>
    ensures turn { IfOk result (λ turn. Some turn ≡ file_sought read_turn come) }
    ensures asks { IfOk result Asks }
{
    match file_in(alloc, come)? {
        Arrival::There(uid) => begin_read(alloc, uid),
        Arrival::Else(outcome) => Ok(FileTurn::Comes(outcome)),
    }
}

/// Its lines are counted.
fn count_found(alloc: Global, come: NameResult) -> Result<FileTurn, NoMemory>
    ensures turn { IfOk result (λ turn. Some turn ≡ file_sought count_turn come) }
    ensures asks { IfOk result Asks }
{
    match file_in(alloc, come)? {
        Arrival::There(uid) => begin_count(alloc, uid),
        Arrival::Else(outcome) => Ok(FileTurn::Comes(outcome)),
    }
}

/// A text is put behind its bytes.
fn append_found(alloc: Global, text: &Text, come: NameResult) -> Result<FileTurn, NoMemory>
    ensures turn { IfOk result (λ turn. Some turn ≡ file_sought (append_turn text.now) come) }
    ensures asks { IfOk result Asks }
{
    match file_in(alloc, come)? {
        Arrival::There(uid) => begin_append(alloc, uid, text),
        Arrival::Else(outcome) => Ok(FileTurn::Comes(outcome)),
    }
}

/// A text is put into a mailbox.
fn put_found(alloc: Global, text: &Letter, come: NameResult) -> Result<FileTurn, NoMemory>
    ensures turn { IfOk result (λ turn. Some turn ≡ mail_sought (put_turn text.now) come) }
    ensures asks { IfOk result Asks }
{
    match mail_in(alloc, come)? {
        Arrival::There(uid) => begin_put(alloc, uid, text),
        Arrival::Else(outcome) => Ok(FileTurn::Comes(outcome)),
    }
}

/// The first is taken out of it.
fn take_found(alloc: Global, come: NameResult) -> Result<FileTurn, NoMemory>
    ensures turn { IfOk result (λ turn. Some turn ≡ mail_sought take_turn come) }
    ensures asks { IfOk result Asks }
{
    match mail_in(alloc, come)? {
        Arrival::There(uid) => begin_take(alloc, uid),
        Arrival::Else(outcome) => Ok(FileTurn::Comes(outcome)),
    }
}

/// It is copied.
fn copy_found(alloc: Global, target: Target, come: NameResult) -> Result<FileTurn, NoMemory>
    ensures turn { IfOk result (λ turn. Some turn ≡ file_sought (copy_turn target) come) }
    ensures asks { IfOk result Asks }
{
    match file_in(alloc, come)? {
        Arrival::There(uid) => Ok(begin_open(Source::new(uid), target)),
        Arrival::Else(outcome) => Ok(FileTurn::Comes(outcome)),
    }
}

/// The last name of the path is added.
fn add_found(alloc: Global, what: NewObject, come: NameResult) -> Result<FileTurn, NoMemory>
    ensures turn { IfOk result (λ turn. Some turn ≡ place_sought (add_turn what) come) }
    ensures asks { IfOk result Asks }
{
    match &come {
        NameResult::Under(place) => change(alloc, what.add_at(alloc, place), None),
        _ => Ok(FileTurn::Comes(Outcome::Came(come))),
    }
}

/// It is removed.
fn remove_found(alloc: Global, come: NameResult) -> Result<FileTurn, NoMemory>
    ensures turn { IfOk result (λ turn. Some turn ≡ place_sought remove_turn come) }
    ensures asks { IfOk result Asks }
{
    match &come {
        NameResult::Under(place) => {
            change(alloc, ChangeAt::remove(alloc, place.dir, place.name), None)
        }
        _ => Ok(FileTurn::Comes(Outcome::Came(come))),
    }
}

/// The walk along a command's path came to this, and no check stopped it: what is done behind it begins.
#[inline(never)]
pub fn sought(alloc: Global, errand: Errand, come: NameResult) -> Result<FileTurn, NoMemory>
    ensures turn { IfOk result (λ turn. Some turn ≡ sought_turn errand come) }
    ensures asks { IfOk result Asks }
{
    match errand {
        Errand::Bind | Errand::Enter => Ok(FileTurn::Comes(Outcome::Came(come))),
        Errand::List => list_found(alloc, come),
        Errand::Read => read_found(alloc, come),
        Errand::Count => count_found(alloc, come),
        Errand::Append(text) => append_found(alloc, &text, come),
        Errand::Put(text) => put_found(alloc, &text, come),
        Errand::Take => take_found(alloc, come),
        Errand::Copy(target) => copy_found(alloc, target, come),
        Errand::Add(what) => add_found(alloc, what, come),
        Errand::Remove => remove_found(alloc, come),
        Errand::Fill(source) => fill(alloc, source, come),
    }
}

/// One that is walked along to the directory of its last name.
pub fn reach(
    alloc: Global,
    mut walk: Reach,
    errand: Errand,
    guard: Option<Subject>,
    last: Option<&Reply>,
) -> Result<FileTurn, NoMemory>
    requires still { IsSome walk }
    requires fits { FitsStood by_path_asks walk (option_copied last) }
    ensures turn { IfOk result (λ turn. Some turn ≡ file_turn (Reaches walk errand guard) (option_copied last.entry)) }
    ensures asks { IfOk result Asks }
{
    match walk.next(alloc, last)? {
        NameStep::Do(op) => Ok(FileTurn::Goes(FileTalk::Reaches(walk, errand, guard), op)),
        NameStep::Over(come) => guarded(alloc, guard, errand, come),
    }
}

impl FileTalk {
    /// Tells it the reply to its operation, where it drives nothing: a source is opened or closed.
    pub fn turn(self, alloc: Global, last: Option<&Reply>) -> Result<FileTurn, NoMemory>
        requires fits { MayHearFile self (option_copied last) }
        requires apart { IsApart self }
        ensures turn { IfOk result (λ turn. Some turn ≡ file_turn self (option_copied last.entry)) }
        ensures asks { IfOk result Asks }
    {
        match self {
            FileTalk::Opens(source, stage, target) => open(alloc, source, stage, target, last),
            FileTalk::Closes(source, outcome) => closed(alloc, source, outcome, last),
            _ => unreachable!(),
        }
    }
}
