//! How what a command drives is told a reply where it stands: a machine is large, and is not moved for each operation.
ghost use Rattle.std.specs.Prelude.{◌≡◌, Some, IfOk, OnOk, IsSome};
ghost use Rattle.std.specs.Option.{option_copied};
ghost use Rattle.naming_tree.specs.ByPaths.{by_path_after, by_path_asks};
ghost use Rattle.naming_tree.specs.Changing.{changing_after, changing_asks};
ghost use Rattle.naming_tree.specs.ListsAt.{listing_after, listing_asks};
ghost use Rattle.naming_tree.specs.Turns.{FitsStood, stood_after, stood_says};
ghost use Rattle.naming_tree.specs.Walking.{walking_after, walking_asks};
ghost use Rattle.mapped_streams.specs.Dialogues.{MayHear, said_to};
ghost use Rattle.mapped_streams.specs.States.{rest};
ghost use Rattle.mapped_streams.specs.Turns.{stood_after as stream_after};
ghost use Rattle.mail_box.specs.Dialogues.{MayHear as MayHearMail, said_to as mail_said_to};
ghost use Rattle.mail_box.specs.States.{rest as mail_rest};
ghost use Rattle.mail_box.specs.Turns.{stood_after as mail_after};
ghost use Rattle.command_talks.specs.FileTalks.{asked_at, mail_asks, stream_asks, MayHearFile};
ghost use Rattle.command_talks.specs.FileTurns.{come_as, file_after, file_says, AsksOne, AsksSaid};
ghost use Rattle.command_talks.specs.declared.come.Come.TheVariants.{Mailed, Named, Streamed};

use crate::come::Come;
use crate::file_talk::FileTalk;
use crate::reach::Reach;
use dom_history::Reply;
use mail_box::{Mail, MailStep};
use mapped_streams::{Stream, StreamStep};
use naming_tree::{ChangeAt, ListAt, NameStep, Step, Walk};
use std::alloc::Global;
use uid_names::NoMemory;

/// What a command drives asks an operation, or has come to something.
pub type ComeStep = Step<Come>;

/// What a machine of a name says.
fn of_name(step: NameStep) -> Option<ComeStep>
    ensures { result ≡ come_as Named (Some step) }
{
    match step {
        NameStep::Do(op) => Some(ComeStep::Do(op)),
        NameStep::Over(come) => Some(ComeStep::Over(Come::Named(come))),
    }
}

/// A path that is walked along to its end.
#[inline(never)]
fn tell_walk(
    alloc: Global,
    walk: &mut Walk,
    last: Option<&Reply>,
) -> Result<Option<ComeStep>, NoMemory>
    requires still { IsSome walk.old }
    requires fits { FitsStood walking_asks walk.old (option_copied last) }
    ensures after { OnOk result (walk.new ≡ stood_after walking_after walk.old (option_copied last.entry)) }
    ensures says { IfOk result (λ said. said ≡ come_as Named (stood_says walking_asks walking_after walk.old (option_copied last.entry))) }
    ensures asks { IfOk result (AsksOne (asked_at walking_asks walk.new)) }
{
    Ok(of_name(walk.next(alloc, last)?))
}

/// One that is walked along to the directory of its last name.
#[inline(never)]
fn tell_reach(
    alloc: Global,
    walk: &mut Reach,
    last: Option<&Reply>,
) -> Result<Option<ComeStep>, NoMemory>
    requires still { IsSome walk.old }
    requires fits { FitsStood by_path_asks walk.old (option_copied last) }
    ensures after { OnOk result (walk.new ≡ stood_after by_path_after walk.old (option_copied last.entry)) }
    ensures says { IfOk result (λ said. said ≡ come_as Named (stood_says by_path_asks by_path_after walk.old (option_copied last.entry))) }
    ensures asks { IfOk result (AsksOne (asked_at by_path_asks walk.new)) }
{
    Ok(of_name(walk.next(alloc, last)?))
}

/// A directory that is listed.
#[inline(never)]
fn tell_list(
    alloc: Global,
    list: &mut ListAt,
    last: Option<&Reply>,
) -> Result<Option<ComeStep>, NoMemory>
    requires still { IsSome list.old }
    requires fits { FitsStood listing_asks list.old (option_copied last) }
    ensures after { OnOk result (list.new ≡ stood_after listing_after list.old (option_copied last.entry)) }
    ensures says { IfOk result (λ said. said ≡ come_as Named (stood_says listing_asks listing_after list.old (option_copied last.entry))) }
    ensures asks { IfOk result (AsksOne (asked_at listing_asks list.new)) }
{
    Ok(of_name(list.next(alloc, last)?))
}

/// One that is changed.
#[inline(never)]
fn tell_change(
    alloc: Global,
    change: &mut ChangeAt,
    last: Option<&Reply>,
) -> Result<Option<ComeStep>, NoMemory>
    requires still { IsSome change.old }
    requires fits { FitsStood changing_asks change.old (option_copied last) }
    ensures after { OnOk result (change.new ≡ stood_after changing_after change.old (option_copied last.entry)) }
    ensures says { IfOk result (λ said. said ≡ come_as Named (stood_says changing_asks changing_after change.old (option_copied last.entry))) }
    ensures asks { IfOk result (AsksOne (asked_at changing_asks change.new)) }
{
    Ok(of_name(change.next(alloc, last)?))
}

/// Bytes that are read, counted, appended or copied.
#[inline(never)]
fn tell_stream(
    alloc: Global,
    stream: &mut Stream,
    last: Option<&Reply>,
) -> Result<Option<ComeStep>, NoMemory>
    requires { MayHear (rest stream.old) (option_copied last) }
    ensures after { OnOk result (stream.new ≡ stream_after stream.old (option_copied last.entry)) }
    ensures says { IfOk result (λ said. said ≡ come_as Streamed (said_to (rest stream.old) (option_copied last.entry))) }
    ensures asks { IfOk result (AsksOne (stream_asks stream.new)) }
{
    match stream.next(alloc, last)? {
        StreamStep::Do(op) => Ok(Some(ComeStep::Do(op))),
        StreamStep::Over(come) => Ok(Some(ComeStep::Over(Come::Streamed(come)))),
    }
}

/// A mailbox.
#[inline(never)]
fn tell_mail(
    alloc: Global,
    mail: &mut Mail,
    last: Option<&Reply>,
) -> Result<Option<ComeStep>, NoMemory>
    requires { MayHearMail (mail_rest mail.old) (option_copied last) }
    ensures after { OnOk result (mail.new ≡ mail_after mail.old (option_copied last.entry)) }
    ensures says { IfOk result (λ said. said ≡ come_as Mailed (mail_said_to (mail_rest mail.old) (option_copied last.entry))) }
    ensures asks { IfOk result (AsksOne (mail_asks mail.new)) }
{
    match mail.next(alloc, last)? {
        MailStep::Do(op) => Ok(Some(ComeStep::Do(op))),
        MailStep::Over(come) => Ok(Some(ComeStep::Over(Come::Mailed(come)))),
    }
}

impl FileTalk {
    /// Tells what it drives the reply to its operation, or nothing at the first call. None where it drives nothing.
    pub fn tell(
        &mut self,
        alloc: Global,
        last: Option<&Reply>,
    ) -> Result<Option<ComeStep>, NoMemory>
        requires { MayHearFile self.old (option_copied last) }
        ensures after { OnOk result (self.new ≡ file_after self.old (option_copied last.entry)) }
        ensures says { IfOk result (λ said. said ≡ file_says self.old (option_copied last.entry)) }
        ensures asks { IfOk result (AsksSaid self.new) }
    {
        match self {
            FileTalk::Seeks(walk, _errand, _guard) => tell_walk(alloc, walk, last),
            FileTalk::Reaches(walk, _errand, _guard) => tell_reach(alloc, walk, last),
            FileTalk::Lists(list) => tell_list(alloc, list, last),
            FileTalk::Changes(change) => tell_change(alloc, change, last),
            FileTalk::Adds(_source, change) => tell_change(alloc, change, last),
            FileTalk::LooksUp(stream, _pending) => tell_stream(alloc, stream, last),
            FileTalk::ReadsList(stream, _pending) => tell_stream(alloc, stream, last),
            FileTalk::Reads(stream) => tell_stream(alloc, stream, last),
            FileTalk::Counts(stream) => tell_stream(alloc, stream, last),
            FileTalk::Appends(stream) => tell_stream(alloc, stream, last),
            FileTalk::Copies(_source, stream) => tell_stream(alloc, stream, last),
            FileTalk::Mails(mail) => tell_mail(alloc, mail, last),
            FileTalk::Opens(..) | FileTalk::Closes(..) => Ok(None),
        }
    }
}
