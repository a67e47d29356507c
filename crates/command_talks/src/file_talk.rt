//! The machines that commands drive.
use crate::check::{Check, Subject};
use crate::errand::{Errand, Target};
use crate::outcome::Outcome;
use crate::reach::Reach;
use crate::source::Source;
use dom_history::Op;
use mail_box::Mail;
use mapped_streams::Stream;
use naming_tree::{ChangeAt, ListAt, NameResult, Walk};

/// What is asked next of the source of a copy, while it is opened.
#[derive(Clone, Copy)]
pub enum Opening {
    Lock,
    Length,
    Map,
}

/// What waits for a check: an errand, and what its walk came to.
#[derive(Drop)]
pub struct Pending {
    pub who: Subject,
    pub check: Check,
    pub errand: Errand,
    pub come: NameResult,
}

/// Where a command on names or on the bytes of files is.
#[derive(Drop)]
pub enum FileTalk {
    /// Its path is walked along to its end, for an errand; a process with a subject is checked behind that.
    Seeks(Walk, Errand, Option<Subject>),
    /// It is walked along to the directory of its last name.
    Reaches(Reach, Errand, Option<Subject>),
    /// The directory of a check is read.
    LooksUp(Stream, Pending),
    /// Its list is read.
    ReadsList(Stream, Pending),
    /// A directory is listed.
    Lists(ListAt),
    /// A name is added to a directory, or removed from it.
    Changes(ChangeAt),
    Reads(Stream),
    Counts(Stream),
    Appends(Stream),
    /// A text is put into a mailbox, or the first is taken.
    Mails(Mail),
    /// The source of a copy is opened.
    Opens(Source, Opening, Target),
    /// Its target is added.
    Adds(Source, ChangeAt),
    /// Its bytes are put there.
    Copies(Source, Stream),
    /// The source is closed; what the command has come to, unless all was done.
    Closes(Source, Option<Outcome>),
}

/// What comes of a machine: it goes on with an operation, or has come to its end.
#[derive(Drop)]
pub enum FileTurn {
    Goes(FileTalk, Op),
    Comes(Outcome),
}
