//! What machines of mailboxes ask and come to.
use dom_history::Reply;
use naming_tree::Step;
use uid_names::ByteList;

/// What a machine comes to.
#[derive(Drop, Debug)]
pub enum MailResult {
    /// The text was put.
    Put,
    /// This text was taken.
    Taken(ByteList),
    /// No more has a place.
    Full,
    /// None is there.
    Empty,
    /// The bytes are none of a mailbox.
    BadMail,
    /// The first reply that refused an operation.
    Store(Reply),
}

/// What a machine says.
pub type MailStep = Step<MailResult>;
