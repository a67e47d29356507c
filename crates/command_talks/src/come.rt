//! What the machine within a command comes to.
use mail_box::MailResult;
use mapped_streams::StreamResult;
use naming_tree::NameResult;

/// What a walk, a directory, a stream or a mailbox that a command drives has come to.
#[derive(Drop)]
pub enum Come {
    Named(NameResult),
    Streamed(StreamResult),
    Mailed(MailResult),
}
