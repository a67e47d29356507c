//! Mailboxes: queues of at most 56 texts, written in the bytes of objects, and the machine that puts a text into one or takes the first.
#![tactic(auto)]

mod boxes;
pub mod laws;
mod mail;
mod mailing;
mod step;
mod work;

pub use boxes::{
    Extent, FIRST_MESSAGE, Head, MESSAGE_BYTES, MESSAGES, NUMBER_BYTES, TEXT_BYTES, extent_at,
    message, place, text_in,
};
pub use mail::Mail;
pub use step::{MailResult, MailStep};
