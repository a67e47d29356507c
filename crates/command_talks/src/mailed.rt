//! What comes of a command on a mailbox.
ghost use Rattle.std.specs.Prelude.{◌≡◌, IfOk};
ghost use Rattle.command_talks.specs.FileTurns.{Asks};
ghost use Rattle.command_talks.specs.Mailed.{mail_outcome as outcome_of_mail};
ghost use Rattle.command_talks.specs.declared.file_talk.FileTurn.TheVariants.{Comes};
ghost use Rattle.command_talks.specs.declared.outcome.Outcome.TheVariants.{Written};

use crate::file_talk::FileTurn;
use crate::outcome::Outcome;
use mail_box::MailResult;
use mapped_streams::StreamResult;
use std::alloc::Global;
use uid_names::{ByteList, NoMemory};

/// An answer that is written already.
fn answered(alloc: Global, answer: &[u8]) -> Result<Outcome, NoMemory>
    ensures { IfOk result (λ outcome. outcome ≡ Written answer.now) }
{
    Ok(Outcome::Written(ByteList::from_slice(alloc, answer)?))
}

/// What comes of a command whose mailbox came to this.
fn mail_outcome(alloc: Global, come: MailResult) -> Result<Outcome, NoMemory>
    ensures { IfOk result (λ outcome. outcome ≡ outcome_of_mail come) }
{
    match come {
        MailResult::Put => Ok(Outcome::Streamed(StreamResult::Fine)),
        MailResult::Taken(text) => Ok(Outcome::Streamed(StreamResult::Bytes(text))),
        MailResult::Store(reply) => Ok(Outcome::Streamed(StreamResult::Store(reply))),
        MailResult::Full => answered(alloc, b"mailbox full"),
        MailResult::Empty => answered(alloc, b"mailbox empty"),
        MailResult::BadMail => answered(alloc, b"bad mailbox"),
    }
}

/// So the command is over.
pub fn mail_over(alloc: Global, come: MailResult) -> Result<FileTurn, NoMemory>
    ensures turn { IfOk result (λ turn. turn ≡ Comes (outcome_of_mail come)) }
    ensures asks { IfOk result Asks }
{
    Ok(FileTurn::Comes(mail_outcome(alloc, come)?))
}
