//! The machine of a mailbox: it puts a text last, or takes the first.
ghost use Rattle.std.specs.Prelude.{◌≡◌, [], Some, None, IfOk, OnOk, OnErr};
ghost use Rattle.std.specs.Option.{option_copied};
ghost use Rattle.mail_box.specs.Boxes.{IsText};
ghost use Rattle.mail_box.specs.Dialogues.{left_after, said_to, IsStep, MayHear};
ghost use Rattle.mail_box.specs.Mails.{put_mail, take_mail};
ghost use Rattle.mail_box.specs.States.{mailing_of, rest, IsWork};
ghost use Rattle.mail_box.specs.Turns.{stood_after};
ghost use Rattle.mail_box.specs.declared.work.MailWork.TheVariants.{Put as PutWork, Take as TakeWork};

use crate::mailing::Mailing;
use crate::step::MailStep;
use crate::work::MailWork;
use dom_history::Reply;
use std::alloc::Global;
use std::marker::Model;
use uid_names::{ByteList, NoMemory, Uid};

/// A machine of a mailbox.
///
/// It is seen as how far it has come; as None once it is over or found no memory, and is then not called again.
#[derive(Drop)]
pub struct Mail {
    mailing: Mailing,
    over: bool,
}

impl Model for Mail {
    ghost use Rattle.std.specs.Prelude.{Option};
    ghost use Rattle.mail_box.specs.declared.mailing.Mailing.{Mailing};
    ghost use Rattle.mail_box.specs.States.{unless, IfOn};

    ghost Value = { Option Mailing };

    ghost view = { λ m. unless m.over m.mailing };

    ghost invariant = { λ m. IfOn m.over m.mailing };
}

impl Mail {
    /// A machine that does this work, before it begins. Takes no memory.
    fn new(uid: Uid, work: MailWork) -> Mail
        requires { IsWork work }
        ensures { result ≡ Some (mailing_of uid work) }
    {
        Mail {
            mailing: Mailing::new(uid, work),
            over: false,
        }
    }

    /// Puts a text of 1 to 120 bytes behind those that are in a mailbox.
    pub fn put(alloc: Global, uid: Uid, text: &[u8]) -> Result<Mail, NoMemory>
        requires { IsText text.now }
        ensures made { IfOk result (λ m. m ≡ Some (mailing_of uid (PutWork text.now))) }
        ensures left { IfOk result (λ m. rest m ≡ Some (put_mail uid text.now)) }
    {
        let text = ByteList::from_slice(alloc, text)?;
        Ok(Mail::new(uid, MailWork::Put(text)))
    }

    /// Takes the first text out of a mailbox. Takes no memory before it is told a reply.
    #[tactic(auto, using(crate::proofs::Beginnings::take_begins, crate::proofs::Beginnings::take_made))]
    pub fn take(alloc: Global, uid: Uid) -> Mail
        ensures made { result ≡ Some (mailing_of uid (TakeWork [])) }
        ensures left { rest result ≡ Some (take_mail uid) }
    {
        Mail::new(uid, MailWork::Take(ByteList::new(alloc)))
    }

    /// Tells it the reply to its operation; nothing at the first call.
    #[tactic(auto, using(crate::proofs::Stages::fits_op, crate::proofs::Stages::stands_on, crate::proofs::Stages::says_on))]
    pub fn next(&mut self, alloc: Global, last: Option<&Reply>) -> Result<MailStep, NoMemory>
        requires fits { MayHear (rest self.old) (option_copied last) }
        ensures after { OnOk result (self.new ≡ stood_after self.old (option_copied last.entry)) }
        ensures left { OnOk result (rest self.new ≡ left_after (rest self.old) (option_copied last.entry)) }
        ensures step { IfOk result (λ step. Some step ≡ said_to (rest self.old) (option_copied last.entry)) }
        ensures range { IfOk result IsStep }
        ensures memory { OnErr result (self.new ≡ None) }
    {
        self.over = true;
        if let Some(reply) = last {
            if let Some(come) = self.mailing.hear(alloc, reply)? {
                return Ok(MailStep::Over(come));
            }
        }
        let op = self.mailing.op(alloc)?;
        self.over = false;
        Ok(MailStep::Do(op))
    }
}
