//! What is done with a mailbox that is open.
ghost use Rattle.std.specs.Prelude.{◌≡◌, IfNone, IfOk};
ghost use Rattle.dom_history.specs.Ranges.{IsOp};
ghost use Rattle.mail_box.specs.Mails.{come_of, counted as counted_so, judged as judged_so};
ghost use Rattle.mail_box.specs.States.{message_op, IsCounted, IsOpened, IsWork};

use crate::boxes::{Head, MESSAGE_BYTES, message, place};
use crate::mailing::Opened;
use crate::step::MailResult;
use dom_history::{Op, Spot};
use std::alloc::Global;
use std::mem;
use uid_names::{ByteList, NoMemory};

/// What is done with a mailbox that is open.
pub enum MailWork {
    /// This text is put last.
    Put(ByteList),
    /// The first one is taken: this text, once it is loaded.
    Take(ByteList),
}

// Of its own, so that what drops one calls this and does not take it apart in place.
impl Drop for MailWork {
    fn drop(self) {
        match self {
            MailWork::Put(_) | MailWork::Take(_) => {}
        }
    }
}

impl MailWork {
    /// What the numbers alone decide. Takes no memory.
    pub fn judged(&self, head: &Head) -> Option<MailResult>
        ensures value { result ≡ judged_so self.now head.now }
        ensures going { IfNone result (IsCounted head.now) }
    {
        if head.is_bad() {
            return Some(MailResult::BadMail);
        }
        match self {
            MailWork::Put(_) => {
                if head.is_full() {
                    Some(MailResult::Full)
                } else {
                    None
                }
            }
            MailWork::Take(_) => {
                if head.is_empty() {
                    Some(MailResult::Empty)
                } else {
                    None
                }
            }
        }
    }

    /// The numbers behind it. Takes no memory.
    pub fn counted(&self, head: &Head) -> Head
        requires { IsCounted head.now }
        ensures { result ≡ counted_so self.now head.now }
    {
        match self {
            MailWork::Put(_) => head.with_put(),
            MailWork::Take(_) => head.with_taken(),
        }
    }

    /// The store of its message, or the load of the first one.
    #[tactic(auto, using(crate::proofs::Places::message_in_page))]
    pub fn message(&self, alloc: Global, opened: &Opened, head: &Head) -> Result<Op, NoMemory>
        requires work { IsWork self.now }
        requires opened { IsOpened opened.now }
        ensures value { IfOk result (λ op. op ≡ message_op self.now opened.now head.now) }
        ensures range { IfOk result IsOp }
    {
        match self {
            MailWork::Put(text) => Ok(Op::Store {
                spot: Spot::Addr(opened.address + place(head.put)),
                bytes: message(alloc, text.bytes())?,
            }),
            MailWork::Take(_) => Ok(Op::Load {
                spot: Spot::Addr(opened.address + place(head.taken)),
                count: MESSAGE_BYTES,
            }),
        }
    }

    /// What it comes to; a text that was taken is handed out.
    pub fn take_result(&mut self, alloc: Global) -> MailResult
        ensures { result ≡ come_of self.old }
    {
        match self {
            MailWork::Put(_) => MailResult::Put,
            MailWork::Take(text) => MailResult::Taken(mem::replace(text, ByteList::new(alloc))),
        }
    }
}
