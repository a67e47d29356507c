//! How far machines of mailboxes have come: a mailbox is opened, worked on and closed.
ghost use Rattle.std.specs.Prelude.{◌≡◌, true, false, None, IsTrue, IfOk, OnOk, IfNone};
ghost use Rattle.dom_history.specs.Ranges.{IsOp};
ghost use Rattle.dom_history.specs.Fitting.{Fits, is_map_reply};
ghost use Rattle.naming_tree.specs.Entering.{is_fine as is_fine_reply};
ghost use Rattle.mail_box.specs.Boxes.{extent_of};
ghost use Rattle.mail_box.specs.Dialogues.{told};
ghost use Rattle.mail_box.specs.Mails.{counted, message_load, numbers_load, numbers_store};
ghost use Rattle.mail_box.specs.States.{left, left_or, mailing_at, mailing_of, message_op, stage_op, IsCounted, IsMailing, IsOpened, IsStage, IsWork};
ghost use Rattle.mail_box.specs.declared.step.MailResult.TheVariants.{Store};
ghost use Rattle.mail_box.specs.Turns.{behind_close, behind_count, behind_length, behind_loaded, behind_lock, behind_map, behind_message, behind_numbers, behind_stored, decides, first_decided, known, reached, turn as mail_turn, turn_of};

use crate::boxes::{Extent, Head, NUMBER_BYTES, extent_at, text_in};
use crate::step::MailResult;
use crate::work::MailWork;
use dom_history::{Op, Reply, Spot};
use std::alloc::Global;
use uid_names::{Mode, NoMemory, Uid};

/// A mailbox as it is mapped. `fresh` where this opening mapped it.
#[derive(Clone, Copy)]
pub struct Opened {
    pub address: u32,
    pub fresh: bool,
}

/// What a machine asks.
#[derive(Clone, Copy)]
pub enum Stage {
    Lock,
    Length,
    Map { length: u32 },
    /// The numbers are loaded.
    Numbers(Opened),
    /// The message is stored, or the first one loaded; these were the numbers.
    Message(Opened, Head),
    /// The numbers are stored, with one more.
    Count(Opened, Head),
    /// It is closed: the mapping, where that is to be undone, and the lock.
    Close { mapped: bool },
}

/// How far a machine has come; the result that is decided already, if one is.
pub struct Mailing {
    pub uid: Uid,
    pub work: MailWork,
    pub stage: Stage,
    pub decided: Option<MailResult>,
}

// Of its own, so that what drops one calls this and does not take it apart in place.
impl Drop for Mailing {
    fn drop(self) {
        let Mailing {
            uid: _,
            work: _,
            stage: _,
            decided: _,
        } = self;
    }
}

/// Whether an operation was done that tells nothing.
fn is_fine(reply: &Reply) -> bool
    ensures { result ≡ is_fine_reply reply.now }
{
    match reply {
        Reply::Fine => true,
        _ => false,
    }
}

impl Mailing {
    /// A machine before it begins. Takes no memory.
    pub fn new(uid: Uid, work: MailWork) -> Mailing
        requires { IsWork work }
        ensures value { result ≡ mailing_of uid work }
        ensures range { IsMailing result }
    {
        Mailing {
            uid,
            work,
            stage: Stage::Lock,
            decided: None,
        }
    }

    /// The store of the numbers, with one more.
    fn count_op(&self, alloc: Global, opened: &Opened, head: &Head) -> Result<Op, NoMemory>
        requires opened { IsOpened opened.now }
        requires head { IsCounted head.now }
        ensures value { IfOk result (λ op. op ≡ numbers_store opened.now (counted self.now.work head.now)) }
        ensures range { IfOk result IsOp }
    {
        Ok(Op::Store {
            spot: Spot::Addr(opened.address),
            bytes: self.work.counted(head).bytes(alloc)?,
        })
    }

    /// Its operation.
    pub fn op(&self, alloc: Global) -> Result<Op, NoMemory>
        requires { IsMailing self.now }
        ensures value { IfOk result (λ op. op ≡ stage_op self.now.uid self.now.work self.now.stage) }
        ensures range { IfOk result IsOp }
    {
        let uid = self.uid;
        let _number = uid.number();
        Ok(match self.stage {
            Stage::Lock => Op::Lock {
                uid,
                mode: Mode::Write,
            },
            Stage::Length => Op::Length { uid },
            Stage::Map { length: _ } => Op::Map { uid },
            Stage::Numbers(opened) => Op::Load {
                spot: Spot::Addr(opened.address),
                count: NUMBER_BYTES,
            },
            Stage::Message(opened, head) => self.work.message(alloc, &opened, &head)?,
            Stage::Count(opened, head) => self.count_op(alloc, &opened, &head)?,
            Stage::Close { mapped: true } => Op::Unmap { uid },
            Stage::Close { mapped: false } => Op::Unlock { uid },
        })
    }

    /// This is decided: it closes.
    fn decide(&mut self, mapped: bool, come: MailResult)
        requires { IsWork self.old.work }
        ensures value { self.new ≡ decides self.old.uid self.old.work mapped come }
        ensures range { IsMailing self.new }
    {
        self.decided = Some(come);
        self.stage = Stage::Close { mapped };
    }

    /// So is a refusal.
    fn give_up(&mut self, alloc: Global, mapped: bool, reply: &Reply) -> Result<(), NoMemory>
        requires { IsWork self.old.work }
        ensures value { OnOk result (self.new ≡ decides self.old.uid self.old.work mapped (Store reply.now)) }
        ensures range { OnOk result (IsMailing self.new) }
    {
        let come = MailResult::Store(reply.copy(alloc)?);
        self.decide(mapped, come);
        Ok(())
    }

    /// Goes on at a stage.
    fn go_to(&mut self, stage: Stage)
        requires work { IsWork self.old.work }
        requires stage { IsStage stage }
        ensures value { self.new ≡ mailing_at self.old.uid self.old.work None stage }
        ensures range { IsMailing self.new }
    {
        self.decided = None;
        self.stage = stage;
    }

    /// Takes in the reply to the lock.
    fn on_lock(&mut self, alloc: Global, reply: &Reply) -> Result<Option<MailResult>, NoMemory>
        requires { IsWork self.old.work }
        ensures turn { IfOk result (λ come. turn_of come self.new ≡ behind_lock self.old.uid self.old.work reply.now) }
        ensures range { IfOk result (λ come. IfNone come (IsMailing self.new)) }
    {
        if !is_fine(reply) {
            return Ok(Some(MailResult::Store(reply.copy(alloc)?)));
        }
        self.go_to(Stage::Length);
        Ok(None)
    }

    /// Takes in the reply to the length.
    fn on_length(&mut self, alloc: Global, reply: &Reply) -> Result<(), NoMemory>
        requires { IsWork self.old.work }
        ensures value { OnOk result (self.new ≡ behind_length self.old.uid self.old.work reply.now) }
        ensures range { OnOk result (IsMailing self.new) }
    {
        match reply {
            Reply::Size(length) => {
                self.go_to(Stage::Map { length: *length });
                Ok(())
            }
            _ => self.give_up(alloc, false, reply),
        }
    }

    /// The numbers are known: its message is next, unless they decide.
    fn know(&mut self, opened: &Opened, head: &Head)
        requires work { IsWork self.old.work }
        requires opened { IsOpened opened.now }
        ensures value { self.new ≡ known self.old.uid self.old.work opened.now head.now }
        ensures range { IsMailing self.new }
    {
        match self.work.judged(head) {
            Some(come) => self.decide(opened.fresh, come),
            None => self.go_to(Stage::Message(*opened, *head)),
        }
    }

    /// The length is known: its numbers are next, where it has them whole.
    fn reach(&mut self, opened: &Opened, length: u32)
        requires work { IsWork self.old.work }
        requires opened { IsOpened opened.now }
        ensures value { self.new ≡ reached self.old.uid self.old.work opened.now (extent_of length) }
        ensures range { IsMailing self.new }
    {
        match extent_at(length) {
            Extent::New => self.know(opened, &Head::first()),
            Extent::Torn => self.decide(opened.fresh, MailResult::BadMail),
            Extent::Whole => self.go_to(Stage::Numbers(*opened)),
        }
    }

    /// Takes in the reply to the mapping.
    fn on_map(&mut self, alloc: Global, length: u32, reply: &Reply) -> Result<(), NoMemory>
        requires work { IsWork self.old.work }
        requires fits { IsTrue (is_map_reply reply.now) }
        ensures value { OnOk result (self.new ≡ behind_map self.old.uid self.old.work length reply.now) }
        ensures range { OnOk result (IsMailing self.new) }
    {
        match reply {
            Reply::At { address, fresh } => {
                let opened = Opened {
                    address: *address,
                    fresh: *fresh,
                };
                self.reach(&opened, length);
                Ok(())
            }
            _ => self.give_up(alloc, false, reply),
        }
    }

    /// Takes in the reply to the load of the numbers.
    fn on_numbers(&mut self, alloc: Global, opened: &Opened, reply: &Reply) -> Result<(), NoMemory>
        requires work { IsWork self.old.work }
        requires opened { IsOpened opened.now }
        requires fits { Fits (numbers_load opened.now) reply.now }
        ensures value { OnOk result (self.new ≡ behind_numbers self.old.uid self.old.work opened.now reply.now) }
        ensures range { OnOk result (IsMailing self.new) }
    {
        match reply {
            Reply::Bytes(loaded) => {
                self.know(opened, &Head::read(loaded.bytes()));
                Ok(())
            }
            _ => self.give_up(alloc, opened.fresh, reply),
        }
    }

    /// Takes in the reply to the store of a message.
    fn on_stored(
        &mut self,
        alloc: Global,
        opened: &Opened,
        head: &Head,
        reply: &Reply,
    ) -> Result<(), NoMemory>
        requires work { IsWork self.old.work }
        requires opened { IsOpened opened.now }
        requires head { IsCounted head.now }
        ensures value { OnOk result (self.new ≡ behind_stored self.old.uid self.old.work opened.now head.now reply.now) }
        ensures range { OnOk result (IsMailing self.new) }
    {
        match reply {
            Reply::Fine => {
                self.go_to(Stage::Count(*opened, *head));
                Ok(())
            }
            _ => self.give_up(alloc, opened.fresh, reply),
        }
    }

    /// Takes in the reply to the load of one.
    fn on_loaded(
        &mut self,
        alloc: Global,
        opened: &Opened,
        head: &Head,
        reply: &Reply,
    ) -> Result<(), NoMemory>
        requires work { IsWork self.old.work }
        requires opened { IsOpened opened.now }
        requires head { IsCounted head.now }
        requires fits { Fits (message_load opened.now head.now.taken) reply.now }
        ensures value { OnOk result (self.new ≡ behind_loaded self.old.uid self.old.work opened.now head.now reply.now) }
        ensures range { OnOk result (IsMailing self.new) }
    {
        let Reply::Bytes(loaded) = reply else {
            return self.give_up(alloc, opened.fresh, reply);
        };
        match text_in(alloc, loaded.bytes())? {
            Some(text) => {
                self.work = MailWork::Take(text);
                self.go_to(Stage::Count(*opened, *head));
            }
            None => self.decide(opened.fresh, MailResult::BadMail),
        }
        Ok(())
    }

    /// Takes in the reply to the message.
    fn on_message(
        &mut self,
        alloc: Global,
        opened: &Opened,
        head: &Head,
        reply: &Reply,
    ) -> Result<(), NoMemory>
        requires work { IsWork self.old.work }
        requires opened { IsOpened opened.now }
        requires head { IsCounted head.now }
        requires fits { Fits (message_op self.old.work opened.now head.now) reply.now }
        ensures value { OnOk result (self.new ≡ behind_message self.old.uid self.old.work opened.now head.now reply.now) }
        ensures range { OnOk result (IsMailing self.new) }
    {
        match &self.work {
            MailWork::Put(_) => self.on_stored(alloc, opened, head, reply),
            MailWork::Take(_) => self.on_loaded(alloc, opened, head, reply),
        }
    }

    /// Takes in the reply to the store of the numbers.
    fn on_count(&mut self, alloc: Global, opened: &Opened, reply: &Reply) -> Result<(), NoMemory>
        requires { IsWork self.old.work }
        ensures value { OnOk result (self.new ≡ behind_count self.old.uid self.old.work opened.now reply.now) }
        ensures range { OnOk result (IsMailing self.new) }
    {
        match reply {
            Reply::Fine => {
                self.go_to(Stage::Close {
                    mapped: opened.fresh,
                });
                Ok(())
            }
            _ => self.give_up(alloc, opened.fresh, reply),
        }
    }

    /// Takes in the reply to an operation of its closing.
    fn on_close(
        &mut self,
        alloc: Global,
        mapped: bool,
        reply: &Reply,
    ) -> Result<Option<MailResult>, NoMemory>
        requires { IsWork self.old.work }
        ensures turn { IfOk result (λ come. turn_of come self.new ≡ behind_close self.old.uid self.old.work mapped (first_decided self.old.decided reply.now)) }
        ensures range { IfOk result (λ come. IfNone come (IsMailing self.new)) }
    {
        if self.decided.is_none() && !is_fine(reply) {
            self.decided = Some(MailResult::Store(reply.copy(alloc)?));
        }
        if mapped {
            self.stage = Stage::Close { mapped: false };
            return Ok(None);
        }
        match self.decided.take() {
            Some(come) => Ok(Some(come)),
            None => Ok(Some(self.work.take_result(alloc))),
        }
    }

    /// Takes in a reply at its stage.
    fn take_in(&mut self, alloc: Global, reply: &Reply) -> Result<Option<MailResult>, NoMemory>
        requires range { IsMailing self.old }
        requires fits { Fits (stage_op self.old.uid self.old.work self.old.stage) reply.now }
        ensures turn { IfOk result (λ come. turn_of come self.new ≡ mail_turn self.old reply.now) }
        ensures range { IfOk result (λ come. IfNone come (IsMailing self.new)) }
    {
        match self.stage {
            Stage::Lock => return self.on_lock(alloc, reply),
            Stage::Length => self.on_length(alloc, reply)?,
            Stage::Map { length } => self.on_map(alloc, length, reply)?,
            Stage::Numbers(opened) => self.on_numbers(alloc, &opened, reply)?,
            Stage::Message(opened, head) => self.on_message(alloc, &opened, &head, reply)?,
            Stage::Count(opened, _) => self.on_count(alloc, &opened, reply)?,
            Stage::Close { mapped } => return self.on_close(alloc, mapped, reply),
        }
        Ok(None)
    }

    /// Takes in the reply to its operation.
    #[tactic(auto, using(crate::proofs::Turning::turned_left))]
    pub fn hear(&mut self, alloc: Global, reply: &Reply) -> Result<Option<MailResult>, NoMemory>
        requires range { IsMailing self.old }
        requires fits { Fits (stage_op self.old.uid self.old.work self.old.stage) reply.now }
        ensures turn { IfOk result (λ come. turn_of come self.new ≡ mail_turn self.old reply.now) }
        ensures left { IfOk result (λ come. left_or come self.new ≡ told (left self.old) reply.now) }
        ensures range { IfOk result (λ come. IfNone come (IsMailing self.new)) }
    {
        self.take_in(alloc, reply)
    }
}
