//! A random walk over mailboxes, beside plain counts: the text that is taken from one is the one that was put as the same
//! of its number.
use drawn_numbers::Draws;
use mail_box::MailResult;
use plain_machines::mails::{put_mail, take_mail};
use plain_machines::streams::{made, some_bytes};
use plain_machines::world::World;
use std::alloc::Global;
use std::process::Abort;
use std::test::Fail;
use uid_names::{ByteList, Uid};

/// How many commands a walk makes, and behind how many of them it turns from putting to taking, and back.
const COMMANDS: u32 = 1600;

const TURN: u32 = 400;

/// The mailboxes.
const MAILS: u32 = 3;

/// A mailbox, how many texts were put into it, and how many of them were taken.
#[derive(Clone, Copy)]
struct PlainMail {
    uid: Uid,
    put: u64,
    taken: u64,
}

/// Mailboxes, and how many commands found one full or empty.
#[derive(Drop)]
struct Walk {
    world: World,
    mails: Vec<PlainMail>,
    draws: Draws,
    /// What texts are taken from.
    letters: ByteList,
    full: u32,
    empty: u32,
}

impl Walk {
    /// Mailboxes without a byte.
    fn new(alloc: Global) -> Result<Walk, Fail> {
        let mut world = World::new(alloc)?;
        let mut mails = Vec::new(alloc);
        for _ in 0..MAILS {
            let uid = made(&mut world, 8)?;
            mails.push(PlainMail {
                uid,
                put: 0,
                taken: 0,
            })?;
        }
        Ok(Walk {
            world,
            mails,
            draws: Draws::new(1),
            letters: some_bytes(alloc, 1024)?,
            full: 0,
            empty: 0,
        })
    }

    /// The mailbox at a place.
    fn mail(&mut self, at: usize) -> Result<&mut PlainMail, Fail> {
        Ok(self.mails.get_mut(at).ok_or("no such mailbox")?)
    }

    /// The text that is put as the one of this number: those of 120 numbers have different lengths.
    fn text(&self, number: u64) -> Result<ByteList, Fail> {
        let start = (number % 800) as usize;
        let count = 1 + (number % 120) as usize;
        match self.letters.bytes().get(start..start + count) {
            Some(letters) => Ok(ByteList::from_slice(self.world.alloc, letters)?),
            None => Err(Fail::from("too few letters")),
        }
    }

    /// Puts a text into a mailbox, which has places for 56.
    fn put(&mut self, at: usize) -> Result<(), Fail> {
        let mail = *self.mail(at)?;
        let text = self.text(mail.put)?;
        let result = put_mail(&mut self.world, mail.uid, text.bytes(), &None)?.result;
        match (mail.put.saturating_sub(mail.taken) < 56, &result) {
            (true, MailResult::Put) => {
                self.mail(at)?.put = mail.put.saturating_add(1);
                Ok(())
            }
            (false, MailResult::Full) => {
                self.full = self.full.saturating_add(1);
                Ok(())
            }
            _ => Err(Fail::from("another result of a putm")),
        }
    }

    /// Takes the first text out of a mailbox.
    fn take(&mut self, at: usize) -> Result<(), Fail> {
        let mail = *self.mail(at)?;
        let text = self.text(mail.taken)?;
        let result = take_mail(&mut self.world, mail.uid, &None)?.result;
        match (mail.taken < mail.put, &result) {
            (true, MailResult::Taken(taken)) if taken.bytes() == text.bytes() => {
                self.mail(at)?.taken = mail.taken.saturating_add(1);
                Ok(())
            }
            (false, MailResult::Empty) => {
                self.empty = self.empty.saturating_add(1);
                Ok(())
            }
            _ => Err(Fail::from("another result of a takem")),
        }
    }

    /// One command, of eight most often one of these.
    fn go(&mut self, puts: bool) -> Result<(), Fail> {
        let at = self.draws.below(MAILS) as usize;
        if (self.draws.below(8) == 0) == puts {
            self.take(at)
        } else {
            self.put(at)
        }
    }
}

#[test]
fn mailboxes_are_queues(rt: HostRuntime) -> Result<(), Fail> {
    let mut walk = Walk::new(rt.alloc())?;
    for i in 0..COMMANDS {
        walk.go(i / TURN % 2 == 0)?;
    }
    // Each was full and empty more than once, and its places were gone round.
    assert!(rt; walk.full >= 50);
    assert!(rt; walk.empty >= 50);
    for at in 0..3 {
        assert!(rt; walk.mail(at)?.put >= 60);
        for _ in 0..57 {
            walk.take(at)?;
        }
    }
    Ok(())
}
