//! Mailboxes in a store: what their machines ask, what they come to, and what they are refused.
ghost use Rattle.std.specs.Prelude.{Some, None, IfOk};
ghost use Rattle.std.specs.Option.{option_copied};
ghost use Rattle.mail_box.specs.Dialogues.{MayHear};
ghost use Rattle.mail_box.specs.States.{rest};

use crate::refusals::{Refusal, map};
use crate::streams::{Asked, answer, made, word};
use crate::undone::{Result, Undone};
use crate::world::World;
use dom_history::Reply;
use mail_box::{Mail, MailResult, MailStep, TEXT_BYTES};
use std::alloc::Global;
use uid_names::{ByteList, Uid};

/// How many operations the machine of a mailbox asks at most.
const MOST_CALLS: u32 = 20;

/// The pages of a mailbox.
const MAIL_ROOM: u32 = 8;

/// What the machine of a mailbox asked, in words, and what it came to.
#[derive(Drop)]
pub struct Mailed {
    pub words: ByteList,
    pub result: MailResult,
}

/// Tells the machine of a mailbox a reply; what its operation is answered, unless it is over.
fn turn(
    world: &mut World,
    machine: &mut Mail,
    last: Option<&Reply>,
    asked: &mut Asked,
    refusal: &Option<Refusal>,
) -> Result<Result<Reply, MailResult>>
    requires { MayHear (rest machine.old) (option_copied last) }
    ensures { IfOk result (λ told. IfOk told (λ reply. MayHear (rest machine.new) (Some reply))) }
{
    let op = match machine.next(world.alloc, last)? {
        MailStep::Over(result) => return Ok(Err(result)),
        MailStep::Do(op) => op,
    };
    asked.words.extend(word(&op))?;
    let reply = answer(world, &op, asked, refusal)?;
    Ok(Ok(reply))
}

/// Serves the machine of a mailbox until it is over.
fn serve(world: &mut World, machine: Mail, refusal: &Option<Refusal>) -> Result<Mailed>
    requires { MayHear (rest machine) None }
{
    let mut machine = machine;
    let mut asked = Asked::new(world.alloc);
    let mut last = None;
    'calls: for _ in 0..MOST_CALLS {
        match turn(world, &mut machine, last.as_ref(), &mut asked, refusal)? {
            Ok(reply) => last = Some(reply),
            Err(result) => {
                return Ok(Mailed {
                    words: asked.words,
                    result,
                });
            }
        }
    }
    Err(Undone::NoEnd)
}

/// Puts a text into a mailbox.
pub fn put_mail(
    world: &mut World,
    uid: Uid,
    text: &[u8],
    refusal: &Option<Refusal>,
) -> Result<Mailed> {
    if text.is_empty() || text.len() > TEXT_BYTES {
        return Err(Undone::NoText);
    }
    let machine = Mail::put(world.alloc, uid, text)?;
    serve(world, machine, refusal)
}

/// Takes the first text out of a mailbox.
pub fn take_mail(world: &mut World, uid: Uid, refusal: &Option<Refusal>) -> Result<Mailed> {
    let machine = Mail::take(world.alloc, uid);
    serve(world, machine, refusal)
}

/// Puts a text into a mailbox, or fails.
fn put_one(world: &mut World, uid: Uid, text: &[u8]) -> Result<()> {
    match put_mail(world, uid, text, &None)?.result {
        MailResult::Put => Ok(()),
        _ => Err(Undone::Refused),
    }
}

/// How many texts are in a mailbox before a command on it is refused; None where there is no such command.
fn texts_before(verb: &[u8]) -> Option<u32> {
    match verb {
        b"putm" | b"takem" => Some(1),
        b"putm-first" | b"takem-none" => Some(0),
        b"putm-full" => Some(56),
        _ => None,
    }
}

/// What a command on a mailbox asks and comes to that is refused so, in a new store. The mailbox was mapped before, or
/// not. Its kind is not looked at, so a file does.
pub fn refused_mail(alloc: Global, verb: &[u8], mapped: bool, refusal: Refusal) -> Result<Mailed> {
    let texts = texts_before(verb).ok_or(Undone::NoWords)?;
    let mut world = World::new(alloc)?;
    let uid = made(&mut world, MAIL_ROOM)?;
    for _ in 0..texts {
        put_one(&mut world, uid, b"one")?;
    }
    if mapped {
        map(&mut world, uid)?;
    }
    match verb {
        b"takem" | b"takem-none" => take_mail(&mut world, uid, &Some(refusal)),
        _ => put_mail(&mut world, uid, b"two", &Some(refusal)),
    }
}
