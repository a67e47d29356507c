//! A desk, and what each call comes to there, as one sees it from outside.
ghost use Rattle.std.specs.Prelude.{IfOk, OnOk};
ghost use Rattle.dom_history.specs.Ranges.{IsOp};
ghost use Rattle.desk_bench.specs.AllReady.{AllReady};

use crate::driver::{Came, answer, begin, fault, new_desk, unlock_again};
use crate::texts::{Part, told};
use crate::words::{MOST, behind_two, mode, number8, number32, object};
use crate::{bodies, questions};
use anyhow::{Result, bail};
use dom_history::{Dropped, EndWord, Op, Reply, Spot};
use fault_handler::Desk;
use ring_messages::Body;
use std::alloc::{AllocError, Global};
use std::marker::Model;
use uid_names::{ByteList, NodeId, Uid};

/// The desk of node 1, of three.
#[derive(Drop)]
pub struct DeskBench {
    desk: Desk,
}

impl Model for DeskBench {
    ghost use Rattle.fault_handler.specs.Desks.{DeskState};
    ghost use Rattle.desk_bench.specs.AllReady.{AllReady};

    ghost Value = { DeskState };

    ghost view = { λ b. b.desk };

    // Each of its processes may begin or go on, or its open call stands.
    ghost invariant = { λ b. AllReady b.desk };
}

impl DeskBench {
    /// A desk of so many frames, at the start.
    pub fn new(alloc: Global, frames: u32) -> Result<DeskBench> {
        if frames < 5 || 256 < frames {
            bail!("no number of frames");
        }
        let desk = new_desk(alloc, frames as u16)?;
        Ok(DeskBench { desk })
    }

    /// Takes a call.
    pub fn call(self, alloc: Global, words: &[&str; MOST]) -> Result<(DeskBench, String)> {
        let mut desk = self.desk;
        let came = take(alloc, &mut desk, words)?;
        Ok((DeskBench { desk }, came))
    }
}

/// Takes a call: the number of a process and what it does, or what comes to it, or a question.
fn take(alloc: Global, desk: &mut Desk, words: &[&str; MOST]) -> Result<String>
    requires { AllReady desk.old }
    ensures { OnOk result (AllReady desk.new) }
{
    match words[1] {
        "begins" => begins(alloc, desk, words),
        "goes-on" => goes_on(alloc, desk, words),
        "hears" => hears(alloc, desk, words),
        "loses" => loses(alloc, desk, words),
        _ => questions::ask(alloc, desk, words[0], [words[1], words[2], words[3]]),
    }
}

/// A process begins an operation.
fn begins(alloc: Global, desk: &mut Desk, words: &[&str; MOST]) -> Result<String>
    requires { AllReady desk.old }
    ensures { OnOk result (AllReady desk.new) }
{
    let number = number8(words[0])?;
    let op = op_of(alloc, [words[2], words[3], words[4], words[5]])?;
    let came = begin(alloc, desk, number, &op)?;
    Ok(came_text(alloc, &came)?)
}

/// A process goes on with an unlock that waited.
fn goes_on(alloc: Global, desk: &mut Desk, words: &[&str; MOST]) -> Result<String>
    requires { AllReady desk.old }
    ensures { OnOk result (AllReady desk.new) }
{
    let (number, uid) = (number8(words[0])?, object(words[2])?);
    let came = unlock_again(alloc, desk, number, uid)?;
    Ok(came_text(alloc, &came)?)
}

/// An answer comes to a process.
fn hears(alloc: Global, desk: &mut Desk, words: &[&str; MOST]) -> Result<String>
    requires { AllReady desk.old }
    ensures { OnOk result (AllReady desk.new) }
{
    let number = number8(words[0])?;
    let body = bodies::read(alloc, &behind_two(words))?;
    let came = answer(alloc, desk, number, &body)?;
    Ok(came_text(alloc, &came)?)
}

/// The call of a process is lost.
fn loses(alloc: Global, desk: &mut Desk, words: &[&str; MOST]) -> Result<String>
    requires { AllReady desk.old }
    ensures { OnOk result (AllReady desk.new) }
{
    let reply = fault(desk, number8(words[0])?)?;
    Ok(reply_text(alloc, &reply)?)
}

/// The operation that the words say: its name, its object or address, and the rest. One byte is loaded or stored.
fn op_of(alloc: Global, words: [&str; 4]) -> Result<Op>
    ensures { IfOk result IsOp }
{
    let [name, first, second, third] = words;
    match name {
        "lock" => lock_of(first, second),
        "load-at" => load_at(first),
        "load" => load_of(first, second),
        "store" => store_of(alloc, first, second, third),
        _ => plain_op(name, first),
    }
}

/// An operation that has no more than its object.
fn plain_op(name: &str, word: &str) -> Result<Op>
    ensures { IfOk result IsOp }
{
    let uid = object(word)?;
    // That an object has a name is for the check alone.
    let _number = uid.number();
    match name {
        "unlock" => Ok(Op::Unlock { uid }),
        "delete" => Ok(Op::Delete { uid }),
        "length" => Ok(Op::Length { uid }),
        "map" => Ok(Op::Map { uid }),
        "unmap" => Ok(Op::Unmap { uid }),
        _ => bail!("no operation"),
    }
}

fn lock_of(object_word: &str, mode_word: &str) -> Result<Op>
    ensures { IfOk result IsOp }
{
    let uid = object(object_word)?;
    let _number = uid.number();
    let mode = mode(mode_word)?;
    Ok(Op::Lock { uid, mode })
}

fn load_at(address: &str) -> Result<Op>
    ensures { IfOk result IsOp }
{
    let spot = Spot::Addr(number32(address)?);
    Ok(Op::Load { spot, count: 1 })
}

fn load_of(object_word: &str, offset: &str) -> Result<Op>
    ensures { IfOk result IsOp }
{
    let uid = object(object_word)?;
    let _number = uid.number();
    let spot = Spot::Of(uid, number32(offset)?);
    Ok(Op::Load { spot, count: 1 })
}

fn store_of(alloc: Global, object_word: &str, offset: &str, byte: &str) -> Result<Op>
    ensures { IfOk result IsOp }
{
    let uid = object(object_word)?;
    let _number = uid.number();
    let spot = Spot::Of(uid, number32(offset)?);
    let bytes = ByteList::from_slice(alloc, &[number8(byte)?])?;
    Ok(Op::Store { spot, bytes })
}

/// What a call came to, and each page that it dropped.
fn came_text(alloc: Global, came: &Came) -> Result<String, AllocError> {
    match came {
        Came::Ends(reply, dropped) => with_dropped(alloc, reply_text(alloc, reply)?, dropped),
        Came::Asks(home, body, dropped) => {
            with_dropped(alloc, asks_text(alloc, *home, body)?, dropped)
        }
        Came::Waits(uid, page, dropped) => {
            with_dropped(alloc, paged_text(alloc, "waits", *uid, *page)?, dropped)
        }
    }
}

fn asks_text(alloc: Global, home: NodeId, body: &Body) -> Result<String, AllocError> {
    let (home, body) = (home.number(), bodies::text(alloc, body)?);
    format!(in alloc; "asks {home} {body}")
}

fn paged_text(alloc: Global, word: &str, uid: Uid, page: u32) -> Result<String, AllocError> {
    let page = Part::Number(u64::from(page));
    told(alloc, word, &[Part::Object(uid), page])
}

/// A text, and each page that was dropped.
fn with_dropped(alloc: Global, text: String, dropped: &Dropped) -> Result<String, AllocError> {
    let mut text = text;
    for (uid, page) in dropped.items() {
        text = and_dropped(alloc, text.as_str(), *uid, *page)?;
    }
    Ok(text)
}

fn and_dropped(alloc: Global, text: &str, uid: Uid, page: u32) -> Result<String, AllocError> {
    let page = paged_text(alloc, "drops", uid, page)?;
    format!(in alloc; "{text}, {page}")
}

/// A reply. Of bytes the first is told.
fn reply_text(alloc: Global, reply: &Reply) -> Result<String, AllocError> {
    let word = EndWord::of(reply).word();
    match reply {
        Reply::Conflict(proc, mode) => {
            told(alloc, word, &[Part::Proc(*proc), Part::Letter(*mode)])
        }
        Reply::Size(length) => told(alloc, word, &[Part::Number(u64::from(*length))]),
        Reply::At { address, fresh } => address_text(alloc, word, *address, *fresh),
        Reply::Bytes(bytes) => {
            let byte = bytes.bytes().first().copied().unwrap_or(0);
            told(alloc, word, &[Part::Number(u64::from(byte))])
        }
        _ => told(alloc, word, &[]),
    }
}

/// An address, and whether its mapping is fresh.
fn address_text(
    alloc: Global,
    word: &str,
    address: u32,
    is_fresh: bool,
) -> Result<String, AllocError> {
    let address = Part::Number(u64::from(address));
    if is_fresh {
        told(alloc, word, &[address, Part::Fresh])
    } else {
        told(alloc, word, &[address])
    }
}
