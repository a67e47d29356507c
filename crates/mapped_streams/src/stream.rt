//! Streams on objects: machines that read an object whole, count its lines, put a text behind it, or copy into it.
ghost use Rattle.std.specs.Prelude.{◌≡◌, [], Some, None, IfOk, OnOk, OnErr, IsSome};
ghost use Rattle.std.specs.Option.{option_copied};
ghost use Rattle.mapped_streams.specs.Dialogues.{MayHear, said_to, left_after, IsStep};
ghost use Rattle.mapped_streams.specs.Turns.{stood_after};
ghost use Rattle.mapped_streams.specs.States.{rest, streaming_of};
ghost use Rattle.mapped_streams.specs.Works.{IsText, IsWork};
ghost use Rattle.mapped_streams.specs.Pages.{IsMapped};
ghost use Rattle.mapped_streams.specs.declared.gathered.Gathered.TheVariants.{All, Lines};
ghost use Rattle.mapped_streams.specs.declared.work.Side.TheVariants.{Before};
ghost use Rattle.mapped_streams.specs.declared.work.Work.TheVariants.{Read as ReadWork, Append as AppendWork, Copy as CopyWork};
ghost use Rattle.mapped_streams.specs.Streams.{read_all, count_lines, append, copy};

use crate::gathered::Gathered;
use crate::mapped::Mapped;
use crate::step::StreamStep;
use crate::streaming::Streaming;
use crate::work::{Side, Work};
use dom_history::Reply;
use std::alloc::Global;
use std::marker::Model;
use uid_names::{ByteList, NoMemory, Uid};

/// A stream on an object.
///
/// It is seen as how far it has come; as None once it is over or found no memory, and is then not called again.
#[derive(Drop)]
pub struct Stream {
    streaming: Streaming,
    over: bool,
}

impl Model for Stream {
    ghost use Rattle.std.specs.Prelude.{Option};
    ghost use Rattle.mapped_streams.specs.declared.streaming.Streaming.{Streaming};
    ghost use Rattle.mapped_streams.specs.States.{unless, IfOn};

    ghost Value = { Option Streaming };

    ghost view = { λ m. unless m.over m.streaming };

    ghost invariant = { λ m. IfOn m.over m.streaming };
}

impl Stream {
    /// A stream that does this work on an object, before it begins. Takes no memory.
    fn new(uid: Uid, work: Work) -> Stream
        requires { IsWork work }
        ensures { result ≡ Some (streaming_of uid work) }
    {
        Stream {
            streaming: Streaming::new(uid, work),
            over: false,
        }
    }

    #[tactic(auto, using(crate::proofs::Beginnings::read_begins, crate::proofs::Beginnings::read_made))]
    /// Reads an object whole. It comes to its bytes. Takes no memory before it is told a reply.
    pub fn read_all(alloc: Global, uid: Uid) -> Stream
        ensures made { result ≡ Some (streaming_of uid (ReadWork 0 (All []))) }
        ensures left { rest result ≡ Some (read_all uid) }
    {
        let gathered = Gathered::All(ByteList::new(alloc));
        Stream::new(uid, Work::Read { page: 0, gathered })
    }

    /// Counts the lines of an object: its bytes 0x0A. Takes no memory before it is told a reply.
    pub fn count_lines(uid: Uid) -> Stream
        ensures made { result ≡ Some (streaming_of uid (ReadWork 0 (Lines 0))) }
        ensures left { rest result ≡ Some (count_lines uid) }
    {
        let gathered = Gathered::Lines(0);
        Stream::new(uid, Work::Read { page: 0, gathered })
    }

    /// Puts a text of at most a page behind the bytes of an object.
    pub fn append(alloc: Global, uid: Uid, text: &[u8]) -> Result<Stream, NoMemory>
        requires { IsText text.now }
        ensures made { IfOk result (λ m. m ≡ Some (streaming_of uid (AppendWork text.now (Some Before)))) }
        ensures left { IfOk result (λ m. rest m ≡ Some (append uid text.now)) }
    {
        let text = ByteList::from_slice(alloc, text)?;
        let work = Work::Append {
            text,
            side: Some(Side::Before),
        };
        Ok(Stream::new(uid, work))
    }

    /// Puts the bytes of an object that is mapped here and has this length into another one. Who opened the source
    /// closes it. Takes no memory before it is told a reply.
    pub fn copy(address: u32, length: u32, to: Uid) -> Stream
        requires { IsMapped (record { address = address; length = length }) }
        ensures made { result ≡ Some (streaming_of to (CopyWork (record { address = address; length = length }) 0 None)) }
        ensures left { rest result ≡ Some (copy (record { address = address; length = length }) to) }
    {
        let work = Work::Copy {
            source: Mapped { address, length },
            page: 0,
            loaded: None,
        };
        Stream::new(to, work)
    }

    #[tactic(auto, using(crate::proofs::Stages::fits_op, crate::proofs::Stages::stands_on, crate::proofs::Stages::says_on))]
    /// Tells it the reply to its operation; nothing at the first call.
    pub fn next(&mut self, alloc: Global, last: Option<&Reply>) -> Result<StreamStep, NoMemory>
        requires fits { MayHear (rest self.old) (option_copied last) }
        ensures after { OnOk result (self.new ≡ stood_after self.old (option_copied last.entry)) }
        ensures left { OnOk result (rest self.new ≡ left_after (rest self.old) (option_copied last.entry)) }
        ensures step { IfOk result (λ step. Some step ≡ said_to (rest self.old) (option_copied last.entry)) }
        ensures range { IfOk result IsStep }
        ensures memory { OnErr result (self.new ≡ None) }
    {
        self.over = true;
        if let Some(reply) = last {
            if let Some(result) = self.streaming.hear(alloc, reply)? {
                return Ok(StreamStep::Over(result));
            }
        }
        let op = self.streaming.op(alloc)?;
        self.over = false;
        Ok(StreamStep::Do(op))
    }
}
