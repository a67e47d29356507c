//! Lines that are written in pieces.
ghost use Rattle.std.specs.Prelude.{◌≡◌, ◌+◌, ◌≤◌, ◌++◌, ℕ, List, length, All, IfSome, IfOk, OnOk, OnErr};
ghost use Rattle.std.specs.Io.KnownBytes.{append_known};
ghost use Rattle.dom_io.specs.Counts.{CountRose};
ghost use Rattle.dom_io.specs.Known.{AppendsPrefix};
ghost use Rattle.journal_text.specs.Lines.{line, journal, Names};

use crate::bounds::{DROP_BYTES, SHORT_LINE, line_is_short};
use crate::buffer::LineBuffer;
use crate::writing::write_event;
use dom_history::{LogReader, MergedLogs, NodeNames};
use dom_io::{Sink, WriteFault, write_all};
use std::alloc::Global;
use std::marker::Model;
use uid_names::NoMemory;

/// A piece has at most so many bytes, if it has more than one line.
const PIECE_BYTES: usize = 1 << 16;

/// A number of bytes that no line exceeds of the events that a reader has left; None where no length is as great.
fn longest_of(reader: LogReader<'_>, names: &NodeNames) -> Option<usize>
    ensures { IfSome result (λ n. All (λ e. length (line names.now e) ≤ n) reader.entry) }
{
    // So they are names of nodes, which are short.
    let _count = names.len();
    let mut left = reader;
    let mut dropped: usize = 0;
    while let Some(event) = left.next() {
        line_is_short(event, names);
        dropped = dropped.max(event.effects().dropped.items().len());
    }
    dropped.checked_mul(DROP_BYTES)?.checked_add(SHORT_LINE)
}

/// Writes a piece, if there is no room in it for so many bytes more. Takes no memory.
fn make_room<J: Sink>(sink: &mut J, piece: &mut LineBuffer, bytes: usize) -> Result<(), WriteFault>
    requires { bytes ≤ piece.old.room }
    ensures room { OnOk result (length piece.new.text + bytes ≤ piece.new.room) }
    ensures same { piece.new.room ≡ piece.old.room }
    ensures written { OnOk result ((text : List ℕ) × (J.held sink.new ≡ append_known (J.held sink.old) text) × (text ++ piece.new.text ≡ piece.old.text)) }
    ensures fault { OnErr result (CountRose (J.faults sink.old) (J.faults sink.new)) }
    ensures prefix { OnErr result (AppendsPrefix (J.held sink.old) (J.held sink.new) piece.old.text) }
    ensures count { J.faults sink.old ≤ J.faults sink.new }
{
    if piece.left() < bytes {
        write_all(sink, piece.bytes())?;
        piece.clear();
    }
    Ok(())
}

/// The lines of the events of several logs, in their order, and room for a piece of them.
#[derive(Drop)]
pub struct JournalLines<'a> {
    left: LogReader<'a>,
    names: &'a NodeNames,
    piece: LineBuffer,
    longest: usize,
}

impl<'a> Model for JournalLines<'a> {
    ghost use Rattle.std.specs.Prelude.{ℕ, ◌≤◌, ◌++◌, List, All, length};
    ghost use Rattle.journal_text.specs.Lines.{line, journal, Names};

    ghost Value = { List ℕ };

    ghost view = { λ l. l.piece.text ++ journal l.names.now l.left };

    ghost invariant = { λ l. All (Names l.names.now) l.left × (All (λ e. length (line l.names.now e) ≤ l.longest) l.left × (l.longest ≤ l.piece.room)) };
}

impl<'a> JournalLines<'a> {
    /// The lines of the events that came.
    pub fn new(
        alloc: Global,
        events: &'a MergedLogs,
        names: &'a NodeNames,
    ) -> Result<JournalLines<'a>, NoMemory>
        requires { All (Names names.now) events.now.events }
        ensures { IfOk result (λ lines. lines ≡ journal names.now events.now.events) }
    {
        // No memory holds a line that is longer than each length.
        let longest = longest_of(events.reader(alloc)?, names).ok_or(NoMemory)?;
        let piece = LineBuffer::with_room(alloc, longest.max(PIECE_BYTES))?;
        let left = events.reader(alloc)?;
        Ok(JournalLines {
            left,
            names,
            piece,
            longest,
        })
    }

    /// Writes them. Takes no memory.
    pub fn write<J: Sink>(self, journal: &mut J) -> Result<(), WriteFault>
        ensures ok { OnOk result (J.held journal.new ≡ append_known (J.held journal.old) self.entry) }
        ensures fault { OnErr result (CountRose (J.faults journal.old) (J.faults journal.new)) }
        ensures prefix { OnErr result (AppendsPrefix (J.held journal.old) (J.held journal.new) self.entry) }
        ensures count { J.faults journal.old ≤ J.faults journal.new }
    {
        let JournalLines {
            mut left,
            names,
            mut piece,
            longest,
        } = self;
        while let Some(event) = left.next() {
            make_room(journal, &mut piece, longest)?;
            write_event(event, names, &mut piece);
        }
        write_all(journal, piece.bytes())
    }
}
