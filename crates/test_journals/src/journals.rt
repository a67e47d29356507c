ghost use Rattle.std.specs.Prelude.{IfSome};
ghost use Rattle.dom_history.specs.Events.{IsKindNumber};
ghost use Rattle.dom_history.specs.Ranges.{IsProcNumber};

use What::{Begin, Mark, Notice, Ready, Take};
use dom_history::{
    Dropped, Effects, EndWord, Event, EventList, MergedLogs, NodeLog, NodeNames, Sent, What,
};
use dom_io::MemSink;
use journal_text::{
    JournalFault, JournalLines, are_merged_named, are_named, read_journal, write_journal,
};
use std::alloc::Global;
use std::process::Abort;
use std::test::Fail;
use uid_names::{ByteList, FrameKind, NodeId, Place, Uid};

/// Tick, node, what, the frame that was sent, and how an operation of process 1 ended.
type Row = (
    u64,
    NodeId,
    What,
    Option<(NodeId, u64, FrameKind, u64)>,
    Option<EndWord>,
);

/// A run of one node.
const ONE_NODE: &str = "1 a begin 1; send a 1 make 1
2 a take a 1; send a 2 made 1
3 a take a 2; end 1 ok
4 a begin 1; send a 3 lock 2
5 a take a 3; send a 4 granted 2
6 a take a 4; end 1 ok
7 a begin 1; send a 5 page-in 3
8 a take a 5; send a 6 page 3
9 a take a 6; end 1 ok
10 a begin 1; end 1 ok
11 a begin 1; send a 7 page-out 4
12 a take a 7; send a 8 stored 4
13 a take a 8; send a 9 attr-out 5
14 a take a 9; send a 10 stored 5
15 a take a 10; send a 11 unlock 6
16 a take a 11; send a 12 done 6
17 a take a 12; end 1 ok
18 a begin 1
19 a ready 1
";

/// A run of two nodes in which a frame is lost.
const LOST_FRAME: &str = "1 a begin 1; send b 1 lock 1
2 b take a 1; send a 1 granted 1
3 a notice 1 b a 1; send b 2 lock 1
4 b take a 2; send a 2 granted 1
5 a take b 2; end 1 ok
6 a begin 1; send b 3 unlock 2
7 b take a 3; send a 3 done 2
8 a take b 3; end 1 ok
8 b ready 1
9 a begin 1
10 a ready 1
11 a mark b 1
11 b mark a 1
";

fn node(number: u8) -> Result<NodeId, Fail> {
    Ok(NodeId::new(number).ok_or("no such node")?)
}

/// A frame that was sent to a node.
fn to(
    node: NodeId,
    index: u64,
    kind: FrameKind,
    number: u64,
) -> Option<(NodeId, u64, FrameKind, u64)> {
    Some((node, index, kind, number))
}

fn sent_of(frame: Option<(NodeId, u64, FrameKind, u64)>) -> Option<Sent>
    ensures { IfSome result (λ s. IsKindNumber s.kind) }
{
    match frame {
        None => None,
        Some((to, index, kind, number)) => Some(Sent {
            to,
            index,
            kind: kind.number(),
            number,
        }),
    }
}

fn ended_of(word: Option<EndWord>) -> Option<(u8, EndWord)>
    ensures { IfSome result (λ e. IsProcNumber e.0) }
{
    match word {
        None => None,
        Some(word) => Some((1, word)),
    }
}

fn event(rt: &impl Abort, dropped: Dropped, row: &Row) -> Event {
    assert!(rt; row.2.is_valid());
    assert!(rt; dropped.is_rising());
    let place = Place {
        tick: row.0,
        node: row.1,
    };
    let effects = Effects {
        dropped,
        sent: sent_of(row.3),
        ended: ended_of(row.4),
    };
    Event::new(place, row.2, effects)
}

/// The names `a` and `b`.
fn names(alloc: Global) -> Result<NodeNames, Fail> {
    let a = ByteList::from_slice(alloc, b"a")?;
    let b = ByteList::from_slice(alloc, b"b")?;
    Ok(NodeNames::from_list(alloc, &[a, b])?)
}

/// Whether the events of these rows have this journal.
fn is_written(rt: &impl Abort, alloc: Global, rows: &[Row], text: &[u8]) -> Result<bool, Fail> {
    let mut events = EventList::new(alloc);
    for row in rows {
        events.push(event(rt, Dropped::new(alloc), row))?;
    }
    let names = names(alloc)?;
    if !are_named(&events, &names) {
        return Err("a node without a name".into());
    }
    let journal = write_journal(alloc, &events, &names)?;
    Ok(journal.bytes() == text)
}

#[test]
fn a_run_of_one_node_has_its_nineteen_lines(rt: HostRuntime) -> Result<(), Fail> {
    let a = node(1)?;
    let rows: [Row; 19] = [
        (1, a, Begin(1), to(a, 1, FrameKind::Make, 1), None),
        (2, a, Take(a, 1), to(a, 2, FrameKind::Made, 1), None),
        (3, a, Take(a, 2), None, Some(EndWord::Fine)),
        (4, a, Begin(1), to(a, 3, FrameKind::Lock, 2), None),
        (5, a, Take(a, 3), to(a, 4, FrameKind::Granted, 2), None),
        (6, a, Take(a, 4), None, Some(EndWord::Fine)),
        (7, a, Begin(1), to(a, 5, FrameKind::PageIn, 3), None),
        (8, a, Take(a, 5), to(a, 6, FrameKind::Page, 3), None),
        (9, a, Take(a, 6), None, Some(EndWord::Fine)),
        (10, a, Begin(1), None, Some(EndWord::Fine)),
        (11, a, Begin(1), to(a, 7, FrameKind::PageOut, 4), None),
        (12, a, Take(a, 7), to(a, 8, FrameKind::Stored, 4), None),
        (13, a, Take(a, 8), to(a, 9, FrameKind::AttrOut, 5), None),
        (14, a, Take(a, 9), to(a, 10, FrameKind::Stored, 5), None),
        (15, a, Take(a, 10), to(a, 11, FrameKind::Unlock, 6), None),
        (16, a, Take(a, 11), to(a, 12, FrameKind::Done, 6), None),
        (17, a, Take(a, 12), None, Some(EndWord::Fine)),
        (18, a, Begin(1), None, None),
        (19, a, Ready(1), None, None),
    ];
    assert!(rt; is_written(&rt, rt.alloc(), &rows, ONE_NODE.as_bytes())?);
    Ok(())
}

#[test]
fn a_lost_frame_of_two_nodes_has_its_thirteen_lines(rt: HostRuntime) -> Result<(), Fail> {
    let (a, b) = (node(1)?, node(2)?);
    let rows: [Row; 13] = [
        (1, a, Begin(1), to(b, 1, FrameKind::Lock, 1), None),
        (2, b, Take(a, 1), to(a, 1, FrameKind::Granted, 1), None),
        (3, a, Notice(1, b, a, 1), to(b, 2, FrameKind::Lock, 1), None),
        (4, b, Take(a, 2), to(a, 2, FrameKind::Granted, 1), None),
        (5, a, Take(b, 2), None, Some(EndWord::Fine)),
        (6, a, Begin(1), to(b, 3, FrameKind::Unlock, 2), None),
        (7, b, Take(a, 3), to(a, 3, FrameKind::Done, 2), None),
        (8, a, Take(b, 3), None, Some(EndWord::Fine)),
        (8, b, Ready(1), None, None),
        (9, a, Begin(1), None, None),
        (10, a, Ready(1), None, None),
        (11, a, Mark(b, 1), None, None),
        (11, b, Mark(a, 1), None, None),
    ];
    assert!(rt; is_written(&rt, rt.alloc(), &rows, LOST_FRAME.as_bytes())?);
    Ok(())
}

#[test]
fn dropped_pages_stand_before_what_was_sent_and_ended(rt: HostRuntime) -> Result<(), Fail> {
    let a = node(1)?;
    let mut dropped = Dropped::new(rt.alloc());
    dropped.push((Uid::from_parts(2, a), 0))?;
    dropped.push((Uid::from_parts(2, a), 1023))?;
    let row: Row = (
        7,
        a,
        What::Go(4),
        Some((a, 9, FrameKind::PageIn, 3)),
        Some(EndWord::NoObject),
    );
    let mut events = EventList::new(rt.alloc());
    events.push(event(&rt, dropped, &row))?;
    let names = names(rt.alloc())?;
    assert!(rt; are_named(&events, &names));
    let journal = write_journal(rt.alloc(), &events, &names)?;
    let text =
        b"7 a go 4; drop 0000000000200001 0; drop 0000000000200001 1023; send a 9 page-in 3; end 1 no-object\n";
    assert_eq!(rt; journal.bytes(), text.as_slice());
    Ok(())
}

/// Whether the bytes are read as a journal, and written again as they are.
fn is_read_again(alloc: Global, text: &[u8]) -> Result<bool, Fail> {
    let names = names(alloc)?;
    let Ok(events) = read_journal(alloc, text, &names) else {
        return Ok(false);
    };
    if !are_named(&events, &names) {
        return Err("a node without a name".into());
    }
    let journal = write_journal(alloc, &events, &names)?;
    Ok(journal.bytes() == text)
}

/// Whether the first bad line of each text is the one beside it.
fn are_refused(alloc: Global, rows: &[(&str, u64)]) -> Result<bool, Fail> {
    let names = names(alloc)?;
    for (text, line) in rows {
        match read_journal(alloc, text.as_bytes(), &names) {
            Err(JournalFault::BadLine(found)) if found == *line => {}
            _ => return Ok(false),
        }
    }
    Ok(true)
}

#[test]
fn journals_are_read_and_written_again(rt: HostRuntime) -> Result<(), Fail> {
    assert!(rt; is_read_again(rt.alloc(), ONE_NODE.as_bytes())?);
    assert!(rt; is_read_again(rt.alloc(), LOST_FRAME.as_bytes())?);
    assert!(rt; is_read_again(rt.alloc(), b"")?);
    Ok(())
}

#[test]
fn each_event_and_effect_is_read(rt: HostRuntime) -> Result<(), Fail> {
    let text = b"0 a take b 0; send b 0 page-in 0
1 a go 4; drop 0000000000200001 0; drop 0000000000200001 1023; drop 0000000000200002 7; send a 9 attr-out 3; end 1 too-many-maps
1 b notice 2 a b 18446744073709551615; end 4 not-mapped
2 a ready 4294967295
18446744073709551615 b mark a 0; drop fffffffffff00008 4294967295
";
    assert!(rt; is_read_again(rt.alloc(), text)?);
    Ok(())
}

#[test]
fn the_first_line_that_is_none_or_not_above_the_one_before_is_named(
    rt: HostRuntime,
) -> Result<(), Fail> {
    let rows = [
        (
            "2 b take a 1; send a 1 granted 1\n1 a begin 1; send b 1 lock 1\n",
            2,
        ),
        ("1 b begin 1\n1 a begin 1\n", 2),
        ("1 a begin 1\n2 a begin 1\n2 a go 1\n", 3),
        ("1 a begin 5\n", 1),
        ("1 a begin 4\n2 a begin 0\n\n", 2),
        ("1 a begin 1\n2 a ready 1", 2),
    ];
    assert!(rt; are_refused(rt.alloc(), &rows)?);
    Ok(())
}

#[test]
fn texts_that_differ_from_a_line_are_refused(rt: HostRuntime) -> Result<(), Fail> {
    let rows = [
        ("\n", 1),
        (" 1 a begin 1\n", 1),
        ("1  a begin 1\n", 1),
        ("1 a begin 1 \n", 1),
        ("1 a begin 1\r\n", 1),
        ("01 a begin 1\n", 1),
        ("1 a begin 01\n", 1),
        ("1 c begin 1\n", 1),
        ("1 a start 1\n", 1),
        ("1 a begin\n", 1),
        ("1 a take b\n", 1),
        ("1 a ready 4294967296\n", 1),
        ("18446744073709551616 a begin 1\n", 1),
        ("1 a take a 18446744073709551616\n", 1),
        ("1 a begin 1;\n", 1),
        ("1 a begin 1; \n", 1),
        ("1 a begin 1 end 1 ok\n", 1),
        ("1 a begin 1;end 1 ok\n", 1),
        ("1 a begin 1;  end 1 ok\n", 1),
        ("1 a begin 1; end 1 done\n", 1),
        ("1 a begin 1; end 5 ok\n", 1),
    ];
    assert!(rt; are_refused(rt.alloc(), &rows)?);
    Ok(())
}

#[test]
fn effects_that_differ_from_a_line_are_refused(rt: HostRuntime) -> Result<(), Fail> {
    let rows = [
        ("1 a begin 1; send a 1 ok 1\n", 1),
        ("1 a begin 1; send c 1 make 1\n", 1),
        ("1 a begin 1; send a 1 make\n", 1),
        ("1 a begin 1; send a 1 make 1; send a 2 make 1\n", 1),
        ("1 a begin 1; end 1 ok; end 1 ok\n", 1),
        ("1 a begin 1; end 1 ok; send a 1 make 1\n", 1),
        ("1 a begin 1; send a 1 make 1; drop 0000000000200001 0\n", 1),
        (
            "1 a begin 1; drop 0000000000200001 1; drop 0000000000200001 0\n",
            1,
        ),
        (
            "1 a begin 1; drop 0000000000200001 1; drop 0000000000200001 1\n",
            1,
        ),
        (
            "1 a begin 1; drop 0000000000200002 0; drop 0000000000200001 1\n",
            1,
        ),
        ("1 a begin 1; drop 000000000020000A 0\n", 1),
        ("1 a begin 1; drop 0000000000200009 0\n", 1),
        ("1 a begin 1; drop 0000000000200001 4294967296\n", 1),
    ];
    assert!(rt; are_refused(rt.alloc(), &rows)?);
    Ok(())
}

/// Copies of the events of a node.
fn log_of(alloc: Global, events: &EventList, node: NodeId) -> Result<NodeLog, Fail> {
    let mut own = EventList::new(alloc);
    for event in events.items() {
        if event.place().node == node {
            own.push(event.copy(alloc)?)?;
        }
    }
    Ok(NodeLog { node, events: own })
}

/// The events of a journal of the nodes `a` and `b`, in their logs.
fn merged_of(alloc: Global, text: &[u8]) -> Result<MergedLogs, Fail> {
    let Ok(events) = read_journal(alloc, text, &names(alloc)?) else {
        return Err("no journal".into());
    };
    let mut logs = Vec::new(alloc);
    logs.push(log_of(alloc, &events, node(1)?)?)?;
    logs.push(log_of(alloc, &events, node(2)?)?)?;
    let mut merged = MergedLogs::new(alloc, logs)?;
    for event in events.items() {
        let i = usize::from(event.place().node == node(2)?);
        if i >= merged.logs().len() || merged.next(i).is_none() {
            return Err("no such event".into());
        }
        merged.pass(i)?;
    }
    Ok(merged)
}

/// Whether the lines are written of which a journal has these, and into a sink whose calls of these numbers fail whether they
/// are not, and what the sink holds is how the journal begins.
fn is_written_in_pieces(alloc: Global, text: &[u8], fails: &[u64]) -> Result<bool, Fail> {
    let (merged, names) = (merged_of(alloc, text)?, names(alloc)?);
    if !are_merged_named(alloc, &merged, &names)? {
        return Err("a node without a name".into());
    }
    let mut sink = MemSink::new(alloc, text.len(), fails)?;
    let written = JournalLines::new(alloc, &merged, &names)?
        .write(&mut sink)
        .is_ok();
    Ok(
        text.starts_with(sink.bytes())
            && written == fails.is_empty()
            && written == (sink.bytes().len() == text.len()),
    )
}

/// A journal of so many lines, of two nodes in turn.
fn long_journal(alloc: Global, lines: u64) -> Result<ByteList, Fail> {
    let mut text = ByteList::new(alloc);
    for tick in 1..=lines {
        let node = if tick % 2 == 0 { "a" } else { "b" };
        text.extend(format!(in alloc;
            "{tick} {node} begin 1; send {node} {tick} page-in 3\n"
        )?.as_bytes())?;
    }
    Ok(text)
}

#[test]
fn journals_are_written_in_pieces(rt: HostRuntime) -> Result<(), Fail> {
    assert!(rt; is_written_in_pieces(rt.alloc(), ONE_NODE.as_bytes(), &[])?);
    assert!(rt; is_written_in_pieces(rt.alloc(), LOST_FRAME.as_bytes(), &[])?);
    assert!(rt; is_written_in_pieces(rt.alloc(), LOST_FRAME.as_bytes(), &[1])?);
    assert!(rt; is_written_in_pieces(rt.alloc(), b"", &[])?);
    let text = long_journal(rt.alloc(), 4_000)?;
    assert!(rt; is_written_in_pieces(rt.alloc(), text.bytes(), &[])?);
    assert!(rt; is_written_in_pieces(rt.alloc(), text.bytes(), &[1])?);
    assert!(rt; is_written_in_pieces(rt.alloc(), text.bytes(), &[2])?);
    assert!(rt; is_written_in_pieces(rt.alloc(), text.bytes(), &[3])?);
    Ok(())
}
