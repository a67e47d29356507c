//! The words in which events and frames are shown.
ghost use Rattle.std.specs.Prelude.{◌≡◌, ◌++◌, IfOk, OnOk, decimal, option_copied, find};
ghost use Rattle.std.specs.List.{flat_map};
ghost use Rattle.uid_names.specs.Names.{same_uid};
ghost use Rattle.dom_history.specs.Events.{IsKindNumber};
ghost use Rattle.dom_history.specs.declared.event.What.TheVariants as events;
ghost use Rattle.journal_text.specs.Lines.{kind_text, numbered_text, what_text};
ghost use Rattle.event_views.specs.Commands.{command_text};
ghost use Rattle.event_views.specs.Labels.{object_text, object_part, page_part, mode_part, said_text, sent_label as sent_label_of, sent_title as sent_title_of, command_in, words_behind, answer_behind, answer_of, begun_text, answered_text, with_part, begun_label, commands_label, is_mark as is_drawn_across, shown_what, plain_label, drop_label, label_of};

use crate::command::{CommandName, CommandView, put_command};
use crate::run::{EventView, FrameView, RunView};
use crate::said::FrameSaid;
use dom_history::{NodeNames, Sent, What};
use dom_text::put_decimal;
use node_texts::node_text;
use script_reader::VarRow;
use std::alloc::Global;
use uid_names::{ByteList, FrameKind, ItemList, Mode, NoMemory, NodeId, Uid};

/// The row of an object.
fn row_of<'a>(objects: &'a [VarRow], uid: Uid) -> Option<&'a VarRow>
    ensures { option_copied result ≡ find (λ row. same_uid row.uid uid) objects.now }
{
    for row in objects {
        if row.uid.is(uid) {
            return Some(row);
        }
    }
    None
}

/// Puts an object last: its variable, or the digits of its name where it has none.
pub fn put_object(to: &mut ByteList, objects: &[VarRow], uid: Uid) -> Result<(), NoMemory>
    ensures { OnOk result (to.new ≡ to.old ++ object_text objects.now uid) }
{
    match row_of(objects, uid) {
        Some(row) => to.extend(row.var.bytes()),
        None => to.extend(&uid.text()),
    }
}

fn put_object_part(to: &mut ByteList, objects: &[VarRow], uid: Option<Uid>) -> Result<(), NoMemory>
    ensures { OnOk result (to.new ≡ to.old ++ object_part objects.now uid) }
{
    let Some(uid) = uid else {
        return Ok(());
    };
    to.extend(b" ")?;
    put_object(to, objects, uid)
}

fn put_page_part(to: &mut ByteList, page: Option<u32>) -> Result<(), NoMemory>
    ensures { OnOk result (to.new ≡ to.old ++ page_part page) }
{
    let Some(page) = page else {
        return Ok(());
    };
    to.extend(b" ")?;
    put_decimal(to, page as u64)
}

fn put_mode_part(to: &mut ByteList, mode: Option<Mode>) -> Result<(), NoMemory>
    ensures { OnOk result (to.new ≡ to.old ++ mode_part mode) }
{
    let Some(mode) = mode else {
        return Ok(());
    };
    to.extend(&[b' ', mode.letter()])
}

/// Puts what a frame says last: its kind, object, page and mode.
pub fn put_said(to: &mut ByteList, objects: &[VarRow], said: &FrameSaid) -> Result<(), NoMemory>
    ensures { OnOk result (to.new ≡ to.old ++ said_text objects.now said.now) }
{
    to.extend(said.kind.name().as_bytes())?;
    put_object_part(to, objects, said.uid)?;
    put_page_part(to, said.page)?;
    put_mode_part(to, said.mode)
}

/// The name of the kind of this number.
#[tactic(auto, using(journal_text::proofs::KindNames::kind_text_of))]
fn kind_name_of(number: u8) -> &'static str
    requires { IsKindNumber number }
    ensures { result.now ≡ kind_text number }
{
    match FrameKind::from_number(number) {
        Some(kind) => kind.name(),
        None => unreachable!(),
    }
}

fn put_sent(
    to: &mut ByteList,
    run: &RunView,
    sent: &Sent,
    frame: &Option<FrameView>,
) -> Result<(), NoMemory>
    requires { IsKindNumber sent.now.kind }
    ensures { OnOk result (to.new ≡ to.old ++ sent_label_of run.now.objects sent.now frame.now) }
{
    match frame {
        Some(frame) => put_said(to, run.objects(), &frame.said),
        None => to.extend(kind_name_of(sent.kind).as_bytes()),
    }
}

/// The label of a frame that was sent: its kind, object, page and mode; its kind alone where nothing else is known of it.
pub fn sent_label(
    alloc: Global,
    run: &RunView,
    sent: &Sent,
    frame: &Option<FrameView>,
) -> Result<ByteList, NoMemory>
    requires { IsKindNumber sent.now.kind }
    ensures { IfOk result (λ text. text ≡ sent_label_of run.now.objects sent.now frame.now) }
{
    let mut text = ByteList::new(alloc);
    put_sent(&mut text, run, sent, frame)?;
    Ok(text)
}

/// The label with the frame's link, its number there, and the number of its call.
pub fn sent_title(
    alloc: Global,
    run: &RunView,
    from: NodeId,
    sent: &Sent,
    frame: &Option<FrameView>,
) -> Result<ByteList, NoMemory>
    requires { IsKindNumber sent.now.kind }
    ensures { IfOk result (λ text. text ≡ sent_title_of run.now from sent.now frame.now) }
{
    let mut text = ByteList::new(alloc);
    put_sent(&mut text, run, sent, frame)?;
    text.extend(b"; frame ")?;
    put_decimal(&mut text, sent.index)?;
    text.extend(b" from ")?;
    text.extend(node_text(run.names(), from))?;
    text.extend(b" to ")?;
    text.extend(node_text(run.names(), sent.to))?;
    text.extend(b", call ")?;
    put_decimal(&mut text, sent.number)?;
    Ok(text)
}

/// The command of this name. Takes no memory.
pub fn command_of<'a>(commands: &'a [CommandView], name: &CommandName) -> Option<&'a CommandView>
    ensures { option_copied result ≡ command_in commands.now name.now }
{
    for row in commands {
        if row.name.is(name) {
            return Some(row);
        }
    }
    None
}

fn put_words(to: &mut ByteList, row: Option<&CommandView>) -> Result<(), NoMemory>
    ensures { OnOk result (to.new ≡ to.old ++ words_behind (option_copied row.entry)) }
{
    let Some(row) = row else {
        return Ok(());
    };
    to.extend(b" ")?;
    to.extend(row.words.bytes())
}

fn put_answer(to: &mut ByteList, row: Option<&CommandView>) -> Result<(), NoMemory>
    ensures { OnOk result (to.new ≡ to.old ++ answer_behind (answer_of (option_copied row.entry))) }
{
    let Some(row) = row else {
        return Ok(());
    };
    let Some(answer) = &row.answer else {
        return Ok(());
    };
    to.extend(b" ")?;
    to.extend(answer.bytes())
}

/// Puts a command where it begins: its name and its words.
fn put_begun(to: &mut ByteList, run: &RunView, name: &CommandName) -> Result<(), NoMemory>
    ensures { OnOk result (to.new ≡ to.old ++ begun_text run.now name.now) }
{
    put_command(to, run.names(), name)?;
    put_words(to, command_of(run.commands(), name))
}

/// Puts a command where it is answered: its name and its answer.
fn put_answered(to: &mut ByteList, run: &RunView, name: &CommandName) -> Result<(), NoMemory>
    ensures { OnOk result (to.new ≡ to.old ++ answered_text run.now name.now) }
{
    put_command(to, run.names(), name)?;
    put_answer(to, command_of(run.commands(), name))
}

/// Puts a command that was answered behind the parts before it.
fn put_answered_part(to: &mut ByteList, run: &RunView, name: &CommandName) -> Result<(), NoMemory>
    ensures { OnOk result (to.new ≡ with_part to.old (answered_text run.now name.now)) }
{
    if !to.bytes().is_empty() {
        to.extend(b"; ")?;
    }
    put_answered(to, run, name)
}

fn begun_text_of(
    alloc: Global,
    run: &RunView,
    begun: &Option<CommandName>,
) -> Result<ByteList, NoMemory>
    ensures { IfOk result (λ text. text ≡ begun_label run.now begun.now) }
{
    let mut text = ByteList::new(alloc);
    if let Some(name) = begun {
        put_begun(&mut text, run, name)?;
    }
    Ok(text)
}

/// The commands that begin and are answered with an event.
fn commands_text(alloc: Global, run: &RunView, view: &EventView) -> Result<ByteList, NoMemory>
    ensures { IfOk result (λ text. text ≡ commands_label run.now view.now) }
{
    let mut text = begun_text_of(alloc, run, &view.begun)?;
    for name in view.answered.items() {
        put_answered_part(&mut text, run, name)?;
    }
    Ok(text)
}

fn put_numbered(
    to: &mut ByteList,
    names: &NodeNames,
    node: NodeId,
    number: u64,
) -> Result<(), NoMemory>
    ensures { OnOk result (to.new ≡ to.old ++ numbered_text names.now node number) }
{
    to.extend(node_text(names, node))?;
    to.extend(b" ")?;
    put_decimal(to, number)
}

fn put_notice(
    to: &mut ByteList,
    names: &NodeNames,
    proc: u8,
    from: NodeId,
    into: NodeId,
    index: u64,
) -> Result<(), NoMemory>
    ensures { OnOk result (to.new ≡ to.old ++ what_text names.now (events.Notice proc from into index)) }
{
    to.extend(b"notice ")?;
    put_decimal(to, proc as u64)?;
    to.extend(b" ")?;
    to.extend(node_text(names, from))?;
    to.extend(b" ")?;
    put_numbered(to, names, into, index)
}

/// Puts a word and a number last.
fn put_word(to: &mut ByteList, word: &[u8], number: u64) -> Result<(), NoMemory>
    ensures { OnOk result (to.new ≡ to.old ++ (word.now ++ decimal number)) }
{
    to.extend(word)?;
    put_decimal(to, number)
}

/// Puts what an event is, as a journal has it.
fn put_what(to: &mut ByteList, names: &NodeNames, what: &What) -> Result<(), NoMemory>
    ensures { OnOk result (to.new ≡ to.old ++ what_text names.now what.now) }
{
    match what {
        What::Begin(p) => put_word(to, b"begin ", *p as u64),
        What::Go(p) => put_word(to, b"go ", *p as u64),
        What::Take(from, index) => {
            to.extend(b"take ")?;
            put_numbered(to, names, *from, *index)
        }
        What::Notice(p, from, into, index) => put_notice(to, names, *p, *from, *into, *index),
        What::Ready(phase) => put_word(to, b"ready ", *phase as u64),
        What::Mark(from, phase) => {
            to.extend(b"mark ")?;
            put_numbered(to, names, *from, *phase as u64)
        }
    }
}

/// Whether an event is drawn across all lanes: where all processes of its node are at the end of a phase. Takes no memory.
pub fn is_mark(what: &What) -> bool
    ensures { result ≡ is_drawn_across what.now }
{
    matches!(what, What::Ready(_))
}

/// What an event is, and at which node where it is drawn across all lanes.
fn what_shown(
    alloc: Global,
    names: &NodeNames,
    node: NodeId,
    what: &What,
) -> Result<ByteList, NoMemory>
    ensures { IfOk result (λ text. text ≡ shown_what names.now node what.now) }
{
    let mut text = ByteList::new(alloc);
    if is_mark(what) {
        text.extend(node_text(names, node))?;
        text.extend(b" ")?;
    }
    put_what(&mut text, names, what)?;
    Ok(text)
}

fn put_drop(to: &mut ByteList, objects: &[VarRow], uid: Uid, page: u32) -> Result<(), NoMemory>
    ensures { OnOk result (to.new ≡ to.old ++ drop_label objects.now (uid, page)) }
{
    to.extend(b"; drop ")?;
    put_object(to, objects, uid)?;
    to.extend(b" ")?;
    put_decimal(to, page as u64)
}

/// Puts pages that were dropped behind a label.
fn put_drops(to: &mut ByteList, objects: &[VarRow], pages: &[(Uid, u32)]) -> Result<(), NoMemory>
    ensures { OnOk result (to.new ≡ to.old ++ flat_map (drop_label objects.now) pages.now) }
{
    for (uid, page) in pages {
        put_drop(to, objects, *uid, *page)?;
    }
    Ok(())
}

/// The commands that begin and are answered with an event, or what it is where none does.
fn plain_text(alloc: Global, run: &RunView, view: &EventView) -> Result<ByteList, NoMemory>
    ensures { IfOk result (λ text. text ≡ plain_label run.now view.now) }
{
    let text = commands_text(alloc, run, view)?;
    if !text.bytes().is_empty() {
        return Ok(text);
    }
    let node = view.event.place().node;
    what_shown(alloc, run.names(), node, &view.event.what())
}

/// The label of an event: the commands that begin and are answered with it, or what it is where none does, and behind that the pages that it
/// dropped.
pub fn event_label(alloc: Global, run: &RunView, view: &EventView) -> Result<ByteList, NoMemory>
    ensures { IfOk result (λ text. text ≡ label_of run.now view.now) }
{
    let mut text = plain_text(alloc, run, view)?;
    put_drops(
        &mut text,
        run.objects(),
        view.event.effects().dropped.items(),
    )?;
    Ok(text)
}
