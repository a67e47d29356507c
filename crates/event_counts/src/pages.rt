//! Which loads and stores asked no home, why a node dropped pages, and for what it sent them home.
ghost use Rattle.std.specs.Prelude.{◌≡◌, count_by, option_copied, sum_by, IfSome};
ghost use Rattle.std.specs.List.{list_any};
ghost use Rattle.event_counts.specs.PageCounts.{asks_for as asks_page_for, dropped_for as dropped_of, is_access as is_one_access, is_cause as is_such_cause, is_done as is_ok, is_errand as is_such_errand, is_first as is_first_word, is_hit as is_counted_hit, is_release as is_one_release, sends_home as sends_counted, words_for as words_behind, words_in as words_of_row, words_named as words_of_name};

use crate::commands::{first_word, is_named};
use crate::frames::is_of_kind;
use crate::nodes::{asks, dropped_at};
use dom_history::Sent;
use event_views::labels::command_of;
use event_views::{CommandName, CommandView, EventView, FrameView, RunView};
use uid_names::{ByteList, FrameKind, NodeId};

/// Why pages were dropped.
#[derive(Clone, Copy, Debug, PartialEq, Eq)]
pub enum Cause {
    /// To make room for the page that the event asks for.
    Room,
    /// Since a grant told that another process had stored.
    Written,
    /// Since the object is gone.
    Gone,
}

/// For what a page was sent home.
#[derive(Clone, Copy, Debug, PartialEq, Eq)]
pub enum Errand {
    /// To make room for that of a load or a store.
    Room,
    /// Before a lock is given up.
    Release,
    /// For a command that makes several operations, so that its words do not tell which of them it was.
    Other,
}

fn is_first(words: &[u8], word: &[u8]) -> bool
    ensures { result ≡ is_first_word words.now word.now }
{
    first_word(words) == word
}

fn is_access(words: &[u8]) -> bool
    ensures { result ≡ is_one_access words.now }
{
    is_first(words, b"load")
        || is_first(words, b"store")
        || is_first(words, b"loadat")
        || is_first(words, b"storeat")
}

fn is_release(words: &[u8]) -> bool
    ensures { result ≡ is_one_release words.now }
{
    is_first(words, b"unlock") || is_first(words, b"delete")
}

fn is_done(answer: &Option<ByteList>) -> bool
    ensures { result ≡ is_ok answer.now }
{
    match answer {
        None => false,
        Some(answer) => answer.bytes().starts_with(b"ok"),
    }
}

fn asks_for(command: &CommandName, sent: &Option<FrameView>) -> bool
    ensures { result ≡ asks_page_for command.now sent.now }
{
    match sent {
        None => false,
        Some(frame) => {
            frame.said.kind.number() == FrameKind::PageIn.number()
                && is_named(command, &frame.command)
        }
    }
}

/// Whether a page was asked for a command.
fn is_asked_for(command: &CommandName, views: &[EventView]) -> bool
    ensures { result ≡ list_any (λ v. asks_page_for command.now v.sent) views.now }
{
    for view in views {
        if asks_for(command, &view.sent) {
            return true;
        }
    }
    false
}

fn is_hit(node: NodeId, views: &[EventView], row: &CommandView) -> bool
    ensures { result ≡ is_counted_hit node views.now row.now }
{
    row.name.proc.node().number() == node.number()
        && is_access(row.words.bytes())
        && is_done(&row.answer)
        && !is_asked_for(&row.name, views)
}

/// How many commands of a node's processes that are one load or one store were answered ok with no page asked for them: the node had the page, or
/// another process had asked for it.
pub fn page_hits(run: &RunView, node: NodeId) -> usize
    ensures { result ≡ count_by (is_counted_hit node run.now.events) run.now.commands }
{
    let mut count = 0;
    for row in run.commands() {
        if is_hit(node, run.events(), row) {
            count += 1;
        }
    }
    count
}

impl Cause {
    fn is(self, sent: &Option<Sent>, met: &Option<FrameView>) -> bool
        ensures { result ≡ is_such_cause self sent.now met.now }
    {
        match self {
            Cause::Room => sent.is_some(),
            Cause::Written => sent.is_none() && is_of_kind(FrameKind::Granted, met),
            Cause::Gone => sent.is_none() && !is_of_kind(FrameKind::Granted, met),
        }
    }
}

fn dropped_for(node: NodeId, cause: Cause, view: &EventView) -> usize
    ensures { result ≡ dropped_of node cause view.now }
{
    if cause.is(&view.event.effects().sent, &view.met) {
        dropped_at(node, view)
    } else {
        0
    }
}

/// How many pages a node dropped for this cause; None where no number of 64 bits is as great.
pub fn pages_dropped_for(run: &RunView, node: NodeId, cause: Cause) -> Option<usize>
    ensures { IfSome result (λ n. n ≡ sum_by (dropped_of node cause) run.now.events) }
{
    let mut total: usize = 0;
    for view in run.events() {
        total = total.checked_add(dropped_for(node, cause, view))?;
    }
    Some(total)
}

fn words_in(row: Option<&CommandView>) -> &[u8]
    ensures { result.now ≡ words_of_row (option_copied row.entry) }
{
    match row {
        None => b"",
        Some(row) => row.words.bytes(),
    }
}

fn words_named<'a>(commands: &'a [CommandView], name: &Option<CommandName>) -> &'a [u8]
    ensures { result.now ≡ words_of_name commands.now name.now }
{
    match name {
        None => b"",
        Some(name) => words_in(command_of(commands, name)),
    }
}

/// The words of the command for which a frame was sent, none where it is not known.
fn words_for<'a>(commands: &'a [CommandView], frame: &Option<FrameView>) -> &'a [u8]
    ensures { result.now ≡ words_behind commands.now frame.now }
{
    match frame {
        None => b"",
        Some(frame) => words_named(commands, &frame.command),
    }
}

impl Errand {
    fn is(self, words: &[u8]) -> bool
        ensures { result ≡ is_such_errand self words.now }
    {
        match self {
            Errand::Room => is_access(words),
            Errand::Release => is_release(words),
            Errand::Other => !(is_access(words) || is_release(words)),
        }
    }
}

fn sends_home(node: NodeId, commands: &[CommandView], errand: Errand, view: &EventView) -> bool
    ensures { result ≡ sends_counted node commands.now errand view.now }
{
    asks(node, FrameKind::PageOut, view) && errand.is(words_for(commands, &view.sent))
}

/// How often a node sent a page home on this errand.
pub fn pages_sent_home_for(run: &RunView, node: NodeId, errand: Errand) -> usize
    ensures { result ≡ count_by (sends_counted node run.now.commands errand) run.now.events }
{
    let commands = run.commands();
    let mut count = 0;
    for view in run.events() {
        if sends_home(node, commands, errand, view) {
            count += 1;
        }
    }
    count
}
