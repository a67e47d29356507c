//! How commands went.
ghost use Rattle.std.specs.Prelude.{◌≡◌, ◌<◌, length, count_by, IfSome, IfOk};
ghost use Rattle.std.specs.List.{filter_map, list_any};
ghost use Rattle.dom_text.specs.Cuts.{cut_at};
ghost use Rattle.event_views.specs.Chosen.{names_command};
ghost use Rattle.event_views.specs.Commands.{same_command};
ghost use Rattle.event_counts.specs.CommandCounts.{begin_of, end_of, span as span_between, span_of as span_in, front_of, is_of_kind as is_kind_of, span_of_kind as span_when, is_conflict as is_a_conflict, is_refused as is_refused_lock};

use dom_text::cut;
use event_views::{CommandName, CommandView, EventView, RunView};
use std::alloc::Global;
use uid_names::{ByteList, ItemList, NoMemory};

pub(crate) fn is_named(command: &CommandName, named: &Option<CommandName>) -> bool
    ensures { result ≡ names_command command.now named.now }
{
    match named {
        None => false,
        Some(named) => command.is(named),
    }
}

fn is_among(command: &CommandName, named: &[CommandName]) -> bool
    ensures { result ≡ list_any (same_command command.now) named.now }
{
    for other in named {
        if command.is(other) {
            return true;
        }
    }
    false
}

/// The index of the first event with which a command begins.
fn begin(views: &[EventView], command: &CommandName) -> Option<usize>
    ensures value { result ≡ begin_of command.now views.now }
    ensures bound { IfSome result (λ at. at < length views.now) }
{
    views.iter().position(|view| is_named(command, &view.begun))
}

/// The index of the first event with which a command is answered.
fn end(views: &[EventView], command: &CommandName) -> Option<usize>
    ensures value { result ≡ end_of command.now views.now }
    ensures bound { IfSome result (λ at. at < length views.now) }
{
    views
        .iter()
        .position(|view| is_among(command, view.answered.items()))
}

/// How many events there are from that with which a command begins to that with which it is answered, with both; None where one of them is not there.
pub fn span_of(run: &RunView, command: &CommandName) -> Option<usize>
    ensures { result ≡ span_in run.now.events command.now }
{
    let views = run.events();
    let Some(begin) = begin(views, command) else {
        return None;
    };
    let Some(end) = end(views, command) else {
        return None;
    };
    Some(end.saturating_sub(begin) + 1)
}

/// The first word of a text.
pub(crate) fn first_word(words: &[u8]) -> &[u8]
    ensures { result.now ≡ front_of (cut_at 32 words.now) words.now }
{
    match cut(words, b' ') {
        Some((first, _)) => first,
        None => words,
    }
}

fn is_of_kind(kind: &[u8], row: &CommandView) -> bool
    ensures { result ≡ is_kind_of kind.now row.now }
{
    first_word(row.words.bytes()) == kind
}

/// How many commands are of a kind, which is their first word.
pub fn commands_of_kind(run: &RunView, kind: &[u8]) -> usize
    ensures { result ≡ count_by (is_kind_of kind.now) run.now.commands }
{
    let mut count = 0;
    for row in run.commands() {
        if is_of_kind(kind, row) {
            count += 1;
        }
    }
    count
}

fn span_of_kind(run: &RunView, kind: &[u8], row: &CommandView) -> Option<usize>
    ensures { result ≡ span_when run.now.events kind.now row.now }
{
    if !is_of_kind(kind, row) {
        return None;
    }
    span_of(run, &row.name)
}

/// How many events each command of a kind took that began and was answered, in the order of the commands.
pub fn spans_of_kind(alloc: Global, run: &RunView, kind: &[u8]) -> Result<ItemList<usize>, NoMemory>
    ensures { IfOk result (λ spans. spans ≡ filter_map (span_when run.now.events kind.now) run.now.commands) }
{
    let mut spans = ItemList::new(alloc);
    for row in run.commands() {
        if let Some(span) = span_of_kind(run, kind, row) {
            spans.push(span)?;
        }
    }
    Ok(spans)
}

fn is_conflict(answer: &Option<ByteList>) -> bool
    ensures { result ≡ is_a_conflict answer.now }
{
    match answer {
        None => false,
        Some(answer) => answer.bytes().starts_with(b"conflict"),
    }
}

fn is_refused(row: &CommandView) -> bool
    ensures { result ≡ is_refused_lock row.now }
{
    row.words.bytes().starts_with(b"lock ") && is_conflict(&row.answer)
}

/// How many locks were refused, since another process held one that stood against it.
pub fn locks_refused(run: &RunView) -> usize
    ensures { result ≡ count_by is_refused_lock run.now.commands }
{
    let mut count = 0;
    for row in run.commands() {
        if is_refused(row) {
            count += 1;
        }
    }
    count
}
