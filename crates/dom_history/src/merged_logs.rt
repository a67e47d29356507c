//! The events of several logs in one order. They stay in their logs.
ghost use Rattle.std.specs.Prelude.{◌≡◌, ◌+◌, ◌<◌, ◌++◌, ◌∷◌, [], IfOk, IfSome, IsSome, MatchOption, OnErr, OnOk, length, slice_get};
ghost use Rattle.std.specs.Option.{option_copied};
ghost use Rattle.dom_history.specs.MergedLogs.{next_at, none_came, one_more};

use crate::event::{Event, EventList, NodeLog};
use std::alloc::Global;
use std::marker::Model;
use uid_names::NoMemory;

/// How many events logs have; None where no list is as long.
fn total(logs: &[NodeLog]) -> Option<usize> {
    let mut total: usize = 0;
    for log in logs {
        total = total.checked_add(log.events.items().len())?;
    }
    Some(total)
}

/// A zero for each log.
fn zeros(alloc: Global, logs: &[NodeLog]) -> Result<Vec<usize>, NoMemory>
    ensures { IfOk result (λ came. came.items ≡ none_came logs.now) }
{
    Ok(Vec::from_elem(alloc, 0, logs.len())?)
}

/// One event more of a log came.
fn count(log: &NodeLog, came: &mut usize)
    requires { came.old < length log.now.events }
    ensures { came.new ≡ came.old + 1 }
{
    let _length = log.events.items().len();
    *came += 1;
}

fn event_at(events: &[Event], at: usize) -> Option<&Event>
    ensures { option_copied result ≡ slice_get events.now at }
{
    events.get(at)
}

/// The event of the log at `i` that comes next, where so many of each came.
fn next_event<'a>(logs: &'a [NodeLog], came: &[usize], i: usize) -> Option<&'a Event>
    requires log { i < length logs.now }
    requires count { i < length came.now }
    ensures { option_copied result ≡ next_at logs.now came.now i }
{
    event_at(logs[i].events.items(), came[i])
}

/// Logs, and those of their events that came so far, in the order in which they came: the order names, event by event, the
/// place of the log that has it.
#[derive(Debug)]
pub struct MergedLogs {
    logs: Vec<NodeLog>,
    came: Vec<usize>,
    order: Vec<usize>,
}

// Of its own, so that what drops one calls this and does not take it apart in place.
impl Drop for MergedLogs {
    fn drop(self) {
        let MergedLogs {
            logs: _,
            came: _,
            order: _,
        } = self;
    }
}

impl Model for MergedLogs {
    ghost use Rattle.std.specs.Prelude.{◌≡◌};
    ghost use Rattle.dom_history.specs.MergedLogs.{Merged, IsOrder, in_order, came_by, none_came};

    ghost Value = { Merged };

    ghost view = { λ m. record { logs = m.logs.items; came = m.came.items; events = in_order m.logs.items (none_came m.logs.items) m.order.items } };

    ghost invariant = { λ m. IsOrder m.logs.items (none_came m.logs.items) m.order.items × (m.came.items ≡ came_by (none_came m.logs.items) m.order.items) };
}

impl MergedLogs {
    /// Logs of which no event came. Room is taken for all of them.
    pub fn new(alloc: Global, logs: Vec<NodeLog>) -> Result<MergedLogs, NoMemory>
        ensures { IfOk result (λ m. m ≡ record { logs = logs.items; came = none_came logs.items; events = [] }) }
    {
        // No memory holds a list that is longer than each length.
        let total = total(&logs).ok_or(NoMemory)?;
        let came = zeros(alloc, &logs)?;
        let order = Vec::with_capacity(alloc, total)?;
        Ok(MergedLogs { logs, came, order })
    }

    /// The logs. Takes no memory.
    pub fn logs(&self) -> &[NodeLog]
        ensures { result.now ≡ self.now.logs }
    {
        self.logs.as_slice()
    }

    /// The event of the log at `i` that comes next. Takes no memory.
    pub fn next(&self, i: usize) -> Option<&Event>
        requires { i < length self.now.logs }
        ensures { option_copied result ≡ next_at self.now.logs self.now.came i }
    {
        next_event(&self.logs, &self.came, i)
    }

    /// The next event of the log at `i` comes; without memory nothing changes.
    pub fn pass(&mut self, i: usize) -> Result<(), NoMemory>
        requires { IsSome (next_at self.old.logs self.old.came i) }
        ensures logs { self.new.logs ≡ self.old.logs }
        ensures came { OnOk result (self.new.came ≡ one_more self.old.came i) }
        ensures events { OnOk result (IfSome (next_at self.old.logs self.old.came i) (λ e. self.new.events ≡ self.old.events ++ e ∷ [])) }
        ensures err { OnErr result (self.new ≡ self.old) }
    {
        self.order.push(i)?;
        count(&self.logs[i], &mut self.came[i]);
        Ok(())
    }

    /// How many events came. Takes no memory.
    pub fn len(&self) -> usize
        ensures { result ≡ length self.now.events }
    {
        self.order.len()
    }

    /// Reads the events that came, from the first on.
    pub fn reader(&self, alloc: Global) -> Result<LogReader<'_>, NoMemory>
        ensures { IfOk result (λ r. r ≡ self.now.events) }
    {
        let came = zeros(alloc, &self.logs)?;
        Ok(LogReader {
            logs: self.logs.as_slice(),
            came,
            order: self.order.as_slice(),
        })
    }

    /// A copy of the events that came, as a list.
    pub fn to_list(&self, alloc: Global) -> Result<EventList, NoMemory>
        ensures { IfOk result (λ list. list ≡ self.now.events) }
    {
        let mut list = Vec::with_capacity(alloc, self.len())?;
        let mut reader = self.reader(alloc)?;
        while let Some(event) = reader.next() {
            list.push(event.copy(alloc)?)?;
        }
        Ok(EventList::from_vec(list))
    }
}

/// Reads events of several logs in one order.
#[derive(Drop)]
pub struct LogReader<'a> {
    logs: &'a [NodeLog],
    came: Vec<usize>,
    order: &'a [usize],
}

impl<'a> Model for LogReader<'a> {
    ghost use Rattle.std.specs.Prelude.{List};
    ghost use Rattle.dom_history.specs.Events.{Happening};
    ghost use Rattle.dom_history.specs.MergedLogs.{IsOrder, in_order};

    ghost Value = { List Happening };

    ghost view = { λ r. in_order r.logs.now r.came.items r.order.now };

    ghost invariant = { λ r. IsOrder r.logs.now r.came.items r.order.now };
}

impl<'a> LogReader<'a> {
    /// The next event, after which those behind it are left. Takes no memory.
    pub fn next(&mut self) -> Option<&'a Event>
        ensures { MatchOption (option_copied result) (self.old ≡ []) (λ e. self.old ≡ e ∷ self.new) }
    {
        let (i, rest) = self.order.split_first()?;
        let event = next_event(self.logs, &self.came, *i);
        count(&self.logs[*i], &mut self.came[*i]);
        self.order = rest;
        event
    }
}
