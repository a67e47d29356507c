//! What is said of a journal beside its lines.
use std::str;
use uid_names::ByteList;

/// A fact on a journal.
pub(crate) enum Fact {
    /// This text stands in it so often.
    Count(u64, ByteList),
    /// It has so many lines.
    Lines(u64),
    /// This is its last line, with the LF before it and behind it.
    Last(ByteList),
    /// So many lines are a tick and just this event.
    Event(u64, String),
    /// There are lines that are a tick and just one of these events, in their order; others may stand between them.
    InOrder(Vec<String>),
}

// Of its own, so that what drops one calls this and does not take it apart in place.
impl Drop for Fact {
    fn drop(self) {
        match self {
            Fact::Count(_, _)
            | Fact::Lines(_)
            | Fact::Last(_)
            | Fact::Event(_, _)
            | Fact::InOrder(_) => {}
        }
    }
}

/// How often a text stands in a journal.
fn count(journal: &[u8], part: &[u8]) -> u64 {
    let mut count = 0_u64;
    for i in 0..journal.len() {
        if journal[i..].starts_with(part) {
            count = count.saturating_add(1);
        }
    }
    count
}

/// What stands behind the tick of a line.
fn event_of(line: &str) -> &str {
    match line.split_once(' ') {
        Some((_, event)) => event,
        None => "",
    }
}

/// How many lines of a journal are a tick and this event.
fn count_events(journal: &str, event: &str) -> u64 {
    let mut count = 0_u64;
    for line in journal.lines() {
        if event_of(line) == event {
            count = count.saturating_add(1);
        }
    }
    count
}

/// Whether a journal has these events in this order.
fn are_in_order(journal: &str, events: &[String]) -> bool {
    let mut left = events;
    for line in journal.lines() {
        if let Some((first, behind)) = left.split_first()
            && event_of(line) == first.as_str()
        {
            left = behind;
        }
    }
    left.is_empty()
}

impl Fact {
    /// Whether this holds of a journal, which is a text.
    pub(crate) fn holds(&self, journal: &[u8]) -> bool {
        let Ok(text) = str::from_utf8(journal) else {
            return false;
        };
        match self {
            Fact::Count(number, part) => count(journal, part.bytes()) == *number,
            Fact::Lines(number) => count(journal, b"\n") == *number,
            Fact::Last(line) => journal.ends_with(line.bytes()),
            Fact::Event(number, event) => count_events(text, event.as_str()) == *number,
            Fact::InOrder(events) => are_in_order(text, events.as_slice()),
        }
    }
}
