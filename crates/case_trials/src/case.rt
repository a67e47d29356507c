//! Cases, and what the lines of their heads say.
use crate::cuts::{Cut, CutEnd};
use crate::facts::Fact;
use crate::running::{Limits, Streams};
use crate::stops::{Stop, Stops};
use anyhow::{Context, Result, bail};
use case_files::FileCase;
use dom_text::decimal;
use std::alloc::Global;
use std::mem;
use uid_names::ByteList;
use world_core::Account;

/// How the journals of two runs that follow one another go together.
#[derive(Clone, Copy, PartialEq, Eq)]
pub(crate) enum Journals {
    Any,
    Same,
    Other,
}

/// What a stream that is written to takes: so many bytes, and no call of these numbers.
#[derive(Drop)]
struct Room {
    bytes: usize,
    fails: Vec<u64>,
}

impl Room {
    /// It takes all.
    fn new(alloc: Global) -> Room {
        Room {
            bytes: usize::MAX,
            fails: Vec::new(alloc),
        }
    }

    /// What it takes, as a run has it.
    fn limits(&self) -> Limits<'_> {
        Limits {
            room: self.bytes,
            fails: self.fails.as_slice(),
        }
    }
}

/// A case: how `domain` is run, and what it comes to.
pub struct Case {
    file: FileCase,
    unended: bool,
    pub(crate) words: Vec<String>,
    pub(crate) status: u64,
    pub(crate) unread: bool,
    pub(crate) taken: Option<u64>,
    endless: bool,
    interrupted: bool,
    step: usize,
    failing_reads: Vec<u64>,
    out: Room,
    errors: Room,
    pub(crate) facts: Vec<Fact>,
    order: Vec<String>,
    pub(crate) journals: Journals,
    pub(crate) account: Option<Account>,
    pub(crate) stops: Vec<Stops>,
    cut_everywhere: bool,
    pub(crate) cuts: Vec<Cut>,
}

// Of its own, so that what drops one calls this and does not take it apart in place.
impl Drop for Case {
    fn drop(self) {
        let Case {
            file: _,
            unended: _,
            words: _,
            status: _,
            unread: _,
            taken: _,
            endless: _,
            interrupted: _,
            step: _,
            failing_reads: _,
            out: _,
            errors: _,
            facts: _,
            order: _,
            journals: _,
            account: _,
            stops: _,
            cut_everywhere: _,
            cuts: _,
        } = self;
    }
}

/// The number that a text spells.
fn number(text: &str) -> Result<u64> {
    Ok(decimal(text.as_bytes())?)
}

/// The number that a text spells, as a length.
fn length(text: &str) -> Result<usize> {
    Ok(usize::try_from(number(text)?)?)
}

/// What stands before the first space, and what stands behind it.
fn two_parts(text: &str) -> Result<(&str, &str)> {
    text.split_once(' ').context("a word alone")
}

/// An account as a line has it.
fn account_of(text: &str) -> Result<Account> {
    let (link_faults, rest) = two_parts(text)?;
    let (notices, marked) = two_parts(rest)?;
    Ok(Account {
        link_faults: number(link_faults)?,
        notices: number(notices)?,
        marked: number(marked)?,
    })
}

/// A line that stands behind another.
fn whole_line(alloc: Global, line: &str) -> Result<ByteList> {
    let mut text = ByteList::from_slice(alloc, b"\n")?;
    text.extend(line.as_bytes())?;
    text.push(b'\n')?;
    Ok(text)
}

/// What a line says of the first bytes of a script, which come to this.
fn cut_of(first: &str, last: &str, end: CutEnd) -> Result<Cut> {
    Ok(Cut {
        first: length(first)?,
        last: length(last)?,
        end,
    })
}

/// A case of which no line of the head was taken.
fn plain_case(alloc: Global, file: FileCase) -> Case {
    Case {
        file,
        unended: false,
        words: Vec::new(alloc),
        status: 0,
        unread: false,
        taken: None,
        endless: false,
        interrupted: false,
        step: usize::MAX,
        failing_reads: Vec::new(alloc),
        out: Room::new(alloc),
        errors: Room::new(alloc),
        facts: Vec::new(alloc),
        order: Vec::new(alloc),
        journals: Journals::Any,
        account: None,
        stops: Vec::new(alloc),
        cut_everywhere: false,
        cuts: Vec::new(alloc),
    }
}

impl Case {
    /// A case as its file has it.
    pub fn new(alloc: Global, file: FileCase) -> Result<Case> {
        let mut case = plain_case(alloc, file);
        let head = mem::replace(&mut case.file.head, Vec::new(alloc));
        for line in head.as_slice() {
            case.take_head(alloc, line.as_str())?;
        }
        case.end_head(alloc)?;
        Ok(case)
    }

    /// Its name.
    pub fn name(&self) -> &str {
        self.file.name.as_str()
    }

    /// Whether it says what is wrong.
    pub fn is_spoiled(&self) -> bool {
        self.file.spoiled
    }

    /// The bytes of the script.
    pub(crate) fn source(&self) -> &[u8] {
        let bytes = self.file.script.bytes();
        if self.unended && !bytes.is_empty() {
            &bytes[..bytes.len() - 1]
        } else {
            bytes
        }
    }

    /// The report that it says.
    pub(crate) fn report(&self) -> &[u8] {
        self.file.report.bytes()
    }

    /// The journal that it says, if it says one.
    pub(crate) fn journal(&self) -> Option<&[u8]> {
        match &self.file.journal {
            Some(journal) => Some(journal.bytes()),
            None => None,
        }
    }

    /// The streams of its runs.
    pub(crate) fn streams(&self) -> Streams<'_> {
        Streams {
            script: self.source(),
            endless: self.endless,
            step: self.step,
            interrupted: self.interrupted,
            failing_reads: self.failing_reads.as_slice(),
            out: self.out.limits(),
            journal: self.errors.limits(),
        }
    }

    /// Takes a line of the head.
    fn take_head(&mut self, alloc: Global, line: &str) -> Result<()> {
        let (word, rest) = match line.split_once(' ') {
            Some(parts) => parts,
            None => (line, ""),
        };
        match word {
            "words" => self.words.push(String::from_str(alloc, rest)?)?,
            "turns" => self.add_turns(alloc, rest)?,
            "status" => self.status = number(rest)?,
            "unread" => self.unread = true,
            "taken" => self.taken = Some(number(rest)?),
            "account" => self.account = Some(account_of(rest)?),
            "same-journals" => self.journals = Journals::Same,
            "other-journals" => self.journals = Journals::Other,
            _ => self.take_stream(alloc, word, rest)?,
        }
        Ok(())
    }

    /// Takes a line of the head that says how streams go.
    fn take_stream(&mut self, alloc: Global, word: &str, rest: &str) -> Result<()> {
        match word {
            "unended" => self.unended = true,
            "empty" => self.put_empty(alloc, number(rest)?)?,
            "endless" => self.endless = true,
            "interrupted" => self.interrupted = true,
            "step" => self.step = length(rest)?,
            "failing-read" => self.failing_reads.push(number(rest)?)?,
            "failing-write" => self.out.fails.push(number(rest)?)?,
            "failing-journal" => self.errors.fails.push(number(rest)?)?,
            "room" => self.out.bytes = length(rest)?,
            "journal-room" => self.errors.bytes = length(rest)?,
            _ => self.take_stops(alloc, word, rest)?,
        }
        Ok(())
    }

    /// Takes a line of the head that speaks of runs that stop early, or of first bytes of the script.
    fn take_stops(&mut self, alloc: Global, word: &str, rest: &str) -> Result<()> {
        match word {
            "each-read" => self.add_stops(Stop::Read, rest)?,
            "each-write" => self.add_stops(Stop::Write, rest)?,
            "each-journal" => self.add_stops(Stop::JournalWrite, rest)?,
            "each-room" => self.add_stops(Stop::Room, rest)?,
            "each-journal-room" => self.add_stops(Stop::JournalRoom, rest)?,
            "cuts" => self.cut_everywhere = true,
            "refused" | "accepted" => {
                let (first, rest) = two_parts(rest)?;
                let (last, end) = two_parts(rest)?;
                let end = if word == "refused" {
                    let mut text = ByteList::from_slice(alloc, end.as_bytes())?;
                    text.push(b'\n')?;
                    CutEnd::Refused(text)
                } else {
                    CutEnd::Accepted(number(end)?)
                };
                self.cuts.push(cut_of(first, last, end)?)?;
            }
            _ => self.take_fact(alloc, word, rest)?,
        }
        Ok(())
    }

    /// Takes a line of the head that says something of the journal.
    fn take_fact(&mut self, alloc: Global, word: &str, rest: &str) -> Result<()> {
        match word {
            "lines" => self.facts.push(Fact::Lines(number(rest)?))?,
            "last" => self.facts.push(Fact::Last(whole_line(alloc, rest)?))?,
            "count" => {
                let (count, text) = two_parts(rest)?;
                let text = ByteList::from_slice(alloc, text.as_bytes())?;
                self.facts.push(Fact::Count(number(count)?, text))?;
            }
            "event" => {
                let (count, event) = two_parts(rest)?;
                let event = String::from_str(alloc, event)?;
                self.facts.push(Fact::Event(number(count)?, event))?;
            }
            "then" => self.order.push(String::from_str(alloc, rest)?)?,
            _ => bail!("no line of a head begins with {word}"),
        }
        Ok(())
    }

    /// Adds a run for each number of turns from one to another.
    fn add_turns(&mut self, alloc: Global, rest: &str) -> Result<()> {
        let (first, last) = two_parts(rest)?;
        for turns in number(first)?..=number(last)? {
            self.words.push(format!(in alloc; "run --turns {turns}")?)?;
        }
        Ok(())
    }

    /// Adds runs that stop so, with this status.
    fn add_stops(&mut self, stop: Stop, status: &str) -> Result<()> {
        let status = number(status)?;
        self.stops.push(Stops { stop, status })?;
        Ok(())
    }

    /// Puts so many empty lines before the script.
    fn put_empty(&mut self, alloc: Global, count: u64) -> Result<()> {
        let mut script = ByteList::new(alloc);
        for _ in 0..count {
            script.push(b'\n')?;
        }
        script.extend(self.file.script.bytes())?;
        self.file.script = script;
        Ok(())
    }

    /// The head has no more lines.
    fn end_head(&mut self, alloc: Global) -> Result<()> {
        if self.words.is_empty() {
            self.words.push(String::from_str(alloc, "run")?)?;
            self.words.push(String::from_str(alloc, "run --turns 3")?)?;
        }
        if !self.order.is_empty() {
            let order = mem::replace(&mut self.order, Vec::new(alloc));
            self.facts.push(Fact::InOrder(order))?;
        }
        if self.cut_everywhere {
            let last = self.source().len();
            self.cuts.push(Cut {
                first: 0,
                last,
                end: CutEnd::AsRead,
            })?;
        }
        Ok(())
    }
}
