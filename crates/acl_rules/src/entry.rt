//! The entries of access lists.
ghost use Rattle.std.specs.Prelude.{◌≡◌, ◌≤◌, length, IfOk};
ghost use Rattle.acl_rules.specs.Entries.{who_of, entry_of};
ghost use Rattle.acl_rules.specs.declared.entry.TheConstants.{MOST_ENTRIES};

use crate::rights::{Rights, read_rights};
use dom_text::{cut, is_name};
use std::alloc::Global;
use std::marker::Model;
use uid_names::{ByteList, NoMemory};

/// The most entries of a list.
pub const MOST_ENTRIES: usize = 128;

/// Whom a part of an entry stands for.
#[derive(Drop, Debug)]
pub enum Who {
    /// Everybody.
    Each,
    /// The one of this name.
    Named(ByteList),
}

/// An entry: for whom it is, and what these may do.
#[derive(Drop, Debug)]
pub struct Entry {
    pub person: Who,
    pub project: Who,
    pub rights: Rights,
}

/// An access list: its entries, in their order.
#[derive(Drop)]
pub struct AccessList {
    entries: Vec<Entry>,
}

impl Model for AccessList {
    ghost use Rattle.std.specs.Prelude.{◌≤◌, List, length};
    ghost use Rattle.acl_rules.specs.declared.entry.Entry.{Entry};
    ghost use Rattle.acl_rules.specs.declared.entry.TheConstants.{MOST_ENTRIES};

    ghost Value = { List Entry };

    ghost view = { λ l. l.entries.items };

    ghost invariant = { λ l. length l.entries.items ≤ MOST_ENTRIES };
}

impl AccessList {
    /// The list of these entries.
    pub(crate) fn new(entries: Vec<Entry>) -> AccessList
        requires { length entries.items ≤ MOST_ENTRIES }
        ensures { result ≡ entries.items }
    {
        AccessList { entries }
    }

    /// Its entries, in their order. Takes no memory.
    pub fn entries(&self) -> &[Entry]
        ensures value { result.now ≡ self.now }
        ensures few { length self.now ≤ MOST_ENTRIES }
    {
        self.entries.as_slice()
    }
}

/// Whom a word stands for; None where it is neither `%` nor a name.
fn read_who(alloc: Global, word: &[u8]) -> Result<Option<Who>, NoMemory>
    ensures { IfOk result (λ found. found ≡ who_of word.now) }
{
    if word == b"%".as_slice() {
        return Ok(Some(Who::Each));
    }
    if !is_name(word) {
        return Ok(None);
    }
    Ok(Some(Who::Named(ByteList::from_slice(alloc, word)?)))
}

/// The entry of a line; None where the line is of none.
pub(crate) fn read_entry(alloc: Global, line: &[u8]) -> Result<Option<Entry>, NoMemory>
    ensures { IfOk result (λ found. found ≡ entry_of line.now) }
{
    let Some((subject, letters)) = cut(line, b' ') else {
        return Ok(None);
    };
    let Some((person, project)) = cut(subject, b'.') else {
        return Ok(None);
    };
    let Some(rights) = read_rights(letters) else {
        return Ok(None);
    };
    let Some(person) = read_who(alloc, person)? else {
        return Ok(None);
    };
    let Some(project) = read_who(alloc, project)? else {
        return Ok(None);
    };
    Ok(Some(Entry {
        person,
        project,
        rights,
    }))
}
