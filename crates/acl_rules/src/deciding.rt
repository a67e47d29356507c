//! What access lists decide. No function takes memory.
ghost use Rattle.std.specs.Prelude.{◌≡◌, ◌<◌, length, IfSome};
ghost use Rattle.acl_rules.specs.Decisions.{stands_for as stands_for_word, is_for as is_for_subject, first_from, decided};

use crate::entry::{AccessList, Entry, Who};
use crate::rights::Rights;

/// What a list decides.
#[derive(Clone, Copy, Debug, PartialEq, Eq)]
pub enum Decision {
    Allowed,
    /// By the entry of this number, counted from 1; 0 where no entry is for the subject.
    Denied(u32),
}

/// Whether a part of an entry stands for a word.
fn stands_for(who: &Who, word: &[u8]) -> bool
    ensures { result ≡ stands_for_word who.now word.now }
{
    match who {
        Who::Each => true,
        Who::Named(name) => name.bytes() == word,
    }
}

/// Whether an entry is for a subject.
fn is_for(entry: &Entry, person: &[u8], project: &[u8]) -> bool
    ensures { result ≡ is_for_subject person.now project.now entry.now }
{
    stands_for(&entry.person, person) && stands_for(&entry.project, project)
}

/// How many entries stand before the first one for a subject, and the rights of that.
fn first_for(entries: &[Entry], person: &[u8], project: &[u8]) -> Option<(usize, Rights)>
    ensures value { result ≡ first_from 0 person.now project.now entries.now }
    ensures within { IfSome result (λ found. found.0 < length entries.now) }
{
    for i in 0..entries.len() {
        if is_for(&entries[i], person, project) {
            return Some((i, entries[i].rights));
        }
    }
    None
}

/// Whether a subject may do what needs these rights: the first entry for it decides.
pub fn decide(list: &AccessList, person: &[u8], project: &[u8], need: Rights) -> Decision
    ensures { result ≡ decided list.now person.now project.now need }
{
    match first_for(list.entries(), person, project) {
        None => Decision::Denied(0),
        Some((before, rights)) => {
            if rights.have_all(need) {
                Decision::Allowed
            } else {
                Decision::Denied(before as u32 + 1)
            }
        }
    }
}
