//! What is checked of a command behind its walk.
ghost use Rattle.std.specs.Prelude.{◌≡◌, IfOk};
ghost use Rattle.acl_rules.specs.RightTexts.{rights_with};
ghost use Rattle.naming_tree.specs.declared.step.NameResult.TheVariants.{Found};
ghost use Rattle.command_talks.specs.Checks.{at_added as added_at, at_bound as bound_at, at_file as file_at, at_itself as itself_at, at_mail as mail_at, at_name as name_at, at_new_mail as new_mail_at, at_place as place_at, at_removed as removed_at, check_of as check_of_errand, of_bad, of_text, or_own, to_read};

use crate::errand::Errand;
use acl_rules::{Decision, ListFault, Rights, decide, read_list};
use dir_records::Component;
use naming_tree::{NameResult, Walked, Within};
use std::alloc::Global;
use uid_names::{ByteList, NoMemory, ObjKind, Uid};

/// Who a process is.
#[derive(Drop, Debug)]
pub struct Subject {
    pub person: ByteList,
    pub project: ByteList,
}

/// What is asked of a directory's list: these rights. One that is bad allows them where it is lenient.
#[derive(Clone, Copy)]
pub struct Check {
    pub dir: Uid,
    pub need: Rights,
    pub lenient: bool,
}

/// What a list says to a check.
#[derive(Clone, Copy)]
pub enum Verdict {
    Passes,
    IsBad,
    Denies(u32),
}

impl Subject {
    /// A copy of it.
    pub fn copy(&self, alloc: Global) -> Result<Subject, NoMemory>
        ensures { IfOk result (λ copy. copy ≡ self.now) }
    {
        Ok(Subject {
            person: self.person.copy(alloc)?,
            project: self.project.copy(alloc)?,
        })
    }
}

/// These rights.
fn rights(r: bool, w: bool, n: bool, a: bool) -> Rights
    ensures { result ≡ rights_with r w n a }
{
    Rights { r, w, n, a }
}

/// Some rights, or others in their place for the list's own name.
fn own_or(name: &Component, plain: Rights, own: Rights) -> Rights
    ensures { result ≡ or_own name.now plain own }
{
    if name.bytes() == b"acl$".as_slice() {
        own
    } else {
        plain
    }
}

/// What is asked of a directory that is read itself.
fn of_itself(at: &Walked) -> Option<Check>
    ensures { result ≡ itself_at to_read (Found at.now) }
{
    match at {
        Walked::At {
            uid,
            kind: ObjKind::Directory,
            ..
        } => Some(Check {
            dir: *uid,
            need: rights(true, false, false, false),
            lenient: false,
        }),
        Walked::Root | Walked::At { .. } => None,
    }
}

/// What is asked where one is read, as a walk has found it.
fn at_itself(come: &NameResult) -> Option<Check>
    ensures { result ≡ itself_at to_read come.now }
{
    match come {
        NameResult::Found(at) => of_itself(at),
        _ => None,
    }
}

/// What is asked of the directory in which something has its name.
fn at_name(plain: Rights, own: Rights, within: &Option<Within>) -> Option<Check>
    ensures { result ≡ name_at plain own within.now }
{
    match within {
        Some(place) => Some(Check {
            dir: place.dir,
            need: own_or(&place.name, plain, own),
            lenient: false,
        }),
        None => None,
    }
}

/// What is asked for the bytes of a file.
fn of_file(plain: Rights, own: Rights, at: &Walked) -> Option<Check>
    ensures { result ≡ file_at plain own (Found at.now) }
{
    match at {
        Walked::At {
            uid: _,
            kind: ObjKind::File,
            within,
        } => at_name(plain, own, within),
        Walked::Root | Walked::At { .. } => None,
    }
}

/// What is asked for them where a walk came to this.
fn at_file(plain: Rights, own: Rights, come: &NameResult) -> Option<Check>
    ensures { result ≡ file_at plain own come.now }
{
    match come {
        NameResult::Found(at) => of_file(plain, own, at),
        _ => None,
    }
}

/// What is asked of something that is bound.
fn of_bound(at: &Walked) -> Option<Check>
    ensures { result ≡ bound_at (Found at.now) }
{
    match at {
        Walked::Root => None,
        Walked::At {
            uid,
            kind: ObjKind::Directory,
            ..
        } => Some(Check {
            dir: *uid,
            need: rights(true, true, true, true),
            lenient: false,
        }),
        Walked::At { within, .. } => {
            let plain = rights(true, true, false, false);
            at_name(plain, rights(true, false, false, true), within)
        }
    }
}

/// What is asked for it where a walk came to this.
fn at_bound(come: &NameResult) -> Option<Check>
    ensures { result ≡ bound_at come.now }
{
    match come {
        NameResult::Found(at) => of_bound(at),
        _ => None,
    }
}

/// What is asked where a name is added.
fn at_place(come: &NameResult) -> Option<Check>
    ensures { result ≡ place_at come.now }
{
    let NameResult::Under(place) = come else {
        return None;
    };
    let plain = rights(false, false, true, false);
    let own = rights(false, false, false, true);
    Some(Check {
        dir: place.dir,
        need: own_or(&place.name, plain, own),
        lenient: false,
    })
}

/// What is asked where that of a mailbox is.
fn at_new_mail(come: &NameResult) -> Option<Check>
    ensures { result ≡ new_mail_at come.now }
{
    let NameResult::Under(place) = come else {
        return None;
    };
    Some(Check {
        dir: place.dir,
        need: rights(false, false, true, false),
        lenient: false,
    })
}

/// What is asked where a name is added for an object of this kind.
fn at_added(kind: ObjKind, come: &NameResult) -> Option<Check>
    ensures { result ≡ added_at kind come.now }
{
    match kind {
        ObjKind::Mail => at_new_mail(come),
        _ => at_place(come),
    }
}

/// What is asked for the texts of a mailbox, by whatever name.
fn of_mail(need: Rights, at: &Walked) -> Option<Check>
    ensures { result ≡ mail_at need (Found at.now) }
{
    match at {
        Walked::At {
            uid: _,
            kind: ObjKind::Mail,
            within,
        } => at_name(need, need, within),
        Walked::Root | Walked::At { .. } => None,
    }
}

/// What is asked for them where a walk came to this.
fn at_mail(need: Rights, come: &NameResult) -> Option<Check>
    ensures { result ≡ mail_at need come.now }
{
    match come {
        NameResult::Found(at) => of_mail(need, at),
        _ => None,
    }
}

/// And where one is removed.
fn at_removed(come: &NameResult) -> Option<Check>
    ensures { result ≡ removed_at come.now }
{
    let NameResult::Under(place) = come else {
        return None;
    };
    let plain = rights(false, false, true, false);
    let own = rights(false, false, false, true);
    Some(Check {
        dir: place.dir,
        need: own_or(&place.name, plain, own),
        lenient: place.name.bytes() == b"acl$".as_slice(),
    })
}

/// What is checked for an errand whose walk came to this. Takes no memory.
pub fn check_of(errand: &Errand, come: &NameResult) -> Option<Check>
    ensures { result ≡ check_of_errand errand.now come.now }
{
    let read = rights(true, false, false, false);
    match errand {
        Errand::Bind => at_bound(come),
        Errand::Enter | Errand::List => at_itself(come),
        Errand::Read | Errand::Count | Errand::Copy(_) => at_file(read, read, come),
        Errand::Append(_) => {
            let write = rights(false, true, false, false);
            at_file(write, rights(false, false, false, true), come)
        }
        Errand::Put(_) => at_mail(rights(false, true, false, false), come),
        Errand::Take => at_mail(rights(true, true, false, false), come),
        Errand::Add(what) => at_added(what.kind(), come),
        Errand::Fill(_) => at_place(come),
        Errand::Remove => at_removed(come),
    }
}

/// What a bad list says.
pub fn verdict_of_bad(lenient: bool) -> Verdict
    ensures { result ≡ of_bad lenient }
{
    if lenient {
        Verdict::Passes
    } else {
        Verdict::IsBad
    }
}

/// What the bytes of a list say to a check.
pub fn verdict_of(
    alloc: Global,
    who: &Subject,
    check: &Check,
    text: &[u8],
) -> Result<Verdict, NoMemory>
    ensures { IfOk result (λ verdict. verdict ≡ of_text who.now check.now text.now) }
{
    if text.is_empty() {
        return Ok(Verdict::Passes);
    }
    match read_list(alloc, text) {
        Ok(list) => match decide(&list, who.person.bytes(), who.project.bytes(), check.need) {
            Decision::Allowed => Ok(Verdict::Passes),
            Decision::Denied(number) => Ok(Verdict::Denies(number)),
        },
        Err(ListFault::BadList) => Ok(verdict_of_bad(check.lenient)),
        Err(ListFault::NoMemory) => Err(NoMemory),
    }
}
