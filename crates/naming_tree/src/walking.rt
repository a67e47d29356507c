//! How far walks have come.
ghost use Rattle.std.specs.Prelude.{◌≡◌, ◌≢◌, ◌++◌, None, Some, IfOk, OnOk, IfSome, IfNone, is_none, true};
ghost use Rattle.std.specs.Option.{option_copied};
ghost use Rattle.dom_history.specs.Ranges.{IsOp};
ghost use Rattle.dom_history.specs.Fitting.{Fits};
ghost use Rattle.naming_tree.specs.declared.step.Walked.TheVariants.{At};
ghost use Rattle.naming_tree.specs.declared.step.NameResult.TheVariants.{Found, NotDir as NotDirResult};
ghost use Rattle.dir_records.specs.Directories.{directory_of};
ghost use Rattle.dir_records.specs.Paths.{route_of};
ghost use Rattle.naming_tree.specs.Turns.{turn_of, Goes, Comes, FitsAsked};
ghost use Rattle.naming_tree.specs.Readings.{reading_op, IsReading};
ghost use Rattle.naming_tree.specs.Walks.{holder as holder_of, at_end, at_middle};
ghost use Rattle.naming_tree.specs.Walking.{looks, follows, stands, settled, at_found, at_slots, at_route, moved, walking_after, walking_asks, walking_of, IsWalking, IsOn};

use crate::reading::Reading;
use crate::site::Site;
use crate::step::{NameResult, Walked, Within};
use dir_records::{Component, DirFault, Directory, Names, Route};
use dom_history::{Op, Reply};
use std::alloc::Global;
use uid_names::{NoMemory, ObjKind, Uid};

/// The most links of a walk.
pub const MOST_LINKS: u32 = 8;

/// What a walk reads an object for.
#[derive(Clone, Copy)]
pub enum Aim {
    /// Nothing yet: it begins here, if there is such a place.
    Begin(Option<Walked>),
    /// A directory, to look a name up.
    Name(Within),
    /// A link, which this directory holds.
    Link(Uid),
}

/// How far a walk has come: the links that it may still follow, the names behind, and what it reads.
pub struct Walking {
    pub site: Site,
    /// Whether a link at the end is followed.
    pub last: bool,
    pub links: u32,
    pub rest: Names,
    pub aim: Aim,
    pub reading: Reading,
}

// Of its own, so that what drops one calls this and does not take it apart in place.
impl Drop for Walking {
    fn drop(self) {
        let Walking {
            site: _,
            last: _,
            links: _,
            rest: _,
            aim: _,
            reading: _,
        } = self;
    }
}

/// The directory that holds an object with this place; a directory where a path starts is its own.
fn holder(uid: Uid, within: &Option<Within>) -> Uid
    ensures { result ≡ holder_of uid within.now }
{
    match within {
        Some(within) => within.dir,
        None => uid,
    }
}

impl Walking {
    /// A walk along a path from a working directory, before it begins. Takes no memory.
    pub fn new(alloc: Global, site: Site, last: bool, route: Route, working: Uid) -> Walking
        ensures value { result ≡ walking_of site last route working }
        ensures range { IsWalking result }
    {
        let here = site.start(&route.start, working);
        Walking {
            site,
            last,
            links: MOST_LINKS,
            rest: route.names,
            aim: Aim::Begin(here),
            reading: Reading::new(alloc, working),
        }
    }

    /// Looks a name up in a directory.
    fn look(&mut self, alloc: Global, dir: Uid, name: &Component)
        ensures state { self.new ≡ looks dir name.now self.old.rest self.old }
        ensures on { IsOn self.new }
    {
        self.aim = Aim::Name(Within { dir, name: *name });
        self.reading = Reading::new(alloc, dir);
    }

    /// Follows a link, if it may.
    fn follow(&mut self, alloc: Global, link: Uid, dir: Uid) -> Option<NameResult>
        ensures turn { turn_of result self.new ≡ follows self.old.links link dir self.old }
        ensures on { IfNone result (IsOn self.new) }
    {
        if self.links == 0 {
            return Some(NameResult::LinkLoop);
        }
        self.links -= 1;
        self.aim = Aim::Link(dir);
        self.reading = Reading::new(alloc, link);
        None
    }

    /// Goes on from an object, with no name behind.
    fn end(
        &mut self,
        alloc: Global,
        uid: Uid,
        kind: ObjKind,
        within: &Option<Within>,
    ) -> Option<NameResult>
        ensures turn { turn_of result self.new ≡ at_end kind self.old.last (follows self.old.links uid (holder_of uid within.now) self.old) (Comes (Found (At uid kind within.now))) }
        ensures on { IfNone result (IsOn self.new) }
    {
        match kind {
            ObjKind::Link if self.last => self.follow(alloc, uid, holder(uid, within)),
            _ => Some(NameResult::Found(Walked::At {
                uid,
                kind,
                within: *within,
            })),
        }
    }

    /// Goes on from an object, with the names that are left.
    fn stand(
        &mut self,
        alloc: Global,
        uid: Uid,
        kind: ObjKind,
        within: &Option<Within>,
    ) -> Option<NameResult>
        ensures turn { turn_of result self.new ≡ stands (At uid kind within.now) self.old.rest self.old }
        ensures on { IfNone result (IsOn self.new) }
    {
        let Some(name) = self.rest.first() else {
            return self.end(alloc, uid, kind, within);
        };
        match kind {
            ObjKind::Directory => {
                self.rest.pass();
                self.look(alloc, uid, &name);
                None
            }
            ObjKind::Link => self.follow(alloc, uid, holder(uid, within)),
            _ => Some(NameResult::NotDir),
        }
    }

    /// Goes on from a place, if there is such a place.
    fn settle(&mut self, alloc: Global, here: &Option<Walked>) -> Option<NameResult>
        ensures turn { turn_of result self.new ≡ settled here.now self.old }
        ensures on { IfNone result (IsOn self.new) }
    {
        match here {
            Some(Walked::At { uid, kind, within }) => self.stand(alloc, *uid, *kind, within),
            Some(Walked::Root) if self.rest.first().is_none() => {
                Some(NameResult::Found(Walked::Root))
            }
            Some(Walked::Root) => Some(NameResult::NotDir),
            None => Some(NameResult::NoName),
        }
    }

    /// Goes on with a directory that was read.
    fn look_up(
        &mut self,
        alloc: Global,
        directory: &Directory,
        within: &Within,
    ) -> Option<NameResult>
        ensures turn { turn_of result self.new ≡ at_slots (Some directory.now) within.now self.old }
        ensures on { IfNone result (IsOn self.new) }
    {
        match directory.find(&within.name) {
            Some(row) => self.settle(alloc, &Some(Walked::at_row(&row, within.dir))),
            None => Some(NameResult::NoName),
        }
    }

    /// Goes on along the path of a link that this directory holds.
    fn go_along(
        &mut self,
        alloc: Global,
        route: Route,
        dir: Uid,
    ) -> Result<Option<NameResult>, NoMemory>
        ensures turn { IfOk result (λ r. turn_of r self.new ≡ at_route (Some route) dir self.old) }
        ensures on { IfOk result (λ r. IfNone r (IsOn self.new)) }
    {
        let here = self.site.start(&route.start, dir);
        let mut names = route.names;
        names.extend(&self.rest)?;
        self.rest = names;
        Ok(self.settle(alloc, &here))
    }

    /// Goes on with a directory that was read, unless it is bad.
    fn leave_directory(
        &mut self,
        alloc: Global,
        within: &Within,
    ) -> Result<Option<NameResult>, NoMemory>
        ensures turn { IfOk result (λ r. turn_of r self.new ≡ at_slots (directory_of self.old.reading.bytes) within.now self.old) }
        ensures on { IfOk result (λ r. IfNone r (IsOn self.new)) }
    {
        match Directory::read(alloc, self.reading.bytes.bytes()) {
            Ok(directory) => Ok(self.look_up(alloc, &directory, within)),
            Err(DirFault::BadDir) => Ok(Some(NameResult::BadDir)),
            Err(DirFault::NoMemory) => Err(NoMemory),
        }
    }

    /// Goes on with a link that was read, unless it is bad.
    fn leave_link(&mut self, alloc: Global, dir: Uid) -> Result<Option<NameResult>, NoMemory>
        ensures turn { IfOk result (λ r. turn_of r self.new ≡ at_route (route_of self.old.reading.bytes) dir self.old) }
        ensures on { IfOk result (λ r. IfNone r (IsOn self.new)) }
    {
        match Route::read(alloc, self.reading.bytes.bytes())? {
            Some(route) => self.go_along(alloc, route, dir),
            None => Ok(Some(NameResult::BadDir)),
        }
    }

    /// Goes on with what was read.
    fn move_on(&mut self, alloc: Global) -> Result<Option<NameResult>, NoMemory>
        ensures turn { IfOk result (λ r. turn_of r self.new ≡ moved self.old) }
        ensures on { IfOk result (λ r. IfNone r (IsOn self.new)) }
    {
        let aim = self.aim;
        match &aim {
            Aim::Begin(here) => Ok(self.settle(alloc, here)),
            Aim::Name(within) => self.leave_directory(alloc, within),
            Aim::Link(dir) => self.leave_link(alloc, *dir),
        }
    }

    /// Takes in the reply to its operation.
    fn hear(&mut self, alloc: Global, reply: &Reply) -> Result<Option<NameResult>, NoMemory>
        requires on { IsOn self.old }
        requires fits { Fits (reading_op self.old.reading) reply.now }
        ensures turn { IfOk result (λ r. turn_of r self.new ≡ walking_after self.old (Some reply.now)) }
        ensures on { IfOk result (λ r. IfNone r (IsOn self.new)) }
    {
        self.reading.hear(alloc, reply)?;
        if !self.reading.is_done() {
            return Ok(None);
        }
        match self.reading.closing.refused.take() {
            Some(reply) => Ok(Some(NameResult::Store(reply))),
            None => self.move_on(alloc),
        }
    }

    /// Takes in the reply to its operation; at first it is told nothing.
    pub fn turn(
        &mut self,
        alloc: Global,
        last: Option<&Reply>,
    ) -> Result<Option<NameResult>, NoMemory>
        requires walking { IsWalking self.old }
        requires fits { FitsAsked (walking_asks self.old) (option_copied last) }
        ensures turn { IfOk result (λ r. turn_of r self.new ≡ walking_after self.old (option_copied last.entry)) }
        ensures on { IfOk result (λ r. IfNone r (IsOn self.new)) }
    {
        match last {
            Some(reply) => self.hear(alloc, reply),
            None => self.move_on(alloc),
        }
    }

    /// Its operation.
    pub fn op(&self) -> Op
        requires { IsOn self.now }
        ensures value { walking_asks self.now ≡ Some result }
        ensures range { IsOp result }
    {
        self.reading.op()
    }
}
