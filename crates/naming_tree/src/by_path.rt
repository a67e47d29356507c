//! Tasks that are done by a path: a walk, and then the task in the directory to which it led.
ghost use Rattle.std.specs.Prelude.{◌≡◌, true, None, Some, IfOk, OnOk, IfNone, IsSome};
ghost use Rattle.std.specs.Option.{option_copied};
ghost use Rattle.dom_history.specs.Ranges.{IsOp};
ghost use Rattle.naming_tree.specs.declared.step.NameResult.TheVariants.{Found};
ghost use Rattle.naming_tree.specs.Turns.{turn_of, step_of, state_of, still, FitsAsked, IfAsked};
ghost use Rattle.naming_tree.specs.Dialogues.{IsStep};
ghost use Rattle.naming_tree.specs.Tasks.{IsTask};
ghost use Rattle.naming_tree.specs.Tasks as tasks;
ghost use Rattle.naming_tree.specs.Walking as walks;
ghost use Rattle.naming_tree.specs.ByPaths.{on_found, told_at, by_path_after, by_path_asks, walked_to, alone_with, list_dir_of, to_parent_of, add_name_of, drop_name_of, IsOn, IsByPath};
ghost use Rattle.naming_tree.specs.NamePaths.{alone_for, added_alone as added_alone_at, removed_alone as removed_alone_at};
ghost use Rattle.naming_tree.specs.Additions.{IsText};
ghost use Rattle.uid_names.specs.Rooms.{IsRoom};

use crate::addition::Addition;
use crate::changing::{Change, Changing};
use crate::purpose::Purpose;
use crate::reading::Reading;
use crate::site::Site;
use crate::step::{NameResult, NameStep, Walked};
use crate::task::Task;
use crate::walking::Walking;
use dir_records::Route;
use dom_history::{Op, Reply};
use std::alloc::Global;
use uid_names::{ByteList, NoMemory, ObjKind, Uid};

/// How far a task by a path has come. `alone` is the result of a path that leads to nothing.
pub struct ByPath {
    pub alone: Option<NameResult>,
    /// The walk; None once it led to a directory.
    pub walking: Option<Walking>,
    pub task: Task,
}

// Of its own, so that what drops one calls this and does not take it apart in place.
impl Drop for ByPath {
    fn drop(self) {
        let ByPath {
            alone: _,
            walking: _,
            task: _,
        } = self;
    }
}

impl ByPath {
    /// A task in the directory to which a walk leads, before it begins. Takes no memory.
    pub fn walked(alloc: Global, site: Site, route: Route, working: Uid, task: Task) -> ByPath
        requires { IsTask task }
        ensures value { result ≡ walked_to site route working task }
        ensures kept { IsByPath result }
    {
        ByPath {
            alone: None,
            walking: Some(Walking::new(alloc, site, true, route, working)),
            task,
        }
    }

    /// Goes on from where the walk led.
    fn at(&mut self, alloc: Global, walked: &Walked) -> Option<NameResult>
        requires task { IsTask self.old.task }
        requires going { self.old.alone ≡ None }
        ensures turn { turn_of result self.new ≡ on_found (Found walked.now) self.old }
        ensures on { IfNone result (IsOn self.new) }
    {
        match walked {
            Walked::Root => Some(self.task.at_root()),
            Walked::At {
                uid,
                kind: ObjKind::Directory,
                within: _,
            } => {
                self.walking = None;
                self.task.begin(alloc, *uid)
            }
            _ => Some(NameResult::NotDir),
        }
    }

    /// Goes on from what the walk came to.
    fn found(&mut self, alloc: Global, come: NameResult) -> Option<NameResult>
        requires task { IsTask self.old.task }
        requires going { self.old.alone ≡ None }
        ensures turn { turn_of result self.new ≡ on_found come self.old }
        ensures on { IfNone result (IsOn self.new) }
    {
        if let NameResult::Found(walked) = &come {
            return self.at(alloc, walked);
        }
        Some(come)
    }

    /// What comes of the walk, where it is under way.
    fn walk(&mut self, alloc: Global, last: Option<&Reply>) -> Result<Option<NameResult>, NoMemory>
        requires kept { IsByPath self.old }
        requires going { self.old.alone ≡ None }
        requires walks { IsSome self.old.walking }
        requires fits { FitsAsked (by_path_asks self.old) (option_copied last) }
        ensures turn { IfOk result (λ r. turn_of r self.new ≡ by_path_after self.old (option_copied last.entry)) }
        ensures on { IfOk result (λ r. IfNone r (IsOn self.new)) }
    {
        let come = match &mut self.walking {
            Some(walking) => walking.turn(alloc, last)?,
            None => unreachable!(),
        };
        match come {
            Some(result) => Ok(self.found(alloc, result)),
            None => Ok(None),
        }
    }

    /// Takes in the reply to its operation; at first it is told nothing.
    pub fn turn(
        &mut self,
        alloc: Global,
        last: Option<&Reply>,
    ) -> Result<Option<NameResult>, NoMemory>
        requires kept { IsByPath self.old }
        requires fits { FitsAsked (by_path_asks self.old) (option_copied last) }
        ensures turn { IfOk result (λ r. turn_of r self.new ≡ by_path_after self.old (option_copied last.entry)) }
        ensures on { IfOk result (λ r. IfNone r (IsOn self.new)) }
    {
        if self.alone.is_some() {
            return Ok(self.alone.take());
        }
        if self.walking.is_some() {
            return self.walk(alloc, last);
        }
        match last {
            Some(reply) => self.task.hear(alloc, reply),
            None => Ok(None),
        }
    }

    /// Its operation.
    pub fn op(&self, alloc: Global) -> Result<Op, NoMemory>
        requires { IsOn self.now }
        ensures value { IfOk result (λ op. by_path_asks self.now ≡ Some op) }
        ensures range { IfOk result IsOp }
    {
        match &self.walking {
            Some(walking) => Ok(walking.op()),
            None => self.task.op(alloc),
        }
    }

    /// A path that leads to nothing. Takes no memory.
    fn alone(alloc: Global, come: NameResult, working: Uid) -> ByPath
        ensures value { result ≡ alone_with come working }
        ensures kept { IsByPath result }
    {
        ByPath {
            alone: Some(come),
            walking: None,
            task: Task::List(Reading::new(alloc, working)),
        }
    }

    /// A path whose directory is listed, before it begins. Takes no memory.
    pub fn list(alloc: Global, site: Site, route: Route, working: Uid) -> ByPath
        ensures value { Some result ≡ list_dir_of site (Some route) working }
        ensures kept { IsByPath result }
    {
        let task = Task::List(Reading::new(alloc, working));
        ByPath::walked(alloc, site, route, working, task)
    }

    /// A path to the directory of its last name, before it begins. Takes no memory.
    pub fn reach(alloc: Global, site: Site, route: Route, working: Uid, purpose: Purpose) -> ByPath
        ensures value { Some result ≡ to_parent_of site (Some route) working purpose }
        ensures kept { IsByPath result }
    {
        let start = route.start;
        let mut names = route.names;
        match names.pop() {
            Some(name) => {
                let task = Task::Reach(name);
                ByPath::walked(alloc, site, Route { start, names }, working, task)
            }
            None => {
                let come = without_name(purpose, &site.start(&start, working));
                ByPath::alone(alloc, come, working)
            }
        }
    }

    /// A path whose last name is added, before it begins. Takes no memory.
    pub fn add(
        alloc: Global,
        site: Site,
        route: Route,
        working: Uid,
        kind: ObjKind,
        room: u32,
        text: Option<ByteList>,
    ) -> ByPath
        requires room { IsRoom room }
        requires text { IsText kind text }
        ensures value { Some result ≡ add_name_of site (Some route) working kind room text }
        ensures kept { IsByPath result }
    {
        let start = route.start;
        let mut names = route.names;
        match names.pop() {
            Some(name) => {
                let what = Addition {
                    name,
                    kind,
                    room,
                    text,
                };
                let task = Task::Change(Changing::new(alloc, working, Change::Add(what)));
                ByPath::walked(alloc, site, Route { start, names }, working, task)
            }
            None => {
                let come = added_alone(&site.start(&start, working));
                ByPath::alone(alloc, come, working)
            }
        }
    }

    /// A path whose last name is removed, before it begins. Takes no memory.
    pub fn remove(alloc: Global, site: Site, route: Route, working: Uid) -> ByPath
        ensures value { Some result ≡ drop_name_of site (Some route) working }
        ensures kept { IsByPath result }
    {
        let start = route.start;
        let mut names = route.names;
        match names.pop() {
            Some(name) => {
                let task = Task::Change(Changing::new(alloc, working, Change::Remove(name)));
                ByPath::walked(alloc, site, Route { start, names }, working, task)
            }
            None => {
                let come = removed_alone(&site.start(&start, working));
                ByPath::alone(alloc, come, working)
            }
        }
    }

    /// Takes in the reply to its operation, and says what comes next.
    pub fn step(&mut self, alloc: Global, last: Option<&Reply>) -> Result<NameStep, NoMemory>
        requires kept { IsByPath self.old }
        requires fits { FitsAsked (by_path_asks self.old) (option_copied last) }
        ensures step { IfOk result (λ step. Some step ≡ step_of by_path_asks (by_path_after self.old (option_copied last.entry))) }
        ensures after { IfOk result (λ step. still step self.new ≡ state_of (by_path_after self.old (option_copied last.entry))) }
        ensures range { IfOk result IsStep }
        ensures kept { IfOk result (λ step. IfAsked step (IsByPath self.new)) }
    {
        match self.turn(alloc, last)? {
            Some(result) => Ok(NameStep::Over(result)),
            None => Ok(NameStep::Do(self.op(alloc)?)),
        }
    }
}

/// What a path without a last name comes to where it is added.
fn added_alone(start: &Option<Walked>) -> NameResult
    ensures { result ≡ added_alone_at start.now }
{
    match start {
        Some(_) => NameResult::NameExists,
        None => NameResult::NotDir,
    }
}

/// What a path without a last name comes to where it is removed.
fn removed_alone(start: &Option<Walked>) -> NameResult
    ensures { result ≡ removed_alone_at start.now }
{
    match start {
        Some(_) => NameResult::IsDir,
        None => NameResult::NoName,
    }
}

/// What a path without a last name comes to, by what its name was to be for.
fn without_name(purpose: Purpose, start: &Option<Walked>) -> NameResult
    ensures { result ≡ alone_for purpose start.now }
{
    match purpose {
        Purpose::Adds => added_alone(start),
        Purpose::Drops => removed_alone(start),
    }
}
