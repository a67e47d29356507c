//! How far changes of directories have come: names that are added or removed.
ghost use Rattle.std.specs.Prelude.{◌≡◌, None, Some, IfOk, OnOk, IfNone, IsSome};
ghost use Rattle.dom_history.specs.Ranges.{IsOp};
ghost use Rattle.dir_records.specs.Directories.{directory_of};
ghost use Rattle.naming_tree.specs.declared.changing.Next.TheVariants.{End};
ghost use Rattle.naming_tree.specs.Turns.{turn_of, FitsAsked};
ghost use Rattle.naming_tree.specs.Entering.{IsEntering};
ghost use Rattle.naming_tree.specs.Endings.{refused_with};
ghost use Rattle.naming_tree.specs.Changing.{moved, on_slots, on_entry, entered, has_text as has_text_of, heard_in, heard_at, finish, changing_after, changing_asks, changing_of};
ghost use Rattle.naming_tree.specs.Changing.{stage_op as stage_asks, IsChange, IsStage, IsChanging, IsOn};

use crate::adding::{AddStage, add_name};
use crate::addition::Addition;
use crate::ending::Ending;
use crate::removing::{RemoveStage, remove_name};
use crate::session::{Entering, Entry, Held, Opened};
use crate::step::NameResult;
use dir_records::{Component, DirFault, Directory};
use dom_history::{Op, Reply};
use std::alloc::Global;
use uid_names::{ByteList, Mode, NoMemory, Uid};

/// What is changed in a directory: a name is added with a new object, or removed with its object.
#[derive(Drop)]
pub enum Change {
    Add(Addition),
    Remove(Component),
}

/// What is asked for a change: the directory is opened and loaded, and then changed.
#[derive(Clone, Copy)]
pub enum Stage {
    /// Nothing yet.
    Begin,
    Enter(Entering),
    Adds(AddStage),
    Removes(RemoveStage),
}

/// What comes of a reply: a stage, or the end.
#[derive(Drop)]
pub enum Next {
    To(Stage),
    End(Ending),
}

/// How far a change of a directory has come; without a stage it comes to its end.
pub struct Changing {
    pub parent: Uid,
    pub change: Change,
    pub stage: Option<Stage>,
    pub bytes: ByteList,
    pub ending: Ending,
}

// Of its own, so that what drops one calls this and does not take it apart in place.
impl Drop for Changing {
    fn drop(self) {
        let Changing {
            parent: _,
            change: _,
            stage: _,
            bytes: _,
            ending: _,
        } = self;
    }
}

impl Next {
    /// What is held is given up behind a refusal.
    pub fn refused(alloc: Global, held: Option<Held>, reply: &Reply) -> Result<Next, NoMemory>
        ensures { IfOk result (λ next. next ≡ End (refused_with held reply.now)) }
    {
        Ok(Next::End(Ending::refused(alloc, held, reply)?))
    }
}

impl Change {
    /// Goes on in a directory that was read.
    fn make(&self, directory: &Directory, opened: &Opened) -> Next
        ensures { result ≡ on_slots self.now (Some directory.now) opened.now }
    {
        match self {
            Change::Add(what) => add_name(what, directory, opened),
            Change::Remove(name) => remove_name(name, directory, opened),
        }
    }

    /// Goes on with the directory once it is loaded.
    fn judge(&self, alloc: Global, bytes: &[u8], opened: &Opened) -> Result<Next, NoMemory>
        ensures { IfOk result (λ next. next ≡ on_slots self.now (directory_of bytes.now) opened.now) }
    {
        match Directory::read(alloc, bytes) {
            Ok(directory) => Ok(self.make(&directory, opened)),
            Err(DirFault::BadDir) => { Ok(Next::End(Ending::decided(opened, NameResult::BadDir))) }
            Err(DirFault::NoMemory) => Err(NoMemory),
        }
    }

    /// Whether a text is to be stored into what is added.
    fn has_text(&self) -> bool
        ensures { result ≡ has_text_of self.now }
    {
        match self {
            Change::Add(what) => what.text.is_some(),
            Change::Remove(_) => false,
        }
    }
}

impl Changing {
    /// A change of a directory, before it begins. Takes no memory.
    pub fn new(alloc: Global, parent: Uid, change: Change) -> Changing
        requires { IsChange change }
        ensures value { result ≡ changing_of parent change }
        ensures changing { IsChanging result }
    {
        Changing {
            parent,
            change,
            stage: Some(Stage::Begin),
            bytes: ByteList::new(alloc),
            ending: Ending::none(),
        }
    }

    /// Goes on in a stage, or comes to its end.
    fn go(&mut self, next: Next)
        ensures { self.new ≡ moved next self.old }
    {
        match next {
            Next::To(stage) => self.stage = Some(stage),
            Next::End(ending) => {
                self.stage = None;
                self.ending = ending;
            }
        }
    }

    /// What comes of a reply to the opening, of which these are the bytes.
    fn entry(&self, alloc: Global, entry: &Entry, reply: &Reply) -> Result<Next, NoMemory>
        ensures { IfOk result (λ next. next ≡ on_entry self.now.change self.now.bytes entry.now reply.now) }
    {
        match entry {
            Entry::On(stage) => Ok(Next::To(Stage::Enter(*stage))),
            Entry::In(opened) => self.change.judge(alloc, self.bytes.bytes(), opened),
            Entry::Out(held) => Next::refused(alloc, *held, reply),
        }
    }

    /// Takes in the reply to an operation of the opening.
    fn enter(&mut self, alloc: Global, stage: &Entering, reply: &Reply) -> Result<(), NoMemory>
        requires { IsEntering stage.now }
        ensures { OnOk result (self.new ≡ entered stage.now reply.now self.old) }
    {
        stage.take_bytes(&mut self.bytes, reply)?;
        let entry = stage.hear(self.parent, reply);
        let next = self.entry(alloc, &entry, reply)?;
        self.go(next);
        Ok(())
    }

    /// Takes in the reply to the operation of a stage.
    fn hear_in(&mut self, alloc: Global, stage: &Stage, reply: &Reply) -> Result<(), NoMemory>
        requires { IsStage self.old.change stage.now }
        ensures { OnOk result (self.new ≡ heard_in stage.now reply.now self.old) }
    {
        match stage {
            Stage::Begin => self.go(Next::To(Stage::Enter(Entering::Lock))),
            Stage::Enter(stage) => return self.enter(alloc, stage, reply),
            Stage::Adds(stage) => {
                let next = stage.hear(alloc, self.change.has_text(), reply)?;
                self.go(next);
            }
            Stage::Removes(stage) => {
                let next = stage.hear(alloc, reply)?;
                self.go(next);
            }
        }
        Ok(())
    }

    /// Begins: the directory is opened. Takes no memory.
    pub fn begin(&mut self)
        requires { IsChanging self.old }
        ensures turn { turn_of None self.new ≡ changing_after self.old None }
        ensures on { IsOn self.new }
    {
        self.stage = Some(Stage::Enter(Entering::Lock));
    }

    /// Takes in the reply to its operation, as far as it goes.
    fn take_in(&mut self, alloc: Global, reply: &Reply) -> Result<(), NoMemory>
        requires { IsChanging self.old }
        ensures { OnOk result (self.new ≡ heard_at self.old.stage reply.now self.old) }
    {
        let stage = self.stage;
        match &stage {
            Some(stage) => self.hear_in(alloc, stage, reply),
            None => self.ending.hear(alloc, reply),
        }
    }

    /// What it has come to, once all is closed.
    fn finish(&mut self) -> Option<NameResult>
        ensures { turn_of result self.new ≡ finish self.old }
    {
        if self.stage.is_some() {
            return None;
        }
        self.ending.take_result()
    }

    /// Takes in the reply to its operation.
    #[tactic(auto, using(crate::proofs::ChangingsOn::on_after))]
    pub fn hear(&mut self, alloc: Global, reply: &Reply) -> Result<Option<NameResult>, NoMemory>
        requires on { IsOn self.old }
        requires fits { FitsAsked (changing_asks self.old) (Some reply.now) }
        ensures turn { IfOk result (λ r. turn_of r self.new ≡ changing_after self.old (Some reply.now)) }
        ensures on { IfOk result (λ r. IfNone r (IsOn self.new)) }
    {
        self.take_in(alloc, reply)?;
        Ok(self.finish())
    }

    /// The operation of a stage.
    fn stage_op(&self, alloc: Global, stage: &Stage) -> Result<Op, NoMemory>
        requires begun { IsSome (stage_asks self.now stage.now) }
        requires change { IsChange self.now.change }
        requires stage { IsStage self.now.change stage.now }
        ensures value { IfOk result (λ op. stage_asks self.now stage.now ≡ Some op) }
        ensures range { IfOk result IsOp }
    {
        match (stage, &self.change) {
            (Stage::Enter(stage), _) => Ok(stage.op(self.parent, Mode::Write)),
            (Stage::Adds(stage), Change::Add(what)) => stage.op(alloc, what),
            (Stage::Removes(stage), _) => stage.op(alloc),
            (Stage::Begin, _) | (Stage::Adds(_), Change::Remove(_)) => unreachable!(),
        }
    }

    /// Its operation.
    pub fn op(&self, alloc: Global) -> Result<Op, NoMemory>
        requires { IsOn self.now }
        ensures value { IfOk result (λ op. changing_asks self.now ≡ Some op) }
        ensures range { IfOk result IsOp }
    {
        match (&self.stage, &self.ending.closing.held) {
            (Some(stage), _) => self.stage_op(alloc, stage),
            (None, Some(held)) => Ok(held.op()),
            (None, None) => unreachable!(),
        }
    }
}
