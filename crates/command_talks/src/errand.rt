//! What commands do behind the walks along their paths.
ghost use Rattle.std.specs.Prelude.{◌≡◌, IsSome};
ghost use Rattle.mapped_streams.specs.Works.{IsText};
ghost use Rattle.dir_records.specs.Paths.{route_of};

use crate::check::Subject;
use crate::reach::Reach;
use crate::source::Source;
use naming_tree::{Addition, ChangeAt, Purpose, Site, Within};
use std::alloc::Global;
use std::marker::Model;
use uid_names::{ByteList, NoMemory, ObjKind, Uid};

/// A text that can be put behind the bytes of a file: some bytes, and at most a page of them.
#[derive(Drop)]
pub struct Text {
    bytes: ByteList,
}

impl Model for Text {
    ghost use Rattle.std.specs.Prelude.{List, ℕ};
    ghost use Rattle.mapped_streams.specs.Works.{IsText};

    ghost Value = { List ℕ };

    ghost view = { λ t. t.bytes };

    ghost invariant = { λ t. IsText t.bytes };
}

impl Text {
    pub fn new(bytes: ByteList) -> Text
        requires { IsText bytes }
        ensures { result ≡ bytes }
    {
        Text { bytes }
    }

    pub fn bytes(&self) -> &[u8]
        ensures value { result.now ≡ self.now }
        ensures range { IsText result.now }
    {
        self.bytes.bytes()
    }
}

/// A text that a mailbox takes: 1 to 120 bytes.
#[derive(Drop)]
pub struct Letter {
    bytes: ByteList,
}

impl Model for Letter {
    ghost use Rattle.std.specs.Prelude.{List, ℕ};
    ghost use Rattle.mail_box.specs.Boxes.{IsText};

    ghost Value = { List ℕ };

    ghost view = { λ t. t.bytes };

    ghost invariant = { λ t. IsText t.bytes };
}

impl Letter {
    ghost use Rattle.mail_box.specs.Boxes.{IsText as IsMessageText};

    pub fn new(bytes: ByteList) -> Letter
        requires { IsMessageText bytes }
        ensures { result ≡ bytes }
    {
        Letter { bytes }
    }

    pub fn bytes(&self) -> &[u8]
        ensures value { result.now ≡ self.now }
        ensures range { IsMessageText result.now }
    {
        self.bytes.bytes()
    }
}

/// Where a copy goes: a path, for whom, and where its names are looked up.
#[derive(Drop)]
pub struct Target {
    guard: Option<Subject>,
    site: Site,
    dir: Uid,
    path: ByteList,
}

impl Model for Target {
    ghost use Rattle.std.specs.Prelude.{IsSome};
    ghost use Rattle.dir_records.specs.Paths.{route_of};
    ghost use Rattle.command_talks.specs.Sources.{Targeted};

    ghost Value = { Targeted };

    ghost view = { λ t. record { guard = t.guard; site = t.site; dir = t.dir; path = t.path } };

    ghost invariant = { λ t. IsSome (route_of t.path) };
}

impl Target {
    ghost use Rattle.std.specs.Prelude.{IfOk};
    ghost use Rattle.naming_tree.specs.declared.purpose.Purpose.TheVariants.{Adds};
    ghost use Rattle.naming_tree.specs.ByPaths.{to_parent_of};

    pub fn new(guard: Option<Subject>, site: Site, dir: Uid, path: ByteList) -> Target
        requires { IsSome (route_of path) }
        ensures { result ≡ record { guard = guard; site = site; dir = dir; path = path } }
    {
        Target {
            guard,
            site,
            dir,
            path,
        }
    }

    /// The walk to the directory of its last name, and for whom it is made.
    pub fn walk(self, alloc: Global) -> Result<(Reach, Option<Subject>), NoMemory>
        ensures walk { IfOk result (λ p. p.0 ≡ to_parent_of self.site (route_of self.path) self.dir Adds) }
        ensures guard { IfOk result (λ p. p.1 ≡ self.guard) }
    {
        let path = self.path;
        let walk = Reach::new(alloc, self.site, path.bytes(), self.dir, Purpose::Adds)?;
        Ok((walk, self.guard))
    }
}

/// The object that is made for a name. `room` is in pages; a link has a text.
#[derive(Drop)]
pub struct NewObject {
    kind: ObjKind,
    room: u32,
    text: Option<ByteList>,
}

impl Model for NewObject {
    ghost use Rattle.uid_names.specs.Rooms.{IsRoom};
    ghost use Rattle.naming_tree.specs.Additions.{IsText as IsLinkText};
    ghost use Rattle.command_talks.specs.Intentions.{Intended};

    ghost Value = { Intended };

    ghost view = { λ o. record { kind = o.kind; room = o.room; text = o.text } };

    ghost invariant = { λ o. IsRoom o.room × IsLinkText o.kind o.text };
}

impl NewObject {
    ghost use Rattle.std.specs.Prelude.{Some};
    ghost use Rattle.uid_names.specs.Rooms.{IsRoom};
    ghost use Rattle.naming_tree.specs.Additions.{IsText as IsLinkText};
    ghost use Rattle.naming_tree.specs.Changing.{changing_of};
    ghost use Rattle.naming_tree.specs.NamePaths.{addition};
    ghost use Rattle.naming_tree.specs.declared.changing.Change.TheVariants.{Add as AddChange};
    ghost use Rattle.command_talks.specs.Intentions.{object_for};

    pub fn new(kind: ObjKind, room: u32, text: Option<ByteList>) -> NewObject
        requires room { IsRoom room }
        requires text { IsLinkText kind text }
        ensures { result ≡ object_for kind room text }
    {
        NewObject { kind, room, text }
    }

    /// Its kind.
    pub fn kind(&self) -> ObjKind
        ensures { result ≡ self.now.kind }
    {
        self.kind
    }

    /// The addition of a name with it to a directory. Takes no memory.
    pub fn add_at(self, alloc: Global, place: &Within) -> ChangeAt
        ensures { result ≡ Some (changing_of place.now.dir (AddChange (addition self.kind self.room self.text place.now.name))) }
    {
        let what = Addition {
            name: place.name,
            kind: self.kind,
            room: self.room,
            text: self.text,
        };
        ChangeAt::add(alloc, place.dir, what)
    }
}

/// What is done behind the walk along a command's path.
#[derive(Drop)]
pub enum Errand {
    /// What the path leads to is what the command comes to: it is bound, or entered.
    Bind,
    Enter,
    /// The directory is listed.
    List,
    Read,
    Count,
    Append(Text),
    /// A text is put into a mailbox.
    Put(Letter),
    /// The first is taken out of it.
    Take,
    Copy(Target),
    /// The last name is added to its directory.
    Add(NewObject),
    /// It is removed from it.
    Remove,
    /// It is added for a copy, whose source is open.
    Fill(Source),
}

impl Errand {
    ghost use Rattle.command_talks.specs.Deeds.{purpose_of};

    /// What the directory of the path's last name is looked for; None where the path is walked along to its own end.
    pub fn purpose(&self) -> Option<Purpose>
        ensures { result ≡ purpose_of self.now }
    {
        match self {
            Errand::Add(_) | Errand::Fill(_) => Some(Purpose::Adds),
            Errand::Remove => Some(Purpose::Drops),
            _ => None,
        }
    }
}
