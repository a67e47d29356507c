//! A plain tree of names, in which each name is one letter, and where paths lead in it.
use plain_machines::world::entry;
use samples::node;
use std::alloc::Global;
use std::test::Fail;
use uid_names::{ByteList, ObjKind, Uid};

/// Where a path starts: where one stands, at the own node, at the node of a number, or at the root.
#[derive(Clone, Copy, Debug, PartialEq, Eq)]
pub enum Start {
    Here,
    Own,
    Node(u8),
    Root,
}

/// A path, its names as letters. One from the root has none.
#[derive(Drop)]
pub struct Path {
    pub start: Start,
    pub names: ByteList,
}

impl Path {
    /// Its text.
    pub fn text(&self, alloc: Global) -> Result<ByteList, Fail> {
        let mut text = ByteList::from_slice(
            alloc,
            match self.start {
                Start::Here => b"",
                Start::Own => b"/",
                Start::Node(1) => b"//a",
                Start::Node(2) => b"//b",
                Start::Node(_) => b"//none",
                Start::Root => b"//",
            },
        )?;
        let mut is_behind_slash = !matches!(self.start, Start::Node(_));
        for name in self.names.bytes() {
            if !is_behind_slash {
                text.push(b'/')?;
            }
            text.push(*name)?;
            is_behind_slash = false;
        }
        Ok(text)
    }
}

/// An object of the tree. `place` is the number of a node and then the letters that lead from its entry directory to
/// the object. A link has a path.
#[derive(Drop)]
pub struct Item {
    pub place: ByteList,
    pub kind: ObjKind,
    pub uid: Uid,
    pub link: Option<Path>,
}

impl Item {
    /// Whether the directory at a place has it.
    fn is_in(&self, place: &[u8]) -> bool {
        match self.place.bytes().split_last() {
            Some((_, front)) => front == place,
            None => false,
        }
    }
}

/// What comes of a command. An item is told by how many stand before it.
#[derive(Clone, Copy, Debug, PartialEq, Eq)]
pub enum Come {
    Root,
    At(usize),
    /// To be added to this directory.
    Added(usize),
    Removed(usize),
    Rows(usize),
    Nodes,
    NoName,
    NameExists,
    NotDir,
    IsDir,
    LinkLoop,
}

impl Come {
    /// How many kinds of it stand before this one.
    pub fn place(self) -> usize {
        match self {
            Come::Root => 0,
            Come::At(_) => 1,
            Come::Added(_) => 2,
            Come::Removed(_) => 3,
            Come::Rows(_) => 4,
            Come::Nodes => 5,
            Come::NoName => 6,
            Come::NameExists => 7,
            Come::NotDir => 8,
            Come::IsDir => 9,
            Come::LinkLoop => 10,
        }
    }
}

/// How far a walk has come: its place, empty at the root, the letters behind it, and how many links it may follow.
#[derive(Drop)]
struct Way {
    alloc: Global,
    own: u8,
    place: ByteList,
    rest: ByteList,
    links: u32,
}

impl Way {
    /// Goes to where a path starts, with its letters before those that are left.
    fn set_out(&mut self, path: &Path) -> Result<(), Fail> {
        match path.start {
            Start::Here => {}
            Start::Own => self.place = ByteList::from_slice(self.alloc, &[self.own])?,
            Start::Node(node) => self.place = ByteList::from_slice(self.alloc, &[node])?,
            Start::Root => self.place = ByteList::new(self.alloc),
        }
        let mut rest = path.names.copy(self.alloc)?;
        rest.extend(self.rest.bytes())?;
        self.rest = rest;
        Ok(())
    }

    /// Follows the link at its place, if it may.
    fn follow(&mut self, path: &Path) -> Result<Option<Come>, Fail> {
        if self.links == 0 {
            return Ok(Some(Come::LinkLoop));
        }
        self.links -= 1;
        let (_, front) = self.place.bytes().split_last().ok_or("no place")?;
        self.place = ByteList::from_slice(self.alloc, front)?;
        self.set_out(path)?;
        Ok(None)
    }

    /// Goes on along the next letter.
    fn on(&mut self) -> Result<Option<Come>, Fail> {
        let (name, behind) = self.rest.bytes().split_first().ok_or("no name")?;
        self.place.push(*name)?;
        self.rest = ByteList::from_slice(self.alloc, behind)?;
        Ok(None)
    }
}

/// All objects of two nodes that have names, and their entry directories.
#[derive(Drop)]
pub struct Tree {
    alloc: Global,
    pub items: Vec<Item>,
}

impl Tree {
    /// The entry directories.
    pub fn new(alloc: Global) -> Result<Tree, Fail> {
        let mut items = Vec::new(alloc);
        for number in 1..3u8 {
            items.push(Item {
                place: ByteList::from_slice(alloc, &[number])?,
                kind: ObjKind::Directory,
                uid: entry(node(number)?),
                link: None,
            })?;
        }
        Ok(Tree { alloc, items })
    }

    /// The item of this number.
    pub fn item(&self, at: usize) -> Result<&Item, Fail> {
        Ok(self.items.get(at).ok_or("no item")?)
    }

    /// How many items stand before the one at a place.
    pub fn find(&self, place: &[u8]) -> Option<usize> {
        self.items.iter().position(|i| i.place.bytes() == place)
    }

    /// The item that a directory has by a letter.
    pub fn child(&self, at: usize, name: u8) -> Result<Option<usize>, Fail> {
        let mut place = self.item(at)?.place.copy(self.alloc)?;
        place.push(name)?;
        Ok(self.find(place.bytes()))
    }

    /// How many items a directory has.
    pub fn children(&self, at: usize) -> Result<usize, Fail> {
        let place = self.item(at)?.place.bytes();
        Ok(self.items.iter().filter(|i| i.is_in(place)).count())
    }

    /// One step of a walk; None where it goes on.
    fn step(&self, way: &mut Way, last: bool) -> Result<Option<Come>, Fail> {
        let is_end = way.rest.bytes().is_empty();
        if way.place.bytes().is_empty() {
            return Ok(Some(if is_end { Come::Root } else { Come::NotDir }));
        }
        let Some(at) = self.find(way.place.bytes()) else {
            return Ok(Some(Come::NoName));
        };
        let item = self.item(at)?;
        match &item.link {
            Some(path) if last || !is_end => way.follow(path),
            _ if is_end => Ok(Some(Come::At(at))),
            _ if item.kind == ObjKind::Directory => way.on(),
            _ => Ok(Some(Come::NotDir)),
        }
    }

    /// Where a path leads a process of a node; a link at its end is followed or not.
    pub fn walk(&self, own: u8, path: &Path, last: bool) -> Result<Come, Fail> {
        let mut way = Way {
            alloc: self.alloc,
            own,
            place: ByteList::from_slice(self.alloc, &[own])?,
            rest: ByteList::new(self.alloc),
            links: 8,
        };
        way.set_out(path)?;
        for _ in 0..1000 {
            if let Some(come) = self.step(&mut way, last)? {
                return Ok(come);
            }
        }
        Err("a walk with no end".into())
    }

    /// What a list of a path comes to.
    pub fn list(&self, own: u8, path: &Path) -> Result<Come, Fail> {
        match self.walk(own, path, true)? {
            Come::Root => Ok(Come::Nodes),
            Come::At(at) if self.item(at)?.kind == ObjKind::Directory => Ok(Come::Rows(at)),
            Come::At(_) => Ok(Come::NotDir),
            refused => Ok(refused),
        }
    }

    /// The directory to which a path leads, or what comes of a change there.
    fn parent(&self, own: u8, start: Start, front: &[u8]) -> Result<Come, Fail> {
        let names = ByteList::from_slice(self.alloc, front)?;
        match self.list(own, &Path { start, names })? {
            Come::Nodes => Ok(Come::NotDir),
            come => Ok(come),
        }
    }

    /// What an addition comes to.
    pub fn add(&self, own: u8, path: &Path) -> Result<Come, Fail> {
        let Some((name, front)) = path.names.bytes().split_last() else {
            return Ok(match path.start {
                Start::Node(3) => Come::NotDir,
                _ => Come::NameExists,
            });
        };
        match self.parent(own, path.start, front)? {
            Come::Rows(at) if self.child(at, *name)?.is_some() => Ok(Come::NameExists),
            Come::Rows(at) => Ok(Come::Added(at)),
            refused => Ok(refused),
        }
    }

    /// What a removal comes to.
    pub fn remove(&self, own: u8, path: &Path) -> Result<Come, Fail> {
        let Some((name, front)) = path.names.bytes().split_last() else {
            return Ok(match path.start {
                Start::Node(3) => Come::NoName,
                _ => Come::IsDir,
            });
        };
        let at = match self.parent(own, path.start, front)? {
            Come::Rows(at) => at,
            refused => return Ok(refused),
        };
        Ok(match self.child(at, *name)? {
            None => Come::NoName,
            Some(at) if self.item(at)?.kind == ObjKind::Directory => Come::IsDir,
            Some(at) => Come::Removed(at),
        })
    }

    /// Puts an object into a directory.
    pub fn put(
        &mut self,
        at: usize,
        name: u8,
        kind: ObjKind,
        uid: Uid,
        link: Option<Path>,
    ) -> Result<(), Fail> {
        let mut place = self.item(at)?.place.copy(self.alloc)?;
        place.push(name)?;
        self.items.push(Item {
            place,
            kind,
            uid,
            link,
        })?;
        Ok(())
    }

    /// Takes an item out.
    pub fn take(&mut self, at: usize) {
        if at < self.items.len() {
            let _item = self.items.swap_remove(at);
        }
    }
}
