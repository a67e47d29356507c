//! Random walks: processes of two nodes add, remove, list and look for names, and each command comes to what it does in
//! a plain tree.
ghost use Rattle.std.specs.Prelude.{IsSome};
ghost use Rattle.dir_records.specs.Paths.{route_of};

use crate::tree::{Come, Path, Start, Tree};
use dir_records::{DirRows, is_path};
use dom_history::{Op, Reply};
use drawn_numbers::Draws;
use naming_tree::{NameResult, Walked};
use plain_machines::machines::{add, list, remove, walk};
use plain_machines::world::World;
use samples::node;
use std::alloc::Global;
use std::process::Abort;
use std::test::Fail;
use uid_names::{ByteList, ObjKind};

/// What a command does at its path.
#[derive(Clone, Copy)]
enum Verb {
    Add(ObjKind),
    Remove,
    List,
    Walk(bool),
}

fn drawn_verb(draws: &mut Draws) -> Verb {
    match draws.below(16) {
        0..3 => Verb::Add(ObjKind::File),
        3 => Verb::Add(ObjKind::Mail),
        4 => Verb::Add(ObjKind::Directory),
        5..8 => Verb::Add(ObjKind::Link),
        8..10 => Verb::Remove,
        10 => Verb::List,
        _ => Verb::Walk(draws.below(2) == 0),
    }
}

fn drawn_letter(draws: &mut Draws) -> u8 {
    b'f' + draws.below(6) as u8
}

fn drawn_path(alloc: Global, draws: &mut Draws) -> Result<Path, Fail> {
    let start = match draws.below(16) {
        0..10 => Start::Here,
        10..12 => Start::Own,
        12 => Start::Root,
        _ => Start::Node(draws.below(3) as u8 + 1),
    };
    let mut names = ByteList::new(alloc);
    if start == Start::Here {
        names.push(drawn_letter(draws))?;
    }
    if start != Start::Root {
        for _ in 0..draws.below(4) {
            names.push(drawn_letter(draws))?;
        }
    }
    Ok(Path { start, names })
}

/// Whether an object stands where the tree has it. A directory where paths start has no name.
fn is_at(tree: &Tree, at: usize, found: &Walked) -> Result<bool, Fail> {
    let item = tree.item(at)?;
    let Walked::At { uid, kind, within } = found else {
        return Ok(false);
    };
    if *uid != item.uid || *kind != item.kind {
        return Ok(false);
    }
    let (name, front) = item.place.bytes().split_last().ok_or("no place")?;
    let Some(within) = within else {
        return Ok(front.is_empty());
    };
    let dir = tree.item(tree.find(front).ok_or("no directory")?)?.uid;
    Ok(within.dir == dir && within.name.bytes() == [*name].as_slice())
}

/// Whether these are all rows of a directory of the tree, in order.
fn are_rows(tree: &Tree, at: usize, rows: &DirRows) -> Result<bool, Fail> {
    let mut last = 0;
    for row in rows.items() {
        let name = *row.name.bytes().first().ok_or("no letter")?;
        let item = tree.item(tree.child(at, name)?.ok_or("no such row")?)?;
        if row.uid != item.uid || row.kind != item.kind || name <= last {
            return Ok(false);
        }
        last = name;
    }
    Ok(rows.items().len() == tree.children(at)?)
}

/// Whether a result is what had to come.
fn is_so(tree: &Tree, come: Come, said: &NameResult) -> Result<bool, Fail> {
    Ok(match (come, said) {
        (Come::At(at), NameResult::Found(found)) => is_at(tree, at, found)?,
        (Come::Rows(at), NameResult::Rows(rows)) => are_rows(tree, at, rows)?,
        (Come::Root, NameResult::Found(Walked::Root))
        | (Come::Added(_), NameResult::Added(_))
        | (Come::Removed(_), NameResult::Removed)
        | (Come::Nodes, NameResult::Nodes)
        | (Come::NoName, NameResult::NoName)
        | (Come::NameExists, NameResult::NameExists)
        | (Come::NotDir, NameResult::NotDir)
        | (Come::IsDir, NameResult::IsDir)
        | (Come::LinkLoop, NameResult::LinkLoop) => true,
        _ => false,
    })
}

/// Adds an object by the text of a path; a link has a path.
fn added(world: &mut World, path: &[u8], kind: ObjKind, link: &Path) -> Result<NameResult, Fail>
    requires { IsSome (route_of path.now) }
{
    match kind {
        ObjKind::File => Ok(add(world, path, ObjKind::File, 1, None)?),
        ObjKind::Mail => Ok(add(world, path, ObjKind::Mail, 1, None)?),
        ObjKind::Directory => Ok(add(world, path, ObjKind::Directory, 1, None)?),
        ObjKind::Link => {
            let text = link.text(world.alloc)?;
            if !is_path(world.alloc, text.bytes())? {
                return Err("a link to no path".into());
            }
            Ok(add(world, path, ObjKind::Link, 1, Some(text))?)
        }
    }
}

/// A store, the tree that it has to have, and how many commands came to each.
#[derive(Drop)]
struct Table {
    world: World,
    tree: Tree,
    draws: Draws,
    counts: [u32; 11],
}

impl Table {
    fn new(alloc: Global, seed: u64) -> Result<Table, Fail> {
        Ok(Table {
            world: World::new(alloc)?,
            tree: Tree::new(alloc)?,
            draws: Draws::new(seed),
            counts: [0; 11],
        })
    }

    /// A result is what had to come.
    fn compare(&mut self, rt: &impl Abort, come: Come, said: &NameResult) -> Result<(), Fail> {
        assert!(rt; is_so(&self.tree, come, said)?, "{come:?} {said:?}");
        let count = self.counts.get_mut(come.place()).ok_or("no count")?;
        *count = count.saturating_add(1);
        Ok(())
    }

    /// An object is added.
    fn add(
        &mut self,
        rt: &impl Abort,
        own: u8,
        path: &Path,
        text: &[u8],
        kind: ObjKind,
    ) -> Result<(), Fail>
        requires { IsSome (route_of text.now) }
    {
        let link = drawn_path(self.world.alloc, &mut self.draws)?;
        let come = self.tree.add(own, path)?;
        let said = added(&mut self.world, text, kind, &link)?;
        self.compare(rt, come, &said)?;
        if let (Come::Added(at), NameResult::Added(uid)) = (come, &said) {
            let name = *path.names.bytes().last().ok_or("no name")?;
            let link = if kind == ObjKind::Link {
                Some(link)
            } else {
                None
            };
            self.tree.put(at, name, kind, *uid, link)?;
        }
        Ok(())
    }

    /// A process of a node has its turn.
    fn turn(&mut self, rt: &impl Abort) -> Result<(), Fail> {
        let own = self.draws.below(2) as u8 + 1;
        self.world.go_to(node(own)?);
        let path = drawn_path(self.world.alloc, &mut self.draws)?;
        let text = path.text(self.world.alloc)?;
        if !is_path(self.world.alloc, text.bytes())? {
            return Err("no path".into());
        }
        let (come, said) = match drawn_verb(&mut self.draws) {
            Verb::Add(kind) => return self.add(rt, own, &path, text.bytes(), kind),
            Verb::Remove => (
                self.tree.remove(own, &path)?,
                remove(&mut self.world, text.bytes())?,
            ),
            Verb::List => (
                self.tree.list(own, &path)?,
                list(&mut self.world, text.bytes())?,
            ),
            Verb::Walk(last) => (
                self.tree.walk(own, &path, last)?,
                walk(&mut self.world, text.bytes(), last)?,
            ),
        };
        self.compare(rt, come, &said)?;
        if let Come::Removed(at) = come {
            self.tree.take(at);
        }
        Ok(())
    }

    /// Nothing is locked at a node.
    fn nothing_is_open(&mut self, rt: &impl Abort, number: u8) -> Result<(), Fail> {
        let home = node(number)?;
        let _number = home.number();
        let reply = self.world.reply(&Op::List { home, after: None })?;
        assert!(rt;
            matches!(&reply, Reply::Locks { rows, more: false } if rows.items().is_empty())
        );
        Ok(())
    }
}

#[test]
fn each_command_comes_to_what_it_does_in_a_plain_tree(rt: HostRuntime) -> Result<(), Fail> {
    let mut table = Table::new(rt.alloc(), 1)?;
    for _ in 0..2000u32 {
        table.turn(&rt)?;
    }
    table.nothing_is_open(&rt, 1)?;
    table.nothing_is_open(&rt, 2)?;
    for count in table.counts {
        assert!(rt; count > 5, "{:?}", table.counts);
    }
    Ok(())
}
