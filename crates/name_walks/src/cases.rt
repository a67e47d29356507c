//! Cases: each is a title and its rows, as `crd d 8: added`, and an empty line ends it. Its rows are done one after
//! another, in a new store.
use crate::rows::answer;
use dom_text::{cut, put_decimal};
use plain_machines::undone::{Result, Undone};
use plain_machines::world::World;
use std::alloc::Global;
use uid_names::{ByteList, NoMemory};

/// The cases that were tried, and the one that is under way: its title, how many of its rows came to what they say,
/// and the first that came to something else.
#[derive(Drop)]
struct Cases {
    world: World,
    title: ByteList,
    right: u64,
    wrong: ByteList,
    said: ByteList,
}

impl Cases {
    /// None was tried.
    fn new(alloc: Global) -> Result<Cases> {
        Ok(Cases {
            world: World::new(alloc)?,
            title: ByteList::new(alloc),
            right: 0,
            wrong: ByteList::new(alloc),
            said: ByteList::new(alloc),
        })
    }

    /// A case begins.
    fn begin(&mut self, title: &[u8]) -> Result<()> {
        let alloc = self.world.alloc;
        self.world = World::new(alloc)?;
        self.title = ByteList::from_slice(alloc, title)?;
        self.right = 0;
        self.wrong = ByteList::new(alloc);
        Ok(())
    }

    /// What comes of a command, in words.
    fn come(&mut self, command: &[u8]) -> Result<ByteList> {
        match answer(&mut self.world, command) {
            Ok(words) => Ok(words),
            Err(_) => Ok(ByteList::from_slice(self.world.alloc, b"what cannot be done")?),
        }
    }

    /// A row is compared with what comes of it.
    fn compare(&mut self, row: &[u8]) -> Result<()> {
        let (command, expected) = cut(row, b':').ok_or(Undone::NoWords)?;
        let come = self.come(command)?;
        if expected.strip_prefix(b" ") == Some(come.bytes()) {
            self.right = self.right.saturating_add(1);
        } else if self.wrong.bytes().is_empty() {
            self.wrong.extend(command)?;
            self.wrong.extend(b" came to ")?;
            self.wrong.extend(come.bytes())?;
        }
        Ok(())
    }

    /// A case is over.
    fn end(&mut self) -> Result<(), NoMemory> {
        self.said.extend(self.title.bytes())?;
        self.said.extend(b": ")?;
        put_decimal(&mut self.said, self.right)?;
        if !self.wrong.bytes().is_empty() {
            self.said.extend(b", but ")?;
            self.said.extend(self.wrong.bytes())?;
        }
        self.said.push(b'\n')?;
        self.title = ByteList::new(self.world.alloc);
        Ok(())
    }

    /// Takes in a line.
    fn take(&mut self, line: &[u8]) -> Result<()> {
        match (self.title.bytes().is_empty(), line.is_empty()) {
            (true, true) => Ok(()),
            (true, false) => self.begin(line),
            (false, true) => Ok(self.end()?),
            (false, false) => self.compare(line),
        }
    }
}

/// The titles of the cases of a text, each with how many of its rows came to what they say, and the first that did not.
pub fn tried(alloc: Global, text: &[u8]) -> Result<ByteList> {
    let mut cases = Cases::new(alloc)?;
    let mut rest = text;
    while let Some((line, behind)) = cut(rest, b'\n') {
        cases.take(line)?;
        rest = behind;
    }
    cases.take(b"")?;
    Ok(cases.said)
}
