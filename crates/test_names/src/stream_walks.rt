//! A random walk over files, beside plain lists of bytes.
use dom_history::Reply;
use drawn_numbers::Draws;
use mapped_streams::StreamResult;
use plain_machines::streams::{appending, copy, made, read, serve, some_bytes};
use plain_machines::world::World;
use std::alloc::Global;
use std::process::Abort;
use std::test::Fail;
use uid_names::{ByteList, NoMemory, PAGE_BYTES, Uid};

/// How many streams a walk makes.
const STREAMS: u32 = 400;

/// The rooms of the files, in pages.
const ROOMS: [u32; 4] = [1, 2, 3, 5];

/// A file, and the bytes that it should hold.
#[derive(Drop)]
struct PlainFile {
    uid: Uid,
    room: u32,
    bytes: ByteList,
}

impl PlainFile {
    /// How many bytes have room in it.
    fn room_bytes(&self) -> usize {
        self.room as usize * PAGE_BYTES
    }

    /// Puts a text behind its bytes, as far as there is room. Whether all of it has.
    fn append(&mut self, text: &[u8]) -> Result<bool, NoMemory> {
        let left = self.room_bytes().saturating_sub(self.bytes.bytes().len());
        let count = text.len().min(left);
        self.bytes.extend(&text[..count])?;
        Ok(count == text.len())
    }

    /// Puts bytes over its first ones, as far as there is room. Whether all of them have.
    fn put_over(&mut self, alloc: Global, bytes: &[u8]) -> Result<bool, NoMemory> {
        let count = bytes.len().min(self.room_bytes());
        let mut new = ByteList::from_slice(alloc, &bytes[..count])?;
        if let Some(behind) = self.bytes.bytes().get(count..) {
            new.extend(behind)?;
        }
        self.bytes = new;
        Ok(count == bytes.len())
    }
}

/// Files, and how many streams found no room.
#[derive(Drop)]
struct Walk {
    world: World,
    files: Vec<PlainFile>,
    draws: Draws,
    /// What texts are taken from.
    letters: ByteList,
    past_room: u32,
}

impl Walk {
    /// Empty files.
    fn new(alloc: Global) -> Result<Walk, Fail> {
        let mut world = World::new(alloc)?;
        let mut files = Vec::new(alloc);
        for room in ROOMS {
            let uid = made(&mut world, room)?;
            let bytes = ByteList::new(alloc);
            files.push(PlainFile { uid, room, bytes })?;
        }
        Ok(Walk {
            world,
            files,
            draws: Draws::new(1),
            letters: some_bytes(alloc, 2048)?,
            past_room: 0,
        })
    }

    /// The file at a place.
    fn file(&mut self, at: usize) -> Result<&mut PlainFile, Fail> {
        Ok(self.files.get_mut(at).ok_or("no such file")?)
    }

    /// Sees that a stream is done where there is room, and past its room where there is none.
    fn see(&mut self, has_room: bool, come: &StreamResult) -> Result<(), Fail> {
        match (has_room, come) {
            (true, StreamResult::Fine) => Ok(()),
            (false, StreamResult::Store(Reply::PastRoom)) => {
                self.past_room = self.past_room.saturating_add(1);
                Ok(())
            }
            _ => Err(Fail::from("another result")),
        }
    }

    /// Puts a text behind a file.
    fn append(&mut self, at: usize) -> Result<(), Fail> {
        let alloc = self.world.alloc;
        let start = self.draws.below(1024) as usize;
        let count = 1 + self.draws.below(1024) as usize;
        let text = match self.letters.bytes().get(start..start + count) {
            Some(letters) => ByteList::from_slice(alloc, letters)?,
            None => return Err(Fail::from("too few letters")),
        };
        let file = self.file(at)?;
        let has_room = file.append(text.bytes())?;
        let machine = appending(alloc, file.uid, text.bytes())?;
        let result = serve(&mut self.world, machine, &None)?.result;
        self.see(has_room, &result)
    }

    /// Reads a file.
    fn read(&mut self, at: usize) -> Result<(), Fail> {
        let uid = self.file(at)?.uid;
        let result = read(&mut self.world, uid, false, &None)?.result;
        let file = self.file(at)?;
        match &result {
            StreamResult::Bytes(bytes) if bytes.bytes() == file.bytes.bytes() => Ok(()),
            _ => Err(Fail::from("other bytes")),
        }
    }

    /// Counts the lines of a file.
    fn count(&mut self, at: usize) -> Result<(), Fail> {
        let file = self.file(at)?;
        let lines = file
            .bytes
            .bytes()
            .iter()
            .filter(|byte| **byte == b'\n')
            .count() as u64;
        let uid = file.uid;
        match read(&mut self.world, uid, true, &None)?.result {
            StreamResult::Count(n) if n == lines => Ok(()),
            _ => Err(Fail::from("another count")),
        }
    }

    /// Copies a file over another one.
    fn copy(&mut self, from: usize, to: usize) -> Result<(), Fail> {
        let alloc = self.world.alloc;
        let source = self.file(from)?;
        let uid = source.uid;
        let bytes = source.bytes.copy(alloc)?;
        let target = self.file(to)?;
        let has_room = target.put_over(alloc, bytes.bytes())?;
        let other = target.uid;
        let result = copy(&mut self.world, uid, other, &None)?.result;
        if from == to {
            match &result {
                StreamResult::Store(Reply::AlreadyHeld) => Ok(()),
                _ => Err(Fail::from("a file is locked twice")),
            }
        } else {
            self.see(has_room, &result)
        }
    }

    /// Puts an empty file of the same room in the place of one.
    fn replace(&mut self, at: usize) -> Result<(), Fail> {
        let alloc = self.world.alloc;
        let room = self.file(at)?.room;
        let uid = made(&mut self.world, room)?;
        let bytes = ByteList::new(alloc);
        *self.file(at)? = PlainFile { uid, room, bytes };
        Ok(())
    }

    /// One stream, or a new file.
    fn go(&mut self) -> Result<(), Fail> {
        let at = self.draws.below(4) as usize;
        match self.draws.below(16) {
            0..7 => self.append(at),
            7..10 => self.read(at),
            10..12 => self.count(at),
            12..14 => {
                let to = self.draws.below(4) as usize;
                self.copy(at, to)
            }
            _ => self.replace(at),
        }
    }
}

#[test]
fn files_are_lists_of_bytes(rt: HostRuntime) -> Result<(), Fail> {
    let mut walk = Walk::new(rt.alloc())?;
    for _ in 0..STREAMS {
        walk.go()?;
    }
    for at in 0..4 {
        walk.read(at)?;
    }
    assert!(rt; walk.past_room >= 10);
    Ok(())
}
