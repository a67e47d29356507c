//! A plain home of objects: what it keeps is what was sent there, and it decides each request at once.
use ring_messages::{Body, PageBytes};
use std::alloc::Global;
use std::cmp::max;
use uid_names::{Mode, NoMemory, ObjKind, PAGE_BYTES, ProcId, Uid};

/// How many pages an object has room for.
pub(crate) const PAGES: usize = 4;

/// Where in its page the byte is that stores change and loads give.
const AT: usize = 7;

/// A lock of a process: its mode and number.
type Row = (ProcId, Mode, u64);

/// An object at its home, and what all nodes made of it.
#[derive(Drop)]
pub(crate) struct Object {
    pub uid: Uid,
    stamp: u64,
    length: u32,
    pages: [[u8; PAGE_BYTES]; PAGES],
    rows: [Option<Row>; 4],
    /// The byte that was stored last in each page, and the length that the stores gave.
    pub last: [u8; PAGES],
    pub end: u32,
}

/// The offset of the byte of a page.
pub(crate) fn place_of(page: u32) -> u32 {
    page.saturating_mul(PAGE_BYTES as u32)
        .saturating_add(AT as u32)
}

/// The page of an offset.
pub(crate) fn page_of(offset: u32) -> usize {
    offset as usize / PAGE_BYTES
}

/// Whether two processes of one node may hold an object so at once: where both read, or both co-write.
fn go_together(one: Mode, other: Mode) -> bool {
    match (one, other) {
        (Mode::Read, Mode::Read) | (Mode::CoWrite, Mode::CoWrite) => true,
        _ => false,
    }
}

impl Object {
    pub fn new(uid: Uid) -> Object {
        Object {
            uid,
            stamp: 1,
            length: 0,
            pages: [[0; PAGE_BYTES]; PAGES],
            rows: [None; 4],
            last: [0; PAGES],
            end: 0,
        }
    }

    /// What the home decides on a request; a lock that it grants has this number.
    pub fn decide(
        &mut self,
        alloc: Global,
        proc: ProcId,
        body: &Body,
        number: u64,
    ) -> Result<Body, NoMemory> {
        if let Some(refusal) = self.refused(body) {
            return Ok(refusal);
        }
        Ok(match body {
            Body::PageIn { page, .. } => self.page(alloc, *page)?,
            Body::PageOut { page, bytes, .. } => self.take_page(*page, bytes.bytes()),
            Body::AttrOut { length, .. } => {
                self.length = *length;
                self.raised()
            }
            Body::Lock { mode, .. } => self.lock(proc, *mode, number),
            Body::Unlock { .. } => {
                self.set_row(proc, None);
                Body::Done
            }
            _ => Body::NoObject,
        })
    }

    fn page(&self, alloc: Global, page: u32) -> Result<Body, NoMemory> {
        let stamp = self.stamp;
        match self.pages.get(page as usize) {
            Some(bytes) => {
                let bytes = PageBytes::new(alloc, bytes)?;
                Ok(Body::Page { stamp, bytes })
            }
            None => Ok(Body::NoObject),
        }
    }

    /// What refuses a page or a length: no lock that writes has its grant, or its base is another stamp.
    fn refused(&self, body: &Body) -> Option<Body> {
        let (grant, base) = match body {
            Body::PageOut { grant, base, .. } | Body::AttrOut { grant, base, .. } => (grant, base),
            _ => return None,
        };
        let mut is_granted = false;
        for row in &self.rows {
            if let Some((_, mode, number)) = row {
                is_granted = is_granted || mode.writes() && *number == *grant;
            }
        }
        if !is_granted {
            return Some(Body::NoGrant);
        }
        if *base != self.stamp {
            return Some(Body::Stale { stamp: self.stamp });
        }
        None
    }

    fn raised(&mut self) -> Body {
        self.stamp = self.stamp.saturating_add(1);
        Body::Stored { stamp: self.stamp }
    }

    fn take_page(&mut self, page: u32, bytes: &[u8; PAGE_BYTES]) -> Body {
        match self.pages.get_mut(page as usize) {
            Some(old) => *old = *bytes,
            None => return Body::NoObject,
        }
        self.raised()
    }

    fn lock(&mut self, proc: ProcId, mode: Mode, grant: u64) -> Body {
        for row in &self.rows {
            if let Some((holder, held, _)) = row
                && *holder != proc
                && !go_together(mode, *held)
            {
                return Body::Conflict {
                    proc: *holder,
                    mode: *held,
                };
            }
        }
        self.set_row(proc, Some((proc, mode, grant)));
        Body::Granted {
            grant,
            stamp: self.stamp,
            kind: ObjKind::File,
            room: PAGES as u32,
            length: self.length,
        }
    }

    /// The lock of a process is another from now on.
    fn set_row(&mut self, proc: ProcId, row: Option<Row>) {
        if let Some(old) = self.rows.get_mut(usize::from(proc.number()) - 1) {
            *old = row;
        }
    }

    /// Another node changes a page, where no process here holds a lock.
    pub fn change_elsewhere(&mut self, page: u32, byte: u8) {
        if self.rows.iter().any(|row| row.is_some()) {
            return;
        }
        if let Some(bytes) = self.pages.get_mut(page as usize) {
            bytes[AT] = byte;
            self.length = max(self.length, place_of(page).saturating_add(1));
            self.stamp = self.stamp.saturating_add(1);
        }
        self.stored(page as usize, byte);
    }

    /// A byte was stored there.
    pub fn stored(&mut self, page: usize, byte: u8) {
        if let Some(last) = self.last.get_mut(page) {
            *last = byte;
            self.end = max(self.end, place_of(page as u32).saturating_add(1));
        }
    }
}
