//! What happens at a node, and what it does.
ghost use Rattle.std.specs.Prelude.{◌≡◌, ◌↔◌, List, [], ◌∷◌, ◌++◌, IsTrue, IfOk, OnOk, OnErr};
ghost use Rattle.dom_history.specs.Events.{IsWhat, ArePagesRising, page_lt};
ghost use Rattle.dom_history.specs.Ranges.{IsProcNumber};

use crate::end_word::EndWord;
use std::alloc::Global;
use std::marker::Model;
use uid_names::{ItemList, NoMemory, NodeId, Place, Uid};

/// An event. Processes are named by their number at the node, 1 to 4; frames by their link and their number on it.
#[derive(Clone, Copy, Debug, PartialEq, Eq)]
pub enum What {
    /// A process asks for its next operation, which begins.
    Begin(u8),
    /// A process goes on, once the page that it waits for is in transit no more.
    Go(u8),
    /// A frame that came from this node is taken.
    Take(NodeId, u64),
    /// A process is told that a frame of its call, from the first node to the second, was lost or is late.
    Notice(u8, NodeId, NodeId, u64),
    /// The node tells the others that it is at the end of this phase.
    Ready(u32),
    /// The node takes in that another one is at the end of this phase.
    Mark(NodeId, u32),
}

fn is_proc_number(p: u8) -> bool
    ensures { IsTrue result ↔ IsProcNumber p }
{
    1 <= p && p <= 4
}

impl What {
    /// Whether the process that it names, if it names one, is 1 to 4. Takes no memory.
    pub fn is_valid(self) -> bool
        ensures { IsTrue result ↔ IsWhat self }
    {
        match self {
            What::Begin(p) | What::Go(p) | What::Notice(p, _, _, _) => is_proc_number(p),
            What::Take(_, _) | What::Ready(_) | What::Mark(_, _) => true,
        }
    }
}

/// A frame that was sent: as which one on its link, with which number of a call, to which node, and of which kind.
// The numbers stand first, so that a frame takes 24 bytes.
#[derive(Clone, Copy, Debug, PartialEq, Eq)]
pub struct Sent {
    pub index: u64,
    pub number: u64,
    pub to: NodeId,
    pub kind: u8,
}

/// Whether a page comes before another, by object and then by number.
fn is_page_below(a: &(Uid, u32), b: &(Uid, u32)) -> bool
    ensures { result ≡ page_lt a.now b.now }
{
    a.0.is_below(b.0) || (a.0.is(b.0) && a.1 < b.1)
}

fn are_rising(pages: &[(Uid, u32)]) -> bool
    ensures { IsTrue result ↔ ArePagesRising pages.now }
{
    for i in 1..pages.len() {
        if !is_page_below(&pages[i - 1], &pages[i]) {
            return false;
        }
    }
    true
}

/// Pages as a list of them is kept.
#[derive(Drop, Debug)]
enum Pages {
    /// The one page, which takes no memory.
    One([(Uid, u32); 1]),
    Many(Vec<(Uid, u32)>),
}

/// Pages, each by its object and its number there. Most events that drop a page drop one.
#[derive(Debug)]
pub struct Dropped {
    alloc: Global,
    pages: Pages,
}

// Of its own, so that what drops one calls this and does not take it apart in place.
impl Drop for Dropped {
    fn drop(self) {
        let Dropped { alloc: _, pages: _ } = self;
    }
}

impl Model for Dropped {
    ghost use Rattle.std.specs.Prelude.{ℕ, List};
    ghost use Rattle.uid_names.specs.Names.{ObjectName};
    ghost use Rattle.dom_history.specs.DroppedPages.{listed};

    ghost Value = { List (ObjectName × ℕ) };

    ghost view = { λ d. listed d.pages };
}

impl Dropped {
    /// No page. Takes no memory.
    pub fn new(alloc: Global) -> Dropped
        ensures { result ≡ [] }
    {
        Dropped {
            alloc,
            pages: Pages::Many(Vec::new(alloc)),
        }
    }

    /// One page. Takes no memory.
    pub fn one(alloc: Global, uid: Uid, page: u32) -> Dropped
        ensures { result ≡ (uid, page) ∷ [] }
    {
        Dropped {
            alloc,
            pages: Pages::One([(uid, page)]),
        }
    }

    /// Puts a page last; without memory the list stays as it was.
    pub fn push(&mut self, page: (Uid, u32)) -> Result<(), NoMemory>
        ensures ok { OnOk result (self.new ≡ self.old ++ page ∷ []) }
        ensures err { OnErr result (self.new ≡ self.old) }
    {
        match &mut self.pages {
            Pages::Many(pages) => {
                pages.push(page)?;
                Ok(())
            }
            Pages::One(one) => {
                let pages = both(self.alloc, one[0], page)?;
                self.pages = Pages::Many(pages);
                Ok(())
            }
        }
    }

    /// The pages.
    pub fn items(&self) -> &[(Uid, u32)]
        ensures { result.now ≡ self.now }
    {
        match &self.pages {
            Pages::One(page) => page.as_slice(),
            Pages::Many(pages) => pages.as_slice(),
        }
    }

    /// Whether each page comes before the later ones, by object and then by number. Takes no memory.
    pub fn is_rising(&self) -> bool
        ensures { IsTrue result ↔ ArePagesRising self.now }
    {
        are_rising(self.items())
    }

    /// A copy.
    pub fn copy(&self, alloc: Global) -> Result<Dropped, NoMemory>
        ensures { IfOk result (λ copy. copy ≡ self.now) }
    {
        let pages = match &self.pages {
            Pages::One(page) => Pages::One([page[0]]),
            Pages::Many(pages) => Pages::Many(Vec::from_slice(alloc, pages.as_slice())?),
        };
        Ok(Dropped { alloc, pages })
    }
}

/// A list of two pages.
fn both(alloc: Global, first: (Uid, u32), second: (Uid, u32)) -> Result<Vec<(Uid, u32)>, NoMemory>
    ensures { IfOk result (λ pages. pages.items ≡ first ∷ second ∷ []) }
{
    let mut pages = Vec::with_capacity(alloc, 2)?;
    pages.push(first)?;
    pages.push(second)?;
    Ok(pages)
}

/// What an event did: the pages that it dropped, the frame that it sent, and the process whose operation it ended.
#[derive(Drop, Debug)]
pub struct Effects {
    pub dropped: Dropped,
    pub sent: Option<Sent>,
    pub ended: Option<(u8, EndWord)>,
}

impl Effects {
    ghost use Rattle.dom_history.specs.Events.{AreEffects};

    /// A copy.
    pub fn copy(&self, alloc: Global) -> Result<Effects, NoMemory>
        ensures { IfOk result (λ copy. copy ≡ self.now) }
    {
        let dropped = self.dropped.copy(alloc)?;
        Ok(Effects {
            dropped,
            sent: self.sent,
            ended: self.ended,
        })
    }
}

/// An event of a node with what it did.
#[derive(Drop, Debug)]
pub struct Event {
    place: Place,
    what: What,
    effects: Effects,
}

impl Model for Event {
    ghost use Rattle.dom_history.specs.Events.{Happening, IsEvent};

    ghost Value = { Happening };

    ghost view = { λ e. record { place = e.place; what = e.what; effects = e.effects } };

    ghost invariant = { λ e. IsEvent (record { place = e.place; what = e.what; effects = e.effects }) };
}

impl Event {
    ghost use Rattle.dom_history.specs.Events.{AreEffects};

    /// An event at a place. Takes no memory.
    pub fn new(place: Place, what: What, effects: Effects) -> Event
        requires what { IsWhat what }
        requires effects { AreEffects effects }
        ensures { result ≡ record { place = place; what = what; effects = effects } }
    {
        Event {
            place,
            what,
            effects,
        }
    }

    /// Its tick and its node. Takes no memory.
    pub fn place(&self) -> Place
        ensures { result ≡ self.now.place }
    {
        self.place
    }

    /// What it is. Takes no memory.
    pub fn what(&self) -> What
        ensures value { result ≡ self.now.what }
        ensures range { IsWhat result }
    {
        self.what
    }

    /// What it did. Takes no memory.
    pub fn effects(&self) -> &Effects
        ensures value { result.now ≡ self.now.effects }
        ensures range { AreEffects result.now }
    {
        &self.effects
    }

    /// A copy.
    pub fn copy(&self, alloc: Global) -> Result<Event, NoMemory>
        ensures { IfOk result (λ copy. copy ≡ self.now) }
    {
        let effects = self.effects.copy(alloc)?;
        Ok(Event {
            place: self.place,
            what: self.what,
            effects,
        })
    }
}

/// A list of events.
pub type EventList = ItemList<Event>;

/// The events of one node.
#[derive(Drop, Debug)]
pub struct NodeLog {
    pub node: NodeId,
    pub events: EventList,
}
