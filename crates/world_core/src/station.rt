//! A node with all that may come to it.
ghost use Rattle.std.specs.Prelude.{◌≡◌, ◌≤◌, ◌++◌, ◌∷◌, [], ℕ, true, false, map, take, drop, is_some, OnOk, IfOk, length, slice_get};
ghost use Rattle.dom_history.specs.declared.event.What.TheVariants as events;
ghost use Rattle.fault_handler.specs.Desks.{procs};
ghost use Rattle.fault_handler.specs.Invariant.{IsProc};
ghost use Rattle.std.specs.List.{flat_map};
ghost use Rattle.std.specs.Option.{option_copied};
ghost use Rattle.node_core.specs.Receivings.{seen};
ghost use Rattle.node_core.specs.Nodes.{state_of};
ghost use Rattle.world_core.specs.Before.{is_before, count_before, before_link, behind_link};
ghost use Rattle.world_core.specs.Firsts.{first_links};
ghost use Rattle.world_core.specs.Stations.{comings, candidates, start, starts_of, notice_at, noticed, oldest, oldest_of, what_of, is_open_notice, open_ones};

use crate::coming::{Coming, Source};
use crate::notices::incoming_of;
use dom_history::{Fate, Program, What};
use node_core::{Emitted, Incoming, Node};
use page_store::Pages;
use ring_links::{Link, Notice, Waiting};
use ring_messages::Frame;
use std::alloc::Global;
use std::mem::replace;
use uid_names::{NODE_PROCESSES, NoMemory, NodeId};

/// A link to a node, with the node that it leads from.
#[derive(Drop)]
pub struct LinkFrom {
    pub from: NodeId,
    pub link: Link<Incoming>,
}

/// The event that takes what waits on a link from a node.
fn taking(from: NodeId, waiting: Waiting) -> What
    ensures { result ≡ what_of from waiting }
{
    match waiting {
        Waiting::Copy(index) => What::Take(from, index),
        Waiting::Mark(phase) => What::Mark(from, phase),
    }
}

/// Puts an item last. There is mostly room for it, and then the list has not to be asked to grow.
#[inline(always)]
fn push<T: Drop>(list: &mut Vec<T>, item: T) -> Result<(), NoMemory>
    ensures { OnOk result (list.new.items ≡ list.old.items ++ item ∷ []) }
{
    if list.len() < list.capacity() {
        list.push_reserved(item);
        return Ok(());
    }
    list.push(item)?;
    Ok(())
}

/// Puts an event last, if it is enabled.
#[inline(always)]
fn put_enabled<P: Program, G: Pages>(
    node: &Node<P, G>,
    list: &mut Vec<Coming>,
    coming: Coming,
    incoming: &Incoming,
) -> Result<(), NoMemory>
    ensures { OnOk result (list.new.items ≡ list.old.items ++ comings node.now (record { coming = coming; incoming = seen incoming.now } ∷ [])) }
{
    if !node.enabled(&coming.what, incoming) {
        return Ok(());
    }
    push(list, coming)
}

/// The event of a process that receives nothing, if one is enabled.
#[inline(always)]
fn put_process<P: Program, G: Pages>(
    node: &Node<P, G>,
    list: &mut Vec<Coming>,
    p: u8,
) -> Result<(), NoMemory>
    requires { IsProc p }
    ensures { OnOk result (list.new.items ≡ list.old.items ++ comings node.now (starts_of p)) }
{
    match node.start(p) {
        Some(what) => {
            let source = Source::Nothing;
            push(list, Coming { what, source })
        }
        None => Ok(()),
    }
}

/// The events of all processes.
#[inline(always)]
fn put_starts<P: Program, G: Pages>(
    node: &Node<P, G>,
    list: &mut Vec<Coming>,
) -> Result<(), NoMemory>
    ensures { OnOk result (list.new.items ≡ list.old.items ++ comings node.now (flat_map starts_of procs)) }
{
    for i in 0..NODE_PROCESSES as u8 {
        put_process(node, list, i + 1)?;
    }
    Ok(())
}

/// The node's own mark of its phase, if it is enabled.
#[inline(always)]
fn put_ready<P: Program, G: Pages>(
    node: &Node<P, G>,
    list: &mut Vec<Coming>,
) -> Result<(), NoMemory>
    ensures { OnOk result (list.new.items ≡ list.old.items ++ comings node.now (start (events.Ready (state_of node.now).phase) ∷ [])) }
{
    if node.ready() {
        let (what, source) = (What::Ready(node.phase()), Source::Nothing);
        return push(list, Coming { what, source });
    }
    Ok(())
}

/// The notice at a place.
fn find(notices: &[Notice], at: usize) -> Option<&Notice>
    ensures { option_copied result ≡ slice_get notices.now at }
{
    notices.get(at)
}

/// Whether the call of a notice is open.
fn is_open<P: Program, G: Pages>(node: &Node<P, G>, notice: &Notice) -> bool
    ensures { result ≡ is_open_notice node.now notice.now }
{
    node.enabled(&notice.what(), &incoming_of(notice))
}

/// A notice, which is the one at this place. Not inlined, as below: notices are few, and what they need would be blanked
/// at each event.
#[inline(never)]
fn put_notice<P: Program, G: Pages>(
    node: &Node<P, G>,
    list: &mut Vec<Coming>,
    i: usize,
    notice: &Notice,
) -> Result<(), NoMemory>
    ensures { OnOk result (list.new.items ≡ list.old.items ++ comings node.now (notice_at i notice.now ∷ [])) }
{
    let (what, source) = (notice.what(), Source::Notice(i));
    put_enabled(node, list, Coming { what, source }, &incoming_of(notice))
}

/// Notices.
fn put_notices<P: Program, G: Pages>(
    node: &Node<P, G>,
    list: &mut Vec<Coming>,
    notices: &[Notice],
) -> Result<(), NoMemory>
    ensures { OnOk result (list.new.items ≡ list.old.items ++ comings node.now (noticed 0 notices.now)) }
{
    for (i, notice) in notices.iter().enumerate() {
        put_notice(node, list, i, notice)?;
    }
    Ok(())
}

/// The oldest entry of a link, which is the one at this place.
fn put_oldest<P: Program, G: Pages>(
    node: &Node<P, G>,
    list: &mut Vec<Coming>,
    i: usize,
    link: &LinkFrom,
) -> Result<(), NoMemory>
    ensures { OnOk result (list.new.items ≡ list.old.items ++ comings node.now (oldest_of i link.now.from link.now.link.queue)) }
{
    match link.link.oldest() {
        Some(entry) => {
            let (what, source) = (taking(link.from, entry.waiting), Source::Link(i));
            put_enabled(node, list, Coming { what, source }, &entry.received)
        }
        None => Ok(()),
    }
}

/// Whether a listed event comes before that of the link at this place.
fn is_before(coming: &Coming, at: usize) -> bool
    ensures { result ≡ is_before at coming.now }
{
    match coming.source {
        Source::Nothing => !matches!(coming.what, What::Ready(_)),
        Source::Notice(_) => true,
        Source::Link(i) => i < at,
    }
}

/// How many listed events come before that of the link at this place.
fn count_before(list: &[Coming], at: usize) -> usize
    ensures value { result ≡ count_before at list.now }
    ensures within { result ≤ length list.now }
{
    for i in 0..list.len() {
        if !is_before(&list[i], at) {
            return i;
        }
    }
    list.len()
}

/// Puts an event at this place, if it is enabled.
#[tactic(auto, using(crate::proofs::Delivering::put_nothing))]
fn insert_enabled<P: Program, G: Pages>(
    node: &Node<P, G>,
    list: &mut Vec<Coming>,
    place: usize,
    coming: Coming,
    incoming: &Incoming,
) -> Result<(), NoMemory>
    requires { place ≤ length list.old.items }
    ensures { OnOk result (list.new.items ≡ take place list.old.items ++ (comings node.now (record { coming = coming; incoming = seen incoming.now } ∷ []) ++ drop place list.old.items)) }
{
    if !node.enabled(&coming.what, incoming) {
        return Ok(());
    }
    list.insert(place, coming)?;
    Ok(())
}

/// Puts the oldest entry of the link at the place `i` at this place.
#[tactic(auto, using(crate::proofs::Delivering::put_nothing))]
fn insert_oldest<P: Program, G: Pages>(
    node: &Node<P, G>,
    list: &mut Vec<Coming>,
    place: usize,
    i: usize,
    link: &LinkFrom,
) -> Result<(), NoMemory>
    requires { place ≤ length list.old.items }
    ensures { OnOk result (list.new.items ≡ take place list.old.items ++ (comings node.now (oldest_of i link.now.from link.now.link.queue) ++ drop place list.old.items)) }
{
    match link.link.oldest() {
        Some(entry) => {
            let (what, source) = (taking(link.from, entry.waiting), Source::Link(i));
            insert_enabled(node, list, place, Coming { what, source }, &entry.received)
        }
        None => Ok(()),
    }
}

/// The oldest entries of links.
fn put_links<P: Program, G: Pages>(
    node: &Node<P, G>,
    list: &mut Vec<Coming>,
    ins: &[LinkFrom],
) -> Result<(), NoMemory>
    ensures { OnOk result (list.new.items ≡ list.old.items ++ comings node.now (oldest 0 ins.now)) }
{
    for (i, link) in ins.iter().enumerate() {
        put_oldest(node, list, i, link)?;
    }
    Ok(())
}

/// A node, the notices that may come to it, the links that lead to it by the number of the sending node, and the events
/// that are enabled there.
#[derive(Drop)]
pub struct Station<P: Program, G: Pages> {
    pub node: Node<P, G>,
    pub notices: Vec<Notice>,
    pub ins: Vec<LinkFrom>,
    pub enabled: Vec<Coming>,
}

impl<P: Program, G: Pages> Station<P, G> {
    ghost use Rattle.std.specs.Prelude.{◌<◌, ◌^◌, Option, Some, IfSome, remove};
    ghost use Rattle.node_runs.specs.Incomings.{tick_of};
    ghost use Rattle.node_runs.specs.Incomings.Incoming.{Nothing};
    ghost use Rattle.node_core.specs.Nodes.{is_enabled, Does};
    ghost use Rattle.ring_links.specs.Notices.{notice_what, notice_incoming};
    ghost use Rattle.world_core.specs.Sending.{told, delivered, marked};
    ghost use Rattle.world_core.specs.OldestEntries.{IfOldestAt, IsOldestAt};
    ghost use Rattle.world_core.specs.Listed.{IsListed, IsKept, event_at, IsDone, less_at};

    /// Notices whose call is open no more go.
    fn keep_open(&mut self, alloc: Global) -> Result<(), NoMemory>
        ensures notices { OnOk result (self.new.notices.items ≡ open_ones self.old.node self.old.notices.items) }
        ensures others { IsKept self.old self.new }
    {
        if self.notices.is_empty() {
            return Ok(());
        }
        self.drop_closed(alloc)
    }

    /// Notices whose call is open no more go, where there is one notice and more.
    #[inline(never)]
    fn drop_closed(&mut self, alloc: Global) -> Result<(), NoMemory>
        ensures notices { OnOk result (self.new.notices.items ≡ open_ones self.old.node self.old.notices.items) }
        ensures others { IsKept self.old self.new }
    {
        let notices = replace(&mut self.notices, Vec::new(alloc));
        for notice in notices {
            if is_open(&self.node, &notice) {
                self.notices.push(notice)?;
            }
        }
        Ok(())
    }

    /// Lists the enabled events anew, and drops the notices whose call is open no more.
    pub(crate) fn relist(&mut self, alloc: Global) -> Result<(), NoMemory>
        ensures notices { OnOk result (self.new.notices.items ≡ open_ones self.old.node self.old.notices.items) }
        ensures enabled { OnOk result (IsListed self.new) }
        ensures others { OnOk result (IsKept self.old self.new) }
    {
        self.keep_open(alloc)?;
        self.enabled.clear();
        put_starts(&self.node, &mut self.enabled)?;
        put_notices(&self.node, &mut self.enabled, self.notices.as_slice())?;
        put_links(&self.node, &mut self.enabled, self.ins.as_slice())?;
        put_ready(&self.node, &mut self.enabled)
    }

    /// A notice comes. The events are listed anew, unless the event that sends the frame is the node's own.
    pub(crate) fn tell(&mut self, alloc: Global, notice: Notice, own: bool) -> Result<(), NoMemory>
        ensures node { OnOk result (self.new.node ≡ self.old.node) }
        ensures ins { OnOk result (self.new.ins ≡ self.old.ins) }
        ensures notices { OnOk result (self.new.notices.items ≡ told own self.old.node self.old.notices.items notice) }
        ensures listed { OnOk result (own ≡ false → IsListed self.new) }
    {
        self.notices.push(notice)?;
        if own { Ok(()) } else { self.relist(alloc) }
    }

    /// Whether something waits on the link at a place.
    fn waits(&self, at: usize) -> bool
        requires { at < length self.now.ins.items }
        ensures { IfSome (slice_get self.now.ins.items at) (λ l. result ≡ is_some (slice_get l.link.queue 0)) }
    {
        self.ins[at].link.oldest().is_some()
    }

    /// What came to the link at a place, on which nothing waited, is listed: its oldest entry, in its place.
    fn list_oldest(&mut self, at: usize) -> Result<(), NoMemory>
        requires within { at < length self.old.ins.items }
        ensures listed { OnOk result (self.old.enabled.items ≡ comings self.old.node (before_link at self.old) ++ comings self.old.node (behind_link at self.old) →
            IsListed self.new) }
        ensures notices { self.new.notices ≡ self.old.notices }
        ensures others { IsKept self.old self.new }
    {
        let place = count_before(self.enabled.as_slice(), at);
        insert_oldest(&self.node, &mut self.enabled, place, at, &self.ins[at])
    }

    /// A frame of this fate comes to the link from the node at a place. What it changes of the list is changed, unless the
    /// event that sends it is the node's own.
    #[inline(always)]
    pub(crate) fn deliver(
        &mut self,
        alloc: Global,
        at: usize,
        fate: Fate,
        frame: Frame,
        own: bool,
    ) -> Result<(), NoMemory>
        requires within { at < length self.old.ins.items }
        requires few { IfSome (slice_get self.old.ins.items at) (λ l. l.link.frames < 2 ^ 63) }
        ensures node { OnOk result (self.new.node ≡ self.old.node) }
        ensures ins { OnOk result (self.new.ins.items ≡ delivered at fate frame self.old.ins.items) }
        ensures notices { OnOk result (self.new.notices ≡ self.old.notices) }
        ensures listed { OnOk result (own ≡ false → IsListed self.old → IsListed self.new) }
    {
        let waits = self.waits(at);
        let frame = Incoming::Frame(frame);
        self.ins[at].link.send(alloc, fate, frame)?;
        if own || waits {
            return Ok(());
        }
        self.list_oldest(at)
    }

    /// A mark comes to the link from the node at a place. What it changes of the list is changed.
    pub(crate) fn take_in(&mut self, at: usize, phase: u32, tick: u64) -> Result<(), NoMemory>
        requires within { at < length self.old.ins.items }
        ensures node { OnOk result (self.new.node ≡ self.old.node) }
        ensures ins { OnOk result (self.new.ins.items ≡ marked at phase tick self.old.ins.items) }
        ensures notices { OnOk result (self.new.notices ≡ self.old.notices) }
        ensures listed { OnOk result (IsListed self.old → IsListed self.new) }
    {
        let waits = self.waits(at);
        self.ins[at].link.mark(phase, Incoming::Mark { tick })?;
        if waits {
            return Ok(());
        }
        self.list_oldest(at)
    }

    /// Does the enabled event at a place. Without memory the node is spent.
    pub(crate) fn happen(&mut self, alloc: Global, place: usize) -> Result<Emitted, NoMemory>
        requires listed { IsListed self.old }
        requires within { place < length self.old.enabled.items }
        requires tick { (state_of self.old.node).tick < 2 ^ 40 }
        requires early { IfSome (event_at self.old place) (λ c. tick_of c.incoming < 2 ^ 40) }
        ensures { IfOk result (λ emitted. IfSome (event_at self.old place) (λ c. IsDone P.wants P.becomes c emitted self.old self.new)) }
    {
        let coming = self.enabled[place];
        match coming.source {
            Source::Nothing => self.begin(alloc, coming.what),
            Source::Notice(at) => self.hear(alloc, coming.what, at),
            Source::Link(at) => self.take(alloc, coming.what, at),
        }
    }

    /// An event that receives nothing is done.
    fn begin(&mut self, alloc: Global, what: What) -> Result<Emitted, NoMemory>
        requires tick { (state_of self.old.node).tick < 2 ^ 40 }
        requires enabled { is_enabled self.old.node what Nothing ≡ true }
        ensures does { IfOk result (λ emitted. Does P.wants P.becomes what Nothing self.old.node self.new.node emitted) }
        ensures notices { self.new.notices ≡ self.old.notices }
        ensures ins { self.new.ins ≡ self.old.ins }
    {
        self.node.step(alloc, what, &Incoming::Nothing)
    }

    /// The notice at a place is taken.
    fn hear(&mut self, alloc: Global, what: What, at: usize) -> Result<Emitted, NoMemory>
        requires within { at < length self.old.notices.items }
        requires tick { (state_of self.old.node).tick < 2 ^ 40 }
        requires notice { IfSome (slice_get self.old.notices.items at) (λ x. (is_enabled self.old.node what (notice_incoming x) ≡ true) × (x.tick < 2 ^ 40)) }
        ensures does { IfOk result (λ emitted. IfSome (slice_get self.old.notices.items at) (λ x. Does P.wants P.becomes what (notice_incoming x) self.old.node self.new.node emitted)) }
        ensures notices { OnOk result (self.new.notices.items ≡ remove self.old.notices.items at) }
        ensures ins { self.new.ins ≡ self.old.ins }
    {
        let emitted = match find(self.notices.as_slice(), at) {
            Some(notice) => self.node.step(alloc, what, &incoming_of(notice))?,
            None => unreachable!(),
        };
        self.notices.remove(at);
        Ok(emitted)
    }

    /// The oldest entry of the link at a place is taken.
    fn take(&mut self, alloc: Global, what: What, at: usize) -> Result<Emitted, NoMemory>
        requires within { at < length self.old.ins.items }
        requires tick { (state_of self.old.node).tick < 2 ^ 40 }
        requires entry { IsOldestAt at self.old.ins.items (λ x. (is_enabled self.old.node what x ≡ true) × (tick_of x < 2 ^ 40)) }
        ensures does { IfOk result (λ emitted. IfOldestAt at self.old.ins.items (λ x. Does P.wants P.becomes what x self.old.node self.new.node emitted)) }
        ensures notices { self.new.notices ≡ self.old.notices }
        ensures ins { OnOk result (self.new.ins.items ≡ less_at at self.old.ins.items (slice_get self.old.ins.items at)) }
    {
        let link = &mut self.ins[at].link;
        let emitted = match link.oldest() {
            Some(entry) => self.node.step(alloc, what, &entry.received)?,
            None => unreachable!(),
        };
        link.take();
        Ok(emitted)
    }
}

/// The links that lead to a node from so many, by number, on which nothing was sent.
fn links(alloc: Global, nodes: u8) -> Result<Vec<LinkFrom>, NoMemory>
    requires { nodes ≤ 8 }
    ensures { IfOk result (λ links. links.items ≡ first_links nodes) }
{
    let mut links = Vec::new(alloc);
    for n in 0..nodes {
        match NodeId::new(n + 1) {
            Some(from) => {
                let link = Link::new(alloc);
                links.push(LinkFrom { from, link })?;
            }
            None => unreachable!(),
        }
    }
    Ok(links)
}

impl<P: Program, G: Pages> Station<P, G> {
    ghost use Rattle.world_core.specs.Firsts.{IsFirst};

    /// A node of so many, to which nothing was sent.
    pub(crate) fn new(alloc: Global, node: Node<P, G>, nodes: u8) -> Result<Station<P, G>, NoMemory>
        requires { nodes ≤ 8 }
        ensures { IfOk result (IsFirst nodes node) }
    {
        let mut station = Station {
            node,
            notices: Vec::new(alloc),
            ins: links(alloc, nodes)?,
            enabled: Vec::new(alloc),
        };
        station.relist(alloc)?;
        Ok(station)
    }
}
