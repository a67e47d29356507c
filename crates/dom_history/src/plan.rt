//! What becomes of the frames on the links between nodes.
ghost use Rattle.std.specs.Prelude.{◌≡◌, ◌≢◌, ◌≤◌, List, [], ◌∷◌, ◌++◌, false, if◌then◌else◌, length, nat_lt, IfOk, OnOk, OnErr};
ghost use Rattle.std.specs.List.{prefix_len};
ghost use Rattle.uid_names.specs.InOrder.{AreInOrder, put_in_order};
ghost use Rattle.dom_history.specs.Plans.{fate_of, is_set, is_of_link, has_lower, IsPlan, AreOfLink};

use std::alloc::Global;
use std::collections::HashMap;
use std::marker::Model;
use uid_names::{NoMemory, NodeId};

/// What becomes of a frame.
#[derive(Clone, Copy, Debug, PartialEq, Eq)]
pub enum Fate {
    /// It is delivered in its place.
    Pass,
    /// It is never delivered.
    Lose,
    /// It is delivered in its place, and once more behind so many later frames of its link.
    Twice(u32),
    /// It is delivered only behind so many later frames of its link.
    Late(u32),
}

/// The fate of one frame: the nodes that its link leads from and to, and its number on that link, from 1.
#[derive(Clone, Copy, Debug, PartialEq, Eq)]
pub struct FateRow {
    pub from: NodeId,
    pub to: NodeId,
    pub index: u64,
    pub fate: Fate,
}

/// How many rows, which rise, are of a smaller number.
fn place_of(rows: &[FateRow], index: u64) -> usize
    requires { AreInOrder has_lower rows.now }
    ensures place { result ≡ prefix_len (λ row. nat_lt row.index index) rows.now }
    ensures bound { result ≤ length rows.now }
{
    match rows.binary_search_by_key(&index, |row| row.index) {
        Ok(at) => at,
        Err(at) => at,
    }
}

/// A row goes to its place among the rows of a link, which rise, if it is of that link. Without memory they stay as they were.
fn take_in(link: &mut Vec<FateRow>, row: FateRow, from: NodeId, to: NodeId) -> Result<(), NoMemory>
    requires { AreInOrder has_lower link.old.items }
    ensures ok { OnOk result (link.new.items ≡ (if is_of_link from to row then put_in_order has_lower row link.old.items else link.old.items)) }
    ensures err { OnErr result (link.new.items ≡ link.old.items) }
{
    if row.from.number() != from.number() || row.to.number() != to.number() {
        return Ok(());
    }
    let at = place_of(link, row.index);
    link.insert(at, row)?;
    Ok(())
}

/// The fates that were set, in the order in which they were; every other frame passes.
#[derive(Debug)]
pub struct FaultPlan {
    rows: Vec<FateRow>,
    /// The same fates by frame, so that a look-up goes over no rows.
    fates: HashMap<(NodeId, NodeId, u64), Fate>,
}

// Of its own, so that what drops one calls this and does not take it apart in place.
impl Drop for FaultPlan {
    fn drop(self) {
        let FaultPlan { rows: _, fates: _ } = self;
    }
}

impl Model for FaultPlan {
    ghost use Rattle.std.specs.Prelude.{List};
    ghost use Rattle.dom_history.specs.declared.plan.FateRow.{FateRow};
    ghost use Rattle.dom_history.specs.KeptFates.{HoldsPlan};

    ghost Value = { List FateRow };

    ghost view = { λ p. p.rows.items };

    ghost invariant = { λ p. HoldsPlan p.rows.items p.fates };
}

impl FaultPlan {
    /// A plan in which every frame passes. Takes no memory.
    pub fn new(alloc: Global) -> FaultPlan
        ensures { result ≡ [] }
    {
        FaultPlan {
            rows: Vec::new(alloc),
            fates: HashMap::new(alloc),
        }
    }

    /// Sets the fate of the frame of this number from a node to another. Without memory the plan stays as it was.
    pub fn set(&mut self, from: NodeId, to: NodeId, index: u64, fate: Fate) -> Result<(), NoMemory>
        requires apart { from ≢ to }
        requires unset { is_set self.old from to index ≡ false }
        ensures ok { OnOk result (self.new ≡ self.old ++ record { from = from; to = to; index = index; fate = fate } ∷ []) }
        ensures err { OnErr result (self.new ≡ self.old) }
    {
        // Where there is no memory for the row or the fate, neither is kept.
        self.rows.reserve(1)?;
        self.fates.insert((from, to, index), fate)?;
        match self.rows.push(FateRow {
            from,
            to,
            index,
            fate,
        }) {
            Ok(()) => Ok(()),
            Err(_) => unreachable!(),
        }
    }

    /// Whether a fate was set for the frame of this number from a node to another. Takes no memory.
    pub fn is_set(&self, from: NodeId, to: NodeId, index: u64) -> bool
        ensures { result ≡ is_set self.now from to index }
    {
        self.fates.contains_key(&(from, to, index))
    }

    /// The fate of the frame of this number from a node to another. Takes no memory.
    pub fn fate(&self, from: NodeId, to: NodeId, index: u64) -> Fate
        ensures { result ≡ fate_of self.now from to index }
    {
        match self.fates.get(&(from, to, index)) {
            Some(fate) => *fate,
            None => Fate::Pass,
        }
    }

    /// The fates that were set. Takes no memory.
    pub fn rows(&self) -> &[FateRow]
        ensures value { result.now ≡ self.now }
        ensures plan { IsPlan self.now }
    {
        self.rows.as_slice()
    }

    /// The rows of the link from a node to another alone, by rising number: whoever goes along the frames of one link
    /// looks at the next row only.
    pub fn rows_of_link(
        &self,
        alloc: Global,
        from: NodeId,
        to: NodeId,
    ) -> Result<Vec<FateRow>, NoMemory>
        ensures { IfOk result (λ link. AreOfLink self.now from to link.items) }
    {
        let mut link = Vec::new(alloc);
        let rows = self.rows();
        for row in rows {
            take_in(&mut link, *row, from, to)?;
        }
        Ok(link)
    }

    /// A copy of the plan.
    pub fn copy(&self, alloc: Global) -> Result<FaultPlan, NoMemory>
        ensures { IfOk result (λ copy. copy ≡ self.now) }
    {
        let mut copy = FaultPlan::new(alloc);
        let rows = self.rows();
        for row in rows {
            copy.set(row.from, row.to, row.index, row.fate)?;
        }
        Ok(copy)
    }
}
