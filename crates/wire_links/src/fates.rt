//! The fates of the frames on one link, for whoever goes along them by rising number.
ghost use Rattle.std.specs.Prelude.{◌≡◌, ◌≤◌, IfOk, slice_get};
ghost use Rattle.uid_names.specs.InOrder.{AreInOrder};
ghost use Rattle.dom_history.specs.Plans.{has_lower, AreOfLink};
ghost use Rattle.wire_links.specs.Rows.{fate_on, is_smaller, count_below, fate_there};

use dom_history::{Fate, FateRow, FaultPlan};
use std::alloc::Global;
use std::marker::Model;
use uid_names::{NoMemory, NodeId};

/// Whether there is a row at this place, of a smaller number.
fn is_smaller_at(rows: &[FateRow], place: usize, index: u64) -> bool
    ensures { result ≡ is_smaller index (slice_get rows.now place) }
{
    match rows.get(place) {
        Some(row) => row.index < index,
        None => false,
    }
}

/// This place, if the rows before it, which rise, are of smaller numbers; the first one else.
#[tactic(auto, using(crate::proofs::Placing::behind_smaller))]
fn start_of(rows: &[FateRow], place: usize, index: u64) -> usize
    requires { AreInOrder has_lower rows.now }
    ensures { result ≤ count_below index rows.now }
{
    if 0 < place && is_smaller_at(rows, place - 1, index) {
        place
    } else {
        0
    }
}

/// How many rows, which rise, are of smaller numbers. They are looked through from a place on, if it is no later one.
#[tactic(auto, using(crate::proofs::Placing::one_more, crate::proofs::Placing::no_more, crate::proofs::Placing::counted))]
fn place_from(rows: &[FateRow], from: usize, index: u64) -> usize
    requires { AreInOrder has_lower rows.now }
    ensures { result ≡ count_below index rows.now }
{
    let mut place = start_of(rows, from, index);
    while is_smaller_at(rows, place, index) {
        place += 1;
    }
    place
}

/// What the row at this place, if there is one, says of the frame of this number.
fn fate_at(rows: &[FateRow], place: usize, index: u64) -> Fate
    ensures { result ≡ fate_there index (slice_get rows.now place) }
{
    match rows.get(place) {
        Some(row) => {
            if row.index == index {
                row.fate
            } else {
                Fate::Pass
            }
        }
        None => Fate::Pass,
    }
}

/// The fates of the frames on a link: its rows in a plan by rising number, and the place of the one that was looked at last.
#[derive(Drop, Debug)]
pub struct LinkFates {
    from: NodeId,
    to: NodeId,
    rows: Vec<FateRow>,
    next: usize,
}

impl Model for LinkFates {
    ghost use Rattle.dom_history.specs.Plans.{AreOfLink};
    ghost use Rattle.wire_links.specs.Rows.{LinkRows};

    ghost Value = { LinkRows };

    ghost view = { λ f. record { from = f.from; to = f.to; rows = f.rows.items } };

    ghost invariant = { λ f. AreOfLink f.rows.items f.from f.to f.rows.items };
}

impl LinkFates {
    /// The fates that a plan has for the link from a node to another.
    #[tactic(auto, using(crate::proofs::Placing::rows_alone))]
    pub fn of(
        alloc: Global,
        plan: &FaultPlan,
        from: NodeId,
        to: NodeId,
    ) -> Result<LinkFates, NoMemory>
        ensures link { IfOk result (λ fates. (fates.from ≡ from) × (fates.to ≡ to)) }
        ensures rows { IfOk result (λ fates. AreOfLink plan.now from to fates.rows) }
    {
        let rows = plan.rows_of_link(alloc, from, to)?;
        let next = 0;
        Ok(LinkFates {
            from,
            to,
            rows,
            next,
        })
    }

    /// The fate of the frame of this number. Whoever asks by rising numbers looks at the next row alone; behind a lower
    /// number than the one before, the rows are looked through anew. Takes no memory.
    #[tactic(auto, using(crate::proofs::Placing::fate_found))]
    pub fn fate(&mut self, index: u64) -> Fate
        ensures fate { result ≡ fate_on self.old index }
        ensures same { self.new ≡ self.old }
    {
        self.next = place_from(self.rows.as_slice(), self.next, index);
        fate_at(self.rows.as_slice(), self.next, index)
    }
}
