//! The journal of a script, event by event.
ghost use Rattle.std.specs.Prelude.{◌≡◌, ◌≤◌, ◌<◌, ◌^◌, [], ℕ, List, IfOk, IfErr, length};
ghost use Rattle.dom_history.specs.Events.{Happening};
ghost use Rattle.script_reader.specs.Scripts.{Content};
ghost use Rattle.journal_text.specs.Written.{IsJournal};
ghost use Rattle.run_journals.specs.Accepted.{IsAccepted};
ghost use Rattle.journal_check.specs.Verdicts.{cause_seen, cause_text, IsNoMemory, IsRefused, IsUnread, IsGivenOf, IsChecked, IsVerdict};
ghost use Rattle.journal_check.specs.Passes.{Made};
ghost use Rattle.journal_check.specs.Passing.{HaveHappened, IsBefore, IsAdded, IsPassed, IsJudged};

use crate::events::is_same_event;
use crate::{Pass, Places};
use dom_history::{Event, EventList, FaultPlan, NodeNames, Program};
use journal_text::{JournalFault, read_journal};
use node_core::Node;
use page_store::Pages;
use run_journals::checked::{
    a_journal_has_one_verdict, a_run_is_planned_where_each_event_has_its_place,
    an_accepted_journal_is_of_one_store,
};
use script_runs::laws::scripts_set_nodes_up;
use std::alloc::Global;
use thiserror::Error;
use uid_names::NoMemory;

/// The most bytes of a journal that is checked.
pub const JOURNAL_BYTES: u32 = 268_435_456;

/// Why a journal is not that of an ended, planned and recent run of its script.
#[derive(Clone, Copy, Debug, PartialEq, Eq)]
pub enum NoCause {
    /// A line is no line of an event, or does not stand above the one before.
    Form,
    /// An event may not happen there, or not with this tick and these effects.
    Step,
    /// A frame is taken out of its order, or one is told that is not lost or late or was told before.
    Plan,
    /// The lines stop before all nodes have ended.
    End,
}

impl NoCause {
    /// Its name. Takes no memory.
    pub fn text(self) -> &'static str
        ensures { result.now ≡ cause_text (cause_seen self) }
    {
        match self {
            NoCause::Form => "form",
            NoCause::Step => "step",
            NoCause::Plan => "plan",
            NoCause::End => "end",
        }
    }
}

/// Why nothing was checked.
#[derive(Clone, Copy, Debug, PartialEq, Eq, Error)]
pub enum CheckFault {
    /// The journal is not accepted: the line, counted from 1, and why.
    #[error("line {line} of the journal is at fault")]
    No { line: u64, cause: NoCause },
    #[error("no memory")]
    NoMemory,
}

impl From<NoMemory> for CheckFault {
    ghost use Rattle.std.specs.Prelude.{◌≡◌};
    ghost use Rattle.journal_check.specs.declared.verdict.CheckFault.TheVariants.{NoMemory as OutOfMemory};

    ghost from_gives = { λ _ e. e ≡ OutOfMemory };

    fn from(_error: NoMemory) -> CheckFault {
        CheckFault::NoMemory
    }
}

/// What a journal tells that is accepted: how many events it has, and all nodes at its end.
#[derive(Drop)]
pub struct Checked<P: Program, G: Pages> {
    pub events: u64,
    pub pass: Pass<P, G>,
}

/// The events whose journal the bytes are.
fn read(alloc: Global, names: &NodeNames, journal: &[u8]) -> Result<EventList, CheckFault>
    ensures ok { IfOk result (IsJournal names.now journal.now) }
    ensures err { IfErr result (IsUnread names.now journal.now) }
{
    match read_journal(alloc, journal, names) {
        Ok(events) => Ok(events),
        Err(JournalFault::BadLine(line)) => {
            let cause = NoCause::Form;
            Err(CheckFault::No { line, cause })
        }
        Err(JournalFault::NoMemory) => Err(CheckFault::NoMemory),
    }
}

/// The next event of a journal happens in the pass, with its place by the plan or without; or it may not happen, and then the pass is of no use.
fn add<P: Program, G: Pages>(
    alloc: Global,
    pass: &mut Pass<P, G>,
    places: &mut Places<'_>,
    line: u64,
    event: &Event,
) -> Result<(), CheckFault>
    requires before { (made : Made P) × (s : Content) × (es : List Happening) × IsBefore P.wants P.becomes made s es line pass.old places.old }
    ensures { (made : Made P) (s : Content) → IsAdded P.wants P.becomes made s event.now line pass.old places.old pass.new places.new result }
{
    let node = event.place().node;
    let fault = CheckFault::No {
        line,
        cause: NoCause::Step,
    };
    let Some(shown) = pass.step(alloc, node, event.what())? else {
        return Err(fault);
    };
    if !is_same_event(&shown.event, event) {
        return Err(fault);
    }
    places.add(alloc, line, event, shown.again)?;
    Ok(())
}

/// The events of a journal happen in the pass, one after the other.
fn happen<P: Program, G: Pages>(
    alloc: Global,
    pass: &mut Pass<P, G>,
    places: &mut Places<'_>,
    events: &[Event],
) -> Result<(), CheckFault>
    requires happened { (made : Made P) × (s : Content) × HaveHappened P.wants P.becomes made s [] pass.old places.old }
    requires few { length events.now ≤ 2 ^ 40 }
    ensures { (made : Made P) (s : Content) → IsPassed P.wants P.becomes made s events.now pass.old places.old pass.new places.new result }
{
    let mut line = 0;
    for event in events {
        line += 1;
        add(alloc, pass, places, line, event)?;
    }
    Ok(())
}

/// What is to be said of a journal all of whose events happened.
fn judge<P: Program, G: Pages>(
    pass: &Pass<P, G>,
    places: &Places<'_>,
    events: u64,
) -> Result<(), CheckFault>
    requires few { events < 2 ^ 40 }
    ensures { (made : Made P) (s : Content) (bytes : List ℕ) → IsJudged P.wants P.becomes made s bytes events pass.now places.now result }
{
    // So a run is planned where no event is without its place, and one of few events is accepted where it has ended.
    a_run_is_planned_where_each_event_has_its_place();
    an_accepted_journal_is_of_one_store();
    if let Some(line) = places.first_fault() {
        let cause = NoCause::Plan;
        return Err(CheckFault::No { line, cause });
    }
    if !pass.ended() {
        let (line, cause) = (events + 1, NoCause::End);
        return Err(CheckFault::No { line, cause });
    }
    Ok(())
}

/// The verdict on the bytes.
fn judged<P: Program, G: Pages>(
    alloc: Global,
    nodes: Vec<Node<P, G>>,
    plan: &FaultPlan,
    names: &NodeNames,
    journal: &[u8],
) -> Result<Checked<P, G>, CheckFault>
    requires few { length journal.now ≤ JOURNAL_BYTES }
    requires given { (made : Made P) × (s : Content) × IsGivenOf P.wants P.becomes made s nodes.items plan.now names.now }
    ensures { (made : Made P) (s : Content) → IsGivenOf P.wants P.becomes made s nodes.items plan.now names.now →
        IsVerdict P.wants P.becomes made s journal.now result }
{
    // So nodes as they were made stand for the first world.
    scripts_set_nodes_up();
    let events = read(alloc, names, journal)?;
    let count = nodes.len() as u8;
    let mut pass = Pass::new(alloc, nodes)?;
    let mut places = Places::new(alloc, plan, count)?;
    happen(alloc, &mut pass, &mut places, events.items())?;
    let events = events.items().len() as u64;
    judge(&pass, &places, events)?;
    Ok(Checked { events, pass })
}

/// Whether the bytes are the journal of an ended and recent run of a script, planned by its faults: how many events it has, and the nodes at its
/// end. Where they are not, the line at fault and the first cause that holds, and no other: `form` anywhere goes before `step`, and `step` before
/// `plan`. There is one verdict for each journal, so it is accepted exactly where it is such a run's, or there was no memory.
///
/// The nodes are those of the script as they were made; the plan and the names are its own.
pub fn check<P: Program, G: Pages>(
    alloc: Global,
    nodes: Vec<Node<P, G>>,
    plan: &FaultPlan,
    names: &NodeNames,
    journal: &[u8],
) -> Result<Checked<P, G>, CheckFault>
    requires few { length journal.now ≤ JOURNAL_BYTES }
    requires given { (made : Made P) × (s : Content) × IsGivenOf P.wants P.becomes made s nodes.items plan.now names.now }
    ensures yes { (made : Made P) (s : Content) → IsGivenOf P.wants P.becomes made s nodes.items plan.now names.now →
        IfOk result (IsChecked P.wants P.becomes made s journal.now) }
    ensures no { (made : Made P) (s : Content) → IsGivenOf P.wants P.becomes made s nodes.items plan.now names.now →
        IfErr result (IsRefused s journal.now) }
    ensures only { (made : Made P) (s : Content) → IsGivenOf P.wants P.becomes made s nodes.items plan.now names.now →
        IsAccepted s journal.now → IfErr result IsNoMemory }
{
    // So what is accepted is never refused.
    a_journal_has_one_verdict();
    judged(alloc, nodes, plan, names, journal)
}
