//! An account of the link faults of a run.
ghost use Rattle.std.specs.Prelude.{◌≡◌};
ghost use Rattle.run_laws.specs.Accounts.{is_fault_end, link_faults as faults_of, notices as notices_of, is_notice as is_notice_what, is_marked as is_marked_event, marked as marked_of};
ghost use Rattle.run_laws.specs.AccountsOfRuns.{AccountsFor};

use crate::account_row::Account;
use dom_history::{EndWord, Event, EventList, Fate, FaultPlan, What};
use run_laws::accounts::an_account_is_of_its_run;

/// Whether an event ended an operation by a link fault.
fn is_fault(event: &Event) -> bool
    ensures { result ≡ is_fault_end event.now.effects.ended }
{
    match event.effects().ended {
        Some((_, word)) => matches!(word, EndWord::Kept | EndWord::Doubt | EndWord::LinkFault),
        None => false,
    }
}

/// Whether an event told a process of a frame that did not arrive in time.
fn is_notice(event: &Event) -> bool
    ensures { result ≡ is_notice_what event.now.what }
{
    matches!(event.what(), What::Notice(_, _, _, _))
}

/// Whether the frame that an event sent, if it sent one, is lost or late.
fn is_marked(plan: &FaultPlan, event: &Event) -> bool
    ensures { result ≡ is_marked_event plan.now event.now }
{
    match event.effects().sent {
        Some(sent) => {
            let fate = plan.fate(event.place().node, sent.to, sent.index);
            matches!(fate, Fate::Lose | Fate::Late(_))
        }
        None => false,
    }
}

/// How many events ended an operation by a link fault.
fn link_faults(events: &EventList) -> u64
    ensures { result ≡ faults_of events.now }
{
    events
        .items()
        .iter()
        .filter(|event| is_fault(event))
        .count() as u64
}

/// How many were notices.
fn notices(events: &EventList) -> u64
    ensures { result ≡ notices_of events.now }
{
    events
        .items()
        .iter()
        .filter(|event| is_notice(event))
        .count() as u64
}

/// How many sent a frame that is lost or late.
fn marked(events: &EventList, plan: &FaultPlan) -> u64
    ensures { result ≡ marked_of plan.now events.now }
{
    events
        .items()
        .iter()
        .filter(|event| is_marked(plan, event))
        .count() as u64
}

/// The three numbers, each counted by itself.
fn counted(events: &EventList, plan: &FaultPlan) -> Account
    ensures link_faults { result.link_faults ≡ faults_of events.now }
    ensures notices { result.notices ≡ notices_of events.now }
    ensures marked { result.marked ≡ marked_of plan.now events.now }
{
    Account {
        link_faults: link_faults(events),
        notices: notices(events),
        marked: marked(events, plan),
    }
}

/// An account of the events of a run by a plan, in the order in which they happened. Takes no memory.
pub fn account(events: &EventList, plan: &FaultPlan) -> Account
    ensures link_faults { result.link_faults ≡ faults_of events.now }
    ensures notices { result.notices ≡ notices_of events.now }
    ensures marked { result.marked ≡ marked_of plan.now events.now }
    ensures of_a_run { AccountsFor plan.now events.now result.link_faults result.notices result.marked }
{
    an_account_is_of_its_run();
    counted(events, plan)
}
