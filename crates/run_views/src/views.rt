//! The views of a run's events.
ghost use Rattle.std.specs.Prelude.{◌≡◌, ◌≤◌, ◌^◌, List, [], All, IfOk, length, map, reverse};
ghost use Rattle.dom_history.specs.Events.{Happening};
ghost use Rattle.journal_text.specs.Lines.{Names};
ghost use Rattle.script_runs.specs.Reports.{names_of as names_in};
ghost use Rattle.script_runs.specs.Setups.{setup_of};
ghost use Rattle.run_journals.specs.RecentRuns.{IsRecentRun};
ghost use Rattle.event_views.specs.Runs.{events_of};
ghost use Rattle.run_views.specs.Walked.{HasDone, ComesNext, IsSeen};

use crate::commands::{commands_of, processes_of};
use crate::notes::Notes;
use aegis_shell::Shell;
use dom_history::Event;
use event_views::{EventView, FrameView, RunView};
use journal_check::Pass;
use page_store::BlockPages;
use run_journals::checked::an_initial_part_of_a_recent_run_is_one;
use script_reader::{Script, VarRow};
use script_runner::names::names_of;
use script_runner::nodes_of;
use script_runs::laws::scripts_set_nodes_up;
use std::alloc::Global;
use uid_names::{ItemList, NoMemory};

/// The most events of a run that are shown.
const MOST_EVENTS: usize = 1 << 40;

/// The frame that an event sent, if it did; None too where its call is over where it goes.
fn note_sent(
    script: &Script,
    pass: &Pass<Shell<'_>, BlockPages>,
    notes: &mut Notes<'_>,
    event: &Event,
    met: &Option<FrameView>,
) -> Result<Option<FrameView>, NoMemory>
    requires done { (es : List Happening) × HasDone script.now pass.now es }
{
    let Some(sent) = event.effects().sent else {
        return Ok(None);
    };
    let node = event.place().node;
    let Some(frame) = pass.frame(node, sent.to, sent.index) else {
        return Ok(None);
    };
    notes.send(frame, met)?;
    Ok(Some(notes.shown(frame, met)))
}

/// The view of the event that comes next, which the pass does.
fn view_of(
    alloc: Global,
    script: &Script,
    pass: &mut Pass<Shell<'_>, BlockPages>,
    notes: &mut Notes<'_>,
    event: &Event,
) -> Result<EventView, NoMemory>
    requires next { (es : List Happening) × HasDone script.now pass.old es × ComesNext script.now event.now es }
    ensures { (es : List Happening) → HasDone script.now pass.old es → ComesNext script.now event.now es →
        IfOk result (IsSeen script.now pass.new event.now es) }
{
    let node = event.place().node;
    let what = event.what();
    let met = notes.met(node, &what);
    let begun = notes.begun(node, &what);
    let Some(shown) = pass.step(alloc, node, what)? else {
        unreachable!()
    };
    let event = shown.event;
    let sent = note_sent(script, pass, notes, &event, &met)?;
    let answered = notes.answered(alloc, pass.nodes(), node)?;
    Ok(EventView {
        event,
        sent,
        met,
        begun,
        answered,
    })
}

/// The views of the events of a run, which the pass does from the first one on.
fn view_all(
    alloc: Global,
    script: &Script,
    pass: &mut Pass<Shell<'_>, BlockPages>,
    notes: &mut Notes<'_>,
    events: &[Event],
) -> Result<ItemList<EventView>, NoMemory>
    requires first { HasDone script.now pass.old [] }
    requires run { IsRecentRun (setup_of script.now) (reverse events.now) }
    requires few { length events.now ≤ 2 ^ 40 }
    ensures { IfOk result (λ views. events_of views ≡ events.now) }
{
    // So each event may happen behind those before it.
    an_initial_part_of_a_recent_run_is_one();
    let mut views = ItemList::new(alloc);
    for event in events {
        let view = view_of(alloc, script, pass, notes, event)?;
        views.push(view)?;
    }
    Ok(views)
}

/// Copies of the variables of declared objects.
fn objects_of(alloc: Global, rows: &[VarRow]) -> Result<ItemList<VarRow>, NoMemory>
    ensures { IfOk result (λ objects. objects ≡ rows.now) }
{
    let mut objects = ItemList::new(alloc);
    for row in rows {
        objects.push(VarRow {
            var: row.var.copy(alloc)?,
            uid: row.uid,
        })?;
    }
    Ok(objects)
}

/// What is shown of a run of a script: these are its events, by rising place. The source is that of the script. Refused as for want of memory
/// where there are more than 2^40 of them.
pub fn views_of(
    alloc: Global,
    script: &Script,
    source: &[u8],
    events: &[Event],
) -> Result<RunView, NoMemory>
    requires run { IsRecentRun (setup_of script.now) (reverse events.now) }
    requires named { All (Names (names_in script.now)) events.now }
    ensures events { IfOk result (λ run. events_of run.events ≡ events.now) }
    ensures names { IfOk result (λ run. run.names ≡ names_in script.now) }
    ensures objects { IfOk result (λ run. run.objects ≡ script.now.objects) }
    ensures plan { IfOk result (λ run. run.plan ≡ script.now.plan) }
{
    if events.len() > MOST_EVENTS {
        return Err(NoMemory);
    }
    // So nodes as they were made stand for the first world.
    let _start = script.opening().nodes();
    scripts_set_nodes_up();
    let names = names_of(alloc, script.nodes())?;
    let procs = processes_of(alloc, script)?;
    let mut notes = Notes::new(alloc, script, procs.as_slice())?;
    let nodes = nodes_of(alloc, script)?;
    let mut pass = Pass::new(alloc, nodes)?;
    let early = notes.early(alloc, pass.nodes())?;
    let views = view_all(alloc, script, &mut pass, &mut notes, events)?;
    let commands = commands_of(
        alloc,
        script,
        source,
        &names,
        procs.as_slice(),
        pass.nodes(),
    )?;
    let objects = objects_of(alloc, script.objects())?;
    let plan = script.plan().copy(alloc)?;
    Ok(RunView::new(names, objects, plan, commands, early, views))
}
