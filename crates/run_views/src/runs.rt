//! The run of a number of turns, and that of a journal.
ghost use Rattle.std.specs.Prelude.{◌≤◌, Some, IfOk, IfErr, length};
ghost use Rattle.journal_text.specs.Written.{IsJournal};
ghost use Rattle.journal_check.specs.Verdicts.{IsRefused, IsUnread};
ghost use Rattle.script_runner.specs.Faults.{IsFaultOf};
ghost use Rattle.run_views.specs.Shown.{AreOfTurns, AreOfJournal};

use crate::views::views_of;
use dom_history::{EventList, NodeNames};
use event_views::RunView;
use journal_check::{CheckFault, JOURNAL_BYTES, NoCause};
use journal_text::laws::journals_have_one_reading;
use journal_text::{JournalFault, read_journal};
use node_core::RunFault;
use script_reader::Script;
use script_runner::names::names_of;
use script_runner::{LAST_TICK, check_script, run_script_in_turns};
use script_runs::laws::ended_runs_of_scripts_name_their_nodes;
use std::alloc::Global;

/// What is shown of the run of a script that a number of turns picks. The source is that of the script. TickLimit is answered where a node came
/// to the last tick.
pub fn run_in_turns(
    alloc: Global,
    script: &Script,
    source: &[u8],
    turns: u64,
) -> Result<RunView, RunFault>
    ensures run { IfOk result (λ run. AreOfTurns script.now turns run.events) }
    ensures limit { IfErr result (IsFaultOf script.now (Some turns) LAST_TICK) }
{
    let ran = run_script_in_turns(alloc, script, turns, LAST_TICK)?;
    let run = views_of(alloc, script, source, ran.events.items())?;
    Ok(run)
}

/// The events whose journal the bytes are.
fn read(alloc: Global, names: &NodeNames, journal: &[u8]) -> Result<EventList, CheckFault>
    ensures ok { IfOk result (IsJournal names.now journal.now) }
    ensures err { IfErr result (IsUnread names.now journal.now) }
{
    match read_journal(alloc, journal, names) {
        Ok(events) => Ok(events),
        Err(JournalFault::BadLine(line)) => {
            let cause = NoCause::Form;
            Err(CheckFault::No { line, cause })
        }
        Err(JournalFault::NoMemory) => Err(CheckFault::NoMemory),
    }
}

/// What is shown of the run of a script whose journal this is, where it is accepted; the line at fault and the first cause that holds else. The
/// source is that of the script.
pub fn run_of_journal(
    alloc: Global,
    script: &Script,
    source: &[u8],
    journal: &[u8],
) -> Result<RunView, CheckFault>
    requires few { length journal.now ≤ JOURNAL_BYTES }
    ensures yes { IfOk result (λ run. AreOfJournal script.now journal.now run.events) }
    ensures no { IfErr result (IsRefused script.now journal.now) }
{
    // So the events that are read are those that were checked, and name nodes of the script alone.
    let _start = script.opening().nodes();
    journals_have_one_reading();
    ended_runs_of_scripts_name_their_nodes();
    let _checked = check_script(alloc, script, journal)?;
    let names = names_of(alloc, script.nodes())?;
    let events = read(alloc, &names, journal)?;
    let run = views_of(alloc, script, source, events.items())?;
    Ok(run)
}
