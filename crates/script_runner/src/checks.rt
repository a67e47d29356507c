//! Whether a journal is that of a run of a script.
ghost use Rattle.std.specs.Prelude.{slice_get, ◌≡◌, ◌≤◌, All, IsSome, IfOk, IfErr, length, map, option_copied};
ghost use Rattle.journal_check.specs.Journals.{IsAccepted};
ghost use Rattle.journal_check.specs.Verdicts.{IsNoMemory, IsRefused};
ghost use Rattle.script_runner.specs.Reports.{answers_in};
ghost use Rattle.script_runner.specs.Checked.{IsCheckedOf, row_at, shell_at as shell_among};

use crate::names::names_of;
use crate::nodes::nodes_of;
use crate::processes::processes_in;
use crate::run::{AnswerRow, AnswerRows, answers_of};
use aegis_shell::Shell;
use aegis_shell::laws::shells_go_by_all_they_heard;
use journal_check::{CheckFault, JOURNAL_BYTES, check};
use node_core::Node;
use page_store::BlockPages;
use script_reader::Script;
use script_runs::laws::{
    answers_are_functions_of_histories, ended_runs_of_scripts_are_as_one_store,
};
use std::alloc::Global;
use uid_names::{NoMemory, ProcId};

/// What a journal tells that is accepted: how many events it has, and the answers of all processes, in order of node and number.
#[derive(Drop, Debug)]
pub struct CheckedJournal {
    pub events: u64,
    pub answers: AnswerRows,
}

/// The item at a place.
fn item_at<T>(items: &[T], at: usize) -> Option<&T>
    ensures { option_copied result ≡ slice_get items.now at }
{
    items.get(at)
}

/// The shell of a process among nodes, by number.
fn shell_at<'a, 'b>(nodes: &'a [Node<Shell<'b>, BlockPages>], proc: ProcId) -> Option<&'a Shell<'b>>
    ensures { option_copied result ≡ shell_among nodes.now proc }
{
    let at = proc.node().number() as usize - 1;
    match item_at(nodes, at) {
        Some(node) => node.program(proc.number()),
        None => None,
    }
}

/// The answers of these processes, each of which has a shell at its node.
fn answers_at(
    alloc: Global,
    nodes: &[Node<Shell<'_>, BlockPages>],
    procs: &[ProcId],
) -> Result<AnswerRows, NoMemory>
    requires { All (λ p. IsSome (shell_among nodes.now p)) procs.now }
    ensures { IfOk result (λ rows. map answers_in rows ≡ map (row_at nodes.now) procs.now) }
{
    let mut rows = AnswerRows::new(alloc);
    for proc in procs {
        let Some(shell) = shell_at(nodes, *proc) else {
            unreachable!()
        };
        let answers = answers_of(alloc, shell)?;
        rows.push(AnswerRow {
            proc: *proc,
            answers,
        })?;
    }
    Ok(rows)
}

/// Whether the bytes are the journal of a run of a script that has ended, planned by its faults, in which the clean page used longest ago made
/// room: how many events it has, and the answers of its processes, which are those of a history that is as one store would have it. Where they are
/// not, the line at fault and the first cause that holds. One of both, exactly, or there was no memory.
pub fn check_script(
    alloc: Global,
    script: &Script,
    journal: &[u8],
) -> Result<CheckedJournal, CheckFault>
    requires few { length journal.now ≤ JOURNAL_BYTES }
    ensures yes { IfOk result (IsCheckedOf script.now journal.now) }
    ensures no { IfErr result (IsRefused script.now journal.now) }
    ensures only { IsAccepted script.now journal.now → IfErr result IsNoMemory }
{
    // So an accepted run is as one store would have it, and the shells were answered what its history says.
    let _start = script.opening().nodes();
    ended_runs_of_scripts_are_as_one_store();
    answers_are_functions_of_histories();
    shells_go_by_all_they_heard();
    let names = names_of(alloc, script.nodes())?;
    let nodes = nodes_of(alloc, script)?;
    let checked = check(alloc, nodes, script.plan(), &names, journal)?;
    let procs = processes_in(alloc, script.commands())?;
    let answers = answers_at(alloc, checked.pass.nodes(), procs.as_slice())?;
    Ok(CheckedJournal {
        events: checked.events,
        answers,
    })
}
