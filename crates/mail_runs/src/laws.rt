//! Laws of mailboxes in the runs of scripts. Each body names the laws below that its proof stands on.
ghost use Rattle.std.specs.Prelude.{List};
ghost use Rattle.uid_names.specs.Names.{ObjectName};
ghost use Rattle.uid_names.specs.Openings.{IsStart};
ghost use Rattle.dom_history.specs.Events.{Happening};
ghost use Rattle.dom_history.specs.Histories.{History};
ghost use Rattle.script_reader.specs.Scripts.{Content, IsContent};
ghost use Rattle.node_runs.specs.Runs.{World};
ghost use Rattle.script_runs.specs.Histories.{script_history};
ghost use Rattle.script_runs.specs.Runs.{IsEndedRunOf};
ghost use Rattle.mail_runs.specs.Histories.{IsOfScript};
ghost use Rattle.mail_runs.specs.Mailboxes.{AnswersRight, AreMailboxesKept, KeepsQueue, OnlyMails};

use node_runs::laws::each_node_of_a_run_agrees_with_its_desk;
use run_laws::calls::entries_stand_within_their_operations;
use run_laws::every::histories_say_what_was_heard;
use script_runs::laws::{
    each_entry_is_of_a_command, ended_runs_of_scripts_are_as_one_store, scripts_are_paced,
    scripts_set_nodes_up,
};

/// In a history that a script's processes follow to their end, of each mailbox to which it has no stores but those of putm and takem: at each place what
/// was taken is a first part of what was put, with at most 56 texts between. Processes of several nodes may put and take at once.
pub fn histories_keep_their_queues()
    ensures { (s : Content) → IsContent s → IsStart s.opening → (h : History) → IsOfScript s h → (u : ObjectName) → OnlyMails s u h.items → KeepsQueue s h u }
{
    scripts_set_nodes_up();
    each_entry_is_of_a_command();
}

/// No command on such a mailbox is answered that it is bad, and one is answered that it is full, or empty, exactly where it found it so.
pub fn commands_on_mailboxes_are_answered_so()
    ensures { (s : Content) → IsContent s → IsStart s.opening → (h : History) → IsOfScript s h → (u : ObjectName) → OnlyMails s u h.items → AnswersRight s h u }
{
    scripts_set_nodes_up();
    scripts_are_paced();
    each_entry_is_of_a_command();
    histories_say_what_was_heard();
}

/// So such a history keeps its mailboxes.
pub fn histories_keep_mailboxes()
    ensures { (s : Content) → IsContent s → IsStart s.opening → (h : History) → IsOfScript s h → AreMailboxesKept s h }
{
    histories_keep_their_queues();
    commands_on_mailboxes_are_answered_so();
}

/// The history of an ended run of a script is such a one.
pub fn ended_runs_have_such_histories()
    ensures { (s : Content) → IsContent s → IsStart s.opening → (events : List Happening) (w : World) → IsEndedRunOf s events w → IsOfScript s (script_history s events) }
{
    scripts_set_nodes_up();
    scripts_are_paced();
    each_node_of_a_run_agrees_with_its_desk();
    entries_stand_within_their_operations();
    histories_say_what_was_heard();
    ended_runs_of_scripts_are_as_one_store();
}

/// So each ended run of a script keeps its mailboxes, whoever picked it.
pub fn ended_runs_keep_mailboxes()
    ensures { (s : Content) → IsContent s → IsStart s.opening → (events : List Happening) (w : World) → IsEndedRunOf s events w → AreMailboxesKept s (script_history s events) }
{
    histories_keep_mailboxes();
    ended_runs_have_such_histories();
}
