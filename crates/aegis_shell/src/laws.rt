//! Laws of what processes ask and are answered. Each stands on a function without a body, so that the check proves it.
ghost use Rattle.std.specs.Prelude.{◌≡◌, ◌≤◌, ◌+◌, ◌*◌, Option, ◌∷◌, length, All};
ghost use Rattle.uid_names.specs.Names.{ProcName};
ghost use Rattle.dom_history.specs.declared.op.Reply.{Reply};
ghost use Rattle.dom_history.specs.declared.op.Want.TheVariants.{Done};
ghost use Rattle.dom_history.specs.Follows.{Heard};
ghost use Rattle.dom_history.specs.Ranges.{IsWant, IsNodeNumber, AreNamedReplies};
ghost use Rattle.dom_history.specs.Programs.{program_after, asked_by};
ghost use Rattle.script_reader.specs.Scripts.{Content, IsContent};
ghost use Rattle.aegis_shell.specs.Work.{Part, jobs_of, IsPlain};
ghost use Rattle.aegis_shell.specs.Asking.{reached, ask, answers};
ghost use Rattle.aegis_shell.specs.Shells.{shell_of, shell_after, shell_wants, shell_answers};

use crate::Shell;
use uid_names::laws::may_cross_threads;

/// What a process of a node asks is in the ranges of operations, where the replies that it heard name objects.
#[tactic(auto, using(crate::proofs::Ranged::ask_ranged))]
pub fn asks_are_in_range()
    ensures { (s : Content) (p : ProcName) (heard : Heard) → IsContent s → IsNodeNumber p.node → AreNamedReplies heard → IsWant (ask s p heard) }
{}

/// A shell asks and is answered what the process of its script asks and is answered after all that it heard.
#[tactic(auto, using(crate::proofs::Shells::shell_asks, crate::proofs::Shells::shell_answers_are))]
pub fn shells_go_by_all_they_heard()
    ensures asks { (s : Content) (p : ProcName) (heard : Heard) → asked_by shell_wants shell_after (shell_of s p) heard ≡ ask s p heard }
    ensures answers { (s : Content) (p : ProcName) (heard : Heard) → shell_answers (program_after shell_after (shell_of s p) heard) ≡ answers s p heard }
{}

/// A command that has its answer keeps it: what a process hears more only adds answers.
#[tactic(auto, using(crate::proofs::Courses::reached_grows))]
pub fn answers_only_become_more()
    ensures { (part : Part) (heard : Heard) (told : Option Reply) → length (reached part heard).answers ≤ length (reached part (told ∷ heard)).answers }
{}

/// A process whose commands go by no names, and list no locks, is done once it heard enough: a phase for each that a script can
/// have, and two replies for each of its commands.
#[tactic(auto, using(crate::proofs::Courses::ask_done))]
pub fn processes_come_to_their_end()
    ensures { (s : Content) (p : ProcName) (heard : Heard) → IsContent s → All IsPlain (jobs_of s p) → 1000 + 2 * length (jobs_of s p) ≤ length heard → ask s p heard ≡ Done }
{}

/// Each finished command has one answer: there are never more than commands, and as many once all is done.
#[tactic(auto, using(crate::proofs::Courses::answers_few, crate::proofs::Courses::answers_all))]
pub fn each_command_has_one_answer()
    ensures few { (s : Content) (p : ProcName) (heard : Heard) → length (answers s p heard) ≤ length (jobs_of s p) }
    ensures all { (s : Content) (p : ProcName) (heard : Heard) → ask s p heard ≡ Done → length (answers s p heard) ≡ length (jobs_of s p) }
{}

/// Threads may hand each other shells.
pub fn shells_may_cross_threads() {
    may_cross_threads::<Shell<'_>>();
}
