//! A law of what the program writes. Its body names the laws below that its proof stands on.
ghost use Rattle.std.specs.Prelude.{ℕ, List};
ghost use Rattle.journal_check.specs.Journals.{IsAccepted};
ghost use Rattle.script_runner.specs.declared.words.Asked.{Asked};
ghost use Rattle.script_runner.specs.Domain.{RunFor};
ghost use Rattle.script_runner.specs.Outside.{Bytes};

use journal_check::{
    a_generated_script_can_be_run, a_script_can_be_run, journals_of_runs_are_accepted,
};

/// The journal of a run whose text is due, which is the one that the program writes, is accepted where it is checked with the script.
pub fn journals_that_are_written_are_accepted()
    ensures { (asked : Asked) (left : Bytes) (text lines : List ℕ) → (run : RunFor asked left text lines) → IsAccepted run.script lines }
{
    journals_of_runs_are_accepted();
    a_script_can_be_run();
    a_generated_script_can_be_run();
}
