//! The words of the command line.
ghost use Rattle.std.specs.Prelude.{◌≡◌, codes, ◌↔◌, IsTrue, MatchOption};
ghost use Rattle.dom_text.specs.Numbers.{number_spelled};
ghost use Rattle.script_runner.specs.Words.{AskFor, AskToRun, AskToCheck, turns_of};

use dom_text::decimal;

/// Which run the words ask for; a number of turns stands there if they say one.
#[derive(Clone, Copy, Debug, PartialEq, Eq)]
pub(crate) enum Asked {
    /// A run of the script that the source has.
    Reads { turns: Option<u64> },
    /// A run of the script that is generated from this seed.
    Generates { seed: u64, turns: Option<u64> },
}

impl Asked {
    /// The number of the turns, if the words say one.
    pub(crate) fn turns(self) -> Option<u64>
        ensures { result ≡ turns_of self }
    {
        match self {
            Asked::Reads { turns } | Asked::Generates { turns, .. } => turns,
        }
    }
}

fn is_run(word: &str) -> bool
    ensures { IsTrue result ↔ (word.now ≡ codes "run") }
{
    word == "run"
}

fn is_gen(word: &str) -> bool
    ensures { IsTrue result ↔ (word.now ≡ codes "gen") }
{
    word == "gen"
}

fn is_turns(option: &str) -> bool
    ensures { IsTrue result ↔ (option.now ≡ codes "--turns") }
{
    option == "--turns"
}

/// The number that a word spells.
fn number(word: &str) -> Option<u64>
    ensures { result ≡ number_spelled word.now }
{
    decimal(word.as_bytes()).ok()
}

fn is_check(word: &str) -> bool
    ensures { IsTrue result ↔ (word.now ≡ codes "check") }
{
    word == "check"
}

/// Whether the words ask for a check of a journal.
pub(crate) fn ask_to_check(words: &[String]) -> bool
    ensures { IsTrue result ↔ AskToCheck words.now }
{
    match words {
        [check] => is_check(check.as_str()),
        _ => false,
    }
}

/// Which run the words ask for; None where they ask for none.
pub(crate) fn words_asked(words: &[String]) -> Option<Asked>
    ensures { MatchOption result (AskToRun words.now → ⊥) (AskFor words.now) }
{
    match words {
        [run] if is_run(run.as_str()) => Some(Asked::Reads { turns: None }),
        [run, option, turns] if is_run(run.as_str()) && is_turns(option.as_str()) => {
            let turns = number(turns.as_str())?;
            Some(Asked::Reads { turns: Some(turns) })
        }
        [word, seed] if is_gen(word.as_str()) => {
            let seed = number(seed.as_str())?;
            Some(Asked::Generates { seed, turns: None })
        }
        [word, seed, option, turns] if is_gen(word.as_str()) && is_turns(option.as_str()) => {
            let seed = number(seed.as_str())?;
            let turns = number(turns.as_str())?;
            Some(Asked::Generates {
                seed,
                turns: Some(turns),
            })
        }
        [word, option, turns, seed] if is_gen(word.as_str()) && is_turns(option.as_str()) => {
            let seed = number(seed.as_str())?;
            let turns = number(turns.as_str())?;
            Some(Asked::Generates {
                seed,
                turns: Some(turns),
            })
        }
        _ => None,
    }
}
