//! How the answers of a run are summed up.
ghost use Rattle.std.specs.Prelude.{◌≡◌, ◌++◌, map, not, IfOk, OnOk};
ghost use Rattle.std.specs.List.{count_by};
ghost use Rattle.script_runs.specs.Summaries.{is_ok as is_ok_answer, all_answers, summary_line, summary as summary_text};
ghost use Rattle.script_runner.specs.Reports.{answers_in};

use crate::run::AnswerRow;
use dom_text::put_decimal;
use std::alloc::Global;
use uid_names::{ByteList, NoMemory};

/// Whether an answer begins with `ok`.
fn is_ok(answer: &[u8]) -> bool
    ensures { result ≡ is_ok_answer answer.now }
{
    answer.starts_with(b"ok")
}

/// Adds of each answer whether it is ok.
fn judge(oks: &mut Vec<bool>, answers: &[ByteList]) -> Result<(), NoMemory>
    ensures { OnOk result (oks.new.items ≡ oks.old.items ++ map is_ok_answer answers.now) }
{
    for answer in answers {
        oks.push(is_ok(answer.bytes()))?;
    }
    Ok(())
}

/// Of each answer of these processes, one process after another, whether it is ok.
fn judged(alloc: Global, rows: &[AnswerRow]) -> Result<Vec<bool>, NoMemory>
    ensures { IfOk result (λ oks. oks.items ≡ map is_ok_answer (all_answers (map answers_in rows.now))) }
{
    let mut oks = Vec::new(alloc);
    for row in rows {
        judge(&mut oks, row.answers.items())?;
    }
    Ok(oks)
}

fn count_ok(oks: &[bool]) -> usize
    ensures { result ≡ count_by (λ ok. ok) oks.now }
{
    oks.iter().filter(|ok| **ok).count()
}

fn count_other(oks: &[bool]) -> usize
    ensures { result ≡ count_by not oks.now }
{
    oks.iter().filter(|ok| !**ok).count()
}

/// The line of these numbers.
fn line(
    alloc: Global,
    seed: u64,
    commands: usize,
    ok: usize,
    other: usize,
) -> Result<ByteList, NoMemory>
    ensures { IfOk result (λ text. text ≡ summary_line seed commands ok other) }
{
    let mut text = ByteList::from_slice(alloc, b"seed ")?;
    put_decimal(&mut text, seed)?;
    text.extend(b" commands ")?;
    put_decimal(&mut text, commands as u64)?;
    text.extend(b" ok ")?;
    put_decimal(&mut text, ok as u64)?;
    text.extend(b" other ")?;
    put_decimal(&mut text, other as u64)?;
    text.extend(b"\n")?;
    Ok(text)
}

/// The line that sums up the answers of these processes, with the seed of the script that they ran.
pub(crate) fn summary(alloc: Global, seed: u64, rows: &[AnswerRow]) -> Result<ByteList, NoMemory>
    ensures { IfOk result (λ text. text ≡ summary_text seed (all_answers (map answers_in rows.now))) }
{
    let judged = judged(alloc, rows)?;
    let oks = judged.as_slice();
    line(alloc, seed, oks.len(), count_ok(oks), count_other(oks))
}
