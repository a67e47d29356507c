//! What is told of the runs of many numbers.
ghost use Rattle.std.specs.Prelude.{◌≡◌, ◌++◌, codes, decimal, IfOk, OnOk};
ghost use Rattle.explored_counts.specs.Told.{answer_text, difference_line, difference_lines, share_text, count_text, mark as mark_text, outcome_text, outcome_texts, IsOutcomesText, rest_text, missed_text, is_one as are_one, IsListed, IsTold};

use crate::seen::{Explored, Missed};
use dom_history::NodeNames;
use dom_text::put_decimal;
use node_texts::put_process;
use run_outcomes::{Difference, KeptOutcome, commonest, differences};
use std::alloc::Global;
use uid_names::{ByteList, NoMemory};

/// Puts an answer, or that there is none.
fn put_answer(to: &mut ByteList, answer: &Option<ByteList>) -> Result<(), NoMemory>
    ensures { OnOk result (to.new ≡ to.old ++ answer_text answer.now) }
{
    match answer {
        Some(text) => to.extend(text.bytes()),
        None => to.extend(b"no answer"),
    }
}

/// Puts a command, the answer that most numbers gave, and the one that these gave.
fn put_difference(to: &mut ByteList, names: &NodeNames, d: &Difference) -> Result<(), NoMemory>
    ensures { OnOk result (to.new ≡ to.old ++ difference_line names.now d.now) }
{
    to.extend(b"  ")?;
    put_process(to, names, d.proc)?;
    to.extend(b" ")?;
    put_decimal(to, d.index)?;
    to.extend(b" ")?;
    put_answer(to, &d.first)?;
    to.extend(b" => ")?;
    put_answer(to, &d.second)?;
    to.extend(b"\n")
}

/// Puts a line for each of these commands.
fn put_differences(to: &mut ByteList, names: &NodeNames, all: &[Difference]) -> Result<(), NoMemory>
    ensures { OnOk result (to.new ≡ to.old ++ difference_lines names.now all.now) }
{
    for difference in all {
        put_difference(to, names, difference)?;
    }
    Ok(())
}

/// Puts how many of all numbers.
fn put_share(to: &mut ByteList, count: u64, total: u64) -> Result<(), NoMemory>
    ensures { OnOk result (to.new ≡ to.old ++ share_text count total) }
{
    put_decimal(to, count)?;
    to.extend(b" of ")?;
    put_decimal(to, total)
}

/// Puts how many of all numbers, and the lowest.
fn put_count(to: &mut ByteList, count: u64, total: u64, lowest: u64) -> Result<(), NoMemory>
    ensures { OnOk result (to.new ≡ to.old ++ count_text count total lowest) }
{
    put_share(to, count, total)?;
    to.extend(b", lowest ")?;
    put_decimal(to, lowest)
}

/// Puts what marks the commonest outcome.
fn put_mark(to: &mut ByteList, is_commonest: bool) -> Result<(), NoMemory>
    ensures { OnOk result (to.new ≡ to.old ++ mark_text is_commonest) }
{
    if is_commonest {
        to.extend(b", the commonest")
    } else {
        Ok(())
    }
}

/// Puts an outcome: how many numbers gave it, the lowest of them, and in which answers it differs from the commonest.
fn put_outcome(
    alloc: Global,
    to: &mut ByteList,
    names: &NodeNames,
    total: u64,
    common: &KeptOutcome,
    row: &KeptOutcome,
) -> Result<(), NoMemory>
    ensures { OnOk result (to.new ≡ to.old ++ outcome_text names.now total common.now row.now) }
{
    put_count(to, row.count, total, row.lowest)?;
    put_mark(to, row.lowest == common.lowest)?;
    to.extend(b"\n")?;
    let all = differences(alloc, common.outcome.items(), row.outcome.items())?;
    put_differences(to, names, all.items())
}

/// Puts each of these outcomes.
fn put_outcomes(
    alloc: Global,
    to: &mut ByteList,
    names: &NodeNames,
    total: u64,
    common: &KeptOutcome,
    rows: &[KeptOutcome],
) -> Result<(), NoMemory>
    ensures { OnOk result (to.new ≡ to.old ++ outcome_texts names.now total common.now rows.now) }
{
    for row in rows {
        put_outcome(alloc, to, names, total, common, row)?;
    }
    Ok(())
}

/// All outcomes that are kept, if there are any.
fn outcomes_text(
    alloc: Global,
    names: &NodeNames,
    total: u64,
    rows: &[KeptOutcome],
) -> Result<ByteList, NoMemory>
    ensures { IfOk result (IsOutcomesText names.now total rows.now) }
{
    let mut text = ByteList::new(alloc);
    let Some(at) = commonest(rows) else {
        return Ok(text);
    };
    put_outcomes(alloc, &mut text, names, total, &rows[at], rows)?;
    Ok(text)
}

/// Puts how many numbers gave outcomes that are not kept.
fn put_rest(to: &mut ByteList, rest: u64, total: u64) -> Result<(), NoMemory>
    ensures { OnOk result (to.new ≡ to.old ++ rest_text rest total) }
{
    if rest == 0 {
        return Ok(());
    }
    put_share(to, rest, total)?;
    to.extend(b", each with another outcome than these\n")
}

/// Puts how many numbers gave no answers, and why.
fn put_missed(
    to: &mut ByteList,
    why: &[u8],
    total: u64,
    missed: Option<Missed>,
) -> Result<(), NoMemory>
    ensures { OnOk result (to.new ≡ to.old ++ missed_text why.now total missed) }
{
    let Some(missed) = missed else {
        return Ok(());
    };
    put_count(to, missed.count, total, missed.lowest)?;
    to.extend(why)?;
    to.extend(b"\n")
}

/// All outcomes, and then the numbers that gave others or none.
fn listed(
    alloc: Global,
    names: &NodeNames,
    explored: &Explored,
    total: u64,
) -> Result<ByteList, NoMemory>
    ensures { IfOk result (IsListed names.now explored.now total) }
{
    let mut text = outcomes_text(alloc, names, total, explored.tally.rows())?;
    put_rest(&mut text, explored.tally.rest(), total)?;
    put_missed(
        &mut text,
        b", a node came to the last tick",
        total,
        explored.last_tick,
    )?;
    put_missed(&mut text, b", no memory", total, explored.no_memory)?;
    Ok(text)
}

/// Whether all of so many numbers gave one outcome.
fn is_one(rows: &[KeptOutcome], total: u64) -> bool
    ensures { result ≡ are_one rows.now total }
{
    match rows {
        [row] => row.count == total,
        _ => false,
    }
}

/// That all gave the same.
fn same_text(alloc: Global, total: u64) -> Result<ByteList, NoMemory>
    ensures { IfOk result (λ text. text ≡ codes "the same in all " ++ decimal total ++ codes "\n") }
{
    let mut text = ByteList::from_slice(alloc, b"the same in all ")?;
    put_decimal(&mut text, total)?;
    text.extend(b"\n")?;
    Ok(text)
}

/// What is told of what came of so many numbers: that it is the same in all; or each outcome with how many numbers gave it, the lowest of them, and
/// the answers in which it differs from the commonest; and how many gave none, and why.
pub fn explored_text(
    alloc: Global,
    names: &NodeNames,
    explored: &Explored,
    total: u64,
) -> Result<ByteList, NoMemory>
    ensures { IfOk result (IsTold names.now explored.now total) }
{
    if is_one(explored.tally.rows(), total) {
        same_text(alloc, total)
    } else {
        listed(alloc, names, explored, total)
    }
}
