//! How answers are written in a report.
ghost use Rattle.std.specs.Prelude.{◌≡◌, ◌++◌, map, IfOk, OnOk};
ghost use Rattle.node_texts.specs.Texts.{process_text};
ghost use Rattle.script_runs.specs.Reports.{report_line, report_lines, lines_of};
ghost use Rattle.script_runner.specs.Reports.{answers_in};

use crate::run::AnswerRow;
use dom_history::NodeNames;
use dom_text::put_decimal;
use node_texts::put_process;
use std::alloc::Global;
use uid_names::{ByteList, NoMemory, ProcId};

/// A process by the name of its node.
fn process_name(alloc: Global, names: &NodeNames, proc: ProcId) -> Result<ByteList, NoMemory>
    ensures { IfOk result (λ text. text ≡ process_text names.now proc) }
{
    let mut text = ByteList::new(alloc);
    put_process(&mut text, names, proc)?;
    Ok(text)
}

fn put_line(to: &mut ByteList, process: &[u8], index: u64, answer: &[u8]) -> Result<(), NoMemory>
    ensures { OnOk result (to.new ≡ to.old ++ report_line process.now index answer.now) }
{
    to.extend(process)?;
    to.push(b' ')?;
    put_decimal(to, index)?;
    to.push(b' ')?;
    to.extend(answer)?;
    to.push(b'\n')
}

/// A line for each answer of a process, counted from 1.
fn put_lines(to: &mut ByteList, process: &[u8], answers: &[ByteList]) -> Result<(), NoMemory>
    ensures { OnOk result (to.new ≡ to.old ++ report_lines process.now 1 answers.now) }
{
    for (i, answer) in answers.iter().enumerate() {
        put_line(to, process, i as u64 + 1, answer.bytes())?;
    }
    Ok(())
}

/// The report: the lines of each process, one process after another.
pub fn report(alloc: Global, names: &NodeNames, rows: &[AnswerRow]) -> Result<ByteList, NoMemory>
    ensures { IfOk result (λ text. text ≡ lines_of names.now (map answers_in rows.now)) }
{
    let mut text = ByteList::new(alloc);
    for row in rows {
        let name = process_name(alloc, names, row.proc)?;
        put_lines(&mut text, name.bytes(), row.answers.items())?;
    }
    Ok(text)
}
