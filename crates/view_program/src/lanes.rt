//! Draws a run.
ghost use Rattle.std.specs.Prelude.{◌≡◌, None, IfOk};
ghost use Rattle.script_runner.specs.Outside.{from_to};
ghost use Rattle.view_program.specs.Answers.{SaysLanes};
ghost use Rattle.view_program.specs.Drawn.{IsChoiceOf, SaysDrawn, drawing};

use crate::asked::Shown;
use crate::reading::{NOT_TAKEN, Said, read_run};
use dom_io::Source;
use dom_text::{cut_last, decimal};
use event_charts::chart_of;
use event_views::{Choice, CommandName, RunView};
use lane_charts::{Chart, draw_svg, draw_text};
use std::alloc::Global;
use uid_names::{ByteList, NoMemory, ProcId, Uid};

/// The object of this variable, or of this name.
fn object_of(run: &RunView, name: &[u8]) -> Option<Uid> {
    for row in run.objects() {
        if row.var.bytes() == name {
            return Some(row.uid);
        }
    }
    Uid::read(name).ok()
}

/// Whether a run has this command.
fn has_command(run: &RunView, name: &CommandName) -> bool {
    for row in run.commands() {
        if row.name.is(name) {
            return true;
        }
    }
    false
}

/// The command of this name, as `a.1.3`.
fn command_of(run: &RunView, name: &[u8]) -> Option<CommandName> {
    let (process, index) = cut_last(name, b'.')?;
    let (node, number) = cut_last(process, b'.')?;
    let node = run.names().number_of(node)?;
    let number = u8::try_from(decimal(number).ok()?).ok()?;
    let index = u32::try_from(decimal(index).ok()?).ok()?;
    let command = CommandName {
        proc: ProcId::new(node, number)?,
        index,
    };
    if has_command(run, &command) {
        Some(command)
    } else {
        None
    }
}

/// What is said of a name that the run does not have.
fn unknown(alloc: Global, what: &[u8], name: &[u8]) -> Result<Said, NoMemory> {
    let mut text = ByteList::from_slice(alloc, b"error: the run has no ")?;
    text.extend(what)?;
    text.extend(b" ")?;
    text.extend(name)?;
    text.extend(b"\n")?;
    Ok(Said::new(NOT_TAKEN, text))
}

/// The object of this name, where one is asked for.
fn object_asked(alloc: Global, run: &RunView, asked: &Option<ByteList>) -> Result<Option<Uid>, Said>
    ensures { asked.now ≡ None → IfOk result (λ object. object ≡ None) }
{
    let Some(name) = asked else {
        return Ok(None);
    };
    match object_of(run, name.bytes()) {
        Some(object) => Ok(Some(object)),
        None => Err(unknown(alloc, b"object", name.bytes())?),
    }
}

/// The command of this name, where one is asked for.
fn command_asked(
    alloc: Global,
    run: &RunView,
    asked: &Option<ByteList>,
) -> Result<Option<CommandName>, Said>
    ensures { asked.now ≡ None → IfOk result (λ command. command ≡ None) }
{
    let Some(name) = asked else {
        return Ok(None);
    };
    match command_of(run, name.bytes()) {
        Some(command) => Ok(Some(command)),
        None => Err(unknown(alloc, b"command", name.bytes())?),
    }
}

/// Which events of a run are shown.
fn choice_of(alloc: Global, run: &RunView, shown: &Shown) -> Result<Choice, Said>
    ensures { IfOk result (IsChoiceOf shown.now) }
{
    Ok(Choice {
        from: shown.from,
        to: shown.to,
        object: object_asked(alloc, run, &shown.object)?,
        page: shown.page,
        command: command_asked(alloc, run, &shown.command)?,
    })
}

/// A chart as a picture, or as text of so many characters.
fn drawn(alloc: Global, chart: &Chart, is_picture: bool, width: usize) -> Result<ByteList, NoMemory>
    ensures { IfOk result (λ text. text ≡ drawing is_picture width chart.now) }
{
    if is_picture {
        draw_svg(alloc, chart)
    } else {
        draw_text(alloc, chart, width)
    }
}

/// The chosen events of a run, drawn.
fn lanes(alloc: Global, run: &RunView, shown: &Shown, width: usize) -> Result<Said, Said>
    ensures { IfOk result (SaysDrawn shown.now width run.now) }
{
    let choice = choice_of(alloc, run, shown)?;
    let chart = chart_of(alloc, run, &choice)?;
    let text = drawn(alloc, &chart, shown.is_picture, width)?;
    Ok(Said::new(0, text))
}

/// The chosen events of the run that a source and a number pick, drawn.
pub(crate) fn said_of_lanes<S: Source>(
    alloc: Global,
    source: &mut S,
    turns: u64,
    shown: &Shown,
    width: usize,
) -> Result<Said, Said>
    ensures { IfOk result (SaysLanes shown.now turns (from_to (S.left source.old) (S.left source.new))) }
{
    let read = read_run(alloc, source, turns)?;
    lanes(alloc, &read.run, shown, width)
}
