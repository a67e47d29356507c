//! Reads a script line by line.
ghost use Rattle.std.specs.Prelude.{◌≡◌, ◌<◌, ◌≤◌, ◌∷◌, length, IfOk, IfErr, Some, None};
ghost use Rattle.std.specs.Option.{ForSome};
ghost use Rattle.script_reader.specs.Grammar.{AreGood, IsScript, nothing, raw_lines, without_cr as without_cr_of};
ghost use Rattle.script_reader.specs.Judging.{judged, judged_early, judged_first, judged_form, judged_place, judged_process, judged_tokens};
ghost use Rattle.dom_text.specs.Answers.{Gives};
ghost use Rattle.dom_text.specs.Lent.{owned};
ghost use Rattle.script_reader.specs.Walk.Formed.{HasForm, IsProcessNumber};
ghost use Rattle.script_reader.specs.Walk.Results.{RefusesLines, line_answer};
ghost use Rattle.script_reader.specs.Faults.{IsRefusal};
ghost use Rattle.script_reader.specs.Forms.{access_form as access_form_of, phase_form as phase_form_of};
ghost use Rattle.script_reader.specs.Walk.Seen.{seen, seen_line};
ghost use Rattle.script_reader.specs.Words.{line_word_of, process_word as process_word_of};

use crate::arguments::read_arguments;
use crate::cause::{Cause, LineFault, ScriptFault};
use crate::draft::Draft;
use crate::forms::{fault_form, first_word, node_form, object_form, subject_form, wire_form};
use crate::line::Line;
use crate::script::Script;
use crate::words::{LineWord, process_word, read_line_word, read_verb};
use arrayvec::ArrayVec;
use dom_text::{TextFault, TokenRef, cut, lend_tokens};
use std::alloc::Global;
use uid_names::SCRIPT_BYTES;

/// The most bytes of a line before its end.
const MAX_LINE: usize = 5000;

/// The script that the bytes are. `Bad` names the first bad line and the first cause that it meets.
pub fn read_script(alloc: Global, bytes: &[u8]) -> Result<Script, ScriptFault>
    ensures script { IfOk result (λ script. IsScript bytes.now script) }
    ensures bad { IfErr result (λ fault. IsRefusal bytes.now fault) }
{
    if bytes.len() > SCRIPT_BYTES as usize {
        return Err(ScriptFault::Bad {
            line: 0,
            cause: Cause::TooLong,
        });
    }
    let draft = read_lines(alloc, bytes)?;
    if draft.has_no_node() {
        return Err(ScriptFault::Bad {
            line: 1,
            cause: Cause::NoNode,
        });
    }
    let script = draft.finish(alloc)?;
    Ok(script)
}

/// What the lines say, or the first bad one.
fn read_lines(alloc: Global, bytes: &[u8]) -> Result<Draft, ScriptFault>
    requires { length bytes.now ≤ SCRIPT_BYTES }
    ensures good { IfOk result (λ draft. AreGood nothing (raw_lines bytes.now) draft) }
    ensures bad { IfErr result (λ fault. RefusesLines bytes.now fault) }
{
    let mut draft = Draft::new(alloc)?;
    let mut tokens = Vec::new(alloc);
    let mut rest = bytes;
    let mut number: u32 = 0;
    while !rest.is_empty() {
        let (line, behind) = cut_line(rest);
        number += 1;
        match read_line(&mut draft, &mut tokens, alloc, without_cr(line)) {
            Ok(()) => {}
            Err(LineFault::Bad(cause)) => {
                return Err(ScriptFault::Bad {
                    line: number,
                    cause,
                });
            }
            Err(LineFault::NoMemory) => return Err(ScriptFault::NoMemory),
        }
        rest = behind;
    }
    Ok(draft)
}

/// The first line, without its LF, and the bytes behind it.
fn cut_line(bytes: &[u8]) -> (&[u8], &[u8])
    requires { 0 < length bytes.now }
    ensures lines { raw_lines bytes.now ≡ result.0.now ∷ raw_lines result.1.now }
    ensures shorter { length result.1.now < length bytes.now }
{
    match cut(bytes, b'\n') {
        Some((line, rest)) => (line, rest),
        None => (bytes, &bytes[bytes.len()..]),
    }
}

/// A line without a CR at its end.
fn without_cr(line: &[u8]) -> &[u8]
    ensures { result.now ≡ without_cr_of line.now }
{
    match line.strip_suffix(b"\r") {
        Some(before) => before,
        None => line,
    }
}

/// Reads a line without its end; the list is any, whose memory is used again for the line's tokens.
fn read_line<'a>(
    draft: &mut Draft,
    tokens: &mut Vec<TokenRef<'a>>,
    alloc: Global,
    line: &'a [u8],
) -> Result<(), LineFault>
    ensures { Gives (line_answer draft.new result) (judged draft.old line.now) }
{
    if line.len() > MAX_LINE {
        return Err(LineFault::Bad(Cause::TooLong));
    }
    match lend_tokens(tokens, alloc, line) {
        Ok(()) => read_tokens(draft, alloc, tokens.as_slice()),
        Err(TextFault::Byte) => Err(LineFault::Bad(Cause::Byte)),
        Err(TextFault::Quote) => Err(LineFault::Bad(Cause::Quote)),
        Err(TextFault::NoMemory) => Err(LineFault::NoMemory),
    }
}

/// Reads the tokens of a line; a line without tokens is skipped. Most lines are commands, so it is asked first whether one begins
/// with a process.
fn read_tokens(draft: &mut Draft, alloc: Global, tokens: &[TokenRef<'_>]) -> Result<(), LineFault>
    ensures { Gives (line_answer draft.new result) (judged_tokens draft.old (owned tokens.now)) }
{
    if tokens.is_empty() {
        return Ok(());
    }
    let Some((word, rest)) = first_word(tokens) else {
        return Err(LineFault::Bad(Cause::Word));
    };
    match process_word(word) {
        Some((node, number)) => read_command(draft, alloc, node, number, rest),
        None => read_other(draft, alloc, word, rest),
    }
}

/// Reads a line that is no command, whose first token is this word.
#[inline(never)]
fn read_other(
    draft: &mut Draft,
    alloc: Global,
    word: &[u8],
    rest: &[TokenRef<'_>],
) -> Result<(), LineFault>
    requires { process_word_of word.now ≡ None }
    ensures { Gives (line_answer draft.new result) (judged_first draft.old (line_word_of word.now) word.now (owned rest.now)) }
{
    match read_line_word(word) {
        Some(LineWord::Wire) => read_wire(draft, alloc, wire_form(rest)),
        Some(LineWord::Node) => read_declaration(draft, alloc, node_form(rest)),
        Some(LineWord::Object) => read_declaration(draft, alloc, object_form(rest)),
        Some(LineWord::Fault) => read_declaration(draft, alloc, fault_form(rest)),
        Some(LineWord::Phase) => read_phase(draft, alloc, rest),
        Some(LineWord::Access) => read_access(draft, alloc, rest),
        Some(LineWord::Subject) => read_declaration(draft, alloc, subject_form(rest)),
        None => Err(LineFault::Bad(Cause::Word)),
    }
}

/// Reads a version, which stands before all objects, phases and commands.
fn read_wire(draft: &mut Draft, alloc: Global, line: Option<Line<'_>>) -> Result<(), LineFault>
    requires { ForSome line (λ l. HasForm (seen l)) }
    ensures { Gives (line_answer draft.new result) (judged_early draft.old (seen_line line.entry)) }
{
    if draft.has_object() {
        return Err(LineFault::Bad(Cause::Place));
    }
    read_declaration(draft, alloc, line)
}

/// Reads a line that stands before all phases and commands.
fn read_declaration(
    draft: &mut Draft,
    alloc: Global,
    line: Option<Line<'_>>,
) -> Result<(), LineFault>
    requires { ForSome line (λ l. HasForm (seen l)) }
    ensures { Gives (line_answer draft.new result) (judged_place draft.old (seen_line line.entry)) }
{
    if draft.has_begun() {
        return Err(LineFault::Bad(Cause::Place));
    }
    match line {
        Some(line) => draft.take(alloc, line),
        None => Err(LineFault::Bad(Cause::Form)),
    }
}

/// Reads a phase, of which these tokens stand behind its word.
fn read_phase(draft: &mut Draft, alloc: Global, rest: &[TokenRef<'_>]) -> Result<(), LineFault>
    ensures { Gives (line_answer draft.new result) (judged_form draft.old (phase_form_of (owned rest.now))) }
{
    if !rest.is_empty() {
        return Err(LineFault::Bad(Cause::Form));
    }
    draft.take(alloc, Line::Phase)
}

/// Reads the line that puts access lists in force, of which these tokens stand behind its word.
fn read_access(draft: &mut Draft, alloc: Global, rest: &[TokenRef<'_>]) -> Result<(), LineFault>
    ensures { Gives (line_answer draft.new result) (judged_place draft.old (access_form_of (owned rest.now))) }
{
    if draft.has_begun() {
        return Err(LineFault::Bad(Cause::Place));
    }
    if !rest.is_empty() {
        return Err(LineFault::Bad(Cause::Form));
    }
    draft.take(alloc, Line::Access)
}

/// Reads a command of this process, whose other tokens these are.
fn read_command(
    draft: &mut Draft,
    alloc: Global,
    node: &[u8],
    number: Option<u32>,
    rest: &[TokenRef<'_>],
) -> Result<(), LineFault>
    requires { ForSome number IsProcessNumber }
    ensures { Gives (line_answer draft.new result) (judged_process draft.old (Some (record { node = node.now; number = number })) (owned rest.now)) }
{
    let Some((verb, rest)) = first_word(rest) else {
        return Err(LineFault::Bad(Cause::Word));
    };
    let Some(verb) = read_verb(verb) else {
        return Err(LineFault::Bad(Cause::Word));
    };
    let mut arguments = ArrayVec::new();
    let Some(()) = read_arguments(verb.shape(), rest, &mut arguments) else {
        return Err(LineFault::Bad(Cause::Form));
    };
    draft.take_command(alloc, node, number, verb, arguments.as_slice())
}
