//! A script that is read, row by row. Which scripts are read and which are refused is tried by the program `script_cases`.
use dom_history::Fate;
use script_reader::{Cause, Script, ScriptFault, read_script};
use std::alloc::Global;
use std::process::Abort;
use std::test::Fail;

/// Where and why bytes are no script.
fn refused(alloc: Global, bytes: &[u8]) -> Option<(u32, Cause)> {
    match read_script(alloc, bytes) {
        Err(ScriptFault::Bad { line, cause }) => Some((line, cause)),
        _ => None,
    }
}

/// A script and one line more, which is none.
const LINES: &[u8; 173] =
    b"node a\nnode b frames 16 # small\n\n\tobject x 3 b\nobject y 1 b\r\nfault a b 1 lose\nfault b a 7 late 3\na.1 new v 2\nphase\nb.2 store x 0 \"hi\\n\"\nb.2 loadat 00ffffff 1024\nb.2 lock v r";

/// The script, without that line.
fn read(alloc: Global) -> Result<Script, ScriptFault> {
    read_script(alloc, &LINES[..LINES.len() - 13])
}

#[test]
fn a_line_that_is_none_is_refused(rt: HostRuntime) {
    assert!(rt; refused(rt.alloc(), LINES) == Some((12, Cause::Unknown)));
}

fn has_its_rows(rt: &impl Abort, script: &Script) {
    assert!(rt;
        [
            script.nodes().len(),
            script.objects().len(),
            script.opening().objects().len(),
            script.plan().rows().len(),
            script.commands().len(),
        ] == [2, 2, 2, 2, 3]
    );
    assert!(rt; script.phases() == 2);
}

fn nodes_and_objects_are_read(rt: &impl Abort, script: &Script) -> Result<(), Fail> {
    let node = script.nodes().get(1).ok_or("no second node")?;
    assert!(rt; node.frames == 16);
    let object = script.objects().get(1).ok_or("no second object")?;
    assert!(rt; object.uid.number() == 0x30_0002);
    assert!(rt; script.declared(b"y") == Some(object.uid));
    assert!(rt; script.declared(b"v").is_none());
    Ok(())
}

fn fates_and_commands_are_read(rt: &impl Abort, script: &Script) -> Result<(), Fail> {
    let row = script.plan().rows().get(1).ok_or("no second fate")?;
    assert!(rt; row.fate == Fate::Late(3));
    let command = script.commands().get(1).ok_or("no second command")?;
    assert!(rt; command.phase == 2);
    assert!(rt; script.places_of(command.proc) == [1, 2].as_slice());
    Ok(())
}

#[test]
fn a_script_is_read(rt: HostRuntime) -> Result<(), Fail> {
    let script = read(rt.alloc())?;
    has_its_rows(&rt, &script);
    nodes_and_objects_are_read(&rt, &script)?;
    fates_and_commands_are_read(&rt, &script)
}
