//! What no clause says: that shells find memory, and answers that were worked out by hand.
ghost use Rattle.std.specs.Prelude.{◌≡◌, ◌≢◌, ◌≤◌, ◌<◌, ◌+◌, length, IfOk};
ghost use Rattle.dom_history.specs.declared.op.Want.TheVariants.{Done};
ghost use Rattle.dom_history.specs.Programs.{FitsWant};
ghost use Rattle.dom_history.specs.Ranges.{IsWant};

use aegis_shell::Shell;
use dom_history::{Program, Reply, Want};
use plain_store::PlainStore;
use script_reader::{Script, read_script};
use std::alloc::Global;
use std::test::Fail;
use uid_names::{ByteList, LockRows, Mode, NoMemory, NodeId, ProcId, Uid};

/// How often a process is called in a test at most.
const MOST_CALLS: u64 = 1000;

/// A process that was served alone from one store until it was done.
#[derive(Drop)]
struct Served<'a> {
    shell: Shell<'a>,
    phases: u64,
}

/// What a process is told next: the store's reply to its operation, or nothing in a new phase.
fn told_next(
    alloc: Global,
    store: &mut PlainStore,
    proc: ProcId,
    want: &Want,
    phases: &mut u64,
) -> Result<Option<Reply>, NoMemory>
    requires going_on { want.now ≢ Done }
    requires range { IsWant want.now }
    requires few { length store.old.deeds < 1000 }
    ensures fits { IfOk result (FitsWant want.now) }
    ensures deeds { length store.new.deeds ≤ length store.old.deeds + 1 }
{
    match want {
        Want::Do(op) => Ok(Some(store.apply(alloc, proc, op)?)),
        Want::Phase => {
            *phases = phases.saturating_add(1);
            Ok(None)
        }
        Want::Done => unreachable!(),
    }
}

fn serve(alloc: Global, script: &Script, proc: ProcId) -> Result<Served<'_>, NoMemory> {
    let mut store = PlainStore::new(alloc, script.opening())?;
    let mut shell = Shell::new(alloc, script, proc)?;
    let mut phases = 0;
    let mut last = None;
    'calls: for _ in 0..MOST_CALLS {
        let want = shell.next(alloc, last.as_ref())?;
        match &want {
            Want::Done => return Ok(Served { shell, phases }),
            _ => last = told_next(alloc, &mut store, proc, &want, &mut phases)?,
        }
    }
    Ok(Served { shell, phases })
}

/// The first process of a node.
fn process(node: u8) -> Result<ProcId, Fail> {
    let node = NodeId::new(node).ok_or("no node")?;
    Ok(ProcId::new(node, 1).ok_or("no process")?)
}

/// The answers of a process of a script that is served alone, each with its end.
fn answers(alloc: Global, script: &[u8], node: u8) -> Result<ByteList, Fail> {
    let script = read_script(alloc, script)?;
    let served = serve(alloc, &script, process(node)?)?;
    let mut text = ByteList::new(alloc);
    for answer in served.shell.answers() {
        text.extend(answer.bytes())?;
        text.push(b'\n')?;
    }
    Ok(text)
}

/// The answers of process a.1 at node a, with objects x of two pages and y of one.
fn answers_at_a(alloc: Global, commands: &[u8]) -> Result<ByteList, Fail> {
    let mut script = ByteList::from_slice(alloc, b"node a\nobject x 2 a\nobject y 1 a\n")?;
    script.extend(commands)?;
    answers(alloc, script.bytes(), 1)
}

#[test]
fn commands_are_answered(rt: HostRuntime) -> Result<(), Fail> {
    let rows: [(&[u8], &[u8]); 5] = [
        // A text is stored and loaded.
        (
            b"a.1 lock x w\na.1 store x 0 \"hi\"\na.1 load x 0 2\na.1 length x\na.1 unlock x\n",
            b"ok\nok\nok \"hi\"\nok 2\nok\n",
        ),
        // A range is cut at a page border.
        (
            b"a.1 lock x w\na.1 store x 1022 \"abcd\"\na.1 load x 1022 4\na.1 load x 1022 5\n",
            b"ok\nok\nok \"abcd\"\npast end\n",
        ),
        // One that is refused behind a border keeps its first part.
        (
            b"a.1 lock x w\na.1 store x 2046 \"abcd\"\na.1 length x\na.1 load x 2046 2\n",
            b"ok\npast room\nok 2048\nok \"ab\"\n",
        ),
        // A range of addresses is cut at a page border.
        (
            b"a.1 lock x w\na.1 map x\na.1 storeat 000003fe \"wxyz\"\na.1 loadat 000003fe 4\na.1 unmap x\n",
            b"ok\nok 00000000\nok\nok \"wxyz\"\nok\n",
        ),
        // A command ends at its first refusal: the range ends in y, but begins where nothing is mapped.
        (
            b"a.1 lock x w\na.1 map x\na.1 lock y w\na.1 map y\na.1 unmap x\na.1 storeat 00007ffe \"abcd\"\na.1 length y\n",
            b"ok\nok 00000000\nok\nok 00008000\nok\nnot mapped\nok 0\n",
        ),
    ];
    for (commands, expected) in rows {
        let got = answers_at_a(rt.alloc(), commands)?;
        assert_eq!(rt; got.bytes(), expected, "{commands:?}");
    }
    Ok(())
}

/// Sixteen objects that fill the volume but for a page.
fn crowded(alloc: Global, commands: &[u8]) -> Result<ByteList, Fail> {
    let mut script = ByteList::from_slice(alloc, b"node a\n")?;
    for i in 1..16u8 {
        let line = format!(in alloc; "object o{i} 1024 a\n")?;
        script.extend(line.as_bytes())?;
    }
    script.extend(b"object p 1015 a\n")?;
    script.extend(commands)?;
    answers(alloc, script.bytes(), 1)
}

#[test]
fn variables_stand_for_objects(rt: HostRuntime) -> Result<(), Fail> {
    let rows: [(&[u8], &[u8]); 2] = [
        // One without an object is not bound.
        (
            b"a.1 new q 2\na.1 lock q w\na.1 map q\n",
            b"no space\nnot bound\nnot bound\n",
        ),
        // It keeps its object over a refused new.
        (
            b"a.1 new q 1\na.1 lock q w\na.1 new q 1\na.1 delete q\na.1 lock q r\n",
            b"ok 0000000001200001\nok\nno space\nok\nno object\n",
        ),
    ];
    for (commands, expected) in rows {
        let got = crowded(rt.alloc(), commands)?;
        assert_eq!(rt; got.bytes(), expected, "{commands:?}");
    }
    Ok(())
}

#[test]
fn objects_are_made(rt: HostRuntime) -> Result<(), Fail> {
    let rows: [(&[u8], u8, &[u8]); 3] = [
        // A variable stands for the last one.
        (
            b"node a\na.1 new q 1\na.1 lock q w\na.1 new q 1\na.1 unlock q\n",
            1,
            b"ok 0000000000200001\nok\nok 0000000000300001\nnot held\n",
        ),
        // Names lead to other nodes, and a link to its path.
        (
            b"node a\nnode b\na.1 crd //b/d\na.1 crf //b/d/f.txt 4\na.1 crl l //b/d\na.1 wd l\na.1 ld /l\na.1 bind v f.txt\na.1 lock v w\na.1 llkob b\na.1 dlf //b/d\na.1 ld //\n",
            1,
            b"ok\nok\nok\nok //a/l\nok f.txt:file\nok 0000000000300002\nok\nok 0000000000300002/a.1/w\nis a directory\nok a:node b:node\n",
        ),
        // One is made at the named node.
        (
            b"node a\nnode b\nb.1 new x 1\na.1 new x 1\nb.1 new y 1 a\n",
            2,
            b"ok 0000000000200002\nok 0000000000200001\n",
        ),
    ];
    for (script, node, expected) in rows {
        let got = answers(rt.alloc(), script, node)?;
        assert_eq!(rt; got.bytes(), expected, "{script:?}");
    }
    Ok(())
}

#[test]
fn a_process_takes_a_phase_for_each_line_before_its_commands(rt: HostRuntime) -> Result<(), Fail> {
    let script = read_script(
        rt.alloc(),
        b"node a\nobject x 1 a\nphase\nphase\na.1 length x\na.2 length x\nphase\na.1 length x\nphase\na.2 length x\n",
    )?;
    let served = serve(rt.alloc(), &script, process(1)?)?;
    assert_eq!(rt; served.phases, 3);
    assert_eq!(rt; served.shell.answers().len(), 2);
    Ok(())
}

#[test]
fn names_are_answered(rt: HostRuntime) -> Result<(), Fail> {
    let rows: [(&[u8], &[u8]); 8] = [
        (
            b"a.1 crd d\na.1 crf d/f 1\na.1 ld d\na.1 crl l d\na.1 ld l\na.1 wd l\na.1 dlf f\na.1 ld /d\n",
            b"ok\nok\nok f:file\nok\nok f:file\nok //a/l\nok\nok\n",
        ),
        (
            b"a.1 bind d /\na.1 lock d w\na.1 store d 0 \"x\"\na.1 llkob a\na.1 unlock d\na.1 ld /\n",
            b"ok 0000000000100001\nok\nok\nok 0000000000100001/a.1/w\nok\nbad directory\n",
        ),
        (
            b"a.1 crl l l\na.1 ld l\na.1 ld /\na.1 dlf l\na.1 ld /\n",
            b"ok\nlink loop\nok l:link\nok\nok\n",
        ),
        (
            b"a.1 crf f 1\na.1 crf f/g 1\na.1 crd d\na.1 dlf d\na.1 wd f\na.1 crf //zz 1\na.1 dlf //zz\na.1 bind v //\na.1 lock v r\n",
            b"ok\nnot a directory\nok\nis a directory\nnot a directory\nnot a directory\nno name\nis a directory\nnot bound\n",
        ),
        (
            b"a.1 ld //\na.1 wd\na.1 crf f\na.1 crf f\na.1 bind v f\na.1 lock v w\na.1 dlf f\na.1 bind w f\n",
            b"ok a:node\nok //a\nok\nname exists\nok 0000000000400001\nok\nalready held\nok 0000000000400001\n",
        ),
        // A working directory is written as its path was.
        (
            b"a.1 crd d\na.1 wd d\na.1 crd e\na.1 wd e\na.1 wd\na.1 wd /d\na.1 wd //a/d/e\na.1 wd /\na.1 wd //\na.1 wd\n",
            b"ok\nok //a/d\nok\nok //a/d/e\nok //a/d/e\nok //a/d\nok //a/d/e\nok //a\nnot a directory\nok //a\n",
        ),
        (
            b"a.1 lock y r\na.1 lock x w\na.1 llkob a\na.1 unlock y\na.1 llkob a\na.1 unlock x\na.1 llkob a\n",
            b"ok\nok\nok 0000000000200001/a.1/w 0000000000300001/a.1/r\nok\nok 0000000000200001/a.1/w\nok\nok\n",
        ),
        (
            b"a.1 crl l //zz/d\na.1 ld l\na.1 bind v l\na.1 crl l x\na.1 crl m /\na.1 ld m\na.1 dlf n\n",
            b"ok\nno name\nno name\nname exists\nok\nok l:link m:link\nno name\n",
        ),
    ];
    for (commands, expected) in rows {
        let got = answers_at_a(rt.alloc(), commands)?;
        assert_eq!(rt; got.bytes(), expected, "{commands:?}");
    }
    Ok(())
}

#[test]
fn files_are_answered(rt: HostRuntime) -> Result<(), Fail> {
    let rows: [(&[u8], &[u8]); 4] = [
        // Texts are put one behind the other.
        (
            b"a.1 crf f 2\na.1 apf f \"one\\ntwo\\n\"\na.1 apf f \"end\"\na.1 catf f\na.1 lnf f\na.1 llkob a\n",
            b"ok\nok\nok\nok \"one\\ntwo\\nend\"\nok 2\nok\n",
        ),
        // What is no file is not read.
        (
            b"a.1 crd d\na.1 catf d\na.1 lnf //\na.1 apf d \"x\"\na.1 cpf d e\na.1 catf n\na.1 ld /\n",
            b"ok\nis a directory\nis a directory\nis a directory\nis a directory\nno name\nok d:dir\n",
        ),
        // A copy goes to a new name, and leaves nothing locked or mapped.
        (
            b"a.1 crf f\na.1 apf f \"abc\"\na.1 crl l f\na.1 cpf l g\na.1 catf g\na.1 cpf f g\na.1 cpf f n/h\na.1 llkob a\na.1 lock y w\na.1 map y\n",
            b"ok\nok\nok\nok\nok \"abc\"\nname exists\nno name\nok\nok\nok 00000000\n",
        ),
        // An empty file has an empty copy.
        (
            b"a.1 crf f\na.1 cpf f g\na.1 catf g\na.1 lnf g\n",
            b"ok\nok\nok \"\"\nok 0\n",
        ),
    ];
    for (commands, expected) in rows {
        let got = answers_at_a(rt.alloc(), commands)?;
        assert_eq!(rt; got.bytes(), expected, "{commands:?}");
    }
    Ok(())
}

#[test]
fn files_that_are_held_or_full_are_answered(rt: HostRuntime) -> Result<(), Fail> {
    let rows: [(&[u8], &[u8]); 3] = [
        // One that the process holds is not opened again.
        (
            b"a.1 crf f\na.1 bind v f\na.1 lock v r\na.1 catf f\na.1 apf f \"x\"\na.1 cpf f g\na.1 unlock v\na.1 catf f\n",
            b"ok\nok 0000000000400001\nok\nalready held\nalready held\nalready held\nok\nok \"\"\n",
        ),
        // A text ends where the room does.
        (
            b"a.1 crf f 1\na.1 bind v f\na.1 lock v w\na.1 store v 1022 \"ab\"\na.1 unlock v\na.1 apf f \"c\"\na.1 llkob a\n",
            b"ok\nok 0000000000400001\nok\nok\nok\npast room\nok\n",
        ),
        // It passes a page border, and a copy has the pages that it needs.
        (
            b"a.1 crf f 2\na.1 bind v f\na.1 lock v w\na.1 store v 1023 \"\\n\"\na.1 unlock v\na.1 apf f \"\\n\\n\"\na.1 cpf f g\na.1 lnf g\na.1 bind w g\na.1 lock w w\na.1 length w\na.1 store w 2047 \"\\n\"\na.1 store w 2048 \"x\"\n",
            b"ok\nok 0000000000400001\nok\nok\nok\nok\nok\nok 3\nok 0000000000500001\nok\nok 1026\nok\npast room\n",
        ),
    ];
    for (commands, expected) in rows {
        let got = answers_at_a(rt.alloc(), commands)?;
        assert_eq!(rt; got.bytes(), expected, "{commands:?}");
    }
    Ok(())
}

#[test]
fn mailboxes_are_answered(rt: HostRuntime) -> Result<(), Fail> {
    let rows: [(&[u8], &[u8]); 4] = [
        // What was put first is taken first, and nothing stays locked.
        (
            b"a.1 crm m\na.1 putm m \"one\"\na.1 putm m \"two\"\na.1 takem m\na.1 takem m\na.1 takem m\na.1 ld /\na.1 llkob a\n",
            b"ok\nok\nok\nok \"one\"\nok \"two\"\nmailbox empty\nok m:mail\nok\n",
        ),
        // One that the process holds is not opened again, and one with a byte is bad.
        (
            b"a.1 crm m\na.1 bind v m\na.1 lock v w\na.1 putm m \"x\"\na.1 store v 0 \"x\"\na.1 unlock v\na.1 takem m\na.1 putm m \"x\"\na.1 llkob a\n",
            b"ok\nok 0000000000400001\nok\nalready held\nok\nok\nbad mailbox\nbad mailbox\nok\n",
        ),
        // What is no mailbox holds no texts.
        (
            b"a.1 crf f\na.1 putm f \"x\"\na.1 takem //\na.1 takem n\na.1 crd d\na.1 putm d \"x\"\na.1 crl l f\na.1 takem l\n",
            b"ok\nnot a mailbox\nnot a mailbox\nno name\nok\nnot a mailbox\nok\nnot a mailbox\n",
        ),
        // Nothing stays mapped.
        (
            b"a.1 crm m\na.1 putm m \"x\"\na.1 lock y w\na.1 map y\na.1 takem m\n",
            b"ok\nok\nok\nok 00000000\nok \"x\"\n",
        ),
    ];
    for (commands, expected) in rows {
        let got = answers_at_a(rt.alloc(), commands)?;
        assert_eq!(rt; got.bytes(), expected, "{commands:?}");
    }
    Ok(())
}
