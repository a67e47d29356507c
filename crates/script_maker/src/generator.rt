//! Makes the script of a seed: what a reader of its text would have.
ghost use Rattle.std.specs.Prelude.{◌≡◌, ◌≤◌, ◌<◌, ◌+◌, ◌++◌, codes, decimal, length, IfOk, OnOk};
ghost use Rattle.uid_names.specs.declared.mode.Mode.TheVariants.{Write};
ghost use Rattle.script_reader.specs.After.{with_command};
ghost use Rattle.script_maker.specs.Generated.{digit_at, eight_digits, first_work, generated, later_work, object_name, process_at, rows_by, rows_of};
ghost use Rattle.script_maker.specs.Walk.Begun.{HasBegun, IsWork, nodes_begun, objects_begun, phases_begun, with_rows};
ghost use Rattle.script_reader.specs.declared.command.Command.TheVariants.{Lock as LockCommand, Unlock as UnlockCommand, Load as LoadCommand, Store as StoreCommand, Length as LengthCommand};

use crate::phase_draws::PhaseDraws;
use dom_text::put_decimal;
use drawn_numbers::Draws;
use script_reader::{Command, Draft, Script};
use std::alloc::Global;
use uid_names::{ByteList, MAX_NODES, Mode, NODE_PROCESSES, NoMemory, NodeId, PROCESSES, ProcId};

/// The page frames of each node, and the pages of each object.
const FRAMES: u16 = 8;

const ROOM: u32 = 4;

/// How many phases there are behind the first.
const LATER_PHASES: u32 = 24;

/// How many bytes a process stores and loads.
const COUNT: u32 = 8;

/// The script of a seed: 25 phases, in each of which 32 processes of eight nodes work on 32 objects, each on one.
pub fn generate(alloc: Global, seed: u64) -> Result<Script, NoMemory>
    ensures script { IfOk result (λ script. script ≡ generated seed) }
{
    let mut draft = Draft::new(alloc)?;
    declare_nodes(&mut draft, alloc)?;
    declare_objects(&mut draft, alloc)?;
    add_phases(&mut draft, alloc, seed)?;
    draft.finish(alloc)
}

/// A letter with a number behind it.
fn numbered(alloc: Global, letter: &[u8], number: u32) -> Result<ByteList, NoMemory>
    ensures { IfOk result (λ name. name ≡ letter.now ++ decimal number) }
{
    let mut name = ByteList::from_slice(alloc, letter)?;
    put_decimal(&mut name, number as u64)?;
    Ok(name)
}

/// Declares the nodes.
fn declare_nodes(draft: &mut Draft, alloc: Global) -> Result<(), NoMemory>
    requires { draft.old ≡ nodes_begun 0 }
    ensures { OnOk result (draft.new ≡ nodes_begun 8) }
{
    for at in 0..MAX_NODES as u32 {
        let name = numbered(alloc, b"n", at + 1)?;
        draft.add_node(alloc, name.bytes(), FRAMES)?;
    }
    Ok(())
}

/// Declares the objects, one home after the other.
fn declare_objects(draft: &mut Draft, alloc: Global) -> Result<(), NoMemory>
    requires { draft.old ≡ nodes_begun 8 }
    ensures { OnOk result (draft.new ≡ objects_begun 32) }
{
    for at in 0..PROCESSES as u32 {
        let name = object_called(alloc, at)?;
        let home = node(at as u8 % MAX_NODES + 1);
        draft.add_object(alloc, name.bytes(), ROOM, home)?;
    }
    Ok(())
}

/// The name of an object.
fn object_called(alloc: Global, at: u32) -> Result<ByteList, NoMemory>
    requires { at < 32 }
    ensures { IfOk result (λ name. name ≡ object_name at) }
{
    numbered(alloc, b"o", at + 1)
}

/// The node of this number.
fn node(number: u8) -> NodeId
    requires low { 1 ≤ number }
    requires high { number ≤ 8 }
    ensures { result ≡ number }
{
    match NodeId::new(number) {
        Some(node) => node,
        None => unreachable!(),
    }
}

/// The process at a place among all, counted from 0.
fn process(at: usize) -> ProcId
    requires { at < 32 }
    ensures { result ≡ process_at at }
{
    let node = node((at / NODE_PROCESSES) as u8 + 1);
    match ProcId::new(node, (at % NODE_PROCESSES) as u8 + 1) {
        Some(proc) => proc,
        None => unreachable!(),
    }
}

/// Adds the commands of all phases.
fn add_phases(draft: &mut Draft, alloc: Global, seed: u64) -> Result<(), NoMemory>
    requires { draft.old ≡ objects_begun 32 }
    ensures { OnOk result (draft.new ≡ phases_begun seed 24) }
{
    let mut draws = Draws::new(seed);
    let mut before = PhaseDraws::new(&mut draws);
    add_first_phase(draft, alloc, &before)?;
    for _phase in 0..LATER_PHASES {
        let now = PhaseDraws::new(&mut draws);
        draft.add_phase();
        add_later_phase(draft, alloc, &before, &now)?;
        before = now;
    }
    Ok(())
}

/// Adds the commands of the first phase.
fn add_first_phase(draft: &mut Draft, alloc: Global, now: &PhaseDraws) -> Result<(), NoMemory>
    requires begun { HasBegun draft.old }
    requires few { length draft.old.commands + 160 ≤ 20000 }
    ensures { OnOk result (draft.new ≡ with_rows draft.old (rows_of draft.old.phases (first_work now.now) 32)) }
{
    for at in 0..PROCESSES {
        add_first_work(draft, alloc, now, at)?;
    }
    Ok(())
}

/// Adds the commands of a later phase, behind which the one before is known.
fn add_later_phase(
    draft: &mut Draft,
    alloc: Global,
    before: &PhaseDraws,
    now: &PhaseDraws,
) -> Result<(), NoMemory>
    requires begun { HasBegun draft.old }
    requires few { length draft.old.commands + 160 ≤ 20000 }
    ensures { OnOk result (draft.new ≡ with_rows draft.old (rows_of draft.old.phases (later_work before.now now.now) 32)) }
{
    for at in 0..PROCESSES {
        add_later_work(draft, alloc, before, now, at)?;
    }
    Ok(())
}

/// Adds what a process does in the first phase.
fn add_first_work(
    draft: &mut Draft,
    alloc: Global,
    now: &PhaseDraws,
    at: usize,
) -> Result<(), NoMemory>
    requires begun { HasBegun draft.old }
    requires few { length draft.old.commands + 5 ≤ 20000 }
    requires process { at < 32 }
    ensures { OnOk result (draft.new ≡ with_rows draft.old (rows_by draft.old.phases at (first_work now.now at))) }
{
    let proc = process(at);
    let object = now.object(at);
    let offset = now.offset(at);
    add_work(draft, alloc, proc, object, lock(alloc, object)?)?;
    let stored = store(alloc, object, offset, now.number(at))?;
    add_work(draft, alloc, proc, object, stored)?;
    add_work(draft, alloc, proc, object, load(alloc, object, offset)?)?;
    add_work(draft, alloc, proc, object, length_of(alloc, object)?)?;
    add_work(draft, alloc, proc, object, unlock(alloc, object)?)
}

/// Adds what a process does in a later phase.
fn add_later_work(
    draft: &mut Draft,
    alloc: Global,
    before: &PhaseDraws,
    now: &PhaseDraws,
    at: usize,
) -> Result<(), NoMemory>
    requires begun { HasBegun draft.old }
    requires few { length draft.old.commands + 5 ≤ 20000 }
    requires process { at < 32 }
    ensures { OnOk result (draft.new ≡ with_rows draft.old (rows_by draft.old.phases at (later_work before.now now.now at))) }
{
    let proc = process(at);
    let object = now.object(at);
    let offset = now.offset(at);
    add_work(draft, alloc, proc, object, lock(alloc, object)?)?;
    let loaded = load(alloc, object, before.offset_at(object))?;
    add_work(draft, alloc, proc, object, loaded)?;
    let stored = store(alloc, object, offset, now.number(at))?;
    add_work(draft, alloc, proc, object, stored)?;
    add_work(draft, alloc, proc, object, load(alloc, object, offset)?)?;
    add_work(draft, alloc, proc, object, unlock(alloc, object)?)
}

/// Adds a command on an object.
fn add_work(
    draft: &mut Draft,
    alloc: Global,
    proc: ProcId,
    object: u32,
    command: Command,
) -> Result<(), NoMemory>
    requires begun { HasBegun draft.old }
    requires few { length draft.old.commands < 20000 }
    requires object { object < 32 }
    requires work { IsWork (object_name object) command }
    ensures said { OnOk result (draft.new ≡ with_command draft.old proc command) }
    ensures begun { OnOk result (HasBegun draft.new) }
    ensures one_more { OnOk result (length draft.new.commands ≡ length draft.old.commands + 1) }
{
    let _range = proc.node();
    draft.add_command(alloc, proc, command)
}

/// A lock of an object, for reading and writing.
fn lock(alloc: Global, object: u32) -> Result<Command, NoMemory>
    requires { object < 32 }
    ensures { IfOk result (λ command. command ≡ LockCommand (object_name object) Write) }
{
    let var = object_called(alloc, object)?;
    let mode = Mode::Write;
    Ok(Command::Lock { var, mode })
}

/// A load of eight bytes from an object.
fn load(alloc: Global, object: u32, offset: u32) -> Result<Command, NoMemory>
    requires { object < 32 }
    ensures { IfOk result (λ command. command ≡ LoadCommand (object_name object) offset 8) }
{
    let var = object_called(alloc, object)?;
    let count = COUNT;
    Ok(Command::Load { var, offset, count })
}

/// A store of a number in eight digits.
fn store(alloc: Global, object: u32, offset: u32, number: u32) -> Result<Command, NoMemory>
    requires { object < 32 }
    ensures { IfOk result (λ command. command ≡ StoreCommand (object_name object) offset (eight_digits number)) }
{
    let var = object_called(alloc, object)?;
    let text = digits(alloc, number)?;
    Ok(Command::Store { var, offset, text })
}

/// The length of an object.
fn length_of(alloc: Global, object: u32) -> Result<Command, NoMemory>
    requires { object < 32 }
    ensures { IfOk result (λ command. command ≡ LengthCommand (object_name object)) }
{
    let var = object_called(alloc, object)?;
    Ok(Command::Length { var })
}

/// The end of a lock of an object.
fn unlock(alloc: Global, object: u32) -> Result<Command, NoMemory>
    requires { object < 32 }
    ensures { IfOk result (λ command. command ≡ UnlockCommand (object_name object)) }
{
    let var = object_called(alloc, object)?;
    Ok(Command::Unlock { var })
}

/// A number in eight decimal digits, with zeros in front.
fn digits(alloc: Global, number: u32) -> Result<ByteList, NoMemory>
    ensures { IfOk result (λ text. text ≡ eight_digits number) }
{
    let text = [
        digit(number, 10_000_000),
        digit(number, 1_000_000),
        digit(number, 100_000),
        digit(number, 10_000),
        digit(number, 1_000),
        digit(number, 100),
        digit(number, 10),
        digit(number, 1),
    ];
    ByteList::from_slice(alloc, &text)
}

/// The decimal digit of a unit.
fn digit(number: u32, unit: u32) -> u8
    requires { 0 < unit }
    ensures { result ≡ digit_at number unit }
{
    b'0' + (number / unit % 10) as u8
}
