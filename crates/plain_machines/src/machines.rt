//! Machines, from their first operation to their result.
ghost use Rattle.std.specs.Prelude.{None, IsSome, IfOk};
ghost use Rattle.uid_names.specs.Rooms.{IsRoom};
ghost use Rattle.dir_records.specs.Paths.{route_of};
ghost use Rattle.naming_tree.specs.Additions.{IsAddition, IsText};
ghost use Rattle.naming_tree.specs.ByPaths.{by_path_asks};
ghost use Rattle.naming_tree.specs.Changing.{changing_asks};
ghost use Rattle.naming_tree.specs.Dialogues.{IsStep, FitsSaid};
ghost use Rattle.naming_tree.specs.Turns.{IsReady};
ghost use Rattle.naming_tree.specs.Walking.{walking_asks};

use crate::undone::{Result, Undone};
use crate::world::{MOST_OPERATIONS, World};
use dir_records::Component;
use dom_history::Reply;
use naming_tree::{AddName, Addition, ChangeAt, DropName, ListDir, NameResult, NameStep, Walk};
use uid_names::{ByteList, ObjKind, Uid};

/// What a machine hears next: the reply to its operation, unless it is over.
fn heard(world: &mut World, step: NameStep) -> Result<Result<Reply, NameResult>>
    requires { IsStep step }
    ensures { IfOk result (λ told. IfOk told (FitsSaid step)) }
{
    match step {
        NameStep::Over(result) => Ok(Err(result)),
        NameStep::Do(op) => Ok(Ok(world.reply(&op)?)),
    }
}

/// What is at a path; a link at its end is followed or not.
pub fn walk(world: &mut World, path: &[u8], last: bool) -> Result<NameResult>
    requires { IsSome (route_of path.now) }
{
    let mut machine = Walk::new(world.alloc, world.site()?, path, world.entry(), last)?;
    walk_to_end(world, &mut machine)
}

/// The list of a directory by its path.
pub fn list(world: &mut World, path: &[u8]) -> Result<NameResult>
    requires { IsSome (route_of path.now) }
{
    let mut machine = ListDir::new(world.alloc, world.site()?, path, world.entry())?;
    list_to_end(world, &mut machine)
}

/// The addition of an object's name.
pub fn add(
    world: &mut World,
    path: &[u8],
    kind: ObjKind,
    room: u32,
    text: Option<ByteList>,
) -> Result<NameResult>
    requires path { IsSome (route_of path.now) }
    requires room { IsRoom room }
    requires text { IsText kind text }
{
    let (site, working) = (world.site()?, world.entry());
    let mut machine = AddName::new(world.alloc, site, path, working, kind, room, text)?;
    add_to_end(world, &mut machine)
}

/// The removal of a name.
pub fn remove(world: &mut World, path: &[u8]) -> Result<NameResult>
    requires { IsSome (route_of path.now) }
{
    let mut machine = DropName::new(world.alloc, world.site()?, path, world.entry())?;
    remove_to_end(world, &mut machine)
}

/// The addition of a name to a directory by its object.
pub fn add_at(world: &mut World, dir: Uid, what: Addition) -> Result<NameResult>
    requires { IsAddition what }
{
    let mut machine = ChangeAt::add(world.alloc, dir, what);
    change_to_end(world, &mut machine)
}

/// The removal of a name from a directory by its object.
pub fn remove_at(world: &mut World, dir: Uid, name: Component) -> Result<NameResult> {
    let mut machine = ChangeAt::remove(world.alloc, dir, name);
    change_to_end(world, &mut machine)
}

/// The result of a walk that was not begun.
fn walk_to_end(world: &mut World, machine: &mut Walk) -> Result<NameResult>
    requires { IsReady walking_asks machine.old None }
{
    let mut told: Option<Reply> = None;
    'steps: for _ in 0..MOST_OPERATIONS {
        let step = machine.next(world.alloc, told.as_ref())?;
        match heard(world, step)? {
            Ok(reply) => told = Some(reply),
            Err(result) => return Ok(result),
        }
    }
    Err(Undone::NoEnd)
}

/// The result of a listing that was not begun.
fn list_to_end(world: &mut World, machine: &mut ListDir) -> Result<NameResult>
    requires { IsReady by_path_asks machine.old None }
{
    let mut told: Option<Reply> = None;
    'steps: for _ in 0..MOST_OPERATIONS {
        let step = machine.next(world.alloc, told.as_ref())?;
        match heard(world, step)? {
            Ok(reply) => told = Some(reply),
            Err(result) => return Ok(result),
        }
    }
    Err(Undone::NoEnd)
}

/// The result of an addition that was not begun.
fn add_to_end(world: &mut World, machine: &mut AddName) -> Result<NameResult>
    requires { IsReady by_path_asks machine.old None }
{
    let mut told: Option<Reply> = None;
    'steps: for _ in 0..MOST_OPERATIONS {
        let step = machine.next(world.alloc, told.as_ref())?;
        match heard(world, step)? {
            Ok(reply) => told = Some(reply),
            Err(result) => return Ok(result),
        }
    }
    Err(Undone::NoEnd)
}

/// The result of a removal that was not begun.
fn remove_to_end(world: &mut World, machine: &mut DropName) -> Result<NameResult>
    requires { IsReady by_path_asks machine.old None }
{
    let mut told: Option<Reply> = None;
    'steps: for _ in 0..MOST_OPERATIONS {
        let step = machine.next(world.alloc, told.as_ref())?;
        match heard(world, step)? {
            Ok(reply) => told = Some(reply),
            Err(result) => return Ok(result),
        }
    }
    Err(Undone::NoEnd)
}

/// The result of a change of a directory that was not begun.
fn change_to_end(world: &mut World, machine: &mut ChangeAt) -> Result<NameResult>
    requires { IsReady changing_asks machine.old None }
{
    let mut told: Option<Reply> = None;
    'steps: for _ in 0..MOST_OPERATIONS {
        let step = machine.next(world.alloc, told.as_ref())?;
        match heard(world, step)? {
            Ok(reply) => told = Some(reply),
            Err(result) => return Ok(result),
        }
    }
    Err(Undone::NoEnd)
}
