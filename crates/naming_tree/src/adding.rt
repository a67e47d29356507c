//! Names that are added to directories that are loaded: what is asked for them.
ghost use Rattle.std.specs.Prelude.{◌≡◌, Some, IfOk};
ghost use Rattle.dom_history.specs.Ranges.{IsOp};
ghost use Rattle.dom_history.specs.declared.op.Op.TheVariants.{Store};
ghost use Rattle.dom_history.specs.declared.op.Spot.TheVariants.{Of};
ghost use Rattle.dir_records.specs.Records.{row_bytes};
ghost use Rattle.naming_tree.specs.Additions.{added_row, IsAddition};
ghost use Rattle.naming_tree.specs.Placing.{store_record, IsThere};
ghost use Rattle.naming_tree.specs.Adding.{add_in, on_made, went_on, on_named, add_heard, add_op, text_of, IsAddStage, IsTexted};

use crate::addition::Addition;
use crate::changing::{Next, Stage};
use crate::ending::Ending;
use crate::placed::{Placed, lock, store_record, unlock};
use crate::session::{Held, Opened, is_fine};
use crate::step::NameResult;
use dir_records::{DirRow, Directory, MOST_RECORDS, write_row};
use dom_history::{Op, Reply, Spot};
use std::alloc::Global;
use uid_names::{NoMemory, Uid};

/// What is asked for an addition once its directory is loaded: the object is made, the text of a link stored into it,
/// and the record stored.
#[derive(Clone, Copy)]
pub enum AddStage {
    Make { opened: Opened, place: u32 },
    LockText(Placed),
    StoreText(Placed),
    UnlockText(Placed),
    StoreName(Placed),
}

/// Goes on with a place for the name in a directory that was read, if it is new and there is one.
pub fn add_name(what: &Addition, directory: &Directory, opened: &Opened) -> Next
    ensures { result ≡ add_in what.now directory.now opened.now }
{
    if directory.find(&what.name).is_some() {
        return Next::End(Ending::decided(opened, NameResult::NameExists));
    }
    let place = directory.free_place();
    if place < MOST_RECORDS {
        Next::To(Stage::Adds(AddStage::Make {
            opened: *opened,
            place: place as u32,
        }))
    } else {
        Next::End(Ending::decided(opened, NameResult::DirFull))
    }
}

/// Goes on with the object that was made for the name.
fn made(
    alloc: Global,
    texted: bool,
    opened: &Opened,
    place: u32,
    reply: &Reply,
) -> Result<Next, NoMemory>
    ensures { IfOk result (λ next. next ≡ on_made texted opened.now place reply.now) }
{
    let Reply::Made(uid) = reply else {
        return Next::refused(alloc, Some(opened.held()), reply);
    };
    let made = Placed {
        opened: *opened,
        place,
        uid: *uid,
    };
    Ok(Next::To(Stage::Adds(if texted {
        AddStage::LockText(made)
    } else {
        AddStage::StoreName(made)
    })))
}

/// Goes on in a stage, or gives up what is held.
fn go_on(alloc: Global, stage: AddStage, held: Held, reply: &Reply) -> Result<Next, NoMemory>
    ensures { IfOk result (λ next. next ≡ went_on stage held reply.now) }
{
    if is_fine(reply) {
        return Ok(Next::To(Stage::Adds(stage)));
    }
    Next::refused(alloc, Some(held), reply)
}

/// Comes to its end once the record is stored.
fn named(alloc: Global, made: &Placed, reply: &Reply) -> Result<Next, NoMemory>
    ensures { IfOk result (λ next. next ≡ on_named made.now reply.now) }
{
    if is_fine(reply) {
        let come = NameResult::Added(made.uid);
        return Ok(Next::End(Ending::completed(&made.opened, come)));
    }
    Next::refused(alloc, Some(made.opened.held()), reply)
}

/// The store of the text of a link that was made.
fn store_text(alloc: Global, what: &Addition, uid: Uid) -> Result<Op, NoMemory>
    requires what { IsAddition what.now }
    requires text { IsTexted what.now.text }
    ensures value { IfOk result (λ op. op ≡ Store (Of uid 0) (text_of what.now.text)) }
    ensures range { IfOk result IsOp }
{
    let _number = uid.number();
    match &what.text {
        Some(text) => Ok(Op::Store {
            spot: Spot::Of(uid, 0),
            bytes: text.copy(alloc)?,
        }),
        None => unreachable!(),
    }
}

/// The store of the record of an object that was made.
fn store_name(alloc: Global, what: &Addition, made: &Placed) -> Result<Op, NoMemory>
    requires { IsThere made.now }
    ensures value { IfOk result (λ op. op ≡ store_record made.now.opened made.now.place (row_bytes (added_row what.now made.now.uid))) }
    ensures range { IfOk result IsOp }
{
    let row = DirRow {
        kind: what.kind,
        name: what.name,
        uid: made.uid,
    };
    store_record(alloc, &made.opened, made.place, &write_row(&row))
}

impl AddStage {
    /// Takes in the reply to its operation. `texted` where a text is to be stored.
    pub fn hear(&self, alloc: Global, texted: bool, reply: &Reply) -> Result<Next, NoMemory>
        ensures { IfOk result (λ next. next ≡ add_heard texted self.now reply.now) }
    {
        match self {
            AddStage::Make { opened, place } => made(alloc, texted, opened, *place, reply),
            AddStage::LockText(made) => {
                go_on(alloc, AddStage::StoreText(*made), made.opened.held(), reply)
            }
            AddStage::StoreText(made) => {
                go_on(alloc, AddStage::UnlockText(*made), made.held(), reply)
            }
            AddStage::UnlockText(made) => {
                go_on(alloc, AddStage::StoreName(*made), made.opened.held(), reply)
            }
            AddStage::StoreName(made) => named(alloc, made, reply),
        }
    }

    /// Its operation.
    pub fn op(&self, alloc: Global, what: &Addition) -> Result<Op, NoMemory>
        requires what { IsAddition what.now }
        requires stage { IsAddStage what.now self.now }
        ensures value { IfOk result (λ op. op ≡ add_op what.now self.now) }
        ensures range { IfOk result IsOp }
    {
        match self {
            AddStage::Make { opened, place: _ } => Ok(Op::New {
                home: opened.uid.home(),
                kind: what.kind,
                room: what.room,
            }),
            AddStage::LockText(made) => Ok(lock(made.uid)),
            AddStage::StoreText(made) => store_text(alloc, what, made.uid),
            AddStage::UnlockText(made) => Ok(unlock(made.uid)),
            AddStage::StoreName(made) => store_name(alloc, what, made),
        }
    }
}
