//! What is added to directories.
use dir_records::Component;
use uid_names::{ByteList, ObjKind};

/// A name with the object that is made for it. `room` is in pages; a link has a text.
#[derive(Drop)]
pub struct Addition {
    pub name: Component,
    pub kind: ObjKind,
    pub room: u32,
    pub text: Option<ByteList>,
}
